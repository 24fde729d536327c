//! Which queued message carries a port's receive right.
use copyin_base::{Queued, World};
use mach_fates::{Fates, Origin};
use mach_types::PortId;
use number_map::NumberMap;
use std::alloc::{AllocError, Global};

/// For each port whose receive right a queued message carries, where the message came from.
#[derive(Drop)]
pub(crate) struct Carriers {
    by_port: NumberMap<Origin>,
}

impl Carriers {
    /// Has no port. Takes no memory.
    pub(crate) fn new(alloc: Global) -> Carriers {
        Carriers {
            by_port: NumberMap::new(alloc),
        }
    }

    /// Returns where the message came from that carries the port's receive right, if one does.
    pub(crate) fn get(&self, port: PortId) -> Option<Origin> {
        self.by_port.get(port.number())
    }

    /// Notes the receive rights that the port's messages carry.
    pub(crate) fn note_queue(
        &mut self,
        world: &World,
        fates: &Fates,
        port: PortId,
    ) -> Result<(), AllocError> {
        let Some(queue) = world.queue(port) else {
            return Ok(());
        };
        let Some(origins) = fates.origins(port) else {
            return Ok(());
        };
        let mut origins = origins.iter();
        for queued in queue.iter() {
            if let Some(origin) = origins.next() {
                self.note_message(queued, origin)?;
            }
        }
        Ok(())
    }

    /// Notes the receive rights that the message carries.
    fn note_message(&mut self, queued: &Queued, origin: &Origin) -> Result<(), AllocError> {
        for place in 0..queued.count_rights() {
            if let Some(port) = queued.receive_at(place) {
                self.put(port, origin)?;
            }
        }
        Ok(())
    }

    /// Notes that the message that came from there carries the port's receive right.
    fn put(&mut self, port: PortId, origin: &Origin) -> Result<(), AllocError> {
        if self.by_port.get(port.number()).is_some() {
            return Ok(());
        }
        self.by_port.reserve(1)?;
        self.by_port.insert(port.number(), *origin);
        Ok(())
    }
}
