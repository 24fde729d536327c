//! What a step did to one port.
ghost use Rattle.std.specs.Prelude.{◌≡◌, IfOk, OnOk};
ghost use Rattle.std.specs.Option.{option_map};
ghost use Rattle.mach_fates.specs.Keeping.{entries_in, or_nothing, Appends, Settles};

use crate::effects::{Effects, Lost};
use crate::origin::{Come, NO_TITLE, Origin, Sender, Title, Waiting, title_of};
use copyin_base::{Queued, World};
use mach_types::PortId;
use std::alloc::{AllocError, Global};
use std::collections::LinkedList;

/// The entry whose step is followed.
#[derive(Clone, Copy)]
pub(crate) struct Turn {
    /// Its number, from 1.
    pub(crate) number: u64,
    /// Who made its call.
    pub(crate) sender: Sender,
}

impl Effects {
    /// Returns what is queued at the port after the step, if it lives then. `before` is what was queued before the step,
    /// without what the step took.
    pub(crate) fn settle(
        &mut self,
        alloc: Global,
        world: &World,
        port: u64,
        before: Option<Waiting>,
        turn: &Turn,
    ) -> Result<Option<Waiting>, AllocError>
        ensures { IfOk result (λ after. Settles turn.now.number world.now port (option_map entries_in before) (option_map entries_in after)) }
    {
        if !world.has_port(PortId::new(port)) {
            self.lose(port, before)?;
            return Ok(None);
        }
        let mut waiting = or_none(alloc, before);
        self.append(alloc, world, port, &mut waiting, turn)?;
        Ok(Some(waiting))
    }

    /// Notes that the port died, with these messages, if it lived.
    fn lose(&mut self, port: u64, before: Option<Waiting>) -> Result<(), AllocError> {
        let Some(waiting) = before else {
            return Ok(());
        };
        self.died.push(PortId::new(port))?;
        let mut place = waiting.first();
        for origin in waiting.origins {
            self.lost.push(Lost {
                port,
                place,
                origin,
            })?;
            place = place.wrapping_add(1);
        }
        Ok(())
    }

    /// Appends this entry's origin as many times as the port's queue is longer.
    fn append(
        &mut self,
        alloc: Global,
        world: &World,
        port: u64,
        waiting: &mut Waiting,
        turn: &Turn,
    ) -> Result<(), AllocError>
        ensures { OnOk result (Appends turn.now.number world.now port (entries_in waiting.old) (entries_in waiting.new)) }
    {
        let queued = world.queued(PortId::new(port));
        let mut titles = Vec::new(alloc);
        self.newest(
            world,
            PortId::new(port),
            queued.saturating_sub(waiting.origins.len()),
            &mut titles,
        )?;
        for place in waiting.origins.len()..queued {
            let origin = self.come(titles.pop(), port, waiting.came, turn)?;
            waiting.came = waiting.came.wrapping_add(1);
            waiting.origins.push_back(origin)?;
        }
        Ok(())
    }

    /// Lists what the newest messages of the port's queue are called, so many, the last first. Notes the ports whose receive
    /// rights they carry.
    fn newest(
        &mut self,
        world: &World,
        port: PortId,
        count: usize,
        titles: &mut Vec<Title>,
    ) -> Result<(), AllocError> {
        let Some(queue) = world.queue(port) else {
            return Ok(());
        };
        for queued in queue.iter().rev().take(count) {
            self.note_carried(queued)?;
            titles.push(title_of(queued))?;
        }
        Ok(())
    }

    /// Notes that a message with this title came to the port's place, and returns its origin.
    fn come(
        &mut self,
        title: Option<Title>,
        port: u64,
        place: u64,
        turn: &Turn,
    ) -> Result<Origin, AllocError>
        ensures { IfOk result (λ origin. origin.entry ≡ turn.now.number) }
    {
        let title = title.unwrap_or(NO_TITLE);
        let origin = Origin {
            entry: turn.number,
            serial: self.serial,
            sender: turn.sender,
            id: title.id,
            is_notice: title.is_notice,
        };
        self.serial = self.serial.wrapping_add(1);
        self.came.push(Come {
            port,
            place,
            origin,
        })?;
        Ok(origin)
    }

    /// Notes the ports whose receive rights the message carries.
    fn note_carried(&mut self, queued: &Queued) -> Result<(), AllocError> {
        for place in 0..queued.count_rights() {
            if let Some(port) = queued.receive_at(place) {
                self.carried.push(port)?;
            }
        }
        Ok(())
    }
}

/// Returns what was queued, or nothing for a port that didn't live.
fn or_none(alloc: Global, before: Option<Waiting>) -> Waiting
    ensures { entries_in result ≡ or_nothing (option_map entries_in before) }
{
    match before {
        Some(waiting) => waiting,
        None => Waiting {
            came: 0,
            origins: LinkedList::new(alloc),
        },
    }
}
