//! The ports that died.
use mach_fates::Effects;
use mach_types::PortId;
use std::alloc::{AllocError, Global};

/// The ports that died, each with the number of its entry, in the order in which they died.
#[derive(Drop)]
pub struct Deaths {
    ports: Vec<(PortId, u64)>,
}

impl Deaths {
    /// Has no port. Takes no memory.
    pub fn new(alloc: Global) -> Deaths {
        Deaths {
            ports: Vec::new(alloc),
        }
    }

    /// Notes the ports that died in the entry of this number, whose effects these are. Returns `AllocError` if out of
    /// memory. Linear in these ports.
    pub fn note(&mut self, effects: &Effects, number: u64) -> Result<(), AllocError> {
        for port in effects.died.as_slice() {
            self.ports.push((*port, number))?;
        }
        Ok(())
    }

    /// Returns the ports, each with the number of its entry. Constant time.
    pub(crate) fn as_slice(&self) -> &[(PortId, u64)] {
        self.ports.as_slice()
    }
}
