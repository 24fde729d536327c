//! What an entry's step did to messages and ports.
use crate::origin::{Come, Origin};
use mach_types::PortId;
use std::alloc::Global;

/// A message that left its queue.
#[derive(Clone, Copy)]
pub struct Lost {
    /// The identity of its port.
    pub port: u64,
    /// Its number among all messages that ever came to the port, from 0.
    pub place: u64,
    /// Where it came from.
    pub origin: Origin,
}

/// What an entry's step did to messages and ports.
#[derive(Drop)]
pub struct Effects {
    /// The ports that died.
    pub died: Vec<PortId>,
    /// The messages that were destroyed with their ports.
    pub lost: Vec<Lost>,
    /// The messages that came, at each port in the order of its queue.
    pub came: Vec<Come>,
    /// The ports whose receive rights these messages carry.
    pub carried: Vec<PortId>,
    // How many messages ever came.
    pub(crate) serial: u64,
}

impl Effects {
    /// Has no effect. Takes no memory.
    pub(crate) fn none(alloc: Global) -> Effects {
        Effects {
            died: Vec::new(alloc),
            lost: Vec::new(alloc),
            came: Vec::new(alloc),
            carried: Vec::new(alloc),
            serial: 0,
        }
    }

    /// Removes the effects. The count of messages stays.
    pub(crate) fn clear(&mut self) {
        self.died.clear();
        self.lost.clear();
        self.came.clear();
        self.carried.clear();
    }
}
