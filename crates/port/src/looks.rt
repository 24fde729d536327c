//! What one look-up of a port tells in one.
ghost use Rattle.std.specs.Prelude.{◌≡◌, [], true, Some, None, is_some, length, option_copied, slice_get, IfSome, IfNone};
ghost use Rattle.std.specs.Option.{option_and_then};
ghost use Rattle.std.specs.FinMap as map;

use crate::found::record_near;
use crate::{Found, Message, Ports, key_of};
use mach_types::PortId;
use std::collections::LinkedList;

/// What a receive asks of a port first.
#[derive(Clone, Copy, Debug, PartialEq, Eq)]
pub struct Standing {
    /// Whether it is in a set.
    pub is_member: bool,
    /// How many messages it has.
    pub queued: usize,
}

impl<M: Message> Ports<M> {
    ghost use Rattle.port.specs.Ports.{PortView, NoneQueued, IsNumberedFront};

    /// The message at the front of a port's queue, if the port is there and has one. Constant time.
    pub fn front(&self, port: PortId) -> Option<&M>
        ensures { option_copied result ≡ option_and_then (λ p. slice_get p.queue 0) (map.get self.now.bare.ports port) }
    {
        let key = key_of(&self.by_id, port)?;
        self.records[key].queue.front()
    }

    /// A port's queue, to read, if the port is there. Constant time.
    pub fn queue(&self, port: PortId) -> Option<&LinkedList<M>>
        ensures { option_copied result ≡ option_and_then (λ p. Some p.queue) (map.get self.now.bare.ports port) }
    {
        let key = key_of(&self.by_id, port)?;
        Some(&self.records[key].queue)
    }

    /// The message at the front of a port's queue, and the sequence number that it is received with, if the
    /// port is there and has one. Constant time.
    #[inline(always)]
    pub fn numbered_front(&self, found: Found) -> Option<(&M, u32)>
        ensures some { IfSome result (λ front. IsNumberedFront self.now.bare found.port front.0.now front.1) }
        ensures none { IfNone result (NoneQueued self.now.bare found.port) }
    {
        let record = record_near(&self.records, &self.by_id, found)?;
        let message = record.queue.front()?;
        Some((message, record.kept.sequence()))
    }

    /// Whether a port is in a set, and how many messages it has, if it is there. Constant time.
    #[inline(always)]
    pub fn standing(&self, found: Found) -> Option<Standing>
        ensures some { IfSome result (λ s. (p : PortView M) → map.get self.now.bare.ports found.port ≡ Some p → (s.is_member ≡ is_some p.attributes.set) × (s.queued ≡ length p.queue)) }
        ensures none { IfNone result (map.get self.now.bare.ports found.port ≡ None) }
        ensures there { IfSome result (λ _. is_some (map.get self.now.bare.ports found.port) ≡ true) }
        ensures alone { (p : PortView M) → map.get self.now.bare.ports found.port ≡ Some p → p.attributes.set ≡ None → p.more ≡ [] }
    {
        let record = record_near(&self.records, &self.by_id, found)?;
        Some(Standing {
            is_member: record.kept.is_member(),
            queued: record.queue.len(),
        })
    }
}
