//! How many rights there are for each port, and what counts one with no look-up of its own.
ghost use Rattle.std.specs.Prelude.{◌≡◌, if◌then◌else◌, ℕ, ◌+◌, ◌-◌, ◌<◌, ◌≤◌, ◌^◌, ◌++◌, ◌∷◌, [], Some, IfSome, IfNone, drop, is_some, slice_get, true};
ghost use Rattle.std.specs.Option.{option_and_then};
ghost use Rattle.std.specs.FinMap as map;
ghost use Rattle.rights.specs.Counts.{all_of, number_of, one_shifted, with_fewer, with_more};
ghost use Rattle.rights.specs.declared.RightKind.TheVariants.{Send};
ghost use Rattle.port_base.specs.Attributes.{one_made, one_received};

use crate::found::{key_near, key_there};
use crate::{Found, Message, Ports, key_at, key_of};
use mach_types::PortId;
use port_base::by_key::{
    add_at, counts_at, make_send_at, push_counted_at, subtract_at, take_counted_at,
};
use port_base::moves::ready;
use rights::{Counts, RightKind};

impl<M: Message> Ports<M> {
    ghost use Rattle.port.specs.Ports.{PortView, HasRights, IsLive, NoneQueued, rights_for, with_port, with_rights};

    /// How many rights there are for a port, if it is there. Constant time.
    pub fn counts(&self, port: PortId) -> Option<Counts>
        ensures { result ≡ map.get self.now.counts port }
    {
        let key = key_of(&self.by_id, port)?;
        Some(counts_at(&self.records, key))
    }

    /// Counts new rights for a port. Takes no memory. Constant time: at most one look-up finds the port.
    #[inline(always)]
    pub fn add_rights(&mut self, found: Found, kind: RightKind, number: u32)
        requires there { HasRights self.old found.port }
        requires fits { all_of (rights_for self.old found.port) + number < 2 ^ 32 }
        ensures { self.new ≡ with_rights self.old found.port (with_more kind number (rights_for self.old found.port)) }
    {
        let key = key_there(&self.records, &self.by_id, found);
        add_at(&mut self.records, key, kind, number);
    }

    /// Counts rights for a port as gone. Takes no memory. Constant time.
    #[inline(always)]
    pub fn take_rights(&mut self, port: PortId, kind: RightKind, number: u32)
        requires there { HasRights self.old port }
        requires some { number ≤ number_of kind (rights_for self.old port) }
        ensures { self.new ≡ with_rights self.old port (with_fewer kind number (rights_for self.old port)) }
    {
        let key = key_at(&self.by_id, port);
        subtract_at(&mut self.records, key, kind, number);
    }

    /// The message at the front of a port's queue, and the port's place, if the port is there and has one. Constant
    /// time.
    #[inline(always)]
    pub fn placed_front(&self, found: Found) -> Option<(&M, usize)>
        ensures some { IfSome result (λ front. option_and_then (λ p. slice_get p.queue 0) (map.get self.now.bare.ports found.port) ≡ Some front.0.now) }
        ensures place { IfSome result (λ front. map.get self.now.places found.port ≡ Some front.1) }
        ensures none { IfNone result (NoneQueued self.now.bare found.port) }
    {
        let key = key_near(&self.records, &self.by_id, found)?;
        let message = self.records[key].queue.front()?;
        Some((message, key))
    }

    /// Takes the message at the front of a port's queue, as [`Ports::take`] does, and counts the right that it was
    /// sent to as gone. The place is that which [`Ports::placed_front`] returns: the port isn't looked up again.
    /// Takes no memory. Constant time, and for a port's last message linear in its sets.
    #[inline(always)]
    pub fn take_counted(&mut self, port: PortId, place: usize, kind: RightKind) -> M
        requires place { map.get self.old.places port ≡ Some place }
        requires waits { is_some (option_and_then (λ p. slice_get p.queue 0) (map.get self.old.bare.ports port)) ≡ true }
        requires some { 1 ≤ number_of kind (rights_for self.old port) }
        ensures front { Some result ≡ option_and_then (λ p. slice_get p.queue 0) (map.get self.old.bare.ports port) }
        ensures taken { (p : PortView M) → map.get self.old.bare.ports port ≡ Some p → self.new.bare ≡ record (with_port self.old.bare port (record p { queue = drop 1 p.queue; attributes = one_received p.attributes })) { spare = self.old.bare.spare + 1 } }
        ensures counts { self.new.counts ≡ map.insert self.old.counts port (with_fewer kind 1 (rights_for self.old port)) }
    {
        take_counted_at(
            &mut self.records,
            place,
            &mut self.sets,
            &mut self.spare,
            kind,
        )
    }

    /// Counts a send right made from a port's receive right, modulo 2^32, and among the port's rights. Takes no
    /// memory. Constant time.
    #[inline(always)]
    pub fn make_send(&mut self, found: Found)
        requires there { HasRights self.old found.port }
        requires fits { all_of (rights_for self.old found.port) + 1 < 2 ^ 32 }
        ensures after { (p : PortView M) → map.get self.old.bare.ports found.port ≡ Some p → self.new.bare ≡ with_port self.old.bare found.port (record p { attributes = one_made p.attributes }) }
        ensures there { IsLive self.old.bare found.port }
        ensures counts { self.new.counts ≡ map.insert self.old.counts found.port (with_more Send 1 (rights_for self.old found.port)) }
    {
        let key = key_there(&self.records, &self.by_id, found);
        make_send_at(&mut self.records, key);
    }

    /// Puts a message at the end of a port's queue, as [`Ports::enqueue`] does. Counts a send-once right of the port
    /// as the one that the message was sent to, if it was one. Takes no memory. Constant time, and for a port's first
    /// message linear in its sets.
    #[inline(always)]
    pub fn enqueue_counted(&mut self, found: Found, message: M, once: bool)
        requires live { IsLive self.old.bare found.port }
        requires spare { 0 < self.old.bare.spare }
        requires some { once ≡ true → 0 < (rights_for self.old found.port).send_once }
        requires fits { all_of (rights_for self.old found.port) < 2 ^ 32 }
        ensures after { (p : PortView M) → map.get self.old.bare.ports found.port ≡ Some p →
            self.new.bare ≡ record (with_port self.old.bare found.port (record p { queue = p.queue ++ message ∷ [] })) { spare = self.old.bare.spare - 1 } }
        ensures counts { self.new.counts ≡ (if once then map.insert self.old.counts found.port (one_shifted (rights_for self.old found.port)) else self.old.counts) }
    {
        let key = key_there(&self.records, &self.by_id, found);
        let sets = push_counted_at(&mut self.records, key, &mut self.spare, message, once);
        ready(&mut self.sets, key, sets);
    }
}
