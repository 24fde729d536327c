//! The ports, to read: what is kept of each, its messages, and the members of sets.
ghost use Rattle.std.specs.Prelude.{◌≡◌, ◌↔◌, ◌<◌, ◌≤◌, [], ℕ, IfNone, IfOk, IfSome, IsTrue, None, Some, is_some, length, option_copied, slice_get, true, false};
ghost use Rattle.std.specs.List.{Contains};
ghost use Rattle.std.specs.Option.{option_and_then, option_map};
ghost use Rattle.std.specs.FinMap as map;
ghost use Rattle.mach_types.specs.Numbers.{most_identities};
ghost use Rattle.circularity.specs.Chains.{LeadsToAny};
ghost use Rattle.port.specs.Ports.{IsIn, IsNumberedFront, NoneIn, NoneQueued, PortView, sets_in};
ghost use Rattle.port_base.specs.Memberships.{membership_in};
ghost use Rattle.port_base.specs.declared.Membership.TheVariants as AnyMembership;
ghost use Rattle.port.specs.Turns.{turns_of};
ghost use Rattle.port_set.specs.Sets.{IsReady, NoneReady};
ghost use Rattle.tables_base.specs.Kept.{Kept};
ghost use Rattle.copyin_base.specs.Worlds.{port_at};

use crate::world::World;
use mach_types::{PortId, SetId};
use port::{Attributes, Found, Membership, PortSets, Standing};
use std::alloc::{AllocError, Global};
use std::collections::LinkedList;
use tables_base::Queued;

impl World {
    /// Returns whether the port is there. Constant time.
    #[inline(always)]
    pub fn has_port(&self, port: PortId) -> bool
        ensures { result ≡ is_some (port_at self.now port) }
    {
        self.ports.contains(port)
    }

    /// The attributes of a port, if it is there. Where they name no set it is in none. Constant time.
    #[inline(always)]
    pub fn find_attributes(&self, port: PortId) -> Option<Attributes>
        ensures is { result ≡ option_map (λ p. p.attributes) (port_at self.now port) }
        ensures none { (p : PortView Kept) → port_at self.now port ≡ Some p → p.attributes.set ≡ None → p.more ≡ [] }
    {
        self.ports.attributes(port)
    }

    /// How many ports there are. Constant time.
    #[inline(always)]
    pub fn count_ports(&self) -> usize
        ensures { result ≡ map.len self.now.ports.ports }
    {
        self.ports.len()
    }

    /// Returns whether all 2^64 identities of ports were given, so that no port can be made. Constant time.
    #[inline(always)]
    pub fn are_ports_exhausted(&self) -> bool
        ensures { IsTrue result ↔ (most_identities ≤ self.now.ports.made) }
    {
        self.ports.is_exhausted()
    }

    /// The identity that the next port made gets: the number of ports made before. Constant time.
    #[inline(always)]
    pub fn next_port(&self) -> PortId
        requires { self.now.ports.made < most_identities }
        ensures { result ≡ self.now.ports.made }
    {
        self.ports.next_id()
    }

    /// Returns whether the port is there and has fewer messages than its limit. Constant time.
    #[inline(always)]
    pub fn has_room(&self, found: Found) -> bool
        ensures live { (p : PortView Kept) → port_at self.now found.port ≡ Some p → (IsTrue result ↔ (length p.queue < p.attributes.limit)) }
        ensures gone { port_at self.now found.port ≡ None → result ≡ false }
    {
        self.ports.has_room(found)
    }

    /// How many messages a port has, 0 where it is gone. Constant time.
    #[inline(always)]
    pub fn queued(&self, port: PortId) -> usize
        ensures live { (p : PortView Kept) → port_at self.now port ≡ Some p → result ≡ length p.queue }
        ensures gone { port_at self.now port ≡ None → result ≡ 0 }
    {
        self.ports.queued(port)
    }

    /// A port's queue, to read, if the port is there. Constant time.
    #[inline(always)]
    pub fn queue(&self, port: PortId) -> Option<&LinkedList<Queued>>
        ensures { option_copied result ≡ option_and_then (λ p. Some p.queue) (port_at self.now port) }
    {
        self.ports.queue(port)
    }

    /// The message at the front of a port's queue, if the port is there and has one. Constant time.
    #[inline(always)]
    pub fn front(&self, port: PortId) -> Option<&Queued>
        ensures { option_copied result ≡ option_and_then (λ p. slice_get p.queue 0) (port_at self.now port) }
    {
        self.ports.front(port)
    }

    /// The message at the front of a port's queue, and the sequence number that it is received with, if the
    /// port is there and has one. Constant time.
    #[inline(always)]
    pub fn numbered_front(&self, found: Found) -> Option<(&Queued, u32)>
        ensures some { IfSome result (λ front. IsNumberedFront self.now.ports found.port front.0.now front.1) }
        ensures none { IfNone result (NoneQueued self.now.ports found.port) }
    {
        self.ports.numbered_front(found)
    }

    /// Whether a port is in a set, and how many messages it has, if it is there. Constant time.
    #[inline(always)]
    pub fn standing(&self, found: Found) -> Option<Standing>
        ensures some { IfSome result (λ s. (p : PortView Kept) → port_at self.now found.port ≡ Some p → (s.is_member ≡ is_some p.attributes.set) × (s.queued ≡ length p.queue)) }
        ensures none { IfNone result (port_at self.now found.port ≡ None) }
        ensures there { IfSome result (λ _. is_some (port_at self.now found.port) ≡ true) }
        ensures nowhere { (p : PortView Kept) → port_at self.now found.port ≡ Some p → p.attributes.set ≡ None → p.more ≡ [] }
    {
        self.ports.standing(found)
    }

    /// The member of the set that has a message and whose turn it is, if there is one (IPC Interface,
    /// `mach_msg`, receiving by a port set). Constant time.
    #[inline(always)]
    pub fn ready_member(&self, set: SetId) -> Option<PortId>
        ensures first { result ≡ slice_get (turns_of self.now.ports.ready set) 0 }
        ensures some { IfSome result (λ port. IsReady self.now.ports set port) }
        ensures none { IfNone result (NoneReady self.now.ports set) }
    {
        port_set::ready_member(&self.ports, set)
    }

    /// Returns whether a message to `destination` that carries the receive rights of the ports `carried` would
    /// close a loop (IPC Interface, `mach_msg`; the rule is this project's own). Takes no memory. Linear in the
    /// ports in whose queues receive rights lie, one in another's, and in the ports carried.
    #[inline(always)]
    pub fn closes_loop(&self, destination: PortId, carried: &[PortId]) -> bool
        ensures { IsTrue result ↔ LeadsToAny self.now.ports destination carried.now }
    {
        circularity::closes_loop(&self.ports, destination, carried)
    }

    /// In how many sets a port is, with the first of them; in none, where the port is gone. Constant time.
    #[inline(always)]
    pub fn membership(&self, port: PortId) -> Membership
        ensures live { (p : PortView Kept) → port_at self.now port ≡ Some p → result ≡ membership_in (sets_in p) }
        ensures gone { port_at self.now port ≡ None → result ≡ AnyMembership.Nowhere }
    {
        self.ports.membership(port)
    }

    /// Returns whether a port is there and in the set. Takes no memory. Linear in the port's sets.
    #[inline(always)]
    pub fn is_in(&self, port: PortId, set: SetId) -> bool
        ensures { IsTrue result ↔ IsIn self.now.ports set port }
    {
        self.ports.is_in(port, set)
    }

    /// A port's sets, in the order in which it entered them; `None` where the port is gone. Constant time.
    #[inline(always)]
    pub fn sets_of(&self, port: PortId) -> Option<PortSets<'_>>
        ensures { result ≡ option_map sets_in (port_at self.now port) }
    {
        self.ports.sets_of(port)
    }

    /// A port of the set, if there is one. Constant time.
    #[inline(always)]
    pub fn first_member(&self, set: SetId) -> Option<PortId>
        ensures some { IfSome result (λ port. IsIn self.now.ports set port) }
        ensures none { IfNone result (NoneIn self.now.ports set) }
    {
        self.ports.first_member(set)
    }

    /// The ports of the set, in no order that is promised. Linear in their number.
    ///
    /// An error means that memory was refused.
    #[inline(always)]
    pub fn members(&self, set: SetId, alloc: Global) -> Result<Vec<PortId>, AllocError>
        ensures only { IfOk result (λ ports. (port : ℕ) → Contains ports.items port → IsIn self.now.ports set port) }
        ensures all { IfOk result (λ ports. (port : ℕ) (p : PortView Kept) → port_at self.now port ≡ Some p → Contains (sets_in p) set → Contains ports.items port) }
    {
        self.ports.members(set, alloc)
    }
}
