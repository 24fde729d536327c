//! The sets that ports are in, and the turns of those that are ready there.
ghost use Rattle.std.specs.Prelude.{◌≡◌, ◌≢◌, ◌↔◌, ◌+◌, ◌++◌, ◌∷◌, [], ℕ, IsTrue, true, Some, None, IfSome, IfNone, IfOk, OnOk, OnErr, length, slice_get};
ghost use Rattle.std.specs.List.{Contains};
ghost use Rattle.std.specs.Option.{option_map};
ghost use Rattle.std.specs.FinMap as map;
ghost use Rattle.port_base.specs.Turns.{turns_of};
ghost use Rattle.port_base.specs.Memberships.{membership_in};
ghost use Rattle.port_base.specs.declared.Membership.TheVariants.{Nowhere};

use crate::{Message, Ports, key_at, key_of};
use mach_types::{PortId, SetId};
use port_base::Membership;
use port_base::by_key::{has_messages, ids_of, member_at, place_at, restart_at};
use port_base::moves::{leave, leave_front, leave_one, settle};
use shared_lists::FurtherLists;
use std::alloc::{AllocError, Global};
use std::marker::Model;

/// Those of a port's sets that are yet to be told, the first of them first.
#[derive(Drop)]
pub struct PortSets<'a> {
    // The first of the port's sets, where it is yet to be told.
    first: Option<u64>,
    // The others.
    more: FurtherLists<'a>,
}

impl<'a> Model for PortSets<'a> {
    ghost use Rattle.std.specs.Prelude.{ℕ, List, ◌++◌};
    ghost use Rattle.std.specs.Coded.{coded_list, coded_ℕ};
    ghost use Rattle.std.specs.Option.{option_to_list};

    ghost Value = { List ℕ };

    ghost coded = { coded_list coded_ℕ };

    ghost view = { λ a. option_to_list a.first ++ a.more };
}

impl<'a> PortSets<'a> {
    /// The next of them, if there is one. Constant time.
    pub fn next_set(&mut self) -> Option<SetId>
        ensures some { IfSome result (λ set. self.old ≡ set ∷ self.new) }
        ensures none { IfNone result ((self.old ≡ []) × (self.new ≡ [])) }
    {
        if let Some(first) = self.first.take() {
            return Some(SetId::new(first));
        }
        let set = self.more.next_list()?;
        Some(SetId::new(set))
    }
}

impl<M: Message> Ports<M> {
    ghost use Rattle.port.specs.Ports.{PortView, IsLive, with_port, IsReadyIn, NoneReadyIn, IsIn, NoneIn, sets_in, in_set, with_sets, restarted, PassesTurn};
    ghost use Rattle.member_lists.specs.Lists.{without};

    /// The port of the set that has a message and whose turn it is, if there is one. A port gets its turn at
    /// the end: when it becomes ready in the set, and when its turn there is passed. Constant time.
    pub fn first_ready(&self, set: SetId) -> Option<PortId>
        ensures first { result ≡ slice_get (turns_of self.now.bare.ready set) 0 }
        ensures some { IfSome result (λ port. IsReadyIn self.now.bare set port) }
        ensures none { IfNone result (NoneReadyIn self.now.bare set) }
    {
        let key = self.sets.first_ready(set.number())?;
        Some(self.records[key].id)
    }

    /// Passes a port's turn in the set, where it is this port's: it has its turn there after all others that
    /// are ready. Its turns in other sets stay. Takes no memory. Constant time.
    #[inline(always)]
    pub fn pass_turn(&mut self, set: SetId, port: PortId)
        ensures after { PassesTurn self.old.bare set port self.new.bare }
        ensures counts { self.new.counts ≡ self.old.counts }
    {
        let Some(first) = self.first_ready(set) else {
            return;
        };
        let list = set.number();
        if first.number() == port.number() {
            self.sets.pass_turn(list);
        }
    }

    /// A port of the set, if there is one. Constant time.
    pub fn first_member(&self, set: SetId) -> Option<PortId>
        ensures some { IfSome result (λ port. IsIn self.now.bare set port) }
        ensures none { IfNone result (NoneIn self.now.bare set) }
    {
        let key = self.sets.first(set.number())?;
        Some(self.records[key].id)
    }

    /// The ports of the set, in no order that is promised. Linear in their number.
    ///
    /// An error means that memory was refused.
    pub fn members(&self, set: SetId, alloc: Global) -> Result<Vec<PortId>, AllocError>
        ensures only { IfOk result (λ ports. (port : ℕ) → Contains ports.items port → IsIn self.now.bare set port) }
        ensures all { IfOk result (λ ports. (port : ℕ) (p : PortView M) → map.get self.now.bare.ports port ≡ Some p → Contains (sets_in p) set → Contains ports.items port) }
    {
        let keys = self.sets.items(set.number(), alloc)?;
        ids_of(&self.records, &keys, alloc)
    }

    /// In how many sets a port is, with the first of them; in none, where the port is gone. Constant time.
    pub fn membership(&self, port: PortId) -> Membership
        ensures live { (p : PortView M) → map.get self.now.bare.ports port ≡ Some p → result ≡ membership_in (sets_in p) }
        ensures gone { map.get self.now.bare.ports port ≡ None → result ≡ Nowhere }
    {
        match key_of(&self.by_id, port) {
            Some(key) => member_at(&self.records, key),
            None => Membership::Nowhere,
        }
    }

    /// Returns whether a port is there and in the set. Takes no memory. Linear in the port's sets.
    pub fn is_in(&self, port: PortId, set: SetId) -> bool
        ensures { IsTrue result ↔ IsIn self.now.bare set port }
    {
        let Some(key) = key_of(&self.by_id, port) else {
            return false;
        };
        let list = set.number();
        match member_at(&self.records, key) {
            Membership::Nowhere => false,
            Membership::Alone(only) => only == list,
            Membership::Several(first) => first == list || self.sets.is_further(list, key),
        }
    }

    /// A port's sets, in the order in which it entered them; `None` where the port is gone. Constant time.
    pub fn sets_of(&self, port: PortId) -> Option<PortSets<'_>>
        ensures { result ≡ option_map sets_in (map.get self.now.bare.ports port) }
    {
        let key = key_of(&self.by_id, port)?;
        Some(PortSets {
            first: member_at(&self.records, key).first(),
            more: self.sets.further_lists(key),
        })
    }

    /// Puts a port into this set alone, out of all others, or into none. In a set that it is in it keeps its turn;
    /// in another it has its turn after those that are ready there. Takes no memory. Constant time, and linear in
    /// the sets that it leaves.
    pub fn move_to(&mut self, port: PortId, set: Option<SetId>)
        requires { IsLive self.old.bare port }
        ensures after { (p : PortView M) → map.get self.old.bare.ports port ≡ Some p → self.new.bare ≡ with_port self.old.bare port (in_set p set) }
        ensures counts { self.new.counts ≡ self.old.counts }
    {
        let key = key_at(&self.by_id, port);
        let was = member_at(&self.records, key);
        let is_ready = has_messages(&self.records, key);
        match set {
            Some(set) => {
                settle(&mut self.sets, key, was, set.number(), is_ready);
                place_at(&mut self.records, key, Membership::Alone(set.number()));
            }
            None => {
                leave(&mut self.sets, key, was, is_ready);
                place_at(&mut self.records, key, Membership::Nowhere);
            }
        }
    }

    /// A port leaves all its sets, and its make-send count and its sequence number are 0: its receive right
    /// goes. Where it is gone, nothing changes. Takes no memory. Constant time, and linear in its sets.
    pub fn restart(&mut self, port: PortId)
        ensures live { (p : PortView M) → map.get self.old.bare.ports port ≡ Some p → self.new.bare ≡ with_port self.old.bare port (restarted p) }
        ensures gone { map.get self.old.bare.ports port ≡ None → self.new ≡ self.old }
        ensures counts { self.new.counts ≡ self.old.counts }
    {
        let Some(key) = key_of(&self.by_id, port) else {
            return;
        };
        let was = member_at(&self.records, key);
        let is_ready = has_messages(&self.records, key);
        leave(&mut self.sets, key, was, is_ready);
        restart_at(&mut self.records, key);
    }

    /// Puts a port into a set that it isn't in, beside those that it is in: it has its turn there after the ports
    /// that are ready. A port's first set takes no memory. Constant time, but where memory moves to a larger place.
    ///
    /// An error means that memory was refused for a further set, or that a port may be in one set alone; all is
    /// then as before.
    pub fn enter(&mut self, port: PortId, set: SetId) -> Result<(), AllocError>
        requires live { IsLive self.old.bare port }
        requires apart { ¬ (IsIn self.old.bare set port) }
        ensures ok { (p : PortView M) → map.get self.old.bare.ports port ≡ Some p → OnOk result (self.new.bare ≡ with_port self.old.bare port (with_sets p (sets_in p ++ set ∷ []))) }
        ensures err { OnErr result (self.new ≡ self.old) }
        ensures further { (p : PortView M) → map.get self.old.bare.ports port ≡ Some p → OnErr result (sets_in p ≢ []) }
        ensures counts { self.new.counts ≡ self.old.counts }
    {
        let key = key_at(&self.by_id, port);
        let is_ready = has_messages(&self.records, key);
        match member_at(&self.records, key).first() {
            None => {
                self.sets.enter(set.number(), key, is_ready);
                place_at(&mut self.records, key, Membership::Alone(set.number()));
                Ok(())
            }
            Some(first) => {
                self.sets.reserve_further()?;
                self.sets.enter_further(set.number(), key, is_ready);
                place_at(&mut self.records, key, Membership::Several(first));
                Ok(())
            }
        }
    }

    /// Takes the first member out of the set, and returns it; `None` where there is none. In its other sets it keeps
    /// its turns. Takes no memory. Constant time.
    pub fn leave_front(&mut self, set: SetId) -> Option<PortId>
        ensures some { IfSome result (λ first. IsIn self.old.bare set first) }
        ensures left { (p : PortView M) → IfSome result (λ first. map.get self.old.bare.ports first ≡ Some p → self.new.bare ≡ with_port self.old.bare first (with_sets p (without set (sets_in p)))) }
        ensures none { IfNone result (NoneIn self.old.bare set × (self.new.bare ≡ self.old.bare)) }
        ensures counts { self.new.counts ≡ self.old.counts }
    {
        let key = self.sets.first(set.number())?;
        let was = member_at(&self.records, key);
        let is_ready = has_messages(&self.records, key);
        let now = leave_front(&mut self.sets, key, was, set.number(), is_ready);
        place_at(&mut self.records, key, now);
        Some(self.records[key].id)
    }

    /// Takes a port out of a set that it is in. In its other sets it keeps its turns. Takes no memory. Linear in
    /// the port's sets.
    pub fn leave(&mut self, port: PortId, set: SetId)
        requires { IsIn self.old.bare set port }
        ensures after { (p : PortView M) → map.get self.old.bare.ports port ≡ Some p → self.new.bare ≡ with_port self.old.bare port (with_sets p (without set (sets_in p))) }
        ensures counts { self.new.counts ≡ self.old.counts }
    {
        let key = key_at(&self.by_id, port);
        let was = member_at(&self.records, key);
        let is_ready = has_messages(&self.records, key);
        let now = leave_one(&mut self.sets, key, was, set.number(), is_ready);
        place_at(&mut self.records, key, now);
    }
}
