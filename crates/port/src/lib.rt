//! Ports: their queues, attributes and identities, and the message slots that are kept free.
//!
//! A port's queue is a list. A message lies in a slot; slots are made by [`Ports::reserve_slots`] alone
//! and move between the queues, the destroyed messages and the spare ones, so that queueing takes no
//! memory. Identities are given from 0 and never again: one whose port is gone finds nothing.
#![tactic(auto)]

ghost use Rattle.std.specs.Prelude.{◌≡◌, ◌≢◌, ℕ, ◌+◌, ◌-◌, ◌<◌, ◌≤◌, ◌^◌, ◌↔◌, ◌++◌, ◌∷◌, [], List, length, IsTrue, true, false, cond, Some, None, IsSome, is_some, IfSome, IfOk, IfNone, OnOk, OnErr, MatchBool, option_copied, slice_get, drop};
ghost use Rattle.std.specs.List.{Contains};
ghost use Rattle.std.specs.Option.{option_map, option_and_then};
ghost use Rattle.std.specs.FinMap as map;
ghost use Rattle.std.specs.Ordering.{nat_cmp};
ghost use Rattle.number_map.specs.Maps.{MapView};
ghost use Rattle.slab.specs.Slab.{get, with_value, HasRoomFor};
ghost use Rattle.port_base.specs.declared.Record.{Record as AnyRecord};
ghost use Rattle.port_base.specs.Ready.{StandsIn, IsMoved, out_of, at_end};
ghost use Rattle.port_base.specs.Attributes.{one_received};
ghost use Rattle.port.specs.Idle.{IsIdle};
ghost use Rattle.port_base.specs.Records.{ids_at};

mod counts;
mod dying;
mod found;
mod looks;
mod sets;

use found::record_near;
pub use found::{Found, NOWHERE};
pub use looks::Standing;
use mach_types::{PortId, TaskId};
use member_lists::TwoLists;
use number_map::NumberMap;
use port_base::by_key::{
    DOOMED, LOST, NOTED, destroy_at, hold_at, left_at, narrow, note_at, noted_at, pop_at, push_at,
    reserve_record, set_at, take_at,
};
use port_base::moves::{join_two, leave, leave_two, ready, rejoin_two, unready};
use port_base::slots::{blank_slots, pop};
pub use port_base::{Attributes, Holder, Membership, Message};
use port_base::{Kept, Record};
use rights::Counts;
pub use sets::PortSets;
use shared_lists::SharedLists;
use slab::Slab;
use std::alloc::{AllocError, Global};
use std::collections::LinkedList;
use std::marker::Model;

// A list has fewer elements than this.
const MOST_SLOTS: usize = 1 << 63;

/// Ports by identity, messages that were destroyed, and spare message slots. Without ports and slots
/// nothing is allocated.
#[derive(Drop)]
pub struct Ports<M: Message> {
    records: Slab<Record<M>>,
    by_id: NumberMap<u32>,
    // The members of each set, of which those that have messages are ready.
    sets: SharedLists,
    // Those without a holder, in the list LOST or DOOMED.
    waiting: TwoLists,
    // Those noted, in the list NOTED.
    noted: TwoLists,
    next: Option<u64>,
    spare: LinkedList<M>,
    destroyed: LinkedList<M>,
    slots: usize,
}

impl<M: Message> Model for Ports<M> {
    ghost use Rattle.std.specs.Prelude.{length};
    ghost use Rattle.port.specs.Ports.{CountedPorts, counted_code, ports_code};
    ghost use Rattle.port_base.specs.contracts.Attributes as attributes;
    ghost use Rattle.rights.specs.contracts.Counts as counts;

    ghost Value = { CountedPorts M };

    ghost coded = { counted_code (ports_code M.code attributes.the_row.coded) counts.the_row.coded };

    ghost use Rattle.slab.specs.Slab.{get};
    ghost use Rattle.port_base.specs.Records.{lost_list, doomed_list, noted_list};
    ghost use Rattle.port.specs.Records.{ports_of, turns_at, ids_in, made_of, rights_of, IsKept};

    ghost view = { λ a. record {
      bare = record {
        ports = ports_of (get a.records) a.sets a.by_id.map;
        ready = turns_at (get a.records) a.sets.ready.lists;
        made = made_of a.next;
        spare = length a.spare;
        destroyed = a.destroyed;
        lost = ids_in (get a.records) a.waiting lost_list;
        doomed = ids_in (get a.records) a.waiting doomed_list;
        noted = ids_in (get a.records) a.noted noted_list;
        several = a.sets.several;
      };
      counts = rights_of (get a.records) a.by_id.map;
      places = a.by_id.map;
    } };

    ghost invariant = { λ a. IsKept a.records a.by_id.map a.next a.spare a.destroyed a.slots a.sets a.waiting a.noted };
}

// The key of a port's record, if the port is there.
#[inline(always)]
fn key_of(by_id: &NumberMap<u32>, port: PortId) -> Option<usize>
    ensures { result ≡ map.get by_id.now.map port }
{
    match by_id.get(port.number()) {
        Some(key) => Some(key as usize),
        None => None,
    }
}

// The key of a port that is there.
#[inline(always)]
fn key_at(by_id: &NumberMap<u32>, port: PortId) -> usize
    requires { map.contains_key by_id.now.map port ≡ true }
    ensures { map.get by_id.now.map port ≡ Some result }
{
    by_id.value(port.number()) as usize
}

impl<M: Message> Ports<M> {
    ghost use Rattle.mach_types.specs.Numbers.{most_identities};
    ghost use Rattle.member_lists.specs.Lists.{without};
    ghost use Rattle.port.specs.Holding.{CanHold, held, KeepsHolder, KeepsSet, IsHeldBy, IsNotDoomed, NoneHeldBy};
    ghost use Rattle.port_base.specs.Attributes.{first_attributes};
    ghost use Rattle.port.specs.Ports.{PortView, IsLive, with_port, DestroysFirst, NoneQueued};
    ghost use Rattle.port.specs.Records.{with_holder};
    ghost use Rattle.rights.specs.Counts.{no_rights, with_more};
    ghost use Rattle.rights.specs.declared.RightKind.TheVariants.{Receive};
    ghost use Rattle.port_base.specs.declared.Holder.TheVariants as Holder;

    /// No ports, and no slots. `several` says whether a port may be in several sets. Allocates nothing;
    /// constant time.
    pub fn new(alloc: Global, several: bool) -> Ports<M>
        ensures after { result.bare ≡ record { ports = map.empty; ready = map.empty; made = 0; spare = 0; destroyed = []; lost = []; doomed = []; noted = []; several = several } }
        ensures counts { result.counts ≡ map.empty }
    {
        Ports {
            records: Slab::new(alloc),
            by_id: NumberMap::new(alloc),
            sets: SharedLists::new(alloc, several),
            waiting: TwoLists::new(alloc),
            noted: TwoLists::new(alloc),
            next: Some(0),
            spare: LinkedList::new(alloc),
            destroyed: LinkedList::new(alloc),
            slots: 0,
        }
    }

    /// How many ports there are. Constant time.
    pub fn len(&self) -> usize
        ensures { result ≡ map.len self.now.bare.ports }
    {
        self.by_id.len()
    }

    /// How many message slots are spare. Constant time.
    pub fn spare(&self) -> usize
        ensures { result ≡ self.now.bare.spare }
    {
        self.spare.len()
    }

    /// Makes so many more spare slots. Linear in their number.
    ///
    /// An error means that memory was refused; all is then as before.
    #[inline(never)]
    pub fn reserve_slots(&mut self, additional: usize) -> Result<(), AllocError>
        ensures ok { OnOk result (self.new.bare ≡ record self.old.bare { spare = self.old.bare.spare + additional }) }
        ensures err { OnErr result (self.new ≡ self.old) }
        ensures counts { self.new.counts ≡ self.old.counts }
    {
        if additional >= MOST_SLOTS - self.slots {
            return Err(AllocError);
        }
        let mut slots = blank_slots(additional, *self.spare.allocator())?;
        self.spare.append(&mut slots).unwrap();
        self.slots += additional;
        Ok(())
    }

    /// Returns whether all 2^64 identities were given, so that no port can be made. Constant time.
    pub fn is_exhausted(&self) -> bool
        ensures { IsTrue result ↔ (most_identities ≤ self.now.bare.made) }
    {
        self.next.is_none()
    }

    /// The identity that the next port made gets: the number of ports made before. Constant time.
    pub fn next_id(&self) -> PortId
        requires { self.now.bare.made < most_identities }
        ensures { result ≡ self.now.bare.made }
    {
        PortId::new(self.next.unwrap())
    }

    /// Makes a port whose receive right the task holds, its only right: no messages, limit 5, counts 0, in no set
    /// (Port Manipulation Interface, `mach_port_allocate`). Its identity is the number of ports made
    /// before. Constant time, but where the records or the index move to a larger place.
    ///
    /// An error means that memory was refused, or that the records' places would be more than 2^32;
    /// all is then as before.
    pub fn allocate(&mut self, task: TaskId) -> Result<PortId, AllocError>
        requires { self.old.bare.made < most_identities }
        ensures identity { IfOk result (λ id. id ≡ self.old.bare.made) }
        ensures ok { OnOk result (self.new.bare ≡ record self.old.bare { ports = map.insert self.old.bare.ports self.old.bare.made (record { queue = []; attributes = first_attributes task; more = [] }); made = self.old.bare.made + 1 }) }
        ensures counts { OnOk result (self.new.counts ≡ map.insert self.old.counts self.old.bare.made (with_more Receive 1 no_rights)) }
        ensures err { OnErr result (self.new ≡ self.old) }
    {
        let number = self.next.unwrap();
        let id = PortId::new(number);
        reserve_record(&mut self.records)?;
        self.by_id.reserve(1)?;
        let keys = self.records.capacity();
        self.sets.reserve(keys)?;
        self.waiting.reserve(keys)?;
        self.noted.reserve(keys)?;
        let key = self.records.insert_reserved(Record {
            id,
            queue: LinkedList::new(*self.spare.allocator()),
            kept: Kept::new(Attributes::first(task)),
            counts: Counts::first(),
        });
        self.by_id.insert(number, narrow(key));
        self.next = number.checked_add(1);
        Ok(id)
    }

    /// Removes a port that has no messages: it is in no set, neither lost nor doomed, and not noted.
    /// What was allocated for it is freed or kept for others. Returns how many rights there were for it, `None`
    /// where it was gone. Takes no memory. Constant time, and linear in the sets that it was in.
    #[inline(always)]
    pub fn remove(&mut self, port: PortId) -> Option<Counts>
        requires { (p : PortView M) → map.get self.old.bare.ports port ≡ Some p → length p.queue ≡ 0 }
        ensures rights { result ≡ map.get self.old.counts port }
        ensures after { self.new.bare ≡ record self.old.bare { ports = map.remove self.old.bare.ports port; lost = without port self.old.bare.lost; doomed = without port self.old.bare.doomed; noted = without port self.old.bare.noted } }
        ensures counts { self.new.counts ≡ map.remove self.old.counts port }
    {
        match self.by_id.remove(port.number()) {
            Some(key) => {
                let key = key as usize;
                let Record {
                    queue,
                    kept,
                    counts,
                    ..
                } = self.records.remove(key);
                queue.destroy_empty();
                leave(&mut self.sets, key, kept.membership(), false);
                let list = kept.waiting_list();
                leave_two(&mut self.waiting, key, list);
                let list = kept.noting_list();
                leave_two(&mut self.noted, key, list);
                Some(counts)
            }
            None => None,
        }
    }

    /// A port's attributes, if the port is there. Constant time.
    #[inline(always)]
    pub fn attributes(&self, port: PortId) -> Option<Attributes>
        ensures is { result ≡ option_map (λ p. p.attributes) (map.get self.now.bare.ports port) }
        ensures none { (p : PortView M) → map.get self.now.bare.ports port ≡ Some p → p.attributes.set ≡ None → p.more ≡ [] }
    {
        let key = key_of(&self.by_id, port)?;
        Some(self.records[key].kept.attributes())
    }

    /// Who holds a port's receive right, if the port is there. For a way that goes over many ports: this one
    /// is not among those that are found at once from then on. Constant time.
    #[inline(always)]
    pub fn holder(&self, port: PortId) -> Option<Holder>
        ensures { result ≡ option_map (λ p. p.attributes.holder) (map.get self.now.bare.ports port) }
    {
        let key = self.by_id.get_once(port.number())?;
        Some(self.records[key as usize].kept.holder())
    }

    /// The port with its place, if it is there. Constant time.
    #[inline(always)]
    pub fn find(&self, port: PortId) -> Option<Found>
        ensures some { IfSome result (λ found. (found.port ≡ port) × IsLive self.now.bare port) }
        ensures none { IfNone result (map.get self.now.bare.ports port ≡ None) }
    {
        let place = key_of(&self.by_id, port)?;
        Some(Found { port, place })
    }

    /// Returns whether the port is there. Constant time.
    pub fn contains(&self, port: PortId) -> bool
        ensures { result ≡ is_some (map.get self.now.bare.ports port) }
    {
        key_of(&self.by_id, port).is_some()
    }

    /// Sets the limit and the counts of a port; its sets and its holder stay. Takes no memory. Constant time.
    pub fn set_attributes(&mut self, port: PortId, attributes: Attributes)
        requires live { IsLive self.old.bare port }
        requires holder { KeepsHolder self.old.bare port attributes }
        requires set { KeepsSet self.old.bare port attributes }
        ensures after { (p : PortView M) → map.get self.old.bare.ports port ≡ Some p → self.new.bare ≡ with_port self.old.bare port (record p { attributes = attributes }) }
        ensures counts { self.new.counts ≡ self.old.counts }
    {
        let key = key_at(&self.by_id, port);
        set_at(&mut self.records, key, &attributes);
    }

    // Says who holds a port's receive right now; the port leaves the lost and the doomed ones, and
    // is the last of those where it belongs now.
    #[inline(always)]
    fn set_holder(&mut self, port: PortId, holder: Holder)
        requires { IsLive self.old.bare port }
        ensures held { (p : PortView M) → map.get self.old.bare.ports port ≡ Some p → self.new.bare ≡ with_holder self.old.bare port p holder }
        ensures lost { (p : PortView M) → map.get self.old.bare.ports port ≡ Some p → p.attributes.holder ≢ Holder.Nobody → without port self.old.bare.lost ≡ self.old.bare.lost }
        ensures doomed { (p : PortView M) → map.get self.old.bare.ports port ≡ Some p → IsNotDoomed self.old.bare port p → without port self.old.bare.doomed ≡ self.old.bare.doomed }
        ensures counts { self.new.counts ≡ self.old.counts }
    {
        let key = key_at(&self.by_id, port);
        let (was, now) = hold_at(&mut self.records, key, holder);
        rejoin_two(&mut self.waiting, key, was, now);
    }

    /// Says that a port's receive right was lost: nobody holds it, and the port is to be judged, as
    /// the last of those that were lost. Takes no memory. Constant time.
    #[inline(always)]
    pub fn lose(&mut self, port: PortId)
        requires live { IsLive self.old.bare port }
        requires held { (p : PortView M) → map.get self.old.bare.ports port ≡ Some p → CanHold p.attributes.holder }
        ensures after { (p : PortView M) → map.get self.old.bare.ports port ≡ Some p →
            self.new.bare ≡ record (with_port self.old.bare port (held p Holder.Nobody)) { lost = self.old.bare.lost ++ port ∷ [] } }
        ensures counts { self.new.counts ≡ self.old.counts }
    {
        self.set_holder(port, Holder::Nobody);
    }

    /// Says that the task, or a message in the queue, holds the receive right of a port that isn't
    /// doomed; where it was lost, it no longer is. Takes no memory. Constant time.
    pub fn hold(&mut self, port: PortId, holder: Holder)
        requires live { IsLive self.old.bare port }
        requires holder { CanHold holder }
        requires stays { (p : PortView M) → map.get self.old.bare.ports port ≡ Some p → IsNotDoomed self.old.bare port p }
        ensures after { (p : PortView M) → map.get self.old.bare.ports port ≡ Some p →
            self.new.bare ≡ record (with_port self.old.bare port (held p holder)) { lost = without port self.old.bare.lost } }
        ensures counts { self.new.counts ≡ self.old.counts }
    {
        self.set_holder(port, holder);
    }

    /// The port that is to be judged first: that whose receive right was lost first of those that
    /// nobody holds, and that weren't judged. Constant time.
    pub fn first_lost(&self) -> Option<PortId>
        ensures first { result ≡ slice_get self.now.bare.lost 0 }
        ensures some { IfSome result (λ port. IsHeldBy self.now.bare port Holder.Nobody) }
        ensures none { IfNone result (NoneHeldBy self.now.bare Holder.Nobody) }
        ensures all { (port : ℕ) → Contains self.now.bare.lost port ↔ IsHeldBy self.now.bare port Holder.Nobody }
    {
        let key = self.waiting.first(LOST)?;
        Some(self.records[key].id)
    }

    /// The port that was doomed first of those that weren't removed. Constant time.
    pub fn first_doomed(&self) -> Option<PortId>
        ensures first { result ≡ slice_get self.now.bare.doomed 0 }
        ensures some { IfSome result (λ port. IsHeldBy self.now.bare port Holder.Doomed) }
        ensures none { IfNone result (NoneHeldBy self.now.bare Holder.Doomed) }
        ensures all { (port : ℕ) → Contains self.now.bare.doomed port ↔ IsHeldBy self.now.bare port Holder.Doomed }
    {
        let key = self.waiting.first(DOOMED)?;
        Some(self.records[key].id)
    }

    /// Notes a port, as the last of those noted; where it is noted, or gone, nothing changes. Takes
    /// no memory. Constant time.
    pub fn note(&mut self, port: PortId)
        ensures fresh { IsLive self.old.bare port → ¬ (Contains self.old.bare.noted port) → self.new.bare ≡ record self.old.bare { noted = self.old.bare.noted ++ port ∷ [] } }
        ensures again { Contains self.old.bare.noted port → self.new ≡ self.old }
        ensures gone { map.get self.old.bare.ports port ≡ None → self.new ≡ self.old }
        ensures counts { self.new.counts ≡ self.old.counts }
    {
        let Some(key) = key_of(&self.by_id, port) else {
            return;
        };
        let was = noted_at(&self.records, key);
        if was.is_none() {
            note_at(&mut self.records, key, true);
            join_two(&mut self.noted, key, Some(NOTED));
        }
    }

    /// Takes the port that was noted first of those noted. `None` where none is, and all is then as
    /// before. Takes no memory. Constant time.
    pub fn take_noted(&mut self) -> Option<PortId>
        ensures first { result ≡ slice_get self.old.bare.noted 0 }
        ensures taken { IfSome result (λ port. self.new.bare ≡ record self.old.bare { noted = without port self.old.bare.noted }) }
        ensures none { IfNone result (self.new ≡ self.old) }
        ensures live { (port : ℕ) → Contains self.old.bare.noted port → IsLive self.old.bare port }
        ensures counts { self.new.counts ≡ self.old.counts }
    {
        let key = self.noted.first(NOTED)?;
        leave_two(&mut self.noted, key, Some(NOTED));
        note_at(&mut self.records, key, false);
        Some(self.records[key].id)
    }

    /// Returns whether no port is left that was lost, doomed or noted, and no message that was destroyed.
    /// Constant time.
    pub fn is_idle(&self) -> bool
        ensures idle { IsTrue result ↔ IsIdle self.now.bare }
        ensures lost { (port : ℕ) → Contains self.now.bare.lost port ↔ IsHeldBy self.now.bare port Holder.Nobody }
        ensures doomed { (port : ℕ) → Contains self.now.bare.doomed port ↔ IsHeldBy self.now.bare port Holder.Doomed }
    {
        self.waiting.is_empty() & self.noted.is_empty() & self.destroyed.is_empty()
    }

    /// Returns whether the port is there and has fewer messages than its limit. Constant time.
    #[inline(always)]
    pub fn has_room(&self, found: Found) -> bool
        ensures live { (p : PortView M) → map.get self.now.bare.ports found.port ≡ Some p → (IsTrue result ↔ (length p.queue < p.attributes.limit)) }
        ensures gone { map.get self.now.bare.ports found.port ≡ None → result ≡ false }
    {
        match record_near(&self.records, &self.by_id, found) {
            Some(record) => { record.queue.len() < record.kept.limit() as usize }
            None => false,
        }
    }

    /// How many messages a port has, 0 where it is gone. Constant time.
    pub fn queued(&self, port: PortId) -> usize
        ensures live { (p : PortView M) → map.get self.now.bare.ports port ≡ Some p → result ≡ length p.queue }
        ensures gone { map.get self.now.bare.ports port ≡ None → result ≡ 0 }
    {
        match key_of(&self.by_id, port) {
            Some(key) => self.records[key].queue.len(),
            None => 0,
        }
    }

    /// Puts a message at the end of a port's queue, in a spare slot. The port's first message gives it its turn
    /// in each of its sets, after the ports that are ready there. Takes no memory. Constant time, and for a port's
    /// first message linear in its sets.
    #[inline(always)]
    pub fn enqueue(&mut self, port: PortId, message: M)
        requires live { IsLive self.old.bare port }
        requires spare { 0 < self.old.bare.spare }
        ensures after { (p : PortView M) → map.get self.old.bare.ports port ≡ Some p →
            self.new.bare ≡ record (with_port self.old.bare port (record p { queue = p.queue ++ message ∷ [] })) { spare = self.old.bare.spare - 1 } }
        ensures counts { self.new.counts ≡ self.old.counts }
    {
        let key = key_at(&self.by_id, port);
        let sets = push_at(&mut self.records, key, &mut self.spare, message);
        ready(&mut self.sets, key, sets);
    }

    /// Takes the message at the front of a port's queue; its slot is spare again. A port that has more keeps
    /// its turn in each of its sets. `None` where the port is gone or has none, and all is then as before.
    /// Takes no memory. Constant time, and for a port's last message linear in its sets.
    pub fn dequeue(&mut self, port: PortId) -> Option<M>
        ensures front { result ≡ option_and_then (λ p. slice_get p.queue 0) (map.get self.old.bare.ports port) }
        ensures taken { (p : PortView M) → map.get self.old.bare.ports port ≡ Some p → IfSome result (λ m. self.new.bare ≡ record (with_port self.old.bare port (record p { queue = drop 1 p.queue })) { spare = self.old.bare.spare + 1 }) }
        ensures none { IfNone result (self.new ≡ self.old) }
        ensures counts { self.new.counts ≡ self.old.counts }
    {
        let key = key_of(&self.by_id, port)?;
        if self.records[key].queue.is_empty() {
            return None;
        }
        let blank = M::blank(*self.spare.allocator());
        unready(&mut self.sets, key, left_at(&self.records, key));
        Some(pop_at(&mut self.records, key, &mut self.spare, blank))
    }

    /// Takes the message at the front of a port's queue, and raises the port's sequence number by one
    /// modulo 2^32; the message's slot is spare again. A port that has more keeps its turn in each of its
    /// sets. `None` where the port is gone or has none, and all is then as before. Takes no memory.
    /// Constant time, and for a port's last message linear in its sets.
    pub fn take(&mut self, port: PortId) -> Option<M>
        ensures front { result ≡ option_and_then (λ p. slice_get p.queue 0) (map.get self.old.bare.ports port) }
        ensures taken { (p : PortView M) → map.get self.old.bare.ports port ≡ Some p → IfSome result (λ m. self.new.bare ≡ record (with_port self.old.bare port (record p { queue = drop 1 p.queue; attributes = one_received p.attributes })) { spare = self.old.bare.spare + 1 }) }
        ensures none { IfNone result (self.new ≡ self.old) }
        ensures counts { self.new.counts ≡ self.old.counts }
    {
        let key = key_of(&self.by_id, port)?;
        if self.records[key].queue.is_empty() {
            return None;
        }
        Some(take_at(&mut self.records, key, &mut self.sets, &mut self.spare))
    }

    /// Moves the message at the front of a port's queue, in its slot, behind the destroyed ones, and returns
    /// whether there was one. A port that has more keeps its turn in each of its sets. Where the port is gone
    /// or has none, all is as before. Takes no memory. Constant time, and for a port's last message linear in
    /// its sets.
    pub fn destroy_first(&mut self, port: PortId) -> bool
        ensures after { MatchBool result (DestroysFirst self.old.bare port self.new.bare) (NoneQueued self.old.bare port × (self.new.bare ≡ self.old.bare)) }
        ensures counts { self.new.counts ≡ self.old.counts }
    {
        let Some(key) = key_of(&self.by_id, port) else {
            return false;
        };
        if self.records[key].queue.is_empty() {
            return false;
        }
        unready(&mut self.sets, key, left_at(&self.records, key));
        destroy_at(&mut self.records, key, &mut self.destroyed);
        true
    }

    /// The message that was destroyed last of those that weren't taken, if there is one. Constant time.
    pub fn last_destroyed(&self) -> Option<&M>
        ensures { option_copied result ≡ slice_get self.now.bare.destroyed (length self.now.bare.destroyed - 1) }
    {
        self.destroyed.back()
    }

    /// Takes the message that was destroyed first of those that weren't taken; its slot is spare again.
    /// `None` where there is none, and all is then as before. Takes no memory. Constant time.
    pub fn take_destroyed(&mut self) -> Option<M>
        ensures first { result ≡ slice_get self.old.bare.destroyed 0 }
        ensures taken { IfSome result (λ m. self.new.bare ≡ record self.old.bare { spare = self.old.bare.spare + 1; destroyed = drop 1 self.old.bare.destroyed }) }
        ensures none { IfNone result (self.new ≡ self.old) }
        ensures counts { self.new.counts ≡ self.old.counts }
    {
        if self.destroyed.is_empty() {
            return None;
        }
        let blank = M::blank(*self.spare.allocator());
        Some(pop(&mut self.destroyed, &mut self.spare, blank))
    }
}
