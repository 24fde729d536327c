//! Records of ports under their keys: what is read of one, and what changes in one.
ghost use Rattle.std.specs.Prelude.{◌≡◌, if◌then◌else◌, ℕ, ◌+◌, ◌<◌, ◌≤◌, ◌^◌, ◌++◌, ◌∷◌, [], List, length, cond, Option, Some, None, IsSome, IfOk, OnOk, true};
ghost use Rattle.std.specs.List.{Contains};
ghost use Rattle.slab.specs.Slab.{get, with_value, HasRoomFor};
ghost use Rattle.port_base.specs.declared.Record.{Record as AnyRecord};
ghost use Rattle.port_base.specs.Attributes.{counted_as, held_by, one_made, one_received, restarted};
ghost use Rattle.port_base.specs.Memberships.{IsHome, emptied, first_of};
ghost use Rattle.port_base.specs.declared.Membership.TheVariants.{Nowhere};
ghost use Rattle.shared_lists.specs.Shared.{IsReady};
ghost use Rattle.port_base.specs.Turns.{has_some};
ghost use Rattle.rights.specs.Counts.{all_of, number_of, one_shifted, with_fewer, with_more};
ghost use Rattle.rights.specs.declared.RightKind.TheVariants.{Send};
ghost use Rattle.port_base.specs.Records.{readied_sets, left_sets, waiting_list, waits_in, noting_list, ids_at};

use crate::moves::unready;
use crate::slots::{move_first, pop, push};
use crate::{Attributes, Holder, Membership, Message, Record};
use mach_types::PortId;
use rights::{Counts, RightKind};
use shared_lists::SharedLists;
use slab::Slab;
use std::alloc::{AllocError, Global};
use std::collections::LinkedList;

// With so many records or fewer, each key fits 32 bits.
const MOST_RECORDS: usize = 1 << 32;

/// The list of the ports that were lost.
pub const LOST: u64 = 0;

/// The list of the ports that are doomed.
pub const DOOMED: u64 = 1;

/// The list of the ports that are noted.
pub const NOTED: u64 = 0;

impl<M: Message> Record<M> {
    // The sets that the port gets ready in by a message: all its sets, where it has none.
    fn readied_sets(&self) -> Membership
        ensures { result ≡ readied_sets self.now }
    {
        if !self.queue.is_empty() {
            return Membership::Nowhere;
        }
        self.kept.membership()
    }

    // The sets that the port is no more ready in once its first message is taken: all its sets, where that is its
    // only one.
    fn left_sets(&self) -> Membership
        ensures { result ≡ left_sets self.now }
    {
        if self.queue.len() > 1 {
            return Membership::Nowhere;
        }
        self.kept.membership()
    }
}

/// Queues the message at the port under the key. Returns the sets that the port gets ready in by it; else the
/// port keeps its turns.
#[inline(always)]
pub fn push_at<M: Message>(
    records: &mut Slab<Record<M>>,
    key: usize,
    spare: &mut LinkedList<M>,
    message: M,
) -> Membership
    requires there { IsSome (get records.old key) }
    requires some { 0 < length spare.old }
    requires fit { (r : AnyRecord M) → get records.old key ≡ Some r → length r.queue + length spare.old < 2 ^ 63 }
    ensures after { (r : AnyRecord M) → get records.old key ≡ Some r → records.new ≡ with_value records.old key (record r { queue = r.queue ++ message ∷ [] }) }
    ensures spare { length spare.new + 1 ≡ length spare.old }
    ensures readied { (r : AnyRecord M) → get records.old key ≡ Some r → result ≡ readied_sets r }
{
    let record = &mut records[key];
    let sets = record.readied_sets();
    push(&mut record.queue, spare, message);
    sets
}

/// Takes the message at the front of the queue of the port under the key.
pub fn pop_at<M: Message>(
    records: &mut Slab<Record<M>>,
    key: usize,
    spare: &mut LinkedList<M>,
    blank: M,
) -> M
    requires there { IsSome (get records.old key) }
    requires some { (r : AnyRecord M) → get records.old key ≡ Some r → 0 < length r.queue }
    requires fit { (r : AnyRecord M) → get records.old key ≡ Some r → length r.queue + length spare.old < 2 ^ 63 }
    ensures after { (r : AnyRecord M) → get records.old key ≡ Some r → (rest : List M) × (r.queue ≡ result ∷ rest) × (records.new ≡ with_value records.old key (record r { queue = rest })) }
    ensures spare { length spare.new ≡ length spare.old + 1 }
{
    pop(&mut records[key].queue, spare, blank)
}

/// Takes the message at the front of the queue of the port under the key, and raises the sequence number.
/// Where it has no more, the port leaves the ready ones of each of its sets; else it keeps its turns.
#[inline(always)]
pub fn take_at<M: Message>(
    records: &mut Slab<Record<M>>,
    key: usize,
    sets: &mut SharedLists,
    spare: &mut LinkedList<M>,
) -> M
    requires there { IsSome (get records.old key) }
    requires some { (r : AnyRecord M) → get records.old key ≡ Some r → 0 < length r.queue }
    requires fit { (r : AnyRecord M) → get records.old key ≡ Some r → length r.queue + length spare.old < 2 ^ 63 }
    requires home { (r : AnyRecord M) → get records.old key ≡ Some r → IsHome sets.old key r.kept.membership }
    requires ready { IsReady sets.old key true }
    ensures after { (r : AnyRecord M) → get records.old key ≡ Some r → (rest : List M) × (r.queue ≡ result ∷ rest) × (records.new ≡ with_value records.old key (record r { queue = rest; kept = record r.kept { attributes = one_received r.kept.attributes } })) }
    ensures spare { length spare.new ≡ length spare.old + 1 }
    ensures emptied { (r : AnyRecord M) (rest : List M) → get records.old key ≡ Some r → r.queue ≡ result ∷ rest → sets.new ≡ emptied sets.old key r.kept.membership rest }
{
    let record = &mut records[key];
    unready(sets, key, record.left_sets());
    record.kept.count_received();
    let blank = M::blank(*spare.allocator());
    // Last, so that the message is moved once less.
    pop(&mut record.queue, spare, blank)
}

/// As [`take_at`], and counts a right of this kind for the port as gone.
#[inline(always)]
pub fn take_counted_at<M: Message>(
    records: &mut Slab<Record<M>>,
    key: usize,
    sets: &mut SharedLists,
    spare: &mut LinkedList<M>,
    kind: RightKind,
) -> M
    requires there { IsSome (get records.old key) }
    requires some { (r : AnyRecord M) → get records.old key ≡ Some r → 0 < length r.queue }
    requires counted { (r : AnyRecord M) → get records.old key ≡ Some r → 1 ≤ number_of kind r.counts }
    requires fit { (r : AnyRecord M) → get records.old key ≡ Some r → length r.queue + length spare.old < 2 ^ 63 }
    requires home { (r : AnyRecord M) → get records.old key ≡ Some r → IsHome sets.old key r.kept.membership }
    requires ready { IsReady sets.old key true }
    ensures after { (r : AnyRecord M) → get records.old key ≡ Some r → (rest : List M) × (r.queue ≡ result ∷ rest) × (records.new ≡ with_value records.old key (record r { queue = rest; kept = record r.kept { attributes = one_received r.kept.attributes }; counts = with_fewer kind 1 r.counts })) }
    ensures spare { length spare.new ≡ length spare.old + 1 }
    ensures emptied { (r : AnyRecord M) (rest : List M) → get records.old key ≡ Some r → r.queue ≡ result ∷ rest → sets.new ≡ emptied sets.old key r.kept.membership rest }
{
    let record = &mut records[key];
    record.counts.subtract(kind, 1);
    unready(sets, key, record.left_sets());
    record.kept.count_received();
    let blank = M::blank(*spare.allocator());
    // Last, so that the message is moved once less.
    pop(&mut record.queue, spare, blank)
}

/// Moves the message at the front of the queue of the port under the key to the end of the destroyed ones.
pub fn destroy_at<M: Message>(
    records: &mut Slab<Record<M>>,
    key: usize,
    destroyed: &mut LinkedList<M>,
)
    requires there { IsSome (get records.old key) }
    requires some { (r : AnyRecord M) → get records.old key ≡ Some r → 0 < length r.queue }
    requires fit { (r : AnyRecord M) → get records.old key ≡ Some r → length r.queue + length destroyed.old < 2 ^ 63 }
    ensures { (r : AnyRecord M) → get records.old key ≡ Some r →
        (m : M) × (rest : List M) × (r.queue ≡ m ∷ rest) × (records.new ≡ with_value records.old key (record r { queue = rest })) × (destroyed.new ≡ destroyed.old ++ m ∷ []) }
{
    move_first(&mut records[key].queue, destroyed);
}

/// How many rights there are for the port under the key.
#[inline(always)]
pub fn counts_at<M: Message>(records: &Slab<Record<M>>, key: usize) -> Counts
    requires { IsSome (get records.now key) }
    ensures { (r : AnyRecord M) → get records.now key ≡ Some r → result ≡ r.counts }
{
    records[key].counts
}

/// Counts new rights for the port under the key.
#[inline(always)]
pub fn add_at<M: Message>(records: &mut Slab<Record<M>>, key: usize, kind: RightKind, number: u32)
    requires there { IsSome (get records.old key) }
    requires fits { (r : AnyRecord M) → get records.old key ≡ Some r → all_of r.counts + number < 2 ^ 32 }
    ensures { (r : AnyRecord M) → get records.old key ≡ Some r → records.new ≡ with_value records.old key (record r { counts = with_more kind number r.counts }) }
{
    records[key].counts.add(kind, number);
}

/// Counts rights for the port under the key as gone.
#[inline(always)]
pub fn subtract_at<M: Message>(
    records: &mut Slab<Record<M>>,
    key: usize,
    kind: RightKind,
    number: u32,
)
    requires there { IsSome (get records.old key) }
    requires some { (r : AnyRecord M) → get records.old key ≡ Some r → number ≤ number_of kind r.counts }
    ensures { (r : AnyRecord M) → get records.old key ≡ Some r → records.new ≡ with_value records.old key (record r { counts = with_fewer kind number r.counts }) }
{
    records[key].counts.subtract(kind, number);
}

/// Counts a send right made from the receive right of the port under the key, also among its rights.
#[inline(always)]
pub fn make_send_at<M: Message>(records: &mut Slab<Record<M>>, key: usize)
    requires there { IsSome (get records.old key) }
    requires fits { (r : AnyRecord M) → get records.old key ≡ Some r → all_of r.counts + 1 < 2 ^ 32 }
    ensures { (r : AnyRecord M) → get records.old key ≡ Some r → records.new ≡ with_value records.old key (record r { kept = record r.kept { attributes = one_made r.kept.attributes }; counts = with_more Send 1 r.counts }) }
{
    let record = &mut records[key];
    record.kept.count_made();
    record.counts.add(RightKind::Send, 1);
}

/// As [`push_at`]. Counts a send-once right of the port as the one that the message was sent to, if it was one.
#[inline(always)]
pub fn push_counted_at<M: Message>(
    records: &mut Slab<Record<M>>,
    key: usize,
    spare: &mut LinkedList<M>,
    message: M,
    once: bool,
) -> Membership
    requires there { IsSome (get records.old key) }
    requires some { 0 < length spare.old }
    requires fit { (r : AnyRecord M) → get records.old key ≡ Some r → length r.queue + length spare.old < 2 ^ 63 }
    requires once { (r : AnyRecord M) → get records.old key ≡ Some r → once ≡ true → 0 < r.counts.send_once }
    requires few { (r : AnyRecord M) → get records.old key ≡ Some r → all_of r.counts < 2 ^ 32 }
    ensures after { (r : AnyRecord M) → get records.old key ≡ Some r → records.new ≡ with_value records.old key (record r { queue = r.queue ++ message ∷ []; counts = (if once then one_shifted r.counts else r.counts) }) }
    ensures spare { length spare.new + 1 ≡ length spare.old }
    ensures readied { (r : AnyRecord M) → get records.old key ≡ Some r → result ≡ readied_sets r }
{
    let record = &mut records[key];
    record.counts.shift_if(once);
    let sets = record.readied_sets();
    push(&mut record.queue, spare, message);
    sets
}

/// Sets the limit and the counts of the port under the key; its sets and its holder stay.
pub fn set_at<M: Message>(records: &mut Slab<Record<M>>, key: usize, attributes: &Attributes)
    requires { IsSome (get records.old key) }
    ensures { (r : AnyRecord M) → get records.old key ≡ Some r → records.new ≡ with_value records.old key (record r { kept = record r.kept { attributes = counted_as attributes.now r.kept.attributes } }) }
{
    records[key].kept.set_counts(attributes);
}

/// Says that the port under the key is in no set now, and its counts begin again.
pub fn restart_at<M: Message>(records: &mut Slab<Record<M>>, key: usize)
    requires { IsSome (get records.old key) }
    ensures { (r : AnyRecord M) → get records.old key ≡ Some r → records.new ≡ with_value records.old key (record r { kept = record r.kept { attributes = record (restarted r.kept.attributes) { set = None }; membership = Nowhere } }) }
{
    let kept = &mut records[key].kept;
    kept.set_membership(Membership::Nowhere);
    kept.restart_counts();
}

/// Says which sets the port under the key is in now.
#[inline(always)]
pub fn place_at<M: Message>(records: &mut Slab<Record<M>>, key: usize, membership: Membership)
    requires { IsSome (get records.old key) }
    ensures { (r : AnyRecord M) → get records.old key ≡ Some r → records.new ≡ with_value records.old key (record r { kept = record r.kept { attributes = record r.kept.attributes { set = first_of membership }; membership = membership } }) }
{
    records[key].kept.set_membership(membership);
}

/// Says who holds the receive right of the port under the key now. Answers the list that the port waited in
/// until then, if nobody held it, and that in which it waits now, if nobody does.
pub fn hold_at<M: Message>(
    records: &mut Slab<Record<M>>,
    key: usize,
    holder: Holder,
) -> (Option<u64>, Option<u64>)
    requires { IsSome (get records.old key) }
    ensures after { (r : AnyRecord M) → get records.old key ≡ Some r → records.new ≡ with_value records.old key (record r { kept = record r.kept { attributes = held_by r.kept.attributes holder } }) }
    ensures was { (r : AnyRecord M) → get records.old key ≡ Some r → result.0 ≡ waiting_list r }
    ensures now { result.1 ≡ waits_in holder }
{
    let kept = &mut records[key].kept;
    let was = kept.waiting_list();
    kept.set_holder(holder);
    (was, kept.waiting_list())
}

/// Says whether the port under the key is noted now.
pub fn note_at<M: Message>(records: &mut Slab<Record<M>>, key: usize, is_noted: bool)
    requires { IsSome (get records.old key) }
    ensures { (r : AnyRecord M) → get records.old key ≡ Some r → records.new ≡ with_value records.old key (record r { kept = record r.kept { is_noted = is_noted } }) }
{
    records[key].kept.set_noted(is_noted);
}

/// The sets that the port under the key is no more ready in once its first message is taken.
#[inline(always)]
pub fn left_at<M: Message>(records: &Slab<Record<M>>, key: usize) -> Membership
    requires { IsSome (get records.now key) }
    ensures { (r : AnyRecord M) → get records.now key ≡ Some r → result ≡ left_sets r }
{
    records[key].left_sets()
}

/// Whether the port under the key has messages, so that it is ready in each of its sets.
pub fn has_messages<M: Message>(records: &Slab<Record<M>>, key: usize) -> bool
    requires { IsSome (get records.now key) }
    ensures { (r : AnyRecord M) → get records.now key ≡ Some r → result ≡ has_some r.queue }
{
    !records[key].queue.is_empty()
}

/// The sets that the port under the key is in.
#[inline(always)]
pub fn member_at<M: Message>(records: &Slab<Record<M>>, key: usize) -> Membership
    requires { IsSome (get records.now key) }
    ensures { (r : AnyRecord M) → get records.now key ≡ Some r → result ≡ r.kept.membership }
{
    records[key].kept.membership()
}

/// The list of the noted ports, if the port under the key is noted.
pub fn noted_at<M: Message>(records: &Slab<Record<M>>, key: usize) -> Option<u64>
    requires { IsSome (get records.now key) }
    ensures { (r : AnyRecord M) → get records.now key ≡ Some r → result ≡ noting_list r }
{
    records[key].kept.noting_list()
}

/// The identities of the ports under the keys.
pub fn ids_of<M: Message>(
    records: &Slab<Record<M>>,
    keys: &[usize],
    alloc: Global,
) -> Result<Vec<PortId>, AllocError>
    requires { (key : ℕ) → Contains keys.now key → IsSome (get records.now key) }
    ensures { IfOk result (λ ids. ids.items ≡ ids_at (get records.now) keys.now) }
{
    let mut ids = Vec::new(alloc);
    for key in keys {
        ids.push(records[*key].id)?;
    }
    Ok(ids)
}

/// A key in 32 bits.
pub fn narrow(key: usize) -> u32
    requires { key < 2 ^ 32 }
    ensures { result ≡ key }
{
    key as u32
}

/// Makes room for one more record, whose key fits 32 bits.
pub fn reserve_record<M: Message>(records: &mut Slab<Record<M>>) -> Result<(), AllocError>
    ensures room { OnOk result (HasRoomFor records.new 1) }
    ensures few { OnOk result (records.new.capacity ≤ 2 ^ 32) }
    ensures rest_kept { records.new ≡ record records.old { capacity = records.new.capacity } }
{
    records.reserve(1)?;
    if records.capacity() > MOST_RECORDS {
        return Err(AllocError);
    }
    Ok(())
}
