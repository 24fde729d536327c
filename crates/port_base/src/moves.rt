//! How a port leaves and joins the lists that it stands in by its key.
ghost use Rattle.std.specs.Prelude.{◌≡◌, ◌≢◌, ◌<◌, ◌∷◌, [], ℕ, List, Some, None, slice_get, false, true};
ghost use Rattle.std.specs.List.{Contains};
ghost use Rattle.member_lists.specs.Lists.{list_of};
ghost use Rattle.shared_lists.specs.Shared.{IsReady, IsFirst, OthersKeep, left_each, more_of};
ghost use Rattle.port_base.specs.Ready.{StandsIn, IsMoved, out_of, at_end};
ghost use Rattle.port_base.specs.Memberships.{IsHome, sets_of, membership_in, readied, unreadied, IsOut, IsPartlyOut, IsParted, IsSettled};
ghost use Rattle.port_base.specs.declared.Membership.TheVariants.{Nowhere, Several};

use crate::Membership;
use member_lists::TwoLists;
use shared_lists::SharedLists;

/// Makes the port under the key ready in these sets, where it was ready in none: all that it is in, or none.
#[inline(always)]
pub fn ready(sets: &mut SharedLists, key: usize, membership: Membership)
    requires home { membership ≢ Nowhere → IsHome sets.old key membership }
    requires unready { membership ≢ Nowhere → IsReady sets.old key false }
    ensures { sets.new ≡ readied sets.old key membership }
{
    match membership {
        Membership::Nowhere => {}
        Membership::Alone(set) => sets.make_ready_alone(set, key),
        Membership::Several(first) => sets.make_ready(first, key),
    }
}

/// Makes the port under the key unready in these sets, where it was ready: all that it is in, or none.
#[inline(always)]
pub fn unready(sets: &mut SharedLists, key: usize, membership: Membership)
    requires home { membership ≢ Nowhere → IsHome sets.old key membership }
    requires ready { membership ≢ Nowhere → IsReady sets.old key true }
    ensures { sets.new ≡ unreadied sets.old key membership }
{
    match membership {
        Membership::Nowhere => {}
        Membership::Alone(set) => sets.make_unready_alone(set, key),
        Membership::Several(first) => sets.make_unready(first, key),
    }
}

/// Takes the port under the key out of all its sets.
#[inline(always)]
pub fn leave(sets: &mut SharedLists, key: usize, membership: Membership, is_ready: bool)
    requires home { IsHome sets.old key membership }
    requires ready { IsReady sets.old key is_ready }
    ensures { IsOut sets.old key membership is_ready sets.new }
{
    match membership {
        Membership::Nowhere => {}
        Membership::Alone(set) => sets.leave_alone(set, key, is_ready),
        Membership::Several(first) => sets.leave_all(first, key, is_ready),
    }
}

// The sets that the port under the key is in by the lists, of which this is the first.
fn sets_from(sets: &SharedLists, key: usize, first: Option<u64>) -> Membership
    ensures some { (own : ℕ) → first ≡ Some own → result ≡ membership_in (own ∷ more_of sets.now key) }
    ensures none { first ≡ None → result ≡ Nowhere }
{
    match first {
        Some(first) => match sets.first_further(key) {
            Some(_) => Membership::Several(first),
            None => Membership::Alone(first),
        },
        None => Membership::Nowhere,
    }
}

/// Takes the port under the key out of one of its sets. Returns the sets that it is in then. Linear in the port's
/// sets.
pub fn leave_one(
    sets: &mut SharedLists,
    key: usize,
    membership: Membership,
    set: u64,
    is_ready: bool,
) -> Membership
    requires home { IsHome sets.old key membership }
    requires stands { (list : ℕ) → Contains (sets_of sets.old key membership) list → Contains (list_of sets.old.all list) key }
    requires ready { IsReady sets.old key is_ready }
    requires there { Contains (sets_of sets.old key membership) set }
    ensures { IsParted sets.old key membership set is_ready result sets.new }
{
    match membership {
        Membership::Nowhere => Membership::Nowhere,
        Membership::Alone(only) => {
            sets.leave_alone(only, key, is_ready);
            Membership::Nowhere
        }
        Membership::Several(first) => {
            let now = sets.leave(first, set, key, is_ready);
            sets_from(sets, key, now)
        }
    }
}

/// Takes the port under the key, the first of the set's, out of the set. Returns the sets that it is in then.
/// Constant time.
pub fn leave_front(
    sets: &mut SharedLists,
    key: usize,
    membership: Membership,
    set: u64,
    is_ready: bool,
) -> Membership
    requires home { IsHome sets.old key membership }
    requires stands { (list : ℕ) → Contains (sets_of sets.old key membership) list → Contains (list_of sets.old.all list) key }
    requires ready { IsReady sets.old key is_ready }
    requires there { Contains (sets_of sets.old key membership) set }
    requires front { slice_get (list_of sets.old.all set) 0 ≡ Some key }
    ensures { IsParted sets.old key membership set is_ready result sets.new }
{
    match membership {
        Membership::Nowhere => Membership::Nowhere,
        Membership::Alone(only) => {
            sets.leave_alone(only, key, is_ready);
            Membership::Nowhere
        }
        Membership::Several(first) => {
            let now = sets.leave_front(first, set, key, is_ready);
            sets_from(sets, key, now)
        }
    }
}

/// Puts the port under the key into this set alone, out of all others. Where it is in the set it stays there,
/// in its turn; else it comes last, and where it is ready, last of the ready ones.
#[inline(always)]
pub fn settle(sets: &mut SharedLists, key: usize, membership: Membership, set: u64, is_ready: bool)
    requires room { key < sets.old.all.items }
    requires home { IsHome sets.old key membership }
    requires ready { IsReady sets.old key is_ready }
    ensures { IsSettled sets.old key membership set is_ready sets.new }
{
    match membership {
        Membership::Nowhere => sets.enter(set, key, is_ready),
        Membership::Alone(only) => {
            if only != set {
                sets.leave_alone(only, key, is_ready);
                sets.enter(set, key, is_ready);
            }
        }
        Membership::Several(first) => settle_one(sets, key, first, set, is_ready),
    }
}

// Whether the port under the key is in this set, where it is in several, of which one is the first. Linear in their
// number.
fn is_one_of(sets: &SharedLists, key: usize, first: u64, set: u64) -> bool
    ensures yes { result ≡ true → Contains (first ∷ more_of sets.now key) set }
    ensures no { result ≡ false → ¬ (Contains (first ∷ more_of sets.now key) set) }
{
    if first == set {
        return true;
    }
    sets.is_further(set, key)
}

// Takes the port under the key out of its sets until this one is the first of them.
fn lead(sets: &mut SharedLists, key: usize, first: u64, set: u64, is_ready: bool)
    requires first { IsFirst sets.old first key }
    requires ready { IsReady sets.old key is_ready }
    requires there { Contains (first ∷ more_of sets.old key) set }
    ensures { (gone : List ℕ) × IsPartlyOut sets.old key first is_ready gone set sets.new × ¬ (Contains gone set) }
{
    let mut own = first;
    while own != set {
        match sets.leave_first(own, key, is_ready) {
            Some(next) => own = next,
            None => return,
        }
    }
}

// Takes the port under the key out of its further sets.
fn leave_further(sets: &mut SharedLists, key: usize, is_ready: bool)
    requires ready { IsReady sets.old key is_ready }
    ensures lists { sets.new ≡ record (left_each sets.old (more_of sets.old key) key is_ready) { more = sets.new.more; room = sets.new.room } }
    ensures none { more_of sets.new key ≡ [] }
    ensures first { (own : ℕ) → IsFirst sets.old own key → IsFirst sets.new own key }
    ensures others { OthersKeep sets.old sets.new key }
{
    while let Some(set) = sets.first_further(key) {
        sets.leave_further(set, key, is_ready);
    }
}

// Puts the port under the key into this set alone, where it is in several, of which one is the first. Linear in
// their number.
#[inline(never)]
fn settle_one(sets: &mut SharedLists, key: usize, first: u64, set: u64, is_ready: bool)
    requires room { key < sets.old.all.items }
    requires home { IsHome sets.old key (Several first) }
    requires ready { IsReady sets.old key is_ready }
    ensures { IsSettled sets.old key (Several first) set is_ready sets.new }
{
    if is_one_of(sets, key, first, set) {
        lead(&mut *sets, key, first, set, is_ready);
        leave_further(sets, key, is_ready);
    } else {
        sets.leave_all(first, key, is_ready);
        sets.enter(set, key, is_ready);
    }
}

/// Takes the port under the key out of this one of two lists, if it stands in one.
#[inline(always)]
pub fn leave_two(lists: &mut TwoLists, key: usize, was: Option<u64>)
    requires list { (list : ℕ) → was ≡ Some list → list < 2 }
    requires was { StandsIn lists.old key was }
    ensures moved { IsMoved lists.old lists.new key None }
    ensures left { lists.new ≡ out_of lists.old key was }
{
    if let Some(list) = was {
        lists.remove(list, key);
    }
}

/// Puts the port under the key at the end of this one of two lists, if it belongs to one.
#[inline(always)]
pub fn join_two(lists: &mut TwoLists, key: usize, now: Option<u64>)
    requires list { (list : ℕ) → now ≡ Some list → list < 2 }
    requires room { key < lists.old.items }
    requires apart { StandsIn lists.old key None }
    ensures moved { IsMoved lists.old lists.new key now }
    ensures joined { lists.new ≡ at_end lists.old key now }
{
    if let Some(list) = now {
        lists.push(list, key);
    }
}

/// Takes the port under the key out of one of two lists, and puts it at the end of the other or the same.
#[inline(always)]
pub fn rejoin_two(lists: &mut TwoLists, key: usize, was: Option<u64>, now: Option<u64>)
    requires left { (list : ℕ) → was ≡ Some list → list < 2 }
    requires joined { (list : ℕ) → now ≡ Some list → list < 2 }
    requires room { key < lists.old.items }
    requires was { StandsIn lists.old key was }
    ensures moved { IsMoved lists.old lists.new key now }
    ensures turned { lists.new ≡ at_end (out_of lists.old key was) key now }
{
    leave_two(&mut *lists, key, was);
    join_two(lists, key, now);
}

// Takes the port under the key, the first of one of two lists, out of it.
#[inline(always)]
fn leave_first(lists: &mut TwoLists, key: usize, was: u64)
    requires list { was < 2 }
    requires first { slice_get (list_of lists.old was) 0 ≡ Some key }
    requires was { StandsIn lists.old key (Some was) }
    ensures moved { IsMoved lists.old lists.new key None }
    ensures left { lists.new ≡ out_of lists.old key (Some was) }
{
    lists.remove_first(was, key);
}

/// Takes the port under the key, the first of one of two lists, out of it, and puts it at the end of the other
/// or the same.
#[inline(always)]
pub fn rejoin_first(lists: &mut TwoLists, key: usize, was: u64, now: u64)
    requires left { was < 2 }
    requires joined { now < 2 }
    requires room { key < lists.old.items }
    requires first { slice_get (list_of lists.old was) 0 ≡ Some key }
    requires was { StandsIn lists.old key (Some was) }
    ensures moved { IsMoved lists.old lists.new key (Some now) }
    ensures turned { lists.new ≡ at_end (out_of lists.old key (Some was)) key (Some now) }
{
    leave_first(&mut *lists, key, was);
    join_two(lists, key, Some(now));
}
