//! Lists of numbered items, each item in any number of them: it joins a list at the end, and leaves from
//! any place. Some items are ready. In each list the ready ones stand in an order of their own, their
//! turns.
//!
//! The links of [`member_lists`] go between places. An item has a place of its own, so that it joins its
//! first list without memory. Each further list takes a further place, and a record of which item stands
//! there, and in which list. When an item leaves its first list and is in others, its own place takes over
//! the first of its further places: the item keeps its turn there. So an item is in a list exactly when its
//! own place is.
//!
//! Where no item may be in several lists, an item's own place has the item's number. Elsewhere the even
//! places are the items' own, and the odd ones the further ones.
#![tactic(auto)]

ghost use Rattle.std.specs.Prelude.{◌≡◌, ◌≢◌, ℕ, ◌+◌, ◌<◌, ◌≤◌, ◌^◌, ◌∷◌, [], length, cond, Some, None, IsSome, IsOk, OnOk, OnErr, IfSome, IfNone, IfOk, true, false, map as map_list, slice_get};
ghost use Rattle.std.specs.List.{Contains};
ghost use Rattle.std.specs.FinMap as map;
ghost use Rattle.member_lists.specs.Lists.{list_of, IsApart, IsMarkedIn, without};
ghost use Rattle.shared_lists.specs.Shared.{joined, parted};
ghost use Rattle.shared_lists.specs.Numbers.{own, far};
ghost use Rattle.shared_lists.specs.Marked.{joined_at, parted_at, joined_far, parted_far};
ghost use Rattle.slab.specs.Slab.{get};
ghost use Rattle.member_lists.specs.Chains.{times};
ghost use Rattle.shared_lists.specs.Places.{list_at, item_at as item_of, AreLonger, AreAsLong};

use member_lists::{Lists, MarkedLists};
use slab::Slab;
use std::alloc::{AllocError, Global};
use std::marker::Model;

// With more further places than this, their numbers or those of the places would not fit.
const MOST_FURTHER: usize = 1 << 31;

// With more items than this, their places would not fit.
const MOST_ITEMS: usize = 1 << 32;

// What stands at a further place: the item, and the list that it is in.
#[derive(Clone, Copy, Debug, PartialEq, Eq)]
struct Further {
    item: usize,
    list: u64,
}

// The further places, and the list of each once more: to be read without a look at what else stands there.
#[derive(Drop)]
struct Listed<'a> {
    further: &'a Slab<Further>,
    lists: &'a [u64],
}

impl<'a> Model for Listed<'a> {
    ghost use Rattle.slab.specs.Slab.{Slab, slab_code};
    ghost use Rattle.shared_lists.specs.declared.Further.{Further};
    ghost use Rattle.shared_lists.specs.contracts.Further as one;
    ghost use Rattle.shared_lists.specs.Places.{AreListed};

    ghost Value = { Slab Further };

    ghost coded = { slab_code one.the_row.coded };

    ghost view = { λ a. a.further.now };

    ghost invariant = { λ a. AreListed a.further.now a.lists.now };
}

impl<'a> Listed<'a> {
    // The list of a further place.
    #[inline(always)]
    fn list(&self, key: usize) -> u64
        requires { IsSome (get self.now key) }
        ensures { result ≡ list_at self.now key }
    {
        let lists = self.lists;
        lists[key]
    }
}

// The place that an item has without memory.
fn own_place(several: bool, item: usize) -> usize
    requires { own several item < 2 ^ 64 }
    ensures { result ≡ own several item }
{
    if several { 2 * item } else { item }
}

// The place of this number among the further ones.
fn further_place(key: usize) -> usize
    requires { far key < 2 ^ 64 }
    ensures { result ≡ far key }
{
    2 * key + 1
}

// Puts a place at the end of a list, and at the end of its marked ones, if it is ready.
fn join(places: &mut MarkedLists, list: u64, place: usize, is_ready: bool)
    requires room { place < places.old.all.items }
    requires apart { IsApart places.old.all place }
    requires unmarked { IsApart places.old.marked place }
    ensures { places.new ≡ joined_at places.old list place is_ready }
{
    places.push(list, place);
    if is_ready {
        places.mark(list, place);
    }
}

// Takes the mark from a place of a list, if it is marked.
fn unmark(places: &mut MarkedLists, list: u64, place: usize, is_marked: bool)
    requires marked { IsMarkedIn places.old list place is_marked }
    requires single { (other : ℕ) → Contains (list_of places.old.marked other) place → other ≡ list }
    ensures marks { places.new ≡ record places.old { marked = cond is_marked (parted places.old.marked list place) places.old.marked } }
    ensures unmarked { IsApart places.new.marked place }
{
    if is_marked {
        places.unmark(list, place);
    }
}

// Takes a place out of a list, and out of its marked ones, if it is ready.
fn part(places: &mut MarkedLists, list: u64, place: usize, is_ready: bool)
    requires there { Contains (list_of places.old.all list) place }
    requires marked { IsMarkedIn places.old list place is_ready }
    requires single { (other : ℕ) → Contains (list_of places.old.marked other) place → other ≡ list }
    ensures { places.new ≡ parted_at places.old list place is_ready }
{
    unmark(&mut *places, list, place, is_ready);
    places.remove(list, place);
}

// The further place of an item in this list, by its number.
fn find(keys: &Lists, further: &Slab<Further>, item: usize, list: u64) -> Option<usize>
    requires there { (k : ℕ) → Contains (list_of keys.now item) k → IsSome (get further.now k) }
    requires single { (k : ℕ) → times k (list_of keys.now item) ≤ 1 }
    ensures some { IfSome result (λ key. Contains (list_of keys.now item) key × (list_at further.now key ≡ list)) }
    ensures none { IfNone result ((k : ℕ) → Contains (list_of keys.now item) k → list_at further.now k ≢ list) }
{
    let mut next = keys.first(item as u64);
    while let Some(key) = next {
        if further[key].list == list {
            return Some(key);
        }
        next = keys.behind(item as u64, key);
    }
    None
}

// Puts the further places of an item at the end of the marked ones of their lists.
fn mark_each(places: &mut MarkedLists, keys: &Lists, further: &Listed<'_>, item: usize)
    requires there { (k : ℕ) → Contains (list_of keys.now item) k → IsSome (get further.now k) }
    requires single { (k : ℕ) → times k (list_of keys.now item) ≤ 1 }
    requires fit { (k : ℕ) → Contains (list_of keys.now item) k → far k < 2 ^ 64 }
    requires inside { (k : ℕ) → Contains (list_of keys.now item) k → Contains (list_of places.old.all (list_at further.now k)) (far k) }
    requires unmarked { (k : ℕ) → Contains (list_of keys.now item) k → IsApart places.old.marked (far k) }
    ensures { places.new ≡ record places.old { marked = joined_far places.old.marked further.now (list_of keys.now item) } }
{
    let mut next = keys.first(item as u64);
    while let Some(key) = next {
        let list = further.list(key);
        places.mark(list, further_place(key));
        next = keys.behind(item as u64, key);
    }
}

// Takes the further places of an item out of the marked ones of their lists.
fn unmark_each(places: &mut MarkedLists, keys: &Lists, further: &Listed<'_>, item: usize)
    requires there { (k : ℕ) → Contains (list_of keys.now item) k → IsSome (get further.now k) }
    requires single { (k : ℕ) → times k (list_of keys.now item) ≤ 1 }
    requires fit { (k : ℕ) → Contains (list_of keys.now item) k → far k < 2 ^ 64 }
    requires marked { (k : ℕ) → Contains (list_of keys.now item) k → Contains (list_of places.old.marked (list_at further.now k)) (far k) }
    ensures { places.new ≡ record places.old { marked = parted_far places.old.marked further.now (list_of keys.now item) } }
{
    let mut next = keys.first(item as u64);
    while let Some(key) = next {
        let list = further.list(key);
        places.unmark(list, further_place(key));
        next = keys.behind(item as u64, key);
    }
}

// The item at a place.
fn item_at(several: bool, further: &Slab<Further>, place: usize) -> usize
    requires { (k : ℕ) → several ≡ true → place ≡ far k → IsSome (get further.now k) }
    ensures { result ≡ item_of several further.now place }
{
    if !several {
        return place;
    }
    match place % 2 {
        0 => place / 2,
        _ => further[place / 2].item,
    }
}

// The items at these places.
fn items_at(
    several: bool,
    further: &Slab<Further>,
    places: &[usize],
    alloc: Global,
) -> Result<Vec<usize>, AllocError>
    requires { (x : ℕ) → Contains places.now x → (k : ℕ) → several ≡ true → x ≡ far k → IsSome (get further.now k) }
    ensures { IfOk result (λ items. items.items ≡ map_list (item_of several further.now) places.now) }
{
    let mut items = Vec::new(alloc);
    for place in places {
        items.push(item_at(several, further, *place))?;
    }
    Ok(items)
}

// Makes a row so long, with 0 behind what it has.
fn lengthen_row(row: &mut Vec<u64>, len: usize) -> Result<(), AllocError>
    requires { length row.old.items ≤ len }
    ensures stays { (k : ℕ) → k < length row.old.items → slice_get row.new.items k ≡ slice_get row.old.items k }
    ensures ok { OnOk result (length row.new.items ≡ len) }
    ensures err { OnErr result (row.new.items ≡ row.old.items) }
{
    row.resize(len, 0)
}

// Makes room for so many further places.
fn lengthen(places: &mut MarkedLists, keys: &mut Lists, most: usize) -> Result<(), AllocError>
    ensures ok { OnOk result (AreLonger places.old places.new keys.old keys.new most) }
    ensures err { OnErr result (AreAsLong places.old places.new keys.old keys.new) }
{
    if most > MOST_FURTHER {
        return Err(AllocError);
    }
    keys.reserve(most)?;
    places.reserve(2 * most)
}

/// Lists of items, each in any number of them, some of which are ready. Each item takes what an item of
/// [`MarkedLists`] takes, or twice that where an item may be in several lists. The room for a further list
/// takes twice that and some 70 bytes.
#[derive(Drop)]
pub struct SharedLists {
    places: MarkedLists,
    further: Slab<Further>,
    // The further places of each item, in the order of its lists, under its number.
    keys: Lists,
    // The list of each further place once more. There is room for so many further places among the places and
    // the keys.
    lists: Vec<u64>,
    several: bool,
}

impl Model for SharedLists {
    ghost use Rattle.shared_lists.specs.Shared.{SharedView, shared_code};

    ghost Value = { SharedView };

    ghost coded = { shared_code };

    ghost use Rattle.std.specs.Prelude.{length};
    ghost use Rattle.shared_lists.specs.Places.{seen, AreListed, IsShared};

    ghost view = { λ a. seen a.several a.places a.further a.keys (length a.lists.items) };

    ghost invariant = { λ a. IsShared a.several a.places a.further a.keys (length a.lists.items) × AreListed a.further a.lists.items };
}

impl SharedLists {
    ghost use Rattle.shared_lists.specs.Shared.{more_of, empty, with_items, roomier, entered, with_further, left, without_further, joined_each, parted_each, left_each, with_first, OthersKeep, IsFirst, IsReady};

    /// No lists, and no items. `several` says whether an item may be in several lists. Allocates nothing;
    /// constant time.
    pub fn new(alloc: Global, several: bool) -> SharedLists
        ensures { result ≡ empty several }
    {
        SharedLists {
            places: MarkedLists::new(alloc),
            further: Slab::new(alloc),
            keys: Lists::new(alloc),
            lists: Vec::new(alloc),
            several,
        }
    }

    /// Makes room for so many items in all: those below this number. Constant time, but where the
    /// links move to a larger place.
    ///
    /// An error means that memory was refused, or that the items are 2^32 or more, or 2^31 or more where an
    /// item may be in several lists; all is then as before.
    pub fn reserve(&mut self, items: usize) -> Result<(), AllocError>
        ensures ok { OnOk result (self.new ≡ with_items self.old items) }
        ensures err { OnErr result (self.new ≡ self.old) }
    {
        if items > MOST_ITEMS {
            return Err(AllocError);
        }
        let places = own_place(self.several, items);
        self.places.reserve(places)?;
        Ok(())
    }

    /// Makes room for one further list of an item, and perhaps for more items. No other call takes memory
    /// for a list. Constant time, but where what is kept moves to a larger place.
    ///
    /// An error means that memory was refused, that the further lists are 2^31 or more, or that no item may be in
    /// several lists; there may be room for more items then, and all else is as before. It never comes where an item
    /// may be in several lists and there is room already.
    pub fn reserve_further(&mut self) -> Result<(), AllocError>
        ensures room { OnOk result (0 < self.new.room) }
        ensures several { OnOk result (self.old.several ≡ true) }
        ensures had_room { self.old.several ≡ true → 0 < self.old.room → IsOk result }
        ensures items { self.old.all.items ≤ self.new.all.items }
        ensures rest_kept { self.new ≡ roomier self.old self.new.all.items self.new.room }
    {
        if !self.several {
            return Err(AllocError);
        }
        self.further.reserve(1)?;
        let most = self.further.capacity();
        if most > self.lists.len() {
            lengthen(&mut self.places, &mut self.keys, most)?;
            lengthen_row(&mut self.lists, most)?;
        }
        Ok(())
    }

    /// Puts an item that is in no list at the end of this one, and at the end of its ready ones, if it is
    /// ready. Takes no memory; constant time.
    pub fn enter(&mut self, list: u64, item: usize, is_ready: bool)
        requires room { item < self.old.all.items }
        requires apart { IsApart self.old.all item }
        ensures { self.new ≡ entered self.old list item is_ready }
    {
        let place = own_place(self.several, item);
        join(&mut self.places, list, place, is_ready);
    }

    /// Puts an item that is in other lists at the end of this one too, for which there is room, and at the
    /// end of its ready ones, if it is ready. Takes no memory; constant time.
    pub fn enter_further(&mut self, list: u64, item: usize, is_ready: bool)
        requires several { self.old.several ≡ true }
        requires room { 0 < self.old.room }
        requires elsewhere { (first : ℕ) × IsFirst self.old first item }
        requires apart { ¬ (Contains (list_of self.old.all list) item) }
        ensures { self.new ≡ with_further (entered self.old list item is_ready) list item }
    {
        let key = self.further.insert_reserved(Further { item, list });
        self.lists[key] = list;
        self.keys.push(item as u64, key);
        join(&mut self.places, list, further_place(key), is_ready);
    }

    /// Takes an item out of its first list, and returns the first of its lists then. It keeps its turns in
    /// the others. Takes no memory; constant time.
    pub fn leave_first(&mut self, own: u64, item: usize, is_ready: bool) -> Option<u64>
        requires first { IsFirst self.old own item }
        requires ready { IsReady self.old item is_ready }
        ensures result { result ≡ slice_get (more_of self.old item) 0 }
        ensures none { IfNone result (self.new ≡ left self.old own item is_ready) }
        ensures some { IfSome result (λ first. self.new ≡ without_further (left self.old own item is_ready) first item self.new.room) }
        ensures room { self.old.room ≤ self.new.room }
        ensures first { IfSome result (λ first. IsFirst self.new first item) }
        ensures apart { IfNone result (IsApart self.new.all item) }
        ensures lists { with_first result (more_of self.new item) ≡ more_of self.old item }
    {
        let place = own_place(self.several, item);
        part(&mut self.places, own, place, is_ready);
        let key = self.keys.first(item as u64)?;
        self.keys.remove(item as u64, key);
        let list = self.further.remove(key).list;
        let further = further_place(key);
        self.places.replace(list, further, place, is_ready);
        Some(list)
    }

    /// Takes an item out of one of its further lists. It keeps its turns in the others. Takes no memory;
    /// linear in the number of the item's lists.
    pub fn leave_further(&mut self, list: u64, item: usize, is_ready: bool)
        requires further { Contains (more_of self.old item) list }
        requires ready { IsReady self.old item is_ready }
        ensures after { self.new ≡ without_further (left self.old list item is_ready) list item self.new.room }
        ensures room { self.old.room ≤ self.new.room }
    {
        if let Some(key) = find(&self.keys, &self.further, item, list) {
            part(&mut self.places, list, further_place(key), is_ready);
            self.keys.remove(item as u64, key);
            self.further.remove(key);
        }
    }

    /// Takes an item out of one of its lists, of which `own` is the first, and returns the first of its
    /// lists then. It keeps its turns in the others. Takes no memory; linear in the number of the item's
    /// lists.
    pub fn leave(&mut self, own: u64, list: u64, item: usize, is_ready: bool) -> Option<u64>
        requires first { IsFirst self.old own item }
        requires there { Contains (own ∷ more_of self.old item) list }
        requires ready { IsReady self.old item is_ready }
        ensures lists { with_first result (more_of self.new item) ≡ without list (own ∷ more_of self.old item) }
        ensures after { self.new ≡ record (left self.old list item is_ready) { more = self.new.more; room = self.new.room } }
        ensures others { OthersKeep self.old self.new item }
        ensures room { self.old.room ≤ self.new.room }
        ensures first { IfSome result (λ first. IsFirst self.new first item) }
        ensures apart { IfNone result (IsApart self.new.all item) }
    {
        if list == own {
            return self.leave_first(own, item, is_ready);
        }
        self.leave_further(list, item, is_ready);
        Some(own)
    }

    // Takes an item that is the first of one of its further lists out of that list. Constant time.
    fn leave_front_of(&mut self, list: u64, item: usize, is_ready: bool)
        requires further { (own : ℕ) × IsFirst self.old own item × (list ≢ own) }
        requires front { slice_get (list_of self.old.all list) 0 ≡ Some item }
        requires ready { IsReady self.old item is_ready }
        ensures after { self.new ≡ without_further (left self.old list item is_ready) list item self.new.room }
        ensures room { self.old.room ≤ self.new.room }
    {
        if let Some(place) = self.places.first(list) {
            part(&mut self.places, list, place, is_ready);
            let key = place / 2;
            self.keys.remove(item as u64, key);
            self.further.remove(key);
        }
    }

    /// Takes an item that is the first of a list out of that list, and returns the first of its lists then, as
    /// [`SharedLists::leave`] does. `own` is the first of its lists before. Takes no memory; constant time.
    pub fn leave_front(&mut self, own: u64, list: u64, item: usize, is_ready: bool) -> Option<u64>
        requires first { IsFirst self.old own item }
        requires front { slice_get (list_of self.old.all list) 0 ≡ Some item }
        requires ready { IsReady self.old item is_ready }
        ensures lists { with_first result (more_of self.new item) ≡ without list (own ∷ more_of self.old item) }
        ensures after { self.new ≡ record (left self.old list item is_ready) { more = self.new.more; room = self.new.room } }
        ensures others { OthersKeep self.old self.new item }
        ensures room { self.old.room ≤ self.new.room }
        ensures first { IfSome result (λ first. IsFirst self.new first item) }
        ensures apart { IfNone result (IsApart self.new.all item) }
    {
        if list == own {
            return self.leave_first(own, item, is_ready);
        }
        self.leave_front_of(list, item, is_ready);
        Some(own)
    }

    /// Takes an item out of all its lists, of which `own` is the first. Takes no memory; linear in their
    /// number.
    pub fn leave_all(&mut self, own: u64, item: usize, is_ready: bool)
        requires first { IsFirst self.old own item }
        requires ready { IsReady self.old item is_ready }
        ensures after { self.new ≡ record (left_each self.old (own ∷ more_of self.old item) item is_ready) { more = self.new.more; room = self.new.room } }
        ensures none { more_of self.new item ≡ [] }
        ensures apart { IsApart self.new.all item }
        ensures others { OthersKeep self.old self.new item }
        ensures room { self.old.room ≤ self.new.room }
    {
        let mut first = Some(own);
        while let Some(list) = first {
            first = self.leave_first(list, item, is_ready);
        }
    }

    /// Makes an item ready that isn't: it joins the ready ones of each of its lists, of which `own` is the
    /// first, at their end. Takes no memory; linear in the number of the item's lists.
    pub fn make_ready(&mut self, own: u64, item: usize)
        requires first { IsFirst self.old own item }
        requires unready { IsReady self.old item false }
        ensures { self.new ≡ record self.old { ready = joined_each self.old.ready (own ∷ more_of self.old item) item } }
    {
        let place = own_place(self.several, item);
        self.places.mark(own, place);
        let further = Listed {
            further: &self.further,
            lists: &self.lists,
        };
        mark_each(&mut self.places, &self.keys, &further, item);
    }

    /// Makes a ready item unready: it leaves the ready ones of each of its lists, of which `own` is the
    /// first. Takes no memory; linear in the number of the item's lists.
    pub fn make_unready(&mut self, own: u64, item: usize)
        requires first { IsFirst self.old own item }
        requires ready { IsReady self.old item true }
        ensures { self.new ≡ record self.old { ready = parted_each self.old.ready (own ∷ more_of self.old item) item } }
    {
        let place = own_place(self.several, item);
        self.places.unmark(own, place);
        let further = Listed {
            further: &self.further,
            lists: &self.lists,
        };
        unmark_each(&mut self.places, &self.keys, &further, item);
    }

    /// Makes an item ready that isn't, and that is in this list alone: it joins the ready ones of the list at
    /// their end. Takes no memory; constant time.
    #[inline(always)]
    pub fn make_ready_alone(&mut self, own: u64, item: usize)
        requires first { IsFirst self.old own item }
        requires alone { more_of self.old item ≡ [] }
        requires unready { IsReady self.old item false }
        ensures { self.new ≡ record self.old { ready = joined self.old.ready own item } }
    {
        let place = own_place(self.several, item);
        self.places.mark(own, place);
    }

    /// Makes a ready item unready that is in this list alone: it leaves the ready ones of the list. Takes no
    /// memory; constant time.
    #[inline(always)]
    pub fn make_unready_alone(&mut self, own: u64, item: usize)
        requires first { IsFirst self.old own item }
        requires alone { more_of self.old item ≡ [] }
        requires ready { IsReady self.old item true }
        ensures { self.new ≡ record self.old { ready = parted self.old.ready own item } }
    {
        let place = own_place(self.several, item);
        self.places.unmark(own, place);
    }

    /// Takes an item out of this list, where it is in no other. Takes no memory; constant time.
    #[inline(always)]
    pub fn leave_alone(&mut self, own: u64, item: usize, is_ready: bool)
        requires first { IsFirst self.old own item }
        requires alone { more_of self.old item ≡ [] }
        requires ready { IsReady self.old item is_ready }
        ensures after { self.new ≡ left self.old own item is_ready }
        ensures apart { IsApart self.new.all item }
    {
        let place = own_place(self.several, item);
        part(&mut self.places, own, place, is_ready);
    }

    /// The ready item of a list whose turn it is. Constant time.
    pub fn first_ready(&self, list: u64) -> Option<usize>
        ensures { result ≡ slice_get (list_of self.now.ready list) 0 }
    {
        let place = self.places.first_marked(list)?;
        Some(item_at(self.several, &self.further, place))
    }

    /// Puts the ready item of a list whose turn it is, if there is one, behind the other ready ones of this
    /// list. Takes no memory; constant time.
    #[inline(always)]
    pub fn pass_turn(&mut self, list: u64)
        requires some { list_of self.old.all list ≢ [] }
        ensures none { slice_get (list_of self.old.ready list) 0 ≡ None → self.new ≡ self.old }
        ensures some { (item : ℕ) → slice_get (list_of self.old.ready list) 0 ≡ Some item → self.new ≡ record self.old { ready = joined (parted self.old.ready list item) list item } }
    {
        self.places.pass_mark(list);
    }

    /// The first item of a list. Constant time.
    #[inline(always)]
    pub fn first(&self, list: u64) -> Option<usize>
        ensures { result ≡ slice_get (list_of self.now.all list) 0 }
    {
        let place = self.places.first(list)?;
        Some(item_at(self.several, &self.further, place))
    }

    /// Returns whether a list is one of an item's further ones. Linear in the number of the item's lists.
    pub fn is_further(&self, list: u64, item: usize) -> bool
        ensures yes { result ≡ true → Contains (more_of self.now item) list }
        ensures no { result ≡ false → ¬ (Contains (more_of self.now item) list) }
    {
        find(&self.keys, &self.further, item, list).is_some()
    }

    /// An item's further lists, in the order in which it entered them. Constant time.
    pub fn further_lists(&self, item: usize) -> FurtherLists<'_>
        ensures { result ≡ more_of self.now item }
    {
        FurtherLists {
            keys: &self.keys,
            further: &self.further,
            item: item as u64,
            next: self.keys.first(item as u64),
        }
    }

    /// The first of an item's further lists, if it has any. Constant time.
    pub fn first_further(&self, item: usize) -> Option<u64>
        ensures is { result ≡ slice_get (more_of self.now item) 0 }
        ensures once { IfSome result (λ list. list ∷ without list (more_of self.now item) ≡ more_of self.now item) }
    {
        let key = self.keys.first(item as u64)?;
        Some(self.further[key].list)
    }

    /// The items of a list, in order. Linear in their number.
    ///
    /// An error means that memory was refused.
    pub fn items(&self, list: u64, alloc: Global) -> Result<Vec<usize>, AllocError>
        ensures { IfOk result (λ items. items.items ≡ list_of self.now.all list) }
    {
        let places = self.places.items(list, alloc)?;
        items_at(self.several, &self.further, &places, alloc)
    }
}

/// Those of an item's further lists that are yet to be told, in the order in which it entered them.
#[derive(Drop)]
pub struct FurtherLists<'a> {
    keys: &'a Lists,
    further: &'a Slab<Further>,
    item: u64,
    // The number of the further place of the next one.
    next: Option<usize>,
}

impl<'a> Model for FurtherLists<'a> {
    ghost use Rattle.std.specs.Prelude.{ℕ, List};
    ghost use Rattle.std.specs.Coded.{coded_list, coded_ℕ};
    ghost use Rattle.member_lists.specs.Lists.{list_of};
    ghost use Rattle.shared_lists.specs.Places.{lists_from, IsWalk};

    ghost Value = { List ℕ };

    ghost coded = { coded_list coded_ℕ };

    ghost view = { λ a. lists_from a.further.now (list_of a.keys.now a.item) a.next };

    ghost invariant = { λ a. IsWalk a.further.now a.keys.now a.item a.next };
}

impl<'a> FurtherLists<'a> {
    /// The next of them, if there is one. Constant time.
    pub fn next_list(&mut self) -> Option<u64>
        ensures some { IfSome result (λ list. self.old ≡ list ∷ self.new) }
        ensures none { IfNone result ((self.old ≡ []) × (self.new ≡ [])) }
    {
        let key = self.next?;
        self.next = self.keys.behind(self.item, key);
        Some(self.further[key].list)
    }
}
