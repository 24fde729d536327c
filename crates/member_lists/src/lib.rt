//! Lists of numbered items, each item in at most one: it joins at the end, and leaves from any place.
//!
//! Items are linked both ways through a vector of links. The ends of each list that has items stand in a
//! map by its number, in [`Lists`]. There is room in the map for as many lists as items, so that no list
//! takes memory but by [`Lists::reserve`]. Where there are two lists at most their ends stand in fields,
//! in [`TwoLists`], and no map takes memory. In [`MarkedLists`] some items of a list are marked, and the
//! ends of both stand in one map.
#![tactic(auto)]

ghost use Rattle.std.specs.Prelude.{◌≡◌, ◌≢◌, ◌↔◌, ℕ, ◌+◌, ◌<◌, ◌≤◌, ◌^◌, ◌++◌, ◌∷◌, [], max, eqb, IsTrue, true, false, length, List, Some, None, IfSome, IfNone, IfOk, OnOk, OnErr, slice_get, slice_set};
ghost use Rattle.std.specs.List.{Contains};
ghost use Rattle.std.specs.Option.{option_or};
ghost use Rattle.std.specs.FinMap as map;
ghost use Rattle.member_lists.specs.Chains.{IsBehindSet, IsBeforeSet, IsLinkedLast, IsUnlinked, IsRelinked, pick, left_by, joined_by, ends_at, blank_ends, blank_link};
ghost use Rattle.member_lists.specs.declared.Link.{Link as AnyLink};
ghost use Rattle.member_lists.specs.Fields.{taken};

mod marked;

pub use marked::MarkedLists;
use number_map::NumberMap;
use std::alloc::{AllocError, Global};
use std::marker::Model;
use std::mem;

// With more items than this the places of the last would not fit.
pub(crate) const MOST_ITEMS: usize = (1 << 32) - 1;

// An item's number and 1, or 0 for none.
#[derive(Clone, Copy, Debug, PartialEq, Eq)]
pub(crate) struct Place(u32);

impl Model for Place {
    ghost use Rattle.std.specs.Prelude.{ℕ, Option};
    ghost use Rattle.member_lists.specs.Places.{item_at, place_of, same_place};

    ghost Value = { Option ℕ };

    ghost view = { λ a. item_at a.0 };

    ghost inverse = { λ item. record { 0 = place_of item } };

    ghost inverse_ok = { λ a h. same_place (λ n. record { 0 = n }) a.0 };
}

impl Place {
    fn none() -> Place
        ensures { result ≡ None }
    {
        Place(0)
    }

    fn of(item: usize) -> Place
        requires { item + 1 < 2 ^ 32 }
        ensures { result ≡ Some item }
    {
        Place(item as u32 + 1)
    }

    pub(crate) fn item(self) -> Option<usize>
        ensures { result ≡ self }
    {
        match self.0 {
            0 => None,
            place => Some(place as usize - 1),
        }
    }

    // Whether this is the same place, or neither is one.
    #[inline(always)]
    pub(crate) fn is(self, other: Place) -> bool
        ensures yes { result ≡ true → self ≡ other }
        ensures no { result ≡ false → self ≢ other }
    {
        self.0 == other.0
    }

    // This place, or the other where it is none.
    fn or(self, other: Place) -> Place
        ensures { result ≡ option_or self other }
    {
        match self.0 {
            0 => other,
            _ => self,
        }
    }
}

// Between which two items of its list an item stands.
#[derive(Clone, Copy, Debug, PartialEq, Eq)]
pub(crate) struct Link {
    before: Place,
    behind: Place,
}

impl Link {
    // An item's that is in no list.
    pub(crate) fn blank() -> Link
        ensures { result ≡ blank_link }
    {
        Link {
            before: Place::none(),
            behind: Place::none(),
        }
    }
}

// The first and the last item of a list.
#[derive(Clone, Copy, Debug, PartialEq, Eq)]
pub(crate) struct Ends {
    pub(crate) first: Place,
    pub(crate) last: Place,
}

// Each item takes a link, and so do the ends of a list, under its number.
const _: () = prove!(mem::size_of::<Link>() == 8);

impl Ends {
    // Those of a list without items.
    pub(crate) fn blank() -> Ends
        ensures { result ≡ blank_ends }
    {
        Ends {
            first: Place::none(),
            last: Place::none(),
        }
    }

    // Whether these are those of a list without items.
    fn is_blank(self) -> bool
        ensures { result ≡ eqb (taken self.first) 0 }
    {
        self.first.item().is_none()
    }

    // An item leaves the list that stood between these two.
    #[inline(always)]
    fn leave(&mut self, before: Place, behind: Place)
        ensures { self.new ≡ left_by before behind self.old }
    {
        if before.item().is_none() {
            self.first = behind;
        }
        if behind.item().is_none() {
            self.last = before;
        }
    }

    // An item joins the list at its end.
    #[inline(always)]
    fn join(&mut self, item: usize)
        requires { item + 1 < 2 ^ 32 }
        ensures { self.new ≡ joined_by item self.old }
    {
        let place = Place::of(item);
        self.first = self.first.or(place);
        self.last = place;
    }
}

/// Lists of items that are in at most one of them. Without room for items nothing is allocated. Each item
/// takes 8 bytes. The room for a list that comes with it takes what a [`NumberMap`] takes for a value of 8.
#[derive(Drop)]
pub struct Lists {
    links: Vec<Link>,
    ends: NumberMap<Ends>,
}

impl Model for Lists {
    ghost use Rattle.member_lists.specs.Lists.{ListsView, lists_code};

    ghost Value = { ListsView };

    ghost coded = { lists_code };

    ghost use Rattle.std.specs.Prelude.{length};
    ghost use Rattle.member_lists.specs.Chains.{lists_of, IsRoomy};

    ghost view = { λ a. record { lists = lists_of a.links.items a.ends.map; items = length a.links.items } };

    ghost invariant = { λ a. IsRoomy a.links.items a.ends };
}

// The ends of two lists.
#[derive(Drop)]
struct TwoEnds {
    of_zero: Ends,
    of_one: Ends,
}

impl Model for TwoEnds {
    ghost use Rattle.std.specs.Prelude.{ℕ};
    ghost use Rattle.std.specs.Coded.{coded_ℕ};
    ghost use Rattle.std.specs.FinMap.{FinMap, code};
    ghost use Rattle.std.specs.Ordering.{nat_cmp};
    ghost use Rattle.member_lists.specs.declared.Ends.{Ends};
    ghost use Rattle.member_lists.specs.contracts.Ends as ends;

    ghost Value = { FinMap nat_cmp Ends };

    ghost coded = { code coded_ℕ ends.the_row.coded };

    ghost use Rattle.member_lists.specs.Fields.{both_ends, AreEnds};

    ghost view = { λ a. both_ends a.of_zero a.of_one };

    ghost invariant = { λ a. AreEnds a.of_zero a.of_one };
}

impl TwoEnds {
    // Those of two lists without items.
    fn blank() -> TwoEnds
        ensures { result ≡ map.empty }
    {
        TwoEnds {
            of_zero: Ends::blank(),
            of_one: Ends::blank(),
        }
    }

    // Whether neither list has an item.
    fn is_empty(&self) -> bool
        ensures { result ≡ eqb (map.len self.now) 0 }
    {
        self.of_zero.is_blank() & self.of_one.is_blank()
    }

    // Those of one of the two.
    #[inline(always)]
    fn of(&self, list: u64) -> Ends
        requires { list < 2 }
        ensures { result ≡ ends_at self.now list }
    {
        match list {
            0 => self.of_zero,
            _ => self.of_one,
        }
    }

    // The last item of one of the two.
    #[inline(always)]
    fn last(&self, list: u64) -> Place
        requires { list < 2 }
        ensures { result ≡ (ends_at self.now list).last }
    {
        match list {
            0 => self.of_zero.last,
            _ => self.of_one.last,
        }
    }

    // An item leaves one of the two lists, where it stood between these two.
    #[inline(always)]
    fn leave(&mut self, list: u64, before: Place, behind: Place)
        requires few { list < 2 }
        requires blank { (left_by before behind (ends_at self.old list)).first ≡ None → left_by before behind (ends_at self.old list) ≡ blank_ends }
        ensures none { (left_by before behind (ends_at self.old list)).first ≡ None → self.new ≡ map.remove self.old list }
        ensures some { (x : ℕ) → (left_by before behind (ends_at self.old list)).first ≡ Some x → self.new ≡ map.insert self.old list (left_by before behind (ends_at self.old list)) }
    {
        match list {
            0 => self.of_zero.leave(before, behind),
            _ => self.of_one.leave(before, behind),
        }
    }

    // An item joins one of the two lists at its end.
    #[inline(always)]
    fn join(&mut self, list: u64, item: usize)
        requires few { list < 2 }
        requires fits { item + 1 < 2 ^ 32 }
        ensures { self.new ≡ map.insert self.old list (joined_by item (ends_at self.old list)) }
    {
        match list {
            0 => self.of_zero.join(item),
            _ => self.of_one.join(item),
        }
    }
}

/// Two lists, 0 and 1, of items that are in at most one of them. Without room for items nothing is
/// allocated; each item takes 8 bytes.
#[derive(Drop)]
pub struct TwoLists {
    links: Vec<Link>,
    ends: TwoEnds,
}

impl Model for TwoLists {
    ghost use Rattle.member_lists.specs.Lists.{ListsView, lists_code};

    ghost Value = { ListsView };

    ghost coded = { lists_code };

    ghost use Rattle.std.specs.Prelude.{length};
    ghost use Rattle.member_lists.specs.Chains.{lists_of, IsKept};

    ghost view = { λ a. record { lists = lists_of a.links.items a.ends; items = length a.links.items } };

    ghost invariant = { λ a. IsKept a.links.items a.ends };
}

// Puts another item behind this one, if there is one.
fn set_behind(links: &mut Vec<Link>, item: Place, behind: Place)
    requires { (x : ℕ) → item ≡ Some x → x < length links.old.items }
    ensures { IsBehindSet links.old.items links.new.items item behind }
{
    if let Some(item) = item.item() {
        links[item].behind = behind;
    }
}

// Puts another item before this one, if there is one.
fn set_before(links: &mut Vec<Link>, item: Place, before: Place)
    requires { (x : ℕ) → item ≡ Some x → x < length links.old.items }
    ensures { IsBeforeSet links.old.items links.new.items item before }
{
    if let Some(item) = item.item() {
        links[item].before = before;
    }
}

// The link of an item.
#[inline(always)]
fn link_of(links: &Vec<Link>, item: usize) -> Link
    requires { item < length links.now.items }
    ensures { slice_get links.now.items item ≡ Some result }
{
    links[item]
}

// The end of a list that an item leaves: the item's other neighbour, where it had none on this side.
fn end_without(beside: Place, other: Place, end: Place) -> Place
    ensures { result ≡ pick beside other end }
{
    match beside.item() {
        None => other,
        Some(_) => end,
    }
}

// Links an item that is in no list behind the last one of a list, if that has one.
#[inline(always)]
fn link_behind(links: &mut Vec<Link>, item: usize, last: Place)
    requires few { item + 1 < 2 ^ 32 }
    requires room { item < length links.old.items }
    requires last { (x : ℕ) → last ≡ Some x → x < length links.old.items }
    ensures { IsBehindSet (slice_set links.old.items item (record { before = last; behind = None })) links.new.items last (Some item) }
{
    links[item] = Link {
        before: last,
        behind: Place::none(),
    };
    set_behind(links, last, Place::of(item));
}

// Links an item that is in no list behind the last one of a list, and answers the list's ends then.
#[inline(always)]
pub(crate) fn link_last(links: &mut Vec<Link>, item: usize, ends: Ends) -> Ends
    requires few { item + 1 < 2 ^ 32 }
    requires room { item < length links.old.items }
    requires last { (x : ℕ) → ends.last ≡ Some x → x < length links.old.items }
    ensures { IsLinkedLast links.old.items links.new.items item ends result }
{
    link_behind(links, item, ends.last);
    let place = Place::of(item);
    Ends {
        first: ends.first.or(place),
        last: place,
    }
}

// Links the neighbours of an item to one another, and answers the ends of its list without it.
#[inline(always)]
pub(crate) fn unlink(links: &mut Vec<Link>, item: usize, ends: Ends) -> Ends
    requires room { item < length links.old.items }
    requires before { (link : AnyLink) → slice_get links.old.items item ≡ Some link → (x : ℕ) → link.before ≡ Some x → x < length links.old.items }
    requires behind { (link : AnyLink) → slice_get links.old.items item ≡ Some link → (x : ℕ) → link.behind ≡ Some x → x < length links.old.items }
    ensures { IsUnlinked links.old.items links.new.items item ends result }
{
    let Link { before, behind } = links[item];
    set_behind(&mut *links, before, behind);
    set_before(links, behind, before);
    Ends {
        first: end_without(before, behind, ends.first),
        last: end_without(behind, before, ends.last),
    }
}

// Links another item, which is in no list, in the place of this one, and answers the ends of its list then.
#[inline(always)]
pub(crate) fn relink(links: &mut Vec<Link>, item: usize, by: usize, ends: Ends) -> Ends
    requires few { by + 1 < 2 ^ 32 }
    requires room { by < length links.old.items }
    requires there { item < length links.old.items }
    requires before { (link : AnyLink) → slice_get links.old.items item ≡ Some link → (x : ℕ) → link.before ≡ Some x → x < length links.old.items }
    requires behind { (link : AnyLink) → slice_get links.old.items item ≡ Some link → (x : ℕ) → link.behind ≡ Some x → x < length links.old.items }
    ensures { IsRelinked links.old.items links.new.items item by ends result }
{
    let Link { before, behind } = links[item];
    let place = Place::of(by);
    links[by] = Link { before, behind };
    set_behind(&mut *links, before, place);
    set_before(links, behind, place);
    Ends {
        first: end_without(before, place, ends.first),
        last: end_without(behind, place, ends.last),
    }
}

// The ends of a list, blank where it has no items.
fn ends_of(ends: &NumberMap<Ends>, list: u64) -> Ends
    ensures { result ≡ ends_at ends.now.map list }
{
    ends.get(list).unwrap_or(Ends::blank())
}

// Puts these ends in place of those of a list that has items, or in, where it has none.
#[inline(always)]
fn hold_ends(ends: &mut NumberMap<Ends>, list: u64, has_items: bool, now: Ends)
    requires held { has_items ≡ map.contains_key ends.old.map list }
    requires room { map.get ends.old.map list ≡ None → 0 < ends.old.room }
    ensures map { ends.new.map ≡ map.insert ends.old.map list now }
    ensures total { map.len ends.new.map + ends.new.room ≡ map.len ends.old.map + ends.old.room }
{
    if has_items {
        ends.set(list, now);
    } else {
        ends.insert(list, now);
    }
}

// Puts these ends in place of a list's, or takes its ends out, where it has no item left.
#[inline(always)]
fn leave_ends(ends: &mut NumberMap<Ends>, list: u64, now: Ends)
    requires { map.contains_key ends.old.map list ≡ true }
    ensures none { now.first ≡ None → ends.new.map ≡ map.remove ends.old.map list }
    ensures some { (x : ℕ) → now.first ≡ Some x → ends.new.map ≡ map.insert ends.old.map list now }
    ensures total { map.len ends.new.map + ends.new.room ≡ map.len ends.old.map + ends.old.room }
{
    match now.first.item() {
        Some(_) => ends.set(list, now),
        None => ends.release(list),
    }
}

impl Lists {
    ghost use Rattle.member_lists.specs.Lists.{list_of, with_list, without, IsApart};

    /// No lists, and no items. Allocates nothing; constant time.
    pub fn new(alloc: Global) -> Lists
        ensures { result ≡ record { lists = map.empty; items = 0 } }
    {
        Lists {
            links: Vec::new(alloc),
            ends: NumberMap::new(alloc),
        }
    }

    /// Makes room for so many items in all: those below this number. Constant time, but where the
    /// links move to a larger place.
    ///
    /// An error means that memory was refused, or that the items are 2^32 or more, whose links would
    /// take 32 GiB; all is then as before. Nothing else here takes memory, but [`Lists::items`] for its
    /// answer.
    pub fn reserve(&mut self, items: usize) -> Result<(), AllocError>
        ensures ok { OnOk result (self.new ≡ record self.old { items = max self.old.items items }) }
        ensures err { OnErr result (self.new ≡ self.old) }
    {
        if items <= self.links.len() {
            return Ok(());
        }
        self.grow(items)
    }

    // Makes room where there is too little: apart, as most calls find enough.
    #[inline(never)]
    fn grow(&mut self, items: usize) -> Result<(), AllocError>
        ensures ok { OnOk result (self.new ≡ record self.old { items = max self.old.items items }) }
        ensures err { OnErr result (self.new ≡ self.old) }
    {
        if items > MOST_ITEMS {
            return Err(AllocError);
        }
        if items > self.links.len() {
            self.ends.reserve(items)?;
            self.links.resize(items, Link::blank())?;
        }
        Ok(())
    }

    /// Returns whether no list has an item. Constant time.
    pub fn is_empty(&self) -> bool
        ensures { IsTrue result ↔ ((list : ℕ) → list_of self.now list ≡ []) }
    {
        self.ends.len() == 0
    }

    /// Puts an item that is in no list at the end of this one. Constant time.
    #[inline(always)]
    pub fn push(&mut self, list: u64, item: usize)
        requires room { item < self.old.items }
        requires apart { IsApart self.old item }
        ensures { self.new ≡ with_list self.old list (list_of self.old list ++ item ∷ []) }
    {
        let ends = ends_of(&self.ends, list);
        let has_items = ends.first.item().is_some();
        let now = link_last(&mut self.links, item, ends);
        hold_ends(&mut self.ends, list, has_items, now);
    }

    /// Takes an item out of its list; the order of the others stays. Constant time.
    #[inline(always)]
    pub fn remove(&mut self, list: u64, item: usize)
        requires { Contains (list_of self.old list) item }
        ensures { self.new ≡ with_list self.old list (without item (list_of self.old list)) }
    {
        let ends = ends_of(&self.ends, list);
        let now = unlink(&mut self.links, item, ends);
        leave_ends(&mut self.ends, list, now);
    }

    /// The first item of a list. Constant time.
    pub fn first(&self, list: u64) -> Option<usize>
        ensures { result ≡ slice_get (list_of self.now list) 0 }
    {
        ends_of(&self.ends, list).first.item()
    }

    /// The item behind this one of a list. Constant time.
    pub fn after(&self, list: u64, item: usize) -> Option<usize>
        ensures { (i : ℕ) → slice_get (list_of self.now list) i ≡ Some item → result ≡ slice_get (list_of self.now list) (i + 1) }
    {
        let link = self.links.get(item)?;
        link.behind.item()
    }

    /// The item behind this one, which is in the list. Constant time.
    #[inline(always)]
    pub fn behind(&self, list: u64, item: usize) -> Option<usize>
        requires { Contains (list_of self.now list) item }
        ensures { (i : ℕ) → slice_get (list_of self.now list) i ≡ Some item → result ≡ slice_get (list_of self.now list) (i + 1) }
    {
        link_of(&self.links, item).behind.item()
    }

    /// The items of a list, in order. Linear in their number.
    ///
    /// An error means that memory was refused.
    pub fn items(&self, list: u64, alloc: Global) -> Result<Vec<usize>, AllocError>
        ensures { IfOk result (λ items. items.items ≡ list_of self.now list) }
    {
        let mut items = Vec::new(alloc);
        let mut next = self.first(list);
        while let Some(item) = next {
            items.push(item)?;
            next = self.after(list, item);
        }
        Ok(items)
    }
}

impl TwoLists {
    ghost use Rattle.member_lists.specs.Lists.{list_of, with_list, without, IsApart};

    /// Both lists empty, and no items. Allocates nothing; constant time.
    pub fn new(alloc: Global) -> TwoLists
        ensures { result ≡ record { lists = map.empty; items = 0 } }
    {
        TwoLists {
            links: Vec::new(alloc),
            ends: TwoEnds::blank(),
        }
    }

    /// Makes room for so many items in all: those below this number. Constant time, but where the
    /// links move to a larger place.
    ///
    /// An error means that memory was refused, or that the items are 2^32 or more, whose links would
    /// take 32 GiB; all is then as before. Nothing else here takes memory.
    pub fn reserve(&mut self, items: usize) -> Result<(), AllocError>
        ensures ok { OnOk result (self.new ≡ record self.old { items = max self.old.items items }) }
        ensures err { OnErr result (self.new ≡ self.old) }
    {
        if items <= self.links.len() {
            return Ok(());
        }
        self.grow(items)
    }

    // Makes room where there is too little: apart, as most calls find enough.
    #[inline(never)]
    fn grow(&mut self, items: usize) -> Result<(), AllocError>
        requires { self.old.items ≤ items }
        ensures ok { OnOk result (self.new ≡ record self.old { items = max self.old.items items }) }
        ensures err { OnErr result (self.new ≡ self.old) }
    {
        if items > MOST_ITEMS {
            return Err(AllocError);
        }
        let blank = Link::blank();
        self.links.resize(items, blank)?;
        Ok(())
    }

    /// Returns whether neither list has an item. Constant time.
    #[inline(always)]
    pub fn is_empty(&self) -> bool
        ensures { IsTrue result ↔ ((list : ℕ) → list_of self.now list ≡ []) }
    {
        self.ends.is_empty()
    }

    /// Puts an item that is in neither list at the end of this one. Constant time.
    #[inline(always)]
    pub fn push(&mut self, list: u64, item: usize)
        requires list { list < 2 }
        requires room { item < self.old.items }
        requires apart { IsApart self.old item }
        ensures { self.new ≡ with_list self.old list (list_of self.old list ++ item ∷ []) }
    {
        let last = self.ends.last(list);
        link_behind(&mut self.links, item, last);
        self.ends.join(list, item);
    }

    /// Takes an item out of its list; the order of the others stays. Constant time.
    #[inline(always)]
    pub fn remove(&mut self, list: u64, item: usize)
        requires list { list < 2 }
        requires there { Contains (list_of self.old list) item }
        ensures { self.new ≡ with_list self.old list (without item (list_of self.old list)) }
    {
        let Link { before, behind } = link_of(&self.links, item);
        set_behind(&mut self.links, before, behind);
        set_before(&mut self.links, behind, before);
        self.ends.leave(list, before, behind);
    }

    /// Takes the first item out of its list, as [`TwoLists::remove`] does. Constant time.
    #[inline(always)]
    pub fn remove_first(&mut self, list: u64, item: usize)
        requires list { list < 2 }
        requires first { slice_get (list_of self.old list) 0 ≡ Some item }
        ensures { self.new ≡ with_list self.old list (without item (list_of self.old list)) }
    {
        let behind = link_of(&self.links, item).behind;
        let none = Place::none();
        set_before(&mut self.links, behind, none);
        self.ends.leave(list, none, behind);
    }

    /// The last item of a list. Constant time.
    pub fn last(&self, list: u64) -> Option<usize>
        requires { list < 2 }
        ensures some { IfSome result (λ item. (front : List ℕ) × (list_of self.now list ≡ front ++ item ∷ [])) }
        ensures none { IfNone result (list_of self.now list ≡ []) }
    {
        self.ends.last(list).item()
    }

    /// The first item of a list. Constant time.
    #[inline(always)]
    pub fn first(&self, list: u64) -> Option<usize>
        requires { list < 2 }
        ensures { result ≡ slice_get (list_of self.now list) 0 }
    {
        self.ends.of(list).first.item()
    }
}
