//! Lists of items of which some are marked.
ghost use Rattle.std.specs.Prelude.{◌≡◌, ◌≢◌, ℕ, ◌+◌, ◌<◌, ◌≤◌, ◌++◌, ◌∷◌, [], max, true, length, Some, None, IfOk, OnOk, OnErr, slice_get};
ghost use Rattle.std.specs.List.{Contains};
ghost use Rattle.std.specs.FinMap as map;
ghost use Rattle.member_lists.specs.Lists.{list_of, with_list, without, IsApart};
ghost use Rattle.member_lists.specs.Chains.{ends_at, blank_ends, blank_link, IsKept, IsUnlinked};
ghost use Rattle.member_lists.specs.Ended.{AreLengthened, lists_in, AreSomeEnds, IsPassed, IsPassedBy};
ghost use Rattle.member_lists.specs.declared.Link.{Link as AnyLink};

use crate::{Ends, Link, MOST_ITEMS, link_last, relink, unlink};
use number_map::NumberMap;
use std::alloc::{AllocError, Global};
use std::marker::Model;
use std::mem;

// The ends of a list that has items, and those of its marked ones.
#[derive(Clone, Copy, Debug, PartialEq, Eq)]
struct BothEnds {
    all: Ends,
    marked: Ends,
}

// They stand in the map under the list's number.
const _: () = prove!(mem::size_of::<BothEnds>() == 16);

impl BothEnds {
    // Those of a list without items.
    fn blank() -> BothEnds
        ensures { result.all ≡ blank_ends × (result.marked ≡ blank_ends) }
    {
        BothEnds {
            all: Ends::blank(),
            marked: Ends::blank(),
        }
    }
}

// The ends of each list that has items, and those of its marked ones, if it has any, under its number.
#[derive(Drop)]
struct EndsMap {
    map: NumberMap<BothEnds>,
}

impl Model for EndsMap {
    ghost use Rattle.member_lists.specs.Ended.{EndsMapView, ends_map_code};
    ghost use Rattle.member_lists.specs.contracts.Ends as ends;

    ghost Value = { EndsMapView };

    ghost coded = { ends_map_code ends.the_row.coded };

    ghost use Rattle.member_lists.specs.Both.{all_ends, marked_ends, AreBlank};

    ghost view = { λ a. record { all = all_ends a.map.map; marked = marked_ends a.map.map; room = a.map.room } };

    ghost invariant = { λ a. AreBlank a.map.map };
}

impl EndsMap {
    fn new(alloc: Global) -> EndsMap
        ensures { result ≡ record { all = map.empty; marked = map.empty; room = 0 } }
    {
        EndsMap {
            map: NumberMap::new(alloc),
        }
    }

    // Makes room for so many more lists.
    fn reserve(&mut self, lists: usize) -> Result<(), AllocError>
        ensures ok { OnOk result (self.new ≡ record self.old { room = max self.old.room lists }) }
        ensures err { OnErr result (self.new ≡ self.old) }
    {
        self.map.reserve(lists)
    }

    // The ends of a list, blank where it has no items.
    fn all(&self, list: u64) -> Ends
        ensures { result ≡ ends_at self.now.all list }
    {
        self.map.get(list).unwrap_or(BothEnds::blank()).all
    }

    // The ends of a list's marked items, blank where it has none.
    fn marked(&self, list: u64) -> Ends
        ensures { result ≡ ends_at self.now.marked list }
    {
        self.map.get(list).unwrap_or(BothEnds::blank()).marked
    }

    // Puts these ends in place of a list's, or in, where it had no items.
    fn hold(&mut self, list: u64, has_items: bool, now: Ends)
        requires held { has_items ≡ map.contains_key self.old.all list }
        requires room { map.get self.old.all list ≡ None → 0 < self.old.room }
        ensures all { self.new.all ≡ map.insert self.old.all list now }
        ensures marked { self.new.marked ≡ self.old.marked }
        ensures total { map.len self.new.all + self.new.room ≡ map.len self.old.all + self.old.room }
    {
        if has_items {
            self.map.value_mut(list).all = now;
        } else {
            let marked = Ends::blank();
            self.map.insert(list, BothEnds { all: now, marked });
        }
    }

    // Puts these ends in place of a list's, or takes the list out, where it has no item left.
    fn leave(&mut self, list: u64, now: Ends)
        requires there { map.contains_key self.old.all list ≡ true }
        requires unmarked { now.first ≡ None → map.get self.old.marked list ≡ None }
        ensures none { now.first ≡ None → self.new.all ≡ map.remove self.old.all list }
        ensures some { (x : ℕ) → now.first ≡ Some x → self.new.all ≡ map.insert self.old.all list now }
        ensures marked { self.new.marked ≡ self.old.marked }
        ensures total { map.len self.new.all + self.new.room ≡ map.len self.old.all + self.old.room }
    {
        match now.first.item() {
            Some(_) => self.map.value_mut(list).all = now,
            None => self.map.release(list),
        }
    }

    // Puts these ends in place of those of a list's marked items.
    fn mark(&mut self, list: u64, now: Ends)
        requires there { map.contains_key self.old.all list ≡ true }
        requires blank { now.first ≡ None → now ≡ blank_ends }
        ensures all { self.new.all ≡ self.old.all }
        ensures none { now.first ≡ None → self.new.marked ≡ map.remove self.old.marked list }
        ensures some { (x : ℕ) → now.first ≡ Some x → self.new.marked ≡ map.insert self.old.marked list now }
        ensures room { self.new.room ≡ self.old.room }
    {
        self.map.value_mut(list).marked = now;
    }

    // Links an item behind the last of the marked ones of a list that has items, by one look-up.
    #[inline(always)]
    fn link_mark(&mut self, list: u64, marks: &mut Vec<Link>, item: usize)
        requires there { map.contains_key self.old.all list ≡ true }
        requires kept { IsKept marks.old.items self.old.marked }
        requires room { item < length marks.old.items }
        requires apart { IsApart (lists_in marks.old.items self.old.marked) item }
        ensures kept { IsKept marks.new.items self.new.marked }
        ensures rest { self.new ≡ record self.old { marked = self.new.marked } }
        ensures marks { lists_in marks.new.items self.new.marked ≡ with_list (lists_in marks.old.items self.old.marked) list (list_of (lists_in marks.old.items self.old.marked) list ++ item ∷ []) }
    {
        let both = self.map.value_mut(list);
        both.marked = link_last(marks, item, both.marked);
    }

    // Takes an item out of the marked ones of a list that has items, by one look-up.
    #[inline(always)]
    fn unlink_mark(&mut self, list: u64, marks: &mut Vec<Link>, item: usize)
        requires there { map.contains_key self.old.all list ≡ true }
        requires kept { IsKept marks.old.items self.old.marked }
        requires marked { Contains (list_of (lists_in marks.old.items self.old.marked) list) item }
        ensures kept { IsKept marks.new.items self.new.marked }
        ensures rest { self.new ≡ record self.old { marked = self.new.marked } }
        ensures marks { lists_in marks.new.items self.new.marked ≡ with_list (lists_in marks.old.items self.old.marked) list (without item (list_of (lists_in marks.old.items self.old.marked) list)) }
    {
        let both = self.map.value_mut(list);
        both.marked = unlink_one(marks, item, both.marked);
    }

    // Puts the first of the marked items of a list that has items behind the others, by one look-up.
    #[inline(always)]
    fn pass_mark(&mut self, list: u64, marks: &mut Vec<Link>)
        requires there { map.contains_key self.old.all list ≡ true }
        requires kept { IsKept marks.old.items self.old.marked }
        ensures rest { self.new ≡ record self.old { marked = self.new.marked } }
        ensures passed { IsPassed marks.old.items marks.new.items self.old.marked self.new.marked list }
    {
        let both = self.map.value_mut(list);
        both.marked = pass_first(marks, both.marked);
    }
}

// Unlinks an item as `unlink` does. The only item of a list has no neighbours, so that its link stays.
#[inline(always)]
fn unlink_one(links: &mut Vec<Link>, item: usize, ends: Ends) -> Ends
    requires room { item < length links.old.items }
    requires before { (link : AnyLink) → slice_get links.old.items item ≡ Some link → (x : ℕ) → link.before ≡ Some x → x < length links.old.items }
    requires behind { (link : AnyLink) → slice_get links.old.items item ≡ Some link → (x : ℕ) → link.behind ≡ Some x → x < length links.old.items }
    requires alone { ends.first ≡ ends.last → slice_get links.old.items item ≡ Some blank_link }
    ensures { IsUnlinked links.old.items links.new.items item ends result }
{
    if ends.first.is(ends.last) {
        return Ends::blank();
    }
    unlink(links, item, ends)
}

// Links the first item of a list, if it has any, behind the others, and returns the list's ends then.
#[inline(always)]
fn pass_first(links: &mut Vec<Link>, was: Ends) -> Ends
    requires { AreSomeEnds links.old.items was }
    ensures blank { result.first ≡ None → result ≡ blank_ends }
    ensures passed { IsPassedBy links.old.items links.new.items was result }
{
    let Some(item) = was.first.item() else {
        return was;
    };
    if was.first.is(was.last) {
        return was;
    }
    let others = unlink(&mut *links, item, was);
    link_last(links, item, others)
}

// Makes blank links at the end of both, so that each has so many.
fn lengthen(links: &mut Vec<Link>, marks: &mut Vec<Link>, items: usize) -> Result<(), AllocError>
    requires more { length links.old.items ≤ items }
    requires long { length marks.old.items ≡ length links.old.items }
    ensures ok { OnOk result (AreLengthened links.old.items links.new.items marks.old.items marks.new.items items) }
    ensures err { OnErr result ((links.new.items ≡ links.old.items) × (marks.new.items ≡ marks.old.items)) }
{
    let before = marks.len();
    marks.resize(items, Link::blank())?;
    match links.resize(items, Link::blank()) {
        Ok(()) => Ok(()),
        Err(_) => {
            marks.truncate(before);
            Err(AllocError)
        }
    }
}

/// Lists of items that are in at most one of them, some of which are marked. The marked items of a list have
/// an order of their own. Without room for items nothing is allocated. Each item takes 16 bytes. The room for
/// a list that comes with it takes what a [`NumberMap`] takes for a value of 16.
#[derive(Drop)]
pub struct MarkedLists {
    links: Vec<Link>,
    marks: Vec<Link>,
    ends: EndsMap,
}

impl Model for MarkedLists {
    ghost use Rattle.member_lists.specs.Lists.{MarkedView, marked_code};

    ghost Value = { MarkedView };

    ghost coded = { marked_code };

    ghost use Rattle.member_lists.specs.Ended.{lists_in, IsMarked};

    ghost view = { λ a. record { all = lists_in a.links.items a.ends.all; marked = lists_in a.marks.items a.ends.marked } };

    ghost invariant = { λ a. IsMarked a.links.items a.marks.items a.ends };
}

impl MarkedLists {
    ghost use Rattle.member_lists.specs.Lists.{with_room, replaced, IsMarkedIn};

    /// No lists, and no items. Allocates nothing; constant time.
    pub fn new(alloc: Global) -> MarkedLists
        ensures { result ≡ record { all = record { lists = map.empty; items = 0 }; marked = record { lists = map.empty; items = 0 } } }
    {
        MarkedLists {
            links: Vec::new(alloc),
            marks: Vec::new(alloc),
            ends: EndsMap::new(alloc),
        }
    }

    /// Makes room for so many items in all: those below this number. Constant time, but where the
    /// links move to a larger place.
    ///
    /// An error means that memory was refused, or that the items are 2^32 or more, whose links would
    /// take 64 GiB; all is then as before. Nothing else here takes memory, but [`MarkedLists::items`] for
    /// its answer.
    pub fn reserve(&mut self, items: usize) -> Result<(), AllocError>
        ensures ok { OnOk result (self.new ≡ with_room self.old items) }
        ensures err { OnErr result (self.new ≡ self.old) }
    {
        if items <= self.links.len() {
            return Ok(());
        }
        self.grow(items)
    }

    // Makes room where there is too little: apart, as most calls find enough.
    #[inline(never)]
    fn grow(&mut self, items: usize) -> Result<(), AllocError>
        requires { self.old.all.items ≤ items }
        ensures ok { OnOk result (self.new ≡ with_room self.old items) }
        ensures err { OnErr result (self.new ≡ self.old) }
    {
        if items > MOST_ITEMS {
            return Err(AllocError);
        }
        self.ends.reserve(items)?;
        lengthen(&mut self.links, &mut self.marks, items)?;
        Ok(())
    }

    /// Puts an item that is in no list at the end of this one. Constant time.
    pub fn push(&mut self, list: u64, item: usize)
        requires room { item < self.old.all.items }
        requires apart { IsApart self.old.all item }
        ensures { self.new ≡ record self.old { all = with_list self.old.all list (list_of self.old.all list ++ item ∷ []) } }
    {
        let ends = self.ends.all(list);
        let has_items = ends.first.item().is_some();
        let now = link_last(&mut self.links, item, ends);
        self.ends.hold(list, has_items, now);
    }

    /// Takes an item that isn't marked out of its list; the order of the others stays. Constant time.
    pub fn remove(&mut self, list: u64, item: usize)
        requires there { Contains (list_of self.old.all list) item }
        requires unmarked { IsApart self.old.marked item }
        ensures { self.new ≡ record self.old { all = with_list self.old.all list (without item (list_of self.old.all list)) } }
    {
        let ends = self.ends.all(list);
        let now = unlink(&mut self.links, item, ends);
        self.ends.leave(list, now);
    }

    /// Marks an item of a list, as the last of those that are marked. Constant time.
    #[inline(always)]
    pub fn mark(&mut self, list: u64, item: usize)
        requires there { Contains (list_of self.old.all list) item }
        requires unmarked { IsApart self.old.marked item }
        ensures { self.new ≡ record self.old { marked = with_list self.old.marked list (list_of self.old.marked list ++ item ∷ []) } }
    {
        self.ends.link_mark(list, &mut self.marks, item);
    }

    /// Takes the mark from a marked item of a list; the order of the others stays. Constant time.
    #[inline(always)]
    pub fn unmark(&mut self, list: u64, item: usize)
        requires { Contains (list_of self.old.marked list) item }
        ensures { self.new ≡ record self.old { marked = with_list self.old.marked list (without item (list_of self.old.marked list)) } }
    {
        self.ends.unlink_mark(list, &mut self.marks, item);
    }

    /// Puts the first of the marked items of a list, which has items, behind the other marked ones. Takes no memory;
    /// constant time.
    #[inline(always)]
    pub fn pass_mark(&mut self, list: u64)
        requires { list_of self.old.all list ≢ [] }
        ensures none { slice_get (list_of self.old.marked list) 0 ≡ None → self.new ≡ self.old }
        ensures some { (item : ℕ) → slice_get (list_of self.old.marked list) 0 ≡ Some item → self.new ≡ record self.old { marked = with_list self.old.marked list (without item (list_of self.old.marked list) ++ item ∷ []) } }
    {
        self.ends.pass_mark(list, &mut self.marks);
    }

    /// Puts another item, which is in no list, in the place of this one, and among the marked ones too where
    /// it is marked: the order stays. Takes no memory; constant time.
    pub fn replace(&mut self, list: u64, item: usize, by: usize, is_marked: bool)
        requires room { by < self.old.all.items }
        requires there { Contains (list_of self.old.all list) item }
        requires apart { IsApart self.old.all by }
        requires marked { IsMarkedIn self.old list item is_marked }
        ensures { self.new ≡ replaced self.old list item by is_marked }
    {
        let all = self.ends.all(list);
        let now = relink(&mut self.links, item, by, all);
        self.ends.hold(list, true, now);
        if is_marked {
            let marked = self.ends.marked(list);
            let now = relink(&mut self.marks, item, by, marked);
            self.ends.mark(list, now);
        }
    }

    /// The first item of a list. Constant time.
    pub fn first(&self, list: u64) -> Option<usize>
        ensures { result ≡ slice_get (list_of self.now.all list) 0 }
    {
        self.ends.all(list).first.item()
    }

    /// The first of the marked items of a list. Constant time.
    pub fn first_marked(&self, list: u64) -> Option<usize>
        ensures { result ≡ slice_get (list_of self.now.marked list) 0 }
    {
        self.ends.marked(list).first.item()
    }

    /// The item behind this one of a list. Constant time.
    pub fn after(&self, list: u64, item: usize) -> Option<usize>
        ensures { (i : ℕ) → slice_get (list_of self.now.all list) i ≡ Some item → result ≡ slice_get (list_of self.now.all list) (i + 1) }
    {
        let link = self.links.get(item)?;
        link.behind.item()
    }

    /// The items of a list, in order. Linear in their number.
    ///
    /// An error means that memory was refused.
    pub fn items(&self, list: u64, alloc: Global) -> Result<Vec<usize>, AllocError>
        ensures { IfOk result (λ items. items.items ≡ list_of self.now.all list) }
    {
        let mut items = Vec::new(alloc);
        let mut next = self.first(list);
        while let Some(item) = next {
            items.push(item)?;
            next = self.after(list, item);
        }
        Ok(items)
    }
}
