//! Values by numbers: small ones in pages that are made at first use, any others in a tree.
//!
//! The numbers in pages ([`Pages`]) are from 1 to 65,535, in up to 256 pages of 256. A bit for each used
//! number and for each full page finds the least free number in a few words. A tree ([`High`]) takes any
//! numbers, and keeps a place for one of them, so that a value can be put there without memory.
#![tactic(auto)]

ghost use Rattle.std.specs.Prelude.{◌≡◌, ℕ, ◌-◌, ◌/◌, ◌<◌, ◌≤◌, ◌↔◌, ◌==◌, if◌then◌else◌, IsTrue, true, false, max, length, Some, None, IfOk, IfSome, IfNone, IsOk, OnOk, OnErr};
ghost use Rattle.std.specs.Borrow.{sem};
ghost use Rattle.std.specs.FinMap as map;
ghost use Rattle.std.specs.FinSet as set;
ghost use Rattle.name_space_base.specs.Pages.{IsFirstFree, HasPage, HasPlace, WantsPage, IsNextUsed};
ghost use Rattle.name_space_base.specs.Bits.{has};
ghost use Rattle.name_space_base.specs.Sound.{page_at, MakesOnly};

mod bits;
mod high;
mod page;

use bits::Bits;
pub use high::High;
use page::{PAGE, Page};
use std::alloc::{AllocError, Global};
use std::marker::Model;

// How many pages there can be.
const MOST_PAGES: usize = 256;

/// Values by numbers from 1 to 65,535. Without pages nothing is allocated.
#[derive(Drop)]
pub struct Pages<T> {
    pages: Vec<Page<T>>,
    // The full pages.
    full: Bits,
    len: usize,
    // So many first pages are all made, and so many numbers are free in them.
    front: usize,
    front_free: usize,
    room: usize,
    alloc: Global,
}

impl<T> Model for Pages<T> {
    ghost use Rattle.name_space_base.specs.Pages.{PagesView, pages_code};

    ghost Value = { PagesView T };

    ghost coded = { pages_code T.code };

    ghost use Rattle.name_space_base.specs.Sound.{values_of, made_of, IsSound};

    ghost view = { λ a. record { values = values_of a.pages.items; room = a.room; made = made_of a.pages.items } };

    ghost invariant = { λ a. IsSound a.pages.items a.full.words a.len a.front a.front_free a.room };
}

// Adds pages that aren't made, until there are so many.
fn lengthen<T: Copy>(
    pages: &mut Vec<Page<T>>,
    count: usize,
    alloc: Global,
) -> Result<(), AllocError>
    ensures same { (page : ℕ) → page_at pages.new.items page ≡ page_at pages.old.items page }
    ensures ok { OnOk result (count ≤ length pages.new.items) }
    ensures few { length pages.new.items ≤ max (length pages.old.items) count }
    ensures long { count ≤ length pages.old.items → IsOk result }
{
    for _known in pages.len()..count {
        pages.push(Page::new(alloc))?;
    }
    Ok(())
}

// Makes a page, where it isn't made.
fn make<T: Copy>(pages: &mut Vec<Page<T>>, page: usize, alloc: Global) -> Result<(), AllocError>
    requires { page < 256 }
    ensures only { MakesOnly pages.old.items pages.new.items page }
    ensures ok { OnOk result (0 < length (page_at pages.new.items page)) }
    ensures err { OnErr result (page_at pages.new.items page ≡ page_at pages.old.items page) }
    ensures made { 0 < length (page_at pages.old.items page) → IsOk result }
{
    lengthen(pages, page + 1, alloc)?;
    let held = &mut pages[page];
    if held.is_made() {
        return Ok(());
    }
    held.make(alloc)
}

// Marks a page that wasn't full, if it is full now.
#[inline(always)]
fn mark(full: &mut Bits, page: usize, is_full: bool)
    requires small { page < 256 }
    requires was_not { has full.old.words page ≡ false }
    ensures { (p : ℕ) → p < 256 → has full.new.words p ≡ (if p == page then is_full else has full.old.words p) }
{
    if is_full {
        full.insert(page);
    }
}

impl<T: Copy> Pages<T> {
    ghost use Rattle.name_space_base.specs.Lends.{lends_value};

    /// No values, and no room for any. Allocates nothing; constant time.
    pub fn new(alloc: Global) -> Pages<T>
        ensures values { result.values ≡ map.empty }
        ensures room { result.room ≡ 0 }
        ensures made { result.made ≡ set.empty }
    {
        Pages {
            pages: Vec::new(alloc),
            full: Bits::new(),
            len: 0,
            front: 0,
            front_free: 0,
            room: 0,
            alloc,
        }
    }

    /// How many values there are, 0 to 65,535. Constant time.
    pub fn len(&self) -> usize
        ensures { result ≡ map.len self.now.values }
    {
        self.len
    }

    /// The value under the number, if there is one: none under 0, and none above 65,535. Constant time.
    #[inline(always)]
    pub fn get(&self, number: u32) -> Option<T>
        ensures { result ≡ map.get self.now.values number }
    {
        let page = number as usize / PAGE;
        if page >= self.pages.len() {
            return None;
        }
        self.pages[page].get(number as usize % PAGE)
    }

    /// The least number from 1 that has no value, at most 65,536. Constant time: at most eight words
    /// are read.
    #[inline(always)]
    pub fn first_free(&self) -> u32
        ensures first { IsFirstFree self.now.values result }
        ensures bound { result ≤ 65536 }
    {
        let page = self.full.first_absent();
        let from = usize::from(page == 0);
        if page >= self.pages.len() {
            return (PAGE * page + from) as u32;
        }
        (PAGE * page + self.pages[page].first_free(from)) as u32
    }

    /// The least number from this one on that has a value. Constant time, except for four words of each page
    /// without such a number.
    pub fn next_used(&self, from: u32) -> Option<u32>
        ensures found { IfSome result (λ number. IsNextUsed self.now.values from number) }
        ensures none { IfNone result ((n : ℕ) → from ≤ n → map.get self.now.values n ≡ None) }
    {
        let mut place = from as usize % PAGE;
        for page in from as usize / PAGE..self.pages.len() {
            let found = self.pages[page].next_used(place);
            if found < PAGE {
                return Some((PAGE * page + found) as u32);
            }
            place = 0;
        }
        None
    }

    /// For how many more values there is room at the least free numbers. Constant time.
    pub fn room(&self) -> usize
        ensures { result ≡ self.now.room }
    {
        self.room
    }

    /// Makes room for so many more values at the least free numbers. Room that is there stays and
    /// counts: where it is less, there is then room for just so many. Linear in the number of pages
    /// that are made for it.
    ///
    /// An error means that memory was refused for a page; values and room are then as before, and pages
    /// that were made stay. Where all pages are made it never comes, though fewer numbers be free: a
    /// number that gets free then has its place.
    #[inline(always)]
    pub fn reserve(&mut self, additional: usize) -> Result<(), AllocError>
        ensures values { self.new.values ≡ self.old.values }
        ensures made { (page : ℕ) → set.contains self.old.made page ≡ true → set.contains self.new.made page ≡ true }
        ensures ok { OnOk result (self.new.room ≡ max self.old.room additional) }
        ensures err { OnErr result (self.new.room ≡ self.old.room) }
        ensures had_room { additional ≤ self.old.room → IsOk result }
        ensures wanted { OnErr result ((number : ℕ) × (number < 65536) × WantsPage self.old number) }
    {
        if additional <= self.room {
            return Ok(());
        }
        while self.front_free < additional && self.front < MOST_PAGES {
            make(&mut self.pages, self.front, self.alloc)?;
            self.front_free += PAGE - self.pages[self.front].len() - usize::from(self.front == 0);
            self.front += 1;
        }
        self.room = additional;
        Ok(())
    }

    /// Makes the page of a number, at most 65,535, where it isn't made. Constant time, but for the
    /// pages before it that were never named.
    ///
    /// An error means that memory was refused, and that no number of the page had a value; nothing is
    /// then changed.
    pub fn make_page(&mut self, number: u32) -> Result<(), AllocError>
        requires { number < 65536 }
        ensures ok { OnOk result (self.new ≡ record self.old { made = set.insert self.old.made (number / 256) }) }
        ensures err { OnErr result (self.new ≡ self.old) }
        ensures had_page { HasPage self.old number → IsOk result }
        ensures wanted { OnErr result (WantsPage self.old number) }
    {
        make(&mut self.pages, number as usize / PAGE, self.alloc)
    }

    /// Puts a value under a free number from 1 to 65,535: the least one, where there is room, or one
    /// whose page is made. Takes no memory; constant time.
    #[inline(always)]
    pub fn insert(&mut self, number: u32, value: T)
        requires positive { 0 < number }
        requires small { number < 65536 }
        requires free { map.get self.old.values number ≡ None }
        requires place { HasPlace self.old number }
        ensures { self.new ≡ record self.old { values = map.insert self.old.values number value; room = self.old.room - 1 } }
    {
        let page = number as usize / PAGE;
        let held = &mut self.pages[page];
        held.put(number as usize % PAGE, value);
        let is_full = held.len() + usize::from(page == 0) == PAGE;
        mark(&mut self.full, page, is_full);
        self.front_free -= usize::from(page < self.front);
        self.len += 1;
        self.room = self.room.saturating_sub(1);
    }

    /// Puts a value in place of the one under a number. Takes no memory; constant time.
    pub fn set(&mut self, number: u32, value: T)
        requires { map.contains_key self.old.values number ≡ true }
        ensures { self.new ≡ record self.old { values = map.insert self.old.values number value } }
    {
        self.pages[number as usize / PAGE].set(number as usize % PAGE, value);
    }

    /// The value under a number, for writing. Takes no memory; constant time.
    pub fn value_mut(&mut self, number: u32) -> &mut T
        requires { map.contains_key self.old.values number ≡ true }
        ensures* writes_back { sem 𝓛 (lends_value T.row self.entry number result) }
        ensures value { map.get self.old.values number ≡ Some result.now }
    {
        self.pages[number as usize / PAGE].value_mut(number as usize % PAGE)
    }

    /// Takes out the value under a number, and returns it. Room and pages stay as they are. Constant time.
    pub fn remove(&mut self, number: u32) -> Option<T>
        ensures value { result ≡ map.get self.old.values number }
        ensures after { self.new ≡ record self.old { values = map.remove self.old.values number } }
    {
        let value = self.get(number)?;
        self.clear(number);
        Some(value)
    }

    /// Takes out the value under a number that has one. Room and pages stay as they are. Constant time.
    #[inline(always)]
    pub fn clear(&mut self, number: u32)
        requires { map.contains_key self.old.values number ≡ true }
        ensures { self.new ≡ record self.old { values = map.remove self.old.values number } }
    {
        let page = number as usize / PAGE;
        self.pages[page].clear(number as usize % PAGE);
        self.full.remove(page);
        self.front_free += usize::from(page < self.front);
        self.len -= 1;
    }
}
