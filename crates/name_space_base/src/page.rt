//! A page: up to 256 values by their places, made at once or not at all.
ghost use Rattle.std.specs.Prelude.{◌≡◌, ◌<◌, ◌≤◌, ◌↔◌, ℕ, [], length, Some, None, IsTrue, is_some, true, OnOk, OnErr, slice_index_or, slice_set};
ghost use Rattle.std.specs.Borrow.{sem};
ghost use Rattle.std.specs.Option.Follows.{option_follows_value};
ghost use Rattle.name_space_base.specs.Page.{used_in, IsBlank};

use crate::bits::Bits;
use std::alloc::{AllocError, Global};
use std::marker::Model;

/// How many values fit in a page.
pub(crate) const PAGE: usize = 256;

/// The values at places 0 to 255, or no places where the page isn't made.
#[derive(Drop)]
pub(crate) struct Page<T> {
    used: Bits,
    len: usize,
    values: Vec<Option<T>>,
}

impl<T> Model for Page<T> {
    ghost use Rattle.std.specs.Prelude.{List, Option};
    ghost use Rattle.std.specs.Coded.{coded_list, coded_option};

    ghost Value = { List (Option T) };

    ghost coded = { coded_list (coded_option T.code) };

    ghost use Rattle.name_space_base.specs.Page.{IsMarked};

    ghost view = { λ a. a.values.items };

    ghost invariant = { λ a. IsMarked a.values.items a.used.words a.len };
}

// The value that is there, for writing.
fn value_in<T>(slot: &mut Option<T>) -> &mut T
    requires { is_some slot.old ≡ true }
    ensures* writes_back { sem 𝓛 (option_follows_value T.row slot.entry result) }
    ensures value { slot.old ≡ Some result.now }
{
    match slot {
        Some(value) => value,
        None => unreachable!(),
    }
}

impl<T: Copy> Page<T> {
    ghost use Rattle.name_space_base.specs.PageLends.{lends_place};

    // A page that isn't made. Allocates nothing.
    pub(crate) fn new(alloc: Global) -> Page<T>
        ensures { result ≡ [] }
    {
        Page {
            used: Bits::new(),
            len: 0,
            values: Vec::new(alloc),
        }
    }

    // A page without values. One allocation.
    pub(crate) fn make(&mut self, alloc: Global) -> Result<(), AllocError>
        ensures ok { OnOk result (IsBlank self.new) }
        ensures err { OnErr result (self.new ≡ self.old) }
    {
        let mut values = Vec::with_capacity(alloc, PAGE)?;
        values.resize(PAGE, None)?;
        *self = Page {
            used: Bits::new(),
            len: 0,
            values,
        };
        Ok(())
    }

    // Whether the page is made.
    pub(crate) fn is_made(&self) -> bool
        ensures { IsTrue result ↔ (0 < length self.now) }
    {
        !self.values.is_empty()
    }

    // How many values there are.
    pub(crate) fn len(&self) -> usize
        ensures { result ≡ used_in self.now }
    {
        self.len
    }

    pub(crate) fn get(&self, place: usize) -> Option<T>
        ensures { result ≡ slice_index_or self.now place None }
    {
        match self.values.get(place) {
            Some(value) => *value,
            None => None,
        }
    }

    // The least place from `from` on, 0 or 1, that has no value, or 256.
    pub(crate) fn first_free(&self, from: usize) -> usize
        requires { from < 2 }
        ensures bound { result ≤ 256 }
        ensures from { from ≤ result }
        ensures used { (i : ℕ) → from ≤ i → i < result → is_some (slice_index_or self.now i None) ≡ true }
        ensures free { slice_index_or self.now result None ≡ None }
    {
        let mut used = self.used;
        if from == 1 {
            used.insert(0);
        }
        used.first_absent()
    }

    // The least place from `from` on that has a value, or 256.
    pub(crate) fn next_used(&self, from: usize) -> usize
        requires { from < 256 }
        ensures bound { result ≤ 256 }
        ensures from { from ≤ result }
        ensures free { (i : ℕ) → from ≤ i → i < result → slice_index_or self.now i None ≡ None }
        ensures used { result < 256 → is_some (slice_index_or self.now result None) ≡ true }
    {
        self.used.next_present(from)
    }

    // Puts a value at a free place of a page that is made.
    pub(crate) fn put(&mut self, place: usize, value: T)
        requires made { place < length self.old }
        requires free { slice_index_or self.old place None ≡ None }
        ensures { self.new ≡ slice_set self.old place (Some value) }
    {
        self.values[place] = Some(value);
        self.used.insert(place);
        self.len += 1;
    }

    // Puts a value in place of another.
    pub(crate) fn set(&mut self, place: usize, value: T)
        requires made { place < length self.old }
        requires used { is_some (slice_index_or self.old place None) ≡ true }
        ensures { self.new ≡ slice_set self.old place (Some value) }
    {
        self.values[place] = Some(value);
    }

    // The value at a place that has one, for writing.
    pub(crate) fn value_mut(&mut self, place: usize) -> &mut T
        requires made { place < length self.old }
        requires used { is_some (slice_index_or self.old place None) ≡ true }
        ensures* writes_back { sem 𝓛 (lends_place T.row self.entry place result) }
        ensures value { slice_index_or self.old place None ≡ Some result.now }
    {
        value_in(&mut self.values[place])
    }

    // Takes a value out.
    pub(crate) fn clear(&mut self, place: usize)
        requires made { place < length self.old }
        requires used { is_some (slice_index_or self.old place None) ≡ true }
        ensures { self.new ≡ slice_set self.old place None }
    {
        self.values[place] = None;
        self.used.remove(place);
        self.len -= 1;
    }
}
