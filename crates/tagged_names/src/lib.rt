//! Values by names with a generation.
//!
//! The index of a name is the name divided by 256. A fresh name has the least index from 1 under which
//! no name is in use, and its low 8 bits are how often a fresh name was counted at this index before,
//! modulo 256: a name that was removed comes back only after 256 fresh names of its index. Names that
//! the caller chooses are any numbers, may share an index, and are not counted.
//!
//! Room for fresh names to come is made by [`TaggedNames::reserve`], a place for one chosen name by
//! [`TaggedNames::keep`]; nothing else takes memory. Fresh names take constant time. Names that share an
//! index or whose index is 0 or above 65,535 lie in a tree, and take logarithmic time in their number.
#![tactic(auto)]

ghost use Rattle.std.specs.Prelude.{◌≡◌, ◌≢◌, ◌↔◌, ℕ, ◌+◌, ◌-◌, ◌/◌, ◌<◌, ◌≤◌, IsTrue, true, max, min, Some, None, IfSome, IfNone, OnOk, OnErr, IsOk};
ghost use Rattle.std.specs.FinMap as map;
ghost use Rattle.name_space_base.specs.Pages.{IsNextUsed};
ghost use Rattle.tagged_names.specs.Names.{IsFreshName, IsFreshIndex, CanCount, HasPlace, MayWantPlace, counted};

mod counts;
mod places;

use counts::Counts;
use places::Places;
use std::alloc::{AllocError, Global};
use std::marker::Model;

// How many names have the same index.
const NAMES: u32 = 256;

// How many indices fresh names can have: 1 to 65,535.
const MOST_INDICES: usize = 65_535;

/// Values by names, the counts of fresh names by indices, room for fresh names to come, and a place for
/// one chosen name. Without names, room and place nothing is allocated.
#[derive(Drop)]
pub struct TaggedNames<V: Copy> {
    places: Places<V>,
    counts: Counts,
    len: usize,
    room: usize,
}

impl<V: Copy> Model for TaggedNames<V> {
    ghost use Rattle.tagged_names.specs.Names.{TaggedView, tagged_code};

    ghost Value = { TaggedView V };

    ghost coded = { tagged_code V.code };

    ghost use Rattle.tagged_names.specs.Sound.{IsSound};

    ghost view = { λ a. record { names = a.places.names; given = a.counts.given; room = a.room; kept = a.places.kept } };

    ghost invariant = { λ a. IsSound a.places a.counts a.len a.room };
}

// An index up to which counts have places where so many names are in use and so many are to come, and one
// more by the kept place. No fresh index is above 65,535.
fn greatest_index(len: usize, room: usize) -> usize
    requires { len < 65536 }
    ensures enough { min (len + room + 1) 65535 ≤ result }
    ensures few { result ≤ len + room + 1 }
{
    len + 1 + room.min(MOST_INDICES)
}

impl<V: Copy> TaggedNames<V> {
    /// No names, no counts, no room, and no kept place. Allocates nothing; constant time.
    pub fn new(alloc: Global) -> TaggedNames<V>
        ensures { result ≡ record { names = map.empty; given = map.empty; room = 0; kept = None } }
    {
        TaggedNames {
            places: Places::new(alloc),
            counts: Counts::new(alloc),
            len: 0,
            room: 0,
        }
    }

    /// How many names are in use. Constant time.
    pub fn len(&self) -> usize
        ensures { result ≡ map.len self.now.names }
    {
        self.len
    }

    /// For how many more fresh names there is room. Constant time.
    pub fn room(&self) -> usize
        ensures { result ≡ self.now.room }
    {
        self.room
    }

    /// The value under the name, if the name is in use. Constant time for a name that was fresh.
    #[inline(always)]
    pub fn get(&self, name: u32) -> Option<V>
        ensures { result ≡ map.get self.now.names name }
    {
        self.places.get(name)
    }

    /// Makes room for so many more fresh names, and to count them. Room that is there stays and counts.
    /// Linear in the number of pages of 256 indices that are made, and in the number of indices.
    ///
    /// An error means that memory was refused; names, counts and room are then as before.
    #[inline(always)]
    pub fn reserve(&mut self, additional: usize) -> Result<(), AllocError>
        ensures ok { OnOk result (self.new ≡ record self.old { room = max self.old.room additional }) }
        ensures err { OnErr result (self.new ≡ self.old) }
        ensures had_room { additional ≤ self.old.room → IsOk result }
    {
        if additional <= self.room {
            return Ok(());
        }
        self.counts.reach(greatest_index(self.len, additional))?;
        self.places.reserve(additional)?;
        self.room = additional;
        Ok(())
    }

    /// The fresh name, less than 2^24, where fewer than 65,535 names are in use. Constant time.
    #[inline(always)]
    pub fn fresh(&self) -> u32
        requires not_full { map.len self.now.names < 65535 }
        ensures fresh { IsFreshName self.now result }
        ensures small { result / 256 < 65536 }
    {
        let index = self.places.fresh_index();
        NAMES * index + u32::from(self.counts.get(index))
    }

    /// The name for which a place is kept, if there is one. Constant time.
    #[inline(never)]
    pub fn kept(&self) -> Option<u32>
        ensures { result ≡ self.now.kept }
    {
        self.places.kept()
    }

    /// Returns whether a place is kept for the name. Constant time.
    #[inline(never)]
    pub fn keeps(&self, name: u32) -> bool
        ensures { IsTrue result ↔ (self.now.kept ≡ Some name) }
    {
        self.places.keeps(name)
    }

    /// Keeps a place for the name, in use or not, so that [`TaggedNames::insert`] can put a value under it
    /// without memory. The place stays the name's own, even after the name went in and out of use, until one
    /// is kept for another name. Logarithmic in the number of names in the tree, and where memory is taken
    /// linear in the number of indices.
    ///
    /// An error means that memory was refused, and that the place was not kept before; all is then as it was.
    /// It comes only in one of three cases: there is no room, the name that gives up the place is in use, or
    /// no name with an index in the same page of 256 indices is in use.
    #[inline(never)]
    pub fn keep(&mut self, name: u32) -> Result<(), AllocError>
        ensures ok { OnOk result (self.new ≡ record self.old { kept = Some name }) }
        ensures err { OnErr result (self.new ≡ self.old) }
        ensures wanted { OnErr result (self.old.kept ≢ Some name) }
        ensures place { OnErr result (MayWantPlace self.old name) }
    {
        if self.keeps(name) {
            return Ok(());
        }
        self.counts.reach(greatest_index(self.len, self.room))?;
        self.places.keep(name)?;
        Ok(())
    }

    /// Puts a value under a name that is not in use, in a place that was made. The name is a name of the
    /// fresh index where there is room for one, as the fresh name is, or the name for which a place is kept.
    /// Takes one from the room, where there is some. Takes no memory. Constant time, but logarithmic in the
    /// number of names in the tree for the kept name.
    #[inline(always)]
    pub fn insert(&mut self, name: u32, value: V)
        requires unused { map.get self.old.names name ≡ None }
        requires not_full { map.len self.old.names < 65535 }
        requires place { HasPlace self.old name }
        ensures { self.new ≡ record self.old { names = map.insert self.old.names name value; room = self.old.room - 1 } }
    {
        self.places.insert(name, value);
        self.len += 1;
        self.room = self.room.saturating_sub(1);
    }

    /// Puts a value under a fresh name, and counts the name at its index. Takes one from the room. Takes no
    /// memory; constant time.
    #[inline(always)]
    pub fn insert_fresh(&mut self, name: u32, value: V)
        requires not_full { map.len self.old.names < 65535 }
        requires fresh { IsFreshIndex self.old.names (name / 256) }
        requires room { 0 < self.old.room }
        requires counts { CanCount self.old (name / 256) }
        ensures { self.new ≡ record self.old { names = map.insert self.old.names name value; given = counted self.old.given (name / 256); room = self.old.room - 1 } }
    {
        self.counts.count(name / NAMES);
        self.places.insert_fresh(name, value);
        self.len += 1;
        self.room = self.room.saturating_sub(1);
    }

    /// Puts a value in place of the one under a name. Takes no memory. Constant time for a name that was
    /// fresh.
    #[inline(never)]
    pub fn set(&mut self, name: u32, value: V)
        requires { map.contains_key self.old.names name ≡ true }
        ensures { self.new ≡ record self.old { names = map.insert self.old.names name value } }
    {
        self.places.set(name, value);
    }

    /// Takes out the value under a name, and returns it. Counts, room and the kept place stay. Takes no
    /// memory. Constant time for a name that was fresh, while the tree is empty.
    #[inline(always)]
    pub fn remove(&mut self, name: u32) -> Option<V>
        ensures value { result ≡ map.get self.old.names name }
        ensures after { self.new ≡ record self.old { names = map.remove self.old.names name } }
    {
        let value = self.places.remove(name)?;
        self.len -= 1;
        Some(value)
    }

    /// The least name from this one on that is in use. Constant time, except for four words of each page
    /// without such a name, while the tree is empty.
    #[inline(never)]
    pub fn next(&self, from: u32) -> Option<u32>
        ensures found { IfSome result (λ name. IsNextUsed self.now.names from name) }
        ensures none { IfNone result ((n : ℕ) → from ≤ n → map.get self.now.names n ≡ None) }
    {
        self.places.next(from)
    }
}
