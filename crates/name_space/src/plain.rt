//! What is under each name, where names have no generation: up to 65,535 in pages, above in a tree.
ghost use Rattle.std.specs.Prelude.{◌≡◌, ◌≢◌, ◌⊎◌, ℕ, ◌-◌, ◌<◌, ◌≤◌, ◌↔◌, IsTrue, true, max, Some, None, IfSome, IfNone, IsOk, OnOk, OnErr};
ghost use Rattle.std.specs.FinMap as map;
ghost use Rattle.mach_types.specs.Numbers.{most_names};
ghost use Rattle.name_space_base.specs.Pages.{IsNextUsed};
ghost use Rattle.name_space.specs.Entry.{with_send};
ghost use Rattle.name_space.specs.Names.{IsFreshName, IsUsable, HasNoNeighbour};
ghost use Rattle.name_space.specs.Plain.{HasPlainPlace};

use crate::Entry;
use mach_types::Name;
use name_space_base::{High, Pages};
use std::alloc::{AllocError, Global};
use std::marker::Model;

// The least name that lies in no page.
pub(crate) const FIRST_HIGH: u32 = 65_536;

/// Entries by names, room for fresh names, and a place for one name.
#[derive(Drop)]
pub(crate) struct Plain {
    low: Pages<Entry>,
    high: High<Entry>,
    room: usize,
    kept: Option<Name>,
}

impl Model for Plain {
    ghost use Rattle.name_space.specs.Plain.{PlainView, plain_code};
    ghost use Rattle.name_space.specs.contracts.Entry as entry_of;

    ghost Value = { PlainView };

    ghost coded = { plain_code entry_of.the_row.coded };

    ghost use Rattle.name_space.specs.Plain.{joined, IsLaid};

    ghost view = { λ a. record { names = joined a.low.values a.high.names; room = a.room; kept = a.kept } };

    ghost invariant = { λ a. IsLaid a.low a.high a.room a.kept };
}

// Adds a send reference, and answers what was there.
fn join_send(held: &mut Entry) -> Entry
    ensures value { result ≡ held.old }
    ensures after { held.new ≡ with_send held.old }
{
    let before = *held;
    *held = before.with_send();
    before
}

impl Plain {
    // No names. Allocates nothing.
    pub(crate) fn new(alloc: Global) -> Plain
        ensures { result ≡ record { names = map.empty; room = 0; kept = None } }
    {
        Plain {
            low: Pages::new(alloc),
            high: High::new(alloc),
            room: 0,
            kept: None,
        }
    }

    // For how many more fresh names there is room.
    #[inline(always)]
    pub(crate) fn room(&self) -> usize
        ensures { result ≡ self.now.room }
    {
        self.room
    }

    // Whether a place is kept for the name.
    #[inline(always)]
    pub(crate) fn keeps(&self, name: Name) -> bool
        ensures { IsTrue result ↔ (self.now.kept ≡ Some name) }
    {
        match self.kept {
            Some(kept) => kept.number() == name.number(),
            None => false,
        }
    }

    // The name for which a place is kept, if there is one.
    #[inline(always)]
    pub(crate) fn kept(&self) -> Option<Name>
        ensures { result ≡ self.now.kept }
    {
        self.kept
    }

    // What stands under a name that lies in pages.
    #[inline(always)]
    pub(crate) fn get_low(&self, name: u32) -> Option<Entry>
        requires { name < 65536 }
        ensures { result ≡ map.get self.now.names name }
    {
        self.low.get(name)
    }

    // What stands under a name above all pages.
    #[inline(never)]
    pub(crate) fn get_high(&self, name: u32) -> Option<Entry>
        requires { 65536 ≤ name }
        ensures { result ≡ map.get self.now.names name }
    {
        self.high.get(name)
    }

    // The least unused number from 1.
    #[inline(always)]
    pub(crate) fn fresh(&self) -> Name
        ensures fresh { map.len self.now.names ≤ most_names → IsFreshName self.now.names result }
        ensures small { result ≤ 65536 }
    {
        Name::new(self.low.first_free())
    }

    // The least name from this one on that is in use.
    pub(crate) fn next(&self, from: u32) -> Option<u32>
        ensures found { IfSome result (λ name. IsNextUsed self.now.names from name) }
        ensures none { IfNone result ((n : ℕ) → from ≤ n → map.get self.now.names n ≡ None) }
    {
        match self.low.next_used(from) {
            Some(name) => Some(name),
            None => self.high.next(from),
        }
    }

    // Makes room for so many fresh names. An error means that memory was refused for a page.
    #[inline(always)]
    pub(crate) fn reserve(&mut self, additional: usize) -> Result<(), AllocError>
        ensures ok { OnOk result (self.new ≡ record self.old { room = max self.old.room additional }) }
        ensures err { OnErr result (self.new ≡ self.old) }
        ensures had_room { additional ≤ self.old.room → IsOk result }
        ensures wanted { OnErr result ((name : ℕ) × (name < 65536) × HasNoNeighbour self.old.names self.old.kept name) }
    {
        if additional <= self.room {
            return Ok(());
        }
        self.low.reserve(additional)?;
        self.room = additional;
        Ok(())
    }

    // Keeps a place for the name. An error means that memory was refused for its page, or above all pages.
    #[inline(always)]
    pub(crate) fn keep(&mut self, name: Name) -> Result<(), AllocError>
        ensures ok { OnOk result (self.new ≡ record self.old { kept = Some name }) }
        ensures err { OnErr result (self.new ≡ self.old) }
        ensures wanted { OnErr result ((65536 ≤ name) ⊎ HasNoNeighbour self.old.names self.old.kept name) }
    {
        let number = name.number();
        if number < FIRST_HIGH {
            self.low.make_page(number)?;
        } else {
            self.high.keep(number)?;
        }
        self.kept = Some(name);
        Ok(())
    }

    // Puts an entry under an unused name that lies in pages, in its place. Takes no memory.
    #[inline(always)]
    pub(crate) fn insert_low(&mut self, name: u32, entry: Entry)
        requires small { name < 65536 }
        requires usable { IsUsable name }
        requires unused { map.get self.old.names name ≡ None }
        requires not_full { map.len self.old.names < most_names }
        requires place { HasPlainPlace self.old name }
        ensures { self.new ≡ record self.old { names = map.insert self.old.names name entry; room = self.old.room - 1 } }
    {
        self.room = self.room.saturating_sub(1);
        self.low.insert(name, entry);
    }

    // Puts an entry under an unused name above all pages, in its place. Takes no memory.
    #[inline(never)]
    pub(crate) fn insert_high(&mut self, name: u32, entry: Entry)
        requires great { 65536 ≤ name }
        requires usable { IsUsable name }
        requires unused { map.get self.old.names name ≡ None }
        requires not_full { map.len self.old.names < most_names }
        requires place { HasPlainPlace self.old name }
        ensures { self.new ≡ record self.old { names = map.insert self.old.names name entry; room = self.old.room - 1 } }
    {
        self.room = self.room.saturating_sub(1);
        self.high.put(name, entry);
    }

    // Puts an entry in place of what stands under a name in pages. Takes no memory.
    #[inline(always)]
    pub(crate) fn set_low(&mut self, name: u32, entry: Entry)
        requires small { name < 65536 }
        requires used { map.contains_key self.old.names name ≡ true }
        ensures { self.new ≡ record self.old { names = map.insert self.old.names name entry } }
    {
        self.low.set(name, entry);
    }

    // Puts an entry in place of what stands under a name above all pages. Takes no memory.
    pub(crate) fn set_high(&mut self, name: u32, entry: Entry)
        requires great { 65536 ≤ name }
        requires used { map.contains_key self.old.names name ≡ true }
        ensures { self.new ≡ record self.old { names = map.insert self.old.names name entry } }
    {
        self.high.put(name, entry);
    }

    // Adds a send reference to what stands under a name in pages, and returns what stood there. Takes no
    // memory.
    #[inline(always)]
    pub(crate) fn add_send_low(&mut self, name: u32) -> Entry
        requires small { name < 65536 }
        requires used { map.contains_key self.old.names name ≡ true }
        ensures value { map.get self.old.names name ≡ Some result }
        ensures after { self.new ≡ record self.old { names = map.insert self.old.names name (with_send result) } }
    {
        join_send(self.low.value_mut(name))
    }

    // Takes out what stands under a name in pages, and returns it.
    #[inline(always)]
    pub(crate) fn remove_low(&mut self, name: u32) -> Option<Entry>
        requires { name < 65536 }
        ensures value { result ≡ map.get self.old.names name }
        ensures after { self.new ≡ record self.old { names = map.remove self.old.names name } }
    {
        self.low.remove(name)
    }

    // Takes out what stands under a name above all pages, and returns it.
    #[inline(never)]
    pub(crate) fn remove_high(&mut self, name: u32) -> Option<Entry>
        requires { 65536 ≤ name }
        ensures value { result ≡ map.get self.old.names name }
        ensures after { self.new ≡ record self.old { names = map.remove self.old.names name } }
    {
        self.high.remove(name)
    }
}
