//! What is under each name, whether names have a generation or not.
ghost use Rattle.std.specs.Prelude.{◌≡◌, ◌≢◌, ℕ, ◌-◌, ◌/◌, ◌<◌, ◌≤◌, ◌↔◌, IsTrue, true, max, Some, None, IfSome, IfNone, IsOk, OnOk, OnErr};
ghost use Rattle.std.specs.FinMap as map;
ghost use Rattle.mach_types.specs.Numbers.{most_names};
ghost use Rattle.name_space_base.specs.Pages.{IsNextUsed};
ghost use Rattle.name_space.specs.Entry.{with_send};
ghost use Rattle.name_space.specs.Names.{IsFreshFor, IsUsable, CanCountIn, HasRoomIn, MayWantIn, HasPlace, given_after, first_given};
ghost use Rattle.name_space.specs.Table.{view_of, end_of};

use crate::Entry;
use crate::plain::{FIRST_HIGH, Plain};
use mach_types::Name;
use std::alloc::{AllocError, Global};
use std::marker::Model;
use tagged_names::TaggedNames;

/// Entries by names of either kind.
#[derive(Drop)]
pub(crate) enum Kind {
    /// A fresh name is the least unused number.
    Plain(Plain),
    /// A fresh name has a generation.
    Tagged(TaggedNames<Entry>),
}

/// Entries by names, room for fresh names, and a place for one name.
#[derive(Drop)]
pub(crate) struct Table {
    kind: Kind,
    // The names below this lie in the pages of names without a generation: 65,536, or 0 where names have
    // one. So a look-up there asks for nothing else.
    end: u32,
}

impl Model for Table {
    ghost use Rattle.name_space.specs.Names.{SpaceView, space_code};
    ghost use Rattle.name_space.specs.contracts.Entry as entry_of;

    ghost Value = { SpaceView };

    ghost coded = { space_code entry_of.the_row.coded };

    ghost use Rattle.std.specs.Prelude.{◌≡◌};
    ghost use Rattle.name_space.specs.Table.{view_of, end_of};

    ghost view = { λ a. view_of a.kind };

    ghost invariant = { λ a. a.end ≡ end_of a.kind };
}

// What is under a name that lies in no page of names without a generation.
#[inline(always)]
fn get_apart(kind: &Kind, name: u32) -> Option<Entry>
    requires { end_of kind.now ≤ name }
    ensures { result ≡ map.get (view_of kind.now).names name }
{
    match kind {
        Kind::Plain(names) => names.get_high(name),
        Kind::Tagged(names) => names.get(name),
    }
}

// Puts an entry under an unused name that lies in no page of names without a generation.
#[inline(never)]
fn insert_apart(kind: &mut Kind, name: u32, entry: Entry)
    requires apart { end_of kind.old ≤ name }
    requires usable { IsUsable name }
    requires unused { map.get (view_of kind.old).names name ≡ None }
    requires not_full { map.len (view_of kind.old).names < most_names }
    requires place { HasPlace (view_of kind.old) name }
    ensures view { view_of kind.new ≡ record (view_of kind.old) { names = map.insert (view_of kind.old).names name entry; room = (view_of kind.old).room - 1 } }
    ensures end { end_of kind.new ≡ end_of kind.old }
{
    match kind {
        Kind::Plain(names) => names.insert_high(name, entry),
        Kind::Tagged(names) => names.insert(name, entry),
    }
}

// Puts an entry in place of what is under such a name.
#[inline(never)]
fn set_apart(kind: &mut Kind, name: u32, entry: Entry)
    requires apart { end_of kind.old ≤ name }
    requires used { map.contains_key (view_of kind.old).names name ≡ true }
    ensures view { view_of kind.new ≡ record (view_of kind.old) { names = map.insert (view_of kind.old).names name entry } }
    ensures end { end_of kind.new ≡ end_of kind.old }
{
    match kind {
        Kind::Plain(names) => names.set_high(name, entry),
        Kind::Tagged(names) => names.set(name, entry),
    }
}

// Takes out what is under such a name.
#[inline(always)]
fn remove_apart(kind: &mut Kind, name: u32) -> Option<Entry>
    requires apart { end_of kind.old ≤ name }
    ensures value { result ≡ map.get (view_of kind.old).names name }
    ensures view { view_of kind.new ≡ record (view_of kind.old) { names = map.remove (view_of kind.old).names name } }
    ensures end { end_of kind.new ≡ end_of kind.old }
{
    match kind {
        Kind::Plain(names) => names.remove_high(name),
        Kind::Tagged(names) => names.remove(name),
    }
}

// Adds a send reference under such a name, and returns what was there.
#[inline(never)]
fn add_send_apart(kind: &mut Kind, name: u32) -> Entry
    requires apart { end_of kind.old ≤ name }
    requires used { map.contains_key (view_of kind.old).names name ≡ true }
    ensures value { map.get (view_of kind.old).names name ≡ Some result }
    ensures view { view_of kind.new ≡ record (view_of kind.old) { names = map.insert (view_of kind.old).names name (with_send result) } }
    ensures end { end_of kind.new ≡ end_of kind.old }
{
    let entry = get_apart(kind, name).unwrap();
    set_apart(kind, name, entry.with_send());
    entry
}

impl Table {
    // No names, with a generation or without. Allocates nothing.
    pub(crate) fn new(alloc: Global, has_generations: bool) -> Table
        ensures { result ≡ record { names = map.empty; room = 0; kept = None; given = first_given has_generations } }
    {
        if has_generations {
            Table {
                kind: Kind::Tagged(TaggedNames::new(alloc)),
                end: 0,
            }
        } else {
            Table {
                kind: Kind::Plain(Plain::new(alloc)),
                end: FIRST_HIGH,
            }
        }
    }

    // For how many more fresh names there is room.
    #[inline(always)]
    pub(crate) fn room(&self) -> usize
        ensures { result ≡ self.now.room }
    {
        match &self.kind {
            Kind::Plain(names) => names.room(),
            Kind::Tagged(names) => names.room(),
        }
    }

    // Whether a place is kept for the name.
    #[inline(always)]
    pub(crate) fn keeps(&self, name: Name) -> bool
        ensures { IsTrue result ↔ (self.now.kept ≡ Some name) }
    {
        match &self.kind {
            Kind::Plain(names) => names.keeps(name),
            Kind::Tagged(names) => names.keeps(name.number()),
        }
    }

    // The name for which a place is kept, if there is one.
    #[inline(always)]
    pub(crate) fn kept(&self) -> Option<Name>
        ensures { result ≡ self.now.kept }
    {
        match &self.kind {
            Kind::Plain(names) => names.kept(),
            Kind::Tagged(names) => {
                let kept = names.kept()?;
                Some(Name::new(kept))
            }
        }
    }

    #[inline(always)]
    pub(crate) fn get(&self, name: Name) -> Option<Entry>
        ensures { result ≡ map.get self.now.names name }
    {
        let number = name.number();
        if number < self.end {
            let Kind::Plain(names) = &self.kind else {
                unreachable!()
            };
            names.get_low(number)
        } else {
            get_apart(&self.kind, number)
        }
    }

    // The fresh name.
    #[inline(always)]
    pub(crate) fn fresh(&self) -> Name
        requires { map.len self.now.names < most_names }
        ensures fresh { IsFreshFor self.now result }
        ensures small { result < 16777216 }
    {
        match &self.kind {
            Kind::Plain(names) => names.fresh(),
            Kind::Tagged(names) => Name::new(names.fresh()),
        }
    }

    // The least name from this one on that is in use.
    pub(crate) fn next(&self, from: u32) -> Option<u32>
        ensures found { IfSome result (λ name. IsNextUsed self.now.names from name) }
        ensures none { IfNone result ((n : ℕ) → from ≤ n → map.get self.now.names n ≡ None) }
    {
        match &self.kind {
            Kind::Plain(names) => names.next(from),
            Kind::Tagged(names) => names.next(from),
        }
    }

    // Makes room for so many fresh names. An error means that memory was refused.
    #[inline(always)]
    pub(crate) fn reserve(&mut self, additional: usize) -> Result<(), AllocError>
        ensures ok { OnOk result (self.new ≡ record self.old { room = max self.old.room additional }) }
        ensures err { OnErr result (self.new ≡ self.old) }
        ensures had_room { additional ≤ self.old.room → IsOk result }
    {
        match &mut self.kind {
            Kind::Plain(names) => names.reserve(additional),
            Kind::Tagged(names) => names.reserve(additional),
        }
    }

    // Keeps a place for the name. An error means that memory was refused for it.
    #[inline(always)]
    pub(crate) fn keep(&mut self, name: Name) -> Result<(), AllocError>
        ensures ok { OnOk result (self.new ≡ record self.old { kept = Some name }) }
        ensures err { OnErr result (self.new ≡ self.old) }
        ensures wanted { OnErr result (MayWantIn self.old.given self.old name) }
    {
        match &mut self.kind {
            Kind::Plain(names) => names.keep(name),
            Kind::Tagged(names) => names.keep(name.number()),
        }
    }

    // Puts an entry under an unused name, in its place. Takes no memory.
    #[inline(always)]
    pub(crate) fn insert(&mut self, name: Name, entry: Entry)
        requires usable { IsUsable name }
        requires unused { map.get self.old.names name ≡ None }
        requires not_full { map.len self.old.names < most_names }
        requires place { HasPlace self.old name }
        ensures { self.new ≡ record self.old { names = map.insert self.old.names name entry; room = self.old.room - 1 } }
    {
        let number = name.number();
        if number < self.end {
            let Kind::Plain(names) = &mut self.kind else {
                unreachable!()
            };
            names.insert_low(number, entry);
        } else {
            insert_apart(&mut self.kind, number, entry);
        }
    }

    // Puts an entry under a fresh name, in its place, and counts the name where names have a generation.
    // Takes no memory.
    #[inline(always)]
    pub(crate) fn insert_fresh(&mut self, name: Name, entry: Entry)
        requires usable { IsUsable name }
        requires unused { map.get self.old.names name ≡ None }
        requires not_full { map.len self.old.names < most_names }
        requires place { HasRoomIn self.old.given self.old name }
        requires counts { CanCountIn self.old.given self.old name }
        ensures { self.new ≡ record self.old { names = map.insert self.old.names name entry; room = self.old.room - 1; given = given_after self.old.given name } }
    {
        match &mut self.kind {
            Kind::Plain(names) => names.insert_low(name.number(), entry),
            Kind::Tagged(names) => names.insert_fresh(name.number(), entry),
        }
    }

    // Puts an entry in place of what stands under a name. Takes no memory.
    #[inline(always)]
    pub(crate) fn set(&mut self, name: Name, entry: Entry)
        requires { map.contains_key self.old.names name ≡ true }
        ensures { self.new ≡ record self.old { names = map.insert self.old.names name entry } }
    {
        let number = name.number();
        if number < self.end {
            let Kind::Plain(names) = &mut self.kind else {
                unreachable!()
            };
            names.set_low(number, entry);
        } else {
            set_apart(&mut self.kind, number, entry);
        }
    }

    // Adds a send reference to what stands under a name, and answers what stood there. Takes no memory.
    #[inline(always)]
    pub(crate) fn add_send(&mut self, name: Name) -> Entry
        requires { map.contains_key self.old.names name ≡ true }
        ensures value { map.get self.old.names name ≡ Some result }
        ensures after { self.new ≡ record self.old { names = map.insert self.old.names name (with_send result) } }
    {
        let number = name.number();
        if number < self.end {
            let Kind::Plain(names) = &mut self.kind else {
                unreachable!()
            };
            names.add_send_low(number)
        } else {
            add_send_apart(&mut self.kind, number)
        }
    }

    // Takes out what stands under the name, and answers it.
    #[inline(always)]
    pub(crate) fn remove(&mut self, name: Name) -> Option<Entry>
        ensures value { result ≡ map.get self.old.names name }
        ensures after { self.new ≡ record self.old { names = map.remove self.old.names name } }
    {
        let number = name.number();
        if number < self.end {
            let Kind::Plain(names) = &mut self.kind else {
                unreachable!()
            };
            names.remove_low(number)
        } else {
            remove_apart(&mut self.kind, number)
        }
    }
}
