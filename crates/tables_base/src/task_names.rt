//! The names of one task, as they are read.
ghost use Rattle.std.specs.Prelude.{◌≡◌, ◌↔◌, ◌<◌, ◌≤◌, ℕ, Bool, false, Some, None, IfOk, IfSome, IfNone, IsTrue};
ghost use Rattle.std.specs.FinMap as map;
ghost use Rattle.mach_types.specs.Numbers.{most_names};
ghost use Rattle.name_space.specs.Entry.{port_of};
ghost use Rattle.name_space.specs.Names.{IsFreshFor, IsNextName, IsUsable, port_at};
ghost use Rattle.tables_base.specs.Reading.{live_in, read_space, reading};

use crate::Queued;
use mach_types::{Name, PortId};
use name_space::{Entry, Space};
use port::{NOWHERE, Ports};
use std::alloc::{AllocError, Global};
use std::marker::Model;
use user_refs::UserRefs;

/// The names of a task that lives. What a name keeps is read with the ports that are there: a right for a
/// port that is gone is a dead name with as many references. Contracts see the names as they are read.
#[derive(Drop)]
pub struct TaskNames<'a> {
    kept: &'a Space,
    ports: &'a Ports<Queued>,
}

impl<'a> Model for TaskNames<'a> {
    ghost use Rattle.name_space.specs.Names.{SpaceView, space_code};
    ghost use Rattle.name_space.specs.contracts.Entry as entry;
    ghost use Rattle.tables_base.specs.Reading.{live_in, read_space};

    ghost Value = { SpaceView };

    ghost coded = { space_code entry.the_row.coded };

    ghost view = { λ fields. read_space (live_in fields.ports.now.bare) fields.kept.now };
}

// What is left under a name of a right for a port that is gone.
fn dead_name(kept: Entry) -> Entry
    ensures { (live : ℕ → Bool) (port : ℕ) → port_of kept ≡ Some port → live port ≡ false → result ≡ reading live kept }
{
    match kept {
        Entry::Send(_, references) | Entry::ReceiveAndSend(_, references) => {
            Entry::DeadName(references)
        }
        Entry::Receive(_) | Entry::SendOnce(_) => Entry::DeadName(UserRefs::one()),
        Entry::DeadName(_) | Entry::Set(_) => kept,
    }
}

/// What is under a name.
#[derive(Clone, Copy)]
pub struct Placed {
    /// What is there.
    pub entry: Entry,
    /// The place of its port's record, if it is a right for a port ([`port::Found`]).
    pub place: usize,
}

// What stands under a name that keeps this.
#[inline(always)]
fn read(ports: &Ports<Queued>, kept: Entry) -> Placed
    ensures { result.entry ≡ reading (live_in ports.now.bare) kept }
{
    let Some(port) = kept.right_port() else {
        return Placed {
            entry: kept,
            place: NOWHERE,
        };
    };
    match ports.find(port) {
        Some(found) => Placed {
            entry: kept,
            place: found.place,
        },
        None => Placed {
            entry: dead_name(kept),
            place: NOWHERE,
        },
    }
}

impl<'a> TaskNames<'a> {
    /// Those that are kept here, read with these ports. Constant time.
    pub fn of(kept: &'a Space, ports: &'a Ports<Queued>) -> TaskNames<'a>
        ensures { result ≡ read_space (live_in ports.now.bare) kept.now }
    {
        TaskNames { kept, ports }
    }

    /// How many there are, 0 to 65,535. Constant time.
    pub fn len(&self) -> usize
        ensures value { result ≡ map.len self.now.names }
        ensures few { result ≤ most_names }
    {
        self.kept.len()
    }

    /// Returns whether there are none. Constant time.
    pub fn is_empty(&self) -> bool
        ensures { IsTrue result ↔ (map.len self.now.names ≡ 0) }
    {
        self.kept.is_empty()
    }

    /// Returns whether there are as many as there can be, 65,535. Constant time.
    pub fn is_full(&self) -> bool
        ensures { IsTrue result ↔ (most_names ≤ map.len self.now.names) }
    {
        self.kept.is_full()
    }

    /// What is under the name, if anything is. Constant time, and logarithmic for a name above 65,535.
    #[inline(always)]
    pub fn lookup(&self, name: Name) -> Option<Entry>
        ensures { result ≡ map.get self.now.names name }
    {
        let placed = self.find(name)?;
        Some(placed.entry)
    }

    /// What is under the name, if anything is, with the place of its port's record. As [`TaskNames::lookup`].
    #[inline(always)]
    pub fn find(&self, name: Name) -> Option<Placed>
        ensures some { IfSome result (λ placed. map.get self.now.names name ≡ Some placed.entry) }
        ensures none { IfNone result (map.get self.now.names name ≡ None) }
    {
        let kept = self.kept.lookup(name)?;
        Some(read(self.ports, kept))
    }

    /// Returns the fresh name, where there are fewer than 65,535 names. It is the least number from 1 that is
    /// no name. Where names have a generation, it is that of the least index from 1 that no name has. It is
    /// less than 2^24. Constant time.
    #[inline(always)]
    pub fn fresh(&self) -> Name
        requires not_full { map.len self.now.names < most_names }
        ensures fresh { IsFreshFor self.now result }
        ensures unused { map.get self.now.names result ≡ None }
        ensures usable { IsUsable result }
        ensures small { result < 16777216 }
    {
        self.kept.fresh()
    }

    /// The name that has the port's receive right or send rights, if one has. Constant time.
    pub fn name_of_port(&self, port: PortId) -> Option<Name>
        ensures found { IfSome result (λ name. port_at self.now.names name ≡ Some port) }
        ensures only { (name : ℕ) → port_at self.now.names name ≡ Some port → result ≡ Some name }
    {
        if !self.ports.contains(port) {
            return None;
        }
        self.kept.name_of_port(port)
    }

    /// The least name in use from this one on, if there is one. Constant time, except for four words of each
    /// page of 256 names, up to 65,535, that was used and has none from there on; above 65,535 logarithmic.
    pub fn next_name(&self, from: Name) -> Option<Name>
        ensures none { IfNone result ((name : ℕ) → from ≤ name → map.get self.now.names name ≡ None) }
        ensures found { IfSome result (λ name. IsNextName self.now.names from name) }
    {
        self.kept.next_name(from)
    }

    /// The names, rising. Linear in them, with memory for each; an error means that it was refused.
    pub fn names(&self, alloc: Global) -> Result<Vec<Name>, AllocError>
        ensures { IfOk result (λ names. names.items ≡ map.keys self.now.names) }
    {
        self.kept.names(alloc)
    }
}
