//! One task's names: a finite map from names to what is under them.
//!
//! At most 65,535 names, each any 32-bit number but 0 and 0xffffffff. A port has one name at most by
//! receive or send rights, and the name is found by the port. Room for fresh names to come is made by
//! [`Space::reserve`], a place for one chosen name by [`Space::reserve_name`]; nothing else but
//! [`Space::names`] takes memory.
//!
//! Names have no generation, or all of a space have one. Without, a fresh name is the least unused number
//! from 1; names up to 65,535, as all fresh ones are, lie in pages, which are made at first use and stay,
//! and greater ones in a tree. With a generation, a fresh name is the least unused index from 1, times 256,
//! with the count of fresh names at that index as its low 8 bits ([`tagged_names`]): names of indices from
//! 1 to 65,535 lie in pages, and in a tree all others, and those whose index has another name.
#![tactic(auto)]

ghost use Rattle.std.specs.Prelude.{◌≡◌, ◌≢◌, ℕ, ◌+◌, ◌-◌, ◌<◌, ◌≤◌, ◌↔◌, IsTrue, true, max, Some, None, IfOk, IfSome, IfNone, IsOk, OnOk, OnErr};
ghost use Rattle.std.specs.Option.{option_and_then};
ghost use Rattle.std.specs.FinMap as map;
ghost use Rattle.mach_types.specs.Numbers.{most_names, most_references};
ghost use Rattle.name_space.specs.Entry.{port_named, with_send};
ghost use Rattle.name_space.specs.Names.{HoldsPort, port_at};
ghost use Rattle.name_space.specs.Sound.{lost, CanMove};

mod plain;
mod ports;
mod table;

use mach_types::limits::MOST_NAMES;
use mach_types::{Name, PortId, Right, SetId};
use ports::Ports;
use std::alloc::{AllocError, Global};
use std::marker::Model;
use table::Table;
use user_refs::UserRefs;

/// What is under a name.
#[derive(Clone, Copy, Debug, PartialEq, Eq)]
pub enum Entry {
    /// The port's receive right.
    Receive(PortId),
    /// Send rights for the port.
    Send(PortId, UserRefs),
    /// The port's receive right, and send rights for it.
    ReceiveAndSend(PortId, UserRefs),
    /// One send-once right for the port.
    SendOnce(PortId),
    /// A dead name.
    DeadName(UserRefs),
    /// A port set.
    Set(SetId),
}

impl Entry {
    ghost use Rattle.name_space.specs.Entry.{receive_named, port_of, set_named, has_receive, send_references, references_in, type_in};

    /// The port for which this is a receive right, send rights or both.
    pub fn port(&self) -> Option<PortId>
        ensures { result ≡ port_named self.now }
    {
        match self {
            Entry::Receive(port) | Entry::Send(port, _) | Entry::ReceiveAndSend(port, _) => Some(
                *port,
            ),
            Entry::SendOnce(_) | Entry::DeadName(_) | Entry::Set(_) => None,
        }
    }

    /// The port whose receive right this has.
    pub fn receive_port(&self) -> Option<PortId>
        ensures { result ≡ receive_named self.now }
    {
        match self {
            Entry::Receive(port) | Entry::ReceiveAndSend(port, _) => Some(*port),
            _ => None,
        }
    }

    /// The port for which this has any right, send-once rights among them.
    pub fn right_port(&self) -> Option<PortId>
        ensures { result ≡ port_of self.now }
    {
        match self {
            Entry::SendOnce(port) => Some(*port),
            _ => self.port(),
        }
    }

    /// The port set that this is.
    pub fn set(&self) -> Option<SetId>
        ensures { result ≡ set_named self.now }
    {
        match self {
            Entry::Set(set) => Some(*set),
            _ => None,
        }
    }

    /// Returns whether this has a receive right.
    pub fn has_receive(&self) -> bool
        ensures { result ≡ has_receive self.now }
    {
        matches!(self, Entry::Receive(_) | Entry::ReceiveAndSend(_, _))
    }

    /// How many references to a send right this has, 0 to 65,535.
    pub fn send_references(&self) -> u32
        ensures value { result ≡ send_references self.now }
        ensures few { result ≤ most_references }
    {
        match self {
            Entry::Send(_, references) | Entry::ReceiveAndSend(_, references) => references.count(),
            Entry::Receive(_) | Entry::SendOnce(_) | Entry::DeadName(_) | Entry::Set(_) => 0,
        }
    }

    /// How many references to the right this has, 0 to 65,535: a receive right, a send-once right and a
    /// port set have one (Port Manipulation Interface, `mach_port_get_refs`).
    pub fn references(&self, right: Right) -> u32
        ensures value { result ≡ references_in right self.now }
        ensures few { result ≤ most_references }
    {
        match (right, self) {
            (Right::Send, _) => self.send_references(),
            (Right::Receive, _) => u32::from(self.has_receive()),
            (Right::SendOnce, Entry::SendOnce(_)) | (Right::PortSet, Entry::Set(_)) => 1,
            (Right::DeadName, Entry::DeadName(references)) => references.count(),
            _ => 0,
        }
    }

    /// This with one send reference more, but no more than 65,535 in all. What has no receive right and no
    /// send rights stays as it is.
    pub fn with_send(&self) -> Entry
        ensures { result ≡ with_send self.now }
    {
        match self {
            Entry::Receive(port) => Entry::ReceiveAndSend(*port, UserRefs::one()),
            Entry::Send(port, references) => Entry::Send(*port, references.add_pegged(1)),
            Entry::ReceiveAndSend(port, references) => {
                Entry::ReceiveAndSend(*port, references.add_pegged(1))
            }
            Entry::SendOnce(_) | Entry::DeadName(_) | Entry::Set(_) => *self,
        }
    }

    /// The bits of the rights that this has: a name's type (Port Manipulation Interface,
    /// `mach_port_type_t`).
    pub fn type_bits(&self) -> u32
        ensures { result ≡ type_in self.now }
    {
        match self {
            Entry::Receive(_) => Right::Receive.type_bit(),
            Entry::Send(_, _) => Right::Send.type_bit(),
            Entry::ReceiveAndSend(_, _) => Right::Send.type_bit() + Right::Receive.type_bit(),
            Entry::SendOnce(_) => Right::SendOnce.type_bit(),
            Entry::DeadName(_) => Right::DeadName.type_bit(),
            Entry::Set(_) => Right::PortSet.type_bit(),
        }
    }
}

/// A name, and what is under it.
#[derive(Clone, Copy, Debug, PartialEq, Eq)]
pub struct PortName {
    /// The name.
    pub name: Name,
    /// What is under it.
    pub entry: Entry,
}

/// A task's names. An empty space has allocated nothing.
#[derive(Drop)]
pub struct Space {
    table: Table,
    ports: Ports,
    len: usize,
}

impl Model for Space {
    ghost use Rattle.name_space.specs.Names.{SpaceView, space_code};
    ghost use Rattle.name_space.specs.contracts.Entry as entry;
    ghost use Rattle.name_space.specs.Sound.{IsSound};

    ghost Value = { SpaceView };

    ghost coded = { space_code entry.the_row.coded };

    ghost view = { λ a. a.table };

    ghost invariant = { λ a. IsSound a.table a.ports a.len };
}

// The port of what stands under a name, if there is one.
fn port_of(entry: Option<Entry>) -> Option<PortId>
    ensures { result ≡ option_and_then port_named entry }
{
    match entry {
        Some(entry) => entry.port(),
        None => None,
    }
}

// The port of what stands under a name, where an entry that is put in its place is for none.
fn port_lost(table: &Table, name: Name, renewed: &Entry) -> Option<PortId>
    ensures { result ≡ lost (option_and_then port_named (map.get table.now.names name)) (port_named renewed.now) }
{
    match renewed.port() {
        Some(_) => None,
        None => port_of(table.get(name)),
    }
}

// The port of the name for which a place is kept, if it is one's.
fn kept_port(table: &Table) -> Option<PortId>
    ensures found { IfSome result (λ port. (kept : ℕ) × (table.now.kept ≡ Some kept) × (port_at table.now.names kept ≡ Some port)) }
    ensures none { IfNone result ((kept : ℕ) → table.now.kept ≡ Some kept → port_at table.now.names kept ≡ None) }
{
    let kept = table.kept()?;
    port_of(table.get(kept))
}

// Makes room for the port that leaves the place, if one has to, beside so many fresh names as there is
// room for.
fn reserve_moved(table: &Table, ports: &mut Ports) -> Result<(), AllocError>
    ensures rest { OnOk result (ports.new ≡ record ports.old { room = ports.new.room }) }
    ensures room { OnOk result (ports.old.room ≤ ports.new.room) }
    ensures ok { OnOk result (CanMove table.now ports.new) }
    ensures err { OnErr result (ports.new ≡ ports.old) }
    ensures wanted { OnErr result (HoldsPort table.now) }
{
    let Some(_) = kept_port(table) else {
        return Ok(());
    };
    let Some(places) = table.room().checked_add(1) else {
        return Err(AllocError);
    };
    ports.reserve(places)?;
    Ok(())
}

impl Space {
    ghost use Rattle.name_space.specs.declared.Entry.{Entry as AnyEntry};
    ghost use Rattle.name_space.specs.Names.{IsUsable, IsFreshFor, IsNextName, HasPlace, HasRoomIn, HasNoOther, MayWantPlace, CanCountIn, given_after, first_given};

    /// A space without names, whose names will have a generation or not. Allocates nothing; constant time.
    pub fn new(alloc: Global, has_generations: bool) -> Space
        ensures names { result.names ≡ map.empty }
        ensures room { result.room ≡ 0 }
        ensures kept { result.kept ≡ None }
        ensures given { result.given ≡ first_given has_generations }
    {
        Space {
            table: Table::new(alloc, has_generations),
            ports: Ports::new(alloc),
            len: 0,
        }
    }

    /// How many names are in use, 0 to 65,535. Constant time.
    pub fn len(&self) -> usize
        ensures value { result ≡ map.len self.now.names }
        ensures few { result ≤ most_names }
    {
        self.len
    }

    /// Returns whether no name is in use. Constant time.
    pub fn is_empty(&self) -> bool
        ensures { IsTrue result ↔ (map.len self.now.names ≡ 0) }
    {
        self.len() == 0
    }

    /// Returns whether 65,535 names are in use, so that no other can be added. Constant time.
    pub fn is_full(&self) -> bool
        ensures { IsTrue result ↔ (most_names ≤ map.len self.now.names) }
    {
        self.len() >= MOST_NAMES
    }

    /// For how many more fresh names there is room. Constant time.
    pub fn room(&self) -> usize
        ensures { result ≡ self.now.room }
    {
        self.table.room()
    }

    /// What is under the name, if it is in use. Constant time; in the tree logarithmic in the number of names
    /// there.
    #[inline(always)]
    pub fn lookup(&self, name: Name) -> Option<Entry>
        ensures { result ≡ map.get self.now.names name }
    {
        self.table.get(name)
    }

    /// Returns the fresh name, where fewer than 65,535 names are in use. Without a generation it is the least
    /// unused number from 1. With one it is the least unused index from 1, times 256. Its low 8 bits are then
    /// how often a fresh name was counted at this index ([`Space::insert_fresh`]), modulo 256. Less than 2^24.
    /// Constant time.
    #[inline(always)]
    pub fn fresh(&self) -> Name
        requires not_full { map.len self.now.names < most_names }
        ensures fresh { IsFreshFor self.now result }
        ensures unused { map.get self.now.names result ≡ None }
        ensures usable { IsUsable result }
        ensures small { result < 16777216 }
    {
        self.table.fresh()
    }

    /// The name that has the port's receive right or send rights, if one has. Constant time.
    pub fn name_of_port(&self, port: PortId) -> Option<Name>
        ensures found { IfSome result (λ name. port_at self.now.names name ≡ Some port) }
        ensures only { (name : ℕ) → port_at self.now.names name ≡ Some port → result ≡ Some name }
    {
        self.ports.name_of(port)
    }

    /// Makes room for so many fresh names, so that as many calls of [`Space::insert`], each with the
    /// fresh name of its turn, take no memory. Room that is there stays and counts: where it is less,
    /// there is then room for just so many. Constant time where there is room for them, and else linear
    /// in the number of names.
    ///
    /// An error means that memory was refused; the names are then as before, and so is the room. Where
    /// fewer names up to 65,535 are unused, there is room for those that get free.
    #[inline(always)]
    pub fn reserve(&mut self, additional: usize) -> Result<(), AllocError>
        ensures ok { OnOk result (self.new ≡ record self.old { room = max self.old.room additional }) }
        ensures err { OnErr result (self.new ≡ self.old) }
        ensures had_room { additional ≤ self.old.room → IsOk result }
    {
        self.ports.reserve(additional)?;
        self.table.reserve(additional)
    }

    /// Keeps a place for the name, in use or not, so that [`Space::insert`] and [`Space::rename`] can put an
    /// entry under it without memory. The place stays the name's own, even after the name went in and out of
    /// use, until one is kept for another name. Constant time, except where memory is taken for more ports
    /// than there were; in the tree logarithmic in the number of names there.
    ///
    /// An error means that memory was refused, and that the place was not kept before; all is then as it was.
    /// It comes only in one of these cases:
    /// - The place that is given up has a port's name.
    /// - Without a generation: the new name is above 65,535, or no name of its 256 is in use.
    /// - With a generation: there is no room, the place that is given up has a name in use, or no index in
    ///   the page of 256 indices has a name in use.
    pub fn reserve_name(&mut self, name: Name) -> Result<(), AllocError>
        requires usable { IsUsable name }
        ensures ok { OnOk result (self.new ≡ record self.old { kept = Some name }) }
        ensures err { OnErr result (self.new ≡ self.old) }
        ensures wanted { OnErr result (self.old.kept ≢ Some name) }
        ensures place { OnErr result (MayWantPlace self.old name) }
    {
        if self.table.keeps(name) {
            return Ok(());
        }
        reserve_moved(&self.table, &mut self.ports)?;
        self.table.keep(name)?;
        let port = port_of(self.table.get(name));
        self.ports.keep(name, port);
        Ok(())
    }

    /// Puts the entry under a name that is not in use, in a place that was made. The name is the fresh one
    /// where there is room for one, or the one for which a place is kept. Takes no memory. Constant time; in
    /// the tree logarithmic in the number of names there.
    #[inline(always)]
    pub fn insert(&mut self, name: Name, entry: Entry)
        requires usable { IsUsable name }
        requires unused { map.get self.old.names name ≡ None }
        requires not_full { map.len self.old.names < most_names }
        requires place { HasPlace self.old name }
        requires apart { HasNoOther self.old.names entry }
        ensures { self.new ≡ record self.old { names = map.insert self.old.names name entry; room = self.old.room - 1 } }
    {
        self.table.insert(name, entry);
        self.len += 1;
        if let Some(port) = entry.port() {
            self.ports.insert(port, name);
        }
    }

    /// Puts the entry under a fresh name that is not in use, as [`Space::insert`] does, and counts the name
    /// at its index, so that the next fresh name of the index is another. Without a generation there is
    /// nothing to count. Takes no memory; constant time.
    #[inline(always)]
    pub fn insert_fresh(&mut self, name: Name, entry: Entry)
        requires usable { IsUsable name }
        requires unused { map.get self.old.names name ≡ None }
        requires not_full { map.len self.old.names < most_names }
        requires place { HasRoomIn self.old.given self.old name }
        requires apart { HasNoOther self.old.names entry }
        requires counts { CanCountIn self.old.given self.old name }
        ensures { self.new ≡ record self.old { names = map.insert self.old.names name entry; room = self.old.room - 1; given = given_after self.old.given name } }
    {
        self.table.insert_fresh(name, entry);
        self.len += 1;
        if let Some(port) = entry.port() {
            self.ports.insert(port, name);
        }
    }

    /// Puts the entry in place of what is under a name. It is of the same port by receive or send rights, or
    /// of none. Takes no memory. Constant time; in the tree logarithmic in the number of names there.
    pub fn replace(&mut self, name: Name, entry: Entry)
        requires used { map.contains_key self.old.names name ≡ true }
        requires same { (port : ℕ) → port_named entry ≡ Some port → port_at self.old.names name ≡ Some port }
        ensures { self.new ≡ record self.old { names = map.insert self.old.names name entry } }
    {
        let lost = port_lost(&self.table, name, &entry);
        self.table.set(name, entry);
        if let Some(port) = lost {
            self.ports.remove(port);
        }
    }

    /// Adds a send reference under the name that has the port's receive right or send rights, if one has, and
    /// returns that name with what was under it before. A reference above 65,535 is not kept.
    ///
    /// `None` where no name has such rights for the port; nothing is then changed. Takes no memory.
    /// Constant time; in the tree logarithmic in the number of names there.
    pub fn add_send(&mut self, port: PortId) -> Option<PortName>
        ensures found { IfSome result (λ named. map.get self.old.names named.name ≡ Some named.entry) }
        ensures port { IfSome result (λ named. port_named named.entry ≡ Some port) }
        ensures after { IfSome result (λ named. self.new ≡ record self.old { names = map.insert self.old.names named.name (with_send named.entry) }) }
        ensures none { IfNone result ((name : ℕ) → port_at self.old.names name ≢ Some port) }
        ensures same { IfNone result (self.new ≡ self.old) }
    {
        let name = self.ports.name_of(port)?;
        let entry = self.table.add_send(name);
        Some(PortName { name, entry })
    }

    /// Takes a name out of use, and returns what was under it. Room stays as it is, and the place that is
    /// kept for a name. Constant time; where the tree has names logarithmic in their number.
    #[inline(always)]
    pub fn remove(&mut self, name: Name) -> Option<Entry>
        ensures value { result ≡ map.get self.old.names name }
        ensures after { self.new ≡ record self.old { names = map.remove self.old.names name } }
    {
        let entry = self.table.remove(name)?;
        self.len -= 1;
        if let Some(port) = entry.port() {
            self.ports.remove(port);
        }
        Some(entry)
    }

    /// Gives what is under a name another name that is not in use (Port Manipulation Interface,
    /// `mach_port_rename`), for which a place is kept. Takes no memory. Constant time; where the tree has
    /// names logarithmic in their number.
    pub fn rename(&mut self, from: Name, to: Name)
        requires usable { IsUsable to }
        requires used { map.contains_key self.old.names from ≡ true }
        requires unused { map.get self.old.names to ≡ None }
        requires place { self.old.kept ≡ Some to }
        ensures { (entry : AnyEntry) → map.get self.old.names from ≡ Some entry → self.new ≡ record self.old { names = map.insert (map.remove self.old.names from) to entry; room = self.old.room - 1 } }
    {
        let entry = self.table.remove(from).unwrap();
        self.table.insert(to, entry);
        if let Some(port) = entry.port() {
            self.ports.remove(port);
            self.ports.insert(port, to);
        }
    }

    /// The names, rising. Linear in their number, except for four words of each page that was used and has
    /// none.
    ///
    /// An error means that memory was refused.
    pub fn names(&self, alloc: Global) -> Result<Vec<Name>, AllocError>
        ensures { IfOk result (λ names. names.items ≡ map.keys self.now.names) }
    {
        let mut names = Vec::new(alloc);
        names.reserve(self.len)?;
        let mut from = 1;
        for _turn in 0..self.len {
            let name = self.table.next(from).unwrap();
            names.push(Name::new(name))?;
            from = name + 1;
        }
        Ok(names)
    }

    /// The least name in use from this one on, if there is one: so all names can be taken out in turn.
    /// Constant time, except for four words of each page that was used and has none from there on; where the
    /// tree has names logarithmic in their number.
    pub fn next_name(&self, from: Name) -> Option<Name>
        ensures none { IfNone result ((name : ℕ) → from ≤ name → map.get self.now.names name ≡ None) }
        ensures found { IfSome result (λ name. IsNextName self.now.names from name) }
    {
        let name = self.table.next(from.number())?;
        Some(Name::new(name))
    }
}
