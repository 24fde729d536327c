//! Names by their ports.
ghost use Rattle.std.specs.Prelude.{◌≡◌, ◌≢◌, ◌⊎◌, ℕ, ◌+◌, ◌<◌, ◌≤◌, ◌↔◌, true, IsTrue, max, Some, None, IsOk, OnOk, OnErr};
ghost use Rattle.std.specs.FinMap as map;
ghost use Rattle.name_space.specs.Ports.{with_port, without, IsApart, HasNoneKept};

use mach_types::{Name, PortId};
use number_map::NumberMap;
use std::alloc::{AllocError, Global};
use std::marker::Model;

/// Names by ports, with room for more ports, and a place for the port of one name.
#[derive(Drop)]
pub(crate) struct Ports {
    // All but the port of the name for which the place is kept.
    others: NumberMap<Name>,
    kept: Option<Name>,
    port: Option<PortId>,
}

impl Model for Ports {
    ghost use Rattle.name_space.specs.Ports.{PortsView, ports_code};

    ghost Value = { PortsView };

    ghost coded = { ports_code };

    ghost use Rattle.name_space.specs.Ports.{with_port, IsApart};

    ghost view = { λ a. record { names = with_port a.port a.kept a.others.map; room = a.others.room; kept = a.kept } };

    ghost invariant = { λ a. IsApart a.port a.kept a.others.map };
}

// Whether the port is the one in the place that is kept.
fn is_kept(kept: Option<PortId>, port: PortId) -> bool
    ensures { IsTrue result ↔ (kept ≡ Some port) }
{
    match kept {
        Some(kept) => kept.number() == port.number(),
        None => false,
    }
}

// Puts in a port with its name, if there is one.
fn lay_back(others: &mut NumberMap<Name>, port: Option<PortId>, name: Option<Name>)
    requires apart { IsApart port name others.old.map }
    requires room { (p : ℕ) → port ≡ Some p → 0 < others.old.room }
    ensures map { others.new.map ≡ with_port port name others.old.map }
    ensures room { others.old.room ≤ others.new.room + 1 }
    ensures none { ((p : ℕ) → port ≢ Some p) → others.old.room ≤ others.new.room }
{
    if let (Some(port), Some(name)) = (port, name) {
        others.insert(port.number(), name);
    }
}

// Takes a port out, if there is one.
fn take_out(others: &mut NumberMap<Name>, port: Option<PortId>)
    ensures { others.new ≡ record others.old { map = without port others.old.map } }
{
    if let Some(port) = port {
        others.remove(port.number());
    }
}

impl Ports {
    // No ports, and room for none. Allocates nothing.
    pub(crate) fn new(alloc: Global) -> Ports
        ensures { result ≡ record { names = map.empty; room = 0; kept = None } }
    {
        Ports {
            others: NumberMap::new(alloc),
            kept: None,
            port: None,
        }
    }

    pub(crate) fn name_of(&self, port: PortId) -> Option<Name>
        ensures { result ≡ map.get self.now.names port }
    {
        if is_kept(self.port, port) {
            self.kept
        } else {
            self.others.get(port.number())
        }
    }

    // Makes room for so many more ports. An error means that memory was refused.
    pub(crate) fn reserve(&mut self, additional: usize) -> Result<(), AllocError>
        ensures ok { OnOk result (self.new ≡ record self.old { room = max self.old.room additional }) }
        ensures err { OnErr result (self.new ≡ self.old) }
        ensures had_room { additional ≤ self.old.room → IsOk result }
    {
        self.others.reserve(additional)
    }

    // Keeps the place for this name, which is the port's if there is one. A port that had the place takes
    // room.
    pub(crate) fn keep(&mut self, name: Name, port: Option<PortId>)
        requires room { (0 < self.old.room) ⊎ HasNoneKept self.old }
        requires named { (p : ℕ) → port ≡ Some p → map.get self.old.names p ≡ Some name }
        ensures names { self.new.names ≡ self.old.names }
        ensures kept { self.new.kept ≡ Some name }
        ensures room { self.old.room ≤ self.new.room + 1 }
        ensures none { HasNoneKept self.old → self.old.room ≤ self.new.room }
    {
        lay_back(&mut self.others, self.port, self.kept);
        self.kept = Some(name);
        self.port = port;
        take_out(&mut self.others, self.port);
    }

    // Whether the place is kept for the name.
    fn keeps(&self, name: Name) -> bool
        ensures { IsTrue result ↔ (self.now.kept ≡ Some name) }
    {
        match self.kept {
            Some(kept) => kept.number() == name.number(),
            None => false,
        }
    }

    // Puts in a port that isn't there, of a name that has none. Takes no memory.
    pub(crate) fn insert(&mut self, port: PortId, name: Name)
        requires absent { map.get self.old.names port ≡ None }
        requires free { (p : ℕ) → map.get self.old.names p ≢ Some name }
        requires place { (self.old.kept ≡ Some name) ⊎ (0 < self.old.room) }
        ensures names { self.new.names ≡ map.insert self.old.names port name }
        ensures kept { self.new.kept ≡ self.old.kept }
        ensures room { self.old.room ≤ self.new.room + 1 }
    {
        if self.keeps(name) {
            self.port = Some(port);
        } else {
            self.others.insert(port.number(), name);
        }
    }

    // Takes a port out that is there.
    pub(crate) fn remove(&mut self, port: PortId)
        requires { map.contains_key self.old.names port ≡ true }
        ensures { self.new ≡ record self.old { names = map.remove self.old.names port } }
    {
        if is_kept(self.port, port) {
            self.port = None;
        } else {
            self.others.remove_there(port.number());
        }
    }
}
