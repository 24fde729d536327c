//! Buries doomed ports.
ghost use Rattle.std.specs.Prelude.{◌≡◌, ◌<◌, true};
ghost use Rattle.std.specs.FinMap as map;
ghost use Rattle.mach_types.specs.Tokens.{no_senders, port_destroyed};
ghost use Rattle.name_space.specs.declared.Entry.TheVariants.{DeadName};
ghost use Rattle.destroy.specs.Burying.{dead_count, AsksNone, IsAny, IsNone, IsOnName, IsDueOn, IsNextToBury, EndsRequests};
ghost use Rattle.destroy.specs.Stages.{AreTold, AreBuried, IsAt, Continues, KeepsRooms, TellsDoomed};

use crate::paying::pay;
use copyin_base::{Notice, World};
use mach_types::PortId;
use name_space::Entry;
use request_table::Request;
use user_refs::UserRefs;

/// Removes each doomed port with all rights for it. Ends its requests, and those on its names. Returns how
/// many of their rights paid for notices.
pub(crate) fn bury_ports(world: &mut World) -> u64
    requires { IsAt AreTold world.old }
    ensures continues { Continues AreTold AreBuried world.old result world.new }
    ensures rooms { KeepsRooms world.old world.new }
    ensures doomed { TellsDoomed world.new }
{
    if asks_none(world) {
        bury_unasked(world);
        0
    } else {
        bury_asked(world)
    }
}

// Whether no request stands, so that no port's burial ends one.
fn asks_none(world: &World) -> bool
    ensures { result ≡ true → AsksNone world.now }
{
    world.has_no_requests()
}

// Where requests stand, ports are buried in the order in which they were doomed, and so are tasks told.
#[inline(never)]
fn bury_asked(world: &mut World) -> u64
    requires { IsAt AreTold world.old }
    ensures continues { Continues AreTold AreBuried world.old result world.new }
    ensures rooms { KeepsRooms world.old world.new }
    ensures doomed { TellsDoomed world.new }
{
    let mut turns: u64 = 0;
    while let Some(port) = world.first_doomed() {
        turns = turns.saturating_add(bury(world, port));
    }
    turns
}

// Where none stands, nobody is told, and the last goes first: it takes fewest moves to take what came last
// out of the tables of ports and of rights.
fn bury_unasked(world: &mut World)
    requires at { IsAt AreTold world.old }
    requires unasked { AsksNone world.old }
    ensures continues { Continues AreTold AreBuried world.old 0 world.new }
    ensures rooms { KeepsRooms world.old world.new }
    ensures doomed { TellsDoomed world.new }
{
    while let Some(port) = world.last_doomed() {
        bury_silently(world, port);
    }
}

// A doomed port leaves, and no request ends.
#[inline(always)]
fn bury_silently(world: &mut World, port: PortId)
    requires next { IsNextToBury port world.old }
    requires unasked { AsksNone world.old }
    ensures turns { Continues AreTold AreTold world.old 0 world.new }
    ensures unasked { AsksNone world.new }
    ensures fewer { map.len world.new.ports.ports < map.len world.old.ports.ports }
    ensures rooms { KeepsRooms world.old world.new }
{
    world.remove_port(port);
}

// A doomed port leaves.
fn bury(world: &mut World, port: PortId) -> u64
    requires { IsNextToBury port world.old }
    ensures turns { Continues AreTold AreTold world.old result world.new }
    ensures fewer { map.len world.new.ports.ports < map.len world.old.ports.ports }
    ensures rooms { KeepsRooms world.old world.new }
{
    let turns = end_requests(world, port);
    world.remove_port(port);
    turns
}

// The requests of a doomed port end, and those on its names.
fn end_requests(world: &mut World, port: PortId) -> u64
    requires { IsNextToBury port world.old }
    ensures { EndsRequests port IsAny world.old result world.new }
{
    end_no_senders(world, port)
        .saturating_add(end_port_destroyed(world, port))
        .saturating_add(end_names(world, port))
}

// The right that a dead port's request kept is lost unused.
fn end_no_senders(world: &mut World, port: PortId) -> u64
    requires { IsNextToBury port world.old }
    ensures { EndsRequests port (λ r. r ≡ no_senders port) world.old result world.new }
{
    let Some(notify) = world.take_no_senders(port) else {
        return 0;
    };
    pay(world, notify, Notice::SendOnce)
}

fn end_port_destroyed(world: &mut World, port: PortId) -> u64
    requires { IsNextToBury port world.old }
    ensures { EndsRequests port (λ r. r ≡ port_destroyed port) world.old result world.new }
{
    let Some(notify) = world.take_port_destroyed(port) else {
        return 0;
    };
    pay(world, notify, Notice::SendOnce)
}

fn end_names(world: &mut World, port: PortId) -> u64
    requires { IsNextToBury port world.old }
    ensures { EndsRequests port IsOnName world.old result world.new }
{
    let mut turns: u64 = 0;
    while let Some(request) = world.first_on_names(port) {
        turns = turns.saturating_add(end_name(world, port, request));
    }
    turns
}

// The name of a dead port is dead at once, with a reference more, and its task is told.
fn end_name(world: &mut World, port: PortId, request: Request) -> u64
    requires { IsDueOn port request world.old }
    ensures ends { EndsRequests port IsNone world.old result world.new }
    ensures fewer { map.len world.new.requests.names.requests < map.len world.old.requests.names.requests }
{
    let Request {
        task,
        name,
        notify,
        ..
    } = request;
    world.take_on_name(task, name);
    let entry = world.lookup(task, name);
    if let Some(entry) = entry {
        world.put_left(task, name, Some(dead_name(entry.send_references())));
    }
    pay(world, notify, Notice::DeadName(name))
}

// The dead name that is left of a name with so many send rights, with the reference that a request adds.
fn dead_name(references: u32) -> Entry
    ensures { result ≡ DeadName (dead_count references) }
{
    let more = references.max(1).min(65_534) + 1;
    match UserRefs::new(more) {
        Some(references) => Entry::DeadName(references),
        None => unreachable!(),
    }
}
