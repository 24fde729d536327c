//! The calls on a receive right: a task asks for the status of its port, and sets the queue limit, the make-send count and
//! the sequence number.
//!
//! Each is a call on the tables (`World`), and promises its own part of a step (`copyin_base`'s `specs/Serving`).
#![tactic(auto)]

ghost use Rattle.std.specs.Prelude.{◌≡◌, ◌<◌, Some, is_some, min};
ghost use Rattle.mach_types.specs.declared.calls.Event.{Event};
ghost use Rattle.mach_model.specs.Telling.{one_if};
ghost use Rattle.copyin_base.specs.Serving.{Serves};
ghost use Rattle.copyin_base.specs.Stands.{Stands};
ghost use Rattle.copyin_base.specs.Wanted.{KeepsSpares};
ghost use Rattle.receive_right.specs.Status.{set_name, least_name, HasPort, TellsPort};
ghost use Rattle.port.specs.Ports.{PortView, sets_in};
ghost use Rattle.copyin_base.specs.Changes.{HasAttributes};
ghost use Rattle.copyin_base.specs.Kept.{Kept};
ghost use Rattle.copyin_base.specs.Worlds.{HasTask, port_at};

use copyin_base::World;
use mach_types::limits::GREATEST_LIMIT;
use mach_types::{Code, KernReturn, Name, PortId, Reply, SetId, Status, TaskId};
use port::Attributes;

/// `ReceiveStatus` (Port Manipulation Interface, `mach_port_get_receive_status`): returns the port's status.
/// It has the least of the names that the task has for the sets that the port is in, 0 where it is in none. It has 1 for
/// each of two requests, if it stands: the port-destroyed request and the no-senders request. The task lives.
///
/// `KERN_INVALID_NAME` for a name that isn't in use; `KERN_INVALID_RIGHT` where it has no receive right.
/// Takes no memory. Linear in the port's sets, and logarithmic for a name above 65,535.
#[tactic(auto, using(crate::proofs::Status::has_port, crate::proofs::Status::status_told))]
pub fn receive_status(world: &World, task: TaskId, name: Name) -> Result<Reply, Code>
    requires there { HasTask world.now task }
    requires stands { Stands world.now }
    ensures { Serves world.now (Event.ReceiveStatus task name) result world.now }
{
    let port = world.find_receive(task, name)?;
    Ok(Reply::Status(status_of(world, port)))
}

// The status of a port.
fn status_of(world: &World, port: PortId) -> Status
    requires { HasPort world.now port }
    ensures { TellsPort world.now port result }
{
    let counts = world.counts(port).unwrap();
    let attributes = world.attributes(port);
    Status {
        set: status_set_name(world, port, &attributes),
        sequence: attributes.sequence,
        make_send: attributes.make_send,
        limit: attributes.limit,
        queued: world.queued(port) as u32,
        send_once: counts.send_once + counts.destination,
        has_send: counts.send.min(1),
        port_destroyed: is_requested(world.find_port_destroyed(port)),
        no_senders: is_requested(world.find_no_senders(port)),
    }
}

// 1 where a request stands with this notify port, else 0.
fn is_requested(notify: Option<PortId>) -> u32
    ensures { result ≡ one_if (is_some notify) }
{
    match notify {
        Some(_) => 1,
        None => 0,
    }
}

// The name that a port's status tells, of which these are the attributes: 0 where it is in no set.
fn status_set_name(world: &World, port: PortId, attributes: &Attributes) -> Name
    requires there { HasPort world.now port }
    requires attributes { HasAttributes world.now port attributes.now }
    ensures { (v : PortView Kept) → port_at world.now port ≡ Some v → result ≡ least_name world.now.sets (sets_in v) }
{
    match attributes.set {
        Some(_) if world.has_several_sets() => least_set_name(world, port),
        Some(set) => set_name(world, set),
        None => Name::null(),
    }
}

// The least of the names of a port's sets with the task whose sets they are, 0 where it is in none.
#[inline(never)]
fn least_set_name(world: &World, port: PortId) -> Name
    ensures { (v : PortView Kept) → port_at world.now port ≡ Some v → result ≡ least_name world.now.sets (sets_in v) }
{
    let Some(mut sets) = world.sets_of(port) else {
        return Name::null();
    };
    let Some(first) = sets.next_set() else {
        return Name::null();
    };
    let mut least = set_name(world, first);
    while let Some(set) = sets.next_set() {
        least = lesser(least, set_name(world, set));
    }
    least
}

// The lesser of two names.
fn lesser(a: Name, b: Name) -> Name
    ensures { result ≡ min a b }
{
    if b.number() < a.number() { b } else { a }
}

// The name of a set with the task whose set it is.
fn set_name(world: &World, set: SetId) -> Name
    ensures { result ≡ set_name world.now.sets set }
{
    match world.set_record(set) {
        Some(kept) => kept.name,
        None => Name::null(),
    }
}

/// `SetQlimit` (Port Manipulation Interface, `mach_port_set_qlimit`): how many messages the queue of the
/// port takes from send rights, 0 to 16. Messages that are there stay. The task lives.
///
/// `KERN_INVALID_VALUE` above 16; `KERN_INVALID_NAME` for a name that isn't in use;
/// `KERN_INVALID_RIGHT` where it has no receive right. Takes no memory. Constant time, and
/// logarithmic for a name above 65,535.
#[tactic(auto, using(copyin_base::proofs::Finding::receive_port_there, copyin_base::proofs::Gets::same_found))]
pub fn set_qlimit(world: &mut World, task: TaskId, name: Name, limit: u32) -> Result<Reply, Code>
    requires there { HasTask world.old task }
    requires stands { Stands world.old }
    ensures serves { Serves world.old (Event.SetQlimit task name limit) result world.new }
    ensures spares { KeepsSpares world.old world.new }
{
    if limit > GREATEST_LIMIT {
        return Err(Code::Kern(KernReturn::InvalidValue));
    }
    let port = world.find_receive(task, name)?;
    let attributes = world.attributes(port);
    world.set_attributes(
        port,
        Attributes {
            limit,
            ..attributes
        },
    );
    Ok(Reply::Code(0))
}

/// `SetMscount` (Port Manipulation Interface, `mach_port_set_mscount`): how many send rights were made
/// from the receive right, any 32-bit number. The task lives.
///
/// `KERN_INVALID_NAME` for a name that isn't in use; `KERN_INVALID_RIGHT` where it has no receive
/// right. Takes no memory. Constant time, and logarithmic for a name above 65,535.
#[tactic(auto, using(copyin_base::proofs::Finding::receive_port_there, copyin_base::proofs::Gets::same_found))]
pub fn set_mscount(world: &mut World, task: TaskId, name: Name, count: u32) -> Result<Reply, Code>
    requires there { HasTask world.old task }
    requires stands { Stands world.old }
    ensures serves { Serves world.old (Event.SetMscount task name count) result world.new }
    ensures spares { KeepsSpares world.old world.new }
{
    let port = world.find_receive(task, name)?;
    let attributes = world.attributes(port);
    world.set_attributes(
        port,
        Attributes {
            make_send: count,
            ..attributes
        },
    );
    Ok(Reply::Code(0))
}

/// `SetSeqno` (Port Manipulation Interface, `mach_port_set_seqno`): the sequence number of the next
/// message that is received from the port, any 32-bit number.
///
/// As [`set_mscount`] in errors and cost.
#[tactic(auto, using(copyin_base::proofs::Finding::receive_port_there, copyin_base::proofs::Gets::same_found))]
pub fn set_seqno(world: &mut World, task: TaskId, name: Name, number: u32) -> Result<Reply, Code>
    requires there { HasTask world.old task }
    requires stands { Stands world.old }
    ensures serves { Serves world.old (Event.SetSeqno task name number) result world.new }
    ensures spares { KeepsSpares world.old world.new }
{
    let port = world.find_receive(task, name)?;
    let attributes = world.attributes(port);
    world.set_attributes(
        port,
        Attributes {
            sequence: number,
            ..attributes
        },
    );
    Ok(Reply::Code(0))
}
