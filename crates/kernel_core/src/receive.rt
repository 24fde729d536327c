//! Receiving a message.
ghost use Rattle.std.specs.Prelude.{◌≡◌, ℕ, ◌<◌, Bool, true, Some, IfOk, IfErr, IfSome, MatchBool, MatchOption, is_some, length, if◌then◌else◌};
ghost use Rattle.std.specs.Option.{option_and_then};
ghost use Rattle.mach_types.specs.declared.codes.MsgReturn.TheVariants as msg;
ghost use Rattle.mach_types.specs.declared.calls.Event.{Event as AnyEvent};
ghost use Rattle.mach_types.specs.declared.calls.Waited.TheVariants as AnyWaited;
ghost use Rattle.mach_types.specs.Codes.{msg_number, code_number};
ghost use Rattle.mach_model.specs.Refusals.{again_guards};
ghost use Rattle.copyin_base.specs.Serving.{Serves, IsRefused, IsAllowed};
ghost use Rattle.copyin_base.specs.Finds.{FindsReceive};
ghost use Rattle.copyin_base.specs.Stands.{Stands};
ghost use Rattle.copyin_base.specs.Worlds.{WorldView, entry_at, port_at, HasTask};
ghost use Rattle.kernel_change.specs.declared.change.Change.TheVariants.{Nothing};
ghost use Rattle.kernel_change.specs.Changing.{by_receipt, by_too_long};
ghost use Rattle.kernel_core.specs.InTurn.{IsFirst, PassesIn, source, TakesInTurn, KeepsTurns, CompletesInTurn, told_by};
ghost use Rattle.kernel_core.specs.Receive.{named_guards, Sources, IsFrom, IsMember, IsAlone, HasMessage, NoneWaits, IsReceipt, StaysFor, waited_at, FreesSlot};
ghost use Rattle.kernel_core.specs.Telling.{by_length, with_message};
ghost use Rattle.kernel_core.specs.Wanted.{WantsToTake, WantsMemory, LeavesSpares};
ghost use Rattle.notifications.specs.Destroying.{CanDestroy, DestroysMessage};

use copyin_base::{Placed, World};
use copyout::Refusal;
use kernel_change::Change;
use mach_types::{Code, MsgReturn, Name, PortId, Reply, SetId, TaskId, Waited};
use notifications::lose_message;
use port::{Found, NOWHERE};
use std::alloc::Global;

/// Where a received message goes.
#[derive(Clone, Copy)]
pub(crate) struct Buffer {
    /// The most bytes that there is room for.
    pub(crate) room: u32,
    /// Whether a longer message is to stay (`MACH_RCV_LARGE`), and isn't destroyed.
    pub(crate) large: bool,
}

impl Buffer {
    /// Room for so many bytes, where a longer message is to stay or not.
    pub(crate) fn new(room: u32, large: bool) -> Buffer
        ensures { result ≡ record { room = room; large = large } }
    {
        Buffer { room, large }
    }
}

/// `Receive` (IPC Interface, `mach_msg` with `MACH_RCV_MSG`): a message from the port whose receive right is
/// under the name. By a port set's name, a message from the member whose turn it is (`specs/InTurn`). A
/// message that is longer than the room stays if that was asked for, and is destroyed otherwise. The task
/// lives. A refusal leaves the tables as they were. In `told` it leaves what the receipt changed.
///
/// Errors, of which the first is returned: `MACH_RCV_INVALID_NAME` for a name without a receive right or a
/// set; `MACH_RCV_IN_SET` for a port that is in a set; then as [`take`].
pub(crate) fn receive(
    world: &mut World,
    alloc: Global,
    task: TaskId,
    name: Name,
    buffer: Buffer,
    told: &mut Change,
) -> Result<Reply, Code>
    requires there { HasTask world.old task }
    requires stands { Stands world.old }
    requires nothing { told.old ≡ Nothing }
    ensures serves { Serves world.old (AnyEvent.Receive task name buffer.room buffer.large) result world.new }
    ensures wanted { IfErr result (λ code. code_number code ≡ msg_number msg.ReceiveBodyErrorMemory → WantsMemory world.old (AnyEvent.Receive task name buffer.room buffer.large)) }
    ensures spares { LeavesSpares world.old (AnyEvent.Receive task name buffer.room buffer.large) result world.new }
    ensures tells { IfOk result (λ reply. told.new ≡ by_receipt world.old task buffer.large (source world.old (AnyEvent.Receive task name buffer.room buffer.large)) reply) }
    ensures turns { KeepsTurns world.old (AnyEvent.Receive task name buffer.room buffer.large) (told_by result) world.new }
    ensures takes { IfOk result (λ reply. CompletesInTurn world.old (AnyEvent.Receive task name buffer.room buffer.large) reply world.new) }
{
    let Source {
        waited,
        ready,
        place,
    } = find_source(world, task, name)?;
    // A set has its own copy of what follows: a receive by a port then keeps nothing of what it waits for until its
    // message is taken.
    let Waited::Port(port) = waited else {
        let name = None;
        let origin = Origin {
            waited,
            name,
            ready,
            place,
        };
        return receive_from(world, alloc, task, origin, buffer, told);
    };
    let origin = Origin {
        waited: Waited::Port(port),
        name: Some(name),
        ready,
        place,
    };
    let reply = take(world, alloc, task, origin, buffer, told)?;
    tell_message(task, &reply, told);
    Ok(reply)
}

/// `ReceiveAgain` (IPC Interface, `mach_msg` with `MACH_RCV_MSG`, as it goes on once it has waited): a later
/// try by a receive that found no message. It goes by identity, whatever became of the name. The task lives.
/// A refusal leaves the tables as they were. In `told` it leaves what the receipt changed.
///
/// Errors, of which the first is returned:
/// - `MACH_RCV_PORT_DIED`: the port or set isn't there.
/// - `MACH_RCV_PORT_CHANGED`: the task has neither the port's receive right nor the set, or the port is in a
///   set.
/// - Then those of [`take`].
pub(crate) fn receive_again(
    world: &mut World,
    alloc: Global,
    task: TaskId,
    waited: Waited,
    buffer: Buffer,
    told: &mut Change,
) -> Result<Reply, Code>
    requires there { HasTask world.old task }
    requires stands { Stands world.old }
    requires nothing { told.old ≡ Nothing }
    ensures serves { Serves world.old (AnyEvent.ReceiveAgain task waited buffer.room buffer.large) result world.new }
    ensures wanted { IfErr result (λ code. code_number code ≡ msg_number msg.ReceiveBodyErrorMemory → WantsToTake world.old task waited) }
    ensures spares { LeavesSpares world.old (AnyEvent.ReceiveAgain task waited buffer.room buffer.large) result world.new }
    ensures tells { IfOk result (λ reply. told.new ≡ by_receipt world.old task buffer.large (source world.old (AnyEvent.ReceiveAgain task waited buffer.room buffer.large)) reply) }
    ensures turns { KeepsTurns world.old (AnyEvent.ReceiveAgain task waited buffer.room buffer.large) (told_by result) world.new }
    ensures takes { IfOk result (λ reply. CompletesInTurn world.old (AnyEvent.ReceiveAgain task waited buffer.room buffer.large) reply world.new) }
{
    judge_again(world, task, &waited)?;
    let ready = ready(world, &waited);
    let name = None;
    let origin = Origin {
        waited,
        name,
        ready,
        place: NOWHERE,
    };
    receive_from(world, alloc, task, origin, buffer, told)
}

// ---- where from

/// What a receive takes from.
#[derive(Clone, Copy)]
struct Origin {
    /// What the task waits for.
    waited: Waited,
    /// The task's name for the port, where the call goes by it: it isn't looked up then.
    name: Option<Name>,
    /// The port that it takes its message from, if one has any.
    ready: Option<PortId>,
    /// The place of that port's record, where it was found by its name.
    place: usize,
}

/// What a name stands for that a task may receive by.
#[derive(Clone, Copy)]
pub(crate) struct Source {
    /// What the task waits for.
    pub(crate) waited: Waited,
    /// The port that it takes its message from, if one has any.
    pub(crate) ready: Option<PortId>,
    /// The place of that port's record, where it was found by its name.
    pub(crate) place: usize,
}

/// What a receive by the name takes from: a port that is in no set, whose receive right is under it, or
/// a port set.
#[inline(always)]
pub(crate) fn find_source(world: &World, task: TaskId, name: Name) -> Result<Source, MsgReturn>
    requires { Stands world.now }
    ensures ok { IfOk result (λ source. Sources world.now task name source.waited) }
    ensures found { IfOk result (λ source. option_and_then waited_at (entry_at world.now task name) ≡ Some source.waited) }
    ensures ready { IfOk result (λ source. MatchOption source.ready (NoneWaits world.now source.waited) (HasMessage world.now source.waited)) }
    ensures first { IfOk result (λ source. IsFirst world.now source.waited source.ready) }
    ensures err { IfErr result (λ code. IsRefused world.now (λ s. named_guards s task name) (msg_number code)) }
{
    let Some(Placed { entry, place }) = world.find_placed(task, name) else {
        return Err(MsgReturn::ReceiveInvalidName);
    };
    if let Some(set) = entry.set() {
        let waited = Waited::Set(set);
        let ready = ready(world, &waited);
        return Ok(Source {
            waited,
            ready,
            place: NOWHERE,
        });
    }
    let Some(port) = entry.receive_port() else {
        return Err(MsgReturn::ReceiveInvalidName);
    };
    port_source(world, Found { port, place })
}

/// The port as what a receive takes from, if it is in no set. One look-up tells that, and whether it has a
/// message.
#[inline(always)]
fn port_source(world: &World, found: Found) -> Result<Source, MsgReturn>
    requires { is_some (port_at world.now found.port) ≡ true }
    ensures ok { IfOk result (λ source. (source.waited ≡ AnyWaited.Port found.port) × IsAlone world.now found.port × MatchOption source.ready (NoneWaits world.now (AnyWaited.Port found.port)) (HasMessage world.now (AnyWaited.Port found.port))) }
    ensures err { IfErr result (λ code. (code ≡ msg.ReceiveInSet) × IsMember world.now found.port) }
{
    let Found { port, place } = found;
    let Some(standing) = world.standing(found) else {
        unreachable!()
    };
    if standing.is_member {
        return Err(MsgReturn::ReceiveInSet);
    }
    Ok(Source {
        waited: Waited::Port(port),
        ready: if standing.queued > 0 {
            Some(port)
        } else {
            None
        },
        place,
    })
}

/// Checks that a retried receive is still allowed.
pub(crate) fn judge_again(world: &World, task: TaskId, waited: &Waited) -> Result<(), MsgReturn>
    requires { HasTask world.now task }
    ensures ok { IfOk result (λ _. IsAllowed world.now (λ s. again_guards s task waited.now)) }
    ensures err { IfErr result (λ code. IsRefused world.now (λ s. again_guards s task waited.now) (msg_number code)) }
{
    match waited {
        Waited::Port(port) => judge_port(world, task, *port),
        Waited::Set(set) => judge_set(world, task, *set),
    }
}

/// Whether the port is there and in no set, and the task has its receive right.
fn judge_port(world: &World, task: TaskId, port: PortId) -> Result<(), MsgReturn>
    requires { HasTask world.now task }
    ensures ok { IfOk result (λ _. IsAllowed world.now (λ s. again_guards s task (AnyWaited.Port port))) }
    ensures err { IfErr result (λ code. IsRefused world.now (λ s. again_guards s task (AnyWaited.Port port)) (msg_number code)) }
{
    if !world.has_port(port) {
        return Err(MsgReturn::ReceivePortDied);
    }
    if !has_receive(world, task, port) || is_member(world, port) {
        return Err(MsgReturn::ReceivePortChanged);
    }
    Ok(())
}

/// Whether the set is there, and is the task's.
fn judge_set(world: &World, task: TaskId, set: SetId) -> Result<(), MsgReturn>
    ensures ok { IfOk result (λ _. IsAllowed world.now (λ s. again_guards s task (AnyWaited.Set set))) }
    ensures err { IfErr result (λ code. IsRefused world.now (λ s. again_guards s task (AnyWaited.Set set)) (msg_number code)) }
{
    let Some(kept) = world.set_record(set) else {
        return Err(MsgReturn::ReceivePortDied);
    };
    if kept.owner.number() != task.number() {
        return Err(MsgReturn::ReceivePortChanged);
    }
    Ok(())
}

/// Returns whether the port, which is there, is in a set.
fn is_member(world: &World, port: PortId) -> bool
    requires { is_some (port_at world.now port) ≡ true }
    ensures { MatchBool result (IsMember world.now port) (IsAlone world.now port) }
{
    world.attributes(port).set.is_some()
}

/// Returns whether the task has the port's receive right.
fn has_receive(world: &World, task: TaskId, port: PortId) -> bool
    requires { HasTask world.now task }
    ensures { MatchBool result ((name : ℕ) × FindsReceive world.now task name port) (¬ ((name : ℕ) × FindsReceive world.now task name port)) }
{
    let Some(name) = world.space(task).name_of_port(port) else {
        return false;
    };
    match world.lookup(task, name) {
        Some(entry) => entry.has_receive(),
        None => false,
    }
}

// ---- a receipt

/// Receives from what the task may take from: a message; that there is none, or that it is longer than
/// the room, when it stays or is destroyed. A refusal leaves all as it was.
///
/// `MACH_RCV_BODY_ERROR` with `MACH_MSG_IPC_SPACE` where the task's names don't suffice for the
/// message's rights, or with `MACH_MSG_IPC_KERNEL` where memory was refused. In `told` it leaves what a message
/// changed that was destroyed. Linear in the message.
#[inline(always)]
fn take(
    world: &mut World,
    alloc: Global,
    task: TaskId,
    origin: Origin,
    buffer: Buffer,
    told: &mut Change,
) -> Result<Reply, MsgReturn>
    requires there { HasTask world.old task }
    requires stands { Stands world.old }
    requires may { IsAllowed world.old (λ s. again_guards s task origin.waited) }
    requires known { IfSome origin.name (λ name. (port : ℕ) → IsFrom world.old origin.waited port → FindsReceive world.old task name port) }
    requires ready { MatchOption origin.ready (NoneWaits world.old origin.waited) (HasMessage world.old origin.waited) }
    requires first { IsFirst world.old origin.waited origin.ready }
    ensures ok { IfOk result (λ reply. IsReceipt world.old task origin.waited buffer.room buffer.large origin.ready reply world.new) }
    ensures err { IfErr result (λ code. (world.new ≡ world.old) × StaysFor world.old task origin.waited buffer.room (msg_number code)) }
    ensures wanted { IfErr result (λ code. msg_number code ≡ msg_number msg.ReceiveBodyErrorMemory → WantsToTake world.old task origin.waited) }
    ensures spares { IfOk result (λ reply. FreesSlot world.old task origin.waited buffer.large reply world.new) }
    ensures turns { IfOk result (λ reply. TakesInTurn world.old origin.waited buffer.large reply world.new) }
    ensures tells { IfOk result (λ reply. told.new ≡ by_length world.old buffer.large origin.ready reply told.old) }
{
    let Some(port) = origin.ready else {
        return Ok(Reply::Empty(origin.waited));
    };
    let name = name_of(world, task, port, origin.name);
    let found = Found {
        port,
        place: origin.place,
    };
    match copyout::receive(world, alloc, task, found, name, buffer.room) {
        Ok(bytes) => {
            pass_turn(world, origin.waited, port);
            Ok(Reply::Message(bytes))
        }
        Err(Refusal::TooLarge(length)) => {
            lose_or_keep(world, origin.waited, port, buffer.large, told);
            Ok(Reply::TooLarge(length))
        }
        Err(Refusal::Names) => Err(MsgReturn::ReceiveBodyErrorNames),
        Err(Refusal::Memory) => Err(MsgReturn::ReceiveBodyErrorMemory),
    }
}

/// Receives from what the task may take from, as [`take`]. In `told` it leaves what a message changed that was received
/// or destroyed.
#[inline(always)]
fn receive_from(
    world: &mut World,
    alloc: Global,
    task: TaskId,
    origin: Origin,
    buffer: Buffer,
    told: &mut Change,
) -> Result<Reply, Code>
    requires there { HasTask world.old task }
    requires stands { Stands world.old }
    requires may { IsAllowed world.old (λ s. again_guards s task origin.waited) }
    requires known { IfSome origin.name (λ name. (port : ℕ) → IsFrom world.old origin.waited port → FindsReceive world.old task name port) }
    requires ready { MatchOption origin.ready (NoneWaits world.old origin.waited) (HasMessage world.old origin.waited) }
    requires first { IsFirst world.old origin.waited origin.ready }
    ensures ok { IfOk result (λ reply. IsReceipt world.old task origin.waited buffer.room buffer.large origin.ready reply world.new) }
    ensures err { IfErr result (λ code. (world.new ≡ world.old) × StaysFor world.old task origin.waited buffer.room (code_number code)) }
    ensures wanted { IfErr result (λ code. code_number code ≡ msg_number msg.ReceiveBodyErrorMemory → WantsToTake world.old task origin.waited) }
    ensures spares { IfOk result (λ reply. FreesSlot world.old task origin.waited buffer.large reply world.new) }
    ensures turns { IfOk result (λ reply. TakesInTurn world.old origin.waited buffer.large reply world.new) }
    ensures tells { IfOk result (λ reply. told.new ≡ with_message task reply (by_length world.old buffer.large origin.ready reply told.old)) }
{
    let reply = take(world, alloc, task, origin, buffer, told)?;
    tell_message(task, &reply, told);
    Ok(reply)
}

/// Leaves in `told` what a message changed that was received. After another reply `told` stays.
#[inline(always)]
fn tell_message(task: TaskId, reply: &Reply, told: &mut Change)
    ensures { told.new ≡ with_message task reply.now told.old }
{
    if let Reply::Message(bytes) = reply {
        Change::tell_message(task, bytes.as_slice(), told);
    }
}

/// A message was taken from the port: where it was received by a set, the port has its turn there after all others
/// that are ready.
#[inline(always)]
fn pass_turn(world: &mut World, waited: Waited, port: PortId)
    ensures { PassesIn world.old waited port world.new }
{
    if let Waited::Set(set) = waited {
        world.pass_turn(set, port);
    }
}

/// A message that is too long is destroyed, unless it was asked that it stay. In `told` it leaves what that changes.
#[inline(never)]
fn lose_or_keep(world: &mut World, waited: Waited, port: PortId, large: bool, told: &mut Change)
    requires { CanDestroy world.old port }
    ensures ends { MatchBool large (world.new ≡ world.old) ((mid : WorldView) × PassesIn world.old waited port mid × DestroysMessage mid port world.new) }
    ensures tells { told.new ≡ (if large then told.old else by_too_long world.old (Some port)) }
{
    if !large {
        *told = Change::by_too_long(world, port);
        pass_turn(world, waited, port);
        lose_message(world, port);
    }
}

/// The port that a receive takes its message from, if one has any: of a set's, the one whose turn it is.
#[inline(always)]
fn ready(world: &World, waited: &Waited) -> Option<PortId>
    ensures ready { MatchOption result (NoneWaits world.now waited.now) (HasMessage world.now waited.now) }
    ensures first { IsFirst world.now waited.now result }
{
    match waited {
        Waited::Port(port) if world.queued(*port) > 0 => Some(*port),
        Waited::Port(_) => None,
        Waited::Set(set) => world.ready_member(*set),
    }
}

/// The task's name for a port whose receive right it has, which may be known.
#[inline(always)]
fn name_of(world: &World, task: TaskId, port: PortId, known: Option<Name>) -> Name
    requires there { HasTask world.now task }
    requires has { (name : ℕ) × FindsReceive world.now task name port }
    requires known { IfSome known (λ name. FindsReceive world.now task name port) }
    ensures { FindsReceive world.now task result port }
{
    if let Some(name) = known {
        return name;
    }
    match world.space(task).name_of_port(port) {
        Some(name) => name,
        None => unreachable!(),
    }
}
