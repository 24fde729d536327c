//! Giving rights to a task.
ghost use Rattle.std.specs.Prelude.{◌≡◌, ◌≢◌, ℕ, ◌+◌, ◌-◌, ◌<◌, ◌≤◌, ◌++◌, true, [], ◌∷◌, Some, None, length, is_some, MatchBool, IfSome, IfNone, vec_len, vec_capacity, List};
ghost use Rattle.std.specs.FinMap as map;
ghost use Rattle.mach_types.specs.Numbers.{kind_sent, most_names, most_references};
ghost use Rattle.mach_types.specs.Tokens.{receive, send, send_once};
ghost use Rattle.name_space.specs.declared.Entry.{Entry as AnyEntry};
ghost use Rattle.name_space.specs.Entry.{port_named, send_references};
ghost use Rattle.name_space.specs.Names.{SpaceView, port_at, IsUsable, HasNoOther};
ghost use Rattle.rights.specs.declared.RightKind.TheVariants as right;
ghost use Rattle.rights.specs.Ledger.{IsEntered, counts_of, taken};
ghost use Rattle.copyin_base.specs.declared.Carried.{Carried as AnyCarried};
ghost use Rattle.copyin_base.specs.declared.Mark.TheVariants as mark;
ghost use Rattle.copyin_base.specs.Changes.{CanInsert, InsertsEntry};
ghost use Rattle.copyin_base.specs.Worlds.{HasTask, NoneLost, entry_at, space_at};
ghost use Rattle.std.specs.Option.{option_to_list};
ghost use Rattle.copyout.specs.Giving.{joined, alone, ledger_joined, ports_given, GivesPort, GivesMark, GivesAll};
ghost use Rattle.copyout.specs.Room.{HasNone};
ghost use Rattle.copyout.specs.Ready.{CanGivePort, CanJoin, CanTakeName, CanGive};

use crate::room::shared_name;
use copyin_base::{Carried, Mark, World};
use mach_types::limits::MOST_REFERENCES;
use mach_types::{Disposition, Name, PortId, Right, TaskId};
use name_space::{Entry, PortName};
use port::Holder;
use rights::RightKind;
use smallvec::SmallVec;
use user_refs::UserRefs;

// What stands under a name of the right's own.
fn alone(given: Disposition, port: PortId) -> Entry
    ensures { result ≡ alone (kind_sent given) port }
{
    match given.kind() {
        Right::Receive => Entry::Receive(port),
        Right::Send => Entry::Send(port, UserRefs::one()),
        Right::SendOnce => Entry::SendOnce(port),
        Right::PortSet | Right::DeadName => unreachable!(),
    }
}

// The entry with the receive right.
fn with_receive(entry: &Entry) -> Entry
    ensures { result ≡ joined receive entry.now }
{
    match entry {
        Entry::Send(port, references) => Entry::ReceiveAndSend(*port, *references),
        _ => *entry,
    }
}

// The entry of the port's name with the right.
fn joined(given: Disposition, entry: &Entry) -> Entry
    ensures { result ≡ joined (kind_sent given) entry.now }
{
    match given.kind() {
        Right::Receive => with_receive(entry),
        Right::Send => entry.with_send(),
        _ => *entry,
    }
}

// Whether it is a receive right.
#[inline]
fn is_receive(given: Disposition) -> bool
    ensures { MatchBool result (kind_sent given ≡ receive) (kind_sent given ≢ receive) }
{
    matches!(given.kind(), Right::Receive)
}

// Of a receive right the port knows the task that holds it.
fn hold(world: &mut World, task: TaskId, given: Disposition, port: PortId)
    requires live { is_some (map.get world.old.ports.ports port) ≡ true }
    requires none_lost { NoneLost world.old }
    ensures { world.new ≡ record world.old { ports = ports_given (kind_sent given) task port world.old.ports } }
{
    if is_receive(given) {
        world.set_holder(port, Holder::Task(task));
    }
}

// Counts a send right of the port as gone: it is rare. It isn't the port's last, as the name that it
// would have come under has 65,535 others, so the port isn't noted for want of senders.
#[cold]
fn drop_send(world: &mut World, port: PortId)
    requires entered { IsEntered world.old.ledger port }
    requires counted { 1 ≤ (counts_of world.old.ledger port).send }
    ensures { world.new ≡ record world.old { ledger = taken world.old.ledger port right.Send 1 } }
{
    world.take_rights(port, RightKind::Send, 1);
}

// Whether it is a send right.
#[inline]
fn is_send(given: Disposition) -> bool
    ensures { MatchBool result (kind_sent given ≡ send) (kind_sent given ≢ send) }
{
    matches!(given.kind(), Right::Send)
}

// Whether the right goes, as the name has as many references as there may be.
fn is_pegged(given: Disposition, entry: &Entry) -> bool
    ensures { MatchBool result ((kind_sent given ≡ send) × (send_references entry.now ≡ most_references)) (kind_sent given ≡ send → send_references entry.now ≢ most_references) }
{
    is_send(given) && entry.send_references() == MOST_REFERENCES
}

// A send right that comes to as many references as there may be goes.
fn drop_pegged(world: &mut World, given: Disposition, port: PortId, entry: &Entry)
    requires entered { IsEntered world.old.ledger port }
    requires counted { kind_sent given ≡ send → 1 ≤ (counts_of world.old.ledger port).send }
    ensures { world.new ≡ record world.old { ledger = ledger_joined (kind_sent given) port entry.now world.old.ledger } }
{
    if is_pegged(given, entry) {
        drop_send(world, port);
    }
}

// The right comes under the task's name for the port, where this stands.
pub(crate) fn join(
    world: &mut World,
    task: TaskId,
    given: Disposition,
    port: PortId,
    named: &PortName,
)
    requires can { CanJoin world.old task (kind_sent given) port named.now.name }
    requires found { entry_at world.old task named.now.name ≡ Some named.now.entry }
    ensures { GivesPort world.old task (kind_sent given) port named.now.name world.new }
{
    hold(world, task, given, port);
    drop_pegged(world, given, port, &named.entry);
    world.put_left(task, named.name, Some(joined(given, &named.entry)));
}

// The right comes under this name, which isn't in use.
pub(crate) fn put_alone(
    world: &mut World,
    task: TaskId,
    given: Disposition,
    port: PortId,
    name: Name,
)
    requires live { is_some (map.get world.old.ports.ports port) ≡ true }
    requires can { CanInsert world.old task name (alone (kind_sent given) port) }
    requires none_lost { NoneLost world.old }
    ensures { InsertsEntry (record world.old { ports = ports_given (kind_sent given) task port world.old.ports }) task name (alone (kind_sent given) port) world.new }
{
    hold(world, task, given, port);
    world.insert_entry(task, name, alone(given, port));
}

/// The right comes under a fresh name, which is counted.
pub(crate) fn take_name(world: &mut World, task: TaskId, given: Disposition, port: PortId) -> Name
    requires { CanTakeName world.old task (kind_sent given) port }
    ensures { GivesPort world.old task (kind_sent given) port result world.new }
{
    let name = world.space(task).fresh();
    hold(world, task, given, port);
    world.insert_fresh(task, name, alone(given, port));
    name
}

// Gives a send right for a port that is there: the task's name for the port is searched for once.
fn give_send(world: &mut World, task: TaskId, given: Disposition, port: PortId) -> Name
    requires sent { kind_sent given ≡ send }
    requires can { CanGivePort world.old task (kind_sent given) port }
    ensures { GivesPort world.old task (kind_sent given) port result world.new }
{
    match world.add_send(task, port) {
        Some(named) => {
            drop_pegged(world, given, port, &named.entry);
            named.name
        }
        None => take_name(world, task, given, port),
    }
}

// The task's name under which the right comes, and what stands there: none where it takes a fresh one.
fn shared_entry(world: &World, task: TaskId, given: Disposition, port: PortId) -> Option<PortName>
    requires { HasTask world.now task }
    ensures some { IfSome result (λ named. (kind_sent given ≢ send_once) × (port_named named.entry ≡ Some port)) }
    ensures found { IfSome result (λ named. entry_at world.now task named.name ≡ Some named.entry) }
    ensures none { IfNone result (kind_sent given ≢ send_once → (space : SpaceView) → space_at world.now task ≡ Some space → HasNone space.names port) }
{
    let space = world.space(task);
    let name = shared_name(&space, given, port)?;
    let entry = space.lookup(name)?;
    Some(PortName { name, entry })
}

// Gives a receive or send-once right for a port that is there.
#[inline(never)]
fn give_other(world: &mut World, task: TaskId, given: Disposition, port: PortId) -> Name
    requires { CanGivePort world.old task (kind_sent given) port }
    ensures { GivesPort world.old task (kind_sent given) port result world.new }
{
    match shared_entry(world, task, given, port) {
        Some(named) => {
            join(world, task, given, port, &named);
            named.name
        }
        None => take_name(world, task, given, port),
    }
}

// Gives a right for a port that is there.
fn give_port(world: &mut World, task: TaskId, given: Disposition, port: PortId) -> Name
    requires { CanGivePort world.old task (kind_sent given) port }
    ensures { GivesPort world.old task (kind_sent given) port result world.new }
{
    if is_send(given) {
        give_send(world, task, given, port)
    } else {
        give_other(world, task, given, port)
    }
}

/// Gives the task one right of a message, and returns the name under which the task has it (IPC Interface,
/// `mach_msg`). A send or receive right comes under the task's name for the port, or else under a fresh one.
/// A send-once right always comes under a fresh one. A send right that comes to 65,535 references is dropped,
/// and the port of a receive right knows that the task holds it.
///
/// Returns [`Name::null`] where there is no right, and [`Name::dead`] where its port is gone: nothing changes
/// then. Only a fresh name uses room. Takes no memory. Constant time, and logarithmic for a name above
/// 65,535.
pub fn give_right(world: &mut World, task: TaskId, carried: &Carried) -> Name
    requires { CanGive world.old task (carried.now ∷ []) }
    ensures { GivesMark world.old task (kind_sent carried.now.given) carried.now.mark result world.new }
{
    match &carried.mark {
        Mark::Null => Name::null(),
        Mark::Dead => Name::dead(),
        Mark::Port(port) => {
            if world.has_port(*port) {
                give_port(world, task, carried.given, *port)
            } else {
                Name::dead()
            }
        }
    }
}

// Gives the task the rights in their order, and adds the name of each to `names`.
pub(crate) fn give_rights(
    world: &mut World,
    task: TaskId,
    rights: &[Carried],
    names: &mut SmallVec<Name, 8>,
)
    requires can { CanGive world.old task rights.now }
    requires none { names.old.items ≡ [] }
    requires room { length rights.now ≤ names.old.capacity }
    ensures { GivesAll world.old task rights.now names.new.items world.new }
{
    for carried in rights {
        let name = give_right(world, task, carried);
        names.push_reserved(name);
    }
}
