//! Whether what a reason tells of the state is true.
ghost use Rattle.std.specs.Prelude.{◌≡◌, ◌<◌, ◌+◌, false, Some, None, IsTrue, IfSome, MatchBool};
ghost use Rattle.mach_types.specs.Numbers.{most_rights};
ghost use Rattle.name_space.specs.Entry.{port_named, receive_named};
ghost use Rattle.copyin_base.specs.Worlds.{HasTask, WorldView};
ghost use Rattle.mach_causes_base.specs.Needs as needs;
ghost use Rattle.mach_causes_base.specs.Tables.{HasNames, HasPort, IsDead, IsFull, IsIn, IsNotIn, IsKeptFrom, IsNotThere, IsOthers, IsOutOfReach, LacksTask, LacksWaited, Tells, WasMadeOnce, under};

use crate::cause::{Reason, Wanted};
use crate::needs::suffices;
use copyin_base::World;
use mach_follow::{Place, Standing};
use mach_types::limits::{MOST_NAMES, MOST_REFERENCES, MOST_RIGHTS, MOST_TASKS};
use mach_types::{PortId, SetId, TaskId, Waited};
use port::{Holder, Membership};

/// Whether the reason is true of the tables. Constant time, but for a loop of queues: there it is linear in the way from the
/// message's destination.
pub(crate) fn is_true(world: &World, reason: &Reason) -> bool
    ensures { IsTrue result → Tells world.now reason.now }
{
    match reason {
        Reason::NoTask(task, ended) => is_no_task(world, *task, ended.is_some()),
        Reason::TasksFull => world.tasks_made() == MOST_TASKS,
        Reason::NamesFull(task) => has_names(world, *task, MOST_NAMES),
        Reason::NamesShort(task, names) => has_names(world, *task, *names as usize),
        Reason::RightsFull(rights, more) => {
            world.total_rights() == *rights && is_too_many(*rights, *more)
        }
        Reason::InNoSet(..)
        | Reason::InSet(..)
        | Reason::AlreadyIn(..)
        | Reason::NotIn(..)
        | Reason::Full(..)
        | Reason::Died(..)
        | Reason::Member(..)
        | Reason::Changed(..)
        | Reason::OwnDestination(..)
        | Reason::Loop(..)
        | Reason::OneSet => is_true_of_ports(world, reason),
        _ => is_true_of_name(world, reason) || is_true_of_numbers(reason),
    }
}

/// Whether a reason about one name is true of the tables.
fn is_true_of_name(world: &World, reason: &Reason) -> bool
    ensures { IsTrue result → Tells world.now reason.now }
{
    match reason {
        Reason::Absent(place, _) => is_absent(world, place),
        Reason::Lacks(place, standing, wanted) => {
            stands_for(world, place, standing) && lacks_wanted(standing, *wanted)
        }
        Reason::Used(place, standing) => stands_for(world, place, standing),
        Reason::References(place, standing) => {
            stands_for(world, place, standing) && counted(standing) == MOST_REFERENCES
        }
        Reason::Change(place, standing, delta) => {
            stands_for(world, place, standing) && is_out_of_range(counted(standing), *delta)
        }
        Reason::Dead(place) | Reason::DeadUnasked(place) => is_dead(world, place),
        Reason::TakenBefore(place, standing) => {
            stands_for(world, place, standing) && !matches!(standing, Standing::Set(_))
        }
        Reason::Elsewhere(place, port) => names_port(world, place, *port),
        _ => false,
    }
}

/// Whether a reason about a port or a set is true of the tables.
fn is_true_of_ports(world: &World, reason: &Reason) -> bool
    ensures { IsTrue result → Tells world.now reason.now }
{
    match reason {
        Reason::InNoSet(place, port) => {
            names_receive(world, place, *port) && is_in(world, *port, None)
        }
        Reason::InSet(place, port, set) | Reason::AlreadyIn(place, port, set) => {
            names_receive(world, place, *port) && is_in(world, *port, Some(*set))
        }
        Reason::NotIn(place, port, set) => {
            names_receive(world, place, *port) && is_not_in(world, *port, *set)
        }
        Reason::OneSet => !world.has_several_sets(),
        Reason::Full(port, queued, limit) => is_full(world, *port, *queued, *limit),
        Reason::Died(waited, was_made) => is_gone(world, waited, *was_made),
        Reason::Member(port, set) => is_in(world, *port, Some(*set)),
        Reason::Changed(task, waited) => is_out_of_reach(world, *task, waited),
        Reason::OwnDestination(place, port) => names_receive(world, place, *port),
        Reason::Loop(place, carried, destination) => {
            names_receive(world, place, *carried)
                && *carried != *destination
                && world.closes_loop(*destination, &[*carried])
        }
        _ => false,
    }
}

/// Whether a reason about numbers of the call is true. Of bytes and of memory nothing is told here.
fn is_true_of_numbers(reason: &Reason) -> bool
    ensures { (w : WorldView) → IsTrue result → Tells w reason.now }
{
    match reason {
        Reason::NotMade(right) => *right != 1 && *right != 3 && *right != 4,
        Reason::NoRight(right) => *right > 4,
        Reason::NoName(name) => !name.is_usable(),
        Reason::Limit(limit) => *limit > 16,
        Reason::NoDisposition(number) => *number < 16 || *number > 21,
        Reason::NoVariant(variant) => *variant != 69 && *variant != 70 && *variant != 72,
        Reason::PaysBy(number) => *number != 18 && *number != 21,
        Reason::Sync(number) => *number > 0,
        Reason::NoReferences(delta) => *delta != 0 && *delta != -1,
        Reason::Message(_) | Reason::Memory | Reason::NoBuffer => true,
        _ => false,
    }
}

/// Whether the task doesn't live, and was made once or never.
fn is_no_task(world: &World, task: TaskId, was_made: bool) -> bool
    ensures { IsTrue result → LacksTask world.now task was_made }
{
    let is_made = (task.number() as usize) < world.tasks_made();
    world.find_space(task).is_none() && is_made == was_made
}

/// Whether the task lives and has so many names.
fn has_names(world: &World, task: TaskId, names: usize) -> bool
    ensures { IsTrue result → HasNames world.now task names }
{
    match world.find_space(task) {
        Some(space) => space.len() == names,
        None => false,
    }
}

/// Whether the task lives and has no such name.
fn is_absent(world: &World, place: &Place) -> bool
    ensures { IsTrue result → HasTask world.now place.now.task × (under world.now place.now ≡ None) }
{
    world.has_task(place.task) && world.lookup(place.task, place.name).is_none()
}

/// Whether the name stands for this.
fn stands_for(world: &World, place: &Place, standing: &Standing) -> bool
    ensures { IsTrue result → under world.now place.now ≡ Some standing.now }
{
    world.lookup(place.task, place.name) == Some(*standing)
}

/// Whether the name is dead.
fn is_dead(world: &World, place: &Place) -> bool
    ensures { IsTrue result → IsDead world.now place.now }
{
    matches!(
        world.lookup(place.task, place.name),
        Some(Standing::DeadName(_))
    )
}

/// Whether the name has the port's receive right or send rights.
fn names_port(world: &World, place: &Place, port: PortId) -> bool
    ensures { IsTrue result → HasPort port_named world.now place.now port }
{
    match world.lookup(place.task, place.name) {
        Some(standing) => standing.port() == Some(port),
        None => false,
    }
}

/// Whether the name has the port's receive right.
fn names_receive(world: &World, place: &Place, port: PortId) -> bool
    ensures { IsTrue result → HasPort receive_named world.now place.now port }
{
    match world.lookup(place.task, place.name) {
        Some(standing) => standing.receive_port() == Some(port),
        None => false,
    }
}

/// Whether the port is there, and not in this set.
fn is_not_in(world: &World, port: PortId, set: SetId) -> bool
    ensures { IsTrue result → IsNotIn world.now port set }
{
    world.has_port(port) && !world.is_in(port, set)
}

/// Whether the port is there, and in this set beside others perhaps, or in none.
fn is_in(world: &World, port: PortId, set: Option<SetId>) -> bool
    ensures { IsTrue result → IsIn world.now port set }
{
    match set {
        Some(set) => world.is_in(port, set),
        None => world.has_port(port) && world.membership(port) == Membership::Nowhere,
    }
}

/// Whether the port has so many messages, and they are as many as this limit, or more.
fn is_full(world: &World, port: PortId, queued: u32, limit: u32) -> bool
    ensures { IsTrue result → IsFull world.now port queued limit }
{
    match world.find_attributes(port) {
        Some(attributes) => {
            world.queued(port) == queued as usize && attributes.limit == limit && limit <= queued
        }
        None => false,
    }
}

/// Whether the port or set isn't there, and was made once or never.
fn is_gone(world: &World, waited: &Waited, was_made: bool) -> bool
    ensures { IsTrue result → LacksWaited world.now waited.now was_made }
{
    !is_there(world, waited) && made_once(world, waited) == Some(was_made)
}

/// Whether the port or set is there.
fn is_there(world: &World, waited: &Waited) -> bool
    ensures { MatchBool result (Unit {0}) (IsNotThere world.now waited.now) }
{
    match waited {
        Waited::Port(port) => world.has_port(*port),
        Waited::Set(set) => world.set_record(*set).is_some(),
    }
}

/// Whether a port or set of this identity was ever made; `None` once all identities were given.
/// Constant time.
pub fn made_once(world: &World, waited: &Waited) -> Option<bool>
    ensures { IfSome result (λ once. WasMadeOnce world.now waited.now once) }
{
    match waited {
        Waited::Port(_) if world.are_ports_exhausted() => None,
        Waited::Port(port) => Some(port.number() < world.next_port().number()),
        Waited::Set(_) if world.are_sets_exhausted() => None,
        Waited::Set(set) => Some(set.number() < world.next_set().number()),
    }
}

/// Whether the port or set is there, and the task can't receive from it.
fn is_out_of_reach(world: &World, task: TaskId, waited: &Waited) -> bool
    ensures { IsTrue result → IsOutOfReach world.now task waited.now }
{
    match waited {
        Waited::Port(port) => is_kept_from(world, task, *port),
        Waited::Set(set) => is_of_another(world, task, *set),
    }
}

/// Whether the port is there, and another than the task holds its receive right.
fn is_kept_from(world: &World, task: TaskId, port: PortId) -> bool
    ensures { IsTrue result → IsKeptFrom world.now task port }
{
    match world.find_attributes(port) {
        Some(attributes) => {
            let is_own = attributes.holder == Holder::Task(task);
            !is_own
        }
        None => false,
    }
}

/// Whether the set is there, and isn't the task's.
fn is_of_another(world: &World, task: TaskId, set: SetId) -> bool
    ensures { IsTrue result → IsOthers world.now task set }
{
    match world.set_record(set) {
        Some(record) => record.owner != task,
        None => false,
    }
}

/// Returns how many references the name has to its send rights, or to its dead name. Constant time.
pub fn counted(standing: &Standing) -> u32
    ensures { result ≡ needs.counted standing.now }
{
    match standing {
        Standing::Send(_, references)
        | Standing::ReceiveAndSend(_, references)
        | Standing::DeadName(references) => references.count(),
        Standing::Receive(_) | Standing::SendOnce(_) | Standing::Set(_) => 0,
    }
}

/// Whether what a name stands for is a right that lacks what the call needs.
fn lacks_wanted(standing: &Standing, wanted: Wanted) -> bool
    ensures { IsTrue result → needs.IsWanted wanted × (needs.meets wanted standing.now ≡ false) × (needs.is_dead standing.now ≡ false) }
{
    is_wanted(wanted) && !suffices(standing, wanted) && !matches!(standing, Standing::DeadName(_))
}

/// Whether a disposition or a right has the number.
fn is_wanted(wanted: Wanted) -> bool
    ensures { IsTrue result → needs.IsWanted wanted }
{
    match wanted {
        Wanted::Disposition(number) => 16 <= number && number <= 21,
        Wanted::Right(number) => number <= 4,
        _ => true,
    }
}

/// Whether so many rights, and so many more, are too many.
fn is_too_many(rights: u32, more: u32) -> bool
    ensures { IsTrue result → most_rights < rights + more }
{
    rights as u64 + more as u64 > MOST_RIGHTS as u64
}

/// Whether there are so many references, and they can't be changed by this number.
fn is_out_of_range(references: u32, delta: i32) -> bool
    ensures { IsTrue result → (0 < references) × needs.IsOutOfRange references delta }
{
    if references == 0 {
        return false;
    }
    if delta < 0 {
        return references < delta.unsigned_abs();
    }
    references as u64 + delta.unsigned_abs() as u64 > MOST_REFERENCES as u64
}
