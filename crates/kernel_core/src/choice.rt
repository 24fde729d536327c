//! Whose turn it is at a port set, which the machine leaves open.
ghost use Rattle.kernel_core.specs.Choices.{SameButTurns};

use copyin_base::World;
use mach_types::{Event, Name, PortId, SetId, TaskId, Waited};

/// Where the call receives by a set, and the task has under this name a member of it that has a message,
/// it is that member's turn now. Takes no memory. Linear in the ready members ahead of it.
pub(crate) fn give_turn(world: &mut World, event: &Event, member: Name)
    ensures { SameButTurns world.old world.new }
{
    let Some((task, set)) = receives_by(world, event) else {
        return;
    };
    if let Some(port) = ready_under(world, task, set, member) {
        advance(world, set, port);
    }
}

/// The task and the set that the call receives by, where it receives by a set.
fn receives_by(world: &World, event: &Event) -> Option<(TaskId, SetId)> {
    match event {
        Event::Receive(task, name, _, _) => Some((*task, world.lookup(*task, *name)?.set()?)),
        Event::ReceiveAgain(task, Waited::Set(set), _, _) => Some((*task, *set)),
        _ => None,
    }
}

/// The port that the task receives by under this name, where it is in the set and has a message.
fn ready_under(world: &World, task: TaskId, set: SetId, name: Name) -> Option<PortId> {
    let port = world.lookup(task, name)?.receive_port()?;
    (world.is_in(port, set) && world.queued(port) > 0).then_some(port)
}

/// Members that are ready go to the end of their set, one after another, until the first is this port, which
/// is one of them.
fn advance(world: &mut World, set: SetId, port: PortId)
    ensures { SameButTurns world.old world.new }
{
    for _ in 0..u64::MAX {
        match world.ready_member(set) {
            Some(first) if first.number() != port.number() => world.pass_turn(set, first),
            _ => return,
        }
    }
}
