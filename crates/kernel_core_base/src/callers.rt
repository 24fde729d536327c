//! Whether the tasks that a call names live.
ghost use Rattle.std.specs.Prelude.{MatchBool};
ghost use Rattle.copyin_base.specs.Serving.{HasTasks};
ghost use Rattle.copyin_base.specs.Worlds.{HasTask};

use copyin_base::World;
use mach_types::{Event, TaskId};

/// Returns whether the tasks that the call names live: none, one, or the two that a right is handed between.
/// Constant time.
#[inline(always)]
pub fn has_tasks(world: &World, event: &Event) -> bool
    ensures { MatchBool result (HasTasks world.now event.now) (¬ (HasTasks world.now event.now)) }
{
    match event {
        Event::TaskCreate => true,
        Event::TaskTerminate(task)
        | Event::Allocate(task, _)
        | Event::AllocateName(task, _, _)
        | Event::Deallocate(task, _)
        | Event::Destroy(task, _)
        | Event::ModRefs(task, _, _, _)
        | Event::GetRefs(task, _, _)
        | Event::NameType(task, _)
        | Event::Names(task)
        | Event::Rename(task, _, _)
        | Event::ReceiveStatus(task, _)
        | Event::SetQlimit(task, _, _)
        | Event::SetMscount(task, _, _)
        | Event::SetSeqno(task, _, _)
        | Event::SetStatus(task, _)
        | Event::MoveMember(task, _, _)
        | Event::InsertMember(task, _, _)
        | Event::ExtractMember(task, _, _)
        | Event::RequestNotification(task, _, _, _, _, _)
        | Event::Send(task, _)
        | Event::Receive(task, _, _, _)
        | Event::ReceiveAgain(task, _, _, _) => lives(world, *task),
        Event::InsertRight(task, _, other, _, _) | Event::ExtractRight(task, _, _, other) => {
            live_both(world, *task, *other)
        }
    }
}

/// Returns whether the task lives. Constant time.
fn lives(world: &World, task: TaskId) -> bool
    ensures { MatchBool result (HasTask world.now task) (¬ (HasTask world.now task)) }
{
    world.has_task(task)
}

/// Returns whether both tasks live. Constant time.
fn live_both(world: &World, task: TaskId, other: TaskId) -> bool
    ensures { MatchBool result (HasTask world.now task × HasTask world.now other) (¬ (HasTask world.now task × HasTask world.now other)) }
{
    world.has_task(task) && world.has_task(other)
}
