//! Making and ending tasks.
ghost use Rattle.std.specs.Prelude.{OnOk, IfErr};
ghost use Rattle.mach_types.specs.declared.calls.Event.{Event};
ghost use Rattle.mach_types.specs.Codes.{kern_number};
ghost use Rattle.mach_model.specs.Refusals.{call_guards};
ghost use Rattle.copyin_base.specs.Serving.{Serves, IsRefused, IsAllowed};
ghost use Rattle.copyin_base.specs.Stands.{Stands};
ghost use Rattle.copyin_base.specs.Wanted.{KeepsSpares, UsesSpares};
ghost use Rattle.copyin_base.specs.Worlds.{HasTask};

use copyin_base::World;
use mach_types::limits::MOST_TASKS;
use mach_types::{Code, KernReturn, Reply, TaskId};
use notifications::end_task;
use std::alloc::Global;

/// `TaskCreate` (Task Interface, `task_create`): a task with no names, whose number is that of the
/// tasks made before.
///
/// `KERN_NO_SPACE` where 65,536 tasks were made; `KERN_RESOURCE_SHORTAGE` when out of memory. Constant time,
/// but where the tasks move to a larger place.
pub fn create_task(world: &mut World, alloc: Global) -> Result<Reply, Code>
    requires { Stands world.old }
    ensures serves { Serves world.old Event.TaskCreate result world.new }
    ensures spares { KeepsSpares world.old world.new }
{
    let number = world.tasks_made();
    if number >= MOST_TASKS {
        return Err(Code::Kern(KernReturn::NoSpace));
    }
    match world.create_task(alloc) {
        Ok(task) => Ok(Reply::Task(task)),
        Err(_) => Err(Code::Kern(KernReturn::ResourceShortage)),
    }
}

/// Whether a task may be made, where there is memory: as [`create_task`] refuses it, except when out of
/// memory. Constant time.
pub fn check_create_task(world: &World) -> Result<(), KernReturn>
    ensures ok { OnOk result (IsAllowed world.now (λ s. call_guards s Event.TaskCreate)) }
    ensures err { IfErr result (λ code. IsRefused world.now (λ s. call_guards s Event.TaskCreate) (kern_number code)) }
{
    if world.tasks_made() >= MOST_TASKS {
        return Err(KernReturn::NoSpace);
    }
    Ok(())
}

/// `TaskTerminate` (Task Interface, `task_terminate`): ends a task that lives. All that its names hold is
/// lost. Requests on the names end, and the task's sets go. The ports of its send-once rights are told. The
/// ports whose receive rights it had die or are sent away at the end of the step.
///
/// Takes no memory and cannot fail. Linear in its names and in the members of its sets. Each name above
/// 65,535 adds a logarithm. Each page of 256 names up to there that was used adds four words.
pub fn terminate_task(world: &mut World, task: TaskId) -> Result<Reply, Code>
    requires there { HasTask world.old task }
    requires stands { Stands world.old }
    ensures serves { Serves world.old (Event.TaskTerminate task) result world.new }
    ensures spares { UsesSpares world.old world.new }
{
    end_task(world, task);
    Ok(Reply::Code(0))
}
