//! How long the reply to a call may be.
ghost use Rattle.std.specs.Prelude.{◌≡◌, ◌≤◌};
ghost use Rattle.mach_types.specs.Numbers.{most_bytes, most_names};
ghost use Rattle.copyin_base.specs.Worlds.{space_at};
ghost use Rattle.kernel_core.specs.Bounds.{most_told};
ghost use Rattle.transfer.specs.Transfer.{names_in};

use copyin_base::World;
use mach_types::limits::MOST_BYTES;
use mach_types::{Event, TaskId};

/// How many bytes, names or members the reply to the call has at most, 0 to 65,536. Constant time.
pub(crate) fn most_told(world: &World, event: &Event) -> usize
    ensures most { result ≡ most_told world.now event.now }
    ensures few { result ≤ most_bytes }
{
    match event {
        Event::Receive(_, _, room, _) | Event::ReceiveAgain(_, _, room, _) => {
            (*room as usize).min(MOST_BYTES)
        }
        Event::Names(task) | Event::SetStatus(task, _) => count_names(world, *task),
        _ => 0,
    }
}

/// How many names the task has: none where it doesn't live.
fn count_names(world: &World, task: TaskId) -> usize
    ensures names { result ≡ names_in (space_at world.now task) }
    ensures few { result ≤ most_names }
{
    match world.find_space(task) {
        Some(space) => space.len(),
        None => 0,
    }
}
