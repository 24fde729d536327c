//! Which port or set is under a name.
ghost use Rattle.std.specs.Prelude.{◌≡◌, is_some};
ghost use Rattle.copyin_base.specs.Worlds.{entry_at, space_at};
ghost use Rattle.gelvonds_c_base.specs.Codes.{signed};
ghost use Rattle.gelvonds_c.specs.Identities.{TellsIdentity, identity_code, identity_or};

use crate::handle::Handle;
use copyin_base::World;
use gelvonds_c_base::codes::{NO_KERNEL, SUCCESS};
use gelvonds_c_base::{WaitedFor, identity};
use mach_types::{KernReturn, Name, TaskId};
use std::alloc::Global;

/// Writes which port or set is under the task's name, by identity.
///
/// Any right for a port tells that port. A dead name has the kind 3 and the identity 0.
/// The code says where the handle holds no kernel, the task doesn't live or nothing is under the name, in this
/// order; nothing is written then. No call is made, and the kernel stays. Takes no memory. Constant time, and
/// logarithmic for a name above 65,535.
#[unsafe(no_mangle)]
pub extern "C" fn gelvonds_port_identity(
    alloc: Global,
    handle: &mut Handle,
    task: u32,
    name: u32,
    found: &mut WaitedFor,
) -> i32
    ensures { TellsIdentity handle.old.kernel task name result handle.new.kernel found.old found.new }
{
    let Some(kernel) = handle.take(alloc) else {
        return NO_KERNEL;
    };
    let code = tell_identity(kernel.tables(), TaskId::new(task), Name::new(name), found);
    handle.put(kernel);
    code
}

/// Writes which port or set is under the name, and returns the code.
fn tell_identity(world: &World, task: TaskId, name: Name, found: &mut WaitedFor) -> i32
    ensures code { result ≡ signed (identity_code (is_some (space_at world.now task)) (entry_at world.now task name)) }
    ensures found { found.new ≡ identity_or (is_some (space_at world.now task)) (entry_at world.now task name) found.old }
{
    if !world.has_task(task) {
        return KernReturn::InvalidTask.number().cast_signed();
    }
    match world.lookup(task, name) {
        Some(entry) => {
            *found = identity(&entry);
            SUCCESS
        }
        None => KernReturn::InvalidName.number().cast_signed(),
    }
}
