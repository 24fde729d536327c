//! Calls of tasks, names and references.
ghost use Rattle.std.specs.Prelude.{◌≡◌, length, map, min, if◌then◌else◌, nat_lt};
ghost use Rattle.mach_types.specs.declared.calls.Event.TheVariants.{TaskCreate, TaskTerminate, Allocate, AllocateName, Deallocate, Destroy, ModRefs, GetRefs, NameType, Names, Rename};
ghost use Rattle.gelvonds_c_base.specs.Codes.{signed, too_short};
ghost use Rattle.gelvonds_c.specs.Calls.{Asks, Tells, ListsNames, put_list};

use crate::call::{call, code, code_of, number};
use crate::handle::Handle;
use gelvonds_c_base::codes::{SUCCESS, TOO_SHORT};
use mach_types::{Event, Name, Reply, TaskId};
use std::alloc::Global;

/// `task_create`.
#[unsafe(no_mangle)]
pub extern "C" fn gelvonds_task_create(alloc: Global, handle: &mut Handle, child: &mut u32) -> i32
    ensures { Tells handle.old.kernel TaskCreate result handle.new.kernel child.old child.new }
{
    number(alloc, handle, &Event::TaskCreate, child)
}

/// `task_terminate`.
#[unsafe(no_mangle)]
pub extern "C" fn gelvonds_task_terminate(alloc: Global, handle: &mut Handle, task: u32) -> i32
    ensures { Asks handle.old.kernel (TaskTerminate task) result handle.new.kernel }
{
    let event = Event::TaskTerminate(TaskId::new(task));
    code(alloc, handle, &event)
}

/// `mach_port_allocate`.
#[unsafe(no_mangle)]
pub extern "C" fn gelvonds_port_allocate(
    alloc: Global,
    handle: &mut Handle,
    task: u32,
    right: u32,
    name: &mut u32,
) -> i32
    ensures { Tells handle.old.kernel (Allocate task right) result handle.new.kernel name.old name.new }
{
    let event = Event::Allocate(TaskId::new(task), right);
    number(alloc, handle, &event, name)
}

/// `mach_port_allocate_name`.
#[unsafe(no_mangle)]
pub extern "C" fn gelvonds_port_allocate_name(
    alloc: Global,
    handle: &mut Handle,
    task: u32,
    right: u32,
    name: u32,
) -> i32
    ensures { Asks handle.old.kernel (AllocateName task right name) result handle.new.kernel }
{
    let event = Event::AllocateName(TaskId::new(task), right, Name::new(name));
    let mut given = 0;
    number(alloc, handle, &event, &mut given)
}

/// `mach_port_deallocate`.
#[unsafe(no_mangle)]
pub extern "C" fn gelvonds_port_deallocate(
    alloc: Global,
    handle: &mut Handle,
    task: u32,
    name: u32,
) -> i32
    ensures { Asks handle.old.kernel (Deallocate task name) result handle.new.kernel }
{
    let event = Event::Deallocate(TaskId::new(task), Name::new(name));
    code(alloc, handle, &event)
}

/// `mach_port_destroy`.
#[unsafe(no_mangle)]
pub extern "C" fn gelvonds_port_destroy(
    alloc: Global,
    handle: &mut Handle,
    task: u32,
    name: u32,
) -> i32
    ensures { Asks handle.old.kernel (Destroy task name) result handle.new.kernel }
{
    let event = Event::Destroy(TaskId::new(task), Name::new(name));
    code(alloc, handle, &event)
}

/// `mach_port_mod_refs`.
#[unsafe(no_mangle)]
pub extern "C" fn gelvonds_port_mod_refs(
    alloc: Global,
    handle: &mut Handle,
    task: u32,
    name: u32,
    right: u32,
    delta: i32,
) -> i32
    ensures { Asks handle.old.kernel (ModRefs task name right delta) result handle.new.kernel }
{
    let event = Event::ModRefs(TaskId::new(task), Name::new(name), right, delta);
    code(alloc, handle, &event)
}

/// `mach_port_get_refs`.
#[unsafe(no_mangle)]
pub extern "C" fn gelvonds_port_get_refs(
    alloc: Global,
    handle: &mut Handle,
    task: u32,
    name: u32,
    right: u32,
    refs: &mut u32,
) -> i32
    ensures { Tells handle.old.kernel (GetRefs task name right) result handle.new.kernel refs.old refs.new }
{
    let event = Event::GetRefs(TaskId::new(task), Name::new(name), right);
    number(alloc, handle, &event, refs)
}

/// `mach_port_type`.
#[unsafe(no_mangle)]
pub extern "C" fn gelvonds_port_type(
    alloc: Global,
    handle: &mut Handle,
    task: u32,
    name: u32,
    port_type: &mut u32,
) -> i32
    ensures { Tells handle.old.kernel (NameType task name) result handle.new.kernel port_type.old port_type.new }
{
    let event = Event::NameType(TaskId::new(task), Name::new(name));
    number(alloc, handle, &event, port_type)
}

/// `mach_port_rename`.
#[unsafe(no_mangle)]
pub extern "C" fn gelvonds_port_rename(
    alloc: Global,
    handle: &mut Handle,
    task: u32,
    old_name: u32,
    new_name: u32,
) -> i32
    ensures { Asks handle.old.kernel (Rename task old_name new_name) result handle.new.kernel }
{
    let event = Event::Rename(TaskId::new(task), Name::new(old_name), Name::new(new_name));
    code(alloc, handle, &event)
}

/// `mach_port_names`.
#[unsafe(no_mangle)]
pub extern "C" fn gelvonds_port_names(
    alloc: Global,
    handle: &mut Handle,
    task: u32,
    names: &mut [u32],
    types: &mut [u32],
    count: &mut usize,
) -> i32
    ensures { ListsNames handle.old.kernel (Names task) result handle.new.kernel names.old names.new types.old types.new count.old count.new }
{
    let reply = call(alloc, handle, &Event::Names(TaskId::new(task)));
    match &reply {
        Some(Reply::Names(found)) => put_names(found.as_slice(), names, types, count),
        _ => code_of(&reply),
    }
}

/// Writes the names and their types where there is room for all, and tells how many they are.
fn put_names(found: &[(Name, u32)], names: &mut [u32], types: &mut [u32], count: &mut usize) -> i32
    ensures code { result ≡ signed (if nat_lt (min (length names.old) (length types.old)) (length found.now) then too_short else 0) }
    ensures names { names.new ≡ put_list (min (length names.old) (length types.old)) (length found.now) (map (λ e. e.0) found.now) names.old }
    ensures types { types.new ≡ put_list (min (length names.old) (length types.old)) (length found.now) (map (λ e. e.1) found.now) types.old }
    ensures count { count.new ≡ length found.now }
{
    *count = found.len();
    if found.len() > names.len() || found.len() > types.len() {
        return TOO_SHORT;
    }
    for (place, entry) in found.iter().enumerate() {
        names[place] = entry.0.number();
        types[place] = entry.1;
    }
    SUCCESS
}
