//! Calls that hand a right from task to task.
ghost use Rattle.mach_types.specs.declared.calls.Event.TheVariants.{InsertRight, ExtractRight};
ghost use Rattle.gelvonds_c.specs.Calls.{Asks, TellsRight};

use crate::call::{call, code, code_of};
use crate::handle::Handle;
use mach_types::{Event, Name, Reply, TaskId};
use std::alloc::Global;

/// `mach_port_insert_right`.
#[unsafe(no_mangle)]
pub extern "C" fn gelvonds_port_insert_right(
    alloc: Global,
    handle: &mut Handle,
    task: u32,
    name: u32,
    from: u32,
    poly: u32,
    disposition: u32,
) -> i32
    ensures { Asks handle.old.kernel (InsertRight task name from poly disposition) result handle.new.kernel }
{
    let event = Event::InsertRight(
        TaskId::new(task),
        Name::new(name),
        TaskId::new(from),
        Name::new(poly),
        disposition,
    );
    code(alloc, handle, &event)
}

/// `mach_port_extract_right`.
#[unsafe(no_mangle)]
pub extern "C" fn gelvonds_port_extract_right(
    alloc: Global,
    handle: &mut Handle,
    task: u32,
    name: u32,
    disposition: u32,
    to: u32,
    poly: &mut u32,
    kind: &mut u32,
) -> i32
    ensures { TellsRight handle.old.kernel (ExtractRight task name disposition to) result handle.new.kernel poly.old poly.new kind.old kind.new }
{
    let event = Event::ExtractRight(
        TaskId::new(task),
        Name::new(name),
        disposition,
        TaskId::new(to),
    );
    let reply = call(alloc, handle, &event);
    if let Some(Reply::Right(given, number)) = &reply {
        *poly = given.number();
        *kind = u32::from(*number);
    }
    code_of(&reply)
}
