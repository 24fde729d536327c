//! Calls of a receive right.
ghost use Rattle.mach_types.specs.declared.calls.Event.TheVariants.{ReceiveStatus, SetQlimit, SetMscount, SetSeqno};
ghost use Rattle.gelvonds_c.specs.Calls.{Asks, TellsStatus};

use crate::call::{call, code, code_of};
use crate::handle::Handle;
use gelvonds_c_base::{PortStatus, port_status};
use mach_types::{Event, Name, Reply, TaskId};
use std::alloc::Global;

/// `mach_port_get_receive_status`.
#[unsafe(no_mangle)]
pub extern "C" fn gelvonds_port_get_receive_status(
    alloc: Global,
    handle: &mut Handle,
    task: u32,
    name: u32,
    status: &mut PortStatus,
) -> i32
    ensures { TellsStatus handle.old.kernel (ReceiveStatus task name) result handle.new.kernel status.old status.new }
{
    let event = Event::ReceiveStatus(TaskId::new(task), Name::new(name));
    let reply = call(alloc, handle, &event);
    if let Some(Reply::Status(found)) = &reply {
        *status = port_status(found);
    }
    code_of(&reply)
}

/// `mach_port_set_qlimit`.
#[unsafe(no_mangle)]
pub extern "C" fn gelvonds_port_set_qlimit(
    alloc: Global,
    handle: &mut Handle,
    task: u32,
    name: u32,
    limit: u32,
) -> i32
    ensures { Asks handle.old.kernel (SetQlimit task name limit) result handle.new.kernel }
{
    let event = Event::SetQlimit(TaskId::new(task), Name::new(name), limit);
    code(alloc, handle, &event)
}

/// `mach_port_set_mscount`.
#[unsafe(no_mangle)]
pub extern "C" fn gelvonds_port_set_mscount(
    alloc: Global,
    handle: &mut Handle,
    task: u32,
    name: u32,
    count: u32,
) -> i32
    ensures { Asks handle.old.kernel (SetMscount task name count) result handle.new.kernel }
{
    let event = Event::SetMscount(TaskId::new(task), Name::new(name), count);
    code(alloc, handle, &event)
}

/// `mach_port_set_seqno`.
#[unsafe(no_mangle)]
pub extern "C" fn gelvonds_port_set_seqno(
    alloc: Global,
    handle: &mut Handle,
    task: u32,
    name: u32,
    number: u32,
) -> i32
    ensures { Asks handle.old.kernel (SetSeqno task name number) result handle.new.kernel }
{
    let event = Event::SetSeqno(TaskId::new(task), Name::new(name), number);
    code(alloc, handle, &event)
}
