//! Calls that ask for notices.
ghost use Rattle.mach_types.specs.declared.calls.Event.TheVariants.{RequestNotification};
ghost use Rattle.gelvonds_c.specs.Calls.{Tells};

use crate::call::number;
use crate::handle::Handle;
use mach_types::{Event, Name, TaskId};
use std::alloc::Global;

/// `mach_port_request_notification`.
#[unsafe(no_mangle)]
pub extern "C" fn gelvonds_port_request_notification(
    alloc: Global,
    handle: &mut Handle,
    task: u32,
    name: u32,
    variant: u32,
    sync: u32,
    notify: u32,
    disposition: u32,
    previous: &mut u32,
) -> i32
    ensures { Tells handle.old.kernel (RequestNotification task name variant sync notify disposition) result handle.new.kernel previous.old previous.new }
{
    let event = Event::RequestNotification(
        TaskId::new(task),
        Name::new(name),
        variant,
        sync,
        Name::new(notify),
        disposition,
    );
    number(alloc, handle, &event, previous)
}
