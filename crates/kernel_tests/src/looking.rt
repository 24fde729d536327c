//! What the calls that only ask say of a kernel.
use crate::judging::Fault;
use crate::playing::Tried;
use mach_types::{Event, Name, Reply, TaskId};
use std::alloc::Global;
use std::sync::Wait;
use tracer_base::write_reply_line;

/// More tasks than any row makes.
const TASKS: u32 = 3;

/// Each task's names, and for each name the status of its receive right and of its set, one reply a line.
pub fn look<R: AllocGlobal + Wait>(rt: &R, kernel: &mut Tried) -> Result<Vec<u8>, Fault> {
    let mut page = Vec::new(rt.alloc());
    for task in 0..TASKS {
        look_at(rt, kernel, TaskId::new(task), &mut page)?;
    }
    Ok(page)
}

/// The same of one task.
fn look_at<R: Wait>(
    rt: &R,
    kernel: &mut Tried,
    task: TaskId,
    page: &mut Vec<u8>,
) -> Result<(), Fault> {
    let reply = ask(rt, kernel, Event::Names(task), page)?;
    let Reply::Names(names) = &reply else {
        return Ok(());
    };
    for (name, _) in names.as_slice() {
        ask(rt, kernel, Event::ReceiveStatus(task, *name), page)?;
        ask(rt, kernel, Event::SetStatus(task, *name), page)?;
    }
    Ok(())
}

/// Makes one call, and writes its reply.
fn ask<R: Wait>(
    rt: &R,
    kernel: &mut Tried,
    event: Event,
    page: &mut Vec<u8>,
) -> Result<Reply, Fault> {
    let reply = kernel.make(rt, event);
    match write_reply_line(&reply, page) {
        Ok(()) => Ok(reply),
        Err(_) => Err(Fault::Memory),
    }
}
