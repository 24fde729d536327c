//! The task that makes a call.
use mach_types::{Event, TaskId};

/// Returns the task that makes the call; `None` for `TaskCreate`, which no task makes. Constant time.
pub fn task_of(event: &Event) -> Option<TaskId> {
    match event {
        Event::TaskCreate => None,
        Event::TaskTerminate(task)
        | Event::Allocate(task, _)
        | Event::AllocateName(task, _, _)
        | Event::Deallocate(task, _)
        | Event::Destroy(task, _)
        | Event::ModRefs(task, _, _, _)
        | Event::GetRefs(task, _, _)
        | Event::NameType(task, _)
        | Event::Names(task)
        | Event::Rename(task, _, _)
        | Event::ReceiveStatus(task, _)
        | Event::SetQlimit(task, _, _)
        | Event::SetMscount(task, _, _)
        | Event::SetSeqno(task, _, _)
        | Event::SetStatus(task, _)
        | Event::MoveMember(task, _, _)
        | Event::InsertMember(task, _, _)
        | Event::ExtractMember(task, _, _)
        | Event::RequestNotification(task, _, _, _, _, _)
        | Event::Send(task, _)
        | Event::Receive(task, _, _, _)
        | Event::ReceiveAgain(task, _, _, _)
        | Event::InsertRight(task, _, _, _, _)
        | Event::ExtractRight(task, _, _, _) => Some(*task),
    }
}
