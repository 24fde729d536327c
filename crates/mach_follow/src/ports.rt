//! Whether an entry is about a port.
use crate::follower::Follower;
use kernel_lock::Entry;
use mach_types::{Event, Name, PortId, Reply, TaskId, Waited};
use mach_words::{message_fault, task_of};
use message_codec::{Received, ReceivedBody, ReceivedItem, ReceivedPorts, read_received};

/// Whether the call names the port, or carries a right for it. Call it before the entry is replayed. Linear in a message
/// that is sent; takes no memory.
pub fn is_call_about(follower: &Follower, event: &Event, port: PortId) -> bool {
    match event {
        Event::Send(task, bytes) => {
            message_fault(bytes.as_slice()).is_none()
                && is_message_about(follower, *task, bytes.as_slice(), port)
        }
        Event::ReceiveAgain(_, waited, _, _) => *waited == Waited::Port(port),
        Event::InsertRight(_, _, task, name, _) => stands_for(follower, *task, *name, port),
        Event::RequestNotification(task, name, _, _, notify, _) => {
            stands_for(follower, *task, *name, port) || stands_for(follower, *task, *notify, port)
        }
        _ => match place_of(event) {
            Some((task, name)) => stands_for(follower, task, name, port),
            None => false,
        },
    }
}

/// Whether the reply names the port, or brings a right for it. Call it after the entry was replayed. Linear in a received
/// message; takes no memory.
pub fn is_answer_about(follower: &Follower, entry: &Entry, port: PortId) -> bool {
    let Some(task) = receiver_of(&entry.event) else {
        return false;
    };
    match &entry.reply {
        Reply::Name(name) | Reply::Right(name, _) | Reply::Previous(name) => {
            stands_for(follower, task, *name, port)
        }
        Reply::Message(bytes) => is_message_about(follower, task, bytes.as_slice(), port),
        Reply::Empty(waited) => *waited == Waited::Port(port),
        _ => false,
    }
}

/// Returns the task whose names the reply has.
fn receiver_of(event: &Event) -> Option<TaskId> {
    match event {
        Event::ExtractRight(_, _, _, task) => Some(*task),
        _ => task_of(event),
    }
}

/// Returns the name that the call is about, or the first of them.
fn place_of(event: &Event) -> Option<(TaskId, Name)> {
    match event {
        Event::Deallocate(task, name)
        | Event::Destroy(task, name)
        | Event::ModRefs(task, name, _, _)
        | Event::GetRefs(task, name, _)
        | Event::NameType(task, name)
        | Event::Rename(task, name, _)
        | Event::ReceiveStatus(task, name)
        | Event::SetQlimit(task, name, _)
        | Event::SetMscount(task, name, _)
        | Event::SetSeqno(task, name, _)
        | Event::MoveMember(task, name, _)
        | Event::InsertMember(task, name, _)
        | Event::ExtractMember(task, name, _)
        | Event::ExtractRight(task, name, _, _)
        | Event::Receive(task, name, _, _) => Some((*task, *name)),
        _ => None,
    }
}

/// Whether the task's name stands for the port now.
fn stands_for(follower: &Follower, task: TaskId, name: Name, port: PortId) -> bool {
    follower.look(task, name).port() == Some(port)
}

/// Whether a port word of these bytes, which are a message, is the task's name for the port.
fn is_message_about(follower: &Follower, task: TaskId, bytes: &[u8], port: PortId) -> bool {
    match read_received(bytes) {
        Some(message) => has_port(follower, task, &message, port),
        None => false,
    }
}

/// Whether a port word of the message is the task's name for the port.
fn has_port(follower: &Follower, task: TaskId, message: &Received<'_>, port: PortId) -> bool {
    stands_for(follower, task, message.header.remote, port)
        || stands_for(follower, task, message.header.local, port)
        || is_body_about(follower, task, &message.body, port)
}

/// Whether a port word of the body is the task's name for the port.
fn is_body_about(follower: &Follower, task: TaskId, body: &ReceivedBody<'_>, port: PortId) -> bool {
    let ReceivedBody::Items(items) = body else {
        return false;
    };
    for item in *items {
        if let ReceivedItem::Ports(ports) = &item {
            if are_ports_about(follower, task, ports, port) {
                return true;
            }
        }
    }
    false
}

/// Whether a word of the item is the task's name for the port.
fn are_ports_about(
    follower: &Follower,
    task: TaskId,
    ports: &ReceivedPorts<'_>,
    port: PortId,
) -> bool {
    for index in 0..ports.len() {
        if let Some(name) = ports.get(index) {
            if stands_for(follower, task, name, port) {
                return true;
            }
        }
    }
    false
}
