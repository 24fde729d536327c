//! Reads the tables.
use crate::scene::State;
use crate::thing::{Frame, Kind, Row};
use mach_state::{name_state, port_state};
use mach_types::{Name, PortId, TaskId};
use mach_words::{Labels, Text, notice_word};
use name_space::Entry as Standing;
use port::Holder;
use std::alloc::{AllocError, Global};

/// Returns the names of the task of this number, in order; `None` if it has ended.
pub(crate) fn rows_of(
    alloc: Global,
    state: &State<'_>,
    number: usize,
) -> Result<Option<Vec<Row>>, AllocError> {
    let task = TaskId::new(u32::try_from(number).unwrap_or(u32::MAX));
    let Some(names) = state.follower.tables().find_space(task) else {
        return Ok(None);
    };
    let list = names.names(alloc)?;
    let mut rows = Vec::new(alloc);
    for name in list.as_slice() {
        if let Some(row) = row_named(state, task, *name) {
            rows.push(row)?;
        }
    }
    Ok(Some(rows))
}

/// Returns what a task's name is.
fn row_named(state: &State<'_>, task: TaskId, name: Name) -> Option<Row> {
    let said = name_state(state.follower.tables(), task, name)?;
    let (kind, about, references) = parts_of(&said.standing);
    Some(Row {
        name: name.number(),
        kind,
        about,
        references,
        told: live(state, said.notify),
    })
}

/// Returns the identity of a port if it lives.
fn live(state: &State<'_>, port: Option<PortId>) -> Option<u64> {
    let port = port?;
    if state.follower.tables().has_port(port) {
        return Some(port.number());
    }
    None
}

/// Returns the row of a name, among rows in the order of their names.
pub(crate) fn row_of(rows: &[Row], name: u32) -> Option<Row> {
    let mut from = 0;
    let mut to = rows.len();
    for _ in 0..64 {
        if from >= to {
            break;
        }
        let middle = from + (to - from) / 2;
        match rows.get(middle) {
            Some(row) if row.name == name => return Some(*row),
            Some(row) if row.name < name => {
                from = middle + 1;
            }
            _ => {
                to = middle;
            }
        }
    }
    None
}

/// Returns what is said of the port of this identity; `None` if it doesn't live.
pub(crate) fn frame_of(state: &State<'_>, identity: u64) -> Option<Frame> {
    let said = port_state(state.follower.tables(), port_of(identity))?;
    Some(Frame {
        queued: said.queued as u64,
        limit: said.limit,
        made: said.make_send,
        next: said.sequence,
        set: match said.set {
            Some(set) => Some(set.number()),
            None => None,
        },
        more_sets: said.more_sets as u64,
        is_carried: matches!(said.holder, Holder::QueueOf(_)),
        no_senders: live(state, said.no_senders),
        port_destroyed: live(state, said.port_destroyed),
    })
}

/// Returns the number of the task that holds the port's receive right; 0 if none does.
pub(crate) fn holder_of(state: &State<'_>, identity: u64) -> usize {
    match holding_task(state, port_of(identity)) {
        Some(task) => task.number() as usize,
        None => 0,
    }
}

/// Returns the task that holds the port's receive right; `None` if none does.
fn holding_task(state: &State<'_>, port: PortId) -> Option<TaskId> {
    match state.follower.tables().find_attributes(port) {
        Some(attributes) => match &attributes.holder {
            Holder::Task(task) => Some(*task),
            _ => None,
        },
        None => None,
    }
}

/// Returns what a name stands for, the identity of its port or set, and its references.
fn parts_of(standing: &Standing) -> (Kind, u64, u32) {
    match standing {
        Standing::Receive(port) => (Kind::Receive, port.number(), 1),
        Standing::Send(port, references) => (Kind::Send, port.number(), references.count()),
        Standing::ReceiveAndSend(port, references) => {
            (Kind::Both, port.number(), references.count())
        }
        Standing::SendOnce(port) => (Kind::Once, port.number(), 1),
        Standing::DeadName(references) => (Kind::Dead, 0, references.count()),
        Standing::Set(set) => (Kind::Set, set.number(), 1),
    }
}

/// Returns the port of this identity.
pub(crate) fn port_of(identity: u64) -> PortId {
    PortId::new(identity)
}

/// Writes what a message with this id is called, or a notice. Linear in the name.
pub fn write_title(id: u32, is_notice: bool, labels: &Labels, out: &mut Text) {
    match notice_word(id) {
        Some(word) if is_notice => out.words(word),
        _ => labels.write_id(id, out),
    }
}
