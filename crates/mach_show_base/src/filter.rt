//! Which entries are shown.
use kernel_lock::Entry;
use mach_types::{Event, Reply, TaskId};
use mach_words::task_of;

/// Which entries of a history are shown.
#[derive(Clone, Copy)]
pub struct Filter {
    /// Only calls of the task of this number, and those that hand it a right.
    pub task: Option<u64>,
    /// Only entries that name the port of this identity, or carry a right for it.
    pub port: Option<u64>,
    /// Only refused calls.
    pub refused: bool,
    /// The number of the first entry to show. Entries count from 1.
    pub from: u64,
    /// The number of the last entry to show.
    pub to: u64,
}

impl Filter {
    /// Shows every entry. Takes no memory.
    pub fn all() -> Filter {
        Filter {
            task: None,
            port: None,
            refused: false,
            from: 0,
            to: u64::MAX,
        }
    }

    /// Whether the entry of this number is shown, as far as its port isn't asked for. Constant time.
    pub fn shows(&self, number: u64, entry: &Entry) -> bool {
        if number < self.from || self.to < number {
            return false;
        }
        if self.refused && !is_refused(&entry.reply) {
            return false;
        }
        match self.task {
            Some(task) => is_about(entry, task),
            None => true,
        }
    }
}

/// Whether the reply is a refusal: a code other than 0, or a message that is too long.
fn is_refused(reply: &Reply) -> bool {
    match reply {
        Reply::Code(code) => *code != 0,
        Reply::TooLarge(_) => true,
        _ => false,
    }
}

/// Whether the entry is a call of this task, or hands it a right.
fn is_about(entry: &Entry, task: u64) -> bool {
    match (&entry.event, &entry.reply) {
        (Event::TaskCreate, Reply::Task(made)) => is_task(*made, task),
        (Event::InsertRight(one, _, other, _, _) | Event::ExtractRight(one, _, _, other), _) => {
            is_task(*one, task) || is_task(*other, task)
        }
        (event, _) => match task_of(event) {
            Some(caller) => is_task(caller, task),
            None => false,
        },
    }
}

/// Whether the task has this number.
fn is_task(task: TaskId, number: u64) -> bool {
    u64::from(task.number()) == number
}
