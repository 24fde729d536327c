//! Where a queued message came from.
use copyin_base::{Queued, Slot};
use kernel_lock::Entry;
use mach_types::TaskId;
use mach_words::task_of;
use std::collections::LinkedList;

/// Who made a call.
#[derive(Clone, Copy)]
pub struct Sender {
    /// The number of the caller.
    pub caller: u64,
    /// The number of the task; 0 for a call that no task makes.
    pub task: u32,
}

impl Sender {
    /// Returns who made the entry's call. Constant time.
    pub fn of(entry: &Entry) -> Sender {
        Sender {
            caller: entry.caller,
            task: task_of(&entry.event).unwrap_or(TaskId::new(0)).number(),
        }
    }
}

/// Where a queued message came from, and what it is called.
#[derive(Clone, Copy)]
pub struct Origin {
    /// The number of the entry that put it into its queue, from 1.
    pub entry: u64,
    /// Its number among all messages, from 0, in the order in which they were followed.
    pub serial: u64,
    /// Who made that entry's call.
    pub sender: Sender,
    /// The message's id.
    pub id: u32,
    /// Whether the kernel told it.
    pub is_notice: bool,
}

/// The messages that are queued at a live port.
#[derive(Drop)]
pub(crate) struct Waiting {
    /// How many messages ever came to the port.
    pub(crate) came: u64,
    /// Where those came from that are queued, from the front.
    pub(crate) origins: LinkedList<Origin>,
}

impl Waiting {
    /// Returns how many messages came before the one in front.
    pub(crate) fn first(&self) -> u64 {
        self.came.saturating_sub(self.origins.len() as u64)
    }
}

/// A message that came to a port.
#[derive(Clone, Copy)]
pub struct Come {
    /// The port's identity.
    pub port: u64,
    /// Its number among all messages that ever came to the port, from 0.
    pub place: u64,
    /// Where it came from.
    pub origin: Origin,
}

/// What a queued message is called.
#[derive(Clone, Copy)]
pub(crate) struct Title {
    /// The message's id.
    pub(crate) id: u32,
    /// Whether the kernel told it.
    pub(crate) is_notice: bool,
}

/// What a message is called of which nothing is known.
pub(crate) const NO_TITLE: Title = Title {
    id: 0,
    is_notice: false,
};

/// Returns what the message is called.
pub(crate) fn title_of(queued: &Queued) -> Title {
    match &queued.slot {
        Slot::Sent(message) => Title {
            id: message.envelope.id(),
            is_notice: false,
        },
        Slot::Told(notice) => Title {
            id: notice.id(),
            is_notice: true,
        },
    }
}
