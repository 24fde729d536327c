//! The rows of a chart.
use kernel_lock::Entry;
use mach_types::{Event, Reply};

/// What a row shows.
#[derive(Clone, Copy, PartialEq, Eq)]
pub enum Mark {
    /// A task is made.
    Made,
    /// A call that is done.
    Called,
    /// A call that only looks.
    Looked,
    /// A call that is refused, or finds a message that is too long.
    Refused,
    /// A receive that finds no message.
    Empty,
    /// A task ends.
    Ended,
    /// A message is sent.
    Sent,
    /// A message is received.
    Received,
    /// A right is handed to another task.
    Handed,
    /// Why the call was refused.
    Why,
    /// A port dies.
    Died,
    /// Messages are destroyed with their ports.
    Lost,
    /// A notice is sent.
    Told,
    /// Queued messages go along with the receive right of their port.
    Moved,
}

/// A row of a chart.
#[derive(Clone, Copy)]
pub struct Row {
    /// The number of its entry.
    pub number: u64,
    /// What it shows.
    pub mark: Mark,
    /// The number of the task whose lifeline has the mark.
    pub task: u32,
    /// The number of the caller.
    pub caller: u64,
    /// The number of the task to which a right is handed.
    pub other: u32,
    /// A message's id, or the kind of a right that is handed on.
    pub id: u32,
    /// A message's number among all messages.
    pub serial: u64,
    /// A message's number among all messages that ever came to its port.
    pub place: u64,
    /// The identity of the port of a message or a right. There is none for a right whose port is dead.
    pub port: Option<u64>,
    /// Whether the message is a notice.
    pub is_notice: bool,
    /// Whether the caller waits from this row on.
    pub is_waiting: bool,
    /// How many bytes the comments have up to the reply in this row's.
    pub reply_start: usize,
    /// How many bytes the comments have up to the end of this row's.
    pub comment_end: usize,
}

impl Row {
    /// Returns a row of an entry with this mark, at the lifeline of a task and a caller.
    pub(crate) fn new(number: u64, mark: Mark, task: u32, caller: u64) -> Row {
        Row {
            number,
            mark,
            task,
            caller,
            other: task,
            id: 0,
            serial: 0,
            place: 0,
            port: None,
            is_notice: false,
            is_waiting: false,
            reply_start: 0,
            comment_end: 0,
        }
    }

    /// Whether it is the first row of its entry. Constant time.
    pub fn is_first(&self) -> bool {
        !matches!(
            self.mark,
            Mark::Why | Mark::Died | Mark::Lost | Mark::Told | Mark::Moved
        )
    }
}

/// Returns the mark of an entry's first row.
pub(crate) fn mark_of(entry: &Entry) -> Mark {
    match (&entry.event, &entry.reply) {
        (_, Reply::TooLarge(_)) => Mark::Refused,
        (_, Reply::Code(code)) if *code != 0 => Mark::Refused,
        (_, Reply::Message(_)) => Mark::Received,
        (_, Reply::Empty(_)) => Mark::Empty,
        (event, _) => mark_of_call(event),
    }
}

/// Returns the mark of a call that is done.
fn mark_of_call(event: &Event) -> Mark {
    match event {
        Event::TaskCreate => Mark::Made,
        Event::TaskTerminate(_) => Mark::Ended,
        Event::Send(..) => Mark::Sent,
        Event::InsertRight(..) | Event::ExtractRight(..) => Mark::Handed,
        Event::NameType(..)
        | Event::GetRefs(..)
        | Event::Names(_)
        | Event::ReceiveStatus(..)
        | Event::SetStatus(..) => Mark::Looked,
        _ => Mark::Called,
    }
}

/// Whether the entry only looks, and isn't refused. Constant time.
pub(crate) fn is_look(entry: &Entry) -> bool {
    mark_of(entry) == Mark::Looked
}
