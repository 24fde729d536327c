//! Notes: what is suspicious about a line that is a call.
use mach_types::{Disposition, Event, TaskId};
use mach_words::{
    MessageFault, Phrase, Text, message_fault, task_of, word_at, write_message_fault,
};
use tracer_base::ScriptLine;

/// All options of a message call.
const OPTIONS: u32 = 1 + 2 + 16 + 256 + 2048;

/// How many tasks the lines of a script made so far.
#[derive(Clone, Copy)]
pub struct Made {
    tasks: u32,
    // Whether a block began. Blocks run at once, so then nobody knows what was made before a line.
    has_blocks: bool,
}

/// What is suspicious about a line that is a call. Words count from 1.
#[derive(Clone, Copy)]
pub enum Note {
    /// The task of the first number isn't made before the line; the second number of tasks is.
    NoTask(u32, u32),
    /// No call makes a right of this number.
    NotMade(u32),
    /// The word of the first number is the second number, which is no disposition.
    NoDisposition(u32, u32),
    /// The options have these bits, which no option has.
    Options(u32),
    /// The bytes are no message, for this fault.
    Message(MessageFault),
    /// The message's size word is the first number, and it has the second number of bytes.
    Size(u32, usize),
}

impl Made {
    /// No task was made. Takes no memory.
    pub fn new() -> Made {
        Made {
            tasks: 0,
            has_blocks: false,
        }
    }

    /// Whether no line so far makes the task.
    fn lacks(&self, task: TaskId) -> bool {
        !self.has_blocks && task.number() >= self.tasks
    }
}

/// Returns the first note on the line, if there is one, and counts the task that it makes in `made`. Linear in the line's
/// message; takes no memory.
pub fn script_note(said: &ScriptLine, made: &mut Made) -> Option<Note> {
    match said {
        ScriptLine::Thread(_) => {
            made.has_blocks = true;
            None
        }
        ScriptLine::Message(call) => {
            if made.lacks(call.task) {
                return Some(Note::NoTask(call.task.number(), made.tasks));
            }
            if call.options & !OPTIONS != 0 {
                return Some(Note::Options(call.options & !OPTIONS));
            }
            bytes_note(call.bytes.as_slice())
        }
        ScriptLine::Call(Event::TaskCreate) => {
            made.tasks = made.tasks.saturating_add(1);
            None
        }
        ScriptLine::Call(event) => event_note(event, made),
    }
}

/// Returns the first note on a call of the kernel.
fn event_note(event: &Event, made: &Made) -> Option<Note> {
    if let Some(task) = task_of(event) {
        if made.lacks(task) {
            return Some(Note::NoTask(task.number(), made.tasks));
        }
    }
    match event {
        Event::Allocate(_, right) | Event::AllocateName(_, right, _) => match *right {
            1 | 3 | 4 => None,
            number => Some(Note::NotMade(number)),
        },
        Event::InsertRight(_, _, _, _, number) => disposition_note(6, *number),
        Event::ExtractRight(_, _, number, _) => disposition_note(4, *number),
        Event::Send(_, bytes) => send_note(bytes.as_slice()),
        _ => None,
    }
}

/// Returns a note if the number, which is the word of this number, is no disposition.
fn disposition_note(word: u32, number: u32) -> Option<Note> {
    match Disposition::from_number(number) {
        Some(_) => None,
        None => Some(Note::NoDisposition(word, number)),
    }
}

/// Returns the note on the bytes of a message call, which may have none.
fn bytes_note(bytes: &[u8]) -> Option<Note> {
    if bytes.is_empty() {
        return None;
    }
    send_note(bytes)
}

/// Returns the note on the bytes of a message.
fn send_note(bytes: &[u8]) -> Option<Note> {
    if let Some(fault) = message_fault(bytes) {
        return Some(Note::Message(fault));
    }
    let size = word_at(bytes, 4)?;
    if size as usize == bytes.len() {
        return None;
    }
    Some(Note::Size(size, bytes.len()))
}

/// Writes the note in words, without a line feed. Constant time.
pub fn write_note(note: &Note, out: &mut Text) {
    match note {
        Note::Message(fault) => write_message_fault(*fault, out),
        _ => out.phrase(&note_phrase(note)),
    }
}

/// Returns the words for a note that is about numbers.
fn note_phrase(note: &Note) -> Phrase {
    match note {
        Note::NoTask(task, made) => no_task(*task, *made),
        Note::NotMade(right) => Phrase::one(
            "word 3: right ",
            u64::from(*right),
            " cannot be made: KERN_INVALID_VALUE; 1 is a port, 3 a set, 4 a dead name",
        ),
        Note::NoDisposition(word, number) => Phrase::two(
            "word ",
            u64::from(*word),
            ": ",
            u64::from(*number),
            " is no disposition; they are 16 to 21",
        ),
        Note::Options(options) => Phrase::one(
            "word 3: the option ",
            u64::from(*options),
            " is none of 1, 2, 16, 256, 2048",
        ),
        Note::Size(size, length) => Phrase::two(
            "the size word says ",
            u64::from(*size),
            ", the message has ",
            *length as u64,
            " bytes (nobody looks at it)",
        ),
        Note::Message(_) => Phrase::words(""),
    }
}

/// Returns the words for a task that isn't made before the line, where so many are.
fn no_task(task: u32, made: u32) -> Phrase {
    let number = u64::from(task);
    if made == 0 {
        return Phrase::one("task ", number, " is not made before this line; no task is");
    }
    Phrase::two(
        "task ",
        number,
        " is not made before this line; tasks are 0 to ",
        u64::from(made.saturating_sub(1)),
        "",
    )
}
