//! Faults of statements.
use crate::label::Label;
use mach_say_words::Word;
use mach_types::TaskId;
use std::alloc::{AllocError, AllocFailed};

/// Where a word stands in its line.
#[derive(Clone, Copy)]
pub struct Span {
    /// The column of its first byte, from 1.
    pub column: usize,
    /// How many bytes it has.
    pub length: usize,
}

/// Why a storyboard wasn't run to its end. The place is that of the word that the fault is about.
#[derive(Drop)]
pub enum PlayFault {
    /// The line is no statement; the storyboard says why.
    Line,
    /// `profile` stands behind another statement.
    LateProfile,
    /// No task and no thread has the word.
    NoActor(Span),
    /// No task has the word.
    NoTask(Span),
    /// No message has the word.
    NoMessage(Span),
    /// The word stands for no name of the task.
    NoName(Span, TaskId),
    /// The word has a meaning already.
    Taken(Span),
    /// The message with this other word has the id.
    SameId(Span, u32, Label),
    /// The caller waits since this line, so that it makes no other call.
    Waits(Span, u64),
    /// The caller waits for nothing.
    WaitsForNothing(Span),
    /// No message has these parts, for the code of this number.
    NoBytes(Span, u32),
    /// The reply isn't what is said.
    Expected(Span),
    /// The field of this number, from 0, of the status isn't what is said.
    ExpectedField(usize),
    /// Out of memory.
    OutOfMemory,
}

impl From<AllocError> for PlayFault {
    fn from(_error: AllocError) -> PlayFault {
        PlayFault::OutOfMemory
    }
}

impl<T: Drop> From<AllocFailed<T>> for PlayFault {
    fn from(_error: AllocFailed<T>) -> PlayFault {
        PlayFault::OutOfMemory
    }
}

/// Returns where the word stands.
pub(crate) fn span_of(word: &Word<'_>) -> Span {
    Span {
        column: word.column,
        length: word.text.len(),
    }
}
