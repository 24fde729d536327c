//! Why a line is no statement.
use crate::vocabulary::{Vocabulary, nearest_joining};
use mach_words::Text;
use std::alloc::{AllocError, AllocFailed};

/// What is wanted at a place of a line.
#[derive(Clone, Copy)]
pub enum Wanted {
    /// Something that is called so.
    Thing(&'static str),
    /// This word.
    Word(&'static str),
}

/// Why a line is no statement.
#[derive(Clone, Copy)]
pub enum Cause<'a> {
    /// The line ends where this is wanted.
    Ends(Wanted),
    /// The word stands where this is wanted.
    Instead(&'a [u8], Wanted),
    /// The word isn't in the list.
    Unknown(&'a [u8], Vocabulary),
    /// The word stands behind the end of the statement.
    Behind(&'a [u8]),
    /// The word belongs to the notation, and names nothing.
    Reserved(&'a [u8]),
    /// The word can't name anything: it has another byte than letters, digits, `-` and `_`, or doesn't begin with a letter.
    NoWord(&'a [u8]),
    /// The word is longer than 24 letters.
    TooLong(&'a [u8]),
    /// The text in quotes doesn't end.
    NoQuote,
    /// The text in quotes has a byte that isn't printable ASCII, or a `\` that is no escape.
    NoText(&'a [u8]),
    /// What stands behind `raw` is no call of a script.
    NoCall(&'a [u8]),
    /// What stands behind `raw .. =>` is no reply.
    NoReply(&'a [u8]),
    /// The call answers nothing of this kind.
    NoAnswer(&'a [u8]),
    /// No kernel has this profile.
    NoProfile(&'a [u8]),
}

/// Why a text was not read.
#[derive(Clone, Copy)]
pub enum Fault<'a> {
    /// The line isn't a statement. The number is the column of the fault, from 1.
    At(usize, Cause<'a>),
    /// Out of memory.
    OutOfMemory,
}

impl<'a> From<AllocError> for Fault<'a> {
    fn from(_error: AllocError) -> Fault<'a> {
        Fault::OutOfMemory
    }
}

impl<'a, T: Drop> From<AllocFailed<T>> for Fault<'a> {
    fn from(_error: AllocFailed<T>) -> Fault<'a> {
        Fault::OutOfMemory
    }
}

/// Writes the cause in words. Linear in the word.
pub fn write_cause(cause: &Cause<'_>, out: &mut Text) {
    match cause {
        Cause::Ends(wanted) => {
            out.words("the line ends where ");
            write_wanted(*wanted, out);
        }
        Cause::Instead(word, wanted) => {
            out.quoted(word);
            out.words(" where ");
            write_wanted(*wanted, out);
        }
        Cause::Unknown(word, vocabulary) => write_unknown(word, *vocabulary, out),
        Cause::Behind(word) => {
            out.quoted(word);
            out.words(" behind the end of the statement");
            write_nearest(nearest_joining(word), out);
        }
        Cause::NoQuote => out.words("the text has no closing quote"),
        _ => write_about(cause, out),
    }
}

/// Writes a cause that is about one word.
fn write_about(cause: &Cause<'_>, out: &mut Text) {
    let (word, about) = match cause {
        Cause::Reserved(word) => (word, " is a word of the notation, and names nothing"),
        Cause::NoWord(word) => (
            word,
            " is no word; a word has letters, digits, '-' and '_', and begins with a letter",
        ),
        Cause::TooLong(word) => (word, " is too long; a word has at most 24 letters"),
        Cause::NoText(word) => (
            word,
            " has a byte that a text can't have; write it as \\xHH, a quote as \\\", a backslash as \\\\",
        ),
        Cause::NoCall(word) => (word, " is no call of a script; 'mach_show lint' says why"),
        Cause::NoReply(word) => (word, " is no reply"),
        Cause::NoAnswer(word) => (word, " is nothing that this call answers"),
        Cause::NoProfile(word) => (word, " is no profile of a kernel; profiles are 1, 2 and 3"),
        _ => return,
    };
    out.quoted(word);
    out.words(about);
}

/// Writes what is wanted.
fn write_wanted(wanted: Wanted, out: &mut Text) {
    match wanted {
        Wanted::Thing(thing) => out.words(thing),
        Wanted::Word(word) => out.quoted(word.as_bytes()),
    }
    out.words(" is wanted");
}

/// Writes that the word isn't in the list: with the nearest word of it, or with all of them if none is near.
fn write_unknown(word: &[u8], vocabulary: Vocabulary, out: &mut Text) {
    out.quoted(word);
    out.words(" is no ");
    out.words(vocabulary.noun());
    match vocabulary.nearest(word) {
        Some(near) => write_nearest(Some(near), out),
        None => {
            out.words("; one of: ");
            vocabulary.write_words(out);
        }
    }
}

/// Writes which word may be meant, if one is near.
fn write_nearest(near: Option<&'static str>, out: &mut Text) {
    if let Some(near) = near {
        out.words("; did you mean ");
        out.quoted(near.as_bytes());
        out.words("?");
    }
}
