//! Bad lines of histories.
use crate::fault::Fault;
use crate::numbers::word_fault;
use crate::script::{arguments_fault, count_words, first_word};
use crate::shape::shape_fault;
use crate::tables::{call_arguments, line_arguments, near_call, near_reply, reply_arguments};
use memchr::memmem;
use tracer_base::{Words, split_once};

/// Finds the fault of a history's line that `tracer::first_line` refused. The line isn't the heading, and has its line
/// feed, if there is one. Linear in the line; takes no memory.
pub fn history_fault(line: &[u8]) -> Fault<'_> {
    match line {
        [text @ .., b'\n'] => text_fault(text),
        _ => match text_fault(line) {
            Fault::Other => Fault::NoLineFeed,
            fault => fault,
        },
    }
}

/// Finds the fault of a line without its line feed.
fn text_fault(text: &[u8]) -> Fault<'_> {
    if let Some(fault) = shape_fault(text) {
        return fault;
    }
    let Some((call, reply)) = split_arrow(text) else {
        return Fault::NoArrow;
    };
    if split_arrow(reply).is_some() {
        return Fault::TwoArrows;
    }
    if let Some(fault) = call_fault(call) {
        return fault;
    }
    reply_fault(reply, count_words(call).saturating_add(2))
}

/// Splits the text at its first arrow.
fn split_arrow(text: &[u8]) -> Option<(&[u8], &[u8])> {
    let place = memmem::find(text, b" -> ")?;
    Some((text.get(..place)?, text.get(place.saturating_add(4)..)?))
}

/// Finds the first fault of the caller and its call.
fn call_fault(text: &[u8]) -> Option<Fault<'_>> {
    let Some((caller, call)) = split_once(text, b' ') else {
        return Some(Fault::CallWanted);
    };
    if let Some(fault) = word_fault("CALLER", caller, false) {
        return Some(Fault::Word(1, fault));
    }
    let word = first_word(call);
    match call_arguments(word) {
        Some(arguments) => arguments_fault(word, arguments, call, 2),
        None => Some(no_call(word)),
    }
}

/// Returns the fault of a word that is no call of a history.
fn no_call(word: &[u8]) -> Fault<'_> {
    if line_arguments(word).is_some() {
        return Fault::ScriptLine(word);
    }
    Fault::NoCall(2, word, near_call(word))
}

/// Finds the fault of the reply. `first` is the number of its first word in the line.
fn reply_fault(text: &[u8], first: usize) -> Fault<'_> {
    let word = first_word(text);
    match reply_arguments(word) {
        Some(arguments) => reply_words_fault(word, arguments, text, first).unwrap_or(Fault::Other),
        None if word == b"norecord".as_slice() => Fault::NoRecord(first),
        None => Fault::NoReply(first, word, near_reply(word)),
    }
}

/// Finds the first fault of the words of a reply that has these arguments.
fn reply_words_fault<'a>(
    word: &'a [u8],
    arguments: &'static str,
    text: &'a [u8],
    first: usize,
) -> Option<Fault<'a>> {
    match arguments.strip_suffix(" ..") {
        Some(argument) => list_fault(argument, text, first),
        None => arguments_fault(word, arguments, text, first),
    }
}

/// Finds the first fault of the words after the first, each of which is this argument.
fn list_fault<'a>(argument: &'static str, text: &'a [u8], first: usize) -> Option<Fault<'a>> {
    let mut words = Words::of(text);
    let _ = words.word();
    for place in 1..count_words(text) {
        let Ok(word) = words.word() else {
            return None;
        };
        if let Some(fault) = word_fault(argument, word, false) {
            return Some(Fault::Word(first.saturating_add(place), fault));
        }
    }
    None
}
