//! Bad lines of scripts.
use crate::fault::Fault;
use crate::numbers::{whole_number, word_fault};
use crate::shape::shape_fault;
use crate::tables::{line_arguments, near_call};
use std::alloc::Global;
use text_reader::read_script_line;
use tracer_base::{MOST_THREADS, ScriptLine, TextFault, Words, split_once};

/// How many places there are for blocks: one more than the greatest number of a block.
const PLACES: usize = 65;

/// The lines of a script in which its blocks began.
#[derive(Clone, Copy)]
pub struct Blocks {
    lines: [u64; PLACES],
}

impl Blocks {
    /// No block began. Takes no memory.
    pub fn new() -> Blocks {
        Blocks { lines: [0; PLACES] }
    }

    /// Returns the line in which the block of this number began.
    fn line_of(&self, number: u32) -> Option<u64> {
        match self.lines.get(number as usize).copied() {
            Some(line) if line != 0 => Some(line),
            _ => None,
        }
    }

    /// Enters the line in which the block of this number begins.
    fn begin(&mut self, number: u32, line: u64) {
        if let Some(slot) = self.lines.get_mut(number as usize) {
            *slot = line;
        }
    }
}

/// Reads the line of this number, from 1, or finds its fault. The line has its line feed, if there is one. A block that
/// it begins is entered in `blocks`.
///
/// A line is bad exactly where `read_script_line` refuses it, where it has no line feed, or where its block began in an
/// earlier line. The outer error is `OutOfMemory`; `blocks` is then unchanged. Time and memory are linear in the line.
pub fn script_fault<'a>(
    alloc: Global,
    blocks: &mut Blocks,
    number: u64,
    line: &'a [u8],
) -> Result<Result<ScriptLine, Fault<'a>>, TextFault> {
    let [text @ .., b'\n'] = line else {
        return Ok(Err(unended_fault(line)));
    };
    match read_script_line(alloc, text) {
        Ok(ScriptLine::Thread(block)) => Ok(begin_block(blocks, block, number)),
        Ok(said) => Ok(Ok(said)),
        Err(TextFault::Bad) => Ok(Err(text_fault(text))),
        Err(TextFault::OutOfMemory) => Err(TextFault::OutOfMemory),
    }
}

/// Finds the fault of a last line that has no line feed.
fn unended_fault(line: &[u8]) -> Fault<'_> {
    match text_fault(line) {
        Fault::Other => Fault::NoLineFeed,
        fault => fault,
    }
}

/// Enters the block, unless it began in an earlier line.
fn begin_block<'a>(blocks: &mut Blocks, block: u32, number: u64) -> Result<ScriptLine, Fault<'a>> {
    if let Some(line) = blocks.line_of(block) {
        return Err(Fault::ThreadTwice(block, line));
    }
    blocks.begin(block, number);
    Ok(ScriptLine::Thread(block))
}

/// Finds the fault of a line without its line feed.
fn text_fault(text: &[u8]) -> Fault<'_> {
    if let Some(fault) = shape_fault(text) {
        return fault;
    }
    let call = first_word(text);
    let Some(arguments) = line_arguments(call) else {
        return Fault::NoCall(1, call, near_call(call));
    };
    if let Some(fault) = arguments_fault(call, arguments, text, 1) {
        return fault;
    }
    thread_fault(call, text)
}

/// Finds the fault of a block's number.
fn thread_fault<'a>(call: &[u8], text: &'a [u8]) -> Fault<'a> {
    if call != b"thread".as_slice() {
        return Fault::Other;
    }
    let number = match text.strip_prefix(b"thread ".as_slice()) {
        Some(word) => whole_number(word),
        None => None,
    };
    match number {
        Some(number) if number == 0 || number > u64::from(MOST_THREADS) => {
            Fault::ThreadNumber(number.min(u64::from(u32::MAX)) as u32)
        }
        _ => Fault::Other,
    }
}

/// Returns how many words the text has.
pub(crate) fn count_words(text: &[u8]) -> usize {
    if text.is_empty() {
        return 0;
    }
    let mut words: usize = 1;
    for byte in text {
        words = words.saturating_add(usize::from(*byte == b' '));
    }
    words
}

/// Returns the first word of the text.
pub(crate) fn first_word(text: &[u8]) -> &[u8] {
    match split_once(text, b' ') {
        Some((word, _)) => word,
        None => text,
    }
}

/// Finds the first fault of the arguments of a call or a reply. `call` is the first word of the text, and `first` is the
/// number of that word in its line.
pub(crate) fn arguments_fault<'a>(
    call: &'a [u8],
    arguments: &'static str,
    text: &'a [u8],
    first: usize,
) -> Option<Fault<'a>> {
    let has = count_words(text).saturating_sub(1);
    if has != count_words(arguments.as_bytes()) {
        return Some(Fault::Arguments(call, arguments, has));
    }
    let mut words = Words::of(text);
    let _ = words.word();
    let mut number = first;
    for argument in arguments.split(' ') {
        number = number.saturating_add(1);
        let Ok(word) = words.word() else {
            return None;
        };
        if let Some(fault) = word_fault(argument, word, call == b"msg".as_slice()) {
            return Some(Fault::Word(number, fault));
        }
    }
    None
}
