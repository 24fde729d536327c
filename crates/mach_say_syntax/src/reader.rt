//! Reads the parts that statements have in common.
use crate::syntax::{NameIs, NamedRight, SaidName};
use mach_say_words::{
    Cause, Fault, Line, Variant, Vocabulary, Wanted, Word, find_disposition, find_right,
    find_variant, is_reserved,
};
use mach_types::{Disposition, Right};
use std::alloc::Global;
use tracer_base::{TextFault, Words};

/// How many letters the longest word has.
const LONGEST: usize = 24;

/// What is left of a line, and its first fault.
///
/// Reading returns no errors. Behind a fault nothing is left of the line, so no more is read and no loop goes on: words are
/// empty then, numbers 0, and other parts any. Who reads a whole line looks for the fault at its end.
#[derive(Drop)]
pub(crate) struct Reader<'a> {
    pub(crate) alloc: Global,
    pub(crate) line: Line<'a>,
    fault: Option<Fault<'a>>,
}

impl<'a> Reader<'a> {
    /// Begins with the first word of a line.
    pub(crate) fn of(alloc: Global, text: &'a [u8]) -> Reader<'a> {
        Reader {
            alloc,
            line: Line::of(text),
            fault: None,
        }
    }

    /// Returns the first fault, if there was one.
    pub(crate) fn fault(&self) -> Option<Fault<'a>> {
        self.fault
    }

    /// Notes a fault, unless there was one before, and leaves nothing of the line.
    pub(crate) fn fail(&mut self, fault: Fault<'a>) {
        if self.fault.is_none() {
            self.fault = Some(fault);
        }
        self.line = Line::of(&[]);
    }

    /// Notes that the word stands where something else is wanted.
    pub(crate) fn fail_instead(&mut self, word: &Word<'a>, wanted: Wanted) {
        self.fail(Fault::At(word.column, Cause::Instead(word.text, wanted)));
    }

    /// Notes that the word isn't in the list.
    pub(crate) fn fail_unknown(&mut self, word: &Word<'a>, vocabulary: Vocabulary) {
        self.fail(Fault::At(word.column, Cause::Unknown(word.text, vocabulary)));
    }

    /// Notes why a text of a script was not read: out of memory, or for this cause.
    pub(crate) fn fail_text(&mut self, fault: TextFault, text: &Word<'a>, cause: Cause<'a>) {
        self.fail(match fault {
            TextFault::OutOfMemory => Fault::OutOfMemory,
            TextFault::Bad => Fault::At(text.column, cause),
        });
    }

    /// Appends what was read. Behind a fault nothing is appended.
    pub(crate) fn push<T: Drop>(&mut self, all: &mut Vec<T>, read: T) {
        if self.fault.is_none() && all.push(read).is_err() {
            self.fail(Fault::OutOfMemory);
        }
    }

    /// Reads the next word. `wanted` says for a fault what it is to be.
    pub(crate) fn wanted(&mut self, wanted: Wanted) -> Word<'a> {
        match self.line.next() {
            Some(word) => word,
            None => {
                let column = self.line.column();
                self.fail(Fault::At(column, Cause::Ends(wanted)));
                Word { text: &[], column }
            }
        }
    }

    /// Reads the next word. `thing` says for a fault what it is to be.
    pub(crate) fn word(&mut self, thing: &'static str) -> Word<'a> {
        self.wanted(Wanted::Thing(thing))
    }

    /// Reads the next word, which is to be this one.
    pub(crate) fn expect(&mut self, known: &'static str) {
        let word = self.wanted(Wanted::Word(known));
        if word.text != known.as_bytes() {
            self.fail_instead(&word, Wanted::Word(known));
        }
    }

    /// Whether the next word is this one.
    pub(crate) fn is_at(&self, known: &str) -> bool {
        match self.line.peek() {
            Some(word) => word.text == known.as_bytes(),
            None => false,
        }
    }

    /// Reads the next word if it is this one, and returns whether it is.
    pub(crate) fn take(&mut self, known: &str) -> bool {
        let is_there = self.is_at(known);
        if is_there {
            let _ = self.line.next();
        }
        is_there
    }

    /// Whether a word is left before `=>`.
    pub(crate) fn has_more(&self) -> bool {
        match self.line.peek() {
            Some(word) => word.text != b"=>".as_slice(),
            None => false,
        }
    }

    /// Reads the end of the line.
    pub(crate) fn end(&mut self) {
        if let Some(word) = self.line.next() {
            self.fail(Fault::At(word.column, Cause::Behind(word.text)));
        }
    }

    /// Reads a word that is to name something.
    pub(crate) fn new_word(&mut self, thing: &'static str) -> Word<'a> {
        let word = self.word(thing);
        self.check_word(&word);
        word
    }

    /// Notes a fault if the word can't name anything.
    fn check_word(&mut self, word: &Word<'a>) {
        if let Some(cause) = cause_against(word.text) {
            self.fail(Fault::At(word.column, cause));
        }
    }

    /// Reads a number of 32 bits.
    pub(crate) fn number(&mut self) -> u32 {
        let word = self.word(NUMBER);
        match number_of(word.text) {
            Some(number) => number,
            None => {
                self.fail_instead(&word, Wanted::Thing(NUMBER));
                0
            }
        }
    }

    /// Reads a number of 32 bits with a sign.
    pub(crate) fn delta(&mut self) -> i32 {
        let word = self.word(NUMBER);
        match delta_of(word.text) {
            Some(number) => number,
            None => {
                self.fail_instead(&word, Wanted::Thing(NUMBER));
                0
            }
        }
    }

    /// Reads a name of a task: a word, a number or `null`.
    pub(crate) fn name(&mut self) -> SaidName<'a> {
        let word = self.word("a name");
        let is = name_is(word.text);
        if let NameIs::Word = is {
            self.check_word(&word);
        }
        SaidName { word, is }
    }

    /// Reads a disposition and a name.
    pub(crate) fn named_right(&mut self) -> NamedRight<'a> {
        let disposition = self.disposition();
        let name = self.name();
        NamedRight { disposition, name }
    }

    /// Reads the word of a disposition.
    fn disposition(&mut self) -> Disposition {
        let word = self.word("a disposition");
        match find_disposition(word.text) {
            Some(disposition) => disposition,
            None => {
                self.fail_unknown(&word, Vocabulary::Disposition);
                Disposition::MoveReceive
            }
        }
    }

    /// Reads the word of a right.
    pub(crate) fn right(&mut self) -> Right {
        let word = self.word("a right");
        match find_right(word.text) {
            Some(right) => right,
            None => {
                self.fail_unknown(&word, Vocabulary::Right);
                Right::Send
            }
        }
    }

    /// Reads the word of a notice that can be asked for.
    pub(crate) fn variant(&mut self) -> Variant {
        let word = self.word("a notice");
        match find_variant(word.text) {
            Some(variant) => variant,
            None => {
                self.fail_unknown(&word, Vocabulary::Variant);
                Variant::DeadName
            }
        }
    }
}

/// What a number is called.
const NUMBER: &str = "a number";

/// Returns what the text is as a name.
fn name_is(text: &[u8]) -> NameIs {
    if text == b"null".as_slice() {
        return NameIs::Number(0);
    }
    match number_of(text) {
        Some(number) => NameIs::Number(number),
        None => NameIs::Word,
    }
}

/// Returns why the text can't name anything; `None` if it can.
fn cause_against(text: &[u8]) -> Option<Cause<'_>> {
    let is_word = match text {
        [first, rest @ ..] => first.is_ascii_alphabetic() && are_letters(rest),
        [] => false,
    };
    if !is_word {
        return Some(Cause::NoWord(text));
    }
    if text.len() > LONGEST {
        return Some(Cause::TooLong(text));
    }
    if is_reserved(text) {
        return Some(Cause::Reserved(text));
    }
    None
}

/// Whether all bytes may stand in a word.
fn are_letters(text: &[u8]) -> bool {
    for byte in text {
        if !byte.is_ascii_alphanumeric() && *byte != b'-' && *byte != b'_' {
            return false;
        }
    }
    true
}

/// Returns the number of 32 bits that the text is.
fn number_of(text: &[u8]) -> Option<u32> {
    let mut words = Words::of(text);
    let Ok(number) = words.number() else {
        return None;
    };
    if words.end().is_err() {
        return None;
    }
    Some(number)
}

/// Returns the number of 32 bits with a sign that the text is.
fn delta_of(text: &[u8]) -> Option<i32> {
    let mut words = Words::of(text);
    let Ok(number) = words.delta() else {
        return None;
    };
    if words.end().is_err() {
        return None;
    }
    Some(number)
}
