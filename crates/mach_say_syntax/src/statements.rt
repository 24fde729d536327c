//! Reads statements.
use crate::answers::read_answer;
use crate::calls::read_call;
use crate::reader::Reader;
use crate::syntax::{Answer, Call, Said, SaidCall, SaidMessage, Statement};
use mach_say_words::{Cause, Fault, Vocabulary, Wanted, Word, bytes_of, find_call};
use mach_types::Profile;
use std::alloc::Global;
use tracer_base::split_once;

/// The statements of a text, up to its first fault.
pub struct Storyboard<'a> {
    /// The statements, in their order.
    pub statements: Vec<Said<'a>>,
    /// The number of the first line that isn't a statement, from 1, and its fault.
    pub fault: Option<(u64, Fault<'a>)>,
}

/// Drops the statements. It is written out, so that it is proved here alone, and not in each crate that drops a storyboard.
impl Drop for Storyboard<'_> {
    fn drop(self) {
        let Storyboard {
            statements: _,
            fault: _,
        } = self;
    }
}

/// Reads the statements of a text, up to the first line that is none. A last line may lack its line feed.
///
/// Time and memory are linear in the text.
pub fn read_storyboard(alloc: Global, text: &[u8]) -> Storyboard<'_> {
    let mut statements = Vec::new(alloc);
    let fault = add_lines(alloc, text, &mut statements);
    Storyboard { statements, fault }
}

/// Appends the statements of a text, up to the first line that is none. Returns its number and its fault.
fn add_lines<'a>(
    alloc: Global,
    text: &'a [u8],
    statements: &mut Vec<Said<'a>>,
) -> Option<(u64, Fault<'a>)> {
    let mut rest = text;
    for line in 1..u64::MAX {
        if rest.is_empty() {
            break;
        }
        let (first, behind) = split_once(rest, b'\n').unwrap_or((rest, &[]));
        if let Some(fault) = add_line(alloc, line, first, statements) {
            return Some((line, fault));
        }
        rest = behind;
    }
    None
}

/// Reads the line of this number, and appends its statement if it has one. Returns the line's fault if it has one.
fn add_line<'a>(
    alloc: Global,
    line: u64,
    text: &'a [u8],
    statements: &mut Vec<Said<'a>>,
) -> Option<Fault<'a>> {
    let mut reader = Reader::of(alloc, text);
    if let Some(first) = reader.line.next() {
        let statement = statement_of(&mut reader, first);
        reader.end();
        reader.push(statements, Said { line, statement });
    }
    reader.fault()
}

/// Reads the rest of a statement with this first word.
fn statement_of<'a>(reader: &mut Reader<'a>, first: Word<'a>) -> Statement<'a> {
    match first.text {
        b"task" => Statement::Tasks(tasks(reader)),
        b"thread" => thread(reader),
        b"message" => Statement::Message(message(reader)),
        b"profile" => Statement::Profile(profile(reader)),
        _ => Statement::Call(call(reader, first)),
    }
}

/// Reads `WORD { WORD }`.
fn tasks<'a>(reader: &mut Reader<'a>) -> Vec<Word<'a>> {
    let mut words = Vec::new(reader.alloc);
    for _ in 0..u32::MAX {
        let word = reader.new_word("a word for the task");
        reader.push(&mut words, word);
        if !reader.has_more() {
            break;
        }
    }
    words
}

/// Reads `WORD of TASK`.
fn thread<'a>(reader: &mut Reader<'a>) -> Statement<'a> {
    let word = reader.new_word("a word for the thread");
    reader.expect("of");
    let task = reader.word("a task");
    Statement::Thread(word, task)
}

/// Reads `WORD = id NUMBER [TEXT]`.
fn message<'a>(reader: &mut Reader<'a>) -> SaidMessage<'a> {
    let word = reader.new_word("a word for the message");
    reader.expect("=");
    reader.expect("id");
    let id = reader.number();
    let bytes = bytes(reader);
    SaidMessage { word, id, bytes }
}

/// Reads `[TEXT]`.
fn bytes(reader: &mut Reader<'_>) -> Vec<u8> {
    match reader.line.next() {
        Some(word) => text_of(reader, &word),
        None => Vec::new(reader.alloc),
    }
}

/// Returns the bytes of a text in quotes.
fn text_of<'a>(reader: &mut Reader<'a>, word: &Word<'a>) -> Vec<u8> {
    if word.text.first() != Some(&b'"') {
        reader.fail_instead(word, Wanted::Thing("a text in quotes"));
    }
    match bytes_of(reader.alloc, word) {
        Ok(bytes) => bytes,
        Err(fault) => {
            reader.fail(fault);
            Vec::new(reader.alloc)
        }
    }
}

/// Reads the number of a profile.
fn profile(reader: &mut Reader<'_>) -> Profile {
    let word = reader.word("a number");
    match word.text {
        b"1" => Profile::One,
        b"2" => Profile::Two,
        b"3" => Profile::Three,
        _ => {
            reader.fail(Fault::At(word.column, Cause::NoProfile(word.text)));
            Profile::One
        }
    }
}

/// Reads `: CALL [=> ANSWER]`.
fn call<'a>(reader: &mut Reader<'a>, who: Word<'a>) -> SaidCall<'a> {
    if !reader.take(":") {
        fail_without_colon(reader, &who);
    }
    let word = reader.word("a call");
    let call = read_call(reader, &word);
    let has_answer = reader.take("=>");
    let expected = expected(reader, has_answer);
    let answer = answer(reader, &call, has_answer);
    SaidCall {
        who,
        word,
        call,
        answer,
        expected,
    }
}

/// Returns the answer as it is written; `success` where none is.
fn expected<'a>(reader: &Reader<'a>, has_answer: bool) -> &'a [u8] {
    if !has_answer {
        return SUCCESS;
    }
    let mut line = reader.line;
    line.before_arrow().text
}

/// Reads what the call is to answer, if that is written.
fn answer<'a>(reader: &mut Reader<'a>, call: &Call<'a>, has_answer: bool) -> Answer<'a> {
    if has_answer {
        read_answer(reader, call)
    } else {
        Answer::Success
    }
}

/// Notes the fault of a statement with this first word and no `:` behind it. Where a call follows, the `:` is missing.
fn fail_without_colon<'a>(reader: &mut Reader<'a>, who: &Word<'a>) {
    match reader.line.peek() {
        Some(word) if find_call(word.text).is_some() => {
            reader.fail_instead(&word, Wanted::Word(":"));
        }
        _ => reader.fail_unknown(who, Vocabulary::Statement),
    }
}

/// What a call is to answer where nothing is said.
const SUCCESS: &[u8] = b"success";
