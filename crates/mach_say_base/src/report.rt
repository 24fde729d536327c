//! Faults of a storyboard in words.
use crate::list::List;
use crate::replies::write_answer;
use mach_lint::Nearest;
use mach_say_play::{Board, Play, PlayFault, Span, Stop};
use mach_say_syntax::Storyboard;
use mach_say_words::{
    Fault as LineFault, Line, Word, find_field, value_of, write_cause as write_line_cause,
};
use mach_types::{Reply, TaskId};
use mach_words::{Text, write_code};
use tracer_base::split_once;

/// A file with a storyboard.
#[derive(Clone, Copy)]
pub struct File<'a> {
    /// Its name.
    pub name: &'a str,
    /// Its text.
    pub text: &'a [u8],
}

/// Writes the fault of a statement, as a line: the file's name, the line's number, the column, and why. A fault of memory
/// is the line `out of memory`. After a refusal all calls are made once more, to find its cause.
pub fn write_stop(
    play: &Play,
    storyboard: &Storyboard<'_>,
    file: &File<'_>,
    stop: &Stop,
    out: &mut Text,
) {
    let line = line_at(file.text, stop.line);
    match &stop.fault {
        PlayFault::OutOfMemory => out.words("out of memory"),
        PlayFault::Line => write_line_fault(storyboard, file.name, out),
        PlayFault::ExpectedField(place) => {
            let (word, expected) = field_in(line, *place);
            write_place(file.name, stop.line, word.column, out);
            write_field(play, word.text, expected, out);
        }
        fault => {
            let span = span_of(fault);
            write_place(file.name, stop.line, span.column, out);
            write_fault(play, line, word_at(line, span), fault, out);
        }
    }
    out.words("\n");
}

/// Returns the place of the word that the fault is about.
fn span_of(fault: &PlayFault) -> Span {
    match fault {
        PlayFault::NoActor(span)
        | PlayFault::NoTask(span)
        | PlayFault::NoMessage(span)
        | PlayFault::NoName(span, _)
        | PlayFault::Taken(span)
        | PlayFault::SameId(span, _, _)
        | PlayFault::Waits(span, _)
        | PlayFault::WaitsForNothing(span)
        | PlayFault::NoBytes(span, _)
        | PlayFault::Expected(span) => *span,
        _ => Span {
            column: 1,
            length: 0,
        },
    }
}

/// Writes where a fault is.
fn write_place(name: &str, line: u64, column: usize, out: &mut Text) {
    out.words(name);
    out.words(": line ");
    out.number(line);
    out.words(", column ");
    out.number(column as u64);
    out.words(": ");
}

/// Writes why a line is no statement.
fn write_line_fault(storyboard: &Storyboard<'_>, name: &str, out: &mut Text) {
    match &storyboard.fault {
        Some((line, LineFault::At(column, cause))) => {
            write_place(name, *line, *column, out);
            write_line_cause(cause, out);
        }
        _ => out.words("out of memory"),
    }
}

/// Returns the bytes of the line at this place.
fn word_at(line: &[u8], span: Span) -> &[u8] {
    let start = span.column.saturating_sub(1);
    let end = start.saturating_add(span.length);
    line.get(start..end).unwrap_or(&[])
}

/// Returns the line of this number, from 1.
fn line_at(text: &[u8], line: u64) -> &[u8] {
    let mut rest = text;
    for _ in 1..line {
        match split_once(rest, b'\n') {
            Some((_, behind)) => rest = behind,
            None => return &[],
        }
    }
    match split_once(rest, b'\n') {
        Some((first, _)) => first,
        None => rest,
    }
}

/// Returns what is left of the line behind its `=>`; nothing if there is none.
fn behind_arrow(text: &[u8]) -> Line<'_> {
    let mut line = Line::of(text);
    for _ in 0..text.len() {
        match line.next() {
            Some(word) if word.text == b"=>".as_slice() => return line,
            Some(_) => {}
            None => break,
        }
    }
    line
}

/// Returns the field of this number, from 0, that the line says, and what it says of it.
fn field_in(text: &[u8], place: usize) -> (Word<'_>, &[u8]) {
    let mut line = behind_arrow(text);
    for _ in 0..place {
        let _ = line.next();
        let _ = line.next();
    }
    match line.next() {
        Some(word) => {
            let _ = line.next();
            (word, line.since(&word))
        }
        None => (
            Word {
                text: &[],
                column: 1,
            },
            &[],
        ),
    }
}

/// Writes that a field of a status isn't what is said.
fn write_field(play: &Play, field: &[u8], expected: &[u8], out: &mut Text) {
    out.words("expected ");
    out.plain(expected);
    out.words(", answered ");
    if let (Some(field), Some(Reply::Status(status))) = (find_field(field), last_reply(play)) {
        out.words(field.word());
        out.around(" ", value_of(status, field), "");
    }
}

/// Returns the last reply.
fn last_reply(play: &Play) -> Option<&Reply> {
    Some(&play.stage.entries().last()?.reply)
}

/// Writes the fault, which is about this word of the line.
fn write_fault(play: &Play, line: &[u8], word: &[u8], fault: &PlayFault, out: &mut Text) {
    match fault {
        PlayFault::Expected(_) => write_expected(play, line, out),
        PlayFault::NoActor(_) => write_no_actor(&play.board, word, out),
        PlayFault::NoTask(_) => write_no_task(play, word, out),
        PlayFault::NoMessage(_) => write_no_message(play, line, word, out),
        PlayFault::NoName(_, task) => write_no_name(play, *task, word, out),
        _ => write_short(line, word, fault, out),
    }
}

/// Writes a fault that needs nothing but its line.
fn write_short(line: &[u8], word: &[u8], fault: &PlayFault, out: &mut Text) {
    match fault {
        PlayFault::LateProfile => {
            out.words("'profile' is the first statement, or there is none");
        }
        PlayFault::Taken(_) => {
            out.quoted(word);
            out.words(" has a meaning already");
        }
        PlayFault::SameId(_, id, other) => {
            out.words("the message ");
            out.quoted(other.text());
            out.around(" has the id ", *id, " already");
        }
        PlayFault::NoBytes(_, code) => {
            out.words("no message has these parts: ");
            write_code(*code, true, out);
            out.words("; write it as 'raw send'");
        }
        PlayFault::Waits(_, since) => {
            write_who(line, out);
            out.words(" waits since line ");
            out.number(*since);
            out.words("; only 'wake' can follow");
        }
        PlayFault::WaitsForNothing(_) => {
            write_who(line, out);
            out.words(" waits for nothing: a receive that is to wait says '=> waits'");
        }
        _ => {}
    }
}

/// Writes who makes the call of the line.
fn write_who(text: &[u8], out: &mut Text) {
    let mut line = Line::of(text);
    if let Some(who) = line.next() {
        out.plain(who.text);
    }
}

/// Writes that no statement begins with the word, and which task or thread may be meant.
fn write_no_actor(board: &Board, word: &[u8], out: &mut Text) {
    out.quoted(word);
    out.words(" is no task, no thread, and no 'task', 'thread', 'message' or 'profile'");
    let mut nearest = Nearest::to(word);
    for actor in board.actors.as_slice() {
        nearest.consider(actor.word.text(), actor.word);
    }
    if let Some(near) = nearest.found() {
        out.words("; did you mean ");
        out.quoted(near.text());
        out.words("?");
    }
}

/// Writes that no task has the word, and which there are.
fn write_no_task(play: &Play, word: &[u8], out: &mut Text) {
    let mut tasks = List::new(play.alloc);
    for actor in play.board.actors.as_slice() {
        if actor.caller == 0 {
            tasks.add(&actor.word);
        }
    }
    out.quoted(word);
    out.words(" is no task");
    tasks.write("; tasks are: ", word, out);
}

/// Writes that no message has the word, and which there are. Behind `=>` other words may stand, too.
fn write_no_message(play: &Play, line: &[u8], word: &[u8], out: &mut Text) {
    let mut messages = List::new(play.alloc);
    for message in play.board.messages.as_slice() {
        messages.add(&message.word);
    }
    out.quoted(word);
    out.words(" is no message");
    messages.write("; messages are: ", word, out);
    if behind_arrow(line).before_arrow().text.starts_with(word) {
        out.words("; or 'waits', 'empty', 'notice'");
    }
}

/// Writes that the task has no such name, and which it has.
fn write_no_name(play: &Play, task: TaskId, word: &[u8], out: &mut Text) {
    let mut names = List::new(play.alloc);
    for bound in play.board.names.as_slice() {
        if bound.task == task {
            names.add(&bound.word);
        }
    }
    if let Some(task) = play.board.task_word(task) {
        out.plain(task.text());
    }
    out.words(" has no name ");
    out.quoted(word);
    names.write("; it has: ", word, out);
}

/// Writes what the last call was to answer, and what it answered.
fn write_expected(play: &Play, line: &[u8], out: &mut Text) {
    let said = behind_arrow(line).before_arrow();
    if said.text.is_empty() && matches!(last_reply(play), Some(Reply::Empty(_))) {
        out.words("expected a message, but none is there; write '=> waits' or '=> empty'");
        return;
    }
    out.words("expected ");
    if said.text.is_empty() {
        out.words("success");
    } else {
        out.plain(said.text);
    }
    out.words(", answered ");
    if let Some(entry) = play.stage.entries().last() {
        write_answer(play, entry, out);
    }
}
