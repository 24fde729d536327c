//! Replies in the words of the notation.
use crate::labels::make_labels;
use kernel_lock::Entry;
use mach_causes::{explain, write_cause as write_reason};
use mach_causes_base::Cause;
use mach_follow::Follower;
use mach_say_play::{Board, Play};
use mach_say_words::{TOLD_AT, has_data, right_at};
use mach_types::{Event, Name, Reply, TaskId};
use mach_words::{Text, notice_word, task_of, word_at, write_code, write_type};
use message_codec::{Received, read_received};
use std::alloc::Global;

/// Writes the reply of the last call in the words of the notation, and the cause of a refusal.
pub(crate) fn write_answer(play: &Play, entry: &Entry, out: &mut Text) {
    let task = task_of(&entry.event).unwrap_or(TaskId::new(0));
    match &entry.reply {
        Reply::Code(code) => {
            write_code(*code, is_message(entry), out);
            if *code != 0 {
                write_why(play, entry, *code, out);
            }
        }
        Reply::TooLarge(length) => out.around("too-large ", *length, ""),
        Reply::NameType(bits) => write_type(*bits, out),
        Reply::Refs(count) => out.around("", *count, ""),
        Reply::Names(names) => out.number(names.as_slice().len() as u64),
        Reply::Members(members) => write_members(&play.board, task, members.as_slice(), out),
        Reply::Message(bytes) => match read_received(bytes.as_slice()) {
            Some(message) => {
                write_message(&play.board, task, &message, bytes.as_slice(), out);
            }
            None => out.reply(&entry.reply),
        },
        reply => out.reply(reply),
    }
}

/// Writes the names of members.
fn write_members(board: &Board, task: TaskId, members: &[Name], out: &mut Text) {
    let mut blank = "";
    for name in members {
        out.words(blank);
        write_name(board, task, *name, out);
        blank = " ";
    }
}

/// Writes a name of the task: its word, or its number if it has none.
fn write_name(board: &Board, task: TaskId, name: Name, out: &mut Text) {
    match board.word_of(task, name) {
        Some(word) => out.plain(word.text()),
        None => out.around("", name.number(), ""),
    }
}

/// Whether the call sends or receives.
fn is_message(entry: &Entry) -> bool {
    matches!(
        &entry.event,
        Event::Send(..) | Event::Receive(..) | Event::ReceiveAgain(..)
    )
}

/// Writes why the last call was refused with the code, if a cause is found. It owns the follower, and does nothing else: each
/// way out of a function drops what it owns, and the follower has all tables of a kernel.
fn write_why(play: &Play, entry: &Entry, code: u32, out: &mut Text) {
    let mut follower = Follower::new(play.alloc, play.stage.profile());
    write_why_by(&mut follower, play, entry, code, out);
}

/// The same, with a follower on which no call was made.
fn write_why_by(follower: &mut Follower, play: &Play, entry: &Entry, code: u32, out: &mut Text) {
    if !follow(follower, play.stage.entries()) {
        return;
    }
    if let Ok(Some(cause)) = explain(play.alloc, follower, &entry.event, code) {
        write_cause_of(&cause, &play.board, play.alloc, out);
    }
}

/// Writes the cause in the storyboard's words.
fn write_cause_of(cause: &Cause, board: &Board, alloc: Global, out: &mut Text) {
    if let Ok(labels) = make_labels(board, alloc) {
        out.words(": ");
        write_reason(cause, &labels, out);
    }
}

/// Repeats all calls but the last, and returns whether there was memory for it.
fn follow(follower: &mut Follower, entries: &[Entry]) -> bool {
    let Some((_, before)) = entries.split_last() else {
        return true;
    };
    for entry in before {
        if follower.replay(entry).is_err() {
            return false;
        }
    }
    true
}

/// Writes a message: its word, what a notice tells, from where it came, and its rights.
fn write_message(
    board: &Board,
    task: TaskId,
    message: &Received<'_>,
    bytes: &[u8],
    out: &mut Text,
) {
    match board.message_with(message.header.id) {
        Some(word) => write_word(board, word.text(), message, out),
        None => write_unknown(board, task, message.header.id, bytes, out),
    }
    out.words(" at ");
    write_name(board, task, message.header.local, out);
    if message.header.remote_kind != 0 {
        out.around(" answer ", message.header.remote.number(), "");
    }
    write_rights(message, out);
}

/// Writes the word of a message, and whether its data is another.
fn write_word(board: &Board, word: &[u8], message: &Received<'_>, out: &mut Text) {
    out.plain(word);
    match board.find_message(word) {
        Some(said) if !has_data(&message.body, said.bytes.as_slice()) => {
            out.words(" with other data");
        }
        _ => {}
    }
}

/// Writes a message without a word: a notice and what it tells, or the id.
fn write_unknown(board: &Board, task: TaskId, id: u32, bytes: &[u8], out: &mut Text) {
    let Some(notice) = notice_word(id) else {
        out.around("id ", id, "");
        return;
    };
    out.words("notice ");
    out.words(notice);
    match (id, word_at(bytes, TOLD_AT)) {
        (70, Some(told)) => out.around(" ", told, ""),
        (65 | 72, Some(told)) => {
            out.words(" ");
            write_name(board, task, Name::new(told), out);
        }
        _ => {}
    }
}

/// Writes the rights of a message's body.
fn write_rights(message: &Received<'_>, out: &mut Text) {
    for number in 0..65_536 {
        let Some(right) = right_at(&message.body, number) else {
            return;
        };
        out.words(" with ");
        out.words(received_word(right.kind));
        out.around(" ", right.name.number(), "");
    }
}

/// Returns the word for the kind of a received right.
fn received_word(number: u8) -> &'static str {
    match number {
        16 => "receive",
        17 => "send",
        _ => "send-once",
    }
}
