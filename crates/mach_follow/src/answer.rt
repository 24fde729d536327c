//! Replies in words.
use crate::follower::Follower;
use crate::messages::describe_received;
use crate::names::{Names, write_waited};
use kernel_lock::Entry;
use mach_types::{Event, Name, NameList, NameTypes, Reply, Status, TaskId};
use mach_words::{Labels, Text, kind_word, word_at, write_code, write_type};

/// Writes the call in words, with what only its reply says: the name that was made, or what was received. `told` is what
/// [`describe_before`](crate::describe_before) wrote. Call it after the entry was replayed. Linear in `told` and in the
/// message.
pub fn describe_after(
    follower: &Follower,
    labels: &Labels,
    entry: &Entry,
    told: &Text,
    out: &mut Text,
) {
    match (&entry.event, &entry.reply) {
        (
            Event::Receive(task, _, _, _) | Event::ReceiveAgain(task, _, _, _),
            Reply::Message(bytes),
        ) => describe_received(
            &Names {
                follower,
                labels,
                task: *task,
            },
            bytes.as_slice(),
            out,
        ),
        (Event::Allocate(task, _) | Event::AllocateName(task, _, _), Reply::Name(name)) => {
            let names = Names {
                follower,
                labels,
                task: *task,
            };
            out.text(told);
            out.words(" ");
            names.write(*name, out);
        }
        (Event::AllocateName(_, _, name), Reply::Code(_)) | (_, Reply::Right(name, _)) => {
            out.text(told);
            out.around(", its name ", name.number(), "");
        }
        _ => out.text(told),
    }
}

/// Writes a mark and the reply. The mark is `=` for done, `.` for no message, `!` for refused. `task` is the caller's. Call
/// it after the entry was replayed. Linear in the names or members of the reply.
pub fn write_answer(
    follower: &Follower,
    labels: &Labels,
    entry: &Entry,
    task: TaskId,
    out: &mut Text,
) {
    out.words(mark(&entry.reply));
    let names = Names {
        follower,
        labels,
        task,
    };
    match &entry.reply {
        Reply::Code(0) if is_send(&entry.event) => out.words("MACH_MSG_SUCCESS"),
        Reply::Code(code) => write_code(*code, is_message(&entry.event), out),
        Reply::Task(made) => labels.write_task(*made, out),
        Reply::Names(list) => write_names(&names, list, out),
        Reply::Members(members) => write_members(&names, members, out),
        Reply::Empty(waited) => {
            out.words("no message, waits for ");
            write_waited(labels, waited, out);
        }
        Reply::TooLarge(length) => {
            out.around("MACH_RCV_TOO_LARGE, ", *length, " bytes");
            out.words(if stays(&entry.event) {
                ""
            } else {
                ", destroyed"
            });
        }
        Reply::Status(status) => write_status(&names, status, out),
        reply => write_numbers(reply, out),
    }
}

/// Returns the mark before a reply.
fn mark(reply: &Reply) -> &'static str {
    match reply {
        Reply::Code(code) if *code != 0 => "! ",
        Reply::TooLarge(_) => "! ",
        Reply::Empty(_) => ". ",
        _ => "= ",
    }
}

/// Whether the call sends a message.
fn is_send(event: &Event) -> bool {
    matches!(event, Event::Send(..))
}

/// Whether the call sends or receives a message.
fn is_message(event: &Event) -> bool {
    matches!(
        event,
        Event::Send(..) | Event::Receive(..) | Event::ReceiveAgain(..)
    )
}

/// Whether a message that is too long for the call stays.
fn stays(event: &Event) -> bool {
    matches!(
        event,
        Event::Receive(_, _, _, true) | Event::ReceiveAgain(_, _, _, true)
    )
}

/// Writes a reply of numbers.
fn write_numbers(reply: &Reply, out: &mut Text) {
    match reply {
        Reply::Name(name) => out.number(u64::from(name.number())),
        Reply::Refs(count) => out.number(u64::from(*count)),
        Reply::NameType(bits) => write_type(*bits, out),
        Reply::Right(name, kind) => {
            out.around("", name.number(), ", ");
            out.words(kind_word(u32::from(*kind)));
        }
        Reply::Previous(name) => write_previous(*name, out),
        Reply::Message(bytes) => write_sequence(bytes.as_slice(), out),
        _ => {}
    }
}

/// Writes the name of the right that an earlier request had.
fn write_previous(name: Name, out: &mut Text) {
    match name.number() {
        0 => out.words("no request before"),
        0xffff_ffff => out.words("request before: its port is dead"),
        number => out.around("request before: its right is ", number, " now"),
    }
}

/// Writes the sequence number of a received message.
fn write_sequence(bytes: &[u8], out: &mut Text) {
    if let Some(number) = word_at(bytes, 16) {
        out.around("sequence number ", number, "");
    }
}

/// Writes the names of a task, each with its kind.
fn write_names(names: &Names<'_, '_>, list: &NameTypes, out: &mut Text) {
    for (place, (name, bits)) in list.as_slice().iter().enumerate() {
        part(place, out);
        names.write(*name, out);
        out.words(" ");
        write_type(*bits, out);
    }
    end_list(list.as_slice().is_empty(), out);
}

/// Writes the members of a set.
fn write_members(names: &Names<'_, '_>, members: &NameList, out: &mut Text) {
    for (place, name) in members.as_slice().iter().enumerate() {
        part(place, out);
        names.write(*name, out);
    }
    end_list(members.as_slice().is_empty(), out);
}

/// Writes a comma before an item, unless it is the first.
fn part(place: usize, out: &mut Text) {
    if place != 0 {
        out.words(", ");
    }
}

/// Writes `none` behind a list that is empty.
fn end_list(is_empty: bool, out: &mut Text) {
    if is_empty {
        out.words("none");
    }
}

/// Writes the fields of a status that aren't 0, and the length of the queue.
fn write_status(names: &Names<'_, '_>, status: &Status, out: &mut Text) {
    if status.set.number() != 0 {
        out.words("set ");
        names.write(status.set, out);
        out.words(", ");
    }
    write_counts(status, out);
}

/// Writes the counts of a status, of which only the length of the queue is written if it is 0.
fn write_counts(status: &Status, out: &mut Text) {
    write_count("seqno ", status.sequence, ", ", out);
    write_count("make-send ", status.make_send, ", ", out);
    write_count("limit ", status.limit, ", ", out);
    out.around("queued ", status.queued, "");
    write_rights(status, out);
}

/// Writes the rights and requests of a status that it has.
fn write_rights(status: &Status, out: &mut Text) {
    write_count(", send-once ", status.send_once, "", out);
    write_count(", senders ", status.has_send, "", out);
    write_count(", port-destroyed ", status.port_destroyed, "", out);
    write_count(", no-senders ", status.no_senders, "", out);
}

/// Writes a count between two texts, unless it is 0.
fn write_count(before: &str, count: u32, after: &str, out: &mut Text) {
    if count != 0 {
        out.around(before, count, after);
    }
}
