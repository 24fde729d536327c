//! Calls in words, in the state before they are made.
use crate::follower::Follower;
use crate::messages::describe_sent;
use crate::names::{Names, write_known_waited};
use mach_types::{Event, Name, TaskId};
use mach_words::{Labels, Text, notice_word, right_word, task_of, write_right_name};

/// What a call about a name says behind it.
#[derive(Clone, Copy)]
enum Rest {
    /// Words.
    Words(&'static str),
    /// Words and another name of the task.
    Name(&'static str, Name),
    /// Words and a number.
    Number(&'static str, u32),
}

/// A request for a notice, or its end.
#[derive(Clone, Copy)]
struct Request {
    name: Name,
    variant: u32,
    notify: Name,
}

/// Writes the call in words, as far as they are known before it is made. Call it before the entry is replayed. Linear in
/// a message that is sent.
pub fn describe_before(follower: &Follower, labels: &Labels, event: &Event, out: &mut Text) {
    let names = Names {
        follower,
        labels,
        task: task_of(event).unwrap_or(TaskId::new(0)),
    };
    match event {
        Event::TaskCreate => out.words("new task"),
        Event::TaskTerminate(_) => out.words("ends"),
        Event::Names(_) => out.words("names?"),
        Event::Allocate(_, right) | Event::AllocateName(_, right, _) => describe_made(*right, out),
        Event::Send(_, bytes) => describe_sent(&names, bytes.as_slice(), out),
        Event::ReceiveAgain(_, waited, _, _) => {
            out.words("receive on ");
            write_known_waited(labels, waited, out);
            out.words(", again");
        }
        Event::InsertRight(task, name, from, poly, given) => {
            let source = Names {
                follower,
                labels,
                task: *from,
            };
            describe_handed(&source, *given, *poly, out);
            out.words(" of ");
            labels.write_task(*from, out);
            out.words(" to ");
            labels.write_task(*task, out);
            out.around(", its name ", name.number(), "");
        }
        Event::ExtractRight(_, name, given, to) => {
            describe_handed(&names, *given, *name, out);
            out.words(" to ");
            labels.write_task(*to, out);
        }
        _ => describe_name_call(&names, event, out),
    }
}

/// Writes the right that is made.
fn describe_made(right: u32, out: &mut Text) {
    match right {
        1 => out.words("new port"),
        3 => out.words("new set"),
        4 => out.words("new dead name"),
        _ => out.around("new right ", right, ""),
    }
}

/// Writes the right that is handed on: its disposition and its name.
fn describe_handed(names: &Names<'_, '_>, given: u32, name: Name, out: &mut Text) {
    write_right_name(given, out);
    out.words(" ");
    names.write(name, out);
}

/// Writes a call about names.
fn describe_name_call(names: &Names<'_, '_>, event: &Event, out: &mut Text) {
    match event {
        Event::ModRefs(_, name, right, delta) => {
            write_references(*right, out);
            names.write(*name, out);
            out.words(" by ");
            out.signed("+", *delta);
        }
        Event::GetRefs(_, name, right) => {
            write_references(*right, out);
            names.write(*name, out);
            out.words("?");
        }
        Event::RequestNotification(_, name, variant, _, notify, _) => {
            let request = Request {
                name: *name,
                variant: *variant,
                notify: *notify,
            };
            describe_request(names, &request, out);
        }
        _ => describe_other(names, event, out),
    }
}

/// Writes that a call is about the references of the right of this number.
fn write_references(right: u32, out: &mut Text) {
    out.words("references ");
    out.words(right_word(right));
    if right > 4 {
        out.around(" ", right, "");
    }
    out.words(" ");
}

/// Writes a request for a notice, or its end.
fn describe_request(names: &Names<'_, '_>, request: &Request, out: &mut Text) {
    let is_end = request.notify.number() == 0;
    out.words(if is_end { "forget " } else { "tell " });
    match notice_word(request.variant) {
        Some(word) => out.words(word),
        None => out.around("notice ", request.variant, ""),
    }
    out.words(" of ");
    names.write(request.name, out);
    if !is_end {
        out.words(" at ");
        names.write(request.notify, out);
    }
}

/// Writes a call that is about a name, and perhaps another or a number.
fn describe_other(names: &Names<'_, '_>, event: &Event, out: &mut Text) {
    let Some((words, name, rest)) = parts_of(event) else {
        return;
    };
    out.words(words);
    names.write(name, out);
    match rest {
        Rest::Words(words) => out.words(words),
        Rest::Name(words, second) => {
            out.words(words);
            names.write(second, out);
        }
        Rest::Number(words, number) => out.around(words, number, ""),
    }
}

/// Returns the words of a call, its name, and what it says behind that.
fn parts_of(event: &Event) -> Option<(&'static str, Name, Rest)> {
    let (words, name, rest) = match event {
        Event::Deallocate(_, name) => ("drop ", name, Rest::Words("")),
        Event::Destroy(_, name) => ("destroy ", name, Rest::Words("")),
        Event::NameType(_, name) => ("type ", name, Rest::Words("?")),
        Event::ReceiveStatus(_, name) => ("status ", name, Rest::Words("?")),
        Event::SetStatus(_, name) => ("members ", name, Rest::Words("?")),
        Event::Receive(_, name, _, _) => ("receive on ", name, Rest::Words("")),
        Event::Rename(_, old, new) => ("rename ", old, Rest::Number(" to ", new.number())),
        Event::SetQlimit(_, name, number) => ("queue limit of ", name, Rest::Number(": ", *number)),
        Event::SetMscount(_, name, number) => {
            ("make-send count of ", name, Rest::Number(": ", *number))
        }
        Event::SetSeqno(_, name, number) => {
            ("sequence number of ", name, Rest::Number(": ", *number))
        }
        Event::MoveMember(_, member, set) => ("move ", member, rest_of_move(*set)),
        Event::InsertMember(_, member, set) => ("add ", member, Rest::Name(" to ", *set)),
        Event::ExtractMember(_, member, set) => ("remove ", member, Rest::Name(" from ", *set)),
        _ => return None,
    };
    Some((words, *name, rest))
}

/// Returns where a port is moved: into the set, or out of its set.
fn rest_of_move(set: Name) -> Rest {
    if set.number() == 0 {
        return Rest::Words(" out of its set");
    }
    Rest::Name(" into ", set)
}
