//! Causes in words.
use mach_causes_base::{Cause, Part, Reason, Wanted, counted};
use mach_follow::{Gone, Place, Standing};
use mach_types::{Name, PortId, TaskId, Waited};
use mach_words::{Labels, Phrase, Text, right_word, write_message_fault, write_right_name};

/// Writes the cause in words, without a line feed. Constant time.
pub fn write_cause(cause: &Cause, labels: &Labels, out: &mut Text) {
    match cause.part {
        Part::Call => {}
        Part::Destination => out.words("destination: "),
        Part::Answer => out.words("answer: "),
        Part::Word(number) => out.around("word ", number, " of the body: "),
        Part::Notify => out.words("notify right: "),
    }
    write_reason(&cause.reason, labels, out);
}

/// Writes the reason.
fn write_reason(reason: &Reason, labels: &Labels, out: &mut Text) {
    match reason {
        Reason::Absent(place, gone) => write_absent(place, gone, labels, out),
        Reason::Lacks(place, standing, wanted) => write_lacks(
            place, standing, *wanted, labels, out,
        ),
        Reason::Used(place, standing) => {
            labels.write_task(place.task, out);
            out.around(" uses the name ", place.name.number(), " already, for ");
            write_standing(standing, labels, out);
        }
        Reason::InNoSet(place, port) => {
            write_sight(*port, place.name, labels, out);
            out.words(" is in no set");
        }
        Reason::AlreadyIn(place, port, set) => {
            write_sight(*port, place.name, labels, out);
            out.words(" is in the set ");
            labels.write_set(*set, out);
            out.words(" already");
        }
        Reason::NotIn(place, port, set) => {
            write_sight(*port, place.name, labels, out);
            out.words(" isn't in the set ");
            labels.write_set(*set, out);
        }
        Reason::InSet(place, port, set) => {
            write_sight(*port, place.name, labels, out);
            out.words(" is in the set ");
            labels.write_set(*set, out);
            out.words(": receive by the set, or move it out");
        }
        Reason::NoTask(task, ended) => write_no_task(*task, *ended, labels, out),
        Reason::NamesFull(task) => {
            labels.write_task(*task, out);
            out.words(" has 65535 names, as many as there can be");
        }
        Reason::NamesShort(task, names) => {
            labels.write_task(*task, out);
            out.around(
                " has ",
                *names,
                " names, and can have 65535: too few are free for the rights of the message",
            )
        }
        Reason::Message(fault) => write_message_fault(*fault, out),
        _ => write_name_reason(reason, labels, out),
    }
}

/// Writes a reason that is about one name.
fn write_name_reason(reason: &Reason, labels: &Labels, out: &mut Text) {
    match reason {
        Reason::Dead(place) => {
            write_name(place, labels, out);
            out.words(" is dead");
        }
        Reason::DeadUnasked(place) => {
            write_name(place, labels, out);
            out.words(" is dead: a notice of that takes a SYNC and a NOTIFY other than 0");
        }
        Reason::TakenBefore(place, standing) => {
            out.words("an earlier part of the call takes the right of ");
            write_name(place, labels, out);
            out.words(", ");
            write_standing(standing, labels, out);
        }
        Reason::References(place, _) => {
            write_name(place, labels, out);
            out.words(" has 65535 references, as many as it can have");
        }
        Reason::Change(place, standing, delta) => {
            write_name(place, labels, out);
            out.around(" has ", counted(standing), " references, and a change by ");
            out.signed("", *delta);
            out.words(" leaves no number from 0 to 65535");
        }
        Reason::Elsewhere(place, port) => {
            labels.write_task(place.task, out);
            out.words(" has ");
            labels.write_port(*port, out);
            out.around(" under the name ", place.name.number(), "");
        }
        _ => write_queue_reason(reason, labels, out),
    }
}

/// Writes a reason that is about a queue, or about what a receive by identity names.
fn write_queue_reason(reason: &Reason, labels: &Labels, out: &mut Text) {
    match reason {
        Reason::OwnDestination(_, port) => {
            out.words("the message carries the receive right of ");
            labels.write_port(*port, out);
            out.words(", its own destination: nobody could ever receive it");
        }
        Reason::Loop(_, carried, destination) => write_loop(*carried, *destination, labels, out),
        Reason::Full(port, queued, limit) => write_full(*port, (*queued, *limit), labels, out),
        Reason::Died(waited, was_made) => {
            write_waited(waited, labels, out);
            out.words(if *was_made {
                " is gone"
            } else {
                " was never made"
            });
        }
        Reason::Member(port, set) => {
            labels.write_port(*port, out);
            out.words(" is in the set ");
            labels.write_set(*set, out);
            out.words(": receive by the set, or move it out");
        }
        Reason::Changed(task, waited) => write_changed(*task, waited, labels, out),
        _ => write_limit_reason(reason, out),
    }
}

/// Writes why a task can't receive from what it waited for.
fn write_changed(task: TaskId, waited: &Waited, labels: &Labels, out: &mut Text) {
    labels.write_task(task, out);
    match waited {
        Waited::Port(port) => {
            out.words(" doesn't have the receive right of ");
            labels.write_port(*port, out);
        }
        Waited::Set(set) => {
            out.words(" doesn't have the set ");
            labels.write_set(*set, out);
        }
    }
}

/// Writes the loop of queues that a message would close.
fn write_loop(carried: PortId, destination: PortId, labels: &Labels, out: &mut Text) {
    out.words("the message carries the receive right of ");
    labels.write_port(carried, out);
    out.words(
        ", in whose queue, or in that of a port that is carried there, the receive right of ",
    );
    labels.write_port(destination, out);
    out.words(" lies, its destination: nobody could ever receive it");
}

/// Writes a reason that is about a limit of the kernel, or about a number of the call.
fn write_limit_reason(reason: &Reason, out: &mut Text) {
    match reason {
        Reason::NoName(name) => write_no_name(*name, out),
        Reason::NoReferences(delta) => {
            out.words("a right without references changes by 0 or -1, and ");
            out.signed("", *delta);
            out.words(" was asked for");
        }
        _ => out.phrase(&number_phrase(reason)),
    }
}

/// Returns the words for a reason that is about numbers, or about nothing of the call.
fn number_phrase(reason: &Reason) -> Phrase {
    let (before, number, after) = match reason {
        Reason::RightsFull(rights, more) => {
            return Phrase::two(
                "there are ",
                u64::from(*rights),
                " rights, and ",
                u64::from(*more),
                " more would be above 4294967295",
            );
        }
        Reason::NotMade(number) => {
            (
                "right ",
                number,
                " cannot be made; 1 is a port, 3 a set, 4 a dead name",
            )
        }
        Reason::NoRight(number) => ("", number, " is no right; they are 0 to 4"),
        Reason::Limit(number) => ("the limit ", number, " is above 16"),
        Reason::NoDisposition(number) => ("", number, " is no disposition; they are 16 to 21"),
        Reason::NoVariant(number) => (
            "no notice ",
            number,
            " can be requested; 69 is port-destroyed, 70 no-senders, 72 dead-name",
        ),
        Reason::PaysBy(number) => (
            "the notify right has the disposition ",
            number,
            "; it must be 18, MOVE_SEND_ONCE, or 21, MAKE_SEND_ONCE",
        ),
        Reason::Sync(number) => ("SYNC is ", number, "; with 69 it must be 0"),
        _ => return Phrase::words(limit_words(reason)),
    };
    Phrase::one(before, u64::from(*number), after)
}

/// Returns the words for a reason that is about a limit of the kernel.
fn limit_words(reason: &Reason) -> &'static str {
    match reason {
        Reason::TasksFull => "65536 tasks were made, as many as there can be",
        Reason::Memory => "out of memory",
        Reason::NoBuffer => { "out of memory, or the message makes more than 4294967295 rights" }
        Reason::OneSet => {
            "a port is in at most one set here, so this call is always refused; use 'move'"
        }
        _ => "",
    }
}

/// Writes that a task doesn't live.
fn write_no_task(task: TaskId, ended: Option<u64>, labels: &Labels, out: &mut Text) {
    match ended {
        Some(entry) => {
            out.words("task ");
            labels.write_task(task, out);
            out.phrase(&Phrase::one(" ended in entry ", entry, ""));
        }
        None => out.around("no task ", task.number(), " was made"),
    }
}

/// Writes that a number is no name.
fn write_no_name(name: Name, out: &mut Text) {
    match name.number() {
        0 => out.words("0 (MACH_PORT_NULL) is no name"),
        number => out.around("", number, " (MACH_PORT_DEAD) is no name"),
    }
}

/// Writes that a task has no such name, and what the name was before.
fn write_absent(place: &Place, gone: &Option<Gone>, labels: &Labels, out: &mut Text) {
    labels.write_task(place.task, out);
    out.around(" has no name ", place.name.number(), "");
    match gone {
        Some(gone) => {
            out.phrase(&Phrase::one(" since entry ", gone.entry, "; it was "));
            write_standing(&gone.was, labels, out);
        }
        None => out.words(", and never had"),
    }
}

/// Writes what a call needs of a name, and what the name is.
fn write_lacks(
    place: &Place,
    standing: &Standing,
    wanted: Wanted,
    labels: &Labels,
    out: &mut Text,
) {
    write_wanted(wanted, out);
    out.words(", and ");
    write_name(place, labels, out);
    out.words(" is ");
    write_standing(standing, labels, out);
}

/// Writes what a call needs of a name.
fn write_wanted(wanted: Wanted, out: &mut Text) {
    match wanted {
        Wanted::Disposition(number) => {
            write_right_name(number, out);
            out.words(match number {
                16 | 20 | 21 => " takes a receive right",
                18 => " takes a send-once right",
                _ => " takes a send right",
            });
        }
        Wanted::Receive => out.words("a receive right is wanted"),
        Wanted::ReceiveOrSet => out.words("a receive right or a set is wanted"),
        Wanted::Set => out.words("a set is wanted"),
        Wanted::Right(number) => {
            out.words("a ");
            out.words(right_word(number));
            out.words(if number <= 2 {
                " right is wanted"
            } else {
                " is wanted"
            });
        }
        Wanted::Deallocated => {
            out.words("a send right, a send-once right or a dead name is wanted");
        }
        Wanted::Mortal => out.words("a right for a port, or a dead name, is wanted"),
    }
}

/// Writes a task's name, as `client's name 3`.
fn write_name(place: &Place, labels: &Labels, out: &mut Text) {
    labels.write_task(place.task, out);
    out.around("'s name ", place.name.number(), "");
}

/// Writes what a name is.
fn write_standing(standing: &Standing, labels: &Labels, out: &mut Text) {
    let (words, port) = match standing {
        Standing::Send(port, _) => ("a send right for ", port),
        Standing::Receive(port) => ("a receive right for ", port),
        Standing::ReceiveAndSend(port, _) => ("a receive right and send rights for ", port),
        Standing::SendOnce(port) => ("a send-once right for ", port),
        Standing::Set(set) => {
            out.words("the set ");
            return labels.write_set(*set, out);
        }
        Standing::DeadName(_) => return out.words("a dead name"),
    };
    out.words(words);
    labels.write_port(*port, out);
}

/// Writes the label of a port, and the name for it.
fn write_sight(port: PortId, name: Name, labels: &Labels, out: &mut Text) {
    labels.write_port(port, out);
    out.around("(", name.number(), ")");
}

/// Writes that a port's queue is full: how many messages it has, and its limit.
fn write_full(port: PortId, counts: (u32, u32), labels: &Labels, out: &mut Text) {
    let (queued, limit) = counts;
    out.words("the queue of ");
    labels.write_port(port, out);
    out.around(" has ", queued, " messages");
    out.around(", and its limit is ", limit, "");
}

/// Writes the port or set that a receive by identity names.
fn write_waited(waited: &Waited, labels: &Labels, out: &mut Text) {
    match waited {
        Waited::Port(port) => write_port(*port, labels, out),
        Waited::Set(set) => {
            out.words("the set ");
            labels.write_set(*set, out);
        }
    }
}

/// Writes a port, and that it is one.
fn write_port(port: PortId, labels: &Labels, out: &mut Text) {
    out.words("the port ");
    labels.write_port(port, out);
}
