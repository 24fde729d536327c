//! Replies in the words of the notation.
use crate::teller::{Teller, acts_for};
use crate::words::Actor;
use kernel_lock::Entry;
use mach_types::{Event, Name, Reply, Status, TaskId, Waited};
use mach_words::{Text, write_code, write_type};

/// The bits of a name's type that have words.
const TYPE_BITS: u32 = 0x801f_0000;

impl Teller {
    /// Writes what the entry's call is to answer, and gives words to what it tells; `None` if the notation has no words for it.
    /// `behind` are the entries behind it.
    pub(crate) fn answer(
        &mut self,
        actor: &Actor,
        entry: &Entry,
        behind: &[Entry],
        line: &mut Text,
    ) -> Option<()> {
        self.table.set_waits(&actor.word, &None);
        match &entry.reply {
            Reply::Name(_) | Reply::Right(_, _) | Reply::Code(0) => Some(()),
            Reply::Message(bytes) => {
                line.words(" => ");
                self.received(actor.task, bytes.as_slice(), line)
            }
            Reply::Previous(name) => {
                self.previous(actor.task, *name, line);
                Some(())
            }
            Reply::Empty(waited) => {
                self.empty(actor, waited, behind, line);
                Some(())
            }
            reply => {
                line.words(" => ");
                self.plain_answer(actor.task, &entry.event, reply, line)
            }
        }
    }

    /// Writes the right that a request had.
    fn previous(&mut self, task: TaskId, name: Name, line: &mut Text) {
        line.words(" => previous ");
        match name.number() {
            0 => line.words("none"),
            _ => self.new_right(task, name, line),
        }
    }

    /// Writes that there is no message, or that the caller waits if its next call is to receive again.
    fn empty(&mut self, actor: &Actor, waited: &Waited, behind: &[Entry], line: &mut Text) {
        if receives_again(actor, waited, behind) {
            line.words(" => waits");
            self.table.set_waits(&actor.word, &Some(*waited));
        } else {
            line.words(" => empty");
        }
    }

    /// Writes an answer that tells of no new name.
    fn plain_answer(
        &self,
        task: TaskId,
        event: &Event,
        reply: &Reply,
        line: &mut Text,
    ) -> Option<()> {
        match reply {
            Reply::Code(code) => return write_refusal(*code, event, line),
            Reply::TooLarge(length) => line.around("too-large ", *length, ""),
            Reply::Refs(count) => line.around("", *count, ""),
            Reply::NameType(bits) if *bits != 0 && *bits & !TYPE_BITS == 0 => {
                write_type(*bits, line);
            }
            Reply::Names(names) => line.number(names.as_slice().len() as u64),
            Reply::Members(members) => self.members(task, members.as_slice(), line),
            Reply::Status(status) => self.status(task, status, line),
            _ => return None,
        }
        Some(())
    }

    /// Writes the names of members.
    fn members(&self, task: TaskId, members: &[Name], line: &mut Text) {
        if members.is_empty() {
            line.words("none");
        }
        let mut blank = "";
        for name in members {
            line.words(blank);
            self.name(task, *name, line);
            blank = " ";
        }
    }

    /// Writes all fields of a status.
    fn status(&self, task: TaskId, status: &Status, line: &mut Text) {
        line.words("set ");
        match status.set.number() {
            0 => line.words("none"),
            _ => self.name(task, status.set, line),
        }
        line.around(" seqno ", status.sequence, "");
        line.around(" make-send ", status.make_send, "");
        line.around(" limit ", status.limit, "");
        line.around(" queued ", status.queued, "");
        line.around(" send-once ", status.send_once, "");
        line.around(" senders ", status.has_send, "");
        line.around(" port-destroyed ", status.port_destroyed, "");
        line.around(" no-senders ", status.no_senders, "");
    }
}

/// Writes a code by its name; `None` if it has none.
fn write_refusal(code: u32, event: &Event, line: &mut Text) -> Option<()> {
    let is_message = matches!(
        event,
        Event::Send(..) | Event::Receive(..) | Event::ReceiveAgain(..)
    );
    let before = line.len();
    write_code(code, is_message, line);
    match line.whole() {
        Ok(text) if has_name(text, before) => Some(()),
        _ => None,
    }
}

/// Whether the text has the name of a code at this place, and no number.
fn has_name(text: &[u8], at: usize) -> bool {
    match text.get(at) {
        Some(first) => first.is_ascii_uppercase(),
        None => false,
    }
}

/// Whether the next call of the actor is to receive again what it waits for.
fn receives_again(actor: &Actor, waited: &Waited, behind: &[Entry]) -> bool {
    for entry in behind {
        if entry.caller == actor.caller && acts_for(&entry.event) == Some(actor.task) {
            return match &entry.event {
                Event::ReceiveAgain(_, again, _, _) => again == waited,
                _ => false,
            };
        }
    }
    false
}
