//! What became of messages, in words.
use crate::effects::{Effects, Lost};
use crate::ends::{End, Ends};
use crate::fates::Fates;
use crate::origin::{Come, Origin, Sender};
use kernel_lock::Entry;
use mach_types::{Event, PortId, Reply, TaskId};
use mach_words::{Labels, Text, notice_word};
use std::collections::LinkedList;

/// The ids of notices, in the order in which an entry lists them.
const NOTICES: &[u32] = &[72, 70, 65, 69, 71];

/// Writes the lines of what the entry's step did. They say what became of the message that it sent, and where the message
/// that it received came from. Then come the ports that died, the messages that were destroyed, the notices, and the queues
/// that went along with a receive right. `ends` is what became of messages, as far as that is known. Linear in the effects
/// and in the queues that went along.
pub fn write_fates(
    fates: &Fates,
    ends: Option<&Ends>,
    labels: &Labels,
    (number, entry): (u64, &Entry),
    out: &mut Text,
) {
    let below = Below {
        labels,
        ends,
        number,
    };
    let effects = fates.effects();
    if matches!(&entry.event, Event::Send(..)) {
        below.write_sent(effects, out);
    }
    if let Some(taken) = fates.taken() {
        below.write_taken(&taken, entry, out);
    }
    below.write_died(effects, out);
    for id in NOTICES {
        below.write_notices(effects, *id, out);
    }
    for port in effects.carried.as_slice() {
        below.write_carried(fates, *port, out);
    }
}

/// The lines below an entry, with what they are written by.
#[derive(Clone, Copy)]
struct Below<'a> {
    labels: &'a Labels,
    ends: Option<&'a Ends>,
    // The entry's number, with which each line begins.
    number: u64,
}

impl<'a> Below<'a> {
    /// Writes the line of what became of the message that was sent, if that is known.
    fn write_sent(&self, effects: &Effects, out: &mut Text) {
        let Some(ends) = self.ends else {
            return;
        };
        for come in effects.came.as_slice() {
            if !come.origin.is_notice {
                self.begin("-> queued at ", come.port, out);
                self.write_end(", ", ends.get(come.port, come.place), out);
                out.words("\n");
            }
        }
    }

    /// Writes the line of where the message came from that the step took.
    fn write_taken(&self, taken: &Lost, entry: &Entry, out: &mut Text) {
        if !matches!(&entry.reply, Reply::Message(_)) {
            self.write_lost(taken, out);
            return;
        }
        let origin = &taken.origin;
        out.line_below(self.number);
        out.words("<- ");
        if origin.is_notice {
            out.words("told by the kernel");
        } else {
            out.words("sent by ");
            self.write_caller(origin.sender, out);
        }
        out.words(" in entry ");
        out.number(origin.entry);
        out.words("\n");
    }

    /// Writes the lines of the ports that died, and of the messages that were destroyed with them.
    fn write_died(&self, effects: &Effects, out: &mut Text) {
        for port in effects.died.as_slice() {
            self.begin("* port ", port.number(), out);
            out.words(" dies\n");
        }
        for lost in effects.lost.as_slice() {
            self.write_lost(lost, out);
        }
    }

    /// Writes the line of a message that was destroyed.
    fn write_lost(&self, lost: &Lost, out: &mut Text) {
        out.line_below(self.number);
        out.words("* ");
        write_title(&lost.origin, self.labels, out);
        out.words(", queued at ");
        self.labels.write_port(PortId::new(lost.port), out);
        out.words(" since entry ");
        out.number(lost.origin.entry);
        out.words(", is destroyed\n");
    }

    /// Writes the lines of the notices of this id.
    fn write_notices(&self, effects: &Effects, id: u32, out: &mut Text) {
        for come in effects.came.as_slice() {
            if come.origin.is_notice && come.origin.id == id {
                self.write_notice(come, out);
            }
        }
    }

    /// Writes the line of a notice.
    fn write_notice(&self, come: &Come, out: &mut Text) {
        out.line_below(self.number);
        out.words("* notice ");
        write_title(&come.origin, self.labels, out);
        out.words(" to ");
        self.labels.write_port(PortId::new(come.port), out);
        if let Some(ends) = self.ends {
            self.write_end(": ", ends.get(come.port, come.place), out);
        }
        out.words("\n");
    }

    /// Writes the line of the queue that went along with its port's receive right, unless it is empty.
    fn write_carried(&self, fates: &Fates, port: PortId, out: &mut Text) {
        let Some(origins) = fates.origins(port) else {
            return;
        };
        if origins.is_empty() {
            return;
        }
        self.begin("* the queue of ", port.number(), out);
        out.words(" goes along: ");
        self.write_titles(origins, out);
        out.words("\n");
    }

    /// Writes what the messages of a queue are called.
    fn write_titles(&self, origins: &LinkedList<Origin>, out: &mut Text) {
        let mut is_first = true;
        for origin in origins.iter() {
            if !is_first {
                out.words(", ");
            }
            write_title(origin, self.labels, out);
            is_first = false;
        }
    }

    /// Begins a line with the words and the port.
    fn begin(&self, words: &str, port: u64, out: &mut Text) {
        out.line_below(self.number);
        out.words(words);
        self.labels.write_port(PortId::new(port), out);
    }

    /// Writes what became of a message, if it is known, with words before it.
    fn write_end(&self, before: &str, end: Option<End>, out: &mut Text) {
        let Some(end) = end else {
            return;
        };
        out.words(before);
        let entry = match end {
            End::Queued => {
                out.words("never received");
                return;
            }
            End::Received(entry, receiver) => {
                out.words("received by ");
                self.write_caller(receiver, out);
                entry
            }
            End::TooLong(entry) => {
                out.words("destroyed as too long");
                entry
            }
            End::Died(entry) => {
                out.words("destroyed with it");
                entry
            }
        };
        out.words(" in entry ");
        out.number(entry);
    }

    /// Writes who made a call.
    fn write_caller(&self, who: Sender, out: &mut Text) {
        self.labels
            .write_caller(who.caller, TaskId::new(who.task), out);
    }
}

/// Writes what a message is called: a notice's word, or the label of its id.
fn write_title(origin: &Origin, labels: &Labels, out: &mut Text) {
    match notice_word(origin.id) {
        Some(word) if origin.is_notice => out.words(word),
        _ => labels.write_id(origin.id, out),
    }
}
