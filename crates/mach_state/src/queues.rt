//! Queues in words.
use crate::names::write_right_aligned;
use crate::words::State;
use copyin_base::{Carried, Mark, Queued};
use mach_fates::Origin;
use mach_types::{PortId, TaskId};
use mach_words::{Text, kind_word, notice_word};

/// The width of what a message is called.
const TITLES: usize = 12;

impl<'a> State<'a> {
    /// Writes the messages of a port's queue, each in a line. Linear in them and in their rights.
    pub(crate) fn write_queue(&self, port: PortId, out: &mut Text) {
        let Some(queue) = self.follower.tables().queue(port) else {
            return;
        };
        let Some(origins) = self.fates.origins(port) else {
            return;
        };
        let mut origins = origins.iter();
        let mut place: u64 = 0;
        for queued in queue.iter() {
            if let Some(origin) = origins.next() {
                write_right_aligned(place, 7, out);
                self.write_message(queued, origin, out);
                place = place.saturating_add(1);
            }
        }
    }

    /// Writes what a message is called, where it came from, and its rights.
    fn write_message(&self, queued: &Queued, origin: &Origin, out: &mut Text) {
        out.words("  ");
        let end = out.len().saturating_add(TITLES);
        self.write_title(origin, out);
        out.fill(end);
        if origin.is_notice {
            out.words(" notice");
        } else {
            out.words(" from ");
            self.labels
                .write_caller(origin.sender.caller, TaskId::new(origin.sender.task), out);
        }
        out.words(" in entry ");
        out.number(origin.entry);
        self.write_rights(queued, out);
        out.words("\n");
    }

    /// Writes what a message is called.
    pub(crate) fn write_title(&self, origin: &Origin, out: &mut Text) {
        match notice_word(origin.id) {
            Some(word) if origin.is_notice => out.words(word),
            _ => self.labels.write_id(origin.id, out),
        }
    }

    /// Writes the reply right and the rights of the body.
    fn write_rights(&self, queued: &Queued, out: &mut Text) {
        if let Some(reply) = queued.reply() {
            out.words(", answer ");
            self.write_right(&reply, out);
        }
        for place in 0..queued.count_rights() {
            if let Some(right) = queued.right_at(place) {
                out.words(", with ");
                self.write_right(&right, out);
            }
        }
    }

    /// Writes a right of a message.
    fn write_right(&self, right: &Carried, out: &mut Text) {
        match right.mark {
            Mark::Null => out.words("null"),
            Mark::Dead => out.words("dead"),
            Mark::Port(port) => {
                out.words(kind_word(u32::from(right.given.kind_number())));
                out.words(" ");
                self.labels.write_port(port, out);
            }
        }
    }
}
