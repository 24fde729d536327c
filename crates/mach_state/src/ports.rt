//! Ports in words.
use crate::carried::Carriers;
use crate::states::{PortState, port_state, receiver_name};
use crate::words::State;
use mach_types::{PortId, TaskId};
use mach_words::Text;
use port::Holder;
use std::alloc::AllocError;

/// The column of who has the receive right.
const HOLDERS: usize = 16;
/// The column of the queue.
const QUEUES: usize = 51;

impl<'a> State<'a> {
    /// Writes all live ports with their queues. Linear in the ports ever made, in the queues and in the rights of their
    /// messages.
    pub(crate) fn write_ports(&self, carriers: &Carriers, out: &mut Text) {
        for number in 0..self.ports_made() {
            let port = PortId::new(number);
            if let Some(state) = port_state(self.follower.tables(), port) {
                self.write_port(port, &state, carriers, out);
                self.write_queue(port, out);
                self.write_requests(&state, out);
            }
        }
    }

    /// Writes the ports that died, each with its entry.
    pub(crate) fn write_deaths(&self, out: &mut Text) {
        for (port, entry) in self.deaths.as_slice() {
            self.begin_port(*port, out);
            out.words(" dead since entry ");
            out.number(*entry);
            out.words("\n");
        }
    }

    /// Notes the receive rights that queued messages carry.
    pub(crate) fn note_carriers(&self, carriers: &mut Carriers) -> Result<(), AllocError> {
        for number in 0..self.ports_made() {
            carriers.note_queue(self.follower.tables(), self.fates, PortId::new(number))?;
        }
        Ok(())
    }

    /// Returns how many ports were ever made.
    fn ports_made(&self) -> u64 {
        let tables = self.follower.tables();
        if tables.are_ports_exhausted() {
            return u64::MAX;
        }
        tables.next_port().number()
    }

    /// Writes a port, and spaces up to a column.
    fn begin_port(&self, port: PortId, out: &mut Text) {
        let start = out.len();
        out.words("port ");
        self.labels.write_port(port, out);
        out.fill(start.saturating_add(HOLDERS).saturating_sub(1));
    }

    /// Writes a port's line.
    fn write_port(&self, port: PortId, state: &PortState, carriers: &Carriers, out: &mut Text) {
        let start = out.len();
        self.begin_port(port, out);
        out.words(" ");
        self.write_holder(port, state, carriers, out);
        out.fill(start.saturating_add(QUEUES).saturating_sub(1));
        out.words(" queue ");
        out.number(state.queued as u64);
        out.around("/", state.limit, "");
        out.around("  make-send ", state.make_send, "");
        out.around("  next ", state.sequence, "");
        out.words("  send rights ");
        out.number(state.send_rights);
        out.words("  once ");
        out.number(state.once_rights);
        self.write_sets(port, out);
        out.words("\n");
    }

    /// Writes the sets that a port is in. Linear in them.
    fn write_sets(&self, port: PortId, out: &mut Text) {
        let Some(mut sets) = self.follower.tables().sets_of(port) else {
            return;
        };
        if let Some(first) = sets.next_set() {
            out.words("  in set ");
            self.labels.write_set(first, out);
        }
        while let Some(set) = sets.next_set() {
            out.words(", set ");
            self.labels.write_set(set, out);
        }
    }

    /// Writes who has a port's receive right.
    fn write_holder(&self, port: PortId, state: &PortState, carriers: &Carriers, out: &mut Text) {
        match state.holder {
            Holder::Task(task) => self.write_receiver(port, task, out),
            Holder::QueueOf(queue) => {
                out.words("in message ");
                if let Some(origin) = carriers.get(port) {
                    self.write_title(&origin, out);
                }
                out.words(", queued at ");
                self.labels.write_port(queue, out);
            }
            _ => out.words("nobody"),
        }
    }

    /// Writes the task that has a port's receive right, and its name for it.
    fn write_receiver(&self, port: PortId, task: TaskId, out: &mut Text) {
        out.words("receiver ");
        self.labels.write_task(task, out);
        if let Some(name) = receiver_name(self.follower.tables(), task, port) {
            out.around("(", name.number(), ")");
        }
    }

    /// Writes the requests of a port, each in a line.
    fn write_requests(&self, state: &PortState, out: &mut Text) {
        self.write_request("no-senders", state.no_senders, out);
        self.write_request("port-destroyed", state.port_destroyed, out);
    }

    /// Writes a port's request, if there is one.
    fn write_request(&self, word: &str, notify: Option<PortId>, out: &mut Text) {
        if let Some(notify) = notify {
            out.words("         ");
            out.words(word);
            out.words(" -> ");
            self.write_notify(notify, out);
            out.words("\n");
        }
    }
}
