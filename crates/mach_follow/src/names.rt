//! Names of tasks in words.
use crate::follower::Follower;
use crate::seen::{Seen, thing_of};
use mach_types::{Name, TaskId, Waited};
use mach_words::{Labels, Text};

/// The names of a task, with what they stand for and the labels of that.
#[derive(Clone, Copy)]
pub(crate) struct Names<'f, 'l> {
    pub(crate) follower: &'f Follower,
    pub(crate) labels: &'l Labels,
    pub(crate) task: TaskId,
}

impl<'f, 'l> Names<'f, 'l> {
    /// Writes the label of what the name stands for now, and the name: `service(1)`. A dead name is `dead(1)`, and
    /// `MACH_PORT_NULL` is `null`. A name that the task doesn't have is `?(5)`.
    pub(crate) fn write(&self, name: Name, out: &mut Text) {
        self.write_thing(name, out);
        match name.number() {
            0 => {}
            0xffff_ffff => out.words("(DEAD)"),
            number => out.around("(", number, ")"),
        }
    }

    /// Writes the label of what the name stands for now.
    pub(crate) fn write_thing(&self, name: Name, out: &mut Text) {
        match self.follower.look(self.task, name) {
            Seen::NoTask | Seen::Nothing => out.words("?"),
            Seen::Null => out.words("null"),
            Seen::Dead => out.words("dead"),
            Seen::Named(standing) => match thing_of(&standing) {
                Some(thing) => write_known_waited(self.labels, &thing, out),
                None => out.words("dead"),
            },
        }
    }
}

/// Writes the label of a port or set, and of a set that it is one.
pub(crate) fn write_waited(labels: &Labels, waited: &Waited, out: &mut Text) {
    if matches!(waited, Waited::Set(_)) {
        out.words("set ");
    }
    write_known_waited(labels, waited, out);
}

/// Writes the label of the port or set of a receive by identity.
pub(crate) fn write_known_waited(labels: &Labels, waited: &Waited, out: &mut Text) {
    match waited {
        Waited::Port(port) => labels.write_port(*port, out),
        Waited::Set(set) => labels.write_set(*set, out),
    }
}
