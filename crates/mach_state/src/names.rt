//! Tasks and their names in words.
use crate::states::{NameState, name_state};
use crate::words::State;
use mach_types::{Name, PortId, SetId, TaskId};
use mach_words::Text;
use name_space::Entry as Standing;
use std::alloc::AllocError;

/// The width of the word for what a name stands for.
const THINGS: usize = 8;
/// The column of a name's references.
const REFERENCES: usize = 33;
/// The column of a name's request.
const REQUESTS: usize = 39;

impl<'a> State<'a> {
    /// Writes all tasks that were ever made, with their names. Linear in them, and in the members of sets.
    pub(crate) fn write_tasks(&self, out: &mut Text) -> Result<(), AllocError> {
        for number in 0..self.follower.tables().tasks_made() {
            if let Ok(number) = u32::try_from(number) {
                self.write_task(TaskId::new(number), out)?;
            }
        }
        Ok(())
    }

    /// Writes a task and its names.
    fn write_task(&self, task: TaskId, out: &mut Text) -> Result<(), AllocError> {
        out.words("task ");
        self.labels.write_task(task, out);
        let Some(names) = self.follower.tables().find_space(task) else {
            self.write_end(task, out);
            return Ok(());
        };
        match names.len() {
            0 => out.words("  no names\n"),
            1 => out.words("  1 name\n"),
            count => {
                out.words("  ");
                out.number(count as u64);
                out.words(" names\n");
            }
        }
        self.write_names(task, out)
    }

    /// Writes in which entry the task ended.
    fn write_end(&self, task: TaskId, out: &mut Text) {
        out.words("  ended");
        if let Some(entry) = self.follower.end_of(task) {
            out.words(" in entry ");
            out.number(entry);
        }
        out.words("\n");
    }

    /// Writes the names of a live task, each in a line.
    fn write_names(&self, task: TaskId, out: &mut Text) -> Result<(), AllocError> {
        let Some(names) = self.follower.tables().find_space(task) else {
            return Ok(());
        };
        let list = names.names(self.alloc)?;
        for name in list.as_slice() {
            if let Some(state) = name_state(self.follower.tables(), task, *name) {
                self.write_name(*name, &state, out)?;
            }
        }
        Ok(())
    }

    /// Writes a name's line.
    fn write_name(&self, name: Name, state: &NameState, out: &mut Text) -> Result<(), AllocError> {
        let start = out.len();
        write_right_aligned(u64::from(name.number()), 7, out);
        out.words("  ");
        self.write_standing(&state.standing, out)?;
        if let Some(references) = references_of(&state.standing) {
            out.fill(start.saturating_add(REFERENCES));
            out.around(" x", references, "");
        }
        if let Some(notify) = state.notify {
            out.fill(start.saturating_add(REQUESTS));
            out.words(" dead-name -> ");
            self.write_notify(notify, out);
        }
        out.words("\n");
        Ok(())
    }

    /// Writes what a name stands for.
    fn write_standing(&self, standing: &Standing, out: &mut Text) -> Result<(), AllocError> {
        let end = out.len().saturating_add(THINGS);
        out.words(standing_word(standing));
        match standing {
            Standing::Set(set) => {
                out.fill(end);
                out.words(" ");
                self.write_set(*set, out)
            }
            _ => {
                if let Some(port) = standing.right_port() {
                    out.fill(end);
                    out.words(" ");
                    self.labels.write_port(port, out);
                }
                Ok(())
            }
        }
    }

    /// Writes a set and its members.
    fn write_set(&self, set: SetId, out: &mut Text) -> Result<(), AllocError> {
        self.labels.write_set(set, out);
        out.words(" = ");
        let members = self.follower.tables().members(set, self.alloc)?;
        for (place, port) in members.as_slice().iter().enumerate() {
            if place != 0 {
                out.words(", ");
            }
            self.labels.write_port(*port, out);
        }
        if members.as_slice().is_empty() {
            out.words("empty");
        }
        Ok(())
    }

    /// Writes a notify port, which may be dead.
    pub(crate) fn write_notify(&self, port: PortId, out: &mut Text) {
        if self.follower.tables().has_port(port) {
            self.labels.write_port(port, out);
        } else {
            out.words("dead");
        }
    }
}

/// Returns the word for what a name stands for.
fn standing_word(standing: &Standing) -> &'static str {
    match standing {
        Standing::Receive(_) => "receive",
        Standing::Send(..) => "send",
        Standing::ReceiveAndSend(..) => "receive+send",
        Standing::SendOnce(_) => "once",
        Standing::DeadName(_) => "dead",
        Standing::Set(_) => "set",
    }
}

/// Returns how many references a name has to its send rights or to its dead name, if it has such.
fn references_of(standing: &Standing) -> Option<u32> {
    match standing {
        Standing::Send(_, references)
        | Standing::ReceiveAndSend(_, references)
        | Standing::DeadName(references) => Some(references.count()),
        Standing::Receive(_) | Standing::SendOnce(_) | Standing::Set(_) => None,
    }
}

/// Writes a number to the right in a column of this width.
pub(crate) fn write_right_aligned(number: u64, width: usize, out: &mut Text) {
    let end = out
        .len()
        .saturating_add(width.saturating_sub(digits_of(number)));
    out.fill(end);
    out.number(number);
}

/// Returns how many digits the number has in decimal.
fn digits_of(number: u64) -> usize {
    let mut rest = number;
    let mut digits: usize = 1;
    for _ in 0..20 {
        if rest < 10 {
            break;
        }
        rest /= 10;
        digits = digits.saturating_add(1);
    }
    digits
}
