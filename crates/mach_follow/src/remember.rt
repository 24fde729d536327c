//! Keeps what names are that a call may remove.
ghost use Rattle.std.specs.Prelude.{◌≡◌};

use crate::follower::{Follower, Gone};
use crate::keys::{key_of, put};
use crate::seen::Seen;
use kernel_lock::Entry;
use mach_types::{Event, Name, Reply, TaskId};
use message_codec::{Received, ReceivedBody, ReceivedItem, ReceivedPorts, read_received};
use std::alloc::AllocError;

impl Follower {
    /// Keeps what the names are that the entry's call may remove. Linear in a message that is sent. Returns `AllocError` if
    /// out of memory; the follower is then of no further use.
    pub(crate) fn remember(&mut self, entry: &Entry) -> Result<(), AllocError>
        ensures { self.new.kernel ≡ self.old.kernel }
    {
        match (&entry.event, &entry.reply) {
            (Event::Send(task, bytes), Reply::Code(0)) => {
                self.remember_sent(*task, bytes.as_slice())
            }
            (Event::TaskTerminate(task), Reply::Code(0)) => {
                put(&mut self.ended, u64::from(task.number()), self.number)
            }
            (Event::RequestNotification(task, _, _, _, notify, _), Reply::Previous(_)) => {
                self.touch(*task, *notify)
            }
            (Event::InsertRight(_, _, task, name, _), Reply::Code(0))
            | (Event::ExtractRight(task, name, _, _), Reply::Right(..)) => self.touch(*task, *name),
            (event, Reply::Code(0)) => self.remember_own(event),
            _ => Ok(()),
        }
    }

    /// Keeps what the caller's name is that the call may remove.
    fn remember_own(&mut self, event: &Event) -> Result<(), AllocError>
        ensures { self.new.kernel ≡ self.old.kernel }
    {
        match event {
            Event::Deallocate(task, name)
            | Event::Destroy(task, name)
            | Event::ModRefs(task, name, _, _)
            | Event::Rename(task, name, _) => self.touch(*task, *name),
            _ => Ok(()),
        }
    }

    /// Keeps what the name is now.
    fn touch(&mut self, task: TaskId, name: Name) -> Result<(), AllocError>
        ensures { self.new.kernel ≡ self.old.kernel }
    {
        let Seen::Named(was) = self.look(task, name) else {
            return Ok(());
        };
        let gone = Gone {
            entry: self.number,
            was,
        };
        put(&mut self.gone, key_of(task, name), gone)
    }

    /// Keeps what the names of these bytes, a message, are.
    fn remember_sent(&mut self, task: TaskId, bytes: &[u8]) -> Result<(), AllocError>
        ensures { self.new.kernel ≡ self.old.kernel }
    {
        match read_received(bytes) {
            Some(message) => self.remember_message(task, &message),
            None => Ok(()),
        }
    }

    /// Keeps what the names of a message are.
    fn remember_message(&mut self, task: TaskId, message: &Received<'_>) -> Result<(), AllocError>
        ensures { self.new.kernel ≡ self.old.kernel }
    {
        self.touch(task, message.header.remote)?;
        self.touch(task, message.header.local)?;
        let ReceivedBody::Items(items) = &message.body else {
            return Ok(());
        };
        for item in *items {
            if let ReceivedItem::Ports(ports) = &item {
                self.remember_ports(task, ports)?;
            }
        }
        Ok(())
    }

    /// Keeps what the names of an item are.
    fn remember_ports(&mut self, task: TaskId, ports: &ReceivedPorts<'_>) -> Result<(), AllocError>
        ensures { self.new.kernel ≡ self.old.kernel }
    {
        for index in 0..ports.len() {
            if let Some(name) = ports.get(index) {
                self.touch(task, name)?;
            }
        }
        Ok(())
    }
}
