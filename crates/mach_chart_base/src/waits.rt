//! Which callers wait.
use kernel_lock::Entry;
use mach_types::{Event, MsgReturn, Reply, Waited};
use mach_words::task_of;
use number_map::NumberMap;
use std::alloc::{AllocError, Global};
use std::collections::BTreeMap;

/// A receive that found no message, or a send that found the queue full.
#[derive(Clone, Copy)]
pub(crate) struct Pending {
    /// Its row, if it has one.
    pub(crate) row: Option<usize>,
    /// What it waits for; `None` for a send.
    waited: Option<Waited>,
    /// The number of its caller.
    pub(crate) caller: u64,
}

/// For each caller and task the last call, if it is a receive that found no message or a send that found the queue full.
#[derive(Drop)]
pub(crate) struct Waits {
    alloc: Global,
    pending: NumberMap<Pending>,
    // The messages of those sends.
    messages: BTreeMap<u64, Vec<u8>>,
}

impl Waits {
    /// Has no caller. Takes no memory.
    pub(crate) fn new(alloc: Global) -> Waits {
        Waits {
            alloc,
            pending: NumberMap::new(alloc),
            messages: BTreeMap::new(alloc),
        }
    }

    /// Notes the entry, whose first row is this one, if it has one. Returns the row of the caller's last call on the task if
    /// that call waited until this entry: the entry tries the receive or the send again. Linear in a message that is sent.
    pub(crate) fn note(
        &mut self,
        entry: &Entry,
        row: Option<usize>,
    ) -> Result<Option<usize>, AllocError> {
        let Some(task) = task_of(&entry.event) else {
            return Ok(None);
        };
        let key = key_of(entry.caller, task.number());
        let before = self.pending.remove(key);
        let message = self.messages.remove(&key);
        if let Reply::Empty(waited) = &entry.reply {
            self.add(key, row, entry, Some(*waited))?;
        }
        if let Some(bytes) = full_send(entry) {
            self.add(key, row, entry, None)?;
            self.keep_message(key, bytes)?;
        }
        Ok(row_of(before, message, entry))
    }

    /// Notes that the entry's caller may wait from its row on.
    fn add(
        &mut self,
        key: u64,
        row: Option<usize>,
        entry: &Entry,
        waited: Option<Waited>,
    ) -> Result<(), AllocError> {
        self.pending.reserve(1)?;
        self.put(
            key,
            Pending {
                row,
                waited,
                caller: entry.caller,
            },
        );
        Ok(())
    }

    /// Keeps the message of a send.
    fn keep_message(&mut self, key: u64, bytes: &[u8]) -> Result<(), AllocError> {
        let mut message = Vec::new(self.alloc);
        message.extend_from_slice(bytes)?;
        match self.messages.insert(key, message) {
            Ok(_) => Ok(()),
            Err(_) => Err(AllocError),
        }
    }

    /// Puts a call under a key that has none. There is room for it.
    fn put(&mut self, key: u64, pending: Pending) {
        if self.pending.get(key).is_none() && self.pending.room() > 0 {
            self.pending.insert(key, pending);
        }
    }

    /// Returns the row of the caller's last call on the task, if the caller is a block and found no message, or the queue
    /// full.
    pub(crate) fn last(&self, caller: u64, task: u32) -> Option<usize> {
        let Some(pending) = self.pending.get(key_of(caller, task)) else {
            return None;
        };
        if pending.caller == 0 {
            return None;
        }
        pending.row
    }
}

/// Returns the bytes that the entry sends, if it found the queue full.
fn full_send(entry: &Entry) -> Option<&[u8]> {
    match (&entry.event, &entry.reply) {
        (Event::Send(_, bytes), Reply::Code(code)) if *code == MsgReturn::SendTimedOut.number() => {
            Some(bytes.as_slice())
        }
        _ => None,
    }
}

/// Returns the row of the call before, if the entry tries its receive or its send again. The message is that of a send.
fn row_of(before: Option<Pending>, message: Option<Vec<u8>>, entry: &Entry) -> Option<usize> {
    let pending = before?;
    if is_again(pending.waited, message, &entry.event) {
        pending.row
    } else {
        None
    }
}

/// Whether the call tries the receive again that waits for this, or the send of this message.
fn is_again(waiting: Option<Waited>, message: Option<Vec<u8>>, event: &Event) -> bool {
    match event {
        Event::ReceiveAgain(_, waited, _, _) => waiting == Some(*waited),
        Event::Send(_, bytes) => match message {
            Some(message) => bytes.as_slice() == message.as_slice(),
            None => false,
        },
        _ => false,
    }
}

/// Returns the key of a caller and a task. Two callers have one key only where a number is 2^46 or more.
fn key_of(caller: u64, task: u32) -> u64 {
    caller.wrapping_mul(0x4_0000).wrapping_add(u64::from(task))
}
