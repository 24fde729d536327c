//! The job `text`: shows histories entry by entry.

use crate::fault::Fault;
use crate::filter::Filter;
use crate::output::{Done, Output};
use crate::reading::{TOO_MANY, next_line};
use kernel_lock::Entry;
use mach_causes::{explain, write_cause};
use mach_fates::{Ends, Fates, write_fates};
use mach_follow::{
    Answered, Follower, Parts, describe_after, describe_before, is_answer_about, is_call_about,
    write_answer,
};
use mach_types::{Event, PortId, Profile, Reply, TaskId};
use mach_words::{Labels, Text, task_of};
use std::alloc::{AllocError, Global};
use std::io::{BufReader, Read, Write};
use tracer::{behind_heading, first_line};
use tracer_base::TextFault;

/// The column of the call.
const CALLS: usize = 13;
/// The column of the reply.
const ANSWERS: usize = 73;

/// What to show, and with which labels.
#[derive(Clone, Copy)]
pub struct Shown<'a, 'b> {
    /// The name of the file, for faults.
    pub name: &'a str,
    /// The allocator.
    pub alloc: Global,
    /// Which entries are shown.
    pub filter: Filter,
    /// The labels.
    pub labels: &'a Labels,
    /// What became of messages, if the history was read ahead.
    pub ends: Option<&'b Ends>,
}

/// Shows the history that the reader has. Each entry is written before the next is waited for.
///
/// Returns `Unseen` if no entry was shown. What was written before a fault stays. The faults are `NoHistory` for a first line
/// that is no heading, `BadLine` or `CutLine` for a line that is no entry, and `NotConfirmed` for an entry to which the kernel
/// replies otherwise. Others are those of the file, the output and memory. Takes the time and memory of a kernel that makes
/// the history's calls, and memory for names and queued messages.
pub fn show_history<'a, R: Read>(
    shown: &Shown<'a, '_>,
    reader: &mut BufReader<&mut R>,
    line: &mut Vec<u8>,
    out: &mut Output,
) -> Result<Done, Fault<'a>> {
    next_line(shown.name, reader, line, out)?;
    let Some((profile, _)) = behind_heading(line.as_slice()) else {
        return Err(Fault::NoHistory);
    };
    show_entries(shown, profile, reader, line, out)
}

/// Shows the entries of a history of this profile. It owns the teller, and does nothing else: each way out of a function
/// drops what it owns, and the teller has all tables of a kernel.
fn show_entries<'a, R: Read>(
    shown: &Shown<'a, '_>,
    profile: Profile,
    reader: &mut BufReader<&mut R>,
    line: &mut Vec<u8>,
    out: &mut Output,
) -> Result<Done, Fault<'a>> {
    let mut teller = Teller::new(shown, profile);
    show_all(&mut teller, reader, line, out)
}

/// Shows the entries that the reader has, one after another.
fn show_all<'a, R: Read>(
    teller: &mut Teller<'a, '_>,
    reader: &mut BufReader<&mut R>,
    line: &mut Vec<u8>,
    out: &mut Output,
) -> Result<Done, Fault<'a>> {
    let name = teller.shown.name;
    for number in 1..u64::MAX - 1 {
        if next_line(name, reader, line, out)? == 0 {
            return Ok(teller.end(number));
        }
        let is_confirmed = teller.tell(number, line.as_slice())?;
        out.write_all(teller.text.whole()?)?;
        if !is_confirmed {
            out.flush()?;
            return Err(Fault::NotConfirmed(number));
        }
    }
    Err(Fault::CannotRead(name, TOO_MANY))
}

/// An entry and its number, from 1.
#[derive(Clone, Copy)]
struct Numbered<'a> {
    number: u64,
    entry: &'a Entry,
}

/// Tells a history entry by entry.
#[derive(Drop)]
pub struct Teller<'a, 'b> {
    shown: Shown<'a, 'b>,
    follower: Follower,
    // Where queued messages came from.
    fates: Fates,
    // The call, before it is made.
    told: Text,
    // The entry's first line, and in the end the others too.
    text: Text,
    // The lines below the first.
    details: Text,
    // Whether an entry was shown.
    is_used: bool,
}

impl<'a, 'b> Teller<'a, 'b> {
    /// Stands at the beginning of a history of this profile. Takes no memory.
    pub fn new(shown: &Shown<'a, 'b>, profile: Profile) -> Teller<'a, 'b> {
        Teller {
            shown: *shown,
            follower: Follower::new(shown.alloc, profile),
            fates: Fates::new(shown.alloc),
            told: Text::new(shown.alloc),
            text: Text::new(shown.alloc),
            details: Text::new(shown.alloc),
            is_used: false,
        }
    }

    /// Returns how the history ended, where the next entry would have this number.
    fn end(&self, number: u64) -> Done {
        if self.is_used {
            return Done::Well;
        }
        Done::Unseen(number.saturating_sub(1))
    }

    /// Returns what is shown of the entry that was told last. Constant time.
    pub fn text(&self) -> &Text {
        &self.text
    }

    /// Makes the call of the entry of this number, whose line this is. Leaves in [`Teller::text`] what is shown of it. Returns
    /// whether the kernel's reply is that of the entry.
    ///
    /// Returns the fault of a line that is no entry, and `OutOfMemory`. Takes the time of the call.
    pub fn tell(&mut self, number: u64, line: &[u8]) -> Result<bool, Fault<'static>> {
        self.told.clear();
        self.text.clear();
        self.details.clear();
        match first_line(self.shown.alloc, line) {
            Ok((entry, _)) => {
                let numbered = Numbered {
                    number,
                    entry: &entry,
                };
                self.tell_entry(&numbered)
            }
            Err(TextFault::Bad) => Err(bad_line(number.saturating_add(1), line)),
            Err(TextFault::OutOfMemory) => Err(Fault::OutOfMemory),
        }
    }

    /// Makes the entry's call, and writes what is shown of the entry.
    fn tell_entry(&mut self, numbered: &Numbered<'_>) -> Result<bool, Fault<'static>> {
        let may_show = self.shown.filter.shows(numbered.number, numbered.entry);
        let is_shown = may_show && self.begin(numbered)?;
        if let Answered::Otherwise(reply) = self.replay(numbered)? {
            write_who(self.shown.labels, numbered, &mut self.text);
            self.text.text(&self.told);
            write_replies(numbered, &reply, &mut self.text);
            return Ok(false);
        }
        if may_show && (is_shown || self.is_answer_shown(numbered.entry)) {
            self.write_after(numbered);
        }
        Ok(true)
    }

    /// Makes the entry's call, and follows its messages.
    fn replay(&mut self, numbered: &Numbered<'_>) -> Result<Answered, AllocError> {
        let Numbered { number, entry } = *numbered;
        self.fates.replay(&mut self.follower, entry, number)
    }

    /// Writes what is known before the entry's call is made, and returns whether the entry is shown for its call.
    fn begin(&mut self, numbered: &Numbered<'_>) -> Result<bool, Fault<'static>> {
        self.write_before(numbered)?;
        Ok(self.is_call_shown(numbered.entry))
    }

    /// Whether the entry is shown for its call, which isn't made yet: no port is asked for, or the call is about it.
    fn is_call_shown(&self, entry: &Entry) -> bool {
        match self.shown.filter.port {
            Some(port) => is_call_about(&self.follower, &entry.event, PortId::new(port)),
            None => true,
        }
    }

    /// Whether the entry is shown for its reply: no port is asked for, or the reply is about it.
    fn is_answer_shown(&self, entry: &Entry) -> bool {
        match self.shown.filter.port {
            Some(port) => is_answer_about(&self.follower, entry, PortId::new(port)),
            None => true,
        }
    }

    /// Writes what is known before the entry's call is made.
    fn write_before(&mut self, numbered: &Numbered<'_>) -> Result<(), Fault<'static>> {
        let Numbered { number, entry } = *numbered;
        describe_before(
            &self.follower,
            self.shown.labels,
            &entry.event,
            &mut self.told,
        );
        match (&entry.event, &entry.reply) {
            (Event::Send(task, bytes), Reply::Code(0)) => {
                self.write_parts(number, *task, false, bytes.as_slice());
                Ok(())
            }
            (_, Reply::Code(code)) if *code != 0 => self.write_why(numbered, *code),
            (event, Reply::TooLarge(length)) => {
                self.write_too_long(number, event, *length);
                Ok(())
            }
            _ => Ok(()),
        }
    }

    /// Writes the parts of a message that the entry's task sent or received.
    fn write_parts(&mut self, number: u64, task: TaskId, is_received: bool, bytes: &[u8]) {
        let parts = Parts {
            number,
            task,
            is_received,
        };
        parts.write(&self.follower, self.shown.labels, bytes, &mut self.details);
    }

    /// Writes that the message has more bytes than the call has room for.
    fn write_too_long(&mut self, number: u64, event: &Event, length: u32) {
        if let Event::Receive(_, _, room, _) | Event::ReceiveAgain(_, _, room, _) = event {
            self.details.line_below(number);
            self.details
                .around("! the message has ", length, " bytes, and ROOM is ");
            self.details.around("", *room, "\n");
        }
    }

    /// Writes why the call is refused with the code.
    fn write_why(&mut self, numbered: &Numbered<'_>, code: u32) -> Result<(), Fault<'static>> {
        let Numbered { number, entry } = *numbered;
        match explain(self.shown.alloc, &self.follower, &entry.event, code) {
            Ok(Some(cause)) => {
                self.details.line_below(number);
                self.details.words("! ");
                write_cause(&cause, self.shown.labels, &mut self.details);
                self.details.words("\n");
                Ok(())
            }
            Ok(None) => Ok(()),
            Err(_) => Err(Fault::OutOfMemory),
        }
    }

    /// Writes what is known after the entry's call was made.
    fn write_after(&mut self, numbered: &Numbered<'_>) {
        self.is_used = true;
        self.write_call(numbered);
        write_answer_of(
            &self.follower,
            self.shown.labels,
            numbered.entry,
            &mut self.text,
        );
        self.write_received(numbered);
        self.write_fates(numbered);
        self.text.text(&self.details);
    }

    /// Writes the entry's number, its caller and its call.
    fn write_call(&mut self, numbered: &Numbered<'_>) {
        write_who(self.shown.labels, numbered, &mut self.text);
        self.text.fill(CALLS);
        describe_after(
            &self.follower,
            self.shown.labels,
            numbered.entry,
            &self.told,
            &mut self.text,
        );
    }

    /// Writes the parts of the message that the entry received, if there is one.
    fn write_received(&mut self, numbered: &Numbered<'_>) {
        let Reply::Message(bytes) = &numbered.entry.reply else {
            return;
        };
        if let Some(task) = task_of(&numbered.entry.event) {
            self.write_parts(numbered.number, task, true, bytes.as_slice());
        }
    }

    /// Writes what became of the messages that the entry sent, received or destroyed.
    fn write_fates(&mut self, numbered: &Numbered<'_>) {
        let Numbered { number, entry } = *numbered;
        write_fates(
            &self.fates,
            self.shown.ends,
            self.shown.labels,
            (number, entry),
            &mut self.details,
        );
    }
}

/// Writes the entry's number and its caller.
fn write_who(labels: &Labels, numbered: &Numbered<'_>, out: &mut Text) {
    let entry = numbered.entry;
    out.entry_number(numbered.number);
    out.words(" ");
    match task_of(&entry.event) {
        Some(task) => labels.write_caller(entry.caller, task, out),
        None => out.words("kernel"),
    }
    out.words("  ");
}

/// Ends the line of an entry that isn't confirmed, and writes its reply and that of the kernel.
fn write_replies(numbered: &Numbered<'_>, reply: &Reply, out: &mut Text) {
    out.words("\n");
    out.line_below(numbered.number);
    out.words("! the kernel has another reply\n");
    out.line_below(numbered.number);
    out.words("reply of the entry:   ");
    out.reply(&numbered.entry.reply);
    out.words("\n");
    out.line_below(numbered.number);
    out.words("reply of the kernel:  ");
    out.reply(reply);
    out.words("\n");
}

/// Writes the entry's reply.
fn write_answer_of(follower: &Follower, labels: &Labels, entry: &Entry, out: &mut Text) {
    let task = task_of(&entry.event).unwrap_or(TaskId::new(0));
    out.words(" ");
    out.fill(ANSWERS);
    write_answer(follower, labels, entry, task, out);
    out.words("\n");
}

/// Returns the fault of the line of this number, which is no entry: `CutLine` if it lacks its line feed. Constant time.
pub fn bad_line(number: u64, line: &[u8]) -> Fault<'static> {
    if line.ends_with(b"\n") {
        return Fault::BadLine(number);
    }
    Fault::CutLine(number)
}
