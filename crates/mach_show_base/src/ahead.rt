//! Reads a history ahead, for what becomes of its messages.

use crate::fault::Fault;
use crate::output::{Done, Output};
use crate::reading::{READ_AT_ONCE, read_line};
use crate::text::{Shown, show_history};
use kernel_lock::Entry;
use mach_fates::{Ends, Fates};
use mach_follow::{Answered, Follower};
use mach_types::Profile;
use std::alloc::{AllocError, Global};
use std::io::{BufReader, Read};
use tracer::{behind_heading, first_line};
use tracer_base::TextFault;

/// A history that was read, and what became of its messages.
#[derive(Drop)]
struct Ahead {
    alloc: Global,
    // The text, as far as it was read.
    text: Vec<u8>,
    ends: Ends,
}

/// Reads the whole history that the reader has, and then shows it, with what became of each message. If it can't be read to
/// its end, shows what was read before.
///
/// Returns `Unseen` if no entry was shown. Faults are those of [`show_history`]. Makes the history's calls twice. Takes
/// memory for the text, and for each message.
pub fn show_whole<'a, R: Read>(
    shown: &Shown<'a, '_>,
    reader: &mut BufReader<&mut R>,
    line: &mut Vec<u8>,
    out: &mut Output,
) -> Result<Done, Fault<'a>> {
    let mut ahead = Ahead {
        alloc: shown.alloc,
        text: Vec::new(shown.alloc),
        ends: Ends::new(shown.alloc),
    };
    match ahead.read_history(shown.name, reader, line) {
        Ok(()) => ahead.show(shown, line, out),
        Err(fault) => Err(ahead.show_before(fault, shown, line, out)),
    }
}

impl Ahead {
    /// Shows what was read.
    fn show<'a>(
        &self,
        shown: &Shown<'a, '_>,
        line: &mut Vec<u8>,
        out: &mut Output,
    ) -> Result<Done, Fault<'a>> {
        let mut text = self.text.as_slice();
        match BufReader::with_capacity(self.alloc, READ_AT_ONCE, &mut text) {
            Ok(mut reader) => show_history(&self.known(shown), &mut reader, line, out),
            Err(_) => Err(Fault::OutOfMemory),
        }
    }

    /// Shows what was read before the fault, and returns the fault to report.
    fn show_before<'a>(
        &self,
        fault: Fault<'a>,
        shown: &Shown<'a, '_>,
        line: &mut Vec<u8>,
        out: &mut Output,
    ) -> Fault<'a> {
        if self.text.is_empty() {
            return fault;
        }
        match self.show(shown, line, out) {
            Ok(_) => fault,
            Err(earlier) => earlier,
        }
    }

    /// Returns what to show, with what became of the messages.
    fn known<'a, 'b>(&'b self, shown: &Shown<'a, '_>) -> Shown<'a, 'b> {
        Shown {
            name: shown.name,
            alloc: shown.alloc,
            filter: shown.filter,
            labels: shown.labels,
            ends: Some(&self.ends),
        }
    }

    /// Reads the heading and the entries, up to a line that is no entry or has another reply than the kernel.
    fn read_history<'a, R: Read>(
        &mut self,
        name: &'a str,
        reader: &mut BufReader<&mut R>,
        line: &mut Vec<u8>,
    ) -> Result<(), Fault<'a>> {
        self.next_line(name, reader, line)?;
        match behind_heading(line.as_slice()) {
            Some((profile, _)) => self.read_entries(name, profile, reader, line),
            None => Ok(()),
        }
    }

    /// Reads the next line, and returns whether there is one.
    fn next_line<'a, R: Read>(
        &mut self,
        name: &'a str,
        reader: &mut BufReader<&mut R>,
        line: &mut Vec<u8>,
    ) -> Result<bool, Fault<'a>> {
        let length = read_line(name, reader, line)?;
        self.text.extend_from_slice(line.as_slice())?;
        Ok(length != 0)
    }

    /// Reads the entries of a history of this profile. It owns the follower, and does nothing else.
    fn read_entries<'a, R: Read>(
        &mut self,
        name: &'a str,
        profile: Profile,
        reader: &mut BufReader<&mut R>,
        line: &mut Vec<u8>,
    ) -> Result<(), Fault<'a>> {
        let mut messages = Messages {
            follower: Follower::new(self.alloc, profile),
            fates: Fates::new(self.alloc),
        };
        for number in 1..u64::MAX {
            if !self.next_line(name, reader, line)? {
                break;
            }
            if !self.follow(number, line.as_slice(), &mut messages)? {
                break;
            }
        }
        Ok(())
    }

    /// Follows the entry of this number, whose line this is. Returns whether it is one that the kernel confirms.
    fn follow(
        &mut self,
        number: u64,
        line: &[u8],
        messages: &mut Messages,
    ) -> Result<bool, AllocError> {
        let entry = match first_line(self.alloc, line) {
            Ok((entry, _)) => entry,
            Err(TextFault::Bad) => return Ok(false),
            Err(TextFault::OutOfMemory) => return Err(AllocError),
        };
        messages.follow(&entry, number, &mut self.ends)
    }
}

/// A follower, and where the messages came from that it has queued.
#[derive(Drop)]
struct Messages {
    follower: Follower,
    fates: Fates,
}

impl Messages {
    /// Follows the entry of this number, and notes what became of messages. Returns whether the kernel confirms it.
    fn follow(&mut self, entry: &Entry, number: u64, ends: &mut Ends) -> Result<bool, AllocError> {
        match self.fates.replay(&mut self.follower, entry, number)? {
            Answered::AsSaid => {
                ends.note(&self.fates, entry, number)?;
                Ok(true)
            }
            Answered::Otherwise(_) => Ok(false),
        }
    }
}
