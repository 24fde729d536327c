//! The job `state`: shows the state after an entry.

use kernel_lock::Entry;
use mach_fates::Fates;
use mach_follow::{Answered, Follower, describe_after, describe_before, write_answer};
use mach_show_base::{Done, Fault, Output, Shown, bad_line, next_line};
use mach_show_pictures::Source;
use mach_state::{Deaths, State, write_state};
use mach_types::{Profile, TaskId};
use mach_words::{Text, task_of};
use std::alloc::AllocError;
use std::io::{BufReader, Read, Write};
use tracer::{behind_heading, first_line};
use tracer_base::TextFault;

/// Shows the state after the entry of this number of the history that the reader has.
pub(crate) fn show_state<'a, R: Read>(
    shown: &Shown<'a, '_>,
    number: u64,
    reader: &mut BufReader<&mut R>,
    line: &mut Vec<u8>,
    out: &mut Output,
) -> Result<Done, Fault<'a>> {
    next_line(shown.name, reader, line, out)?;
    let Some((profile, _)) = behind_heading(line.as_slice()) else {
        return Err(Fault::NoHistory);
    };
    let asked = Asked {
        source: Source::of(shown),
        last: number,
    };
    show_after(&asked, profile, reader, line, out)
}

/// The state that is asked for.
#[derive(Clone, Copy)]
struct Asked<'a> {
    source: Source<'a>,
    // The number of the last entry.
    last: u64,
}

/// Shows the state of a history of this profile. It owns the stander, and does nothing else.
fn show_after<'a, R: Read>(
    asked: &Asked<'a>,
    profile: Profile,
    reader: &mut BufReader<&mut R>,
    line: &mut Vec<u8>,
    out: &mut Output,
) -> Result<Done, Fault<'a>> {
    let mut stander = Stander::new(asked, profile);
    stander.show(reader, line, out)
}

/// Follows a history up to an entry.
#[derive(Drop)]
struct Stander<'a> {
    shown: Source<'a>,
    // The number of the last entry.
    last: u64,
    follower: Follower,
    fates: Fates,
    deaths: Deaths,
    // The last call, before it is made.
    told: Text,
    text: Text,
}

impl<'a> Stander<'a> {
    /// Stands at the beginning of a history of this profile. Takes no memory.
    fn new(asked: &Asked<'a>, profile: Profile) -> Stander<'a> {
        Stander {
            shown: asked.source,
            last: asked.last,
            follower: Follower::new(asked.source.alloc, profile),
            fates: Fates::new(asked.source.alloc),
            deaths: Deaths::new(asked.source.alloc),
            told: Text::new(asked.source.alloc),
            text: Text::new(asked.source.alloc),
        }
    }

    /// Shows the state after the last entry.
    fn show<R: Read>(
        &mut self,
        reader: &mut BufReader<&mut R>,
        line: &mut Vec<u8>,
        out: &mut Output,
    ) -> Result<Done, Fault<'a>> {
        self.read(reader, line, out)?;
        out.write_all(self.text.whole()?)?;
        Ok(Done::Well)
    }

    /// Reads the entries up to the last. Leaves in `text` the state after it.
    fn read<R: Read>(
        &mut self,
        reader: &mut BufReader<&mut R>,
        line: &mut Vec<u8>,
        out: &mut Output,
    ) -> Result<(), Fault<'a>> {
        for number in 1..self.last.saturating_add(1) {
            if next_line(self.shown.name, reader, line, out)? == 0 {
                return Err(Fault::TooFew(number.saturating_sub(1), self.last));
            }
            self.follow(number, line.as_slice())?;
        }
        Ok(())
    }

    /// Makes the call of the entry of this number, whose line this is. Writes the state after the last.
    fn follow(&mut self, number: u64, line: &[u8]) -> Result<(), Fault<'static>> {
        match first_line(self.shown.alloc, line) {
            Ok((entry, _)) => self.follow_entry(number, &entry),
            Err(TextFault::Bad) => Err(bad_line(number.saturating_add(1), line)),
            Err(TextFault::OutOfMemory) => Err(Fault::OutOfMemory),
        }
    }

    /// Makes the entry's call. Writes the state after the last.
    fn follow_entry(&mut self, number: u64, entry: &Entry) -> Result<(), Fault<'static>> {
        if number == self.last {
            describe_before(
                &self.follower,
                self.shown.labels,
                &entry.event,
                &mut self.told,
            );
        }
        if !self.is_confirmed(number, entry)? {
            return Err(Fault::NotConfirmed(number));
        }
        self.deaths.note(self.fates.effects(), number)?;
        if number == self.last {
            self.write(number, entry)?;
        }
        Ok(())
    }

    /// Makes the entry's call, and returns whether the kernel's reply is that of the entry.
    fn is_confirmed(&mut self, number: u64, entry: &Entry) -> Result<bool, AllocError> {
        let answered = self.fates.replay(&mut self.follower, entry, number)?;
        Ok(matches!(answered, Answered::AsSaid))
    }

    /// Writes the state after the last entry.
    fn write(&mut self, number: u64, entry: &Entry) -> Result<(), Fault<'static>> {
        self.write_entry(number, entry);
        let state = State {
            alloc: self.shown.alloc,
            follower: &self.follower,
            fates: &self.fates,
            deaths: &self.deaths,
            labels: self.shown.labels,
        };
        write_state(&state, &mut self.text)?;
        Ok(())
    }

    /// Writes the last entry, and an empty line.
    fn write_entry(&mut self, number: u64, entry: &Entry) {
        self.text.words("after entry ");
        self.text.number(number);
        self.text.words(":  ");
        let task = task_of(&entry.event).unwrap_or(TaskId::new(0));
        if task_of(&entry.event).is_some() {
            self.shown
                .labels
                .write_caller(entry.caller, task, &mut self.text);
            self.text.words(": ");
        }
        describe_after(
            &self.follower,
            self.shown.labels,
            entry,
            &self.told,
            &mut self.text,
        );
        self.text.words("  ");
        write_answer(
            &self.follower,
            self.shown.labels,
            entry,
            task,
            &mut self.text,
        );
        self.text.words("\n\n");
    }
}
