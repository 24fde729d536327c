//! The job `lint`: lists the bad lines of scripts and histories.
use crate::fault::Fault;
use crate::output::{Done, Output};
use crate::reading::{TOO_MANY, next_line};
use mach_lint::{
    Blocks, Fault as LineFault, Made, Note, history_fault, script_fault, script_note, write_fault,
    write_note,
};
use mach_words::{Phrase, Text};
use std::alloc::Global;
use std::io::{BufReader, Read, Write};
use tracer::{behind_heading, first_line};
use tracer_base::{ScriptLine, TextFault};

/// The kind of a text.
#[derive(Clone, Copy)]
pub enum Kind {
    /// A script.
    Script,
    /// A history.
    History,
}

/// How a history begins.
const HEADING: &[u8] = b"mach-history";

/// What is known of the lines read so far, and the text of the last.
#[derive(Drop)]
struct Seen<'a> {
    // The name of the file, for faults.
    name: &'a str,
    alloc: Global,
    kind: Kind,
    blocks: Blocks,
    made: Made,
    bad: u64,
    text: Text,
}

/// Lists the bad lines that the reader has. Without a kind the first line decides.
///
/// Returns `BadLines` if there are some. Returns the faults `CannotRead`, `CannotWrite`, `Closed` and `OutOfMemory`; what was
/// written before stays. Linear in the text. Takes memory for the longest line.
pub fn lint_text<'a, R: Read>(
    alloc: Global,
    work: (&'a str, Option<Kind>),
    reader: &mut BufReader<&mut R>,
    line: &mut Vec<u8>,
    out: &mut Output,
) -> Result<Done, Fault<'a>> {
    let (name, kind) = work;
    let length = next_line(name, reader, line, out)?;
    let kind = kind.unwrap_or(kind_of(line.as_slice()));
    let mut seen = Seen {
        name,
        alloc,
        kind,
        blocks: Blocks::new(),
        made: Made::new(),
        bad: 0,
        text: Text::new(alloc),
    };
    lint_with(&mut seen, length, reader, line, out)
}

/// Lists the bad lines, from the one of this length that was read.
fn lint_with<'a, R: Read>(
    seen: &mut Seen<'a>,
    length: usize,
    reader: &mut BufReader<&mut R>,
    line: &mut Vec<u8>,
    out: &mut Output,
) -> Result<Done, Fault<'a>> {
    seen.begin(length);
    if length != 0 {
        lint_lines(seen, reader, line, out)?;
    }
    seen.end();
    seen.put(out)?;
    Ok(seen.done())
}

/// Lists the bad lines, from the one that was read.
fn lint_lines<'a, R: Read>(
    seen: &mut Seen<'a>,
    reader: &mut BufReader<&mut R>,
    line: &mut Vec<u8>,
    out: &mut Output,
) -> Result<(), Fault<'a>> {
    for number in 1..u64::MAX {
        seen.lint_line(number, line.as_slice())?;
        seen.put(out)?;
        if next_line(seen.name, reader, line, out)? == 0 {
            return Ok(());
        }
    }
    Err(Fault::CannotRead(seen.name, TOO_MANY))
}

/// Returns the kind of a text that begins with this line.
fn kind_of(line: &[u8]) -> Kind {
    if line.starts_with(HEADING) {
        Kind::History
    } else {
        Kind::Script
    }
}

impl<'a> Seen<'a> {
    /// Writes the kind of the text, and the command that reads it so. An empty text is a script, and no history.
    fn begin(&mut self, length: usize) {
        match self.kind {
            Kind::Script => self
                .text
                .words("read as a script, as 'mach_run run' does\n"),
            Kind::History => {
                self.text
                    .words("read as a history, as 'mach_run check' does\n");
                if length == 0 {
                    self.bad = 1;
                    self.text.words(EMPTY_HISTORY);
                }
            }
        }
    }

    /// Writes how many lines are bad.
    fn end(&mut self) {
        match self.bad {
            0 => self.text.words("no bad line\n"),
            1 => self.text.words("1 bad line\n"),
            _ => self.text.phrase(&Phrase::one("", self.bad, " bad lines\n")),
        }
    }

    /// Writes the text to the output, and begins a new one.
    fn put(&mut self, out: &mut Output) -> Result<(), Fault<'static>> {
        out.write_all(self.text.whole()?)?;
        self.text.clear();
        Ok(())
    }

    /// Returns how the job ended.
    fn done(&self) -> Done {
        match self.bad {
            0 => Done::Well,
            _ => Done::BadLines,
        }
    }

    /// Writes the fault or note of the line of this number, if there is one.
    fn lint_line(&mut self, number: u64, line: &[u8]) -> Result<(), Fault<'static>> {
        match self.kind {
            Kind::Script => self.lint_script_line(number, line),
            Kind::History if number == 1 => {
                self.lint_heading(line);
                Ok(())
            }
            Kind::History => self.lint_history_line(number, line),
        }
    }

    /// Writes the fault or note of a script's line.
    fn lint_script_line(&mut self, number: u64, line: &[u8]) -> Result<(), Fault<'static>> {
        match script_fault(self.alloc, &mut self.blocks, number, line) {
            Ok(Ok(said)) => self.note(number, &said),
            Ok(Err(fault)) => self.count(number, ": ", &fault),
            Err(_) => return Err(Fault::OutOfMemory),
        }
        Ok(())
    }

    /// Writes the fault of a history's first line.
    fn lint_heading(&mut self, line: &[u8]) {
        if behind_heading(line).is_none() {
            self.count(1, ": ", &LineFault::Heading);
        }
    }

    /// Writes the fault of a history's line behind the first.
    fn lint_history_line(&mut self, number: u64, line: &[u8]) -> Result<(), Fault<'static>> {
        match first_line(self.alloc, line) {
            Ok(_) => Ok(()),
            Err(TextFault::Bad) => {
                let fault = history_fault(line);
                self.count(number, words_before(line, &fault), &fault);
                Ok(())
            }
            Err(TextFault::OutOfMemory) => Err(Fault::OutOfMemory),
        }
    }

    /// Writes the note on a line that is a call, if there is one.
    fn note(&mut self, number: u64, said: &ScriptLine) {
        if let Some(note) = script_note(said, &mut self.made) {
            write_noted(number, &note, &mut self.text);
        }
    }

    /// Writes the fault of the line, behind these words, and counts it.
    fn count(&mut self, number: u64, words: &str, fault: &LineFault<'_>) {
        self.bad = self.bad.saturating_add(1);
        write_bad(number, words, fault, &mut self.text);
    }
}

/// Writes the note on the line of this number.
fn write_noted(number: u64, note: &Note, out: &mut Text) {
    out.words("line ");
    out.number(number);
    out.words(": note: ");
    write_note(note, out);
    out.words("\n");
}

/// Writes the fault of the line of this number, behind these words.
fn write_bad(number: u64, words: &str, fault: &LineFault<'_>, out: &mut Text) {
    out.words("line ");
    out.number(number);
    out.words(words);
    write_fault(fault, out);
    out.words("\n");
}

/// What an empty history has for a fault.
const EMPTY_HISTORY: &str =
    "line 1: the text is empty; a history begins with 'mach-history 1' or 'mach-history 2'\n";

/// Returns what stands before the fault of a history's line. If the text ends in the middle of the line, its fault may be
/// what is missing.
fn words_before(line: &[u8], fault: &LineFault<'_>) -> &'static str {
    if line.ends_with(b"\n") || matches!(fault, LineFault::NoLineFeed | LineFault::Heading) {
        return ": ";
    }
    ": the text ends in the middle of the line: "
}
