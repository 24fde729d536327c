//! Faults that end a job.
ghost use Rattle.std.specs.Prelude.{◌≡◌};

use mach_words::LabelFault;
use std::alloc::{AllocError, AllocFailed};
use std::io;
use std::io::{ErrorKind, Write};
use std::rt::Stderr;

/// Why a job ends early. [`report`] writes the line for standard error.
#[derive(Clone, Copy)]
pub enum Fault<'a> {
    /// The file of this name can't be opened or read, for this reason.
    CannotRead(&'a str, &'static str),
    /// The line of this number, from 1, is no entry.
    BadLine(u64),
    /// The text ends in the middle of the line of this number, from 1.
    CutLine(u64),
    /// The first line isn't the heading of a history.
    NoHistory,
    /// The kernel's reply to the entry of this number, from 1, isn't the entry's.
    NotConfirmed(u64),
    /// The history has so many entries, and less than the entry that is asked for.
    TooFew(u64, u64),
    /// The history has so many entries, and their chart too many rows.
    TooLong(u64),
    /// The chart has so many lifelines, and that is too many.
    TooWide(u64),
    /// The line of this number, from 1, is no label.
    BadLabels(u64, LabelFault),
    /// No task is called so.
    NoTask(&'a str),
    /// No port is called so.
    NoPort(&'a str),
    /// The output can't be written.
    CannotWrite,
    /// Nobody reads the output any more.
    Closed,
    /// Out of memory.
    OutOfMemory,
}

impl<'a, T: Drop> From<AllocFailed<T>> for Fault<'a> {
    fn from(_error: AllocFailed<T>) -> Fault<'a> {
        Fault::OutOfMemory
    }
}

impl<'a> From<AllocError> for Fault<'a> {
    fn from(_error: AllocError) -> Fault<'a> {
        Fault::OutOfMemory
    }
}

/// Errors of the output, and out of memory for a line.
impl<'a> From<io::Error> for Fault<'a> {
    fn from(error: io::Error) -> Fault<'a> {
        match error.kind() {
            ErrorKind::OutOfMemory => Fault::OutOfMemory,
            ErrorKind::BrokenPipe => Fault::Closed,
            _ => Fault::CannotWrite,
        }
    }
}

/// Returns why a file can't be opened or read. Constant time.
pub fn reason_of(error: &io::Error) -> &'static str {
    match error.kind() {
        ErrorKind::NotFound => "there is no such file",
        ErrorKind::PermissionDenied => "permission denied",
        ErrorKind::IsADirectory => "it is a directory",
        ErrorKind::NotADirectory => "a part of its path is no directory",
        ErrorKind::OutOfMemory => "out of memory",
        _ => "the system refuses it",
    }
}

/// Writes the fault to `err`, as a line, and returns the program's status, 1. `Closed` writes nothing.
///
/// An error of `err` is ignored. Constant time; takes no memory.
pub fn report(fault: Fault<'_>, err: &mut Stderr) -> u8
    ensures { result ≡ 1 }
{
    let _ = write_fault(&fault, err);
    1
}

/// Writes the fault in words.
fn write_fault(fault: &Fault<'_>, err: &mut Stderr) -> io::Result<()> {
    match fault {
        Fault::CannotRead(name, why) => write_word("cannot read ", name, ": ", why, err),
        Fault::NoTask(word) => write_word("no task '", word, "': ", TASKS, err),
        Fault::NoPort(word) => write_word("no port '", word, "': ", PORTS, err),
        Fault::BadLabels(line, why) => write_number("labels line ", *line, ": ", why.words(), err),
        Fault::BadLine(line) => write_number("bad line ", *line, "", "", err),
        Fault::TooFew(entries, entry) => {
            writeln!(err, "{entries} entries: there is no entry {entry}")
        }
        Fault::TooLong(entries) => write_number("", *entries, " entries: ", WINDOW, err),
        Fault::TooWide(lifelines) => write_number("", *lifelines, " lifelines: ", NARROW, err),
        Fault::NotConfirmed(entry) => write_number("not confirmed at ", *entry, "", "", err),
        Fault::CutLine(line) => {
            write_number("bad line ", *line, "", "", err)?;
            write_number(
                "the text ends in the middle of line ",
                *line,
                ": ",
                REST,
                err,
            )
        }
        _ => err.write_all(line_of(fault).as_bytes()),
    }
}

/// How a task is named.
const TASKS: &str = "write a task's number, T and the number, or a label of the file of --labels";
/// How a port is named.
const PORTS: &str =
    "write a port's identity, p and the identity, or a label of the file of --labels";
/// What a chart of a long history needs.
const WINDOW: &str = "give --from and --to";
/// What a chart of many tasks needs.
const NARROW: &str = "a chart has 64 at most; give --task, --port, or --from and --to";
/// What a cut line lacks.
const REST: &str = "the rest of the line and its line feed are missing";

/// Returns the line of a fault without a word and a number.
fn line_of(fault: &Fault<'_>) -> &'static str {
    match fault {
        Fault::NoHistory => {
            "bad line 1\n'mach_run trace FILE' prints the history of a script, unless it says on standard error why not; 'mach_show lint FILE' says why a line is bad\n"
        }
        Fault::CannotWrite => "cannot write\n",
        Fault::OutOfMemory => "out of memory\n",
        _ => "",
    }
}

/// Writes a line with a word of the fault.
fn write_word(
    before: &str,
    word: &str,
    between: &str,
    after: &str,
    err: &mut Stderr,
) -> io::Result<()> {
    writeln!(err, "{before}{word}{between}{after}")
}

/// Writes a line with a number of the fault.
fn write_number(
    before: &str,
    number: u64,
    between: &str,
    after: &str,
    err: &mut Stderr,
) -> io::Result<()> {
    writeln!(err, "{before}{number}{between}{after}")
}
