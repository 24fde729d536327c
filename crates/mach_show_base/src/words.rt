//! What `mach_show` and `mach_say` do alike with the words of the command line.
use crate::fault::{Fault, reason_of, report};
use crate::reading::read_labels;
use clap::error::ErrorKind;
use mach_words::Labels;
use std::fs::File;
use std::io;
use std::io::Write;
use std::rt::{Files, Stderr};

/// The status for a wrong command line.
pub const USAGE: u8 = 2;

/// Writes to `err` why the program of this name has no words: out of memory, or one of them isn't UTF-8. Returns its
/// status.
///
/// An error of `err` is ignored. Constant time; takes no memory.
pub fn report_words(program: &str, error: &io::Error, err: &mut Stderr) -> u8 {
    if error.kind() == io::ErrorKind::OutOfMemory {
        return report(Fault::OutOfMemory, err);
    }
    let _ = write!(
        err,
        "error: a word is not UTF-8\n\nUsage: {program} <COMMAND>\n"
    );
    USAGE
}

/// Writes what clap says of words that name no job, and returns the program's status: help and the version to `out`, with
/// status 0, and what is wrong with them to `err`.
///
/// An error of either is ignored. Linear in what is written.
pub fn report_matches<W: Write>(error: &clap::Error, out: &mut W, err: &mut Stderr) -> u8 {
    if error.kind() == ErrorKind::OutOfMemory {
        return report(Fault::OutOfMemory, err);
    }
    if error.use_stderr() {
        let _ = write!(err, "{error}");
        return USAGE;
    }
    let _ = write!(out, "{error}");
    0
}

/// Enters the labels of the file of this name. Without a name there are none.
///
/// Returns the fault of a file that can't be opened, and those of [`read_labels`].
pub fn enter_labels<'a, R: Files + AllocGlobal>(
    rt: &R,
    name: Option<&'a str>,
    labels: &mut Labels,
) -> Result<(), Fault<'a>> {
    let Some(name) = name else {
        return Ok(());
    };
    match File::open(rt, name) {
        Ok(mut file) => read_labels(rt.alloc(), name, &mut file, labels),
        Err(error) => Err(Fault::CannotRead(name, reason_of(&error))),
    }
}
