//! Reads files line by line.
use crate::fault::{Fault, reason_of};
use crate::output::Output;
use mach_words::{LabelFault, Labels};
use memchr::memchr;
use std::alloc::Global;
use std::io;
use std::io::{BufRead, BufReader, ErrorKind, Read, Write};

/// How many bytes of a file are read at once.
pub const READ_AT_ONCE: usize = 131_072;

/// Why a text without end can't be read.
pub const TOO_MANY: &str = "it has too many lines";

/// Reads the next line into `line`, with its line feed, and returns its length: 0 at the end.
///
/// If the reader doesn't have a whole line yet, `out` is flushed first. So the output is seen while the program waits.
///
/// Returns `CannotRead` if the file can't be read, the faults of the output, and `OutOfMemory`. Linear in the line. Takes
/// memory for it.
pub fn next_line<'a, R: Read>(
    name: &'a str,
    reader: &mut BufReader<&mut R>,
    line: &mut Vec<u8>,
    out: &mut Output,
) -> Result<usize, Fault<'a>> {
    if memchr(b'\n', reader.buffer()).is_none() {
        out.flush()?;
    }
    read_line(name, reader, line)
}

/// The same, where no output waits.
pub(crate) fn read_line<'a, R: Read>(
    name: &'a str,
    reader: &mut BufReader<&mut R>,
    line: &mut Vec<u8>,
) -> Result<usize, Fault<'a>> {
    line.clear();
    match reader.read_until(b'\n', line) {
        Ok(count) => Ok(count),
        Err(error) => Err(fault_of(name, &error)),
    }
}

/// Returns the fault for an error of reading the file of this name. Constant time.
pub fn fault_of<'a>(name: &'a str, error: &io::Error) -> Fault<'a> {
    match error.kind() {
        ErrorKind::OutOfMemory => Fault::OutOfMemory,
        _ => Fault::CannotRead(name, reason_of(error)),
    }
}

/// Enters the labels of a file, one a line.
///
/// Returns `BadLabels` for the first line that is no label or labels something twice, `CannotRead` if the file can't be
/// read, and `OutOfMemory`. The labels are then of no further use. Linear in the file; takes memory for the labels and the
/// longest line.
pub fn read_labels<'a, R: Read>(
    alloc: Global,
    name: &'a str,
    file: &mut R,
    labels: &mut Labels,
) -> Result<(), Fault<'a>> {
    let mut line = Vec::new(alloc);
    match BufReader::with_capacity(alloc, READ_AT_ONCE, file) {
        Ok(mut reader) => fill_from(name, &mut reader, &mut line, labels),
        Err(_) => Err(Fault::OutOfMemory),
    }
}

/// Enters the labels of the lines that the reader has.
fn fill_from<'a, R: Read>(
    name: &'a str,
    reader: &mut BufReader<&mut R>,
    line: &mut Vec<u8>,
    labels: &mut Labels,
) -> Result<(), Fault<'a>> {
    for number in 1..u64::MAX {
        if read_line(name, reader, line)? == 0 {
            return Ok(());
        }
        match labels.read_line(text_of(line.as_slice())) {
            Ok(()) => {}
            Err(LabelFault::OutOfMemory) => return Err(Fault::OutOfMemory),
            Err(fault) => return Err(Fault::BadLabels(number, fault)),
        }
    }
    Err(Fault::CannotRead(name, TOO_MANY))
}

/// Returns the line without its line feed.
fn text_of(line: &[u8]) -> &[u8] {
    match line {
        [text @ .., b'\n'] => text,
        _ => line,
    }
}
