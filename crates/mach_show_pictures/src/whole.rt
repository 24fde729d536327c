//! Reads a whole history.
use mach_show_base::{Fault, Output, TOO_MANY, next_line};
use std::alloc::Global;
use std::io::{BufReader, Read};

/// The text of a history.
#[derive(Drop)]
pub(crate) struct Whole {
    pub(crate) text: Vec<u8>,
    /// How many lines it has behind the heading.
    pub(crate) entries: u64,
}

impl Whole {
    /// Reads all lines that the reader has.
    pub(crate) fn read<'a, R: Read>(
        alloc: Global,
        name: &'a str,
        reader: &mut BufReader<&mut R>,
        line: &mut Vec<u8>,
        out: &mut Output,
    ) -> Result<Whole, Fault<'a>> {
        let mut whole = Whole {
            text: Vec::new(alloc),
            entries: 0,
        };
        for number in 0..u64::MAX {
            if next_line(name, reader, line, out)? == 0 {
                whole.entries = number.saturating_sub(1);
                return Ok(whole);
            }
            whole.text.extend_from_slice(line.as_slice())?;
        }
        Err(Fault::CannotRead(name, TOO_MANY))
    }

    /// Returns the line from this place on, with its line feed, and the place behind it. The line is empty at the end.
    pub(crate) fn line_at(&self, from: usize) -> (&[u8], usize) {
        let rest = self.text.get(from..).unwrap_or(&[]);
        let length = match memchr::memchr(b'\n', rest) {
            Some(place) => place.saturating_add(1),
            None => rest.len(),
        };
        let line = rest.get(..length).unwrap_or(rest);
        (line, from.saturating_add(line.len()))
    }
}
