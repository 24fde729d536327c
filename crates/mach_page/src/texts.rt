//! The texts of entries.
use std::alloc::{AllocError, Global};

/// How many columns the number of an entry has in front of a line.
const NUMBERS: usize = 4;

/// The texts of entries, in order.
#[derive(Drop)]
pub struct Texts {
    bytes: Vec<u8>,
    // The place behind each text.
    ends: Vec<usize>,
}

impl Texts {
    /// Has no text. Takes no memory.
    pub fn new(alloc: Global) -> Texts {
        Texts {
            bytes: Vec::new(alloc),
            ends: Vec::new(alloc),
        }
    }

    /// Adds the text of the next entry, for a narrow place: in its first line more than two spaces become two, and the other
    /// lines don't repeat the number.
    ///
    /// Returns `AllocError` if out of memory; the texts are then of no further use. Linear in the text.
    pub fn add(&mut self, text: &[u8]) -> Result<(), AllocError> {
        let mut is_first = true;
        let mut column: usize = 0;
        let mut spaces: usize = 0;
        for byte in text {
            spaces = if *byte == b' ' {
                spaces.saturating_add(1)
            } else {
                0
            };
            if is_first {
                if spaces <= 2 {
                    self.bytes.push(*byte)?;
                }
            } else {
                self.bytes
                    .push(if column < NUMBERS { b' ' } else { *byte })?;
            }
            column = column.saturating_add(1);
            if *byte == b'\n' {
                is_first = false;
                column = 0;
            }
        }
        self.ends.push(self.bytes.len())?;
        Ok(())
    }

    /// Returns how many there are. Constant time.
    pub fn len(&self) -> usize {
        self.ends.len()
    }

    /// Returns the text at this index; nothing if there is none. Constant time.
    pub fn get(&self, index: usize) -> &[u8] {
        let from = match index.checked_sub(1) {
            Some(before) => self.ends.get(before).copied().unwrap_or(0),
            None => 0,
        };
        let to = self.ends.get(index).copied().unwrap_or(from);
        self.bytes.get(from..to).unwrap_or(&[])
    }
}
