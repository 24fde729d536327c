//! Words of at most 24 letters.

/// How many letters the longest word has.
const LONGEST: usize = 24;

/// A word: letters, digits, `-` and `_`.
#[derive(Clone, Copy)]
pub struct Label {
    // How many of the bytes are the word's.
    length: usize,
    bytes: [u8; LONGEST],
}

impl Label {
    /// Returns the text's first 24 bytes as a word. Constant time.
    pub fn of(text: &[u8]) -> Label {
        let mut bytes = [0; LONGEST];
        for (place, byte) in text.iter().enumerate() {
            if let Some(slot) = bytes.get_mut(place) {
                *slot = *byte;
            }
        }
        let length = text.len();
        Label { length, bytes }
    }

    /// Returns the word's bytes. Constant time.
    pub fn text(&self) -> &[u8] {
        self.bytes
            .get(..self.length)
            .unwrap_or(self.bytes.as_slice())
    }
}
