//! Words that a storyboard gives to things.
use mach_say_words::is_reserved;

/// How many letters the longest word has.
const LONGEST: usize = 24;
/// How many letters of a word are left where a number follows.
const STEM: usize = 19;
/// The first number that is behind no word.
pub(crate) const NUMBERS: u32 = 10_000;

/// A word: letters, digits, `-` and `_`.
#[derive(Clone, Copy)]
pub(crate) struct Label {
    // How many of the bytes are the word's.
    length: usize,
    bytes: [u8; LONGEST],
}

impl Label {
    /// Returns a label as it is written, as a word: without its blanks, with `-` for `/`, and with its first 24 letters.
    pub(crate) fn of(text: &[u8]) -> Label {
        let mut label = Label {
            length: 0,
            bytes: [0; LONGEST],
        };
        for byte in text {
            match *byte {
                b' ' => {}
                b'/' => label.push(b'-'),
                other => label.push(other),
            }
        }
        label
    }

    /// Returns the word's bytes.
    pub(crate) fn text(&self) -> &[u8] {
        self.bytes.get(..self.length).unwrap_or(&[])
    }

    /// Whether the two are one word.
    pub(crate) fn is(&self, other: &Label) -> bool {
        self.text() == other.text()
    }

    /// Appends a letter, if there is room.
    fn push(&mut self, byte: u8) {
        if let Some(slot) = self.bytes.get_mut(self.length) {
            *slot = byte;
            self.length = self.length.saturating_add(1);
        }
    }

    /// Returns the word with `-` and the number behind it, or the word itself for the number 1.
    pub(crate) fn numbered(&self, number: u32) -> Label {
        let mut label = *self;
        if number == 1 {
            return label;
        }
        label.length = label.length.min(STEM);
        label.push(b'-');
        label.push_digit(number / 1000);
        label.push_digit(number / 100);
        label.push_digit(number / 10);
        label.push(digit(number));
        label
    }

    /// Whether the notation has the word for something else.
    pub(crate) fn is_reserved(&self) -> bool {
        is_reserved(self.text())
    }

    /// Appends the last digit of what is left of a number, unless nothing is.
    fn push_digit(&mut self, left: u32) {
        if left != 0 {
            self.push(digit(left));
        }
    }
}

/// Returns the last digit of a number.
fn digit(number: u32) -> u8 {
    match number % 10 {
        0 => b'0',
        1 => b'1',
        2 => b'2',
        3 => b'3',
        4 => b'4',
        5 => b'5',
        6 => b'6',
        7 => b'7',
        8 => b'8',
        _ => b'9',
    }
}
