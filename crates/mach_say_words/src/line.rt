//! The words of a line.

/// A word, or a text in quotes, with its column.
#[derive(Clone, Copy)]
pub struct Word<'a> {
    /// The bytes.
    pub text: &'a [u8],
    /// The column of the first byte, from 1.
    pub column: usize,
}

/// The words that are left of a line.
#[derive(Clone, Copy)]
pub struct Line<'a> {
    // The whole line, without its line feed.
    text: &'a [u8],
    // How many of its bytes were read.
    at: usize,
}

impl<'a> Line<'a> {
    /// Begins with the first word of a line, which has no line feed.
    pub fn of(text: &'a [u8]) -> Line<'a> {
        Line { text, at: 0 }
    }

    /// Reads the next word; `None` at the line's end, or where a comment begins.
    pub fn next(&mut self) -> Option<Word<'a>> {
        let rest = self.text.get(self.at..)?;
        let start = self.at.saturating_add(blank_length(rest));
        let rest = self.text.get(start..)?;
        let text = rest.get(..word_length(rest))?;
        self.at = start;
        if text.is_empty() {
            return None;
        }
        self.at = start.saturating_add(text.len());
        Some(Word {
            text,
            column: start.saturating_add(1),
        })
    }

    /// Returns the next word, and doesn't read it.
    pub fn peek(&self) -> Option<Word<'a>> {
        let mut copy = *self;
        copy.next()
    }

    /// Returns the text from the word up to the last word that was read.
    pub fn since(&self, word: &Word<'a>) -> &'a [u8] {
        self.text
            .get(word.column.saturating_sub(1)..self.at)
            .unwrap_or(&[])
    }

    /// Returns the column of the byte behind the last word that was read.
    pub fn column(&self) -> usize {
        self.at.saturating_add(1)
    }

    /// Reads the words before `=>`, or all that are left if there is no `=>`. Returns them with what is between them.
    pub fn before_arrow(&mut self) -> Word<'a> {
        let start = self
            .at
            .saturating_add(blank_length(self.text.get(self.at..).unwrap_or(&[])));
        for _ in 0..self.text.len() {
            match self.peek() {
                Some(word) if word.text != b"=>".as_slice() => {
                    let _ = self.next();
                }
                _ => break,
            }
        }
        Word {
            text: self.text.get(start..self.at).unwrap_or(&[]),
            column: start.saturating_add(1),
        }
    }
}

/// Returns how many blanks the text begins with.
fn blank_length(text: &[u8]) -> usize {
    for (place, byte) in text.iter().enumerate() {
        if !is_blank(*byte) {
            return place;
        }
    }
    text.len()
}

/// Whether the byte parts words.
fn is_blank(byte: u8) -> bool {
    byte == b' ' || byte == b'\t' || byte == b'\r'
}

/// Returns the length of the word that the text begins with: 0 if it begins with a comment, or is empty.
fn word_length(text: &[u8]) -> usize {
    match text {
        [] | [b'#', ..] => 0,
        [b'"', quoted @ ..] => quoted_length(quoted).saturating_add(1),
        [b'=', b'>', ..] => 2,
        [b':' | b',' | b'=' | b'+', ..] => 1,
        _ => plain_length(text),
    }
}

/// Returns the length up to the closing quote, with it, or the whole length if there is no closing quote.
fn quoted_length(text: &[u8]) -> usize {
    let mut is_escaped = false;
    for (place, byte) in text.iter().enumerate() {
        if *byte == b'"' && !is_escaped {
            return place.saturating_add(1);
        }
        is_escaped = *byte == b'\\' && !is_escaped;
    }
    text.len()
}

/// Returns the length up to the first byte that can't stand in a word.
fn plain_length(text: &[u8]) -> usize {
    for (place, byte) in text.iter().enumerate() {
        if ends_word(*byte) {
            return place;
        }
    }
    text.len()
}

/// Whether a word ends before the byte.
fn ends_word(byte: u8) -> bool {
    is_blank(byte) || matches!(byte, b':' | b',' | b'=' | b'+' | b'#' | b'"')
}
