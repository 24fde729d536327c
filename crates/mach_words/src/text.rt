//! Text that is put together from words, numbers and bytes.
ghost use Rattle.std.specs.Prelude.{◌≡◌, ◌++◌, ℕ, List, IsTrue};
ghost use Rattle.mach_words.specs.Plain.{IsPlain, IsPlainText};

use crate::phrase::Phrase;
use mach_types::Reply;
use std::alloc::{AllocError, Global};
use std::fmt::Display;
use std::io::Write;
use tracer_base::write_reply;

/// Spaces, as many as a line has before its last column.
const SPACES: &[u8; 80] = &[b' '; 80];

/// Text that grows at its end.
///
/// Its methods return no error. A part for which there is no memory is left out, and [`Text::whole`] fails from then on.
/// Each method is linear in what it appends.
#[derive(Drop)]
pub struct Text {
    bytes: Vec<u8>,
    // Whether a part was left out.
    lacks_part: bool,
}

impl Text {
    /// Has no bytes. Takes no memory.
    pub fn new(alloc: Global) -> Text {
        Text {
            bytes: Vec::new(alloc),
            lacks_part: false,
        }
    }

    /// Removes all bytes, and keeps their memory. Nothing is left out of the empty text.
    pub fn clear(&mut self) {
        self.bytes.clear();
        self.lacks_part = false;
    }

    /// Returns the bytes; `AllocError` if a part was left out. Constant time.
    pub fn whole(&self) -> Result<&[u8], AllocError> {
        if self.lacks_part {
            return Err(AllocError);
        }
        Ok(self.bytes.as_slice())
    }

    /// Appends the words as they are.
    pub fn words(&mut self, words: &str) {
        self.bytes(words.as_bytes());
    }

    /// Appends bytes as they are.
    fn bytes(&mut self, bytes: &[u8]) {
        if self.bytes.extend_from_slice(bytes).is_err() {
            self.lacks_part = true;
        }
    }

    /// Appends another text. If that lacks a part, so does this one.
    pub fn text(&mut self, other: &Text) {
        self.bytes(other.bytes.as_slice());
        self.lacks_part |= other.lacks_part;
    }

    /// Appends bytes that come from data, labels or lines. Each that isn't printable ASCII (32 to 126) becomes a dot.
    pub fn plain(&mut self, bytes: &[u8])
        ensures { (shown : List ℕ) × IsPlainText shown × (self.new.bytes.items ≡ self.old.bytes.items ++ shown) }
    {
        for byte in bytes {
            self.plain_byte(*byte);
        }
    }

    /// Appends the byte, or a dot if it isn't 32 to 126.
    fn plain_byte(&mut self, byte: u8)
        ensures { (shown : List ℕ) × IsPlainText shown × (self.new.bytes.items ≡ self.old.bytes.items ++ shown) }
    {
        if self.bytes.push(plain_for(byte)).is_err() {
            self.lacks_part = true;
        }
    }

    /// Appends the bytes between single quotes, as [`Text::plain`] does.
    pub fn quoted(&mut self, bytes: &[u8]) {
        self.words("'");
        self.plain(bytes);
        self.words("'");
    }

    /// Appends a value as it is displayed.
    pub fn shown<D: Display>(&mut self, value: &D) {
        if write!(&mut self.bytes, "{value}").is_err() {
            self.lacks_part = true;
        }
    }

    /// Appends the number in decimal.
    pub fn number(&mut self, number: u64) {
        self.shown(&number);
    }

    /// Appends words, the number in decimal, and more words.
    pub fn around(&mut self, before: &str, number: u32, after: &str) {
        self.words(before);
        self.number(u64::from(number));
        self.words(after);
    }

    /// Appends the number in decimal, with its minus, or with `plus` before it if it isn't negative.
    pub fn signed(&mut self, plus: &str, number: i32) {
        self.words(if number < 0 { "-" } else { plus });
        self.number(u64::from(number.unsigned_abs()));
    }

    /// Appends a byte as two hexadecimal digits.
    pub fn hexadecimal(&mut self, byte: u8) {
        if write!(&mut self.bytes, "{byte:02x}").is_err() {
            self.lacks_part = true;
        }
    }

    /// Appends a number as eight hexadecimal digits.
    pub fn code(&mut self, number: u32) {
        if write!(&mut self.bytes, "{number:08x}").is_err() {
            self.lacks_part = true;
        }
    }

    /// Appends the words of the phrase, with its numbers in decimal.
    pub fn phrase(&mut self, phrase: &Phrase) {
        self.words(phrase.before);
        self.number_if(phrase.first);
        self.words(phrase.between);
        self.number_if(phrase.second);
        self.words(phrase.after);
    }

    /// Appends the number, if there is one.
    fn number_if(&mut self, number: Option<u64>) {
        if let Some(number) = number {
            self.number(number);
        }
    }

    /// Appends the reply as histories have it.
    pub fn reply(&mut self, reply: &Reply) {
        if write_reply(reply, &mut self.bytes).is_err() {
            self.lacks_part = true;
        }
    }

    /// Appends an entry's number, four columns wide or more, to the right.
    pub fn entry_number(&mut self, number: u64) {
        if write!(&mut self.bytes, "{number:>4}").is_err() {
            self.lacks_part = true;
        }
    }

    /// Begins a line below the entry of this number.
    pub fn line_below(&mut self, number: u64) {
        self.entry_number(number);
        self.words("           ");
    }

    /// Returns how many bytes there are.
    pub fn len(&self) -> usize {
        self.bytes.len()
    }

    /// Appends spaces until there are so many bytes, but at most 80 spaces.
    pub fn fill(&mut self, length: usize) {
        let lacking = length.saturating_sub(self.bytes.len());
        self.bytes(SPACES.get(..lacking).unwrap_or(SPACES));
    }

    /// Appends the words, and spaces behind them up to this width.
    pub fn wide(&mut self, words: &str, width: usize) {
        let end = self.len().saturating_add(width);
        self.words(words);
        self.fill(end);
    }
}

/// Whether the byte is printable ASCII, which includes the space.
pub(crate) fn is_printable(byte: u8) -> bool
    ensures { IsTrue result → IsPlain byte }
{
    32 <= byte && byte <= 126
}

/// Returns the byte, or a dot if it isn't printable.
fn plain_for(byte: u8) -> u8
    ensures { IsPlain result }
{
    if is_printable(byte) { byte } else { b'.' }
}
