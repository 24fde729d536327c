//! Bytes of messages, written so that they are safe for a terminal.
use crate::text::{Text, is_printable};

/// How many bytes are written in hexadecimal.
const SHOWN: usize = 16;

/// Writes data: its first 16 bytes in hexadecimal, and how many more there are. If the data is text, it follows in
/// quotes. Data is text if, without the zeros at its end, it is printable and has no quote and no backslash. Linear in
/// the data.
pub fn write_data(data: &[u8], out: &mut Text) {
    write_digits(data.get(..SHOWN).unwrap_or(data), out);
    if data.len() > SHOWN {
        out.words(".. ");
        out.number((data.len() - SHOWN) as u64);
        out.words(" more");
    }
    write_quoted(without_zeros(data), out);
}

/// Writes the bytes in hexadecimal.
fn write_digits(bytes: &[u8], out: &mut Text) {
    for byte in bytes {
        out.hexadecimal(*byte);
    }
}

/// Writes a space and the text in quotes, or nothing if it can't be quoted.
fn write_quoted(text: &[u8], out: &mut Text) {
    if !text.is_empty() && is_quotable(text) {
        out.words(" \"");
        out.plain(text);
        out.words("\"");
    }
}

/// Whether all bytes are printable, and none is a quote or a backslash.
fn is_quotable(text: &[u8]) -> bool {
    for byte in text {
        if !is_printable(*byte) || *byte == b'"' || *byte == b'\\' {
            return false;
        }
    }
    true
}

/// Returns the data without the zeros at its end.
fn without_zeros(data: &[u8]) -> &[u8] {
    let mut end = 0;
    for (place, byte) in data.iter().enumerate() {
        if *byte != 0 {
            end = place + 1;
        }
    }
    data.get(..end).unwrap_or(data)
}

/// Returns the little-endian word at a byte offset; `None` if fewer than four bytes are left there. Constant time.
pub fn word_at(bytes: &[u8], at: usize) -> Option<u32> {
    let rest = bytes.get(at..)?;
    let (word, _) = rest.split_first_chunk::<4>()?;
    Some(u32::from_le_bytes(*word))
}
