//! Reads a text in quotes.
ghost use Rattle.std.specs.Prelude.{◌<◌, IfSome};

use crate::fault::{Cause, Fault};
use crate::line::Word;
use std::alloc::Global;

/// Returns the bytes of a text in quotes, filled up with zeros to whole words of four bytes.
pub fn bytes_of<'a>(alloc: Global, word: &Word<'a>) -> Result<Vec<u8>, Fault<'a>> {
    let mut bytes = Vec::new(alloc);
    match word.text {
        [b'"', quoted @ .., b'"'] => append(quoted, word, &mut bytes)?,
        _ => return Err(Fault::At(word.column, Cause::NoQuote)),
    }
    for _ in 0..3 {
        if bytes.len() % 4 != 0 {
            bytes.push(0)?;
        }
    }
    Ok(bytes)
}

/// Appends the bytes that a text stands for.
fn append<'a>(quoted: &[u8], word: &Word<'a>, bytes: &mut Vec<u8>) -> Result<(), Fault<'a>> {
    let mut rest = quoted;
    for _ in 0..quoted.len() {
        if rest.is_empty() {
            return Ok(());
        }
        let Some((byte, behind)) = first_byte(rest) else {
            return Err(Fault::At(word.column, Cause::NoText(word.text)));
        };
        bytes.push(byte)?;
        rest = behind;
    }
    Ok(())
}

/// Returns the byte that the text begins with, and what is behind it. A quote, a backslash and other bytes than printable
/// ASCII are written with a backslash.
fn first_byte(text: &[u8]) -> Option<(u8, &[u8])> {
    match text {
        [b'\\', b'x', high, low, rest @ ..] => Some((digit(*high)? * 16 + digit(*low)?, rest)),
        [b'\\', b'"', rest @ ..] => Some((b'"', rest)),
        [b'\\', b'\\', rest @ ..] => Some((b'\\', rest)),
        [byte, rest @ ..] if is_plain(*byte) => Some((*byte, rest)),
        _ => None,
    }
}

/// Whether the byte stands for itself.
fn is_plain(byte: u8) -> bool {
    32 <= byte && byte <= 126 && byte != b'"' && byte != b'\\'
}

/// Returns the value of a hexadecimal digit.
fn digit(byte: u8) -> Option<u8>
    ensures { IfSome result (λ value. value < 16) }
{
    match byte {
        b'0'..=b'9' => Some(byte - b'0'),
        b'a'..=b'f' => Some(byte - b'a' + 10),
        b'A'..=b'F' => Some(byte - b'A' + 10),
        _ => None,
    }
}
