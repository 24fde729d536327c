//! Bytes as hexadecimal digits.
ghost use Rattle.std.specs.Prelude.{◌≡◌, ℕ, List, length, ◌≤◌, ◌<◌, ◌^◌, ◌+◌, ◌*◌, ◌/◌, ◌%◌, IfSome, IfOk, Some, IsOkUnless, All, IsSome, [], ◌∷◌, ◌++◌, OnOk};
ghost use Rattle.std.specs.Io.KnownBytes.{Appends};
ghost use Rattle.tracer_base.specs.declared.fault.TextFault.TheVariants.{OutOfMemory};
ghost use Rattle.tracer_base.specs.Text.{hex_digit, hex_digits, bytes_text, code_text};

use crate::fault::TextFault;
use arrayvec::ArrayVec;
use mach_types::Bytes;
use std::alloc::Global;
use std::io;
use std::io::Write;

/// How many bytes have their digits written at once.
pub(crate) const BLOCK: usize = 32;

/// How many bytes the line of a short message has: its keyword, a block's digits and the line feed.
pub(crate) const LINE: usize = 73;

/// The two digits of each byte, one byte after another.
const PAIRS: [u8; 512] = *b"\
    000102030405060708090a0b0c0d0e0f101112131415161718191a1b1c1d1e1f\
    202122232425262728292a2b2c2d2e2f303132333435363738393a3b3c3d3e3f\
    404142434445464748494a4b4c4d4e4f505152535455565758595a5b5c5d5e5f\
    606162636465666768696a6b6c6d6e6f707172737475767778797a7b7c7d7e7f\
    808182838485868788898a8b8c8d8e8f909192939495969798999a9b9c9d9e9f\
    a0a1a2a3a4a5a6a7a8a9aaabacadaeafb0b1b2b3b4b5b6b7b8b9babbbcbdbebf\
    c0c1c2c3c4c5c6c7c8c9cacbcccdcecfd0d1d2d3d4d5d6d7d8d9dadbdcdddedf\
    e0e1e2e3e4e5e6e7e8e9eaebecedeeeff0f1f2f3f4f5f6f7f8f9fafbfcfdfeff";

/// The values of the digits, by their codes, and 256 for each code of no digit.
const VALUES: [u32; 256] = [
    256, 256, 256, 256, 256, 256, 256, 256, 256, 256, 256, 256, 256, 256, 256, 256, 256, 256, 256,
    256, 256, 256, 256, 256, 256, 256, 256, 256, 256, 256, 256, 256, 256, 256, 256, 256, 256, 256,
    256, 256, 256, 256, 256, 256, 256, 256, 256, 256, 0, 1, 2, 3, 4, 5, 6, 7, 8, 9, 256, 256, 256,
    256, 256, 256, 256, 256, 256, 256, 256, 256, 256, 256, 256, 256, 256, 256, 256, 256, 256, 256,
    256, 256, 256, 256, 256, 256, 256, 256, 256, 256, 256, 256, 256, 256, 256, 256, 256, 10, 11,
    12, 13, 14, 15, 256, 256, 256, 256, 256, 256, 256, 256, 256, 256, 256, 256, 256, 256, 256, 256,
    256, 256, 256, 256, 256, 256, 256, 256, 256, 256, 256, 256, 256, 256, 256, 256, 256, 256, 256,
    256, 256, 256, 256, 256, 256, 256, 256, 256, 256, 256, 256, 256, 256, 256, 256, 256, 256, 256,
    256, 256, 256, 256, 256, 256, 256, 256, 256, 256, 256, 256, 256, 256, 256, 256, 256, 256, 256,
    256, 256, 256, 256, 256, 256, 256, 256, 256, 256, 256, 256, 256, 256, 256, 256, 256, 256, 256,
    256, 256, 256, 256, 256, 256, 256, 256, 256, 256, 256, 256, 256, 256, 256, 256, 256, 256, 256,
    256, 256, 256, 256, 256, 256, 256, 256, 256, 256, 256, 256, 256, 256, 256, 256, 256, 256, 256,
    256, 256, 256, 256, 256, 256, 256, 256, 256, 256, 256, 256, 256, 256, 256, 256, 256, 256, 256,
    256, 256, 256, 256,
];

/// The first digit of the byte: `0` to `9` and `a` to `f`.
fn high_digit(byte: u8) -> u8
    ensures { result ≡ hex_digit (byte / 16) }
{
    PAIRS[2 * usize::from(byte)]
}

/// The second digit of the byte.
fn low_digit(byte: u8) -> u8
    ensures { result ≡ hex_digit (byte % 16) }
{
    PAIRS[2 * usize::from(byte) + 1]
}

/// The value of a digit, below 16; 256 for what is no digit, capital letters among it.
fn value_of(digit: u8) -> u32
    ensures most { result ≤ 256 }
    ensures spelled { result < 256 → (result < 16) × (hex_digit result ≡ digit) }
    ensures each { (value : ℕ) → value < 16 → hex_digit value ≡ digit → result ≡ value }
{
    VALUES[usize::from(digit)]
}

/// The byte of two digits.
#[inline(always)]
fn parse_pair(high: u8, low: u8) -> Option<u8>
    ensures high { IfSome result (λ byte. hex_digit (byte / 16) ≡ high) }
    ensures low { IfSome result (λ byte. hex_digit (byte % 16) ≡ low) }
    ensures each { (byte : ℕ) → byte < 256 → hex_digit (byte / 16) ≡ high → hex_digit (byte % 16) ≡ low
        → result ≡ Some byte }
{
    let value = value_of(high) * 16 + value_of(low);
    if value < 256 { Some(value as u8) } else { None }
}

/// The bytes that the text spells, two digits a byte, `-` for none.
///
/// `Bad` comes for every other text, the empty one among them, `OutOfMemory` where memory for the
/// bytes is refused.
pub fn parse_bytes(alloc: Global, text: &[u8]) -> Result<Bytes, TextFault>
    ensures ok { IfOk result (λ bytes. bytes_text bytes ≡ text.now) }
    ensures fits { IfOk result (λ bytes. All (λ byte. byte < 256) bytes) }
    ensures each { (bytes : List ℕ) → All (λ byte. byte < 256) bytes → bytes_text bytes ≡ text.now
        → IsOkUnless result OutOfMemory }
{
    match text {
        b"-" => Ok(Bytes::from_vec(Vec::new(alloc))),
        [] => Err(TextFault::Bad),
        _ => Ok(Bytes::from_vec(parse_pairs(alloc, text)?)),
    }
}

/// The byte that the first two digits spell, and what stands behind them.
#[inline(always)]
fn split_pair(text: &[u8]) -> Option<(u8, &[u8])>
    ensures some { IfSome result (λ pair. hex_digits (pair.0 ∷ []) ++ pair.1.now ≡ text.now) }
    ensures each { (byte : ℕ) (rest : List ℕ) → byte < 256 → hex_digits (byte ∷ []) ++ rest ≡ text.now
        → IfSome result (λ pair. pair.1.now ≡ rest) × IsSome result }
{
    let [high, low, rest @ ..] = text else {
        return None;
    };
    Some((parse_pair(*high, *low)?, rest))
}

/// The bytes that the text spells, two digits a byte. Faults are as for [`parse_bytes`].
fn parse_pairs(alloc: Global, text: &[u8]) -> Result<Vec<u8>, TextFault>
    ensures ok { IfOk result (λ bytes. hex_digits bytes.items ≡ text.now) }
    ensures fits { IfOk result (λ bytes. All (λ byte. byte < 256) bytes.items) }
    ensures each { (bytes : List ℕ) → All (λ byte. byte < 256) bytes → hex_digits bytes ≡ text.now
        → IsOkUnless result OutOfMemory }
{
    let Ok(mut bytes) = Vec::with_capacity(alloc, text.len() / 2) else {
        return Err(TextFault::OutOfMemory);
    };
    let mut rest = text;
    while rest.len() >= 2 {
        let (byte, others) = split_pair(rest).ok_or(TextFault::Bad)?;
        bytes.push_reserved(byte);
        rest = others;
    }
    if rest.is_empty() {
        Ok(bytes)
    } else {
        Err(TextFault::Bad)
    }
}

/// The code whose eight digits the text is; `None` where it is no such digits.
pub fn parse_code(text: &[u8]) -> Option<u32>
    ensures spelled { IfSome result (λ code. code_text code ≡ text.now) }
    ensures each { (code : ℕ) → code < 2 ^ 32 → code_text code ≡ text.now → IsSome result }
{
    let (first, rest) = split_pair(text)?;
    let (second, rest) = split_pair(rest)?;
    let (third, rest) = split_pair(rest)?;
    let (fourth, rest) = split_pair(rest)?;
    if rest.is_empty() {
        Some(u32::from_be_bytes([first, second, third, fourth]))
    } else {
        None
    }
}

/// Writes the bytes, two digits a byte, `-` for none.
///
/// An error is that of `out`; what was written before it stays.
pub fn write_bytes<W: Write>(bytes: &[u8], out: &mut W) -> io::Result<()>
    ensures { OnOk result (Appends (W.contents out.old) (W.contents out.new) (bytes_text bytes.now)) }
{
    match bytes {
        [] => out.write_all(b"-"),
        _ => write_pairs(bytes, out),
    }
}

/// Writes the bytes, two digits a byte, a block at a time. Errors are as for [`write_bytes`].
fn write_pairs<W: Write>(bytes: &[u8], out: &mut W) -> io::Result<()>
    ensures { OnOk result (Appends (W.contents out.old) (W.contents out.new) (hex_digits bytes.now)) }
{
    let mut rest = bytes;
    while let Some((block, others)) = rest.split_first_chunk::<BLOCK>() {
        write_block(block, out)?;
        rest = others;
    }
    write_block(rest, out)
}

/// Writes a block's bytes, two digits a byte. Errors are as for [`write_bytes`].
fn write_block<W: Write>(bytes: &[u8], out: &mut W) -> io::Result<()>
    requires { length bytes.now ≤ 32 }
    ensures { OnOk result (Appends (W.contents out.old) (W.contents out.new) (hex_digits bytes.now)) }
{
    let mut digits = ArrayVec::new();
    push_digits(bytes, &mut digits);
    out.write_all(digits.as_slice())
}

/// Puts the digits of a block's bytes at the end of the line, two digits a byte.
#[inline(always)]
pub(crate) fn push_digits(bytes: &[u8], line: &mut ArrayVec<u8, LINE>)
    requires { length line.old.items + 2 * length bytes.now ≤ 73 }
    ensures { line.new.items ≡ line.old.items ++ hex_digits bytes.now }
{
    for byte in bytes {
        line.push(high_digit(*byte));
        line.push(low_digit(*byte));
    }
}

/// The eight digits of the four bytes.
#[inline(always)]
pub fn four_digits(bytes: [u8; 4]) -> [u8; 8]
    ensures { result ≡ hex_digits bytes }
{
    let [first, second, third, fourth] = bytes;
    [
        high_digit(first),
        low_digit(first),
        high_digit(second),
        low_digit(second),
        high_digit(third),
        low_digit(third),
        high_digit(fourth),
        low_digit(fourth),
    ]
}
