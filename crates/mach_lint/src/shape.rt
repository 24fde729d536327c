//! The shape of a line: words with one space between them.
use crate::fault::Fault;
use memchr::{memchr, memmem};

/// Finds the first fault of the line's shape. Columns count from 1.
pub(crate) fn shape_fault(line: &[u8]) -> Option<Fault<'_>> {
    if line.is_empty() {
        return Some(Fault::Empty);
    }
    if let Some(column) = column_of(line, b'\r') {
        return Some(Fault::CarriageReturn(column));
    }
    if let Some(column) = column_of(line, b'\t') {
        return Some(Fault::Tab(column));
    }
    if is_comment(line) {
        return Some(Fault::Comment);
    }
    if let Some(fault) = byte_fault(line) {
        return Some(fault);
    }
    space_fault(line)
}

/// Returns the column of the byte's first occurrence.
fn column_of(line: &[u8], byte: u8) -> Option<usize> {
    memchr(byte, line)?.checked_add(1)
}

/// Whether the line's first word begins a comment.
fn is_comment(line: &[u8]) -> bool {
    for (place, byte) in line.iter().enumerate() {
        if *byte != b' ' {
            return begins_comment(line.get(place..));
        }
    }
    false
}

/// Whether the text begins a comment.
fn begins_comment(text: Option<&[u8]>) -> bool {
    matches!(text, Some([b'#', ..] | [b'/', b'/', ..]))
}

/// Finds the first byte that isn't printable ASCII.
fn byte_fault(line: &[u8]) -> Option<Fault<'_>> {
    for (place, byte) in line.iter().enumerate() {
        if *byte < 32 || *byte > 126 {
            return Some(Fault::NoText(place.saturating_add(1), *byte));
        }
    }
    None
}

/// Finds a space where none may stand.
fn space_fault(line: &[u8]) -> Option<Fault<'_>> {
    if line.first() == Some(&b' ') {
        return Some(Fault::SpaceBefore);
    }
    if line.last() == Some(&b' ') {
        return Some(Fault::SpaceBehind);
    }
    let place = memmem::find(line, b"  ")?;
    Some(Fault::TwoSpaces(place.saturating_add(1)))
}
