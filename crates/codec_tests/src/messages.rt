//! Messages read, and made those that a receiver gets.
ghost use Rattle.std.specs.Prelude.{◌≡◌, ◌<◌, ◌^◌, length};
ghost use Rattle.message_codec.specs.Spans.{word_count};

use mach_types::{MsgReturn, Name};
use message_codec::{
    Header, Parsed, PortWord, Short, ShortKind, ShortRight, Span, Spans, parse, parse_short,
    put_received,
};
use smallvec::SmallVec;
use std::alloc::{AllocError, Global};

/// A message to the port under 1, made by a send right, with the id 7.
const SMALLEST: [u8; 24] = [
    0x14, 0, 0, 0, 0x18, 0, 0, 0, 1, 0, 0, 0, 0, 0, 0, 0, 0, 0, 0, 0, 7, 0, 0, 0,
];

/// The same with a body of items.
const COMPLEX: [u8; 24] = [
    0x14, 0, 0, 0x80, 0x18, 0, 0, 0, 1, 0, 0, 0, 0, 0, 0, 0, 0, 0, 0, 0, 7, 0, 0, 0,
];

/// The smallest message with these bytes as its first and fourth word.
fn with_words(bits: [u8; 4], local: u8) -> [u8; 24] {
    let [b0, b1, b2, b3] = bits;
    [
        b0, b1, b2, b3, 0x18, 0, 0, 0, 1, 0, 0, 0, local, 0, 0, 0, 0, 0, 0, 0, 7, 0, 0, 0,
    ]
}

fn with_items(alloc: Global, body: &[u8]) -> Result<Vec<u8>, AllocError> {
    let mut bytes = Vec::from_slice(alloc, &COMPLEX)?;
    bytes.extend_from_slice(body)?;
    Ok(bytes)
}

/// Whether the bytes are a message, or why not.
fn judged(alloc: Global, bytes: &[u8]) -> Result<(), MsgReturn> {
    match parse(alloc, bytes) {
        Ok(_) => Ok(()),
        Err(code) => Err(code),
    }
}

fn judged_items(alloc: Global, body: &[u8]) -> Result<(), MsgReturn> {
    match with_items(alloc, body) {
        Ok(bytes) => judged(alloc, &bytes),
        Err(_) => Err(MsgReturn::SendNoBuffer),
    }
}

/// Returns whether a message says what the smallest one says, with these dispositions and local name.
fn is_header(parsed: &Parsed, kinds: (u8, u8), local: u32) -> bool {
    parsed.remote_kind == kinds.0
        && parsed.local_kind == kinds.1
        && parsed.remote.number() == 1
        && parsed.local.number() == local
        && parsed.id == 7
        && !parsed.is_complex
        && parsed.spans.as_slice().is_empty()
}

fn is_parsed(alloc: Global, bits: [u8; 4], local: u8, kinds: (u8, u8)) -> bool {
    match parse(alloc, &with_words(bits, local)) {
        Ok(parsed) => is_header(&parsed, kinds, u32::from(local)),
        Err(_) => false,
    }
}

#[test]
fn parses_headers(rt: HostRuntime) {
    let has_no_reply = is_parsed(rt.alloc(), [0x14, 0, 0, 0], 0, (20, 0));
    assert!(rt; has_no_reply && is_parsed(rt.alloc(), [17, 21, 0, 0], 9, (17, 21)));
}

// Bits and the local name of headers that are refused.
const WRONG: [([u8; 4], u8); 8] = [
    ([0x14, 0, 0, 0x40], 0),
    ([0x14, 0, 1, 0], 0),
    ([0x10, 0, 0, 0], 0),
    ([0x16, 0, 0, 0], 0),
    ([0x14, 0x10, 0, 0], 2),
    ([0x14, 0x16, 0, 0], 2),
    ([0x14, 0, 0, 0], 2),
    ([0x14, 0, 0, 0xc0], 0),
];

#[test]
fn refuses_headers(rt: HostRuntime) {
    for (bits, local) in &WRONG {
        let told = judged(rt.alloc(), &with_words(*bits, *local));
        assert!(rt; told == Err(MsgReturn::SendInvalidHeader));
    }
}

fn judged_length(alloc: Global, length: usize) -> Result<(), MsgReturn> {
    match zeros_behind(alloc, length) {
        Ok(bytes) => judged(alloc, &bytes),
        Err(_) => Err(MsgReturn::SendNoBuffer),
    }
}

/// The smallest message, with zeros behind it or cut to so many bytes.
fn zeros_behind(alloc: Global, length: usize) -> Result<Vec<u8>, AllocError> {
    let mut bytes = Vec::from_slice(alloc, &SMALLEST)?;
    bytes.resize(length, 0)?;
    Ok(bytes)
}

// How many bytes a message has, and what is told of it.
const LENGTHS: [(usize, Result<(), MsgReturn>); 5] = [
    (20, Err(MsgReturn::SendMsgTooSmall)),
    (22, Err(MsgReturn::SendMsgTooSmall)),
    (65_536, Ok(())),
    (65_538, Err(MsgReturn::SendMsgTooSmall)),
    (65_540, Err(MsgReturn::SendInvalidData)),
];

#[test]
fn judges_lengths(rt: HostRuntime) {
    for (length, told) in &LENGTHS {
        assert!(rt; judged_length(rt.alloc(), *length) == *told);
    }
}

// Bodies that are refused, and why.
const HOSTILE: [(&[u8], MsgReturn); 3] = [
    (
        &[0, 0, 0, 0x30, 8, 0, 0xff, 0xff, 0xff, 0xff, 0xff, 0xff],
        MsgReturn::SendMsgTooSmall,
    ),
    (&[8, 8, 0, 0x50], MsgReturn::SendInvalidType),
    (
        &[8, 8, 5, 0x10, 0x41, 0x42, 0x43, 0x44],
        MsgReturn::SendMsgTooSmall,
    ),
];

#[test]
fn refuses_items(rt: HostRuntime) {
    for (body, code) in &HOSTILE {
        assert!(rt; judged_items(rt.alloc(), body) == Err(*code));
    }
}

// A message of two port words, five bytes, and a port word in a long descriptor.
const SENT: [u8; 64] = [
    0x14, 0, 0, 0x80, 0x18, 0, 0, 0, 1, 0, 0, 0, 0, 0, 0, 0, 0, 0, 0, 0, 7, 0, 0, 0, 0x14, 0x20, 2,
    0x10, 0, 0, 0, 0, 0xff, 0xff, 0xff, 0xff, 8, 8, 5, 0x10, 1, 2, 3, 4, 5, 0xaa, 0xbb, 0xcc, 0, 0,
    0, 0x30, 0x15, 0, 0x20, 0, 1, 0, 0, 0, 9, 0, 0, 0,
];

const SPANS: [Span; 2] = [
    Span {
        at: 24,
        long: false,
        disposition: 20,
        number: 2,
    },
    Span {
        at: 48,
        long: true,
        disposition: 21,
        number: 1,
    },
];

// A message of an item that is no port word.
const PLAIN: [u8; 28] = [
    0x14, 0, 0, 0x80, 0x18, 0, 0, 0, 1, 0, 0, 0, 0, 0, 0, 0, 0, 0, 0, 0, 7, 0, 0, 0, 8, 8, 0, 0x10,
];

fn has_spans(alloc: Global, bytes: &[u8], spans: &[Span]) -> bool {
    match parse(alloc, bytes) {
        Ok(parsed) => parsed.is_complex && parsed.spans.as_slice() == spans,
        Err(_) => false,
    }
}

fn no_spans(alloc: Global) -> bool {
    let none = Spans::from_small_vec(SmallVec::new(alloc));
    none.as_slice().is_empty()
}

fn with_many_items(alloc: Global) -> Result<Vec<u8>, AllocError> {
    let mut bytes = Vec::from_slice(alloc, &COMPLEX)?;
    for _ in 0..9 {
        bytes.extend_from_slice(&[0x11, 0x20, 1, 0x10, 0, 0, 0, 0])?;
    }
    Ok(bytes)
}

fn spans_of_many(alloc: Global) -> Option<usize> {
    let bytes = with_many_items(alloc).ok()?;
    let parsed = parse(alloc, &bytes).ok()?;
    Some(parsed.spans.as_slice().len())
}

#[test]
fn finds_port_words(rt: HostRuntime) {
    assert!(rt; has_spans(rt.alloc(), &SENT, &SPANS) && has_spans(rt.alloc(), &PLAIN, &[]));
    assert!(rt; no_spans(rt.alloc()) && spans_of_many(rt.alloc()) == Some(9));
}

// A message of one port word and nothing else.
const ONE_RIGHT: [u8; 32] = [
    0x14, 0, 0, 0x80, 0x20, 0, 0, 0, 1, 0, 0, 0, 0, 0, 0, 0, 0, 0, 0, 0, 7, 0, 0, 0, 0x11, 0x20, 1,
    0x10, 9, 0, 0, 0,
];

// Where another byte makes it another message, or none: another destination, one to answer with, raw bytes,
// a name where there is none to answer with; and another descriptor.
const NO_ONE_RIGHT: [(usize, u8); 8] = [
    (0, 0x16),
    (1, 0x12),
    (3, 0),
    (12, 2),
    (24, 0x0f),
    (25, 8),
    (26, 0),
    (27, 0x30),
];

fn is_one_right_with(at: usize, byte: u8) -> bool {
    let mut bytes = ONE_RIGHT;
    if let Some(place) = bytes.get_mut(at) {
        *place = byte;
    }
    parse_short(&bytes, ShortKind::Body).is_some()
}

#[test]
fn reads_a_body_of_one_right(rt: HostRuntime) {
    let word = PortWord {
        disposition: 17,
        name: Name::new(9),
    };
    let short = Short {
        destination: PortWord {
            disposition: 20,
            name: Name::new(1),
        },
        id: 7,
        right: Some(ShortRight::Body(word)),
    };
    assert!(rt; ShortKind::of(&ONE_RIGHT) == ShortKind::Body);
    assert!(rt; parse_short(&ONE_RIGHT, ShortKind::Body) == Some(short));
    assert!(rt; has_spans(rt.alloc(), &ONE_RIGHT, &[Span::of_one_word(17)]));
}

#[test]
fn reads_no_other_as_a_body_of_one_right(rt: HostRuntime) {
    for (at, byte) in &NO_ONE_RIGHT {
        assert!(rt; !is_one_right_with(*at, *byte), "at {at}");
    }
    assert!(rt;
        is_one_right_with(24, 16) && is_one_right_with(24, 21) && !is_one_right_with(24, 22)
    );
    assert!(rt; parse_short(&ONE_RIGHT[..28], ShortKind::Body).is_none());
    assert!(rt; parse_short(&SENT, ShortKind::Body).is_none());
}

// The message as its receiver gets it.
const RECEIVED: [u8; 64] = [
    0, 0x11, 0, 0x80, 0x40, 0, 0, 0, 0, 0, 0, 0, 4, 3, 2, 1, 5, 0, 0, 0, 7, 0, 0, 0, 0x11, 0x20, 2,
    0x10, 0, 0, 0, 0, 0xff, 0xff, 0xff, 0xff, 8, 8, 5, 0x10, 1, 2, 3, 4, 5, 0xaa, 0xbb, 0xcc, 0, 0,
    0, 0x30, 0x12, 0, 0x20, 0, 1, 0, 0, 0, 2, 0, 0, 0,
];

/// How many port words the items have.
fn count_words(spans: &[Span]) -> u64
    requires { length spans.now < 2 ^ 32 }
    ensures { result ≡ word_count spans.now }
{
    let mut count = 0;
    for span in spans {
        count += u64::from(span.number);
    }
    count
}

/// Makes the message the one that a receiver gets, where it has as many port words as names.
fn receive(alloc: Global, bytes: &mut [u8], header: &Header, names: &[Name]) -> bool {
    let Ok(parsed) = parse(alloc, bytes) else {
        return false;
    };
    let spans = parsed.spans.as_slice();
    if spans.len() > 100 || count_words(spans) != names.len() as u64 {
        return false;
    }
    put_received(bytes, spans, header, names);
    true
}

#[test]
fn receives_items(rt: HostRuntime) {
    let header = Header {
        bits: 0x8000_1100,
        size: 64,
        remote: Name::null(),
        local: Name::new(0x0102_0304),
        sequence: 5,
        id: 7,
    };
    let mut bytes = SENT;
    let names = [Name::null(), Name::dead(), Name::new(2)];
    assert!(rt; receive(rt.alloc(), &mut bytes, &header, &names) && bytes == RECEIVED);
}
