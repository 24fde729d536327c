//! Reading a message's text.
ghost use Rattle.std.specs.Prelude.{◌≡◌, ◌≢◌, ℕ, ◌+◌, ◌*◌, ◌%◌, ◌^◌, ◌≤◌, ◌⊎◌, [], IfOk, IfErr, OnOk, IfSome, IfNone, length};
ghost use Rattle.mach_types.specs.declared.codes.MsgReturn.TheVariants.{SendNoBuffer};
ghost use Rattle.mach_types.specs.Codes.{msg_number};
ghost use Rattle.mach_types.specs.Grammar.{Header as AnyHeader, WireBody, Spells, NamesPorts};
ghost use Rattle.mach_types.specs.Guards.{NoneHolds};
ghost use Rattle.mach_types.specs.TextGuards.{TextRefuses, header_guards, word_at};
ghost use Rattle.message_codec.specs.Parses.{Parses, ReadsBody, IsCrowded};
ghost use Rattle.message_codec.specs.Short.{IsOfKind, ReadsShort};
ghost use Rattle.message_codec.specs.declared.text.ShortKind.TheVariants as kind_of;
ghost use Rattle.message_codec.specs.declared.text.ShortKind.{ShortKind as AnyKind};
ghost use Rattle.message_codec.specs.declared.text.Parsed.{Parsed as AnyParsed};
ghost use Rattle.message_codec.specs.Spans.{inline_spans};

use crate::header::{HEADER_BYTES, check_header, is_complex, local_kind, remote_kind};
use crate::items::read_spans;
use crate::spans::{Span, Spans};
use crate::words::PortWord;
use mach_types::{MsgReturn, Name};
use smallvec::SmallVec;
use std::alloc::Global;
use type_descriptor::read_word;

/// What the kernel needs of a message's text. The size and sequence words of a sent message are not
/// looked at.
#[derive(Debug, Drop)]
pub struct Parsed {
    /// The disposition of the destination, 17 to 21.
    pub remote_kind: u8,
    /// The disposition of the reply right, 17 to 21, or 0 where there is none.
    pub local_kind: u8,
    /// Whether the body is a list of items.
    pub is_complex: bool,
    /// The sender's name of the destination.
    pub remote: Name,
    /// The sender's name of the reply right, 0 where there is none.
    pub local: Name,
    /// The id.
    pub id: u32,
    /// Where the port words of the body stand.
    pub spans: Spans,
}

/// The right that a short message carries beside that of its destination.
#[derive(Clone, Copy, Debug, PartialEq, Eq)]
pub enum ShortRight {
    /// Its reply right, whose disposition is 17 to 21.
    Reply(PortWord),
    /// The only right of its body, whose disposition is 16 to 21.
    Body(PortWord),
}

/// What the kernel needs of a short message. It carries one right at most beside that of its destination: a
/// reply right, or the only right of its body. That body is one item of one port word, whose descriptor is in
/// the short form. Any other body is raw bytes.
#[derive(Clone, Copy, Debug, PartialEq, Eq)]
pub struct Short {
    /// The word of the destination, whose disposition is 17 to 21.
    pub destination: PortWord,
    /// The id.
    pub id: u32,
    /// The right that it carries beside that of its destination, if it carries one.
    pub right: Option<ShortRight>,
}

/// What a short message carries beside the right of its destination.
#[derive(Clone, Copy, Debug, PartialEq, Eq)]
pub enum ShortKind {
    /// Nothing.
    Alone,
    /// Its reply right.
    Reply,
    /// The only right of its body.
    Body,
}

/// How many bytes a body of one right has with its header: a descriptor and a port word.
const ONE_RIGHT_BYTES: usize = HEADER_BYTES + 8;

/// The upper 24 bits of its descriptor: one datum of 32 bits, in the message itself.
const ONE_RIGHT_DESCRIPTOR: u32 = 0x10_0120;

/// Puts the spans of a body whose header is judged already into a list that has none.
fn read_body(spans: &mut SmallVec<Span, 8>, bytes: &[u8]) -> Result<(), MsgReturn>
    requires judged { NoneHolds (header_guards bytes.now) }
    requires none { spans.old.items ≡ [] }
    requires inline { spans.old.capacity ≡ inline_spans }
    ensures ok { OnOk result (ReadsBody bytes.now spans.new.items) }
    ensures err { IfErr result (λ code. TextRefuses bytes.now (msg_number code)
        ⊎ (code ≡ SendNoBuffer) × IsCrowded bytes.now) }
{
    if is_complex(read_word(bytes, 0)) {
        read_spans(spans, bytes)
    } else {
        Ok(())
    }
}

/// Returns what these bytes say, as far as the kernel needs it (IPC Interface, `mach_msg`). The bytes are a
/// whole text, and nothing follows it.
///
/// # Errors
/// Each comes only for its fault, and the first of these faults gives the code:
/// - [`MsgReturn::SendMsgTooSmall`]: fewer than 24 bytes, or a number of them that is no multiple of 4.
/// - [`MsgReturn::SendInvalidData`]: more than 65,536 bytes.
/// - [`MsgReturn::SendInvalidHeader`]: an unknown bit; a remote disposition that is not 17 to 21; a local one
///   that is neither 0 nor 17 to 21; or, where that is 0, a local port other than 0.
/// - With `MACH_MSGH_BITS_COMPLEX`, item by item from the front: the faults of a descriptor, with the codes
///   of [`type_descriptor::read_descriptor`], and then [`MsgReturn::SendMsgTooSmall`]: data past the end.
/// - [`MsgReturn::SendNoBuffer`]: memory was refused. No other fault is there, and more than 8 items have
///   port words.
///
/// Up to 8 items with port words take no memory. The time grows with the number of items: raw bytes and data
/// aren't looked at.
pub fn parse(alloc: Global, bytes: &[u8]) -> Result<Parsed, MsgReturn>
    ensures ok { IfOk result (λ parsed. Parses bytes.now parsed) }
    ensures err { IfErr result (λ code. TextRefuses bytes.now (msg_number code)
        ⊎ (code ≡ SendNoBuffer) × IsCrowded bytes.now) }

    // Each text of the grammar whose header is lawful is read, unless memory is refused.
    ensures whole { (header : AnyHeader) (written : WireBody) → Spells bytes.now header written
        → NoneHolds (header_guards bytes.now)
        → IfErr result (λ code. (code ≡ SendNoBuffer) × IsCrowded bytes.now) }
{
    check_header(bytes)?;
    let mut spans = SmallVec::new(alloc);
    read_body(&mut spans, bytes)?;
    let bits = read_word(bytes, 0);
    Ok(Parsed {
        remote_kind: remote_kind(bits),
        local_kind: local_kind(bits),
        remote: Name::new(read_word(bytes, 8)),
        local: Name::new(read_word(bytes, 12)),
        id: read_word(bytes, 20),
        is_complex: is_complex(bits),
        spans: Spans::from_small_vec(spans),
    })
}

impl ShortKind {
    ghost use Rattle.message_codec.specs.declared.text.Parsed.{Parsed as AnyParsed};
    ghost use Rattle.message_codec.specs.Parses.{Parses};
    ghost use Rattle.message_codec.specs.Short.{IsOfKind};

    /// The kind that these bytes are of, if they are a short message. Looks at the first word alone.
    #[inline(always)]
    pub fn of(bytes: &[u8]) -> ShortKind
        ensures { (parsed : AnyParsed) (kind : AnyKind) → Parses bytes.now parsed → IsOfKind kind bytes.now parsed → result ≡ kind }
    {
        if bytes.len() < HEADER_BYTES {
            return ShortKind::Alone;
        }
        let bits = read_word(bytes, 0);
        if is_complex(bits) {
            ShortKind::Body
        } else if local_kind(bits) == 0 {
            ShortKind::Alone
        } else {
            ShortKind::Reply
        }
    }
}

/// The word of the destination.
#[inline(always)]
fn destination_word(bytes: &[u8], bits: u32) -> PortWord
    requires { 8 + 4 ≤ length bytes.now }
    ensures { result ≡ record { disposition = bits % 2 ^ 8; name = word_at bytes.now 8 } }
{
    PortWord {
        disposition: remote_kind(bits),
        name: Name::new(read_word(bytes, 8)),
    }
}

/// What the bytes say, if they are a text without a reply right whose body is raw bytes.
#[inline(always)]
fn parse_alone(bytes: &[u8]) -> Option<Short>
    ensures some { IfSome result (λ short. ReadsShort bytes.now short) }
    ensures none { IfNone result ((parsed : AnyParsed) → Parses bytes.now parsed → ¬ (IsOfKind kind_of.Alone bytes.now parsed)) }
{
    if bytes.len() < HEADER_BYTES {
        return None;
    }
    let bits = read_word(bytes, 0);
    if is_complex(bits) || local_kind(bits) != 0 {
        return None;
    }
    let Ok(()) = check_header(bytes) else {
        return None;
    };
    Some(Short {
        destination: destination_word(bytes, bits),
        id: read_word(bytes, 20),
        right: None,
    })
}

/// What the bytes say, if they are a text with a reply right whose body is raw bytes.
#[inline(always)]
fn parse_with_reply(bytes: &[u8]) -> Option<Short>
    ensures some { IfSome result (λ short. ReadsShort bytes.now short) }
    ensures none { IfNone result ((parsed : AnyParsed) → Parses bytes.now parsed → ¬ (IsOfKind kind_of.Reply bytes.now parsed)) }
{
    if bytes.len() < HEADER_BYTES {
        return None;
    }
    let bits = read_word(bytes, 0);
    if is_complex(bits) || local_kind(bits) == 0 {
        return None;
    }
    let Ok(()) = check_header(bytes) else {
        return None;
    };
    let reply = PortWord {
        disposition: local_kind(bits),
        name: Name::new(read_word(bytes, 12)),
    };
    Some(Short {
        destination: destination_word(bytes, bits),
        id: read_word(bytes, 20),
        right: Some(ShortRight::Reply(reply)),
    })
}

/// The disposition that the descriptor of one port word in the short form says, if its word is one.
fn one_disposition(first: u32) -> Option<u8>
    ensures some { IfSome result (λ d. NamesPorts d × (first ≡ d + 32 * 2 ^ 8 + 1 * 2 ^ 16 + 2 ^ 28)) }
    ensures none { IfNone result ((d : ℕ) → NamesPorts d → first ≢ d + 32 * 2 ^ 8 + 1 * 2 ^ 16 + 2 ^ 28) }
{
    let disposition = (first % 0x100) as u8;
    if first / 0x100 != ONE_RIGHT_DESCRIPTOR || !(16..=21).contains(&disposition) {
        return None;
    }
    Some(disposition)
}

/// What the bytes say, if they are a text without a reply right whose body is one port word in the short form.
#[inline(always)]
fn parse_with_right(bytes: &[u8]) -> Option<Short>
    ensures some { IfSome result (λ short. ReadsShort bytes.now short) }
    ensures none { IfNone result ((parsed : AnyParsed) → Parses bytes.now parsed → ¬ (IsOfKind kind_of.Body bytes.now parsed)) }
{
    if bytes.len() != ONE_RIGHT_BYTES {
        return None;
    }
    let bits = read_word(bytes, 0);
    if !is_complex(bits) || local_kind(bits) != 0 {
        return None;
    }
    let Ok(()) = check_header(bytes) else {
        return None;
    };
    let Some(disposition) = one_disposition(read_word(bytes, HEADER_BYTES)) else {
        return None;
    };
    let name = Name::new(read_word(bytes, HEADER_BYTES + 4));
    Some(Short {
        destination: destination_word(bytes, bits),
        id: read_word(bytes, 20),
        right: Some(ShortRight::Body(PortWord { disposition, name })),
    })
}

/// Fast path of [`parse`] for a short message: returns what `parse` reads of it, without a list of spans.
/// `None` for a text that isn't short, or of another kind, and for bytes that are no text. Takes no memory.
/// Constant time, and in fewer steps where the kind is a constant.
#[inline(always)]
pub fn parse_short(bytes: &[u8], kind: ShortKind) -> Option<Short>
    ensures some { IfSome result (λ short. ReadsShort bytes.now short) }
    ensures none { IfNone result ((parsed : AnyParsed) → Parses bytes.now parsed → ¬ (IsOfKind kind bytes.now parsed)) }
{
    match kind {
        ShortKind::Alone => parse_alone(bytes),
        ShortKind::Reply => parse_with_reply(bytes),
        ShortKind::Body => parse_with_right(bytes),
    }
}
