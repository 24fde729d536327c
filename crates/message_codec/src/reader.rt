//! Reading a message that was received.
ghost use Rattle.std.specs.Prelude.{◌≡◌, ℕ, ◌+◌, ◌/◌, ◌%◌, ◌^◌, ◌<◌, ◌≤◌, ◌⊎◌, [], List, length, drop, slice_get, All, IfSome, IfNone, IfErr, OnOk};
ghost use Rattle.std.specs.Iterator.{at_most};
ghost use Rattle.mach_types.specs.Grammar.{Header as AnyHeader, Wire, WireBody, IsWire, Spells, wires_text, words_text};
ghost use Rattle.mach_types.specs.Numbers.{most_bytes};
ghost use Rattle.mach_types.specs.Codes.{msg_number};
ghost use Rattle.mach_types.specs.TextGuards.{ItemsRefuse, is_bit, word_at};
ghost use Rattle.message_codec.specs.Parses.{header_at};
ghost use Rattle.message_codec.specs.Reading.{ReadsItems};
ghost use Rattle.message_codec.specs.declared.spans.Span.{Span};
ghost use Rattle.message_codec.specs.ReceivedShows.{FirstOf, GivesItem, HasBody, HeaderShows, ItemOf, NotBody, Shows, ShowsBoth};
ghost use Rattle.message_codec.specs.Writing.{IsWritten, written_body, written_header};
ghost use Rattle.message_codec.specs.declared.writer.SendBody.{SendBody as AnySendBody};
ghost use Rattle.message_codec.specs.declared.writer.SendHeader.{SendHeader as AnySendHeader};

use crate::header::{HEADER_BYTES, is_complex, local_kind, remote_kind};
use crate::items::read_item;
use mach_types::limits::MOST_BYTES;
use mach_types::{MsgReturn, Name};
use type_descriptor::{Descriptor, data_len, descriptor_len, read_descriptor, read_word};

/// The header of a message that was received.
#[derive(Clone, Copy, Debug, PartialEq, Eq)]
pub struct ReceivedHeader {
    /// The kind of the reply right: 17, 18, or 0 where there is none.
    pub remote_kind: u8,
    /// The kind of right that the message was sent to.
    pub local_kind: u8,
    /// The length of the whole message in bytes.
    pub size: u32,
    /// The name of the reply right: 0 where there is none, `ffffffff` where its port has died.
    pub remote: Name,
    /// The name of the port received from.
    pub local: Name,
    /// The message's number in its port's order, modulo 2^32.
    pub sequence: u32,
    /// The sender's id.
    pub id: u32,
}

/// An item of data.
#[derive(Clone, Copy, Debug)]
pub struct ReceivedData<'a> {
    /// The type.
    pub type_name: u8,
    /// The bits of an element.
    pub size: u16,
    /// How many elements there are.
    pub number: u32,
    /// The elements, padding not counted.
    pub bytes: &'a [u8],
}

/// An item of port words.
#[derive(Clone, Copy, Debug)]
pub struct ReceivedPorts<'a> {
    /// The kind of the rights.
    pub kind: u8,
    /// The words as bytes.
    words: &'a [u8],
}

/// An item of a message.
#[derive(Clone, Copy, Debug)]
pub enum ReceivedItem<'a> {
    /// Data.
    Data(ReceivedData<'a>),
    /// Names of rights.
    Ports(ReceivedPorts<'a>),
}

/// The items of a message, from the front.
#[derive(Clone, Copy, Debug)]
pub struct ReceivedItems<'a> {
    /// The text of those that are left.
    bytes: &'a [u8],
}

/// The body of a message that was received.
#[derive(Clone, Copy, Debug)]
pub enum ReceivedBody<'a> {
    /// Raw bytes.
    Raw(&'a [u8]),
    /// A list of items.
    Items(ReceivedItems<'a>),
}

/// A message that was received.
#[derive(Clone, Copy, Debug)]
pub struct Received<'a> {
    /// The header.
    pub header: ReceivedHeader,
    /// The body.
    pub body: ReceivedBody<'a>,
}

impl<'a> ReceivedPorts<'a> {
    ghost use Rattle.std.specs.Prelude.{◌≡◌, ℕ, ◌^◌, ◌<◌, List, length, slice_get, All};
    ghost use Rattle.mach_types.specs.Grammar.{words_text};

    /// How many names there are.
    pub fn len(&self) -> usize
        ensures { (names : List ℕ) → self.now.words.now ≡ words_text names → result ≡ length names }
    {
        self.words.len() / 4
    }

    /// The name of this number, counted from 0, if there are so many.
    pub fn get(&self, index: usize) -> Option<Name>
        ensures { (names : List ℕ) → All (λ w. w < 2 ^ 32) names → self.now.words.now ≡ words_text names → result ≡ slice_get names index }
    {
        if index >= self.words.len() / 4 {
            return None;
        }
        Some(Name::new(read_word(self.words, 4 * index)))
    }
}

/// The item with this descriptor and these bytes.
fn item_of<'a>(descriptor: &Descriptor, bytes: &'a [u8]) -> ReceivedItem<'a>
    requires { descriptor.now.name < 256 }
    ensures { ItemOf descriptor.now bytes.now result }
{
    if (16..=21).contains(&descriptor.name) {
        return ReceivedItem::Ports(ReceivedPorts {
            kind: descriptor.name as u8,
            words: bytes,
        });
    }
    ReceivedItem::Data(ReceivedData {
        type_name: descriptor.name as u8,
        size: descriptor.size,
        number: descriptor.number,
        bytes,
    })
}

/// The first item, and the bytes after it, of a text of items that has one.
fn first_item(bytes: &[u8]) -> Option<(ReceivedItem<'_>, &[u8])>
    ensures shorter { IfSome result (λ r. length r.1.now < length bytes.now) }
    ensures first { (xs : List Wire) → All IsWire xs → bytes.now ≡ wires_text xs → FirstOf xs result }
{
    let Ok(descriptor) = read_descriptor(bytes, 0) else {
        return None;
    };
    let (_, rest) = bytes.split_at(descriptor_len(&descriptor));
    let len = data_len(&descriptor);
    if (rest.len() as u64) < len {
        return None;
    }
    let (elements, after) = rest.split_at(len as usize);
    let padding = (4 - elements.len() % 4) % 4;
    if after.len() < padding {
        return None;
    }
    let (_, after) = after.split_at(padding);
    Some((item_of(&descriptor, elements), after))
}

impl<'a> Iterator for ReceivedItems<'a> {
    type Item = ReceivedItem<'a>;

    ghost next_gives = { GivesItem };

    ghost remaining = { λ s. at_most (length s.bytes.now) };

    fn next(&mut self) -> Option<ReceivedItem<'a>> {
        let (item, rest) = first_item(self.bytes)?;
        self.bytes = rest;
        Some(item)
    }
}

/// Judges the body of items behind a header.
fn check_items(bytes: &[u8]) -> Result<(), MsgReturn>
    requires room { 24 ≤ length bytes.now }
    requires whole { length bytes.now % 4 ≡ 0 }
    requires fits { length bytes.now ≤ most_bytes }
    ensures ok { OnOk result ((spans : List Span) × ReadsItems bytes.now spans) }
    ensures err { IfErr result (λ code. ItemsRefuse (drop 24 bytes.now) (msg_number code)) }
{
    let mut at = HEADER_BYTES;
    while at < bytes.len() {
        at = read_item(bytes, at)?.end;
    }
    Ok(())
}

/// The body behind a header.
fn read_body(bytes: &[u8]) -> Option<ReceivedBody<'_>>
    requires room { 24 ≤ length bytes.now }
    requires whole { length bytes.now % 4 ≡ 0 }
    requires fits { length bytes.now ≤ most_bytes }
    ensures some { IfSome result (λ body. HasBody bytes.now body) }
    ensures none { IfNone result (NotBody bytes.now) }
{
    let (_, body) = bytes.split_at(HEADER_BYTES);
    if !is_complex(read_word(bytes, 0)) {
        return Some(ReceivedBody::Raw(body));
    }
    match check_items(bytes) {
        Ok(()) => Some(ReceivedBody::Items(ReceivedItems { bytes: body })),
        Err(_) => None,
    }
}

/// The words of a header.
fn read_header(bytes: &[u8]) -> ReceivedHeader
    requires { 24 ≤ length bytes.now }
    ensures { HeaderShows result (header_at bytes.now) }
{
    let bits = read_word(bytes, 0);
    ReceivedHeader {
        remote_kind: remote_kind(bits),
        local_kind: local_kind(bits),
        size: read_word(bytes, 4),
        remote: Name::new(read_word(bytes, 8)),
        local: Name::new(read_word(bytes, 12)),
        sequence: read_word(bytes, 16),
        id: read_word(bytes, 20),
    }
}

/// Returns what the bytes of a received message say (IPC Interface, `mach_msg`), or nothing where they are no
/// message. They are none with fewer than 24 bytes or more than 65,536, with no whole words, or with an
/// unknown bit in the first word. They are none either with a list of items of which one is no item or
/// doesn't end within the bytes. The dispositions are not looked at. Takes no memory: data and names are read
/// where they stand. The time grows with the number of items.
pub fn read_received(bytes: &[u8]) -> Option<Received<'_>>
    ensures some { IfSome result (λ message. Shows bytes.now message) }

    // Of any text just its fields, and of one that was written just those of which it was made.
    ensures all { IfSome result (λ message. (header : AnyHeader) (written : WireBody) → Spells bytes.now header written → ShowsBoth message header written) }
    ensures back { IfSome result (λ message. (header : AnySendHeader) (body : AnySendBody) → IsWritten bytes.now header body
        → ShowsBoth message (written_header header (length bytes.now)) (written_body body)) }
    ensures none { IfNone result ((header : AnyHeader) (written : WireBody) → Spells bytes.now header written → most_bytes < length bytes.now) }
{
    if bytes.len() < HEADER_BYTES || bytes.len() % 4 != 0 || bytes.len() > MOST_BYTES {
        return None;
    }
    if read_word(bytes, 0) / 0x1_0000 % 0x8000 != 0 {
        return None;
    }
    let Some(body) = read_body(bytes) else {
        return None;
    };
    Some(Received {
        header: read_header(bytes),
        body,
    })
}
