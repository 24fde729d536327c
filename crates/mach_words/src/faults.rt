//! Why bytes are no message that can be sent, and that in words.
use crate::data::word_at;
use crate::phrase::Phrase;
use crate::text::Text;
use mach_types::limits::MOST_BYTES;

/// How many bytes a header has.
const HEADER: usize = 24;
/// More than the items of any body, each of which has four bytes or more.
const MOST_ITEMS: u32 = 16_385;

/// The first fault of bytes that are no message, in the order in which a send checks them.
#[derive(Clone, Copy)]
pub enum MessageFault {
    /// The length, in bytes, is less than 24, or no multiple of 4.
    Length(usize),
    /// The length, in bytes, is more than 65,536.
    TooLong(usize),
    /// The first word has bits that no header has.
    Bits(u32),
    /// The destination's disposition is this number, and not 17 to 21.
    Destination(u32),
    /// The reply right's disposition is this number, and not 0 or 17 to 21.
    Answer(u32),
    /// The reply port is this name, without a disposition.
    AnswerPort(u32),
    /// The item of this number (from 1), at this byte offset, has this fault.
    Item(u32, usize, ItemFault),
}

/// What is wrong with an item of a body.
#[derive(Clone, Copy)]
pub enum ItemFault {
    /// The descriptor is cut off: so many bytes are left for it.
    LongEnds(usize),
    /// The inline bit is clear.
    OutOfLine,
    /// The deallocate bit is set.
    Deallocates,
    /// The unused bit is set.
    Unused,
    /// The descriptor has the long form, and the fields of the short form aren't 0.
    LongFields,
    /// Its port names have so many bits, and not 32.
    PortSize(u32),
    /// Its type is this number, above 255.
    Type(u32),
    /// It has so many bytes of data (the first number), which end so many bytes past the message's end (the second).
    DataEnds(u64, u64),
}

/// A descriptor's fields, and the bytes behind it.
#[derive(Clone, Copy)]
struct Descriptor<'a> {
    name: u32,
    size: u32,
    number: u32,
    rest: &'a [u8],
}

/// Returns the first fault of bytes that are no message; `None` for a message. Linear in the items; takes no memory.
pub fn message_fault(bytes: &[u8]) -> Option<MessageFault> {
    if bytes.len() < HEADER || bytes.len() % 4 != 0 {
        return Some(MessageFault::Length(bytes.len()));
    }
    if bytes.len() > MOST_BYTES {
        return Some(MessageFault::TooLong(bytes.len()));
    }
    let bits = word_at(bytes, 0)?;
    let local = word_at(bytes, 12)?;
    if let Some(fault) = header_fault(bits, local) {
        return Some(fault);
    }
    if bits < 0x8000_0000 {
        return None;
    }
    items_fault(bytes.get(HEADER..)?)
}

/// Returns the first fault of a header with these bits and this reply port.
fn header_fault(bits: u32, local: u32) -> Option<MessageFault> {
    let destination = bits % 0x100;
    let answer = bits / 0x100 % 0x100;
    if bits / 0x1_0000 % 0x8000 != 0 {
        return Some(MessageFault::Bits(bits));
    }
    if !is_sendable(destination) {
        return Some(MessageFault::Destination(destination));
    }
    if answer != 0 && !is_sendable(answer) {
        return Some(MessageFault::Answer(answer));
    }
    if answer == 0 && local != 0 {
        return Some(MessageFault::AnswerPort(local));
    }
    None
}

/// Whether a disposition may stand in a header.
fn is_sendable(disposition: u32) -> bool {
    17 <= disposition && disposition <= 21
}

/// Returns the first fault of a body's items.
fn items_fault(body: &[u8]) -> Option<MessageFault> {
    let mut rest = body;
    for item in 1..MOST_ITEMS {
        if rest.is_empty() {
            return None;
        }
        let at = (HEADER + body.len()).saturating_sub(rest.len());
        match behind_item(rest) {
            Ok(behind) => rest = behind,
            Err(fault) => return Some(MessageFault::Item(item, at, fault)),
        }
    }
    None
}

/// Returns the bytes behind the first item.
fn behind_item(rest: &[u8]) -> Result<&[u8], ItemFault> {
    let descriptor = read_descriptor(rest)?;
    if 16 <= descriptor.name && descriptor.name <= 21 && descriptor.size != 32 {
        return Err(ItemFault::PortSize(descriptor.size));
    }
    if descriptor.name > 255 {
        return Err(ItemFault::Type(descriptor.name));
    }
    let bits = u64::from(descriptor.number) * u64::from(descriptor.size);
    let bytes = (bits + 7) / 8;
    let left = descriptor.rest.len() as u64;
    if bytes > left {
        return Err(ItemFault::DataEnds(bytes, bytes - left));
    }
    let padded = (bytes + 3) / 4 * 4;
    match descriptor.rest.get(padded as usize..) {
        Some(behind) => Ok(behind),
        None => Ok(&[]),
    }
}

/// Reads the descriptor that the bytes begin with.
fn read_descriptor(rest: &[u8]) -> Result<Descriptor<'_>, ItemFault> {
    let Some(word) = word_at(rest, 0) else {
        return Err(ItemFault::LongEnds(rest.len()));
    };
    let is_long = word / 0x2000_0000 % 2 != 0;
    if is_long && rest.len() < 12 {
        return Err(ItemFault::LongEnds(rest.len()));
    }
    check_flags(word, is_long)?;
    if is_long {
        return Ok(read_long(rest));
    }
    Ok(Descriptor {
        name: word % 0x100,
        size: word / 0x100 % 0x100,
        number: word / 0x1_0000 % 0x1000,
        rest: rest.get(4..).unwrap_or(&[]),
    })
}

/// Checks the bits of a descriptor's first word.
fn check_flags(word: u32, is_long: bool) -> Result<(), ItemFault> {
    if word / 0x1000_0000 % 2 == 0 {
        return Err(ItemFault::OutOfLine);
    }
    if word / 0x4000_0000 % 2 != 0 {
        return Err(ItemFault::Deallocates);
    }
    if word / 0x8000_0000 != 0 {
        return Err(ItemFault::Unused);
    }
    if is_long && word % 0x1000_0000 != 0 {
        return Err(ItemFault::LongFields);
    }
    Ok(())
}

/// Reads the descriptor of the long form that the bytes begin with.
fn read_long(rest: &[u8]) -> Descriptor<'_> {
    let fields = word_at(rest, 4).unwrap_or(0);
    Descriptor {
        name: fields % 0x1_0000,
        size: fields / 0x1_0000,
        number: word_at(rest, 8).unwrap_or(0),
        rest: rest.get(12..).unwrap_or(&[]),
    }
}

/// Writes the fault in words, without a line feed. Constant time.
pub fn write_message_fault(fault: MessageFault, out: &mut Text) {
    match fault {
        MessageFault::Bits(bits) => {
            out.words("bytes 0 to 3: no header has the bits ");
            out.code(bits);
        }
        MessageFault::Item(item, at, fault) => {
            out.phrase(&Phrase::two("item ", u64::from(item), ", at byte ", at as u64, ": "));
            out.phrase(&item_phrase(fault));
        }
        _ => out.phrase(&message_phrase(fault)),
    }
}

/// Returns the words for a fault that is about one decimal number.
fn message_phrase(fault: MessageFault) -> Phrase {
    match fault {
        MessageFault::Length(length) => Phrase::one(
            "the message has ",
            length as u64,
            " bytes; messages have 24 or more, a multiple of 4",
        ),
        MessageFault::TooLong(length) => {
            Phrase::one("the message has ", length as u64, " bytes, more than 65536")
        }
        MessageFault::Destination(number) => Phrase::one(
            "byte 0: the destination's disposition is ",
            u64::from(number),
            "; it is 17 to 21",
        ),
        MessageFault::Answer(number) => Phrase::one(
            "byte 1: the answer's disposition is ",
            u64::from(number),
            "; it is 0 or 17 to 21",
        ),
        MessageFault::AnswerPort(name) => Phrase::one(
            "bytes 12 to 15: an answer port ",
            u64::from(name),
            " without a disposition in byte 1",
        ),
        MessageFault::Bits(_) | MessageFault::Item(..) => Phrase::words(""),
    }
}

/// Returns the words for what is wrong with an item.
fn item_phrase(fault: ItemFault) -> Phrase {
    match fault {
        ItemFault::LongEnds(left) => {
            Phrase::one(
                "a long descriptor has 12 bytes, and ",
                left as u64,
                " are left",
            )
        }
        ItemFault::OutOfLine => {
            Phrase::words("the bit inline is clear; data out of line is not there")
        }
        ItemFault::Deallocates => Phrase::words("the bit deallocate is set"),
        ItemFault::Unused => Phrase::words("the unused bit is set"),
        ItemFault::LongFields => {
            Phrase::words("a long descriptor whose short fields are not all 0")
        }
        ItemFault::PortSize(size) => {
            Phrase::one("port names of ", u64::from(size), " bits; they have 32")
        }
        ItemFault::Type(number) => Phrase::one("the type ", u64::from(number), " is above 255"),
        ItemFault::DataEnds(bytes, past) => Phrase::two(
            "its ",
            bytes,
            " bytes of data end ",
            past,
            " bytes past the end of the message",
        ),
    }
}
