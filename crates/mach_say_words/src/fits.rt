//! Whether a reply is what a statement says.
ghost use Rattle.std.specs.Prelude.{◌≡◌, IsTrue, IfSome, OnOk, length};
ghost use Rattle.mach_types.specs.Grammar.{Header, IsWireBody, WireBody};
ghost use Rattle.message_codec.specs.ReceivedShows.{ShowsBoth};
ghost use Rattle.mach_say_words.specs.Fits.{Fits, HasFields, HasParts, IsMessage, IsNotice, Succeeds, field_value};

use crate::expected::{Expected, ExpectedMessage, ExpectedNotice, FieldValue};
use crate::received::{has_data, has_kinds};
use crate::vocabulary::Field;
use mach_types::{Name, Reply, Status};
use mach_words::word_at;
use message_codec::{Received, read_received};

/// The byte offset of the word that a notice's body has behind its descriptor.
pub const TOLD_AT: usize = 28;

/// Where a reply isn't what is said.
#[derive(Clone, Copy)]
pub enum Misfit {
    /// Anywhere.
    Whole,
    /// In the field of this number, from 0, of those that are said.
    Field(usize),
}

/// Compares the reply with what is said. Returns where it is something else. Linear in both; the square of the members.
pub fn compare(expected: &Expected, reply: &Reply) -> Result<(), Misfit>
    ensures { OnOk result (Fits expected.now reply.now) }
{
    if let (Expected::Fields(fields), Reply::Status(status)) = (expected, reply) {
        return compare_fields(fields.as_slice(), status);
    }
    if fits(expected, reply) {
        return Ok(());
    }
    Err(Misfit::Whole)
}

/// Whether the reply is what is said, which is no status.
fn fits(expected: &Expected, reply: &Reply) -> bool
    ensures { IsTrue result → Fits expected.now reply.now }
{
    match expected {
        Expected::Success => is_success(reply),
        Expected::Reply(wanted) => wanted == reply,
        Expected::Message(wanted) => match reply {
            Reply::Message(bytes) => is_message(wanted, bytes.as_slice()),
            _ => false,
        },
        Expected::Notice(wanted) => match reply {
            Reply::Message(bytes) => is_notice(wanted, bytes.as_slice()),
            _ => false,
        },
        Expected::Code(_) | Expected::TooLarge(_) | Expected::Refs(_) | Expected::Type(_) => {
            fits_number(expected, reply)
        }
        _ => fits_names(expected, reply),
    }
}

/// Whether the reply is the number that is said.
fn fits_number(expected: &Expected, reply: &Reply) -> bool
    ensures { IsTrue result → Fits expected.now reply.now }
{
    match (expected, reply) {
        (Expected::Code(wanted), Reply::Code(code)) => *code == *wanted,
        (Expected::TooLarge(wanted), Reply::TooLarge(length)) => *length == *wanted,
        (Expected::Refs(wanted), Reply::Refs(count)) => *count == *wanted,
        (Expected::Type(wanted), Reply::NameType(bits)) => *bits == *wanted,
        _ => false,
    }
}

/// Whether the reply is what is said of names, or that no message is there.
fn fits_names(expected: &Expected, reply: &Reply) -> bool
    ensures { IsTrue result → Fits expected.now reply.now }
{
    match (expected, reply) {
        (Expected::Empty, Reply::Empty(_)) => true,
        (Expected::Names(wanted), Reply::Names(names)) => {
            names.as_slice().len() as u64 == u64::from(*wanted)
        }
        (Expected::Members(wanted), Reply::Members(members)) => {
            are_same(wanted.as_slice(), members.as_slice())
        }
        (Expected::NoPrevious, Reply::Previous(name)) => name.number() == 0,
        (Expected::Previous, Reply::Previous(name)) => name.number() != 0,
        _ => false,
    }
}

/// Whether the reply is no refusal, and not that no message came.
fn is_success(reply: &Reply) -> bool
    ensures { IsTrue result → Succeeds reply.now }
{
    match reply {
        Reply::Code(code) => *code == 0,
        Reply::Empty(_) | Reply::TooLarge(_) | Reply::NoRecord => false,
        _ => true,
    }
}

/// Whether the two lists have the same names. Neither has one twice.
fn are_same(wanted: &[Name], members: &[Name]) -> bool
    ensures { IsTrue result → length members.now ≡ length wanted.now }
{
    members.len() == wanted.len() && are_among(wanted, members) && are_among(members, wanted)
}

/// Whether all names of the first list are in the second.
fn are_among(some: &[Name], all: &[Name]) -> bool {
    for name in some {
        if !is_among(*name, all) {
            return false;
        }
    }
    true
}

/// Whether the name is in the list.
fn is_among(name: Name, all: &[Name]) -> bool {
    for one in all {
        if one.number() == name.number() {
            return true;
        }
    }
    false
}

/// Whether the bytes are the message that is said.
fn is_message(wanted: &ExpectedMessage, bytes: &[u8]) -> bool
    ensures { IsTrue result → IsMessage wanted.now bytes.now }
{
    match read_received(bytes) {
        Some(message) => has_parts(wanted, &message),
        None => false,
    }
}

/// Whether the message has the parts that are said.
fn has_parts(wanted: &ExpectedMessage, message: &Received<'_>) -> bool
    ensures { IsTrue result → (header : Header) (body : WireBody) → IsWireBody body → ShowsBoth message.now header body → HasParts wanted.now header body }
{
    message.header.id == wanted.id
        && is_at(wanted.at, message.header.local)
        && (!wanted.answer || message.header.remote_kind != 0)
        && has_data(&message.body, wanted.bytes.as_slice())
        && has_kinds(&message.body, wanted.with.as_slice())
}

/// Whether the name is the one that is said, if one is.
fn is_at(wanted: Option<Name>, name: Name) -> bool
    ensures { IsTrue result → IfSome wanted (λ said. name ≡ said) }
{
    match wanted {
        Some(wanted) => name.number() == wanted.number(),
        None => true,
    }
}

/// Whether the bytes are the notice that is said.
fn is_notice(wanted: &ExpectedNotice, bytes: &[u8]) -> bool
    ensures { IsTrue result → IsNotice wanted.now bytes.now }
{
    let Some(message) = read_received(bytes) else {
        return false;
    };
    message.header.id == wanted.id
        && is_at(wanted.at, message.header.local)
        && (wanted.told.is_none() || wanted.told == word_at(bytes, TOLD_AT))
}

/// Compares the fields of the status with those that are said.
fn compare_fields(fields: &[FieldValue], status: &Status) -> Result<(), Misfit>
    ensures { OnOk result (HasFields fields.now status.now) }
{
    for (place, field) in fields.iter().enumerate() {
        if value_of(status, field.field) != field.value {
            return Err(Misfit::Field(place));
        }
    }
    Ok(())
}

/// Returns the value of a field. Constant time.
pub fn value_of(status: &Status, field: Field) -> u32
    ensures { result ≡ field_value status.now field }
{
    match field {
        Field::Set => status.set.number(),
        Field::Seqno => status.sequence,
        Field::MakeSend => status.make_send,
        Field::Limit => status.limit,
        Field::Queued => status.queued,
        Field::SendOnce => status.send_once,
        Field::Senders => status.has_send,
        Field::PortDestroyed => status.port_destroyed,
        Field::NoSenders => status.no_senders,
    }
}
