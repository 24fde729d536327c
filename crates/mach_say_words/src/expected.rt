//! What a call is to answer, with its words looked up.
use crate::vocabulary::{Field, Kind};
use mach_types::{Name, Reply};

/// What a call is to answer.
#[derive(Drop)]
pub enum Expected {
    /// Anything but a refusal, and but that no message came.
    Success,
    /// A code.
    Code(u32),
    /// That no message is there.
    Empty,
    /// That the message has so many bytes, which are too many.
    TooLarge(u32),
    /// So many references.
    Refs(u32),
    /// So many names.
    Names(u32),
    /// A type with these bits.
    Type(u32),
    /// A status in which these fields have these values.
    Fields(Vec<FieldValue>),
    /// These members, in any order.
    Members(Vec<Name>),
    /// That a request had no right.
    NoPrevious,
    /// That a request had a right.
    Previous,
    /// This reply.
    Reply(Reply),
    /// A message.
    Message(ExpectedMessage),
    /// A notice.
    Notice(ExpectedNotice),
}

/// A field of a status, and its value.
#[derive(Clone, Copy)]
pub struct FieldValue {
    /// The field.
    pub field: Field,
    /// The value.
    pub value: u32,
}

/// A message that is to come.
#[derive(Drop)]
pub struct ExpectedMessage {
    /// The id.
    pub id: u32,
    /// The data.
    pub bytes: Vec<u8>,
    /// The name of the port that it was received from, if that is said.
    pub at: Option<Name>,
    /// Whether it is said that the message has a reply right.
    pub answer: bool,
    /// The kinds of the first rights of the body, as far as they are said.
    pub with: Vec<Kind>,
}

/// A notice that is to come.
#[derive(Clone, Copy)]
pub struct ExpectedNotice {
    /// The id.
    pub id: u32,
    /// The word of its body, if that is said: a name, or a count.
    pub told: Option<u32>,
    /// The name of the port that it was received from, if that is said.
    pub at: Option<Name>,
}
