//! The words of storyboards, and what they say of replies.
//!
//! There are the lists of words that the notation has, the words of a line, texts in quotes, and why a line is no statement.
//! `docs/FORMATS.md` has the notation.
//!
//! [`Expected`] is what a call is to answer, with its words looked up. [`compare`] says whether a [`Reply`](mach_types::Reply)
//! is that, or which part of it isn't. [`write_sent`] writes the message that a statement sends.
#![tactic(auto)]

mod expected;
mod fault;
mod fits;
mod line;
mod received;
mod sent;
mod text;
mod vocabulary;

pub use expected::{Expected, ExpectedMessage, ExpectedNotice, FieldValue};
pub use fault::{Cause, Fault, Wanted, write_cause};
pub use fits::{Misfit, TOLD_AT, compare, value_of};
pub use line::{Line, Word};
pub use received::{CarriedRight, has_data, right_at};
pub use sent::{BodyRights, write_sent};
pub use text::bytes_of;
pub use vocabulary::{
    CallWord, Field, Kind, NoticeWord, Variant, Vocabulary, find_call, find_code, find_disposition,
    find_field, find_kind, find_notice, find_right, find_type, find_variant, is_reserved,
};
