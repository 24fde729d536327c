//! Messages as bytes: what a sender's bytes say, and the bytes that a receiver gets.
//!
//! A message's text is a header of six little-endian words and a body: raw bytes, or a list of items
//! (IPC Interface, `mach_msg_header_t`). `mach_types/specs/Grammar` has the texts, and
//! `mach_types/specs/TextGuards` the faults with their codes, in the order in which they are judged.
#![tactic(auto)]

mod header;
mod items;
mod reader;
mod received;
mod spans;
mod text;
mod words;
mod writer;

pub use header::Header;
pub use reader::{
    Received, ReceivedBody, ReceivedData, ReceivedHeader, ReceivedItem, ReceivedItems,
    ReceivedPorts, read_received,
};
pub use received::put_received;
pub use spans::{Span, Spans};
pub use text::{Parsed, Short, ShortKind, ShortRight, parse, parse_short};
pub use words::{INLINE_WORDS, PortWord, port_words};
pub use writer::{PortRight, SendBody, SendHeader, SendItem, WriteError, write_message};
