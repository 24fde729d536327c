//! Reads storyboards: protocols of Mach ports, written with names. `docs/FORMATS.md` has the notation.
//!
//! [`read_storyboard`] reads a text into [`Said`] statements. Nothing here knows a kernel, or what a word stands for.
#![tactic(auto)]

mod answers;
mod calls;
mod reader;
mod statements;
mod syntax;

pub use statements::{Storyboard, read_storyboard};
pub use syntax::{
    Answer, Buffer, Call, CountOf, FieldIs, Forget, Give, Make, NameCall, NameIs, NamedRight,
    Notice, Notify, ReceivedMessage, ReceivedRight, Receiver, Said, SaidCall, SaidMessage,
    SaidName, SaidNumber, Send, SentRights, Statement, Told, Under,
};
