//! Calls, replies and scripts are read from text: what is read is what the text says.
//!
//! The texts are `tracer_base`'s, which writes them: a call's stands in its `specs/Calls`, a reply's in
//! `specs/Replies`. Nothing here knows the kernel.
#![tactic(auto)]

mod blocks;
mod calls;
mod replies;
mod script;

pub use blocks::read_script_line;
pub use calls::{next_call, read_call};
pub use replies::{next_reply, read_reply};
pub use script::{ScriptFault, read_script};
