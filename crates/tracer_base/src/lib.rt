//! The text of calls, replies and scripts: its definitions, the words of a line, and the writers.
//!
//! `specs/Calls` has the text of a call, and `specs/Replies` that of a reply: words that are parted by
//! single spaces (`specs/Words`). `text_reader` reads them. Nothing here knows the kernel.
#![tactic(auto)]

mod blocks;
mod calls;
mod fault;
mod hexadecimal;
mod numbers;
mod replies;
mod words;

pub use blocks::{MOST_THREADS, MessageCall, ScriptLine, write_outcome_line, write_thread_line};
pub use calls::write_call;
pub use fault::TextFault;
pub use replies::{write_reply, write_reply_line};
pub use words::{Words, split_once};
