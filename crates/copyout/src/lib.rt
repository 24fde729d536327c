//! Copying rights out: what a receiver gets of a queued message.
//!
//! [`receive`] judges and takes a port's front message, [`is_receivable`] judges it except for memory,
//! [`room_needed`] counts the names that its rights need, [`give_right`] gives one right, and [`put_right`]
//! gives it a name that the caller chose.
#![tactic(auto)]

mod give;
mod put;
mod receipt;
mod room;
mod short;

pub use give::give_right;
pub use put::put_right;
pub use receipt::{Refusal, is_receivable, note_front, receive, take_front};
pub use room::room_needed;
