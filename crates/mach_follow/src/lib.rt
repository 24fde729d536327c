//! Follows a history entry by entry, and writes its entries in words.
//!
//! [`Follower`] has a kernel of its own. What each name stands for is read in that kernel's tables, and what a name was
//! before it was removed is kept beside them. An entry in words is its call ([`describe_before`], [`describe_after`]), its
//! reply ([`write_answer`]) and the parts of its message ([`Parts`]). [`is_call_about`] and [`is_answer_about`] say whether
//! an entry is about a port.
#![tactic(auto)]

mod answer;
mod describe;
mod follower;
mod keys;
mod messages;
mod names;
mod ports;
mod remember;
mod replay;
mod seen;

pub use answer::{describe_after, write_answer};
pub use describe::describe_before;
pub use follower::{Follower, Gone, Place};
pub use messages::Parts;
pub use name_space::Entry as Standing;
pub use ports::{is_answer_about, is_call_about};
pub use replay::Answered;
pub use seen::{Seen, thing_of};
