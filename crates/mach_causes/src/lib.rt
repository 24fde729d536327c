//! Why a call was refused.
//!
//! [`explain`] finds the first thing in the state before the call that refuses it by its code. It reads the tables of the
//! follower's kernel, and tells only what is true of each state that they show. [`write_cause`] writes the [`Cause`] in
//! words.
#![tactic(auto)]

mod calls;
mod hand;
mod receive;
mod refusals;
mod say;
mod send;

pub use calls::explain;
pub use say::write_cause;
