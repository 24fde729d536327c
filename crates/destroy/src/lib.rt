//! How a step ends: ports die or are sent away, rights are lost, and the tasks that asked get notices.
//!
//! [`settle`] ends a step, once for all calls. It takes no memory and cannot be refused.
#![tactic(auto)]

mod burials;
mod ending;
mod judging;
mod losing;
mod paying;
mod telling;

pub use ending::{is_idle, settle};
