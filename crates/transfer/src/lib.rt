//! Handing a right from a task to another, in the tables.
//!
//! [`insert`] puts it under a name that the caller chose, and [`extract`] gives it as a receive would.
//! [`judge_insert`] and [`judge_extract`] say what refuses that, except when out of memory, and change
//! nothing. A call promises its own part of a step of the machine of `mach_model` (`copyin_base`'s
//! `specs/Serving`); `kernel_core` makes the calls and ends the steps. `specs/Wanted` says where memory may
//! be wanted.
#![tactic(auto)]

mod hand;
mod judge;

pub use hand::{extract, insert};
pub use judge::{Handed, TaskName, judge_extract, judge_insert};
