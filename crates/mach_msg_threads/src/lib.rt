//! Message calls that wait, by threads that share one kernel.
//!
//! [`mach_msg`] sends and receives as Mach's call does. The kernel itself never waits: a try that finds the
//! queue full, or no message, is made again as long as the caller's [`Gate`] says so. Each try is a call of
//! its own in the history. [`run_blocks`] runs blocks of calls, each in a thread of its own. By the gates of a [`Hall`]
//! a block that waits is woken by the changes that concern it.
#![tactic(auto)]

mod block;
mod blocks;
mod fault;
mod gate;
mod guests;
mod hall;
mod message;
mod tries;

pub use block::{Answer, Block, Call, make_call};
pub use blocks::run_blocks;
pub use fault::RunFault;
pub use gate::{Gate, is_change, tell};
pub use hall::{BlockGate, Hall};
pub use message::{Outcome, mach_msg};
