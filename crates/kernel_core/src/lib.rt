//! The kernel: tasks, their names, ports and queued messages; each call of a task is one step.
//!
//! `specs/Answers` says what a step promises: each is a step of the machine of `mach_model`, whose state the
//! tables show (`copyin_base`'s `specs/Shows`). `specs/Wanted` says where it may be refused when out of
//! memory, and how much room it leaves for what is to come; `specs/MemoryCodes` where the machine allows such
//! a refusal, as [`Kernel::memory_code`] tells. A call does its own part of a step, or refuses it
//! (`copyin_base`'s `specs/Serving`); [`Kernel::step`] judges the tasks before it, and settles after it.
#![tactic(auto)]

mod bound;
mod choice;
mod kernel;
mod memory;
mod receive;
mod runs;

pub use kernel::Kernel;
pub use runs::{run, run_with};
