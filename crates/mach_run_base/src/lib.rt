//! What the program `mach_run` does, over any reader and writers: its jobs.
//!
//! A script is read line by line ([`Script`]) and run on one shared kernel: the main thread makes the calls
//! ahead of the first block, and each block makes its own in a thread. Message calls wait by the gates of a
//! [`Hall`](mach_msg_threads::Hall). A history is judged as it is read, entry by entry.
#![tactic(auto)]

mod checking;
mod fault;
mod job;
mod reading;
mod running;
mod script;

pub use fault::{Fault, report};
pub use job::{Job, perform};
pub use script::{Script, ThreadCalls};
