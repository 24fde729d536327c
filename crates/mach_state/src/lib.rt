//! The state after an entry of a history: tasks, their names, ports and queues.
//!
//! [`name_state`], [`port_state`] and [`receiver_name`] read the tables of a follower's kernel. [`write_state`] writes all
//! tasks, names, ports and queues in words. Where a queued message came from is known to `mach_fates`, and the entry in
//! which a port died to [`Deaths`].
#![tactic(auto)]

mod carried;
mod deaths;
mod names;
mod ports;
mod queues;
mod states;
mod words;

pub use deaths::Deaths;
pub use states::{NameState, PortState, name_state, port_state, receiver_name};
pub use words::{State, write_state};
