//! Named workloads of Mach 3 port IPC.
#![tactic(auto)]

mod messages;
mod several;
mod workloads;

pub use several::several_workloads;
pub use workloads::{SEND_RECEIVE, Workload, all_workloads};
