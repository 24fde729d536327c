//! What a step changed of ports and port sets, for those that wait.
//!
//! The kernel keeps it in short, as a [`Change`]. What stands under a name, and in which sets a port is, is looked up
//! once it is asked for: [`Change::touched`] tells the ports and sets by the tables after the step. `specs/Changing`
//! says what it is for each call. That it covers all that a step changed is a promise of the kernel's.
#![tactic(auto)]

mod change;
mod moved;
mod naming;
mod received;

pub use change::Change;
