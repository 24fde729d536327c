//! Causes of refusals: what they are, their codes, and whether they are true of the kernel's tables.
#![tactic(auto)]

mod cause;
mod codes;
mod facts;
mod needs;
mod told;

pub use cause::{Cause, Part, Reason, Wanted};
pub use facts::{counted, made_once};
pub use needs::suffices;
pub use told::is_so;
