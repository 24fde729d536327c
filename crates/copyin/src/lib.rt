//! Copying rights in: what a message takes from its sender.
//!
//! [`check`] judges a message whole and changes nothing, and [`commit`] does what was judged, and can't fail.
//! [`check_short`] and [`commit_short`] do the same of a short message ([`message_codec::Short`]), in fewer steps.
#![tactic(auto)]

mod carry_out;
mod judge;
mod loops;
mod short;
mod slots;
mod touched;

pub use carry_out::{commit, copy_name};
pub use copyin_base::World;
pub use judge::{Plan, Words, check};
pub use short::{Beside, GoingRight, ShortPlan, check_short, commit_short};
