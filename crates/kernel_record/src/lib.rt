//! One kernel that may keep its last call with the reply, which is what a line of a history says.
//!
//! [`RecordedKernel::step`] makes a call where calls aren't kept, and [`RecordedKernel::step_kept`] where they are.
//! There the copies of the call and of its reply have their memory before the step. So each call that was made can be
//! told afterwards (`specs/Recording`).
#![tactic(auto)]

mod calls;
mod recorded;
mod room;

pub use recorded::{LastCall, RecordedKernel};
pub use room::Room;
