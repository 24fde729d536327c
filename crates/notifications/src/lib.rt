//! Requests for notices, and rights that are lost many at once.
//!
//! [`lose_message`] loses a message with all that it carries, and [`end_task`] all that a task has.
//! `specs/SoFar` says what the tables are while a step ends, between two of the turns of `mach_model`.
#![tactic(auto)]

mod destroyed;
mod ending;
mod request;

pub use destroyed::lose_message;
pub use ending::end_task;
pub use request::{Asked, check_request, request_notification};
