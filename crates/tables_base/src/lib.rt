//! What the tables keep: messages and notices in the queues of ports, and the names of a task.
//!
//! A [`Queued`] is a [`Message`] with its bytes and its rights, or a [`Notice`] as a few numbers. A [`TaskNames`] has the names
//! of one task, with the right under each.
#![tactic(auto)]

mod envelope;
mod message;
mod notice;
mod queued;
mod task_names;

pub use envelope::Envelope;
pub use message::{BodyRights, Carried, CarriedRights, Mark, Message};
pub use notice::Notice;
pub use queued::{Queued, Slot};
pub use task_names::{Placed, TaskNames};
