//! What is written of a storyboard: its labels ([`write_labels`]), its fault in words ([`write_stop`]), and its history as
//! text ([`record`]).
#![tactic(auto)]

mod labels;
mod list;
mod recorded;
mod replies;
mod report;

pub use labels::{make_labels, write_labels};
pub use recorded::{Recorded, record};
pub use report::{File, write_stop};
