//! What becomes of each message of a history, by counts alone.
//!
//! For each live port [`Fates`] keeps the list of *origins*: which entry put each queued message there. An entry's step
//! takes one origin off the front of the port from which it took a message. Then it appends its own number as many times
//! as the port's queue is longer. No message is ever compared with another.
#![tactic(auto)]

mod effects;
mod ends;
mod fates;
mod laws;
mod lines;
mod origin;
mod settle;
mod source;

pub use effects::{Effects, Lost};
pub use ends::{End, Ends};
pub use fates::Fates;
pub use lines::write_fates;
pub use origin::{Come, Origin, Sender};
