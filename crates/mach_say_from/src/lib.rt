//! Makes a storyboard of a recorded history: [`tell`].
//!
//! A call and its reply become a statement where the notation has words for them. Otherwise the line of the script and the
//! reply's own text stand behind `raw`.
#![tactic(auto)]

mod answers;
mod calls;
mod kinds;
mod label;
mod messages;
mod teller;
mod words;

pub use teller::{TellFault, tell};
