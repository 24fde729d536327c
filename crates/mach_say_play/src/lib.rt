//! Runs storyboards on a kernel: looks their words up, makes their calls, and compares the replies with what is said.
//!
//! A [`Play`] has a [`Stage`], which is a kernel with the history of its calls, and a [`Board`], which says what the words
//! stand for.
#![tactic(auto)]

mod answers;
mod board;
mod events;
mod fault;
mod label;
mod play;
mod stage;

pub use board::{Actor, Board, Bound, Message, Thing};
pub use fault::{PlayFault, Span};
pub use label::Label;
pub use play::{Play, Stop, profile_of};
pub use stage::Stage;
