//! Histories as text: what is read is what the text says, and what is written reads back.
//!
//! A history is a line that names its format and its profile, and then one line an entry: who called, what, and what
//! was answered (`specs/Histories`). A history is read whole by [`read_history`], or line by line by
//! [`behind_heading`] and [`first_line`]. [`check`] tells whether the machine admits it, and [`confirm`] the same
//! of its entries one by one (`specs/Checks`).
#![tactic(auto)]

mod checks;
mod histories;
mod levels;
mod lines;

pub use checks::{CheckFault, LegalHistory, check, confirm};
pub use histories::{
    History, HistoryFault, behind_heading, heading_line, read_history, write_history,
};
pub use levels::level;
pub use lines::{first_line, line};
