//! A history as one HTML file, in which a reader goes from entry to entry.
//!
//! A [`Page`] has a chart at the left, and at the right the text of an entry over the picture of the state after it. Every text
//! and every thing of a picture is in the file once, with the entries for which it holds. A constant script shows those of
//! one entry. The file loads nothing, and lets no other script run.
#![tactic(auto)]

mod page;
mod script;
mod style;
mod texts;

pub use page::{DOCTYPE, Page};
pub use texts::Texts;
