//! Charts of histories as data.
//!
//! A [`Chart`] has rows, and the hops of messages between lifelines and queues. [`Chart::add`] adds an entry that was
//! replayed. `mach_chart` lays a chart out, and writes it.
#![tactic(auto)]

mod chart;
mod early;
mod hops;
mod moves;
mod reading;
mod rows;
mod waits;

pub use chart::{Chart, Span, Told, write_name};
pub use hops::{Hop, Place, Way, handed_port};
pub use reading::Caller;
pub use rows::{Mark, Row};
