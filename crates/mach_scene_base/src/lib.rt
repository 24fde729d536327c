//! What stands where in each state of a history: tasks with their names, ports with their queues, and the rights that queued
//! messages carry.
//!
//! A [`Scene`] keeps what stands at each place after each entry, as long as it stays the same ([`Runs`]). Each thing keeps its
//! place for the whole run. `mach_scene` draws it.
#![tactic(auto)]

mod queues;
mod reading;
mod runs;
mod same;
mod scene;
mod thing;

pub use queues::{LETTERS, PORT_WIDTH, SMALL};
pub use reading::write_title;
pub use runs::{Run, Runs};
pub use scene::{MOST_ROWS, Place, PortPlaces, Scene, Spot, State, TaskPlaces};
pub use thing::{Chip, Frame, Kind, Row, Thing, Tied};
