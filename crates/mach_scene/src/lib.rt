//! Pictures of the states of a history: tasks with their names at the left, ports with their queues at the right, and lines
//! between them.
//!
//! [`draw_scene`] draws one state of a scene of `mach_scene_base`, or each thing once with the entries for which it holds.
#![tactic(auto)]

mod edges;
mod paint;
mod places;
mod style;

pub use paint::{Shown, draw_scene};
pub use style::{BOTH, DARK, LIGHT};
