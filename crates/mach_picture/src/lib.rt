//! Pictures of histories.
//!
//! [`write_svg`] draws a sequence chart on a grid of integers: where each line and letter stands follows from counts of
//! letters alone.
#![tactic(auto)]

mod arrows;
mod bars;
mod grid;
mod heads;
mod painter;
mod places;
mod style;
mod survey;
mod svg;

pub use painter::{Part, Picture, draw_chart};
pub use style::Scheme;
pub use svg::write_svg;
