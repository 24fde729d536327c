//! XML of drawings.
//!
//! A [`Drawing`] is plain data: shapes with integer coordinates, and letters. [`Drawing::write`] writes it as SVG. What it
//! writes is a well-formed XML element for every drawing.
#![tactic(auto)]

mod attributes;
mod characters;
mod drawing;
mod elements;
mod names;
mod shapes;

pub use attributes::{Attribute, Point, Value};
pub use characters::write_text;
pub use drawing::{Drawing, Fit, Time};
pub use elements::{write_empty, write_end, write_tag, write_texted};
pub use names::Tag;
pub use shapes::Size;
