//! The jobs of the program `mach_show` that draw: charts, pages, and pictures of states.
#![tactic(auto)]

mod chart;
mod page;
mod source;
mod whole;

pub use chart::{Form, Style, show_chart};
pub use page::{show_page, show_picture};
pub use source::Source;
