//! Sequence charts of histories, laid out and written.
//!
//! [`Layout`] has the columns, lifelines and lanes of a whole [`Chart`](mach_chart_base::Chart). [`Pen`] draws its rows for a
//! terminal, and [`Mermaid`] writes them for a page.
#![tactic(auto)]

mod cells;
mod drawing;
mod lanes;
mod layout;
mod mermaid;
mod pen;

pub use layout::{Column, Layout, Lifeline, MOST_LIFELINES, write_label};
pub use mermaid::Mermaid;
pub use pen::Pen;
