//! Why a line of a script or of a history is bad.
//!
//! A line is bad exactly where a reader refuses it. [`script_fault`] calls the reader of `text_reader` itself. The caller
//! of [`history_fault`] has called that of `tracer`. Only then is the cause looked for. It is a [`Fault`], which
//! [`write_fault`] writes in words. [`script_note`] finds a [`Note`] on a line that is a call. [`Nearest`] finds the
//! word that a misspelt one may be.
#![tactic(auto)]

mod fault;
mod histories;
mod nearest;
mod notes;
mod numbers;
mod say;
mod script;
mod shape;
mod tables;

pub use fault::{Fault, NumberFault, WordFault};
pub use histories::history_fault;
pub use nearest::Nearest;
pub use notes::{Made, Note, script_note, write_note};
pub use say::write_fault;
pub use script::{Blocks, script_fault};
