//! The jobs `text` and `lint` of the program `mach_show`, and what all its jobs share: faults, filters of entries, lines of
//! files, and standard output. Also what it does with its command line as `mach_say` does.
#![tactic(auto)]

mod ahead;
mod fault;
mod filter;
mod linting;
mod output;
mod reading;
mod text;
mod words;

pub use ahead::show_whole;
pub use fault::{Fault, reason_of, report};
pub use filter::Filter;
pub use linting::{Kind, lint_text};
pub use output::{Done, Output};
pub use reading::{READ_AT_ONCE, TOO_MANY, fault_of, next_line, read_labels};
pub use text::{Shown, Teller, bad_line, show_history};
pub use words::{USAGE, enter_labels, report_matches, report_words};
