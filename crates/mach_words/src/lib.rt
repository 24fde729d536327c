//! Words for the numbers of the interface: codes, dispositions, rights, types and notices. Labels for tasks, ports, sets,
//! message ids and callers. Text that is safe for a terminal.
#![tactic(auto)]

mod data;
mod events;
mod faults;
mod labels;
mod numbers;
mod phrase;
mod text;

pub use data::{word_at, write_data};
pub use events::task_of;
pub use faults::{ItemFault, MessageFault, message_fault, write_message_fault};
pub use labels::{LabelFault, Labels};
pub use numbers::{
    disposition_name, is_notice, kind_word, notice_word, right_word, write_code, write_right_name,
    write_type,
};
pub use phrase::Phrase;
pub use text::Text;
