//! Descriptors: what kind of data an item of a message has, and how much of it.
//!
//! A descriptor is one little-endian word, or in the long form three (IPC Interface,
//! `mach_msg_type_t` and `mach_msg_type_long_t`). `mach_types/specs/Grammar` has the texts of both
//! forms, and `mach_types/specs/TextGuards` the faults in the order in which they are judged.
#![tactic(auto)]

mod descriptor;
mod words;

pub use descriptor::{Descriptor, data_len, descriptor_len, read_descriptor, write_descriptor};
pub use words::{read_word, write_word};
