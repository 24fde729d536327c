//! What a job is asked for.
use mach_show_base::{Filter, Shown};
use mach_words::Labels;
use std::alloc::Global;

/// What a job is asked for, without what becomes of messages.
#[derive(Clone, Copy)]
pub struct Source<'a> {
    /// The name of the file, for faults.
    pub name: &'a str,
    /// The allocator.
    pub alloc: Global,
    /// Which entries are shown.
    pub filter: Filter,
    /// The labels.
    pub labels: &'a Labels,
}

impl<'a> Source<'a> {
    /// Leaves out what becomes of messages.
    pub fn of(shown: &Shown<'a, '_>) -> Source<'a> {
        Source {
            name: shown.name,
            alloc: shown.alloc,
            filter: shown.filter,
            labels: shown.labels,
        }
    }
}
