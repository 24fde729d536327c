//! The whole state in words.
use crate::carried::Carriers;
use crate::deaths::Deaths;
use mach_fates::Fates;
use mach_follow::Follower;
use mach_words::{Labels, Text};
use std::alloc::{AllocError, Global};

/// A state after an entry, and what is known of its past.
#[derive(Clone, Copy)]
pub struct State<'a> {
    /// The allocator.
    pub alloc: Global,
    /// Has made the calls up to the entry.
    pub follower: &'a Follower,
    /// Where queued messages came from.
    pub fates: &'a Fates,
    /// The ports that died.
    pub deaths: &'a Deaths,
    /// The labels.
    pub labels: &'a Labels,
}

/// Writes all tasks with their names, then all live ports with their queues, then the ports that died.
///
/// Returns `AllocError` if out of memory. Linear in the tasks, ports and sets that were ever made, in names, and in queued
/// messages and their rights. Takes memory for the names of a task, the members of a set and the receive rights in queues.
pub fn write_state(state: &State<'_>, out: &mut Text) -> Result<(), AllocError> {
    let mut carriers = Carriers::new(state.alloc);
    state.note_carriers(&mut carriers)?;
    state.write_tasks(out)?;
    out.words("\n");
    state.write_ports(&carriers, out);
    state.write_deaths(out);
    Ok(())
}
