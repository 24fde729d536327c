//! Tests of `gelvonds`: its typed calls, a task with no name left, kernels of other profiles, and the program of
//! `docs/EMBEDDING.md`. Tests of its `threads`: the history of one kernel, callers in threads of their own, a kernel that
//! keeps no entries, message calls, blocks that run at once, and blocks that wait by a hall.
//!
//! They stand in a crate of their own, so that the crates that they test are proved once.
#![tactic(auto)]

#[cfg(test)]
mod callers;
#[cfg(test)]
mod calls;
#[cfg(test)]
mod embedding;
#[cfg(test)]
mod full;
#[cfg(test)]
mod generations;
#[cfg(test)]
mod halls;
#[cfg(test)]
mod history;
#[cfg(test)]
mod message_calls;
#[cfg(test)]
mod messages;
#[cfg(test)]
mod parties;
#[cfg(test)]
mod several_sets;
#[cfg(test)]
mod unkept;
#[cfg(test)]
mod waiters;
