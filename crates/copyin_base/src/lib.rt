//! The kernel's tables, and the verbs that every call on them is made of.
//!
//! [`World`] has the tasks' names, the ports with their queues, the counts of rights, the port sets and the
//! requests for notices.
//! `specs/Shows` says when the tables show a state of the machine of `mach_model`, and `specs/Serving` what
//! a call on them promises.
#![tactic(auto)]

mod attributes;
mod counts;
mod dying;
mod entries;
mod find;
mod losing;
mod ports;
mod queues;
mod requests;
mod senders;
mod sets;
mod tasks;
mod world;

pub use tables_base::{
    BodyRights, Carried, CarriedRights, Envelope, Mark, Message, Notice, Placed, Queued, Slot,
    TaskNames,
};
pub use world::World;
