//! The kernel's calls on tasks, names, references and port sets, each on the tables (`World`). Those on receive
//! rights are in `receive_right`.
//!
//! Each call promises its own part of a step of the machine of `mach_model`, up to the death of ports
//! (`copyin_base`'s `specs/Serving`). `kernel_core` makes the calls and ends the steps; nothing else uses
//! them.
#![tactic(auto)]

mod callers;
mod names;
mod references;
mod sets;
mod tasks;

pub use callers::has_tasks;
pub use names::{
    allocate, allocate_name, check_allocate, check_allocate_name, check_rename, list_names,
    name_type, rename,
};
pub use references::{deallocate, destroy, get_refs, mod_refs};
pub use sets::{
    Member, Moved, check_insert_member, check_set_status, extract_member, insert_member,
    move_member, set_status,
};
pub use tasks::{check_create_task, create_task, terminate_task};
