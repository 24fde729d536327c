//! What workloads of Mach 3 port IPC are made of, and the worlds in which they are made.
//!
//! Instructions are counted in `bench`'s `measured` alone; `docs/PERFORMANCE.md` has the command.
#![tactic(auto)]

mod bench;
mod calls;
mod chosen;
mod messages;
mod naming;
mod worlds;

pub use bench::{Bench, Group, Step, Stop, is_refused};
pub use calls::{
    ASKED, COMPLEX, COPY_SEND, Call, DEAD_NAME, FULL, HOME, Label, MAKE_SEND, MAKE_SEND_ONCE,
    MOVE_SEND_ONCE, Notify, OTHER, PEER, PORT_SET, RECEIVE, Round, SET,
};
pub use messages::{Body, Message};
pub use naming::Naming;
pub use worlds::{OPENING, SMALL, World, all_worlds};
