//! One kernel behind a lock, for many threads, with its history.
//!
//! [`Shared`] is the kernel behind its lock. A caller has a [`Pass`], makes calls with it, and every call
//! stands in the history. The type of the locked kernel says of the history that its events and replies are a
//! run of the machine to a state that this very kernel shows (`specs/Replays`). Its entries are kept in
//! memory, except for a kernel made by [`Shared::without_entries`], whose memory doesn't grow with them. Its
//! length stands on a [`Board`], which a [`Watch`] reads without waiting for anybody; what a watch has seen
//! is a beginning of the one history, and so is what a pass has seen (`specs/History`, `specs/Table`).
#![tactic(auto)]

mod berth;
mod board;
mod entries;
mod entry;
mod lock;
mod same;

pub use board::{Board, Watch};
pub use entry::Entry;
pub use lock::{Held, LockedKernel, Pass, Shared};
pub use same::are_same_replies;
