//! One kernel for many threads, with its history, and message calls that wait.
//!
//! [`Shared`] is a kernel behind a lock. Each caller has a [`Pass`], and each call that is made with it stands
//! in the history. A [`Watch`] reads how long that is, without waiting for anybody. [`mach_msg`] sends and
//! receives as Mach's call does, and tries again as its [`Gate`] says; [`run_blocks`] runs blocks of calls,
//! each in a thread of its own. A [`Hall`] has a gate for each thread, by which one that waits is woken by the changes
//! that concern it. Whoever waits passes a handle that allows it.
pub use kernel_lock::{Board, Entry, Held, LockedKernel, Pass, Shared, Watch};
pub use mach_msg_threads::{
    Answer, Block, BlockGate, Call, Gate, Hall, Outcome, RunFault, is_change, mach_msg, make_call,
    run_blocks, tell,
};
pub use mach_types::Options;
