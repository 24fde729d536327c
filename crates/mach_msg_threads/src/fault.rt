//! Why a run of blocks ended without their answers.
ghost use Rattle.std.specs.Prelude.{◌≡◌};
ghost use Rattle.mach_msg_threads.specs.declared.fault.RunFault.TheVariants.{Memory};

use std::alloc::{AllocError, AllocFailed};
use thiserror::Error;

/// Why [`run_blocks`](crate::run_blocks) ended without the blocks' answers. The calls that were made by then
/// stand in the history.
#[derive(Clone, Copy, Debug, PartialEq, Eq, Error)]
pub enum RunFault {
    /// Memory was refused.
    #[error("out of memory")]
    Memory,
    /// A thread was refused.
    #[error("no thread")]
    Thread,
}

impl From<AllocError> for RunFault {
    ghost from_gives = { λ _ fault. fault ≡ Memory };

    fn from(_error: AllocError) -> RunFault {
        RunFault::Memory
    }
}

impl<T: Drop> From<AllocFailed<T>> for RunFault {
    ghost from_gives = { λ _ fault. fault ≡ Memory };

    fn from(_error: AllocFailed<T>) -> RunFault {
        RunFault::Memory
    }
}
