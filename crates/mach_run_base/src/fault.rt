//! What stops a job.
ghost use Rattle.std.specs.Prelude.{◌≡◌};
ghost use Rattle.mach_run_base.specs.declared.fault.Fault.TheVariants.{CannotWrite, OutOfMemory};

use mach_msg_threads::RunFault;
use std::alloc::{AllocError, AllocFailed};
use std::io;
use std::io::Write;
use thiserror::Error;

/// What stops a job. Its text is the line that tells of it.
#[derive(Clone, Copy, Debug, PartialEq, Eq, Error)]
pub enum Fault<'a> {
    /// The file of this name can't be opened or read.
    #[error("cannot read {0}")]
    CannotRead(&'a str),
    /// The line of this number, from 1, is none of a script.
    #[error("line {0}: bad call")]
    BadCall(u64),
    /// What the job makes can't be written.
    #[error("cannot write")]
    CannotWrite,
    /// A thread was refused.
    #[error("cannot start thread")]
    CannotStartThread,
    /// Memory was refused.
    #[error("out of memory")]
    OutOfMemory,
}

impl<'a, T: Drop> From<AllocFailed<T>> for Fault<'a> {
    ghost from_gives = { λ _ fault. fault ≡ OutOfMemory };

    fn from(_error: AllocFailed<T>) -> Fault<'a> {
        Fault::OutOfMemory
    }
}

impl<'a> From<AllocError> for Fault<'a> {
    ghost from_gives = { λ _ fault. fault ≡ OutOfMemory };

    fn from(_error: AllocError) -> Fault<'a> {
        Fault::OutOfMemory
    }
}

/// What is written can be refused alone.
impl<'a> From<io::Error> for Fault<'a> {
    ghost from_gives = { λ _ fault. fault ≡ CannotWrite };

    fn from(_error: io::Error) -> Fault<'a> {
        Fault::CannotWrite
    }
}

impl<'a> From<RunFault> for Fault<'a> {
    fn from(fault: RunFault) -> Fault<'a> {
        match fault {
            RunFault::Memory => Fault::OutOfMemory,
            RunFault::Thread => Fault::CannotStartThread,
        }
    }
}

/// Tells on `err` what the fault is, as one line, and returns its status, 1.
///
/// Where `err` refuses the line, nothing is left to tell of it.
pub fn report<E: Write>(fault: Fault<'_>, err: &mut E) -> u8
    ensures { result ≡ 1 }
{
    let _ = writeln!(err, "{fault}");
    1
}
