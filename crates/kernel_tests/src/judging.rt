//! What came of the refusals.
use std::alloc::{AllocError, AllocFailed};
use std::fmt;

/// What is not as it should be.
#[derive(Clone, Copy, Debug, PartialEq, Eq)]
pub enum Fault {
    /// Memory that the test itself needs was refused.
    Memory,
    /// A reply is neither the row's, nor the call's own code for out of memory, nor `NoRecord`.
    OtherReply,
    /// A call says out of memory though no growth was refused.
    NoneRefused,
    /// A growth that is asked for without a refusal isn't asked for.
    NotAsked,
    /// After a refusal the history has another length, or the board shows another.
    OtherLength,
    /// After a refusal a task has other names, or a name another status.
    OtherState,
    /// The same call with memory, or one that comes later, isn't answered as in the row.
    NotAgain,
    /// After a refusal the other calls ask for more growths than without one, or for fewer than those that were given.
    OtherGrowths,
    /// A call that takes no memory asks for some.
    Asks,
}

impl From<AllocError> for Fault {
    fn from(_error: AllocError) -> Fault {
        Fault::Memory
    }
}

impl<T: Drop> From<AllocFailed<T>> for Fault {
    fn from(_error: AllocFailed<T>) -> Fault {
        Fault::Memory
    }
}

/// How many refusals were as they should be, and the fault that came next, if there was one.
#[derive(Clone, Copy)]
pub struct Verdict {
    refused: usize,
    fault: Option<Fault>,
}

impl Verdict {
    /// So many refusals, and no fault.
    pub fn passed(refused: usize) -> Verdict {
        Verdict {
            refused,
            fault: None,
        }
    }

    /// So many refusals, and then this fault.
    pub fn failed(refused: usize, fault: Fault) -> Verdict {
        Verdict {
            refused,
            fault: Some(fault),
        }
    }
}

impl fmt::Display for Verdict {
    fn fmt<W: fmt::Write>(&self, f: &mut fmt::Formatter<W>) -> fmt::Result {
        match self.fault {
            None => write!(f, "{}", self.refused),
            Some(fault) => write!(f, "{}!{fault:?}", self.refused),
        }
    }
}
