//! The two tasks between which each test goes.
use gelvonds::{Disposition, Name, PortRight, TaskId};

/// The task that is made first.
pub(crate) fn server() -> TaskId {
    TaskId::new(0)
}

/// The task that is made next.
pub(crate) fn client() -> TaskId {
    TaskId::new(1)
}

/// The right that this disposition makes of what is under this name.
pub(crate) fn by(disposition: Disposition, name: u32) -> PortRight {
    PortRight {
        disposition,
        name: Name::new(name),
    }
}
