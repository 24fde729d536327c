//! What a name is.
use mach_types::{PortId, Waited};
use name_space::Entry as Standing;

/// What a name of a task is.
#[derive(Clone, Copy)]
pub enum Seen {
    /// The task doesn't live.
    NoTask,
    /// The task has no such name.
    Nothing,
    /// It is `MACH_PORT_NULL`, which is no name.
    Null,
    /// It is `MACH_PORT_DEAD`, which is no name.
    Dead,
    /// The name stands for this.
    Named(Standing),
}

impl Seen {
    /// Returns what the name stands for; `None` for what is no name of the task. Constant time.
    pub fn standing(&self) -> Option<Standing> {
        match self {
            Seen::Named(standing) => Some(*standing),
            _ => None,
        }
    }

    /// Returns the port for which the name has a right; `None` if it has none. Constant time.
    pub fn port(&self) -> Option<PortId> {
        self.standing()?.right_port()
    }
}

/// Returns the port or set that a name stands for; `None` for a dead name. Constant time.
pub fn thing_of(standing: &Standing) -> Option<Waited> {
    match standing {
        Standing::Set(set) => Some(Waited::Set(*set)),
        _ => Some(Waited::Port(standing.right_port()?)),
    }
}
