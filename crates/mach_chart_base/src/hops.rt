//! The hops of messages.
use copyin_base::World;
use mach_follow::Follower;
use mach_types::{Event, PortId, TaskId};
use port::Holder;

/// What a message does in a hop.
#[derive(Clone, Copy, PartialEq, Eq)]
pub enum Way {
    /// It goes into a lane.
    In,
    /// It leaves its lane.
    Out,
}

/// A message goes into a lane of a queue, or leaves it.
#[derive(Clone, Copy)]
pub struct Hop {
    /// The message's number among all messages.
    pub serial: u64,
    /// The number of the task beside whose lifelines the lane is.
    pub task: u32,
    /// What the message does.
    pub way: Way,
    /// The lane, from 0.
    pub lane: usize,
    /// The row.
    pub row: usize,
    /// Whether the row shows it. Otherwise it comes before the row, in an entry that isn't shown.
    pub is_shown: bool,
}

/// Where a message is.
#[derive(Clone, Copy)]
pub struct Place {
    /// The number of the task beside whose lifelines it is.
    pub task: u32,
    /// Its lane.
    pub lane: usize,
    /// Whether it is drawn: a row shows a hop of it, or it waits through all rows of a window.
    pub is_drawn: bool,
    /// Whether the kernel sent it.
    pub is_notice: bool,
    /// Whether it waits in its queue before the first row.
    pub(crate) is_early: bool,
}

/// Returns the task that holds the receive right of a port, or of the port in whose queue that right is, and so on; `None`
/// if the port doesn't live. Linear in the ports on the way.
pub(crate) fn root_holder(world: &World, port: PortId) -> Option<TaskId> {
    let mut at = port;
    for _ in 0..world.count_ports() {
        let Some(queue) = carrier_of(world, at) else {
            break;
        };
        at = queue;
    }
    holding_task(world, at)
}

/// Returns the port in whose queue this port's receive right lies; `None` if it lies in none.
fn carrier_of(world: &World, port: PortId) -> Option<PortId> {
    match world.find_attributes(port) {
        Some(attributes) => match &attributes.holder {
            Holder::QueueOf(queue) => Some(*queue),
            _ => None,
        },
        None => None,
    }
}

/// Returns the task that holds a port's receive right; `None` if none does.
fn holding_task(world: &World, port: PortId) -> Option<TaskId> {
    match world.find_attributes(port) {
        Some(attributes) => match &attributes.holder {
            Holder::Task(task) => Some(*task),
            _ => None,
        },
        None => None,
    }
}

/// Returns the port for which a call hands a right from one task to another. Call it before the entry is replayed.
/// Constant time.
pub fn handed_port(follower: &Follower, event: &Event) -> Option<PortId> {
    match event {
        Event::InsertRight(_, _, task, name, _) | Event::ExtractRight(task, name, _, _) => {
            follower.look(*task, *name).port()
        }
        _ => None,
    }
}
