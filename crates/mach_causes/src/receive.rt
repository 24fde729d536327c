//! Finds why a receive is refused.
use crate::hand::{lacks, standing_under};
use mach_causes_base::{Reason, Wanted, made_once};
use mach_follow::{Follower, Place};
use mach_types::{MsgReturn, PortId, SetId, TaskId, Waited};

/// Finds why a receive by a name is refused.
pub(crate) fn explain_receive(follower: &Follower, place: &Place, code: u32) -> Option<Reason> {
    match MsgReturn::from_number(code)? {
        MsgReturn::ReceiveInvalidName => lacks(follower, place, Wanted::ReceiveOrSet),
        MsgReturn::ReceiveInSet => explain_in_set(follower, place),
        _ => explain_names(follower, place.task, code),
    }
}

/// Returns the set in which the name's port is.
fn explain_in_set(follower: &Follower, place: &Place) -> Option<Reason> {
    let port = standing_under(follower, place)?.receive_port()?;
    Some(Reason::InSet(*place, port, set_of(follower, port)?))
}

/// Finds why a receive by identity is refused.
pub(crate) fn explain_again(
    follower: &Follower,
    task: TaskId,
    waited: &Waited,
    code: u32,
) -> Option<Reason> {
    match MsgReturn::from_number(code)? {
        MsgReturn::ReceivePortDied => {
            let was_made = made_once(follower.tables(), waited)?;
            Some(Reason::Died(*waited, was_made))
        }
        MsgReturn::ReceivePortChanged => Some(explain_changed(follower, task, waited)),
        _ => explain_names(follower, task, code),
    }
}

/// Returns the set in which the port is, or that the task doesn't have the port or set.
fn explain_changed(follower: &Follower, task: TaskId, waited: &Waited) -> Reason {
    match waited {
        Waited::Port(port) => match set_of(follower, *port) {
            Some(set) => Reason::Member(*port, set),
            None => Reason::Changed(task, *waited),
        },
        Waited::Set(_) => Reason::Changed(task, *waited),
    }
}

/// Returns the set in which the port is.
fn set_of(follower: &Follower, port: PortId) -> Option<SetId> {
    match follower.tables().find_attributes(port) {
        Some(attributes) => attributes.set,
        None => None,
    }
}

/// Finds why a message's rights get no names.
fn explain_names(follower: &Follower, task: TaskId, code: u32) -> Option<Reason> {
    match MsgReturn::from_number(code)? {
        MsgReturn::ReceiveBodyErrorNames => {
            let names = follower.tables().find_space(task)?.len();
            Some(Reason::NamesShort(task, names as u32))
        }
        MsgReturn::ReceiveBodyErrorMemory => Some(Reason::Memory),
        _ => None,
    }
}
