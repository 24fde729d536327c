//! Names that aren't what a call needs.
use mach_causes_base::{Reason, Wanted, suffices};
use mach_follow::{Follower, Place, Seen, Standing};
use mach_types::TaskId;

/// Returns why the name can't be used; `None` if the task has it.
pub(crate) fn absent(follower: &Follower, place: &Place) -> Option<Reason> {
    match follower.look(place.task, place.name) {
        Seen::NoTask => Some(no_task(follower, place.task)),
        Seen::Nothing | Seen::Null | Seen::Dead => {
            Some(Reason::Absent(*place, follower.was(place.task, place.name)))
        }
        Seen::Named(_) => None,
    }
}

/// Returns that the number is no name; `None` if it can be one.
pub(crate) fn no_name(place: &Place) -> Option<Reason> {
    if place.name.is_usable() {
        return None;
    }
    Some(Reason::NoName(place.name))
}

/// Returns why the name isn't what the call needs; `None` if it is.
pub(crate) fn lacks(follower: &Follower, place: &Place, wanted: Wanted) -> Option<Reason> {
    match standing_under(follower, place) {
        Some(standing) => lacking(place, standing, wanted),
        None => absent(follower, place),
    }
}

/// Returns why a name that stands for this isn't what the call needs; `None` if it is.
fn lacking(place: &Place, standing: Standing, wanted: Wanted) -> Option<Reason> {
    if suffices(&standing, wanted) {
        return None;
    }
    if matches!(standing, Standing::DeadName(_)) {
        return Some(Reason::Dead(*place));
    }
    Some(Reason::Lacks(*place, standing, wanted))
}

/// Returns what the name stands for; `None` if the task has no such name.
pub(crate) fn standing_under(follower: &Follower, place: &Place) -> Option<Standing> {
    follower.look(place.task, place.name).standing()
}

/// Returns that the name is in use; `None` if it isn't.
pub(crate) fn used(follower: &Follower, place: &Place) -> Option<Reason> {
    Some(Reason::Used(*place, standing_under(follower, place)?))
}

/// Returns that the task doesn't live.
pub(crate) fn no_task(follower: &Follower, task: TaskId) -> Reason {
    Reason::NoTask(task, follower.end_of(task))
}
