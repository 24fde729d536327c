//! A task that has each of its names in use: a right that moves in it comes under the name that it frees.
use crate::parties::{by, server};
use gelvonds::{
    Disposition, ExtractedRight, KernReturn, Kernel, Name, Notification, NotificationRequest, Right,
};
use std::process::Abort;
use std::test::*;

/// The greatest name that a kernel chooses.
const LAST: u32 = 65_535;

/// On a new kernel: the task has a port under 1, a send-once right for it under 2, and dead names under
/// all others.
fn fill(kernel: &mut Kernel) -> bool {
    if kernel.create_task() != Ok(server()) || !has_two(kernel) {
        return false;
    }
    for name in 3..=LAST {
        if kernel.allocate(server(), Right::DeadName) != Ok(Name::new(name)) {
            return false;
        }
    }
    kernel.allocate(server(), Right::DeadName) == Err(KernReturn::NoSpace)
}

fn has_two(kernel: &mut Kernel) -> bool {
    let one = Name::new(1);
    kernel.allocate(server(), Right::Receive) == Ok(one)
        && comes_under_two(kernel, one, Disposition::MakeSendOnce)
}

/// Returns whether a send-once right of what is under the name comes under 2.
fn comes_under_two(kernel: &mut Kernel, name: Name, disposition: Disposition) -> bool {
    let two = ExtractedRight {
        name: Name::new(2),
        kind: 18,
    };
    kernel.extract_right(server(), name, disposition, server()) == Ok(two)
}

/// A request to be told that the port died, paid for by the right under the name.
fn request(kernel: &mut Kernel, disposition: Disposition, name: u32) -> Result<Name, KernReturn> {
    let request = NotificationRequest {
        notification: Notification::DeadName,
        sync: 0,
        notify: Some(by(disposition, name)),
    };
    kernel.request_notification(server(), Name::new(1), request)
}

#[test]
fn rights_move_in_a_full_task(rt: HostRuntime) {
    let mut kernel = Kernel::new(rt.alloc());
    assert!(rt; fill(&mut kernel));
    right_is_extracted(&rt, &mut kernel);
    right_of_a_request_comes_out(&rt, &mut kernel);
}

fn right_is_extracted(rt: &impl Abort, kernel: &mut Kernel) {
    assert!(rt; comes_under_two(kernel, Name::new(2), Disposition::MoveSendOnce));
    let more = kernel.extract_right(server(), Name::new(1), Disposition::MakeSendOnce, server());
    assert!(rt; more == Err(KernReturn::NoSpace));
}

/// The right under 2 pays for a request; once another is made there, it pays for one more, and that of the
/// request before comes out in its place.
fn right_of_a_request_comes_out(rt: &impl Abort, kernel: &mut Kernel) {
    assert!(rt; request(kernel, Disposition::MoveSendOnce, 2) == Ok(Name::null()));
    assert!(rt; comes_under_two(kernel, Name::new(1), Disposition::MakeSendOnce));
    assert!(rt; request(kernel, Disposition::MoveSendOnce, 2) == Ok(Name::new(2)));
}
