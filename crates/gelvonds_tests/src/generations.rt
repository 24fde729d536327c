//! A kernel of the second profile, whose fresh names have a generation. Names that a caller chooses aren't counted.
//!
//! `tests/profiles/generations.script` has the same exchange as calls.
use crate::messages::bytes;
use crate::parties::server;
use gelvonds::{Kernel, Name, Profile, Receipt, Right};
use std::alloc::Global;
use std::process::Abort;
use std::test::*;

/// The task's port, its first fresh name.
const PORT: u32 = 256;

/// A message to the port, by a send right that is made for it, with the id 7.
pub(crate) const MESSAGE: [u8; 24] = [
    20, 0, 0, 0, 24, 0, 0, 0, 0, 1, 0, 0, 0, 0, 0, 0, 0, 0, 0, 0, 7, 0, 0, 0,
];

/// The same, as its receiver gets it.
pub(crate) const RECEIVED: [u8; 24] = [
    0, 17, 0, 0, 24, 0, 0, 0, 0, 0, 0, 0, 0, 1, 0, 0, 0, 0, 0, 0, 7, 0, 0, 0,
];

#[test]
fn names_by_typed_calls(rt: HostRuntime) -> Result<(), Fail> {
    let mut kernel = Kernel::with_profile(rt.alloc(), Profile::Two);
    assert!(rt; kernel.create_task() == Ok(server()));
    assert!(rt; kernel.allocate(server(), Right::Receive) == Ok(Name::new(PORT)));
    names_come_again(&rt, &mut kernel);
    index_is_in_use(&rt, &mut kernel);
    message_goes(&rt, rt.alloc(), &mut kernel)
}

/// Returns whether a dead name comes under this fresh name.
fn comes_under(kernel: &mut Kernel, name: u32) -> bool {
    kernel.allocate(server(), Right::DeadName) == Ok(Name::new(name))
}

fn names_come_again(rt: &impl Abort, kernel: &mut Kernel) {
    assert!(rt; comes_under(kernel, 512));
    assert!(rt; kernel.deallocate(server(), Name::new(512)) == Ok(()));
    assert!(rt; comes_under(kernel, 513));
}

/// A chosen name, 700, has the index 2 of 512 and 513.
fn index_is_in_use(rt: &impl Abort, kernel: &mut Kernel) {
    let chosen = Name::new(700);
    assert!(rt; kernel.allocate_name(server(), Right::DeadName, chosen) == Ok(chosen));
    assert!(rt; kernel.deallocate(server(), Name::new(513)) == Ok(()));
    assert!(rt; comes_under(kernel, 768));
    assert!(rt; kernel.deallocate(server(), chosen) == Ok(()));
    assert!(rt; comes_under(kernel, 514));
}

fn message_goes(rt: &impl Abort, alloc: Global, kernel: &mut Kernel) -> Result<(), Fail> {
    assert!(rt; kernel.send(server(), bytes(alloc, &MESSAGE)?).is_ok());
    let received = Receipt::Message(bytes(alloc, &RECEIVED)?);
    assert!(rt; kernel.receive(server(), Name::new(PORT), 24, false) == Ok(received));
    Ok(())
}
