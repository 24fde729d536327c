//! A kernel of the third profile: a port enters two sets, and leaves them.
//!
//! `tests/profiles/several_sets.script` has the same as calls.
use crate::calls::has_members;
use crate::generations::{MESSAGE, RECEIVED};
use crate::messages::bytes;
use crate::parties::server;
use gelvonds::{
    Code, KernReturn, Kernel, MsgReturn, Name, PortId, Profile, Receipt, Right, SetId, Status,
    Waited,
};
use std::alloc::Global;
use std::process::Abort;
use std::test::*;

/// The task's port, and its two sets.
const PORT: u32 = 256;

const SET: u32 = 512;

const OTHER: u32 = 768;

#[test]
fn a_port_in_two_sets(rt: HostRuntime) -> Result<(), Fail> {
    let mut kernel = Kernel::with_profile(rt.alloc(), Profile::Three);
    assert!(rt; kernel.create_task() == Ok(server()));
    assert!(rt; kernel.allocate(server(), Right::Receive) == Ok(Name::new(PORT)));
    assert!(rt; kernel.allocate(server(), Right::PortSet) == Ok(Name::new(SET)));
    assert!(rt; kernel.allocate(server(), Right::PortSet) == Ok(Name::new(OTHER)));
    enters(&rt, &mut kernel);
    message_goes(&rt, rt.alloc(), &mut kernel)?;
    leaves(&rt, &mut kernel);
    Ok(())
}

fn enters(rt: &impl Abort, kernel: &mut Kernel) {
    let port = Name::new(PORT);
    assert!(rt; kernel.insert_member(server(), port, Name::new(SET)) == Ok(()));
    assert!(rt; kernel.insert_member(server(), port, Name::new(OTHER)) == Ok(()));
    assert!(rt;
        kernel.insert_member(server(), port, Name::new(OTHER)) == Err(KernReturn::AlreadyInSet)
    );
    assert!(rt; kernel.receive_status(server(), port) == Ok(status(SET, 0)));
}

/// The status of a port of which so many messages were sent by a send right that was made, and received.
fn status(set: u32, messages: u32) -> Status {
    Status {
        set: Name::new(set),
        sequence: messages,
        make_send: messages,
        limit: 5,
        queued: 0,
        send_once: 0,
        has_send: 0,
        port_destroyed: 0,
        no_senders: 0,
    }
}

/// It goes by one of the sets alone.
fn message_goes(rt: &impl Abort, alloc: Global, kernel: &mut Kernel) -> Result<(), Fail> {
    assert!(rt; kernel.send(server(), bytes(alloc, &MESSAGE)?).is_ok());
    let received = Receipt::Message(bytes(alloc, &RECEIVED)?);
    assert!(rt; kernel.receive(server(), Name::new(OTHER), 24, false) == Ok(received));
    let empty = Receipt::Empty(Waited::Set(SetId::new(0)));
    assert!(rt; kernel.receive(server(), Name::new(SET), 24, false) == Ok(empty));
    Ok(())
}

fn leaves(rt: &impl Abort, kernel: &mut Kernel) {
    let port = Name::new(PORT);
    assert!(rt; kernel.extract_member(server(), port, Name::new(SET)) == Ok(()));
    assert!(rt; kernel.extract_member(server(), port, Name::new(SET)) == Err(KernReturn::NotInSet));
    assert!(rt; has_members(kernel, Name::new(SET), &[]));
    assert!(rt; kernel.receive_status(server(), port) == Ok(status(OTHER, 1)));
    let in_set = Code::Message(MsgReturn::ReceiveInSet);
    assert!(rt; kernel.receive(server(), port, 24, false) == Err(in_set));
    assert!(rt; kernel.destroy(server(), Name::new(OTHER)) == Ok(()));
    let empty = Receipt::Empty(Waited::Port(PortId::new(0)));
    assert!(rt; kernel.receive(server(), port, 24, false) == Ok(empty));
}
