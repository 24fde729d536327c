//! Each typed call, and refusals of most of them.
use crate::messages::{RECEIVED, bytes};
use crate::parties::{by, client, server};
use gelvonds::{
    Code, Disposition, ExtractedRight, KernReturn, Kernel, MsgReturn, Name, Notification,
    NotificationRequest, Receipt, Right, SendError, TaskId, Waited,
};
use std::alloc::Global;
use std::process::Abort;
use std::test::*;

/// A message to the port under 1, by a copied send right, with the id 7.
const MESSAGE: [u8; 24] = [
    19, 0, 0, 0, 24, 0, 0, 0, 1, 0, 0, 0, 0, 0, 0, 0, 0, 0, 0, 0, 7, 0, 0, 0,
];

fn make_tasks(rt: &impl Abort, kernel: &mut Kernel) {
    assert!(rt; kernel.create_task() == Ok(server()));
    assert!(rt; kernel.create_task() == Ok(client()));
}

/// On a new kernel: the server has a port under 1, for which the client has a send right under 1.
fn give_service(rt: &impl Abort, kernel: &mut Kernel) {
    make_tasks(rt, kernel);
    let one = Name::new(1);
    assert!(rt; kernel.allocate(server(), Right::Receive) == Ok(one));
    let made = by(Disposition::MakeSend, 1);
    assert!(rt; kernel.insert_right(client(), one, server(), made) == Ok(()));
}

#[test]
fn tasks(rt: HostRuntime) {
    let mut kernel = Kernel::new(rt.alloc());
    tasks_end(&rt, &mut kernel);
}

fn tasks_end(rt: &impl Abort, kernel: &mut Kernel) {
    make_tasks(rt, kernel);
    assert!(rt; kernel.terminate_task(server()) == Ok(()));
    assert!(rt; kernel.terminate_task(server()) == Err(KernReturn::InvalidTask));
    assert!(rt; has_names(kernel, client(), &[]));
}

/// Returns whether the task has just these names, with these types.
fn has_names(kernel: &mut Kernel, task: TaskId, types: &[(Name, u32)]) -> bool {
    match kernel.names(task) {
        Ok(names) => names.as_slice() == types,
        Err(_) => false,
    }
}

#[test]
fn names(rt: HostRuntime) {
    let mut kernel = Kernel::new(rt.alloc());
    names_are_kept(&rt, &mut kernel);
}

fn names_are_kept(rt: &impl Abort, kernel: &mut Kernel) {
    give_service(rt, kernel);
    names_are_made(rt, kernel);
    names_are_changed(rt, kernel);
    let types = [
        (Name::new(1), Right::Receive.type_bit()),
        (Name::new(5), Right::PortSet.type_bit()),
    ];
    assert!(rt; has_names(kernel, server(), &types));
}

fn names_are_made(rt: &impl Abort, kernel: &mut Kernel) {
    let four = Name::new(4);
    let exists = Err(KernReturn::NameExists);
    assert!(rt; kernel.allocate(server(), Right::Send) == Err(KernReturn::InvalidValue));
    assert!(rt; kernel.allocate_name(server(), Right::PortSet, four) == Ok(four));
    assert!(rt; kernel.allocate_name(server(), Right::PortSet, four) == exists);
    assert!(rt; kernel.name_type(server(), four) == Ok(Right::PortSet.type_bit()));
}

fn names_are_changed(rt: &impl Abort, kernel: &mut Kernel) {
    let (four, five) = (Name::new(4), Name::new(5));
    assert!(rt; kernel.rename(server(), four, five) == Ok(()));
    assert!(rt; kernel.rename(server(), four, five) == Err(KernReturn::InvalidName));
}

#[test]
fn references(rt: HostRuntime) {
    let mut kernel = Kernel::new(rt.alloc());
    references_are_counted(&rt, &mut kernel);
}

fn references_are_counted(rt: &impl Abort, kernel: &mut Kernel) {
    give_service(rt, kernel);
    references_change(rt, kernel);
    references_end(rt, kernel);
}

fn references_change(rt: &impl Abort, kernel: &mut Kernel) {
    let one = Name::new(1);
    let fewer = Err(KernReturn::InvalidValue);
    assert!(rt; kernel.mod_refs(client(), one, Right::Send, 2) == Ok(()));
    assert!(rt; kernel.get_refs(client(), one, Right::Send) == Ok(3));
    assert!(rt; kernel.deallocate(client(), one) == Ok(()));
    assert!(rt; kernel.mod_refs(client(), one, Right::Send, -3) == fewer);
}

fn references_end(rt: &impl Abort, kernel: &mut Kernel) {
    let one = Name::new(1);
    assert!(rt; kernel.deallocate(server(), one) == Err(KernReturn::InvalidRight));
    assert!(rt; kernel.destroy(server(), one) == Ok(()));
    assert!(rt; kernel.get_refs(client(), one, Right::DeadName) == Ok(2));
    assert!(rt; kernel.destroy(client(), one) == Ok(()));
    assert!(rt; kernel.destroy(client(), one) == Err(KernReturn::InvalidName));
}

#[test]
fn receive_rights(rt: HostRuntime) {
    let mut kernel = Kernel::new(rt.alloc());
    numbers_are_set(&rt, &mut kernel);
}

fn numbers_are_set(rt: &impl Abort, kernel: &mut Kernel) {
    give_service(rt, kernel);
    let one = Name::new(1);
    assert!(rt; kernel.set_qlimit(server(), one, 17) == Err(KernReturn::InvalidValue));
    assert!(rt; kernel.set_qlimit(server(), one, 3) == Ok(()));
    assert!(rt; kernel.set_mscount(server(), one, 4) == Ok(()));
    assert!(rt; has_numbers(rt, kernel, one));
}

/// Returns whether the status tells the numbers that were set, and that of the next message that is set
/// first.
fn has_numbers(rt: &impl Abort, kernel: &mut Kernel, name: Name) -> bool {
    assert!(rt; kernel.set_seqno(server(), name, 5) == Ok(()));
    assert!(rt; kernel.set_seqno(client(), name, 5) == Err(KernReturn::InvalidRight));
    match kernel.receive_status(server(), name) {
        Ok(status) => {
            status.limit == 3
                && status.make_send == 4
                && status.sequence == 5
                && status.has_send == 1
        }
        Err(_) => false,
    }
}

#[test]
fn sets(rt: HostRuntime) {
    let mut kernel = Kernel::new(rt.alloc());
    sets_are_filled(&rt, &mut kernel);
}

fn sets_are_filled(rt: &impl Abort, kernel: &mut Kernel) {
    give_service(rt, kernel);
    let (one, set) = (Name::new(1), Name::new(2));
    assert!(rt; kernel.allocate(server(), Right::PortSet) == Ok(set));
    assert!(rt; kernel.move_member(server(), one, Name::null()) == Err(KernReturn::NotInSet));
    assert!(rt; kernel.move_member(server(), one, set) == Ok(()));
    members_are_told(rt, kernel, one, set);
}

fn members_are_told(rt: &impl Abort, kernel: &mut Kernel, member: Name, set: Name) {
    let in_set = Code::Message(MsgReturn::ReceiveInSet);
    assert!(rt; has_members(kernel, set, &[member]));
    assert!(rt; kernel.set_status(server(), member) == Err(KernReturn::InvalidRight));
    assert!(rt; kernel.receive(server(), member, 24, false) == Err(in_set));
}

/// Returns whether the server's set has just these members.
pub(crate) fn has_members(kernel: &mut Kernel, set: Name, members: &[Name]) -> bool {
    match kernel.set_status(server(), set) {
        Ok(names) => names.as_slice() == members,
        Err(_) => false,
    }
}

#[test]
fn transfers(rt: HostRuntime) {
    let mut kernel = Kernel::new(rt.alloc());
    rights_are_moved(&rt, &mut kernel);
}

fn rights_are_moved(rt: &impl Abort, kernel: &mut Kernel) {
    give_service(rt, kernel);
    let one = Name::new(1);
    let made = by(Disposition::MakeSend, 1);
    let null = kernel.insert_right(client(), Name::null(), server(), made);
    assert!(rt; null == Err(KernReturn::InvalidValue));
    let taken = kernel.extract_right(server(), one, Disposition::MakeSendOnce, client());
    let two = ExtractedRight {
        name: Name::new(2),
        kind: 18,
    };
    assert!(rt; taken == Ok(two));
    let lacks = kernel.extract_right(client(), one, Disposition::MoveReceive, server());
    assert!(rt; lacks == Err(KernReturn::InvalidRight));
}

#[test]
fn notifications(rt: HostRuntime) {
    let mut kernel = Kernel::new(rt.alloc());
    notices_are_asked_for(&rt, &mut kernel);
}

/// A request for a notice under the name 1, or its end.
fn request(
    kernel: &mut Kernel,
    notification: Notification,
    notify: Option<u32>,
) -> Result<Name, KernReturn> {
    let request = NotificationRequest {
        notification,
        sync: 0,
        notify: notify.map(|name| by(Disposition::MakeSendOnce, name)),
    };
    kernel.request_notification(client(), Name::new(1), request)
}

fn notices_are_asked_for(rt: &impl Abort, kernel: &mut Kernel) {
    give_service(rt, kernel);
    assert!(rt; kernel.allocate(client(), Right::Receive) == Ok(Name::new(2)));
    assert!(rt; request(kernel, Notification::DeadName, Some(2)) == Ok(Name::null()));
    assert!(rt; request(kernel, Notification::DeadName, None) == Ok(Name::new(3)));
    let of_no_receive_right = request(kernel, Notification::NoSenders, None);
    assert!(rt; of_no_receive_right == Err(KernReturn::InvalidRight));
    assert!(rt; Notification::PortDestroyed.number() == 69);
}

/// A queue of one message: the second send gets its bytes back.
#[test]
fn messages(rt: HostRuntime) -> Result<(), Fail> {
    let mut kernel = Kernel::new(rt.alloc());
    messages_go(&rt, rt.alloc(), &mut kernel)
}

fn messages_go(rt: &impl Abort, alloc: Global, kernel: &mut Kernel) -> Result<(), Fail> {
    give_service(rt, kernel);
    assert!(rt; kernel.set_qlimit(server(), Name::new(1), 1) == Ok(()));
    assert!(rt; kernel.send(client(), bytes(alloc, &MESSAGE)?).is_ok());
    message_comes_back(rt, alloc, kernel)?;
    message_is_received(rt, alloc, kernel)
}

fn message_comes_back(rt: &impl Abort, alloc: Global, kernel: &mut Kernel) -> Result<(), Fail> {
    let full = SendError {
        code: Code::Message(MsgReturn::SendTimedOut),
        message: bytes(alloc, &MESSAGE)?,
    };
    assert!(rt; kernel.send(client(), bytes(alloc, &MESSAGE)?) == Err(full));
    Ok(())
}

fn message_is_received(rt: &impl Abort, alloc: Global, kernel: &mut Kernel) -> Result<(), Fail> {
    let one = Name::new(1);
    let received = Receipt::Message(bytes(alloc, &RECEIVED)?);
    assert!(rt; kernel.receive(server(), one, 20, true) == Ok(Receipt::TooLarge(24)));
    assert!(rt; kernel.receive(server(), one, 24, false) == Ok(received));
    Ok(())
}

/// A receive that found nothing goes on from what it waited for.
#[test]
fn waits(rt: HostRuntime) -> Result<(), Fail> {
    let mut kernel = Kernel::new(rt.alloc());
    receive_goes_on(&rt, rt.alloc(), &mut kernel)
}

fn receive_goes_on(rt: &impl Abort, alloc: Global, kernel: &mut Kernel) -> Result<(), Fail> {
    give_service(rt, kernel);
    let Some(waited) = finds_nothing(kernel) else {
        return Err(Fail::new("a message that was not sent"));
    };
    assert!(rt; kernel.send(client(), bytes(alloc, &MESSAGE)?).is_ok());
    finds_what_came(rt, kernel, &waited);
    let invalid = Code::Kern(KernReturn::InvalidTask);
    assert!(rt; kernel.receive(TaskId::new(9), Name::new(1), 24, true) == Err(invalid));
    Ok(())
}

/// What a receive from an empty queue waits for.
fn finds_nothing(kernel: &mut Kernel) -> Option<Waited> {
    let receipt = kernel.receive(server(), Name::new(1), 24, false);
    match &receipt {
        Ok(Receipt::Empty(waited)) => Some(*waited),
        _ => None,
    }
}

fn finds_what_came(rt: &impl Abort, kernel: &mut Kernel, waited: &Waited) {
    let (one, died) = (Name::new(1), Code::Message(MsgReturn::ReceivePortDied));
    let longer = kernel.receive_again(server(), *waited, 20, true);
    assert!(rt; longer == Ok(Receipt::TooLarge(24)));
    assert!(rt; kernel.destroy(server(), one) == Ok(()));
    let late = kernel.receive_again(server(), *waited, 24, true);
    assert!(rt; late == Err(died));
}
