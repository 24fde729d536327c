//! What is read again of a history, who made which entry of it, and what a pass knows of its last call.
use crate::messages::{MESSAGE, bytes};
use gelvonds::threads::{Entry, Shared};
use gelvonds::{Event, Name, PortId, Reply, TaskId, Touched, Waited};
use std::test::*;

/// A port is made, and a message sent to it and received.
#[test]
fn reads_back(rt: HostRuntime) -> Result<(), Fail> {
    let shared = Shared::new(rt.alloc())?;
    let mut pass = shared.pass(&rt)?;
    let mut watch = shared.watch(&rt);
    let task = TaskId::new(0);
    assert_eq!(rt; shared.board().events(&mut watch), 0);
    shared.call(&rt, &mut pass, Event::TaskCreate);
    pass.tell(shared.board(), &mut watch);
    assert_eq!(rt; shared.board().events(&mut watch), 1);
    shared.call(&rt, &mut pass, Event::Allocate(task, 1));
    pass.tell(shared.board(), &mut watch);
    assert_eq!(rt; shared.board().events(&mut watch), 2);
    let message = bytes(rt.alloc(), &MESSAGE)?;
    shared.call(&rt, &mut pass, Event::Send(task, message));
    pass.tell(shared.board(), &mut watch);
    assert_eq!(rt; shared.board().events(&mut watch), 3);
    let receive = Event::Receive(task, Name::new(1), 24, false);
    let reply = shared.call(&rt, &mut pass, receive);
    pass.tell(shared.board(), &mut watch);
    assert_eq!(rt; shared.board().events(&mut watch), 4);
    let held = shared.lock(&rt);
    assert_eq!(rt; held.entries().len(), 4);
    assert!(rt; matches!(reply, Reply::Message(_)));
    assert!(rt; held.entries()[3].reply == reply);
    assert!(rt; held.entries()[3].fits());
    Ok(())
}

/// Returns whether the entry at this place is the caller's.
fn is_by(entries: &[Entry], place: usize, caller: u64) -> bool {
    match entries.get(place) {
        Some(entry) => entry.caller == caller,
        None => false,
    }
}

#[test]
fn one_history(rt: HostRuntime) -> Result<(), Fail> {
    let shared = Shared::new(rt.alloc())?;
    let mut one = shared.pass(&rt)?;
    let mut two = shared.pass(&rt)?;
    let mut watch = shared.watch(&rt);
    let first = shared.call(&rt, &mut one, Event::TaskCreate);
    let second = shared.call(&rt, &mut two, Event::TaskCreate);
    assert!(rt; first == Reply::Task(TaskId::new(0)));
    assert!(rt; second == Reply::Task(TaskId::new(1)));
    one.tell(shared.board(), &mut watch);
    two.tell(shared.board(), &mut watch);
    assert_eq!(rt; shared.board().events(&mut watch), 2);
    let mut held = shared.lock(&rt);
    held.step_locked(
        shared.board(),
        &mut one,
        Event::NameType(TaskId::new(0), Name::new(7)),
    );
    assert!(rt; is_by(held.entries(), 0, 0));
    assert!(rt; is_by(held.entries(), 1, 1));
    assert!(rt; is_by(held.entries(), 2, 0));
    Ok(())
}

/// What a call touched that changed the first port alone.
fn first_port() -> Touched {
    Touched::Few([Some(Waited::Port(PortId::new(0))), None, None, None])
}

/// A pass tells what its own last call touched.
#[test]
fn touched_by_a_pass(rt: HostRuntime) -> Result<(), Fail> {
    let shared = Shared::new(rt.alloc())?;
    let mut pass = shared.pass(&rt)?;
    let mut other = shared.pass(&rt)?;
    let task = TaskId::new(0);
    assert!(rt; pass.touched() == Touched::none());
    shared.call(&rt, &mut pass, Event::TaskCreate);
    shared.call(&rt, &mut pass, Event::Allocate(task, 1));
    let message = bytes(rt.alloc(), &MESSAGE)?;
    shared.call(&rt, &mut pass, Event::Send(task, message));
    assert!(rt; pass.touched() == first_port());
    shared.call(&rt, &mut other, Event::GetRefs(task, Name::new(1), 1));
    assert!(rt; other.touched() == Touched::none());
    assert!(rt; pass.touched() == first_port());
    Ok(())
}
