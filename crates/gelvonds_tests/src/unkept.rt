//! A kernel whose history's entries aren't kept.
use gelvonds::threads::Shared;
use gelvonds::{Event, Name, Reply, TaskId};
use std::test::*;

/// Calls are answered and counted as ever, and there is nothing to read again.
#[test]
fn no_entry_is_kept(rt: HostRuntime) -> Result<(), Fail> {
    let shared = Shared::without_entries(rt.alloc())?;
    let mut pass = shared.pass(&rt)?;
    let mut watch = shared.watch(&rt);
    let task = shared.call(&rt, &mut pass, Event::TaskCreate);
    let name = shared.call(&rt, &mut pass, Event::Allocate(TaskId::new(0), 1));
    assert!(rt; task == Reply::Task(TaskId::new(0)));
    assert!(rt; name == Reply::Name(Name::new(1)));
    pass.tell(shared.board(), &mut watch);
    assert_eq!(rt; shared.board().events(&mut watch), 2);
    let held = shared.lock(&rt);
    assert!(rt; held.entries().is_empty());
    assert_eq!(rt; held.events(), 2);
    Ok(())
}
