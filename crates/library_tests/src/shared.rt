//! Lists of items that may each be in several.
use shared_lists::SharedLists;
use std::alloc::{AllocError, Global};

fn enter_and_leave(alloc: Global) -> Result<bool, AllocError> {
    let mut lists = SharedLists::new(alloc, true);
    lists.reserve(2)?;
    lists.enter(10, 1, true);
    lists.reserve_further()?;
    lists.enter_further(20, 1, true);
    let was_ready = lists.first_ready(10) == Some(1);
    let first = lists.leave(10, 10, 1, true);
    let keeps_turn = first == Some(20) && lists.first_ready(20) == Some(1);
    Ok(was_ready && keeps_turn && lists.first_ready(10).is_none())
}

#[test]
fn an_item_keeps_its_turn_in_another_list(rt: HostRuntime) {
    assert!(rt; enter_and_leave(rt.alloc()) == Ok(true));
}
