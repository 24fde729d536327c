//! Lists of numbered items.
use member_lists::{Lists, MarkedLists, TwoLists};
use std::alloc::{AllocError, Global};

/// Returns whether the items 2 and 0 stand in list 7, and none in another one.
fn are_in_order(lists: &Lists) -> bool {
    lists.first(7) == Some(2)
        && lists.after(7, 2) == Some(0)
        && lists.after(7, 0).is_none()
        && lists.first(1031).is_none()
}

fn join_and_leave(alloc: Global) -> Result<bool, AllocError> {
    let mut lists = Lists::new(alloc);
    let was_empty = lists.first(7).is_none();
    lists.reserve(4)?;
    lists.push(7, 2);
    lists.push(7, 0);
    let are_in_order = are_in_order(&lists);
    lists.remove(7, 0);
    Ok(was_empty && are_in_order && lists.after(7, 2).is_none())
}

#[test]
fn items_join_and_leave(rt: HostRuntime) {
    assert!(rt; join_and_leave(rt.alloc()) == Ok(true));
}

fn join_and_leave_two(alloc: Global) -> Result<bool, AllocError> {
    let mut lists = TwoLists::new(alloc);
    let was_empty = lists.is_empty();
    lists.reserve(4)?;
    lists.push(1, 2);
    lists.push(1, 0);
    lists.remove(1, 0);
    Ok(was_empty && lists.first(1) == Some(2) && lists.first(0).is_none() && !lists.is_empty())
}

#[test]
fn items_join_and_leave_one_of_two(rt: HostRuntime) {
    assert!(rt; join_and_leave_two(rt.alloc()) == Ok(true));
}

fn replace(alloc: Global) -> Result<bool, AllocError> {
    let mut lists = MarkedLists::new(alloc);
    lists.reserve(4)?;
    lists.push(7, 0);
    lists.mark(7, 0);
    lists.replace(7, 0, 3, true);
    Ok(lists.first(7) == Some(3) && lists.first_marked(7) == Some(3))
}

#[test]
fn another_item_takes_a_place(rt: HostRuntime) {
    assert!(rt; replace(rt.alloc()) == Ok(true));
}
