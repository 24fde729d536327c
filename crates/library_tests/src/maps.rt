//! A map from numbers.
use number_map::NumberMap;

fn add_squares(numbers: &mut NumberMap<u32>) {
    for root in 0..100_u64 {
        if numbers.room() > 0 && numbers.get(root * root).is_none() {
            numbers.insert(root * root, root as u32);
        }
    }
}

fn set(numbers: &mut NumberMap<u32>, key: u64, value: u32) {
    if numbers.get(key).is_some() {
        numbers.set(key, value);
    }
}

/// Adds one to a value that is there, where it lies.
fn raise(numbers: &mut NumberMap<u32>, key: u64) {
    if numbers.get(key).is_some() {
        let value = numbers.value_mut(key);
        *value = value.wrapping_add(1);
    }
}

fn release(numbers: &mut NumberMap<u32>, key: u64) {
    if numbers.get(key).is_some() {
        numbers.release(key);
    }
}

/// Returns whether a value is found that was set, and raised twice where it lies, with the others as they
/// were.
fn is_set(numbers: &mut NumberMap<u32>, key: u64) -> bool {
    set(numbers, key, 8);
    raise(numbers, key);
    raise(numbers, key);
    raise(numbers, 2);
    numbers.get(key) == Some(10) && numbers.get(36) == Some(6) && numbers.get(2).is_none()
}

fn are_found(numbers: &mut NumberMap<u32>) -> bool {
    let is_empty = numbers.room() == 0;
    let had_room = numbers.reserve(100).is_ok() && numbers.room() == 100;
    add_squares(numbers);
    let are_found = numbers.get(99 * 99) == Some(99) && numbers.get(2).is_none();
    is_empty && had_room && are_found && numbers.room() == 0 && numbers.len() == 100
}

fn is_removed(numbers: &mut NumberMap<u32>, key: u64) -> bool {
    is_set(numbers, key)
        && numbers.remove(key) == Some(10)
        && numbers.remove(key).is_none()
        && numbers.len() == 99
}

/// Returns whether room that was left by a key is there again, and that of one that goes with its room.
fn is_room_left(numbers: &mut NumberMap<u32>) -> bool {
    let had_room = numbers.reserve(1).is_ok() && numbers.room() == 1;
    let was_there = numbers.get(36) == Some(6);
    release(numbers, 36);
    had_room && was_there && numbers.get(36).is_none() && numbers.room() == 2
}

#[test]
fn keys_come_and_go(rt: HostRuntime) {
    let mut map = NumberMap::new(rt.alloc());
    assert!(rt; are_found(&mut map) && is_removed(&mut map, 49) && is_room_left(&mut map));
}
