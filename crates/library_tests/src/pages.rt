//! Values by small numbers.
use name_space_base::Pages;

// Puts a value under the least free number, where there is room.
fn put_first(pages: &mut Pages<u32>, value: u32) -> Option<u32> {
    let number = pages.first_free();
    if pages.room() == 0 || number > 65535 {
        return None;
    }
    pages.insert(number, value);
    Some(number)
}

// Puts a value under a number that has none. Its page is made first.
fn put(pages: &mut Pages<u32>, number: u32, value: u32) -> bool {
    if number == 0 || number > 65535 {
        return false;
    }
    let Ok(()) = pages.make_page(number) else {
        return false;
    };
    if pages.get(number).is_some() {
        return false;
    }
    pages.insert(number, value);
    true
}

fn two_are_put(pages: &mut Pages<u32>) -> bool {
    put_first(pages, 5).is_none()
        && pages.reserve(2).is_ok()
        && put_first(pages, 10) == Some(1)
        && put_first(pages, 20) == Some(2)
        && pages.room() == 0
        && pages.len() == 2
}

fn first_is_removed(pages: &mut Pages<u32>) -> bool {
    pages.remove(1) == Some(10)
        && pages.first_free() == 1
        && pages.get(1).is_none()
        && pages.get(2) == Some(20)
}

/// Whether a value is put under a far number, and only once.
fn far_is_put(pages: &mut Pages<u32>) -> bool {
    put(pages, 40_000, 7)
        && !put(pages, 40_000, 8)
        && pages.get(40_000) == Some(7)
        && pages.next_used(3) == Some(40_000)
        && pages.next_used(40_001).is_none()
}

#[test]
fn values_come_and_go(rt: HostRuntime) {
    let mut pages = Pages::new(rt.alloc());
    assert!(rt; two_are_put(&mut pages) && first_is_removed(&mut pages) && far_is_put(&mut pages));
}
