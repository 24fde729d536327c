//! What is to be refused: said by a request for a block that no memory holds, whose size says it (`.ci/refuse.c`).
//! Where nobody listens nothing is refused, and nothing is counted.
use std::alloc::Global;

/// The next request is refused exactly where so many growths or more were counted.
const WHERE_COUNTED: usize = 1 << 60;

/// The count begins again, and growth number so many is refused.
const ONE: usize = 2 << 60;

/// The count begins again, and growth number so many and all later ones are refused.
const ALL: usize = 3 << 60;

/// No more growths are counted one by one.
const MOST: usize = 100_000;

/// Asks for a block of this many bytes, and lets it go.
fn is_given(alloc: Global, size: usize) -> bool {
    let block: Result<Vec<u8>, _> = Vec::with_capacity(alloc, size);
    block.is_ok()
}

/// From now on growth number `at`, from 1, is refused; none where it is 0. The count begins again.
pub fn refuse(alloc: Global, at: usize) {
    is_given(alloc, ONE | at);
}

/// From now on all growths are refused. The count begins again.
pub fn refuse_all(alloc: Global) {
    is_given(alloc, ALL | 1);
}

/// Returns whether `at` growths or more were asked for since the count began.
pub fn is_asked(alloc: Global, at: usize) -> bool {
    is_given(alloc, WHERE_COUNTED | at);
    !is_given(alloc, 1)
}

/// How many growths were asked for since the count began.
pub fn count(alloc: Global) -> usize {
    for at in 1..MOST {
        if !is_asked(alloc, at) {
            return at.saturating_sub(1);
        }
    }
    MOST
}
