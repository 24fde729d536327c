//! Identities and names that a script chooses because `number_map` keeps all of them in one tree.
use crate::calls::{PORT_SET, RECEIVE};
use mach_types::Event;

/// The factor of the hash of `number_map`.
const FACTOR: u64 = 0x7A2A_1191;
/// By how many bits that hash turns the product to the right.
const TURN: u32 = 31;
/// How many trees a map has for the 782 identities that are chosen of 400,000.
const IDENTITY_TREES: u64 = 512;
/// How many trees a map has for 6,000 dead-name requests.
const REQUEST_TREES: u64 = 4_096;
/// The distance of the names that are tried, a power of two: the low bits of all of them are the same.
const STRIDE: u32 = 128;
/// How many names are tried at most for one: of so many some 16 are chosen.
const TRIES: u32 = 65_536;

/// The hash of a key, whose low bits say in which tree `number_map` keeps it.
fn hash(key: u64) -> u64 {
    key.wrapping_mul(FACTOR).rotate_right(TURN)
}

/// Returns whether the port or the set with this identity stays: it lies in the tree of identity 0.
///
/// Of 400,000 identities 393 lie in tree 0 of 1,024, and 389 more where there are half as many trees. No tree of 512 is
/// deeper than theirs, whichever of 400,000 identities stay: a look-up reads 11 nodes at most.
pub(crate) fn is_chosen(identity: u64) -> bool {
    hash(identity) % IDENTITY_TREES == 0
}

/// The next name of `HOME`'s above this one that is chosen: a dead-name request on it lies in the tree of one on `asked`.
pub(crate) fn next_name(name: u32, asked: u32) -> u32 {
    let tree = hash(u64::from(asked)) % REQUEST_TREES;
    let mut next = name;
    for _ in 0..TRIES {
        next = next.wrapping_add(STRIDE);
        if hash(u64::from(next)) % REQUEST_TREES == tree {
            return next;
        }
    }
    next
}

/// The identities that a kernel gives next: how many ports and port sets it has made.
#[derive(Clone, Copy)]
pub(crate) struct Identities {
    ports: u64,
    sets: u64,
}

impl Identities {
    /// Those of an empty kernel.
    pub(crate) fn first() -> Identities {
        Identities { ports: 0, sets: 0 }
    }

    /// That of the next port set, where the right's number is that of a set, or else of the next port.
    pub(crate) fn next(self, right: u32) -> u64 {
        if right == PORT_SET {
            self.sets
        } else {
            self.ports
        }
    }

    /// Counts what a call made.
    pub(crate) fn count(&mut self, event: &Event) {
        match event {
            Event::Allocate(_, right) => self.count_right(*right),
            Event::AllocateName(_, right, _) => self.count_right(*right),
            _ => {}
        }
    }

    fn count_right(&mut self, right: u32) {
        match right {
            RECEIVE => self.ports = self.ports.saturating_add(1),
            PORT_SET => self.sets = self.sets.saturating_add(1),
            _ => {}
        }
    }
}
