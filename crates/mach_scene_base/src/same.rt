//! Whether two things are the same.
ghost use Rattle.std.specs.Prelude.{◌≡◌, true};

use crate::thing::{Chip, Frame, Row, Thing, Tied};

/// Returns whether the two things are the same. Constant time.
pub(crate) fn are_same(one: &Thing, other: &Thing) -> bool
    ensures same { result ≡ true → one.now ≡ other.now }
{
    match (one, other) {
        (Thing::Nothing, Thing::Nothing)
        | (Thing::Ended, Thing::Ended)
        | (Thing::Dead, Thing::Dead) => true,
        (Thing::Task(is_empty, hidden), Thing::Task(other, more)) => {
            is_empty == other && hidden == more
        }
        (Thing::Name(a), Thing::Name(b)) => are_same_rows(a, b),
        (Thing::Port(a), Thing::Port(b)) => are_same_frames(a, b),
        (Thing::Message(a), Thing::Message(b)) => are_same_chips(a, b),
        (Thing::More(count, left), Thing::More(other, at)) => count == other && left == at,
        (Thing::Right(a), Thing::Right(b)) => are_same_rights(a, b),
        _ => false,
    }
}

/// Returns whether the two are the same name.
fn are_same_rows(one: &Row, other: &Row) -> bool
    ensures same { result ≡ true → one.now ≡ other.now }
{
    one.name == other.name
        && one.kind == other.kind
        && one.about == other.about
        && one.references == other.references
        && one.told == other.told
}

/// Returns whether the two ports are the same.
fn are_same_frames(one: &Frame, other: &Frame) -> bool
    ensures same { result ≡ true → one.now ≡ other.now }
{
    one.queued == other.queued
        && one.limit == other.limit
        && one.made == other.made
        && one.next == other.next
        && one.set == other.set
        && one.more_sets == other.more_sets
        && one.is_carried == other.is_carried
        && one.no_senders == other.no_senders
        && one.port_destroyed == other.port_destroyed
}

/// Returns whether the two messages are the same.
fn are_same_chips(one: &Chip, other: &Chip) -> bool
    ensures same { result ≡ true → one.now ≡ other.now }
{
    one.id == other.id
        && one.is_notice == other.is_notice
        && one.entry == other.entry
        && one.left == other.left
}

/// Returns whether the two rights are the same.
fn are_same_rights(one: &Tied, other: &Tied) -> bool
    ensures same { result ≡ true → one.now ≡ other.now }
{
    one.kind == other.kind
        && one.port == other.port
        && one.left == other.left
        && one.line == other.line
        && one.way == other.way
}
