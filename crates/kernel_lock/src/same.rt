//! Whether two replies are the same.
ghost use Rattle.std.specs.Prelude.{◌≡◌, true};

use mach_types::{NameTypes, Reply, Status, Waited};

/// Returns whether the two replies are the same. Linear in their bytes and names.
pub fn are_same_replies(one: &Reply, other: &Reply) -> bool
    ensures same { result ≡ true → one.now ≡ other.now }
    ensures other { one.now ≡ other.now → result ≡ true }
{
    match (one, other) {
        (Reply::Code(a), Reply::Code(b)) => a == b,
        (Reply::Task(a), Reply::Task(b)) => a.number() == b.number(),
        (Reply::Name(a), Reply::Name(b)) => a.number() == b.number(),
        (Reply::Refs(a), Reply::Refs(b)) => a == b,
        (Reply::NameType(a), Reply::NameType(b)) => a == b,
        (Reply::Names(a), Reply::Names(b)) => are_same_names(a, b),
        (Reply::Status(a), Reply::Status(b)) => are_same_status(a, b),
        (Reply::Members(a), Reply::Members(b)) => a == b,
        (Reply::Right(a, kind), Reply::Right(b, its)) => a.number() == b.number() && kind == its,
        (Reply::Previous(a), Reply::Previous(b)) => a.number() == b.number(),
        (Reply::Message(a), Reply::Message(b)) => a == b,
        (Reply::Empty(a), Reply::Empty(b)) => are_same_waited(a, b),
        (Reply::TooLarge(a), Reply::TooLarge(b)) => a == b,
        (Reply::NoRecord, Reply::NoRecord) => true,
        _ => false,
    }
}

/// Returns whether the two are the same names with the same types.
fn are_same_names(one: &NameTypes, other: &NameTypes) -> bool
    ensures same { result ≡ true → one.now ≡ other.now }
    ensures other { one.now ≡ other.now → result ≡ true }
{
    one == other
}

/// Returns whether the two are the same status.
fn are_same_status(one: &Status, other: &Status) -> bool
    ensures same { result ≡ true → one.now ≡ other.now }
    ensures other { one.now ≡ other.now → result ≡ true }
{
    one.set.number() == other.set.number()
        && one.sequence == other.sequence
        && one.make_send == other.make_send
        && one.limit == other.limit
        && one.queued == other.queued
        && one.send_once == other.send_once
        && one.has_send == other.has_send
        && one.port_destroyed == other.port_destroyed
        && one.no_senders == other.no_senders
}

/// Returns whether the two waited for the same.
fn are_same_waited(one: &Waited, other: &Waited) -> bool
    ensures same { result ≡ true → one.now ≡ other.now }
    ensures other { one.now ≡ other.now → result ≡ true }
{
    match (one, other) {
        (Waited::Port(a), Waited::Port(b)) => a.number() == b.number(),
        (Waited::Set(a), Waited::Set(b)) => a.number() == b.number(),
        _ => false,
    }
}
