//! Ports by number: their queues, destroyed messages, and the members of sets that are ready.
use mach_types::{PortId, SetId, TaskId};
use port::{Found, Membership, Message, Ports};
use port_set::{disband, move_member, ready_member};
use std::alloc::Global;

#[derive(Drop)]
struct Note(u32);

impl Message for Note {
    fn blank(_alloc: Global) -> Note {
        Note(0)
    }
}

/// Makes a port, and returns its number where that is the one that was told before.
fn allocate(ports: &mut Ports<Note>) -> Option<u64> {
    if ports.is_exhausted() {
        return None;
    }
    let next = ports.next_id();
    let port = ports.allocate(TaskId::new(0)).ok()?;
    (port == next).then_some(port.number())
}

fn remove(ports: &mut Ports<Note>, port: u64) -> bool {
    let port = PortId::new(port);
    let is_empty = ports.queued(port) == 0;
    if is_empty {
        ports.remove(port);
    }
    is_empty
}

/// Queues a note, if the port has room and a slot is spare.
fn post(ports: &mut Ports<Note>, port: u64, says: u32) -> bool {
    let port = PortId::new(port);
    let is_room = ports.has_room(Found::of(port)) && ports.spare() > 0;
    if is_room {
        ports.enqueue(port, Note(says));
    }
    is_room
}

fn dequeue(ports: &mut Ports<Note>, port: u64) -> Option<u32> {
    Some(ports.dequeue(PortId::new(port))?.0)
}

fn take(ports: &mut Ports<Note>, port: u64) -> Option<u32> {
    Some(ports.take(PortId::new(port))?.0)
}

fn take_destroyed(ports: &mut Ports<Note>) -> Option<u32> {
    Some(ports.take_destroyed()?.0)
}

fn set_limit(ports: &mut Ports<Note>, port: u64, limit: u32) {
    let port = PortId::new(port);
    if let Some(mut attributes) = ports.attributes(port) {
        attributes.limit = limit;
        ports.set_attributes(port, attributes);
    }
}

/// A port's limit, how many send rights were made from its receive right, and its sequence number.
fn counts(ports: &Ports<Note>, port: u64) -> Option<[u32; 3]> {
    let Some(attributes) = ports.attributes(PortId::new(port)) else {
        return None;
    };
    Some([attributes.limit, attributes.make_send, attributes.sequence])
}

fn join(ports: &mut Ports<Note>, port: u64, set: u64) -> bool {
    let port = PortId::new(port);
    let is_there = ports.attributes(port).is_some();
    if is_there {
        move_member(ports, port, Some(SetId::new(set)));
    }
    is_there
}

fn ready(ports: &Ports<Note>, set: u64) -> Option<u64> {
    Some(ready_member(ports, SetId::new(set))?.number())
}

/// Returns whether two ports are made, and two notes find slots, and no third one.
fn are_posted(ports: &mut Ports<Note>) -> bool {
    let are_made = allocate(ports) == Some(0) && allocate(ports) == Some(1);
    let has_slots = !post(ports, 0, 1) && ports.reserve_slots(2).is_ok();
    are_made
        && has_slots
        && post(ports, 0, 7)
        && post(ports, 0, 8)
        && !post(ports, 1, 9)
        && ports.queued(PortId::new(0)) == 2
        && ports.queued(PortId::new(1)) == 0
}

/// Returns whether the port has so many notes and is in no set, and this note is the first, with this number.
fn is_first(ports: &Ports<Note>, port: u64, queued: usize, says: u32, number: u32) -> bool {
    let port = PortId::new(port);
    let Some(standing) = ports.standing(Found::of(port)) else {
        return false;
    };
    let Some((note, sequence)) = ports.numbered_front(Found::of(port)) else {
        return false;
    };
    !standing.is_member && standing.queued == queued && note.0 == says && sequence == number
}

/// Returns whether the notes come out in the order that they came in, and their slots are used again.
fn are_taken(ports: &mut Ports<Note>) -> bool {
    ports.front(PortId::new(0)).is_some_and(|note| note.0 == 7)
        && is_first(ports, 0, 2, 7, 0)
        && dequeue(ports, 0) == Some(7)
        && ports.spare() == 1
        && post(ports, 1, 9)
        && dequeue(ports, 0) == Some(8)
        && dequeue(ports, 0).is_none()
        && is_first(ports, 1, 1, 9, 0)
        && take(ports, 1) == Some(9)
        && take(ports, 1).is_none()
        && ports.numbered_front(Found::of(PortId::new(1))).is_none()
        && ports.standing(Found::of(PortId::new(2))).is_none()
}

/// Returns whether the limit of a port is set, and its counts stay.
fn is_limited(ports: &mut Ports<Note>) -> bool {
    let before = counts(ports, 1);
    set_limit(ports, 1, 16);
    before == Some([5, 0, 1]) && counts(ports, 1) == Some([16, 0, 1])
}

/// Returns whether the port is found where its record lies, and also where another place is told.
fn is_found(ports: &Ports<Note>, port: u64) -> bool {
    let Some(Found { port, place }) = ports.find(PortId::new(port)) else {
        return false;
    };
    let there = ports.standing(Found { port, place });
    let place = place ^ 1;
    there.is_some() && ports.standing(Found { port, place }) == there
}

fn is_gone(ports: &mut Ports<Note>) -> bool {
    is_found(ports, 0)
        && is_found(ports, 1)
        && remove(ports, 0)
        && ports.find(PortId::new(0)).is_none()
        && !ports.has_room(Found::of(PortId::new(0)))
        && counts(ports, 0).is_none()
        && ports.len() == 1
        && allocate(ports) == Some(2)
        && counts(ports, 0).is_none()
}

/// Returns whether the notes of two ports are destroyed in turn, and come out in that order.
fn are_destroyed(ports: &mut Ports<Note>) -> bool {
    post(ports, 1, 4)
        && post(ports, 2, 5)
        && ports.destroy_first(PortId::new(1))
        && !ports.destroy_first(PortId::new(1))
        && ports.destroy_first(PortId::new(2))
        && ports.last_destroyed().is_some_and(|note| note.0 == 5)
        && take_destroyed(ports) == Some(4)
        && post(ports, 2, 6)
        && take_destroyed(ports) == Some(5)
        && take_destroyed(ports).is_none()
}

#[test]
fn messages_come_out_in_order(rt: HostRuntime) {
    let mut ports = Ports::new(rt.alloc(), false);
    assert!(rt; are_posted(&mut ports) && are_taken(&mut ports) && ports.spare() == 2);
    assert!(rt; is_limited(&mut ports) && is_gone(&mut ports) && are_destroyed(&mut ports));
}

fn is_ready(ports: &mut Ports<Note>) -> bool {
    post(ports, 0, 1)
        && post(ports, 0, 1)
        && join(ports, 0, 1)
        && join(ports, 1, 0)
        && ready(ports, 0).is_none()
        && post(ports, 1, 1)
        && ready(ports, 0) == Some(1)
}

/// Returns whether two members of a set have their turns, until the set is no more.
fn have_turns(ports: &mut Ports<Note>) -> bool {
    let is_first = join(ports, 1, 1) && ready(ports, 0).is_none() && ready(ports, 1) == Some(0);
    let is_kept = take(ports, 0) == Some(1) && ready(ports, 1) == Some(0);
    ports.pass_turn(SetId::new(1), PortId::new(0));
    let is_next = is_kept && ready(ports, 1) == Some(1);
    disband(ports, SetId::new(1));
    is_first && is_next && ready(ports, 1).is_none() && ports.queued(PortId::new(0)) == 1
}

fn members_are_ready(ports: &mut Ports<Note>) -> bool {
    allocate(ports) == Some(0)
        && allocate(ports) == Some(1)
        && ports.reserve_slots(3).is_ok()
        && is_ready(ports)
        && have_turns(ports)
}

#[test]
fn a_member_with_a_message_is_ready(rt: HostRuntime) {
    let mut ports = Ports::new(rt.alloc(), false);
    assert!(rt; members_are_ready(&mut ports));
}

/// Puts a port into a set beside those that it is in, if it is there and not in the set.
fn enter(ports: &mut Ports<Note>, port: u64, set: u64) -> bool {
    let port = PortId::new(port);
    let set = SetId::new(set);
    ports.contains(port) && !ports.is_in(port, set) && ports.enter(port, set).is_ok()
}

/// Takes a port out of a set alone, if it is in it.
fn leave(ports: &mut Ports<Note>, port: u64, set: u64) -> bool {
    let port = PortId::new(port);
    let set = SetId::new(set);
    let is_in = ports.is_in(port, set);
    if is_in {
        ports.leave(port, set);
    }
    is_in
}

/// Returns whether the ports 0 and 1 are in the sets 7, 8 and 9, with a message each, and have their turns in each.
fn are_in_three(ports: &mut Ports<Note>) -> bool {
    for set in 7..10 {
        if !enter(ports, 0, set) || !enter(ports, 1, set) {
            return false;
        }
    }
    post(ports, 0, 1)
        && post(ports, 1, 2)
        && ready(ports, 7) == Some(0)
        && ready(ports, 8) == Some(0)
        && ready(ports, 9) == Some(0)
}

/// Returns whether a turn is passed in one set alone, and a port that leaves its first set keeps its turns in the others.
fn keep_turns(ports: &mut Ports<Note>) -> bool {
    ports.pass_turn(SetId::new(8), PortId::new(0));
    let is_passed = ready(ports, 7) == Some(0)
        && ready(ports, 8) == Some(1)
        && ready(ports, 9) == Some(0);
    let has_left = leave(ports, 0, 7) && !leave(ports, 0, 7);
    is_passed
        && has_left
        && ready(ports, 7) == Some(1)
        && ready(ports, 8) == Some(1)
        && ready(ports, 9) == Some(0)
}

/// Returns whether a port without messages is ready in none of its sets, and one that moves is in its set alone.
fn leave_all(ports: &mut Ports<Note>) -> bool {
    let is_empty = take(ports, 0) == Some(1) && ready(ports, 9) == Some(1);
    let has_moved = join(ports, 1, 9);
    disband(ports, SetId::new(9));
    is_empty
        && has_moved
        && ready(ports, 7).is_none()
        && ready(ports, 8).is_none()
        && ready(ports, 9).is_none()
        && ports.membership(PortId::new(0)) == Membership::Alone(8)
        && ports.membership(PortId::new(1)) == Membership::Nowhere
}

#[test]
fn a_port_has_turns_in_several_sets(rt: HostRuntime) {
    let mut ports = Ports::new(rt.alloc(), true);
    assert!(rt; allocate(&mut ports) == Some(0) && allocate(&mut ports) == Some(1));
    assert!(rt; ports.reserve_slots(2).is_ok());
    assert!(rt; are_in_three(&mut ports));
    assert!(rt; keep_turns(&mut ports));
    assert!(rt; leave_all(&mut ports));
}
