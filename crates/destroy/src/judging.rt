//! Sends away the ports that lost their receive rights, or dooms them with all that is queued.
ghost use Rattle.std.specs.Prelude.{◌↔◌, ◌≡◌, ◌<◌, ℕ, [], IsTrue, false, IfSome, IfNone, Some, length, slice_get};
ghost use Rattle.std.specs.Option.{option_and_then};
ghost use Rattle.mach_types.specs.Numbers.{most_rights};
ghost use Rattle.port.specs.Ports.{NoneQueued, IsLive};
ghost use Rattle.rights.specs.Ledger.{IsEntered, counts_of};
ghost use Rattle.copyin_base.specs.Kept.{Kept, receive_of};
ghost use Rattle.port.specs.Holding.{IsHeldBy, NoneHeldBy};
ghost use Rattle.port.specs.declared.Holder.TheVariants as Holder;
ghost use Rattle.destroy.specs.Judging.{DoomsPort, IsWithTask, GoesTo, LosesPort, IsQueued, CarriesAmong, LosesAmong, last_destroyed, Empties, remaining, CanSend, ResetsPort, HoldsPort, brought};
ghost use Rattle.destroy.specs.Stages.{IsStarted, IsJudged, IsAt, Continues};

use copyin_base::{Mark, Notice, Slot, World};
use mach_types::PortId;
use port::{Found, Holder, NOWHERE};
use rights::RightKind;

/// Judges each port that lost its receive right, and those whose receive rights are lost with a doomed port's
/// messages. Returns in how many turns: one for each port, and for each message destroyed.
pub(crate) fn judge_ports(world: &mut World) -> u64
    requires { IsAt IsStarted world.old }
    ensures continues { Continues IsStarted IsJudged world.old result world.new }
    ensures spaces { world.new.spaces ≡ world.old.spaces }
{
    let mut turns: u64 = 0;
    while let Some(port) = first_lost(world) {
        turns = turns.saturating_add(judge(world, port));
    }
    turns
}

// The port that is to be judged first.
fn first_lost(world: &World) -> Option<PortId>
    ensures first { result ≡ slice_get world.now.ports.lost 0 }
    ensures some { IfSome result (λ port. IsHeldBy world.now.ports port Holder.Nobody) }
    ensures none { IfNone result (NoneHeldBy world.now.ports Holder.Nobody × (world.now.ports.lost ≡ [])) }
{
    world.first_lost()
}

// The port that lost its receive right first is sent away, or is doomed and its messages are destroyed.
fn judge(world: &mut World, port: PortId) -> u64
    requires at { IsAt IsStarted world.old }
    requires first { slice_get world.old.ports.lost 0 ≡ Some port }
    requires lost { IsHeldBy world.old.ports port Holder.Nobody }
    ensures continues { Continues IsStarted IsStarted world.old result world.new }
    ensures fewer { remaining world.new < remaining world.old }
    ensures spaces { world.new.spaces ≡ world.old.spaces }
{
    match saved_to(world, port) {
        Some(notify) => {
            send_away(world, port, notify);
            1
        }
        None => {
            let has_messages = doom(world, port);
            destroy_any(world, port, has_messages).saturating_add(1)
        }
    }
}

// Where the port goes: the notify port of its request, where a task has that one's receive right.
fn saved_to(world: &World, port: PortId) -> Option<PortId>
    ensures some { IfSome result (λ notify. GoesTo world.now port notify) }
    ensures none { IfNone result ((notify : ℕ) → GoesTo world.now port notify → ⊥) }
{
    let notify = world.find_port_destroyed(port)?;
    if is_with_task(world, notify) {
        Some(notify)
    } else {
        None
    }
}

// Whether a task has the port's receive right.
fn is_with_task(world: &World, port: PortId) -> bool
    ensures { IsTrue result ↔ IsWithTask world.now port }
{
    match world.find_attributes(port) {
        Some(attributes) => matches!(attributes.holder, Holder::Task(_)),
        None => false,
    }
}

// The port leaves its sets, its counts start again, and its receive right goes in a notice.
fn send_away(world: &mut World, port: PortId, notify: PortId)
    requires { CanSend world.old port notify }
    ensures continues { Continues IsStarted IsStarted world.old 1 world.new }
    ensures fewer { remaining world.new < remaining world.old }
    ensures spaces { world.new.spaces ≡ world.old.spaces }
{
    world.post(notify, Notice::PortDestroyed(port));
    world.take_port_destroyed(port);
    reset(world, port);
    hold_in(world, port, notify);
    bring_receive(world, port);
}

// The port leaves its sets, and its counts start again.
fn reset(world: &mut World, port: PortId)
    requires { IsLive world.old.ports port }
    ensures { ResetsPort world.old port world.new }
{
    world.restart_port(port);
}

// The queue has the port's receive right now; the port is no longer among those that were lost.
fn hold_in(world: &mut World, port: PortId, queue: PortId)
    requires { IsHeldBy world.old.ports port Holder.Nobody }
    ensures { HoldsPort world.old port queue world.new }
{
    world.hold_in(port, queue);
}

// The messages of a doomed port are destroyed, where it has some: most have none, and are not looked up
// again. Answers how many.
fn destroy_any(world: &mut World, port: PortId, has_messages: bool) -> u64
    requires { has_messages ≡ false → NoneQueued world.old.ports port }
    ensures empties { Empties world.old port result world.new }
    ensures emptied { NoneQueued world.new.ports port }
    ensures remains { remaining world.new ≡ remaining world.old }
    ensures spaces { world.new.spaces ≡ world.old.spaces }
{
    if has_messages {
        destroy_queue(world, port)
    } else {
        0
    }
}

// The messages of a doomed port are destroyed. Answers how many.
fn destroy_queue(world: &mut World, port: PortId) -> u64
    ensures empties { Empties world.old port result world.new }
    ensures emptied { NoneQueued world.new.ports port }
    ensures remains { remaining world.new ≡ remaining world.old }
    ensures spaces { world.new.spaces ≡ world.old.spaces }
{
    let mut turns: u64 = 0;
    while world.destroy_first(port) {
        turns = turns.saturating_add(1);
        lose_carried(world);
    }
    turns
}

// The ports whose receive rights the message carries that was destroyed last have lost them. No reply is
// such a right, but nothing here relies on that.
fn lose_carried(world: &mut World)
    ensures { (m : Kept) → last_destroyed world.old ≡ Some m → LosesAmong (CarriesAmong m (length m.rights)) world.old world.new }
{
    lose_if_any(world, carried_reply(world));
    for place in 0..count_carried(world) {
        lose_if_any(world, carried_at(world, place));
    }
}

// How many rights the body of the message carries that was destroyed last.
fn count_carried(world: &World) -> usize
    ensures { (m : Kept) → last_destroyed world.now ≡ Some m → result ≡ length m.rights }
{
    match world.last_destroyed() {
        Some(queued) => queued.count_rights(),
        None => 0,
    }
}

// The port whose receive right is the reply's of the message that was destroyed last.
fn carried_reply(world: &World) -> Option<PortId>
    ensures { (m : Kept) → last_destroyed world.now ≡ Some m → result ≡ option_and_then (λ c. receive_of c) m.reply }
{
    let Slot::Sent(message) = &world.last_destroyed()?.slot else {
        return None;
    };
    let reply = message.reply()?;
    match reply.mark {
        Mark::Port(_) => reply.receive_port(),
        Mark::Null | Mark::Dead => None,
    }
}

// The port whose receive right stands at this place in the message that was destroyed last.
fn carried_at(world: &World, place: usize) -> Option<PortId>
    ensures { (m : Kept) → last_destroyed world.now ≡ Some m → result ≡ option_and_then (λ c. receive_of c) (slice_get m.rights place) }
{
    world.last_destroyed()?.receive_at(place)
}

// The port loses its receive right, where a queue has it.
fn lose_if_any(world: &mut World, port: Option<PortId>)
    ensures some { IfSome port (λ p. LosesPort world.old p world.new) }
    ensures none { IfNone port (world.new ≡ world.old) }
{
    if let Some(port) = port {
        lose_queued(world, port);
    }
}

// Where a queue has its receive right, the port loses it.
fn lose_queued(world: &mut World, port: PortId)
    ensures { LosesPort world.old port world.new }
{
    if is_queued(world, port) {
        world.lose_carried(port);
    }
}

// Whether a queue has the port's receive right.
fn is_queued(world: &World, port: PortId) -> bool
    ensures { IsTrue result ↔ IsQueued world.now port }
{
    match world.find_attributes(port) {
        Some(attributes) => matches!(attributes.holder, Holder::QueueOf(_)),
        None => false,
    }
}

// The port that was lost first is doomed. Answers whether it has messages.
fn doom(world: &mut World, port: PortId) -> bool
    requires first { slice_get world.old.ports.lost 0 ≡ Some port }
    requires lost { IsHeldBy world.old.ports port Holder.Nobody }
    ensures doomed { DoomsPort world.old port world.new }
    ensures none { result ≡ false → NoneQueued world.new.ports port }
{
    world.doom_first()
}

// The receive right that a step's own part took comes again; one that a message carried is there still.
fn bring_receive(world: &mut World, port: PortId)
    requires entered { IsEntered world.old.ledger port }
    requires room { (counts_of world.old.ledger port).receive ≡ 0 → world.old.ledger.total < most_rights }
    ensures { world.new ≡ record world.old { ledger = brought world.old.ledger port } }
{
    let Some(counts) = world.counts(port) else {
        return;
    };
    if counts.receive == 0 {
        // There is room: the rights midway have room for the notices of orphans.
        let place = NOWHERE;
        world
            .make_rights(Found { port, place }, RightKind::Receive, 1)
            .unwrap();
    }
}
