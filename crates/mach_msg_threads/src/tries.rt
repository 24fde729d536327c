//! A part of a message call: tries of the same, one after another.
ghost use Rattle.std.specs.Prelude.{◌≡◌, ◌≤◌, ◌↔◌, min, IfOk, IsTrue};
ghost use Rattle.mach_types.specs.Numbers.{most_bytes};
ghost use Rattle.kernel_core.specs.Bounds.{reply_bytes};
ghost use Rattle.mach_types.specs.declared.calls.Event.{Event};
ghost use Rattle.kernel_lock.specs.History.{Called};
ghost use Rattle.mach_msg_threads.specs.ByGate.{ToldTry, SendPartBy, ReceivesBy, TriesAgainBy};
ghost use Rattle.mach_msg_threads.specs.Tries.{SendPart, Receives, TriesAgain, IsFull, most_received, sent_code, waited_in};

use crate::gate::{Gate, tell};
use kernel_lock::{Pass, Shared};
use mach_types::{Bytes, Event, MsgReturn, Name, Reply, TaskId, Waited};
use std::alloc::{AllocError, Global};
use std::sync::Wait;

/// Whether anything is sent, by which task, whether there is one try, and where memory for a try's copy of
/// the bytes comes from.
#[derive(Clone, Copy)]
pub(crate) struct Sending {
    pub alloc: Global,
    pub task: TaskId,
    pub wanted: bool,
    pub once: bool,
}

impl Sending {
    // A try: the event has bytes of its own.
    fn event(&self, bytes: &[u8]) -> Result<Event, AllocError>
        ensures { IfOk result (λ event. event ≡ Event.Send self.now.task bytes.now) }
    {
        let bytes = Vec::from_slice(self.alloc, bytes)?;
        Ok(Event::Send(self.task, Bytes::from_vec(bytes)))
    }
}

/// What is received, and whether there is one try. The room is in bytes.
#[derive(Clone, Copy)]
pub(crate) struct Receiving {
    pub task: TaskId,
    pub name: Name,
    pub room: u32,
    pub large: bool,
    pub once: bool,
}

impl Receiving {
    fn first(&self) -> Event
        ensures { result ≡ Event.Receive self.now.task self.now.name self.now.room self.now.large }
    {
        Event::Receive(self.task, self.name, self.room, self.large)
    }

    // A try of what the first one named.
    fn again(&self, waited: &Waited) -> Event
        ensures { result ≡ Event.ReceiveAgain self.now.task waited.now self.now.room self.now.large }
    {
        Event::ReceiveAgain(self.task, *waited, self.room, self.large)
    }
}

// Whether a try to send found the queue full.
fn is_full(reply: &Reply) -> bool
    ensures { IsTrue result ↔ IsFull reply.now }
{
    match reply {
        Reply::Code(code) => *code == MsgReturn::SendTimedOut.number(),
        _ => false,
    }
}

// The code that a try to send comes to.
fn code_sent(reply: Reply) -> u32
    ensures { result ≡ sent_code reply }
{
    match reply {
        Reply::Code(code) => code,
        _ => MsgReturn::SendNoBuffer.number(),
    }
}

// What a receive that found no message waited for.
fn waited_for(reply: &Reply) -> Option<Waited>
    ensures { result ≡ waited_in reply.now }
{
    match reply {
        Reply::Empty(waited) => Some(*waited),
        _ => None,
    }
}

/// One call, of which the gate is told.
pub(crate) fn attempt<G: Gate, R: Wait>(
    rt: &R,
    shared: &Shared,
    pass: &mut Pass,
    gate: &mut G,
    event: Event,
) -> Reply
    requires { pass.old.table ≡ shared.now.table }
    ensures tied { pass.new.table ≡ shared.now.table }
    ensures call { Called pass.old pass.new event result }
    ensures told { ToldTry G.passes event pass.old gate.old result pass.new gate.new }
    ensures bytes { reply_bytes result ≤ most_received event }
{
    let reply = shared.call(rt, pass, event);
    tell(gate, &reply, &pass.touched());
    reply
}

/// Sends if that is wanted, again as long as the queue is full and the gate says so. Returns the last try's
/// code.
pub(crate) fn send<G: Gate, R: Wait>(
    rt: &R,
    shared: &Shared,
    pass: &mut Pass,
    gate: &mut G,
    sending: Sending,
    bytes: &[u8],
) -> u32
    requires { pass.old.table ≡ shared.now.table }
    ensures tied { pass.new.table ≡ shared.now.table }
    ensures sends { SendPart sending.task sending.wanted sending.once bytes.now pass.old result pass.new }
    ensures by_gate { SendPartBy G.passes sending.task sending.wanted sending.once bytes.now pass.old gate.old result pass.new gate.new }
{
    if !sending.wanted {
        return 0;
    }
    let mut turn = 0u32;
    for _ in rt.forever() {
        let Ok(event) = sending.event(bytes) else {
            return MsgReturn::SendNoBuffer.number();
        };
        let reply = attempt(rt, shared, pass, gate, event);
        turn = turn.saturating_add(1);
        let again = is_full(&reply) && !sending.once && gate.pause_for(turn, None);
        if !again {
            return code_sent(reply);
        }
    }
    unreachable!()
}

/// Receives, again from what the first try named as long as no message is there and the gate says so. Returns
/// the last try's reply.
pub(crate) fn receive<G: Gate, R: Wait>(
    rt: &R,
    shared: &Shared,
    pass: &mut Pass,
    gate: &mut G,
    receiving: &Receiving,
) -> Reply
    requires { pass.old.table ≡ shared.now.table }
    ensures tied { pass.new.table ≡ shared.now.table }
    ensures receives { Receives receiving.now.task receiving.now.name receiving.now.room receiving.now.large receiving.now.once pass.old result pass.new }
    ensures by_gate { ReceivesBy G.passes receiving.now.task receiving.now.name receiving.now.room receiving.now.large receiving.now.once pass.old gate.old result pass.new gate.new }
    ensures bytes { reply_bytes result ≤ min receiving.now.room most_bytes }
{
    let first = attempt(rt, shared, pass, gate, receiving.first());
    match waited_for(&first) {
        Some(waited) => {
            if receiving.once || !gate.pause_for(1, Some(waited)) {
                return first;
            }
            receive_again(rt, shared, pass, gate, receiving, &waited)
        }
        None => first,
    }
}

// Tries again of what a first try named.
fn receive_again<G: Gate, R: Wait>(
    rt: &R,
    shared: &Shared,
    pass: &mut Pass,
    gate: &mut G,
    receiving: &Receiving,
    waited: &Waited,
) -> Reply
    requires { pass.old.table ≡ shared.now.table }
    ensures tied { pass.new.table ≡ shared.now.table }
    ensures tries { TriesAgain receiving.now.task waited.now receiving.now.room receiving.now.large pass.old result pass.new }
    ensures by_gate { TriesAgainBy G.passes receiving.now.task waited.now receiving.now.room receiving.now.large pass.old gate.old result pass.new gate.new }
    ensures bytes { reply_bytes result ≤ min receiving.now.room most_bytes }
{
    let mut turn = 1u32;
    for _ in rt.forever() {
        let event = receiving.again(waited);
        let reply = attempt(rt, shared, pass, gate, event);
        turn = turn.saturating_add(1);
        let again = waited_for(&reply).is_some() && gate.pause_for(turn, Some(*waited));
        if !again {
            return reply;
        }
    }
    unreachable!()
}
