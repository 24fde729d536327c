//! Message calls of one caller, by a gate that says how often to try again.
ghost use Rattle.std.specs.Prelude.{◌≡◌, IfOk};

use crate::messages::{MESSAGE, RECEIVED};
use gelvonds::threads::{Entry, Gate, Outcome, Pass, Shared, mach_msg};
use gelvonds::{Event, Name, PortId, Reply, TaskId, Waited};
use std::alloc::Global;
use std::sync::Wait;
use std::test::*;

const SEND: u32 = 0x1;

const RECEIVE: u32 = 0x2;

/// Says yes so many times, and keeps what it was told.
#[derive(Drop)]
struct Times {
    left: u32,
    turn: u32,
    changes: u32,
    steps: u32,
}

impl Times {
    fn new(left: u32) -> Times {
        Times {
            left,
            turn: 0,
            changes: 0,
            steps: 0,
        }
    }

    fn told(&self) -> (u32, u32, u32) {
        (self.turn, self.changes, self.steps)
    }
}

impl Gate for Times {
    fn pause(&mut self, turn: u32) -> bool {
        self.turn = turn;
        let again = self.left > 0;
        self.left = self.left.saturating_sub(1);
        again
    }

    fn stepped(&mut self, changed: bool) {
        self.steps = self.steps.saturating_add(1);
        if changed {
            self.changes = self.changes.saturating_add(1);
        }
    }
}

/// A task with a receive right under 1, whose caller this is.
fn one_port<R: Wait>(rt: &R, shared: &Shared) -> Result<Pass, Fail>
    ensures { IfOk result (λ p. p.table ≡ shared.now.table) }
{
    let mut pass = shared.pass(rt)?;
    shared.call(rt, &mut pass, Event::TaskCreate);
    shared.call(rt, &mut pass, Event::Allocate(TaskId::new(0), 1));
    Ok(pass)
}

/// What is asked for: options, whether the bytes are those of the message, how large the buffer is, and how
/// often the gate says that it is to be tried again.
#[derive(Clone, Copy)]
struct Asked {
    options: u32,
    sends: bool,
    room: usize,
    again: u32,
}

/// A receive of at most 24 bytes.
const fn receives(options: u32, again: u32) -> Asked {
    Asked {
        options,
        sends: false,
        room: 24,
        again,
    }
}

/// A send of the message, and perhaps a receive of at most 24 bytes.
const fn sends(options: u32, again: u32) -> Asked {
    Asked {
        options,
        sends: true,
        room: 24,
        again,
    }
}

/// What it came to, the buffer afterwards, and what the gate was told.
#[derive(Clone, Copy, PartialEq)]
struct Answer {
    outcome: Outcome,
    room: [u8; 24],
    told: (u32, u32, u32),
}

/// A call of the task with a buffer that is all 0xee before.
fn calls<R: Wait>(rt: &R, alloc: Global, shared: &Shared, pass: &mut Pass, asked: Asked) -> Answer
    requires { pass.old.table ≡ shared.now.table }
    ensures { pass.new.table ≡ shared.now.table }
{
    let mut gate = Times::new(asked.again);
    let mut room = [0xee; 24];
    let length = asked.room.min(24);
    let bytes: &[u8] = if asked.sends { &MESSAGE } else { &[] };
    let task = TaskId::new(0);
    let name = Name::new(1);
    let buf = &mut room[..length];
    let options = asked.options;
    let outcome = mach_msg(
        rt, alloc, shared, pass, &mut gate, task, options, bytes, buf, name,
    );
    Answer {
        outcome,
        room,
        told: gate.told(),
    }
}

/// With nothing in the buffer.
const fn empty(code: u32, len: u32, told: (u32, u32, u32)) -> Answer {
    Answer {
        outcome: Outcome { code, len },
        room: [0xee; 24],
        told,
    }
}

#[test]
fn a_message_comes_back(rt: HostRuntime) -> Result<(), Fail> {
    let shared = Shared::new(rt.alloc())?;
    let mut pass = one_port(&rt, &shared)?;
    let both = calls(
        &rt,
        rt.alloc(),
        &shared,
        &mut pass,
        sends(SEND | RECEIVE, 0),
    );
    assert_eq!(rt; both.outcome, Outcome { code: 0, len: 24 });
    assert!(rt; both.room == RECEIVED);
    assert_eq!(rt; both.told, (0, 2, 2));
    Ok(())
}

/// Returns whether the entry is this call, and found the first port empty.
fn found_none(entry: &Entry, call: &Event) -> bool {
    entry.event == *call && entry.reply == Reply::Empty(Waited::Port(PortId::new(0)))
}

/// Returns whether these are a receive by the name 1 and two later tries, in that order, each of which found
/// no message.
fn are_three_tries(entries: &[Entry]) -> bool {
    let task = TaskId::new(0);
    let first = Event::Receive(task, Name::new(1), 24, false);
    let again = Event::ReceiveAgain(task, Waited::Port(PortId::new(0)), 24, false);
    match entries {
        [one, two, three] => {
            found_none(one, &first) && found_none(two, &again) && found_none(three, &again)
        }
        _ => false,
    }
}

/// With a gate that says yes twice and then no, a receive from an empty port makes three calls, and tells the
/// gate after each that nothing has changed.
#[test]
fn tries_listed(rt: HostRuntime) -> Result<(), Fail> {
    let shared = Shared::new(rt.alloc())?;
    let mut pass = one_port(&rt, &shared)?;
    let thrice = calls(&rt, rt.alloc(), &shared, &mut pass, receives(RECEIVE, 2));
    assert!(rt; thrice == empty(0x1000_4003, 0, (3, 0, 3)));
    let held = shared.lock(&rt);
    match held.entries() {
        [_, _, tries @ ..] => assert!(rt; are_three_tries(tries)),
        _ => panic!(rt; "the calls before aren't there"),
    }
    Ok(())
}
