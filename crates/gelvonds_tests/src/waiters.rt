//! Two blocks that wait at once.
ghost use Rattle.std.specs.Prelude.{◌≡◌, IfOk};

use gelvonds::threads::{Answer, Block, Call, Gate, Outcome, Shared, run_blocks};
use gelvonds::{Bytes, Event, Name, TaskId};
use std::alloc::{AllocError, Global};
use std::sync::Wait;
use std::sync::atomic::{AtomicBool, Ordering};
use std::test::*;
use std::thread;
use std::thread::Threads;

/// How often a test looks for what another thread is to do.
const LOOKS: u32 = 10_000_000;

/// In its first pause it sets its flag and looks for the other's, and says yes where it has seen it; later it
/// says no.
#[derive(Drop)]
struct Meets<'a> {
    mine: &'a AtomicBool,
    other: &'a AtomicBool,
}

impl<'a> Gate for Meets<'a> {
    fn pause(&mut self, turn: u32) -> bool {
        self.mine.store(true, Ordering::SeqCst);
        turn == 1 && sees(self.other)
    }

    fn stepped(&mut self, _changed: bool) {}
}

/// Returns whether another thread sets the flag while this one looks.
fn sees(flag: &AtomicBool) -> bool {
    for _ in 0..LOOKS {
        if flag.load(Ordering::SeqCst) {
            return true;
        }
        thread::yield_now();
    }
    false
}

/// A task with receive rights under 1 and 2.
fn two_ports<R: Wait>(rt: &R, shared: &Shared) -> Result<(), AllocError> {
    let mut pass = shared.pass(rt)?;
    shared.call(rt, &mut pass, Event::TaskCreate);
    shared.call(rt, &mut pass, Event::Allocate(TaskId::new(0), 1));
    shared.call(rt, &mut pass, Event::Allocate(TaskId::new(0), 1));
    Ok(())
}

/// A block of one call: the task receives by the name.
fn waiter<'a, R: Wait>(
    rt: &R,
    alloc: Global,
    shared: &Shared,
    name: u32,
    gate: Meets<'a>,
) -> Result<Block<Meets<'a>>, AllocError>
    ensures { IfOk result (λ block. block.pass.table ≡ shared.now.table) }
{
    let pass = shared.pass(rt)?;
    let mut calls = Vec::new(alloc);
    calls.push(Call::Msg {
        task: TaskId::new(0),
        options: 2,
        name: Name::new(name),
        room: 24,
        send: Bytes::from_vec(Vec::new(alloc)),
    })?;
    Ok(Block { pass, calls, gate })
}

/// Returns whether these are the answers to one call, to which no message came.
fn none_came(answers: &[Answer]) -> bool {
    let outcome = Outcome {
        code: 0x1000_4003,
        len: 0,
    };
    match answers {
        [Answer::Msg(told, bytes)] => *told == outcome && bytes.as_slice().is_empty(),
        _ => false,
    }
}

/// Two blocks that receive from empty ports, each with such a gate. How many calls were made in all, where
/// to neither a message came.
fn two_waiters<R: Threads + Wait + Sync>(
    rt: &R,
    alloc: Global,
    first: Meets<'_>,
    second: Meets<'_>,
) -> Result<Option<usize>, Fail> {
    let shared = Shared::new(alloc)?;
    two_ports(rt, &shared)?;
    let mut blocks = Vec::new(alloc);
    blocks.push(waiter(rt, alloc, &shared, 1, first)?)?;
    blocks.push(waiter(rt, alloc, &shared, 2, second)?)?;
    let all = run_blocks(rt, alloc, &shared, blocks)?;
    let none = all.len() == 2 && all.iter().all(|(_, answers)| none_came(answers.as_slice()));
    Ok(none.then(|| shared.lock(rt).entries().len()))
}

/// Each block sees that the other waits: both are there at once. Then each tries again.
#[test]
fn two_waiters_meet(rt: HostRuntime) -> Result<(), Fail> {
    let (here, there) = (AtomicBool::new(false), AtomicBool::new(false));
    let first = Meets {
        mine: &here,
        other: &there,
    };
    let second = Meets {
        mine: &there,
        other: &here,
    };
    assert_eq!(rt; two_waiters(&rt, rt.alloc(), first, second)?, Some(7));
    Ok(())
}
