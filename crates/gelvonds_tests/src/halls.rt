//! Two blocks that wait by the gates of a hall: the test that `docs/EMBEDDING.md` names.
ghost use Rattle.std.specs.Prelude.{◌≡◌, IfOk};

use crate::messages::{MESSAGE, RECEIVED, bytes};
use gelvonds::threads::{Answer, Block, BlockGate, Call, Hall, Outcome, Pass, Shared, run_blocks};
use gelvonds::{Bytes, Event, Name, TaskId};
use std::alloc::{AllocError, Global};
use std::sync::Wait;
use std::test::*;
use std::thread::Threads;

/// A task with a receive right under 1.
fn one_port<R: Wait>(rt: &R, shared: &Shared) -> Result<(), AllocError> {
    let mut pass = shared.pass(rt)?;
    shared.call(rt, &mut pass, Event::TaskCreate);
    shared.call(rt, &mut pass, Event::Allocate(TaskId::new(0), 1));
    Ok(())
}

/// `mach_msg` of the task with these options, by the name 1.
fn message_call(options: u32, send: Bytes) -> Call {
    Call::Msg {
        task: TaskId::new(0),
        options,
        name: Name::new(1),
        room: 24,
        send,
    }
}

/// A send of the message.
fn sends(alloc: Global) -> Result<Call, AllocError> {
    Ok(message_call(1, bytes(alloc, &MESSAGE)?))
}

/// A receive that waits.
fn receives(alloc: Global) -> Call {
    message_call(2, Bytes::from_vec(Vec::new(alloc)))
}

/// A block of one call, with a gate of the hall.
fn enter<'a, R: Wait>(
    rt: &'a R,
    alloc: Global,
    shared: &Shared,
    hall: &'a Hall,
    call: Call,
) -> Result<Block<BlockGate<'a, R>>, AllocError>
    ensures { IfOk result (λ block. block.pass.table ≡ shared.now.table) }
{
    let pass = shared.pass(rt)?;
    let mut calls = Vec::new(alloc);
    calls.push(call)?;
    let gate = hall.enter(rt, alloc)?;
    Ok(Block { pass, calls, gate })
}

/// Runs a block for each of two calls, by gates of the hall. Both enter before either makes its call.
fn run_two<'a, R: Threads + Wait + Sync>(
    rt: &'a R,
    alloc: Global,
    shared: &Shared,
    hall: &'a Hall,
    first: Call,
    second: Call,
) -> Result<Vec<(Pass, Vec<Answer>)>, Fail> {
    let first = enter(rt, alloc, shared, hall, first)?;
    let second = enter(rt, alloc, shared, hall, second)?;
    let mut blocks = Vec::new(alloc);
    blocks.push(first)?;
    blocks.push(second)?;
    Ok(run_blocks(rt, alloc, shared, blocks)?)
}

/// Runs a block that receives beside one that makes this call.
fn receives_beside<R: Threads + Wait + Sync>(
    rt: &R,
    alloc: Global,
    other: Call,
) -> Result<Vec<(Pass, Vec<Answer>)>, Fail> {
    let shared = Shared::new(alloc)?;
    one_port(rt, &shared)?;
    let hall = Hall::new(alloc);
    run_two(rt, alloc, &shared, &hall, receives(alloc), other)
}

/// Returns whether the first block's call came to this, with these bytes.
fn first_has(ran: &[(Pass, Vec<Answer>)], outcome: Outcome, message: &[u8]) -> bool {
    let Some((_, answers)) = ran.first() else {
        return false;
    };
    match answers.as_slice() {
        [Answer::Msg(told, bytes)] => *told == outcome && bytes.as_slice() == message,
        _ => false,
    }
}

/// The receive gets the other block's message, also where it came first and waited.
#[test]
fn a_block_waits_for_a_message(rt: HostRuntime) -> Result<(), Fail> {
    let ran = receives_beside(&rt, rt.alloc(), sends(rt.alloc())?)?;
    let received = Outcome { code: 0, len: 24 };
    assert!(rt; first_has(ran.as_slice(), received, &RECEIVED));
    Ok(())
}

/// Both blocks receive. Nobody can send, so both give up.
#[test]
fn blocks_that_all_wait_give_up(rt: HostRuntime) -> Result<(), Fail> {
    let ran = receives_beside(&rt, rt.alloc(), receives(rt.alloc()))?;
    let timed_out = Outcome {
        code: 0x1000_4003,
        len: 0,
    };
    assert!(rt; first_has(ran.as_slice(), timed_out, &[]));
    Ok(())
}
