//! Calls drawn at random, which several threads make on one kernel, and their history replayed.
ghost use Rattle.std.specs.Prelude.{◌≡◌, IfOk};

use crate::draw::{Draw, NAMES, Pair};
use crate::perform::Fault;
use kernel_core::run;
use kernel_lock::{Entry, Pass, Shared};
use mach_bench_base::is_refused;
use mach_msg_threads::{Block, Call, Gate, run_blocks};
use mach_types::{Event, Name, Reply, TaskId};
use std::alloc::{AllocError, Global};
use std::rt::Clock;
use std::sync::Wait;
use std::thread::Threads;
use std::time::{Duration, Instant};

/// How many calls a thread makes in a round.
const CALLS: u32 = 4_096;
/// No more rounds are made.
const MOST_ROUNDS: u32 = 16_000;

/// How many threads make calls, and how long.
#[derive(Clone, Copy)]
pub struct Soak {
    /// How many threads make calls at once, and how many tasks there are.
    pub threads: u32,
    /// No round begins where the history has so many entries.
    pub entries: u32,
    /// No round begins where the rounds before took so long.
    pub time: Duration,
    /// What the calls are drawn by.
    pub seed: u64,
}

/// What came of it.
#[derive(Clone, Copy)]
pub struct Soaked {
    /// How many entries the history has.
    pub entries: usize,
    /// How many of them were refused, or found no message.
    pub refused: usize,
    /// How long the rounds took, without what was drawn.
    pub took: Duration,
    /// How long the replay took.
    pub replay: Duration,
}

/// A gate by which nobody waits.
#[derive(Drop)]
struct Passing;

impl Gate for Passing {
    fn pause(&mut self, _turn: u32) -> bool {
        false
    }

    fn stepped(&mut self, _changed: bool) {}
}

/// Makes calls in rounds, and replays the history that they leave.
///
/// In each round each thread has a task of its own, and makes calls that are about its names and those of
/// the next thread's; then the tasks end. Faults are those of memory, threads and clock, and `OtherReply` where the
/// replay answers an entry otherwise than it says.
pub fn make_soak<R: Clock + AllocGlobal + Threads + Wait + Sync>(
    rt: &R,
    soak: Soak,
) -> Result<Soaked, Fault> {
    let shared = Shared::new(rt.alloc())?;
    let took = make_rounds(rt, &shared, soak)?;
    let held = shared.lock(rt);
    let start = now(rt)?;
    replay(rt.alloc(), held.entries())?;
    let replay = since(rt, start)?;
    Ok(Soaked {
        entries: held.entries().len(),
        refused: count_refused(held.entries()),
        took,
        replay,
    })
}

/// Makes rounds until it is enough, and returns how long their threads took.
fn make_rounds<R: Clock + AllocGlobal + Threads + Wait + Sync>(
    rt: &R,
    shared: &Shared,
    soak: Soak,
) -> Result<Duration, Fault> {
    let mut draw = Draw::new(soak.seed);
    let mut took = Duration::ZERO;
    for _ in 0..MOST_ROUNDS {
        if took >= soak.time || count_entries(rt, shared) >= soak.entries as usize {
            return Ok(took);
        }
        took = took.saturating_add(make_round(rt, shared, soak.threads, &mut draw)?);
    }
    Ok(took)
}

/// How many entries the history has.
fn count_entries<R: Wait>(rt: &R, shared: &Shared) -> usize {
    shared.lock(rt).entries().len()
}

/// Makes a round, and returns how long its threads took.
fn make_round<R: Clock + AllocGlobal + Threads + Wait + Sync>(
    rt: &R,
    shared: &Shared,
    threads: u32,
    draw: &mut Draw,
) -> Result<Duration, Fault> {
    let mut pass = shared.pass(rt)?;
    let tasks = make_tasks(rt, shared, &mut pass, threads)?;
    let took = run_threads(rt, shared, tasks.as_slice(), draw)?;
    end_tasks(rt, shared, &mut pass, tasks.as_slice());
    Ok(took)
}

/// Makes so many tasks.
fn make_tasks<R: AllocGlobal + Wait>(
    rt: &R,
    shared: &Shared,
    pass: &mut Pass,
    count: u32,
) -> Result<Vec<TaskId>, AllocError>
    requires { pass.old.table ≡ shared.now.table }
    ensures { pass.new.table ≡ shared.now.table }
{
    let mut tasks = Vec::new(rt.alloc());
    for _ in 0..count {
        if let Reply::Task(task) = shared.call(rt, pass, Event::TaskCreate) {
            tasks.push(task)?;
        }
    }
    Ok(tasks)
}

/// Ends the tasks.
fn end_tasks<R: Wait>(rt: &R, shared: &Shared, pass: &mut Pass, tasks: &[TaskId])
    requires { pass.old.table ≡ shared.now.table }
{
    for task in tasks {
        shared.call(rt, pass, Event::TaskTerminate(*task));
    }
}

/// Draws calls for each task, has each task's made in a thread of its own, and returns how long that took.
fn run_threads<R: Clock + AllocGlobal + Threads + Wait + Sync>(
    rt: &R,
    shared: &Shared,
    tasks: &[TaskId],
    draw: &mut Draw,
) -> Result<Duration, Fault> {
    let alloc = rt.alloc();
    let mut blocks = Vec::with_capacity(alloc, tasks.len())?;
    for (index, own) in tasks.iter().enumerate() {
        let other = tasks.get(index.saturating_add(1)).unwrap_or(own);
        let pair = Pair {
            own: *own,
            other: *other,
        };
        blocks.push(block_of(rt, alloc, shared, pair, draw)?)?;
    }
    let start = now(rt)?;
    run_blocks(rt, alloc, shared, blocks)?;
    since(rt, start)
}

/// A block of calls that are drawn.
fn block_of<R: Wait>(
    rt: &R,
    alloc: Global,
    shared: &Shared,
    pair: Pair,
    draw: &mut Draw,
) -> Result<Block<Passing>, AllocError>
    ensures { IfOk result (λ block. block.pass.table ≡ shared.now.table) }
{
    Ok(Block {
        pass: shared.pass(rt)?,
        calls: draw_calls(alloc, pair, draw)?,
        gate: Passing,
    })
}

/// A port under each name, and then calls that are drawn.
fn draw_calls(alloc: Global, pair: Pair, draw: &mut Draw) -> Result<Vec<Call>, AllocError> {
    let mut calls = Vec::with_capacity(alloc, CALLS as usize)?;
    for name in 1..=NAMES {
        calls.push(Call::Event(Event::AllocateName(pair.own, 1, Name::new(name))))?;
    }
    for _ in 0..CALLS {
        calls.push(Call::Event(draw.call(alloc, pair)?))?;
    }
    Ok(calls)
}

/// How many of the calls were refused, or found no message.
fn count_refused(entries: &[Entry]) -> usize {
    let mut count = 0usize;
    for entry in entries {
        count = count.saturating_add(usize::from(is_refused(&entry.reply)));
    }
    count
}

// ---- the replay

/// Makes the calls of the history in a whole run, and judges whether each is answered as the history says.
fn replay(alloc: Global, entries: &[Entry]) -> Result<(), Fault> {
    let replies = run_alone(alloc, events_of(alloc, entries)?)?;
    for (index, (entry, reply)) in entries.iter().zip(replies.iter()).enumerate() {
        if entry.reply != *reply {
            return Err(Fault::OtherReply(index.saturating_add(1)));
        }
    }
    Ok(())
}

/// Copies of the calls.
fn events_of(alloc: Global, entries: &[Entry]) -> Result<Vec<Event>, AllocError> {
    let mut events = Vec::with_capacity(alloc, entries.len())?;
    for entry in entries {
        events.push(entry.event.clone()?)?;
    }
    Ok(events)
}

/// The replies of a whole run of these calls.
fn run_alone(alloc: Global, events: Vec<Event>) -> Result<Vec<Reply>, AllocError> {
    let (_, replies) = run(alloc, events)?;
    Ok(replies)
}

// ---- the clock

fn now<C: Clock>(clock: &C) -> Result<Instant, Fault> {
    match Instant::now(clock) {
        Ok(start) => Ok(start),
        Err(_) => Err(Fault::NoClock),
    }
}

fn since<C: Clock>(clock: &C, start: Instant) -> Result<Duration, Fault> {
    match start.elapsed(clock) {
        Ok(took) => Ok(took),
        Err(_) => Err(Fault::NoClock),
    }
}
