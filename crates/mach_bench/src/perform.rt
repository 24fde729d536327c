//! The jobs of the program, over any clock and writers.
ghost use Rattle.std.specs.Prelude.{◌≤◌, ◌≡◌};

use crate::command_line::USAGE;
use crate::soak::{Soak, Soaked, make_soak};
use mach_bench_base::{Bench, Naming, OPENING, SMALL, Stop, World, all_worlds};
use mach_bench_workloads::{SEND_RECEIVE, Workload, all_workloads, several_workloads};
use mach_msg_threads::RunFault;
use std::alloc::{AllocError, AllocFailed};
use std::io::Write;
use std::rt::Clock;
use std::sync::Wait;
use std::thread::Threads;
use std::time::{Duration, Instant};
use std::{fmt, io};

/// What the program can do.
#[derive(Clone, Copy)]
pub enum Job {
    /// Prints how the program is called.
    Help,
    /// Prints the names of the workloads and the worlds.
    List,
    /// Makes each workload once in each profile in the small world, and the first in each world in profile 1.
    Check,
    /// Makes one workload in one world, so many times, by the clock.
    Run(Run, u32),
    /// Makes calls of several threads on one kernel, and replays their history.
    Soak(Soak),
}

/// How many cycles are made.
#[derive(Clone, Copy)]
pub enum Cycles {
    /// One, and no time is taken.
    Once,
    /// So many, by the clock.
    Timed(u32),
}

impl Cycles {
    /// How many they are.
    fn count(self) -> u32 {
        match self {
            Cycles::Once => 1,
            Cycles::Timed(times) => times,
        }
    }
}

/// What came of cycles.
#[derive(Clone, Copy)]
struct Made {
    /// How long they took, 0 where they aren't timed.
    took: Duration,
    /// In how many turns the last step of the last ended.
    turns: u64,
}

/// What is to be run.
#[derive(Clone, Copy)]
pub struct Run {
    /// The workload.
    pub workload: &'static Workload,
    /// The world.
    pub world: &'static World,
    /// How the kernel makes fresh names, as its profile says.
    pub naming: Naming,
}

impl fmt::Display for Run {
    fn fmt<W: fmt::Write>(&self, f: &mut fmt::Formatter<W>) -> fmt::Result {
        write!(f, "{} in {}", self.workload.name, self.world.name)?;
        match self.naming {
            Naming::Plain => Ok(()),
            Naming::Tagged => f.write_str(", profile 2"),
            Naming::Several => f.write_str(", profile 3"),
        }
    }
}

/// What stops a job. Its text is the line that tells of it.
#[derive(Clone, Copy)]
pub enum Fault {
    /// A call was refused that should be done: of which run, in which part of it, and its number there, from 1.
    Refused(Run, &'static str, usize),
    /// The clock can't be read.
    NoClock,
    /// What is told can't be written.
    CannotWrite,
    /// Memory was refused.
    OutOfMemory,
    /// A thread was refused.
    NoThread,
    /// The replay answers the entry of this number, from 1, otherwise than the history says.
    OtherReply(usize),
}

impl From<AllocError> for Fault {
    fn from(_: AllocError) -> Fault {
        Fault::OutOfMemory
    }
}

impl<T: Drop> From<AllocFailed<T>> for Fault {
    fn from(_: AllocFailed<T>) -> Fault {
        Fault::OutOfMemory
    }
}

impl From<RunFault> for Fault {
    fn from(fault: RunFault) -> Fault {
        match fault {
            RunFault::Memory => Fault::OutOfMemory,
            RunFault::Thread => Fault::NoThread,
        }
    }
}

impl fmt::Display for Fault {
    fn fmt<W: fmt::Write>(&self, f: &mut fmt::Formatter<W>) -> fmt::Result {
        match self {
            Fault::Refused(run, part, number) => {
                write!(f, "{run}: call {number} of the {part} was refused")
            }
            Fault::NoClock => f.write_str("cannot read the clock"),
            Fault::CannotWrite => f.write_str("cannot write"),
            Fault::OutOfMemory => f.write_str("out of memory"),
            Fault::NoThread => f.write_str("cannot start thread"),
            Fault::OtherReply(number) => write!(f, "entry {number} is replayed otherwise"),
        }
    }
}

/// Does the job, and returns the program's status: 0 where it is done, 1 where a fault stopped it.
///
/// What the job tells goes to `out`, and a fault in one line to `err`. A call that is refused though it
/// should be done is a fault: what comes after it is not made.
pub fn perform<R: Clock + AllocGlobal + Threads + Wait + Sync, W: Write, E: Write>(
    rt: &R,
    job: Job,
    out: &mut W,
    err: &mut E,
) -> u8
    ensures { result ≤ 1 }
{
    match do_and_flush(rt, job, out) {
        Ok(()) => 0,
        Err(fault) => report(fault, err),
    }
}

/// Tells on `err` what the fault is, as one line, and returns its status, 1.
///
/// Where `err` refuses the line, nothing is left to tell of it.
pub fn report<E: Write>(fault: Fault, err: &mut E) -> u8
    ensures { result ≡ 1 }
{
    let _ = writeln!(err, "{fault}");
    1
}

/// Does the job, and flushes what it told.
fn do_and_flush<R: Clock + AllocGlobal + Threads + Wait + Sync, W: Write>(
    rt: &R,
    job: Job,
    out: &mut W,
) -> Result<(), Fault> {
    do_job(rt, job, out)?;
    written(out.flush())
}

fn do_job<R: Clock + AllocGlobal + Threads + Wait + Sync, W: Write>(
    rt: &R,
    job: Job,
    out: &mut W,
) -> Result<(), Fault> {
    match job {
        Job::Help => written(out.write_all(USAGE.as_bytes())),
        Job::List => list(out),
        Job::Check => check(rt, out),
        Job::Run(run, times) => measure(rt, run, times, out),
        Job::Soak(limits) => tell_soaked(make_soak(rt, limits)?, out),
    }
}

/// What was written, or that it can't be.
fn written(write: io::Result<()>) -> Result<(), Fault> {
    match write {
        Ok(()) => Ok(()),
        Err(_) => Err(Fault::CannotWrite),
    }
}

/// Prints the names of the workloads, and then those of the worlds, one a line.
fn list<W: Write>(out: &mut W) -> Result<(), Fault> {
    list_workloads(out)?;
    list_worlds(out)
}

fn list_workloads<W: Write>(out: &mut W) -> Result<(), Fault> {
    for workload in all_workloads() {
        tell_name("", workload.name, out)?;
    }
    for workload in several_workloads() {
        tell_name("--profile 3 ", workload.name, out)?;
    }
    Ok(())
}

fn list_worlds<W: Write>(out: &mut W) -> Result<(), Fault> {
    for world in all_worlds() {
        tell_name("--world ", world.name, out)?;
    }
    Ok(())
}

fn tell_name<W: Write>(before: &str, name: &str, out: &mut W) -> Result<(), Fault> {
    written(writeln!(out, "{before}{name}"))
}

/// Makes each workload once in each profile that has it in the small world, and the first in each other world in
/// profile 1; no time is told.
fn check<R: Clock + AllocGlobal, W: Write>(rt: &R, out: &mut W) -> Result<(), Fault> {
    check_workloads(rt, all_workloads(), Naming::Plain, out)?;
    check_worlds(rt, out)?;
    check_workloads(rt, all_workloads(), Naming::Tagged, out)?;
    check_workloads(rt, all_workloads(), Naming::Several, out)?;
    check_workloads(rt, several_workloads(), Naming::Several, out)
}

fn check_workloads<R: Clock + AllocGlobal, W: Write>(
    rt: &R,
    workloads: &'static [Workload],
    naming: Naming,
    out: &mut W,
) -> Result<(), Fault> {
    for workload in workloads {
        let run = Run {
            workload,
            world: &SMALL,
            naming,
        };
        check_one(rt, run, out)?;
    }
    Ok(())
}

fn check_worlds<R: Clock + AllocGlobal, W: Write>(rt: &R, out: &mut W) -> Result<(), Fault> {
    for world in all_worlds() {
        if world.name != SMALL.name {
            let run = Run {
                workload: &SEND_RECEIVE,
                world,
                naming: Naming::Plain,
            };
            check_one(rt, run, out)?;
        }
    }
    Ok(())
}

/// Makes one cycle, and prints how many operations it is, and the turns of its last step.
fn check_one<R: Clock + AllocGlobal, W: Write>(rt: &R, run: Run, out: &mut W) -> Result<(), Fault> {
    let made = make(rt, run, Cycles::Once)?;
    let (operations, turns) = (run.workload.operations, made.turns);
    written(writeln!(
        out,
        "{run}: {operations} operations, the last step in {turns} turns"
    ))
}

/// Makes the cycles, and prints how many operations they were, the time of each, and the turns of the last step.
fn measure<R: Clock + AllocGlobal, W: Write>(
    rt: &R,
    run: Run,
    times: u32,
    out: &mut W,
) -> Result<(), Fault> {
    let made = make(rt, run, Cycles::Timed(times))?;
    tell(run, operations_of(run, times), made, out)
}

/// How many operations so many cycles are.
fn operations_of(run: Run, times: u32) -> u64 {
    u64::from(run.workload.operations).saturating_mul(u64::from(times))
}

/// Prints how many operations were made, the time of each, and the turns of the last step.
fn tell<W: Write>(run: Run, operations: u64, made: Made, out: &mut W) -> Result<(), Fault> {
    let (each, turns) = (nanoseconds_each(made.took, operations), made.turns);
    written(writeln!(
        out,
        "{run}: {operations} operations, {each} ns each, the last step in {turns} turns"
    ))
}

/// Prints how many calls were made, how many a second, and that their history is replayed to the same replies.
fn tell_soaked<W: Write>(soaked: Soaked, out: &mut W) -> Result<(), Fault> {
    let (entries, refused, took) = (soaked.entries, soaked.refused, soaked.took.as_millis());
    let (replay, each) = (
        soaked.replay.as_millis(),
        nanoseconds_each(soaked.took, entries as u64),
    );
    written(writeln!(
        out,
        "{entries} calls, {refused} of them refused, in {took} ms, {each} ns each, replayed to the same replies in {replay} ms"
    ))
}

/// The nanoseconds that each operation took, 0 where there is none.
fn nanoseconds_each(took: Duration, operations: u64) -> u128 {
    took.as_nanos()
        .checked_div(u128::from(operations))
        .unwrap_or(0)
}

/// Makes the cycles on a new kernel, and returns what came of them.
///
/// It does nothing else: each statement of a function that owns a kernel is dear to prove.
fn make<R: Clock + AllocGlobal>(rt: &R, run: Run, cycles: Cycles) -> Result<Made, Fault> {
    let mut bench = Bench::new(rt.alloc(), run.naming);
    make_on(rt, &mut bench, run, cycles)
}

/// The same on this one.
fn make_on<C: Clock>(
    clock: &C,
    bench: &mut Bench,
    run: Run,
    cycles: Cycles,
) -> Result<Made, Fault> {
    done(prepare(bench, run, cycles.count()), run)?;
    let took = match cycles {
        Cycles::Once => untimed(bench, run)?,
        Cycles::Timed(times) => timed(clock, bench, run, times)?,
    };
    Ok(Made {
        took,
        turns: bench.last_turns(),
    })
}

/// Makes the kernel ready for so many cycles, and rehearses them where that is needed.
fn prepare(bench: &mut Bench, run: Run, times: u32) -> Result<(), Stop> {
    take_steps(bench, run)?;
    if bench.follows_names() {
        bench.rehearse(times)?;
        take_steps(bench, run)?;
    }
    Ok(())
}

/// Makes the world and what the workload needs.
fn take_steps(bench: &mut Bench, run: Run) -> Result<(), Stop> {
    bench.take(&OPENING)?;
    bench.take(run.world.before)?;
    bench.take(run.workload.groups)?;
    bench.take(run.world.after)
}

/// Makes one cycle.
fn untimed(bench: &mut Bench, run: Run) -> Result<Duration, Fault> {
    match done(bench.run(1), run) {
        Ok(()) => Ok(Duration::ZERO),
        Err(fault) => Err(fault),
    }
}

/// Makes the cycles, and returns how long they took.
fn timed<C: Clock>(clock: &C, bench: &mut Bench, run: Run, times: u32) -> Result<Duration, Fault> {
    let Ok(start) = Instant::now(clock) else {
        return Err(Fault::NoClock);
    };
    done(bench.run(times), run)?;
    match start.elapsed(clock) {
        Ok(took) => Ok(took),
        Err(_) => Err(Fault::NoClock),
    }
}

/// Tells of which run a stop is.
fn done(made: Result<(), Stop>, run: Run) -> Result<(), Fault> {
    match made {
        Ok(()) => Ok(()),
        Err(Stop::Setup(number)) => Err(Fault::Refused(run, "setup", number)),
        Err(Stop::Cycle(number)) => Err(Fault::Refused(run, "cycle", number)),
        Err(Stop::OutOfMemory) => Err(Fault::OutOfMemory),
    }
}
