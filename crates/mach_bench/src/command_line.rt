//! The words of the command line.
use crate::perform::{Job, Run};
use crate::soak::Soak;
use mach_bench_base::{Naming, World, all_worlds};
use mach_bench_workloads::{Workload, all_workloads, several_workloads};
use std::io::Write;
use std::time::Duration;

/// How the program is called.
pub const USAGE: &str = "Workloads of Mach 3 port IPC, to measure

Usage: mach_bench list
       mach_bench check
       mach_bench run NAME [--world W] [--times N] [--profile P]
       mach_bench soak THREADS CALLS SECONDS SEED
       mach_bench help

list   prints the workloads and the worlds
check  makes each workload once in each profile, and the first in each world
run    makes the cycle of one workload N times (1) in one world (small), by the clock,
       on a kernel of profile P (1), 1, 2 or 3: in 2 and 3 fresh names have a generation,
       and in 3 a port may be in several sets
soak   makes calls drawn by the seed in so many threads (1 to 64) on one kernel, until
       there are so many or it took so long; then replays their history
";

/// Why words ask for nothing that can be done.
#[derive(Clone, Copy)]
pub enum Refusal<'a> {
    /// They name no job.
    NoJob,
    /// No workload has this name.
    NoWorkload(&'a str),
    /// No world has this name.
    NoWorld(&'a str),
}

impl<'a> Refusal<'a> {
    /// Tells of it on `err`, and returns the program's status: 2 where the words name no job, else 1.
    pub fn tell<E: Write>(self, err: &mut E) -> u8 {
        match self {
            Refusal::NoJob => refuse(err),
            Refusal::NoWorkload(name) => tell_unknown("workload", name, err),
            Refusal::NoWorld(name) => tell_unknown("world", name, err),
        }
    }
}

/// Tells on `err` how the program is called.
pub fn refuse<E: Write>(err: &mut E) -> u8 {
    let _ = err.write_all(b"error: these words name no job\n\n");
    let _ = err.write_all(USAGE.as_bytes());
    2
}

fn tell_unknown<E: Write>(kind: &str, name: &str, err: &mut E) -> u8 {
    let _ = writeln!(err, "no {kind} {name}: see mach_bench list");
    1
}

/// Reads the words, the program's own name first.
pub fn read_words<'a>(words: &'a [String]) -> Result<Job, Refusal<'a>> {
    match words {
        [_, job] => read_job(job.as_str()),
        [_, job, rest @ ..] if job.as_str() == "run" => read_run(rest),
        [_, job, rest @ ..] if job.as_str() == "soak" => read_soak(rest).ok_or(Refusal::NoJob),
        _ => Err(Refusal::NoJob),
    }
}

/// The job that one word names.
fn read_job<'a>(job: &str) -> Result<Job, Refusal<'a>> {
    match job {
        "list" => Ok(Job::List),
        "check" => Ok(Job::Check),
        "help" | "--help" | "-h" => Ok(Job::Help),
        _ => Err(Refusal::NoJob),
    }
}

/// The number that the word is.
fn number(word: &String) -> Option<u32> {
    word.as_str().parse::<u32>().ok()
}

/// Reads what stands after `soak`: how many threads, 1 to 64, calls and seconds, and the seed.
fn read_soak(words: &[String]) -> Option<Job> {
    let [threads, entries, seconds, seed] = words else {
        return None;
    };
    let threads = number(threads)?;
    if threads == 0 || threads > 64 {
        return None;
    }
    Some(Job::Soak(Soak {
        threads,
        entries: number(entries)?,
        time: Duration::from_secs(u64::from(number(seconds)?)),
        seed: u64::from(number(seed)?),
    }))
}

/// Which value the next word is, of the words after `run`.
#[derive(Clone, Copy)]
enum Value {
    /// None: it is a workload's name or an option.
    Nothing,
    /// The world's name.
    World,
    /// How many times.
    Times,
    /// The profile's number.
    Profile,
}

/// What the words after `run` say.
#[derive(Clone, Copy)]
struct Named<'a> {
    workload: &'a str,
    world: &'a str,
    times: u32,
    naming: Naming,
    next: Value,
}

impl<'a> Named<'a> {
    /// What they say with this word behind them; nothing where no word may stand there.
    fn and(self, word: &'a str) -> Option<Named<'a>> {
        match self.next {
            Value::Nothing => self.and_name(word),
            Value::World => Some(Named {
                world: word,
                next: Value::Nothing,
                ..self
            }),
            Value::Times => Some(Named {
                times: word.parse::<u32>().ok()?,
                next: Value::Nothing,
                ..self
            }),
            Value::Profile => Some(Named {
                naming: naming_of(word)?,
                next: Value::Nothing,
                ..self
            }),
        }
    }

    /// The same, where the word is no value.
    fn and_name(self, word: &'a str) -> Option<Named<'a>> {
        match value_after(word) {
            Value::Nothing if self.workload.is_empty() => Some(Named {
                workload: word,
                ..self
            }),
            Value::Nothing => None,
            next => Some(Named { next, ..self }),
        }
    }

    /// What is to be run, where the words say all.
    fn run(self) -> Result<Job, Refusal<'a>> {
        let Value::Nothing = self.next else {
            return Err(Refusal::NoJob);
        };
        if self.workload.is_empty() {
            return Err(Refusal::NoJob);
        }
        let Some(workload) = workload_named(self.workload) else {
            return Err(Refusal::NoWorkload(self.workload));
        };
        let Some(world) = world_named(self.world) else {
            return Err(Refusal::NoWorld(self.world));
        };
        let run = Run {
            workload,
            world,
            naming: self.naming,
        };
        Ok(Job::Run(run, self.times))
    }
}

/// How fresh names are made in the profile of this number.
fn naming_of(profile: &str) -> Option<Naming> {
    match profile {
        "1" => Some(Naming::Plain),
        "2" => Some(Naming::Tagged),
        "3" => Some(Naming::Several),
        _ => None,
    }
}

/// Which value stands after this word.
fn value_after(word: &str) -> Value {
    match word {
        "--world" => Value::World,
        "--times" => Value::Times,
        "--profile" => Value::Profile,
        _ => Value::Nothing,
    }
}

/// Reads what stands after `run`: a workload's name, and options before it or after it, each with its value.
fn read_run<'a>(words: &'a [String]) -> Result<Job, Refusal<'a>> {
    let mut named = Named {
        workload: "",
        world: "small",
        times: 1,
        naming: Naming::Plain,
        next: Value::Nothing,
    };
    for word in words {
        match named.and(word.as_str()) {
            Some(more) => named = more,
            None => return Err(Refusal::NoJob),
        }
    }
    named.run()
}

/// The workload of this name.
fn workload_named(name: &str) -> Option<&'static Workload> {
    for workload in all_workloads() {
        if workload.name == name {
            return Some(workload);
        }
    }
    for workload in several_workloads() {
        if workload.name == name {
            return Some(workload);
        }
    }
    None
}

/// The world of this name.
fn world_named(name: &str) -> Option<&'static World> {
    for world in all_worlds() {
        if world.name == name {
            return Some(world);
        }
    }
    None
}
