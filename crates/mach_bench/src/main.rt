//! The program `mach_bench`: named workloads of Mach 3 port IPC in named worlds, to measure; and calls that
//! several threads make on one kernel, drawn at random.
#![tactic(auto)]

mod command_line;
mod draw;
mod perform;
mod soak;

use command_line::{Refusal, read_words};
use perform::{Fault, perform, report};
use std::io::Write;
use std::process::ExitCode;
use std::rt::{Clock, Env};
use std::sync::Wait;
use std::thread::Threads;
use std::{env, io};

fn main(rt: HostRuntime) -> ExitCode {
    let (mut out, mut err) = (rt.stdout(), rt.stderr());
    ExitCode::from(answer(&rt, &mut out, &mut err))
}

/// Does what the words of the command line ask for, and returns the status.
///
/// Words that name no job are answered by the program's usage on `err`: status 2.
fn answer<R: Env + Clock + AllocGlobal + Threads + Wait + Sync, W: Write, E: Write>(
    rt: &R,
    out: &mut W,
    err: &mut E,
) -> u8 {
    match words_of(rt) {
        Ok(words) => answer_words(rt, words.as_slice(), out, err),
        Err(error) => report_error(&error, err),
    }
}

/// The same, of these words.
fn answer_words<R: Clock + AllocGlobal + Threads + Wait + Sync, W: Write, E: Write>(
    rt: &R,
    words: &[String],
    out: &mut W,
    err: &mut E,
) -> u8 {
    match read_words(words) {
        Ok(job) => perform(rt, job, out, err),
        Err(refusal) => refusal.tell(err),
    }
}

/// Tells on `err` why the words can't be had: memory was refused, or one of them is no text.
fn report_error<E: Write>(error: &io::Error, err: &mut E) -> u8 {
    match error.kind() {
        io::ErrorKind::OutOfMemory => report(Fault::OutOfMemory, err),
        _ => Refusal::NoJob.tell(err),
    }
}

/// The words of the command line, the program's own name first.
fn words_of<R: Env + AllocGlobal>(rt: &R) -> io::Result<Vec<String>> {
    Ok(env::args(rt)?.collect(rt.alloc())?)
}
