//! The program `mach_run`: runs scripts of calls of Mach 3 port IPC, and prints the replies or the history.
//!
//! `main` has the words read and opens the file; all else is done by [`perform`] of `mach_run_base`, over any
//! reader and writers.
#![tactic(auto)]

mod command_line;

use clap::error::ErrorKind;
use command_line::{Request, read_words};
use mach_run_base::{Fault, Job, perform, report};
use std::fs::File;
use std::io::{BufWriter, Read, Write};
use std::process::ExitCode;
use std::rt::{Env, Files};
use std::sync::Wait;
use std::thread::Threads;
use std::{env, io};

/// The status where the command line has no such words.
const USAGE: u8 = 2;
/// How many bytes of output are gathered before they are written.
const WRITTEN_AT_ONCE: usize = 65_536;

fn main(rt: HostRuntime) -> ExitCode {
    let mut errors = rt.stderr();
    ExitCode::from(answer(&rt, rt.stdout(), &mut errors))
}

/// Does what the words of the command line ask for, and returns the status.
///
/// Words that do not name a job are told of on `err`, with the program's usage: status 2.
fn answer<R: Env + Files + Input + AllocGlobal + Threads + Wait + Sync, W: Write + Drop, E: Write>(
    rt: &R,
    out: W,
    err: &mut E,
) -> u8 {
    match words_of(rt) {
        Ok(words) => answer_words(rt, words.as_slice(), out, err),
        Err(error) => report_words(&error, err),
    }
}

/// The same, of these words.
fn answer_words<R: Files + Input + AllocGlobal + Threads + Wait + Sync, W: Write + Drop, E: Write>(
    rt: &R,
    words: &[String],
    out: W,
    err: &mut E,
) -> u8 {
    match read_words(rt.alloc(), words) {
        Ok(request) => open(rt, &request, out, err),
        Err(error) => report_usage(&error, err),
    }
}

/// Tells on `err` why the words can't be had: memory was refused, or one of them is no text.
fn report_words<E: Write>(error: &io::Error, err: &mut E) -> u8 {
    if error.kind() == io::ErrorKind::OutOfMemory {
        return report(Fault::OutOfMemory, err);
    }
    let _ = err.write_all(b"error: a word is not UTF-8\n\nUsage: mach_run <COMMAND>\n");
    USAGE
}

/// Tells on `err` why the words name no job.
fn report_usage<E: Write>(error: &clap::Error, err: &mut E) -> u8 {
    if error.kind() == ErrorKind::OutOfMemory {
        return report(Fault::OutOfMemory, err);
    }
    let _ = write!(err, "{error}");
    USAGE
}

/// The words of the command line, the program's own name first.
fn words_of<R: Env + AllocGlobal>(rt: &R) -> io::Result<Vec<String>> {
    Ok(env::args(rt)?.collect(rt.alloc())?)
}

/// Opens what the request names, standard input where it names no file, and does its job.
fn open<R: Files + Input + AllocGlobal + Threads + Wait + Sync, W: Write + Drop, E: Write>(
    rt: &R,
    request: &Request<'_>,
    out: W,
    err: &mut E,
) -> u8 {
    let Some(name) = request.file else {
        return start(rt, request.job, "-", &mut rt.reader(), out, err);
    };
    match File::open(rt, name) {
        Ok(mut file) => start(rt, request.job, name, &mut file, out, err),
        Err(_) => report(Fault::CannotRead(name), err),
    }
}

/// Does the job, with `out` behind a buffer.
fn start<H: AllocGlobal + Threads + Wait + Sync, R: Read, W: Write + Drop, E: Write>(
    rt: &H,
    job: Job,
    name: &str,
    file: &mut R,
    out: W,
    err: &mut E,
) -> u8 {
    let alloc = rt.alloc();
    match BufWriter::with_capacity(alloc, WRITTEN_AT_ONCE, out) {
        Ok(mut out) => perform(rt, alloc, job, name, file, &mut out, err),
        Err(_) => report(Fault::OutOfMemory, err),
    }
}
