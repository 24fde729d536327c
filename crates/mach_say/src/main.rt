//! The program `mach_say`: runs storyboards, which are protocols of Mach ports written with names.
//!
//! `main` reads the command line and opens the file. [`perform`] does the job over any reader and writer.
#![tactic(auto)]

mod command_line;
mod job;
mod recorded;

use command_line::{Request, read_words};
use job::{Job, perform};
use mach_show_base::{Fault, enter_labels, reason_of, report, report_matches, report_words};
use mach_words::Labels;
use recorded::perform_from;
use std::fs::File;
use std::io::{BufWriter, Read};
use std::process::ExitCode;
use std::{env, io};

/// How many bytes of output are buffered.
const WRITTEN_AT_ONCE: usize = 65_536;

fn main(rt: HostRuntime) -> ExitCode {
    ExitCode::from(answer(&rt))
}

/// Does what the command line asks for, and returns the status: 2, with the usage on standard error, if it names no job.
fn answer(rt: &HostRuntime) -> u8 {
    match words_of(rt) {
        Ok(words) => answer_words(rt, words.as_slice()),
        Err(error) => report_words("mach_say", &error, &mut rt.stderr()),
    }
}

/// The same, with these words.
fn answer_words(rt: &HostRuntime, words: &[String]) -> u8 {
    match read_words(rt.alloc(), words) {
        Ok(request) => start(rt, &request),
        Err(error) => report_matches(&error, &mut rt.stdout(), &mut rt.stderr()),
    }
}

/// Returns the words of the command line, the program's name first.
fn words_of(rt: &HostRuntime) -> io::Result<Vec<String>> {
    Ok(env::args(rt)?.collect(rt.alloc())?)
}

/// Reads the request's labels, and does its job.
fn start(rt: &HostRuntime, request: &Request<'_>) -> u8 {
    let mut labels = Labels::new(rt.alloc());
    match enter_labels(rt, request.labels, &mut labels) {
        Ok(()) => open(rt, request, labels),
        Err(fault) => report(fault, &mut rt.stderr()),
    }
}

/// Opens the file, or standard input without one, and does the job.
fn open(rt: &HostRuntime, request: &Request<'_>, labels: Labels) -> u8 {
    let Some(name) = request.file else {
        return work(rt, request.job, labels, "-", &mut rt.reader());
    };
    match File::open(rt, name) {
        Ok(mut file) => work(rt, request.job, labels, name, &mut file),
        Err(error) => report(Fault::CannotRead(name, reason_of(&error)), &mut rt.stderr()),
    }
}

/// Does the job, and buffers its output. Without a job, makes a storyboard of a history.
fn work<R: Read>(
    rt: &HostRuntime,
    job: Option<Job>,
    labels: Labels,
    name: &str,
    file: &mut R,
) -> u8 {
    let alloc = rt.alloc();
    let mut err = rt.stderr();
    match BufWriter::with_capacity(alloc, WRITTEN_AT_ONCE, rt.stdout()) {
        Ok(mut out) => match job {
            Some(job) => perform(alloc, job, name, file, &mut out, &mut err),
            None => perform_from(alloc, name, labels, file, &mut out, &mut err),
        },
        Err(_) => report(Fault::OutOfMemory, &mut err),
    }
}
