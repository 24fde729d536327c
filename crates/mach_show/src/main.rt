//! The program `mach_show`: shows histories of Mach 3 port IPC in words and as charts, and lists bad lines with the reason
//! for each.
//!
//! `main` reads the command line and opens the files. [`perform`] does the job over any reader. The jobs `text` and `lint` are
//! in `mach_show_base`.
#![tactic(auto)]

mod command_line;
mod job;
mod naming;
mod said;
mod state;

use command_line::{Request, read_words};
use job::{Job, Work, perform};
use mach_show_base::{Fault, USAGE, enter_labels, reason_of, report, report_matches, report_words};
use mach_words::Labels;
use naming::job_of;
use said::show_said;
use std::fs::File;
use std::io::{BufWriter, Read};
use std::process::ExitCode;
use std::{env, io};

/// How many bytes of output are buffered.
const WRITTEN_AT_ONCE: usize = 65_536;

fn main(rt: HostRuntime) -> ExitCode {
    ExitCode::from(answer(&rt))
}

/// Does what the command line asks for, and returns the status: 2, with the usage on standard error, if it names no job.
fn answer(rt: &HostRuntime) -> u8 {
    match words_of(rt) {
        Ok(words) => answer_words(rt, words.as_slice()),
        Err(error) => report_words("mach_show", &error, &mut rt.stderr()),
    }
}

/// The same, with these words.
fn answer_words(rt: &HostRuntime, words: &[String]) -> u8 {
    match read_words(rt.alloc(), words) {
        Ok(request) => answer_request(rt, &request),
        Err(error) => report_matches(&error, &mut rt.stdout(), &mut rt.stderr()),
    }
}

/// Does what is asked for, on a storyboard or on a history.
fn answer_request(rt: &HostRuntime, request: &Request<'_>) -> u8 {
    match request.say {
        Some(name) => show_said(rt, request, name),
        None => name_things(rt, request),
    }
}

/// Returns the words of the command line, the program's name first.
fn words_of(rt: &HostRuntime) -> io::Result<Vec<String>> {
    Ok(env::args(rt)?.collect(rt.alloc())?)
}

/// Reads the request's labels, and does its job.
fn name_things(rt: &HostRuntime, request: &Request<'_>) -> u8 {
    let mut labels = Labels::new(rt.alloc());
    match enter_labels(rt, request.labels, &mut labels) {
        Ok(()) => choose(rt, request, &labels),
        Err(fault) => report(fault, &mut rt.stderr()),
    }
}

/// Looks up the task and the port of the request, and does its job. A word that names none is a wrong command line.
fn choose(rt: &HostRuntime, request: &Request<'_>, labels: &Labels) -> u8 {
    match job_of(request, labels) {
        Ok(job) => open(rt, job, request.file, labels),
        Err(fault) => {
            let _ = report(fault, &mut rt.stderr());
            USAGE
        }
    }
}

/// Opens the file, or standard input without one, and does the job.
fn open(rt: &HostRuntime, job: Job<'_>, file: Option<&str>, labels: &Labels) -> u8 {
    let Some(name) = file else {
        let name = "-";
        return start(rt, &Work { job, name, labels }, &mut rt.reader());
    };
    match File::open(rt, name) {
        Ok(mut file) => start(rt, &Work { job, name, labels }, &mut file),
        Err(error) => report(Fault::CannotRead(name, reason_of(&error)), &mut rt.stderr()),
    }
}

/// Does the job, and buffers its output.
fn start<R: Read>(rt: &HostRuntime, work: &Work<'_>, file: &mut R) -> u8 {
    let alloc = rt.alloc();
    let mut err = rt.stderr();
    match BufWriter::with_capacity(alloc, WRITTEN_AT_ONCE, rt.stdout()) {
        Ok(mut out) => perform(alloc, work, file, &mut out, &mut err),
        Err(_) => report(Fault::OutOfMemory, &mut err),
    }
}
