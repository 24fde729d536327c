//! The option `--say`: a storyboard is run, and its history is shown with its labels.
use crate::command_line::Request;
use crate::job::Work;
use crate::naming::job_of;
use crate::start;
use mach_say_base::{File as Said, Recorded, record};
use mach_show_base::{Fault, USAGE, fault_of, reason_of, report};
use mach_words::Text;
use std::fs::File;
use std::io::{Read, Write};
use std::rt::Stderr;

/// Runs the storyboard in the file of this name, does the request's job on its history, and returns the program's status.
///
/// A fault of the storyboard goes to standard error, as the line that `mach_say check` writes, and the status is 1.
/// Takes memory for the history too.
pub(crate) fn show_said(rt: &HostRuntime, request: &Request<'_>, name: &str) -> u8 {
    let mut text = Vec::new(rt.alloc());
    match read_said(rt, name, &mut text) {
        Ok(()) => run_said(rt, request, name, text.as_slice()),
        Err(fault) => report(fault, &mut rt.stderr()),
    }
}

/// Reads the file.
fn read_said<'a>(rt: &HostRuntime, name: &'a str, text: &mut Vec<u8>) -> Result<(), Fault<'a>> {
    let mut file = match File::open(rt, name) {
        Ok(file) => file,
        Err(error) => return Err(Fault::CannotRead(name, reason_of(&error))),
    };
    match file.read_to_end(text) {
        Ok(_) => Ok(()),
        Err(error) => Err(fault_of(name, &error)),
    }
}

/// Runs the storyboard.
fn run_said(rt: &HostRuntime, request: &Request<'_>, name: &str, text: &[u8]) -> u8 {
    match record(rt.alloc(), &Said { name, text }) {
        Ok(recorded) => choose(rt, request, name, &recorded),
        Err(fault) => report_said(&fault, &mut rt.stderr()),
    }
}

/// Does the job on the history. A word of the request that names no task or port is a wrong command line.
fn choose(rt: &HostRuntime, request: &Request<'_>, name: &str, recorded: &Recorded) -> u8 {
    let labels = &recorded.labels;
    match job_of(request, labels) {
        Ok(job) => {
            let mut history = recorded.history.as_slice();
            start(rt, &Work { job, name, labels }, &mut history)
        }
        Err(fault) => {
            let _ = report(fault, &mut rt.stderr());
            USAGE
        }
    }
}

/// Writes the fault of the storyboard, and returns the status. An error of `err` is ignored.
fn report_said(fault: &Text, err: &mut Stderr) -> u8 {
    match fault.whole() {
        Ok(line) => {
            let _ = err.write_all(line);
            1
        }
        Err(_) => report(Fault::OutOfMemory, err),
    }
}
