//! Tests of the kernel that `mach_run` can't make.
//!
//! - `kernel_tests PROFILE FILE [touched]` plays a script by one whole run of the kernel (`one_run`).
//! - `kernel_tests growths FILE..` has each growth of these histories refused in turn (`growths`).
//!
//! A fault is one line on standard error, and the status is 1.
#![tactic(auto)]

mod growths;
mod judging;
mod looking;
mod one_run;
mod playing;
mod refusing;
mod sweeping;
mod without;

use growths::refuse_growths;
use one_run::{Wanted, play_file};
use std::env;
use std::io::Write;
use std::process::ExitCode;
use std::rt::{Env, Files};
use std::sync::Wait;
use thiserror::Error;

/// Why a job wasn't done. Its text is the line that tells of it.
#[derive(Clone, Copy, Debug, Error)]
enum JobFault {
    /// The words of the command line are others.
    #[error("usage: kernel_tests PROFILE FILE [touched], or kernel_tests growths FILE..")]
    Usage,
    /// The file can't be opened or read.
    #[error("cannot read the file")]
    CannotRead,
    /// The line of this number, from 1, is no call.
    #[error("line {0}: bad call")]
    BadCall(u64),
    /// No history has the line of this number, from 1, there.
    #[error("bad line {0}")]
    BadLine(u64),
    /// What there is to print can't be written.
    #[error("cannot write")]
    CannotWrite,
    /// Memory was refused.
    #[error("out of memory")]
    OutOfMemory,
}

fn main(rt: HostRuntime) -> ExitCode {
    match do_job(&rt, rt.stdout()) {
        Ok(()) => ExitCode::from(0),
        Err(fault) => {
            let _ = writeln!(rt.stderr(), "{fault}");
            ExitCode::from(1)
        }
    }
}

/// Does the job that the words of the command line name.
fn do_job<R: Env + Files + AllocGlobal + Wait, W: Write + Drop>(
    rt: &R,
    out: W,
) -> Result<(), JobFault> {
    let Ok(words) = env::args(rt) else {
        return Err(JobFault::Usage);
    };
    let Ok(words) = words.collect::<Vec<String>>(rt.alloc()) else {
        return Err(JobFault::OutOfMemory);
    };
    match words.as_slice() {
        [_, job, files @ ..] if job.as_str() == "growths" => refuse_growths(rt, files, out),
        [_, number, file] => play_file(rt, number.as_str(), file.as_str(), Wanted::Replies, out),
        [_, number, file, wanted] if wanted.as_str() == "touched" => {
            play_file(rt, number.as_str(), file.as_str(), Wanted::Touched, out)
        }
        _ => Err(JobFault::Usage),
    }
}
