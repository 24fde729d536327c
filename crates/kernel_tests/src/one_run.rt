//! Plays a script by one whole run of the kernel (`run_with`), and prints the replies, one a line.
//!
//! Or prints what the last call may have changed in place of the replies: a line for each port and set, or `all`. The
//! script has calls only: a line that begins a block, or is a message call that waits, is a bad call here.
//! `mach_run run` plays a script call by call instead (`perform`). The gate compares what both print with the same file.

use crate::JobFault;
use kernel_core::run_with;
use mach_types::{Event, Profile, Reply, Touched, Waited};
use std::alloc::Global;
use std::fs;
use std::io::{self, BufWriter, Write};
use std::rt::Files;
use text_reader::{ScriptFault, read_script};
use tracer_base::write_reply_line;

/// How many bytes of output are gathered before they are written.
const WRITTEN_AT_ONCE: usize = 65_536;

/// What is printed of a run.
#[derive(Clone, Copy)]
pub enum Wanted {
    /// The replies.
    Replies,
    /// The ports and sets that the last call may have changed.
    Touched,
}

/// Plays the script in the file on a kernel of the profile of this number.
pub fn play_file<R: Files + AllocGlobal, W: Write + Drop>(
    rt: &R,
    number: &str,
    file: &str,
    wanted: Wanted,
    out: W,
) -> Result<(), JobFault> {
    let Some(profile) = profile_numbered(number) else {
        return Err(JobFault::Usage);
    };
    let Ok(text) = fs::read(rt, file) else {
        return Err(JobFault::CannotRead);
    };
    match read_script(rt.alloc(), text.as_slice()) {
        Ok(events) => print_run(rt.alloc(), profile, events, wanted, out),
        Err(ScriptFault::BadCall(line)) => Err(JobFault::BadCall(line)),
        Err(ScriptFault::OutOfMemory) => Err(JobFault::OutOfMemory),
    }
}

/// Returns the profile of this number, if a kernel can have it.
fn profile_numbered(number: &str) -> Option<Profile> {
    match number {
        "1" => Some(Profile::One),
        "2" => Some(Profile::Two),
        "3" => Some(Profile::Three),
        _ => None,
    }
}

/// Makes the calls on a new kernel of the profile, all in one run, and then prints what is wanted of it.
fn print_run<W: Write + Drop>(
    alloc: Global,
    profile: Profile,
    events: Vec<Event>,
    wanted: Wanted,
    out: W,
) -> Result<(), JobFault> {
    let Ok((kernel, replies)) = run_with(alloc, profile, events) else {
        return Err(JobFault::OutOfMemory);
    };
    match (
        wanted,
        BufWriter::with_capacity(alloc, WRITTEN_AT_ONCE, out),
    ) {
        (Wanted::Replies, Ok(mut out)) => print(replies.as_slice(), &mut out),
        (Wanted::Touched, Ok(mut out)) => print_touched(kernel.touched(), &mut out),
        (_, Err(_)) => Err(JobFault::OutOfMemory),
    }
}

/// Prints a line for each port and set, or `all`.
fn print_touched<W: Write>(touched: Touched, out: &mut W) -> Result<(), JobFault> {
    let written = match touched {
        Touched::All => writeln!(out, "all"),
        Touched::Few(places) => write_places(&places, out),
    };
    match written {
        Ok(()) => out.flush().map_err(|_| JobFault::CannotWrite),
        Err(_) => Err(JobFault::CannotWrite),
    }
}

/// Writes a line for each port and set.
fn write_places<W: Write>(places: &[Option<Waited>], out: &mut W) -> io::Result<()> {
    for place in places {
        match place {
            Some(Waited::Port(port)) => writeln!(out, "port {}", port.number())?,
            Some(Waited::Set(set)) => writeln!(out, "set {}", set.number())?,
            None => {}
        }
    }
    Ok(())
}

/// Prints the replies, one a line.
fn print<W: Write>(replies: &[Reply], out: &mut W) -> Result<(), JobFault> {
    for reply in replies {
        if write_reply_line(reply, out).is_err() {
            return Err(JobFault::CannotWrite);
        }
    }
    out.flush().map_err(|_| JobFault::CannotWrite)
}
