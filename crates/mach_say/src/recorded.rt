//! The job that makes a storyboard of a history.
ghost use Rattle.std.specs.Prelude.{◌≡◌, ◌≤◌};

use mach_say_from::{TellFault, tell};
use mach_show_base::{Fault, fault_of, report};
use mach_words::{Labels, Text};
use std::alloc::Global;
use std::io::{Read, Write};
use std::rt::Stderr;
use tracer::{History, HistoryFault, read_history};

/// Writes a storyboard of the history in the file of this name to `out`, and returns the program's status: 0 if it was
/// written, otherwise 1.
///
/// A fault goes to `err`, as a line: `cannot read NAME` and why, `cannot write`, `out of memory`. `bad line N` is for the
/// first line that is no entry. `not confirmed at N` is for the first entry to which a kernel replies otherwise. `entry N: ..`
/// is for one whose call no task could make. Then nothing was written to `out`, unless it was `out` that failed.
///
/// Takes the time and memory of a kernel that makes the calls, and memory for the history and the storyboard.
pub fn perform_from<R: Read, W: Write>(
    alloc: Global,
    name: &str,
    labels: Labels,
    file: &mut R,
    out: &mut W,
    err: &mut Stderr,
) -> u8
    ensures status { result ≤ 1 }
{
    let mut text = Vec::new(alloc);
    match file.read_to_end(&mut text) {
        Ok(_) => perform_text(alloc, labels, text.as_slice(), out, err),
        Err(error) => report(fault_of(name, &error), err),
    }
}

/// Writes a storyboard of the history that the text is, or the fault, and returns the status.
fn perform_text<W: Write>(
    alloc: Global,
    labels: Labels,
    text: &[u8],
    out: &mut W,
    err: &mut Stderr,
) -> u8
    ensures status { result ≤ 1 }
{
    match read_history(alloc, text) {
        Ok(history) => tell_history(alloc, labels, &history, out, err),
        Err(HistoryFault::BadLine(number)) => report(Fault::BadLine(number), err),
        Err(HistoryFault::Memory) => report(Fault::OutOfMemory, err),
    }
}

/// Writes a storyboard of the history, or the fault, and returns the status.
fn tell_history<W: Write>(
    alloc: Global,
    labels: Labels,
    history: &History,
    out: &mut W,
    err: &mut Stderr,
) -> u8
    ensures status { result ≤ 1 }
{
    let mut storyboard = Text::new(alloc);
    match tell(
        alloc,
        history.profile(),
        history.entries(),
        labels,
        &mut storyboard,
    ) {
        Ok(()) => finish(&storyboard, out, err),
        Err(fault) => report_told(fault, err),
    }
}

/// Writes the storyboard, or the fault of the output, and returns the status.
fn finish<W: Write>(storyboard: &Text, out: &mut W, err: &mut Stderr) -> u8
    ensures status { result ≤ 1 }
{
    match write_storyboard(storyboard, out) {
        Ok(()) => 0,
        Err(fault) => report(fault, err),
    }
}

/// Writes why there is no storyboard, and returns the status.
fn report_told(fault: TellFault, err: &mut Stderr) -> u8
    ensures { result ≡ 1 }
{
    match fault {
        TellFault::NotConfirmed(number) => report(Fault::NotConfirmed(number), err),
        TellFault::Nobody(number) => report_nobody(number, err),
        TellFault::OutOfMemory => report(Fault::OutOfMemory, err),
    }
}

/// Writes that the call of the entry of this number has no caller, and returns the status. An error of `err` is ignored.
fn report_nobody(number: u64, err: &mut Stderr) -> u8
    ensures { result ≡ 1 }
{
    let _ = writeln!(
        err,
        "entry {number}: no task is there that could make this call"
    );
    1
}

/// Writes the storyboard, and flushes the output.
fn write_storyboard<'a, W: Write>(storyboard: &Text, out: &mut W) -> Result<(), Fault<'a>> {
    out.write_all(storyboard.whole()?)?;
    out.flush()?;
    Ok(())
}
