//! Refuses each growth of memory in turn: the call says so, nothing has changed, and the same call succeeds once there
//! is memory.
//!
//! The program names what is to be refused (`refusing`); a library that is loaded before the C library listens
//! (`.ci/refuse.c`). By itself the program finds that nothing is refused, and each call is answered as with memory.
use crate::JobFault;
use crate::playing::Side;
use crate::sweeping::sweep;
use crate::without::play_without;
use std::fs;
use std::io::{self, Write};
use std::rt::Files;
use std::sync::Wait;
use tracer::{History, HistoryFault, read_history};

/// Refuses each growth of the histories in these files in turn, by `Kernel::step` and by `step_locked`, and all growths
/// at calls that take no memory. Writes a line for each file: how many were refused, how many such calls there were, and
/// what was not as it should be.
pub fn refuse_growths<R: Files + AllocGlobal + Wait, W: Write + Drop>(
    rt: &R,
    files: &[String],
    mut out: W,
) -> Result<(), JobFault> {
    for file in files {
        let row = read_row(rt, file.as_str())?;
        if refuse_row(rt, file.as_str(), &row, &mut out).is_err() {
            return Err(JobFault::CannotWrite);
        }
    }
    Ok(())
}

/// The history in this file: calls, and replies to them that are known beforehand.
fn read_row<R: Files + AllocGlobal>(rt: &R, file: &str) -> Result<History, JobFault> {
    let Ok(text) = fs::read(rt, file) else {
        return Err(JobFault::CannotRead);
    };
    match read_history(rt.alloc(), text.as_slice()) {
        Ok(row) => Ok(row),
        Err(HistoryFault::BadLine(line)) => Err(JobFault::BadLine(line)),
        Err(HistoryFault::Memory) => Err(JobFault::OutOfMemory),
    }
}

/// Refuses each growth of this history in turn, and writes its line.
fn refuse_row<R: AllocGlobal + Wait, W: Write>(
    rt: &R,
    file: &str,
    row: &History,
    out: &mut W,
) -> io::Result<()> {
    let stepped = sweep(rt, Side::Step, row);
    let locked = sweep(rt, Side::Locked, row);
    let without = play_without(rt.alloc(), row);
    writeln!(
        out,
        "{file}: {stepped} by step, {locked} by step_locked, {without} without memory"
    )
}
