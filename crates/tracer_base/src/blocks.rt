//! The lines of scripts: calls, message calls, and beginnings of blocks; and how message calls are answered.
ghost use Rattle.std.specs.Prelude.{[], ◌∷◌, OnOk, codes, decimal};
ghost use Rattle.std.specs.Io.KnownBytes.{Appends};
ghost use Rattle.tracer_base.specs.Blocks.{thread_line, received_text, outcome_line};
ghost use Rattle.tracer_base.specs.Text.{code_text};
ghost use Rattle.tracer_base.specs.Words.{line};

use crate::hexadecimal::write_bytes;
use crate::replies::write_code;
use mach_types::{Bytes, Event, Name, TaskId};
use std::io;
use std::io::Write;

/// The greatest number of a block.
pub const MOST_THREADS: u32 = 64;

/// The arguments of a message call (IPC Interface, `mach_msg`).
#[derive(Debug, Drop)]
pub struct MessageCall {
    /// The caller's task.
    pub task: TaskId,
    /// The options, added up.
    pub options: u32,
    /// What is received from.
    pub name: Name,
    /// The length of the buffer in bytes, at most 65,536.
    pub room: u32,
    /// The message to send.
    pub bytes: Bytes,
}

/// What a line of a script says.
#[derive(Debug, Drop)]
pub enum ScriptLine {
    /// A call of the kernel.
    Call(Event),
    /// A message call.
    Message(MessageCall),
    /// The beginning of a block of calls, with its number, from 1 to 64.
    Thread(u32),
}

/// Writes the beginning of a block, and a line feed.
///
/// An error is that of `out`; what was written before it stays.
pub fn write_thread_line<W: Write>(number: u32, out: &mut W) -> io::Result<()>
    ensures { OnOk result (Appends (W.contents out.old) (W.contents out.new) (thread_line number)) }
{
    writeln!(out, "thread {number}")
}

/// Writes how a message call was answered: its code, its length, the bytes where it received any, and a line
/// feed. Errors are as for [`write_thread_line`].
pub fn write_outcome_line<W: Write>(
    code: u32,
    length: u32,
    received: &[u8],
    out: &mut W,
) -> io::Result<()>
    ensures { OnOk result (Appends (W.contents out.old) (W.contents out.new) (outcome_line code length received.now)) }
{
    write_outcome(code, length, out)?;
    write_received(received, out)?;
    out.write_all(b"\n")
}

/// Writes `msg`, the code and the length.
fn write_outcome<W: Write>(code: u32, length: u32, out: &mut W) -> io::Result<()>
    ensures { OnOk result (Appends (W.contents out.old) (W.contents out.new) (line (codes "msg" ∷ code_text code ∷ decimal length ∷ []))) }
{
    write_code(b"msg ", code, out)?;
    write!(out, " {length}")
}

/// Writes the bytes behind a space, and nothing where there are none.
fn write_received<W: Write>(received: &[u8], out: &mut W) -> io::Result<()>
    ensures { OnOk result (Appends (W.contents out.old) (W.contents out.new) (received_text received.now)) }
{
    match received {
        [] => Ok(()),
        _ => {
            out.write_all(b" ")?;
            write_bytes(received, out)
        }
    }
}
