//! Calls are written.
ghost use Rattle.std.specs.Prelude.{[], ◌∷◌, ◌++◌, OnOk, codes, decimal};
ghost use Rattle.std.specs.Fmt.{signed_decimal};
ghost use Rattle.std.specs.Io.KnownBytes.{Appends};
ghost use Rattle.tracer_base.specs.Calls.{call_text};
ghost use Rattle.tracer_base.specs.Text.{bytes_text, flag_text, waited_words};
ghost use Rattle.tracer_base.specs.Words.{line};

use crate::hexadecimal::write_bytes;
use mach_types::{Event, Name, TaskId, Waited};
use std::io;
use std::io::Write;

/// Writes the call, without a line feed.
///
/// An error is that of `out`; what was written before it stays. Time grows with the length of the
/// text; no memory is taken.
pub fn write_call<W: Write>(event: &Event, out: &mut W) -> io::Result<()>
    ensures { OnOk result (Appends (W.contents out.old) (W.contents out.new) (call_text event.now)) }
{
    match event {
        Event::TaskCreate => write!(out, "task"),
        Event::TaskTerminate(task) => write!(out, "end {}", task.number()),
        Event::Allocate(task, right) => write!(out, "alloc {} {right}", task.number()),
        Event::AllocateName(task, right, name) => write_allocate_name(*task, *right, *name, out),
        Event::Deallocate(task, name) => write_name("dealloc", *task, *name, out),
        Event::Destroy(task, name) => write_name("destroy", *task, *name, out),
        Event::ModRefs(task, name, right, delta) => write_delta(*task, *name, *right, *delta, out),
        Event::GetRefs(task, name, right) => write_number("refs", *task, *name, *right, out),
        Event::NameType(task, name) => write_name("type", *task, *name, out),
        Event::Names(task) => write!(out, "names {}", task.number()),
        Event::Rename(task, old, new) => write_names("rename", *task, *old, *new, out),
        Event::ReceiveStatus(task, name) => write_name("status", *task, *name, out),
        Event::SetQlimit(task, name, limit) => write_number("qlimit", *task, *name, *limit, out),
        Event::SetMscount(task, name, count) => write_number("mscount", *task, *name, *count, out),
        Event::SetSeqno(task, name, next) => write_number("seqno", *task, *name, *next, out),
        Event::InsertRight(task, name, from, poly, disposition) => {
            write_name("insert", *task, *name, out)?;
            write!(out, " {} {} {disposition}", from.number(), poly.number())
        }
        Event::ExtractRight(task, name, how, to) => write_extract(*task, *name, *how, *to, out),
        Event::RequestNotification(task, name, variant, sync, notify, disposition) => {
            write_number("notify", *task, *name, *variant, out)?;
            write!(out, " {sync} {} {disposition}", notify.number())
        }
        Event::MoveMember(task, name, set) => write_names("move", *task, *name, *set, out),
        Event::InsertMember(task, name, set) => write_names("insmember", *task, *name, *set, out),
        Event::ExtractMember(task, name, set) => write_names("exmember", *task, *name, *set, out),
        Event::SetStatus(task, name) => write_name("members", *task, *name, out),
        Event::Send(task, bytes) => write_send(*task, bytes.as_slice(), out),
        Event::Receive(task, name, room, large) => write_receive(*task, *name, *room, *large, out),
        Event::ReceiveAgain(task, waited, room, large) => {
            write_again(*task, waited, *room, out)?;
            write_flag(*large, out)
        }
    }
}

/// Writes the keyword, a task and a name. Errors are as for [`write_call`].
fn write_name<W: Write>(keyword: &str, task: TaskId, name: Name, out: &mut W) -> io::Result<()>
    ensures { OnOk result (Appends (W.contents out.old) (W.contents out.new) (line (keyword.now ∷ decimal task ∷ decimal name ∷ []))) }
{
    write!(out, "{keyword} {} {}", task.number(), name.number())
}

/// Writes the keyword, a task and two names. Errors are as for [`write_call`].
fn write_names<W: Write>(
    keyword: &str,
    task: TaskId,
    name: Name,
    other: Name,
    out: &mut W,
) -> io::Result<()>
    ensures { OnOk result (Appends (W.contents out.old) (W.contents out.new)
        (line (keyword.now ∷ decimal task ∷ decimal name ∷ decimal other ∷ []))) }
{
    write_number(keyword, task, name, other.number(), out)
}

/// Writes the keyword, a task, a name and a number. Errors are as for [`write_call`].
fn write_number<W: Write>(
    keyword: &str,
    task: TaskId,
    name: Name,
    number: u32,
    out: &mut W,
) -> io::Result<()>
    ensures { OnOk result (Appends (W.contents out.old) (W.contents out.new)
        (line (keyword.now ∷ decimal task ∷ decimal name ∷ decimal number ∷ []))) }
{
    let (task, name) = (task.number(), name.number());
    write!(out, "{keyword} {task} {name} {number}")
}

/// Writes `allocname`, a task, the number of a right and a name. Errors are as for [`write_call`].
fn write_allocate_name<W: Write>(
    task: TaskId,
    right: u32,
    name: Name,
    out: &mut W,
) -> io::Result<()>
    ensures { OnOk result (Appends (W.contents out.old) (W.contents out.new)
        (line (codes "allocname" ∷ decimal task ∷ decimal right ∷ decimal name ∷ []))) }
{
    write!(out, "allocname {} {right} {}", task.number(), name.number())
}

/// Writes `modrefs`, a task, a name, the number of a right, and how many references more. Errors are as for
/// [`write_call`].
fn write_delta<W: Write>(
    task: TaskId,
    name: Name,
    right: u32,
    delta: i32,
    out: &mut W,
) -> io::Result<()>
    ensures { OnOk result (Appends (W.contents out.old) (W.contents out.new)
        (line (codes "modrefs" ∷ decimal task ∷ decimal name ∷ decimal right ∷ signed_decimal delta ∷ []))) }
{
    write_number("modrefs", task, name, right, out)?;
    write!(out, " {delta}")
}

/// Writes `extract`, a task, a name, the number of a disposition, and a task. Errors are as for [`write_call`].
fn write_extract<W: Write>(
    task: TaskId,
    name: Name,
    disposition: u32,
    to: TaskId,
    out: &mut W,
) -> io::Result<()>
    ensures { OnOk result (Appends (W.contents out.old) (W.contents out.new)
        (line (codes "extract" ∷ decimal task ∷ decimal name ∷ decimal disposition ∷ decimal to ∷ []))) }
{
    write_number("extract", task, name, disposition, out)?;
    write!(out, " {}", to.number())
}

/// Writes `send`, a task and a message's bytes. Errors are as for [`write_call`].
fn write_send<W: Write>(task: TaskId, bytes: &[u8], out: &mut W) -> io::Result<()>
    ensures { OnOk result (Appends (W.contents out.old) (W.contents out.new)
        (line (codes "send" ∷ decimal task ∷ bytes_text bytes.now ∷ []))) }
{
    write!(out, "send {} ", task.number())?;
    write_bytes(bytes, out)
}

/// Writes `recv`, a task, a name, the room, and whether a longer message stays. Errors are as for [`write_call`].
fn write_receive<W: Write>(
    task: TaskId,
    name: Name,
    room: u32,
    large: bool,
    out: &mut W,
) -> io::Result<()>
    ensures { OnOk result (Appends (W.contents out.old) (W.contents out.new)
        (line (codes "recv" ∷ decimal task ∷ decimal name ∷ decimal room ∷ flag_text large ∷ []))) }
{
    write_number("recv", task, name, room, out)?;
    write_flag(large, out)
}

/// Writes `again`, a task, what it waits for, and the room. Errors are as for [`write_call`].
fn write_again<W: Write>(task: TaskId, waited: &Waited, room: u32, out: &mut W) -> io::Result<()>
    ensures { OnOk result (Appends (W.contents out.old) (W.contents out.new)
        (line (codes "again" ∷ decimal task ∷ (waited_words waited.now ++ decimal room ∷ [])))) }
{
    match waited {
        Waited::Port(port) => write!(out, "again {} p {} {room}", task.number(), port.number()),
        Waited::Set(set) => write!(out, "again {} s {} {room}", task.number(), set.number()),
    }
}

/// Writes a space, and then a yes as `1` and a no as `0`. Errors are as for [`write_call`].
fn write_flag<W: Write>(flag: bool, out: &mut W) -> io::Result<()>
    ensures { OnOk result (Appends (W.contents out.old) (W.contents out.new) (32 ∷ flag_text flag)) }
{
    out.write_all(if flag { b" 1" } else { b" 0" })
}
