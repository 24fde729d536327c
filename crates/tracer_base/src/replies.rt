//! Replies are written.
ghost use Rattle.std.specs.Prelude.{◌≡◌, ◌<◌, ◌≤◌, length, IsTrue, ◌↔◌, ◌∷◌, ◌++◌, OnOk, codes, decimal, flat_map};
ghost use Rattle.std.specs.Io.KnownBytes.{Appends};
ghost use Rattle.mach_types.specs.declared.calls.Reply.{Reply as AnyReply};
ghost use Rattle.tracer_base.specs.Replies.{typed_name_text, reply_text, reply_line};
ghost use Rattle.tracer_base.specs.Text.{code_text};

use crate::hexadecimal::{BLOCK, LINE, four_digits, push_digits, write_bytes};
use arrayvec::ArrayVec;
use mach_types::{Name, NameList, NameTypes, Reply, Status, Waited};
use std::io;
use std::io::Write;

/// Writes the reply, without a line feed.
///
/// An error is that of `out`; what was written before it stays. Time grows with the length of the
/// text; no memory is taken.
#[inline(never)]
pub fn write_reply<W: Write>(reply: &Reply, out: &mut W) -> io::Result<()>
    ensures { OnOk result (Appends (W.contents out.old) (W.contents out.new) (reply_text reply.now)) }
{
    match reply {
        Reply::Code(code) => write_code(b"code ", *code, out),
        Reply::Task(task) => write!(out, "task {}", task.number()),
        Reply::Name(name) => write!(out, "name {}", name.number()),
        Reply::Refs(count) => write!(out, "refs {count}"),
        Reply::NameType(bits) => write_code(b"type ", *bits, out),
        Reply::Names(names) => write_names(names, out),
        Reply::Status(status) => write_status(status, out),
        Reply::Members(members) => write_members(members, out),
        Reply::Right(name, kind) => write!(out, "right {} {kind}", name.number()),
        Reply::Previous(name) => write!(out, "previous {}", name.number()),
        Reply::Message(bytes) => {
            out.write_all(b"message ")?;
            write_bytes(bytes.as_slice(), out)
        }
        Reply::Empty(waited) => write_empty(waited, out),
        Reply::TooLarge(length) => write!(out, "toolarge {length}"),
        Reply::NoRecord => write!(out, "norecord"),
    }
}

/// Writes the reply, and a line feed. Errors and cost are as for [`write_reply`].
#[inline(always)]
pub fn write_reply_line<W: Write>(reply: &Reply, out: &mut W) -> io::Result<()>
    ensures { OnOk result (Appends (W.contents out.old) (W.contents out.new) (reply_line reply.now)) }
{
    match reply {
        Reply::Code(code) => out.write_all(&code_line(*code)),
        Reply::Message(bytes) if is_short(bytes.as_slice()) => {
            out.write_all(short_line(bytes.as_slice()).as_slice())
        }
        _ => {
            write_reply(reply, out)?;
            out.write_all(b"\n")
        }
    }
}

/// The line of a reply that is a code.
#[inline(always)]
fn code_line(code: u32) -> [u8; 14]
    ensures { result ≡ reply_line (AnyReply.Code code) }
{
    let [a, b, c, d, e, f, g, h] = four_digits(code.to_be_bytes());
    [b'c', b'o', b'd', b'e', b' ', a, b, c, d, e, f, g, h, b'\n']
}

/// Returns whether there are bytes, and no more than a block.
fn is_short(bytes: &[u8]) -> bool
    ensures { IsTrue result ↔ (0 < length bytes.now) × (length bytes.now ≤ 32) }
{
    0 < bytes.len() && bytes.len() <= BLOCK
}

/// The line of a reply that is a message of one block at most.
#[inline(always)]
fn short_line(bytes: &[u8]) -> ArrayVec<u8, LINE>
    requires some { 0 < length bytes.now }
    requires short { length bytes.now ≤ 32 }
    ensures { result.items ≡ reply_line (AnyReply.Message bytes.now) }
{
    let mut line = ArrayVec::new();
    let Ok(()) = line.try_extend_from_slice(b"message ") else {
        unreachable!()
    };
    push_digits(bytes, &mut line);
    line.push(b'\n');
    line
}

/// Writes the text, and then the code as eight digits.
pub(crate) fn write_code<W: Write>(text: &[u8], code: u32, out: &mut W) -> io::Result<()>
    ensures { OnOk result (Appends (W.contents out.old) (W.contents out.new) (text.now ++ code_text code)) }
{
    out.write_all(text)?;
    out.write_all(&four_digits(code.to_be_bytes()))
}

/// Writes `names`, and each name with its type.
fn write_names<W: Write>(names: &NameTypes, out: &mut W) -> io::Result<()>
    ensures { OnOk result (Appends (W.contents out.old) (W.contents out.new)
        (codes "names" ++ flat_map (λ entry. 32 ∷ typed_name_text entry) names.now)) }
{
    out.write_all(b"names")?;
    for (name, bits) in names.as_slice() {
        write_typed_name(*name, *bits, out)?;
    }
    Ok(())
}

/// Writes a name, behind a space, and its type.
fn write_typed_name<W: Write>(name: Name, bits: u32, out: &mut W) -> io::Result<()>
    ensures { OnOk result (Appends (W.contents out.old) (W.contents out.new) (32 ∷ typed_name_text (name, bits))) }
{
    write!(out, " {}", name.number())?;
    write_code(b":", bits, out)
}

/// Writes `members`, and each name.
fn write_members<W: Write>(members: &NameList, out: &mut W) -> io::Result<()>
    ensures { OnOk result (Appends (W.contents out.old) (W.contents out.new)
        (codes "members" ++ flat_map (λ name. 32 ∷ decimal name) members.now)) }
{
    out.write_all(b"members")?;
    for name in members.as_slice() {
        write!(out, " {}", name.number())?;
    }
    Ok(())
}

/// Writes `status` and the nine numbers.
fn write_status<W: Write>(status: &Status, out: &mut W) -> io::Result<()>
    ensures { OnOk result (Appends (W.contents out.old) (W.contents out.new) (reply_text (AnyReply.Status status.now))) }
{
    let Status {
        set,
        sequence,
        make_send,
        limit,
        queued,
        send_once,
        has_send,
        port_destroyed,
        no_senders,
    } = *status;
    write!(out, "status {} {sequence} {make_send}", set.number())?;
    write!(
        out,
        " {limit} {queued} {send_once} {has_send} {port_destroyed} {no_senders}"
    )
}

/// Writes `empty`, and what was waited for: `p` and a port, or `s` and a set.
fn write_empty<W: Write>(waited: &Waited, out: &mut W) -> io::Result<()>
    ensures { OnOk result (Appends (W.contents out.old) (W.contents out.new) (reply_text (AnyReply.Empty waited.now))) }
{
    match waited {
        Waited::Port(port) => write!(out, "empty p {}", port.number()),
        Waited::Set(set) => write!(out, "empty s {}", set.number()),
    }
}
