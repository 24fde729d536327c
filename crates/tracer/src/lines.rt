//! Entries as lines.
ghost use Rattle.std.specs.Prelude.{◌≡◌, ◌≢◌, ℕ, List, [], ◌∷◌, ◌++◌, codes, IfOk, IsOkUnless, OnOk, Err};
ghost use Rattle.std.specs.Io.KnownBytes.{Appends};
ghost use Rattle.mach_types.specs.declared.calls.Reply.{Reply as AnyReply};
ghost use Rattle.kernel_lock.specs.declared.entry.Entry.{Entry as AnyEntry};
ghost use Rattle.tracer_base.specs.Words.{IsRead};
ghost use Rattle.tracer.specs.Histories.{entry_words, entry_text, entry_line, FitsLine, StartsNoEntry};

use kernel_lock::Entry;
use mach_types::Reply;
use std::alloc::Global;
use std::io;
use std::io::Write;
use text_reader::{next_call, next_reply};
use tracer_base::{TextFault, Words, split_once, write_call, write_reply_line};

/// Writes the entry as a line of a history: its caller, its call, `->` and its reply, each after one space,
/// and a line feed.
///
/// An error is that of `out`; what was written before it stays. Time grows with the length of the line;
/// no memory is taken.
pub fn line<W: Write>(entry: &Entry, out: &mut W) -> io::Result<()>
    ensures { OnOk result (Appends (W.contents out.old) (W.contents out.new) (entry_line entry.now)) }
{
    write!(out, "{} ", entry.caller)?;
    write_call(&entry.event, out)?;
    out.write_all(b" -> ")?;
    write_reply_line(&entry.reply, out)
}

/// The entry whose line the text begins with, and what stands behind its line feed.
///
/// `Bad` comes where no entry's line stands there, and `OutOfMemory` where memory for a message's bytes or
/// for names is refused. Time and memory grow with the length of the line.
pub fn first_line(alloc: Global, text: &[u8]) -> Result<(Entry, &[u8]), TextFault>
    ensures fits { IfOk result (λ read. FitsLine read.0) }
    ensures ok { IfOk result (λ read. entry_line read.0 ++ read.1.now ≡ text.now) }
    ensures same { (entry : AnyEntry) (rest : List ℕ) → FitsLine entry → entry_line entry ++ rest ≡ text.now → IfOk result (λ read. (read.0 ≡ entry) × (read.1.now ≡ rest)) }
    ensures bad { result ≡ Err TextFault.Bad → StartsNoEntry text.now }
{
    let Some((line, rest)) = split_once(text, b'\n') else {
        return Err(TextFault::Bad);
    };
    Ok((read_entry(alloc, line)?, rest))
}

/// The entry that a line without its line feed says. Faults are as for [`first_line`].
fn read_entry(alloc: Global, text: &[u8]) -> Result<Entry, TextFault>
    ensures fits { IfOk result FitsLine }
    ensures ok { IfOk result (λ entry. entry_text entry ≡ text.now) }
    ensures each { (entry : AnyEntry) → FitsLine entry → entry_text entry ≡ text.now → IsOkUnless result TextFault.OutOfMemory }
{
    let mut words = Words::of(text);
    let entry = next_entry(alloc, &mut words)?;
    words.end()?;
    Ok(entry)
}

/// The entry that the words say. Faults are as for [`first_line`].
fn next_entry(alloc: Global, words: &mut Words<'_>) -> Result<Entry, TextFault>
    ensures fits { IfOk result FitsLine }
    ensures ok { IfOk result (λ entry. entry_words entry ++ words.new ≡ words.old) }
    ensures read { (entry : AnyEntry) → FitsLine entry → entry_words entry ≡ words.old → IsRead result words.new [] }
{
    let caller = words.identity()?;
    let event = next_call(alloc, words)?;
    skip_arrow(words)?;
    let reply = recorded(next_reply(alloc, words)?)?;
    Ok(Entry {
        caller,
        event,
        reply,
    })
}

/// Goes over the next word, where it is the arrow between a call and its reply; else it is `Bad`.
fn skip_arrow(words: &mut Words<'_>) -> Result<(), TextFault>
    ensures ok { IfOk result (λ _. codes "->" ∷ words.new ≡ words.old) }
    ensures read { (behind : List (List ℕ)) → codes "->" ∷ behind ≡ words.old → IsRead result words.new behind }
{
    match words.word()? {
        b"->" => Ok(()),
        _ => Err(TextFault::Bad),
    }
}

/// The reply, where a history may have it: `Bad` comes for that of a call that could not be recorded.
fn recorded(reply: Reply) -> Result<Reply, TextFault>
    ensures same { IfOk result (λ kept. kept ≡ reply) }
    ensures recorded { IfOk result (λ kept. kept ≢ AnyReply.NoRecord) }
    ensures each { reply ≢ AnyReply.NoRecord → IsOkUnless result TextFault.OutOfMemory }
{
    match reply {
        Reply::NoRecord => Err(TextFault::Bad),
        _ => Ok(reply),
    }
}
