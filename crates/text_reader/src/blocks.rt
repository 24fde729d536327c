//! Lines of scripts are read: calls, message calls, and beginnings of blocks.
ghost use Rattle.std.specs.Prelude.{◌≡◌, ◌<◌, ◌^◌, ℕ, List, [], ◌∷◌, ◌++◌, All, IfOk, IsOk, IsOkUnless, IsTrue, ◌↔◌, codes, decimal};
ghost use Rattle.tracer_base.specs.declared.blocks.MessageCall.{MessageCall as AnyMessageCall};
ghost use Rattle.tracer_base.specs.declared.blocks.ScriptLine.{ScriptLine as AnyLine};
ghost use Rattle.tracer_base.specs.Blocks.{message_arguments, said_words, said_text, FitsMessage, FitsThread, FitsSaid};
ghost use Rattle.tracer_base.specs.Words.{line, IsRead};

use crate::calls;
use mach_types::Event;
use mach_types::limits::MOST_BYTES;
use std::alloc::Global;
use tracer_base::{MOST_THREADS, MessageCall, ScriptLine, TextFault, Words};

/// What the line says, which is given without its line feed.
///
/// `Bad` comes where the text is that of no call, no message call and no beginning of a block, `OutOfMemory`
/// where memory for a message is refused. Time and memory grow with the length of the text.
pub fn read_script_line(alloc: Global, text: &[u8]) -> Result<ScriptLine, TextFault>
    ensures ok { IfOk result (λ said. said_text said ≡ text.now) }
    ensures fits { IfOk result FitsSaid }
    ensures each { (said : AnyLine) → FitsSaid said → said_text said ≡ text.now → IsOkUnless result TextFault.OutOfMemory }
{
    // Long scripts are messages above all, so their keywords are looked for at once.
    match text {
        [b's', b'e', b'n', b'd', b' ', rest @ ..] => {
            let mut words = Words::of(rest);
            line_of(calls::read_send(alloc, &mut words)?, words)
        }
        [b'r', b'e', b'c', b'v', b' ', rest @ ..] => {
            let mut words = Words::of(rest);
            line_of(calls::read_recv(&mut words)?, words)
        }
        _ => read_words(alloc, text),
    }
}

/// The same, by the line's first word, whichever it is.
#[inline(never)]
fn read_words(alloc: Global, text: &[u8]) -> Result<ScriptLine, TextFault>
    ensures ok { IfOk result (λ said. said_text said ≡ text.now) }
    ensures fits { IfOk result FitsSaid }
    ensures each { (said : AnyLine) → FitsSaid said → said_text said ≡ text.now → IsOkUnless result TextFault.OutOfMemory }
{
    let mut words = Words::of(text);
    match words.keyword()? {
        "thread" => read_thread(words),
        "msg" => read_message(alloc, words),
        keyword => line_of(calls::read_arguments(alloc, keyword, &mut words)?, words),
    }
}

/// The line that says the call alone. `Bad` comes where words are left behind the call's.
#[inline(always)]
fn line_of(event: Event, words: Words<'_>) -> Result<ScriptLine, TextFault>
    ensures ok { IfOk result (λ said. (said ≡ AnyLine.Call event) × (words.entry ≡ [])) }
    ensures each { words.entry ≡ [] → IsOk result }
{
    words.end()?;
    Ok(ScriptLine::Call(event))
}

/// The beginning of the block whose number is the only word left.
fn read_thread(mut words: Words<'_>) -> Result<ScriptLine, TextFault>
    ensures ok { IfOk result (λ said. said_words said ≡ codes "thread" ∷ words.entry) }
    ensures fits { IfOk result FitsSaid }
    ensures each { (number : ℕ) → FitsThread number → decimal number ∷ [] ≡ words.entry → IsOkUnless result TextFault.OutOfMemory }
{
    let number = words.number()?;
    words.end()?;
    if is_thread_number(number) {
        Ok(ScriptLine::Thread(number))
    } else {
        Err(TextFault::Bad)
    }
}

/// Returns whether a block can have this number.
fn is_thread_number(number: u32) -> bool
    ensures { IsTrue result ↔ FitsThread number }
{
    1 <= number && number <= MOST_THREADS
}

/// The message call whose arguments are all words that are left.
fn read_message(alloc: Global, mut words: Words<'_>) -> Result<ScriptLine, TextFault>
    ensures ok { IfOk result (λ said. said_words said ≡ codes "msg" ∷ words.entry) }
    ensures fits { IfOk result FitsSaid }
    ensures each { (call : AnyMessageCall) → FitsMessage call → message_arguments call ≡ words.entry → IsOkUnless result TextFault.OutOfMemory }
{
    let call = read_arguments(alloc, &mut words)?;
    words.end()?;
    if call.room as usize <= MOST_BYTES {
        Ok(ScriptLine::Message(call))
    } else {
        Err(TextFault::Bad)
    }
}

/// The arguments of a message call, of whatever room.
fn read_arguments(alloc: Global, words: &mut Words<'_>) -> Result<MessageCall, TextFault>
    ensures ok { IfOk result (λ call. message_arguments call ++ words.new ≡ words.old) }
    ensures fits { IfOk result (λ call. (call.task < 2 ^ 32) × (call.options < 2 ^ 32) × (call.name < 2 ^ 32) × (call.room < 2 ^ 32) × All (λ byte. byte < 256) call.bytes) }
    ensures read { (call : AnyMessageCall) (behind : List (List ℕ)) → FitsMessage call → message_arguments call ++ behind ≡ words.old
        → IsRead result words.new behind }
{
    Ok(MessageCall {
        task: words.task()?,
        options: words.number()?,
        name: words.name()?,
        room: words.number()?,
        bytes: words.bytes(alloc)?,
    })
}
