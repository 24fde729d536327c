//! Scripts are read: calls, one a line.
ghost use Rattle.std.specs.Prelude.{◌≡◌, ℕ, List, ◌++◌, All, IfOk, IsOkUnless, Err, flat_map};
ghost use Rattle.mach_types.specs.declared.calls.Event.{Event as AnyEvent};
ghost use Rattle.text_reader.specs.declared.script.ScriptFault.TheVariants.{OutOfMemory};
ghost use Rattle.tracer_base.specs.Calls.{Fits, line_text, StartsNoCall, IsFirstBadLine};

use crate::calls::read_call;
use mach_types::Event;
use std::alloc::{AllocFailed, Global};
use thiserror::Error;
use tracer_base::{TextFault, split_once};

/// Why a script was not read.
#[derive(Clone, Copy, Debug, PartialEq, Eq, Error)]
pub enum ScriptFault {
    /// The line of this number, from 1, is no call, or the script ends before its line feed.
    #[error("line {0}: bad call")]
    BadCall(u64),
    /// Memory was refused.
    #[error("out of memory")]
    OutOfMemory,
}

impl<T: Drop> From<AllocFailed<T>> for ScriptFault {
    ghost from_gives = { λ _ fault. fault ≡ OutOfMemory };

    fn from(_error: AllocFailed<T>) -> ScriptFault {
        ScriptFault::OutOfMemory
    }
}

/// The calls of a script, in its order. Each line is one call and ends in a line feed.
///
/// `BadCall` comes at the first line that is no call, or that ends without its line feed, and only
/// where there is such a line. Time and memory grow with the length of the text.
pub fn read_script(alloc: Global, text: &[u8]) -> Result<Vec<Event>, ScriptFault>
    ensures ok { IfOk result (λ events. All Fits events.items × (flat_map line_text events.items ≡ text.now)) }
    ensures each { (events : List AnyEvent) → All Fits events → flat_map line_text events ≡ text.now → IsOkUnless result OutOfMemory }
    ensures bad { (n : ℕ) → result ≡ Err (ScriptFault.BadCall n) → IsFirstBadLine text.now n }
{
    let mut events = Vec::new(alloc);
    let mut rest = text;
    while !rest.is_empty() {
        let number = events.len() as u64 + 1;
        let (event, others) = read_line(alloc, rest, number)?;
        events.push(event)?;
        rest = others;
    }
    Ok(events)
}

/// The call of the first line, which has this number, and what stands behind its line feed.
fn read_line(alloc: Global, text: &[u8], number: u64) -> Result<(Event, &[u8]), ScriptFault>
    ensures ok { IfOk result (λ read. Fits read.0 × (line_text read.0 ++ read.1.now ≡ text.now)) }
    ensures bad { (n : ℕ) → result ≡ Err (ScriptFault.BadCall n) → (n ≡ number) × StartsNoCall text.now }
{
    let Some((line, rest)) = split_once(text, b'\n') else {
        return Err(ScriptFault::BadCall(number));
    };
    match read_call(alloc, line) {
        Ok(event) => Ok((event, rest)),
        Err(TextFault::Bad) => Err(ScriptFault::BadCall(number)),
        Err(TextFault::OutOfMemory) => Err(ScriptFault::OutOfMemory),
    }
}
