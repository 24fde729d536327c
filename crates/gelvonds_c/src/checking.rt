//! Whether a history's text is legal.
ghost use Rattle.std.specs.Prelude.{◌≡◌, ◌⊎◌, IfSome};
ghost use Rattle.gelvonds_c.specs.Checking.{IsVerdict, Judges};

use gelvonds_c_base::codes::SUCCESS;
use mach_types::KernReturn;
use std::alloc::Global;
use tracer::{CheckFault, HistoryFault, check, read_history};

const LEGAL: u32 = 1;

const BAD_LINE: u32 = 2;

const NOT_CONFIRMED: u32 = 3;

/// The verdict on a history's text.
#[repr(C)]
#[derive(Clone, Copy)]
pub struct Verdict {
    /// How many entries a legal history has; else the number of the line or of the entry, from 1.
    pub number: u64,
    /// 1 for a legal history, 2 for a bad line, 3 for an entry that isn't confirmed.
    pub kind: u32,
}

/// Judges the text of a history: its heading, and a line for each call.
///
/// The verdict is that of `tracer::read_history` and then of `tracer::check`, which makes the calls anew. Where memory
/// is refused the code says so, and no verdict is written. Uses no handle. Time and memory are those of the text, of the calls and of
/// their kernel.
#[unsafe(no_mangle)]
pub extern "C" fn gelvonds_check(alloc: Global, text: &[u8], verdict: &mut Verdict) -> i32
    ensures { Judges text.now result verdict.old verdict.new }
{
    match judge(alloc, text) {
        Some(found) => {
            *verdict = found;
            SUCCESS
        }
        None => KernReturn::ResourceShortage.number().cast_signed(),
    }
}

/// The verdict, or `None` where memory is refused.
fn judge(alloc: Global, text: &[u8]) -> Option<Verdict>
    ensures { IfSome result (IsVerdict text.now) }
{
    let history = match read_history(alloc, text) {
        Ok(history) => history,
        Err(HistoryFault::BadLine(number)) => return Some(verdict_of(BAD_LINE, number)),
        Err(HistoryFault::Memory) => return None,
    };
    match check(alloc, &history) {
        Ok(legal) => Some(verdict_of(LEGAL, legal.len() as u64)),
        Err(CheckFault::NotConfirmed(number)) => Some(verdict_of(NOT_CONFIRMED, number)),
        Err(CheckFault::Memory) => None,
    }
}

/// A verdict of this kind.
fn verdict_of(kind: u32, number: u64) -> Verdict
    ensures kind { result.kind ≡ kind }
    ensures number { result.number ≡ number }
{
    Verdict { number, kind }
}
