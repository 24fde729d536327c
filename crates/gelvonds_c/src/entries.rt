//! The line of the last call in a history, and the line that a history begins with.
ghost use Rattle.std.specs.Prelude.{◌≡◌, ◌⊎◌};
ghost use Rattle.kernel_lock.specs.History.{entry};
ghost use Rattle.tracer.specs.Histories.{entry_line, heading};
ghost use Rattle.mach_types.specs.declared.codes.KernReturn.TheVariants.{ResourceShortage};
ghost use Rattle.mach_types.specs.Codes.{kern_number};
ghost use Rattle.gelvonds_c.specs.Recording.{IsHeadingOf, KeepsEntries, PutsLine, PutsNothing, TellsEntry, TellsHeading, TellsLast};

use crate::handle::Handle;
use gelvonds_c_base::codes::{NO_ENTRY, NO_KERNEL, SUCCESS, TOO_SHORT};
use kernel_lock::Entry;
use kernel_record::{LastCall, RecordedKernel};
use mach_types::KernReturn;
use std::alloc::Global;
use tracer::{heading_line, line};

/// Keeps each call from now on with its reply, for [`gelvonds_entry`], until the kernel ends.
///
/// Where calls are kept already nothing changes. Where the handle holds no kernel the code says so. Takes no memory.
#[unsafe(no_mangle)]
pub extern "C" fn gelvonds_keep_entries(alloc: Global, handle: &mut Handle) -> i32
    ensures { KeepsEntries handle.old.kernel result handle.new.kernel }
{
    let Some(mut kernel) = handle.take(alloc) else {
        return NO_KERNEL;
    };
    kernel.keep_calls();
    handle.put(kernel);
    SUCCESS
}

/// Writes the line that a history of the kernel's calls begins with, with its line feed, and the line's length.
///
/// Where the room is too short only the length is written. Where the handle holds no kernel nothing is. No call is
/// made, and the kernel stays. Takes no memory.
#[unsafe(no_mangle)]
pub extern "C" fn gelvonds_heading(
    alloc: Global,
    handle: &mut Handle,
    text: &mut [u8],
    length: &mut usize,
) -> i32
    ensures { TellsHeading handle.old.kernel result handle.new.kernel text.old text.new length.old length.new }
{
    let Some(kernel) = handle.take(alloc) else {
        return NO_KERNEL;
    };
    let code = put_line(heading_of(&kernel), text, length);
    handle.put(kernel);
    code
}

/// Writes the line of the last call in a history, with this caller and its line feed, and the line's length.
///
/// Where the room is too short only the length is written. Nothing is written where the handle holds no kernel,
/// where calls aren't kept or the last one was not made, and where memory for the text is refused. No call is made.
/// The kernel stays, and the last call too. Time and memory are those of the line.
#[unsafe(no_mangle)]
pub extern "C" fn gelvonds_entry(
    alloc: Global,
    handle: &mut Handle,
    caller: u64,
    text: &mut [u8],
    length: &mut usize,
) -> i32
    ensures { TellsEntry handle.old.kernel caller result handle.new.kernel text.old text.new length.old length.new }
{
    let Some(mut kernel) = handle.take(alloc) else {
        return NO_KERNEL;
    };
    let code = tell_last(alloc, &mut kernel, caller, text, length);
    handle.put(kernel);
    code
}

/// The line that a history of the kernel's calls begins with.
fn heading_of(kernel: &RecordedKernel) -> &'static [u8]
    ensures { IsHeadingOf kernel.now.kernel.tables result.now }
{
    heading_line(kernel.tables().profile())
}

/// Writes the line of the kernel's last call, where there is one, and returns the code.
fn tell_last(
    alloc: Global,
    kernel: &mut RecordedKernel,
    caller: u64,
    text: &mut [u8],
    length: &mut usize,
) -> i32
    ensures same { kernel.new ≡ kernel.old }
    ensures told { TellsLast kernel.old.last caller result text.old text.new length.old length.new }
{
    match kernel.replace_last(LastCall::NotMade) {
        LastCall::Made(event, reply) => {
            let entry = Entry {
                caller,
                event,
                reply,
            };
            let code = tell_line(alloc, &entry, text, length);
            let Entry { event, reply, .. } = entry;
            drop(kernel.replace_last(LastCall::Made(event, reply)));
            code
        }
        other => {
            drop(kernel.replace_last(other));
            NO_ENTRY
        }
    }
}

/// Writes the entry's line, and returns the code.
fn tell_line(alloc: Global, entry: &Entry, text: &mut [u8], length: &mut usize) -> i32
    ensures { PutsLine (entry_line entry.now) result text.old text.new length.new
        ⊎ PutsNothing (kern_number ResourceShortage) result text.old text.new length.old length.new }
{
    let mut told = Vec::new(alloc);
    match line(entry, &mut told) {
        Ok(()) => put_line(told.as_slice(), text, length),
        Err(_) => KernReturn::ResourceShortage.number().cast_signed(),
    }
}

/// Writes the line where there is room for it, and its length.
fn put_line(line: &[u8], text: &mut [u8], length: &mut usize) -> i32
    ensures { PutsLine line.now result text.old text.new length.new }
{
    *length = line.len();
    if line.len() > text.len() {
        return TOO_SHORT;
    }
    text[..line.len()].copy_from_slice(line);
    SUCCESS
}
