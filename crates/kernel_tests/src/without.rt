//! Calls that take no memory, made where all memory is refused.
use crate::judging::{Fault, Verdict};
use crate::refusing::{is_asked, refuse, refuse_all};
use crate::sweeping::memory_code;
use kernel_core::Kernel;
use kernel_lock::Entry;
use mach_types::{Event, Reply};
use std::alloc::Global;
use tracer::History;

/// Plays the row, with all memory refused at each call that takes none. Counts these calls.
pub fn play_without(alloc: Global, row: &History) -> Verdict {
    let mut kernel = Kernel::with_profile(alloc, row.profile());
    play_on(alloc, &mut kernel, row.entries())
}

/// The same, on this kernel.
fn play_on(alloc: Global, kernel: &mut Kernel, row: &[Entry]) -> Verdict {
    let mut made = 0usize;
    for entry in row {
        let takes_none = memory_code(&entry.event).is_none();
        if let Err(fault) = make(alloc, kernel, entry, takes_none) {
            return Verdict::failed(made, fault);
        }
        made = made.saturating_add(usize::from(takes_none));
    }
    Verdict::passed(made)
}

/// Makes one call, where all memory is refused if it takes none: it is to be answered as its entry says.
fn make(alloc: Global, kernel: &mut Kernel, entry: &Entry, takes_none: bool) -> Result<(), Fault> {
    let (reply, asks) = if takes_none {
        step_without(alloc, kernel, &entry.event)
    } else {
        (kernel.step(&entry.event), false)
    };
    if reply != entry.reply {
        Err(Fault::OtherReply)
    } else if asks {
        Err(Fault::Asks)
    } else {
        Ok(())
    }
}

/// Makes one call where all memory is refused. Returns its reply, and whether it asked for memory.
fn step_without(alloc: Global, kernel: &mut Kernel, event: &Event) -> (Reply, bool) {
    refuse_all(alloc);
    let reply = kernel.step(event);
    let asks = is_asked(alloc, 1);
    refuse(alloc, 0);
    (reply, asks)
}
