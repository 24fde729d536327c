//! Rows, played on a kernel by itself or on one behind its lock.
ghost use Rattle.std.specs.Prelude.{◌≡◌};

use crate::judging::Fault;
use kernel_core::Kernel;
use kernel_lock::{Entry, Pass, Shared, Watch};
use mach_types::{Event, Profile, Reply};
use std::alloc::{AllocError, Global};
use std::sync::Wait;

/// By which call a row is played.
#[derive(Clone, Copy, PartialEq, Eq)]
pub enum Side {
    /// `Kernel::step`.
    Step,
    /// `Held::step_locked`.
    Locked,
}

/// Two kernels, one by itself and one behind its lock, of which one is played on.
#[derive(Drop)]
pub struct Tried {
    side: Side,
    kernel: Kernel,
    shared: Shared,
    pass: Pass,
    watch: Watch,
    ghost tied: { (pass.table ≡ shared.table) × (watch.table ≡ shared.table) },
}

impl Tried {
    /// Kernels of this profile, in which nothing was made yet.
    pub fn new<R: AllocGlobal + Wait>(
        rt: &R,
        side: Side,
        profile: Profile,
    ) -> Result<Tried, AllocError> {
        let shared = Shared::with_profile(rt.alloc(), profile)?;
        let pass = shared.pass(rt)?;
        let watch = shared.watch(rt);
        Ok(Tried {
            side,
            kernel: Kernel::with_profile(rt.alloc(), profile),
            shared,
            pass,
            watch,
        })
    }

    /// Makes one call.
    pub fn make<R: Wait>(&mut self, rt: &R, event: Event) -> Reply {
        match self.side {
            Side::Step => self.kernel.step(&event),
            Side::Locked => {
                let mut held = self.shared.lock(rt);
                held.step_locked(self.shared.board(), &mut self.pass, event)
            }
        }
    }

    /// Returns whether the history has so many entries, and the board shows that number. Always so of a
    /// kernel by itself.
    pub fn has_recorded<R: Wait>(&mut self, rt: &R, calls: usize) -> bool {
        match self.side {
            Side::Step => true,
            Side::Locked => {
                let shown = self.shared.board().events(&mut self.watch);
                let held = self.shared.lock(rt);
                let counted = held.events();
                let kept = held.entries().len();
                kept == calls && shown == calls as u64 && counted == shown
            }
        }
    }
}

/// How many calls were answered as in the row, and the reply that came next, if it was another.
#[derive(Drop)]
pub struct Played {
    /// How many.
    pub made: usize,
    /// The other reply.
    pub other: Option<Reply>,
}

/// Makes these calls, as long as each is answered as its entry says. Takes no memory of its own.
pub fn play<R: Wait>(rt: &R, kernel: &mut Tried, entries: Vec<Entry>) -> Played {
    let mut made = 0usize;
    for entry in entries {
        let Entry {
            event,
            reply: wanted,
            ..
        } = entry;
        let reply = kernel.make(rt, event);
        if reply != wanted {
            return Played {
                made,
                other: Some(reply),
            };
        }
        made = made.saturating_add(1);
    }
    Played { made, other: None }
}

/// Copies of these entries.
pub fn copies(alloc: Global, entries: &[Entry]) -> Result<Vec<Entry>, Fault> {
    let mut copies = Vec::with_capacity(alloc, entries.len())?;
    for entry in entries {
        copies.push(entry.clone()?)?;
    }
    Ok(copies)
}

/// Copies of the entries before this one.
pub fn copies_before(alloc: Global, row: &[Entry], at: usize) -> Result<Vec<Entry>, Fault> {
    copies(alloc, row.get(..at).unwrap_or(row))
}

/// Copies of this entry and those behind it.
pub fn copies_from(alloc: Global, row: &[Entry], at: usize) -> Result<Vec<Entry>, Fault> {
    copies(alloc, row.get(at..).unwrap_or(row))
}
