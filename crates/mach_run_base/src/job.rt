//! The jobs of the program, over any reader and writers.
ghost use Rattle.std.specs.Prelude.{◌≡◌, ◌≢◌, ◌≤◌, ℕ, true, List, map, All, Some, Ok, IfOk, IsErr, OnOk};
ghost use Rattle.std.specs.Io.KnownBytes.{Appends, Keeps};
ghost use Rattle.kernel_lock.specs.declared.entry.Entry.{Entry as AnyEntry};
ghost use Rattle.kernel_lock.specs.History.{Legal};
ghost use Rattle.mach_run_base.specs.Enrolling.{AreWhole, pass_of};
ghost use Rattle.mach_run_base.specs.Jobs.{IsBad, IsDone, IsMade, IsMadeOf, IsHistory, history_shown, head_shown, entry_shown};
ghost use Rattle.mach_run_base.specs.Scripts.{IsFirstBadLine};

use crate::checking::check_file;
use crate::fault::{Fault, report};
use crate::reading::read_script;
use crate::running::{Callers, run_script, show_all, with_passes};
use crate::script::Script;
use kernel_lock::{Entry, Shared};
use log::LevelFilter;
use mach_types::Profile;
use std::alloc::Global;
use std::io;
use std::io::{Read, Write};
use std::sync::Wait;
use std::thread::Threads;
use tracer::{heading_line, level, line};

/// What the program can do.
#[derive(Clone, Copy, Debug, PartialEq, Eq)]
pub enum Job {
    /// Runs a script, and prints how each of its calls was answered.
    Run {
        /// The kernel's profile.
        profile: Profile,
    },
    /// Runs a script, and prints its history.
    Trace {
        /// The kernel's profile.
        profile: Profile,
        /// Whether only those entries are printed whose call was refused or found nothing.
        warn: bool,
    },
    /// Judges a history, and prints the verdict.
    Check,
}

/// What is shown of a script that was run.
#[derive(Clone, Copy, Debug, PartialEq, Eq)]
pub(crate) enum Shown {
    /// How each of its calls was answered.
    Replies {
        /// The kernel's profile.
        profile: Profile,
    },
    /// Its history.
    History {
        /// The kernel's profile.
        profile: Profile,
        /// Whether only those entries are shown whose call was refused or found nothing.
        warn: bool,
    },
}

/// Does the job on the file of this name, and returns the program's status. It is 0 where the job is done,
/// and 1 where a fault stopped it or the history that it checks isn't legal.
///
/// What the job makes goes to `out`. A fault is one line on `err`:
/// - `cannot read NAME`: `file` can't be read.
/// - `line N: bad call`: this is the first line of a script that is no call.
/// - `out of memory`: memory is refused.
/// - `cannot start thread`: a thread is refused.
/// - `cannot write`: `out` refuses what is written.
///
/// A whole script is read before anything runs, and after a fault of the first two kinds nothing was written
/// to `out`. So ends each script that has a bad line. A trace that another fault stops writes the history of
/// the calls that were made by then. A call that can't be recorded is a fault of memory; a message call whose
/// try isn't recorded says so by its code.
///
/// A history is read entry by entry. It is judged as [`tracer::read_history`] and then [`tracer::check`]
/// would judge the whole. `out` gets the line `legal N` for one of N entries, or `bad line N`, or, where it
/// has no bad line, `not confirmed at N`. Time grows with the length of the file and the cost of its calls.
/// May wait, where the script has message calls that wait or blocks.
pub fn perform<S: Threads + Wait + Sync, R: Read, W: Write, E: Write>(
    rt: &S,
    alloc: Global,
    job: Job,
    name: &str,
    file: &mut R,
    out: &mut W,
    err: &mut E,
) -> u8
    ensures status { result ≤ 1 }
    ensures done { result ≡ 0 → (text : List ℕ) × IsDone job (R.remaining file.old) text × Appends (W.contents out.old) (W.contents out.new) text }
    ensures bad { (bytes : List ℕ) (n : ℕ) → R.remaining file.old ≡ Some bytes → IsBad job bytes n
        → (result ≡ 1) × (job ≢ Job.Check → Keeps (W.contents out.old) (W.contents out.new)) }
{
    match start(rt, alloc, job, name, file, out) {
        Ok(status) => status,
        Err(fault) => report(fault, err),
    }
}

/// Does the job, and returns the status. Faults are as for [`perform`].
fn start<'a, S: Threads + Wait + Sync, R: Read, W: Write>(
    rt: &S,
    alloc: Global,
    job: Job,
    name: &'a str,
    file: &mut R,
    out: &mut W,
) -> Result<u8, Fault<'a>>
    ensures status { IfOk result (λ status. status ≤ 1) }
    ensures done { result ≡ Ok 0 → (text : List ℕ) × IsDone job (R.remaining file.old) text × Appends (W.contents out.old) (W.contents out.new) text }
    ensures bad { (bytes : List ℕ) (n : ℕ) → R.remaining file.old ≡ Some bytes → IsBad job bytes n
        → (result ≢ Ok 0) × (job ≢ Job.Check → Keeps (W.contents out.old) (W.contents out.new)) }
{
    match job {
        Job::Run { profile } => run_file(rt, alloc, Shown::Replies { profile }, name, file, out),
        Job::Trace { profile, warn } => {
            run_file(rt, alloc, Shown::History { profile, warn }, name, file, out)
        }
        Job::Check => check_file(alloc, name, file, out),
    }
}

/// Reads a script, runs it and writes what is to be shown of it; the status is 0. Faults are as for [`perform`].
fn run_file<'a, S: Threads + Wait + Sync, R: Read, W: Write>(
    rt: &S,
    alloc: Global,
    shown: Shown,
    name: &'a str,
    file: &mut R,
    out: &mut W,
) -> Result<u8, Fault<'a>>
    ensures status { IfOk result (λ status. status ≡ 0) }
    ensures done { OnOk result ((text : List ℕ) × IsMadeOf shown (R.remaining file.old) text × Appends (W.contents out.old) (W.contents out.new) text) }
    ensures bad { (bytes : List ℕ) (n : ℕ) → R.remaining file.old ≡ Some bytes → IsFirstBadLine bytes n
        → IsErr result × Keeps (W.contents out.old) (W.contents out.new) }
{
    let script = read_script(alloc, name, file)?;
    make(rt, alloc, shown, script, out)?;
    out.flush()?;
    Ok(0)
}

/// Runs the script, and writes what is to be shown of it. Faults are those of [`perform`] that come after the
/// file was read.
fn make<S: Threads + Wait + Sync, W: Write>(
    rt: &S,
    alloc: Global,
    shown: Shown,
    script: Script,
    out: &mut W,
) -> Result<(), Fault<'static>>
    ensures { OnOk result ((text : List ℕ) × IsMade shown script text × Appends (W.contents out.old) (W.contents out.new) text) }
{
    match shown {
        Shown::Replies { profile } => answer_script(rt, alloc, profile, script, out),
        Shown::History { profile, warn } => {
            let shared = Shared::with_profile(alloc, profile)?;
            trace_script(rt, alloc, &shared, script, Layout { profile, warn }, out)
        }
    }
}

/// Runs the script, and writes how its calls were answered. No history's entries are kept, so each call is recorded.
fn answer_script<S: Threads + Wait + Sync, W: Write>(
    rt: &S,
    alloc: Global,
    profile: Profile,
    script: Script,
    out: &mut W,
) -> Result<(), Fault<'static>>
    ensures { OnOk result ((text : List ℕ) × IsMade (Shown.Replies profile) script text × Appends (W.contents out.old) (W.contents out.new) text) }
{
    let shared = Shared::with_profile_without_entries(alloc, profile)?;
    run_script(rt, alloc, &shared, script, out)?;
    Ok(())
}

/// How a history is written.
#[derive(Clone, Copy)]
struct Layout {
    // By which profile it is.
    profile: Profile,
    // Whether only those entries are written whose call was refused or found nothing.
    warn: bool,
}

/// Runs the script on the new kernel without a word, and then writes the history; even where a fault has
/// stopped the script, which stays the fault.
fn trace_script<S: Threads + Wait + Sync, W: Write>(
    rt: &S,
    alloc: Global,
    shared: &Shared,
    script: Script,
    layout: Layout,
    out: &mut W,
) -> Result<(), Fault<'static>>
    requires { (shared.now.keeps ≡ true) × (shared.now.profile ≡ layout.profile) }
    ensures { OnOk result ((text : List ℕ) × IsHistory layout.profile layout.warn script text × Appends (W.contents out.old) (W.contents out.new) text) }
{
    match run_script(rt, alloc, shared, script, &mut io::sink()) {
        Ok(callers) => write_whole(rt, shared, callers, layout, out),
        Err(fault) => {
            write_history(shared.lock(rt).entries(), layout, out)?;
            Err(fault)
        }
    }
}

/// Writes the history when all of these callers' calls were made, and nobody else makes any.
fn write_whole<S: Wait, W: Write>(
    rt: &S,
    shared: &Shared,
    callers: Callers,
    layout: Layout,
    out: &mut W,
) -> Result<(), Fault<'static>>
    requires { (callers.main.table ≡ shared.now.table) × All (λ one. one.0.table ≡ shared.now.table) callers.blocks.items }
    ensures { shared.now.keeps ≡ true → OnOk result ((log : List AnyEntry) × Legal shared.now.profile log × AreWhole log callers.main (map pass_of callers.blocks.items)
        × Appends (W.contents out.old) (W.contents out.new) (history_shown layout.profile layout.warn log)) }
{
    let Callers { mut main, blocks } = callers;
    let mut held = with_passes(rt, shared, blocks.len() as u64 + 1);
    held.show(shared.board(), &mut main);
    show_all(shared, &mut held, blocks);
    write_history(held.entries(), layout, out)?;
    Ok(())
}

/// Writes a history, entries that are no warnings too unless `warn` is set, and then without its first line.
fn write_history<W: Write>(entries: &[Entry], layout: Layout, out: &mut W) -> io::Result<()>
    ensures { OnOk result (Appends (W.contents out.old) (W.contents out.new) (history_shown layout.profile layout.warn entries.now)) }
{
    write_head(layout, out)?;
    for entry in entries {
        write_entry(entry, layout.warn, out)?;
    }
    Ok(())
}

/// Writes the first line of a history, but not of its warnings alone.
fn write_head<W: Write>(layout: Layout, out: &mut W) -> io::Result<()>
    ensures { OnOk result (Appends (W.contents out.old) (W.contents out.new) (head_shown layout.profile layout.warn)) }
{
    if layout.warn {
        return Ok(());
    }
    out.write_all(heading_line(layout.profile))
}

/// Writes an entry, or nothing where warnings alone are to be written and it is none.
fn write_entry<W: Write>(entry: &Entry, warn: bool, out: &mut W) -> io::Result<()>
    ensures { OnOk result (Appends (W.contents out.old) (W.contents out.new) (entry_shown warn entry.now)) }
{
    let least = if warn {
        LevelFilter::Warn
    } else {
        LevelFilter::Info
    };
    if least.allows(level(entry)) {
        line(entry, out)
    } else {
        Ok(())
    }
}
