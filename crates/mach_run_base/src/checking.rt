//! Histories judged line by line, so that neither their text nor their entries take memory.
ghost use Rattle.std.specs.Prelude.{◌≡◌, ◌+◌, ◌++◌, ℕ, List, [], ◌∷◌, Option, None, IfOk, OnOk, length};
ghost use Rattle.std.specs.Io.KnownBytes.{Appends, Consumes};
ghost use Rattle.mach_types.specs.declared.profiles.Profile.{Profile as AnyProfile};
ghost use Rattle.tracer.specs.Histories.{history_text};
ghost use Rattle.kernel_lock.specs.declared.entry.Entry.{Entry as AnyEntry};
ghost use Rattle.mach_run_base.specs.declared.checking.Verdict.{Verdict as AnyVerdict};
ghost use Rattle.mach_run_base.specs.Verdicts.{HasSeen, IsTextOf, IsVerdict, verdict_line, verdict_status};

use crate::fault::Fault;
use crate::reading::{READ_AT_ONCE, next_line, skip_rest};
use kernel_core::Kernel;
use kernel_lock::Entry;
use mach_types::Profile;
use std::alloc::{AllocError, Global};
use std::io;
use std::io::{BufRead, BufReader, Read, Write};
use tracer::{behind_heading, confirm, first_line};
use tracer_base::TextFault;

/// What is told of a history.
#[derive(Clone, Copy, Debug, PartialEq, Eq)]
pub(crate) enum Verdict {
    /// The machine admits it. It has so many entries.
    Legal(u64),
    /// The entry of this number, from 1, is the first that isn't confirmed.
    NotConfirmed(u64),
    /// The line of this number, from 1, is the first that no history has there.
    BadLine(u64),
}

impl Verdict {
    /// The status that the program ends with.
    fn status(self) -> u8
        ensures { result ≡ verdict_status self }
    {
        match self {
            Verdict::Legal(_) => 0,
            Verdict::NotConfirmed(_) | Verdict::BadLine(_) => 1,
        }
    }
}

/// The entries that were seen of a history, as far as they matter for those to come.
#[derive(Drop)]
pub(crate) struct Judge {
    /// On which the calls are made anew, up to the first that isn't confirmed.
    kernel: Kernel,
    /// The number of that entry.
    unconfirmed: Option<u64>,
}

impl Judge {
    /// No entry was seen of a history of this profile. Takes no memory.
    fn new(alloc: Global, profile: Profile) -> Judge
        ensures { HasSeen profile result [] }
    {
        Judge {
            kernel: Kernel::with_profile(alloc, profile),
            unconfirmed: None,
        }
    }

    /// Sees one more entry, which has this number. An error comes where memory is refused.
    fn see(&mut self, number: u64, entry: &Entry) -> Result<(), AllocError>
        ensures { OnOk result ((profile : AnyProfile) (entries : List AnyEntry) → length entries + 1 ≡ number → HasSeen profile self.old entries → HasSeen profile self.new (entries ++ entry.now ∷ [])) }
    {
        match self.unconfirmed {
            Some(_) => Ok(()),
            None => self.see_next(number, entry),
        }
    }

    /// The same, where all entries before it are confirmed.
    fn see_next(&mut self, number: u64, entry: &Entry) -> Result<(), AllocError>
        requires { self.old.unconfirmed ≡ None }
        ensures { OnOk result ((profile : AnyProfile) (entries : List AnyEntry) → length entries + 1 ≡ number → HasSeen profile self.old entries → HasSeen profile self.new (entries ++ entry.now ∷ [])) }
    {
        if confirm(&mut self.kernel, entry)? {
            return Ok(());
        }
        self.unconfirmed = Some(number);
        Ok(())
    }

    /// What is told of a history that has ended after so many entries.
    fn verdict(&self, count: u64) -> Verdict
        ensures { (bytes : Option (List ℕ)) (profile : AnyProfile) (entries : List AnyEntry) → IsTextOf bytes profile entries → length entries ≡ count → HasSeen profile self.now entries → IsVerdict bytes result }
    {
        match self.unconfirmed {
            Some(number) => Verdict::NotConfirmed(number),
            None => Verdict::Legal(count),
        }
    }
}

/// Judges the history that the file, which has this name, holds from here on, writes the verdict as one line,
/// and returns the program's status.
///
/// Memory is taken for the kernel on which the calls are made anew, and for the longest line.
pub(crate) fn check_file<'a, R: Read, W: Write>(
    alloc: Global,
    name: &'a str,
    file: &mut R,
    out: &mut W,
) -> Result<u8, Fault<'a>>
    ensures { IfOk result (λ status. (verdict : AnyVerdict) × IsVerdict (R.remaining file.old) verdict × (verdict_status verdict ≡ status)
        × Appends (W.contents out.old) (W.contents out.new) (verdict_line verdict)) }
{
    let verdict = judge_file(alloc, name, file)?;
    write_verdict(verdict, out)?;
    out.flush()?;
    Ok(verdict.status())
}

/// The verdict on the history that the file, which has this name, holds from here on.
///
/// The file is read to its end, since a bad line, and a fault of the file, is told before an entry that isn't
/// confirmed.
fn judge_file<'a, R: Read>(alloc: Global, name: &'a str, file: &mut R) -> Result<Verdict, Fault<'a>>
    ensures { IfOk result (IsVerdict (R.remaining file.old)) }
{
    match BufReader::with_capacity(alloc, READ_AT_ONCE, file) {
        Ok(mut reader) => judge_lines(alloc, name, &mut reader),
        Err(_) => Err(Fault::OutOfMemory),
    }
}

/// The same of the lines that are left.
fn judge_lines<'a, B: BufRead>(
    alloc: Global,
    name: &'a str,
    reader: &mut B,
) -> Result<Verdict, Fault<'a>>
    ensures { IfOk result (IsVerdict (B.remaining reader.old)) }
{
    let mut line = Vec::new(alloc);
    next_line(name, reader, &mut line)?;
    let Some((profile, _)) = behind_heading(line.as_slice()) else {
        return bad_line(name, 1, reader);
    };
    let mut judge = Judge::new(alloc, profile);
    judge_entries(alloc, name, reader, &mut judge)
}

/// The same of the lines behind the heading, by a judge that has seen no entry.
///
/// It has the judge lent: each statement of a function that owns a kernel is dear to prove.
fn judge_entries<'a, B: BufRead>(
    alloc: Global,
    name: &'a str,
    reader: &mut B,
    judge: &mut Judge,
) -> Result<Verdict, Fault<'a>>
    ensures { (whole : Option (List ℕ)) (profile : AnyProfile) → HasSeen profile judge.old [] → Consumes whole (B.remaining reader.old) (history_text profile [])
        → IfOk result (IsVerdict whole) }
{
    let mut line = Vec::new(alloc);
    for number in 1..u64::MAX - 1 {
        if next_line(name, reader, &mut line)? == 0 {
            return Ok(judge.verdict(number - 1));
        }
        match first_line(alloc, line.as_slice()) {
            Ok((entry, _)) => judge.see(number, &entry)?,
            Err(TextFault::Bad) => return bad_line(name, number + 1, reader),
            Err(TextFault::OutOfMemory) => return Err(Fault::OutOfMemory),
        }
    }
    Err(Fault::CannotRead(name))
}

/// That the line of this number is bad, unless what stands behind it can't be read.
fn bad_line<'a, B: BufRead>(
    name: &'a str,
    number: u64,
    reader: &mut B,
) -> Result<Verdict, Fault<'a>>
    ensures { IfOk result (λ verdict. verdict ≡ Verdict.BadLine number) }
{
    skip_rest(name, reader)?;
    Ok(Verdict::BadLine(number))
}

/// Writes the verdict's line.
fn write_verdict<W: Write>(verdict: Verdict, out: &mut W) -> io::Result<()>
    ensures { OnOk result (Appends (W.contents out.old) (W.contents out.new) (verdict_line verdict)) }
{
    match verdict {
        Verdict::Legal(count) => writeln!(out, "legal {count}"),
        Verdict::NotConfirmed(number) => writeln!(out, "not confirmed at {number}"),
        Verdict::BadLine(number) => writeln!(out, "bad line {number}"),
    }
}
