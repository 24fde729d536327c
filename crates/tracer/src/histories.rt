//! Whole histories.
ghost use Rattle.std.specs.Prelude.{◌≡◌, ℕ, List, ◌++◌, ◌↔◌, All, IfOk, IfSome, IfNone, IsOkUnless, IsTrue, OnOk, Err, length, []};
ghost use Rattle.std.specs.Io.KnownBytes.{Appends};
ghost use Rattle.mach_types.specs.declared.profiles.Profile.{Profile as AnyProfile};
ghost use Rattle.kernel_lock.specs.declared.entry.Entry.{Entry as AnyEntry};
ghost use Rattle.tracer.specs.declared.histories.HistoryFault.TheVariants.{Memory};
ghost use Rattle.tracer.specs.Histories.{heading, entry_line, history_text, FitsLine, HasNoHeading, StartsNoEntry, IsFirstBadLine};

use crate::lines::{first_line, line};
use kernel_lock::Entry;
use mach_types::Profile;
use std::alloc::{AllocFailed, Global};
use std::io;
use std::io::Write;
use std::marker::Model;
use thiserror::Error;
use tracer_base::TextFault;

/// Why a history was not read.
#[derive(Clone, Copy, Debug, PartialEq, Eq, Error)]
pub enum HistoryFault {
    /// The line of this number, from 1, is the first that no history has there, or the text ends before its
    /// line feed.
    #[error("bad line {0}")]
    BadLine(u64),
    /// Memory was refused.
    #[error("out of memory")]
    Memory,
}

impl<T: Drop> From<AllocFailed<T>> for HistoryFault {
    ghost from_gives = { λ _ fault. fault ≡ Memory };

    fn from(_error: AllocFailed<T>) -> HistoryFault {
        HistoryFault::Memory
    }
}

/// A history: by which profile, and its entries, in their order.
#[derive(Debug, Drop)]
pub struct History {
    profile: Profile,
    entries: Vec<Entry>,
}

impl Model for History {
    ghost use Rattle.tracer.specs.Histories.{HistoryView};

    ghost Value = { HistoryView };

    ghost view = { λ a. record { profile = a.profile; entries = a.entries.items } };
}

impl History {
    /// By which profile it is.
    pub fn profile(&self) -> Profile
        ensures profile { result ≡ self.now.profile }
    {
        self.profile
    }

    /// How many entries it has.
    pub fn len(&self) -> usize
        ensures { result ≡ length self.now.entries }
    {
        self.entries.len()
    }

    /// Returns whether it has none.
    pub fn is_empty(&self) -> bool
        ensures { IsTrue result ↔ (self.now.entries ≡ []) }
    {
        self.entries.is_empty()
    }

    /// Its entries, to read.
    pub fn entries(&self) -> &[Entry]
        ensures { result.now ≡ self.now.entries }
    {
        self.entries.as_slice()
    }

    /// Its entries, given away. Takes no memory.
    pub fn into_vec(self) -> Vec<Entry>
        ensures { result.items ≡ self.entries }
    {
        let History { entries, .. } = self;
        entries
    }
}

/// Reads the history that the text is.
///
/// `BadLine` comes at the first line that no history has there, or that ends without its line feed, and only
/// where there is such a line. For a text without any line, or of no profile, it is `BadLine(1)`. `Memory` comes where memory is refused. Time and memory grow with the length of the text.
pub fn read_history(alloc: Global, text: &[u8]) -> Result<History, HistoryFault>
    ensures fits { IfOk result (λ history. All FitsLine history.entries) }
    ensures ok { IfOk result (λ history. history_text history.profile history.entries ≡ text.now) }
    ensures each { (profile : AnyProfile) (entries : List AnyEntry) → All FitsLine entries → history_text profile entries ≡ text.now → IsOkUnless result Memory }
    ensures same { (profile : AnyProfile) (entries : List AnyEntry) → All FitsLine entries → history_text profile entries ≡ text.now
        → IfOk result (λ history. (history.profile ≡ profile) × (history.entries ≡ entries)) }
    ensures bad { (n : ℕ) → result ≡ Err (HistoryFault.BadLine n) → IsFirstBadLine text.now n }
{
    let Some((profile, mut rest)) = behind_heading(text) else {
        return Err(HistoryFault::BadLine(1));
    };
    let mut entries = Vec::new(alloc);
    while !rest.is_empty() {
        let number = entries.len() as u64 + 2;
        let (entry, others) = numbered_line(alloc, rest, number)?;
        entries.push(entry)?;
        rest = others;
    }
    Ok(History { profile, entries })
}

/// The line that a history of this profile begins with, with its line feed.
pub fn heading_line(profile: Profile) -> &'static [u8]
    ensures { result.now ≡ heading profile }
{
    match profile {
        Profile::One => b"mach-history 1\n",
        Profile::Two => b"mach-history 2\n",
        Profile::Three => b"mach-history 3\n",
    }
}

/// Returns the profile that the first line of a history names, and what follows that line. `None` where the
/// text begins with no such line.
pub fn behind_heading(text: &[u8]) -> Option<(Profile, &[u8])>
    ensures some { IfSome result (λ read. heading read.0 ++ read.1.now ≡ text.now) }
    ensures none { IfNone result (HasNoHeading text.now) }
{
    if let Some(rest) = text.strip_prefix(heading_line(Profile::One)) {
        return Some((Profile::One, rest));
    }
    if let Some(rest) = text.strip_prefix(heading_line(Profile::Two)) {
        return Some((Profile::Two, rest));
    }
    let rest = text.strip_prefix(heading_line(Profile::Three))?;
    Some((Profile::Three, rest))
}

/// The entry of the first line, which has this number, and what stands behind its line feed.
fn numbered_line(alloc: Global, text: &[u8], number: u64) -> Result<(Entry, &[u8]), HistoryFault>
    ensures fits { IfOk result (λ read. FitsLine read.0) }
    ensures ok { IfOk result (λ read. entry_line read.0 ++ read.1.now ≡ text.now) }
    ensures bad { (n : ℕ) → result ≡ Err (HistoryFault.BadLine n) → (n ≡ number) × StartsNoEntry text.now }
{
    match first_line(alloc, text) {
        Ok(read) => Ok(read),
        Err(TextFault::Bad) => Err(HistoryFault::BadLine(number)),
        Err(TextFault::OutOfMemory) => Err(HistoryFault::Memory),
    }
}

/// Writes the history of these entries by this profile: the line that it begins with, and one line an entry.
///
/// An error is that of `out`; what was written before it stays. Time grows with the length of the text;
/// no memory is taken.
pub fn write_history<W: Write>(profile: Profile, entries: &[Entry], out: &mut W) -> io::Result<()>
    ensures { OnOk result (Appends (W.contents out.old) (W.contents out.new) (history_text profile entries.now)) }
{
    out.write_all(heading_line(profile))?;
    for entry in entries {
        line(entry, out)?;
    }
    Ok(())
}
