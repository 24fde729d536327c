//! The jobs of the program.
ghost use Rattle.std.specs.Prelude.{◌≡◌, ◌≤◌};

use crate::state::show_state;
use mach_picture::Scheme;
use mach_show_base::{
    Done, Fault, Filter, Kind, Output, READ_AT_ONCE, Shown, lint_text, report, show_history,
    show_whole,
};
use mach_show_pictures::{Style, show_chart, show_page, show_picture};
use mach_words::Labels;
use std::alloc::Global;
use std::io::{BufReader, Read, Write};
use std::rt::Stderr;

/// What the program does.
#[derive(Clone, Copy)]
pub enum Job<'a> {
    /// Shows the entries of a history that the filter lets through, with what became of each message.
    Text(Filter),
    /// Shows each of these entries before the next is waited for. What becomes of a message is shown where it comes.
    Live(Filter),
    /// Draws these entries.
    Chart(Filter, Style<'a>),
    /// Shows the state after the entry of this number.
    State(u64),
    /// Draws the state after the entry of this number, in these colours.
    Picture(u64, Scheme),
    /// Writes a page of these entries, with this title.
    Page(Filter, Option<&'a str>),
    /// Lists the bad lines of a text of this kind. Without a kind the first line decides.
    Lint(Option<Kind>),
}

/// A job, the name of its file, and labels.
#[derive(Clone, Copy)]
pub struct Work<'a> {
    /// The job.
    pub job: Job<'a>,
    /// The name of the file, for faults.
    pub name: &'a str,
    /// The labels.
    pub labels: &'a Labels,
}

/// Does the job on its file, and returns the program's status: 0 if it is done and no line is bad, otherwise 1.
///
/// The text goes to `out`. A fault goes to `err`, as a line: `cannot read NAME` and why, `bad line N` for the first line that
/// is no entry, `not confirmed at N` for the first entry to which the kernel replies otherwise, `cannot write`,
/// `out of memory`. A closed output is a fault without a line. What was written before stays. If no entry is shown, a line
/// of `err` says so.
///
/// `Live` takes the time and memory of a kernel that makes the history's calls, and memory for names and queued messages.
/// `Text` makes the calls twice, and takes memory for the text and for each message too.
/// `Chart`, `State` and `Picture` make the calls once. They take memory for the chart, the text or the picture too.
/// `Page` makes them twice, and takes memory for the history, the chart and the page.
/// `lint` is linear in the text, and takes memory for its longest line.
pub fn perform<R: Read>(
    alloc: Global,
    work: &Work<'_>,
    file: &mut R,
    out: &mut Output,
    err: &mut Stderr,
) -> u8
    ensures status { result ≤ 1 }
{
    match start(alloc, work, file, out) {
        Ok(Done::Well) => 0,
        Ok(Done::BadLines) => 1,
        Ok(Done::Unseen(entries)) => report_unseen(entries, err),
        Err(fault) => stop(fault, out, err),
    }
}

/// Does the job, and returns how it ended. Faults are those of [`perform`].
fn start<'a, R: Read>(
    alloc: Global,
    work: &Work<'a>,
    file: &mut R,
    out: &mut Output,
) -> Result<Done, Fault<'a>> {
    let mut line = Vec::new(alloc);
    match BufReader::with_capacity(alloc, READ_AT_ONCE, file) {
        Ok(mut reader) => read_all(alloc, work, &mut reader, &mut line, out),
        Err(_) => Err(Fault::OutOfMemory),
    }
}

/// Does the job on what the reader has, and flushes the output.
fn read_all<'a, R: Read>(
    alloc: Global,
    work: &Work<'a>,
    reader: &mut BufReader<&mut R>,
    line: &mut Vec<u8>,
    out: &mut Output,
) -> Result<Done, Fault<'a>> {
    let Work { job, name, labels } = *work;
    let shown = Shown {
        name,
        alloc,
        filter: filter_of(job),
        labels,
        ends: None,
    };
    let done = match job {
        Job::Text(_) => show_whole(&shown, reader, line, out)?,
        Job::Live(_) => show_history(&shown, reader, line, out)?,
        Job::Chart(_, style) => show_chart(&shown, &style, reader, line, out)?,
        Job::State(number) => show_state(&shown, number, reader, line, out)?,
        Job::Picture(number, scheme) => {
            show_picture(&shown, (number, scheme), reader, line, out)?
        }
        Job::Page(_, title) => show_page(&shown, title, reader, line, out)?,
        Job::Lint(kind) => lint_text(alloc, (name, kind), reader, line, out)?,
    };
    out.flush()?;
    Ok(done)
}

/// Returns the job's filter.
fn filter_of(job: Job<'_>) -> Filter {
    match job {
        Job::Text(filter) | Job::Live(filter) | Job::Chart(filter, _) | Job::Page(filter, _) =>
            filter,
        Job::State(_) | Job::Picture(..) | Job::Lint(_) => Filter::all(),
    }
}

/// Writes that none of so many entries is shown, and returns the status. An error of `err` is ignored.
fn report_unseen(entries: u64, err: &mut Stderr) -> u8
    ensures { result ≡ 0 }
{
    let _ = match entries {
        0 => err.write_all(b"no entry is shown: the history has none\n"),
        1 => err.write_all(b"no entry is shown: entry 1 is not what the options ask for\n"),
        _ => writeln!(
            err,
            "no entry is shown: none of entries 1 to {entries} is what the options ask for"
        ),
    };
    0
}

/// Flushes the output, writes the fault, and returns the status.
fn stop(fault: Fault<'_>, out: &mut Output, err: &mut Stderr) -> u8
    ensures { result ≡ 1 }
{
    let _ = out.flush();
    report(fault, err)
}
