//! The jobs of the program.
ghost use Rattle.std.specs.Prelude.{◌≡◌, ◌≤◌, ℕ, List, [], OnOk, flat_map};
ghost use Rattle.std.specs.Io.KnownBytes.{Appends};
ghost use Rattle.mach_say.specs.Jobs.{IsDone, Prints, script_line};

use kernel_lock::Entry;
use mach_say_base::{File, write_labels, write_stop};
use mach_say_play::{Play, Stop, profile_of};
use mach_say_syntax::{Storyboard, read_storyboard};
use mach_show_base::{Fault, fault_of, report};
use mach_words::Text;
use std::alloc::Global;
use std::io;
use std::io::{Read, Write};
use std::rt::Stderr;
use tracer::write_history;
use tracer_base::write_call;

/// What the program does with a storyboard.
#[derive(Clone, Copy)]
pub enum Job {
    /// Runs it, and prints how many calls it makes.
    Check,
    /// Runs it, and prints its history.
    Trace,
    /// Runs it, and prints its calls as a script.
    Script,
    /// Runs it, and prints its labels.
    Labels,
}

/// Does the job on the storyboard in the file of this name, and returns the program's status: 0 if each reply is what the
/// storyboard says, otherwise 1.
///
/// What the job makes goes to `out`, and only if the status is 0. A fault goes to `err`, as a line: `cannot read NAME` and
/// why, `NAME: line N, column M: ` and why for the first statement that can't be read or whose reply isn't what it says,
/// `cannot write`, `out of memory`. A closed output is a fault without a line.
///
/// Takes the time and memory of a kernel that makes the calls, and memory for the text, the history and the words. Each
/// word is looked up in time linear in the words.
pub fn perform<R: Read, W: Write>(
    alloc: Global,
    job: Job,
    name: &str,
    file: &mut R,
    out: &mut W,
    err: &mut Stderr,
) -> u8
    ensures status { result ≤ 1 }
    ensures done { result ≡ 0 → (text : List ℕ) × IsDone job text × Appends (W.contents out.old) (W.contents out.new) text }
{
    let mut text = Vec::new(alloc);
    match file.read_to_end(&mut text) {
        Ok(_) => {
            let text = text.as_slice();
            perform_text(alloc, job, &File { name, text }, out, err)
        }
        Err(error) => report(fault_of(name, &error), err),
    }
}

/// Does the job on the text of a file. It owns the statements and the kernel, and does nothing else: each way out of a function
/// drops what it owns, and is proved.
fn perform_text<W: Write>(
    alloc: Global,
    job: Job,
    file: &File<'_>,
    out: &mut W,
    err: &mut Stderr,
) -> u8
    ensures status { result ≤ 1 }
    ensures done { result ≡ 0 → (text : List ℕ) × IsDone job text × Appends (W.contents out.old) (W.contents out.new) text }
{
    let storyboard = read_storyboard(alloc, file.text);
    let mut play = Play::new(alloc, profile_of(&storyboard));
    run_on(&mut play, job, file, &storyboard, out, err)
}

/// Runs the storyboard on a kernel on which no call was made, writes what the job makes, and returns the status.
fn run_on<W: Write>(
    play: &mut Play,
    job: Job,
    file: &File<'_>,
    storyboard: &Storyboard<'_>,
    out: &mut W,
    err: &mut Stderr,
) -> u8
    requires unused { play.now.stage.entries ≡ [] }
    ensures status { result ≤ 1 }
    ensures done { result ≡ 0 → (text : List ℕ) × IsDone job text × Appends (W.contents out.old) (W.contents out.new) text }
{
    match play.run(storyboard) {
        Ok(()) => finish(play, job, out, err),
        Err(stop) => tell_stop(play, storyboard, file, &stop, err),
    }
}

/// Writes what the job makes of a storyboard that was run, and returns the status.
fn finish<W: Write>(play: &Play, job: Job, out: &mut W, err: &mut Stderr) -> u8
    ensures status { result ≤ 1 }
    ensures done { result ≡ 0 → (text : List ℕ) × Prints job play.now.stage.profile play.now.stage.entries text × Appends (W.contents out.old) (W.contents out.new) text }
{
    match write_job(play, job, out) {
        Ok(()) => 0,
        Err(error) => report(Fault::from(error), err),
    }
}

/// Writes the fault that ended the storyboard to `err`, and returns the status.
fn tell_stop(
    play: &Play,
    storyboard: &Storyboard<'_>,
    file: &File<'_>,
    stop: &Stop,
    err: &mut Stderr,
) -> u8
    ensures { result ≡ 1 }
{
    let mut text = Text::new(play.alloc);
    write_stop(play, storyboard, file, stop, &mut text);
    tell(&text, err)
}

/// Writes the fault of a statement to `err`, and returns the status. An error of `err` is ignored.
fn tell(text: &Text, err: &mut Stderr) -> u8
    ensures { result ≡ 1 }
{
    match text.whole() {
        Ok(line) => {
            let _ = err.write_all(line);
            1
        }
        Err(_) => report(Fault::OutOfMemory, err),
    }
}

/// Writes what the job makes of a storyboard that was run, and flushes the output.
fn write_job<W: Write>(play: &Play, job: Job, out: &mut W) -> io::Result<()>
    ensures { OnOk result ((text : List ℕ) × Prints job play.now.stage.profile play.now.stage.entries text × Appends (W.contents out.old) (W.contents out.new) text) }
{
    write_output(play, job, out)?;
    out.flush()?;
    Ok(())
}

/// Writes what the job makes of a storyboard that was run.
fn write_output<W: Write>(play: &Play, job: Job, out: &mut W) -> io::Result<()>
    ensures { OnOk result ((text : List ℕ) × Prints job play.now.stage.profile play.now.stage.entries text × Appends (W.contents out.old) (W.contents out.new) text) }
{
    let entries = play.stage.entries();
    match job {
        Job::Check => write_count(play, out),
        Job::Trace => write_history(play.stage.profile(), entries, out),
        Job::Script => write_script(entries, out),
        Job::Labels => write_all_labels(play, out),
    }
}

/// Writes how many calls the storyboard made.
fn write_count<W: Write>(play: &Play, out: &mut W) -> io::Result<()>
    ensures { OnOk result ((text : List ℕ) × Appends (W.contents out.old) (W.contents out.new) text) }
{
    let mut text = Text::new(play.alloc);
    text.number(play.stage.entries().len() as u64);
    text.words(" calls, as said\n");
    write_text(&text, out)
}

/// Writes the labels of the storyboard's words.
fn write_all_labels<W: Write>(play: &Play, out: &mut W) -> io::Result<()>
    ensures { OnOk result ((text : List ℕ) × Appends (W.contents out.old) (W.contents out.new) text) }
{
    let mut text = Text::new(play.alloc);
    write_labels(&play.board, &mut text);
    write_text(&text, out)
}

/// Writes the text. Out of memory if it isn't whole.
fn write_text<W: Write>(text: &Text, out: &mut W) -> io::Result<()>
    ensures { OnOk result ((text : List ℕ) × Appends (W.contents out.old) (W.contents out.new) text) }
{
    out.write_all(text.whole()?)
}

/// Writes the calls of the entries, one a line.
fn write_script<W: Write>(entries: &[Entry], out: &mut W) -> io::Result<()>
    ensures { OnOk result (Appends (W.contents out.old) (W.contents out.new) (flat_map script_line entries.now)) }
{
    for entry in entries {
        write_line(entry, out)?;
    }
    Ok(())
}

/// Writes the entry's call, as a line.
fn write_line<W: Write>(entry: &Entry, out: &mut W) -> io::Result<()>
    ensures { OnOk result (Appends (W.contents out.old) (W.contents out.new) (script_line entry.now)) }
{
    write_call(&entry.event, out)?;
    out.write_all(b"\n")
}
