//! Storyboards that were run, as histories with labels.
use crate::labels::make_labels;
use crate::report::{File, write_stop};
use mach_say_play::{Play, profile_of};
use mach_say_syntax::{Storyboard, read_storyboard};
use mach_words::{Labels, Text};
use std::alloc::Global;
use tracer::write_history;

/// The history of a storyboard that was run, as text, and its labels.
#[derive(Drop)]
pub struct Recorded {
    pub history: Vec<u8>,
    pub labels: Labels,
}

/// Runs the storyboard in the file. Returns its fault, as a line, if a statement can't be read or made, if a reply isn't what
/// is said, or if out of memory.
///
/// Takes the time and memory of a kernel that makes the calls, and memory for the history as text.
pub fn record(alloc: Global, file: &File<'_>) -> Result<Recorded, Text> {
    let storyboard = read_storyboard(alloc, file.text);
    let mut play = Play::new(alloc, profile_of(&storyboard));
    record_on(&mut play, &storyboard, file)
}

/// The same, on a kernel on which no call was made.
fn record_on(
    play: &mut Play,
    storyboard: &Storyboard<'_>,
    file: &File<'_>,
) -> Result<Recorded, Text> {
    let mut text = Text::new(play.alloc);
    match play.run(storyboard) {
        Ok(()) => history_of(play, text),
        Err(stop) => {
            write_stop(play, storyboard, file, &stop, &mut text);
            Err(text)
        }
    }
}

/// Returns the history and the labels. If out of memory, returns the text with this fault.
fn history_of(play: &Play, mut fault: Text) -> Result<Recorded, Text> {
    let mut history = Vec::new(play.alloc);
    let written = write_history(play.stage.profile(), play.stage.entries(), &mut history);
    match make_labels(&play.board, play.alloc) {
        Ok(labels) if written.is_ok() => Ok(Recorded { history, labels }),
        _ => {
            fault.words("out of memory\n");
            Err(fault)
        }
    }
}
