//! The labels of a storyboard: what `mach_show --labels` reads.
use mach_say_play::{Actor, Board, Thing};
use mach_types::Waited;
use mach_words::{LabelFault, Labels, Text};
use std::alloc::{AllocError, Global};

/// How many letters the longest label has.
const LONGEST: usize = 24;

/// Writes the labels of tasks, threads, ports, sets and messages, one a line. The time is the square of the number of ports.
pub fn write_labels(board: &Board, out: &mut Text) {
    for actor in board.actors.as_slice() {
        write_actor(actor, out);
    }
    for thing in board.things.as_slice() {
        write_thing(board, thing, out);
    }
    for message in board.messages.as_slice() {
        out.around("id ", message.id, " ");
        out.plain(message.word.text());
        out.words("\n");
    }
}

/// Writes the label of a task or a thread.
fn write_actor(actor: &Actor, out: &mut Text) {
    match actor.caller {
        0 => out.around("task ", actor.task.number(), " "),
        caller => write_number("caller ", caller, out),
    }
    out.plain(actor.word.text());
    out.words("\n");
}

/// Writes words and a number, with a space behind them.
fn write_number(words: &str, number: u64, out: &mut Text) {
    out.words(words);
    out.number(number);
    out.words(" ");
}

/// Writes the label of a port or a set: its word, with that of its task where another has this word too. One that is
/// longer than a label can be has none.
fn write_thing(board: &Board, thing: &Thing, out: &mut Text) {
    if !is_shared(board, thing) {
        write_kind(&thing.thing, out);
        out.plain(thing.word.text());
        out.words("\n");
        return;
    }
    let Some(task) = board.task_word(thing.task) else {
        return;
    };
    if task.text().len().saturating_add(thing.word.text().len()) < LONGEST {
        write_kind(&thing.thing, out);
        out.plain(task.text());
        out.words("-");
        out.plain(thing.word.text());
        out.words("\n");
    }
}

/// Writes the number of a port or a set.
fn write_kind(thing: &Waited, out: &mut Text) {
    match thing {
        Waited::Port(port) => write_number("port ", port.number(), out),
        Waited::Set(set) => write_number("set ", set.number(), out),
    }
}

/// Whether another port or set of the same sort has the word too.
fn is_shared(board: &Board, thing: &Thing) -> bool {
    for other in board.things.as_slice() {
        if other.word.text() == thing.word.text() && is_other(&other.thing, &thing.thing) {
            return true;
        }
    }
    false
}

/// Returns the labels as a table. `AllocError` if out of memory. The time is the square of the number of ports.
pub fn make_labels(board: &Board, alloc: Global) -> Result<Labels, AllocError> {
    let mut text = Text::new(alloc);
    write_labels(board, &mut text);
    let mut labels = Labels::new(alloc);
    match enter_labels(&text, &mut labels) {
        Ok(()) => Ok(labels),
        Err(error) => Err(error),
    }
}

/// Enters the labels of the text, one a line.
fn enter_labels(text: &Text, labels: &mut Labels) -> Result<(), AllocError> {
    let lines = text.whole()?;
    for line in lines.split(|byte| *byte == b'\n') {
        if let Err(LabelFault::OutOfMemory) = labels.read_line(line) {
            return Err(AllocError);
        }
    }
    Ok(())
}

/// Whether the two are two ports or two sets, and not the same.
fn is_other(one: &Waited, other: &Waited) -> bool {
    match (one, other) {
        (Waited::Port(one), Waited::Port(other)) => one.number() != other.number(),
        (Waited::Set(one), Waited::Set(other)) => one.number() != other.number(),
        _ => false,
    }
}
