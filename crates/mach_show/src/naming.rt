//! The task and the port that the command line names.
use crate::command_line::Request;
use crate::job::Job;
use mach_show_base::{Fault, Filter};
use mach_words::Labels;
use tracer_base::Words;

/// Returns the request's job, with the task and the port that its words name.
///
/// A word is looked up among the labels first. Returns `NoTask` or `NoPort` for a word that is no label and no number.
/// Linear in the labels; takes no memory.
pub fn job_of<'a>(request: &Request<'a>, labels: &Labels) -> Result<Job<'a>, Fault<'a>> {
    match request.job {
        Job::Text(filter) => Ok(Job::Text(with_names(filter, request, labels)?)),
        Job::Live(filter) => Ok(Job::Live(with_names(filter, request, labels)?)),
        Job::Chart(filter, style) => Ok(Job::Chart(with_names(filter, request, labels)?, style)),
        Job::State(number) => Ok(Job::State(number)),
        Job::Picture(number, scheme) => Ok(Job::Picture(number, scheme)),
        Job::Page(filter, title) => Ok(Job::Page(filter, title)),
        Job::Lint(kind) => Ok(Job::Lint(kind)),
    }
}

/// Returns the filter with the task and the port that the request's words name.
fn with_names<'a>(
    mut filter: Filter,
    request: &Request<'a>,
    labels: &Labels,
) -> Result<Filter, Fault<'a>> {
    if let Some(word) = request.task {
        filter.task = task_of(word, labels);
        if filter.task.is_none() {
            return Err(Fault::NoTask(word));
        }
    }
    if let Some(word) = request.port {
        filter.port = port_of(word, labels);
        if filter.port.is_none() {
            return Err(Fault::NoPort(word));
        }
    }
    Ok(filter)
}

/// Returns the number of the task that the word names: a label, a number, or `T` and a number.
fn task_of(word: &str, labels: &Labels) -> Option<u64> {
    match labels.task_named(word.as_bytes()) {
        Some(number) => Some(number),
        None => number_behind(b'T', word.as_bytes()),
    }
}

/// Returns the identity of the port that the word names: a label, an identity, or `p` and an identity.
fn port_of(word: &str, labels: &Labels) -> Option<u64> {
    match labels.port_named(word.as_bytes()) {
        Some(identity) => Some(identity),
        None => number_behind(b'p', word.as_bytes()),
    }
}

/// Returns the number that the word is. It may have the letter before it.
fn number_behind(letter: u8, word: &[u8]) -> Option<u64> {
    match word {
        [first, digits @ ..] if *first == letter => whole_number(digits),
        _ => whole_number(word),
    }
}

/// Returns the number that the digits are.
fn whole_number(digits: &[u8]) -> Option<u64> {
    let mut words = Words::of(digits);
    let Ok(number) = words.identity() else {
        return None;
    };
    if words.end().is_err() {
        return None;
    }
    Some(number)
}
