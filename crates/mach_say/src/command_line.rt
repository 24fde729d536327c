//! The command line.
use crate::job::Job;
use clap::{Arg, ArgMatches, Command, Error};
use std::alloc::{AllocError, Global};

/// What the command line asks for.
#[derive(Clone, Copy)]
pub struct Request<'a> {
    /// The job; `None` for a storyboard of a history.
    pub job: Option<Job>,
    /// The file to read; `None` for standard input.
    pub file: Option<&'a str>,
    /// The file of labels, if there is one.
    pub labels: Option<&'a str>,
}

/// A subcommand.
#[derive(Clone, Copy)]
struct Subcommand {
    name: &'static str,
    about: &'static str,
    // The help for its file.
    file: &'static str,
    // Whether it takes a file of labels.
    has_labels: bool,
}

/// The help for a storyboard.
const STORYBOARD: &str = "The storyboard; without it, standard input";

/// The subcommands.
const SUBCOMMANDS: &[Subcommand] = &[
    Subcommand {
        name: "check",
        about: "Runs a storyboard, and says whether each reply is as said",
        file: STORYBOARD,
        has_labels: false,
    },
    Subcommand {
        name: "trace",
        about: "Runs a storyboard, and prints its history",
        file: STORYBOARD,
        has_labels: false,
    },
    Subcommand {
        name: "script",
        about: "Runs a storyboard, and prints its calls as a script",
        file: STORYBOARD,
        has_labels: false,
    },
    Subcommand {
        name: "labels",
        about: "Runs a storyboard, and prints its labels for mach_show",
        file: STORYBOARD,
        has_labels: false,
    },
    Subcommand {
        name: "from",
        about: "Makes a storyboard of a history",
        file: "The history; without it, standard input",
        has_labels: true,
    },
];

/// Reads the words of the command line. The first is the program's name.
///
/// Returns clap's error if the words name no job, ask for help or the version, or if out of memory. Its kind says which,
/// and its text is what to print. Time and memory are linear in the words.
pub fn read_words<'a>(alloc: Global, words: &'a [String]) -> Result<Request<'a>, Error> {
    match matches_of(alloc, words) {
        Ok(matches) => Ok(request_of(&matches)),
        Err(error) => Err(error),
    }
}

/// Returns what the words are matched with.
fn matches_of<'a>(alloc: Global, words: &'a [String]) -> Result<ArgMatches<'a>, Error> {
    program(alloc)?.try_get_matches_from(words)
}

/// Returns what the words ask for.
fn request_of<'a>(matches: &ArgMatches<'a>) -> Request<'a> {
    match matches.subcommand() {
        Some((name, of_subcommand)) => Request {
            job: job_named(name),
            file: of_subcommand.get_str("FILE"),
            labels: labels_named(name, of_subcommand),
        },
        None => Request {
            job: Some(Job::Check),
            file: None,
            labels: None,
        },
    }
}

/// Returns the job of the subcommand of this name.
fn job_named(name: &str) -> Option<Job> {
    match name {
        "trace" => Some(Job::Trace),
        "script" => Some(Job::Script),
        "labels" => Some(Job::Labels),
        "from" => None,
        _ => Some(Job::Check),
    }
}

/// Returns the file of labels that a subcommand names.
fn labels_named<'a>(name: &str, of_subcommand: &ArgMatches<'a>) -> Option<&'a str> {
    match name {
        "from" => of_subcommand.get_str("LABELS"),
        _ => None,
    }
}

/// Makes the program's command line.
fn program<'a>(alloc: Global) -> Result<Command<'a>, AllocError> {
    let commands = commands(alloc)?;
    Command::new(alloc, "mach_say")
        .version("1.0")
        .about("Runs storyboards: protocols of Mach ports, written with names")
        .subcommand_required(true)
        .subcommands(commands)
}

/// Makes the commands of the subcommands.
fn commands<'a>(alloc: Global) -> Result<Vec<Command<'a>>, AllocError> {
    let mut commands = Vec::new(alloc);
    for subcommand in SUBCOMMANDS {
        commands.push(command_of(alloc, subcommand)?)?;
    }
    Ok(commands)
}

/// Makes the command of a subcommand.
fn command_of<'a>(alloc: Global, subcommand: &Subcommand) -> Result<Command<'a>, AllocError> {
    let command = Command::new(alloc, subcommand.name)
        .about(subcommand.about)
        .arg(Arg::new(alloc, "FILE").help(subcommand.file))?;
    if subcommand.has_labels {
        command.arg(labels_argument(alloc))
    } else {
        Ok(command)
    }
}

/// Makes the option that names a file of labels.
fn labels_argument<'a>(alloc: Global) -> Arg<'a> {
    Arg::new(alloc, "LABELS").long("labels").help(
        "A file of labels: lines 'task N WORD', or with port, set, id or caller for task",
    )
}
