//! The words of the command line, and the job that they name ([`read_words`]).

use clap::{Arg, ArgAction, ArgMatches, Command, Error};
use mach_run_base::Job;
use mach_types::Profile;
use std::alloc::{AllocError, Global};

const CALLS: &str = "\
    A script has one call a line: its word, and its arguments, each after one space.\n  \
    task                          makes a task; T, FROM and TO are tasks, from 0\n  \
    end T                         ends the task, with all its names\n  \
    alloc T RIGHT                 RIGHT 0: send, 1: receive, 2: send-once, 3: port set, 4: dead name\n  \
    allocname T RIGHT NAME\n  \
    dealloc T NAME\n  \
    destroy T NAME\n  \
    modrefs T NAME RIGHT DELTA    DELTA references more, or fewer with -\n  \
    refs T NAME RIGHT\n  \
    type T NAME\n  \
    names T\n  \
    rename T OLD NEW\n  \
    insert T NAME FROM POLY DISP  DISP 16, 17, 18: move receive, send, send-once;\n  \
    extract T NAME DISP TO        19: copy send; 20, 21: make send, send-once\n  \
    status T NAME\n  \
    qlimit T NAME N\n  \
    mscount T NAME N\n  \
    seqno T NAME N\n  \
    move T MEMBER SET             SET 0: into none\n  \
    insmember T MEMBER SET        into SET too; in profiles 1 and 2 refused with code 4,\n  \
    exmember T MEMBER SET         out of SET alone; since a port is in one set at most\n  \
    members T NAME\n  \
    notify T NAME VARIANT SYNC NOTIFY DISP\n  \
                                  VARIANT 69: port destroyed, 70: no senders, 72: dead name;\n  \
                                  DISP 18 or 21; NOTIFY 0 takes the request away\n  \
    send T BYTES                  the message in hexadecimal, - for no bytes\n  \
    recv T NAME ROOM LARGE        LARGE 1: a longer message stays; else 0\n  \
    again T p PORT ROOM LARGE\n  \
    again T s SET ROOM LARGE\n  \
    msg T OPTIONS NAME ROOM BYTES OPTIONS 1: send, 2: receive, 16: send once, 256: receive once,\n  \
    thread N                      2048: a longer message stays; N, 1 to 64: begins a block";

/// The levels of `trace`.
const LEVELS: &[&str] = &["info", "warn"];

/// The profiles of `run` and `trace`.
const PROFILES: &[&str] = &["1", "2", "3"];

/// What the words ask for.
#[derive(Clone, Copy)]
pub struct Request<'a> {
    /// What to do.
    pub job: Job,
    /// The file to read; standard input where there is none.
    pub file: Option<&'a str>,
}

/// Reads the words, the program's own name first.
///
/// An error comes where the words name no job of the program, ask for help, or memory is refused;
/// its kind tells which, and its text shows the usage.
pub fn read_words<'a>(alloc: Global, words: &'a [String]) -> Result<Request<'a>, Error> {
    let matches = program(alloc)?.try_get_matches_from(words)?;
    Ok(Request {
        job: job_named(&matches),
        file: file_named(&matches),
    })
}

/// The job of the subcommand.
fn job_named(matches: &ArgMatches<'_>) -> Job {
    match matches.subcommand() {
        Some(("trace", of_subcommand)) => Job::Trace {
            profile: profile_named(of_subcommand),
            warn: of_subcommand.get_str("LEVEL") == Some("warn"),
        },
        Some(("run", of_subcommand)) => Job::Run {
            profile: profile_named(of_subcommand),
        },
        _ => Job::Check,
    }
}

/// The profile that the words after the subcommand name, the first where they name none.
fn profile_named(of_subcommand: &ArgMatches<'_>) -> Profile {
    match of_subcommand.get_str("PROFILE") {
        Some("2") => Profile::Two,
        Some("3") => Profile::Three,
        _ => Profile::One,
    }
}

/// The file that the words after the subcommand name.
fn file_named<'a>(matches: &ArgMatches<'a>) -> Option<&'a str> {
    let (_, of_subcommand) = matches.subcommand()?;
    of_subcommand.get_str("FILE")
}

/// The calls of a script, for the help. This alone names the long text: each mention of it is dear to prove.
fn calls() -> &'static str {
    CALLS
}

/// The argument that names a script.
fn script_argument<'a>(alloc: Global) -> Arg<'a> {
    Arg::new(alloc, "FILE").help("The script; standard input where there is none")
}

/// The subcommand that runs a script.
fn run_command<'a>(alloc: Global) -> Result<Command<'a>, AllocError> {
    Command::new(alloc, "run")
        .about("Runs a script and prints how each call was answered")
        .after_help(calls())
        .arg(profile_option(alloc))?
        .arg(script_argument(alloc))
}

/// The option that names a profile.
fn profile_option<'a>(alloc: Global) -> Arg<'a> {
    Arg::new(alloc, "PROFILE")
        .long("profile")
        .action(ArgAction::Set)
        .value_parser(PROFILES)
        .help(
            "1: a fresh name is the least number; 2: it has a generation; 3: so, and a port may be in several sets",
        )
}

/// The option that names a level.
fn level_option<'a>(alloc: Global) -> Arg<'a> {
    Arg::new(alloc, "LEVEL")
        .long("level")
        .action(ArgAction::Set)
        .value_parser(LEVELS)
        .help("Which entries: all, or calls refused, and receives with no message or one too long")
}

/// The subcommand that runs a script and prints its history, with its option.
fn trace_command<'a>(alloc: Global) -> Result<Command<'a>, AllocError> {
    Command::new(alloc, "trace")
        .about("Runs a script and prints its history")
        .arg(level_option(alloc))?
        .arg(profile_option(alloc))?
        .arg(script_argument(alloc))
}

/// The subcommand that judges a history.
fn check_command<'a>(alloc: Global) -> Result<Command<'a>, AllocError> {
    Command::new(alloc, "check")
        .about("Tells whether the machine admits a history")
        .arg(Arg::new(alloc, "FILE").help("The history; standard input where there is none"))
}

/// The program's subcommands.
fn program<'a>(alloc: Global) -> Result<Command<'a>, AllocError> {
    let run = run_command(alloc)?;
    let trace = trace_command(alloc)?;
    let check = check_command(alloc)?;
    Command::new(alloc, "mach_run")
        .about("Mach 3 port IPC in user space")
        .subcommand_required(true)
        .subcommand(run)?
        .subcommand(trace)?
        .subcommand(check)
}
