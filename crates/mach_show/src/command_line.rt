//! The command line.
use crate::job::Job;
use clap::builder::ValueParser;
use clap::{Arg, ArgAction, ArgMatches, Command, Error};
use mach_picture::Scheme;
use mach_show_base::{Filter, Kind};
use mach_show_pictures::{Form, Style};
use std::alloc::{AllocError, Global};

/// The kinds of text that `lint` reads.
const KINDS: &[&str] = &["script", "history"];

/// The colours of a picture.
const SCHEMES: &[&str] = &["light", "dark", "both"];

/// An option of a subcommand.
#[derive(Clone, Copy)]
struct Choice {
    // The name of its value.
    value: &'static str,
    long: &'static str,
    action: ArgAction,
    parser: ValueParser<'static>,
    help: &'static str,
}

/// A subcommand: its options, and a file.
#[derive(Clone, Copy)]
struct Subcommand {
    name: &'static str,
    about: &'static str,
    // Options that it shares with another, and others.
    choices: &'static [Choice],
    own: &'static [Choice],
    // Whether the number of an entry stands before the file.
    has_number: bool,
    // The help for the file.
    file: &'static str,
}

/// Any number of 64 bits.
const NUMBER: ValueParser<'static> = ValueParser::Unsigned(0, u64::MAX);

/// The number of an entry, without the last, so that it can be counted to.
const ENTRY: ValueParser<'static> = ValueParser::Unsigned(1, u64::MAX - 1);

/// The first entry that is shown.
const FROM: Choice = Choice {
    value: "FROM",
    long: "from",
    action: ArgAction::Set,
    parser: NUMBER,
    help: "Only entries from this number on",
};

/// The last entry that is shown.
const TO: Choice = Choice {
    value: "TO",
    long: "to",
    action: ArgAction::Set,
    parser: NUMBER,
    help: "Only entries up to this number",
};

/// The file of labels.
const LABELS: Choice = Choice {
    value: "LABELS",
    long: "labels",
    action: ArgAction::Set,
    parser: ValueParser::String,
    help: "A file of labels: lines 'task N WORD', or with port, set, id or caller for task",
};

/// Whether a picture is drawn.
const SVG: Choice = Choice {
    value: "SVG",
    long: "svg",
    action: ArgAction::SetTrue,
    parser: ValueParser::Bool,
    help: "Writes a picture as SVG",
};

/// The colours of a picture.
const SCHEME: Choice = Choice {
    value: "SCHEME",
    long: "scheme",
    action: ArgAction::Set,
    parser: ValueParser::Names(SCHEMES),
    help: "The colours of the picture; without it, the reader's choice",
};

/// The title of a chart or a page.
const TITLE: Choice = Choice {
    value: "TITLE",
    long: "title",
    action: ArgAction::Set,
    parser: ValueParser::String,
    help: "The title",
};

/// The options of `text` and `chart`.
const OF_ENTRIES: &[Choice] = &[
    Choice {
        value: "TASK",
        long: "task",
        action: ArgAction::Set,
        parser: ValueParser::String,
        help: "Only entries of this task, or that hand it a right: its number or label",
    },
    Choice {
        value: "REFUSED",
        long: "refused",
        action: ArgAction::SetTrue,
        parser: ValueParser::Bool,
        help: "Only entries whose call was refused",
    },
    Choice {
        value: "PORT",
        long: "port",
        action: ArgAction::Set,
        parser: ValueParser::String,
        help: "Only entries that name this port, or carry a right for it: its identity or label",
    },
    FROM,
    TO,
    LABELS,
];

/// The options of `chart`, beside those of the entries.
const OF_CHART: &[Choice] = &[
    Choice {
        value: "LOOKS",
        long: "looks",
        action: ArgAction::SetTrue,
        parser: ValueParser::Bool,
        help: "Draws calls too that only look",
    },
    Choice {
        value: "MERMAID",
        long: "mermaid",
        action: ArgAction::SetTrue,
        parser: ValueParser::Bool,
        help: "Writes a sequence diagram in Mermaid's notation",
    },
    SVG,
    SCHEME,
    TITLE,
];

/// The options of `text` alone.
const OF_TEXT: &[Choice] = &[Choice {
    value: "LIVE",
    long: "live",
    action: ArgAction::SetTrue,
    parser: ValueParser::Bool,
    help: "Shows each entry before the next is waited for, without what becomes of it",
}];

/// The options of `state`.
const OF_STATE: &[Choice] = &[LABELS, SVG, SCHEME];

/// The options of `page`.
const OF_PAGE: &[Choice] = &[FROM, TO, LABELS, TITLE];

/// The options of `lint`.
const OF_LINT: &[Choice] = &[Choice {
    value: "KIND",
    long: "as",
    action: ArgAction::Set,
    parser: ValueParser::Names(KINDS),
    help: "What to read the text as; without it, the first line decides",
}];

/// The subcommands.
const SUBCOMMANDS: &[Subcommand] = &[
    Subcommand {
        name: "text",
        about: "Shows a history entry by entry, with the cause of each refusal",
        choices: OF_ENTRIES,
        own: OF_TEXT,
        has_number: false,
        file: "The history; without it, standard input",
    },
    Subcommand {
        name: "chart",
        about: "Draws a history: lifelines of tasks, and messages in their queues",
        choices: OF_ENTRIES,
        own: OF_CHART,
        has_number: false,
        file: "The history; without it, standard input",
    },
    Subcommand {
        name: "state",
        about: "Shows the state after an entry: tasks, names, ports and queues",
        choices: OF_STATE,
        own: &[],
        has_number: true,
        file: "The history; without it, standard input",
    },
    Subcommand {
        name: "page",
        about: "Writes an HTML file in which one goes from entry to entry",
        choices: OF_PAGE,
        own: &[],
        has_number: false,
        file: "The history; without it, standard input",
    },
    Subcommand {
        name: "lint",
        about: "Lists the bad lines of a script or a history, and why they are bad",
        choices: OF_LINT,
        own: &[],
        has_number: false,
        file: "The text; without it, standard input",
    },
];

/// What the command line asks for.
#[derive(Clone, Copy)]
pub struct Request<'a> {
    /// The job. Its filter lacks the task and the port.
    pub job: Job<'a>,
    /// The word for the task that is asked for: a number, `T` and a number, or a label.
    pub task: Option<&'a str>,
    /// The word for the port that is asked for: an identity, `p` and an identity, or a label.
    pub port: Option<&'a str>,
    /// The file to read; `None` for standard input.
    pub file: Option<&'a str>,
    /// The file of labels, if there is one.
    pub labels: Option<&'a str>,
    /// The storyboard to run instead, if there is one.
    pub say: Option<&'a str>,
}

/// Reads the words of the command line. The first is the program's name.
///
/// Returns clap's error if the words name no job, ask for help or the version, or if out of memory. Its kind says which,
/// and its text is what to print. Time and memory are linear in the words.
pub fn read_words<'a>(alloc: Global, words: &'a [String]) -> Result<Request<'a>, Error> {
    let matches = program(alloc)?.try_get_matches_from(words)?;
    Ok(request_of(&matches))
}

/// Returns what the words ask for.
fn request_of<'a>(matches: &ArgMatches<'a>) -> Request<'a> {
    match matches.subcommand() {
        Some((name, of_subcommand)) => Request {
            job: job_named(name, of_subcommand),
            task: of_subcommand.get_str("TASK"),
            port: of_subcommand.get_str("PORT"),
            file: of_subcommand.get_str("FILE"),
            labels: of_subcommand.get_str("LABELS"),
            say: of_subcommand.get_str("SAY"),
        },
        None => Request {
            job: Job::Text(Filter::all()),
            task: None,
            port: None,
            file: None,
            labels: None,
            say: None,
        },
    }
}

/// Returns the job of the subcommand of this name.
fn job_named<'a>(name: &str, of_subcommand: &ArgMatches<'a>) -> Job<'a> {
    match name {
        "lint" => Job::Lint(kind_named(of_subcommand.get_str("KIND"))),
        "state" => state_named(of_subcommand),
        "page" => Job::Page(window_named(of_subcommand), of_subcommand.get_str("TITLE")),
        "chart" => Job::Chart(filter_named(of_subcommand), style_named(of_subcommand)),
        _ if of_subcommand.get_flag("LIVE") => Job::Live(filter_named(of_subcommand)),
        _ => Job::Text(filter_named(of_subcommand)),
    }
}

/// Returns the job of `state`.
fn state_named<'a>(of_subcommand: &ArgMatches<'a>) -> Job<'a> {
    let number = of_subcommand.get_one::<u64>("N").unwrap_or(1);
    if of_subcommand.get_flag("SVG") {
        return Job::Picture(number, scheme_named(of_subcommand.get_str("SCHEME")));
    }
    Job::State(number)
}

/// Returns the filter of the first and the last entry that the options name.
fn window_named(of_subcommand: &ArgMatches<'_>) -> Filter {
    let mut filter = Filter::all();
    filter.from = of_subcommand.get_one::<u64>("FROM").unwrap_or(0);
    filter.to = of_subcommand.get_one::<u64>("TO").unwrap_or(u64::MAX);
    filter
}

/// Returns how a chart is drawn.
fn style_named<'a>(of_subcommand: &ArgMatches<'a>) -> Style<'a> {
    Style {
        has_looks: of_subcommand.get_flag("LOOKS"),
        form: form_of(of_subcommand),
        title: of_subcommand.get_str("TITLE"),
    }
}

/// Returns the filter that the options name, without the task and the port.
fn filter_named(of_subcommand: &ArgMatches<'_>) -> Filter {
    Filter {
        task: None,
        port: None,
        refused: of_subcommand.get_flag("REFUSED"),
        from: of_subcommand.get_one::<u64>("FROM").unwrap_or(0),
        to: of_subcommand.get_one::<u64>("TO").unwrap_or(u64::MAX),
    }
}

/// Returns the form of a chart.
fn form_of(of_subcommand: &ArgMatches<'_>) -> Form {
    if of_subcommand.get_flag("SVG") {
        return Form::Svg(scheme_named(of_subcommand.get_str("SCHEME")));
    }
    if of_subcommand.get_flag("MERMAID") {
        return Form::Mermaid;
    }
    Form::Terminal
}

/// Returns the scheme that the word is for.
fn scheme_named(word: Option<&str>) -> Scheme {
    match word {
        Some("light") => Scheme::Light,
        Some("dark") => Scheme::Dark,
        _ => Scheme::Both,
    }
}

/// Returns the kind of text that the word is for.
fn kind_named(word: Option<&str>) -> Option<Kind> {
    match word? {
        "script" => Some(Kind::Script),
        _ => Some(Kind::History),
    }
}

/// Makes the program's command line.
fn program<'a>(alloc: Global) -> Result<Command<'a>, AllocError> {
    let mut command = Command::new(alloc, "mach_show")
        .version("1.0")
        .about("Shows histories of Mach 3 port IPC in words")
        .subcommand_required(true);
    for subcommand in SUBCOMMANDS {
        command = command.subcommand(command_of(alloc, subcommand)?)?;
    }
    Ok(command)
}

/// Makes the command of a subcommand.
fn command_of<'a>(alloc: Global, subcommand: &Subcommand) -> Result<Command<'a>, AllocError> {
    let mut command = Command::new(alloc, subcommand.name).about(subcommand.about);
    for choice in subcommand.choices {
        command = command.arg(option_of(alloc, choice))?;
    }
    for choice in subcommand.own {
        command = command.arg(option_of(alloc, choice))?;
    }
    if subcommand.name != "lint" {
        command = command.arg(say_option(alloc)?)?;
    }
    if subcommand.has_number {
        command = command.arg(number_of(alloc))?;
    }
    command.arg(Arg::new(alloc, "FILE").help(subcommand.file))
}

/// Makes the option that names a storyboard. With it there is no other file.
fn say_option<'a>(alloc: Global) -> Result<Arg<'a>, AllocError> {
    Arg::new(alloc, "SAY")
        .long("say")
        .help("A storyboard to run: its history is shown, with its words")
        .conflicts_with("FILE")?
        .conflicts_with("LABELS")
}

/// Makes the argument for the number of an entry.
fn number_of<'a>(alloc: Global) -> Arg<'a> {
    Arg::new(alloc, "N")
        .required(true)
        .value_parser(ENTRY)
        .help("The number of the entry, from 1")
}

/// Makes the argument of an option.
fn option_of<'a>(alloc: Global, choice: &Choice) -> Arg<'a> {
    Arg::new(alloc, choice.value)
        .long(choice.long)
        .action(choice.action)
        .value_parser(choice.parser)
        .help(choice.help)
}
