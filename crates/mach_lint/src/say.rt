//! Faults in words.
use crate::fault::{Fault, NumberFault, WordFault};
use mach_words::{Phrase, Text};

/// Writes the fault in words, without a line feed. Linear in the word that the fault shows.
pub fn write_fault(fault: &Fault<'_>, out: &mut Text) {
    match fault {
        Fault::NoCall(number, word, near) => write_unknown(
            *number,
            word,
            ", is no call",
            *near,
            out,
        ),
        Fault::NoReply(number, word, near) => write_unknown(
            *number,
            word,
            ", is no reply",
            *near,
            out,
        ),
        Fault::Arguments(call, arguments, has) => write_arguments(call, arguments, *has, out),
        Fault::Word(number, fault) => write_word_fault(*number, fault, out),
        Fault::ScriptLine(word) => write_script_line(word, out),
        Fault::NoText(column, byte) => write_no_text(*column, *byte, out),
        _ => out.phrase(&line_phrase(fault)),
    }
}

/// Returns the words for a fault of the line that shows no bytes of it.
fn line_phrase(fault: &Fault<'_>) -> Phrase {
    match fault {
        Fault::ThreadNumber(number) => Phrase::one(
            "word 2: N is ",
            u64::from(*number),
            "; blocks are numbered 1 to 64",
        ),
        Fault::ThreadTwice(number, line) => Phrase::two(
            "word 2: thread ",
            u64::from(*number),
            " began in line ",
            *line,
            " already",
        ),
        Fault::NoRecord(number) => Phrase::one(
            "word ",
            *number as u64,
            ": 'norecord' is no reply of a history: such a call was not made",
        ),
        Fault::CarriageReturn(column) => Phrase::one(
            "a carriage return at column ",
            *column as u64,
            ": lines end in a line feed alone",
        ),
        Fault::Tab(column) => Phrase::one(
            "a tab at column ",
            *column as u64,
            ": words are parted by one space",
        ),
        Fault::TwoSpaces(column) => Phrase::one(
            "two spaces at column ",
            *column as u64,
            ": words are parted by one",
        ),
        _ => Phrase::words(line_words(fault)),
    }
}

/// Returns the words for a fault that has no number.
fn line_words(fault: &Fault<'_>) -> &'static str {
    match fault {
        Fault::Heading => {
            "the first line is not 'mach-history 1' or 'mach-history 2' and its line feed"
        }
        Fault::NoArrow => "no ' -> ' between call and reply",
        Fault::TwoArrows => "more than one ' -> ' between call and reply",
        Fault::CallWanted => "a call is wanted behind the caller",
        Fault::Empty => "the line is empty; no line may be",
        Fault::Comment => "a comment: there are none",
        Fault::SpaceBefore => "a space before the first word",
        Fault::SpaceBehind => "a space behind the last word",
        Fault::NoLineFeed => "the last line has no line feed",
        _ => "nothing can be read here",
    }
}

/// Writes that a byte is no printable ASCII.
fn write_no_text(column: usize, byte: u8, out: &mut Text) {
    out.words("the byte ");
    out.hexadecimal(byte);
    out.words(" at column ");
    out.number(column as u64);
    out.words(" is no printable ASCII");
}

/// Writes that a history has a line of a script.
fn write_script_line(word: &[u8], out: &mut Text) {
    out.words("word 2: ");
    out.quoted(word);
    out.words(" is a line of a script; a history has the calls that it made");
}

/// Writes that a word is no call or no reply, as `what` says, and which is near.
fn write_unknown(
    number: usize,
    word: &[u8],
    what: &str,
    near: Option<&'static str>,
    out: &mut Text,
) {
    out.phrase(&Phrase::one("word ", number as u64, ", "));
    out.quoted(word);
    out.words(what);
    if let Some(meant) = near {
        out.words("; is '");
        out.words(meant);
        out.words("' meant?");
    }
}

/// Writes which arguments a call or a reply has, and how many the line has.
fn write_arguments(call: &[u8], arguments: &str, has: usize, out: &mut Text) {
    out.quoted(call);
    out.words(list_words(arguments));
    out.words(arguments);
    match has {
        0 => out.words("; here is none"),
        1 => out.words("; here is 1"),
        _ => out.phrase(&Phrase::one("; here are ", has as u64, "")),
    }
}

/// Returns the words before the list of arguments.
fn list_words(arguments: &str) -> &'static str {
    if arguments.is_empty() {
        " has no arguments"
    } else {
        " has the arguments "
    }
}

/// Writes the fault of the word of this number.
fn write_word_fault(number: usize, fault: &WordFault<'_>, out: &mut Text) {
    out.phrase(&Phrase::one("word ", number as u64, ": "));
    write_subject(fault, out);
    out.phrase(&word_phrase(fault.fault));
}

/// Writes what the fault is about: the word, or its argument with the word or a digit.
fn write_subject(fault: &WordFault<'_>, out: &mut Text) {
    match fault.fault {
        NumberFault::InC(_) | NumberFault::NoKind | NumberFault::NoTypedName => {
            out.quoted(fault.word)
        }
        NumberFault::OddDigits(_) | NumberFault::Prefix => out.words(fault.argument),
        NumberFault::Capital(digit, _) | NumberFault::NoDigit(digit, _) => {
            write_part(fault.argument, " has ", &[digit], out)
        }
        _ => write_part(fault.argument, " is ", fault.word, out),
    }
}

/// Writes an argument, words, and a text in quotes.
fn write_part(argument: &str, words: &str, text: &[u8], out: &mut Text) {
    out.words(argument);
    out.words(words);
    out.quoted(text);
}

/// Returns the words for the fault of a word, behind what it is about.
fn word_phrase(fault: NumberFault) -> Phrase {
    match fault {
        NumberFault::InC(number) => Phrase::one(
            " is a name in C; a script writes its number, ",
            u64::from(number),
            "",
        ),
        NumberFault::OddDigits(count) => {
            Phrase::one(" has ", count as u64, " digits; a byte has two")
        }
        NumberFault::Capital(_, place) => {
            Phrase::one(" at digit ", place as u64, "; hexadecimal is in lower case")
        }
        NumberFault::NoDigit(_, place) => {
            Phrase::one(" at digit ", place as u64, ", no hexadecimal digit")
        }
        NumberFault::Hexadecimal(Some(number)) => {
            Phrase::one("; numbers are decimal: write ", number, "")
        }
        NumberFault::LeadingZero(Some(number)) => {
            Phrase::one("; a number has no leading zero: write ", number, "")
        }
        NumberFault::TooGreat(most) => Phrase::one("; the greatest is ", most, ""),
        _ => Phrase::words(word_words(fault)),
    }
}

/// Returns the words for the fault of a word that has no number.
fn word_words(fault: NumberFault) -> &'static str {
    match fault {
        NumberFault::NoKind => " where p (a port) or s (a set) is wanted",
        NumberFault::NoTypedName => " is no NAME:TYPE",
        NumberFault::Prefix => " begins with 0x; bytes are digits alone",
        NumberFault::Minus => "; only DELTA has a sign",
        NumberFault::Plus => "; a number has no sign",
        NumberFault::Hexadecimal(_) => "; numbers are decimal",
        NumberFault::LeadingZero(_) => "; a number has no leading zero",
        NumberFault::MinusZero => ": write 0",
        NumberFault::TooSmall => "; the least is -2147483648",
        NumberFault::NoFlag => "; it is 1 where a longer message stays, else 0",
        NumberFault::NoCode => "; it is eight lower case hexadecimal digits",
        _ => ", no number",
    }
}
