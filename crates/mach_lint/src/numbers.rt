//! The arguments of calls and replies.
use crate::fault::{NumberFault, WordFault};
use tracer_base::{Words, split_once};

/// The rights in C.
const RIGHTS: &[(&str, u32)] = &[
    ("SEND", 0),
    ("RECEIVE", 1),
    ("SEND_ONCE", 2),
    ("PORT_SET", 3),
    ("DEAD_NAME", 4),
];

/// The dispositions in C.
const DISPOSITIONS: &[(&str, u32)] = &[
    ("MOVE_RECEIVE", 16),
    ("MOVE_SEND", 17),
    ("MOVE_SEND_ONCE", 18),
    ("COPY_SEND", 19),
    ("MAKE_SEND", 20),
    ("MAKE_SEND_ONCE", 21),
];

/// The notices in C.
const NOTICES: &[(&str, u32)] = &[
    ("PORT_DESTROYED", 69),
    ("NO_SENDERS", 70),
    ("DEAD_NAME", 72),
];

/// The options of a message call in C.
const OPTIONS: &[(&str, u32)] = &[
    ("SEND_MSG", 1),
    ("RCV_MSG", 2),
    ("SEND_TIMEOUT", 16),
    ("RCV_TIMEOUT", 256),
    ("RCV_LARGE", 2048),
];

/// The numbers in C that are no names.
const NO_NAMES: &[(&str, u32)] = &[("NULL", 0), ("DEAD", 4_294_967_295)];

/// The prefixes of names in C. One that begins another stands after it.
const PREFIXES: &[&str] = &[
    "MACH_PORT_RIGHT_",
    "MACH_MSG_TYPE_",
    "MACH_NOTIFY_",
    "MACH_PORT_",
    "MACH_",
];

/// What an argument is.
#[derive(Clone, Copy)]
enum Form {
    /// A number of 32 bits, with its names in C.
    Number(&'static [(&'static str, u32)]),
    /// A number of 64 bits.
    Long,
    /// A number of 8 bits.
    Small,
    /// A change of references.
    Delta,
    /// 0 or 1.
    Flag,
    /// `p` or `s`.
    Kind,
    /// Eight hexadecimal digits.
    Code,
    /// Bytes in hexadecimal.
    Bytes,
    /// A name and its type.
    TypedName,
}

/// The arguments that are no numbers of 32 bits, or have names in C.
const FORMS: &[(&str, Form)] = &[
    ("RIGHT", Form::Number(RIGHTS)),
    ("DISP", Form::Number(DISPOSITIONS)),
    ("VARIANT", Form::Number(NOTICES)),
    ("OPTIONS", Form::Number(OPTIONS)),
    ("NAME", Form::Number(NO_NAMES)),
    ("OLD", Form::Number(NO_NAMES)),
    ("NEW", Form::Number(NO_NAMES)),
    ("POLY", Form::Number(NO_NAMES)),
    ("MEMBER", Form::Number(NO_NAMES)),
    ("SET", Form::Number(NO_NAMES)),
    ("NOTIFY", Form::Number(NO_NAMES)),
    ("DELTA", Form::Delta),
    ("LARGE", Form::Flag),
    ("p|s", Form::Kind),
    ("CODE", Form::Code),
    ("TYPE", Form::Code),
    ("BYTES", Form::Bytes),
    ("NAME:TYPE", Form::TypedName),
    ("ID", Form::Long),
    ("CALLER", Form::Long),
    ("KIND", Form::Small),
];

/// Returns what the argument is.
fn form_of(argument: &str) -> Form {
    for (name, form) in FORMS {
        if *name == argument {
            return *form;
        }
    }
    Form::Number(&[])
}

/// Returns the fault of a word that isn't this argument. `is_message_call` says that the call is `msg`.
pub(crate) fn word_fault<'a>(
    argument: &'static str,
    word: &'a [u8],
    is_message_call: bool,
) -> Option<WordFault<'a>> {
    let fault = if is_message_call && argument == "ROOM" {
        number_fault(&[], word, 65_536)
    } else {
        form_fault(form_of(argument), word)
    }?;
    Some(WordFault {
        argument,
        word,
        fault,
    })
}

/// Returns the fault of a word that isn't of this form.
fn form_fault(form: Form, word: &[u8]) -> Option<NumberFault> {
    match form {
        Form::Number(names) => number_fault(names, word, 4_294_967_295),
        Form::Long => number_fault(&[], word, u64::MAX),
        Form::Small => number_fault(&[], word, 255),
        Form::Delta => delta_fault(word),
        Form::Flag => flag_fault(word),
        Form::Kind => kind_fault(word),
        Form::Code => code_fault(word),
        Form::Bytes => bytes_fault(word),
        Form::TypedName => typed_name_fault(word),
    }
}

/// Returns the fault of a word that isn't a number from 0 to `most`. These are its names in C.
fn number_fault(names: &[(&'static str, u32)], word: &[u8], most: u64) -> Option<NumberFault> {
    if let Some(number) = whole_number(word) {
        if number > most {
            return Some(NumberFault::TooGreat(most));
        }
        return None;
    }
    if let Some(number) = find(names, behind_prefix(word)) {
        return Some(NumberFault::InC(number));
    }
    match word {
        [b'-', digits @ ..] if are_digits(digits) => Some(NumberFault::Minus),
        [b'+', ..] => Some(NumberFault::Plus),
        [b'0', b'x' | b'X', digits @ ..] => Some(NumberFault::Hexadecimal(hexadecimal(digits))),
        [b'0', digits @ ..] if are_digits(digits) => {
            Some(NumberFault::LeadingZero(without_zeros(digits)))
        }
        _ if are_digits(word) => Some(NumberFault::TooGreat(most)),
        _ => Some(NumberFault::NoNumber),
    }
}

/// Returns the number, if the word is one of 64 bits.
pub(crate) fn whole_number(word: &[u8]) -> Option<u64> {
    let mut words = Words::of(word);
    words.identity().ok()
}

/// Whether the word is a code or a type.
fn is_code(word: &[u8]) -> bool {
    let mut words = Words::of(word);
    words.code().is_ok()
}

/// Whether the word is one digit or more.
fn are_digits(word: &[u8]) -> bool {
    !word.is_empty() && word.iter().all(|byte| byte.is_ascii_digit())
}

/// Returns the number of the digits, without the leading zeros.
fn without_zeros(digits: &[u8]) -> Option<u64> {
    for (place, digit) in digits.iter().enumerate() {
        if *digit != b'0' {
            return whole_number(digits.get(place..)?);
        }
    }
    Some(0)
}

/// Returns the number of hexadecimal digits, if it fits 64 bits.
fn hexadecimal(digits: &[u8]) -> Option<u64> {
    if digits.is_empty() || digits.len() > 16 {
        return None;
    }
    let mut number: u64 = 0;
    for digit in digits {
        let value = (*digit as char).to_digit(16)?;
        number = number.wrapping_mul(16).wrapping_add(u64::from(value));
    }
    Some(number)
}

/// Returns the word without its prefix.
fn behind_prefix(word: &[u8]) -> &[u8] {
    for prefix in PREFIXES {
        if let Some(rest) = word.strip_prefix(prefix.as_bytes()) {
            return rest;
        }
    }
    word
}

/// Returns the word's number in the table.
fn find(table: &[(&'static str, u32)], word: &[u8]) -> Option<u32> {
    for (name, number) in table {
        if word.eq_ignore_ascii_case(name.as_bytes()) {
            return Some(*number);
        }
    }
    None
}

/// Returns the fault of a word that isn't a `DELTA`.
fn delta_fault(word: &[u8]) -> Option<NumberFault> {
    let [b'-', digits @ ..] = word else {
        return number_fault(&[], word, 2_147_483_647);
    };
    if digits == b"0".as_slice() {
        return Some(NumberFault::MinusZero);
    }
    match number_fault(&[], digits, 2_147_483_648) {
        Some(NumberFault::TooGreat(_)) => Some(NumberFault::TooSmall),
        Some(NumberFault::LeadingZero(_)) => Some(NumberFault::LeadingZero(None)),
        Some(_) => Some(NumberFault::NoNumber),
        None => None,
    }
}

/// Returns the fault of a word that isn't 0 or 1.
fn flag_fault(word: &[u8]) -> Option<NumberFault> {
    match word {
        b"0" | b"1" => None,
        _ => Some(NumberFault::NoFlag),
    }
}

/// Returns the fault of a word that isn't `p` or `s`.
fn kind_fault(word: &[u8]) -> Option<NumberFault> {
    match word {
        b"p" | b"s" => None,
        _ => Some(NumberFault::NoKind),
    }
}

/// Returns the fault of a word that isn't a code or a type.
fn code_fault(word: &[u8]) -> Option<NumberFault> {
    if is_code(word) {
        None
    } else {
        Some(NumberFault::NoCode)
    }
}

/// Returns the fault of a word that isn't bytes.
fn bytes_fault(word: &[u8]) -> Option<NumberFault> {
    if word == b"-".as_slice() {
        return None;
    }
    if let [b'0', b'x' | b'X', ..] = word {
        return Some(NumberFault::Prefix);
    }
    for (place, digit) in word.iter().enumerate() {
        if let Some(fault) = digit_fault(*digit, place.saturating_add(1)) {
            return Some(fault);
        }
    }
    if word.len() % 2 != 0 || word.is_empty() {
        return Some(NumberFault::OddDigits(word.len()));
    }
    None
}

/// Returns the fault of a byte that isn't a digit of bytes. `place` is its number.
fn digit_fault(digit: u8, place: usize) -> Option<NumberFault> {
    match digit {
        b'0'..=b'9' | b'a'..=b'f' => None,
        b'A'..=b'F' => Some(NumberFault::Capital(digit, place)),
        _ => Some(NumberFault::NoDigit(digit, place)),
    }
}

/// Returns the fault of a word that isn't a name and its type.
fn typed_name_fault(word: &[u8]) -> Option<NumberFault> {
    let Some((name, bits)) = split_once(word, b':') else {
        return Some(NumberFault::NoTypedName);
    };
    if number_fault(&[], name, 4_294_967_295).is_some() || !is_code(bits) {
        return Some(NumberFault::NoTypedName);
    }
    None
}
