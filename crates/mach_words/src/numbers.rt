//! Words for numbers of the interface.
use crate::text::Text;
use mach_types::{KernReturn, MsgReturn};

/// Returns a disposition's name in C, without its prefix `MACH_MSG_TYPE_`; `None` if no disposition has the number.
/// Constant time.
pub fn disposition_name(number: u32) -> Option<&'static str> {
    match number {
        16 => Some("MOVE_RECEIVE"),
        17 => Some("MOVE_SEND"),
        18 => Some("MOVE_SEND_ONCE"),
        19 => Some("COPY_SEND"),
        20 => Some("MAKE_SEND"),
        21 => Some("MAKE_SEND_ONCE"),
        _ => None,
    }
}

/// Returns the word for the kind of a received right: 16 is `receive`, 17 `send`, 18 `once`, and any other `right`.
/// Constant time.
pub fn kind_word(number: u32) -> &'static str {
    match number {
        16 => "receive",
        17 => "send",
        18 => "once",
        _ => "right",
    }
}

/// Returns the word for a right by its number, 0 to 4; `right` for other numbers. Constant time.
pub fn right_word(number: u32) -> &'static str {
    match number {
        0 => "send",
        1 => "receive",
        2 => "send-once",
        3 => "set",
        4 => "dead name",
        _ => "right",
    }
}

/// Returns the word for a notice by its id; `None` if no notice has the id. Constant time.
pub fn notice_word(id: u32) -> Option<&'static str> {
    match id {
        65 => Some("port-deleted"),
        69 => Some("port-destroyed"),
        70 => Some("no-senders"),
        71 => Some("send-once"),
        72 => Some("dead-name"),
        _ => None,
    }
}

/// Whether a notice has this id. Constant time.
pub fn is_notice(id: u32) -> bool {
    notice_word(id).is_some()
}

/// Writes a disposition's name in C, as [`disposition_name`] has it, or the word `disposition` and the number. Constant
/// time.
pub fn write_right_name(number: u32, out: &mut Text) {
    match disposition_name(number) {
        Some(name) => out.words(name),
        None => out.around("disposition ", number, ""),
    }
}

/// Writes a code by its name in C. With `is_message` the names of sends and receives are looked up first. A code
/// without a name is written as eight hexadecimal digits. Constant time.
pub fn write_code(code: u32, is_message: bool, out: &mut Text) {
    match MsgReturn::from_number(code) {
        Some(named) if is_message => out.shown(&named),
        _ => write_kernel_code(code, out),
    }
}

/// Writes the code of a call that is no send and no receive.
fn write_kernel_code(code: u32, out: &mut Text) {
    match KernReturn::from_number(code) {
        Some(named) => out.shown(&named),
        None => out.code(code),
    }
}

/// The bits of a name's type, with their words.
const TYPE_WORDS: &[(u32, &str)] = &[
    (0x0001_0000, "send"),
    (0x0002_0000, "receive"),
    (0x0004_0000, "send-once"),
    (0x0008_0000, "set"),
    (0x0010_0000, "dead-name"),
    (0x8000_0000, "request"),
];

/// Writes the words of a name's type, such as `send + request`; `none` if it has no bit of these. Constant time.
pub fn write_type(bits: u32, out: &mut Text) {
    let mut is_first = true;
    for (bit, word) in TYPE_WORDS {
        if bits & *bit != 0 {
            write_part(word, is_first, out);
            is_first = false;
        }
    }
    if is_first {
        out.words("none");
    }
}

/// Writes a word, with a plus before it unless it is the first.
fn write_part(word: &str, is_first: bool, out: &mut Text) {
    if !is_first {
        out.words(" + ");
    }
    out.words(word);
}
