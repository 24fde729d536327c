//! The words of the notation for numbers of the interface.

/// Returns the word of a right; `None` if no right has the number.
pub(crate) fn right_word(number: u32) -> Option<&'static str> {
    match number {
        0 => Some("send"),
        1 => Some("receive"),
        2 => Some("send-once"),
        3 => Some("set"),
        4 => Some("dead-name"),
        _ => None,
    }
}

/// Returns the word of the call that makes a right; `None` if no call of the notation makes one of this number.
pub(crate) fn make_word(number: u32) -> Option<&'static str> {
    match number {
        1 => Some("port "),
        3 => Some("set "),
        4 => Some("dead "),
        _ => None,
    }
}

/// Returns the word of a disposition; `None` if none has the number.
pub(crate) fn disposition_word(number: u32) -> Option<&'static str> {
    match number {
        16 => Some("move-receive"),
        17 => Some("move-send"),
        18 => Some("move-once"),
        19 => Some("copy-send"),
        20 => Some("make-send"),
        21 => Some("make-once"),
        _ => None,
    }
}

/// Returns the word of a kind of right in a received message; `None` if none has the number.
pub(crate) fn kind_word(number: u8) -> Option<&'static str> {
    match number {
        16 => Some("receive"),
        17 => Some("send"),
        18 => Some("send-once"),
        _ => None,
    }
}

/// Returns the word of a notice that can be asked for; `None` if none has the number.
pub(crate) fn variant_word(number: u32) -> Option<&'static str> {
    match number {
        69 => Some("port-destroyed"),
        70 => Some("no-senders"),
        72 => Some("dead-name"),
        _ => None,
    }
}
