//! The calls of scripts and the replies of histories, with their arguments.
use crate::nearest::Nearest;

/// The calls of the kernel, with their arguments.
const CALLS: &[(&str, &str)] = &[
    ("task", ""),
    ("end", "T"),
    ("alloc", "T RIGHT"),
    ("allocname", "T RIGHT NAME"),
    ("dealloc", "T NAME"),
    ("destroy", "T NAME"),
    ("modrefs", "T NAME RIGHT DELTA"),
    ("refs", "T NAME RIGHT"),
    ("type", "T NAME"),
    ("names", "T"),
    ("rename", "T OLD NEW"),
    ("insert", "T NAME FROM POLY DISP"),
    ("extract", "T NAME DISP TO"),
    ("status", "T NAME"),
    ("qlimit", "T NAME N"),
    ("mscount", "T NAME N"),
    ("seqno", "T NAME N"),
    ("move", "T MEMBER SET"),
    ("insmember", "T MEMBER SET"),
    ("exmember", "T MEMBER SET"),
    ("members", "T NAME"),
    ("notify", "T NAME VARIANT SYNC NOTIFY DISP"),
    ("send", "T BYTES"),
    ("recv", "T NAME ROOM LARGE"),
    ("again", "T p|s ID ROOM LARGE"),
];

/// The lines of scripts that aren't calls of the kernel, with their arguments.
const LINES: &[(&str, &str)] = &[("msg", "T OPTIONS NAME ROOM BYTES"), ("thread", "N")];

/// The replies of histories, with their arguments.
const REPLIES: &[(&str, &str)] = &[
    ("code", "CODE"),
    ("task", "N"),
    ("name", "N"),
    ("refs", "N"),
    ("type", "TYPE"),
    (
        "status",
        "SET SEQUENCE MAKESEND LIMIT QUEUED SENDONCE HASSEND DESTROYED NOSENDERS",
    ),
    ("right", "NAME KIND"),
    ("previous", "NAME"),
    ("message", "BYTES"),
    ("empty", "p|s ID"),
    ("toolarge", "N"),
    ("names", "NAME:TYPE .."),
    ("members", "NAME .."),
];

/// Longer words for calls, such as those in C, with the words that scripts have for them.
const LONGER: &[(&str, &str)] = &[
    ("receive", "recv"),
    ("allocate", "alloc"),
    ("allocate_name", "allocname"),
    ("deallocate", "dealloc"),
    ("mod_refs", "modrefs"),
    ("get_refs", "refs"),
    ("insert_right", "insert"),
    ("extract_right", "extract"),
    ("get_receive_status", "status"),
    ("set_qlimit", "qlimit"),
    ("set_mscount", "mscount"),
    ("set_seqno", "seqno"),
    ("move_member", "move"),
    ("get_set_status", "members"),
    ("request_notification", "notify"),
    ("task_create", "task"),
    ("task_terminate", "end"),
];

/// Returns the word's arguments in the table.
fn find(table: &[(&'static str, &'static str)], word: &[u8]) -> Option<&'static str> {
    for (name, arguments) in table {
        if name.as_bytes() == word {
            return Some(*arguments);
        }
    }
    None
}

/// Returns the arguments of a call of the kernel.
pub(crate) fn call_arguments(word: &[u8]) -> Option<&'static str> {
    find(CALLS, word)
}

/// Returns the arguments of a script's line that begins with this word.
pub(crate) fn line_arguments(word: &[u8]) -> Option<&'static str> {
    match find(LINES, word) {
        Some(arguments) => Some(arguments),
        None => find(CALLS, word),
    }
}

/// Returns the arguments of a reply.
pub(crate) fn reply_arguments(word: &[u8]) -> Option<&'static str> {
    find(REPLIES, word)
}

/// Returns the call, or line of a script, that is nearest to the word, or that a longer word means which is nearest.
pub(crate) fn near_call(word: &[u8]) -> Option<&'static str> {
    let mut nearest = Nearest::to(word);
    nearest.look(CALLS);
    nearest.look(LINES);
    nearest.look(LONGER);
    let near = nearest.found()?;
    match find(LONGER, near.as_bytes()) {
        Some(call) => Some(call),
        None => Some(near),
    }
}

/// Returns the reply that is nearest to the word.
pub(crate) fn near_reply(word: &[u8]) -> Option<&'static str> {
    let mut nearest = Nearest::to(word);
    nearest.look(REPLIES);
    nearest.found()
}
