//! The refusals of each call.
use mach_types::Event;

/// The codes by which each call can be refused, by the call's word in scripts, in the order in which they are judged. A code
/// stands once for each place at which it is judged. `docs/CALLS.md` has the conditions; `.ci/shown` compares the page with
/// this table.
const REFUSALS: &[(&str, &[u32])] = &[
    ("task", &[0x0000_0003, 0x0000_0006]),
    ("end", &[0x0000_0010]),
    (
        "alloc",
        &[0x0000_0010, 0x0000_0012, 0x0000_0003, 0x0000_0006],
    ),
    (
        "allocname",
        &[
            0x0000_0010,
            0x0000_0012,
            0x0000_000d,
            0x0000_0003,
            0x0000_0006,
        ],
    ),
    ("dealloc", &[0x0000_0010, 0x0000_000f, 0x0000_0011]),
    ("destroy", &[0x0000_0010, 0x0000_000f]),
    (
        "modrefs",
        &[
            0x0000_0010,
            0x0000_0012,
            0x0000_000f,
            0x0000_0011,
            0x0000_0012,
            0x0000_0013,
            0x0000_0003,
        ],
    ),
    ("refs", &[0x0000_0010, 0x0000_0012, 0x0000_000f]),
    ("type", &[0x0000_0010, 0x0000_000f]),
    ("names", &[0x0000_0010, 0x0000_0006]),
    (
        "rename",
        &[
            0x0000_0010,
            0x0000_0012,
            0x0000_000f,
            0x0000_000d,
            0x0000_0006,
        ],
    ),
    (
        "insert",
        &[
            0x0000_0010,
            0x0000_0012,
            0x0000_0014,
            0x0000_000f,
            0x0000_0011,
            0x0000_0015,
            0x0000_000d,
            0x0000_0013,
            0x0000_0003,
            0x0000_0006,
        ],
    ),
    (
        "extract",
        &[
            0x0000_0010,
            0x0000_0012,
            0x0000_000f,
            0x0000_0011,
            0x0000_0003,
            0x0000_0006,
        ],
    ),
    ("status", &[0x0000_0010, 0x0000_000f, 0x0000_0011]),
    (
        "qlimit",
        &[0x0000_0010, 0x0000_0012, 0x0000_000f, 0x0000_0011],
    ),
    ("mscount", &[0x0000_0010, 0x0000_000f, 0x0000_0011]),
    ("seqno", &[0x0000_0010, 0x0000_000f, 0x0000_0011]),
    (
        "move",
        &[0x0000_0010, 0x0000_000f, 0x0000_0011, 0x0000_000c],
    ),
    (
        "insmember",
        &[
            0x0000_0010,
            0x0000_0004,
            0x0000_000f,
            0x0000_0011,
            0x0000_000b,
            0x0000_0006,
        ],
    ),
    (
        "exmember",
        &[
            0x0000_0010,
            0x0000_0004,
            0x0000_000f,
            0x0000_0011,
            0x0000_000c,
        ],
    ),
    (
        "members",
        &[0x0000_0010, 0x0000_000f, 0x0000_0011, 0x0000_0006],
    ),
    (
        "notify",
        &[
            0x0000_0010,
            0x0000_0012,
            0x0000_0014,
            0x0000_000f,
            0x0000_0011,
            0x0000_0004,
            0x0000_0013,
            0x0000_0003,
            0x0000_0006,
        ],
    ),
    (
        "send",
        &[
            0x0000_0010,
            0x1000_0008,
            0x1000_0002,
            0x1000_0010,
            0x1000_0008,
            0x1000_000f,
            0x1000_0003,
            0x1000_0009,
            0x1000_000a,
            0x1000_000a,
            0x1000_0004,
            0x1000_000d,
        ],
    ),
    (
        "recv",
        &[
            0x0000_0010,
            0x1000_4002,
            0x1000_400a,
            0x1000_600c,
            0x1000_480c,
        ],
    ),
    (
        "again",
        &[
            0x0000_0010,
            0x1000_4009,
            0x1000_4006,
            0x1000_600c,
            0x1000_480c,
        ],
    ),
];

/// Whether the call can be refused with this code.
pub(crate) fn can_refuse(event: &Event, code: u32) -> bool {
    let call = call_word(event);
    for (word, codes) in REFUSALS {
        if *word == call {
            return codes.contains(&code);
        }
    }
    false
}

/// Returns the call's word in scripts.
fn call_word(event: &Event) -> &'static str {
    match event {
        Event::TaskCreate => "task",
        Event::TaskTerminate(..) => "end",
        Event::Allocate(..) => "alloc",
        Event::AllocateName(..) => "allocname",
        Event::Deallocate(..) => "dealloc",
        Event::Destroy(..) => "destroy",
        Event::ModRefs(..) => "modrefs",
        Event::GetRefs(..) => "refs",
        Event::NameType(..) => "type",
        Event::Names(..) => "names",
        Event::Rename(..) => "rename",
        Event::InsertRight(..) => "insert",
        Event::ExtractRight(..) => "extract",
        Event::ReceiveStatus(..) => "status",
        Event::SetQlimit(..) => "qlimit",
        Event::SetMscount(..) => "mscount",
        Event::SetSeqno(..) => "seqno",
        Event::MoveMember(..) => "move",
        Event::InsertMember(..) => "insmember",
        Event::ExtractMember(..) => "exmember",
        Event::SetStatus(..) => "members",
        Event::RequestNotification(..) => "notify",
        Event::Send(..) => "send",
        Event::Receive(..) => "recv",
        Event::ReceiveAgain(..) => "again",
    }
}
