//! What stands in a kernel beside that which is measured.
use crate::bench::Group;
use crate::bench::Step::{Choose, Make, Sift};
use crate::calls::Label::{Chosen, Rising, Same};
use crate::calls::{
    Call, DEAD_NAME, HOME, KEPT, MAKE_SEND_ONCE, Notify, OTHER, PORT_SET, RECEIVE, SET,
};
use crate::messages::{Body, Message};

/// A world: what a kernel has that an operation doesn't touch.
#[derive(Clone, Copy)]
pub struct World {
    /// Its name on the command line.
    pub name: &'static str,
    /// What is made before the workload's own calls.
    pub before: &'static [Group],
    /// What is made after them.
    pub after: &'static [Group],
}

/// What every world begins with: three tasks, and a set of the first.
pub const OPENING: [Group; 2] = [
    Group {
        rounds: 3,
        steps: &[Make(Call::Task)],
    },
    Group {
        rounds: 1,
        steps: &[Make(Call::MakeNamed(HOME, PORT_SET, Same(SET)))],
    },
];

/// The name above the last that a world fills: it fills names up to here, and leaves those below to workloads.
const END: u32 = 65_536;
/// How many tasks, ports, rights or members there are in a world that has many.
const MANY: u32 = 60_000;
/// How many names the task has in the world of names.
const NAMES: u32 = 65_000;
/// How many messages lie in the queue of another port.
const QUEUED: u32 = 1_000;

/// How many ports, or sets with that of the opening, are made in a row. The identity after them is a chosen one.
const SIFTED: u32 = 400_198;
/// How many of the ports are made before one that lies deepest in the tree of those that stay.
const OLDER: u32 = 341_724;
/// How many of the sets stay, beside that of the opening.
const STAYING: u32 = 781;
/// `HOME`'s name of the first member of these.
const FIRST_MEMBER: u32 = KEPT - 1_000;
/// How many dead-name requests there are.
const REQUESTS: u32 = 6_000;

/// A message by a send-once right, which no queue limit stops, to the port under the last name.
const TO_LAST: Message = Message {
    bits: MAKE_SEND_ONCE,
    to: Same(END - 1),
    reply: 0,
    body: Body::Zeros(0),
};

/// 60,000 receive rights of the task, above the workload's names.
const PORTS_MADE: Group = Group {
    rounds: MANY,
    steps: &[Make(Call::MakeNamed(HOME, RECEIVE, Rising(END - MANY)))],
};

/// A port of the task, under the last name.
const LAST_MADE: Group = Group {
    rounds: 1,
    steps: &[Make(Call::MakeNamed(HOME, RECEIVE, Same(END - 1)))],
};

/// 60,000 ports of another task.
const PORTS_OF_OTHER: Group = Group {
    rounds: MANY,
    steps: &[Make(Call::Make(Same(OTHER), RECEIVE))],
};

/// Nothing.
pub const SMALL: World = World {
    name: "small",
    before: &[],
    after: &[],
};

const WORLDS: [World; 13] = [
    SMALL,
    // 60,000 tasks more.
    World {
        name: "tasks",
        before: &[Group {
            rounds: MANY,
            steps: &[Make(Call::Task)],
        }],
        after: &[],
    },
    // 60,000 ports of another task, made before the workload's.
    World {
        name: "ports-before",
        before: &[PORTS_OF_OTHER],
        after: &[],
    },
    // 60,000 ports of another task, made after the workload's.
    World {
        name: "ports-after",
        before: &[],
        after: &[PORTS_OF_OTHER],
    },
    // 65,000 dead names of the task, above the workload's, up to 65,535.
    World {
        name: "names",
        before: &[Group {
            rounds: NAMES,
            steps: &[Make(Call::MakeNamed(HOME, DEAD_NAME, Rising(END - NAMES)))],
        }],
        after: &[],
    },
    // 60,000 dead names of the task above 65,535.
    World {
        name: "high-names",
        before: &[Group {
            rounds: MANY,
            steps: &[Make(Call::MakeNamed(HOME, DEAD_NAME, Rising(END)))],
        }],
        after: &[],
    },
    // 60,000 receive rights of the task, above the workload's names.
    World {
        name: "receive-rights",
        before: &[PORTS_MADE],
        after: &[],
    },
    // The same, and all those ports are members of the task's set.
    World {
        name: "members",
        before: &[
            PORTS_MADE,
            Group {
                rounds: MANY,
                steps: &[Make(Call::Put(Rising(END - MANY), Same(SET)))],
            },
        ],
        after: &[],
    },
    // 1,000 messages at another port of the task.
    World {
        name: "queued",
        before: &[
            LAST_MADE,
            Group {
                rounds: QUEUED,
                steps: &[Make(Call::Send(HOME, TO_LAST))],
            },
        ],
        after: &[],
    },
    // Ports of the task with chosen identities, made after the workload's, of which the first has identity 0.
    World {
        name: "chosen",
        before: &[],
        after: &[Group {
            rounds: SIFTED,
            steps: &[Sift(RECEIVE)],
        }],
    },
    // The same, made before and after the workload's ports, of which the first lies deepest in the tree.
    World {
        name: "chosen-deep",
        before: &[Group {
            rounds: OLDER,
            steps: &[Sift(RECEIVE)],
        }],
        after: &[Group {
            rounds: SIFTED - OLDER,
            steps: &[Sift(RECEIVE)],
        }],
    },
    // Port sets of the task with chosen identities, each with a member. The set of the opening has identity 0.
    World {
        name: "chosen-sets",
        before: &[
            Group {
                rounds: SIFTED - 1,
                steps: &[Sift(PORT_SET)],
            },
            Group {
                rounds: STAYING,
                steps: &[
                    Make(Call::MakeNamed(HOME, RECEIVE, Rising(FIRST_MEMBER))),
                    Make(Call::Put(Rising(FIRST_MEMBER), Rising(KEPT))),
                ],
            },
        ],
        after: &[],
    },
    // 6,000 dead-name requests of the task on chosen names.
    World {
        name: "chosen-names",
        before: &[
            LAST_MADE,
            Group {
                rounds: REQUESTS,
                steps: &[
                    Choose,
                    Make(Call::MakeNamed(HOME, RECEIVE, Chosen)),
                    Make(Call::Ask(Same(HOME), Chosen, Notify::Made(END - 1))),
                ],
            },
        ],
        after: &[],
    },
];

/// All worlds, the small one first. This alone names the table: each mention of it is dear to prove.
pub fn all_worlds() -> &'static [World] {
    &WORLDS
}
