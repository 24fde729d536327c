//! What is measured: each workload by its name, with its calls.
use crate::messages::{
    ANSWER, CARRYING, CARRYING_2, FIRST_LINK, FIRST_MEMBER, ITEMS, LINKING, LONG, REQUEST, RIGHT,
    SERVICE, SHORT, SHORT_RISING, SHORT_TO_2, TO_CHAIN, TO_SERVICE, TOGETHER,
};
use mach_bench_base::Label::{Any, Returned, Rising, Same};
use mach_bench_base::Step::{Add, CopyCalls, FollowNames, Make};
use mach_bench_base::{
    ASKED, Call, DEAD_NAME, FULL, Group, HOME, Notify, OTHER, PEER, PORT_SET, RECEIVE, SET, Step,
};

/// A workload.
#[derive(Clone, Copy)]
pub struct Workload {
    /// Its name on the command line.
    pub name: &'static str,
    /// How many operations a cycle is.
    pub operations: u32,
    /// What makes the kernel ready, and the calls of the cycle.
    pub groups: &'static [Group],
}

/// How many members the set of 1,000 has.
const MEMBERS: u32 = 1_000;
/// The name in the middle of those of a full task.
const MIDDLE: u32 = 32_768;
/// How many names are looked up at random.
const LOOK_UPS: u32 = 1_000;
/// How many ports are made in a row.
const MADE: u32 = 10_000;
/// How many send rights are deallocated in a row.
const GIVEN_UP: u32 = 60_000;
/// How many rights a task has that ends, or in how many tasks a port is named that dies.
const MANY: u32 = 60_000;
/// Half of them: the cost of one is to be the same.
const HALF: u32 = 30_000;
/// How many ports there are in a chain, each with the one before it in its queue.
const CHAIN: u32 = 10_000;
/// Twice as many: the cost of one is to be the same.
const LONG_CHAIN: u32 = 20_000;
/// How many tasks name a port that dies, or are told of it, where they are few.
const FEW: u32 = 1_000;
/// The first task that a workload makes in the small world, where there are three before.
const FIRST_TASK: u32 = 3;
/// `HOME` makes its port.
const SERVICE_MADE: Step = Make(Call::MakeNamed(HOME, RECEIVE, Same(SERVICE)));
/// `PEER` makes a port under 1.
const PEER_MADE: Step = Make(Call::MakeNamed(PEER, RECEIVE, Same(1)));
/// `HOME` gets a send right to it, under 2.
const PEER_KNOWN: Step = Make(Call::Give(Same(HOME), Same(2), PEER, Same(1)));
/// `HOME` receives at its port.
const RECEIVED: Step = Add(Call::Receive(HOME, SERVICE));
/// `HOME` gives up the name in the last reply.
const RETURNED_GIVEN_UP: Step = Add(Call::GiveUp(Returned));
/// `HOME`'s port is in the set.
const SERVICE_PUT: Step = Make(Call::Put(Same(SERVICE), Same(SET)));

/// `HOME`'s port, to which `PEER` has a send right, and a port of `PEER`'s.
const TWO_TASKS: Group = Group {
    rounds: 1,
    steps: &[
        SERVICE_MADE,
        Make(Call::Give(Same(PEER), Same(TO_SERVICE), HOME, Same(SERVICE))),
        PEER_MADE,
    ],
};

/// 64 ports of `PEER`'s, to which `HOME` has send rights under 2 to 65.
const PORTS_KNOWN: Group = Group {
    rounds: 63,
    steps: &[
        Make(Call::MakeNamed(PEER, RECEIVE, Rising(2))),
        Make(Call::Give(Same(HOME), Rising(3), PEER, Rising(2))),
    ],
};

/// Dead names until `HOME`, which has one name, has no name left.
const FILLED: Group = Group {
    rounds: FULL - 1,
    steps: &[Make(Call::Make(Same(HOME), DEAD_NAME))],
};

/// A dead name made, under a fresh name, and deallocated.
const DEAD_MADE: Group = Group {
    rounds: 1,
    steps: &[
        FollowNames,
        Add(Call::Make(Same(HOME), DEAD_NAME)),
        RETURNED_GIVEN_UP,
    ],
};

/// `HOME`'s port.
const SERVICE_ALONE: Group = Group {
    rounds: 1,
    steps: &[SERVICE_MADE],
};

/// A receive right that `OTHER` makes.
const RECEIVE_RIGHT: &[Step] = &[Make(Call::Make(Same(OTHER), RECEIVE))];

/// A send right of `OTHER`'s, for a port of `PEER`'s.
const SEND_RIGHT: &[Step] = &[
    Make(Call::MakeNamed(PEER, RECEIVE, Rising(1))),
    Make(Call::Give(Same(OTHER), Rising(1), PEER, Rising(1))),
];

/// A dead name that `OTHER` makes.
const DEAD: &[Step] = &[Make(Call::Make(Same(OTHER), DEAD_NAME))];

/// A task with a send right for `HOME`'s port.
const NAMING: &[Step] = &[
    Make(Call::Task),
    Make(Call::Give(Rising(FIRST_TASK), Same(2), HOME, Same(SERVICE))),
];

/// The same with a port of its own, by which it asks to be told of the port's death.
const NAMING_AND_ASKING: &[Step] = &[
    Make(Call::Task),
    Make(Call::Make(Rising(FIRST_TASK), RECEIVE)),
    Make(Call::Give(Rising(FIRST_TASK), Same(2), HOME, Same(SERVICE))),
    Make(Call::Ask(Rising(FIRST_TASK), Same(2), Notify::Made(1))),
];

/// The first port of a chain.
const CHAIN_BEGUN: Group = Group {
    rounds: 1,
    steps: &[Make(Call::MakeNamed(HOME, RECEIVE, Same(FIRST_LINK)))],
};

/// The next port of a chain, in whose queue the one before it lies then.
const LINK: &[Step] = &[
    Make(Call::MakeNamed(HOME, RECEIVE, Rising(FIRST_LINK + 1))),
    Make(Call::Send(HOME, LINKING)),
];

/// `OTHER` ends. A kernel takes one such cycle.
const OTHER_ENDS: Group = Group {
    rounds: 1,
    steps: &[Add(Call::End(OTHER))],
};

/// `HOME`'s port dies. A kernel takes one such cycle.
const SERVICE_DIES: Group = Group {
    rounds: 1,
    steps: &[Add(Call::Destroy(Same(SERVICE)))],
};

/// 24 bytes sent and received, by one task.
pub const SEND_RECEIVE: Workload = Workload {
    name: "send-receive",
    operations: 1,
    groups: &[Group {
        rounds: 1,
        steps: &[SERVICE_MADE, Add(Call::Send(HOME, SHORT)), RECEIVED],
    }],
};

const WORKLOADS: [Workload; 44] = [
    SEND_RECEIVE,
    // The same by a caller that has bytes: its events are made of them, and what it receives is copied out.
    Workload {
        name: "send-receive-copied",
        operations: 1,
        groups: &[Group {
            rounds: 1,
            steps: &[
                SERVICE_MADE,
                CopyCalls,
                Add(Call::Send(HOME, SHORT)),
                RECEIVED,
            ],
        }],
    },
    // A message with one send right, from another task, to one that has the port named.
    Workload {
        name: "right-named",
        operations: 1,
        groups: &[
            TWO_TASKS,
            Group {
                rounds: 1,
                steps: &[PEER_KNOWN, Add(Call::Send(PEER, RIGHT)), RECEIVED],
            },
        ],
    },
    // The same, to one that has no name for the port: the fresh name is deallocated.
    Workload {
        name: "right-fresh",
        operations: 1,
        groups: &[
            TWO_TASKS,
            Group {
                rounds: 1,
                steps: &[
                    FollowNames,
                    Add(Call::Send(PEER, RIGHT)),
                    RECEIVED,
                    RETURNED_GIVEN_UP,
                ],
            },
        ],
    },
    // A request with a send-once right, which comes under a fresh name, and the answer by it.
    Workload {
        name: "request-answer",
        operations: 1,
        groups: &[
            TWO_TASKS,
            Group {
                rounds: 1,
                steps: &[
                    FollowNames,
                    Add(Call::Send(PEER, REQUEST)),
                    RECEIVED,
                    Add(Call::Send(HOME, ANSWER)),
                    Add(Call::Receive(PEER, 1)),
                ],
            },
        ],
    },
    // 4,096 bytes of raw body sent and received.
    Workload {
        name: "raw-4096",
        operations: 1,
        groups: &[Group {
            rounds: 1,
            steps: &[SERVICE_MADE, Add(Call::Send(HOME, LONG)), RECEIVED],
        }],
    },
    // A message of 64 items of one right each, the ports named.
    Workload {
        name: "items-64",
        operations: 1,
        groups: &[
            TWO_TASKS,
            Group {
                rounds: 1,
                steps: &[PEER_KNOWN],
            },
            PORTS_KNOWN,
            Group {
                rounds: 1,
                steps: &[Add(Call::Send(PEER, ITEMS)), RECEIVED],
            },
        ],
    },
    // A message of one item of 64 rights, the ports named.
    Workload {
        name: "rights-64",
        operations: 1,
        groups: &[
            TWO_TASKS,
            Group {
                rounds: 1,
                steps: &[PEER_KNOWN],
            },
            PORTS_KNOWN,
            Group {
                rounds: 1,
                steps: &[Add(Call::Send(PEER, TOGETHER)), RECEIVED],
            },
        ],
    },
    // A set of 1,000 ports: a message to each in turn, received by the set before the next is sent.
    Workload {
        name: "set-1000",
        operations: MEMBERS,
        groups: &[Group {
            rounds: MEMBERS,
            steps: &[
                Make(Call::MakeNamed(HOME, RECEIVE, Rising(FIRST_MEMBER))),
                Make(Call::Put(Rising(FIRST_MEMBER), Same(SET))),
                Add(Call::Send(HOME, SHORT_RISING)),
                Add(Call::Receive(HOME, SET)),
            ],
        }],
    },
    // A message to the one port of the workload in the set, received by the set.
    Workload {
        name: "set-receive",
        operations: 1,
        groups: &[Group {
            rounds: 1,
            steps: &[
                SERVICE_MADE,
                SERVICE_PUT,
                Add(Call::Send(HOME, SHORT)),
                Add(Call::Receive(HOME, SET)),
            ],
        }],
    },
    // Two ports in the set, which begin with a message each: one more to each in turn, and the set receives after each.
    Workload {
        name: "set-2",
        operations: 2,
        groups: &[Group {
            rounds: 1,
            steps: &[
                SERVICE_MADE,
                SERVICE_PUT,
                Make(Call::Send(HOME, SHORT)),
                Make(Call::MakeNamed(HOME, RECEIVE, Same(2))),
                Make(Call::Put(Same(2), Same(SET))),
                Make(Call::Send(HOME, SHORT_TO_2)),
                Add(Call::Send(HOME, SHORT)),
                Add(Call::Receive(HOME, SET)),
                Add(Call::Send(HOME, SHORT_TO_2)),
                Add(Call::Receive(HOME, SET)),
            ],
        }],
    },
    // 10,000 ports made in a row, under fresh names. They stay: a kernel takes six cycles.
    Workload {
        name: "allocate-10000",
        operations: MADE,
        groups: &[Group {
            rounds: MADE,
            steps: &[Add(Call::Make(Same(HOME), RECEIVE))],
        }],
    },
    // A dead name made and deallocated, of a task with one other name.
    Workload {
        name: "dead-name",
        operations: 1,
        groups: &[DEAD_MADE],
    },
    // A port set made, under a fresh name, and destroyed.
    Workload {
        name: "set-made",
        operations: 1,
        groups: &[Group {
            rounds: 1,
            steps: &[
                FollowNames,
                Add(Call::Make(Same(HOME), PORT_SET)),
                Add(Call::Destroy(Returned)),
            ],
        }],
    },
    // A send right to a port of `PEER`'s, inserted under 1 and deallocated.
    Workload {
        name: "insert",
        operations: 1,
        groups: &[Group {
            rounds: 1,
            steps: &[
                PEER_MADE,
                Add(Call::Give(Same(HOME), Same(1), PEER, Same(1))),
                Add(Call::GiveUp(Same(1))),
            ],
        }],
    },
    // A send right to a port of `PEER`'s, extracted to a fresh name and deallocated.
    Workload {
        name: "extract",
        operations: 1,
        groups: &[Group {
            rounds: 1,
            steps: &[
                PEER_MADE,
                FollowNames,
                Add(Call::Extract(1)),
                RETURNED_GIVEN_UP,
            ],
        }],
    },
    // The references of a send right to a port of `PEER`'s, one more and one fewer.
    Workload {
        name: "references",
        operations: 2,
        groups: &[Group {
            rounds: 1,
            steps: &[
                PEER_MADE,
                Make(Call::Give(Same(HOME), Same(1), PEER, Same(1))),
                Add(Call::Change(1, 1)),
                Add(Call::Change(1, -1)),
            ],
        }],
    },
    // The type of a name, random of 65,535.
    Workload {
        name: "type-65535",
        operations: LOOK_UPS,
        groups: &[
            FILLED,
            Group {
                rounds: LOOK_UPS,
                steps: &[Add(Call::Type(Any))],
            },
        ],
    },
    // Name 32,768 of 65,535 goes, and comes as the fresh one.
    Workload {
        name: "name-32768",
        operations: 1,
        groups: &[
            FILLED,
            Group {
                rounds: 1,
                steps: &[
                    Make(Call::GiveUp(Same(MIDDLE))),
                    Make(Call::Make(Same(HOME), DEAD_NAME)),
                    FollowNames,
                    RETURNED_GIVEN_UP,
                    Add(Call::Make(Same(HOME), DEAD_NAME)),
                ],
            },
        ],
    },
    // A dead name made, as the last of 65,535 names, and deallocated.
    Workload {
        name: "fresh-65535",
        operations: 1,
        groups: &[
            Group {
                rounds: FULL - 2,
                steps: &[Make(Call::Make(Same(HOME), DEAD_NAME))],
            },
            DEAD_MADE,
        ],
    },
    // 60,000 send rights to ports of `PEER`'s deallocated, names rising. A kernel takes one cycle.
    Workload {
        name: "deallocate-60000",
        operations: GIVEN_UP,
        groups: &[Group {
            rounds: GIVEN_UP,
            steps: &[
                Make(Call::MakeNamed(PEER, RECEIVE, Rising(1))),
                Make(Call::Give(Same(HOME), Rising(1_001), PEER, Rising(1))),
                Add(Call::GiveUp(Rising(1_001))),
            ],
        }],
    },
    // A port's status.
    Workload {
        name: "status",
        operations: 1,
        groups: &[Group {
            rounds: 1,
            steps: &[SERVICE_MADE, Add(Call::Status(SERVICE))],
        }],
    },
    // A port's queue limit changed.
    Workload {
        name: "limit",
        operations: 1,
        groups: &[Group {
            rounds: 1,
            steps: &[SERVICE_MADE, Add(Call::Limit(SERVICE, 7))],
        }],
    },
    // A no-senders request of a port that has a sender: the sender goes, and the notice is received.
    Workload {
        name: "no-senders",
        operations: 1,
        groups: &[Group {
            rounds: 1,
            steps: &[
                SERVICE_MADE,
                Make(Call::MakeNamed(HOME, RECEIVE, Same(2))),
                Add(Call::Give(Same(HOME), Same(2), HOME, Same(2))),
                Add(Call::AskSenders(2)),
                Add(Call::Change(2, -1)),
                RECEIVED,
            ],
        }],
    },
    // A dead-name request on the name of a send right, by a send-once right, and the request taken away, which returns
    // that right under a fresh name.
    Workload {
        name: "dead-name-request",
        operations: 1,
        groups: &[Group {
            rounds: 1,
            steps: &[
                SERVICE_MADE,
                PEER_MADE,
                Make(Call::Give(Same(HOME), Same(ASKED), PEER, Same(1))),
                Make(Call::Ask(Same(HOME), Same(ASKED), Notify::Made(SERVICE))),
                Make(Call::Ask(Same(HOME), Same(ASKED), Notify::Nothing)),
                FollowNames,
                Add(Call::Ask(Same(HOME), Same(ASKED), Notify::Moved(Returned))),
                Add(Call::Ask(Same(HOME), Same(ASKED), Notify::Nothing)),
            ],
        }],
    },
    // A receive right, from under 1 to 2 and back.
    Workload {
        name: "rename",
        operations: 2,
        groups: &[Group {
            rounds: 1,
            steps: &[
                SERVICE_MADE,
                Add(Call::Rename(1, 2)),
                Add(Call::Rename(2, 1)),
            ],
        }],
    },
    // A port put into the set and taken out.
    Workload {
        name: "move-member",
        operations: 1,
        groups: &[Group {
            rounds: 1,
            steps: &[
                SERVICE_MADE,
                Add(Call::Put(Same(SERVICE), Same(SET))),
                Add(Call::Put(Same(SERVICE), Same(0))),
            ],
        }],
    },
    // The task's names, all of them, listed.
    Workload {
        name: "names",
        operations: 1,
        groups: &[Group {
            rounds: 1,
            steps: &[Add(Call::Names)],
        }],
    },
    // A receive right sent and received by one task.
    Workload {
        name: "carry",
        operations: 1,
        groups: &[Group {
            rounds: 1,
            steps: &[
                SERVICE_MADE,
                Make(Call::MakeNamed(HOME, RECEIVE, Same(2))),
                Make(Call::Send(HOME, CARRYING_2)),
                Make(Call::Receive(HOME, SERVICE)),
                FollowNames,
                Add(Call::Send(HOME, CARRYING)),
                RECEIVED,
            ],
        }],
    },
    // A receive right sent to the first port of a chain of 10,000, of which each but the last lies in the queue of the
    // next. A kernel takes one cycle.
    Workload {
        name: "chain-send-10000",
        operations: 1,
        groups: &[
            SERVICE_ALONE,
            Group {
                rounds: 1,
                steps: &[
                    Make(Call::MakeNamed(HOME, RECEIVE, Same(FIRST_LINK))),
                    Make(Call::Give(Same(HOME), Same(FIRST_LINK), HOME, Same(FIRST_LINK))),
                ],
            },
            Group {
                rounds: CHAIN - 1,
                steps: LINK,
            },
            Group {
                rounds: 1,
                steps: &[Add(Call::Send(HOME, TO_CHAIN))],
            },
        ],
    },
    // A port made, under a fresh name, and destroyed.
    Workload {
        name: "port-made",
        operations: 1,
        groups: &[Group {
            rounds: 1,
            steps: &[
                FollowNames,
                Add(Call::Make(Same(HOME), RECEIVE)),
                Add(Call::Destroy(Returned)),
            ],
        }],
    },
    // A task ends that has 60,000 receive rights.
    Workload {
        name: "end-receive-60000",
        operations: MANY,
        groups: &[
            Group {
                rounds: MANY,
                steps: RECEIVE_RIGHT,
            },
            OTHER_ENDS,
        ],
    },
    // A task ends that has 30,000 receive rights.
    Workload {
        name: "end-receive-30000",
        operations: HALF,
        groups: &[
            Group {
                rounds: HALF,
                steps: RECEIVE_RIGHT,
            },
            OTHER_ENDS,
        ],
    },
    // A task ends that has one receive right.
    Workload {
        name: "end-receive-1",
        operations: 1,
        groups: &[
            Group {
                rounds: 1,
                steps: RECEIVE_RIGHT,
            },
            OTHER_ENDS,
        ],
    },
    // A task ends that has 60,000 send rights, each for a port of another task.
    Workload {
        name: "end-send-60000",
        operations: MANY,
        groups: &[
            Group {
                rounds: MANY,
                steps: SEND_RIGHT,
            },
            OTHER_ENDS,
        ],
    },
    // A task ends that has 30,000 send rights, each for a port of another task.
    Workload {
        name: "end-send-30000",
        operations: HALF,
        groups: &[
            Group {
                rounds: HALF,
                steps: SEND_RIGHT,
            },
            OTHER_ENDS,
        ],
    },
    // A task ends that has 60,000 dead names.
    Workload {
        name: "end-dead-60000",
        operations: MANY,
        groups: &[
            Group {
                rounds: MANY,
                steps: DEAD,
            },
            OTHER_ENDS,
        ],
    },
    // A task ends that has 30,000 dead names.
    Workload {
        name: "end-dead-30000",
        operations: HALF,
        groups: &[
            Group {
                rounds: HALF,
                steps: DEAD,
            },
            OTHER_ENDS,
        ],
    },
    // A port dies that 1,000 tasks have a send right for.
    Workload {
        name: "death-named-1000",
        operations: 1,
        groups: &[
            SERVICE_ALONE,
            Group {
                rounds: FEW,
                steps: NAMING,
            },
            SERVICE_DIES,
        ],
    },
    // A port dies that 30,000 tasks have a send right for.
    Workload {
        name: "death-named-30000",
        operations: 1,
        groups: &[
            SERVICE_ALONE,
            Group {
                rounds: HALF,
                steps: NAMING,
            },
            SERVICE_DIES,
        ],
    },
    // A port dies that 60,000 tasks have a send right for.
    Workload {
        name: "death-named-60000",
        operations: 1,
        groups: &[
            SERVICE_ALONE,
            Group {
                rounds: MANY,
                steps: NAMING,
            },
            SERVICE_DIES,
        ],
    },
    // A port dies that 1,000 tasks have a send right for, each of which has asked to be told.
    Workload {
        name: "death-asked-1000",
        operations: FEW,
        groups: &[
            SERVICE_ALONE,
            Group {
                rounds: FEW,
                steps: NAMING_AND_ASKING,
            },
            SERVICE_DIES,
        ],
    },
    // A chain of 10,000 ports dies, of which each but the last lies in the queue of the next.
    Workload {
        name: "chain-10000",
        operations: CHAIN,
        groups: &[
            CHAIN_BEGUN,
            Group {
                rounds: CHAIN - 1,
                steps: LINK,
            },
            Group {
                rounds: 1,
                steps: &[Add(Call::Destroy(Same(FIRST_LINK + CHAIN - 1)))],
            },
        ],
    },
    // A chain of 20,000 ports dies.
    Workload {
        name: "chain-20000",
        operations: LONG_CHAIN,
        groups: &[
            CHAIN_BEGUN,
            Group {
                rounds: LONG_CHAIN - 1,
                steps: LINK,
            },
            Group {
                rounds: 1,
                steps: &[Add(Call::Destroy(Same(FIRST_LINK + LONG_CHAIN - 1)))],
            },
        ],
    },
];

/// All workloads.
///
/// This alone names the table: each mention of it is dear to prove.
pub fn all_workloads() -> &'static [Workload] {
    &WORKLOADS
}
