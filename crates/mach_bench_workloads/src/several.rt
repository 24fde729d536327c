//! Workloads of ports in several sets, which profile 3 has.
use crate::messages::{FIRST_MEMBER, SERVICE, SHORT, SHORT_RISING, SHORT_TO_2};
use crate::workloads::Workload;
use mach_bench_base::Label::{Rising, Same};
use mach_bench_base::Step::{Add, Make};
use mach_bench_base::{Call, Group, HOME, PORT_SET, RECEIVE, SET};

/// How many members the set of 1,000 has.
const MEMBERS: u32 = 1_000;
/// The first of nine sets more.
const FURTHER: u32 = SET + 1;
/// How many sets there are more.
const SETS: u32 = 9;
/// The first of many other ports, and how many they are.
const OTHERS: u32 = 4_000;

const MANY: u32 = 60_000;

/// Nine sets more.
const SETS_MADE: Group = Group {
    rounds: SETS,
    steps: &[Make(Call::MakeNamed(HOME, PORT_SET, Rising(FURTHER)))],
};

/// 60,000 other ports, each in all ten sets.
const OTHERS_MADE: Group = Group {
    rounds: MANY,
    steps: &[
        Make(Call::MakeNamed(HOME, RECEIVE, Rising(OTHERS))),
        Make(Call::Put(Rising(OTHERS), Same(SET))),
        Make(Call::Enter(Rising(OTHERS), Same(FURTHER))),
        Make(Call::Enter(Rising(OTHERS), Same(FURTHER + 1))),
        Make(Call::Enter(Rising(OTHERS), Same(FURTHER + 2))),
        Make(Call::Enter(Rising(OTHERS), Same(FURTHER + 3))),
        Make(Call::Enter(Rising(OTHERS), Same(FURTHER + 4))),
        Make(Call::Enter(Rising(OTHERS), Same(FURTHER + 5))),
        Make(Call::Enter(Rising(OTHERS), Same(FURTHER + 6))),
        Make(Call::Enter(Rising(OTHERS), Same(FURTHER + 7))),
        Make(Call::Enter(Rising(OTHERS), Same(FURTHER + 8))),
    ],
};

/// 1,000 members of the set, each in nine sets more: a message to each, received by the set.
const EACH_SERVED: Group = Group {
    rounds: MEMBERS,
    steps: &[
        Make(Call::MakeNamed(HOME, RECEIVE, Rising(FIRST_MEMBER))),
        Make(Call::Put(Rising(FIRST_MEMBER), Same(SET))),
        Make(Call::Enter(Rising(FIRST_MEMBER), Same(FURTHER))),
        Make(Call::Enter(Rising(FIRST_MEMBER), Same(FURTHER + 1))),
        Make(Call::Enter(Rising(FIRST_MEMBER), Same(FURTHER + 2))),
        Make(Call::Enter(Rising(FIRST_MEMBER), Same(FURTHER + 3))),
        Make(Call::Enter(Rising(FIRST_MEMBER), Same(FURTHER + 4))),
        Make(Call::Enter(Rising(FIRST_MEMBER), Same(FURTHER + 5))),
        Make(Call::Enter(Rising(FIRST_MEMBER), Same(FURTHER + 6))),
        Make(Call::Enter(Rising(FIRST_MEMBER), Same(FURTHER + 7))),
        Make(Call::Enter(Rising(FIRST_MEMBER), Same(FURTHER + 8))),
        Add(Call::Send(HOME, SHORT_RISING)),
        Add(Call::Receive(HOME, SET)),
    ],
};

/// Two members of the set, with a message each.
const PAIR_MADE: Group = Group {
    rounds: 1,
    steps: &[
        Make(Call::MakeNamed(HOME, RECEIVE, Same(SERVICE))),
        Make(Call::Put(Same(SERVICE), Same(SET))),
        Make(Call::Send(HOME, SHORT)),
        Make(Call::MakeNamed(HOME, RECEIVE, Same(2))),
        Make(Call::Put(Same(2), Same(SET))),
        Make(Call::Send(HOME, SHORT_TO_2)),
    ],
};

/// Both enter nine sets more.
const PAIR_ENTERS: Group = Group {
    rounds: SETS,
    steps: &[
        Make(Call::Enter(Same(SERVICE), Rising(FURTHER))),
        Make(Call::Enter(Same(2), Rising(FURTHER))),
    ],
};

/// A message more to each of them, and one of each is received by the set: they keep messages.
const PAIR_SERVED: Group = Group {
    rounds: 1,
    steps: &[
        Add(Call::Send(HOME, SHORT)),
        Add(Call::Receive(HOME, SET)),
        Add(Call::Send(HOME, SHORT_TO_2)),
        Add(Call::Receive(HOME, SET)),
    ],
};

/// The workloads that only profile 3 has.
const SEVERAL: &[Workload] = &[
    // As `set-1000`, each member in nine sets more.
    Workload {
        name: "set-1000-10",
        operations: MEMBERS,
        groups: &[SETS_MADE, EACH_SERVED],
    },
    // The same, where 60,000 other ports are in all those sets.
    Workload {
        name: "set-1000-10-60000",
        operations: MEMBERS,
        groups: &[SETS_MADE, OTHERS_MADE, EACH_SERVED],
    },
    // As `set-2`, each member in nine sets more.
    Workload {
        name: "set-2-10",
        operations: 2,
        groups: &[SETS_MADE, PAIR_MADE, PAIR_ENTERS, PAIR_SERVED],
    },
    // The same, where 60,000 other ports are in all those sets.
    Workload {
        name: "set-2-10-60000",
        operations: 2,
        groups: &[SETS_MADE, OTHERS_MADE, PAIR_MADE, PAIR_ENTERS, PAIR_SERVED],
    },
    // A port in a set put into another too, and taken out of that.
    Workload {
        name: "enter-leave",
        operations: 1,
        groups: &[
            SETS_MADE,
            Group {
                rounds: 1,
                steps: &[
                    Make(Call::MakeNamed(HOME, RECEIVE, Same(SERVICE))),
                    Make(Call::Put(Same(SERVICE), Same(SET))),
                    Add(Call::Enter(Same(SERVICE), Same(FURTHER))),
                    Add(Call::Leave(Same(SERVICE), Same(FURTHER))),
                ],
            },
        ],
    },
];

/// The workloads that only profile 3 has.
pub fn several_workloads() -> &'static [Workload] {
    SEVERAL
}
