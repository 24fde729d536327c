//! Ports and sets by identity.
ghost use Rattle.std.specs.Prelude.{◌≡◌, MatchOption};
ghost use Rattle.gelvonds_c_base.specs.Answers.{IsNoKind, IsWaited, c_waited, identity_of};

use mach_types::{PortId, SetId, Waited};
use name_space::Entry;

const PORT: u32 = 1;

const SET: u32 = 2;

const DEAD: u32 = 3;

/// Neither a port nor a set.
pub const NOWHERE: WaitedFor = WaitedFor {
    identity: 0,
    kind: 0,
};

/// What a receive waited for, by identity.
#[repr(C)]
#[derive(Clone, Copy)]
pub struct WaitedFor {
    /// The identity.
    pub identity: u64,
    /// 1 for a port, 2 for a set; 3 for a dead name, where a name is told; 0 for none.
    pub kind: u32,
}

/// Returns what was waited for, where its kind is one.
pub fn waited_before(waited: &WaitedFor) -> Option<Waited>
    ensures { MatchOption result (IsNoKind waited.now.kind) (λ w. IsWaited waited.now.kind waited.now.identity w) }
{
    match waited.kind {
        PORT => Some(Waited::Port(PortId::new(waited.identity))),
        SET => Some(Waited::Set(SetId::new(waited.identity))),
        _ => None,
    }
}

/// Returns what was waited for, for C.
pub fn waited_for(waited: &Waited) -> WaitedFor
    ensures { result ≡ c_waited waited.now }
{
    match waited {
        Waited::Port(port) => WaitedFor {
            identity: port.number(),
            kind: PORT,
        },
        Waited::Set(set) => WaitedFor {
            identity: set.number(),
            kind: SET,
        },
    }
}

/// Returns which port or set is under a name that has this entry, for C: any right for a port is that port, and a dead
/// name is none.
pub fn identity(entry: &Entry) -> WaitedFor
    ensures { result ≡ identity_of entry.now }
{
    match entry {
        Entry::Receive(port)
        | Entry::Send(port, _)
        | Entry::ReceiveAndSend(port, _)
        | Entry::SendOnce(port) => WaitedFor {
            identity: port.number(),
            kind: PORT,
        },
        Entry::DeadName(_) => WaitedFor {
            identity: 0,
            kind: DEAD,
        },
        Entry::Set(set) => WaitedFor {
            identity: set.number(),
            kind: SET,
        },
    }
}
