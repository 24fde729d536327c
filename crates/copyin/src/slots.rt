//! How many message slots a message wants.
ghost use Rattle.std.specs.Prelude.{◌≡◌, ◌≤◌, ℕ, length};
ghost use Rattle.copyin.specs.Slots.{once_made_by, once_made_by_reply, once_made_by_all, own_slot, slots_for};

use crate::judge::Plan;
use copyin_base::{Carried, Mark};
use mach_types::Disposition;

// How many send-once rights are made by the right.
pub(crate) fn count_once(carried: Carried) -> usize
    ensures value { result ≡ once_made_by carried }
    ensures few { result ≤ 1 }
{
    let Mark::Port(_) = &carried.mark else {
        return 0;
    };
    match carried.given {
        Disposition::MakeSendOnce => 1,
        _ => 0,
    }
}

// How many are made by all of these.
fn count_all_once(rights: &[Carried]) -> usize
    ensures value { result ≡ once_made_by_all rights.now }
    ensures few { result ≤ length rights.now }
{
    let mut made = 0;
    for carried in rights {
        made += count_once(*carried);
    }
    made
}

// How many are made by the right to answer with.
fn count_reply_once(reply: Option<Carried>) -> usize
    ensures value { result ≡ once_made_by_reply reply }
    ensures few { result ≤ 1 }
{
    match reply {
        Some(carried) => count_once(carried),
        None => 0,
    }
}

// How many slots a message that goes so wants for itself.
pub(crate) fn count_own(given: Disposition) -> usize
    ensures value { result ≡ own_slot given }
    ensures few { result ≤ 1 }
{
    match given {
        Disposition::MoveSendOnce => 0,
        _ => 1,
    }
}

impl Plan {
    /// Returns how many message slots are to be spare beside those of the unused send-once rights, so that
    /// all of these have one once the message was sent. That is one for the message, unless it is sent to a
    /// send-once right, and one for each send-once right that its reply and body make. Linear in its rights.
    pub fn count_slots(&self) -> usize
        ensures { result ≡ slots_for self.now.destination self.now.message.reply self.now.message.rights }
    {
        count_own(self.destination.given)
            + count_reply_once(self.message.reply())
            + count_all_once(self.message.rights().as_slice())
    }
}
