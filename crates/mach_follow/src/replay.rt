//! Repeats the calls of entries.
ghost use Rattle.std.specs.Prelude.{◌≡◌, None, true, Ok};
ghost use Rattle.mach_model.specs.State.{State};
ghost use Rattle.copyin_base.specs.Shows.{Shows};
ghost use Rattle.mach_follow.specs.declared.replay.Answered.TheVariants.{AsSaid};
ghost use Rattle.mach_follow.specs.Replaying.{IsRefusal, IsTooLong, Replays};

use crate::follower::Follower;
use kernel_lock::{Entry, are_same_replies};
use mach_types::{Event, Name, Reply};
use mach_words::word_at;
use std::alloc::AllocError;

/// Whether the kernel's reply is the entry's.
#[derive(Drop)]
pub enum Answered {
    /// The reply is the entry's.
    AsSaid,
    /// The kernel's reply is this one. The follower is of no further use.
    Otherwise(Reply),
}

impl Follower {
    /// Makes the call of the history's next entry, and returns whether the reply is the entry's, as `tracer::confirm` decides
    /// it. An entry that ran out of memory has the right reply, and its call isn't made.
    ///
    /// Returns `AllocError` if out of memory; the follower is then of no further use. Takes the time of the call. In a set the
    /// turn is given to the entry's receiver first, in the time of `Kernel::give_turn`.
    pub fn replay(&mut self, entry: &Entry) -> Result<Answered, AllocError>
        ensures said { result ≡ Ok AsSaid → Replays self.old.kernel.tables entry.now.event entry.now.reply self.new.kernel }
    {
        self.number = self.number.wrapping_add(1);
        self.remember(entry)?;
        if self.may_lack_memory(&entry.event, &entry.reply)? {
            return Ok(Answered::AsSaid);
        }
        let has_room = self.kernel.has_room_for(&entry.event);
        self.give_turn(entry);
        let reply = self.kernel.step(&entry.event);
        if are_same_replies(&reply, &entry.reply) {
            return Ok(Answered::AsSaid);
        }
        if has_room && self.may_lack_memory(&entry.event, &reply)? {
            return Err(AllocError);
        }
        Ok(Answered::Otherwise(reply))
    }

    /// Gives the turn in a set to the member from which the entry received a message.
    fn give_turn(&mut self, entry: &Entry)
        ensures shows { (s : State) → Shows self.old.kernel.tables s → Shows self.new.kernel.tables s }
        ensures same { IsTooLong entry.now.reply → self.new.kernel ≡ self.old.kernel }
    {
        if let Some(member) = receiver(&entry.reply) {
            self.kernel.give_turn(&entry.event, member);
        }
    }

    /// Whether the reply is the call's code for out of memory, and the call may run out of memory now.
    fn may_lack_memory(&self, event: &Event, reply: &Reply) -> Result<bool, AllocError>
        ensures { result ≡ Ok true → IsRefusal self.now.kernel.tables event.now reply.now }
    {
        let Reply::Code(code) = reply else {
            return Ok(false);
        };
        if *code == 0 {
            return Ok(false);
        }
        Ok(self.kernel.memory_code(event)? == Some(*code))
    }
}

/// Returns the name of the port from which a message was received.
fn receiver(reply: &Reply) -> Option<Name>
    ensures { IsTooLong reply.now → result ≡ None }
{
    let Reply::Message(bytes) = reply else {
        return None;
    };
    Some(Name::new(word_at(bytes.as_slice(), 12)?))
}
