//! A kernel with the history of its calls.
ghost use Rattle.std.specs.Prelude.{◌≡◌, [], ◌∷◌, ◌++◌, IfOk, OnOk, OnErr};
ghost use Rattle.mach_types.specs.declared.calls.Reply.{Reply as AnyReply};
ghost use Rattle.kernel_lock.specs.History.{Legal, entry};
ghost use Rattle.mach_say_words.specs.Fits.{Fits};

use kernel_core::Kernel;
use kernel_lock::Entry;
use mach_follow::thing_of;
use mach_say_words::{Expected, Misfit, compare};
use mach_types::{Event, Name, Profile, Reply, TaskId, Waited};
use std::alloc::{AllocError, Global};
use std::marker::Model;

/// A kernel, and the calls that were made on it with their replies.
#[derive(Drop)]
pub struct Stage {
    profile: Profile,
    kernel: Kernel,
    entries: Vec<Entry>,
}

impl Model for Stage {
    ghost use Rattle.kernel_lock.specs.Replays.{Replays};
    ghost use Rattle.mach_say_play.specs.Stages.{StageView};

    ghost Value = { StageView };

    ghost view = { λ s. record { profile = s.profile; entries = s.entries.items } };

    ghost invariant = { λ s. Replays s.profile s.entries.items s.kernel };
}

impl Stage {
    /// Makes a kernel of this profile, on which no call was made. Takes no memory.
    pub(crate) fn new(alloc: Global, profile: Profile) -> Stage
        ensures profile { result.profile ≡ profile }
        ensures none { result.entries ≡ [] }
    {
        Stage {
            profile,
            kernel: Kernel::with_profile(alloc, profile),
            entries: Vec::new(alloc),
        }
    }

    /// Returns the kernel's profile. Constant time.
    pub fn profile(&self) -> Profile
        ensures { result ≡ self.now.profile }
    {
        self.profile
    }

    /// Returns the calls with their replies, in order: a history that is legal. Constant time.
    pub fn entries(&self) -> &[Entry]
        ensures entries { result.now ≡ self.now.entries }
        ensures legal { Legal self.now.profile self.now.entries }
    {
        self.entries.as_slice()
    }

    /// Makes the call, appends it with its reply to the history, and compares the reply with what is asked for. Takes the time
    /// of the call.
    ///
    /// Returns where the reply isn't what is asked for. Returns `AllocError` if out of memory for the entry: the call isn't
    /// made, and nothing has changed.
    pub(crate) fn make(
        &mut self,
        caller: u64,
        event: Event,
        asked: &Expected,
    ) -> Result<Result<(), Misfit>, AllocError>
        ensures profile { self.new.profile ≡ self.old.profile }
        ensures made { OnOk result ((reply : AnyReply) × (self.new.entries ≡ self.old.entries ++ entry caller event reply ∷ [])
            × IfOk result (λ compared. OnOk compared (Fits asked.now reply))) }
        ensures err { OnErr result (self.new ≡ self.old) }
    {
        self.entries.reserve(1)?;
        let reply = self.kernel.step(&event);
        let compared = compare(asked, &reply);
        let made = Entry {
            caller,
            event,
            reply,
        };
        let Ok(()) = self.entries.push(made) else {
            unreachable!()
        };
        Ok(compared)
    }

    /// Returns the last reply; `None` if no call was made. Constant time.
    pub(crate) fn reply(&self) -> Option<&Reply> {
        Some(&self.entries.last()?.reply)
    }

    /// Returns the port or the set that the task's name stands for. Constant time.
    pub(crate) fn thing(&self, task: TaskId, name: Name) -> Option<Waited> {
        let names = self.kernel.tables().find_space(task)?;
        thing_of(&names.lookup(name)?)
    }
}
