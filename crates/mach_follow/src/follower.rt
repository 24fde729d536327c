//! The follower, and the questions that it is asked.
ghost use Rattle.std.specs.Prelude.{◌≡◌};
ghost use Rattle.mach_model.specs.State.{opening_in};
ghost use Rattle.copyin_base.specs.Shows.{Shows};

use crate::keys::key_of;
use crate::seen::Seen;
use copyin_base::World;
use kernel_core::Kernel;
use mach_types::{Name, Profile, TaskId, Touched};
use name_space::Entry as Standing;
use number_map::NumberMap;
use std::alloc::Global;

/// What a name was before it was removed.
#[derive(Clone, Copy)]
pub struct Gone {
    /// The number of the entry that removed it, from 1.
    pub entry: u64,
    /// What it stood for before that entry.
    pub was: Standing,
}

/// A task and one of its names.
#[derive(Clone, Copy, PartialEq, Eq)]
pub struct Place {
    /// The task.
    pub task: TaskId,
    /// The name.
    pub name: Name,
}

/// A kernel on which a history's calls are repeated, and what names were before they were removed.
pub struct Follower {
    pub(crate) kernel: Kernel,
    // The number of the entry whose call was made last, from 1.
    pub(crate) number: u64,
    pub(crate) gone: NumberMap<Gone>,
    // The entry in which a task ended.
    pub(crate) ended: NumberMap<u64>,
}

/// Drops the kernel and the names that were removed. It is written out, so that it is proved here alone, and not in each crate that drops one.
impl Drop for Follower {
    fn drop(self) {
        let Follower {
            kernel: _,
            number: _,
            gone: _,
            ended: _,
        } = self;
    }
}

impl Follower {
    /// Makes a follower at the beginning of a history of this profile: its tables show the state in which nothing was made
    /// yet. Takes no memory.
    pub fn new(alloc: Global, profile: Profile) -> Follower
        ensures opens { Shows result.kernel.tables (opening_in profile) }
    {
        Follower {
            kernel: Kernel::with_profile(alloc, profile),
            number: 0,
            gone: NumberMap::new(alloc),
            ended: NumberMap::new(alloc),
        }
    }

    /// Returns the tables of the kernel, for reading. Constant time.
    pub fn tables(&self) -> &World
        ensures { result.now ≡ self.now.kernel.tables }
    {
        self.kernel.tables()
    }

    /// Returns which ports and sets the call that was made last may have changed, as [`Kernel::touched`] does.
    pub fn touched(&self) -> Touched
        ensures { result ≡ self.now.kernel.touched }
    {
        self.kernel.touched()
    }

    /// Returns what the task's name is now. Constant time, and logarithmic for a name above 65,535.
    pub fn look(&self, task: TaskId, name: Name) -> Seen {
        let Some(names) = self.tables().find_space(task) else {
            return Seen::NoTask;
        };
        match names.lookup(name) {
            Some(standing) => Seen::Named(standing),
            None => nothing_under(name),
        }
    }

    /// Returns what the name was before it was removed; `None` if it never was a name. Call it for a name that isn't
    /// used. Constant time.
    pub fn was(&self, task: TaskId, name: Name) -> Option<Gone> {
        self.gone.get(key_of(task, name))
    }

    /// Returns the number of the entry in which the task ended; `None` if none ended it. Constant time.
    pub fn end_of(&self, task: TaskId) -> Option<u64> {
        self.ended.get(u64::from(task.number()))
    }
}

/// Returns what a number is that no name has.
fn nothing_under(name: Name) -> Seen {
    match name.number() {
        0 => Seen::Null,
        0xffff_ffff => Seen::Dead,
        _ => Seen::Nothing,
    }
}
