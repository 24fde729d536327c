//! The blocks of a hall, as the others know them: who makes calls, who waits and for what, and how many changes there
//! were.
ghost use Rattle.std.specs.Prelude.{◌≡◌, ◌≢◌, ◌+◌, ◌%◌, ◌^◌, ◌↔◌, IfOk, OnErr, IsTrue, All, slice_index_or, slice_set};
ghost use Rattle.std.specs.List.{AllZip};
ghost use Rattle.mach_msg_threads.specs.declared.guests.Standing.{Standing as AnyStanding};
ghost use Rattle.mach_msg_threads.specs.declared.guests.Standing.TheVariants.{Ended};
ghost use Rattle.mach_msg_threads.specs.Waiting.{IsEndedBy, Hears, Rests, Waits, Admits, Begins, Resumes, RingsFirst};

use crossbeam_utils::sync::Unparker;
use mach_types::{Touched, Waited};
use std::alloc::AllocError;
use std::marker::Model;

/// What a block does.
#[derive(Clone, Copy, PartialEq, Eq)]
pub(crate) enum Standing {
    /// It makes calls, or is about to.
    Runs,
    /// It sleeps until there is a change of this port or set, or any change.
    Waits(Option<Waited>),
    /// It slept, and there was such a change.
    Woken,
    /// It makes no more calls.
    Ended,
}

impl Standing {
    // Whether it sleeps, and this change ends its wait.
    fn is_ended_by(&self, touched: &Touched) -> bool
        ensures { IsTrue result ↔ IsEndedBy self.now touched.now }
    {
        match self {
            Standing::Waits(Some(on)) => touched.covers(*on),
            Standing::Waits(None) => true,
            _ => false,
        }
    }

    // Whether it sleeps, and no change has ended its wait.
    fn is_waiting(&self) -> bool
        ensures { IsTrue result ↔ Waits self.now }
    {
        matches!(self, Standing::Waits(_))
    }

    // Whether it makes no call unless another does.
    fn is_resting(&self) -> bool
        ensures { IsTrue result ↔ Rests self.now }
    {
        matches!(self, Standing::Waits(_) | Standing::Ended)
    }
}

/// A block, as the others know it. Its value is what it does; the bell has none.
#[derive(Drop)]
pub(crate) struct Guest {
    standing: Standing,
    bell: Unparker,
}

impl Model for Guest {
    ghost use Rattle.mach_msg_threads.specs.declared.guests.Standing.{Standing};

    ghost Value = { Standing };

    ghost view = { λ g. g.standing };
}

impl Guest {
    // It is told of a change: if it waits for that, it is rung for.
    fn hear(&mut self, touched: &Touched)
        ensures { Hears touched.now self.old self.new }
    {
        if self.standing.is_ended_by(touched) {
            self.standing = Standing::Woken;
            self.bell.unpark();
        }
    }
}

/// The places of the blocks that came into a hall, and how many changes there were, modulo 2^64.
#[derive(Drop)]
pub(crate) struct Guests {
    pub changes: u64,
    pub all: Vec<Guest>,
}

impl Guests {
    /// A new block, which runs, and its place: the first that another has left, or a new one. Linear in the places.
    pub fn admit(&mut self, bell: Unparker) -> Result<usize, AllocError>
        ensures admits { IfOk result (λ place. Admits self.old.all.items place self.new.all.items) }
        ensures refused { OnErr result (self.new.all.items ≡ self.old.all.items) }
        ensures changes { self.new.changes ≡ self.old.changes }
    {
        let guest = Guest {
            standing: Standing::Runs,
            bell,
        };
        let left = self
            .all
            .iter()
            .position(|guest| guest.standing == Standing::Ended);
        if let Some(place) = left {
            self.all[place] = guest;
            return Ok(place);
        }
        let place = self.all.len();
        self.all.push(guest)?;
        Ok(place)
    }

    // The block at this place does that from now on.
    fn stand(&mut self, place: usize, standing: Standing)
        ensures stands { self.new.all.items ≡ slice_set self.old.all.items place standing }
        ensures changes { self.new.changes ≡ self.old.changes }
    {
        if let Some(guest) = self.all.get_mut(place) {
            guest.standing = standing;
        }
    }

    // What the block at this place does.
    fn standing(&self, place: usize) -> Standing
        ensures { result ≡ slice_index_or self.now.all.items place Ended }
    {
        match self.all.get(place) {
            Some(guest) => guest.standing,
            None => Standing::Ended,
        }
    }

    // Returns whether no block runs, or is about to.
    fn is_still(&self) -> bool
        ensures { IsTrue result ↔ All Rests self.now.all.items }
    {
        self.all.iter().all(|guest| guest.standing.is_resting())
    }

    /// A call may have changed these ports and sets: each block that waits for that is to try again. Linear in the places.
    pub fn change(&mut self, touched: &Touched)
        ensures hear { AllZip (Hears touched.now) self.old.all.items self.new.all.items }
        ensures changes { self.new.changes ≡ (self.old.changes + 1) % 2 ^ 64 }
    {
        self.changes = self.changes.wrapping_add(1);
        for guest in self.all.iter_mut() {
            guest.hear(touched);
        }
    }

    /// The block at this place is about to wait, and knows of so many changes. Returns whether to try again at
    /// once; `None` where there is to be a change first.
    pub fn begin(&mut self, place: usize, seen: u64, on: Option<Waited>) -> Option<bool>
        ensures begins { Begins place seen on self.old.changes self.old.all.items result self.new.all.items }
        ensures changes { self.new.changes ≡ self.old.changes }
    {
        if self.changes != seen {
            return Some(true);
        }
        self.stand(place, Standing::Waits(on));
        if !self.is_still() {
            return None;
        }
        self.stand(place, Standing::Runs);
        Some(false)
    }

    /// The block at this place was rung for. Returns whether to try again; `None` where it is to sleep on.
    pub fn answer(&mut self, place: usize) -> Option<bool>
        ensures resumes { Resumes place self.old.all.items result self.new.all.items }
        ensures changes { self.new.changes ≡ self.old.changes }
    {
        let woken = self.standing(place) == Standing::Woken;
        if !woken && !self.is_still() {
            return None;
        }
        self.stand(place, Standing::Runs);
        Some(woken)
    }

    // The place to ring at, so that the block there gives up: where none runs, the first that waits.
    fn first_to_give_up(&self) -> Option<usize>
        ensures { RingsFirst self.now.all.items result }
    {
        if !self.is_still() {
            return None;
        }
        self.all
            .iter()
            .position(|guest| guest.standing.is_waiting())
    }

    /// The block at this place ends. Where all others wait, the first of them is rung for, so that it gives up.
    pub fn leave(&mut self, place: usize)
        ensures leaves { self.new.all.items ≡ slice_set self.old.all.items place Ended }
        ensures changes { self.new.changes ≡ self.old.changes }
    {
        self.stand(place, Standing::Ended);
        if let Some(first) = self.first_to_give_up()
            && let Some(guest) = self.all.get(first)
        {
            guest.bell.unpark();
        }
    }
}
