//! A gate for blocks in threads: one that waits is woken by the changes that concern it, and gives up where no other
//! block can make one.
use crate::gate::Gate;
use crate::guests::Guests;
use crossbeam_utils::sync::Parker;
use mach_types::{Touched, Waited};
use std::alloc::{AllocError, Global};
use std::sync::{Mutex, Wait};

/// What the gates of one run share: who runs, who waits, and a count of the changes.
///
/// A block that enters takes a place that another has left, if there is one. So a hall has as many places as blocks were
/// in it at once.
#[derive(Drop)]
pub struct Hall {
    guests: Mutex<Guests>,
}

impl Hall {
    /// A hall that no block has entered. Takes no memory.
    pub fn new(alloc: Global) -> Hall {
        let guests = Guests {
            changes: 0,
            all: Vec::new(alloc),
        };
        Hall {
            guests: Mutex::new(guests),
        }
    }

    /// The gate of one more block, which runs from now on. May wait. An error means that memory was refused,
    /// and no block has entered.
    pub fn enter<'a, R: Wait>(
        &'a self,
        rt: &'a R,
        alloc: Global,
    ) -> Result<BlockGate<'a, R>, AllocError> {
        let parker = Parker::new(alloc)?;
        let bell = parker.unparker().clone()?;
        let mut guests = self.guests.lock(rt);
        let place = guests.admit(bell)?;
        let seen = guests.changes;
        Ok(BlockGate {
            rt,
            hall: self,
            place,
            seen,
            parker,
        })
    }
}

/// By which one block waits for the others.
///
/// A pause says to try again where a call changed something since one last answered, or since the gate was
/// made, while the block didn't wait; a call of its own counts too. Else the block waits for a change of the port
/// or set that it waits on, or for any change where it waits in sending. The pause says to give up where none can
/// come: each block that has not ended waits too. A block ends when its gate is dropped.
pub struct BlockGate<'a, R: Wait> {
    rt: &'a R,
    hall: &'a Hall,
    place: usize,
    seen: u64,
    parker: Parker,
}

impl<'a, R: Wait> BlockGate<'a, R> {
    /// Whether to try again at once; `None` where there is to be a change first, of what the block waits on.
    fn begin(&mut self, on: Option<Waited>) -> Option<bool> {
        let mut guests = self.hall.guests.lock(self.rt);
        let again = guests.begin(self.place, self.seen, on);
        self.seen = guests.changes;
        again
    }

    /// Whether to try again, where the block was rung for; `None` where it is to sleep on.
    fn answer(&mut self) -> Option<bool> {
        let mut guests = self.hall.guests.lock(self.rt);
        self.seen = guests.changes;
        guests.answer(self.place)
    }
}

impl<'a, R: Wait> Gate for BlockGate<'a, R> {
    fn pause(&mut self, turn: u32) -> bool {
        self.pause_for(turn, None)
    }

    fn pause_for(&mut self, _turn: u32, on: Option<Waited>) -> bool {
        if let Some(again) = self.begin(on) {
            return again;
        }
        for _ in self.rt.forever() {
            self.parker.park(self.rt);
            if let Some(again) = self.answer() {
                return again;
            }
        }
        unreachable!()
    }

    #[inline(always)]
    fn stepped(&mut self, changed: bool) {
        if changed {
            self.stepped_at(&Touched::All);
        }
    }

    #[inline(always)]
    fn stepped_at(&mut self, touched: &Touched) {
        self.hall.guests.lock(self.rt).change(touched);
    }
}

impl<'a, R: Wait> Drop for BlockGate<'a, R> {
    fn drop(self) {
        let Self {
            rt,
            hall,
            place,
            seen: _,
            parker,
        } = self;
        drop(parker);
        hall.guests.lock(rt).leave(place);
    }
}
