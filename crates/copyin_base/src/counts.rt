//! How many rights there are, and rights that are made and go.
ghost use Rattle.std.specs.Prelude.{◌≡◌, ◌+◌, ◌<◌, ◌≤◌, None, IfOk, MatchResult, OnErr, OnOk};
ghost use Rattle.std.specs.FinMap as map;
ghost use Rattle.mach_types.specs.Numbers.{most_rights};
ghost use Rattle.mach_types.specs.declared.codes.KernReturn.TheVariants.{NoSpace};
ghost use Rattle.rights.specs.Counts.{number_of};
ghost use Rattle.rights.specs.Ledger.{IsEntered, counts_of, made, taken};
ghost use Rattle.copyin_base.specs.Coming.{HasRoomForPort, with_new_port};

use crate::world::World;
use mach_types::{KernReturn, PortId, TaskId};
use port::Found;
use rights::{Counts, RightKind};
use std::alloc::AllocError;

impl World {
    /// How many rights of each kind a port has, if it has counts. Constant time.
    #[inline(always)]
    pub fn counts(&self, port: PortId) -> Option<Counts>
        ensures { result ≡ map.get self.now.ledger.counts port }
    {
        self.ports.counts(port)
    }

    /// How many rights there are in all, at most 4,294,967,295. Constant time.
    #[inline(always)]
    pub fn total_rights(&self) -> u32
        ensures { result ≡ self.now.ledger.total }
    {
        self.ledger.total
    }

    /// Counts new rights of a port. Takes no memory. Constant time.
    ///
    /// `KERN_NO_SPACE` where there would be more than 4,294,967,295 rights in all, and only then; all is then
    /// as before.
    #[inline(always)]
    pub fn make_rights(
        &mut self,
        found: Found,
        kind: RightKind,
        number: u32,
    ) -> Result<(), KernReturn>
        requires { IsEntered self.old.ledger found.port }
        ensures refused { MatchResult result (λ _. self.old.ledger.total + number ≤ most_rights) (λ code. (code ≡ NoSpace) × (most_rights < self.old.ledger.total + number)) }
        ensures ok { OnOk result (self.new ≡ record self.old { ledger = made self.old.ledger found.port kind number }) }
        ensures err { OnErr result (self.new ≡ self.old) }
    {
        self.ledger.make(kind, number)?;
        self.ports.add_rights(found, kind, number);
        Ok(())
    }

    /// Counts rights of a port as gone. Takes no memory. Constant time.
    #[inline(always)]
    pub fn take_rights(&mut self, port: PortId, kind: RightKind, number: u32)
        requires entered { IsEntered self.old.ledger port }
        requires there { number ≤ number_of kind (counts_of self.old.ledger port) }
        ensures { self.new ≡ record self.old { ledger = taken self.old.ledger port kind number } }
    {
        self.ledger.take(kind, number);
        self.ports.take_rights(port, kind, number);
    }

    /// Makes a port and its receive right, which the task holds and no name is for yet. Constant time, but
    /// where tables move to a larger place.
    ///
    /// An error means that memory was refused; all is then as before.
    pub fn create_port(&mut self, task: TaskId) -> Result<PortId, AllocError>
        requires room { HasRoomForPort self.old }
        requires unknown { map.get self.old.ledger.counts self.old.ports.made ≡ None }
        ensures ok { IfOk result (λ port. (port ≡ self.old.ports.made) × (self.new ≡ with_new_port self.old task)) }
        ensures err { OnErr result (self.new ≡ self.old) }
    {
        let port = self.ports.allocate(task)?;
        self.ledger.count_one();
        Ok(port)
    }
}
