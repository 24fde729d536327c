//! The counters of rights: how many there are of each port, and in all.
//!
//! A right is counted wherever it is, with a task, in a message or kept by a request; each user
//! reference of a send right counts as one. The counts of a port lie in its own record, and the ledger has
//! what there is in all. Neither knows of the rights themselves: who makes, moves or destroys one says so
//! to both.
#![tactic(auto)]

ghost use Rattle.std.specs.Prelude.{◌≡◌, if◌then◌else◌, true, ◌+◌, ◌-◌, ◌<◌, ◌≤◌, ◌^◌, OnOk, OnErr, MatchResult};
ghost use Rattle.mach_types.specs.Numbers.{most_rights};
ghost use Rattle.mach_types.specs.declared.codes.KernReturn.TheVariants.{NoSpace};
ghost use Rattle.rights.specs.Counts.{unused_of};

use mach_types::KernReturn;
use mach_types::limits::MOST_RIGHTS;

/// A right as the ledger counts it.
#[derive(Clone, Copy, Debug, PartialEq, Eq)]
pub enum RightKind {
    /// A receive right.
    Receive,
    /// A send right.
    Send,
    /// A send-once right to which no queued message was sent: with a task, in a message's body or kept by a
    /// request. It may still pay for a notice.
    SendOnce,
    /// A send-once right to which a queued message was sent.
    Destination,
}

/// How many rights a port has, wherever they are.
#[derive(Clone, Copy, Debug, PartialEq, Eq)]
pub struct Counts {
    /// Receive rights.
    pub receive: u32,
    /// Send rights.
    pub send: u32,
    /// Send-once rights to which no queued message was sent.
    pub send_once: u32,
    /// Send-once rights to which queued messages were sent.
    pub destination: u32,
}

impl Counts {
    ghost use Rattle.rights.specs.Counts.{no_rights, number_of, with_more, with_fewer, one_shifted, all_of};
    ghost use Rattle.rights.specs.declared.RightKind.TheVariants.{Receive};

    /// Those of a new port: its receive right.
    pub fn first() -> Counts
        ensures { result ≡ with_more Receive 1 no_rights }
    {
        Counts {
            receive: 1,
            send: 0,
            send_once: 0,
            destination: 0,
        }
    }

    /// Counts new rights.
    pub fn add(&mut self, kind: RightKind, number: u32)
        requires { all_of self.old + number < 2 ^ 32 }
        ensures value { self.new ≡ with_more kind number self.old }
        ensures all { all_of self.new ≡ all_of self.old + number }
        ensures once { self.new.send_once ≡ self.old.send_once + unused_of kind number }
    {
        match kind {
            RightKind::Receive => self.receive += number,
            RightKind::Send => self.send += number,
            RightKind::SendOnce => self.send_once += number,
            RightKind::Destination => self.destination += number,
        }
    }

    /// Counts rights as gone.
    #[inline(always)]
    pub fn subtract(&mut self, kind: RightKind, number: u32)
        requires { number ≤ number_of kind self.old }
        ensures value { self.new ≡ with_fewer kind number self.old }
        ensures all { all_of self.new + number ≡ all_of self.old }
        ensures once { self.new.send_once + unused_of kind number ≡ self.old.send_once }
    {
        match kind {
            RightKind::Receive => self.receive -= number,
            RightKind::Send => self.send -= number,
            RightKind::SendOnce => self.send_once -= number,
            RightKind::Destination => self.destination -= number,
        }
    }

    /// Counts a send-once right as one to which a queued message was sent.
    pub fn shift(&mut self)
        requires some { 0 < self.old.send_once }
        requires fits { all_of self.old < 2 ^ 32 }
        ensures value { self.new ≡ one_shifted self.old }
        ensures all { all_of self.new ≡ all_of self.old }
        ensures once { self.new.send_once + 1 ≡ self.old.send_once }
    {
        self.send_once -= 1;
        self.destination += 1;
    }

    /// Counts a send-once right as one to which a queued message was sent, if one was.
    #[inline(always)]
    pub fn shift_if(&mut self, once: bool)
        requires some { once ≡ true → 0 < self.old.send_once }
        requires fits { all_of self.old < 2 ^ 32 }
        ensures { self.new ≡ (if once then one_shifted self.old else self.old) }
    {
        if once {
            self.shift();
        }
    }
}

// How many of these rights are send-once rights that no queued message goes by.
fn unused_of(kind: RightKind, number: u32) -> u32
    ensures { result ≡ unused_of kind number }
{
    match kind {
        RightKind::SendOnce => number,
        RightKind::Receive | RightKind::Send | RightKind::Destination => 0,
    }
}

/// How many rights there are in all, and how many send-once rights to which no queued message was sent.
#[derive(Clone, Copy, Debug, PartialEq, Eq)]
pub struct Ledger {
    /// All rights.
    pub total: u32,
    /// The send-once rights to which no queued message was sent.
    pub unused: u32,
}

impl Ledger {
    ghost use Rattle.rights.specs.Counts.{all_of};

    /// A ledger of no rights.
    pub fn new() -> Ledger
        ensures { result ≡ record { total = 0; unused = 0 } }
    {
        Ledger {
            total: 0,
            unused: 0,
        }
    }

    /// Counts a right for which there is room, and which is no send-once right: a new port's receive right, or
    /// a send right.
    pub fn count_one(&mut self)
        requires { self.old.total < most_rights }
        ensures { self.new ≡ record self.old { total = self.old.total + 1 } }
    {
        self.total += 1;
    }

    /// Counts all rights of a port as gone.
    #[inline(always)]
    pub fn leave(&mut self, counts: Counts)
        requires all { all_of counts ≤ self.old.total }
        requires once { counts.send_once ≤ self.old.unused }
        ensures { self.new ≡ record { total = self.old.total - all_of counts; unused = self.old.unused - counts.send_once } }
    {
        self.total -= counts.receive + counts.send + counts.send_once + counts.destination;
        self.unused -= counts.send_once;
    }

    /// Counts new rights.
    ///
    /// `KERN_NO_SPACE` where there would be more than 4,294,967,295 rights in all, and only then; the
    /// ledger is then as before.
    #[inline(always)]
    pub fn make(&mut self, kind: RightKind, number: u32) -> Result<(), KernReturn>
        requires { self.old.unused ≤ self.old.total }
        ensures refused { MatchResult result (λ _. self.old.total + number ≤ most_rights) (λ code. (code ≡ NoSpace) × (most_rights < self.old.total + number)) }
        ensures ok { OnOk result (self.new ≡ record { total = self.old.total + number; unused = self.old.unused + unused_of kind number }) }
        ensures err { OnErr result (self.new ≡ self.old) }
    {
        if number > MOST_RIGHTS - self.total {
            return Err(KernReturn::NoSpace);
        }
        self.total += number;
        self.unused += unused_of(kind, number);
        Ok(())
    }

    /// Counts rights as gone.
    #[inline(always)]
    pub fn take(&mut self, kind: RightKind, number: u32)
        requires all { number ≤ self.old.total }
        requires once { unused_of kind number ≤ self.old.unused }
        ensures { self.new ≡ record { total = self.old.total - number; unused = self.old.unused - unused_of kind number } }
    {
        self.total -= number;
        self.unused -= unused_of(kind, number);
    }

    /// Counts a send-once right as one to which a queued message was sent.
    pub fn shift(&mut self)
        requires { 0 < self.old.unused }
        ensures { self.new ≡ record self.old { unused = self.old.unused - 1 } }
    {
        self.unused -= 1;
    }

    /// Counts a send-once right as one to which a queued message was sent, if one was.
    #[inline(always)]
    pub fn shift_if(&mut self, once: bool)
        requires { once ≡ true → 0 < self.old.unused }
        ensures { self.new ≡ (if once then record self.old { unused = self.old.unused - 1 } else self.old) }
    {
        if once {
            self.shift();
        }
    }
}
