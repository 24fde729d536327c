//! Tasks, names, ports and port sets by number.
ghost use Rattle.std.specs.Prelude.{◌≡◌, ◌≢◌, ℕ, ◌↔◌, IsTrue};
ghost use Rattle.mach_types.specs.Numbers.{null_word, dead_word};

use std::marker::Model;

/// A task's number: tasks are numbered from 0 in the order of their creation, and an ended task's
/// number is not used again.
#[derive(Clone, Copy, Debug, PartialEq, Eq)]
pub struct TaskId(u32);

impl Model for TaskId {
    ghost Value = { ℕ };

    ghost view = { λ a. a.0 };

    ghost inverse = { λ n. record { 0 = n } };
}

impl TaskId {
    /// The task of this number.
    pub fn new(number: u32) -> TaskId
        ensures { result ≡ number }
    {
        TaskId(number)
    }

    /// Its number.
    pub fn number(self) -> u32
        ensures { result ≡ self }
    {
        self.0
    }
}

/// A number by which a task names a right (Port Manipulation Interface, `mach_port_t`).
///
/// Any 32-bit number can stand here. Two of them are never names of rights: [`Name::NULL`] and
/// [`Name::DEAD`]. The default is the null name.
#[derive(Clone, Copy, Debug, Default, PartialEq, Eq)]
pub struct Name(u32);

impl Model for Name {
    ghost Value = { ℕ };

    ghost view = { λ a. a.0 };

    ghost inverse = { λ n. record { 0 = n } };
}

impl Name {
    /// The name of this number.
    pub fn new(number: u32) -> Name
        ensures { result ≡ number }
    {
        Name(number)
    }

    /// `MACH_PORT_NULL`: no right.
    pub fn null() -> Name
        ensures { result ≡ null_word }
    {
        Name(0)
    }

    /// `MACH_PORT_DEAD`: a right whose port is dead.
    pub fn dead() -> Name
        ensures { result ≡ dead_word }
    {
        Name(0xffff_ffff)
    }

    /// Its number.
    pub fn number(self) -> u32
        ensures { result ≡ self }
    {
        self.0
    }

    /// Returns whether a right may stand under this number.
    pub fn is_usable(self) -> bool
        ensures { IsTrue result ↔ ((self ≢ null_word) × (self ≢ dead_word)) }
    {
        self.0 != 0 && self.0 != 0xffff_ffff
    }
}

/// A port's identity: ports are numbered from 0 in the order of their allocation, and an identity is
/// never used again. No task sees it but in the answer to a receive that found no message.
#[derive(Clone, Copy, Debug, PartialEq, Eq)]
pub struct PortId(u64);

impl Model for PortId {
    ghost Value = { ℕ };

    ghost view = { λ a. a.0 };

    ghost inverse = { λ n. record { 0 = n } };
}

impl PortId {
    /// The port of this number.
    pub fn new(number: u64) -> PortId
        ensures { result ≡ number }
    {
        PortId(number)
    }

    /// Its number.
    pub fn number(self) -> u64
        ensures { result ≡ self }
    {
        self.0
    }
}

/// A port set's identity: numbered like ports, on their own count.
#[derive(Clone, Copy, Debug, PartialEq, Eq)]
pub struct SetId(u64);

impl Model for SetId {
    ghost Value = { ℕ };

    ghost view = { λ a. a.0 };

    ghost inverse = { λ n. record { 0 = n } };
}

impl SetId {
    /// The set of this number.
    pub fn new(number: u64) -> SetId
        ensures { result ≡ number }
    {
        SetId(number)
    }

    /// Its number.
    pub fn number(self) -> u64
        ensures { result ≡ self }
    {
        self.0
    }
}
