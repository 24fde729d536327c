//! User references: how many references a name has to a send right, or as a dead name.
//!
//! A count is 1 to 65,535: a name whose last reference goes is no longer a name, so there is no count
//! of 0. Nothing here takes memory, and each operation takes constant time.
#![tactic(auto)]

ghost use Rattle.std.specs.Prelude.{◌≡◌, ℕ, ◌+◌, ◌<◌, ◌≤◌, ◌^◌, min, MatchOption, MatchResult, SomeIff};
ghost use Rattle.mach_types.specs.Numbers.{most_references};
ghost use Rattle.mach_types.specs.declared.codes.KernReturn.TheVariants.{UrefsOverflow};

use mach_types::KernReturn;
use mach_types::limits::MOST_REFERENCES;
use std::marker::Model;

/// The user references under one name (Port Manipulation Interface, `mach_port_get_refs`): 1 to 65,535.
#[derive(Clone, Copy, Debug, PartialEq, Eq)]
pub struct UserRefs(u32);

impl Model for UserRefs {
    ghost use Rattle.std.specs.Prelude.{ℕ, ◌<◌, ◌≤◌};
    ghost use Rattle.mach_types.specs.Numbers.{most_references};

    ghost Value = { ℕ };

    ghost view = { λ a. a.0 };

    ghost invariant = { λ a. (0 < a.0) × (a.0 ≤ most_references) };

    ghost inverse = { λ n. record { 0 = n } };
}

impl UserRefs {
    /// One reference.
    pub fn one() -> UserRefs
        ensures { result ≡ 1 }
    {
        UserRefs(1)
    }

    /// So many references, or `None` where no name can have so many: at 0, and above 65,535.
    pub fn new(count: u32) -> Option<UserRefs>
        ensures { SomeIff result ((0 < count) × (count ≤ most_references)) count }
    {
        if count == 0 || count > MOST_REFERENCES {
            return None;
        }
        Some(UserRefs(count))
    }

    /// How many, 1 to 65,535.
    pub fn count(self) -> u32
        ensures value { result ≡ self }
        ensures some { 0 < result }
        ensures few { result ≤ most_references }
    {
        self.0
    }

    /// So many more references.
    ///
    /// `KERN_UREFS_OVERFLOW` where the sum would be above 65,535, and only then.
    pub fn add(self, more: u32) -> Result<UserRefs, KernReturn>
        ensures { MatchResult result (λ sum. (sum ≡ self + more) × (sum ≤ most_references)) (λ code. (code ≡ UrefsOverflow) × (most_references < self + more)) }
    {
        if more > MOST_REFERENCES - self.0 {
            return Err(KernReturn::UrefsOverflow);
        }
        Ok(UserRefs(self.0 + more))
    }

    /// So many more references, but no more than 65,535 in all: what a send right received at 65,535
    /// references leaves.
    pub fn add_pegged(self, more: u32) -> UserRefs
        ensures { result ≡ min (self + more) most_references }
    {
        UserRefs(self.0 + more.min(MOST_REFERENCES - self.0))
    }

    /// So many references less, or `None` where none is left: where `fewer` is the count or above it.
    ///
    /// A caller for whom more than there are is a fault compares with [`UserRefs::count`] first.
    pub fn sub(self, fewer: u32) -> Option<UserRefs>
        ensures { MatchOption result (self ≤ fewer) (λ rest. rest + fewer ≡ self) }
    {
        if fewer >= self.0 {
            return None;
        }
        Some(UserRefs(self.0 - fewer))
    }
}
