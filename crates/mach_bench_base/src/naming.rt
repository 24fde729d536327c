//! The profile of the kernel: how fresh names are made, and which names workloads have for that.
use kernel_core::Kernel;
use mach_types::Profile;
use std::alloc::Global;

/// How many names have the same index where names have a generation.
const NAMES_OF_INDEX: u32 = 256;

/// How the kernel makes fresh names, and in how many sets a port may be.
#[derive(Clone, Copy)]
pub enum Naming {
    /// The least unused name: profile 1.
    Plain,
    /// The least unused index with its generation: profile 2.
    Tagged,
    /// The same, and a port may be in several sets: profile 3.
    Several,
}

impl Naming {
    /// An empty kernel of this profile. Takes no memory.
    pub(crate) fn kernel(self, alloc: Global) -> Kernel {
        match self {
            Naming::Plain => Kernel::new(alloc),
            Naming::Tagged => Kernel::with_profile(alloc, Profile::Two),
            Naming::Several => Kernel::with_profile(alloc, Profile::Three),
        }
    }

    /// The name that is the first fresh one of this index.
    pub(crate) fn first_name(self, index: u32) -> u32 {
        match self {
            Naming::Plain => index,
            Naming::Tagged | Naming::Several => index.wrapping_mul(NAMES_OF_INDEX),
        }
    }
}
