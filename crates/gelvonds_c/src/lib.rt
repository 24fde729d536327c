//! The kernel for C: `include/gelvonds.h` has the C side of each function here, and says which codes come.
//!
//! C holds a handle (`handle`), and each function makes one call of `Kernel::step` by it (`call`): the
//! event is made of the arguments, and what the kernel answers is written through the pointers and
//! answered as a code. `specs/Held` says what a handle owns, `specs/Calls` what a call by one does.
#![tactic(auto)]

ghost use Rattle.std.specs.Prelude.{◌≡◌, IfSome, None, Some};
ghost use Rattle.mach_types.specs.declared.profiles.Profile.TheVariants.{One};
ghost use Rattle.mach_model.specs.State.{opening_in};
ghost use Rattle.copyin_base.specs.Shows.{Shows};
ghost use Rattle.kernel_record.specs.declared.recorded.LastCall.TheVariants.{NotKept};
ghost use Rattle.gelvonds_c_base.specs.Profiles.{profile_numbered};
ghost use Rattle.gelvonds_c.specs.Making.{Makes, TellsProfile};

mod call;
mod checking;
mod entries;
mod handle;
mod identities;
mod messages;
mod names;
mod notices;
mod parts;
mod receive_rights;
mod sets;
mod texts;
mod touched;
mod transfers;
mod tries;

use crate::handle::Handle;
use gelvonds_c_base::codes::{IN_USE, NO_KERNEL, SUCCESS};
use gelvonds_c_base::{number_of, profile_of};
use kernel_record::RecordedKernel;
use mach_types::{KernReturn, Profile};
use std::alloc::Global;

/// Makes a kernel of the first profile in which nothing was made yet, where the handle holds none.
#[unsafe(no_mangle)]
pub extern "C" fn gelvonds_make(alloc: Global, handle: &mut Handle) -> i32
    ensures { Makes (Some One) handle.old.kernel result handle.new.kernel }
{
    make(alloc, handle, Some(Profile::One))
}

/// Makes a kernel of the profile of this number, 1 to 3, in which nothing was made yet, where the handle holds none.
#[unsafe(no_mangle)]
pub extern "C" fn gelvonds_make_with_profile(
    alloc: Global,
    handle: &mut Handle,
    profile: u32,
) -> i32
    ensures { Makes (profile_numbered profile) handle.old.kernel result handle.new.kernel }
{
    make(alloc, handle, profile_of(profile))
}

/// Writes the number of the kernel's profile, 1 to 3.
///
/// Where the handle holds no kernel the code says so, and nothing is written. No call is made, and the kernel
/// stays. Takes no memory. Constant time.
#[unsafe(no_mangle)]
pub extern "C" fn gelvonds_profile(alloc: Global, handle: &mut Handle, profile: &mut u32) -> i32
    ensures { TellsProfile handle.old.kernel result handle.new.kernel profile.old profile.new }
{
    let Some(kernel) = handle.take(alloc) else {
        return NO_KERNEL;
    };
    *profile = number_of(kernel.tables().profile());
    handle.put(kernel);
    SUCCESS
}

/// Ends the kernel, if there is one: its memory is given back, and the handle holds none.
#[unsafe(no_mangle)]
pub extern "C" fn gelvonds_free(alloc: Global, handle: &mut Handle)
    ensures { handle.new.kernel ≡ None }
{
    drop(handle.take(alloc));
}

/// Makes a kernel, and returns the code for C; where the handle holds one that stays, and `None` makes none.
fn make(alloc: Global, handle: &mut Handle, profile: Option<Profile>) -> i32
    ensures { Makes profile handle.old.kernel result handle.new.kernel }
{
    if let Some(kernel) = handle.take(alloc) {
        handle.put(kernel);
        return IN_USE;
    }
    let Some(profile) = profile else {
        return KernReturn::InvalidArgument.number().cast_signed();
    };
    match new_kernel(alloc, profile) {
        Some(kernel) => {
            handle.put(kernel);
            SUCCESS
        }
        None => KernReturn::ResourceShortage.number().cast_signed(),
    }
}

/// A kernel of this profile, in which nothing was made yet; `None` where memory is refused.
fn new_kernel(alloc: Global, profile: Profile) -> Option<Box<RecordedKernel>>
    ensures shows { IfSome result (λ kernel. Shows kernel.value.kernel.tables (opening_in profile)) }
    ensures last { IfSome result (λ kernel. kernel.value.last ≡ NotKept) }
{
    Box::new(alloc, RecordedKernel::new(alloc, profile)).ok()
}
