//! Which ports and sets the last call may have changed.
ghost use Rattle.gelvonds_c.specs.Touching.{TellsTouched};

use crate::handle::Handle;
use gelvonds_c_base::codes::{NO_KERNEL, SUCCESS};
use gelvonds_c_base::{TouchedPlaces, places};
use std::alloc::Global;

/// Writes which ports and sets the kernel's last call may have changed, as `Kernel::touched` tells.
///
/// Where the handle holds no kernel the code says so, and nothing is written. No call is made, and the kernel
/// stays. Takes no memory. Constant time, and logarithmic for a name above 65,535 of the last call.
#[unsafe(no_mangle)]
pub extern "C" fn gelvonds_touched(
    alloc: Global,
    handle: &mut Handle,
    touched: &mut TouchedPlaces,
) -> i32
    ensures { TellsTouched handle.old.kernel result handle.new.kernel touched.old touched.new }
{
    let Some(kernel) = handle.take(alloc) else {
        return NO_KERNEL;
    };
    *touched = places(&kernel.touched());
    handle.put(kernel);
    SUCCESS
}
