//! A kernel as C holds it.
ghost use Rattle.std.specs.Prelude.{◌≡◌, None, Some};
ghost use Rattle.std.specs.Option.{MatchOption};
ghost use Rattle.gelvonds_c.specs.Held.{Kept, kept_coded};

use crate::parts::Parts;
use kernel_record::RecordedKernel;
use std::alloc::Global;
use std::marker::Model;
use std::mem;
use std::ptr::null_mut;

/// The address of a kernel, or null where there is none.
///
/// C holds it, and hands out the address of this in each call.
#[repr(C)]
pub struct Handle {
    ptr: *mut u8,
    alloc: Global,
    /// The kernel with its last call, if there is one.
    pub ghost kernel: { Kept } by { kept_coded },
}

impl Model for Handle {
    ghost use Rattle.gelvonds_c.specs.Held.{held};

    ghost also_owns = { λ h. held h.alloc h.ptr h.kernel };
}

// A kernel and its last call own all that they hold, and nothing of it is counted or shared:
// `proofs/handle/Handle/TheSendSync/Send` proves that a handle may go to another thread.
unsafe impl Send for Handle {}

impl Handle {
    /// No kernel. Takes no memory.
    pub fn none(alloc: Global) -> Handle
        ensures { result.kernel ≡ None }
    {
        Handle {
            ptr: null_mut(),
            alloc,
        }
    }

    /// This kernel. Takes no memory.
    pub fn of(kernel: Box<RecordedKernel>) -> Handle
        ensures { result.kernel ≡ Some kernel.value }
    {
        Handle::of_parts(Parts::of(kernel))
    }

    /// Puts the kernel into a handle that holds none. Takes no memory.
    #[inline(always)]
    pub fn put(&mut self, kernel: Box<RecordedKernel>)
        requires empty { self.old.kernel ≡ None }
        ensures { self.new.kernel ≡ Some kernel.value }
    {
        // Nothing is lost: the handle that goes holds none, and has nothing to give back.
        mem::forget(mem::replace(self, Handle::of(kernel)));
    }

    /// Takes the kernel out, and leaves none. Takes no memory.
    pub fn take(&mut self, alloc: Global) -> Option<Box<RecordedKernel>>
        ensures taken { MatchOption result (self.old.kernel ≡ None) (λ kernel. self.old.kernel ≡ Some kernel.value) }
        ensures left { self.new.kernel ≡ None }
    {
        match mem::replace(self, Handle::none(alloc)).into_parts() {
            Some(parts) => Some(parts.into_box()),
            None => None,
        }
    }

    fn of_parts(parts: Parts<RecordedKernel, Global>) -> Handle
        ensures { result.kernel ≡ Some parts.value }
    {
        let Parts { ptr, alloc } = parts;
        Handle {
            ptr: ptr as *mut u8,
            alloc,
        }
    }

    fn into_parts(self) -> Option<Parts<RecordedKernel, Global>>
        ensures { MatchOption result (self.kernel ≡ None) (λ parts. self.kernel ≡ Some parts.value) }
    {
        let Handle { ptr, alloc } = self;
        if ptr.is_null() {
            None
        } else {
            Some(Parts {
                ptr: ptr as *mut RecordedKernel,
                alloc,
            })
        }
    }
}

impl Drop for Handle {
    fn drop(self) {
        if let Some(parts) = self.into_parts() {
            drop(parts.into_box());
        }
    }
}
