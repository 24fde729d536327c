//! One call by a handle, and the answers that are a code or a number.
ghost use Rattle.std.specs.Prelude.{◌≡◌, ◌≢◌, ℕ, None, Some, MatchOption};
ghost use Rattle.kernel_record.specs.declared.recorded.LastCall.TheVariants.{NotKept};
ghost use Rattle.gelvonds_c_base.specs.Codes.{signed};
ghost use Rattle.gelvonds_c.specs.Calls.{Calls, Asks, Tells, number_or, code_for, unmade};

use crate::handle::Handle;
use gelvonds_c_base::codes::{NO_ANSWER, NO_KERNEL, SUCCESS};
use kernel_record::RecordedKernel;
use mach_types::{Event, MsgReturn, Reply};
use std::alloc::Global;

/// Makes the call by the kernel that the handle holds, and returns its reply; `None` where it holds none.
///
/// The handle holds the same kernel after it. Takes no memory but what the kernel takes.
pub fn call(alloc: Global, handle: &mut Handle, event: &Event) -> Option<Reply>
    ensures { Calls handle.old.kernel event.now result handle.new.kernel }
{
    match handle.take(alloc) {
        Some(kernel) => Some(step(alloc, handle, kernel, event)),
        None => None,
    }
}

/// Makes the call by this kernel, puts it into a handle that holds none, and returns the reply.
///
/// The kit drops the hint to inline from a function that would grow very large. With this one in line in it, a function
/// is as large as one can be: so it is called by functions that aren't inlined themselves.
#[inline(always)]
pub fn step(alloc: Global, handle: &mut Handle, kernel: Box<RecordedKernel>, event: &Event) -> Reply
    requires empty { handle.old.kernel ≡ None }
    ensures { Calls (Some kernel.value) event.now (Some result) handle.new.kernel }
{
    if kernel.keeps_calls() {
        step_kept(alloc, handle, kernel, event)
    } else {
        step_unkept(handle, kernel, event)
    }
}

/// The same, where the kernel doesn't keep its calls.
#[inline(always)]
pub fn step_unkept(handle: &mut Handle, mut kernel: Box<RecordedKernel>, event: &Event) -> Reply
    requires empty { handle.old.kernel ≡ None }
    requires not_kept { kernel.value.last ≡ NotKept }
    ensures { Calls (Some kernel.value) event.now (Some result) handle.new.kernel }
{
    let reply = kernel.step(event);
    handle.put(kernel);
    reply
}

/// The same, where it does.
#[cold]
#[inline(never)]
pub fn step_kept(
    alloc: Global,
    handle: &mut Handle,
    mut kernel: Box<RecordedKernel>,
    event: &Event,
) -> Reply
    requires empty { handle.old.kernel ≡ None }
    requires keeps { kernel.value.last ≢ NotKept }
    ensures { Calls (Some kernel.value) event.now (Some result) handle.new.kernel }
{
    let reply = kernel.step_kept(alloc, event);
    handle.put(kernel);
    reply
}

/// Tells the record that the call was not made: where calls are kept, nothing is kept of this one.
#[cold]
pub fn miss(alloc: Global, handle: &mut Handle)
    ensures { handle.new.kernel ≡ unmade handle.old.kernel }
{
    if let Some(mut kernel) = handle.take(alloc) {
        kernel.miss_call();
        handle.put(kernel);
    }
}

/// Makes a call that returns a code.
pub fn code(alloc: Global, handle: &mut Handle, event: &Event) -> i32
    ensures { Asks handle.old.kernel event.now result handle.new.kernel }
{
    match handle.take(alloc) {
        Some(kernel) => code_of(&Some(step(alloc, handle, kernel, event))),
        None => NO_KERNEL,
    }
}

/// Makes a call that returns a number, and writes that, where it isn't refused.
pub fn number(alloc: Global, handle: &mut Handle, event: &Event, out: &mut u32) -> i32
    ensures { Tells handle.old.kernel event.now result handle.new.kernel out.old out.new }
{
    match handle.take(alloc) {
        Some(kernel) => put_number(&Some(step(alloc, handle, kernel, event)), out),
        None => NO_KERNEL,
    }
}

/// Writes the number of an answer that is one, and returns the code.
fn put_number(reply: &Option<Reply>, out: &mut u32) -> i32
    ensures code { result ≡ signed (code_for reply.now) }
    ensures number { out.new ≡ number_or reply.now out.old }
{
    if let Some(number) = number_of(reply) {
        *out = number;
    }
    code_of(reply)
}

/// The code of an answer: of a refusal, of a receive that got no message, or that of success.
pub fn code_of(reply: &Option<Reply>) -> i32
    ensures { result ≡ signed (code_for reply.now) }
{
    match reply {
        Some(Reply::Code(code)) => code.cast_signed(),
        Some(Reply::Empty(_)) => MsgReturn::ReceiveTimedOut.number().cast_signed(),
        Some(Reply::TooLarge(_)) => MsgReturn::ReceiveTooLarge.number().cast_signed(),
        Some(Reply::NoRecord) => NO_ANSWER,
        Some(_) => SUCCESS,
        None => NO_KERNEL,
    }
}

/// The number of an answer that is one: a task, a name (of the right that a request kept before, too), a
/// count of references or a type.
fn number_of(reply: &Option<Reply>) -> Option<u32>
    ensures { MatchOption result ((other : ℕ) → number_or reply.now other ≡ other) (λ number. (other : ℕ) → number_or reply.now other ≡ number) }
{
    match reply {
        Some(Reply::Task(task)) => Some(task.number()),
        Some(Reply::Name(name) | Reply::Previous(name)) => Some(name.number()),
        Some(Reply::Refs(number) | Reply::NameType(number)) => Some(*number),
        _ => None,
    }
}
