//! Calls that send and receive.
ghost use Rattle.std.specs.Prelude.{◌≡◌, ◌≢◌, ◌⊎◌, ◌++◌, MatchOption, None, Some, drop, length, min, if◌then◌else◌, nat_lt};
ghost use Rattle.mach_types.specs.declared.calls.Event.TheVariants.{Receive, ReceiveAgain};
ghost use Rattle.mach_types.specs.declared.calls.Waited.{Waited};
ghost use Rattle.mach_types.specs.declared.codes.MsgReturn.TheVariants.{SendNoBuffer};
ghost use Rattle.mach_types.specs.Codes.{msg_number};
ghost use Rattle.gelvonds_c_base.specs.Answers.{IsWaited, IsNoKind, c_waited};
ghost use Rattle.gelvonds_c_base.specs.Codes.{no_answer, no_waited, signed};
ghost use Rattle.kernel_record.specs.declared.recorded.LastCall.TheVariants.{NotKept};
ghost use Rattle.gelvonds_c.specs.Calls.{SendsBytes, Receives, bytes_in, code_for, length_or, received_into, unmade, waited_or};

use crate::call::{code_of, miss, step_kept, step_unkept};
use crate::handle::Handle;
use gelvonds_c_base::codes::{NO_KERNEL, NO_WAITED};
use gelvonds_c_base::{WaitedFor, put_bytes, room_of, waited_before, waited_for};
use kernel_record::RecordedKernel;
use mach_types::{Bytes, Event, MsgReturn, Name, Reply, TaskId};
use std::alloc::Global;

/// `mach_msg` with `MACH_SEND_MSG`, that doesn't wait.
#[unsafe(no_mangle)]
pub extern "C" fn gelvonds_send(alloc: Global, handle: &mut Handle, task: u32, bytes: &[u8]) -> i32
    ensures { SendsBytes handle.old.kernel task bytes.now result handle.new.kernel }
{
    let Some(kernel) = handle.take(alloc) else {
        return NO_KERNEL;
    };
    if kernel.keeps_calls() {
        return send_kept(alloc, handle, kernel, task, bytes);
    }
    match Vec::from_slice(alloc, bytes) {
        Ok(copy) => {
            let event = Event::Send(TaskId::new(task), Bytes::from_vec(copy));
            code_of(&Some(step_unkept(handle, kernel, &event)))
        }
        Err(_) => refuse_send(handle, kernel),
    }
}

/// Sends by a kernel that keeps its calls.
///
/// The event is this function's own, so that the usual way, which lends its event to nobody, has it in registers. A
/// receipt does the same.
#[cold]
#[inline(never)]
fn send_kept(
    alloc: Global,
    handle: &mut Handle,
    kernel: Box<RecordedKernel>,
    task: u32,
    bytes: &[u8],
) -> i32
    requires empty { handle.old.kernel ≡ None }
    requires keeps { kernel.value.last ≢ NotKept }
    ensures { SendsBytes (Some kernel.value) task bytes.now result handle.new.kernel }
{
    match Vec::from_slice(alloc, bytes) {
        Ok(copy) => {
            let event = Event::Send(TaskId::new(task), Bytes::from_vec(copy));
            code_of(&Some(step_kept(alloc, handle, kernel, &event)))
        }
        Err(_) => refuse_send(handle, kernel),
    }
}

/// There is no memory for a copy of the bytes: the call isn't made.
#[cold]
#[inline(never)]
fn refuse_send(handle: &mut Handle, mut kernel: Box<RecordedKernel>) -> i32
    requires empty { handle.old.kernel ≡ None }
    ensures code { result ≡ signed (msg_number SendNoBuffer) }
    ensures kernel { handle.new.kernel ≡ unmade (Some kernel.value) }
{
    kernel.miss_call();
    handle.put(kernel);
    MsgReturn::SendNoBuffer.number().cast_signed()
}

/// `mach_msg` with `MACH_RCV_MSG`, that doesn't wait.
#[unsafe(no_mangle)]
pub extern "C" fn gelvonds_receive(
    alloc: Global,
    handle: &mut Handle,
    task: u32,
    name: u32,
    buffer: &mut [u8],
    large: bool,
    count: &mut usize,
    waited: &mut WaitedFor,
) -> i32
    ensures { Receives handle.old.kernel (Receive task name (min (length buffer.old) 4294967295) large) result handle.new.kernel buffer.old buffer.new count.old count.new waited.old waited.new }
{
    let Some(kernel) = handle.take(alloc) else {
        return NO_KERNEL;
    };
    let room = room_of(buffer.len());
    if kernel.keeps_calls() {
        let event = Event::Receive(TaskId::new(task), Name::new(name), room, large);
        let reply = Some(step_kept(alloc, handle, kernel, &event));
        return received(&reply, buffer, count, waited);
    }
    let event = Event::Receive(TaskId::new(task), Name::new(name), room, large);
    let reply = Some(step_unkept(handle, kernel, &event));
    received(&reply, buffer, count, waited)
}

/// A later try of a receive that found no message.
#[unsafe(no_mangle)]
pub extern "C" fn gelvonds_receive_again(
    alloc: Global,
    handle: &mut Handle,
    task: u32,
    buffer: &mut [u8],
    large: bool,
    count: &mut usize,
    waited: &mut WaitedFor,
) -> i32
    ensures { ((w : Waited) × IsWaited waited.old.kind waited.old.identity w × Receives handle.old.kernel (ReceiveAgain task w (min (length buffer.old) 4294967295) large) result handle.new.kernel buffer.old buffer.new count.old count.new waited.old waited.new) ⊎ IsNoKind waited.old.kind × (result ≡ signed no_waited) × (handle.new.kernel ≡ unmade handle.old.kernel) × (buffer.new ≡ buffer.old) × (count.new ≡ count.old) × (waited.new ≡ waited.old) }
{
    let Some(before) = waited_before(waited) else {
        miss(alloc, handle);
        return NO_WAITED;
    };
    let Some(kernel) = handle.take(alloc) else {
        return NO_KERNEL;
    };
    let room = room_of(buffer.len());
    if kernel.keeps_calls() {
        let event = Event::ReceiveAgain(TaskId::new(task), before, room, large);
        let reply = Some(step_kept(alloc, handle, kernel, &event));
        return received(&reply, buffer, count, waited);
    }
    let event = Event::ReceiveAgain(TaskId::new(task), before, room, large);
    let reply = Some(step_unkept(handle, kernel, &event));
    received(&reply, buffer, count, waited)
}

/// Writes what a receive answers, and returns its code.
#[inline(always)]
pub(crate) fn received(
    reply: &Option<Reply>,
    buffer: &mut [u8],
    count: &mut usize,
    waited: &mut WaitedFor,
) -> i32
    ensures code { result ≡ signed (if nat_lt (length buffer.old) (bytes_in reply.now) then no_answer else code_for reply.now) }
    ensures bytes { buffer.new ≡ received_into reply.now buffer.old }
    ensures length { count.new ≡ length_or reply.now count.old }
    ensures waited { waited.new ≡ waited_or reply.now waited.old }
{
    match reply {
        Some(Reply::Message(bytes)) => put_bytes(bytes.as_slice(), buffer, count),
        Some(Reply::Empty(found)) => {
            *waited = waited_for(found);
            code_of(reply)
        }
        Some(Reply::TooLarge(needed)) => {
            *count = *needed as usize;
            code_of(reply)
        }
        _ => code_of(reply),
    }
}
