//! Mach's `mach_msg` as tries, for callers who wait by themselves.
//!
//! A static library neither sleeps nor locks. So each function makes one try at most, and leaves in the caller's
//! [`MessageCall`] which try comes next. They are the tries of `mach_msg` of the crate `mach_msg_threads`, which waits
//! itself.
ghost use Rattle.std.specs.Prelude.{◌≡◌};
ghost use Rattle.gelvonds_c_base.specs.MessageCalls.{AreOptions, ahead, done, nowhere, opened, told};
ghost use Rattle.gelvonds_c.specs.Calls.{unmade};
ghost use Rattle.gelvonds_c.specs.Trying.{Begins, GoesOn, Sends, TriesToReceive, TriesToSend, destination_at, sent_code};

use crate::call::{call, miss};
use crate::handle::Handle;
use crate::identities::gelvonds_port_identity;
use crate::messages::received;
use gelvonds_c_base::codes::{NO_ANSWER, NO_KERNEL, NO_MSG, SUCCESS};
use gelvonds_c_base::{MessageCall, NOWHERE, WaitedFor, room_of, waited_for};
use mach_types::{Bytes, Event, KernReturn, MsgReturn, Reply, TaskId};
use std::alloc::Global;
use type_descriptor::read_word;

/// Begins `mach_msg`, and makes its first try: a send that is asked for, or else a receipt that is.
///
/// The code is that of the try, and `msg` says which one comes next, or that none does. `KERN_INVALID_ARGUMENT` where
/// an option is none: no try is made then, and the call has ended. With neither `MACH_SEND_MSG` nor `MACH_RCV_MSG` it
/// has ended with 0. Takes the memory of the bytes' copy, and what the kernel takes. Costs what the try does, and a
/// look-up where the queue is full.
#[unsafe(no_mangle)]
pub extern "C" fn gelvonds_msg_begin(
    alloc: Global,
    handle: &mut Handle,
    msg: &mut MessageCall,
    task: u32,
    options: u32,
    bytes: &[u8],
    buffer: &mut [u8],
    name: u32,
) -> i32
    ensures { Begins handle.old.kernel (opened task name (told options)) bytes.now result handle.new.kernel msg.new buffer.old buffer.new }
{
    *msg = MessageCall::opened(task, name, options);
    if !msg.has_lawful_options() {
        let code = KernReturn::InvalidArgument.number().cast_signed();
        return end(alloc, handle, msg, code);
    }
    if msg.has_ended() {
        return end(alloc, handle, msg, SUCCESS);
    }
    go_on(alloc, handle, msg, bytes, buffer)
}

/// Goes on with a call that was begun and hasn't ended: makes its next try, with the same bytes and buffer.
///
/// The code is that of the try. `GELVONDS_NO_MSG` where `msg` has no try to come, or an option that is none: no try is
/// made then, and `msg` says that the call has ended. Memory and cost are those of `gelvonds_msg_begin`.
#[unsafe(no_mangle)]
pub extern "C" fn gelvonds_msg_next(
    alloc: Global,
    handle: &mut Handle,
    msg: &mut MessageCall,
    bytes: &[u8],
    buffer: &mut [u8],
) -> i32
    ensures { GoesOn handle.old.kernel msg.old bytes.now result handle.new.kernel msg.new buffer.old buffer.new }
{
    if !msg.has_lawful_options() {
        return end(alloc, handle, msg, NO_MSG);
    }
    go_on(alloc, handle, msg, bytes, buffer)
}

/// Makes the next try.
fn go_on(
    alloc: Global,
    handle: &mut Handle,
    msg: &mut MessageCall,
    bytes: &[u8],
    buffer: &mut [u8],
) -> i32
    requires { AreOptions msg.old.options }
    ensures { GoesOn handle.old.kernel msg.old bytes.now result handle.new.kernel msg.new buffer.old buffer.new }
{
    if msg.is_to_send() {
        return send(alloc, handle, msg, bytes);
    }
    match msg.receipt(room_of(buffer.len())) {
        Some(event) => receive(alloc, handle, msg, &event, buffer),
        None => end(alloc, handle, msg, NO_MSG),
    }
}

/// Ends the call with this code, and without a try.
fn end(alloc: Global, handle: &mut Handle, msg: &mut MessageCall, code: i32) -> i32
    ensures code { result ≡ code }
    ensures kernel { handle.new.kernel ≡ unmade handle.old.kernel }
    ensures call { msg.new ≡ ahead msg.old done nowhere 0 }
{
    miss(alloc, handle);
    msg.end(0);
    code
}

/// Tries to send.
fn send(alloc: Global, handle: &mut Handle, msg: &mut MessageCall, bytes: &[u8]) -> i32
    ensures { TriesToSend handle.old.kernel msg.old bytes.now result handle.new.kernel msg.new }
{
    let code = sent(alloc, handle, msg.task, bytes);
    if code == MsgReturn::SendTimedOut.number() && !msg.sends_once() {
        let destination = destination(alloc, handle, msg.task, bytes);
        msg.wait_for_room(destination);
    } else if code == 0 && msg.receives() {
        msg.go_on_to_receive();
    } else {
        msg.end(0);
    }
    code.cast_signed()
}

/// Sends, and returns the code.
fn sent(alloc: Global, handle: &mut Handle, task: u32, bytes: &[u8]) -> u32
    ensures { Sends handle.old.kernel task bytes.now result handle.new.kernel }
{
    match Vec::from_slice(alloc, bytes) {
        Ok(copy) => {
            let event = Event::Send(TaskId::new(task), Bytes::from_vec(copy));
            code_sent(&call(alloc, handle, &event))
        }
        Err(_) => {
            miss(alloc, handle);
            MsgReturn::SendNoBuffer.number()
        }
    }
}

/// The code that a try to send comes to.
fn code_sent(reply: &Option<Reply>) -> u32
    ensures { result ≡ sent_code reply.now }
{
    match reply {
        Some(Reply::Code(code)) => *code,
        Some(_) => NO_ANSWER.cast_unsigned(),
        None => NO_KERNEL.cast_unsigned(),
    }
}

/// The port that the name of the message's destination is.
fn destination(alloc: Global, handle: &mut Handle, task: u32, bytes: &[u8]) -> WaitedFor
    ensures found { result ≡ destination_at handle.old.kernel task bytes.now }
    ensures kept { handle.new.kernel ≡ handle.old.kernel }
{
    let mut found = NOWHERE;
    if bytes.len() < 12 {
        return found;
    }
    gelvonds_port_identity(alloc, handle, task, read_word(bytes, 8), &mut found);
    found
}

/// Tries to receive by this event.
fn receive(
    alloc: Global,
    handle: &mut Handle,
    msg: &mut MessageCall,
    event: &Event,
    buffer: &mut [u8],
) -> i32
    ensures { TriesToReceive handle.old.kernel msg.old event.now result handle.new.kernel msg.new buffer.old buffer.new }
{
    let reply = call(alloc, handle, event);
    let mut length = 0;
    let mut waited = NOWHERE;
    let code = received(&reply, buffer, &mut length, &mut waited);
    match &reply {
        Some(Reply::Empty(found)) if !msg.receives_once() => {
            msg.wait_for_message(waited_for(found));
        }
        _ => msg.end(length),
    }
    code
}
