//! The message call.
ghost use Rattle.std.specs.Prelude.{◌≡◌, ◌≤◌, ◌<◌, ◌^◌, length, min, IfSome, IfNone};
ghost use Rattle.mach_types.specs.Numbers.{most_bytes};
ghost use Rattle.kernel_core.specs.Bounds.{reply_bytes};
ghost use Rattle.mach_msg_threads.specs.Blocks.{count_received};
ghost use Rattle.mach_msg_threads.specs.ByGate.{MessageCallBy};
ghost use Rattle.mach_msg_threads.specs.Tries.{received_code, received_length, received_into, AreOptions, AsksFor, MessageCall};

use crate::gate::Gate;
use crate::tries::{Receiving, Sending, receive, send};
use bitflags::Flags;
use kernel_lock::{Pass, Shared};
use mach_types::limits::MOST_BYTES;
use mach_types::{KernReturn, MsgReturn, Name, Options, Reply, TaskId};
use std::alloc::Global;
use std::sync::Wait;

/// What a message call came to.
#[derive(Clone, Copy, Debug, PartialEq, Eq)]
pub struct Outcome {
    /// The last try's code: 0 where all was done.
    pub code: u32,
    /// How many bytes were received, or are needed where the message is too long; else 0.
    pub len: u32,
}

impl Outcome {
    // How many bytes of the buffer were received.
    pub(crate) fn received(&self) -> usize
        ensures { result ≡ count_received self.now }
    {
        if self.code == 0 { self.len as usize } else { 0 }
    }
}

/// Sends and receives (IPC Interface, `mach_msg`), waiting as long as the gate says so.
///
/// With `SEND_MSG` the bytes are sent, and nothing is received unless they were. A full queue is tried again,
/// unless `SEND_TIMEOUT` is set. With `RCV_MSG` a message is received into the buffer, of which no more than
/// 65,536 bytes count. Where there is no message it is tried again, unless `RCV_TIMEOUT` is set, from what
/// the name stood for at the first try. The gate is asked ahead of each retry, and told of each call. The
/// buffer behind the message stays as it was, and all of it does where no message was received.
///
/// `KERN_INVALID_ARGUMENT` where an option is set that isn't one of the five, with no try. With neither
/// `SEND_MSG` nor `RCV_MSG` all is done. Any other code is that of a send or of a receive.
/// `MACH_SEND_NO_BUFFER` also comes where memory for the event's copy of the bytes was refused, or a send
/// wasn't recorded. `MACH_RCV_BODY_ERROR` with `MACH_MSG_IPC_KERNEL` also comes where a receive wasn't
/// recorded.
pub fn mach_msg<G: Gate, R: Wait>(
    rt: &R,
    alloc: Global,
    shared: &Shared,
    pass: &mut Pass,
    gate: &mut G,
    task: TaskId,
    options: u32,
    bytes: &[u8],
    buf: &mut [u8],
    name: Name,
) -> Outcome
    requires { pass.old.table ≡ shared.now.table }
    ensures tied { pass.new.table ≡ shared.now.table }
    ensures call { MessageCall task options bytes.now name pass.old pass.new buf.old buf.new result.code result.len }
    ensures by_gate { MessageCallBy G.passes task options bytes.now name (min (length buf.old) most_bytes) pass.old gate.old result.code pass.new gate.new }
{
    let Some(asked) = read_options(options) else {
        return refused(KernReturn::InvalidArgument.number());
    };
    let sending = Sending {
        alloc,
        task,
        wanted: asked.send,
        once: asked.send_once,
    };
    let code = send(rt, shared, pass, gate, sending, bytes);
    if code != 0 || !asked.receive {
        return refused(code);
    }
    let receiving = Receiving {
        task,
        name,
        room: buf.len().min(MOST_BYTES) as u32,
        large: asked.large,
        once: asked.receive_once,
    };
    let reply = receive(rt, shared, pass, gate, &receiving);
    hand_over(&reply, buf)
}

// What a call's options ask for.
#[derive(Clone, Copy)]
struct Asked {
    send: bool,
    receive: bool,
    send_once: bool,
    receive_once: bool,
    large: bool,
}

// None where another option than the five is set.
fn read_options(options: u32) -> Option<Asked>
    ensures some { IfSome result (λ asked. AsksFor options asked) }
    ensures none { IfNone result (¬ (AreOptions options)) }
{
    let Some(options) = Options::from_bits(options) else {
        return None;
    };
    Some(Asked {
        send: options.contains(Options::SEND_MSG),
        receive: options.contains(Options::RCV_MSG),
        send_once: options.contains(Options::SEND_TIMEOUT),
        receive_once: options.contains(Options::RCV_TIMEOUT),
        large: options.contains(Options::RCV_LARGE),
    })
}

// Nothing was received.
fn refused(code: u32) -> Outcome
    ensures { (result.code ≡ code) × (result.len ≡ 0) }
{
    Outcome { code, len: 0 }
}

// What a receive's reply says, with the bytes received at the front of the buffer.
fn hand_over(reply: &Reply, buf: &mut [u8]) -> Outcome
    requires fits { reply_bytes reply.now ≤ length buf.old }
    requires few { reply_bytes reply.now < 2 ^ 32 }
    ensures code { result.code ≡ received_code reply.now }
    ensures length { result.len ≡ received_length reply.now }
    ensures buffer { buf.new ≡ received_into reply.now buf.old }
{
    match reply {
        Reply::Message(message) => {
            let bytes = message.as_slice();
            buf[..bytes.len()].copy_from_slice(bytes);
            Outcome {
                code: 0,
                len: bytes.len() as u32,
            }
        }
        Reply::Empty(_) => refused(MsgReturn::ReceiveTimedOut.number()),
        Reply::TooLarge(len) => Outcome {
            code: MsgReturn::ReceiveTooLarge.number(),
            len: *len,
        },
        Reply::Code(code) => refused(*code),
        _ => refused(MsgReturn::ReceiveBodyErrorMemory.number()),
    }
}
