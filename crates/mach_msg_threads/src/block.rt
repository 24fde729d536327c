//! Calls that one caller makes, one after another.
ghost use Rattle.std.specs.Prelude.{◌≡◌, IfOk};
ghost use Rattle.mach_msg_threads.specs.Blocks.{Answered, Ran};
ghost use Rattle.mach_msg_threads.specs.ByGate.{AnsweredBy};

use crate::fault::RunFault;
use crate::gate::Gate;
use crate::message::{Outcome, mach_msg};
use crate::tries::attempt;
use kernel_lock::{Pass, Shared};
use mach_types::limits::MOST_BYTES;
use mach_types::{Bytes, Event, Name, Reply, TaskId};
use std::alloc::{AllocError, Global};
use std::sync::Wait;

/// One call of a block.
#[derive(Debug, Drop)]
pub enum Call {
    /// A call of the kernel, which doesn't wait.
    Event(Event),
    /// A message call (IPC Interface, `mach_msg`), with the arguments of [`mach_msg`](crate::mach_msg).
    Msg {
        /// Who sends and receives.
        task: TaskId,
        /// What is asked for.
        options: u32,
        /// What it receives from.
        name: Name,
        /// The length of its buffer in bytes; one above 65,536 counts as that.
        room: u32,
        /// The bytes to send.
        send: Bytes,
    },
}

/// How one call of a block was answered.
#[derive(Debug, Drop)]
pub enum Answer {
    /// The kernel's reply.
    Reply(Reply),
    /// What a message call came to, and the bytes that it received: none where its code isn't 0.
    Msg(Outcome, Bytes),
}

/// A caller, its calls in their order, and the gate by which its message calls wait.
#[derive(Drop)]
pub struct Block<G> {
    /// The caller.
    pub pass: Pass,
    /// Its calls.
    pub calls: Vec<Call>,
    /// It is dropped when the block has ended.
    pub gate: G,
}

/// Makes a block's calls in this thread. Gives back its pass, with one answer for each call, in their order.
/// The gate is dropped when the block has ended.
pub(crate) fn run_block<G: Gate + Drop, R: Wait>(
    rt: &R,
    alloc: Global,
    shared: &Shared,
    block: Block<G>,
) -> Result<(Pass, Vec<Answer>), RunFault>
    requires { block.pass.table ≡ shared.now.table }
    ensures tied { IfOk result (λ ran. ran.0.table ≡ shared.now.table) }
    ensures ran { IfOk result (λ ran. Ran block.pass block.calls.items ran.1.items ran.0) }
{
    let Block {
        mut pass,
        calls,
        mut gate,
    } = block;
    let mut answers = Vec::with_capacity(alloc, calls.len())?;
    for call in calls {
        answers.push(make_call(rt, alloc, shared, &mut pass, &mut gate, call)?)?;
    }
    Ok((pass, answers))
}

/// Makes one call of a block in this thread, of which the gate is told. May wait. An error means that memory
/// for a message call's buffer was refused, and the call wasn't made.
pub fn make_call<G: Gate, R: Wait>(
    rt: &R,
    alloc: Global,
    shared: &Shared,
    pass: &mut Pass,
    gate: &mut G,
    call: Call,
) -> Result<Answer, AllocError>
    requires { pass.old.table ≡ shared.now.table }
    ensures tied { pass.new.table ≡ shared.now.table }
    ensures answered { IfOk result (λ answer. Answered call pass.old answer pass.new) }
    ensures by_gate { IfOk result (λ answer. AnsweredBy G.passes call pass.old gate.old answer pass.new gate.new) }
{
    match call {
        Call::Event(event) => Ok(Answer::Reply(attempt(rt, shared, pass, gate, event))),
        Call::Msg {
            task,
            options,
            name,
            room,
            send,
        } => {
            let room = (room as usize).min(MOST_BYTES);
            let mut buffer = vec![in alloc; 0; room]?;
            let bytes = send.as_slice();
            let buf = buffer.as_mut_slice();
            let outcome = mach_msg(
                rt, alloc, shared, pass, gate, task, options, bytes, buf, name,
            );
            buffer.truncate(outcome.received());
            Ok(Answer::Msg(outcome, Bytes::from_vec(buffer)))
        }
    }
}
