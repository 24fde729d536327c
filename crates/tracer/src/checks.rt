//! Histories that are checked again: each call is made anew, on a kernel of the checker's own.
ghost use Rattle.std.specs.Prelude.{◌≡◌, ℕ, true, false, IfOk, OnErr, Ok, Err, length};
ghost use Rattle.mach_model.specs.State.{State};
ghost use Rattle.copyin_base.specs.Shows.{Shows};
ghost use Rattle.kernel_core.specs.Answers.{Answers};
ghost use Rattle.kernel_core.specs.Limits.{PassesLimit};
ghost use Rattle.kernel_lock.specs.History.{Legal};
ghost use Rattle.tracer.specs.declared.checks.CheckFault.TheVariants.{Memory};
ghost use Rattle.tracer.specs.Checks.{AnswersOtherwise, IsNoWant, IsRefusal, IsUnconfirmed, MayLackMemory};

use crate::histories::History;
use kernel_core::Kernel;
use kernel_lock::{Entry, are_same_replies};
use mach_types::{Event, Name, Reply};
use std::alloc::{AllocError, Global};
use std::marker::Model;
use thiserror::Error;

/// Why a history was not found legal.
#[derive(Clone, Copy, Debug, PartialEq, Eq, Error)]
pub enum CheckFault {
    /// The entry of this number, from 1, is the first that isn't confirmed.
    #[error("not confirmed at {0}")]
    NotConfirmed(u64),
    /// Memory was refused to the checker. That is no verdict.
    #[error("out of memory")]
    Memory,
}

impl From<AllocError> for CheckFault {
    ghost from_gives = { λ _ fault. fault ≡ Memory };

    fn from(_error: AllocError) -> CheckFault {
        CheckFault::Memory
    }
}

/// A history that the machine admits: its calls and replies are a run by its profile.
///
/// To contracts it is the history.
#[derive(Debug, Drop)]
pub struct LegalHistory<'a> {
    history: &'a History,
}

impl<'a> Model for LegalHistory<'a> {
    ghost use Rattle.kernel_lock.specs.History.{Legal};
    ghost use Rattle.tracer.specs.Histories.{HistoryView};

    ghost Value = { HistoryView };

    ghost view = { λ legal. legal.history.now };

    ghost invariant = { λ legal. Legal legal.history.now.profile legal.history.now.entries };
}

impl<'a> LegalHistory<'a> {
    /// How many entries it has.
    pub fn len(&self) -> usize
        ensures count { result ≡ length self.now.entries }
        ensures legal { Legal self.now.profile self.now.entries }
    {
        self.history.len()
    }
}

/// Checks that the history is legal; the history itself is as it was.
///
/// Its calls are made anew on a kernel of the checker's own, of the history's profile, one after another
/// ([`confirm`]). `NotConfirmed` comes at the first entry that this kernel doesn't answer as the entry says,
/// and `Memory` where memory is refused.
///
/// Which ready member of a set a message was taken from is followed. Where the machine leaves another choice
/// open, the kernel makes its own. Such choices are which member's message is too long, or stays since the
/// task's names don't suffice for its rights, and in which order the notices of one step are queued. A legal
/// history in which another choice was made may come out as not confirmed. So does one in which a message may
/// pass the limit of rights, whose code is also that of out of memory. Time is that of the calls; memory that
/// of the kernel, and of one reply.
pub fn check<'a>(alloc: Global, history: &'a History) -> Result<LegalHistory<'a>, CheckFault>
    ensures same { IfOk result (λ legal. legal ≡ history.now) }
    ensures legal { IfOk result (λ legal. Legal legal.profile legal.entries) }
    ensures not { (n : ℕ) → result ≡ Err (CheckFault.NotConfirmed n) → IsUnconfirmed history.now.profile history.now.entries n }
    ensures memory { result ≡ Err CheckFault.Memory → MayLackMemory history.now.profile history.now.entries }
{
    let mut kernel = Kernel::with_profile(alloc, history.profile());
    let mut number = 0;
    for entry in history.entries() {
        number += 1;
        if !confirm(&mut kernel, entry)? {
            return Err(CheckFault::NotConfirmed(number));
        }
    }
    Ok(LegalHistory { history })
}

/// Returns whether the machine may answer the entry's call now as the entry says; the kernel then shows what
/// the call leads to.
///
/// It may in two cases. The call was refused as out of memory and the machine allows that, which changes
/// nothing. Or the kernel makes the call and returns the same. Of a set's members it takes the message from
/// the one that the message names as its receiver, whose turn that needn't have been. Else the kernel is of
/// no further use to the history.
///
/// An error comes where memory is refused, and only where the limit of rights surely doesn't refuse the call
/// ([`Kernel::has_room_for`]). Time is that of the call, and of giving the turn.
pub fn confirm(kernel: &mut Kernel, entry: &Entry) -> Result<bool, AllocError>
    ensures confirmed { result ≡ Ok true → Answers kernel.old.tables entry.now.event entry.now.reply kernel.new.tables }
    ensures not { result ≡ Ok false → AnswersOtherwise kernel.old entry.now.event entry.now.reply }
    ensures memory { OnErr result ((s : State) → Shows kernel.old.tables s → ¬ (PassesLimit s entry.now.event)) }
{
    if tells_want_of_memory(kernel, &entry.event, &entry.reply)? {
        return Ok(true);
    }
    let has_room = kernel.has_room_for(&entry.event);
    follow(kernel, entry);
    let reply = kernel.step(&entry.event);
    if are_same_replies(&reply, &entry.reply) {
        return Ok(true);
    }
    if !has_room {
        return Ok(false);
    }
    if tells_want_of_memory(kernel, &entry.event, &reply)? {
        return Err(AllocError);
    }
    Ok(false)
}

/// Where the entry's message was received by a set, gives the turn there to the member that it names.
fn follow(kernel: &mut Kernel, entry: &Entry)
    ensures { (s : State) → Shows kernel.old.tables s → Shows kernel.new.tables s }
{
    if let Some(member) = receiver(&entry.reply) {
        kernel.give_turn(&entry.event, member);
    }
}

/// The name of the port that a message was received by.
fn receiver(reply: &Reply) -> Option<Name> {
    let Reply::Message(bytes) = reply else {
        return None;
    };
    let word = bytes.as_slice().get(12..16)?;
    let word = <[u8; 4]>::try_from(word).ok()?;
    Some(Name::new(u32::from_le_bytes(word)))
}

/// Whether the reply is the code by which the call may now be refused as out of memory.
fn tells_want_of_memory(kernel: &Kernel, event: &Event, reply: &Reply) -> Result<bool, AllocError>
    ensures may { result ≡ Ok true → IsRefusal kernel.now event.now reply.now }
    ensures not { result ≡ Ok false → IsNoWant kernel.now event.now reply.now }
    ensures err { OnErr result ((s : State) → Shows kernel.now.tables s → ¬ (PassesLimit s event.now)) }
{
    let Reply::Code(code) = reply else {
        return Ok(false);
    };
    if *code == 0 {
        return Ok(false);
    }
    Ok(kernel.memory_code(event)? == Some(*code))
}
