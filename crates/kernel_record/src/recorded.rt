//! A kernel with its last call.
ghost use Rattle.std.specs.Prelude.{◌≡◌, ◌≢◌, IfOk, MatchBool, OnErr};
ghost use Rattle.mach_types.specs.declared.calls.Reply.{Reply as AnyReply};
ghost use Rattle.mach_model.specs.State.{opening_in};
ghost use Rattle.copyin_base.specs.Shows.{Shows};
ghost use Rattle.kernel_core.specs.Bounds.{IsWithin};
ghost use Rattle.kernel_core.specs.Wanted.{memory_code};
ghost use Rattle.kernel_record.specs.declared.recorded.LastCall.{LastCall as AnyLast};
ghost use Rattle.kernel_record.specs.Room.{HasRoom, IsUnused};
ghost use Rattle.kernel_record.specs.Recording.{StepsRecorded, TakesCopies, kept_from, missed};

use crate::calls::copy;
use crate::room::Room;
use copyin_base::World;
use kernel_core::Kernel;
use mach_types::{Event, KernReturn, MsgReturn, Profile, Reply, Touched};
use std::alloc::{AllocError, Global};
use std::marker::Model;
use std::mem;

/// What is kept of the last call.
#[derive(Drop)]
pub enum LastCall {
    /// Calls aren't kept.
    NotKept,
    /// The last call was not made, or there was none since calls are kept.
    NotMade,
    /// The call, and the kernel's reply.
    Made(Event, Reply),
}

/// A kernel, and what is kept of its last call.
///
/// To contracts it is these two. The kernel shows a state of the machine.
#[derive(Drop)]
pub struct RecordedKernel {
    kernel: Kernel,
    last: LastCall,
}

impl Model for RecordedKernel {
    ghost use Rattle.copyin_base.specs.Stands.{Stands};
    ghost use Rattle.kernel_core.specs.contracts.kernel.Kernel as machine;
    ghost use Rattle.kernel_record.specs.contracts.recorded.LastCall as last_call;
    ghost use Rattle.kernel_record.specs.Recording.{RecordedView, recorded_code};

    ghost Value = { RecordedView };

    ghost coded = { recorded_code machine.the_row.coded last_call.the_row.coded };

    ghost view = { λ k. record { kernel = k.kernel; last = k.last } };

    ghost invariant = { λ k. Stands k.kernel.tables };
}

impl RecordedKernel {
    /// A kernel of this profile, in which nothing was made yet; its calls aren't kept. Takes no memory.
    pub fn new(alloc: Global, profile: Profile) -> RecordedKernel
        ensures shows { Shows result.kernel.tables (opening_in profile) }
        ensures last { result.last ≡ AnyLast.NotKept }
    {
        RecordedKernel {
            kernel: Kernel::with_profile(alloc, profile),
            last: LastCall::NotKept,
        }
    }

    /// The kernel's tables, to read. Constant time.
    pub fn tables(&self) -> &World
        ensures { result.now ≡ self.now.kernel.tables }
    {
        self.kernel.tables()
    }

    /// Returns which ports and sets the kernel's last step may have changed, as [`Kernel::touched`] does.
    pub fn touched(&self) -> Touched
        ensures { result ≡ self.now.kernel.touched }
    {
        self.kernel.touched()
    }

    /// Keeps calls from now on. The calls before are not made, as far as the record goes. Takes no memory.
    pub fn keep_calls(&mut self)
        ensures kernel { self.new.kernel ≡ self.old.kernel }
        ensures last { self.new.last ≡ kept_from self.old.last }
    {
        if !self.keeps_calls() {
            self.last = LastCall::NotMade;
        }
    }

    /// Where calls are kept, the last one was not made. Takes no memory.
    pub fn miss_call(&mut self)
        ensures kernel { self.new.kernel ≡ self.old.kernel }
        ensures last { self.new.last ≡ missed self.old.last }
    {
        if self.keeps_calls() {
            self.last = LastCall::NotMade;
        }
    }

    /// Puts this in place of what is kept of the last call, and returns that. Takes no memory.
    pub fn replace_last(&mut self, last: LastCall) -> LastCall
        ensures kernel { self.new.kernel ≡ self.old.kernel }
        ensures last { self.new.last ≡ last }
        ensures before { result ≡ self.old.last }
    {
        mem::replace(&mut self.last, last)
    }

    /// Whether calls are kept. Constant time.
    #[inline(always)]
    pub fn keeps_calls(&self) -> bool
        ensures { MatchBool result (self.now.last ≢ AnyLast.NotKept) (self.now.last ≡ AnyLast.NotKept) }
    {
        !matches!(self.last, LastCall::NotKept)
    }

    /// Makes one call of a task, whole, as [`Kernel::step`] does, where calls aren't kept.
    #[inline(always)]
    pub fn step(&mut self, event: &Event) -> Reply
        requires not_kept { self.old.last ≡ AnyLast.NotKept }
        ensures { StepsRecorded self.old event.now result self.new }
    {
        self.kernel.step(event)
    }

    /// Makes one call, where calls are kept, and keeps it with its reply.
    ///
    /// Their memory is taken before the step: for the bytes of a message that is sent, and for what the reply has
    /// at most ([`Kernel::reply_bound`]). Where it is refused the call isn't made. The reply is then the call's
    /// code for out of memory, and nothing is kept of the call. A call that sends nothing takes none, if its reply
    /// can have neither a message nor a list.
    #[cold]
    #[inline(never)]
    pub fn step_kept(&mut self, alloc: Global, event: &Event) -> Reply
        requires keeps { self.old.last ≢ AnyLast.NotKept }
        ensures { StepsRecorded self.old event.now result self.new }
    {
        let most = self.kernel.reply_bound(event);
        let Ok((copy, room)) = copy_of(alloc, event, most) else {
            self.last = LastCall::NotMade;
            return Reply::Code(memory_code(event));
        };
        let reply = self.kernel.step(event);
        self.last = LastCall::Made(copy, room.copy(&reply));
        reply
    }
}

/// A copy of the call, and room for one of its reply.
fn copy_of(alloc: Global, event: &Event, most: usize) -> Result<(Event, Room), AllocError>
    ensures copy { IfOk result (λ made. made.0 ≡ event.now) }
    ensures unused { IfOk result (λ made. IsUnused made.1) }
    ensures room { IfOk result (λ made. (reply : AnyReply) → IsWithin event.now most reply → HasRoom made.1 reply) }
    ensures err { OnErr result (TakesCopies event.now most) }
{
    let room = Room::of(alloc, event, most)?;
    Ok((copy(event)?, room))
}

/// The code that tells of want of memory.
fn memory_code(event: &Event) -> u32
    ensures { result ≡ memory_code event.now }
{
    match event {
        Event::Send(..) => MsgReturn::SendNoBuffer.number(),
        Event::Receive(..) | Event::ReceiveAgain(..) => MsgReturn::ReceiveBodyErrorMemory.number(),
        _ => KernReturn::ResourceShortage.number(),
    }
}
