//! Where a call may be refused as out of memory.
ghost use Rattle.std.specs.Prelude.{◌≡◌, ℕ, ◌+◌, ◌-◌, ◌/◌, ◌<◌, ◌≤◌, Bool, IfOk, OnErr, MatchBool, Contains};
ghost use Rattle.mach_types.specs.declared.calls.Event.{Event as AnyEvent};
ghost use Rattle.mach_types.specs.declared.calls.Waited.TheVariants as AnyWaited;
ghost use Rattle.mach_types.specs.declared.codes.MsgReturn.TheVariants as msg;
ghost use Rattle.mach_types.specs.declared.codes.KernReturn.TheVariants as kern;
ghost use Rattle.mach_types.specs.Numbers.{most_rights};
ghost use Rattle.mach_types.specs.Codes.{kern_number, msg_number, code_number};
ghost use Rattle.mach_model.specs.State.{State, lookup};
ghost use Rattle.mach_model.specs.NameGuards.{IsSet};
ghost use Rattle.mach_model.specs.Refusals.{again_guards};
ghost use Rattle.mach_laws.specs.Judging.{IsBySet};
ghost use Rattle.copyin_base.specs.Serving.{HasTasks, IsAllowed};
ghost use Rattle.copyin_base.specs.Shows.{Shows};
ghost use Rattle.copyin_base.specs.Stands.{Stands};
ghost use Rattle.copyin_base.specs.Worlds.{HasTask};
ghost use Rattle.kernel_core.specs.Limits.{HasRoomFor, IsNearLimit, sent_length};
ghost use Rattle.kernel_core.specs.MemoryCodes.{TellsMemoryCode, TellsWant, IsMessage, NeverStays, IsReceivable};
ghost use Rattle.kernel_core.specs.Receive.{StaysFor};
ghost use Rattle.kernel_core.specs.Wanted.{memory_code};

use crate::receive::{find_source, judge_again};
use copyin_base::World;
use kernel_core_base::{
    check_allocate, check_allocate_name, check_create_task, check_insert_member, check_rename,
    check_set_status,
};
use mach_types::limits::MOST_RIGHTS;
use mach_types::{Bytes, Code, Event, KernReturn, MsgReturn, Name, PortId, TaskId, Waited};
use message_codec::parse;
use notifications::{Asked, check_request};
use std::alloc::{AllocError, Global};
use transfer::{TaskName, judge_extract, judge_insert};

/// The code by which the call, whose tasks live, may be refused as out of memory; `None` where it never may be.
///
/// An error means that memory was refused, which is wanted for the list of a set's members. Linear in a
/// message that is sent, and in the members of a set and the rights of their front messages.
pub(crate) fn tell_memory_code(
    world: &World,
    alloc: Global,
    event: &Event,
) -> Result<Option<u32>, AllocError>
    requires there { HasTasks world.now event.now }
    requires stands { Stands world.now }
    ensures ok { IfOk result (λ code. TellsMemoryCode world.now event.now code) }
    ensures err { OnErr result ((s : State) → Shows world.now s → IsBySet s event.now) }
{
    if may_lack_memory(world, alloc, event)? {
        Ok(Some(memory_code(event).number()))
    } else {
        Ok(None)
    }
}

/// The code that says out of memory.
fn memory_code(event: &Event) -> Code
    ensures { code_number result ≡ memory_code event.now }
{
    match event {
        Event::Send(_, _) => Code::Message(MsgReturn::SendNoBuffer),
        Event::Receive(_, _, _, _) | Event::ReceiveAgain(_, _, _, _) => {
            Code::Message(MsgReturn::ReceiveBodyErrorMemory)
        }
        _ => Code::Kern(KernReturn::ResourceShortage),
    }
}

/// Whether the call may be refused as out of memory.
fn may_lack_memory(world: &World, alloc: Global, event: &Event) -> Result<bool, AllocError>
    requires there { HasTasks world.now event.now }
    requires stands { Stands world.now }
    ensures ok { IfOk result (λ may. TellsWant world.now event.now may) }
    ensures err { OnErr result ((s : State) → Shows world.now s → IsBySet s event.now) }
{
    match event {
        Event::Send(_, bytes) => Ok(is_message(alloc, bytes)),
        Event::Receive(task, name, room, _) => may_lack_named(world, alloc, *task, *name, *room),
        Event::ReceiveAgain(task, waited, room, _) => {
            may_lack_again(world, alloc, *task, waited, *room)
        }
        _ => Ok(may_lack_room(world, event)),
    }
}

// ---- kernel calls

/// Returns whether a call that is no message call may be refused as out of memory: where nothing else refuses
/// it, and it may take memory.
fn may_lack_room(world: &World, event: &Event) -> bool
    requires there { HasTasks world.now event.now }
    requires stands { Stands world.now }
    requires kernel { memory_code event.now ≡ kern_number kern.ResourceShortage }
    ensures { TellsWant world.now event.now result }
{
    match event {
        Event::TaskCreate => check_create_task(world).is_ok(),
        Event::Allocate(task, right) => check_allocate(world, *task, *right).is_ok(),
        Event::AllocateName(task, right, name) => {
            check_allocate_name(world, *task, *right, *name).is_ok()
        }
        Event::Names(_) => true,
        Event::Rename(task, from, to) => check_rename(world, *task, *from, *to).is_ok(),
        Event::SetStatus(task, name) => check_set_status(world, *task, *name).is_ok(),
        Event::InsertMember(task, member, set) => {
            check_insert_member(world, *task, *member, *set).is_ok()
        }
        Event::InsertRight(task, name, from, poly, number) => {
            let to = TaskName::new(*task, *name);
            let from = TaskName::new(*from, *poly);
            judge_insert(world, &to, &from, *number).is_ok()
        }
        Event::ExtractRight(task, name, number, to) => {
            judge_extract(world, &TaskName::new(*task, *name), *number, *to).is_ok()
        }
        Event::RequestNotification(task, name, variant, sync, notify, disposition) => {
            let asked = Asked {
                variant: *variant,
                sync: *sync,
                notify: *notify,
                disposition: *disposition,
            };
            check_request(world, *task, *name, &asked).is_ok()
        }
        _ => false,
    }
}

// ---- sends

/// Returns whether the bytes are a message: it may be refused when out of memory whatever its rights are.
/// Out of memory while it reads them means that they are one.
fn is_message(alloc: Global, bytes: &Bytes) -> bool
    ensures { MatchBool result (IsMessage bytes.now) (¬ (IsMessage bytes.now)) }
{
    match parse(alloc, bytes.as_slice()) {
        Ok(_) => true,
        Err(code) => matches!(code, MsgReturn::SendNoBuffer),
    }
}

/// Returns whether there may be as many rights more as a message has port words, where the call sends one:
/// two of the header's six words, and those of the body.
pub(crate) fn has_room_for(world: &World, event: &Event) -> bool
    ensures { MatchBool result (HasRoomFor world.now event.now) (IsNearLimit world.now event.now) }
{
    has_room(world, sent_length(event))
}

/// How many bytes of a message the call sends.
fn sent_length(event: &Event) -> usize
    ensures { result ≡ sent_length event.now }
{
    match event {
        Event::Send(_, bytes) => bytes.as_slice().len(),
        _ => 0,
    }
}

/// Returns whether there may be as many rights more as so many bytes of a message have port words.
fn has_room(world: &World, bytes: usize) -> bool
    ensures { MatchBool result (world.now.ledger.total + (bytes - 16) / 4 ≤ most_rights) (most_rights < world.now.ledger.total + (bytes - 16) / 4) }
{
    let words = bytes.saturating_sub(16) / 4;
    world.total_rights() as u64 + words as u64 <= MOST_RIGHTS as u64
}

// ---- receipts

/// Whether a receive by the name may be refused as out of memory.
fn may_lack_named(
    world: &World,
    alloc: Global,
    task: TaskId,
    name: Name,
    room: u32,
) -> Result<bool, AllocError>
    requires there { HasTask world.now task }
    requires stands { Stands world.now }
    ensures ok { IfOk result (λ may. (large : Bool) → TellsWant world.now (AnyEvent.Receive task name room large) may) }
    ensures err { OnErr result ((s : State) → Shows world.now s → IsSet (lookup s task name)) }
{
    match find_source(world, task, name) {
        Ok(source) => may_stay(world, alloc, task, &source.waited, room),
        Err(_) => Ok(false),
    }
}

/// Whether a receive from what was waited for may be refused as out of memory.
fn may_lack_again(
    world: &World,
    alloc: Global,
    task: TaskId,
    waited: &Waited,
    room: u32,
) -> Result<bool, AllocError>
    requires there { HasTask world.now task }
    requires stands { Stands world.now }
    ensures ok { IfOk result (λ may. (large : Bool) → TellsWant world.now (AnyEvent.ReceiveAgain task waited.now room large) may) }
    ensures err { OnErr result ((set : ℕ) × (waited.now ≡ AnyWaited.Set set)) }
{
    match judge_again(world, task, waited) {
        Ok(()) => may_stay(world, alloc, task, waited, room),
        Err(_) => Ok(false),
    }
}

/// Whether a message that the task may take may stay for lack of memory alone: that of the port, or of
/// any member of the set.
fn may_stay(
    world: &World,
    alloc: Global,
    task: TaskId,
    waited: &Waited,
    room: u32,
) -> Result<bool, AllocError>
    requires there { HasTask world.now task }
    requires stands { Stands world.now }
    requires may { IsAllowed world.now (λ s. again_guards s task waited.now) }
    ensures ok { IfOk result (λ may. MatchBool may (StaysFor world.now task waited.now room (msg_number msg.ReceiveBodyErrorMemory)) (NeverStays world.now task waited.now room)) }
    ensures err { OnErr result ((set : ℕ) × (waited.now ≡ AnyWaited.Set set)) }
{
    match waited {
        Waited::Port(port) => Ok(is_receivable(world, task, *port, room)),
        Waited::Set(set) => {
            let members = world.members(*set, alloc)?;
            Ok(is_one_receivable(world, task, &members, room))
        }
    }
}

/// Returns whether one of the ports has a message that only lack of memory could keep from the task.
fn is_one_receivable(world: &World, task: TaskId, ports: &[PortId], room: u32) -> bool
    requires there { HasTask world.now task }
    requires stands { Stands world.now }
    ensures { MatchBool result ((port : ℕ) × Contains ports.now port × IsReceivable world.now task port room) ((port : ℕ) → Contains ports.now port → ¬ (IsReceivable world.now task port room)) }
{
    for port in ports {
        if is_receivable(world, task, *port, room) {
            return true;
        }
    }
    false
}

/// Returns whether the port has a message that only lack of memory could keep from the task.
fn is_receivable(world: &World, task: TaskId, port: PortId, room: u32) -> bool
    requires there { HasTask world.now task }
    requires stands { Stands world.now }
    ensures { MatchBool result (IsReceivable world.now task port room) (¬ (IsReceivable world.now task port room)) }
{
    world.queued(port) > 0 && copyout::is_receivable(world, task, port, room)
}
