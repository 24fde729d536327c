//! Sending a message: its bytes are read, its rights are judged, and all is done or nothing.
//!
//! A send promises its own part of a step (`copyin_base`'s `specs/Serving`); `kernel_core` makes it and ends the step.
#![tactic(auto)]

ghost use Rattle.std.specs.Prelude.{◌≡◌, ◌≢◌, false, ℕ, [], ◌∷◌, List, IfOk, IfErr, OnOk, OnErr};
ghost use Rattle.std.specs.Bool.{OnFalse};
ghost use Rattle.mach_types.specs.declared.calls.Event.{Event as AnyEvent};
ghost use Rattle.mach_types.specs.declared.codes.MsgReturn.TheVariants.{SendNoBuffer};
ghost use Rattle.mach_types.specs.Codes.{msg_number, code_number};
ghost use Rattle.copyin_base.specs.Serving.{Declines, Serves};
ghost use Rattle.copyin_base.specs.Stands.{Stands};
ghost use Rattle.copyin.specs.Wanted.{WantsToSend};
ghost use Rattle.copyin.specs.Planned.{plan_view};
ghost use Rattle.copyin.specs.Short.{body_word, short_view};
ghost use Rattle.message_send.specs.Send.{MovesNoReceive, PlansShort, PlansText, SendsText, UsesSlot};
ghost use Rattle.message_send.specs.Sends.{Sends};
ghost use Rattle.message_send.specs.Telling.{TellsPlan, TellsSend};
ghost use Rattle.copyin_base.specs.Worlds.{HasTask};

use copyin::{Beside, Plan, ShortPlan, check, check_short, commit, commit_short};
use copyin_base::World;
use kernel_change::Change;
use mach_types::{Bytes, Code, MsgReturn, Reply, TaskId};
use message_codec::{PortWord, ShortKind, parse, parse_short};
use std::alloc::Global;

/// `Send` (IPC Interface, `mach_msg` with `MACH_SEND_MSG`). The task lives. A refusal leaves all as it was.
///
/// Errors, of which the first is returned:
/// - those of the text, as [`message_codec::parse`];
/// - those of its rights and of the message as a whole, as [`copyin::check`];
/// - `MACH_SEND_NO_BUFFER`: memory was refused for the slots that it wants.
///
/// In `told` it leaves the port that the message went to, and the ports whose receive rights went along.
///
/// Linear in the message, except for what [`copyin::check`] says of each right.
#[inline(always)]
pub fn send(
    world: &mut World,
    alloc: Global,
    task: TaskId,
    bytes: &Bytes,
    told: &mut Change,
) -> Result<Reply, Code>
    requires there { HasTask world.old task }
    requires stands { Stands world.old }
    ensures serves { Serves world.old (AnyEvent.Send task bytes.now) result world.new }
    ensures sent { OnOk result (UsesSlot world.old world.new) }
    ensures refused { OnErr result (world.new ≡ world.old) }
    ensures tells { OnOk result (TellsSend world.old task bytes.now told.new) }

    // Memory is wanted only where the message could be sent, or has many words or items.
    ensures wanted { IfErr result (λ code. code_number code ≡ msg_number SendNoBuffer → WantsToSend world.old task bytes.now) }
{
    send_text(world, alloc, task, bytes.as_slice(), told)?;
    Ok(Reply::Code(MsgReturn::Success.number()))
}

/// Reads the text, judges its rights, and only then changes the tables. A short message goes by its kind. For each
/// kind the short way is compiled anew: one function for all, inlined three times, is too large for the kit, which
/// drops the hint.
fn send_text(
    world: &mut World,
    alloc: Global,
    task: TaskId,
    bytes: &[u8],
    told: &mut Change,
) -> Result<(), MsgReturn>
    requires there { HasTask world.old task }
    requires stands { Stands world.old }
    ensures { Sends world.old task bytes.now result world.new told.new }
{
    match ShortKind::of(bytes) {
        ShortKind::Alone => send_alone(world, alloc, task, bytes, told),
        ShortKind::Reply => send_with_reply(world, alloc, task, bytes, told),
        ShortKind::Body => send_with_right(world, alloc, task, bytes, told),
    }
}

/// Sends what is a message of raw bytes without a reply right, if it is short.
#[inline(never)]
fn send_alone(
    world: &mut World,
    alloc: Global,
    task: TaskId,
    bytes: &[u8],
    told: &mut Change,
) -> Result<(), MsgReturn>
    requires there { HasTask world.old task }
    requires stands { Stands world.old }
    ensures { Sends world.old task bytes.now result world.new told.new }
{
    let Some(short) = parse_short(bytes, ShortKind::Alone) else {
        return send_any(world, alloc, task, bytes, told);
    };
    match check_short(world, alloc, task, &short, bytes) {
        Ok(plan) => carry_out_short(world, plan, told),
        Err(code) => Err(code),
    }
}

/// Sends what is a message of raw bytes with a reply right, if it is short.
#[inline(never)]
fn send_with_reply(
    world: &mut World,
    alloc: Global,
    task: TaskId,
    bytes: &[u8],
    told: &mut Change,
) -> Result<(), MsgReturn>
    requires there { HasTask world.old task }
    requires stands { Stands world.old }
    ensures { Sends world.old task bytes.now result world.new told.new }
{
    let Some(short) = parse_short(bytes, ShortKind::Reply) else {
        return send_any(world, alloc, task, bytes, told);
    };
    match check_short(world, alloc, task, &short, bytes) {
        Ok(plan) => carry_out_short(world, plan, told),
        Err(code) => Err(code),
    }
}

/// Sends what is a message whose body is one right, if it is short.
#[inline(never)]
fn send_with_right(
    world: &mut World,
    alloc: Global,
    task: TaskId,
    bytes: &[u8],
    told: &mut Change,
) -> Result<(), MsgReturn>
    requires there { HasTask world.old task }
    requires stands { Stands world.old }
    ensures { Sends world.old task bytes.now result world.new told.new }
{
    let Some(short) = parse_short(bytes, ShortKind::Body) else {
        return send_any(world, alloc, task, bytes, told);
    };
    match check_short(world, alloc, task, &short, bytes) {
        Ok(plan) => carry_out_short(world, plan, told),
        Err(code) => Err(code),
    }
}

/// Sends a message, whatever it carries.
#[inline(never)]
fn send_any(
    world: &mut World,
    alloc: Global,
    task: TaskId,
    bytes: &[u8],
    told: &mut Change,
) -> Result<(), MsgReturn>
    requires there { HasTask world.old task }
    requires stands { Stands world.old }
    ensures { Sends world.old task bytes.now result world.new told.new }
{
    // Not by `?`, which would move what was read, and the plan, once more.
    let parsed = match parse(alloc, bytes) {
        Ok(parsed) => parsed,
        Err(code) => return Err(code),
    };
    match check(world, alloc, task, &parsed, bytes) {
        Ok(plan) => carry_out(world, plan, told),
        Err(code) => Err(code),
    }
}

/// Makes the slots that the plan wants, and sends its message. In `told` it leaves the port that it goes to, and the
/// ports whose receive rights go along. `MACH_SEND_NO_BUFFER` where memory was refused for the slots; the tables are
/// then as before.
#[inline(always)]
fn carry_out_short(world: &mut World, plan: ShortPlan, told: &mut Change) -> Result<(), MsgReturn>
    requires stands { Stands world.old }
    requires planned { (task : ℕ) × (bytes : List ℕ) × PlansShort world.old task bytes plan }
    ensures ok { IfOk result (λ _. (task : ℕ) (bytes : List ℕ) → PlansShort world.old task bytes plan → SendsText world.old task bytes world.new) }
    ensures tells { OnOk result (TellsPlan world.old (short_view plan) told.new) }
    ensures err { IfErr result (λ code. code ≡ SendNoBuffer) }
    ensures refused { OnErr result (world.new ≡ world.old) }
{
    let Ok(()) = world.reserve_slots(plan.count_slots()) else {
        return Err(MsgReturn::SendNoBuffer);
    };
    tell_short(world, &plan, told);
    commit_short(world, plan);
    Ok(())
}

/// Leaves in `told` what the message of the plan changes.
#[inline(always)]
fn tell_short(world: &World, plan: &ShortPlan, told: &mut Change)
    ensures { TellsPlan world.now (short_view plan.now) told.new }
{
    if takes_receive(&plan.beside) {
        let rights = plan.message.rights();
        *told = Change::by_taking(world, plan.port, rights.as_slice());
    } else {
        *told = Change::Queue(plan.port);
    }
}

/// Whether a receive right goes beside that of the destination.
#[inline(always)]
fn takes_receive(beside: &Beside) -> bool
    ensures { OnFalse result (MovesNoReceive (body_word beside.now)) }
{
    match beside {
        Beside::Body(going) => moves_receive(&going.word),
        Beside::Nothing | Beside::Reply(_) => false,
    }
}

/// As [`carry_out_short`], of any message.
#[inline(always)]
fn carry_out(world: &mut World, plan: Plan, told: &mut Change) -> Result<(), MsgReturn>
    requires stands { Stands world.old }
    requires planned { (task : ℕ) × (bytes : List ℕ) × PlansText world.old task bytes (plan_view plan) }
    ensures ok { IfOk result (λ _. (task : ℕ) (bytes : List ℕ) → PlansText world.old task bytes (plan_view plan) → SendsText world.old task bytes world.new) }
    ensures tells { OnOk result (TellsPlan world.old (plan_view plan) told.new) }
    ensures err { IfErr result (λ code. code ≡ SendNoBuffer) }
    ensures refused { OnErr result (world.new ≡ world.old) }
{
    let Ok(()) = world.reserve_slots(plan.count_slots()) else {
        return Err(MsgReturn::SendNoBuffer);
    };
    tell_sent(world, &plan, told);
    commit(world, plan);
    Ok(())
}

/// Leaves in `told` what the message of the plan changes.
#[inline(always)]
fn tell_sent(world: &World, plan: &Plan, told: &mut Change)
    ensures { TellsPlan world.now (plan_view plan.now) told.new }
{
    if any_moves_receive(plan.words.body.as_slice()) {
        let rights = plan.message.rights();
        *told = Change::by_taking(world, plan.port, rights.as_slice());
    } else {
        *told = Change::Queue(plan.port);
    }
}

/// Whether a receive right goes by one of the words.
fn any_moves_receive(words: &[PortWord]) -> bool
    ensures { OnFalse result (MovesNoReceive words.now) }
{
    for word in words {
        if moves_receive(word) {
            return true;
        }
    }
    false
}

/// Whether a receive right goes by the word.
fn moves_receive(word: &PortWord) -> bool
    ensures { OnFalse result (word.now.disposition ≢ 16) }
{
    word.disposition == 16
}
