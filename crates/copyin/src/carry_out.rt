//! Carrying out a plan.
ghost use Rattle.std.specs.Prelude.{◌≡◌, ℕ, ◌<◌, ◌≤◌, ◌+◌, ◌-◌, ◌++◌, List, [], ◌∷◌, true, Some};
ghost use Rattle.std.specs.Option.{option_to_list};
ghost use Rattle.mach_types.specs.Grammar.{WireBody};
ghost use Rattle.mach_types.specs.Numbers.{most_rights};
ghost use Rattle.mach_types.specs.declared.rights.Disposition.TheVariants as disposition_of;
ghost use Rattle.message_codec.specs.declared.text.Parsed.{Parsed as AnyParsed};
ghost use Rattle.port.specs.Ports.{PortView, IsLive, with_port};
ghost use Rattle.rights.specs.Ledger.{IsEntered, counts_of};
ghost use Rattle.copyin_base.specs.declared.Mark.TheVariants as mark_of;
ghost use Rattle.copyin.specs.Judging.{made_by, made_by_mark};
ghost use Rattle.copyin.specs.Loops.{HoldsRight, HoldsRights};
ghost use Rattle.copyin.specs.Planned.{IsPlan, plan_view, CanGo, CanCopy, CanHoldAll};
ghost use Rattle.copyin.specs.Plans.{ChangesWord, ChangesWords, Commits};
ghost use Rattle.copyin_base.specs.Changes.{PutsLeft};
ghost use Rattle.copyin_base.specs.Kept.{Kept, receive_of};
ghost use Rattle.copyin_base.specs.Stands.{IsTied};
ghost use Rattle.copyin_base.specs.Worlds.{NoneLost, port_at};
ghost use Rattle.copyin.specs.Copies.{ports_copied, ledger_copied, ledger_queued, CopiesRight};

use crate::judge::Plan;
use copyin_base::{Carried, Mark, Message, World};
use dispositions::copy_right;
use mach_types::{Disposition, Name, PortId, TaskId};
use message_codec::PortWord;
use port::{Found, Holder, NOWHERE};
use rights::RightKind;

// Leaves what is left of the right under the name that it goes from, and tells what stands for the
// right. Where nothing is left the name goes, and the request on it ends. One that is made from a right
// that stays leaves just that: no name is looked up for it.
#[inline(always)]
fn leave_name(world: &mut World, task: TaskId, name: Name, carried: Carried) -> Mark
    requires { CanCopy world.old task name carried }
    ensures left { (can : CanCopy world.old task name carried) → PutsLeft world.old task name can.copied.left world.new }
    ensures mark { result ≡ carried.mark }
{
    if carried.given.makes_right() {
        return carried.mark;
    }
    let entry = world.lookup(task, name).unwrap();
    let copied = copy_right(carried.given, &entry).unwrap();
    world.put_left(task, name, copied.left);
    copied.mark
}

// The port changes as the right's disposition says, and the right is counted if it is made. The receive right
// goes from its port, whose counts start again and which leaves all its sets. Its holder is set where it is
// given, or where a message that carries it is queued. The port's record may lie at the place.
#[inline(always)]
fn count_copied(world: &mut World, carried: Carried, place: usize)
    requires entered { (port : ℕ) → carried.mark ≡ mark_of.Port port → IsEntered world.old.ledger port }
    requires room { world.old.ledger.total + made_by carried ≤ most_rights }
    ensures { world.new ≡ record world.old {
      ports = ports_copied carried.given carried.mark world.old.ports;
      ledger = ledger_copied carried.given carried.mark world.old.ledger;
    } }
{
    let Mark::Port(port) = &carried.mark else {
        return;
    };
    match carried.given {
        Disposition::MakeSend => {
            let port = *port;
            world.make_send(Found { port, place });
        }
        Disposition::CopySend => world
            .make_rights(Found { port: *port, place }, RightKind::Send, 1)
            .unwrap(),
        Disposition::MakeSendOnce => world
            .make_rights(Found { port: *port, place }, RightKind::SendOnce, 1)
            .unwrap(),
        Disposition::MoveReceive => world.restart_port(*port),
        _ => {}
    }
}

/// Sends the right under the name by its disposition. What is left stays under the name, the port changes as
/// the disposition says, and a right that is made is counted. Where nothing is left the name is removed, and
/// the request on it ends; its right is kept until the step's end pays with it. A send right that moves is
/// counted as before, and a receive right has the holder that it had.
///
/// Takes no memory. Constant time, and logarithmic for a name above 65,535. A right that is made from one
/// that stays looks up no name.
#[inline(always)]
pub fn copy_name(world: &mut World, task: TaskId, name: Name, carried: Carried)
    requires { CanCopy world.old task name carried }
    ensures { CopiesRight world.old task carried.given name carried.mark world.new }
{
    copy_kept(world, task, name, &carried);
}

// Sends the right, whether it moves or is made.
#[inline(always)]
fn copy_either(world: &mut World, task: TaskId, name: Name, carried: Carried, place: usize)
    requires { CanCopy world.old task name carried }
    ensures { CopiesRight world.old task carried.given name carried.mark world.new }
{
    let given = carried.given;
    let mark = leave_name(world, task, name, carried);
    count_copied(world, Carried { given, mark }, place);
}

// Sends a right that moves. It is apart, so that one that is made wants no frame.
#[inline(never)]
fn copy_moved(world: &mut World, task: TaskId, name: Name, carried: Carried, place: usize)
    requires { CanCopy world.old task name carried }
    ensures { CopiesRight world.old task carried.given name carried.mark world.new }
{
    copy_either(world, task, name, carried, place);
}

/// As [`copy_name`], where the port's record may lie at the place.
#[inline(always)]
pub(crate) fn copy_placed(
    world: &mut World,
    task: TaskId,
    name: Name,
    carried: Carried,
    place: usize,
)
    requires { CanCopy world.old task name carried }
    ensures { CopiesRight world.old task carried.given name carried.mark world.new }
{
    if carried.given.makes_right() {
        copy_either(world, task, name, carried, place);
    } else {
        copy_moved(world, task, name, carried, place);
    }
}

// As [`copy_name`], of a right that stays where it is kept: those of a message aren't copied once more.
#[inline(never)]
fn copy_kept(world: &mut World, task: TaskId, name: Name, carried: &Carried)
    requires { CanCopy world.old task name carried.now }
    ensures { CopiesRight world.old task carried.now.given name carried.now.mark world.new }
{
    copy_placed(world, task, name, *carried, NOWHERE);
}

// The message joins the end of its port's queue, in a spare slot, and the right that it goes by is
// unused no more.
#[inline(always)]
pub(crate) fn queue_message(world: &mut World, found: Found, message: Message)
    requires live { IsLive world.old.ports found.port }
    requires spare { 0 < world.old.ports.spare }
    requires unused { message.by_once ≡ true → 0 < (counts_of world.old.ledger found.port).send_once }
    ensures { (v : PortView Kept) → port_at world.old found.port ≡ Some v → world.new ≡ record world.old {
      ports = record (with_port world.old.ports found.port (record v { queue = v.queue ++ message ∷ [] })) { spare = world.old.ports.spare - 1 };
      ledger = ledger_queued message.by_once found.port world.old.ledger;
    } }
{
    world.enqueue_counted(found, message);
}

// A word's right goes, if the word is a name.
#[inline(always)]
fn copy_word(world: &mut World, task: TaskId, word: PortWord, carried: &Carried)
    requires { CanGo world.old task (word ∷ []) (carried.now ∷ []) }
    ensures { ChangesWord world.old task word carried.now world.new }
{
    if word.name.is_usable() {
        copy_kept(world, task, word.name, carried);
    }
}

// The rights of words go, one after the other.
#[inline(always)]
fn copy_words(world: &mut World, task: TaskId, words: &[PortWord], rights: &[Carried])
    requires { CanGo world.old task words.now rights.now }
    ensures { ChangesWords world.old task words.now rights.now world.new }
{
    let mut left = rights;
    for word in words {
        let (carried, rest) = left.split_first().unwrap();
        copy_word(world, task, *word, carried);
        left = rest;
    }
}

// The right to answer with goes, if there is one.
#[inline(always)]
fn copy_reply(world: &mut World, task: TaskId, word: Option<PortWord>, reply: Option<Carried>)
    requires { CanGo world.old task (option_to_list word) (option_to_list reply) }
    ensures { ChangesWords world.old task (option_to_list word) (option_to_list reply) world.new }
{
    if let (Some(word), Some(carried)) = (word, reply) {
        copy_word(world, task, word, &carried);
    }
}

// The queue holds the receive right now, if it is one.
#[inline(always)]
pub(crate) fn hold_right(world: &mut World, queue: PortId, carried: &Carried)
    requires live { (port : ℕ) → receive_of carried.now ≡ Some port → IsLive world.old.ports port }
    requires none_lost { NoneLost world.old }
    ensures { HoldsRight world.old queue carried.now world.new }
{
    if let Some(port) = carried.receive_port() {
        world.set_holder(port, Holder::QueueOf(queue));
    }
}

// The queue holds each receive right among these now.
#[inline(always)]
fn hold_rights(world: &mut World, queue: PortId, rights: &[Carried])
    requires live { CanHoldAll world.old rights.now }
    requires none_lost { NoneLost world.old }
    ensures { HoldsRights world.old queue rights.now world.new }
{
    for carried in rights {
        hold_right(world, queue, carried);
    }
}

/// Sends a message by its plan. Its rights leave the sender, and it joins the end of its port's queue, in a
/// spare slot. The queue holds the receive rights that it carries. Takes no memory. Constant time for each
/// right, and logarithmic for a name above 65,535.
#[inline(always)]
pub fn commit(world: &mut World, plan: Plan)
    requires planned { (task : ℕ) × (parsed : AnyParsed) × (written : WireBody) × (bytes : List ℕ) × IsPlan world.old task parsed written bytes (plan_view plan) }
    requires spare { 0 < world.old.ports.spare }
    requires tied { IsTied world.old plan.task }
    requires none_lost { NoneLost world.old }
    ensures { (task : ℕ) (parsed : AnyParsed) (written : WireBody) (bytes : List ℕ) (p : IsPlan world.old task parsed written bytes (plan_view plan))
        → Commits world.old task parsed written p.plans.judged bytes world.new }
{
    let Plan {
        task,
        words,
        destination,
        port,
        place,
        message,
    } = plan;
    copy_word(world, task, words.destination, &destination);
    copy_reply(world, task, words.reply, message.reply());
    let rights = message.rights();
    copy_words(world, task, words.body.as_slice(), rights.as_slice());
    hold_rights(world, port, rights.as_slice());
    queue_message(world, Found { port, place }, message);
}
