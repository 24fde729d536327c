//! The references of a right under a name: asked for, taken by one, taken whole, changed by a number.
ghost use Rattle.std.specs.Prelude.{◌≡◌, ℤ, ◌+◌, ◌<◌, ◌≤◌, Some, Ok, IfOk, IfErr, MatchBool};
ghost use Rattle.mach_types.specs.declared.calls.Event.{Event};
ghost use Rattle.mach_types.specs.declared.calls.Reply.{Reply as AnyReply};
ghost use Rattle.mach_types.specs.declared.rights.Right.TheVariants as right;
ghost use Rattle.mach_types.specs.Numbers.{most_references, most_rights};
ghost use Rattle.mach_types.specs.Codes.{kern_number};
ghost use Rattle.mach_model.specs.Refusals.{call_guards};
ghost use Rattle.name_space.specs.declared.Entry.TheVariants as AnyEntry;
ghost use Rattle.name_space.specs.Entry.{port_named, send_references};
ghost use Rattle.rights.specs.declared.RightKind.TheVariants as kind;
ghost use Rattle.rights.specs.Ledger.{IsEntered, counts_of, taken};
ghost use Rattle.copyin_base.specs.Serving.{IsRefused, Serves};
ghost use Rattle.copyin_base.specs.Stands.{Stands};
ghost use Rattle.copyin_base.specs.Wanted.{UsesSpares};
ghost use Rattle.copyin_base.specs.Worlds.{entry_at, HasTask};
ghost use Rattle.kernel_core_base.specs.References.{whole_loss, left_with, recounted_at, CanCount, CanSet, NotesLost, NotesFewer, CountsReferences, SetsReferences, RemovesSet, LosesOnce, sends_left, CanKill, TakesReceive, LosesReceive, CanCarry, Carries, deallocated, destroyed, IsChange, more_in, CanSum, CannotSum, changed_whole, FindsRight, CanChange, CannotChange};

use copyin_base::{Notice, World};
use mach_types::limits::{MOST_REFERENCES, MOST_RIGHTS};
use mach_types::{Code, KernReturn, Name, PortId, Reply, Right, SetId, TaskId};
use name_space::Entry;
use port::{Found, NOWHERE};
use rights::RightKind;
use user_refs::UserRefs;

// How a number of references changes.
#[derive(Clone, Copy)]
enum Change {
    More(u32),
    // By one or more.
    Fewer(u32),
}

// What a call has to do to a name.
#[derive(Clone, Copy)]
enum Due {
    Nothing,
    // The references of what stands under the name become so many.
    References(Entry, u32),
    // The set under the name goes.
    Disbanding(SetId),
    // The send-once right for the port goes, and the name with it.
    LosingOnce(PortId),
    // The receive right goes, and send references with it.
    Killing(Loss),
}

// How a name loses its port's receive right.
#[derive(Clone, Copy)]
struct Loss {
    port: PortId,
    // So many send references were under the name,
    held: u32,
    // and so many of them are left.
    left: u32,
}

// ---- what is done

// What is left under a name whose references become so many.
fn left_under(entry: &Entry, references: u32) -> Option<Entry>
    requires { references ≤ most_references }
    ensures { result ≡ left_with entry.now references }
{
    let some = UserRefs::new(references);
    match entry {
        Entry::Send(port, _) => some.map(|rest| Entry::Send(*port, rest)),
        Entry::ReceiveAndSend(port, _) => Some(match some {
            Some(rest) => Entry::ReceiveAndSend(*port, rest),
            None => Entry::Receive(*port),
        }),
        Entry::DeadName(_) => some.map(|rest| Entry::DeadName(rest)),
        Entry::Receive(_) | Entry::SendOnce(_) | Entry::Set(_) => Some(*entry),
    }
}

// Counts the send rights that come or go where those of an entry become so many.
fn count_sends(world: &mut World, entry: &Entry, references: u32)
    requires { CanCount world.old.ledger entry.now references }
    ensures { world.new ≡ record world.old { ledger = recounted_at world.old.ledger (port_named entry.now) (send_references entry.now) references } }
{
    let Some(port) = entry.port() else {
        return;
    };
    let held = entry.send_references();
    if held < references {
        let place = NOWHERE;
        world
            .make_rights(Found { port, place }, RightKind::Send, references - held)
            .unwrap();
    } else {
        world.take_rights(port, RightKind::Send, held - references);
    }
}

// Notes the port of an entry whose send references became fewer, where it has no send rights left.
fn note_fewer(world: &mut World, entry: &Entry, references: u32)
    ensures { NotesFewer world.old entry.now references world.new }
{
    if let Some(port) = entry.port() {
        if references < entry.send_references() {
            world.note_senderless(port);
        }
    }
}

// Changes the name and the counts where the references of what stands under it become so many.
fn count_references(world: &mut World, task: TaskId, name: Name, entry: &Entry, references: u32)
    requires stands { Stands world.old }
    requires can { CanSet world.old task name entry.now references }
    ensures { CountsReferences world.old task name entry.now references world.new }
{
    world.put_left(task, name, left_under(entry, references));
    count_sends(world, entry, references);
}

// Makes the references of what stands under a name so many. A name of nothing else goes with the last.
#[inline(always)]
fn set_references(world: &mut World, task: TaskId, name: Name, entry: Entry, references: u32)
    requires stands { Stands world.old }
    requires can { CanSet world.old task name entry references }
    ensures { SetsReferences world.old task name entry references world.new }
{
    count_references(world, task, name, &entry, references);
    note_fewer(world, &entry, references);
}

// Takes the name of a set away, and the set.
fn remove_set(world: &mut World, task: TaskId, name: Name, set: SetId)
    requires { entry_at world.old task name ≡ Some (AnyEntry.Set set) }
    ensures { RemovesSet world.old task name set world.new }
{
    world.put_left(task, name, None);
    world.drop_set(set);
}

// Takes the name of a send-once right away, and its port is told that the right was lost.
fn lose_name_once(world: &mut World, task: TaskId, name: Name, port: PortId)
    requires stands { Stands world.old }
    requires can { entry_at world.old task name ≡ Some (AnyEntry.SendOnce port) }
    ensures { LosesOnce world.old task name port world.new }
{
    world.put_left(task, name, None);
    world.post(port, Notice::SendOnce);
}

// What is left under a name that loses its port's receive right.
fn left_sending(loss: Loss) -> Option<Entry>
    requires { loss.left ≤ most_references }
    ensures { result ≡ sends_left loss }
{
    UserRefs::new(loss.left).map(|rest| Entry::Send(loss.port, rest))
}

// Counts so many send rights of a port as gone, where any go: mostly the task has none beside its receive
// right.
fn take_sends(world: &mut World, port: PortId, gone: u32)
    requires entered { IsEntered world.old.ledger port }
    requires there { gone ≤ (counts_of world.old.ledger port).send }
    ensures { world.new ≡ record world.old { ledger = taken world.old.ledger port kind.Send gone } }
{
    if gone > 0 {
        world.take_rights(port, RightKind::Send, gone);
    }
}

// Takes the receive right from under a name, with the send references that go.
#[inline(always)]
fn take_receive(world: &mut World, task: TaskId, name: Name, loss: Loss)
    requires stands { Stands world.old }
    requires can { CanKill world.old task name loss }
    ensures { TakesReceive world.old task name loss world.new }
{
    let port = loss.port;
    let gone = loss.held - loss.left;
    let left = left_sending(loss);
    world.lose_receive(port);
    world.put_left(task, name, left);
    take_sends(world, port, gone);
}

// Notes a port that has no send rights left, where some of them went.
fn note_lost(world: &mut World, port: PortId, went: bool)
    ensures { NotesLost world.old (Some port) went world.new }
{
    if went {
        world.note_senderless(port);
    }
}

// The port under a name loses its receive right; it is noted if it lost its last send right too.
#[inline(always)]
fn lose_receive(world: &mut World, task: TaskId, name: Name, loss: Loss)
    requires stands { Stands world.old }
    requires can { CanKill world.old task name loss }
    ensures { LosesReceive world.old task name loss world.new }
{
    let port = loss.port;
    let fewer = loss.left < loss.held;
    take_receive(world, task, name, loss);
    note_lost(world, port, fewer);
}

#[inline(always)]
fn carry_out(world: &mut World, task: TaskId, name: Name, due: Due)
    requires stands { Stands world.old }
    requires can { CanCarry world.old task name due }
    ensures { Carries world.old task name due world.new }
{
    match due {
        Due::Nothing => {}
        Due::References(entry, references) => {
            set_references(world, task, name, entry, references)
        }
        Due::Disbanding(set) => remove_set(world, task, name, set),
        Due::LosingOnce(port) => lose_name_once(world, task, name, port),
        Due::Killing(loss) => lose_receive(world, task, name, loss),
    }
}

// ---- GetRefs

/// `GetRefs` (Port Manipulation Interface, `mach_port_get_refs`): how many references of the right of
/// this number the task, which lives, has under the name, 0 to 65,535.
///
/// `KERN_INVALID_VALUE` for a number above 4; `KERN_INVALID_NAME` for a name that isn't in use.
/// Constant time, and logarithmic for a name above 65,535.
pub fn get_refs(world: &World, task: TaskId, name: Name, right: u32) -> Result<Reply, Code>
    requires { HasTask world.now task }
    ensures { Serves world.now (Event.GetRefs task name right) result world.now }
{
    let Some(right) = Right::from_number(right) else {
        return Err(Code::Kern(KernReturn::InvalidValue));
    };
    let entry = world.find(task, name)?;
    Ok(Reply::Refs(entry.references(right)))
}

// ---- Deallocate and Destroy

// One reference less, or the send-once right goes; none where there is neither.
fn deallocate_entry(entry: &Entry) -> Option<Due>
    ensures { result ≡ deallocated entry.now }
{
    match entry {
        Entry::Send(_, references)
        | Entry::ReceiveAndSend(_, references)
        | Entry::DeadName(references) => Some(Due::References(*entry, references.count() - 1)),
        Entry::SendOnce(port) => Some(Due::LosingOnce(*port)),
        Entry::Receive(_) | Entry::Set(_) => None,
    }
}

// All goes.
fn destroy_entry(entry: &Entry) -> Due
    ensures { result ≡ destroyed entry.now }
{
    match entry {
        Entry::Send(_, _) | Entry::DeadName(_) => Due::References(*entry, 0),
        Entry::Set(set) => Due::Disbanding(*set),
        Entry::SendOnce(port) => Due::LosingOnce(*port),
        Entry::Receive(port) => Due::Killing(whole_loss(*port, 0)),
        Entry::ReceiveAndSend(port, references) => {
            Due::Killing(whole_loss(*port, references.count()))
        }
    }
}

// Of so many send references none is left.
fn whole_loss(port: PortId, held: u32) -> Loss
    ensures { result ≡ whole_loss port held }
{
    Loss {
        port,
        held,
        left: 0,
    }
}

/// `Deallocate` (Port Manipulation Interface, `mach_port_deallocate`): drops one send reference, one
/// reference of a dead name, or the name's send-once right, whose loss its port is told. The name goes with
/// its last right or reference. Under a name with a receive right and send references, one of these goes. The
/// task lives.
///
/// `entry` is what was found under the name. `KERN_INVALID_RIGHT` for a receive right alone and a set. A refusal
/// changes nothing. Takes no memory. Constant time, and logarithmic for a name above 65,535.
#[inline(always)]
pub fn deallocate(world: &mut World, task: TaskId, name: Name, entry: &Entry) -> Result<Reply, Code>
    requires there { HasTask world.old task }
    requires stands { Stands world.old }
    requires found { entry_at world.old task name ≡ Some entry.now }
    ensures serves { Serves world.old (Event.Deallocate task name) result world.new }
    ensures spares { UsesSpares world.old world.new }
{
    let Some(due) = deallocate_entry(entry) else {
        return Err(Code::Kern(KernReturn::InvalidRight));
    };
    carry_out(world, task, name, due);
    Ok(Reply::Code(0))
}

/// `Destroy` (Port Manipulation Interface, `mach_port_destroy`): all that is under the name goes, and
/// the name with it. A port that loses its receive right dies, or is sent away, as the step ends; the
/// port of a send-once right is told that it was lost. With a set's name the set goes, and its members
/// are in none. The task lives.
///
/// `entry` is what was found under the name. Takes no memory. Constant time, and logarithmic for a name above
/// 65,535; for a set linear in its members.
#[inline(always)]
pub fn destroy(world: &mut World, task: TaskId, name: Name, entry: &Entry)
    requires there { HasTask world.old task }
    requires stands { Stands world.old }
    requires found { entry_at world.old task name ≡ Some entry.now }
    ensures serves { Serves world.old (Event.Destroy task name) (Ok (AnyReply.Code 0)) world.new }
    ensures spares { UsesSpares world.old world.new }
{
    carry_out(world, task, name, destroy_entry(entry));
}

// ---- ModRefs

fn change_of(delta: i32) -> Change
    ensures { IsChange result delta }
{
    if delta < 0 {
        Change::Fewer(delta.unsigned_abs())
    } else {
        Change::More(delta.unsigned_abs())
    }
}

// How many references there are after the change.
fn sum_of(held: u32, change: Change) -> Result<u32, KernReturn>
    ensures ok { IfOk result (λ sum. CanSum held change sum) }
    ensures err { IfErr result (λ code. CannotSum held change code) }
{
    match change {
        Change::More(more) => {
            let sum = held as u64 + more as u64;
            if sum > u64::from(MOST_REFERENCES) {
                return Err(KernReturn::UrefsOverflow);
            }
            Ok(sum as u32)
        }
        Change::Fewer(fewer) => {
            if fewer > held {
                return Err(KernReturn::InvalidValue);
            }
            Ok(held - fewer)
        }
    }
}

// Whether there would be too many rights.
fn lacks_rights(total: u32, change: Change) -> bool
    ensures { MatchBool result (most_rights < total + more_in change) (total + more_in change ≤ most_rights) }
{
    match change {
        Change::More(more) => more > MOST_RIGHTS - total,
        Change::Fewer(_) => false,
    }
}

fn judge_sends(total: u32, entry: Entry, change: Change) -> Result<Due, KernReturn>
    ensures ok { IfOk result (λ due. CanChange total right.Send entry change due) }
    ensures err { IfErr result (λ code. CannotChange total right.Send entry change code) }
{
    let sum = sum_of(entry.references(Right::Send), change)?;
    if lacks_rights(total, change) {
        return Err(KernReturn::NoSpace);
    }
    Ok(Due::References(entry, sum))
}

fn judge_dead(total: u32, entry: Entry, change: Change) -> Result<Due, KernReturn>
    ensures ok { IfOk result (λ due. CanChange total right.DeadName entry change due) }
    ensures err { IfErr result (λ code. CannotChange total right.DeadName entry change code) }
{
    let sum = sum_of(entry.references(Right::DeadName), change)?;
    Ok(Due::References(entry, sum))
}

// What is due of a right that has no references; `whole` where it goes.
fn judge_whole(change: Change, whole: Result<Due, KernReturn>) -> Result<Due, KernReturn>
    ensures { result ≡ changed_whole change whole }
{
    match change {
        Change::More(0) => Ok(Due::Nothing),
        Change::Fewer(1) => whole,
        _ => Err(KernReturn::InvalidValue),
    }
}

fn judge_set(total: u32, entry: Entry, change: Change) -> Result<Due, KernReturn>
    ensures ok { IfOk result (λ due. CanChange total right.PortSet entry change due) }
    ensures err { IfErr result (λ code. CannotChange total right.PortSet entry change code) }
{
    let set = entry.set().ok_or(KernReturn::InvalidRight)?;
    judge_whole(change, Ok(Due::Disbanding(set)))
}

fn judge_once(total: u32, entry: Entry, change: Change) -> Result<Due, KernReturn>
    ensures ok { IfOk result (λ due. CanChange total right.SendOnce entry change due) }
    ensures err { IfErr result (λ code. CannotChange total right.SendOnce entry change code) }
{
    let port = entry.right_port().ok_or(KernReturn::InvalidRight)?;
    judge_whole(change, Ok(Due::LosingOnce(port)))
}

// The send references stay.
fn judge_receive(total: u32, entry: Entry, change: Change) -> Result<Due, KernReturn>
    ensures ok { IfOk result (λ due. CanChange total right.Receive entry change due) }
    ensures err { IfErr result (λ code. CannotChange total right.Receive entry change code) }
{
    let port = entry.port().ok_or(KernReturn::InvalidRight)?;
    let held = entry.send_references();
    let loss = Loss {
        port,
        held,
        left: held,
    };
    judge_whole(change, Ok(Due::Killing(loss)))
}

// What is due where the references of a right that the entry has change so.
fn judge_change(total: u32, right: Right, entry: Entry, change: Change) -> Result<Due, KernReturn>
    ensures ok { IfOk result (λ due. CanChange total right entry change due) }
    ensures err { IfErr result (λ code. CannotChange total right entry change code) }
{
    match right {
        Right::Send => judge_sends(total, entry, change),
        Right::DeadName => judge_dead(total, entry, change),
        Right::PortSet => judge_set(total, entry, change),
        Right::SendOnce => judge_once(total, entry, change),
        Right::Receive => judge_receive(total, entry, change),
    }
}

// The right of this number, and what stands under the name, which has it.
fn find_right(
    world: &World,
    task: TaskId,
    name: Name,
    number: u32,
) -> Result<(Right, Entry), KernReturn>
    ensures ok { IfOk result (λ r. FindsRight world.now task name number r.0 r.1) }
    ensures err { IfErr result (λ code. (delta : ℤ) → IsRefused world.now (λ s. call_guards s (Event.ModRefs task name number delta)) (kern_number code)) }
{
    let Some(right) = Right::from_number(number) else {
        return Err(KernReturn::InvalidValue);
    };
    let entry = world.find(task, name)?;
    if entry.references(right) == 0 {
        return Err(KernReturn::InvalidRight);
    }
    Ok((right, entry))
}

/// `ModRefs` (Port Manipulation Interface, `mach_port_mod_refs`): changes by `delta` the references of the
/// right of number `right`, 0 to 4, under the name. Send references that come are new send rights. The name
/// goes with its last right or reference. Of a right without references `delta` is 0, which changes nothing,
/// or -1: the right goes. A port that loses its receive right dies, or is sent away, as the step ends. The
/// port of a send-once right is told that it was lost. With a set's right the set goes, and its members are
/// in no set. The task lives.
///
/// # Errors
/// A refusal changes nothing. The first that holds is returned.
/// - `KERN_INVALID_VALUE`: a number above 4.
/// - `KERN_INVALID_NAME`: a name that isn't in use.
/// - `KERN_INVALID_RIGHT`: the name lacks the right.
/// - `KERN_INVALID_VALUE`: there would be fewer than no references, or a right without references can't have
///   this `delta`.
/// - `KERN_UREFS_OVERFLOW`: more than 65,535 references.
/// - `KERN_NO_SPACE`: more than 4,294,967,295 rights.
///
/// Takes no memory. Constant time, and logarithmic for a name above 65,535. Where a set goes, linear in its
/// members.
pub fn mod_refs(
    world: &mut World,
    task: TaskId,
    name: Name,
    right: u32,
    delta: i32,
) -> Result<Reply, Code>
    requires there { HasTask world.old task }
    requires stands { Stands world.old }
    ensures serves { Serves world.old (Event.ModRefs task name right delta) result world.new }
    ensures spares { UsesSpares world.old world.new }
{
    let (right, entry) = find_right(world, task, name, right)?;
    let due = judge_change(world.total_rights(), right, entry, change_of(delta))?;
    carry_out(world, task, name, due);
    Ok(Reply::Code(0))
}
