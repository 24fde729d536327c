//! A right copied in from where it stands, and put or given where it goes.
ghost use Rattle.std.specs.Prelude.{◌≡◌, ◌⊎◌, true, IfErr, OnOk, OnErr, MatchBool};
ghost use Rattle.mach_types.specs.declared.calls.Event.{Event as AnyEvent};
ghost use Rattle.mach_types.specs.declared.codes.KernReturn.TheVariants as kern;
ghost use Rattle.mach_types.specs.Codes.{kern_number, code_number};
ghost use Rattle.name_space.specs.Names.{IsUsable};
ghost use Rattle.copyin_base.specs.Serving.{Serves};
ghost use Rattle.copyin_base.specs.Stands.{Stands};
ghost use Rattle.copyin_base.specs.Changes.{KeepsPlace};
ghost use Rattle.copyin_base.specs.Wanted.{LacksRoomFor, LacksPlace, LacksSlots};
ghost use Rattle.copyin_base.specs.Worlds.{HasTask};
ghost use Rattle.transfer.specs.Transfer.{names_needed};
ghost use Rattle.transfer.specs.Room.{slots_needed, slotted, ReadiesInsert, ReadiesExtract, IsRoomier, MakesSlots};
ghost use Rattle.transfer.specs.Wanted.{WantsToInsert, WantsToExtract};

use crate::judge::{Handed, TaskName, judge_extract, judge_insert};
use copyin::copy_name;
use copyin_base::{Carried, Mark, World};
use copyout::{give_right, put_right};
use mach_types::{Code, KernReturn, Reply, TaskId};

/// Copies a right in from where it is, and puts it under a name of a task (Port Manipulation Interface,
/// `mach_port_insert_right`). `number` is the disposition's. The tasks live, and may be the same. From
/// `RIGHT_EXISTS` on it is judged as it will be once the right was copied in, so a name that this frees
/// counts as free.
///
/// # Errors
/// A refusal changes nothing, except that room may have been made for the name. The first that holds is
/// returned.
/// - `INVALID_VALUE`: `to` is no name, or the number no disposition's.
/// - `INVALID_CAPABILITY`: `from` is no name, or a dead name that could be sent.
/// - `INVALID_NAME`: nothing is under `from`.
/// - `INVALID_RIGHT`: `from` lacks the right.
/// - `RIGHT_EXISTS`: the task has the port under another name.
/// - `NAME_EXISTS`: something else is under the name.
/// - `UREFS_OVERFLOW`: 65,535 references.
/// - `NO_SPACE`: 65,535 names or 4,294,967,295 rights.
/// - `RESOURCE_SHORTAGE`: memory was refused for the name, which is new and for which no place was kept, or
///   for the slot of a send-once right that is made.
///
/// Constant time, and logarithmic for a name above 65,535.
pub fn insert(world: &mut World, to: &TaskName, from: &TaskName, number: u32) -> Result<Reply, Code>
    requires there { (HasTask world.old to.now.task) × (HasTask world.old from.now.task) }
    requires stands { Stands world.old }
    ensures serves { Serves world.old (AnyEvent.InsertRight to.now.task to.now.name from.now.task from.now.name number) result world.new }
    ensures wanted { IfErr result (λ code. code_number code ≡ kern_number kern.ResourceShortage → WantsToInsert world.old to.now from.now number) }
    ensures spares { MakesSlots world.old world.new }
{
    let handed = judge_insert(world, to, from, number)?;
    ready_insert(world, to, &handed)?;
    let Handed { given, port, .. } = handed;
    let mark = Mark::Port(port);
    copy_name(world, from.task, from.name, Carried { given, mark });
    put_right(world, to.task, given, port, to.name);
    Ok(Reply::Code(KernReturn::Success.number()))
}

/// Copies a right in from where it is, and gives it to a task as a receive would (Port Manipulation
/// Interface, `mach_port_extract_right`). Returns the name there, and 16, 17 or 18 for a receive, send or
/// send-once right. `number` is the disposition's. The tasks live, and may be the same. A send right that
/// comes to 65,535 references is dropped.
///
/// # Errors
/// A refusal changes nothing, except that room may have been made for a name. The first that holds is
/// returned.
/// - `INVALID_VALUE`: the number is no disposition's.
/// - `INVALID_NAME`: nothing is under the name.
/// - `INVALID_RIGHT`: the name lacks the right, or is dead.
/// - `NO_SPACE`: 65,535 names where a name is needed once the right was copied in, or 4,294,967,295 rights.
/// - `RESOURCE_SHORTAGE`: memory was refused for a name, or for the slot of a send-once right that is made.
///
/// Constant time, and logarithmic for a name above 65,535.
pub fn extract(world: &mut World, from: &TaskName, number: u32, to: TaskId) -> Result<Reply, Code>
    requires there { (HasTask world.old from.now.task) × (HasTask world.old to) }
    requires stands { Stands world.old }
    ensures serves { Serves world.old (AnyEvent.ExtractRight from.now.task from.now.name number to) result world.new }
    ensures wanted { IfErr result (λ code. code_number code ≡ kern_number kern.ResourceShortage → WantsToExtract world.old from.now number to) }
    ensures spares { MakesSlots world.old world.new }
{
    let handed = judge_extract(world, from, number, to)?;
    ready_extract(world, to, &handed)?;
    let Handed { given, port, .. } = handed;
    let mark = Mark::Port(port);
    let carried = Carried { given, mark };
    copy_name(world, from.task, from.name, carried);
    let name = give_right(world, to, &carried);
    Ok(Reply::Right(name, given.kind_number()))
}

/// Makes room where it is wanted: for the name under which the right comes, where it needs a new one, and
/// then a slot for what may be sent to it, where it is a send-once right that is made.
fn ready_insert(world: &mut World, to: &TaskName, handed: &Handed) -> Result<(), KernReturn>
    requires there { HasTask world.old to.now.task }
    requires usable { IsUsable to.now.name }
    ensures ok { OnOk result (ReadiesInsert world.old to.now handed.now world.new) }
    ensures err { IfErr result (λ code. (code ≡ kern.ResourceShortage) × IsRoomier world.old world.new) }
    ensures lacks { OnErr result ((handed.now.is_new ≡ true) × LacksPlace world.old to.now.task to.now.name ⊎ LacksSlots world.old (slots_needed handed.now)) }
{
    keep_place(world, to, handed)?;
    make_slot(world, handed)
}

/// Makes room for the name that the right comes under, where it needs one, and then a slot as
/// [`ready_insert`] does.
fn ready_extract(world: &mut World, to: TaskId, handed: &Handed) -> Result<(), KernReturn>
    requires { HasTask world.old to }
    ensures ok { OnOk result (ReadiesExtract world.old to handed.now world.new) }
    ensures err { IfErr result (λ code. (code ≡ kern.ResourceShortage) × IsRoomier world.old world.new) }
    ensures lacks { OnErr result (LacksRoomFor world.old to (names_needed handed.now) ⊎ LacksSlots world.old (slots_needed handed.now)) }
{
    world.reserve_names(to, handed.count_names())?;
    make_slot(world, handed)
}

/// Makes a slot for what may come by the right, where it is a send-once right that is made.
fn make_slot(world: &mut World, handed: &Handed) -> Result<(), KernReturn>
    ensures ok { OnOk result (world.new ≡ slotted world.old (slots_needed handed.now)) }
    ensures err { IfErr result (λ code. (code ≡ kern.ResourceShortage) × (world.new ≡ world.old)) }
    ensures lacks { OnErr result (LacksSlots world.old (slots_needed handed.now)) }
{
    match world.reserve_slots(handed.count_slots()) {
        Ok(()) => Ok(()),
        Err(_) => Err(KernReturn::ResourceShortage),
    }
}

/// Keeps a place for the name that the right comes under, where it needs one.
fn keep_place(world: &mut World, to: &TaskName, handed: &Handed) -> Result<(), KernReturn>
    requires there { HasTask world.old to.now.task }
    requires usable { IsUsable to.now.name }
    ensures ok { OnOk result (MatchBool handed.now.is_new (KeepsPlace world.old to.now.task to.now.name world.new) (world.new ≡ world.old)) }
    ensures err { IfErr result (λ code. (code ≡ kern.ResourceShortage) × (world.new ≡ world.old)) }
    ensures lacks { OnErr result ((handed.now.is_new ≡ true) × LacksPlace world.old to.now.task to.now.name) }
{
    if handed.is_new {
        world.reserve_name(to.task, to.name)
    } else {
        Ok(())
    }
}
