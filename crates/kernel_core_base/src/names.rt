//! A task's names: allocating a port, a port set or a dead name under one, listing them with their
//! types, and giving one another number.
ghost use Rattle.std.specs.Prelude.{◌≡◌, ◌≢◌, ℕ, ◌<◌, ◌^◌, Some, None, false, IsTrue, IfOk, IfErr, OnOk, OnErr};
ghost use Rattle.std.specs.FinMap as map;
ghost use Rattle.mach_types.specs.declared.calls.Event.{Event};
ghost use Rattle.mach_types.specs.declared.codes.KernReturn.TheVariants as kern;
ghost use Rattle.mach_types.specs.Numbers.{most_rights, most_identities};
ghost use Rattle.mach_types.specs.Codes.{kern_number, code_number};
ghost use Rattle.mach_model.specs.Refusals.{IsNoMaking, call_guards};
ghost use Rattle.name_space.specs.Names.{IsUsable};
ghost use Rattle.name_space.specs.declared.Entry.TheVariants as entry_of;
ghost use Rattle.port_set.specs.Sets.{IsThere, created};
ghost use Rattle.request_table.specs.Requests.{name_key};
ghost use Rattle.copyin_base.specs.Changes.{MayRename};
ghost use Rattle.copyin_base.specs.Serving.{Serves, IsRefused, IsAllowed};
ghost use Rattle.copyin_base.specs.Stands.{Stands};
ghost use Rattle.copyin_base.specs.Wanted.{KeepsSpares};
ghost use Rattle.copyin_base.specs.Worlds.{entry_at, HasTask};
ghost use Rattle.kernel_core_base.specs.declared.names.NewRight.TheVariants as AnyRight;
ghost use Rattle.kernel_core_base.specs.Names.{right_made, IsFullFor, HasRoomFor, IsFullOf, HasRoomOf, MayMake, CanAdd, Adds, MakesRight, sets_named, bit_requested, type_of_entry, type_found, types_of};
ghost use Rattle.kernel_core_base.specs.Wanted.{MayLackMemory};

use copyin_base::{TaskNames, World};
use mach_types::limits::MOST_RIGHTS;
use mach_types::{Code, KernReturn, Name, NameTypes, Reply, Right, TaskId};
use name_space::Entry;
use std::alloc::{AllocError, Global};
use user_refs::UserRefs;

// The bit of a name's type for a dead-name request on it (Port Manipulation Interface,
// `MACH_PORT_TYPE_DNREQUEST`).
const DEAD_NAME_REQUESTED: u32 = 0x8000_0000;

// What can be made under a name.
#[derive(Clone, Copy)]
enum NewRight {
    // A port, of which the task has the receive right.
    Port,
    // A port set, of no ports.
    Set,
    // A dead name of one reference.
    DeadName,
}

/// `Allocate` (Port Manipulation Interface, `mach_port_allocate`): makes what the right's number says, under
/// a fresh name. A receive right, number 1, is of a new port. A port set, number 3, is new and has no ports.
/// A dead name, number 4, has one reference. The task lives.
///
/// # Errors
/// A refusal leaves all as it was, except that room for one name may have been made.
/// - `KERN_INVALID_VALUE`: another number.
/// - `KERN_NO_SPACE`: the task has 65,535 names; for a port also, there are 4,294,967,295 rights; for a port
///   or a set also, all its identities were given.
/// - `KERN_RESOURCE_SHORTAGE`: out of memory. A dead name takes none where there is room for its name.
///
/// Constant time, and logarithmic for a name above 65,535, except where tables move to a larger place.
pub fn allocate(world: &mut World, task: TaskId, right: u32) -> Result<Reply, Code>
    requires there { HasTask world.old task }
    requires stands { Stands world.old }
    ensures serves { Serves world.old (Event.Allocate task right) result world.new }
    ensures wanted { IfErr result (λ code. code_number code ≡ kern_number kern.ResourceShortage → MayLackMemory world.old (Event.Allocate task right)) }
    ensures spares { KeepsSpares world.old world.new }
{
    let made = judge_allocate(world, task, right)?;
    world.reserve_names(task, 1)?;
    let name = world.space(task).fresh();
    let entry = make_right(world, task, made, name)?;
    world.insert_fresh(task, name, entry);
    Ok(Reply::Name(name))
}

/// `AllocateName` (Port Manipulation Interface, `mach_port_allocate_name`): as [`allocate`], under the name
/// that is given.
///
/// `KERN_INVALID_VALUE` for another number, and for the names 0 and 0xffffffff. `KERN_NAME_EXISTS` where the
/// task uses the name. Then as [`allocate`], also in cost, with two differences. A dead name takes no memory
/// where a place is kept for this very name. A refusal may leave a place kept for it.
pub fn allocate_name(world: &mut World, task: TaskId, right: u32, name: Name) -> Result<Reply, Code>
    requires there { HasTask world.old task }
    requires stands { Stands world.old }
    ensures serves { Serves world.old (Event.AllocateName task right name) result world.new }
    ensures wanted { IfErr result (λ code. code_number code ≡ kern_number kern.ResourceShortage → MayLackMemory world.old (Event.AllocateName task right name)) }
    ensures spares { KeepsSpares world.old world.new }
{
    let made = judge_allocate_name(world, task, right, name)?;
    world.reserve_name(task, name)?;
    add_right(world, task, made, name)?;
    Ok(Reply::Name(name))
}

/// Whether the right may be made under a fresh name, where there is memory: as [`allocate`] refuses it,
/// except when out of memory. The task lives. Constant time.
pub fn check_allocate(world: &World, task: TaskId, right: u32) -> Result<(), KernReturn>
    requires { HasTask world.now task }
    ensures ok { OnOk result (IsAllowed world.now (λ s. call_guards s (Event.Allocate task right))) }
    ensures err { IfErr result (λ code. IsRefused world.now (λ s. call_guards s (Event.Allocate task right)) (kern_number code)) }
{
    judge_allocate(world, task, right)?;
    Ok(())
}

/// Whether the right may be made under the name, where there is memory: as [`allocate_name`] refuses it,
/// except when out of memory. The task lives. Constant time, and logarithmic for a name above 65,535.
pub fn check_allocate_name(
    world: &World,
    task: TaskId,
    right: u32,
    name: Name,
) -> Result<(), KernReturn>
    requires { HasTask world.now task }
    ensures ok { OnOk result (IsAllowed world.now (λ s. call_guards s (Event.AllocateName task right name))) }
    ensures err { IfErr result (λ code. IsRefused world.now (λ s. call_guards s (Event.AllocateName task right name)) (kern_number code)) }
{
    judge_allocate_name(world, task, right, name)?;
    Ok(())
}

// What is to be made under a fresh name, or why it isn't.
fn judge_allocate(world: &World, task: TaskId, right: u32) -> Result<NewRight, KernReturn>
    requires { HasTask world.now task }
    ensures made { IfOk result (λ made. MayMake world.now task right made) }
    ensures ok { OnOk result (IsAllowed world.now (λ s. call_guards s (Event.Allocate task right))) }
    ensures err { IfErr result (λ code. IsRefused world.now (λ s. call_guards s (Event.Allocate task right)) (kern_number code)) }
{
    let made = right_to_make(right)?;
    if is_full(world, task, made) {
        return Err(KernReturn::NoSpace);
    }
    Ok(made)
}

// What is to be made under the name, or why it isn't.
fn judge_allocate_name(
    world: &World,
    task: TaskId,
    right: u32,
    name: Name,
) -> Result<NewRight, KernReturn>
    requires { HasTask world.now task }
    ensures made { IfOk result (λ made. MayMake world.now task right made) }
    ensures usable { OnOk result (IsUsable name) }
    ensures unused { OnOk result (entry_at world.now task name ≡ None) }
    ensures ok { OnOk result (IsAllowed world.now (λ s. call_guards s (Event.AllocateName task right name))) }
    ensures err { IfErr result (λ code. IsRefused world.now (λ s. call_guards s (Event.AllocateName task right name)) (kern_number code)) }
{
    let made = right_to_make(right)?;
    if !name.is_usable() {
        return Err(KernReturn::InvalidValue);
    }
    if world.lookup(task, name).is_some() {
        return Err(KernReturn::NameExists);
    }
    if is_full(world, task, made) {
        return Err(KernReturn::NoSpace);
    }
    Ok(made)
}

// What can be made of the right of this number.
fn right_to_make(number: u32) -> Result<NewRight, KernReturn>
    ensures ok { IfOk result (λ made. right_made made ≡ number) }
    ensures err { IfErr result (λ code. (code ≡ kern.InvalidValue) × IsNoMaking number) }
{
    let Some(right) = Right::from_number(number) else {
        return Err(KernReturn::InvalidValue);
    };
    match right {
        Right::Receive => Ok(NewRight::Port),
        Right::PortSet => Ok(NewRight::Set),
        Right::DeadName => Ok(NewRight::DeadName),
        Right::Send | Right::SendOnce => Err(KernReturn::InvalidValue),
    }
}

// Whether there is no room for one more that the task names.
fn is_full(world: &World, task: TaskId, right: NewRight) -> bool
    requires { HasTask world.now task }
    ensures full { IsTrue result → IsFullOf world.now task right }
    ensures room { result ≡ false → HasRoomOf world.now task right }
{
    world.space(task).is_full() || is_used_up(world, right)
}

// Whether there is no room for one more, wherever it is named.
fn is_used_up(world: &World, right: NewRight) -> bool
    ensures full { IsTrue result → IsFullFor world.now right }
    ensures room { result ≡ false → HasRoomFor world.now right }
{
    match right {
        NewRight::Port => world.total_rights() == MOST_RIGHTS || world.are_ports_exhausted(),
        NewRight::Set => world.are_sets_exhausted(),
        NewRight::DeadName => false,
    }
}

// One right more, named by the task, in a place that was made for the name. Where memory is refused,
// nothing changes.
fn add_right(world: &mut World, task: TaskId, right: NewRight, name: Name) -> Result<(), KernReturn>
    requires { CanAdd world.old task right name }
    ensures ok { OnOk result (Adds world.old task right name world.new) }
    ensures err { IfErr result (λ code. (code ≡ kern.ResourceShortage) × (world.new ≡ world.old) × (right ≢ AnyRight.DeadName)) }
{
    let entry = make_right(world, task, right, name)?;
    world.insert_entry(task, name, entry);
    Ok(())
}

// What is made, before it stands under its name.
#[inline(always)]
fn make_right(
    world: &mut World,
    task: TaskId,
    right: NewRight,
    name: Name,
) -> Result<Entry, KernReturn>
    requires room { HasRoomFor world.old right }
    requires unknown { map.get world.old.ledger.counts world.old.ports.made ≡ None }
    ensures ok { IfOk result (λ entry. MakesRight world.old task right name entry world.new) }
    ensures err { IfErr result (λ code. (code ≡ kern.ResourceShortage) × (world.new ≡ world.old) × (right ≢ AnyRight.DeadName)) }
{
    let made = match right {
        NewRight::Port => world.create_port(task).map(Entry::Receive),
        NewRight::Set => world.create_set(task, name).map(Entry::Set),
        NewRight::DeadName => Ok(Entry::DeadName(UserRefs::one())),
    };
    made.map_err(|_| KernReturn::ResourceShortage)
}

/// `NameType` (Port Manipulation Interface, `mach_port_type`): a bit for each kind of right that the
/// task has under the name, and one for a dead-name request on it. The task lives.
///
/// `KERN_INVALID_NAME` for a name that isn't in use. Constant time, and logarithmic for a name
/// above 65,535.
pub fn name_type(world: &World, task: TaskId, name: Name) -> Result<Reply, Code>
    requires there { HasTask world.now task }
    requires stands { Stands world.now }
    ensures { Serves world.now (Event.NameType task name) result world.now }
{
    let entry = world.find(task, name)?;
    Ok(Reply::NameType(type_of(world, task, name, &entry)))
}

/// `Names` (Port Manipulation Interface, `mach_port_names`): the names of the task with their types,
/// names rising. The task lives.
///
/// `KERN_RESOURCE_SHORTAGE` when out of memory. It takes 12 bytes for each name, and none where there are no
/// names. Linear in the names of the task, except for a logarithmic look at each above 65,535.
pub fn list_names(world: &World, alloc: Global, task: TaskId) -> Result<Reply, Code>
    requires there { HasTask world.now task }
    requires stands { Stands world.now }
    ensures serves { Serves world.now (Event.Names task) result world.now }
    ensures wanted { IfErr result (λ code. code_number code ≡ kern_number kern.ResourceShortage → MayLackMemory world.now (Event.Names task)) }
{
    match names_with_types(world, task, &world.space(task), alloc) {
        Ok(entries) => Ok(Reply::Names(NameTypes::from_vec(entries))),
        Err(_) => Err(Code::Kern(KernReturn::ResourceShortage)),
    }
}

// The names of a task with their types, names rising.
fn names_with_types(
    world: &World,
    task: TaskId,
    space: &TaskNames<'_>,
    alloc: Global,
) -> Result<Vec<(Name, u32)>, AllocError>
    ensures ok { IfOk result (λ entries. entries.items ≡ types_of world.now.requests task space.now.names) }
    ensures err { OnErr result (0 < map.len space.now.names) }
{
    let mut entries = Vec::new(alloc);
    if space.is_empty() {
        return Ok(entries);
    }
    let names = space.names(alloc)?;
    entries.reserve(names.len())?;
    for name in &names {
        entries.push((*name, type_at(world, task, space, *name)))?;
    }
    Ok(entries)
}

// The type of a task's name, 0 where it isn't in use.
fn type_at(world: &World, task: TaskId, space: &TaskNames<'_>, name: Name) -> u32
    ensures { result ≡ type_found world.now.requests task name (map.get space.now.names name) }
{
    match space.lookup(name) {
        Some(entry) => type_of(world, task, name, &entry),
        None => 0,
    }
}

// The type of a task's name under which this stands.
fn type_of(world: &World, task: TaskId, name: Name, entry: &Entry) -> u32
    ensures { result ≡ type_of_entry world.now.requests task name entry.now }
{
    entry.type_bits() | request_bit(world, task, name)
}

// The bit for a dead-name request on a task's name, 0 where there is none.
fn request_bit(world: &World, task: TaskId, name: Name) -> u32
    ensures { result ≡ bit_requested (map.get world.now.requests.names.requests (name_key task name)) }
{
    match world.find_on_name(task, name) {
        Some(_) => DEAD_NAME_REQUESTED,
        None => 0,
    }
}

/// `Rename` (Port Manipulation Interface, `mach_port_rename`): moves what is under the first name to the
/// second, with a dead-name request on it. A set's members, and a port's rights and messages, stay as they
/// are. The task lives.
///
/// # Errors
/// A refusal leaves all as it was.
/// - `KERN_INVALID_VALUE`: the second is 0 or 0xffffffff.
/// - `KERN_INVALID_NAME`: the first isn't in use.
/// - `KERN_NAME_EXISTS`: the second is in use, also by the first itself.
/// - `KERN_RESOURCE_SHORTAGE`: no place was kept for the second name, and memory for one was refused.
///
/// Constant time, and logarithmic for a name above 65,535, except where memory is taken.
pub fn rename(world: &mut World, task: TaskId, from: Name, to: Name) -> Result<Reply, Code>
    requires there { HasTask world.old task }
    requires stands { Stands world.old }
    ensures serves { Serves world.old (Event.Rename task from to) result world.new }
    ensures wanted { IfErr result (λ code. code_number code ≡ kern_number kern.ResourceShortage → MayLackMemory world.old (Event.Rename task from to)) }
    ensures spares { KeepsSpares world.old world.new }
{
    let entry = judge_rename(world, task, from, to)?;
    world.reserve_name(task, to)?;
    world.move_entry(task, from, to);
    world.move_on_name(task, from, to);
    name_set(world, entry, to);
    Ok(Reply::Code(0))
}

/// Whether the name may be changed so, where there is memory: as [`rename`] refuses it, except when out of
/// memory. The task lives. Constant time, and logarithmic for a name above 65,535.
pub fn check_rename(world: &World, task: TaskId, from: Name, to: Name) -> Result<(), KernReturn>
    requires { HasTask world.now task }
    ensures ok { OnOk result (IsAllowed world.now (λ s. call_guards s (Event.Rename task from to))) }
    ensures err { IfErr result (λ code. IsRefused world.now (λ s. call_guards s (Event.Rename task from to)) (kern_number code)) }
{
    judge_rename(world, task, from, to)?;
    Ok(())
}

// What is to be renamed, or why it isn't.
fn judge_rename(world: &World, task: TaskId, from: Name, to: Name) -> Result<Entry, KernReturn>
    requires { HasTask world.now task }
    ensures may { IfOk result (λ entry. MayRename world.now task from to entry) }
    ensures small { to < 2 ^ 32 }
    ensures ok { OnOk result (IsAllowed world.now (λ s. call_guards s (Event.Rename task from to))) }
    ensures err { IfErr result (λ code. IsRefused world.now (λ s. call_guards s (Event.Rename task from to)) (kern_number code)) }
{
    if !to.is_usable() {
        return Err(KernReturn::InvalidValue);
    }
    let entry = world.find(task, from)?;
    if world.lookup(task, to).is_some() {
        return Err(KernReturn::NameExists);
    }
    Ok(entry)
}

// Keeps the name for the entry's set, if it is one.
fn name_set(world: &mut World, entry: Entry, name: Name)
    requires { (set : ℕ) → entry ≡ entry_of.Set set → IsThere world.old.sets set }
    ensures { world.new ≡ record world.old { sets = sets_named entry name world.old.sets } }
{
    if let Entry::Set(set) = entry {
        world.rename_set(set, name);
    }
}
