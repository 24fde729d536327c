//! Port sets: their members, and ports that move from set to set, or enter and leave one beside others.
ghost use Rattle.std.specs.Prelude.{◌≡◌, ◌≢◌, ◌<◌, ℕ, true, Some, IfOk, IfErr, IfSome, OnOk};
ghost use Rattle.std.specs.BTreeSet.{IsOrdered};
ghost use Rattle.std.specs.List.{Contains};
ghost use Rattle.std.specs.FinMap as map;
ghost use Rattle.std.specs.Ordering.{nat_cmp};
ghost use Rattle.mach_types.specs.declared.calls.Event.{Event};
ghost use Rattle.mach_types.specs.Codes.{kern_number, code_number};
ghost use Rattle.mach_model.specs.Refusals.{call_guards, move_guards};
ghost use Rattle.mach_types.specs.declared.codes.KernReturn.TheVariants as kern;
ghost use Rattle.copyin_base.specs.Serving.{IsAllowed, IsRefused, Serves};
ghost use Rattle.copyin_base.specs.Stands.{Stands};
ghost use Rattle.copyin_base.specs.Wanted.{KeepsSpares};
ghost use Rattle.name_space.specs.Names.{port_at};
ghost use Rattle.port.specs.Ports.{IsIn};
ghost use Rattle.kernel_core_base.specs.Gathered.{IsNoted, AreGathered};
ghost use Rattle.kernel_core_base.specs.Sets.{is_member, members_in, IsUnpaired, MayMove, MayPair, moved_reply, pair_reply, TellsMoved, TellsPair, WantsToEnter};
ghost use Rattle.copyin_base.specs.Worlds.{HasTask};

use copyin_base::{TaskNames, World};
use mach_types::{Code, KernReturn, Name, NameList, PortId, Reply, SetId, TaskId};
use port::Membership;
use std::alloc::{AllocError, Global};
use std::collections::BTreeSet;

/// `SetStatus` (Port Manipulation Interface, `mach_port_get_set_status`): returns the names of the members of
/// the port set under the name, rising. The task, which lives, has the receive right of each.
///
/// `KERN_INVALID_NAME` for a name that isn't in use; `KERN_INVALID_RIGHT` where it is no set's;
/// `KERN_RESOURCE_SHORTAGE` when out of memory. It takes a few words for each member, whatever other names
/// the task has. For n members it takes time in n log n, and linear in the sets that they are in.
pub fn set_status(world: &World, alloc: Global, task: TaskId, name: Name) -> Result<Reply, Code>
    requires { HasTask world.now task }
    ensures { Serves world.now (Event.SetStatus task name) result world.now }
{
    let set = world.find_set(task, name)?;
    match list_members(world, alloc, &world.space(task), set) {
        Ok(members) => Ok(Reply::Members(NameList::from_vec(members))),
        Err(_) => Err(Code::Kern(KernReturn::ResourceShortage)),
    }
}

/// Whether the members of the set may be told, where there is memory: as [`set_status`] refuses it, except
/// when out of memory. The task lives. Constant time, and logarithmic for a name above 65,535.
pub fn check_set_status(world: &World, task: TaskId, name: Name) -> Result<(), KernReturn>
    requires { HasTask world.now task }
    ensures ok { OnOk result (IsAllowed world.now (λ s. call_guards s (Event.SetStatus task name))) }
    ensures err { IfErr result (λ code. IsRefused world.now (λ s. call_guards s (Event.SetStatus task name)) (kern_number code)) }
{
    world.find_set(task, name)?;
    Ok(())
}

// The members' names among those of a task, rising.
fn list_members(
    world: &World,
    alloc: Global,
    space: &TaskNames<'_>,
    set: SetId,
) -> Result<Vec<Name>, AllocError>
    ensures { IfOk result (λ members. members.items ≡ members_in world.now set space.now.names) }
{
    let ports = world.members(set, alloc)?;
    let numbers = gather(world, alloc, space, set, &ports)?;
    names_of(&numbers, alloc)
}

// The numbers of the names that have the receive rights of these ports, which are in the set.
fn gather(
    world: &World,
    alloc: Global,
    space: &TaskNames<'_>,
    set: SetId,
    ports: &[PortId],
) -> Result<BTreeSet<u32>, AllocError>
    requires { (port : ℕ) → Contains ports.now port → IsIn world.now.ports set port }
    ensures { IfOk result (λ numbers. AreGathered world.now set space.now.names ports.now numbers) }
{
    let mut numbers = BTreeSet::new(alloc);
    for port in ports {
        note(&mut numbers, member_name(world, space, *port, set))?;
    }
    Ok(numbers)
}

// Puts a name's number, if there is one, among these.
fn note(numbers: &mut BTreeSet<u32>, name: Option<Name>) -> Result<(), AllocError>
    requires { IsOrdered nat_cmp numbers.old }
    ensures { OnOk result (IsNoted numbers.old numbers.new name) }
{
    if let Some(name) = name {
        numbers.insert(name.number())?;
    }
    Ok(())
}

// The numbers as names, in their order.
fn names_of(numbers: &BTreeSet<u32>, alloc: Global) -> Result<Vec<Name>, AllocError>
    ensures { IfOk result (λ names. names.items ≡ numbers.now.keys) }
{
    let mut names = Vec::new(alloc);
    for number in numbers {
        names.push(Name::new(*number))?;
    }
    Ok(names)
}

// The name that has the receive right of the port, which is in the set.
fn member_name(world: &World, space: &TaskNames<'_>, port: PortId, set: SetId) -> Option<Name>
    requires { IsIn world.now.ports set port }
    ensures found { IfSome result (λ name. is_member world.now set (map.get space.now.names name) ≡ true) }
    ensures only { (name : ℕ) → port_at space.now.names name ≡ Some port → is_member world.now set (map.get space.now.names name) ≡ true → result ≡ Some name }
{
    let name = space.name_of_port(port)?;
    if names_member(world, space, name, set) {
        Some(name)
    } else {
        None
    }
}

// Whether the name has the receive right of a port in the set. A port that it stands for is in it.
fn names_member(world: &World, space: &TaskNames<'_>, name: Name, set: SetId) -> bool
    requires { (port : ℕ) → port_at space.now.names name ≡ Some port → IsIn world.now.ports set port }
    ensures { result ≡ is_member world.now set (map.get space.now.names name) }
{
    let Some(entry) = space.lookup(name) else {
        return false;
    };
    let Some(port) = entry.receive_port() else {
        return false;
    };
    world.is_in(port, set)
}

// A port that changes its sets, for this one alone or for none.
#[derive(Clone, Copy)]
struct Moving {
    port: PortId,
    set: Option<SetId>,
}

/// A port that changed its sets: which one, and in which it was.
#[derive(Clone, Copy, Debug)]
pub struct Moved {
    /// The port.
    pub port: PortId,
    /// The sets that it was in before, if any.
    pub left: Membership,
}

/// A port, and a set that it entered or left.
#[derive(Clone, Copy, Debug)]
pub struct Member {
    /// The port.
    pub port: PortId,
    /// The set.
    pub set: SetId,
}

/// `MoveMember` (Port Manipulation Interface, `mach_port_move_member`): moves the port whose receive right is
/// under the first name. The port leaves all sets that it is in. It goes into the set under the second name,
/// unless that is 0. In a set that it is in already it keeps its turn. The task lives.
///
/// `KERN_INVALID_NAME` for a name that isn't in use. `KERN_INVALID_RIGHT` where the first has no receive
/// right or the second is no set's. `KERN_NOT_IN_SET` where the port is to leave its sets and is in none.
/// Takes no memory. Constant time, and logarithmic for a name above 65,535; linear in the sets that it leaves.
pub fn move_member(
    world: &mut World,
    task: TaskId,
    member: Name,
    after: Name,
) -> Result<Moved, Code>
    requires there { HasTask world.old task }
    requires stands { Stands world.old }
    ensures serves { Serves world.old (Event.MoveMember task member after) (moved_reply result) world.new }
    ensures spares { KeepsSpares world.old world.new }
    ensures tells { IfOk result (λ moved. TellsMoved world.old task member moved) }
{
    let moving = judge_move(world, task, member, after)?;
    let left = world.membership(moving.port);
    world.move_to_set(moving.port, moving.set);
    Ok(Moved {
        port: moving.port,
        left,
    })
}

// Which port goes where.
fn judge_move(world: &World, task: TaskId, member: Name, after: Name) -> Result<Moving, KernReturn>
    ensures ok { IfOk result (λ m. MayMove world.now task member after m.port m.set) }
    ensures err { IfErr result (λ code. IsRefused world.now (λ s. move_guards s task member after) (kern_number code)) }
{
    if after.number() == 0 {
        judge_leaving(world, task, member)
    } else {
        judge_joining(world, task, member, after)
    }
}

// The port that leaves its sets.
fn judge_leaving(world: &World, task: TaskId, member: Name) -> Result<Moving, KernReturn>
    ensures ok { IfOk result (λ m. MayMove world.now task member 0 m.port m.set) }
    ensures err { IfErr result (λ code. IsRefused world.now (λ s. move_guards s task member 0) (kern_number code)) }
{
    let port = world.find_receive(task, member)?;
    match world.membership(port) {
        Membership::Nowhere => Err(KernReturn::NotInSet),
        Membership::Alone(_) | Membership::Several(_) => Ok(Moving { port, set: None }),
    }
}

// The port that goes to the set under the second name. That no name is missing comes before what they
// stand for.
fn judge_joining(
    world: &World,
    task: TaskId,
    member: Name,
    after: Name,
) -> Result<Moving, KernReturn>
    requires { after ≢ 0 }
    ensures ok { IfOk result (λ m. MayMove world.now task member after m.port m.set) }
    ensures err { IfErr result (λ code. IsRefused world.now (λ s. move_guards s task member after) (kern_number code)) }
{
    let entry = world.find(task, after)?;
    let port = world.find_receive(task, member)?;
    match entry.set() {
        Some(set) => Ok(Moving {
            port,
            set: Some(set),
        }),
        None => Err(KernReturn::InvalidRight),
    }
}

/// `InsertMember` (`mach_port_insert_member` of later Machs): puts the port whose receive right is under the first
/// name into the set under the second, beside the sets that it is in. It has its turn there after the members that
/// are ready. The task lives.
///
/// `KERN_INVALID_ARGUMENT` where a port is in one set at most. `KERN_INVALID_NAME` for a name that isn't in use.
/// `KERN_INVALID_RIGHT` where the first has no receive right or the second is no set's. `KERN_ALREADY_IN_SET` where
/// the port is in the set. `KERN_RESOURCE_SHORTAGE` when out of memory, which only a port that is in a set wants. A
/// refusal leaves all as it was. Linear in the port's sets, and logarithmic for a name above 65,535.
pub fn insert_member(
    world: &mut World,
    task: TaskId,
    member: Name,
    set: Name,
) -> Result<Member, Code>
    requires there { HasTask world.old task }
    requires stands { Stands world.old }
    ensures serves { Serves world.old (Event.InsertMember task member set) (pair_reply result) world.new }
    ensures spares { KeepsSpares world.old world.new }
    ensures wanted { IfErr result (λ code. code_number code ≡ kern_number kern.ResourceShortage → WantsToEnter world.old task member) }
    ensures tells { IfOk result (λ pair. TellsPair world.old task member set pair) }
{
    let pair = judge_insert(world, task, member, set)?;
    match world.enter_set(pair.port, pair.set) {
        Ok(()) => Ok(pair),
        Err(_) => Err(Code::Kern(KernReturn::ResourceShortage)),
    }
}

/// Whether the port may enter the set, where there is memory: as [`insert_member`] refuses it, except when out of
/// memory. The task lives. Linear in the port's sets, and logarithmic for a name above 65,535.
pub fn check_insert_member(
    world: &World,
    task: TaskId,
    member: Name,
    set: Name,
) -> Result<(), KernReturn>
    requires { HasTask world.now task }
    ensures ok { OnOk result (IsAllowed world.now (λ s. call_guards s (Event.InsertMember task member set))) }
    ensures err { IfErr result (λ code. IsRefused world.now (λ s. call_guards s (Event.InsertMember task member set)) (kern_number code)) }
{
    judge_insert(world, task, member, set)?;
    Ok(())
}

/// `ExtractMember` (`mach_port_extract_member` of later Machs): takes the port whose receive right is under the first
/// name out of the set under the second. It stays in its other sets, and keeps its turns there. The task lives.
///
/// As [`insert_member`] in the first three errors; then `KERN_NOT_IN_SET` where the port isn't in the set. Takes no
/// memory. Linear in the port's sets, and logarithmic for a name above 65,535.
pub fn extract_member(
    world: &mut World,
    task: TaskId,
    member: Name,
    set: Name,
) -> Result<Member, Code>
    requires there { HasTask world.old task }
    requires stands { Stands world.old }
    ensures serves { Serves world.old (Event.ExtractMember task member set) (pair_reply result) world.new }
    ensures spares { KeepsSpares world.old world.new }
    ensures tells { IfOk result (λ pair. TellsPair world.old task member set pair) }
{
    let pair = judge_pair(world, task, member, set)?;
    if !world.is_in(pair.port, pair.set) {
        return Err(Code::Kern(KernReturn::NotInSet));
    }
    world.leave_set(pair.port, pair.set);
    Ok(pair)
}

// The port and the set that it may enter.
fn judge_insert(world: &World, task: TaskId, member: Name, set: Name) -> Result<Member, KernReturn>
    ensures ok { IfOk result (λ pair. MayPair world.now task member set pair × IsAllowed world.now (λ s. call_guards s (Event.InsertMember task member set))) }
    ensures err { IfErr result (λ code. IsRefused world.now (λ s. call_guards s (Event.InsertMember task member set)) (kern_number code)) }
{
    let pair = judge_pair(world, task, member, set)?;
    if world.is_in(pair.port, pair.set) {
        return Err(KernReturn::AlreadyInSet);
    }
    Ok(pair)
}

// The port and the set under the names. That no name is missing comes before what they stand for.
fn judge_pair(world: &World, task: TaskId, member: Name, set: Name) -> Result<Member, KernReturn>
    ensures ok { IfOk result (λ pair. MayPair world.now task member set pair) }
    ensures err { IfErr result (λ code. IsUnpaired world.now task member set (kern_number code)) }
{
    if !world.has_several_sets() {
        return Err(KernReturn::InvalidArgument);
    }
    let entry = world.find(task, member)?;
    let other = world.find(task, set)?;
    let Some(port) = entry.receive_port() else {
        return Err(KernReturn::InvalidRight);
    };
    let Some(set) = other.set() else {
        return Err(KernReturn::InvalidRight);
    };
    Ok(Member { port, set })
}
