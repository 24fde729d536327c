//! A kernel, and its steps.
ghost use Rattle.std.specs.Prelude.{◌≡◌, ◌≤◌, ◌⊎◌, ℕ, List, true, Err, None, IfOk, IfErr, OnOk, OnErr, MatchBool};
ghost use Rattle.mach_types.specs.declared.codes.KernReturn.TheVariants as kern;
ghost use Rattle.mach_types.specs.Numbers.{most_bytes};
ghost use Rattle.mach_types.specs.Codes.{kern_number, code_number};
ghost use Rattle.mach_types.specs.declared.calls.Event.{Event as AnyEvent};
ghost use Rattle.mach_types.specs.declared.calls.Reply.{Reply as AnyReply};
ghost use Rattle.mach_model.specs.State.{State, opening_in};
ghost use Rattle.mach_model.specs.Machine.{opening, Step};
ghost use Rattle.mach_laws.specs.Judging.{IsBySet};
ghost use Rattle.mach_laws.specs.Queued.{unused_onces};
ghost use Rattle.copyin_base.specs.Serving.{HasTasks, Declines, Serves};
ghost use Rattle.rights.specs.Unused.{IsUnusedOfAll};
ghost use Rattle.copyin_base.specs.Shows.{Shows, SlotsSuffice};
ghost use Rattle.copyin_base.specs.Stands.{Stands};
ghost use Rattle.copyin_base.specs.Wanted.{KeepsSpares, UsesSpares};
ghost use Rattle.copyin_base.specs.Worlds.{entry_at, HasTask};
ghost use Rattle.destroy.specs.Stages.{IsMidway, KeepsRooms, SettlesIn};
ghost use Rattle.notifications.specs.Wanted.{WantsToRequest, LeavesRequest};
ghost use Rattle.transfer.specs.Room.{MakesSlots};
ghost use Rattle.transfer.specs.Wanted.{WantsToInsert, WantsToExtract};
ghost use Rattle.kernel_core.specs.Answers.{Answers};
ghost use Rattle.kernel_core.specs.Bounds.{most_told, IsWithin};
ghost use Rattle.kernel_change.specs.declared.change.Change.TheVariants.{Nothing};
ghost use Rattle.kernel_change.specs.Changing.{few, by_losing_one, by_moving, by_pairing, ByLosingAll, by_handing, by_request, EndsAs};
ghost use Rattle.kernel_core.specs.Choices.{SameButTurns};
ghost use Rattle.kernel_core.specs.InTurn.{StepsInTurn};
ghost use Rattle.kernel_core_base.specs.Sets.{WantsToEnter};
ghost use Rattle.kernel_core.specs.Kernels.{TakesTurns};
ghost use Rattle.kernel_core.specs.Limits.{HasRoomFor, IsNearLimit};
ghost use Rattle.kernel_core.specs.MemoryCodes.{TellsMemoryCode};
ghost use Rattle.kernel_core.specs.Telling.{TellsChange, EndsIdle};
ghost use Rattle.kernel_core.specs.Touching.{Touches, RefusalTouchesNone};
ghost use Rattle.kernel_core.specs.Wanted.{Wanted, Spares, Performs};

use crate::memory::{has_room_for, tell_memory_code};
use crate::receive::{Buffer, receive, receive_again};
use crate::{bound, choice};
use copyin_base::World;
use destroy::{is_idle, settle};
use kernel_change::Change;
use kernel_core_base::{
    allocate, allocate_name, create_task, deallocate, destroy, extract_member, get_refs, has_tasks,
    insert_member, list_names, mod_refs, move_member, name_type, rename, set_status,
    terminate_task,
};
use mach_types::{Code, Event, KernReturn, Name, Profile, Reply, TaskId, Touched};
use message_send::send;
use notifications::{Asked, request_notification};
use receive_right::{receive_status, set_mscount, set_qlimit, set_seqno};
use std::alloc::{AllocError, Global};
use std::marker::Model;
use transfer::{TaskName, extract, insert};

/// Tasks, their names, ports and queued messages.
///
/// A value of this type is one kernel. Its tables always show a state of the machine.
#[derive(Drop)]
pub struct Kernel {
    alloc: Global,
    world: World,
    turns: u64,
    change: Change,
}

impl Model for Kernel {
    ghost use Rattle.name_space.specs.Names.{space_code};
    ghost use Rattle.name_space.specs.contracts.Entry as entry;
    ghost use Rattle.port.specs.Ports.{ports_code};
    ghost use Rattle.port.specs.contracts.Attributes as attributes;
    ghost use Rattle.rights.specs.Ledger.{ledger_code};
    ghost use Rattle.rights.specs.contracts.Counts as counts;
    ghost use Rattle.port_set.specs.Sets.{sets_code};
    ghost use Rattle.port_set.specs.contracts.SetRecord as set_record;
    ghost use Rattle.mach_types.specs.contracts.identities.PortId as port_id;
    ghost use Rattle.request_table.specs.contracts.Request as request;
    ghost use Rattle.copyin_base.specs.Kept.{kept_code};
    ghost use Rattle.request_table.specs.Tables.{request_tables_code};
    ghost use Rattle.copyin_base.specs.contracts.Carried as carried;
    ghost use Rattle.mach_types.specs.contracts.profiles.Profile as profile_of;
    ghost use Rattle.copyin_base.specs.Worlds.{world_code};
    ghost use Rattle.copyin_base.specs.Stands.{Stands};
    ghost use Rattle.mach_types.specs.contracts.touched.Touched as touched;
    ghost use Rattle.kernel_change.specs.Changing.{touched_by};
    ghost use Rattle.kernel_core.specs.Kernels.{KernelView, kernel_code};

    ghost Value = { KernelView };

    ghost coded = { kernel_code (world_code (space_code entry.the_row.coded) (ports_code (kept_code carried.the_row.coded) attributes.the_row.coded) (ledger_code counts.the_row.coded) (sets_code set_record.the_row.coded) (request_tables_code request.the_row.coded port_id.the_row.coded) profile_of.the_row.coded) touched.the_row.coded };

    ghost view = { λ k. record { tables = k.world; turns = k.turns; touched = touched_by k.world k.change } };

    ghost invariant = { λ k. Stands k.world };
}

impl Kernel {
    /// A kernel of the first profile, in which nothing was made yet. Takes no memory.
    pub fn new(alloc: Global) -> Kernel
        ensures shows { Shows result.tables opening }
        ensures none { result.tables.ports.spare ≡ 0 }
        ensures turns { result.turns ≡ 0 }
        ensures touched { result.touched ≡ few None None }
    {
        Kernel::with_profile(alloc, Profile::One)
    }

    /// A kernel of this profile, in which nothing was made yet: in the second and the third fresh names have
    /// a generation, and in the third a port may be in several sets. Takes no memory.
    pub fn with_profile(alloc: Global, profile: Profile) -> Kernel
        ensures shows { Shows result.tables (opening_in profile) }
        ensures none { result.tables.ports.spare ≡ 0 }
        ensures turns { result.turns ≡ 0 }
        ensures touched { result.touched ≡ few None None }
    {
        Kernel {
            alloc,
            world: World::new(alloc, profile),
            turns: 0,
            change: Change::Nothing,
        }
    }

    /// Returns the tables, for reading: what each task has under its names, the ports, the sets, the counts
    /// of rights and the requests. Takes no memory. Constant time.
    pub fn tables(&self) -> &World
        ensures { result.now ≡ self.now.tables }
    {
        &self.world
    }

    /// How many bytes, names or members the reply to a call has at most now, 0 to 65,536.
    ///
    /// Bytes where the call receives: as many as it has room for, 65,536 at most. Names, or members of
    /// a set, where it lists them: as many as the task has names. No other reply has any. No reply of
    /// the call's step is longer: room for a copy of it can be made before the step. Takes no memory.
    /// Constant time.
    pub fn reply_bound(&self, event: &Event) -> usize
        ensures most { result ≡ most_told self.now.tables event.now }
        ensures few { result ≤ most_bytes }
        ensures within { (now : ℕ) (s t : State) (reply : AnyReply) → Shows self.now.tables s → Step now s event.now reply t → IsWithin event.now result reply }
    {
        bound::most_told(&self.world, event)
    }

    /// Makes one call of a task, whole, and returns its reply.
    ///
    /// A refusal returns its code and leaves the state that the kernel shows. So does a call that is out of
    /// memory, and only where the call may want some: `specs/Wanted` says where. Room for one name that was
    /// made first may stay. Where a message is received, room for as many names as it has rights may stay.
    ///
    /// A message slot is spare for each unused send-once right, so that what is sent to the right has one.
    /// Slots are made where fewer are spare, and only for an accepted message and for send-once rights that
    /// are made. An accepted message uses one slot, and so does a notice. It is spare again once the message
    /// was received or destroyed.
    ///
    /// A receive by a set takes from the member whose turn it is. That member then has its turn after all
    /// others that are ready (`specs/InTurn`).
    #[inline(always)]
    pub fn step(&mut self, event: &Event) -> Reply
        ensures answers { Answers self.old.tables event.now result self.new.tables }
        ensures turns { TakesTurns self.old.tables event.now result self.new.tables self.new.turns }
        ensures wanted { Wanted self.old.tables event.now result }
        ensures spares { Spares self.old.tables event.now result self.new.tables }
        ensures unused { (s : State) → Shows self.new.tables s → self.new.tables.ledger.unused ≡ unused_onces s }
        ensures in_turn { StepsInTurn self.old.tables event.now result self.new.tables }
        ensures touches { Touches self.old.tables event.now result self.new.tables self.new.touched }
        ensures refused { RefusalTouchesNone result self.new.touched }
    {
        check_slots(&self.world);
        self.change = Change::Nothing;
        match act(&mut self.world, self.alloc, event, &mut self.change) {
            Ok(reply) => {
                check_slots(&self.world);
                let turns = end_step(&mut self.world, &mut self.change);
                self.turns = turns;
                check_slots(&self.world);
                reply
            }
            Err(code) => {
                self.turns = 0;
                self.change = Change::Nothing;
                check_slots(&self.world);
                Reply::Code(code.number())
            }
        }
    }

    /// Returns the code by which the call may now be refused when out of memory; `None` where it never may
    /// be.
    ///
    /// A step of the call may be refused with this code, and changes nothing then. Only calls that may take
    /// memory have such a code, where nothing else refuses them. A send has it once its bytes are a message,
    /// whatever its rights are. A receive has it where a message that it may take fits, and the task's names
    /// suffice for its rights; by a set, where that is so of any member. So the reader of a history can tell
    /// whether the machine allows such a refusal in it. Nothing changes.
    ///
    /// An error means that memory was refused for the list of a set's members, where the call receives by a
    /// set. Constant time, and logarithmic for a name above 65,535. But linear in a message that is sent, in
    /// the rights of one that may be received, and in the members of a set.
    pub fn memory_code(&self, event: &Event) -> Result<Option<u32>, AllocError>
        ensures ok { IfOk result (λ code. TellsMemoryCode self.now.tables event.now code) }
        ensures err { OnErr result ((s : State) → Shows self.now.tables s → IsBySet s event.now) }
    {
        if has_tasks(&self.world, event) {
            tell_memory_code(&self.world, self.alloc, event)
        } else {
            Ok(None)
        }
    }

    /// Returns whether the limit of rights surely doesn't refuse the call by the code that tells of want of
    /// memory.
    ///
    /// A send is refused by `MACH_SEND_NO_BUFFER` at the limit, and where memory is wanted. This answers
    /// `false` where the kernel's rights, with one more for each port word that the message's bytes have room
    /// for, are more than 4,294,967,295. Every other call has a code of its own for the limit. Takes no
    /// memory. Constant time.
    pub fn has_room_for(&self, event: &Event) -> bool
        ensures { MatchBool result (HasRoomFor self.now.tables event.now) (IsNearLimit self.now.tables event.now) }
    {
        has_room_for(&self.world, event)
    }

    /// Gives the turn in a set to the member that the call's task has under this name. It does so where the
    /// call receives by the set and that member has a message. A receive by the set takes from it next.
    ///
    /// From which member a receive takes is a choice that the machine leaves open, so the kernel still shows
    /// each state that it showed. Nothing changes where the call doesn't receive by a set, or has no such
    /// member. Takes no memory. Linear in the members that have messages and whose turn came before.
    pub fn give_turn(&mut self, event: &Event, member: Name)
        ensures same { SameButTurns self.old.tables self.new.tables }
        ensures shows { (s : State) → Shows self.old.tables s → Shows self.new.tables s }
        ensures turns { self.new.turns ≡ self.old.turns }
        ensures touched { self.new.touched ≡ self.old.touched }
    {
        choice::give_turn(&mut self.world, event, member);
    }

    /// In how many turns the last step ended: 0 before the first, and after a refusal. A turn is a port
    /// judged, a message destroyed, a right of such a message lost, or a right of a request that ends, where
    /// it pays for the notice. There are at most as many as there were rights, live ports and messages
    /// queued at them before the step. Constant time.
    pub fn last_turns(&self) -> u64
        ensures { result ≡ self.now.turns }
    {
        self.turns
    }

    /// Returns which ports and sets the last step may have changed: a queue, a limit, members, or where a
    /// receive right lies. All others are for a task that waits as they were before the step (`specs/Touching`).
    ///
    /// None before the first step and after a refusal. None or few after:
    ///
    /// - a call that makes or renames something, that asks, or that sets a limit or a count;
    /// - a port that entered a set beside others, or left one of several;
    /// - a port that went to another set, or a right that went to another task, where the port was in one set at most;
    /// - references of send rights or dead names that were dropped, or a send-once right that was lost;
    /// - a request for a notice;
    /// - a message that was sent with one receive right at most, or with two or three that fit into the four places
    ///   together with the sets concerned;
    /// - a message that was received with two receive rights at most, or with three by a port in no set;
    /// - a receive that found no message;
    /// - a message that was destroyed as too long, with no receive right and with one send-once right at most;
    /// - a port that died with nothing queued, and no request on it or on a name of it;
    /// - a set that was destroyed with at most three members, if there was memory for their list;
    /// - the end of a task whose names stood for send rights and dead names alone.
    ///
    /// `All` after every other call, and where other ports died or notices were sent at the end of the step. Takes no
    /// memory. Constant time, and logarithmic for a name above 65,535.
    pub fn touched(&self) -> Touched
        ensures { result ≡ self.now.touched }
    {
        self.change.touched(&self.world)
    }
}

/// Ends a step by [`settle`], where something is left to do, and returns in how many turns. In `told`, which says what
/// the call changed, it leaves what the step did.
#[inline(always)]
fn end_step(world: &mut World, told: &mut Change) -> u64
    requires { IsMidway world.old }
    ensures settles { SettlesIn world.old result world.new }
    ensures rooms { KeepsRooms world.old world.new }
    ensures change { EndsIdle world.old told.old told.new world.new ⊎ EndsAs world.old told.old told.new }
{
    if is_idle(world) {
        0
    } else {
        end_busy_step(world, told)
    }
}

/// The same where something is left to do. Not in line, as most steps leave nothing.
#[inline(never)]
fn end_busy_step(world: &mut World, told: &mut Change) -> u64
    requires { IsMidway world.old }
    ensures settles { SettlesIn world.old result world.new }
    ensures rooms { KeepsRooms world.old world.new }
    ensures change { EndsAs world.old told.old told.new }
{
    *told = told.with_end(world);
    settle(world)
}

/// A message slot is spare for each send-once right to which no queued message was sent: before a step, after
/// the call's own part of it, and after it.
fn check_slots(world: &World)
    requires { SlotsSuffice world.now }
    ensures { IsUnusedOfAll world.now.ledger }
{
    let enough = world.slots_suffice();
    prove!(enough);
}

/// Does the call's own part of a step, up to what [`settle`] ends, or refuses it.
///
/// `KERN_INVALID_TASK` where a task that it names doesn't live; then as the call. In `told`, which says
/// nothing, it leaves what the call changes, if the end of its step has nothing to do.
#[inline(always)]
fn act(world: &mut World, alloc: Global, event: &Event, told: &mut Change) -> Result<Reply, Code>
    requires stands { Stands world.old }
    requires nothing { told.old ≡ Nothing }
    ensures performs { Performs world.old event.now result world.new }
    ensures tells { IfOk result (λ reply. TellsChange world.old event.now reply told.new) }
{
    check_tasks(world, event)?;
    serve(world, alloc, event, told)
}

/// Whether the tasks that the call names live: `KERN_INVALID_TASK` where one doesn't. Constant time.
fn check_tasks(world: &World, event: &Event) -> Result<(), KernReturn>
    ensures ok { IfOk result (λ _. HasTasks world.now event.now) }
    ensures err { IfErr result (λ code. (code ≡ kern.InvalidTask) × Declines world.now event.now (kern_number code) world.now) }
{
    if has_tasks(world, event) {
        Ok(())
    } else {
        Err(KernReturn::InvalidTask)
    }
}

/// Drops one reference under a name, or its send-once right: `KERN_INVALID_NAME` for a name that isn't in use, then as
/// [`deallocate`]. In `told` it leaves what that changes.
#[inline(always)]
fn lose_one(world: &mut World, task: TaskId, name: Name, told: &mut Change) -> Result<Reply, Code>
    requires there { HasTask world.old task }
    requires stands { Stands world.old }
    ensures serves { Serves world.old (AnyEvent.Deallocate task name) result world.new }
    ensures spares { UsesSpares world.old world.new }
    ensures tells { OnOk result (told.new ≡ by_losing_one (entry_at world.old task name)) }
{
    let entry = world.find(task, name)?;
    *told = Change::by_losing_one(&entry);
    deallocate(world, task, name, &entry)
}

/// Destroys a name: `KERN_INVALID_NAME` for one that isn't in use. In `told` it leaves what that changes.
///
/// Not in line in a step: with this the step would be so large that the kit drops its own hint to inline, and each call
/// of it would cost a frame more.
#[inline(never)]
fn lose_all(
    world: &mut World,
    alloc: Global,
    task: TaskId,
    name: Name,
    told: &mut Change,
) -> Result<Reply, Code>
    requires there { HasTask world.old task }
    requires stands { Stands world.old }
    ensures serves { Serves world.old (AnyEvent.Destroy task name) result world.new }
    ensures spares { UsesSpares world.old world.new }
    ensures tells { OnOk result (ByLosingAll world.old (entry_at world.old task name) told.new) }
{
    let entry = world.find(task, name)?;
    *told = Change::by_losing_all(world, alloc, &entry);
    destroy(world, task, name, &entry);
    Ok(Reply::Code(0))
}

/// Moves a port to another set, or out of its set, as [`move_member`]. In `told` it leaves what that changes.
#[inline(never)]
fn put_in_set(
    world: &mut World,
    task: TaskId,
    member: Name,
    after: Name,
    told: &mut Change,
) -> Result<Reply, Code>
    requires there { HasTask world.old task }
    requires stands { Stands world.old }
    ensures serves { Serves world.old (AnyEvent.MoveMember task member after) result world.new }
    ensures spares { KeepsSpares world.old world.new }
    ensures tells { OnOk result (told.new ≡ by_moving world.old task member) }
{
    let moved = move_member(world, task, member, after)?;
    *told = Change::by_moving_from(moved.port, moved.left);
    Ok(Reply::Code(0))
}

/// Puts a port into a set beside those that it is in, as [`insert_member`]. In `told` it leaves what that changes.
#[inline(never)]
fn enter_set(
    world: &mut World,
    task: TaskId,
    member: Name,
    set: Name,
    told: &mut Change,
) -> Result<Reply, Code>
    requires there { HasTask world.old task }
    requires stands { Stands world.old }
    ensures serves { Serves world.old (AnyEvent.InsertMember task member set) result world.new }
    ensures spares { KeepsSpares world.old world.new }
    ensures wanted { IfErr result (λ code. code_number code ≡ kern_number kern.ResourceShortage → WantsToEnter world.old task member) }
    ensures tells { OnOk result (told.new ≡ by_pairing world.old task member set) }
{
    let pair = insert_member(world, task, member, set)?;
    *told = Change::Member(pair.port, pair.set);
    Ok(Reply::Code(0))
}

/// Takes a port out of a set, as [`extract_member`]. In `told` it leaves what that changes.
#[inline(never)]
fn leave_set(
    world: &mut World,
    task: TaskId,
    member: Name,
    set: Name,
    told: &mut Change,
) -> Result<Reply, Code>
    requires there { HasTask world.old task }
    requires stands { Stands world.old }
    ensures serves { Serves world.old (AnyEvent.ExtractMember task member set) result world.new }
    ensures spares { KeepsSpares world.old world.new }
    ensures tells { OnOk result (told.new ≡ by_pairing world.old task member set) }
{
    let pair = extract_member(world, task, member, set)?;
    *told = Change::Member(pair.port, pair.set);
    Ok(Reply::Code(0))
}

/// Hands a right of a task to another by its own name, as [`insert`]. In `told` it leaves what that changes.
///
/// Not in line, as [`hand_out`] and [`ask`]: what they lend to others would be a local of a step, which each step fills.
#[inline(never)]
fn hand_in(
    world: &mut World,
    to: TaskName,
    from: TaskName,
    number: u32,
    told: &mut Change,
) -> Result<Reply, Code>
    requires there { (HasTask world.old to.task) × (HasTask world.old from.task) }
    requires stands { Stands world.old }
    ensures serves { Serves world.old (AnyEvent.InsertRight to.task to.name from.task from.name number) result world.new }
    ensures wanted { IfErr result (λ code. code_number code ≡ kern_number kern.ResourceShortage → WantsToInsert world.old to from number) }
    ensures spares { MakesSlots world.old world.new }
    ensures tells { told.new ≡ by_handing world.old from.task from.name number }
{
    *told = Change::by_handing(world, from.task, from.name, number);
    insert(world, &to, &from, number)
}

/// Hands a right to another task, which takes it out, as [`extract`]. In `told` it leaves what that changes.
#[inline(never)]
fn hand_out(
    world: &mut World,
    from: TaskName,
    number: u32,
    to: TaskId,
    told: &mut Change,
) -> Result<Reply, Code>
    requires there { (HasTask world.old from.task) × (HasTask world.old to) }
    requires stands { Stands world.old }
    ensures serves { Serves world.old (AnyEvent.ExtractRight from.task from.name number to) result world.new }
    ensures wanted { IfErr result (λ code. code_number code ≡ kern_number kern.ResourceShortage → WantsToExtract world.old from number to) }
    ensures spares { MakesSlots world.old world.new }
    ensures tells { told.new ≡ by_handing world.old from.task from.name number }
{
    *told = Change::by_handing(world, from.task, from.name, number);
    extract(world, &from, number, to)
}

/// Asks for a notice, as [`request_notification`]. In `told` it leaves what that changes.
#[inline(never)]
fn ask(
    world: &mut World,
    task: TaskId,
    name: Name,
    asked: Asked,
    told: &mut Change,
) -> Result<Reply, Code>
    requires there { HasTask world.old task }
    requires stands { Stands world.old }
    ensures serves { Serves world.old (AnyEvent.RequestNotification task name asked.variant asked.sync asked.notify asked.disposition) result world.new }
    ensures wanted { IfErr result (λ code. code_number code ≡ kern_number kern.ResourceShortage → WantsToRequest world.old task name asked) }
    ensures spares { LeavesRequest world.old asked result world.new }
    ensures tells { told.new ≡ by_request world.old task asked.notify asked.disposition }
{
    *told = Change::by_request(world, task, asked.notify, asked.disposition);
    request_notification(world, task, name, &asked)
}

/// Makes the call on the tables, where the tasks that it names live.
#[inline(always)]
fn serve(world: &mut World, alloc: Global, event: &Event, told: &mut Change) -> Result<Reply, Code>
    requires there { HasTasks world.old event.now }
    requires stands { Stands world.old }
    requires nothing { told.old ≡ Nothing }
    ensures performs { Performs world.old event.now result world.new }
    ensures tells { IfOk result (λ reply. TellsChange world.old event.now reply told.new) }
{
    match event {
        Event::TaskCreate => create_task(world, alloc),
        Event::TaskTerminate(task) => {
            *told = Change::by_ending(world, *task);
            terminate_task(world, *task)
        }
        Event::Allocate(task, right) => {
            *told = Change::by_making(*right);
            allocate(world, *task, *right)
        }
        Event::AllocateName(task, right, name) => {
            *told = Change::by_making(*right);
            allocate_name(world, *task, *right, *name)
        }
        Event::Deallocate(task, name) => lose_one(world, *task, *name, told),
        Event::Destroy(task, name) => lose_all(world, alloc, *task, *name, told),
        Event::ModRefs(task, name, right, delta) => {
            // Of a send right or a dead name that changes nothing that anybody waits for.
            if *right != 0 && *right != 4 {
                *told = Change::by_references(world, alloc, *task, *name, *right);
            }
            mod_refs(world, *task, *name, *right, *delta)
        }
        Event::GetRefs(task, name, right) => get_refs(world, *task, *name, *right),
        Event::NameType(task, name) => name_type(world, *task, *name),
        Event::Names(task) => list_names(world, alloc, *task),
        Event::Rename(task, from, to) => rename(world, *task, *from, *to),
        Event::ReceiveStatus(task, name) => receive_status(world, *task, *name),
        Event::SetStatus(task, name) => set_status(world, alloc, *task, *name),
        Event::MoveMember(task, member, after) => put_in_set(world, *task, *member, *after, told),
        Event::InsertMember(task, member, set) => enter_set(world, *task, *member, *set, told),
        Event::ExtractMember(task, member, set) => leave_set(world, *task, *member, *set, told),
        Event::SetQlimit(task, name, limit) => {
            *told = Change::PortNamed(*task, *name);
            set_qlimit(world, *task, *name, *limit)
        }
        Event::SetMscount(task, name, count) => set_mscount(world, *task, *name, *count),
        Event::SetSeqno(task, name, number) => set_seqno(world, *task, *name, *number),
        Event::InsertRight(task, name, from, poly, number) => {
            let to = TaskName::new(*task, *name);
            hand_in(world, to, TaskName::new(*from, *poly), *number, told)
        }
        Event::ExtractRight(task, name, number, to) => {
            hand_out(world, TaskName::new(*task, *name), *number, *to, told)
        }
        Event::RequestNotification(task, name, variant, sync, notify, disposition) => {
            let asked = Asked {
                variant: *variant,
                sync: *sync,
                notify: *notify,
                disposition: *disposition,
            };
            ask(world, *task, *name, asked, told)
        }
        Event::Send(task, bytes) => send(world, alloc, *task, bytes, told),
        Event::Receive(task, name, room, large) => {
            receive(world, alloc, *task, *name, Buffer::new(*room, *large), told)
        }
        Event::ReceiveAgain(task, waited, room, large) => {
            receive_again(
                world,
                alloc,
                *task,
                *waited,
                Buffer::new(*room, *large),
                told,
            )
        }
    }
}
