//! A kernel with a call for each call of a task.
ghost use Rattle.std.specs.Prelude.{◌≡◌, ◌≤◌, ℕ, None, IfOk, IfErr};
ghost use Rattle.mach_types.specs.declared.calls.Event.TheVariants as AnyEvent;
ghost use Rattle.mach_types.specs.declared.calls.Reply.{Reply as OneReply};
ghost use Rattle.mach_types.specs.declared.calls.Reply.TheVariants as AnyReply;
ghost use Rattle.mach_types.specs.Numbers.{right_number, most_bytes};
ghost use Rattle.mach_types.specs.Rights.{disposition_number};
ghost use Rattle.mach_model.specs.State.{State, opening_in};
ghost use Rattle.mach_model.specs.Machine.{opening, Run, RunIn, Step};
ghost use Rattle.mach_laws.specs.Headline.{Headline};
ghost use Rattle.mach_laws.specs.JudgedPaths.{JudgedPath};
ghost use Rattle.mach_types.specs.declared.profiles.Profile.TheVariants.{One};
ghost use Rattle.mach_laws.specs.Queued.{SlotsWithin, unused_onces};
ghost use Rattle.copyin_base.specs.Shows.{Shows};
ghost use Rattle.kernel_change.specs.Changing.{few};
ghost use Rattle.kernel_core.specs.Bounds.{most_told, IsWithin};
ghost use Rattle.gelvonds.specs.Steps.{IsStep};
ghost use Rattle.gelvonds.specs.Results.{Answered, Sent, Received, done, extracted, notification_number, notify_name, notify_number};
ghost use Rattle.gelvonds.specs.Fits.{Fits};

use crate::notification::NotificationRequest;
use crate::results::{self, ExtractedRight, Receipt, SendError};
use mach_types::{
    Bytes, Code, Disposition, Event, KernReturn, Name, NameList, NameTypes, Profile, Reply, Right,
    Status, TaskId, Touched, Waited,
};
use message_codec::PortRight;
use std::alloc::{AllocError, Global};
use std::marker::Model;

/// Tasks, their names, ports and queued messages. A value of this type is one kernel.
///
/// [`Kernel::step`] makes any call. Every other call here makes one step, and its type says what that may
/// return. Each but [`Kernel::create_task`] is also refused by `InvalidTask`, before all else, where a task
/// that it names doesn't live. A refusal leaves the state, and a call never waits. Where several refusals
/// hold `docs/CALLS.md` says which comes first.
///
/// A call takes constant time, logarithmic for names above 65,535, unless it says more, tables move to a
/// larger place, or ports die. A send or a receive also takes the time of its bytes and rights.
#[derive(Drop)]
pub struct Kernel {
    kernel: kernel_core::Kernel,
}

impl Model for Kernel {
    ghost use Rattle.copyin_base.specs.Stands.{Stands};
    ghost use Rattle.kernel_core.specs.Kernels.{KernelView};
    ghost use Rattle.kernel_core.specs.contracts.kernel.Kernel as machine;

    ghost Value = { KernelView };

    ghost coded = { machine.the_row.coded };

    ghost view = { λ k. k.kernel };

    ghost invariant = { λ k. Stands k.kernel.tables };
}

/// Makes these calls on a new kernel of the first profile: [`run_with`].
///
/// # Errors
/// As of [`run_with`].
pub fn run(alloc: Global, events: Vec<Event>) -> Result<(Kernel, Vec<Reply>), AllocError>
    ensures { IfOk result (λ made. (s : State) × Run events.items made.1.items s × Shows made.0.tables s
        × (h : Headline One events.items made.1.items s) × JudgedPath One h.stages s
        × SlotsWithin made.0.tables.ports.spare h.stages s
        × (unused_onces s ≤ made.0.tables.ports.spare)) }
{
    run_with(alloc, Profile::One, events)
}

/// Makes these calls on a new kernel of this profile, one after another. Returns the kernel that they leave,
/// with their replies in order. They are a run of the machine by the profile, to a state that the kernel
/// shows. All that `mach_laws`' `Headline` says is true of the run, and its stages are judged right. The
/// kernel has at least as many spare message slots as unused send-once rights. Its spare slots and queued
/// messages together are no more than there ever were queued messages and unused send-once rights
/// (`SlotsWithin`). The profile is the first or the second.
///
/// # Errors
/// Memory for the list of replies was refused. Where a step is refused memory, that is its reply, and the run
/// goes on.
pub fn run_with(
    alloc: Global,
    profile: Profile,
    events: Vec<Event>,
) -> Result<(Kernel, Vec<Reply>), AllocError>
    ensures { IfOk result (λ made. (s : State) × RunIn profile events.items made.1.items s × Shows made.0.tables s
        × (h : Headline profile events.items made.1.items s) × JudgedPath profile h.stages s
        × SlotsWithin made.0.tables.ports.spare h.stages s
        × (unused_onces s ≤ made.0.tables.ports.spare)) }
{
    let (kernel, replies) = kernel_core::run_with(alloc, profile, events)?;
    Ok((Kernel { kernel }, replies))
}

impl Kernel {
    /// A kernel of the first profile, in which nothing was made yet. Takes no memory.
    pub fn new(alloc: Global) -> Kernel
        ensures shows { Shows result.tables opening }
        ensures none { result.tables.ports.spare ≡ 0 }
        ensures turns { result.turns ≡ 0 }
        ensures touched { result.touched ≡ few None None }
    {
        Kernel::with_profile(alloc, Profile::One)
    }

    /// A kernel of this profile, in which nothing was made yet. In the second and the third a fresh name has a
    /// generation, so that a name that was given up doesn't come back at once as another right. In the third a port
    /// may be in several sets. Takes no memory.
    pub fn with_profile(alloc: Global, profile: Profile) -> Kernel
        ensures shows { Shows result.tables (opening_in profile) }
        ensures none { result.tables.ports.spare ≡ 0 }
        ensures turns { result.turns ≡ 0 }
        ensures touched { result.touched ≡ few None None }
    {
        Kernel {
            kernel: kernel_core::Kernel::with_profile(alloc, profile),
        }
    }

    /// Makes one call of a task, whole, and returns its reply, which is one that the call can get
    /// (`specs/Fits`).
    ///
    /// A refusal returns its code and leaves the state that the kernel shows. So does a call that is out of
    /// memory, and only where it may want some.
    pub fn step(&mut self, event: &Event) -> Reply
        ensures step { IsStep self.old event.now result self.new }
        ensures fits { Fits event.now result }
    {
        self.kernel.step(event)
    }

    /// How many bytes, names or members the reply to a call has at most now, 0 to 65,536. Constant time.
    pub fn reply_bound(&self, event: &Event) -> usize
        ensures most { result ≡ most_told self.now.tables event.now }
        ensures few { result ≤ most_bytes }
        ensures within { (now : ℕ) (s t : State) (reply : OneReply) → Shows self.now.tables s → Step now s event.now reply t → IsWithin event.now result reply }
    {
        self.kernel.reply_bound(event)
    }

    /// In how many turns the last step ended: 0 before the first, and after a refusal. A turn is a port
    /// judged, a message destroyed, a right of such a message lost, or a right of a request that ends, where
    /// it pays for the notice. There are at most as many as there were rights, live ports and messages
    /// queued at them before the step. Constant time.
    pub fn last_turns(&self) -> u64
        ensures { result ≡ self.now.turns }
    {
        self.kernel.last_turns()
    }

    /// Returns which ports and sets the last step may have changed: a queue, a limit, members, or where a receive
    /// right lies. All others are for a task that waits as they were before (`kernel_core`'s `specs/Touching`).
    ///
    /// None before the first step, after a refusal, after calls that only ask, a receive that found nothing or a
    /// message that is too long and stays, [`Kernel::create_task`], [`Kernel::rename`], [`Kernel::set_mscount`] and
    /// [`Kernel::set_seqno`]. None too where only send rights, dead names and their references went
    /// ([`Kernel::deallocate`], [`Kernel::destroy`], [`Kernel::mod_refs`], [`Kernel::terminate_task`]), and where a right
    /// that is no receive right went to another task ([`Kernel::insert_right`], [`Kernel::extract_right`]).
    ///
    /// After [`Kernel::set_qlimit`], [`Kernel::allocate`] and [`Kernel::allocate_name`] the port under the name, if one
    /// is. After [`Kernel::move_member`], and where a receive right went to another task, the port with the set that it
    /// was in and the one that it is in. After [`Kernel::insert_member`] and [`Kernel::extract_member`] the port and the
    /// set. A message names its port and the port's sets, up to three. Where a port is in several sets and more than it
    /// and they are named, it is `All`. A message that was sent with one receive
    /// right names that right's port too, and the set that it was in; so does one with two or three, where with
    /// the sets concerned four places suffice. One that was received names the ports too whose
    /// receive rights came with it: one or two, or three if its own port is in no set. A message that was
    /// destroyed as too long names its port and the port's set, if it carried no receive right and one send-once right at
    /// most. The notice for a send-once right names its port and the port's set too, where that right was lost by
    /// [`Kernel::deallocate`], [`Kernel::destroy`] or [`Kernel::mod_refs`], or was in such a message. A receive right that
    /// these calls destroyed names its port and the port's set, where nothing was queued at it and no request was on it
    /// or on a name of it. A set that was destroyed is named with its members, if they were three at most and there was
    /// memory for their list. [`Kernel::request_notification`] names the port of the right that pays, whether it tells at
    /// once or not, and its set. After each other call, and where other ports died or notices were sent at the end of
    /// the step, it is `All`. Takes no memory. Constant time, and logarithmic for a name above 65,535.
    pub fn touched(&self) -> Touched
        ensures { result ≡ self.now.touched }
    {
        self.kernel.touched()
    }

    /// `task_create` (Task Interface): makes a task with no names.
    ///
    /// # Errors
    /// `NoSpace`: 65,536 tasks were made; `ResourceShortage`: memory.
    pub fn create_task(&mut self) -> Result<TaskId, KernReturn>
        ensures { Answered self.old AnyEvent.TaskCreate AnyReply.Task result self.new }
    {
        results::task(self.step(&Event::TaskCreate))
    }

    /// `task_terminate`: the task ends, with all that is under its names. Its ports die, or are sent
    /// away where that was asked for. Takes no memory; time grows with what goes.
    ///
    /// # Errors
    /// `InvalidTask` alone.
    pub fn terminate_task(&mut self, task: TaskId) -> Result<(), KernReturn>
        ensures { Answered self.old (AnyEvent.TaskTerminate task) done result self.new }
    {
        results::done(self.step(&Event::TaskTerminate(task)))
    }

    /// `mach_port_allocate` (Port Manipulation Interface): makes a port, of which the task has the receive
    /// right, an empty set or a dead name of one reference, under a fresh name.
    ///
    /// # Errors
    /// `InvalidValue`: another right; `NoSpace`: a limit of names, rights or identities;
    /// `ResourceShortage`: memory.
    pub fn allocate(&mut self, task: TaskId, right: Right) -> Result<Name, KernReturn>
        ensures { Answered self.old (AnyEvent.Allocate task (right_number right)) AnyReply.Name result self.new }
    {
        results::name(self.step(&Event::Allocate(task, right.number())))
    }

    /// `mach_port_allocate_name`: the same, under this name, which is returned.
    ///
    /// # Errors
    /// `InvalidValue`: another right, or no name; `NameExists`: in use; `NoSpace`: a limit of names, rights
    /// or identities; `ResourceShortage`: memory.
    pub fn allocate_name(
        &mut self,
        task: TaskId,
        right: Right,
        name: Name,
    ) -> Result<Name, KernReturn>
        ensures { Answered self.old (AnyEvent.AllocateName task (right_number right) name) AnyReply.Name result self.new }
    {
        results::name(self.step(&Event::AllocateName(task, right.number(), name)))
    }

    /// `mach_port_deallocate`: one send reference, one reference of a dead name or the send-once right goes,
    /// and the name with the last right. Takes no memory.
    ///
    /// # Errors
    /// `InvalidName`: nothing there; `InvalidRight`: a receive right alone, or a set.
    pub fn deallocate(&mut self, task: TaskId, name: Name) -> Result<(), KernReturn>
        ensures { Answered self.old (AnyEvent.Deallocate task name) done result self.new }
    {
        results::done(self.step(&Event::Deallocate(task, name)))
    }

    /// `mach_port_destroy`: all that is under the name goes, and the name. A port that so loses its receive
    /// right dies, or is sent away where that was asked for. Takes no memory; of a set the
    /// time grows with its members.
    ///
    /// # Errors
    /// `InvalidName`: nothing there.
    pub fn destroy(&mut self, task: TaskId, name: Name) -> Result<(), KernReturn>
        ensures { Answered self.old (AnyEvent.Destroy task name) done result self.new }
    {
        results::done(self.step(&Event::Destroy(task, name)))
    }

    /// `mach_port_mod_refs`: the references of the right change by so many. A right that has none takes 0,
    /// which changes nothing, or -1, by which it goes, as by [`Kernel::destroy`]. Takes no memory.
    ///
    /// # Errors
    /// `InvalidName`: nothing there; `InvalidRight`: no such right there; `InvalidValue`: fewer than 0
    /// references, or another change of a right without them; `UrefsOverflow`: more than 65,535; `NoSpace`:
    /// the limit of rights.
    pub fn mod_refs(
        &mut self,
        task: TaskId,
        name: Name,
        right: Right,
        delta: i32,
    ) -> Result<(), KernReturn>
        ensures { Answered self.old (AnyEvent.ModRefs task name (right_number right) delta) done result self.new }
    {
        results::done(self.step(&Event::ModRefs(task, name, right.number(), delta)))
    }

    /// `mach_port_get_refs`: how many references of the right are under the name, 0 to 65,535; of a right
    /// that has none 1 where it is held, else 0.
    ///
    /// # Errors
    /// `InvalidName`: nothing there.
    pub fn get_refs(&mut self, task: TaskId, name: Name, right: Right) -> Result<u32, KernReturn>
        ensures { Answered self.old (AnyEvent.GetRefs task name (right_number right)) AnyReply.Refs result self.new }
    {
        results::refs(self.step(&Event::GetRefs(task, name, right.number())))
    }

    /// `mach_port_type`: which rights are under the name, as the sum of their bits ([`Right::type_bit`]),
    /// and of 0x80000000 where a dead-name request is.
    ///
    /// # Errors
    /// `InvalidName`: nothing there.
    pub fn name_type(&mut self, task: TaskId, name: Name) -> Result<u32, KernReturn>
        ensures { Answered self.old (AnyEvent.NameType task name) AnyReply.NameType result self.new }
    {
        results::name_type(self.step(&Event::NameType(task, name)))
    }

    /// `mach_port_names`: all names of the task, rising, with their types. Time and memory grow with their
    /// number.
    ///
    /// # Errors
    /// `ResourceShortage`: memory.
    pub fn names(&mut self, task: TaskId) -> Result<NameTypes, KernReturn>
        ensures { Answered self.old (AnyEvent.Names task) AnyReply.Names result self.new }
    {
        results::names(self.step(&Event::Names(task)))
    }

    /// `mach_port_rename`: what is under the old name is under the new one, a dead-name request too.
    ///
    /// # Errors
    /// `InvalidValue`: the new one is no name; `InvalidName`: nothing under the old one; `NameExists`: the
    /// new one is in use; `ResourceShortage`: memory.
    pub fn rename(&mut self, task: TaskId, old_name: Name, new_name: Name) -> Result<(), KernReturn>
        ensures { Answered self.old (AnyEvent.Rename task old_name new_name) done result self.new }
    {
        results::done(self.step(&Event::Rename(task, old_name, new_name)))
    }

    /// `mach_port_get_receive_status`: the status of the receive right under the name.
    ///
    /// # Errors
    /// `InvalidName`: nothing there; `InvalidRight`: no receive right.
    pub fn receive_status(&mut self, task: TaskId, name: Name) -> Result<Status, KernReturn>
        ensures { Answered self.old (AnyEvent.ReceiveStatus task name) AnyReply.Status result self.new }
    {
        results::status(self.step(&Event::ReceiveStatus(task, name)))
    }

    /// `mach_port_set_qlimit`: how many messages, 0 to 16, the queue takes by send rights.
    ///
    /// # Errors
    /// `InvalidValue`: more than 16; `InvalidName`: nothing there; `InvalidRight`: no receive right.
    pub fn set_qlimit(&mut self, task: TaskId, name: Name, limit: u32) -> Result<(), KernReturn>
        ensures { Answered self.old (AnyEvent.SetQlimit task name limit) done result self.new }
    {
        results::done(self.step(&Event::SetQlimit(task, name, limit)))
    }

    /// `mach_port_set_mscount`: the make-send count.
    ///
    /// # Errors
    /// `InvalidName`: nothing there; `InvalidRight`: no receive right.
    pub fn set_mscount(&mut self, task: TaskId, name: Name, count: u32) -> Result<(), KernReturn>
        ensures { Answered self.old (AnyEvent.SetMscount task name count) done result self.new }
    {
        results::done(self.step(&Event::SetMscount(task, name, count)))
    }

    /// `mach_port_set_seqno`: the sequence number of the next message received.
    ///
    /// # Errors
    /// `InvalidName`: nothing there; `InvalidRight`: no receive right.
    pub fn set_seqno(&mut self, task: TaskId, name: Name, sequence: u32) -> Result<(), KernReturn>
        ensures { Answered self.old (AnyEvent.SetSeqno task name sequence) done result self.new }
    {
        results::done(self.step(&Event::SetSeqno(task, name, sequence)))
    }

    /// `mach_port_get_set_status`: the task's names of the set's members, rising. Time and memory grow with
    /// the task's names.
    ///
    /// # Errors
    /// `InvalidName`: nothing there; `InvalidRight`: no set; `ResourceShortage`: memory.
    pub fn set_status(&mut self, task: TaskId, name: Name) -> Result<NameList, KernReturn>
        ensures { Answered self.old (AnyEvent.SetStatus task name) AnyReply.Members result self.new }
    {
        results::members(self.step(&Event::SetStatus(task, name)))
    }

    /// `mach_port_move_member`: the port leaves all sets that it is in, and goes into this one unless `after`
    /// is the null name. In a set that it is in already it keeps its turn. Takes no memory.
    ///
    /// # Errors
    /// `InvalidName`: nothing under a name; `InvalidRight`: no receive right, or no set; `NotInSet`: `after`
    /// is null, and the port is in no set.
    pub fn move_member(&mut self, task: TaskId, member: Name, after: Name) -> Result<(), KernReturn>
        ensures { Answered self.old (AnyEvent.MoveMember task member after) done result self.new }
    {
        results::done(self.step(&Event::MoveMember(task, member, after)))
    }

    /// `mach_port_insert_member` of later Machs: puts the port into the set, beside the sets that it is in. Only a port
    /// that is in a set already takes memory for that.
    ///
    /// # Errors
    /// `InvalidArgument`: the kernel's profile isn't the third, so a port is in one set at most; `InvalidName`: nothing
    /// under a name; `InvalidRight`: no receive right, or no set; `AlreadyInSet`: the port is in the set;
    /// `ResourceShortage`: out of memory.
    pub fn insert_member(&mut self, task: TaskId, member: Name, set: Name) -> Result<(), KernReturn>
        ensures { Answered self.old (AnyEvent.InsertMember task member set) done result self.new }
    {
        results::done(self.step(&Event::InsertMember(task, member, set)))
    }

    /// `mach_port_extract_member` of later Machs: takes the port out of the set. It stays in its other sets, in its
    /// turns there. Takes no memory.
    ///
    /// # Errors
    /// `InvalidArgument`: the kernel's profile isn't the third; `InvalidName`: nothing under a name; `InvalidRight`: no
    /// receive right, or no set; `NotInSet`: the port isn't in the set.
    pub fn extract_member(
        &mut self,
        task: TaskId,
        member: Name,
        set: Name,
    ) -> Result<(), KernReturn>
        ensures { Answered self.old (AnyEvent.ExtractMember task member set) done result self.new }
    {
        results::done(self.step(&Event::ExtractMember(task, member, set)))
    }

    /// `mach_port_insert_right`: gives the task, under the name, the right that the task `from` has, by its
    /// disposition. The tasks may be the same.
    ///
    /// # Errors
    /// - `InvalidValue`: no name.
    /// - `InvalidCapability`: the right's name is none, or dead.
    /// - `InvalidName`: nothing under it.
    /// - `InvalidRight`: it lacks what the disposition needs.
    /// - `RightExists`, `NameExists`, `UrefsOverflow`, `NoSpace`: it doesn't fit under the name.
    /// - `ResourceShortage`: out of memory.
    pub fn insert_right(
        &mut self,
        task: TaskId,
        name: Name,
        from: TaskId,
        right: PortRight,
    ) -> Result<(), KernReturn>
        ensures { Answered self.old (AnyEvent.InsertRight task name from right.name (disposition_number right.disposition)) done result self.new }
    {
        let number = u32::from(right.disposition.number());
        results::done(self.step(&Event::InsertRight(task, name, from, right.name, number)))
    }

    /// `mach_port_extract_right`: takes by the disposition what the task has under the name, and gives it to
    /// the task `to`, which may be the same, as a received right is given.
    ///
    /// # Errors
    /// `InvalidName`: nothing there; `InvalidRight`: it lacks what the disposition needs, or is dead;
    /// `NoSpace`: a limit of names or rights; `ResourceShortage`: memory.
    pub fn extract_right(
        &mut self,
        task: TaskId,
        name: Name,
        disposition: Disposition,
        to: TaskId,
    ) -> Result<ExtractedRight, KernReturn>
        ensures { Answered self.old (AnyEvent.ExtractRight task name (disposition_number disposition) to) extracted result self.new }
    {
        let number = u32::from(disposition.number());
        results::right(self.step(&Event::ExtractRight(task, name, number, to)))
    }

    /// `mach_port_request_notification`: asks for a notice about the name, or takes such a request away.
    /// Returns the name of the right that the request kept before: the null name for none, the dead one where
    /// its port is dead.
    ///
    /// # Errors
    /// - `InvalidValue`: another disposition than [`Disposition::MoveSendOnce`] and
    ///   [`Disposition::MakeSendOnce`], or a `sync` for [`Notification::PortDestroyed`].
    /// - `InvalidCapability`: `notify` gives no right.
    /// - `InvalidName`: nothing under the name.
    /// - `InvalidRight`: no receive right, or (for [`Notification::DeadName`]) a set.
    /// - `InvalidArgument`: a dead name, and `sync` is 0 or `notify` none.
    /// - `UrefsOverflow`: a dead name of 65,535 references.
    /// - `NoSpace`: a limit of names or rights.
    /// - `ResourceShortage`: out of memory.
    ///
    /// [`Notification::PortDestroyed`]: crate::Notification::PortDestroyed
    /// [`Notification::DeadName`]: crate::Notification::DeadName
    pub fn request_notification(
        &mut self,
        task: TaskId,
        name: Name,
        request: NotificationRequest,
    ) -> Result<Name, KernReturn>
        ensures { Answered self.old (AnyEvent.RequestNotification task name (notification_number request.notification) request.sync (notify_name request.notify) (notify_number request.notify)) AnyReply.Previous result self.new }
    {
        let variant = request.notification.number();
        let (notify, number) = request.notify_right();
        let event = Event::RequestNotification(task, name, variant, request.sync, notify, number);
        results::previous(self.step(&event))
    }

    /// `mach_msg` with `MACH_SEND_MSG` (IPC Interface), that doesn't wait: the message joins the end of its
    /// destination's queue. The bytes are those of [`write_message`], or any others; the call copies them.
    ///
    /// # Errors
    /// A code of a send, with the message given back, so that it can be sent again. It is `SendInvalidDest`,
    /// `SendTimedOut` where the queue is full, `SendNoBuffer` when out of memory, or another that
    /// `docs/CALLS.md` lists.
    ///
    /// [`write_message`]: crate::messages::write_message
    pub fn send(&mut self, task: TaskId, message: Bytes) -> Result<(), SendError>
        ensures sent { Sent self.old (AnyEvent.Send task message) result self.new }
        ensures back { IfErr result (λ e. e.message ≡ message) }
    {
        let event = Event::Send(task, message);
        match (self.step(&event), event) {
            (Reply::Code(0), _) => Ok(()),
            (Reply::Code(number), Event::Send(_, message)) => Err(SendError {
                code: results::message_code(number),
                message,
            }),
            _ => unreachable!(),
        }
    }

    /// `mach_msg` with `MACH_RCV_MSG`, that doesn't wait: the front message of the port under the name, or of
    /// any member of the set there, of at most `room` bytes. `large`: whether a longer message stays
    /// (`MACH_RCV_LARGE`); else it is destroyed.
    ///
    /// # Errors
    /// `ReceiveInvalidName`: neither a receive right nor a set; `ReceiveInSet`: the port is in a set;
    /// `ReceiveBodyErrorNames`, `ReceiveBodyErrorMemory`: names or memory are wanting, and the message stays.
    pub fn receive(
        &mut self,
        task: TaskId,
        name: Name,
        room: u32,
        large: bool,
    ) -> Result<Receipt, Code>
        ensures { Received self.old (AnyEvent.Receive task name room large) result self.new }
    {
        results::received(self.step(&Event::Receive(task, name, room, large)))
    }

    /// A later try of a receive that was answered [`Receipt::Empty`]: from what it waited for, whatever is
    /// under the name now.
    ///
    /// # Errors
    /// `ReceivePortDied`: the port or set isn't there; `ReceivePortChanged`: the task hasn't its receive
    /// right or the set, or the port is in a set; then as [`Kernel::receive`].
    pub fn receive_again(
        &mut self,
        task: TaskId,
        waited: Waited,
        room: u32,
        large: bool,
    ) -> Result<Receipt, Code>
        ensures { Received self.old (AnyEvent.ReceiveAgain task waited room large) result self.new }
    {
        results::received(self.step(&Event::ReceiveAgain(task, waited, room, large)))
    }
}
