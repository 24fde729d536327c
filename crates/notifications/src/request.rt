//! Requests for notices.
ghost use Rattle.std.specs.Prelude.{◌≡◌, [], ◌∷◌, ◌+◌, true, is_some, max, ◌≢◌, ◌⊎◌, ◌<◌, ◌≤◌, ℕ, Option, Some, None, IfOk, IfErr, OnOk, OnErr, IfSome, IfNone, MatchBool};
ghost use Rattle.mach_types.specs.declared.codes.KernReturn.TheVariants as kern;
ghost use Rattle.mach_types.specs.Guards.{FirstIs, NoneHolds};
ghost use Rattle.mach_types.specs.Numbers.{disposition, kind_sent, most_references, most_rights, null_word};
ghost use Rattle.mach_types.specs.Codes.{kern_number, code_number};
ghost use Rattle.mach_types.specs.Tokens.{send_once};
ghost use Rattle.name_space.specs.declared.Entry.TheVariants as AnyEntry;
ghost use Rattle.notifications.specs.declared.request.Variant.TheVariants as AnyVariant;
ghost use Rattle.mach_types.specs.declared.calls.Event.TheVariants as AnyEvent;
ghost use Rattle.copyin_base.specs.Serving.{Declines, IsRefused, Serves};
ghost use Rattle.copyin_base.specs.Changes.{with_slots};
ghost use Rattle.copyin_base.specs.Stands.{Stands};
ghost use Rattle.copyin_base.specs.Wanted.{LacksRoomFor, LacksSlots, KeepsSpares};
ghost use Rattle.notifications.specs.Room.{HasNameRoom, with_place, LacksPlace, place_for, made_by, HasPlace, SameButRooms, Readies};
ghost use Rattle.copyin_base.specs.Worlds.{HasTask, entry_at, port_at};
ghost use Rattle.copyin_base.specs.Shows.{SlotsSuffice};
ghost use Rattle.copyin_base.specs.declared.Mark.TheVariants as mark_of;
ghost use Rattle.mach_types.specs.declared.rights.Disposition.TheVariants as disposition_of;
ghost use Rattle.copyin.specs.Copies.{CopiesRight};
ghost use Rattle.copyin.specs.Planned.{CanCopy};
ghost use Rattle.copyout.specs.Giving.{GivesMark};
ghost use Rattle.copyout.specs.Ready.{CanGive};
ghost use Rattle.copyin_base.specs.Losing.{CanPost};
ghost use Rattle.notifications.specs.Wanted.{WantsToRequest, LeavesRequest, MakesSlotsFor};
ghost use Rattle.notifications.specs.Putting.{IsNotKept, KeepsNew, IsTold, TellsDead, CanPut, Puts, without, CanEnd, Ends, CanRenew, Renews, CanCarryOut, CarriesOut};
ghost use Rattle.notifications.specs.Requesting.{IsMisasked, variant_number, CanPay, GoesNot, capability_guards, Pays, entry_left, names_left, IsSubject, subject_guards, previous_in, ComesOut, is_made_by, rights_then, LacksSpace, MayRequest};

use copyin::copy_name;
use copyin_base::{Carried, Mark, Notice, World};
use copyout::give_right;
use dispositions::copy_right;
use mach_types::limits::{MOST_NAMES, MOST_REFERENCES, MOST_RIGHTS};
use mach_types::{Code, Disposition, KernReturn, Name, PortId, Reply, TaskId};
use name_space::Entry;
use request_table::Request;
use std::alloc::AllocError;
use user_refs::UserRefs;

/// What is asked for, as the call's arguments say.
#[derive(Clone, Copy)]
pub struct Asked {
    /// Which notice: 69 (port-destroyed), 70 (no-senders) or 72 (dead-name).
    pub variant: u32,
    /// For 70 the least make-send count that is told at once; for 72 whether a name that is dead is.
    pub sync: u32,
    /// The name of the send-once right that pays, or of the receive right that it is made from; 0 takes
    /// the request away.
    pub notify: Name,
    /// By which disposition the right goes, 18 or 21.
    pub disposition: u32,
}

/// Which notice is asked for.
#[derive(Clone, Copy)]
enum Variant {
    /// That a port's receive right would be lost.
    PortDestroyed,
    /// That a port has no senders.
    NoSenders,
    /// That the port of a name died.
    DeadName,
}

/// The right that pays.
#[derive(Clone, Copy)]
struct Paying {
    /// The name that it goes from.
    name: Name,
    /// By which disposition it goes.
    given: Disposition,
    /// What it is a right for.
    port: PortId,
    /// What is left under the name.
    left: Option<Entry>,
}

/// What the request is on.
#[derive(Clone, Copy)]
enum Subject {
    /// The port of a receive right, told when that would be lost.
    Receive(PortId),
    /// The port of a receive right, told when it has no senders.
    Senders(PortId),
    /// A name of a port that is there.
    Live(PortId),
    /// A name that is dead, with so many references.
    Dead(UserRefs),
}

/// A request that may be carried out, where there is memory.
#[derive(Clone, Copy)]
struct Judged {
    /// The right that pays, if one is given.
    paying: Option<Paying>,
    /// What it is on.
    subject: Subject,
    /// The notify port of the request that stands there, if one does.
    previous: Option<PortId>,
}

// ---- the call

/// Asks for a notice, or takes such a request away (Port Manipulation Interface,
/// `mach_port_request_notification`). Returns the name under which the right of the earlier request comes
/// out: [`Name::null`] where none stood, and [`Name::dead`] where its port is gone. The task lives.
///
/// A send-once right pays for the notice, moved from `asked.notify` or made from a receive right there; 0
/// there only takes a request away. That a port has no senders, or that a name is dead, is told at once where
/// it is so and `asked.sync` allows it. All from `INVALID_NAME` on is judged as it will be once the right
/// that pays has gone.
///
/// # Errors
/// A refusal changes nothing, except that room may have been made for the name or the request. The first that
/// holds is returned.
/// - `INVALID_VALUE`: the variant is none of the three, the disposition is neither 18 nor 21 though a right
///   is given, or `sync` isn't 0 for a port-destroyed notice.
/// - `INVALID_CAPABILITY`: the right isn't there, or its port isn't.
/// - `INVALID_NAME`: nothing is under the name.
/// - `INVALID_RIGHT`: the name has no receive right, as 69 and 70 ask, or is a set's for 72.
/// - `INVALID_ARGUMENT`: a dead name, and `sync` is 0 or no right is given.
/// - `UREFS_OVERFLOW`: a dead name with 65,535 references.
/// - `NO_SPACE`: 65,535 names where a right comes out, or 4,294,967,295 rights where one is made.
/// - `RESOURCE_SHORTAGE`: memory was refused for a name, for the request, or for the slot of a send-once
///   right that is made.
///
/// Constant time, and logarithmic for a name above 65,535. Where room is made, at most linear in the number
/// of requests or of the task's names.
pub fn request_notification(
    world: &mut World,
    task: TaskId,
    name: Name,
    asked: &Asked,
) -> Result<Reply, Code>
    requires there { HasTask world.old task }
    requires stands { Stands world.old }
    ensures serves { Serves world.old (AnyEvent.RequestNotification task name asked.now.variant asked.now.sync asked.now.notify asked.now.disposition) result world.new }
    ensures wanted { IfErr result (λ code. code_number code ≡ kern_number kern.ResourceShortage → WantsToRequest world.old task name asked.now) }
    ensures spares { LeavesRequest world.old asked.now result world.new }
{
    let judged = match judge(world, task, name, asked) {
        Ok(judged) => judged,
        Err(code) => return Err(Code::Kern(code)),
    };
    reserve(
        world,
        task,
        &judged.subject,
        &judged.paying,
        &judged.previous,
    )?;
    let given = carry_out(world, task, name, asked.sync, &judged);
    Ok(Reply::Previous(given))
}

/// Whether the request may be carried out, where there is memory: as [`request_notification`] refuses it,
/// except when out of memory. The task lives. Constant time, and logarithmic for a name above 65,535.
pub fn check_request(
    world: &World,
    task: TaskId,
    name: Name,
    asked: &Asked,
) -> Result<(), KernReturn>
    requires there { HasTask world.now task }
    requires stands { Stands world.now }
    ensures ok { OnOk result (Declines world.now (AnyEvent.RequestNotification task name asked.now.variant asked.now.sync asked.now.notify asked.now.disposition) (kern_number kern.ResourceShortage) world.now) }
    ensures err { IfErr result (λ code. Declines world.now (AnyEvent.RequestNotification task name asked.now.variant asked.now.sync asked.now.notify asked.now.disposition) (kern_number code) world.now) }
    ensures early { IfErr result (λ code. kern_number code ≢ kern_number kern.ResourceShortage) }
{
    match judge(world, task, name, asked) {
        Ok(_) => Ok(()),
        Err(code) => Err(code),
    }
}

/// What is judged of the request, in the order of its refusals, before memory is wanted.
fn judge(world: &World, task: TaskId, name: Name, asked: &Asked) -> Result<Judged, KernReturn>
    requires there { HasTask world.now task }
    requires stands { Stands world.now }
    ensures ok { IfOk result (λ judged. MayRequest world.now task name asked.now judged.paying judged.subject judged.previous) }
    ensures err { IfErr result (λ code. Declines world.now (AnyEvent.RequestNotification task name asked.now.variant asked.now.sync asked.now.notify asked.now.disposition) (kern_number code) world.now) }
    ensures early { IfErr result (λ code. kern_number code ≢ kern_number kern.ResourceShortage) }
{
    let variant = variant_of(asked)?;
    let paying = judge_paying(world, task, asked)?;
    let entry = entry_then(world, task, &paying, name);
    let subject = judge_subject(entry, variant, asked)?;
    let previous = previous_of(world, task, name, &subject);
    judge_space(world, task, &paying, &previous)?;
    Ok(Judged {
        paying,
        subject,
        previous,
    })
}

/// Carries the request out: renews it where a right pays, and else takes it away. Returns the name that the
/// right of the one that stood there comes out under.
fn carry_out(world: &mut World, task: TaskId, name: Name, sync: u32, judged: &Judged) -> Name
    requires { CanCarryOut world.old task name judged.now.paying judged.now.subject judged.now.previous }
    ensures { CarriesOut world.old task name sync judged.now.paying judged.now.subject judged.now.previous result world.new }
{
    let Judged {
        paying,
        subject,
        previous,
    } = judged;
    match paying {
        Some(paying) => renew(world, task, name, sync, paying, subject, *previous),
        None => end(world, task, name, subject, *previous),
    }
}

// ---- what is asked for

/// The variant of a call whose numbers are in order; `KERN_INVALID_VALUE` where they aren't.
fn variant_of(asked: &Asked) -> Result<Variant, KernReturn>
    ensures ok { IfOk result (λ variant. (variant_number variant ≡ asked.now.variant) × ¬ (IsMisasked asked.now)) }
    ensures err { IfErr result (λ code. (code ≡ kern.InvalidValue) × IsMisasked asked.now) }
{
    let variant = match asked.variant {
        69 => Variant::PortDestroyed,
        70 => Variant::NoSenders,
        72 => Variant::DeadName,
        _ => return Err(KernReturn::InvalidValue),
    };
    if asked.notify.number() != 0 && asked.disposition != 18 && asked.disposition != 21 {
        return Err(KernReturn::InvalidValue);
    }
    if asked.variant == 69 && asked.sync != 0 {
        return Err(KernReturn::InvalidValue);
    }
    Ok(variant)
}

// ---- the right that pays

/// The disposition of the number, 18 or 21.
fn given_by(number: u32) -> Disposition
    requires { (number ≡ 18) ⊎ (number ≡ 21) }
    ensures given { disposition number ≡ Some result }
    ensures once { kind_sent result ≡ send_once }
{
    if number == 18 {
        Disposition::MoveSendOnce
    } else {
        Disposition::MakeSendOnce
    }
}

/// The right that goes from the name, if it is for a port that is there.
fn find_paying(world: &World, task: TaskId, name: Name, given: Disposition) -> Option<Paying>
    ensures some { IfSome result (λ g. (g.name ≡ name) × (g.given ≡ given) × CanPay world.now task g) }
    ensures none { IfNone result (GoesNot world.now task name given) }
{
    let entry = world.lookup(task, name)?;
    let copied = copy_right(given, &entry)?;
    match &copied.mark {
        Mark::Port(port) => Some(Paying {
            name,
            given,
            port: *port,
            left: copied.left,
        }),
        Mark::Null | Mark::Dead => None,
    }
}

/// The right that pays, if one is given; `KERN_INVALID_CAPABILITY` where there is none for a port under
/// the name.
fn judge_paying(world: &World, task: TaskId, asked: &Asked) -> Result<Option<Paying>, KernReturn>
    requires { ¬ (IsMisasked asked.now) }
    ensures ok { IfOk result (λ paying. Pays world.now task asked.now paying) }
    ensures err { IfErr result (λ code. (asked.now.notify ≢ null_word) × IsRefused world.now (λ s. capability_guards s task asked.now.notify asked.now.disposition) (kern_number code)) }
{
    if asked.notify.number() == 0 {
        return Ok(None);
    }
    match find_paying(world, task, asked.notify, given_by(asked.disposition)) {
        Some(paying) => Ok(Some(paying)),
        None => Err(KernReturn::InvalidCapability),
    }
}

// ---- what the request is on

/// What is under the task's name once the right that pays has gone.
fn entry_then(world: &World, task: TaskId, paying: &Option<Paying>, name: Name) -> Option<Entry>
    ensures { result ≡ entry_left world.now task paying.now name }
{
    match paying {
        Some(paying) if paying.name.number() == name.number() => paying.left,
        _ => world.lookup(task, name),
    }
}

/// A dead name, with so many references, is told of at once, and gets one more.
fn judge_dead(references: UserRefs, asked: &Asked) -> Result<Subject, KernReturn>
    ensures ok { IfOk result (λ subject. IsSubject (Some (AnyEntry.DeadName references)) AnyVariant.DeadName asked.now.sync asked.now.notify subject) }
    ensures err { IfErr result (λ code. FirstIs (subject_guards (Some (AnyEntry.DeadName references)) AnyVariant.DeadName asked.now.sync asked.now.notify) (kern_number code)) }
{
    if asked.sync == 0 || asked.notify.number() == 0 {
        return Err(KernReturn::InvalidArgument);
    }
    if references.count() == MOST_REFERENCES {
        return Err(KernReturn::UrefsOverflow);
    }
    Ok(Subject::Dead(references))
}

/// Returns what a request of this variant is on, by what is under the name. `KERN_INVALID_NAME` where nothing
/// is. `KERN_INVALID_RIGHT` where it isn't what the variant asks for. `KERN_INVALID_ARGUMENT` for a dead name
/// that isn't to be told of at once. `KERN_UREFS_OVERFLOW` for one with 65,535 references.
fn judge_subject(
    entry: Option<Entry>,
    variant: Variant,
    asked: &Asked,
) -> Result<Subject, KernReturn>
    ensures ok { IfOk result (λ subject. IsSubject entry variant asked.now.sync asked.now.notify subject) }
    ensures err { IfErr result (λ code. FirstIs (subject_guards entry variant asked.now.sync asked.now.notify) (kern_number code)) }
{
    let Some(entry) = entry else {
        return Err(KernReturn::InvalidName);
    };
    match variant {
        Variant::PortDestroyed => match entry.receive_port() {
            Some(port) => Ok(Subject::Receive(port)),
            None => Err(KernReturn::InvalidRight),
        },
        Variant::NoSenders => match entry.receive_port() {
            Some(port) => Ok(Subject::Senders(port)),
            None => Err(KernReturn::InvalidRight),
        },
        Variant::DeadName => judge_name(entry, asked),
    }
}

/// What a dead-name request on a name is on, under which this stands.
fn judge_name(entry: Entry, asked: &Asked) -> Result<Subject, KernReturn>
    ensures ok { IfOk result (λ subject. IsSubject (Some entry) AnyVariant.DeadName asked.now.sync asked.now.notify subject) }
    ensures err { IfErr result (λ code. FirstIs (subject_guards (Some entry) AnyVariant.DeadName asked.now.sync asked.now.notify) (kern_number code)) }
{
    match entry {
        Entry::DeadName(references) => judge_dead(references, asked),
        Entry::Set(_) => Err(KernReturn::InvalidRight),
        Entry::Receive(port)
        | Entry::Send(port, _)
        | Entry::ReceiveAndSend(port, _)
        | Entry::SendOnce(port) => Ok(Subject::Live(port)),
    }
}

// ---- the request that stands there now

/// The notify port of the request that stands there now, if one does.
fn previous_of(world: &World, task: TaskId, name: Name, subject: &Subject) -> Option<PortId>
    ensures { result ≡ previous_in world.now.requests task name subject.now }
{
    match subject {
        Subject::Receive(port) => world.find_port_destroyed(*port),
        Subject::Senders(port) => world.find_no_senders(*port),
        Subject::Live(_) | Subject::Dead(_) => {
            let request = world.find_on_name(task, name)?;
            Some(request.notify)
        }
    }
}

/// Returns whether a right comes out for the request that was there: its port is there.
fn comes_out(world: &World, previous: Option<PortId>) -> bool
    ensures { MatchBool result (ComesOut world.now previous) (¬ (ComesOut world.now previous)) }
{
    match previous {
        Some(port) => world.has_port(port),
        None => false,
    }
}

// ---- room

/// Returns whether the right that pays is made, so that there is one right more.
fn is_made(paying: &Option<Paying>) -> bool
    ensures { result ≡ is_made_by paying.now }
{
    match paying {
        Some(paying) => paying.given.makes_right(),
        None => false,
    }
}

/// How many names the task has once the right that pays has gone.
fn count_names(world: &World, task: TaskId, paying: &Option<Paying>) -> usize
    requires { HasTask world.now task }
    ensures { result ≡ names_left world.now task paying.now }
{
    let count = world.space(task).len();
    match paying {
        Some(paying) if paying.left.is_none() => count.saturating_sub(1),
        _ => count,
    }
}

/// Returns whether there are too many rights, with the one that pays where that is made.
fn lacks_rights(world: &World, paying: &Option<Paying>) -> bool
    ensures { MatchBool result (most_rights < rights_then world.now paying.now) (rights_then world.now paying.now ≤ most_rights) }
{
    let total = world.total_rights();
    is_made(paying) && total == MOST_RIGHTS
}

/// `KERN_NO_SPACE` where there would be too many rights, or no name is left for the right that comes out.
fn judge_space(
    world: &World,
    task: TaskId,
    paying: &Option<Paying>,
    previous: &Option<PortId>,
) -> Result<(), KernReturn>
    requires { HasTask world.now task }
    ensures ok { OnOk result (¬ (LacksSpace world.now task paying.now previous.now)) }
    ensures err { IfErr result (λ code. (code ≡ kern.NoSpace) × LacksSpace world.now task paying.now previous.now) }
{
    let names = count_names(world, task, paying);
    let is_full = comes_out(world, *previous) && names >= MOST_NAMES;
    if is_full || lacks_rights(world, paying) {
        return Err(KernReturn::NoSpace);
    }
    Ok(())
}

/// Makes room for the name of the right that comes out, where one does.
fn reserve_name(world: &mut World, task: TaskId, previous: Option<PortId>) -> Result<(), KernReturn>
    requires { HasTask world.old task }
    ensures ok { OnOk result (HasNameRoom world.old task previous world.new) }
    ensures err { IfErr result (λ code. (code ≡ kern.ResourceShortage) × (world.new ≡ world.old)) }
    ensures lacks { OnErr result (ComesOut world.old previous × LacksRoomFor world.old task 1) }
    ensures keeps { KeepsSpares world.old world.new }
{
    if comes_out(world, previous) {
        world.reserve_names(task, 1)
    } else {
        Ok(())
    }
}

/// Makes room for a request on the subject; none is kept on a name that is dead.
fn reserve_request(world: &mut World, subject: Subject) -> Result<(), AllocError>
    ensures ok { OnOk result (world.new ≡ record world.old { requests = with_place world.old.requests subject }) }
    ensures err { OnErr result (world.new ≡ world.old) }
    ensures lacks { OnErr result (LacksPlace world.old.requests subject) }
{
    match subject {
        Subject::Receive(_) => world.reserve_port_destroyed(),
        Subject::Senders(_) => world.reserve_no_senders(),
        Subject::Live(_) => world.reserve_on_name(),
        Subject::Dead(_) => Ok(()),
    }
}

/// Makes a slot for the notice that the right brings, where it is made.
fn reserve_slot(world: &mut World, paying: &Option<Paying>) -> Result<(), KernReturn>
    ensures ok { OnOk result (world.new ≡ with_slots world.old (max world.old.ports.spare (world.old.ledger.unused + made_by paying.now))) }
    ensures err { IfErr result (λ code. (code ≡ kern.ResourceShortage) × (world.new ≡ world.old)) }
    ensures lacks { OnErr result (LacksSlots world.old (made_by paying.now)) }
{
    match world.reserve_slots(usize::from(is_made(paying))) {
        Ok(()) => Ok(()),
        Err(_) => Err(KernReturn::ResourceShortage),
    }
}

/// Makes room for the request, where a right is given that pays.
fn reserve_place(
    world: &mut World,
    subject: Subject,
    paying: &Option<Paying>,
) -> Result<(), KernReturn>
    ensures ok { OnOk result (world.new ≡ record world.old { requests = place_for world.old.requests subject paying.now }) }
    ensures err { IfErr result (λ code. (code ≡ kern.ResourceShortage) × (world.new ≡ world.old)) }
    ensures lacks { OnErr result ((is_some paying.now ≡ true) × LacksPlace world.old.requests subject) }
{
    if paying.is_none() {
        return Ok(());
    }
    match reserve_request(world, subject) {
        Ok(()) => Ok(()),
        Err(_) => Err(KernReturn::ResourceShortage),
    }
}

/// Makes room where it is wanted: for the name of the right that comes out, for the request where none stands
/// there, and for the notice where the right that pays is made.
fn reserve(
    world: &mut World,
    task: TaskId,
    subject: &Subject,
    paying: &Option<Paying>,
    previous: &Option<PortId>,
) -> Result<(), KernReturn>
    requires { HasTask world.old task }
    ensures ok { OnOk result (Readies world.old task subject.now paying.now previous.now world.new) }
    ensures err { IfErr result (λ code. (code ≡ kern.ResourceShortage) × SameButRooms world.old world.new) }
    ensures lacks { OnErr result (ComesOut world.old previous.now × LacksRoomFor world.old task 1 ⊎ (is_some paying.now ≡ true) × LacksPlace world.old.requests subject.now ⊎ LacksSlots world.old (made_by paying.now)) }
    ensures made { OnOk result (MakesSlotsFor world.old (made_by paying.now) world.new) }
    ensures keeps { OnErr result (KeepsSpares world.old world.new) }
{
    reserve_name(world, task, *previous)?;
    reserve_place(world, *subject, paying)?;
    reserve_slot(world, paying)
}

// ---- carrying it out

/// The right that pays goes from its name.
fn pay(world: &mut World, task: TaskId, paying: &Paying)
    requires { CanCopy world.old task paying.now.name (record { given = paying.now.given; mark = mark_of.Port paying.now.port }) }
    ensures { CopiesRight world.old task paying.now.given paying.now.name (mark_of.Port paying.now.port) world.new }
{
    let mark = Mark::Port(paying.port);
    let given = paying.given;
    copy_name(world, task, paying.name, Carried { given, mark });
}

/// The request on the subject goes, if one stands; its place stays.
fn end_request(world: &mut World, task: TaskId, name: Name, subject: Subject)
    ensures { world.new ≡ without world.old task name subject }
{
    match subject {
        Subject::Receive(port) => world.end_port_destroyed(port),
        Subject::Senders(port) => world.end_no_senders(port),
        Subject::Live(_) | Subject::Dead(_) => {
            world.take_on_name(task, name);
        }
    }
}

/// Gives the right of the request that was there under a fresh name, and returns the name: [`Name::dead`]
/// where its port is gone.
fn give_previous(world: &mut World, task: TaskId, notify: PortId) -> Name
    requires { CanGive world.old task (record { given = disposition_of.MoveSendOnce; mark = mark_of.Port notify } ∷ []) }
    ensures { GivesMark world.old task send_once (mark_of.Port notify) result world.new }
{
    let mark = Mark::Port(notify);
    let given = Disposition::MoveSendOnce;
    give_right(world, task, &Carried { given, mark })
}

/// Keeps the request, in a place that was made for it.
fn keep(world: &mut World, task: TaskId, name: Name, subject: Subject, notify: PortId)
    requires none { IsNotKept world.old.requests task name subject }
    requires place { HasPlace world.old.requests subject }
    ensures { KeepsNew world.old task name subject notify world.new }
{
    match subject {
        Subject::Receive(port) => world.keep_port_destroyed(port, notify),
        Subject::Senders(port) => world.keep_no_senders(port, notify),
        Subject::Live(port) => world.keep_on_name(Request {
            task,
            name,
            port,
            notify,
        }),
        Subject::Dead(_) => {}
    }
}

/// The make-send count that is told at once: the port has no send rights, and enough were made.
fn told_at_once(world: &World, port: PortId, sync: u32) -> Option<u32>
    requires { is_some (port_at world.now port) ≡ true }
    ensures some { IfSome result (λ number. IsTold world.now port sync number) }
    ensures none { IfNone result ((number : ℕ) → ¬ (IsTold world.now port sync number)) }
{
    let sends = match world.counts(port) {
        Some(counts) => counts.send,
        None => 0,
    };
    let made = world.attributes(port).make_send;
    if sends == 0 && made >= sync {
        Some(made)
    } else {
        None
    }
}

/// A dead name has a reference more, and that it died is told.
fn tell_dead(world: &mut World, task: TaskId, name: Name, references: UserRefs, notify: PortId)
    requires can { CanPost world.old notify }
    requires dead { entry_at world.old task name ≡ Some (AnyEntry.DeadName references) }
    requires few { references < most_references }
    ensures tells { TellsDead world.old task name references notify world.new }
    ensures slots { SlotsSuffice world.new }
{
    let more = Entry::DeadName(references.add_pegged(1));
    world.put_left(task, name, Some(more));
    world.post(notify, Notice::DeadName(name));
}

/// Keeps the new request, or tells at once.
fn put(world: &mut World, task: TaskId, name: Name, sync: u32, subject: Subject, notify: PortId)
    requires { CanPut world.old task name subject notify }
    ensures puts { Puts world.old task name sync subject notify world.new }
    ensures slots { SlotsSuffice world.new }
{
    match subject {
        Subject::Dead(references) => tell_dead(world, task, name, references, notify),
        Subject::Senders(port) => match told_at_once(world, port, sync) {
            Some(number) => world.post(notify, Notice::NoSenders(number)),
            None => keep(world, task, name, subject, notify),
        },
        Subject::Receive(_) | Subject::Live(_) => {
            keep(world, task, name, subject, notify);
        }
    }
}

/// Takes the request that stands there away, and gives its right. Returns [`Name::null`] at once where none
/// stands.
fn end(
    world: &mut World,
    task: TaskId,
    name: Name,
    subject: &Subject,
    previous: Option<PortId>,
) -> Name
    requires { CanEnd world.old task name subject.now previous }
    ensures { Ends world.old task name subject.now previous result world.new }
{
    let Some(notify) = previous else {
        return Name::null();
    };
    end_request(world, task, name, *subject);
    give_previous(world, task, notify)
}

/// Lets the right that pays go, gives that of the request that stood there, and keeps the new request or
/// tells at once.
fn renew(
    world: &mut World,
    task: TaskId,
    name: Name,
    sync: u32,
    paying: &Paying,
    subject: &Subject,
    previous: Option<PortId>,
) -> Name
    requires { CanRenew world.old task name paying.now subject.now previous }
    ensures { Renews world.old task name sync paying.now subject.now previous result world.new }
{
    pay(world, task, paying);
    let given = end(world, task, name, subject, previous);
    put(world, task, name, sync, *subject, paying.port);
    given
}
