//! What a step changed, as it is kept.
ghost use Rattle.std.specs.Prelude.{◌≡◌, ◌↔◌, [], ◌∷◌, ◌++◌, Some, None, IsTrue, IfOk, OnErr, true, false};
ghost use Rattle.std.specs.Option.{option_to_list};
ghost use Rattle.port.specs.Ports.{NoneQueued};
ghost use Rattle.copyin_base.specs.Kept.{receive_of};
ghost use Rattle.copyin_base.specs.Stands.{Stands};
ghost use Rattle.copyin_base.specs.Worlds.{entry_at, HasTask};
ghost use Rattle.mach_types.specs.Numbers.{kind_sent};
ghost use Rattle.kernel_change.specs.declared.change.Change.TheVariants.{Any};
ghost use Rattle.kernel_change.specs.Changing.{unwrap_or_all, touched_by, gives_none, gives_one, by_taking_along as change_by_taking_along, by_taking_two as change_by_taking_two, by_taking as change_by_taking, receives_of, by_message, by_items, by_body, by_destroying as change_by_destroying, with_right as change_with_right, noticed, noticed_of, by_too_long as change_by_too_long, by_making as change_by_making, by_losing_one as change_by_losing_one, disbanded, ByDisbanding, ByLosingAll, ByReferences, is_send_or_dead as entry_is_send_or_dead, HasSendsAlone, ByEnding, IsUnasked, DiesAlone, EndsAs, left_by as change_left_by, by_moving as change_by_moving, by_handing as change_by_handing, by_paying as change_by_paying, by_request as change_by_request};

use crate::moved::Moved;
use crate::naming::{
    InSeveral, lone_set, name_along, name_both, name_last, name_left, name_members, name_received,
    name_received_one, name_received_three, name_received_two, name_three, name_two, name_two_left,
    name_with_sets, named_port,
};
use crate::received::Received;
use copyin_base::{Carried, Mark, Queued, World};
use mach_types::{Name, PortId, SetId, TaskId, Touched, Waited};
use name_space::Entry;
use port::Membership;
use std::alloc::Global;
use type_descriptor::read_word;

/// What a step changed, in short: what stands under a name, and in which sets a port is, is looked up once it
/// is asked for.
#[derive(Clone, Copy, Debug)]
pub enum Change {
    /// No port and no set.
    Nothing,
    /// The port that was made last.
    Made,
    /// The port under this name of the task, where one stands there; no queue.
    PortNamed(TaskId, Name),
    /// Of this port, and so of its sets: the queue, the place of the receive right, or that it entered the set.
    Queue(PortId),
    /// The queues of these ports, and so of their sets.
    Queues(PortId, PortId),
    /// Of this port that it entered or left this set, beside others; or the set was destroyed, and this was its one member.
    Member(PortId, SetId),
    /// The queue of the first port, and so that of its sets, and the place of the second one's receive right.
    Along(PortId, PortId),
    /// The same, where the second port left this set.
    AlongFrom(PortId, PortId, SetId),
    /// The queue of the first port, and so that of its sets, and the places of the other two ports' receive rights.
    AlongTwo(PortId, PortId, PortId),
    /// The same, where those of the other two ports that were in a set left this one.
    AlongTwoFrom(PortId, PortId, PortId, SetId),
    /// The queue of the first port, and so that of its sets, and the places of the other ports' receive rights.
    AlongThree(PortId, PortId, PortId, PortId),
    /// The queue of the port under this name of the task, and so that of its sets.
    QueueNamed(TaskId, Name),
    /// The same, and the place of the receive right under the last name.
    ReceivedOne(TaskId, Name, Name),
    /// The same of the receive rights under the last two names.
    ReceivedTwo(TaskId, Name, Name, Name),
    /// The same of the receive rights under the last three.
    ReceivedThree(TaskId, Name, Name, Name, Name),
    /// Of this port that it left this set, for another place or another set.
    Left(PortId, SetId),
    /// Of this set that it was destroyed; it had no members.
    Disbanded(SetId),
    /// The same of a set with these two members.
    DisbandedTwo(SetId, PortId, PortId),
    /// The same of a set with these three.
    DisbandedThree(SetId, PortId, PortId, PortId),
    /// The receive right of this port was destroyed: any port and any set, unless it dies alone.
    Lost(PortId),
    /// Any port and any set.
    Any,
}

impl Change {
    /// What a step changed whose call changed this, where its end has something to do: any port and any set, but where
    /// a port dies alone. By the tables before the end. Constant time.
    #[inline(never)]
    pub fn with_end(self, world: &World) -> Change
        ensures { EndsAs world.now self result }
    {
        match self {
            Change::Lost(port) if dies_alone(world, port) => {
                Change::by_moving_from(port, world.membership(port))
            }
            _ => Change::Any,
        }
    }

    /// One reference under a name with this entry goes, or the send-once right, whose port gets a notice.
    #[inline(always)]
    pub fn by_losing_one(entry: &Entry) -> Change
        ensures { result ≡ change_by_losing_one (Some entry.now) }
    {
        match entry {
            Entry::Send(..) | Entry::ReceiveAndSend(..) | Entry::DeadName(_) => Change::Nothing,
            Entry::SendOnce(port) => Change::Queue(*port),
            Entry::Receive(_) | Entry::Set(_) => Change::Any,
        }
    }

    /// All that is under a name with this entry is about to go; the port of a send-once right gets a notice. Constant
    /// time, but for a set linear in its members.
    #[inline(always)]
    pub fn by_losing_all(world: &World, alloc: Global, entry: &Entry) -> Change
        ensures { ByLosingAll world.now (Some entry.now) result }
    {
        match entry {
            Entry::Send(..) | Entry::DeadName(_) => Change::Nothing,
            Entry::SendOnce(port) => Change::Queue(*port),
            Entry::Receive(port) | Entry::ReceiveAndSend(port, _) => Change::Lost(*port),
            Entry::Set(set) => by_disbanding(world, alloc, *set),
        }
    }

    /// References are about to change of a right of this number, under the name: a send right, a dead name, or another
    /// right that goes. Constant time, and logarithmic for a name above 65,535; for a set linear in its members.
    #[inline(always)]
    pub fn by_references(
        world: &World,
        alloc: Global,
        task: TaskId,
        name: Name,
        right: u32,
    ) -> Change
        ensures { ByReferences world.now task name right result }
    {
        if right == 0 || right == 4 {
            Change::Nothing
        } else {
            by_removing(world, alloc, task, name)
        }
    }

    /// The task is about to end: of one whose names stand for send rights and dead names alone nobody waits for
    /// anything. Linear in its names, up to the first that stands for something else. Each name above 65,535 adds a
    /// logarithm. Each page of 256 names up to there that was used adds four words.
    #[inline(never)]
    pub fn by_ending(world: &World, task: TaskId) -> Change
        requires there { HasTask world.now task }
        requires stands { Stands world.now }
        ensures { ByEnding world.now task result }
    {
        if has_sends_alone(world, task) {
            Change::Nothing
        } else {
            Change::Any
        }
    }

    /// The port goes to another set or place, from these sets, if it is in any; of several there is no place for all.
    #[inline(always)]
    pub fn by_moving_from(port: PortId, sets: Membership) -> Change
        ensures { result ≡ change_left_by port sets }
    {
        match sets {
            Membership::Nowhere => Change::Queue(port),
            Membership::Alone(set) => Change::Left(port, SetId::new(set)),
            Membership::Several(_) => Change::Any,
        }
    }

    /// The right under the name is about to go to another task, by a disposition of this number. Constant time, and
    /// logarithmic for a name above 65,535.
    #[inline(always)]
    pub fn by_handing(world: &World, task: TaskId, name: Name, number: u32) -> Change
        ensures { result ≡ change_by_handing world.now task name number }
    {
        if number == 16 {
            by_moving(world, task, name)
        } else {
            Change::Nothing
        }
    }

    /// A notice is about to be asked for, which the right under the name pays for by a disposition of this number, or
    /// no more, where the name is 0. The right's port may get the notice at once. Constant time, and logarithmic for a
    /// name above 65,535.
    #[inline(never)]
    pub fn by_request(world: &World, task: TaskId, name: Name, number: u32) -> Change
        ensures { result ≡ change_by_request world.now task name number }
    {
        if name.number() == 0 {
            return Change::Nothing;
        }
        if number == 16 {
            return Change::Any;
        }
        match world.lookup(task, name) {
            Some(entry) => by_paying(&entry),
            None => Change::Any,
        }
    }

    /// A port is about to be made, by a right of this number, or something else that nobody waits for.
    #[inline(always)]
    pub fn by_making(right: u32) -> Change
        ensures { result ≡ change_by_making right }
    {
        if right == 1 {
            Change::Made
        } else {
            Change::Nothing
        }
    }

    /// A message was received by the task: its third word after the bits is the task's name for the port that it came by.
    /// In `told` it leaves what that changed. Constant time for raw bytes and for a body of one right, and else linear in
    /// the items and in the receive rights.
    #[inline(always)]
    pub fn tell_message(task: TaskId, bytes: &[u8], told: &mut Change)
        ensures { told.new ≡ by_message task bytes.now }
    {
        if has_no_receive_right(bytes) {
            *told = Change::QueueNamed(task, Name::new(read_word(bytes, 12)));
        } else {
            tell_items(task, bytes, told);
        }
    }

    /// The message in front of this port is about to be destroyed: the port of a send-once right that it carries gets a
    /// notice. Any port and any set, where it carries two of these or a receive right. Linear in its rights.
    #[inline(never)]
    pub fn by_too_long(world: &World, port: PortId) -> Change
        ensures { result ≡ change_by_too_long world.now (Some port) }
    {
        match world.front(port) {
            Some(queued) => by_destroying(port, queued),
            None => Change::Any,
        }
    }

    /// A message with these rights in its body is about to be sent to the port. Linear in the rights.
    #[inline(never)]
    pub fn by_taking(world: &World, to: PortId, rights: &[Carried]) -> Change
        ensures { result ≡ change_by_taking world.now to (receives_of rights.now) }
    {
        match taking(world, to, rights) {
            Ok(change) => change,
            Err(InSeveral) => Change::Any,
        }
    }

    /// The ports and sets that it names, by the tables after the step: any port and any set, where they are more than
    /// four. Constant time, and logarithmic for a name above 65,535.
    pub fn touched(self, world: &World) -> Touched
        ensures { result ≡ touched_by world.now self }
    {
        match self.named(world) {
            Ok(touched) => touched,
            Err(InSeveral) => Touched::All,
        }
    }

    // The same; an error, where a port is in several sets and there is a place for one.
    fn named(self, world: &World) -> Result<Touched, InSeveral>
        ensures { unwrap_or_all result ≡ touched_by world.now self }
    {
        match self {
            Change::Nothing => Ok(name_both(None, None)),
            Change::PortNamed(task, name) => {
                Ok(name_both(named_port(world, task, name).map(Waited::Port), None))
            }
            Change::Queue(port) => Ok(name_with_sets(world, Some(port))),
            Change::Queues(a, b) => name_two(world, a, b),
            Change::Member(port, set) => {
                Ok(name_both(Some(Waited::Port(port)), Some(Waited::Set(set))))
            }
            Change::Along(to, port) => name_along(world, to, port, None),
            Change::AlongFrom(to, port, left) => name_along(world, to, port, Some(left)),
            Change::AlongTwo(to, a, b) => name_received(world, Some(to), Some(a), Some(b)),
            Change::AlongTwoFrom(to, a, b, left) => name_two_left(world, to, a, b, left),
            Change::AlongThree(to, a, b, c) => {
                Ok(name_three(world, to, (Some(a), Some(b), Some(c))))
            }
            Change::QueueNamed(task, name) => {
                Ok(name_with_sets(world, named_port(world, task, name)))
            }
            Change::ReceivedOne(task, name, a) => name_received_one(world, task, name, a),
            Change::ReceivedTwo(task, name, a, b) => name_received_two(world, task, name, a, b),
            Change::ReceivedThree(task, name, a, b, c) => {
                Ok(name_received_three(world, task, name, (a, b, c)))
            }
            Change::Made => Ok(name_last(world)),
            Change::Left(port, set) => name_left(world, port, set),
            Change::Disbanded(set) => Ok(name_both(Some(Waited::Set(set)), None)),
            Change::DisbandedTwo(set, a, b) => Ok(name_members(set, a, b, None)),
            Change::DisbandedThree(set, a, b, c) => Ok(name_members(set, a, b, Some(c))),
            Change::Lost(_) | Change::Any => Ok(Touched::All),
        }
    }
}

/// What a message changes that is about to be sent to the port with these rights in its body; an error, where a port
/// whose receive right it carries is in several sets.
fn taking(world: &World, to: PortId, rights: &[Carried]) -> Result<Change, InSeveral>
    ensures ok { IfOk result (λ change. change ≡ change_by_taking world.now to (receives_of rights.now)) }
    ensures err { OnErr result (change_by_taking world.now to (receives_of rights.now) ≡ Any) }
{
    match Moved::by(rights) {
        Moved::Nothing => Ok(Change::Queue(to)),
        Moved::One(port) => Ok(by_taking_along(to, port, lone_set(world, port)?)),
        Moved::Two(a, b) => {
            Ok(by_taking_two(to, a, b, lone_set(world, a)?, lone_set(world, b)?))
        }
        Moved::Three(a, b, c) => by_taking_three(world, to, a, b, c),
        Moved::Several => Ok(Change::Any),
    }
}

/// The same of a message with the receive rights of these three in its body. Any port and any set, where one of them is in a set.
fn by_taking_three(
    world: &World,
    to: PortId,
    a: PortId,
    b: PortId,
    c: PortId,
) -> Result<Change, InSeveral>
    ensures ok { IfOk result (λ change. change ≡ change_by_taking world.now to (a ∷ b ∷ c ∷ [])) }
    ensures err { OnErr result (change_by_taking world.now to (a ∷ b ∷ c ∷ []) ≡ Any) }
{
    match (
        lone_set(world, a)?,
        lone_set(world, b)?,
        lone_set(world, c)?,
    ) {
        (None, None, None) => Ok(Change::AlongThree(to, a, b, c)),
        _ => Ok(Change::Any),
    }
}

/// The set is about to be destroyed: it changes, and each member. Linear in the members, of whom it makes a list. Where
/// memory is refused for that, or there are more than three, it is any port and any set.
#[inline(never)]
fn by_disbanding(world: &World, alloc: Global, set: SetId) -> Change
    ensures { ByDisbanding world.now set result }
{
    if world.first_member(set).is_none() {
        return Change::Disbanded(set);
    }
    match world.members(set, alloc) {
        Ok(members) => with_members(set, members.as_slice()),
        Err(_) => Change::Any,
    }
}

/// The set goes that has these members.
fn with_members(set: SetId, members: &[PortId]) -> Change
    ensures { result ≡ disbanded set members.now }
{
    match members {
        [] => Change::Disbanded(set),
        [a] => Change::Member(*a, set),
        [a, b] => Change::DisbandedTwo(set, *a, *b),
        [a, b, c] => Change::DisbandedThree(set, *a, *b, *c),
        _ => Change::Any,
    }
}

/// A notice may be sent to the port of the right that pays for it: this send-once right, or one made of this receive
/// right.
fn by_paying(entry: &Entry) -> Change
    ensures { result ≡ change_by_paying (Some entry.now) }
{
    match entry {
        Entry::SendOnce(port) | Entry::Receive(port) | Entry::ReceiveAndSend(port, _) => {
            Change::Queue(*port)
        }
        Entry::Send(..) | Entry::DeadName(_) | Entry::Set(_) => Change::Any,
    }
}

/// The right under the name is about to go, which counts no references.
#[inline(never)]
fn by_removing(world: &World, alloc: Global, task: TaskId, name: Name) -> Change
    ensures { ByLosingAll world.now (entry_at world.now task name) result }
{
    match world.lookup(task, name) {
        Some(entry) => Change::by_losing_all(world, alloc, &entry),
        None => Change::Any,
    }
}

/// Whether the task's names stand for send rights and dead names alone.
fn has_sends_alone(world: &World, task: TaskId) -> bool
    requires there { HasTask world.now task }
    requires stands { Stands world.now }
    ensures { IsTrue result ↔ HasSendsAlone world.now task }
{
    let space = world.space(task);
    let mut from = Name::null();
    while let Some(name) = space.next_name(from) {
        match space.lookup(name) {
            Some(entry) if is_send_or_dead(&entry) => from = Name::new(name.number() + 1),
            _ => return false,
        }
    }
    true
}

/// Whether this is a send right, or a dead name.
fn is_send_or_dead(entry: &Entry) -> bool
    ensures { result ≡ entry_is_send_or_dead entry.now }
{
    matches!(entry, Entry::Send(..) | Entry::DeadName(_))
}

/// Whether the port, whose receive right was destroyed, is all that the end of the step changes. So it is where nothing is
/// queued at it, no request is on it or on a name of it, and none was on a name that went.
fn dies_alone(world: &World, port: PortId) -> bool
    ensures { IsTrue result ↔ DiesAlone world.now port }
{
    is_unqueued(world, port) && is_unasked(world, port) && none_went(world)
}

/// Whether the port has no messages.
fn is_unqueued(world: &World, port: PortId) -> bool
    ensures { IsTrue result ↔ NoneQueued world.now.ports port }
{
    world.queued(port) == 0
}

/// Whether no request is on the port or on a name of it.
fn is_unasked(world: &World, port: PortId) -> bool
    ensures { IsTrue result ↔ IsUnasked world.now port }
{
    world.find_no_senders(port).is_none()
        && world.find_port_destroyed(port).is_none()
        && world.first_on_names(port).is_none()
}

/// Whether no request was on a name that went.
fn none_went(world: &World) -> bool
    ensures { IsTrue result ↔ (world.now.requests.names.went ≡ []) }
{
    world.first_went().is_none()
}

/// The port under the name is about to change its set, or its receive right goes to another place.
#[inline(never)]
fn by_moving(world: &World, task: TaskId, name: Name) -> Change
    ensures { result ≡ change_by_moving world.now task name }
{
    match named_port(world, task, name) {
        Some(port) => Change::by_moving_from(port, world.membership(port)),
        None => Change::Any,
    }
}

/// A message to the port takes along the receive right of another, which leaves this set, if it is in one.
fn by_taking_along(to: PortId, port: PortId, left: Option<SetId>) -> Change
    ensures { result ≡ change_by_taking_along to port left }
{
    match left {
        Some(left) => Change::AlongFrom(to, port, left),
        None => Change::Along(to, port),
    }
}

/// The same of two others, which leave these sets.
fn by_taking_two(
    to: PortId,
    a: PortId,
    b: PortId,
    left: Option<SetId>,
    other: Option<SetId>,
) -> Change
    ensures { result ≡ change_by_taking_two to a b left other }
{
    match (left, other) {
        (None, None) => Change::AlongTwo(to, a, b),
        (Some(set), None) | (None, Some(set)) => Change::AlongTwoFrom(to, a, b, set),
        (Some(set), Some(other)) => {
            if set == other {
                Change::AlongTwoFrom(to, a, b, set)
            } else {
                Change::Any
            }
        }
    }
}

/// The port's message is destroyed, with its reply right and the rights of its body. Linear in them.
fn by_destroying(port: PortId, queued: &Queued) -> Change
    ensures { result ≡ change_by_destroying port (option_to_list queued.now.reply ++ queued.now.rights) }
{
    let mut told = by_reply(port, queued.reply());
    for place in 0..queued.count_rights() {
        match queued.right_at(place) {
            Some(carried) => told = with_right(told, &carried),
            None => {}
        }
    }
    told
}

/// The same with its reply right alone, if it has one.
fn by_reply(port: PortId, reply: Option<Carried>) -> Change
    ensures { result ≡ change_by_destroying port (option_to_list reply) }
{
    match reply {
        Some(carried) => with_right(Change::Queue(port), &carried),
        None => Change::Queue(port),
    }
}

/// The same where the message has this right too.
fn with_right(told: Change, carried: &Carried) -> Change
    ensures { result ≡ change_with_right told (receive_of carried.now) (noticed_of carried.now) }
{
    if carried.receive_port().is_some() {
        return Change::Any;
    }
    match noticed_port(carried) {
        Some(noticed) => with_notice(told, noticed),
        None => told,
    }
}

/// The port that gets a notice where the right is lost: that of a send-once right.
fn noticed_port(carried: &Carried) -> Option<PortId>
    ensures { result ≡ noticed (kind_sent carried.now.given) carried.now.mark }
{
    match carried.mark {
        Mark::Port(port) if carried.given.is_send_once() => Some(port),
        _ => None,
    }
}

/// The same where this port gets a notice too.
fn with_notice(told: Change, noticed: PortId) -> Change
    ensures { result ≡ change_with_right told None (Some noticed) }
{
    match told {
        Change::Queue(port) => Change::Queues(port, noticed),
        _ => Change::Any,
    }
}

/// Whether the message surely gives no receive right: its body is raw bytes, and its reply right is another.
#[inline(always)]
fn has_no_receive_right(bytes: &[u8]) -> bool
    ensures { result ≡ gives_none bytes.now }
{
    if bytes.len() < 24 {
        return false;
    }
    let bits = read_word(bytes, 0);
    bits < 0x8000_0000 && bits % 256 != 16
}

/// A message with a list of items was received by the task: of a body of one right it is known at once whether that is a
/// receive right, and under which name it comes. Not in line, as most bodies are raw bytes.
#[inline(never)]
fn tell_items(task: TaskId, bytes: &[u8], told: &mut Change)
    ensures { told.new ≡ by_items task bytes.now }
{
    if !has_one_right(bytes) {
        tell_body(task, bytes, told);
        return;
    }
    let name = Name::new(read_word(bytes, 12));
    if read_word(bytes, 24) % 256 == 16 {
        *told = Change::ReceivedOne(task, name, Name::new(read_word(bytes, 28)));
    } else {
        *told = Change::QueueNamed(task, name);
    }
}

/// The same by all items of the body. Any port and any set, where the reply right is a receive right, or where more than
/// three receive rights come. Linear in the items and in the receive rights.
#[inline(never)]
fn tell_body(task: TaskId, bytes: &[u8], told: &mut Change)
    ensures { told.new ≡ by_body task bytes.now }
{
    if bytes.len() < 24 || read_word(bytes, 0) % 256 == 16 {
        *told = Change::Any;
        return;
    }
    let name = Name::new(read_word(bytes, 12));
    let (_, body) = bytes.split_at(24);
    *told = match Received::by(body) {
        Received::Nothing => Change::QueueNamed(task, name),
        Received::One(a) => Change::ReceivedOne(task, name, a),
        Received::Two(a, b) => Change::ReceivedTwo(task, name, a, b),
        Received::Three(a, b, c) => Change::ReceivedThree(task, name, a, b, c),
        Received::Several => Change::Any,
    };
}

/// Whether the message surely gives one right at most in its body, which is eight bytes long, and its reply right is no
/// receive right.
fn has_one_right(bytes: &[u8]) -> bool
    ensures { result ≡ gives_one bytes.now }
{
    bytes.len() == 32 && read_word(bytes, 0) % 256 != 16
}
