//! How many names of the receiver the rights of a message need.
ghost use Rattle.std.specs.Prelude.{◌≡◌, ◌≢◌, ℕ, ◌+◌, ◌<◌, ◌≤◌, ◌↔◌, ◌++◌, ◌%◌, [], ◌∷◌, List, Some, None, is_some, true, false, IsTrue, MatchBool, MatchOption, IfSome, IfNone, length, slice_set};
ghost use Rattle.mach_types.specs.Numbers.{kind_sent};
ghost use Rattle.mach_types.specs.Tokens.{send_once};
ghost use Rattle.name_space.specs.Names.{SpaceView, port_at};
ghost use Rattle.copyin_base.specs.declared.Carried.{Carried as AnyCarried};
ghost use Rattle.copyin_base.specs.declared.Mark.TheVariants as mark;
ghost use Rattle.std.specs.Option.{option_to_list};
ghost use Rattle.copyin_base.specs.Queued.{notice_kept};
ghost use Rattle.copyout.specs.Ready.{carried_by};
ghost use Rattle.copyout.specs.Room.{names_port, named_by, HasNone, Owns, OwnsAlone, Shares, Needs, IsMarked, Marks};

use copyin_base::{Carried, Mark, Message, Notice, Queued, Slot, TaskNames, World};
use mach_types::{Disposition, Name, PortId};

// So few rights are all compared with those before them.
const FEW: usize = 8;

// In so many places the ports of more rights are marked.
const PLACES: usize = 1024;

// Whether the receiver has a name for the port once the right was given.
fn names_port(carried: &Carried, port: PortId) -> bool
    ensures { result ≡ names_port (kind_sent carried.now.given) carried.now.mark port }
{
    match &carried.mark {
        Mark::Port(named) => !carried.given.is_send_once() && named.number() == port.number(),
        Mark::Null | Mark::Dead => false,
    }
}

// Whether one of the rights gives a name for the port.
fn is_named_by(carried: &[Carried], port: PortId) -> bool
    ensures { result ≡ named_by carried.now port }
{
    for one in carried {
        if names_port(one, port) {
            return true;
        }
    }
    false
}

// Whether the right to answer with gives a name for the port.
fn reply_names(reply: &Option<Carried>, port: PortId) -> bool
    ensures { result ≡ named_by (option_to_list reply.now) port }
{
    match reply {
        Some(carried) => names_port(carried, port),
        None => false,
    }
}

/// The name under which the right comes, if the task has one for the port: a send-once right never
/// shares a name.
pub(crate) fn shared_name(space: &TaskNames<'_>, given: Disposition, port: PortId) -> Option<Name>
    ensures some { IfSome result (λ name. (kind_sent given ≢ send_once) × (port_at space.now.names name ≡ Some port)) }
    ensures none { IfNone result (kind_sent given ≢ send_once → HasNone space.now.names port) }
{
    if given.is_send_once() {
        None
    } else {
        space.name_of_port(port)
    }
}

// Where a port is marked.
fn place_of(marks: &[bool], port: PortId) -> usize
    requires { 0 < length marks.now }
    ensures { result ≡ port % length marks.now }
{
    (port.number() % marks.len() as u64) as usize
}

// Whether the right to answer with, or an earlier one, gives a name for the port, which is marked then:
// they are compared only where it is.
fn is_named_before(
    marks: &[bool],
    reply: &Option<Carried>,
    earlier: &[Carried],
    port: PortId,
) -> bool
    requires some { 0 < length marks.now }
    requires marked { named_by (option_to_list reply.now ++ earlier.now) port ≡ true → IsMarked marks.now port }
    ensures { result ≡ named_by (option_to_list reply.now ++ earlier.now) port }
{
    marks[place_of(marks, port)] && (reply_names(reply, port) || is_named_by(earlier, port))
}

// Marks a port.
fn mark_port(marks: &mut [bool], port: PortId)
    requires { 0 < length marks.old }
    ensures { marks.new ≡ slice_set marks.old (port % length marks.old) true }
{
    let place = place_of(marks, port);
    marks[place] = true;
}

// Whether the right needs a name of its own, behind the earlier ones. Each port that these name, and
// the task doesn't, is marked, and so is the right's then.
#[inline(always)]
fn needs_own(
    world: &World,
    space: &TaskNames<'_>,
    reply: &Option<Carried>,
    earlier: &[Carried],
    carried: &Carried,
    marks: &mut [bool],
) -> bool
    requires some { 0 < length marks.old }
    requires marked { Marks marks.old space.now.names (option_to_list reply.now ++ earlier.now) }
    ensures some { length marks.new ≡ length marks.old }
    ensures marked { Marks marks.new space.now.names ((option_to_list reply.now ++ earlier.now) ++ carried.now ∷ []) }
    ensures needs { MatchBool result (Owns world.now.ports space.now.names (option_to_list reply.now ++ earlier.now) carried.now)
        (Shares world.now.ports space.now.names (option_to_list reply.now ++ earlier.now) carried.now) }
{
    let Mark::Port(port) = carried.mark else {
        return false;
    };
    if carried.given.is_send_once() {
        return world.has_port(port);
    }
    if space.name_of_port(port).is_some() {
        return false;
    }
    if is_named_before(marks, reply, earlier, port) {
        return false;
    }
    mark_port(marks, port);
    world.has_port(port)
}

// How many names of its own the right needs, behind the earlier ones: 1 or none.
#[inline(always)]
fn own_names(
    world: &World,
    space: &TaskNames<'_>,
    reply: &Option<Carried>,
    earlier: &[Carried],
    carried: &Carried,
    marks: &mut [bool],
) -> usize
    requires some { 0 < length marks.old }
    requires marked { Marks marks.old space.now.names (option_to_list reply.now ++ earlier.now) }
    ensures few { result ≤ 1 }
    ensures some { length marks.new ≡ length marks.old }
    ensures marked { Marks marks.new space.now.names ((option_to_list reply.now ++ earlier.now) ++ carried.now ∷ []) }
    ensures needs { (rest : List AnyCarried) (m : ℕ) → Needs world.now.ports space.now.names ((option_to_list reply.now ++ earlier.now) ++ carried.now ∷ []) rest m
        → Needs world.now.ports space.now.names (option_to_list reply.now ++ earlier.now) (carried.now ∷ rest) (result + m) }
{
    if needs_own(world, space, reply, earlier, carried, marks) {
        1
    } else {
        0
    }
}

// How many names of its own the right to answer with needs. Its port is marked.
fn reply_own(
    world: &World,
    space: &TaskNames<'_>,
    reply: &Option<Carried>,
    marks: &mut [bool],
) -> usize
    requires some { 0 < length marks.old }
    ensures few { result ≤ 1 }
    ensures some { length marks.new ≡ length marks.old }
    ensures marked { Marks marks.new space.now.names (option_to_list reply.now) }
    ensures needs { (rest : List AnyCarried) (m : ℕ) → Needs world.now.ports space.now.names (option_to_list reply.now) rest m → Needs world.now.ports space.now.names [] (option_to_list reply.now ++ rest) (result + m) }
{
    match reply {
        Some(carried) => own_names(world, space, &None, &[], carried, marks),
        None => 0,
    }
}

// How many names of their own the rights need, that to answer with first. The marks are of any kind.
fn count_names(
    world: &World,
    space: &TaskNames<'_>,
    reply: &Option<Carried>,
    rights: &[Carried],
    marks: &mut [bool],
) -> usize
    requires { 0 < length marks.old }
    ensures { Needs world.now.ports space.now.names [] (option_to_list reply.now ++ rights.now) result }
{
    let mut count = reply_own(world, space, reply, marks);
    for i in 0..rights.len() {
        count += own_names(world, space, reply, &rights[..i], &rights[i], marks);
    }
    count
}

// How many names of their own many rights need, that to answer with first. Its marks stand apart.
#[inline(never)]
fn count_many(
    world: &World,
    space: &TaskNames<'_>,
    reply: &Option<Carried>,
    rights: &[Carried],
) -> usize
    ensures { Needs world.now.ports space.now.names [] (option_to_list reply.now ++ rights.now) result }
{
    count_names(world, space, reply, rights, &mut [false; PLACES])
}

// How many names of their own the rights need, that to answer with first.
fn count_all(
    world: &World,
    space: &TaskNames<'_>,
    reply: &Option<Carried>,
    rights: &[Carried],
) -> usize
    ensures { Needs world.now.ports space.now.names [] (option_to_list reply.now ++ rights.now) result }
{
    if rights.len() > FEW {
        count_many(world, space, reply, rights)
    } else {
        count_names(world, space, reply, rights, &mut [false; 1])
    }
}

/// The port for which a right that is the only one needs a name of its own, if it needs one: it is
/// compared with none.
#[inline(always)]
pub(crate) fn own_port(world: &World, space: &TaskNames<'_>, carried: &Carried) -> Option<PortId>
    ensures { MatchOption result (Shares world.now.ports space.now.names [] carried.now) (λ port. OwnsAlone world.now.ports space.now.names carried.now port) }
{
    let Mark::Port(port) = &carried.mark else {
        return None;
    };
    if shared_name(space, carried.given, *port).is_some() {
        return None;
    }
    if world.has_port(*port) {
        Some(*port)
    } else {
        None
    }
}

// How many names of its own a right needs that is the only one: 1 or none.
fn lone_names(world: &World, space: &TaskNames<'_>, carried: &Carried) -> usize
    ensures { Needs world.now.ports space.now.names [] (carried.now ∷ []) result }
{
    match own_port(world, space, carried) {
        Some(_) => 1,
        None => 0,
    }
}

// How many names of their own the rights of a message that was sent need.
fn room_of_sent(world: &World, space: &TaskNames<'_>, message: &Message) -> usize
    ensures { Needs world.now.ports space.now.names [] (carried_by message.now) result }
{
    let rights = message.rights();
    let rights = rights.as_slice();
    match (&message.reply(), rights.len()) {
        (None, 0) => 0,
        (None, 1) => lone_names(world, space, &rights[0]),
        (Some(carried), 0) => lone_names(world, space, carried),
        (reply, _) => count_all(world, space, reply, rights),
    }
}

// How many names of its own the right that a notice carries needs.
fn room_of_notice(world: &World, space: &TaskNames<'_>, notice: &Notice) -> usize
    ensures { Needs world.now.ports space.now.names [] (carried_by (notice_kept notice.now)) result }
{
    match notice.carried() {
        Some(carried) => lone_names(world, space, &carried),
        None => 0,
    }
}

/// Returns how many names of their own the rights of the message need. The task has exactly so many more
/// names once they were given.
///
/// Takes no memory. Linear in the number of rights up to 1,000. With more, rights for ports that the task has
/// no name for are compared with some of those before them.
pub fn room_needed(world: &World, space: &TaskNames<'_>, queued: &Queued) -> usize
    ensures { Needs world.now.ports space.now.names [] (carried_by queued.now) result }
{
    match &queued.slot {
        Slot::Sent(message) => room_of_sent(world, space, message),
        Slot::Told(notice) => room_of_notice(world, space, notice),
    }
}
