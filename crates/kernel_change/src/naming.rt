//! The ports and sets that a change names.
ghost use Rattle.std.specs.Prelude.{◌≡◌, [], ◌∷◌, Some, None, IfOk, OnOk, OnErr, true, false};
ghost use Rattle.std.specs.Option.{option_map, option_to_list};
ghost use Rattle.copyin_base.specs.Worlds.{sets_at};
ghost use Rattle.mach_types.specs.declared.calls.Waited.TheVariants as waited;
ghost use Rattle.mach_types.specs.declared.touched.Touched.TheVariants.{Few};
ghost use Rattle.kernel_change.specs.Changing.{few, named_left, port_under, has_more, lone, unwrap_or_all, with_sets as touched_with_sets, named_received, named_three, named_two, named_along, named_two_left, made_last};

use copyin_base::World;
use mach_types::{Name, PortId, SetId, TaskId, Touched, Waited};
use port::Membership;

/// A port is in several sets, where there is a place for one.
pub(crate) struct InSeveral;

/// The set that a port is in, if there is such a port and it is in one; an error, where it is in several. Constant time.
pub(crate) fn lone_set(world: &World, port: PortId) -> Result<Option<SetId>, InSeveral>
    ensures ok { IfOk result (λ set. sets_at world.now port ≡ option_to_list set) }
    ensures err { OnErr result (has_more (sets_at world.now port) ≡ true) }
{
    match world.membership(port) {
        Membership::Nowhere => Ok(None),
        Membership::Alone(set) => Ok(Some(SetId::new(set))),
        Membership::Several(_) => Err(InSeveral),
    }
}

/// The same to name it.
pub(crate) fn named_set(world: &World, port: PortId) -> Result<Option<Waited>, InSeveral>
    ensures ok { IfOk result (λ named. named ≡ lone (sets_at world.now port)) }
    ensures one { OnOk result (has_more (sets_at world.now port) ≡ false) }
    ensures err { OnErr result (has_more (sets_at world.now port) ≡ true) }
{
    let set = lone_set(world, port)?;
    Ok(set.map(Waited::Set))
}

/// These two, where there are any.
pub(crate) fn name_both(first: Option<Waited>, second: Option<Waited>) -> Touched
    ensures { result ≡ few first second }
{
    Touched::Few([first, second, None, None])
}

/// The port that was made last.
pub(crate) fn name_last(world: &World) -> Touched
    ensures { result ≡ made_last world.now }
{
    if world.are_ports_exhausted() {
        return Touched::All;
    }
    let next = world.next_port().number();
    name_both(
        Some(Waited::Port(PortId::new(next.saturating_sub(1)))),
        None,
    )
}

/// The port under the name.
pub(crate) fn named_port(world: &World, task: TaskId, name: Name) -> Option<PortId>
    ensures { result ≡ port_under world.now task name }
{
    world.lookup(task, name)?.port()
}

/// The port, if there is one, and its sets. Any port and any set, where it is in more than three.
pub(crate) fn name_with_sets(world: &World, port: Option<PortId>) -> Touched
    ensures { result ≡ touched_with_sets world.now port }
{
    let Some(port) = port else {
        return name_both(None, None);
    };
    match named_set(world, port) {
        Ok(set) => name_both(Some(Waited::Port(port)), set),
        Err(InSeveral) => name_several(world, port),
    }
}

/// The port, and its sets. Any port and any set, where it is in more than three: no more of them are looked at.
#[inline(never)]
pub(crate) fn name_several(world: &World, port: PortId) -> Touched
    ensures { result ≡ touched_with_sets world.now (Some port) }
{
    let Some(mut sets) = world.sets_of(port) else {
        return name_both(Some(Waited::Port(port)), None);
    };
    let first = sets.next_set();
    let second = sets.next_set();
    let third = sets.next_set();
    if sets.next_set().is_some() {
        return Touched::All;
    }
    Touched::Few([
        Some(Waited::Port(port)),
        first.map(Waited::Set),
        second.map(Waited::Set),
        third.map(Waited::Set),
    ])
}

/// Two ports, and their sets.
pub(crate) fn name_two(world: &World, a: PortId, b: PortId) -> Result<Touched, InSeveral>
    ensures { unwrap_or_all result ≡ named_two world.now a b }
{
    Ok(Touched::Few([
        Some(Waited::Port(a)),
        named_set(world, a)?,
        Some(Waited::Port(b)),
        named_set(world, b)?,
    ]))
}

/// The port and its set, and the other, with the set that it left, if it left one.
pub(crate) fn name_along(
    world: &World,
    to: PortId,
    port: PortId,
    left: Option<SetId>,
) -> Result<Touched, InSeveral>
    ensures { unwrap_or_all result ≡ named_along world.now to port left }
{
    Ok(Touched::Few([
        Some(Waited::Port(to)),
        named_set(world, to)?,
        Some(Waited::Port(port)),
        left.map(Waited::Set),
    ]))
}

/// The port, the two others, and the set that these left. Any port and any set, where the first is in another set.
pub(crate) fn name_two_left(
    world: &World,
    to: PortId,
    a: PortId,
    b: PortId,
    left: SetId,
) -> Result<Touched, InSeveral>
    ensures { unwrap_or_all result ≡ named_two_left world.now to a b left }
{
    match lone_set(world, to)? {
        Some(own) if own != left => Ok(Touched::All),
        _ => {
            Ok(Touched::Few([
                Some(Waited::Port(to)),
                Some(Waited::Port(a)),
                Some(Waited::Port(b)),
                Some(Waited::Set(left)),
            ]))
        }
    }
}

/// The port under the name, and its set, and the port under the other.
pub(crate) fn name_received_one(
    world: &World,
    task: TaskId,
    name: Name,
    a: Name,
) -> Result<Touched, InSeveral>
    ensures { unwrap_or_all result ≡ named_received world.now (port_under world.now task name) (port_under world.now task a) None }
{
    name_received(
        world,
        named_port(world, task, name),
        named_port(world, task, a),
        None,
    )
}

/// The port under the name, and its set, and the ports under the two others.
pub(crate) fn name_received_two(
    world: &World,
    task: TaskId,
    name: Name,
    a: Name,
    b: Name,
) -> Result<Touched, InSeveral>
    ensures { unwrap_or_all result ≡ named_received world.now (port_under world.now task name) (port_under world.now task a) (port_under world.now task b) }
{
    name_received(
        world,
        named_port(world, task, name),
        named_port(world, task, a),
        named_port(world, task, b),
    )
}

/// The port, if there is one, and its set, and the two others, where they are there.
pub(crate) fn name_received(
    world: &World,
    port: Option<PortId>,
    a: Option<PortId>,
    b: Option<PortId>,
) -> Result<Touched, InSeveral>
    ensures { unwrap_or_all result ≡ named_received world.now port a b }
{
    let Some(port) = port else {
        return Ok(name_both(None, None));
    };
    Ok(Touched::Few([
        Some(Waited::Port(port)),
        named_set(world, port)?,
        a.map(Waited::Port),
        b.map(Waited::Port),
    ]))
}

/// The port under the name, and the ports under the three others.
pub(crate) fn name_received_three(
    world: &World,
    task: TaskId,
    name: Name,
    given: (Name, Name, Name),
) -> Touched
    ensures { result ≡ named_three world.now (port_under world.now task name) (port_under world.now task given.0) (port_under world.now task given.1) (port_under world.now task given.2) }
{
    let Some(port) = named_port(world, task, name) else {
        return name_both(None, None);
    };
    let others = (
        named_port(world, task, given.0),
        named_port(world, task, given.1),
        named_port(world, task, given.2),
    );
    name_three(world, port, others)
}

/// The port, and the three others, where they are there. Any port and any set, where the first is in a set.
pub(crate) fn name_three(
    world: &World,
    port: PortId,
    others: (Option<PortId>, Option<PortId>, Option<PortId>),
) -> Touched
    ensures { result ≡ named_three world.now (Some port) others.0 others.1 others.2 }
{
    match world.membership(port) {
        Membership::Nowhere => {
            Touched::Few([
                Some(Waited::Port(port)),
                others.0.map(Waited::Port),
                others.1.map(Waited::Port),
                others.2.map(Waited::Port),
            ])
        }
        Membership::Alone(_) | Membership::Several(_) => Touched::All,
    }
}

/// The port, the set that it is in, if any, and the one that it left.
pub(crate) fn name_left(world: &World, port: PortId, left: SetId) -> Result<Touched, InSeveral>
    ensures { unwrap_or_all result ≡ named_left world.now port left }
{
    Ok(Touched::Few([
        Some(Waited::Port(port)),
        named_set(world, port)?,
        Some(Waited::Set(left)),
        None,
    ]))
}

/// The set that was destroyed, and its two or three members.
pub(crate) fn name_members(set: SetId, a: PortId, b: PortId, c: Option<PortId>) -> Touched
    ensures { result ≡ Few (Some (waited.Set set) ∷ Some (waited.Port a) ∷ Some (waited.Port b) ∷ option_map waited.Port c ∷ []) }
{
    Touched::Few([
        Some(Waited::Set(set)),
        Some(Waited::Port(a)),
        Some(Waited::Port(b)),
        c.map(Waited::Port),
    ])
}
