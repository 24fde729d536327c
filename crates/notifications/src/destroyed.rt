//! A message is destroyed in a step's own part.
ghost use Rattle.std.specs.Option.{option_to_list};
ghost use Rattle.mach_types.specs.Numbers.{kind_sent};
ghost use Rattle.copyin_base.specs.declared.Mark.TheVariants as mark;
ghost use Rattle.notifications.specs.Destroying.{LosesRight, LosesMark, LosesAll, DestroysMessage, CanLoseRight, CanLoseMark, CanLoseAll, CanDestroy};

use copyin_base::{Carried, Mark, Notice, Queued, World};
use copyout::{note_front, take_front};
use mach_types::{Disposition, PortId, Right};
use port::{Found, NOWHERE};

// A right of this kind for a port that is there is lost.
fn lose_kind(world: &mut World, given: Disposition, port: PortId)
    requires { CanLoseRight world.old (kind_sent given) port }
    ensures { LosesRight world.old (kind_sent given) port world.new }
{
    match given.kind() {
        Right::Receive => world.lose_receive(port),
        Right::Send => world.lose_sends(port, 1),
        Right::SendOnce => world.post(port, Notice::SendOnce),
        Right::PortSet | Right::DeadName => unreachable!(),
    }
}

// A right for the port is lost, where that is there.
fn lose_for(world: &mut World, given: Disposition, port: PortId)
    requires { CanLoseMark world.old (kind_sent given) (mark.Port port) }
    ensures { LosesMark world.old (kind_sent given) (mark.Port port) world.new }
{
    if world.has_port(port) {
        lose_kind(world, given, port);
    }
}

// A right that a message carried is lost.
fn lose_right(world: &mut World, carried: &Carried)
    requires { CanLoseMark world.old (kind_sent carried.now.given) carried.now.mark }
    ensures { LosesMark world.old (kind_sent carried.now.given) carried.now.mark world.new }
{
    match carried.mark {
        Mark::Port(port) => lose_for(world, carried.given, port),
        Mark::Null | Mark::Dead => {}
    }
}

// The right to answer with is lost, if there is one.
fn lose_reply(world: &mut World, reply: Option<Carried>)
    requires { CanLoseAll world.old (option_to_list reply) }
    ensures { LosesAll world.old (option_to_list reply) world.new }
{
    if let Some(carried) = reply {
        lose_right(world, &carried);
    }
}

// The rights of the message's body are lost. Linear in them.
fn lose_body(world: &mut World, queued: &Queued)
    requires { CanLoseAll world.old queued.now.rights }
    ensures { LosesAll world.old queued.now.rights world.new }
{
    for place in 0..queued.count_rights() {
        match queued.right_at(place) {
            Some(carried) => lose_right(world, &carried),
            None => {}
        }
    }
}

/// Destroys the port's front message. Its number is used, the right by which it came is used up, and what
/// else it carries is lost. A port whose receive right it carries is lost, and a send-once right tells its
/// port.
///
/// Takes no memory and cannot fail. Linear in the rights that it carries.
pub fn lose_message(world: &mut World, port: PortId)
    requires { CanDestroy world.old port }
    ensures { DestroysMessage world.old port world.new }
{
    let place = NOWHERE;
    let queued = take_front(world, Found { port, place });
    note_front(world, port, queued.by_once());
    lose_reply(world, queued.reply());
    lose_body(world, &queued);
}
