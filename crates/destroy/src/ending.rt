//! The end of a step.
ghost use Rattle.std.specs.Prelude.{◌↔◌, IsTrue};
ghost use Rattle.copyin_base.specs.Worlds.{IsIdle};
ghost use Rattle.destroy.specs.Stages.{IsMidway, KeepsRooms, SettlesIn, TellsDoomed, TellsLost};

use crate::burials::bury_ports;
use crate::judging::judge_ports;
use crate::losing::lose_messages;
use crate::paying::pay_for_names;
use crate::telling::tell_senderless;
use copyin_base::World;

/// Ends a step. Ports that lost their receive rights are sent away, or die with all that is queued. Notices
/// tell of rights that were lost and of ports without senders. Returns in how many turns; 2^64 - 1 where
/// there are more.
///
/// A turn is a port judged, a message destroyed, a right of such a message lost, or a right of a request that
/// ends, where it pays for the notice. Each task keeps its room for names. Takes no memory and cannot fail.
/// Linear in the turns, the requests that end and the rights that messages carry. Constant where nothing was
/// left to do.
pub fn settle(world: &mut World) -> u64
    requires { IsMidway world.old }
    ensures settles { SettlesIn world.old result world.new }
    ensures rooms { KeepsRooms world.old world.new }
{
    if is_idle(world) {
        return 0;
    }
    settle_parts(world)
}

/// Returns whether a step's own part left nothing to do; the lists of ports tell whom nobody holds. Constant
/// time.
pub fn is_idle(world: &World) -> bool
    ensures idle { IsTrue result ↔ IsIdle world.now }
    ensures lost { TellsLost world.now }
    ensures doomed { TellsDoomed world.now }
{
    world.are_ports_idle() & world.first_went().is_none()
}

// Ends a step, part by part.
#[inline(never)]
fn settle_parts(world: &mut World) -> u64
    requires midway { IsMidway world.old }
    requires lost { TellsLost world.old }
    requires doomed { TellsDoomed world.old }
    ensures settles { SettlesIn world.old result world.new }
    ensures rooms { KeepsRooms world.old world.new }
{
    pay_for_names(world);
    let judged = judge_ports(world);
    let lost = lose_messages(world);
    let told = tell_senderless(world);
    let ended = bury_ports(world);
    judged
        .saturating_add(lost)
        .saturating_add(told)
        .saturating_add(ended)
}
