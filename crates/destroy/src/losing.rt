//! Loses the rights of messages that were destroyed.
ghost use Rattle.std.specs.Prelude.{◌≡◌, []};
ghost use Rattle.std.specs.Option.{option_to_list};
ghost use Rattle.destroy.specs.Losing.{CanLose, CanLoseOf, IsLosing, LosesOf, LosesRight, LosesTo, carried_in};
ghost use Rattle.destroy.specs.Stages.{AreLost, Continues, IsAt, IsJudged};
ghost use Rattle.mach_types.specs.Numbers.{kind_sent};

use crate::paying::lives;
use copyin_base::{Carried, Mark, Notice, Queued, Slot, World};
use mach_types::{Disposition, PortId, Right};

/// Loses the rights of each message that was destroyed, except for those for ports that don't live. Returns
/// how many.
pub(crate) fn lose_messages(world: &mut World) -> u64
    requires { IsAt IsJudged world.old }
    ensures continues { Continues IsJudged AreLost world.old result world.new }
    ensures spaces { world.new.spaces ≡ world.old.spaces }
{
    let mut turns: u64 = 0;
    while let Some(queued) = world.take_destroyed() {
        turns = turns.saturating_add(lose_rights(world, &queued));
    }
    turns
}

// The rights that the message carries are lost, but for those for ports that don't live.
fn lose_rights(world: &mut World, queued: &Queued) -> u64
    requires { IsLosing (carried_in queued.now) world.old }
    ensures loses { LosesTo (carried_in queued.now) [] world.old result world.new }
    ensures spaces { world.new.spaces ≡ world.old.spaces }
{
    let Slot::Sent(message) = &queued.slot else {
        return 0;
    };
    let replied = lose_reply(world, message.reply());
    replied.saturating_add(lose_body(world, message.rights().as_slice()))
}

fn lose_reply(world: &mut World, reply: Option<Carried>) -> u64
    requires { IsLosing (option_to_list reply) world.old }
    ensures loses { LosesTo (option_to_list reply) [] world.old result world.new }
    ensures spaces { world.new.spaces ≡ world.old.spaces }
{
    match reply {
        Some(carried) => lose_right(world, &carried),
        None => 0,
    }
}

fn lose_body(world: &mut World, rights: &[Carried]) -> u64
    requires { IsLosing rights.now world.old }
    ensures loses { LosesTo rights.now [] world.old result world.new }
    ensures spaces { world.new.spaces ≡ world.old.spaces }
{
    let mut turns: u64 = 0;
    for carried in rights {
        turns = turns.saturating_add(lose_right(world, carried));
    }
    turns
}

// A right for a port that lives is lost. A receive right is lost as its message is destroyed.
fn lose_right(world: &mut World, carried: &Carried) -> u64
    requires { CanLose world.old carried.now }
    ensures { LosesRight world.old carried.now result world.new }
{
    match &carried.mark {
        Mark::Null => 0,
        Mark::Dead => 0,
        Mark::Port(port) => {
            if lives(world, *port) {
                lose_for(world, *port, carried.given)
            } else {
                0
            }
        }
    }
}

fn lose_for(world: &mut World, port: PortId, given: Disposition) -> u64
    requires { CanLoseOf (kind_sent given) port world.old }
    ensures { LosesOf (kind_sent given) port world.old result world.new }
{
    match given.kind() {
        Right::Send => {
            world.lose_sends(port, 1);
            1
        }
        Right::SendOnce => {
            world.post(port, Notice::SendOnce);
            1
        }
        Right::Receive | Right::PortSet | Right::DeadName => 0,
    }
}
