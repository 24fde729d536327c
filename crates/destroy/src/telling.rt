//! Posts the notices of ports that lost their last send rights.
ghost use Rattle.std.specs.Prelude.{◌≡◌, ◌↔◌, ◌<◌, IsTrue};
ghost use Rattle.rights.specs.Ledger.{counts_of};
ghost use Rattle.destroy.specs.Stages.{AreLost, AreTold, IsAt, Continues};
ghost use Rattle.destroy.specs.Telling.{CanTell, TellsOf};

use crate::paying::{lives, pay};
use copyin_base::{Notice, World};
use mach_types::PortId;

/// Posts a no-senders notice for each port that was noted, lives, and still has no senders, where that was
/// asked for. Returns how many.
pub(crate) fn tell_senderless(world: &mut World) -> u64
    requires { IsAt AreLost world.old }
    ensures continues { Continues AreLost AreTold world.old result world.new }
    ensures spaces { world.new.spaces ≡ world.old.spaces }
{
    let mut turns: u64 = 0;
    while let Some(port) = world.take_noted() {
        turns = turns.saturating_add(tell_no_senders(world, port));
    }
    turns
}

// Tells of a port that lives that it has no senders, where that was asked for and the notify port lives.
// Answers how many were told.
fn tell_no_senders(world: &mut World, port: PortId) -> u64
    requires { CanTell world.old port }
    ensures { TellsOf world.old port result world.new }
{
    if !lives(world, port) || has_senders(world, port) {
        return 0;
    }
    let made = world.attributes(port).make_send;
    let Some(notify) = world.take_no_senders(port) else {
        return 0;
    };
    pay(world, notify, Notice::NoSenders(made))
}

fn has_senders(world: &World, port: PortId) -> bool
    ensures { IsTrue result ↔ (0 < (counts_of world.now.ledger port).send) }
{
    match world.counts(port) {
        Some(counts) => counts.send > 0,
        None => false,
    }
}
