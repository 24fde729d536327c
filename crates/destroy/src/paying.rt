//! Pays for notices with the rights that requests kept; first those of requests whose names went.
ghost use Rattle.std.specs.Prelude.{◌≡◌, ◌↔◌, IsTrue};
ghost use Rattle.copyin_base.specs.declared.Notice.{Notice as AnyNotice};
ghost use Rattle.copyin_base.specs.Losing.{CanPost};
ghost use Rattle.destroy.specs.Paying.{LivesIn, Pays, PaysMany};
ghost use Rattle.destroy.specs.Stages.{IsMidway, Starts, TellsDoomed, TellsLost};

use copyin_base::{Notice, World};
use mach_types::PortId;
use port::Holder;

/// Returns whether the port is there and isn't doomed. Constant time.
pub(crate) fn lives(world: &World, port: PortId) -> bool
    ensures { IsTrue result ↔ LivesIn world.now port }
{
    match world.find_attributes(port) {
        Some(attributes) => !matches!(attributes.holder, Holder::Doomed),
        None => false,
    }
}

/// Pays for a notice with the right that a request kept, where its port lives. Returns how many notices were
/// paid for. Constant time.
pub(crate) fn pay(world: &mut World, notify: PortId, notice: Notice) -> u64
    requires { LivesIn world.old notify → CanPost world.old notify }
    ensures pays { Pays world.old notify notice world.new }
    ensures many { PaysMany world.old notify result }
{
    if !lives(world, notify) {
        return 0;
    }
    world.post(notify, notice);
    1
}

/// Pays with the right of each request whose name went. Ports are judged later, so each port that is there
/// gets the notice. Linear in these requests.
pub(crate) fn pay_for_names(world: &mut World)
    requires midway { IsMidway world.old }
    requires lost { TellsLost world.old }
    requires doomed { TellsDoomed world.old }
    ensures starts { Starts world.old world.new }
    ensures spaces { world.new.spaces ≡ world.old.spaces }
{
    while let Some(request) = world.take_went() {
        pay(world, request.notify, Notice::PortDeleted(request.name));
    }
}
