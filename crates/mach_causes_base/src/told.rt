//! Whether a cause may be told.
ghost use Rattle.std.specs.Prelude.{IsTrue};
ghost use Rattle.mach_model.specs.State.{State};
ghost use Rattle.copyin_base.specs.Shows.{Shows};
ghost use Rattle.mach_causes_base.specs.Codes.{IsCode};
ghost use Rattle.mach_causes_base.specs.Facts.{IsTrueIn};

use crate::cause::Cause;
use crate::codes::suits;
use crate::facts::is_true;
use copyin_base::World;

/// Whether a call that has this cause is refused with this code, and what the cause tells of the state is true in each state
/// that the tables show. Constant time, but for a loop of queues: there it is linear in the way from the message's
/// destination.
pub fn is_so(world: &World, cause: &Cause, code: u32) -> bool
    ensures code { IsTrue result → IsCode cause.now code }
    ensures holds { (s : State) → Shows world.now s → IsTrue result → IsTrueIn s cause.now.reason }
{
    suits(cause, code) && is_true(world, &cause.reason)
}
