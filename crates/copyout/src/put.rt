//! Putting a right under a name that the caller chose.
ghost use Rattle.mach_types.specs.Numbers.{kind_sent};
ghost use Rattle.copyout.specs.Putting.{CanPut, PutsPort};

use crate::give::{join, put_alone};
use copyin_base::World;
use mach_types::{Disposition, Name, PortId, TaskId};
use name_space::PortName;

/// Gives the task a right for a port that is there, under this name: the task's name for the port, or one
/// that isn't in use (Port Manipulation Interface, `mach_port_insert_right`). The port of a receive right
/// knows that the task holds it.
///
/// A name that isn't in use has a place that was made. It is the fresh one where there is room for one, or
/// the one for which a place is kept. Takes no memory. Constant time, and logarithmic for a name above
/// 65,535.
pub fn put_right(world: &mut World, task: TaskId, given: Disposition, port: PortId, name: Name)
    requires { CanPut world.old task (kind_sent given) port name }
    ensures { PutsPort world.old task (kind_sent given) port name world.new }
{
    match world.lookup(task, name) {
        Some(entry) => join(world, task, given, port, &PortName { name, entry }),
        None => put_alone(world, task, given, port, name),
    }
}
