//! The attributes of a port, read and set.
ghost use Rattle.std.specs.Prelude.{◌≡◌, true, is_some};
ghost use Rattle.port.specs.Holding.{CanHold, KeepsHolder, KeepsSet};
ghost use Rattle.copyin_base.specs.Changes.{HasAttributes, SetsAttributes, SetsHolder};
ghost use Rattle.copyin_base.specs.Worlds.{NoneLost, port_at};

use crate::world::World;
use mach_types::PortId;
use port::{Attributes, Holder};

impl World {
    /// The attributes of a port that is there. Constant time.
    #[inline(always)]
    pub fn attributes(&self, port: PortId) -> Attributes
        requires { is_some (port_at self.now port) ≡ true }
        ensures { HasAttributes self.now port result }
    {
        let Some(attributes) = self.ports.attributes(port) else {
            unreachable!()
        };
        attributes
    }

    /// Sets the limit and the counts of a port that is there; its sets stay, and who holds its receive right.
    /// Takes no memory. Constant time.
    pub fn set_attributes(&mut self, port: PortId, attributes: Attributes)
        requires there { is_some (port_at self.old port) ≡ true }
        requires holder { KeepsHolder self.old.ports port attributes }
        requires set { KeepsSet self.old.ports port attributes }
        ensures { SetsAttributes self.old port attributes self.new }
    {
        self.ports.set_attributes(port, attributes);
    }

    /// Says which task, or the queue of which port, holds the receive right of a port that is there now.
    /// No port is lost or doomed yet. Takes no memory. Constant time.
    pub fn set_holder(&mut self, port: PortId, holder: Holder)
        requires there { is_some (port_at self.old port) ≡ true }
        requires can { CanHold holder }
        requires none_lost { NoneLost self.old }
        ensures { SetsHolder self.old port holder self.new }
    {
        self.ports.hold(port, holder);
    }
}
