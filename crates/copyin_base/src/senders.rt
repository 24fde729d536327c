//! Ports that lose their last send right.
ghost use Rattle.std.specs.Prelude.{◌≡◌, ◌↔◌, IsTrue};
ghost use Rattle.port.specs.Ports.{rights_for};
ghost use Rattle.copyin_base.specs.Changes.{IsSenderless, NotesSenderless};

use crate::world::World;
use mach_types::PortId;
use port::Ports;
use tables_base::Queued;

// Whether the port has no send rights.
fn has_no_sends(ports: &Ports<Queued>, port: PortId) -> bool
    ensures { IsTrue result ↔ ((rights_for ports.now port).send ≡ 0) }
{
    match ports.counts(port) {
        Some(counts) => counts.send == 0,
        None => true,
    }
}

impl World {
    // Whether the port is there and has no send rights, and a request stands to be told of that.
    fn is_senderless(&self, port: PortId) -> bool
        ensures { IsTrue result ↔ IsSenderless self.now port }
    {
        self.requests.no_senders.get(port.number()).is_some()
            && self.ports.contains(port)
            && has_no_sends(&self.ports, port)
    }

    /// Notes the port for the end of the step where it is there, has no send rights, and a request stands
    /// to be told of that (Port Manipulation Interface, `mach_port_request_notification`). Each call asks
    /// for this where a send right of the port went.
    ///
    /// Takes no memory. Constant time.
    pub fn note_senderless(&mut self, port: PortId)
        ensures { NotesSenderless self.old port self.new }
    {
        if self.is_senderless(port) {
            self.ports.note(port);
        }
    }
}
