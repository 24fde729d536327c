//! Messages that are queued and taken, and send rights that are counted as made.
ghost use Rattle.std.specs.Prelude.{◌≡◌, ◌<◌, None, Some, is_some, slice_get, true};
ghost use Rattle.std.specs.Option.{option_and_then};
ghost use Rattle.mach_types.specs.Numbers.{most_rights};
ghost use Rattle.port.specs.Ports.{IsLive, PortView};
ghost use Rattle.rights.specs.Ledger.{IsEntered, counts_of};
ghost use Rattle.tables_base.specs.Kept.{Kept};
ghost use Rattle.copyin_base.specs.Destinations.{IsFrontCounted, destination_right, with_front_received, with_message_queued, with_send_made};
ghost use Rattle.copyin_base.specs.Worlds.{port_at};

use crate::world::World;
use port::Found;
use rights::RightKind;
use tables_base::{Message, Queued};

// The right that the message was sent to.
fn destination_right(queued: &Queued) -> RightKind
    ensures { result ≡ destination_right queued.now }
{
    if queued.by_once() {
        RightKind::Destination
    } else {
        RightKind::Send
    }
}

impl World {
    /// Takes the message at the front of a port's queue, which has one, and counts the right that it was sent to as gone.
    /// Raises the port's sequence number by one modulo 2^32; the message's slot is spare again. Takes no memory.
    /// Constant time: at most one look-up finds the port.
    #[inline(always)]
    pub fn receive_front(&mut self, found: Found) -> Queued
        requires waits { is_some (option_and_then (λ p. slice_get p.queue 0) (port_at self.old found.port)) ≡ true }
        requires entered { IsEntered self.old.ledger found.port }
        requires counted { IsFrontCounted self.old found.port }
        ensures front { Some result ≡ option_and_then (λ p. slice_get p.queue 0) (port_at self.old found.port) }
        ensures taken { (v : PortView Kept) → port_at self.old found.port ≡ Some v → self.new ≡ with_front_received self.old found.port v result }
    {
        let port = found.port;
        let Some((front, place)) = self.ports.placed_front(found) else {
            unreachable!()
        };
        let kind = destination_right(front);
        self.ledger.take(kind, 1);
        self.ports.take_counted(port, place, kind)
    }

    /// Puts a message at the end of a port's queue, in a spare slot. If it is sent to a send-once right of the port,
    /// that right is counted as used. Takes no memory. Constant time: at most one look-up finds the port.
    #[inline(always)]
    pub fn enqueue_counted(&mut self, found: Found, message: Message)
        requires live { IsLive self.old.ports found.port }
        requires spare { 0 < self.old.ports.spare }
        requires unused { message.by_once ≡ true → 0 < (counts_of self.old.ledger found.port).send_once }
        ensures { (v : PortView Kept) → port_at self.old found.port ≡ Some v → self.new ≡ with_message_queued self.old found.port v message }
    {
        let once = message.by_once();
        self.ledger.shift_if(once);
        self.ports
            .enqueue_counted(found, Queued::sent(message), once);
    }

    /// Counts a send right made from the port's receive right, modulo 2^32, and among all rights. Takes no memory.
    /// Constant time: at most one look-up finds the port.
    #[inline(always)]
    pub fn make_send(&mut self, found: Found)
        requires entered { IsEntered self.old.ledger found.port }
        requires room { self.old.ledger.total < most_rights }
        ensures there { IsLive self.old.ports found.port }
        ensures after { (v : PortView Kept) → port_at self.old found.port ≡ Some v → self.new ≡ with_send_made self.old found.port v }
    {
        self.ledger.count_one();
        self.ports.make_send(found);
    }
}
