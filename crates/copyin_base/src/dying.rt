//! Ports that lose their receive rights, are sent away or doomed, and messages that are destroyed.
ghost use Rattle.std.specs.Prelude.{◌≡◌, ◌↔◌, ◌++◌, ◌∷◌, ◌+◌, ◌-◌, ◌<◌, [], ℕ, List, IfNone, IfSome, IsTrue, MatchBool, Some, drop, length, option_copied, slice_get};
ghost use Rattle.std.specs.List.{Contains};
ghost use Rattle.member_lists.specs.Lists.{without};
ghost use Rattle.port.specs.Holding.{CanHold, IsHeldBy, NoneHeldBy, held};
ghost use Rattle.port.specs.Idle.{IsIdle};
ghost use Rattle.port.specs.Ports.{IsLive, NoneQueued, PortView, with_port};
ghost use Rattle.port.specs.declared.Holder.TheVariants as AnyHolder;
ghost use Rattle.tables_base.specs.Kept.{Kept};
ghost use Rattle.copyin_base.specs.Losing.{DestroysNext};
ghost use Rattle.copyin_base.specs.Worlds.{port_at};

use crate::world::World;
use mach_types::PortId;
use port::Holder;
use tables_base::Queued;

impl World {
    /// Returns whether no port is left that was lost, doomed or noted, and no message that was destroyed.
    /// Constant time.
    #[inline(always)]
    pub fn are_ports_idle(&self) -> bool
        ensures idle { IsTrue result ↔ IsIdle self.now.ports }
        ensures lost { (port : ℕ) → Contains self.now.ports.lost port ↔ IsHeldBy self.now.ports port AnyHolder.Nobody }
        ensures doomed { (port : ℕ) → Contains self.now.ports.doomed port ↔ IsHeldBy self.now.ports port AnyHolder.Doomed }
    {
        self.ports.is_idle()
    }

    /// The port that is to be judged first: that whose receive right was lost first of those that nobody
    /// holds, and that weren't judged. Constant time.
    #[inline(always)]
    pub fn first_lost(&self) -> Option<PortId>
        ensures first { result ≡ slice_get self.now.ports.lost 0 }
        ensures some { IfSome result (λ port. IsHeldBy self.now.ports port AnyHolder.Nobody) }
        ensures none { IfNone result (NoneHeldBy self.now.ports AnyHolder.Nobody) }
        ensures all { (port : ℕ) → Contains self.now.ports.lost port ↔ IsHeldBy self.now.ports port AnyHolder.Nobody }
    {
        self.ports.first_lost()
    }

    /// The port that was doomed first of those that weren't removed. Constant time.
    #[inline(always)]
    pub fn first_doomed(&self) -> Option<PortId>
        ensures first { result ≡ slice_get self.now.ports.doomed 0 }
        ensures some { IfSome result (λ port. IsHeldBy self.now.ports port AnyHolder.Doomed) }
        ensures none { IfNone result (NoneHeldBy self.now.ports AnyHolder.Doomed) }
        ensures all { (port : ℕ) → Contains self.now.ports.doomed port ↔ IsHeldBy self.now.ports port AnyHolder.Doomed }
    {
        self.ports.first_doomed()
    }

    /// The port that was doomed last of those that weren't removed. Constant time.
    #[inline(always)]
    pub fn last_doomed(&self) -> Option<PortId>
        ensures last { IfSome result (λ port. (front : List ℕ) × (self.now.ports.doomed ≡ front ++ port ∷ [])) }
        ensures some { IfSome result (λ port. IsHeldBy self.now.ports port AnyHolder.Doomed) }
        ensures none { IfNone result (NoneHeldBy self.now.ports AnyHolder.Doomed) }
        ensures all { (port : ℕ) → Contains self.now.ports.doomed port ↔ IsHeldBy self.now.ports port AnyHolder.Doomed }
    {
        self.ports.last_doomed()
    }

    /// The message that was destroyed last of those that weren't taken, if there is one. Constant time.
    #[inline(always)]
    pub fn last_destroyed(&self) -> Option<&Queued>
        ensures { option_copied result ≡ slice_get self.now.ports.destroyed (length self.now.ports.destroyed - 1) }
    {
        self.ports.last_destroyed()
    }

    /// Says that nobody holds the receive right of a port that is there, though the right is counted as before:
    /// the message that carried it is destroyed. The port is to be judged, as the last of those that were lost.
    /// Takes no memory. Constant time.
    #[inline(always)]
    pub fn lose_carried(&mut self, port: PortId)
        requires live { IsLive self.old.ports port }
        requires held { (v : PortView Kept) → port_at self.old port ≡ Some v → CanHold v.attributes.holder }
        ensures { (v : PortView Kept) → port_at self.old port ≡ Some v →
            self.new ≡ record self.old { ports = record (with_port self.old.ports port (held v AnyHolder.Nobody)) { lost = self.old.ports.lost ++ port ∷ [] } } }
    {
        self.ports.lose(port);
    }

    /// Says that a message in the queue holds the receive right of a port that was lost, which no longer is.
    /// Takes no memory. Constant time.
    #[inline(always)]
    pub fn hold_in(&mut self, port: PortId, queue: PortId)
        requires { IsHeldBy self.old.ports port AnyHolder.Nobody }
        ensures { (v : PortView Kept) → port_at self.old port ≡ Some v →
            self.new ≡ record self.old { ports = record (with_port self.old.ports port (held v (AnyHolder.QueueOf queue))) { lost = without port self.old.ports.lost } } }
    {
        self.ports.hold(port, Holder::QueueOf(queue));
    }

    /// Dooms the port that was lost first: nobody can hold its receive right again, and it is to be removed, as
    /// the last of those that are doomed. Until then it stays in its sets, and keeps its messages. Returns whether
    /// it has any. Takes no memory. Constant time.
    #[inline(always)]
    pub fn doom_first(&mut self) -> bool
        requires { (port : ℕ) × (slice_get self.old.ports.lost 0 ≡ Some port) × IsHeldBy self.old.ports port AnyHolder.Nobody }
        ensures doomed { (port : ℕ) (v : PortView Kept) → slice_get self.old.ports.lost 0 ≡ Some port → port_at self.old port ≡ Some v →
            self.new ≡ record self.old { ports = record (with_port self.old.ports port (held v AnyHolder.Doomed)) { lost = without port self.old.ports.lost; doomed = self.old.ports.doomed ++ port ∷ [] } } }
        ensures queued { (port : ℕ) (v : PortView Kept) → slice_get self.old.ports.lost 0 ≡ Some port → port_at self.old port ≡ Some v → (IsTrue result ↔ (0 < length v.queue)) }
    {
        self.ports.doom_first()
    }

    /// Moves the message at the front of a port's queue, in its slot, behind the destroyed ones, and returns
    /// whether there was one. Where the port is gone or has none, all is as before. Takes no memory. Constant
    /// time.
    #[inline(always)]
    pub fn destroy_first(&mut self, port: PortId) -> bool
        ensures { MatchBool result (DestroysNext self.old port self.new) (NoneQueued self.old.ports port × (self.new ≡ self.old)) }
    {
        self.ports.destroy_first(port)
    }

    /// Takes the message that was destroyed first of those that weren't taken; its slot is spare again. `None`
    /// where there is none, and all is then as before. Takes no memory. Constant time.
    #[inline(always)]
    pub fn take_destroyed(&mut self) -> Option<Queued>
        ensures first { result ≡ slice_get self.old.ports.destroyed 0 }
        ensures taken { IfSome result (λ m. self.new ≡ record self.old { ports = record self.old.ports { spare = self.old.ports.spare + 1; destroyed = drop 1 self.old.ports.destroyed } }) }
        ensures none { IfNone result (self.new ≡ self.old) }
    {
        self.ports.take_destroyed()
    }

    /// Takes the port that was noted first of those noted. `None` where none is, and all is then as before.
    /// Takes no memory. Constant time.
    #[inline(always)]
    pub fn take_noted(&mut self) -> Option<PortId>
        ensures first { result ≡ slice_get self.old.ports.noted 0 }
        ensures taken { IfSome result (λ port. self.new ≡ record self.old { ports = record self.old.ports { noted = without port self.old.ports.noted } }) }
        ensures none { IfNone result (self.new ≡ self.old) }
    {
        self.ports.take_noted()
    }
}
