//! How ports that lost their receive rights die, with one look-up each or none.
ghost use Rattle.std.specs.Prelude.{◌≡◌, ◌↔◌, ℕ, ◌<◌, ◌++◌, ◌∷◌, [], length, List, IfSome, IfNone, IsTrue, true, false, Some, None, slice_get};
ghost use Rattle.std.specs.List.{Contains};
ghost use Rattle.std.specs.FinMap as map;

use crate::{Holder, Message, Ports, key_of};
use mach_types::PortId;
use port_base::by_key::{DOOMED, LOST, hold_at};
use port_base::moves::{rejoin_first, rejoin_two};

impl<M: Message> Ports<M> {
    ghost use Rattle.member_lists.specs.Lists.{without};
    ghost use Rattle.port.specs.Holding.{CanHold, IsHeldBy, NoneHeldBy, held};
    ghost use Rattle.port.specs.Ports.{PortView, with_port};
    ghost use Rattle.port_base.specs.declared.Holder.TheVariants as Holder;

    /// Says that a port's receive right was lost, as [`Ports::lose`] does, where the port is there, and
    /// returns whether it is. Where it is gone, nothing changes. Takes no memory. Constant time.
    #[inline(always)]
    pub fn lose_if_there(&mut self, port: PortId) -> bool
        requires { (p : PortView M) → map.get self.old.bare.ports port ≡ Some p → CanHold p.attributes.holder }
        ensures there { (p : PortView M) → map.get self.old.bare.ports port ≡ Some p →
            self.new.bare ≡ record (with_port self.old.bare port (held p Holder.Nobody)) { lost = self.old.bare.lost ++ port ∷ [] } }
        ensures gone { map.get self.old.bare.ports port ≡ None → self.new ≡ self.old }
        ensures told { result ≡ map.contains_key self.old.bare.ports port }
        ensures counts { self.new.counts ≡ self.old.counts }
    {
        let Some(key) = key_of(&self.by_id, port) else {
            return false;
        };
        let (was, now) = hold_at(&mut self.records, key, Holder::Nobody);
        rejoin_two(&mut self.waiting, key, was, now);
        true
    }

    /// Dooms the port that was lost first: nobody can hold its receive right again, and it is to be
    /// removed, as the last of those that are doomed. Until then it stays in its set, and keeps its
    /// messages. Answers whether it has any. Takes no memory. Constant time.
    #[inline(always)]
    pub fn doom_first(&mut self) -> bool
        requires { 0 < length self.old.bare.lost }
        ensures doomed { (port : ℕ) (p : PortView M) → slice_get self.old.bare.lost 0 ≡ Some port → map.get self.old.bare.ports port ≡ Some p →
            self.new.bare ≡ record (with_port self.old.bare port (held p Holder.Doomed)) { lost = without port self.old.bare.lost; doomed = self.old.bare.doomed ++ port ∷ [] } }
        ensures queued { (port : ℕ) (p : PortView M) → slice_get self.old.bare.lost 0 ≡ Some port → map.get self.old.bare.ports port ≡ Some p → (IsTrue result ↔ (0 < length p.queue)) }
        ensures counts { self.new.counts ≡ self.old.counts }
    {
        let key = self.waiting.first(LOST).unwrap();
        hold_at(&mut self.records, key, Holder::Doomed);
        rejoin_first(&mut self.waiting, key, LOST, DOOMED);
        !self.records[key].queue.is_empty()
    }

    /// The port that was doomed last of those that weren't removed. Constant time.
    #[inline(always)]
    pub fn last_doomed(&self) -> Option<PortId>
        ensures last { IfSome result (λ port. (front : List ℕ) × (self.now.bare.doomed ≡ front ++ port ∷ [])) }
        ensures some { IfSome result (λ port. IsHeldBy self.now.bare port Holder.Doomed) }
        ensures none { IfNone result (NoneHeldBy self.now.bare Holder.Doomed) }
        ensures all { (port : ℕ) → Contains self.now.bare.doomed port ↔ IsHeldBy self.now.bare port Holder.Doomed }
    {
        let key = self.waiting.last(DOOMED)?;
        Some(self.records[key].id)
    }
}
