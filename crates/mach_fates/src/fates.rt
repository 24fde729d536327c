//! The origins of all queued messages.
ghost use Rattle.std.specs.Prelude.{◌≡◌, ◌≢◌, ◌<◌, ◌≤◌, ◌⊎◌, ℕ, None, Some, true, false, is_some, Ok, IfOk, OnOk, [], ◌∷◌, ◌++◌};
ghost use Rattle.std.specs.BTreeMap.{get, keys, Updates};
ghost use Rattle.std.specs.Set.{is_member};
ghost use Rattle.std.specs.Option.{option_map};
ghost use Rattle.std.specs.Ordering.{eq_by_cmp, nat_cmp};
ghost use Rattle.mach_types.specs.declared.calls.Waited.TheVariants.{Port};
ghost use Rattle.mach_types.specs.declared.calls.Reply.TheVariants.{Code as Refused};
ghost use Rattle.mach_types.specs.declared.profiles.Profile.{Profile};
ghost use Rattle.mach_model.specs.State.{opening_in};
ghost use Rattle.mach_follow.specs.Replaying.{IsNoRefusal};
ghost use Rattle.mach_follow.specs.declared.replay.Answered.TheVariants.{AsSaid};
ghost use Rattle.mach_fates.specs.Places.{FollowsRuns, Keeps};
ghost use Rattle.mach_fates.specs.Keeping.{kept_at, queued_at, Apart, Follows, HasIdentities, IsPassed, Takes, TakesFrom, Visits, VisitsBut};

use crate::effects::{Effects, Lost};
use crate::laws::next_step;
use crate::origin::{Origin, Sender, Waiting};
use crate::settle::Turn;
use crate::source::{source_after, source_before};
use copyin_base::World;
use kernel_lock::Entry;
use mach_follow::{Answered, Follower};
use mach_types::{PortId, Reply, Touched, Waited};
use std::alloc::{AllocError, Global};
use std::collections::{BTreeMap, LinkedList};

/// For each live port the origins of its queued messages, and what the last step did.
pub struct Fates {
    alloc: Global,
    ports: BTreeMap<u64, Waiting>,
    // How many ports were ever made.
    made: u64,
    taken: Option<Lost>,
    // The ports that the last step may have changed.
    visited: Vec<u64>,
    effects: Effects,
}

/// Drops the origins of the queued messages. It is written out, so that it is proved here alone, and not in each crate that drops one.
impl Drop for Fates {
    fn drop(self) {
        let Fates {
            alloc: _,
            ports: _,
            made: _,
            taken: _,
            visited: _,
            effects: _,
        } = self;
    }
}

impl Fates {
    /// Has no port: it stands at the beginning of a history. Takes no memory.
    pub fn new(alloc: Global) -> Fates
        ensures begins { (profile : Profile) → Keeps result [] (opening_in profile) }
    {
        let ports = BTreeMap::new(alloc);
        Fates {
            alloc,
            ports,
            made: 0,
            taken: None,
            visited: Vec::new(alloc),
            effects: Effects::none(alloc),
        }
    }

    /// Returns the message that the last entry's step took from its port: it was received, or destroyed as too long.
    /// Constant time.
    pub fn taken(&self) -> Option<Lost>
        ensures { result ≡ self.now.taken }
    {
        self.taken
    }

    /// Returns what else the last entry's step did. Constant time.
    pub fn effects(&self) -> &Effects {
        &self.effects
    }

    /// Returns the origins of the messages queued at a live port, from the front. Logarithmic time.
    pub fn origins(&self, port: PortId) -> Option<&LinkedList<Origin>> {
        match self.ports.get(&port.number()) {
            Some(waiting) => Some(&waiting.origins),
            None => None,
        }
    }

    /// Returns how many messages are queued at a port; `None` if it doesn't live. Logarithmic time.
    pub(crate) fn queued(&self, port: u64) -> Option<usize>
        ensures { result ≡ queued_at self.now port }
    {
        match self.ports.get(&port) {
            Some(waiting) => Some(waiting.origins.len()),
            None => None,
        }
    }

    /// Returns the ports that the last entry's step may have changed.
    pub(crate) fn visited(&self) -> &[u64]
        ensures { result.now ≡ self.now.visited.items }
    {
        self.visited.as_slice()
    }

    /// Replays the entry of this number, as [`Follower::replay`] does, and follows the messages. The fates must have
    /// followed all entries before it. Leaves what its step did in [`Fates::taken`] and [`Fates::effects`].
    ///
    /// If the entry is confirmed, a run of the machine goes on by a step with its call and reply, and what is kept and taken is
    /// true of it (`specs/Places`).
    ///
    /// Returns `AllocError` if out of memory; follower and fates are then of no further use. Beside the replay it takes
    /// logarithmic time for each port that the step touched, or linear time in the live ports if it may have touched any.
    pub fn replay(
        &mut self,
        follower: &mut Follower,
        entry: &Entry,
        number: u64,
    ) -> Result<Answered, AllocError>
        ensures follows { result ≡ Ok AsSaid → FollowsRuns entry.now.event entry.now.reply number follower.old.kernel.tables self.old follower.new.kernel.tables self.new }
    {
        next_step();
        self.begin();
        let before = source_before(follower.tables(), entry);
        let answered = follower.replay(entry)?;
        if is_refusal(&entry.reply) {
            return Ok(answered);
        }
        let source = before.or(source_after(follower.tables(), entry));
        let turn = Turn {
            number,
            sender: Sender::of(entry),
        };
        self.take_from(follower.tables(), source, &turn)?;
        self.follow(follower.tables(), follower.touched(), &turn)?;
        Ok(answered)
    }

    /// Forgets what the step before did.
    fn begin(&mut self)
        ensures ports { self.new.ports ≡ self.old.ports }
        ensures made { self.new.made ≡ self.old.made }
        ensures taken { self.new.taken ≡ None }
    {
        self.taken = None;
        self.visited.clear();
        self.effects.clear();
    }

    /// Takes the first origin of the port from which the step took a message, and visits the port.
    fn take_from(
        &mut self,
        world: &World,
        source: Option<PortId>,
        turn: &Turn,
    ) -> Result<(), AllocError>
        ensures { OnOk result (TakesFrom turn.now.number world.now source self.old self.new) }
    {
        let Some(port) = source else {
            return Ok(());
        };
        let from = port.number();
        self.take(from)?;
        self.visit(world, from, turn)
    }

    /// Takes the first origin of the port.
    fn take(&mut self, port: u64) -> Result<(), AllocError>
        ensures { OnOk result (Takes port self.old self.new) }
    {
        let Some(mut waiting) = self.ports.remove(&port) else {
            self.taken = None;
            return Ok(());
        };
        let place = waiting.first();
        self.taken = taken(port, place, waiting.origins.pop_front());
        keep(&mut self.ports, port, waiting)
    }

    /// Follows a step by the tables after it, and by what it touched.
    fn follow(&mut self, world: &World, touched: Touched, turn: &Turn) -> Result<(), AllocError>
        ensures { OnOk result (HasIdentities world.now → Follows turn.now.number world.now touched self.old self.new) }
    {
        self.visit_touched(world, touched, turn)?;
        self.made = ports_made(world);
        Ok(())
    }

    /// Visits the ports that a step touched.
    fn visit_touched(
        &mut self,
        world: &World,
        touched: Touched,
        turn: &Turn,
    ) -> Result<(), AllocError>
        ensures { OnOk result (HasIdentities world.now → VisitsBut (IsPassed touched world.now.ports.made self.old) turn.now.number world.now self.old self.new) }
    {
        match touched {
            Touched::Few(named) => self.visit_few(world, &named, turn),
            Touched::All => self.visit_all(world, turn),
        }
    }

    /// Visits the ports that are named.
    fn visit_few(
        &mut self,
        world: &World,
        named: &[Option<Waited>],
        turn: &Turn,
    ) -> Result<(), AllocError>
        ensures { OnOk result (VisitsBut (λ p. Apart (Some (Port p)) named.now) turn.now.number world.now self.old self.new) }
    {
        for waited in named {
            self.visit_named(world, waited, turn)?;
        }
        Ok(())
    }

    /// Visits the port that is named, if one is.
    fn visit_named(
        &mut self,
        world: &World,
        named: &Option<Waited>,
        turn: &Turn,
    ) -> Result<(), AllocError>
        ensures { OnOk result (VisitsBut (λ p. named.now ≢ Some (Port p)) turn.now.number world.now self.old self.new) }
    {
        match named {
            Some(Waited::Port(port)) => self.visit(world, port.number(), turn),
            _ => Ok(()),
        }
    }

    /// Visits each port that lived before the step, and each that was made in it.
    fn visit_all(&mut self, world: &World, turn: &Turn) -> Result<(), AllocError>
        ensures { OnOk result (HasIdentities world.now → VisitsBut (λ p. (kept_at self.old p ≡ None) × ((p < self.old.made) ⊎ (world.now.ports.made ≤ p)))
            turn.now.number world.now self.old self.new) }
    {
        let kept = self.kept_ports()?;
        self.visit_kept(world, kept.as_slice(), turn)?;
        self.visit_made(world, turn)
    }

    /// Returns the ports of which origins are kept.
    fn kept_ports(&self) -> Result<Vec<u64>, AllocError>
        ensures has { (p : ℕ) → is_some (get nat_cmp self.now.ports p) ≡ is_member (eq_by_cmp nat_cmp) (keys self.now.ports) p }
        ensures same { IfOk result (λ ports. ports.items ≡ keys self.now.ports) }
    {
        self.ports.keys().copied().collect(self.alloc)
    }

    /// Visits these ports.
    fn visit_kept(&mut self, world: &World, ports: &[u64], turn: &Turn) -> Result<(), AllocError>
        ensures { OnOk result (VisitsBut (λ p. Apart p ports.now) turn.now.number world.now self.old self.new) }
    {
        for port in ports {
            self.visit(world, *port, turn)?;
        }
        Ok(())
    }

    /// Visits the ports that were made in the step.
    fn visit_made(&mut self, world: &World, turn: &Turn) -> Result<(), AllocError>
        ensures { OnOk result (HasIdentities world.now → VisitsBut (λ p. (p < self.old.made) ⊎ (world.now.ports.made ≤ p)) turn.now.number world.now self.old self.new) }
    {
        for port in self.made..ports_made(world) {
            self.visit(world, port, turn)?;
        }
        Ok(())
    }

    /// Visits a port: leaves its origins after the step, by the tables after it.
    fn visit(&mut self, world: &World, port: u64, turn: &Turn) -> Result<(), AllocError>
        ensures { OnOk result (Visits turn.now.number world.now port self.old self.new) }
    {
        self.visited.push(port)?;
        let before = self.ports.remove(&port);
        match self.effects.settle(self.alloc, world, port, before, turn)? {
            Some(waiting) => keep(&mut self.ports, port, waiting),
            None => Ok(()),
        }
    }
}

/// Whether the reply is a code other than 0: the call was refused, and changed nothing.
fn is_refusal(reply: &Reply) -> bool
    ensures no { result ≡ false → IsNoRefusal reply.now }
    ensures yes { result ≡ true → (code : ℕ) × (reply.now ≡ Refused code) × (code ≢ 0) }
{
    matches!(reply, Reply::Code(code) if *code != 0)
}

/// Returns the message that was taken, if there was one.
fn taken(port: u64, place: u64, origin: Option<Origin>) -> Option<Lost>
    ensures { result ≡ option_map (λ x. record { port = port; place = place; origin = x }) origin }
{
    match origin {
        Some(origin) => Some(Lost {
            port,
            place,
            origin,
        }),
        None => None,
    }
}

/// Keeps the port's origins.
fn keep(ports: &mut BTreeMap<u64, Waiting>, port: u64, waiting: Waiting) -> Result<(), AllocError>
    ensures { OnOk result (Updates nat_cmp ports.old ports.new port (Some waiting)) }
{
    match ports.insert(port, waiting) {
        Ok(_) => Ok(()),
        Err(_) => Err(AllocError),
    }
}

/// Returns how many ports were ever made, but one fewer if all identities were given.
fn ports_made(world: &World) -> u64
    ensures { HasIdentities world.now → result ≡ world.now.ports.made }
{
    if world.are_ports_exhausted() {
        return u64::MAX;
    }
    world.next_port().number()
}
