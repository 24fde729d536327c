//! The port sets: what is kept of each, sets that are made and renamed, and ports that enter and leave them.
ghost use Rattle.std.specs.Prelude.{◌≡◌, ◌≢◌, ◌↔◌, ◌<◌, ◌≤◌, ◌++◌, ◌∷◌, [], IfOk, IsTrue, None, OnErr, OnOk, Some};
ghost use Rattle.std.specs.FinMap as map;
ghost use Rattle.mach_types.specs.Numbers.{most_identities};
ghost use Rattle.port_set.specs.declared.SetRecord.{SetRecord as AnyRecord};
ghost use Rattle.port_set.specs.Sets.{IsThere, created, renamed};
ghost use Rattle.member_lists.specs.Lists.{without};
ghost use Rattle.port.specs.Ports.{IsIn, IsLive, PassesTurn, PortView, in_set, restarted, sets_in, with_port, with_sets};
ghost use Rattle.tables_base.specs.Kept.{Kept};
ghost use Rattle.copyin_base.specs.Worlds.{port_at};

use crate::world::World;
use mach_types::{Name, PortId, SetId, TaskId};
use port_set::{SetRecord, move_member};
use std::alloc::AllocError;

impl World {
    /// A set's task and its name for it, if the set is there. Constant time.
    #[inline(always)]
    pub fn set_record(&self, set: SetId) -> Option<SetRecord>
        ensures { result ≡ map.get self.now.sets.sets set }
    {
        self.sets.get(set)
    }

    /// Returns whether all 2^64 identities of sets were given, so that no set can be made. Constant time.
    #[inline(always)]
    pub fn are_sets_exhausted(&self) -> bool
        ensures { IsTrue result ↔ (most_identities ≤ self.now.sets.made) }
    {
        self.sets.is_exhausted()
    }

    /// The identity that the next set made gets: the number of sets made before. Constant time.
    #[inline(always)]
    pub fn next_set(&self) -> SetId
        requires { self.now.sets.made < most_identities }
        ensures { result ≡ self.now.sets.made }
    {
        self.sets.next_id()
    }

    /// Makes a set of the task under this name, with no members (Port Manipulation Interface,
    /// `mach_port_allocate`). Constant time, but where the sets move to a larger place.
    ///
    /// An error means that memory was refused; all is then as before.
    #[inline(always)]
    pub fn create_set(&mut self, owner: TaskId, name: Name) -> Result<SetId, AllocError>
        requires { self.old.sets.made < most_identities }
        ensures ok { IfOk result (λ set. (set ≡ self.old.sets.made) × (self.new ≡ record self.old { sets = created self.old.sets owner name })) }
        ensures err { OnErr result (self.new ≡ self.old) }
    {
        self.sets.create(owner, name)
    }

    /// Keeps another name for a set, whose task stays (Port Manipulation Interface, `mach_port_rename`).
    /// Takes no memory. Constant time.
    #[inline(always)]
    pub fn rename_set(&mut self, set: SetId, name: Name)
        requires { IsThere self.old.sets set }
        ensures { (r : AnyRecord) → map.get self.old.sets.sets set ≡ Some r → self.new ≡ record self.old { sets = renamed self.old.sets set r name } }
    {
        self.sets.rename(set, name);
    }

    /// Puts a port that is there into this set alone, out of all others, or into none (Port Manipulation
    /// Interface, `mach_port_move_member`). In a set that it is in it keeps its turn. Takes no memory. Constant
    /// time, and linear in the sets that it leaves.
    #[inline(always)]
    pub fn move_to_set(&mut self, port: PortId, set: Option<SetId>)
        requires { IsLive self.old.ports port }
        ensures { (v : PortView Kept) → port_at self.old port ≡ Some v → self.new ≡ record self.old { ports = with_port self.old.ports port (in_set v set) } }
    {
        move_member(&mut self.ports, port, set);
    }

    /// Puts a port into a set that it isn't in, beside those that it is in (`mach_port_insert_member` of later
    /// Machs). Its first set takes no memory. Constant time, but where memory moves to a larger place.
    ///
    /// An error means that memory was refused for a further set, or that a port may be in one alone; all is then as
    /// before.
    #[inline(always)]
    pub fn enter_set(&mut self, port: PortId, set: SetId) -> Result<(), AllocError>
        requires live { IsLive self.old.ports port }
        requires apart { ¬ (IsIn self.old.ports set port) }
        ensures ok { (v : PortView Kept) → port_at self.old port ≡ Some v → OnOk result (self.new ≡ record self.old { ports = with_port self.old.ports port (with_sets v (sets_in v ++ set ∷ [])) }) }
        ensures err { OnErr result (self.new ≡ self.old) }
        ensures further { (v : PortView Kept) → port_at self.old port ≡ Some v → OnErr result (sets_in v ≢ []) }
    {
        self.ports.enter(port, set)
    }

    /// Takes a port out of a set that it is in (`mach_port_extract_member` of later Machs). In its other sets it
    /// keeps its turns. Takes no memory. Linear in the port's sets.
    #[inline(always)]
    pub fn leave_set(&mut self, port: PortId, set: SetId)
        requires { IsIn self.old.ports set port }
        ensures { (v : PortView Kept) → port_at self.old port ≡ Some v → self.new ≡ record self.old { ports = with_port self.old.ports port (with_sets v (without set (sets_in v))) } }
    {
        self.ports.leave(port, set);
    }

    /// A port leaves all its sets, and its make-send count and its sequence number are 0, as its receive right
    /// goes; where it is gone, nothing changes. Takes no memory. Constant time, and linear in its sets.
    #[inline(always)]
    pub fn restart_port(&mut self, port: PortId)
        ensures live { (v : PortView Kept) → port_at self.old port ≡ Some v → self.new ≡ record self.old { ports = with_port self.old.ports port (restarted v) } }
        ensures gone { port_at self.old port ≡ None → self.new ≡ self.old }
    {
        self.ports.restart(port);
    }

    /// Passes a port's turn in the set, where it is this port's: it has its turn there after all others that are
    /// ready. Its turns in other sets stay. Takes no memory. Constant time.
    #[inline(always)]
    pub fn pass_turn(&mut self, set: SetId, port: PortId)
        ensures passes { PassesTurn self.old.ports set port self.new.ports }
        ensures rest { self.new ≡ record self.old { ports = self.new.ports } }
    {
        self.ports.pass_turn(set, port);
    }
}
