//! Port sets: whose they are, under which name, and which of their members has a message.
//!
//! Which ports are in a set is kept with the ports: a port that comes, goes or moves takes no memory here.
//! Membership is a set of pairs of a port and a set. Identities are given from 0 and never again: one whose
//! set is gone finds nothing.
#![tactic(auto)]

ghost use Rattle.std.specs.Prelude.{◌≡◌, ℕ, ◌+◌, ◌<◌, ◌≤◌, ◌↔◌, IsTrue, Some, None, IsSome, IfSome, IfNone, IfOk, OnOk, OnErr, length, slice_get};
ghost use Rattle.std.specs.FinMap as map;
ghost use Rattle.std.specs.Ordering.{nat_cmp};
ghost use Rattle.port.specs.Ports.{PortView, IsLive, with_port};
ghost use Rattle.port.specs.Turns.{turns_of};
ghost use Rattle.port_set.specs.Sets.{in_set, IsReady, NoneReady, IsDisbanded};
ghost use Rattle.port_set.specs.declared.SetRecord.{SetRecord as AnyRecord};

use mach_types::{Name, PortId, SetId, TaskId};
use number_map::NumberMap;
use port::{Message, Ports};
use std::alloc::{AllocError, Global};
use std::marker::Model;

/// What is kept of a set.
#[derive(Clone, Copy, Debug, PartialEq, Eq)]
pub struct SetRecord {
    /// The task whose set it is.
    pub owner: TaskId,
    /// The task's name for it.
    pub name: Name,
}

/// Sets by identity. Without sets nothing is allocated.
#[derive(Drop)]
pub struct Sets {
    records: NumberMap<SetRecord>,
    next: Option<u64>,
}

impl Model for Sets {
    ghost use Rattle.port_set.specs.Sets.{SetsView, sets_code};
    ghost use Rattle.port_set.specs.contracts.SetRecord as set_record;

    ghost Value = { SetsView };

    ghost coded = { sets_code set_record.the_row.coded };

    ghost use Rattle.port.specs.Records.{made_of};
    ghost use Rattle.port_set.specs.Kept.{IsKept};

    ghost view = { λ a. record { sets = a.records.map; made = made_of a.next } };

    ghost invariant = { λ a. IsKept a.records.map a.next };
}

impl Sets {
    ghost use Rattle.mach_types.specs.Numbers.{most_identities};
    ghost use Rattle.port_set.specs.Sets.{no_sets, IsThere, created, renamed, removed};

    /// No sets. Allocates nothing; constant time.
    pub fn new(alloc: Global) -> Sets
        ensures { result ≡ no_sets }
    {
        Sets {
            records: NumberMap::new(alloc),
            next: Some(0),
        }
    }

    /// Returns whether all 2^64 identities were given, so that no set can be made. Constant time.
    pub fn is_exhausted(&self) -> bool
        ensures { IsTrue result ↔ (most_identities ≤ self.now.made) }
    {
        self.next.is_none()
    }

    /// The identity that the next set made gets: the number of sets made before. Constant time.
    pub fn next_id(&self) -> SetId
        requires { self.now.made < most_identities }
        ensures { result ≡ self.now.made }
    {
        SetId::new(self.next.unwrap())
    }

    /// A set's record, if the set is there. Constant time.
    pub fn get(&self, set: SetId) -> Option<SetRecord>
        ensures { result ≡ map.get self.now.sets set }
    {
        self.records.get(set.number())
    }

    /// Makes a set of this task's under this name (Port Manipulation Interface,
    /// `mach_port_allocate`); no port is in it. Its identity is the number of sets made before.
    /// Constant time, but where all records move to a larger place.
    ///
    /// An error means that memory was refused; all is then as before. Nothing else here takes memory.
    pub fn create(&mut self, owner: TaskId, name: Name) -> Result<SetId, AllocError>
        requires { self.old.made < most_identities }
        ensures identity { IfOk result (λ id. id ≡ self.old.made) }
        ensures ok { OnOk result (self.new ≡ created self.old owner name) }
        ensures err { OnErr result (self.new ≡ self.old) }
    {
        let number = self.next.unwrap();
        self.records.reserve(1)?;
        self.records.insert(number, SetRecord { owner, name });
        self.next = number.checked_add(1);
        Ok(SetId::new(number))
    }

    /// Keeps another name for a set, whose task stays (Port Manipulation Interface,
    /// `mach_port_rename`). Constant time.
    pub fn rename(&mut self, set: SetId, name: Name)
        requires { IsThere self.old set }
        ensures { (r : AnyRecord) → map.get self.old.sets set ≡ Some r → self.new ≡ renamed self.old set r name }
    {
        let mut kept = self.get(set).unwrap();
        kept.name = name;
        self.records.set(set.number(), kept);
    }

    /// Removes a set, if it is there (Port Manipulation Interface, `mach_port_destroy`); its members
    /// are to be [`disband`]ed. Constant time.
    pub fn remove(&mut self, set: SetId)
        ensures { self.new ≡ removed self.old set }
    {
        self.records.remove(set.number());
    }
}

/// Puts a port into a set, out of all that it was in, or into none (Port Manipulation Interface,
/// `mach_port_move_member`). In a set that it is in it keeps its turn. Takes no memory. Constant time, and
/// linear in the sets that it leaves.
pub fn move_member<M: Message>(ports: &mut Ports<M>, member: PortId, set: Option<SetId>)
    requires { IsLive ports.old.bare member }
    ensures after { (p : PortView M) → map.get ports.old.bare.ports member ≡ Some p → ports.new.bare ≡ with_port ports.old.bare member (in_set p set) }
    ensures counts { ports.new.counts ≡ ports.old.counts }
{
    ports.move_to(member, set);
}

/// The member of the set that has a message and whose turn it is, if there is one (IPC Interface,
/// `mach_msg`, receiving by a port set). Takes no memory. Constant time.
pub fn ready_member<M: Message>(ports: &Ports<M>, set: SetId) -> Option<PortId>
    ensures first { result ≡ slice_get (turns_of ports.now.bare.ready set) 0 }
    ensures some { IfSome result (λ port. IsReady ports.now.bare set port) }
    ensures none { IfNone result (NoneReady ports.now.bare set) }
{
    ports.first_ready(set)
}

/// Takes all members out of a set; each stays in its other sets, in its turns there (Port Manipulation
/// Interface, `mach_port_destroy`). Takes no memory. Linear in the set's members.
pub fn disband<M: Message>(ports: &mut Ports<M>, set: SetId)
    ensures after { IsDisbanded ports.old.bare ports.new.bare set }
    ensures counts { ports.new.counts ≡ ports.old.counts }
{
    while ports.leave_front(set).is_some() {}
}
