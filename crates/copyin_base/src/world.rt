//! The kernel's tables.
ghost use Rattle.std.specs.Prelude.{◌≡◌, ◌↔◌, ◌+◌, IfNone, IfSome, IsTrue, max, None, OnOk, OnErr, Some};
ghost use Rattle.rights.specs.Unused.{IsUnusedOfAll};
ghost use Rattle.copyin_base.specs.Changes.{IsForLive, with_slots};
ghost use Rattle.copyin_base.specs.Shows.{SlotsSuffice};
ghost use Rattle.copyin_base.specs.Wanted.{LacksSlots};
ghost use Rattle.copyin_base.specs.Worlds.{HasTask, entry_at, has_generations, has_several_sets, no_world, space_at};

use mach_types::{Name, Profile, TaskId};
use name_space::{Entry, Space};
use port::Ports;
use port_set::Sets;
use request_table::RequestTables;
use rights::Ledger;
use std::alloc::{AllocError, Global};
use std::marker::Model;
use tables_base::{Placed, Queued, TaskNames};

/// The tasks' names, the ports with their queues, the counts of all rights, the port sets, and
/// the requests for notices.
///
/// A task's number is its place, also after its end. Contracts see its names as [`TaskNames`] are: what is
/// kept, read with the ports that are there. The counts in all are the sums of the ports' own. What else
/// ties the tables is no part of this type: who holds a world keeps that it shows a state of the machine.
pub struct World {
    /// The names of each task; none where the task has ended.
    pub(crate) spaces: Vec<Option<Space>>,
    /// The ports, with how many rights there are for each.
    pub(crate) ports: Ports<Queued>,
    /// How many rights there are in all.
    pub(crate) ledger: Ledger,
    /// The port sets. Which ports are in one is kept with the ports.
    pub(crate) sets: Sets,
    /// The requests for notices.
    pub(crate) requests: RequestTables,
    /// By which profile fresh names are made.
    profile: Profile,
}

impl Model for World {
    ghost use Rattle.name_space.specs.Names.{space_code};
    ghost use Rattle.name_space.specs.contracts.Entry as entry;
    ghost use Rattle.port.specs.Ports.{ports_code};
    ghost use Rattle.port.specs.contracts.Attributes as attributes;
    ghost use Rattle.rights.specs.Ledger.{ledger_code};
    ghost use Rattle.rights.specs.contracts.Counts as counts;
    ghost use Rattle.port_set.specs.Sets.{sets_code};
    ghost use Rattle.port_set.specs.contracts.SetRecord as set_record;
    ghost use Rattle.mach_types.specs.contracts.identities.PortId as port_id;
    ghost use Rattle.request_table.specs.contracts.Request as request;
    ghost use Rattle.request_table.specs.Tables.{request_tables_code};
    ghost use Rattle.tables_base.specs.Kept.{kept_code};
    ghost use Rattle.tables_base.specs.contracts.message.Carried as carried;
    ghost use Rattle.mach_types.specs.contracts.profiles.Profile as profile_of;
    ghost use Rattle.copyin_base.specs.Reading.{AreGiven, live_in, read_spaces};
    ghost use Rattle.rights.specs.Counted.{IsCounted};
    ghost use Rattle.copyin_base.specs.Worlds.{WorldView, world_code};

    ghost Value = { WorldView };

    ghost coded = { world_code (space_code entry.the_row.coded) (ports_code (kept_code carried.the_row.coded) attributes.the_row.coded) (ledger_code counts.the_row.coded) (sets_code set_record.the_row.coded) (request_tables_code request.the_row.coded port_id.the_row.coded) profile_of.the_row.coded };

    ghost view = { λ w. record { spaces = read_spaces (live_in w.ports.bare) w.spaces.items; ports = w.ports.bare; ledger = record { counts = w.ports.counts; total = w.ledger.total; unused = w.ledger.unused }; sets = w.sets; requests = w.requests; profile = w.profile } };

    ghost invariant = { λ w. AreGiven w.spaces.items w.ports.bare × IsCounted w.ports.counts w.ledger.total w.ledger.unused };
}

/// Drops each table. It is written out, so that it is proved here alone, and not in each crate that drops a world.
impl Drop for World {
    fn drop(self) {
        let World {
            spaces: _,
            ports: _,
            ledger: _,
            sets: _,
            requests: _,
            profile: _,
        } = self;
    }
}

impl World {
    /// Nothing was made yet; names will be made by this profile. Takes no memory.
    pub fn new(alloc: Global, profile: Profile) -> World
        ensures { result ≡ no_world profile }
    {
        World {
            spaces: Vec::new(alloc),
            ports: Ports::new(alloc, profile == Profile::Three),
            ledger: Ledger::new(),
            sets: Sets::new(alloc),
            requests: RequestTables::new(alloc),
            profile,
        }
    }

    /// Returns whether fresh names have a generation. Constant time.
    pub fn has_generations(&self) -> bool
        ensures { result ≡ has_generations self.now.profile }
    {
        match self.profile {
            Profile::One => false,
            Profile::Two | Profile::Three => true,
        }
    }

    /// The profile of the kernel. Constant time.
    pub fn profile(&self) -> Profile
        ensures { result ≡ self.now.profile }
    {
        match self.profile {
            Profile::One => Profile::One,
            Profile::Two => Profile::Two,
            Profile::Three => Profile::Three,
        }
    }

    /// Returns whether a port may be in several sets. Constant time.
    pub fn has_several_sets(&self) -> bool
        ensures { result ≡ has_several_sets self.now.profile }
    {
        self.profile == Profile::Three
    }

    /// Returns whether the task lives. Constant time.
    pub fn has_task(&self, task: TaskId) -> bool
        ensures { IsTrue result ↔ HasTask self.now task }
    {
        self.find_space(task).is_some()
    }

    /// The names of a task that lives. Constant time.
    pub fn space(&self, task: TaskId) -> TaskNames<'_>
        requires { HasTask self.now task }
        ensures { space_at self.now task ≡ Some result }
    {
        self.find_space(task).unwrap()
    }

    /// The task's names, if the task lives. Constant time.
    pub fn find_space(&self, task: TaskId) -> Option<TaskNames<'_>>
        ensures { result ≡ space_at self.now task }
    {
        let kept = self.spaces.get(task.number() as usize)?.as_ref()?;
        Some(TaskNames::of(kept, &self.ports))
    }

    /// What is under the task's name, if anything is: a right for a port that is there, a dead name or a set.
    /// Constant time, and logarithmic for a name above 65,535.
    #[inline(always)]
    pub fn lookup(&self, task: TaskId, name: Name) -> Option<Entry>
        ensures value { result ≡ entry_at self.now task name }
        ensures lives { IfSome result (λ entry. IsForLive self.now entry) }
    {
        Some(self.find_placed(task, name)?.entry)
    }

    /// What is under the task's name, if anything is, with the place of its port's record. As [`World::lookup`].
    #[inline(always)]
    pub fn find_placed(&self, task: TaskId, name: Name) -> Option<Placed>
        ensures some { IfSome result (λ placed. entry_at self.now task name ≡ Some placed.entry) }
        ensures lives { IfSome result (λ placed. IsForLive self.now placed.entry) }
        ensures none { IfNone result (entry_at self.now task name ≡ None) }
    {
        let kept = self.spaces.get(task.number() as usize)?.as_ref()?;
        TaskNames::of(kept, &self.ports).find(name)
    }

    /// Makes message slots, so that one is spare for each unused send-once right, and so many more. Where
    /// there are enough, nothing changes. Linear in the slots that are made.
    ///
    /// An error means that there were too few and memory was refused; all is then as before.
    #[inline(always)]
    pub fn reserve_slots(&mut self, more: usize) -> Result<(), AllocError>
        ensures ok { OnOk result (self.new ≡ with_slots self.old (max self.old.ports.spare (self.old.ledger.unused + more))) }
        ensures err { OnErr result (self.new ≡ self.old) }
        ensures lacks { OnErr result (LacksSlots self.old more) }
        ensures all { IsUnusedOfAll self.old.ledger }
    {
        let spare = self.ports.spare();
        let Some(wanted) = (self.ledger.unused as usize).checked_add(more) else {
            return Err(AllocError);
        };
        if wanted <= spare {
            return Ok(());
        }
        self.ports.reserve_slots(wanted - spare)
    }

    /// Returns whether a message slot is spare for each unused send-once right. Constant time.
    pub fn slots_suffice(&self) -> bool
        ensures value { IsTrue result ↔ SlotsSuffice self.now }
        ensures all { IsUnusedOfAll self.now.ledger }
    {
        self.ledger.unused as usize <= self.ports.spare()
    }
}
