//! Records of ports under their keys, what is read of one and what changes in one, and how its key and
//! its messages move.
//!
//! A port's record has its queue, its attributes and the counts of its rights. Its key stands in the lists of [`member_lists`], and
//! moves between them ([`moves`]). A message lies in a node of a linked list, and moves with it ([`slots`]),
//! so that neither takes memory.
#![tactic(auto)]

ghost use Rattle.std.specs.Prelude.{◌≡◌, false, Some, None, is_some, cond};
ghost use Rattle.port_base.specs.Attributes.{counted_as, held_by, one_made, one_received, restarted};
ghost use Rattle.port_base.specs.Memberships.{alone_in, first_of};

pub mod by_key;
pub mod moves;
pub mod slots;

use by_key::{DOOMED, LOST, NOTED};
use mach_types::limits::FIRST_LIMIT;
use mach_types::{PortId, SetId, TaskId};
use rights::Counts;
use std::alloc::Global;
use std::collections::LinkedList;
use std::marker::Model;
use std::mem;

// A task's number is less than this.
const TASK_NUMBERS: u64 = 1 << 32;

/// A message that can lie in a slot.
pub trait Message: Drop {
    /// What lies in a slot that no message is in. Takes no memory.
    fn blank(alloc: Global) -> Self;
}

/// Who holds a port's receive right.
#[derive(Clone, Copy, Debug, PartialEq, Eq)]
pub enum Holder {
    /// The task: it stands under a name of it.
    Task(TaskId),
    /// A message in the queue of the port.
    QueueOf(PortId),
    /// Nobody: the right was lost, and the port is yet to be judged.
    Nobody,
    /// Nobody, and the port is to be removed: it was judged, and nobody can hold it again.
    Doomed,
}

// What the number of a holder is of.
#[derive(Clone, Copy)]
enum HolderKind {
    Task,
    Queue,
    Nobody,
    Doomed,
}

impl Holder {
    ghost use Rattle.port_base.specs.Holders.{holder_of};

    // What it is, and its number.
    fn parts(self) -> (HolderKind, u64)
        ensures { holder_of result.0 result.1 ≡ self }
    {
        match self {
            Holder::Task(task) => (HolderKind::Task, task.number() as u64),
            Holder::QueueOf(port) => (HolderKind::Queue, port.number()),
            Holder::Nobody => (HolderKind::Nobody, 0),
            Holder::Doomed => (HolderKind::Doomed, 0),
        }
    }
}

/// In how many port sets a port is, by their numbers: in none, in this one alone, or in several, of which this
/// is the first.
#[derive(Clone, Copy, Debug, PartialEq, Eq)]
pub enum Membership {
    /// In no set.
    Nowhere,
    /// In this set, and in no other.
    Alone(u64),
    /// In this set first, and in others.
    Several(u64),
}

impl Membership {
    /// The first of the sets, if there is one.
    #[inline(always)]
    pub fn first(self) -> Option<u64>
        ensures { result ≡ first_of self }
    {
        match self {
            Membership::Nowhere => None,
            Membership::Alone(set) | Membership::Several(set) => Some(set),
        }
    }
}

// In how many sets a port is, as it is kept.
#[derive(Clone, Copy, PartialEq, Eq)]
enum SetCount {
    Nothing,
    One,
    Several,
}

/// What a port has beside its queue. Setting it changes nothing else.
#[derive(Clone, Copy, Debug, PartialEq, Eq)]
pub struct Attributes {
    /// How many messages the queue takes from send rights, 0 to 16.
    pub limit: u32,
    /// How many send rights were made from the receive right, modulo 2^32.
    pub make_send: u32,
    /// The sequence number of the next message received, modulo 2^32.
    pub sequence: u32,
    /// The port set that the port is in; the first of them, where it is in several.
    pub set: Option<SetId>,
    /// Who holds the port's receive right.
    pub holder: Holder,
}

impl Attributes {
    ghost use Rattle.port_base.specs.Attributes.{first_attributes};

    /// Those of a new port, whose receive right the task holds.
    pub fn first(task: TaskId) -> Attributes
        ensures { result ≡ first_attributes task }
    {
        Attributes {
            limit: FIRST_LIMIT,
            make_send: 0,
            sequence: 0,
            set: None,
            holder: Holder::Task(task),
        }
    }
}

/// What is kept of a port beside its queue: its attributes, and whether it is noted, in 32 bytes.
#[derive(Drop)]
pub struct Kept {
    set: u64,
    holder: u64,
    limit: u32,
    make_send: u32,
    sequence: u32,
    sets: SetCount,
    is_noted: bool,
    holder_kind: HolderKind,
}

impl Model for Kept {
    ghost use Rattle.port_base.specs.contracts.Attributes as attributes;
    ghost use Rattle.port_base.specs.contracts.Membership as membership;
    ghost use Rattle.port_base.specs.Memberships.{first_of, membership_of};
    ghost use Rattle.port_base.specs.Holders.{KeptView, kept_code, holder_of};

    ghost Value = { KeptView };

    ghost coded = { kept_code attributes.the_row.coded membership.the_row.coded };

    ghost view = { λ a. record {
      attributes = record {
        limit = a.limit;
        make_send = a.make_send;
        sequence = a.sequence;
        set = first_of (membership_of a.sets a.set);
        holder = holder_of a.holder_kind a.holder;
      };
      membership = membership_of a.sets a.set;
      is_noted = a.is_noted;
    } };
}

impl Kept {
    ghost use Rattle.port_base.specs.Records.{waits_in, noted_list};

    /// Of a port that isn't noted, in the set of these attributes alone, if they have one.
    pub fn new(attributes: Attributes) -> Kept
        ensures { result ≡ record { attributes = attributes; membership = alone_in attributes.set; is_noted = false } }
    {
        let (set, sets) = match attributes.set {
            Some(set) => (set.number(), SetCount::One),
            None => (0, SetCount::Nothing),
        };
        let (holder_kind, holder) = attributes.holder.parts();
        Kept {
            set,
            holder,
            limit: attributes.limit,
            make_send: attributes.make_send,
            sequence: attributes.sequence,
            sets,
            is_noted: false,
            holder_kind,
        }
    }

    /// The port's attributes.
    pub fn attributes(&self) -> Attributes
        ensures { result ≡ self.now.attributes }
    {
        Attributes {
            limit: self.limit,
            make_send: self.make_send,
            sequence: self.sequence,
            set: self.set(),
            holder: self.holder(),
        }
    }

    fn set(&self) -> Option<SetId>
        ensures { result ≡ self.now.attributes.set }
    {
        match self.sets {
            SetCount::Nothing => None,
            SetCount::One | SetCount::Several => Some(SetId::new(self.set)),
        }
    }

    /// Who holds the port's receive right.
    pub fn holder(&self) -> Holder
        ensures { result ≡ self.now.attributes.holder }
    {
        match self.holder_kind {
            HolderKind::Task => Holder::Task(TaskId::new((self.holder % TASK_NUMBERS) as u32)),
            HolderKind::Queue => Holder::QueueOf(PortId::new(self.holder)),
            HolderKind::Nobody => Holder::Nobody,
            HolderKind::Doomed => Holder::Doomed,
        }
    }

    /// The sets that the port is in, by their numbers.
    #[inline(always)]
    pub fn membership(&self) -> Membership
        ensures { result ≡ self.now.membership }
    {
        match self.sets {
            SetCount::Nothing => Membership::Nowhere,
            SetCount::One => Membership::Alone(self.set),
            SetCount::Several => Membership::Several(self.set),
        }
    }

    /// The list that the port waits in, if nobody holds it.
    pub fn waiting_list(&self) -> Option<u64>
        ensures { result ≡ waits_in self.now.attributes.holder }
    {
        match self.holder_kind {
            HolderKind::Task => None,
            HolderKind::Queue => None,
            HolderKind::Nobody => Some(LOST),
            HolderKind::Doomed => Some(DOOMED),
        }
    }

    /// The list of the noted ports, if the port is noted.
    pub fn noting_list(&self) -> Option<u64>
        ensures { result ≡ cond self.now.is_noted (Some noted_list) None }
    {
        if self.is_noted { Some(NOTED) } else { None }
    }

    /// Whether the port is in a set.
    pub fn is_member(&self) -> bool
        ensures { result ≡ is_some self.now.attributes.set }
    {
        self.sets != SetCount::Nothing
    }

    /// The sequence number of the next message received.
    pub fn sequence(&self) -> u32
        ensures { result ≡ self.now.attributes.sequence }
    {
        self.sequence
    }

    /// How many messages the queue takes from send rights.
    pub fn limit(&self) -> u32
        ensures { result ≡ self.now.attributes.limit }
    {
        self.limit
    }

    fn count_made(&mut self)
        ensures { self.new ≡ record self.old { attributes = one_made self.old.attributes } }
    {
        self.make_send = self.make_send.wrapping_add(1);
    }

    fn count_received(&mut self)
        ensures { self.new ≡ record self.old { attributes = one_received self.old.attributes } }
    {
        self.sequence = self.sequence.wrapping_add(1);
    }

    // Sets the limit and the counts of these attributes; the sets and the holder stay, and whether the port is
    // noted.
    fn set_counts(&mut self, attributes: &Attributes)
        ensures { self.new ≡ record self.old { attributes = counted_as attributes.now self.old.attributes } }
    {
        self.limit = attributes.limit;
        self.make_send = attributes.make_send;
        self.sequence = attributes.sequence;
    }

    // The counts begin again.
    fn restart_counts(&mut self)
        ensures { self.new ≡ record self.old { attributes = restarted self.old.attributes } }
    {
        self.make_send = 0;
        self.sequence = 0;
    }

    // Says which sets the port is in now.
    #[inline(always)]
    fn set_membership(&mut self, membership: Membership)
        ensures { self.new ≡ record self.old { attributes = record self.old.attributes { set = first_of membership }; membership = membership } }
    {
        match membership {
            Membership::Nowhere => self.sets = SetCount::Nothing,
            Membership::Alone(set) => {
                self.sets = SetCount::One;
                self.set = set;
            }
            Membership::Several(set) => {
                self.sets = SetCount::Several;
                self.set = set;
            }
        }
    }

    // Says who holds the receive right now.
    fn set_holder(&mut self, holder: Holder)
        ensures { self.new ≡ record self.old { attributes = held_by self.old.attributes holder } }
    {
        let (kind, number) = holder.parts();
        self.holder_kind = kind;
        self.holder = number;
    }

    // Says whether the port is noted now.
    fn set_noted(&mut self, is_noted: bool)
        ensures { self.new ≡ record self.old { is_noted = is_noted } }
    {
        self.is_noted = is_noted;
    }
}

/// A port under its key.
#[derive(Drop)]
pub struct Record<M> {
    /// Its identity.
    pub id: PortId,
    /// Its messages, the first at the front.
    pub queue: LinkedList<M>,
    /// Its attributes, and whether it is noted.
    pub kept: Kept,
    /// How many rights there are for it.
    pub counts: Counts,
}

// A port without messages takes its record in the slab, and its place in the index.
const _: () = prove!(mem::size_of::<Record<u8>>() <= 80);
