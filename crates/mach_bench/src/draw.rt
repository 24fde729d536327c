//! Calls drawn at random, most of which can be done.
use mach_bench_base::{Body, Label, Message, Naming, Round};
use mach_types::{Bytes, Event, Name, TaskId};
use std::alloc::{AllocError, Global};

/// How many names of a task calls are about: 1 to this.
pub const NAMES: u32 = 16;
/// How many kinds of calls are drawn from, each as often as another.
const KINDS: u32 = 32;
/// The bit of a message's header that says that rights stand in its body.
const COMPLEX: u32 = 0x8000_0000;
/// The first number of a disposition; there are six.
const MOVE_RECEIVE: u32 = 16;
/// The number of the disposition make send.
const MAKE_SEND: u32 = 20;
/// The number of the disposition make send once.
const MAKE_SEND_ONCE: u32 = 21;

/// Two tasks: whose call it is, and with whom it shares.
#[derive(Clone, Copy)]
pub struct Pair {
    /// The task that makes the call.
    pub own: TaskId,
    /// The task that it takes rights from.
    pub other: TaskId,
}

/// A row of numbers that are as good as random: the same for the same seed.
#[derive(Clone, Copy)]
pub struct Draw {
    state: u64,
}

impl Draw {
    /// The row of this seed.
    pub fn new(seed: u64) -> Draw {
        Draw { state: seed }
    }

    /// A number below this one; 0 where that is 0.
    pub fn below(&mut self, limit: u32) -> u32 {
        self.state = self
            .state
            .wrapping_mul(6_364_136_223_846_793_005)
            .wrapping_add(1_442_695_040_888_963_407);
        ((self.state >> 33) as u32).checked_rem(limit).unwrap_or(0)
    }

    /// A name that calls are about.
    fn name(&mut self) -> Name {
        Name::new(self.below(NAMES).saturating_add(1))
    }

    /// The number of a disposition: mostly make send.
    fn disposition(&mut self) -> u32 {
        match self.below(8) {
            0 => self.below(6).saturating_add(MOVE_RECEIVE),
            _ => MAKE_SEND,
        }
    }

    /// The number of a right to make: mostly a receive right, else a port set or a dead name.
    fn right(&mut self) -> u32 {
        match self.below(16) {
            0 => 3,
            1 => 4,
            _ => 1,
        }
    }

    /// A call.
    pub fn call(&mut self, alloc: Global, pair: Pair) -> Result<Event, AllocError> {
        let (task, kind) = (pair.own, self.below(KINDS));
        match kind {
            0..=9 => Ok(Event::Send(task, self.message(alloc)?)),
            10..=19 => Ok(self.receipt(task, kind == 10)),
            20..=25 => Ok(self.making(pair, kind)),
            _ => Ok(self.using(task, kind)),
        }
    }

    /// A call that makes a name or a right, or asks for a notice.
    fn making(&mut self, pair: Pair, kind: u32) -> Event {
        let (task, name) = (pair.own, self.name());
        match kind {
            20..=22 => Event::AllocateName(task, self.right(), name),
            23 => Event::InsertRight(task, name, pair.other, self.name(), self.disposition()),
            24 => Event::ExtractRight(pair.other, name, self.disposition(), task),
            _ => {
                let (variant, sync, notify) = (self.variant(), self.below(2), self.name());
                Event::RequestNotification(task, name, variant, sync, notify, MAKE_SEND_ONCE)
            }
        }
    }

    /// The variant of a request: dead-name, no-senders or port-destroyed.
    fn variant(&mut self) -> u32 {
        match self.below(4) {
            0 => 69,
            1 => 70,
            _ => 72,
        }
    }

    /// A receive, with room for most messages.
    fn receipt(&mut self, task: TaskId, large: bool) -> Event {
        let room = self.below(64).saturating_add(64);
        Event::Receive(task, self.name(), room, large)
    }

    /// A call that uses what is there.
    fn using(&mut self, task: TaskId, kind: u32) -> Event {
        let name = self.name();
        match kind {
            26 => Event::Deallocate(task, name),
            27 => Event::Destroy(task, name),
            28 => Event::MoveMember(task, name, self.name()),
            29 => Event::ModRefs(task, name, self.below(2), self.change()),
            30 => Event::NameType(task, name),
            _ => Event::ReceiveStatus(task, name),
        }
    }

    /// By how much the references under a name change.
    fn change(&mut self) -> i32 {
        match self.below(3) {
            0 => -1,
            1 => 1,
            _ => 2,
        }
    }

    /// A reply right, in one of eight cases: the name that it is made from and its bits in a header.
    fn answer(&mut self) -> (u32, u32) {
        match self.below(8) {
            0 => (self.name().number(), MAKE_SEND_ONCE << 8),
            _ => (0, 0),
        }
    }

    /// A message to a name, with a reply right, or none, and a body of data or of rights.
    fn message(&mut self, alloc: Global) -> Result<Bytes, AllocError> {
        let (to, body, (reply, answer)) = (self.name(), self.body(), self.answer());
        let complex = match body {
            Body::Zeros(_) => 0,
            _ => COMPLEX,
        };
        let message = Message {
            bits: complex | self.disposition() | answer,
            to: Label::Same(to.number()),
            reply,
            body,
        };
        message.bytes(alloc, Round::first(Naming::Plain))
    }

    /// What stands behind the header.
    fn body(&mut self) -> Body {
        match self.below(32) {
            0 => Body::Moved(Label::Same(self.name().number())),
            1..=8 => Body::Items(self.below(2).saturating_add(1)),
            _ => Body::Zeros(self.below(9)),
        }
    }
}
