//! The calls of which workloads and worlds are made.
//!
//! A number that stands for a name is the name's place: the name is the first fresh one of that index.
use crate::messages::Message;
use crate::naming::Naming;
use mach_types::{Event, Name, TaskId};
use std::alloc::{AllocError, Global};

/// The task whose names a world fills, and by which workloads receive.
pub const HOME: u32 = 0;

/// The task that sends to it.
pub const PEER: u32 = 1;

/// The task that has the ports of others.
pub const OTHER: u32 = 2;

/// The name of a port set that `HOME` has in every world.
pub const SET: u32 = 200;

/// `HOME`'s name of the first port or set that stays because its identity is chosen.
pub const KEPT: u32 = 64_536;

/// How many names a full task has.
pub const FULL: u32 = 65_535;

/// The number of a receive right, for allocation.
pub const RECEIVE: u32 = 1;

/// The number of a port set.
pub const PORT_SET: u32 = 3;

/// The number of a dead name.
pub const DEAD_NAME: u32 = 4;

/// `HOME`'s name on which the workload of dead-name requests asks.
pub const ASKED: u32 = 2;

/// The variant of a no-senders request.
const NO_SENDERS_REQUEST: u32 = 70;

/// The variant of a dead-name request.
const DEAD_NAME_REQUEST: u32 = 72;

/// The number of the disposition move receive.
pub const MOVE_RECEIVE: u32 = 16;

/// The number of the disposition move send once.
pub const MOVE_SEND_ONCE: u32 = 18;

/// The number of the disposition copy send.
pub const COPY_SEND: u32 = 19;

/// The number of the disposition make send.
pub const MAKE_SEND: u32 = 20;

/// The number of the disposition make send once.
pub const MAKE_SEND_ONCE: u32 = 21;

/// The bit of a message's header that says that rights stand in its body.
pub const COMPLEX: u32 = 0x8000_0000;

/// Which of the rounds calls are made in, and what labels are found by.
#[derive(Clone, Copy)]
pub struct Round {
    /// How the kernel makes fresh names.
    pub naming: Naming,
    /// Its number, from 0.
    pub index: u32,
    /// A number whose high bits are as good as random.
    pub random: u32,
    /// The name in the last reply that had one, at first 0.
    pub returned: u32,
    /// The name that was chosen last, at first the name of `ASKED`.
    pub chosen: u32,
}

impl Round {
    /// The first, before any name was returned or chosen.
    pub fn first(naming: Naming) -> Round {
        Round {
            naming,
            index: 0,
            random: 0,
            returned: 0,
            chosen: naming.first_name(ASKED),
        }
    }

    /// The name of this place.
    pub(crate) fn name(self, place: u32) -> Name {
        Name::new(self.naming.first_name(place))
    }
}

/// A name in a call, by its place or as it was returned or chosen; or a task, by its number.
#[derive(Clone, Copy)]
pub enum Label {
    /// The same in each round.
    Same(u32),
    /// This in the first round, and one more in each further one.
    Rising(u32),
    /// One of those of a full task, at random.
    Any,
    /// The name in the last reply that had one. For a call of the cycle this is the last reply before
    /// `Step::Add`; after `Step::FollowNames` replies of the cycle, and of cycles before it, count too.
    Returned,
    /// The name that was chosen last.
    Chosen,
}

impl Label {
    /// The name in this round.
    pub(crate) fn name(self, round: Round) -> Name {
        match self {
            Label::Returned => Name::new(round.returned),
            Label::Chosen => Name::new(round.chosen),
            _ => round.name(self.number(round)),
        }
    }

    /// The task in this round.
    fn task(self, round: Round) -> TaskId {
        TaskId::new(self.number(round))
    }

    /// The name's place or the task's number in this round, 0 where the label has neither.
    fn number(self, round: Round) -> u32 {
        match self {
            Label::Same(number) => number,
            Label::Rising(number) => number.wrapping_add(round.index),
            Label::Any => round.random / 65_536 % FULL + 1,
            Label::Returned | Label::Chosen => 0,
        }
    }
}

/// The send-once right by which a notice is sent.
#[derive(Clone, Copy)]
pub enum Notify {
    /// Made from the receive right under the name.
    Made(u32),
    /// Moved from under the name.
    Moved(Label),
    /// None: the request is taken away, and its right returned under a fresh name.
    Nothing,
}

impl Notify {
    /// The name of the right and its disposition in this round.
    fn parts(self, round: Round) -> (Name, u32) {
        match self {
            Notify::Made(name) => (round.name(name), MAKE_SEND_ONCE),
            Notify::Moved(label) => (label.name(round), MOVE_SEND_ONCE),
            Notify::Nothing => (Name::null(), MAKE_SEND_ONCE),
        }
    }
}

/// A call, as numbers: of `HOME` where it names no task.
#[derive(Clone, Copy)]
pub enum Call {
    /// Makes a task.
    Task,
    /// Ends the task.
    End(u32),
    /// The task makes a right of this number, under a fresh name.
    Make(Label, u32),
    /// The task makes a right of this number, under this name.
    MakeNamed(u32, u32, Label),
    /// Gives up one reference under the name.
    GiveUp(Label),
    /// Gives up all that is under the name.
    Destroy(Label),
    /// Changes the send references under the name.
    Change(u32, i32),
    /// The task gets, under the name, a send right made from what another has under a name.
    Give(Label, Label, u32, Label),
    /// The task asks to be told when the port under the name dies, or takes that request away.
    Ask(Label, Label, Notify),
    /// Asks, by the port under 1, to be told when the port under the name has no senders.
    AskSenders(u32),
    /// Sets the queue limit of the port under the name.
    Limit(u32, u32),
    /// Takes a send right, made from what `PEER` has under the name.
    Extract(u32),
    /// Asks for the type of the name.
    Type(Label),
    /// Asks for all names.
    Names,
    /// Gives what is under the first name the second in its place.
    Rename(u32, u32),
    /// Asks for the status of the port under the name.
    Status(u32),
    /// Puts the port into a set, or into none where that is 0.
    Put(Label, Label),
    /// Puts the port into a set, beside those that it is in.
    Enter(Label, Label),
    /// Takes the port out of a set alone.
    Leave(Label, Label),
    /// The task sends the message.
    Send(u32, Message),
    /// The task receives by the name, with room for every message.
    Receive(u32, u32),
}

impl Call {
    /// The call in this round.
    pub fn event(self, alloc: Global, round: Round) -> Result<Event, AllocError> {
        match self {
            Call::Send(task, message) => {
                let bytes = message.bytes(alloc, round)?;
                Ok(Event::Send(TaskId::new(task), bytes))
            }
            Call::Make(task, right) => Ok(Event::Allocate(task.task(round), right)),
            Call::MakeNamed(task, right, label) => {
                Ok(Event::AllocateName(TaskId::new(task), right, label.name(round)))
            }
            Call::Receive(task, name) => {
                Ok(Event::Receive(TaskId::new(task), round.name(name), 65_536, false))
            }
            call => Ok(call.event_of_home(TaskId::new(HOME), round)),
        }
    }

    /// The same, where it makes no right, sends and receives nothing.
    fn event_of_home(self, home: TaskId, round: Round) -> Event {
        match self {
            Call::End(task) => Event::TaskTerminate(TaskId::new(task)),
            Call::GiveUp(label) => Event::Deallocate(home, label.name(round)),
            Call::Destroy(label) => Event::Destroy(home, label.name(round)),
            Call::Change(name, delta) => Event::ModRefs(home, round.name(name), 0, delta),
            Call::Give(task, label, from, poly) => give(
                (task.task(round), label.name(round)),
                (TaskId::new(from), poly.name(round)),
            ),
            Call::Ask(task, name, notify) => ask(
                task.task(round),
                name.name(round),
                DEAD_NAME_REQUEST,
                notify.parts(round),
            ),
            Call::AskSenders(name) => ask(
                home,
                round.name(name),
                NO_SENDERS_REQUEST,
                Notify::Made(1).parts(round),
            ),
            Call::Limit(name, limit) => Event::SetQlimit(home, round.name(name), limit),
            Call::Extract(name) => {
                Event::ExtractRight(TaskId::new(PEER), round.name(name), MAKE_SEND, home)
            }
            Call::Type(label) => Event::NameType(home, label.name(round)),
            Call::Names => Event::Names(home),
            Call::Rename(from, to) => Event::Rename(home, round.name(from), round.name(to)),
            Call::Status(name) => Event::ReceiveStatus(home, round.name(name)),
            Call::Put(label, set) => Event::MoveMember(home, label.name(round), set.name(round)),
            Call::Enter(label, set) => {
                Event::InsertMember(home, label.name(round), set.name(round))
            }
            Call::Leave(label, set) => {
                Event::ExtractMember(home, label.name(round), set.name(round))
            }
            // the only one left that comes here is `Call::Task`
            _ => Event::TaskCreate,
        }
    }
}

/// The call that gives a task, under a name, a send right made from what another has under a name.
fn give(to: (TaskId, Name), from: (TaskId, Name)) -> Event {
    Event::InsertRight(to.0, to.1, from.0, from.1, MAKE_SEND)
}

/// The call by which a task makes a request on a name, with the name and disposition of the right to notify by.
fn ask(task: TaskId, name: Name, variant: u32, notify: (Name, u32)) -> Event {
    Event::RequestNotification(task, name, variant, 0, notify.0, notify.1)
}
