//! A kernel that is made ready for a workload, and the calls to measure.
use crate::calls::{ASKED, Call, HOME, KEPT, Round};
use crate::chosen::{Identities, is_chosen, next_name};
use crate::messages::name_in_message;
use crate::naming::Naming;
use kernel_core::Kernel;
use mach_types::{Bytes, Event, Reply, TaskId};
use std::alloc::{AllocError, AllocFailed, Global};
use std::mem;

/// What stops a measurement.
#[derive(Clone, Copy)]
pub enum Stop {
    /// A call that makes the kernel ready was refused: its number, from 1.
    Setup(usize),
    /// A call that is measured was refused: its number in the cycle, from 1.
    Cycle(usize),
    /// Memory was refused.
    OutOfMemory,
}

impl From<AllocError> for Stop {
    fn from(_: AllocError) -> Stop {
        Stop::OutOfMemory
    }
}

impl<T: Drop> From<AllocFailed<T>> for Stop {
    fn from(_: AllocFailed<T>) -> Stop {
        Stop::OutOfMemory
    }
}

/// How many bytes a message has room for where the cycle's calls are copied.
const ROOM: usize = 24;

/// What is done with a call, or with all of the cycle.
#[derive(Clone, Copy)]
pub enum Step {
    /// It is made at once, to make the kernel ready.
    Make(Call),
    /// It is put at the end of the cycle.
    Add(Call),
    /// `HOME` makes a port or a set, as the right's number says, and destroys it at once unless its identity is
    /// chosen. Those that stay have rising names, from `KEPT` on.
    Sift(u32),
    /// The next name is chosen: `Label::Chosen` is that name from then on.
    Choose,
    /// The cycle is made as by a caller that has bytes: a message is sent from a copy, and copied out where it
    /// is received.
    CopyCalls,
    /// Calls of the cycle, all of which are added after this, take `Label::Returned` from the cycle's replies. So the
    /// cycles must be rehearsed.
    FollowNames,
}

/// Steps that are made in rounds.
#[derive(Clone, Copy)]
pub struct Group {
    /// How many rounds.
    pub rounds: u32,
    /// The steps of each.
    pub steps: &'static [Step],
}

/// A call of a cycle that is rehearsed, in the round in which it was added.
#[derive(Clone, Copy)]
struct Planned {
    call: Call,
    round: Round,
}

/// A kernel, with the calls of one cycle.
#[derive(Drop)]
pub struct Bench {
    alloc: Global,
    naming: Naming,
    kernel: Kernel,
    made: usize,
    identities: Identities,
    /// How many of the sifted ports or sets stayed.
    kept: u32,
    round: Round,
    /// The calls to measure: of one cycle, or of all cycles where each has names of its own.
    cycle: Vec<Event>,
    copied: bool,
    follows: bool,
    /// The cycle, if it is to be rehearsed.
    plan: Vec<Planned>,
    /// The kernel of the rehearsal. It keeps its memory, so that the one that is measured takes memory as a first one.
    rehearsed: Option<Kernel>,
}

impl Bench {
    /// An empty kernel that makes fresh names so, with no calls to measure.
    pub fn new(alloc: Global, naming: Naming) -> Bench {
        Bench {
            alloc,
            naming,
            kernel: naming.kernel(alloc),
            made: 0,
            identities: Identities::first(),
            kept: 0,
            round: Round::first(naming),
            cycle: Vec::new(alloc),
            copied: false,
            follows: false,
            plan: Vec::new(alloc),
            rehearsed: None,
        }
    }

    /// Takes the steps of these groups in turn.
    pub fn take(&mut self, groups: &[Group]) -> Result<(), Stop> {
        for group in groups {
            self.take_rounds(group.rounds, group.steps)?;
        }
        Ok(())
    }

    /// Takes the steps in so many rounds.
    fn take_rounds(&mut self, rounds: u32, steps: &[Step]) -> Result<(), Stop> {
        self.round.random = 1;
        for index in 0..rounds {
            self.round.index = index;
            self.round.random = next_random(self.round.random);
            self.take_steps(steps)?;
        }
        Ok(())
    }

    /// Takes the steps of one round.
    fn take_steps(&mut self, steps: &[Step]) -> Result<(), Stop> {
        for step in steps {
            self.take_step(*step)?;
        }
        Ok(())
    }

    fn take_step(&mut self, step: Step) -> Result<(), Stop> {
        match step {
            Step::Make(call) => self.make(&call.event(self.alloc, self.round)?),
            Step::Add(call) => self.add(call),
            Step::Sift(right) => self.sift(right),
            Step::Choose => {
                let asked = self.naming.first_name(ASKED);
                self.round.chosen = next_name(self.round.chosen, asked);
                Ok(())
            }
            Step::CopyCalls => {
                self.copied = true;
                Ok(())
            }
            Step::FollowNames => {
                self.follows = true;
                Ok(())
            }
        }
    }

    /// Makes a right of `HOME`'s, and destroys it unless its identity is chosen.
    fn sift(&mut self, right: u32) -> Result<(), Stop> {
        let home = TaskId::new(HOME);
        let name = self.round.name(KEPT.wrapping_add(self.kept));
        let identity = self.identities.next(right);
        self.make(&Event::AllocateName(home, right, name))?;
        if is_chosen(identity) {
            self.kept = self.kept.wrapping_add(1);
            return Ok(());
        }
        self.make(&Event::Destroy(home, name))
    }

    /// Makes a call at once.
    fn make(&mut self, event: &Event) -> Result<(), Stop> {
        self.made = self.made.saturating_add(1);
        if !self.follow(event) {
            return Err(Stop::Setup(self.made));
        }
        self.identities.count(event);
        Ok(())
    }

    /// Makes a call, and keeps the name in its reply. Whether it was done.
    fn follow(&mut self, event: &Event) -> bool {
        let reply = self.kernel.step(event);
        self.round.returned = name_in(&reply).unwrap_or(self.round.returned);
        !is_refused(&reply)
    }

    /// Puts a call at the end of the cycle.
    fn add(&mut self, call: Call) -> Result<(), Stop> {
        let round = self.round;
        if self.follows {
            self.plan.push(Planned { call, round })?;
            return Ok(());
        }
        self.cycle.push(call.event(self.alloc, round)?)?;
        Ok(())
    }

    /// Returns whether the cycles must be rehearsed before they are measured.
    pub fn follows_names(&self) -> bool {
        self.follows
    }

    /// Makes so many cycles, to know the names in their calls, and begins anew with an empty kernel.
    ///
    /// One cycle is made in profile 1, in which each has the same names. The calls stay for `run`, with memory for
    /// each, so the kernel is to be made ready once more by the same steps.
    pub fn rehearse(&mut self, times: u32) -> Result<(), Stop> {
        let cycles = match self.naming {
            Naming::Plain => 1,
            Naming::Tagged | Naming::Several => times,
        };
        // names that were returned after the cycle was added are none of its own
        if let Some(first) = self.plan.first() {
            self.round.returned = first.round.returned;
        }
        for _ in 0..cycles {
            self.rehearse_cycle()?;
        }
        self.begin_anew();
        Ok(())
    }

    /// Makes a cycle, and puts its calls at the end of those to measure.
    fn rehearse_cycle(&mut self) -> Result<(), Stop> {
        for index in 0..self.plan.len() {
            if !self.rehearse_call(index)? {
                return Err(Stop::Cycle(index.saturating_add(1)));
            }
        }
        Ok(())
    }

    /// Makes the cycle's call at this place, from 0, and puts it at the end of those to measure. Whether it was done.
    fn rehearse_call(&mut self, index: usize) -> Result<bool, Stop> {
        let Some(Planned { call, round }) = self.plan.get(index).copied() else {
            return Ok(false);
        };
        let returned = self.round.returned;
        let event = call.event(self.alloc, Round { returned, ..round })?;
        let is_done = self.follow(&event);
        self.cycle.push(event)?;
        Ok(is_done)
    }

    /// Puts an empty kernel in place of the one that was rehearsed on, as if no step was taken.
    fn begin_anew(&mut self) {
        let empty = self.naming.kernel(self.alloc);
        self.rehearsed = Some(mem::replace(&mut self.kernel, empty));
        self.made = 0;
        self.identities = Identities::first();
        self.kept = 0;
        self.round = Round::first(self.naming);
        self.plan.clear();
    }

    /// In how many turns the last call's step ended.
    pub fn last_turns(&self) -> u64 {
        self.kernel.last_turns()
    }

    /// Makes the cycle so many times: as many as were rehearsed, if it was.
    pub fn run(&mut self, times: u32) -> Result<(), Stop> {
        let times = match self.naming {
            // the cycles lie in a row, each with names of its own
            Naming::Tagged | Naming::Several if self.follows => 1,
            _ => times,
        };
        let events = self.cycle.as_slice();
        if self.copied {
            measured_copied(self.alloc, &mut self.kernel, events, times)
        } else {
            measured(&mut self.kernel, events, times)
        }
    }
}

/// The number after this one in a row whose high bits are as good as random.
fn next_random(random: u32) -> u32 {
    random.wrapping_mul(1_664_525).wrapping_add(1_013_904_223)
}

/// The name in a reply, if it has one.
fn name_in(reply: &Reply) -> Option<u32> {
    match reply {
        Reply::Name(name) | Reply::Right(name, _) | Reply::Previous(name) => Some(name.number()),
        Reply::Message(bytes) => name_in_message(bytes.as_slice()),
        _ => None,
    }
}

/// Makes the calls so many times: the function in which instructions are counted.
#[inline(never)]
fn measured(kernel: &mut Kernel, events: &[Event], times: u32) -> Result<(), Stop> {
    for _ in 0..times {
        make_calls(kernel, events)?;
    }
    Ok(())
}

/// Makes the calls in turn, up to the first that is refused.
fn make_calls(kernel: &mut Kernel, events: &[Event]) -> Result<(), Stop> {
    for (index, event) in events.iter().enumerate() {
        if is_refused(&kernel.step(event)) {
            return Err(Stop::Cycle(index.saturating_add(1)));
        }
    }
    Ok(())
}

/// Makes the calls so many times as a caller that has bytes: instructions are counted here then.
#[inline(never)]
fn measured_copied(
    alloc: Global,
    kernel: &mut Kernel,
    events: &[Event],
    times: u32,
) -> Result<(), Stop> {
    let mut room = [0; ROOM];
    for _ in 0..times {
        make_copied_calls(alloc, kernel, events, &mut room)?;
    }
    Ok(())
}

/// Makes the calls in turn, up to the first that is refused or whose message is too long for the room.
fn make_copied_calls(
    alloc: Global,
    kernel: &mut Kernel,
    events: &[Event],
    room: &mut [u8],
) -> Result<(), Stop> {
    for (index, event) in events.iter().enumerate() {
        if !is_made_copied(alloc, kernel, event, room)? {
            return Err(Stop::Cycle(index.saturating_add(1)));
        }
    }
    Ok(())
}

/// Makes a call; a message is sent from a copy, and one that is received is copied into the room. Whether it
/// was done, and fits there.
fn is_made_copied(
    alloc: Global,
    kernel: &mut Kernel,
    event: &Event,
    room: &mut [u8],
) -> Result<bool, AllocError> {
    match event {
        Event::Send(task, bytes) => {
            let copy = Vec::from_slice(alloc, bytes.as_slice())?;
            let event = Event::Send(*task, Bytes::from_vec(copy));
            Ok(!is_refused(&kernel.step(&event)))
        }
        _ => Ok(is_copied_out(&kernel.step(event), room)),
    }
}

/// Copies a message into the room; whether it fits, and the call was done.
fn is_copied_out(reply: &Reply, room: &mut [u8]) -> bool {
    match reply {
        Reply::Message(bytes) => is_put(bytes.as_slice(), room),
        _ => !is_refused(reply),
    }
}

/// Copies the bytes to the front of the room; whether they fit.
fn is_put(bytes: &[u8], room: &mut [u8]) -> bool {
    if bytes.len() > room.len() {
        return false;
    }
    room[..bytes.len()].copy_from_slice(bytes);
    true
}

/// Returns whether the call was refused, or found no message.
pub fn is_refused(reply: &Reply) -> bool {
    match reply {
        Reply::Code(code) => *code != 0,
        Reply::Empty(_) | Reply::TooLarge(_) | Reply::NoRecord => true,
        _ => false,
    }
}
