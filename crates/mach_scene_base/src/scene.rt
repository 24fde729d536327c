//! What stands where, state by state.
use crate::queues::Queue;
use crate::reading::{frame_of, holder_of, row_of, rows_of};
use crate::runs::Runs;
use crate::thing::{Row, Thing};
use mach_fates::Fates;
use mach_follow::Follower;
use mach_words::Labels;
use std::alloc::{AllocError, Global};

/// How many names of a task are drawn.
pub const MOST_ROWS: usize = 24;
/// Stands for no place.
const NOWHERE: usize = usize::MAX;

/// A state that is to be noted.
#[derive(Clone, Copy)]
pub struct State<'a> {
    /// Has made the calls up to the state.
    pub follower: &'a Follower,
    /// Where queued messages came from.
    pub fates: &'a Fates,
    /// The labels.
    pub labels: &'a Labels,
}

/// A place of the picture. Tasks and ports have numbers in the order in which they were first noted.
#[derive(Clone, Copy)]
pub enum Spot {
    /// A task.
    Task(usize),
    /// A row of a task.
    Row(usize, usize),
    /// A port.
    Port(usize),
    /// A place in a port's queue.
    Message(usize, usize),
    /// A right that a message in a port's queue carries.
    Right(usize, usize),
}

/// What stands at a place in each state.
#[derive(Drop)]
pub struct Place {
    /// The place.
    pub spot: Spot,
    /// What stands there.
    pub runs: Runs,
}

/// The places of a task.
#[derive(Drop)]
pub struct TaskPlaces {
    // Its box.
    frame: usize,
    /// Its rows, by the indices of their places.
    pub rows: Vec<usize>,
    // The names that the rows have now.
    names: Vec<Option<u32>>,
    /// Whether it ever had more names than rows.
    pub is_crowded: bool,
}

/// The places of a port.
#[derive(Drop)]
pub struct PortPlaces {
    /// Its identity.
    pub identity: u64,
    /// The number of the task beside which it is.
    pub beside: usize,
    frame: usize,
    messages: Vec<usize>,
    rights: Vec<usize>,
}

/// What stands where in the states of a history.
///
/// It takes some 64 bytes for each change of what stands at a place, and for each place.
pub struct Scene {
    alloc: Global,
    // How many states were noted.
    states: u64,
    places: Vec<Place>,
    // What stands at each place in the state that is being noted.
    now: Vec<Thing>,
    tasks: Vec<TaskPlaces>,
    ports: Vec<PortPlaces>,
    // The number among `ports` of each port by its identity, from the first that was noted.
    first_port: u64,
    queue: Queue,
}

/// Drops the places and what stood at them. It is written out, so that it is proved here alone, and not in each crate that drops one.
impl Drop for Scene {
    fn drop(self) {
        let Scene {
            alloc: _,
            states: _,
            places: _,
            now: _,
            tasks: _,
            ports: _,
            first_port: _,
            queue: _,
        } = self;
    }
}

impl Scene {
    /// Has no state. Takes no memory.
    pub fn new(alloc: Global) -> Scene {
        Scene {
            alloc,
            states: 0,
            places: Vec::new(alloc),
            now: Vec::new(alloc),
            tasks: Vec::new(alloc),
            ports: Vec::new(alloc),
            first_port: 0,
            queue: Queue::new(alloc),
        }
    }

    /// Returns how many states were noted. Constant time.
    pub fn states(&self) -> u64 {
        self.states
    }

    /// Returns the places. Constant time.
    pub fn places(&self) -> &[Place] {
        self.places.as_slice()
    }

    /// Returns the places of the tasks, by their numbers. Constant time.
    pub fn tasks(&self) -> &[TaskPlaces] {
        self.tasks.as_slice()
    }

    /// Returns the places of the ports, in the order of their identities. Constant time.
    pub fn ports(&self) -> &[PortPlaces] {
        self.ports.as_slice()
    }

    /// Notes the next state.
    ///
    /// Returns `AllocError` if out of memory; the scene is then of no further use. Linear in the tasks and ports that were
    /// ever made, in the names, and in the places.
    pub fn note(&mut self, state: &State<'_>) -> Result<(), AllocError> {
        for thing in self.now.as_mut_slice() {
            *thing = Thing::Nothing;
        }
        self.note_tasks(state)?;
        self.note_ports(state)?;
        for (index, place) in self.places.as_mut_slice().iter_mut().enumerate() {
            if let Some(thing) = self.now.get(index).copied() {
                place.runs.note(thing)?;
            }
        }
        self.states = self.states.saturating_add(1);
        Ok(())
    }

    /// Makes a place at which nothing stood so far, and returns its index.
    fn add_place(&mut self, spot: Spot) -> Result<usize, AllocError> {
        let index = self.places.len();
        let runs = Runs::after(self.alloc, self.states)?;
        self.places.push(Place { spot, runs })?;
        self.now.push(Thing::Nothing)?;
        Ok(index)
    }

    /// Sets what stands at the place of this index.
    fn set(&mut self, index: usize, thing: Thing) {
        if let Some(slot) = self.now.get_mut(index) {
            *slot = thing;
        }
    }

    /// Notes the tasks and their names.
    fn note_tasks(&mut self, state: &State<'_>) -> Result<(), AllocError> {
        for number in 0..state.follower.tables().tasks_made() {
            if number >= self.tasks.len() {
                let frame = self.add_place(Spot::Task(number))?;
                self.tasks.push(TaskPlaces {
                    frame,
                    rows: Vec::new(self.alloc),
                    names: Vec::new(self.alloc),
                    is_crowded: false,
                })?;
            }
            self.note_task(number, state)?;
        }
        Ok(())
    }

    /// Notes a task and its names.
    fn note_task(&mut self, number: usize, state: &State<'_>) -> Result<(), AllocError> {
        let Some(rows) = rows_of(self.alloc, state, number)? else {
            let frame = self.frame_of(number);
            self.set(frame, Thing::Ended);
            return Ok(());
        };
        self.free_rows(number, rows.as_slice());
        let mut hidden: u64 = 0;
        for row in rows.as_slice() {
            match self.place_of_name(number, row.name)? {
                Some(place) => self.set(place, Thing::Name(*row)),
                None => {
                    hidden = hidden.saturating_add(1);
                }
            }
        }
        if hidden > 0 {
            self.crowd(number);
        }
        let frame = self.frame_of(number);
        self.set(frame, Thing::Task(rows.as_slice().is_empty(), hidden));
        Ok(())
    }

    /// Notes that a task has more names than rows.
    fn crowd(&mut self, number: usize) {
        if let Some(task) = self.tasks.get_mut(number) {
            task.is_crowded = true;
        }
    }

    /// Returns the place of a task's box.
    fn frame_of(&self, number: usize) -> usize {
        match self.tasks.get(number) {
            Some(task) => task.frame,
            None => NOWHERE,
        }
    }

    /// Frees the rows whose names are gone. The names of `rows` are in order.
    fn free_rows(&mut self, number: usize, rows: &[Row]) {
        if let Some(task) = self.tasks.get_mut(number) {
            for slot in task.names.as_mut_slice() {
                if let Some(name) = *slot {
                    if row_of(rows, name).is_none() {
                        *slot = None;
                    }
                }
            }
        }
    }

    /// Returns the place of a name, which gets the task's first free row if it has none; `None` if none is free.
    fn place_of_name(&mut self, number: usize, name: u32) -> Result<Option<usize>, AllocError> {
        let Some(row) = self.row_for(number, name) else {
            return Ok(None);
        };
        if let Some(task) = self.tasks.get_mut(number) {
            if let Some(slot) = task.names.get_mut(row) {
                *slot = Some(name);
                return Ok(task.rows.get(row).copied());
            }
        }
        let place = self.add_place(Spot::Row(number, row))?;
        if let Some(task) = self.tasks.get_mut(number) {
            task.rows.push(place)?;
            task.names.push(Some(name))?;
        }
        Ok(Some(place))
    }

    /// Returns the row of a name, or the first that is free for it.
    fn row_for(&self, number: usize, name: u32) -> Option<usize> {
        let task = self.tasks.get(number)?;
        let mut free = None;
        for (row, slot) in task.names.as_slice().iter().enumerate() {
            match *slot {
                Some(other) if other == name => return Some(row),
                None if free.is_none() => {
                    free = Some(row);
                }
                _ => {}
            }
        }
        if free.is_some() {
            return free;
        }
        if task.names.len() < MOST_ROWS {
            return Some(task.names.len());
        }
        None
    }

    /// Notes the ports and their queues.
    fn note_ports(&mut self, state: &State<'_>) -> Result<(), AllocError> {
        let tables = state.follower.tables();
        let end = if tables.are_ports_exhausted() {
            u64::MAX
        } else {
            tables.next_port().number()
        };
        if self.ports.is_empty() {
            self.first_port = self.first_of(state, end);
        }
        for identity in self.first_port..end {
            self.note_port(identity, state)?;
        }
        Ok(())
    }

    /// Returns the identity of the first port that lives when the first port is noted.
    fn first_of(&self, state: &State<'_>, end: u64) -> u64 {
        for identity in 0..end {
            if frame_of(state, identity).is_some() {
                return identity;
            }
        }
        end
    }

    /// Notes a port and its queue. A port that died before it was noted has no place.
    fn note_port(&mut self, identity: u64, state: &State<'_>) -> Result<(), AllocError> {
        let Ok(number) = usize::try_from(identity.saturating_sub(self.first_port)) else {
            return Ok(());
        };
        if number >= self.ports.len() {
            self.add_port(identity)?;
        }
        match frame_of(state, identity) {
            Some(thing) => {
                let place = self.place_of_port(number, holder_of(state, identity))?;
                self.set(place, Thing::Port(thing));
                self.note_queue(number, identity, state)
            }
            None => {
                let place = self.frame_of_port(number);
                self.set(place, Thing::Dead);
                Ok(())
            }
        }
    }

    /// Returns the place of a port's box.
    fn frame_of_port(&self, number: usize) -> usize {
        match self.ports.get(number) {
            Some(port) => port.frame,
            None => NOWHERE,
        }
    }

    /// Adds a port that has no place yet.
    fn add_port(&mut self, identity: u64) -> Result<(), AllocError> {
        self.ports.push(PortPlaces {
            identity,
            beside: NOWHERE,
            frame: NOWHERE,
            messages: Vec::new(self.alloc),
            rights: Vec::new(self.alloc),
        })?;
        Ok(())
    }

    /// Returns the place of a live port's box. A port that has none gets it beside this task.
    fn place_of_port(&mut self, number: usize, beside: usize) -> Result<usize, AllocError> {
        if let Some(port) = self.ports.get(number) {
            if port.frame != NOWHERE {
                return Ok(port.frame);
            }
        }
        let frame = self.add_place(Spot::Port(number))?;
        if let Some(port) = self.ports.get_mut(number) {
            port.frame = frame;
            port.beside = beside;
        }
        Ok(frame)
    }

    /// Notes the messages of a port's queue that are drawn, and their rights.
    fn note_queue(
        &mut self,
        number: usize,
        identity: u64,
        state: &State<'_>,
    ) -> Result<(), AllocError> {
        self.queue.read(state, identity)?;
        for turn in 0..self.queue.messages.len() {
            if let Some(thing) = self.queue.messages.get(turn).copied() {
                let place = self.message_place(number, turn)?;
                self.set(place, thing);
            }
        }
        for turn in 0..self.queue.rights.len() {
            if let Some(thing) = self.queue.rights.get(turn).copied() {
                let place = self.right_place(number, turn)?;
                self.set(place, thing);
            }
        }
        Ok(())
    }

    /// Returns the place of a message of a port.
    fn message_place(&mut self, number: usize, turn: usize) -> Result<usize, AllocError> {
        if let Some(port) = self.ports.get(number) {
            if let Some(place) = port.messages.get(turn) {
                return Ok(*place);
            }
        }
        let place = self.add_place(Spot::Message(number, turn))?;
        if let Some(port) = self.ports.get_mut(number) {
            port.messages.push(place)?;
        }
        Ok(place)
    }

    /// Returns the place of a right that a message of a port carries.
    fn right_place(&mut self, number: usize, turn: usize) -> Result<usize, AllocError> {
        if let Some(port) = self.ports.get(number) {
            if let Some(place) = port.rights.get(turn) {
                return Ok(*place);
            }
        }
        let place = self.add_place(Spot::Right(number, turn))?;
        if let Some(port) = self.ports.get_mut(number) {
            port.rights.push(place)?;
        }
        Ok(place)
    }
}
