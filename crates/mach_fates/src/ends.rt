//! What became of messages, once it is known.
ghost use Rattle.std.specs.Prelude.{◌≡◌, IfOk, OnOk, [], Some, None, map};
ghost use Rattle.std.specs.BTreeMap.{get, Updates};
ghost use Rattle.std.specs.Ordering.{nat_cmp};
ghost use Rattle.mach_types.specs.declared.profiles.Profile.{Profile};
ghost use Rattle.mach_model.specs.State.{opening_in};
ghost use Rattle.mach_fates.specs.Endings.{end_at, known, or_none, Tells};
ghost use Rattle.mach_fates.specs.Noting.{died, Counts, CountsAt, CountsTaken, EndsAs, Grows, NotesRuns, Settled, SettledAt, SettlesAll};

use crate::fates::Fates;
use crate::laws::next_step;
use crate::origin::Sender;
use kernel_lock::Entry;
use mach_types::Reply;
use std::alloc::{AllocError, Global};
use std::collections::BTreeMap;

/// What became of a message.
#[derive(Clone, Copy)]
pub enum End {
    /// It is queued at the end of the history.
    Queued,
    /// It was received in the entry of this number, by this caller.
    Received(u64, Sender),
    /// It was destroyed as too long in the entry of this number.
    TooLong(u64),
    /// It was destroyed with its port in the entry of this number.
    Died(u64),
}

/// What became of the messages of a port.
#[derive(Drop)]
pub(crate) struct Noted {
    // How many of them were taken.
    taken: usize,
    // By the numbers of the messages, in the order in which they came.
    ends: Vec<End>,
}

/// What became of each message of a history.
#[derive(Drop)]
pub struct Ends {
    alloc: Global,
    ports: BTreeMap<u64, Noted>,
}

impl Ends {
    /// Knows no message: it stands at the beginning of a history. Takes no memory.
    pub fn new(alloc: Global) -> Ends
        ensures begins { (profile : Profile) → Tells result [] (opening_in profile) }
    {
        let ports = BTreeMap::new(alloc);
        Ends { alloc, ports }
    }

    /// Returns what became of a port's message; `None` if it isn't known. `place` is its number among all messages that ever
    /// came to the port, from 0. Logarithmic time.
    pub fn get(&self, port: u64, place: u64) -> Option<End>
        ensures { result ≡ end_at self.now port place }
    {
        let Some(noted) = self.ports.get(&port) else {
            return None;
        };
        noted.ends.get(place as usize).copied()
    }

    /// Notes what the step of the entry of this number did. The fates must have followed this entry last.
    ///
    /// What is noted is true of each run of which the fates are (`specs/Endings`): each message has exactly one end.
    ///
    /// Returns `AllocError` if out of memory; the ends are then of no further use. Logarithmic time for each port that the
    /// step touched, and linear in the messages that came. If a port died it is linear in all that ever came there.
    pub fn note(&mut self, fates: &Fates, entry: &Entry, number: u64) -> Result<(), AllocError>
        ensures { OnOk result (NotesRuns entry.now.event entry.now.reply number fates.now self.old self.new) }
    {
        next_step();
        let end = end_of_taken(entry, number);
        self.note_taken(fates, end)?;
        self.settle_all(fates, fates.visited(), number)
    }

    /// Notes that the message ends so that the step took.
    fn note_taken(&mut self, fates: &Fates, end: End) -> Result<(), AllocError>
        ensures { OnOk result (CountsTaken fates.now.taken end self.old self.new) }
    {
        let Some(taken) = fates.taken() else {
            return Ok(());
        };
        self.count(taken.port, end)
    }

    /// Notes that the next message of the port is taken, and ends so.
    fn count(&mut self, port: u64, end: End) -> Result<(), AllocError>
        ensures { OnOk result (CountsAt port end self.old self.new) }
    {
        let mut noted = self.take(port);
        noted.count(end)?;
        keep(&mut self.ports, port, noted)
    }

    /// Settles each of these ports.
    fn settle_all(&mut self, fates: &Fates, ports: &[u64], number: u64) -> Result<(), AllocError>
        ensures { OnOk result (SettlesAll number fates.now ports.now self.old self.new) }
    {
        for port in ports {
            self.settle(*port, fates.queued(*port), number)?;
        }
        Ok(())
    }

    /// Notes the messages that came to the port, by how many are queued there; or that it died, if it doesn't live.
    fn settle(&mut self, port: u64, queued: Option<usize>, number: u64) -> Result<(), AllocError>
        ensures { OnOk result (SettledAt number port queued self.old self.new) }
    {
        let before = self.take(port);
        let noted = before.settle(self.alloc, queued, number)?;
        keep(&mut self.ports, port, noted)
    }

    /// Takes out what is noted of the port.
    fn take(&mut self, port: u64) -> Noted
        ensures same { known result ≡ or_none (get nat_cmp self.old.ports port) }
        ensures gone { Updates nat_cmp self.old.ports self.new.ports port None }
    {
        match self.ports.remove(&port) {
            Some(noted) => noted,
            None => Noted {
                taken: 0,
                ends: Vec::new(self.alloc),
            },
        }
    }
}

impl Noted {
    /// Notes that the next message is taken, and ends so.
    fn count(&mut self, end: End) -> Result<(), AllocError>
        ensures { OnOk result (Counts end (known self.old) (known self.new)) }
    {
        if let Some(slot) = self.ends.get_mut(self.taken) {
            *slot = end;
        }
        self.taken = self.taken.checked_add(1).ok_or(AllocError)?;
        Ok(())
    }

    /// Returns this with the messages that came, or with the end of the port.
    fn settle(self, alloc: Global, queued: Option<usize>, number: u64) -> Result<Noted, AllocError>
        ensures { IfOk result (λ new. Settled number queued (known self) (known new)) }
    {
        let taken = self.taken;
        let Some(queued) = queued else {
            let ends = die(alloc, self.ends.as_slice(), number)?;
            return Ok(Noted { taken, ends });
        };
        let total = taken.checked_add(queued).ok_or(AllocError)?;
        let ends = grow(self.ends, total)?;
        Ok(Noted { taken, ends })
    }
}

/// Appends queued messages until there are so many.
fn grow(ends: Vec<End>, total: usize) -> Result<Vec<End>, AllocError>
    ensures { IfOk result (λ new. Grows total ends.items new.items) }
{
    let mut ends = ends;
    for place in ends.len()..total {
        ends.push(End::Queued)?;
    }
    Ok(ends)
}

/// Returns the ends after the port died in the entry of this number.
fn die(alloc: Global, ends: &[End], number: u64) -> Result<Vec<End>, AllocError>
    ensures { IfOk result (λ new. new.items ≡ map (died number) ends.now) }
{
    let mut after = Vec::new(alloc);
    for end in ends {
        after.push(end.at_death(number))?;
    }
    Ok(after)
}

impl End {
    /// Returns the end after the port died in the entry of this number.
    fn at_death(self, number: u64) -> End
        ensures { result ≡ died number self }
    {
        match self {
            End::Queued => End::Died(number),
            end => end,
        }
    }
}

/// Keeps what is noted of the port.
fn keep(ports: &mut BTreeMap<u64, Noted>, port: u64, noted: Noted) -> Result<(), AllocError>
    ensures { OnOk result (Updates nat_cmp ports.old ports.new port (Some noted)) }
{
    match ports.insert(port, noted) {
        Ok(_) => Ok(()),
        Err(_) => Err(AllocError),
    }
}

/// Returns what became of the message that the entry took.
fn end_of_taken(entry: &Entry, number: u64) -> End
    ensures { EndsAs entry.now.reply number result }
{
    match &entry.reply {
        Reply::Message(_) => End::Received(number, Sender::of(entry)),
        _ => End::TooLong(number),
    }
}
