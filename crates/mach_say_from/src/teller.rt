//! Goes through a history, and writes a statement for each entry.

use crate::label::{Label, NUMBERS};
use crate::words::{Actor, Table, is_name};
use kernel_lock::Entry;
use mach_follow::{Answered, Follower, thing_of};
use mach_types::{Event, Name, Profile, Reply, TaskId, Waited};
use mach_words::{Labels, Text, task_of};
use std::alloc::{AllocError, Global};
use tracer_base::write_call;

/// Why a history has no storyboard.
#[derive(Clone, Copy)]
pub enum TellFault {
    /// The kernel replies otherwise to the call of the entry of this number, from 1.
    NotConfirmed(u64),
    /// No task and no thread could make the call of the entry of this number, from 1.
    Nobody(u64),
    /// Out of memory.
    OutOfMemory,
}

impl From<AllocError> for TellFault {
    fn from(_error: AllocError) -> TellFault {
        TellFault::OutOfMemory
    }
}

/// Goes through a history.
#[derive(Drop)]
pub(crate) struct Teller {
    pub(crate) alloc: Global,
    pub(crate) labels: Labels,
    pub(crate) follower: Follower,
    pub(crate) table: Table,
}

/// Writes the storyboard of a history of this profile, with the words of the labels.
///
/// Returns `NotConfirmed` for the first entry to which a kernel replies otherwise, `Nobody` for one whose call no task could
/// make, and `OutOfMemory`; what was written before stays. Takes the time and memory of a kernel that makes the calls. Each
/// word is looked up in time linear in the words, and what an entry waits for in time linear in the entries behind it.
pub fn tell(
    alloc: Global,
    profile: Profile,
    entries: &[Entry],
    labels: Labels,
    out: &mut Text,
) -> Result<(), TellFault> {
    match profile {
        Profile::One => {}
        Profile::Two => out.words("profile 2\n"),
        Profile::Three => out.words("profile 3\n"),
    }
    let mut teller = Teller {
        alloc,
        labels,
        follower: Follower::new(alloc, profile),
        table: Table::new(alloc),
    };
    teller.tell_all(entries, out)
}

impl Teller {
    /// Writes the statements of all entries.
    fn tell_all(&mut self, entries: &[Entry], out: &mut Text) -> Result<(), TellFault> {
        let mut rest = entries;
        for number in 1..u64::MAX {
            let Some((entry, behind)) = rest.split_first() else {
                return Ok(());
            };
            match self.follower.replay(entry)? {
                Answered::AsSaid => self.tell_entry(entry, behind, number, out)?,
                Answered::Otherwise(_) => return Err(TellFault::NotConfirmed(number)),
            }
            rest = behind;
        }
        Ok(())
    }

    /// Writes the statement of the entry of this number. `behind` are the entries behind it.
    fn tell_entry(
        &mut self,
        entry: &Entry,
        behind: &[Entry],
        number: u64,
        out: &mut Text,
    ) -> Result<(), TellFault> {
        let is_told = self.tell_one(entry, behind, out);
        if !self.table.is_whole() {
            Err(TellFault::OutOfMemory)
        } else if is_told {
            Ok(())
        } else {
            Err(TellFault::Nobody(number))
        }
    }

    /// Writes the statement of an entry, and returns whether a task could make its call.
    fn tell_one(&mut self, entry: &Entry, behind: &[Entry], out: &mut Text) -> bool {
        if let (Event::TaskCreate, Reply::Task(task)) = (&entry.event, &entry.reply) {
            self.tell_task(*task, out);
            return true;
        }
        match self.actor_of(entry, out) {
            Some(actor) => self.tell_call(&actor, entry, behind, out),
            None => match self.table.idle_actor() {
                Some(actor) => self.tell_raw(&actor, entry, out),
                None => return false,
            },
        }
        true
    }

    /// Writes the statement of an entry's call. One for which the notation has no words stands behind `raw`.
    fn tell_call(&mut self, actor: &Actor, entry: &Entry, behind: &[Entry], out: &mut Text) {
        let mut line = Text::new(self.alloc);
        if self.is_told(actor, entry, behind, &mut line, out) {
            end_line(actor, &line, out);
        } else {
            self.tell_raw(actor, entry, out);
        }
    }

    /// Writes the entry's call and its answer, and returns whether the notation has words for both.
    fn is_told(
        &mut self,
        actor: &Actor,
        entry: &Entry,
        behind: &[Entry],
        line: &mut Text,
        out: &mut Text,
    ) -> bool {
        self.call(actor, &entry.event, entry, line, out).is_some()
            && self.answer(actor, entry, behind, line).is_some()
    }

    /// Writes the statement that makes a task.
    fn tell_task(&mut self, task: TaskId, out: &mut Text) {
        let mut label = Text::new(self.alloc);
        self.labels.write_task(task, &mut label);
        let label = self.table.label(&label);
        let word = self.table.free_actor(&label);
        out.words("task ");
        out.plain(word.text());
        out.words("\n");
        self.table.add_actor(0, task, word);
    }

    /// Returns who makes the entry's call; `None` if no task of it was made. Writes the statement of a new thread.
    fn actor_of(&mut self, entry: &Entry, out: &mut Text) -> Option<Actor> {
        let task = acts_for(&entry.event)?;
        if let Some(actor) = self.table.actor(entry.caller, task) {
            return Some(actor);
        }
        let of = self.table.task(task)?;
        self.add_thread(entry.caller, task, &of, out);
        self.table.actor(entry.caller, task)
    }

    /// Writes the statement of a thread, and adds the thread.
    fn add_thread(&mut self, caller: u64, task: TaskId, of: &Label, out: &mut Text) {
        let mut label = Text::new(self.alloc);
        self.labels.write_caller(caller, task, &mut label);
        let label = self.table.label(&label);
        let word = self.table.free_actor(&label);
        out.words("thread ");
        out.plain(word.text());
        out.words(" of ");
        out.plain(of.text());
        out.words("\n");
        self.table.add_actor(caller, task, word);
    }

    /// Writes the entry as a line of a script, with the reply's own text.
    fn tell_raw(&mut self, actor: &Actor, entry: &Entry, out: &mut Text) {
        self.table.set_waits(&actor.word, &None);
        out.plain(actor.word.text());
        out.words(": raw ");
        self.write_event(&entry.event, out);
        out.words(" => ");
        out.reply(&entry.reply);
        out.words("\n");
    }

    /// Writes the call as a script has it.
    fn write_event(&mut self, event: &Event, out: &mut Text) {
        let mut call = Vec::new(self.alloc);
        if write_call(event, &mut call).is_err() {
            self.table.lack_word();
        }
        out.plain(call.as_slice());
    }

    /// Writes a name of the task: its word, `null`, or its number.
    pub(crate) fn name(&self, task: TaskId, name: Name, out: &mut Text) {
        match self.table.word(task, name) {
            Some(word) => out.plain(word.text()),
            None if name.number() == 0 => out.words("null"),
            None => out.around("", name.number(), ""),
        }
    }

    /// Returns the label of what the task's name stands for now.
    fn label_of(&mut self, task: TaskId, name: Name) -> Label {
        let mut label = Text::new(self.alloc);
        match self.thing(task, name) {
            Some(thing) => self.write_thing(&thing, &mut label),
            None => label.words("dead"),
        }
        self.table.label(&label)
    }

    /// Returns the port or the set that the task's name stands for now.
    fn thing(&self, task: TaskId, name: Name) -> Option<Waited> {
        match self.follower.look(task, name).standing() {
            Some(standing) => thing_of(&standing),
            None => None,
        }
    }

    /// Writes the label of a port or a set.
    fn write_thing(&self, thing: &Waited, label: &mut Text) {
        match thing {
            Waited::Port(port) => self.labels.write_port(*port, label),
            Waited::Set(set) => self.labels.write_set(*set, label),
        }
    }

    /// Returns a word for the task's new name: that of what it stands for, if no other name that is there has it.
    pub(crate) fn new_word(&mut self, task: TaskId, name: Name) -> Label {
        let like = self.label_of(task, name);
        for number in 1..NUMBERS {
            let word = like.numbered(number);
            if !word.is_reserved() && self.is_free(task, &word, name) {
                return word;
            }
        }
        like
    }

    /// Whether no other name that the task has goes by the word.
    fn is_free(&self, task: TaskId, word: &Label, name: Name) -> bool {
        match self.table.name(task, word) {
            Some(other) => { other == name || self.follower.look(task, other).standing().is_none() }
            None => true,
        }
    }

    /// Has the word stand for the task's name. Null and dead names get none.
    pub(crate) fn bind(&mut self, task: TaskId, word: Label, name: Name) {
        if is_name(name) {
            self.table.bind(task, word, name);
        }
    }
}

/// Returns the task for which the call is made: that which gives a right, else the one that the call names first.
pub(crate) fn acts_for(event: &Event) -> Option<TaskId> {
    match event {
        Event::InsertRight(_, _, from, _, _) => Some(*from),
        event => task_of(event),
    }
}

/// Writes who says it, and the line.
fn end_line(actor: &Actor, line: &Text, out: &mut Text) {
    out.plain(actor.word.text());
    out.words(": ");
    out.text(line);
    out.words("\n");
}
