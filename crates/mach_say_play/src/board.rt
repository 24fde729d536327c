//! What the words of a storyboard stand for.
use crate::fault::{PlayFault, span_of};
use crate::label::Label;
use mach_say_syntax::{NameIs, SaidMessage, SaidName};
use mach_say_words::Word;
use mach_types::{Name, TaskId, Waited};
use std::alloc::Global;

/// A task, or a thread of one.
#[derive(Clone, Copy)]
pub struct Actor {
    /// Its word.
    pub word: Label,
    /// The task.
    pub task: TaskId,
    /// The caller's number: 0 for a task itself.
    pub caller: u64,
    /// What it waits for, if it waits.
    pub waits: Option<Waited>,
    /// Since which line it waits.
    pub since: u64,
}

/// A word of a task, and the name that it stands for.
#[derive(Clone, Copy)]
pub struct Bound {
    /// The task.
    pub task: TaskId,
    /// The word.
    pub word: Label,
    /// The name.
    pub name: Name,
}

/// A port or a set that has a word.
#[derive(Clone, Copy)]
pub struct Thing {
    /// The port or the set.
    pub thing: Waited,
    /// The task that made it.
    pub task: TaskId,
    /// Its word.
    pub word: Label,
}

/// A message that has a word.
#[derive(Drop)]
pub struct Message {
    /// The word.
    pub word: Label,
    /// The id.
    pub id: u32,
    /// The data.
    pub bytes: Vec<u8>,
}

/// What the words stand for.
#[derive(Drop)]
pub struct Board {
    /// Tasks and threads, in their order.
    pub actors: Vec<Actor>,
    /// Messages, in their order.
    pub messages: Vec<Message>,
    /// Names.
    pub names: Vec<Bound>,
    /// Ports and sets, in the order in which they were made.
    pub things: Vec<Thing>,
}

impl Board {
    /// Has no word. Takes no memory.
    pub(crate) fn new(alloc: Global) -> Board {
        Board {
            actors: Vec::new(alloc),
            messages: Vec::new(alloc),
            names: Vec::new(alloc),
            things: Vec::new(alloc),
        }
    }

    /// Returns the task or the thread that the word stands for.
    pub(crate) fn find_actor(&self, word: &[u8]) -> Option<Actor> {
        for actor in self.actors.as_slice() {
            if actor.word.text() == word {
                return Some(*actor);
            }
        }
        None
    }

    /// Returns the task or the thread that the word stands for. `NoActor` if none has it.
    pub(crate) fn actor(&self, word: &Word<'_>) -> Result<Actor, PlayFault> {
        match self.find_actor(word.text) {
            Some(actor) => Ok(actor),
            None => Err(PlayFault::NoActor(span_of(word))),
        }
    }

    /// Returns the task that the word stands for. `NoTask` if none has it.
    pub(crate) fn task(&self, word: &Word<'_>) -> Result<TaskId, PlayFault> {
        match self.find_actor(word.text) {
            Some(actor) if actor.caller == 0 => Ok(actor.task),
            _ => Err(PlayFault::NoTask(span_of(word))),
        }
    }

    /// Returns the word of the task; `None` if it has none. Linear in the tasks.
    pub fn task_word(&self, task: TaskId) -> Option<Label> {
        for actor in self.actors.as_slice() {
            if actor.task == task && actor.caller == 0 {
                return Some(actor.word);
            }
        }
        None
    }

    /// Adds a task or a thread.
    pub(crate) fn add_actor(
        &mut self,
        word: &Word<'_>,
        task: TaskId,
        caller: u64,
    ) -> Result<(), PlayFault> {
        let word = Label::of(word.text);
        self.actors.push(Actor {
            word,
            task,
            caller,
            waits: None,
            since: 0,
        })?;
        Ok(())
    }

    /// Checks that no task and no thread has the word. `Taken` if one has.
    pub(crate) fn check_new_actor(&self, word: &Word<'_>) -> Result<(), PlayFault> {
        match self.find_actor(word.text) {
            Some(_) => Err(PlayFault::Taken(span_of(word))),
            None => Ok(()),
        }
    }

    /// Returns the number of the next thread.
    pub(crate) fn next_caller(&self) -> u64 {
        let mut next = 1u64;
        for actor in self.actors.as_slice() {
            if actor.caller != 0 {
                next = next.saturating_add(1);
            }
        }
        next
    }

    /// Sets what the task or the thread waits for, and since which line.
    pub(crate) fn set_waits(&mut self, word: &[u8], since: u64, waits: &Option<Waited>) {
        for actor in self.actors.as_mut_slice() {
            if actor.word.text() == word {
                actor.since = since;
                actor.waits = *waits;
            }
        }
    }

    /// Returns the message that the word stands for; `None` if it stands for none. Linear in the messages.
    pub fn find_message(&self, word: &[u8]) -> Option<&Message> {
        for message in self.messages.as_slice() {
            if message.word.text() == word {
                return Some(message);
            }
        }
        None
    }

    /// Returns the message that the word stands for. `NoMessage` if none has it.
    pub(crate) fn message(&self, word: &Word<'_>) -> Result<&Message, PlayFault> {
        match self.find_message(word.text) {
            Some(message) => Ok(message),
            None => Err(PlayFault::NoMessage(span_of(word))),
        }
    }

    /// Returns the word of the message with the id; `None` if none has it. Linear in the messages.
    pub fn message_with(&self, id: u32) -> Option<Label> {
        for message in self.messages.as_slice() {
            if message.id == id {
                return Some(message.word);
            }
        }
        None
    }

    /// Adds a message. `Taken` if another has the word, and `SameId` if another has the id.
    pub(crate) fn add_message(
        &mut self,
        alloc: Global,
        said: &SaidMessage<'_>,
    ) -> Result<(), PlayFault> {
        if self.find_message(said.word.text).is_some() {
            return Err(PlayFault::Taken(span_of(&said.word)));
        }
        if let Some(other) = self.message_with(said.id) {
            return Err(PlayFault::SameId(span_of(&said.word), said.id, other));
        }
        let mut bytes = Vec::new(alloc);
        bytes.extend_from_slice(said.bytes.as_slice())?;
        self.messages.push(Message {
            word: Label::of(said.word.text),
            id: said.id,
            bytes,
        })?;
        Ok(())
    }

    /// Returns the task's name that is written: a number, or what the word stands for. `NoName` if it stands for none.
    pub(crate) fn name(&self, task: TaskId, said: &SaidName<'_>) -> Result<Name, PlayFault> {
        match said.is {
            NameIs::Number(number) => Ok(Name::new(number)),
            NameIs::Word => match self.find_name(task, said.word.text) {
                Some(name) => Ok(name),
                None => Err(PlayFault::NoName(span_of(&said.word), task)),
            },
        }
    }

    /// Returns the task's name that the word stands for.
    pub(crate) fn find_name(&self, task: TaskId, word: &[u8]) -> Option<Name> {
        for bound in self.names.as_slice() {
            if bound.task == task && bound.word.text() == word {
                return Some(bound.name);
            }
        }
        None
    }

    /// Returns a word that stands for the task's name; `None` if none does. Linear in the words.
    pub fn word_of(&self, task: TaskId, name: Name) -> Option<Label> {
        for bound in self.names.as_slice() {
            if bound.task == task && bound.name == name {
                return Some(bound.word);
            }
        }
        None
    }

    /// Has the word stand for the task's name from here on.
    pub(crate) fn bind(&mut self, task: TaskId, word: &[u8], name: Name) -> Result<(), PlayFault> {
        if self.rebind(task, word, name) {
            return Ok(());
        }
        let word = Label::of(word);
        self.names.push(Bound { task, word, name })?;
        Ok(())
    }

    /// Has a word that stands for a name of the task stand for this one. Returns whether it stood for one.
    fn rebind(&mut self, task: TaskId, word: &[u8], name: Name) -> bool {
        for bound in self.names.as_mut_slice() {
            if bound.task == task && bound.word.text() == word {
                bound.name = name;
                return true;
            }
        }
        false
    }

    /// Has each word that stands for the task's old name stand for the new one.
    pub(crate) fn rename(&mut self, task: TaskId, old: Name, new: Name) {
        for bound in self.names.as_mut_slice() {
            if bound.task == task && bound.name == old {
                bound.name = new;
            }
        }
    }
}
