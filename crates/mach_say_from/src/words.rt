//! What the words of a storyboard stand for while it is made.
use crate::label::{Label, NUMBERS};
use mach_types::{Name, TaskId, Waited};
use mach_words::Text;
use std::alloc::Global;

/// A task, or a thread of one.
#[derive(Clone, Copy)]
pub(crate) struct Actor {
    /// The caller's number.
    pub(crate) caller: u64,
    /// The task.
    pub(crate) task: TaskId,
    /// Its word.
    pub(crate) word: Label,
    /// What it waits for, if it waits.
    pub(crate) waits: Option<Waited>,
}

/// A word of a task, and the name that it stands for; null if it stands for none any more.
#[derive(Clone, Copy)]
pub(crate) struct Named {
    task: TaskId,
    name: Name,
    word: Label,
}

/// A message that has a word.
#[derive(Drop)]
pub(crate) struct Declared {
    /// Its id.
    pub(crate) id: u32,
    /// Its word.
    pub(crate) word: Label,
    /// Its data.
    pub(crate) data: Vec<u8>,
}

/// The words of a storyboard.
///
/// Its methods return no error. A word for which there is no memory is left out, and [`Table::is_whole`] is false from then on.
#[derive(Drop)]
pub(crate) struct Table {
    pub(crate) actors: Vec<Actor>,
    messages: Vec<Declared>,
    names: Vec<Named>,
    // Whether a word was left out.
    lacks_word: bool,
}

impl Table {
    /// Has no words. Takes no memory.
    pub(crate) fn new(alloc: Global) -> Table {
        Table {
            actors: Vec::new(alloc),
            messages: Vec::new(alloc),
            names: Vec::new(alloc),
            lacks_word: false,
        }
    }

    /// Whether no word was left out.
    pub(crate) fn is_whole(&self) -> bool {
        !self.lacks_word
    }

    /// Notes that a word was left out.
    pub(crate) fn lack_word(&mut self) {
        self.lacks_word = true;
    }

    /// Returns the label that the text is.
    pub(crate) fn label(&mut self, text: &Text) -> Label {
        match text.whole() {
            Ok(label) => Label::of(label),
            Err(_) => {
                self.lack_word();
                Label::of(&[])
            }
        }
    }

    /// Adds a task, or a thread of one, that doesn't wait.
    pub(crate) fn add_actor(&mut self, caller: u64, task: TaskId, word: Label) {
        let actor = Actor {
            caller,
            task,
            word,
            waits: None,
        };
        if self.actors.push(actor).is_err() {
            self.lack_word();
        }
    }

    /// Adds a message.
    pub(crate) fn add_message(&mut self, message: Declared) {
        if self.messages.push(message).is_err() {
            self.lack_word();
        }
    }

    /// Returns the actor for a caller's calls on a task.
    pub(crate) fn actor(&self, caller: u64, task: TaskId) -> Option<Actor> {
        for actor in self.actors.as_slice() {
            if actor.caller == caller && actor.task == task {
                return Some(*actor);
            }
        }
        None
    }

    /// Returns the first actor that doesn't wait.
    pub(crate) fn idle_actor(&self) -> Option<Actor> {
        for actor in self.actors.as_slice() {
            if actor.waits.is_none() {
                return Some(*actor);
            }
        }
        None
    }

    /// Returns the word of a task.
    pub(crate) fn task(&self, task: TaskId) -> Option<Label> {
        for actor in self.actors.as_slice() {
            if actor.caller == 0 && actor.task == task {
                return Some(actor.word);
            }
        }
        None
    }

    /// Whether a task or a thread has the word.
    pub(crate) fn is_actor(&self, word: &Label) -> bool {
        for actor in self.actors.as_slice() {
            if actor.word.is(word) {
                return true;
            }
        }
        false
    }

    /// Returns a word like this one that no task and no thread has.
    pub(crate) fn free_actor(&self, like: &Label) -> Label {
        for number in 1..NUMBERS {
            let word = like.numbered(number);
            if !word.is_reserved() && !self.is_actor(&word) {
                return word;
            }
        }
        *like
    }

    /// Returns a word like this one that no message has.
    pub(crate) fn free_message(&self, like: &Label) -> Label {
        for number in 1..NUMBERS {
            let word = like.numbered(number);
            if !word.is_reserved() && !self.is_message(&word) {
                return word;
            }
        }
        *like
    }

    /// Sets what the actor with the word waits for.
    pub(crate) fn set_waits(&mut self, word: &Label, waits: &Option<Waited>) {
        for actor in self.actors.as_mut_slice() {
            if actor.word.is(word) {
                actor.waits = *waits;
            }
        }
    }

    /// Returns the message with the id.
    pub(crate) fn message(&self, id: u32) -> Option<&Declared> {
        for message in self.messages.as_slice() {
            if message.id == id {
                return Some(message);
            }
        }
        None
    }

    /// Whether a message has the word.
    pub(crate) fn is_message(&self, word: &Label) -> bool {
        for message in self.messages.as_slice() {
            if message.word.is(word) {
                return true;
            }
        }
        false
    }

    /// Returns the word that stands for the task's name.
    pub(crate) fn word(&self, task: TaskId, name: Name) -> Option<Label> {
        if !is_name(name) {
            return None;
        }
        for named in self.names.as_slice() {
            if named.task == task && named.name == name {
                return Some(named.word);
            }
        }
        None
    }

    /// Returns the name of the task that the word stands for.
    pub(crate) fn name(&self, task: TaskId, word: &Label) -> Option<Name> {
        for named in self.names.as_slice() {
            if named.task == task && named.word.is(word) && is_name(named.name) {
                return Some(named.name);
            }
        }
        None
    }

    /// Has the word stand for the task's name, in place of all that it and the name had.
    pub(crate) fn bind(&mut self, task: TaskId, word: Label, name: Name) {
        self.forget(task, &word, name);
        if !self.rebind(task, &word, name) && self.names.push(Named { task, name, word }).is_err() {
            self.lack_word();
        }
    }

    /// Has a word that the task had before stand for the name. Returns whether it had the word.
    fn rebind(&mut self, task: TaskId, word: &Label, name: Name) -> bool {
        for named in self.names.as_mut_slice() {
            if named.task == task && named.word.is(word) {
                named.name = name;
                return true;
            }
        }
        false
    }

    /// Has no other word stand for the name, and the word for no name.
    fn forget(&mut self, task: TaskId, word: &Label, name: Name) {
        for named in self.names.as_mut_slice() {
            if named.task == task && (named.name == name || named.word.is(word)) {
                named.name = Name::null();
            }
        }
    }

    /// Has the word of the old name stand for the new one.
    pub(crate) fn rename(&mut self, task: TaskId, old: Name, new: Name) {
        for named in self.names.as_mut_slice() {
            if named.task == task && named.name == new {
                named.name = Name::null();
            }
        }
        for named in self.names.as_mut_slice() {
            if named.task == task && named.name == old {
                named.name = new;
            }
        }
    }
}

/// Whether the number is one that a right can have.
pub(crate) fn is_name(name: Name) -> bool {
    name.number() != 0 && name.number() != u32::MAX
}
