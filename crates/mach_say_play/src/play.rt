//! Makes the calls of a storyboard's statements.
ghost use Rattle.std.specs.Prelude.{◌≡◌, [], ◌∷◌, ◌++◌, List, All, OnOk, length};
ghost use Rattle.kernel_lock.specs.declared.entry.Entry.{Entry as AnyEntry};
ghost use Rattle.mach_say_play.specs.Played.{Adds, AreOf, IsAsSaid, MakesTask};

use crate::board::{Actor, Board};
use crate::fault::{PlayFault, span_of};
use crate::stage::Stage;
use mach_say_syntax::{Call, Receiver, Said, SaidCall, Statement, Storyboard};
use mach_say_words::{Expected, Misfit, Word};
use mach_types::{Event, Profile, Reply};
use std::alloc::Global;

/// A storyboard's kernel, with its history and what words stand for.
pub struct Play {
    pub alloc: Global,
    pub stage: Stage,
    pub board: Board,
}

/// A fault, and the number of its line, from 1.
#[derive(Drop)]
pub struct Stop {
    pub line: u64,
    pub fault: PlayFault,
}

/// Drops the kernel with its history, and the words. It is written out, so that it is proved here alone, and not in each crate
/// that drops a play.
impl Drop for Play {
    fn drop(self) {
        let Play {
            alloc: _,
            stage: _,
            board: _,
        } = self;
    }
}

impl Play {
    /// Has a kernel of the storyboard's profile, on which no call was made. Takes no memory.
    pub fn new(alloc: Global, profile: Profile) -> Play
        ensures profile { result.stage.profile ≡ profile }
        ensures none { result.stage.entries ≡ [] }
    {
        Play {
            alloc,
            stage: Stage::new(alloc, profile),
            board: Board::new(alloc),
        }
    }

    /// Makes the calls of all statements, up to the first fault. Takes the time and memory of the calls, and looks each word up
    /// in time linear in the words.
    ///
    /// Returns the fault of the first statement that can't be read, that can't be made, or whose reply isn't what it says. The
    /// calls before it are made then.
    pub fn run(&mut self, storyboard: &Storyboard<'_>) -> Result<(), Stop>
        ensures profile { self.new.stage.profile ≡ self.old.stage.profile }
        ensures played { OnOk result ((made : List AnyEntry) × (self.new.stage.entries ≡ self.old.stage.entries ++ made)
            × AreOf storyboard.now.statements.items made) }
    {
        self.make_all(storyboard.statements.as_slice())?;
        match &storyboard.fault {
            Some((line, _)) => Err(Stop {
                line: *line,
                fault: PlayFault::Line,
            }),
            None => Ok(()),
        }
    }

    /// Makes the calls of the statements, up to the first fault.
    fn make_all(&mut self, statements: &[Said<'_>]) -> Result<(), Stop>
        ensures profile { self.new.stage.profile ≡ self.old.stage.profile }
        ensures played { OnOk result ((made : List AnyEntry) × (self.new.stage.entries ≡ self.old.stage.entries ++ made)
            × AreOf statements.now made) }
    {
        for (place, said) in statements.iter().enumerate() {
            if let Err(fault) = self.make(said, place == 0) {
                let line = said.line;
                return Err(Stop { line, fault });
            }
        }
        Ok(())
    }

    /// Does what a statement says.
    fn make(&mut self, said: &Said<'_>, is_first: bool) -> Result<(), PlayFault>
        ensures profile { self.new.stage.profile ≡ self.old.stage.profile }
        ensures added { OnOk result ((made : List AnyEntry) × (self.new.stage.entries ≡ self.old.stage.entries ++ made)
            × Adds said.now.statement made) }
    {
        match &said.statement {
            Statement::Profile(_) if is_first => Ok(()),
            Statement::Profile(_) => Err(PlayFault::LateProfile),
            Statement::Tasks(words) => self.make_tasks(words.as_slice()),
            Statement::Thread(word, of) => self.make_thread(word, of),
            Statement::Message(message) => self.board.add_message(self.alloc, message),
            Statement::Call(call) => self.make_call(call, said.line),
        }
    }

    /// Makes tasks for the words.
    fn make_tasks(&mut self, words: &[Word<'_>]) -> Result<(), PlayFault>
        ensures profile { self.new.stage.profile ≡ self.old.stage.profile }
        ensures added { OnOk result ((made : List AnyEntry) × (self.new.stage.entries ≡ self.old.stage.entries ++ made)
            × (length made ≡ length words.now) × All MakesTask made) }
    {
        for word in words {
            self.make_task(word)?;
        }
        Ok(())
    }

    /// Makes a task for the word.
    fn make_task(&mut self, word: &Word<'_>) -> Result<(), PlayFault>
        ensures profile { self.new.stage.profile ≡ self.old.stage.profile }
        ensures added { OnOk result ((made : AnyEntry) × (self.new.stage.entries ≡ self.old.stage.entries ++ made ∷ []) × MakesTask made) }
    {
        self.board.check_new_actor(word)?;
        if self
            .stage
            .make(0, Event::TaskCreate, &Expected::Success)?
            .is_err()
        {
            return Err(PlayFault::Expected(span_of(word)));
        }
        match self.stage.reply() {
            Some(Reply::Task(task)) => {
                let task = *task;
                self.board.add_actor(word, task, 0)
            }
            _ => Err(PlayFault::Expected(span_of(word))),
        }
    }

    /// Has the word stand for a thread of the task.
    fn make_thread(&mut self, word: &Word<'_>, of: &Word<'_>) -> Result<(), PlayFault>
        ensures { self.new.stage ≡ self.old.stage }
    {
        self.board.check_new_actor(word)?;
        let task = self.board.task(of)?;
        let caller = self.board.next_caller();
        self.board.add_actor(word, task, caller)
    }

    /// Makes a call, and compares its reply with what is said.
    fn make_call(&mut self, said: &SaidCall<'_>, line: u64) -> Result<(), PlayFault>
        ensures profile { self.new.stage.profile ≡ self.old.stage.profile }
        ensures added { OnOk result ((made : AnyEntry) × (self.new.stage.entries ≡ self.old.stage.entries ++ made ∷ []) × IsAsSaid said.now made) }
    {
        let actor = self.board.actor(&said.who)?;
        check_waits(&actor, said)?;
        let event = self.board.event(self.alloc, &actor, said)?;
        let asked = self.board.expected(self.alloc, actor.task, &said.answer)?;
        self.board.set_waits(said.who.text, 0, &None);
        match self.stage.make(actor.caller, event, &asked)? {
            Ok(()) => self.learn(&actor, said, line),
            Err(misfit) => Err(misfit_at(said, misfit)),
        }
    }

    /// Has words stand for what the last reply tells.
    fn learn(&mut self, actor: &Actor, said: &SaidCall<'_>, line: u64) -> Result<(), PlayFault>
        ensures { self.new.stage ≡ self.old.stage }
    {
        let Some(reply) = self.stage.reply() else {
            return Ok(());
        };
        self.board.learn(actor.task, said, reply)?;
        self.board.note_wait(said, line, reply);
        if let Reply::Name(name) = reply {
            let thing = self.stage.thing(actor.task, *name);
            self.board.add_thing(said, actor.task, thing)?;
        }
        Ok(())
    }
}

/// Returns the fault of a call whose reply isn't what is said.
fn misfit_at(said: &SaidCall<'_>, misfit: Misfit) -> PlayFault {
    match misfit {
        Misfit::Whole => PlayFault::Expected(span_of(&said.word)),
        Misfit::Field(place) => PlayFault::ExpectedField(place),
    }
}

/// Checks that a caller that waits makes no other call than `wake`, also as a line of a script.
fn check_waits(actor: &Actor, said: &SaidCall<'_>) -> Result<(), PlayFault> {
    if actor.waits.is_none() {
        return Ok(());
    }
    match &said.call {
        Call::Receive(Receiver::Waited, _) | Call::Raw(Event::ReceiveAgain(..)) => Ok(()),
        _ => Err(PlayFault::Waits(span_of(&said.word), actor.since)),
    }
}

/// Returns the profile that the storyboard begins with: the first, if it names none.
pub fn profile_of(storyboard: &Storyboard<'_>) -> Profile {
    match storyboard.statements.as_slice() {
        [first, ..] => said_profile(&first.statement),
        [] => Profile::One,
    }
}

/// Returns the profile that the statement names: the first, if it names none.
fn said_profile(statement: &Statement<'_>) -> Profile {
    match statement {
        Statement::Profile(Profile::Two) => Profile::Two,
        Statement::Profile(Profile::Three) => Profile::Three,
        _ => Profile::One,
    }
}
