//! What calls are to answer, and what their answers have words stand for.
ghost use Rattle.std.specs.Prelude.{◌≡◌, List, IfOk, is_some, length, map};
ghost use Rattle.mach_say_syntax.specs.declared.syntax.FieldIs.{FieldIs as AnyField};
ghost use Rattle.mach_say_syntax.specs.declared.syntax.ReceivedRight.{ReceivedRight as AnyRight};
ghost use Rattle.mach_say_words.specs.declared.expected.FieldValue.{FieldValue as AnyValue};
ghost use Rattle.mach_say_play.specs.Answers.{AsksFor, AsksForMessage, AsksForNotice};

use crate::board::{Board, Thing};
use crate::fault::PlayFault;
use crate::label::Label;
use mach_say_syntax::{
    Answer, Call, FieldIs, NameCall, NameIs, Notice, ReceivedMessage, ReceivedRight, SaidCall,
    SaidName, SaidNumber, Told, Under,
};
use mach_say_words::{
    Expected, ExpectedMessage, ExpectedNotice, FieldValue, Kind, TOLD_AT, right_at,
};
use mach_types::{Name, Reply, TaskId, Waited};
use mach_words::word_at;
use message_codec::{Received, read_received};
use std::alloc::Global;

impl Board {
    /// Returns what a call of the task is to answer.
    pub(crate) fn expected(
        &self,
        alloc: Global,
        task: TaskId,
        answer: &Answer<'_>,
    ) -> Result<Expected, PlayFault>
        ensures { IfOk result (AsksFor answer.now) }
    {
        match answer {
            Answer::Success => Ok(Expected::Success),
            Answer::Code(code) => Ok(Expected::Code(*code)),
            Answer::Empty => Ok(Expected::Empty),
            Answer::Waits => Ok(Expected::Empty),
            Answer::TooLarge(length) => Ok(Expected::TooLarge(*length)),
            Answer::Refs(count) => Ok(Expected::Refs(*count)),
            Answer::Names(count) => Ok(Expected::Names(*count)),
            Answer::Type(bits) => Ok(Expected::Type(*bits)),
            Answer::NoPrevious => Ok(Expected::NoPrevious),
            Answer::Previous(_) => Ok(Expected::Previous),
            Answer::Reply(reply) => Ok(Expected::Reply(reply.clone()?)),
            Answer::Fields(fields) => {
                let values = self.values(alloc, task, fields.as_slice())?;
                Ok(Expected::Fields(values))
            }
            Answer::Members(names) => {
                let names = self.names_of(alloc, task, names.as_slice())?;
                Ok(Expected::Members(names))
            }
            Answer::Message(message) => {
                let message = self.expected_message(alloc, task, message)?;
                Ok(Expected::Message(message))
            }
            Answer::Notice(notice) => {
                let notice = self.expected_notice(task, notice)?;
                Ok(Expected::Notice(notice))
            }
        }
    }

    /// Returns the fields that are said, with their values.
    fn values(
        &self,
        alloc: Global,
        task: TaskId,
        fields: &[FieldIs<'_>],
    ) -> Result<Vec<FieldValue>, PlayFault>
        ensures { IfOk result (λ values. map (λ (one : AnyValue). one.field) values.items ≡ map (λ (one : AnyField). one.field) fields.now) }
    {
        let mut values = Vec::new(alloc);
        for field in fields {
            let value = match &field.value {
                SaidNumber::Number(number) => *number,
                SaidNumber::Name(name) => self.name(task, name)?.number(),
            };
            values.push(FieldValue {
                field: field.field,
                value,
            })?;
        }
        Ok(values)
    }

    /// Returns the message that is to come.
    fn expected_message(
        &self,
        alloc: Global,
        task: TaskId,
        said: &ReceivedMessage<'_>,
    ) -> Result<ExpectedMessage, PlayFault>
        ensures { IfOk result (AsksForMessage said.now) }
    {
        let message = self.message(&said.message)?;
        Ok(ExpectedMessage {
            id: message.id,
            bytes: message.bytes.clone()?,
            at: self.name_if(task, &said.at)?,
            answer: said.answer.is_some(),
            with: kinds(alloc, said.with.as_slice())?,
        })
    }

    /// Returns the name that is written, if one is.
    fn name_if(&self, task: TaskId, said: &Option<SaidName<'_>>) -> Result<Option<Name>, PlayFault>
        ensures { IfOk result (λ name. is_some name ≡ is_some said.now) }
    {
        match said {
            Some(name) => Ok(Some(self.name(task, name)?)),
            None => Ok(None),
        }
    }

    /// Returns the notice that is to come.
    fn expected_notice(
        &self,
        task: TaskId,
        notice: &Notice<'_>,
    ) -> Result<ExpectedNotice, PlayFault>
        ensures { IfOk result (AsksForNotice notice.now) }
    {
        let (id, told) = match &notice.told {
            Told::PortDeleted(name) => (65, number_of(self.name_if(task, name)?)),
            Told::PortDestroyed(_) => (69, None),
            Told::NoSenders(count) => (70, *count),
            Told::SendOnce => (71, None),
            Told::DeadName(name) => (72, number_of(self.name_if(task, name)?)),
        };
        let at = self.name_if(task, &notice.at)?;
        Ok(ExpectedNotice { id, told, at })
    }

    /// Has words stand for what the reply, which is what is said, tells of names.
    pub(crate) fn learn(
        &mut self,
        task: TaskId,
        said: &SaidCall<'_>,
        reply: &Reply,
    ) -> Result<(), PlayFault> {
        match (&said.call, reply) {
            (Call::Make(make), Reply::Name(name)) => self.bind(task, make.word.text, *name),
            (Call::Give(give), Reply::Right(name, _)) => {
                let to = self.task(&give.to)?;
                match give.under {
                    Under::Word(word) => self.bind(to, word.text, *name),
                    _ => self.bind_same(to, &give.right.name, *name),
                }
            }
            (Call::Give(give), Reply::Code(0)) => match give.under {
                Under::Number(number) => {
                    let to = self.task(&give.to)?;
                    self.bind_same(to, &give.right.name, Name::new(number))
                }
                _ => Ok(()),
            },
            (Call::Named(name, NameCall::Rename(to)), Reply::Code(0)) => {
                let old = self.name(task, name)?;
                self.rename(task, old, Name::new(*to));
                Ok(())
            }
            (_, Reply::Previous(name)) => self.learn_previous(task, &said.answer, *name),
            (_, Reply::Message(bytes)) => self.learn_message(task, &said.answer, bytes.as_slice()),
            _ => Ok(()),
        }
    }

    /// Has a word that is written as a name stand for this name of another task.
    fn bind_same(
        &mut self,
        task: TaskId,
        said: &SaidName<'_>,
        name: Name,
    ) -> Result<(), PlayFault> {
        match said.is {
            NameIs::Word => self.bind(task, said.word.text, name),
            NameIs::Number(_) => Ok(()),
        }
    }

    /// Has the word stand for the right that a request had.
    fn learn_previous(
        &mut self,
        task: TaskId,
        answer: &Answer<'_>,
        name: Name,
    ) -> Result<(), PlayFault> {
        match answer {
            Answer::Previous(word) => self.bind(task, word.text, name),
            _ => Ok(()),
        }
    }

    /// Has words stand for the rights of a message.
    fn learn_message(
        &mut self,
        task: TaskId,
        answer: &Answer<'_>,
        bytes: &[u8],
    ) -> Result<(), PlayFault> {
        match answer {
            Answer::Message(said) => match read_received(bytes) {
                Some(message) => self.learn_rights(task, said, &message),
                None => Ok(()),
            },
            Answer::Notice(notice) => match (&notice.told, word_at(bytes, TOLD_AT)) {
                (Told::PortDestroyed(Some(word)), Some(name)) => {
                    self.bind(task, word.text, Name::new(name))
                }
                _ => Ok(()),
            },
            _ => Ok(()),
        }
    }

    /// Has words stand for the reply right and the rights of the body.
    fn learn_rights(
        &mut self,
        task: TaskId,
        said: &ReceivedMessage<'_>,
        message: &Received<'_>,
    ) -> Result<(), PlayFault> {
        if let Some(word) = &said.answer {
            self.bind(task, word.text, message.header.remote)?;
        }
        for (number, right) in said.with.as_slice().iter().enumerate() {
            if let Some(carried) = right_at(&message.body, number) {
                self.bind(task, right.word.text, carried.name)?;
            }
        }
        Ok(())
    }

    /// Notes the port or the set that a call made.
    pub(crate) fn add_thing(
        &mut self,
        said: &SaidCall<'_>,
        task: TaskId,
        thing: Option<Waited>,
    ) -> Result<(), PlayFault> {
        if let (Call::Make(make), Some(thing)) = (&said.call, thing) {
            let word = Label::of(make.word.text);
            self.things.push(Thing { thing, task, word })?;
        }
        Ok(())
    }

    /// Has the caller wait, if the answer that is said is that it waits.
    pub(crate) fn note_wait(&mut self, said: &SaidCall<'_>, line: u64, reply: &Reply) {
        if let (Answer::Waits, Reply::Empty(waited)) = (&said.answer, reply) {
            let waited = *waited;
            self.set_waits(said.who.text, line, &Some(waited));
        }
    }
}

/// Returns the kinds of the rights.
fn kinds(alloc: Global, rights: &[ReceivedRight<'_>]) -> Result<Vec<Kind>, PlayFault>
    ensures { IfOk result (λ kinds. kinds.items ≡ map (λ (one : AnyRight). one.kind) rights.now) }
{
    let mut kinds = Vec::new(alloc);
    for right in rights {
        kinds.push(right.kind)?;
    }
    Ok(kinds)
}

/// Returns the number of the name, if there is one.
fn number_of(name: Option<Name>) -> Option<u32> {
    match name {
        Some(name) => Some(name.number()),
        None => None,
    }
}
