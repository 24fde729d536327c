//! The calls of statements, with their words looked up.
ghost use Rattle.std.specs.Prelude.{◌≡◌, IfOk, length};
ghost use Rattle.mach_say_syntax.specs.declared.syntax.Call.{Call as AnyCall};
ghost use Rattle.mach_say_syntax.specs.declared.syntax.NameCall.{NameCall as AnyNameCall};
ghost use Rattle.mach_say_play.specs.Calls.{IsCall, IsNameCall};

use crate::board::{Actor, Board};
use crate::fault::{PlayFault, span_of};
use mach_say_syntax::{
    Buffer, Call, CountOf, Forget, Give, Make, NameCall, NamedRight, Notify, Receiver, SaidCall,
    SaidName, Send, SentRights, Under,
};
use mach_say_words::{BodyRights, write_sent};
use mach_types::{Bytes, Event, Name, TaskId};
use message_codec::{PortRight, SendHeader, WriteError};
use std::alloc::Global;

impl Board {
    /// Returns the call of a statement that this task or thread makes.
    pub(crate) fn event(
        &self,
        alloc: Global,
        actor: &Actor,
        said: &SaidCall<'_>,
    ) -> Result<Event, PlayFault>
        ensures { IfOk result (IsCall said.now.call) }
    {
        let task = actor.task;
        match &said.call {
            Call::Send(send) => self.send(alloc, task, said, send),
            Call::Raw(event) => Ok(event.clone()?),
            Call::Make(make) => Ok(make_event(task, make)),
            Call::Give(give) => self.give(task, give),
            Call::Receive(receiver, buffer) => self.receive(actor, said, receiver, *buffer),
            Call::Notify(notify) => self.notify(task, notify),
            Call::Forget(forget) => self.forget(task, forget),
            Call::Names => Ok(Event::Names(task)),
            Call::End => Ok(Event::TaskTerminate(task)),
            Call::Move(member, set) => self.move_member(task, member, set),
            Call::Add(member, set) => {
                let member = self.name(task, member)?;
                Ok(Event::InsertMember(task, member, self.name(task, set)?))
            }
            Call::Remove(member, set) => {
                let member = self.name(task, member)?;
                Ok(Event::ExtractMember(task, member, self.name(task, set)?))
            }
            Call::Named(name, call) => Ok(name_event(task, self.name(task, name)?, *call)),
        }
    }

    /// Returns the call that gives a right to a task.
    fn give(&self, task: TaskId, give: &Give<'_>) -> Result<Event, PlayFault>
        ensures { IfOk result (IsCall (AnyCall.Give give.now)) }
    {
        let name = self.name(task, &give.right.name)?;
        let to = self.task(&give.to)?;
        let disposition = u32::from(give.right.disposition.number());
        Ok(match give.under {
            Under::Number(under) => {
                Event::InsertRight(to, Name::new(under), task, name, disposition)
            }
            Under::Same | Under::Word(_) => Event::ExtractRight(task, name, disposition, to),
        })
    }

    /// Returns the call that receives.
    fn receive(
        &self,
        actor: &Actor,
        said: &SaidCall<'_>,
        receiver: &Receiver<'_>,
        buffer: Buffer,
    ) -> Result<Event, PlayFault>
        ensures { IfOk result (IsCall (AnyCall.Receive receiver.now buffer)) }
    {
        let Buffer { room, keep } = buffer;
        match receiver {
            Receiver::Name(name) => {
                let name = self.name(actor.task, name)?;
                Ok(Event::Receive(actor.task, name, room, keep))
            }
            Receiver::Waited => match actor.waits {
                Some(waited) => Ok(Event::ReceiveAgain(actor.task, waited, room, keep)),
                None => Err(PlayFault::WaitsForNothing(span_of(&said.word))),
            },
        }
    }

    /// Returns the call that moves a port into a set, or out of its set.
    fn move_member(
        &self,
        task: TaskId,
        member: &SaidName<'_>,
        set: &Option<SaidName<'_>>,
    ) -> Result<Event, PlayFault>
        ensures { IfOk result (IsCall (AnyCall.Move member.now set.now)) }
    {
        let member = self.name(task, member)?;
        let set = match set {
            Some(set) => self.name(task, set)?,
            None => Name::null(),
        };
        Ok(Event::MoveMember(task, member, set))
    }

    /// Returns the call that asks for a notice.
    fn notify(&self, task: TaskId, notify: &Notify<'_>) -> Result<Event, PlayFault>
        ensures { IfOk result (IsCall (AnyCall.Notify notify.now)) }
    {
        let of = self.name(task, &notify.of)?;
        let by = self.name(task, &notify.by.name)?;
        let disposition = u32::from(notify.by.disposition.number());
        let variant = notify.variant.number();
        Ok(Event::RequestNotification(task, of, variant, notify.sync, by, disposition))
    }

    /// Returns the call that takes back the wish for a notice.
    fn forget(&self, task: TaskId, forget: &Forget<'_>) -> Result<Event, PlayFault>
        ensures { IfOk result (IsCall (AnyCall.Forget forget.now)) }
    {
        let of = self.name(task, &forget.of)?;
        let variant = forget.variant.number();
        Ok(Event::RequestNotification(task, of, variant, 0, Name::null(), 0))
    }

    /// Returns the right that a header of a message names.
    fn port_right(&self, task: TaskId, right: &NamedRight<'_>) -> Result<PortRight, PlayFault> {
        Ok(PortRight {
            disposition: right.disposition,
            name: self.name(task, &right.name)?,
        })
    }

    /// Returns the call that sends a message.
    fn send(
        &self,
        alloc: Global,
        task: TaskId,
        said: &SaidCall<'_>,
        send: &Send<'_>,
    ) -> Result<Event, PlayFault>
        ensures { IfOk result (IsCall (AnyCall.Send send.now)) }
    {
        let message = self.message(&send.message)?;
        let destination = self.port_right(task, &send.destination)?;
        let reply = match &send.answer {
            Some(right) => Some(self.port_right(task, right)?),
            None => None,
        };
        let header = SendHeader {
            destination,
            reply,
            id: message.id,
        };
        let rights = self.rights(alloc, task, send.with.as_slice())?;
        match write_sent(alloc, &header, rights.as_slice(), message.bytes.as_slice()) {
            Ok(bytes) => Ok(Event::Send(task, Bytes::from_vec(bytes))),
            Err(WriteError::OutOfMemory) => Err(PlayFault::OutOfMemory),
            Err(WriteError::Refused(code)) => Err(PlayFault::NoBytes(
                span_of(&said.word),
                code.number(),
            )),
        }
    }

    /// Returns the rights of a body, with their names looked up.
    fn rights(
        &self,
        alloc: Global,
        task: TaskId,
        with: &[SentRights<'_>],
    ) -> Result<Vec<BodyRights>, PlayFault> {
        let mut all = Vec::new(alloc);
        for rights in with {
            let names = self.names_of(alloc, task, rights.names.as_slice())?;
            all.push(BodyRights {
                disposition: rights.disposition,
                names,
            })?;
        }
        Ok(all)
    }

    /// Returns the names that are written.
    pub(crate) fn names_of(
        &self,
        alloc: Global,
        task: TaskId,
        said: &[SaidName<'_>],
    ) -> Result<Vec<Name>, PlayFault>
        ensures { IfOk result (λ names. length names.items ≡ length said.now) }
    {
        let mut names = Vec::new(alloc);
        for name in said {
            let name = self.name(task, name)?;
            names.push(name)?;
        }
        Ok(names)
    }
}

/// Returns the call that makes a right.
fn make_event(task: TaskId, make: &Make<'_>) -> Event
    ensures { IsCall (AnyCall.Make make.now) result }
{
    let right = make.right.number();
    match make.chosen {
        Some(name) => Event::AllocateName(task, right, Name::new(name)),
        None => Event::Allocate(task, right),
    }
}

/// Returns a call with one name.
fn name_event(task: TaskId, name: Name, call: NameCall) -> Event
    ensures { IsNameCall call result }
{
    match call {
        NameCall::Members => Event::SetStatus(task, name),
        NameCall::Deallocate => Event::Deallocate(task, name),
        NameCall::Destroy => Event::Destroy(task, name),
        NameCall::ModRefs(right, delta) => Event::ModRefs(task, name, right.number(), delta),
        NameCall::GetRefs(right) => Event::GetRefs(task, name, right.number()),
        NameCall::NameType => Event::NameType(task, name),
        NameCall::ReceiveStatus => Event::ReceiveStatus(task, name),
        NameCall::SetCount(of, number) => count_event(task, of, name, number),
        NameCall::Rename(to) => Event::Rename(task, name, Name::new(to)),
    }
}

/// Returns the call that sets a count of a port.
fn count_event(task: TaskId, of: CountOf, name: Name, number: u32) -> Event
    ensures { IsNameCall (AnyNameCall.SetCount of number) result }
{
    match of {
        CountOf::Limit => Event::SetQlimit(task, name, number),
        CountOf::MakeSend => Event::SetMscount(task, name, number),
        CountOf::Seqno => Event::SetSeqno(task, name, number),
    }
}
