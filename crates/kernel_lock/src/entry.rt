//! Entries of a history.
ghost use Rattle.std.specs.Prelude.{◌≡◌, ◌<◌, ◌^◌, true, All};
ghost use Rattle.kernel_lock.specs.Fits.{IsByte, IsWord, IsLong, IsDelta, FitsWaited, FitsEvent, FitsStatus, FitsReply, Fits};

use mach_types::{Event, Name, Reply, Status, Waited};

/// One call of a history: who made it, what was asked, and what the kernel answered.
#[derive(Clone, Debug, PartialEq, Eq, Drop)]
pub struct Entry {
    /// The caller's number: that of its pass.
    pub caller: u64,
    /// The call.
    pub event: Event,
    /// The answer.
    pub reply: Reply,
}

impl Entry {
    /// Returns whether each of its numbers fits its type: so it is with any entry in hand. Takes as long as
    /// its bytes and names are many.
    pub fn fits(&self) -> bool
        ensures always { result ≡ true }
        ensures fits { Fits self.now }
    {
        long(self.caller) & event_fits(&self.event) & reply_fits(&self.reply)
    }
}

fn event_fits(event: &Event) -> bool
    ensures always { result ≡ true }
    ensures fits { FitsEvent event.now }
{
    match event {
        Event::TaskCreate => true,
        Event::TaskTerminate(task) | Event::Names(task) => words(task.number(), 0, 0),
        Event::Deallocate(task, name)
        | Event::Destroy(task, name)
        | Event::NameType(task, name)
        | Event::ReceiveStatus(task, name)
        | Event::SetStatus(task, name) => words(task.number(), name.number(), 0),
        Event::Allocate(task, right) => words(task.number(), *right, 0),
        Event::AllocateName(task, right, name) => words(task.number(), *right, name.number()),
        Event::GetRefs(task, name, number)
        | Event::SetQlimit(task, name, number)
        | Event::SetMscount(task, name, number)
        | Event::SetSeqno(task, name, number)
        | Event::Receive(task, name, number, _) => words(task.number(), name.number(), *number),
        Event::Rename(task, name, other)
        | Event::MoveMember(task, name, other)
        | Event::InsertMember(task, name, other)
        | Event::ExtractMember(task, name, other) => {
            words(task.number(), name.number(), other.number())
        }
        Event::ModRefs(task, name, right, delta) => {
            words(task.number(), name.number(), *right) & is_delta(*delta)
        }
        Event::InsertRight(task, name, from, poly, number) => {
            words(task.number(), name.number(), from.number()) & words(poly.number(), *number, 0)
        }
        Event::ExtractRight(task, name, number, to) => {
            words(task.number(), name.number(), *number) & words(to.number(), 0, 0)
        }
        Event::RequestNotification(task, name, variant, sync, notify, number) => {
            words(task.number(), name.number(), *variant) & words(*sync, notify.number(), *number)
        }
        Event::Send(task, bytes) => words(task.number(), 0, 0) & are_bytes(bytes.as_slice()),
        Event::ReceiveAgain(task, waited, room, _) => {
            words(task.number(), *room, 0) & waited_fits(*waited)
        }
    }
}

fn reply_fits(reply: &Reply) -> bool
    ensures always { result ≡ true }
    ensures fits { FitsReply reply.now }
{
    match reply {
        Reply::NoRecord => true,
        Reply::Code(number)
        | Reply::Refs(number)
        | Reply::NameType(number)
        | Reply::TooLarge(number) => words(*number, 0, 0),
        Reply::Task(task) => words(task.number(), 0, 0),
        Reply::Name(name) | Reply::Previous(name) => words(name.number(), 0, 0),
        Reply::Names(names) => are_typed(names.as_slice()),
        Reply::Status(status) => status_fits(status),
        Reply::Members(members) => are_names(members.as_slice()),
        Reply::Right(name, kind) => words(name.number(), *kind as u32, 0) & byte(*kind),
        Reply::Message(bytes) => are_bytes(bytes.as_slice()),
        Reply::Empty(waited) => waited_fits(*waited),
    }
}

fn status_fits(status: &Status) -> bool
    ensures always { result ≡ true }
    ensures fits { FitsStatus status.now }
{
    words(status.set.number(), status.sequence, status.make_send)
        & words(status.limit, status.queued, status.send_once)
        & words(status.has_send, status.port_destroyed, status.no_senders)
}

fn waited_fits(waited: Waited) -> bool
    ensures always { result ≡ true }
    ensures fits { FitsWaited waited }
{
    match waited {
        Waited::Port(port) => long(port.number()),
        Waited::Set(set) => long(set.number()),
    }
}

fn are_bytes(bytes: &[u8]) -> bool
    ensures always { result ≡ true }
    ensures fits { All IsByte bytes.now }
{
    for b in bytes {
        byte(*b);
    }
    true
}

fn are_names(names: &[Name]) -> bool
    ensures always { result ≡ true }
    ensures fits { All IsWord names.now }
{
    for name in names {
        words(name.number(), 0, 0);
    }
    true
}

fn are_typed(names: &[(Name, u32)]) -> bool
    ensures always { result ≡ true }
    ensures fits { All (λ e. IsWord e.0 × IsWord e.1) names.now }
{
    for (name, bits) in names {
        words(name.number(), *bits, 0);
    }
    true
}

fn byte(n: u8) -> bool
    ensures always { result ≡ true }
    ensures fits { IsByte n }
{
    true
}

fn words(a: u32, b: u32, c: u32) -> bool
    ensures always { result ≡ true }
    ensures fits { IsWord a × IsWord b × IsWord c }
{
    true
}

fn long(n: u64) -> bool
    ensures always { result ≡ true }
    ensures fits { IsLong n }
{
    true
}

fn is_delta(n: i32) -> bool
    ensures always { result ≡ true }
    ensures fits { IsDelta n }
{
    true
}
