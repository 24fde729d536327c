//! Copies of calls.
ghost use Rattle.std.specs.Prelude.{◌≡◌, IfOk, OnErr};
ghost use Rattle.kernel_record.specs.Recording.{IsSend};

use mach_types::Event;
use std::alloc::AllocError;

/// A copy of the call. Only that of a message's bytes takes memory.
pub(crate) fn copy(event: &Event) -> Result<Event, AllocError>
    ensures copy { IfOk result (λ copy. copy ≡ event.now) }
    ensures err { OnErr result (IsSend event.now) }
{
    Ok(match event {
        Event::Send(task, bytes) => Event::Send(*task, bytes.clone()?),
        Event::TaskCreate => Event::TaskCreate,
        Event::TaskTerminate(a) => Event::TaskTerminate(*a),
        Event::Allocate(a, b) => Event::Allocate(*a, *b),
        Event::AllocateName(a, b, c) => Event::AllocateName(*a, *b, *c),
        Event::Deallocate(a, b) => Event::Deallocate(*a, *b),
        Event::Destroy(a, b) => Event::Destroy(*a, *b),
        Event::ModRefs(a, b, c, d) => Event::ModRefs(*a, *b, *c, *d),
        Event::GetRefs(a, b, c) => Event::GetRefs(*a, *b, *c),
        Event::NameType(a, b) => Event::NameType(*a, *b),
        Event::Names(a) => Event::Names(*a),
        Event::Rename(a, b, c) => Event::Rename(*a, *b, *c),
        Event::ReceiveStatus(a, b) => Event::ReceiveStatus(*a, *b),
        Event::SetQlimit(a, b, c) => Event::SetQlimit(*a, *b, *c),
        Event::SetMscount(a, b, c) => Event::SetMscount(*a, *b, *c),
        Event::SetSeqno(a, b, c) => Event::SetSeqno(*a, *b, *c),
        Event::SetStatus(a, b) => Event::SetStatus(*a, *b),
        Event::MoveMember(a, b, c) => Event::MoveMember(*a, *b, *c),
        Event::InsertMember(a, b, c) => Event::InsertMember(*a, *b, *c),
        Event::ExtractMember(a, b, c) => Event::ExtractMember(*a, *b, *c),
        Event::InsertRight(a, b, c, d, e) => Event::InsertRight(*a, *b, *c, *d, *e),
        Event::ExtractRight(a, b, c, d) => Event::ExtractRight(*a, *b, *c, *d),
        Event::RequestNotification(a, b, c, d, e, f) => Event::RequestNotification(
            *a, *b, *c, *d, *e, *f,
        ),
        Event::Receive(a, b, c, d) => Event::Receive(*a, *b, *c, *d),
        Event::ReceiveAgain(a, b, c, d) => Event::ReceiveAgain(*a, *b, *c, *d),
    })
}
