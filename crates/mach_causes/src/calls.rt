//! Finds the cause of a refusal.
ghost use Rattle.std.specs.Prelude.{IfOk, IfSome};
ghost use Rattle.mach_model.specs.State.{State};
ghost use Rattle.copyin_base.specs.Shows.{Shows};
ghost use Rattle.mach_causes_base.specs.Codes.{IsCode};
ghost use Rattle.mach_causes_base.specs.Facts.{IsTrueIn};

use crate::hand::{absent, lacks, no_name, no_task, standing_under, used};
use crate::receive::{explain_again, explain_receive};
use crate::refusals::can_refuse;
use crate::send::explain_send;
use mach_causes_base::{Cause, Part, Reason, Wanted, is_so};
use mach_follow::{Follower, Place};
use mach_types::{Disposition, Event, KernReturn, Name, TaskId};
use mach_words::task_of;
use std::alloc::{AllocError, Global};

/// Finds why the call is refused with this code in the follower's state; `None` if no cause with this code is known.
/// The cause has the code, and what it tells of the state is true.
///
/// Returns `AllocError` if out of memory. Constant time in most cases. It is linear in a message that is sent, and for one
/// that would close a loop of queues in the way from its destination.
pub fn explain(
    alloc: Global,
    follower: &Follower,
    event: &Event,
    code: u32,
) -> Result<Option<Cause>, AllocError>
    ensures code { IfOk result (λ found. IfSome found (λ cause. IsCode cause code)) }
    ensures holds { (s : State) → Shows follower.now.kernel.tables s → IfOk result (λ found. IfSome found (λ cause. IsTrueIn s cause.reason)) }
{
    if !can_refuse(event, code) {
        return Ok(None);
    }
    match find_cause(alloc, follower, event, code)? {
        Some(cause) if is_so(follower.tables(), &cause, code) => { Ok(Some(cause)) }
        _ => Ok(None),
    }
}

/// Finds the cause, before its code is compared. Errors are those of [`explain`].
fn find_cause(
    alloc: Global,
    follower: &Follower,
    event: &Event,
    code: u32,
) -> Result<Option<Cause>, AllocError> {
    if code == KernReturn::InvalidTask.number() {
        return Ok(about_call(missing_task(follower, event)));
    }
    match event {
        Event::Send(task, bytes) => explain_send(alloc, follower, *task, bytes.as_slice(), code),
        Event::Receive(task, name, _, _) => {
            let place = place_of(*task, *name);
            Ok(about_call(explain_receive(follower, &place, code)))
        }
        Event::ReceiveAgain(task, waited, _, _) => {
            Ok(about_call(explain_again(follower, *task, waited, code)))
        }
        _ => match KernReturn::from_number(code) {
            Some(KernReturn::ResourceShortage) => Ok(about_call(Some(Reason::Memory))),
            Some(known) => Ok(explain_kernel_call(follower, event, known)),
            None => Ok(None),
        },
    }
}

/// Returns the reason as the cause of the whole call.
fn about_call(reason: Option<Reason>) -> Option<Cause> {
    let reason = reason?;
    Some(Cause {
        part: Part::Call,
        reason,
    })
}

/// Returns the task and its name as one.
pub(crate) fn place_of(task: TaskId, name: Name) -> Place {
    Place { task, name }
}

/// Finds which task of the call doesn't live.
fn missing_task(follower: &Follower, event: &Event) -> Option<Reason> {
    match event {
        Event::InsertRight(task, _, other, _, _) | Event::ExtractRight(task, _, _, other) => {
            if is_missing(follower, *task) {
                return Some(no_task(follower, *task));
            }
            Some(no_task(follower, *other))
        }
        _ => Some(no_task(follower, task_of(event)?)),
    }
}

/// Whether the task doesn't live.
fn is_missing(follower: &Follower, task: TaskId) -> bool {
    !follower.tables().has_task(task)
}

/// Finds why a call that is no send and no receive is refused.
fn explain_kernel_call(follower: &Follower, event: &Event, code: KernReturn) -> Option<Cause> {
    match event {
        Event::RequestNotification(task, name, variant, sync, notify, given) => {
            let asked = Asked {
                subject: place_of(*task, *name),
                variant: *variant,
                sync: *sync,
                notify: place_of(*task, *notify),
                given: *given,
            };
            explain_request(follower, &asked, code)
        }
        Event::InsertRight(task, name, from, poly, given) => {
            let to = place_of(*task, *name);
            let source = place_of(*from, *poly);
            about_call(explain_insert(follower, &to, &source, *given, code))
        }
        Event::ExtractRight(task, name, given, to) => {
            let source = place_of(*task, *name);
            about_call(explain_extract(follower, &source, *given, *to, code))
        }
        Event::MoveMember(task, member, set) => {
            let set = place_of(*task, *set);
            about_call(explain_move(follower, &place_of(*task, *member), &set, code))
        }
        Event::InsertMember(task, member, set) | Event::ExtractMember(task, member, set) => {
            let set = place_of(*task, *set);
            about_call(explain_pair(follower, &place_of(*task, *member), &set, code))
        }
        _ => about_call(explain_name_call(follower, event, code)),
    }
}

/// Finds why a call on names, references, a receive right or a set is refused.
fn explain_name_call(follower: &Follower, event: &Event, code: KernReturn) -> Option<Reason> {
    match event {
        Event::TaskCreate => Some(Reason::TasksFull),
        Event::Allocate(task, right) => explain_made(follower, *task, *right, code),
        Event::AllocateName(task, right, name) => {
            explain_made_under(follower, &place_of(*task, *name), *right, code)
        }
        Event::Deallocate(task, name) => {
            lacks(follower, &place_of(*task, *name), Wanted::Deallocated)
        }
        Event::ModRefs(task, name, right, delta) => {
            explain_change(follower, &place_of(*task, *name), *right, *delta, code)
        }
        Event::GetRefs(task, name, right) => match code {
            KernReturn::InvalidValue => Some(Reason::NoRight(*right)),
            _ => absent(follower, &place_of(*task, *name)),
        },
        Event::Rename(task, old, new) => {
            let new = place_of(*task, *new);
            explain_rename(follower, &place_of(*task, *old), &new, code)
        }
        Event::SetQlimit(_, _, limit) if code == KernReturn::InvalidValue => {
            Some(Reason::Limit(*limit))
        }
        Event::ReceiveStatus(task, name)
        | Event::SetQlimit(task, name, _)
        | Event::SetMscount(task, name, _)
        | Event::SetSeqno(task, name, _) => {
            lacks(follower, &place_of(*task, *name), Wanted::Receive)
        }
        Event::SetStatus(task, name) => lacks(follower, &place_of(*task, *name), Wanted::Set),
        Event::Destroy(task, name) | Event::NameType(task, name) => {
            absent(follower, &place_of(*task, *name))
        }
        _ => None,
    }
}

/// Returns why the task can't have another name, or there can't be another right.
fn no_space(follower: &Follower, task: TaskId) -> Reason {
    match follower.tables().find_space(task) {
        Some(names) if names.is_full() => Reason::NamesFull(task),
        _ => rights_full(follower, 1),
    }
}

/// Returns that there can't be so many more rights.
fn rights_full(follower: &Follower, more: u32) -> Reason {
    Reason::RightsFull(follower.tables().total_rights(), more)
}

/// Finds why a right isn't made under a fresh name.
fn explain_made(follower: &Follower, task: TaskId, right: u32, code: KernReturn) -> Option<Reason> {
    match code {
        KernReturn::InvalidValue => Some(Reason::NotMade(right)),
        _ => Some(no_space(follower, task)),
    }
}

/// Finds why a right isn't made under the name.
fn explain_made_under(
    follower: &Follower,
    place: &Place,
    right: u32,
    code: KernReturn,
) -> Option<Reason> {
    match code {
        KernReturn::InvalidValue if matches!(right, 1 | 3 | 4) => no_name(place),
        KernReturn::InvalidValue => Some(Reason::NotMade(right)),
        KernReturn::NameExists => used(follower, place),
        _ => Some(no_space(follower, place.task)),
    }
}

/// Finds why a name isn't renamed.
fn explain_rename(
    follower: &Follower,
    old: &Place,
    new: &Place,
    code: KernReturn,
) -> Option<Reason> {
    match code {
        KernReturn::InvalidValue => no_name(new),
        KernReturn::NameExists => used(follower, new),
        _ => absent(follower, old),
    }
}

/// Finds why references aren't changed.
fn explain_change(
    follower: &Follower,
    place: &Place,
    right: u32,
    delta: i32,
    code: KernReturn,
) -> Option<Reason> {
    if right > 4 {
        return Some(Reason::NoRight(right));
    }
    if let Some(reason) = lacks(follower, place, Wanted::Right(right)) {
        return Some(reason);
    }
    if right != 0 && right != 4 {
        return Some(Reason::NoReferences(delta));
    }
    if code == KernReturn::NoSpace {
        return Some(rights_full(follower, delta.unsigned_abs()));
    }
    Some(Reason::Change(*place, standing_under(follower, place)?, delta))
}

/// Finds why a port isn't moved into a set, or out of one.
fn explain_move(
    follower: &Follower,
    member: &Place,
    set: &Place,
    code: KernReturn,
) -> Option<Reason> {
    if code == KernReturn::InvalidName {
        return either(absent(follower, member), absent(follower, set));
    }
    if let Some(reason) = lacks(follower, member, Wanted::Receive) {
        return Some(reason);
    }
    if code == KernReturn::NotInSet {
        let port = standing_under(follower, member)?.receive_port()?;
        return Some(Reason::InNoSet(*member, port));
    }
    lacks(follower, set, Wanted::Set)
}

/// Finds why a port doesn't enter a set beside others, or doesn't leave it.
fn explain_pair(
    follower: &Follower,
    member: &Place,
    set: &Place,
    code: KernReturn,
) -> Option<Reason> {
    match code {
        KernReturn::InvalidArgument => Some(Reason::OneSet),
        KernReturn::InvalidName => either(absent(follower, member), absent(follower, set)),
        KernReturn::InvalidRight => either(
            lacks(follower, member, Wanted::Receive),
            lacks(follower, set, Wanted::Set),
        ),
        KernReturn::AlreadyInSet | KernReturn::NotInSet => {
            let port = standing_under(follower, member)?.receive_port()?;
            let set = standing_under(follower, set)?.set()?;
            if code == KernReturn::NotInSet {
                return Some(Reason::NotIn(*member, port, set));
            }
            Some(Reason::AlreadyIn(*member, port, set))
        }
        KernReturn::ResourceShortage => Some(Reason::Memory),
        _ => None,
    }
}

/// Returns the first reason, or the second if there is no first.
fn either(first: Option<Reason>, second: Option<Reason>) -> Option<Reason> {
    match first {
        Some(reason) => Some(reason),
        None => second,
    }
}

/// Finds why a right isn't inserted.
fn explain_insert(
    follower: &Follower,
    to: &Place,
    source: &Place,
    given: u32,
    code: KernReturn,
) -> Option<Reason> {
    if let Some(reason) = no_name(to) {
        return Some(reason);
    }
    if Disposition::from_number(given).is_none() {
        return Some(Reason::NoDisposition(given));
    }
    if let Some(reason) = no_name(source) {
        return Some(reason);
    }
    if let Some(reason) = lacks(follower, source, Wanted::Disposition(given)) {
        return Some(reason);
    }
    match code {
        KernReturn::RightExists => explain_elsewhere(follower, to, source),
        KernReturn::NameExists => used(follower, to),
        KernReturn::UrefsOverflow => many_references(follower, to),
        _ => Some(no_space(follower, to.task)),
    }
}

/// Returns that the name has as many references as it can have.
fn many_references(follower: &Follower, place: &Place) -> Option<Reason> {
    Some(Reason::References(*place, standing_under(follower, place)?))
}

/// Finds the name that the task has for the port of a right that is to be inserted under another.
fn explain_elsewhere(follower: &Follower, to: &Place, source: &Place) -> Option<Reason> {
    let port = standing_under(follower, source)?.port()?;
    let name = follower.tables().find_space(to.task)?.name_of_port(port)?;
    Some(Reason::Elsewhere(place_of(to.task, name), port))
}

/// Finds why a right isn't extracted.
fn explain_extract(
    follower: &Follower,
    source: &Place,
    given: u32,
    to: TaskId,
    code: KernReturn,
) -> Option<Reason> {
    if Disposition::from_number(given).is_none() {
        return Some(Reason::NoDisposition(given));
    }
    if let Some(reason) = lacks(follower, source, Wanted::Disposition(given)) {
        return Some(reason);
    }
    match code {
        KernReturn::NoSpace => Some(no_space(follower, to)),
        _ => None,
    }
}

/// A request for a notice.
#[derive(Clone, Copy)]
struct Asked {
    subject: Place,
    variant: u32,
    sync: u32,
    notify: Place,
    given: u32,
}

/// Finds why a request for a notice is refused.
fn explain_request(follower: &Follower, asked: &Asked, code: KernReturn) -> Option<Cause> {
    let pays = asked.notify.name.number() != 0;
    if code == KernReturn::InvalidCapability {
        let lacking = lacks(follower, &asked.notify, Wanted::Disposition(asked.given));
        let reason = either(no_name(&asked.notify), lacking)?;
        return Some(Cause {
            part: Part::Notify,
            reason,
        });
    }
    if code == KernReturn::InvalidValue {
        return about_call(misasked(asked, pays));
    }
    about_call(explain_subject(follower, asked, code))
}

/// Finds which number of a request is wrong.
fn misasked(asked: &Asked, pays: bool) -> Option<Reason> {
    if !matches!(asked.variant, 69 | 70 | 72) {
        return Some(Reason::NoVariant(asked.variant));
    }
    if pays && asked.given != 18 && asked.given != 21 {
        return Some(Reason::PaysBy(asked.given));
    }
    Some(Reason::Sync(asked.sync))
}

/// Finds what is wrong with the name that a request is about.
fn explain_subject(follower: &Follower, asked: &Asked, code: KernReturn) -> Option<Reason> {
    let place = &asked.subject;
    let wanted = if asked.variant == 72 {
        Wanted::Mortal
    } else {
        Wanted::Receive
    };
    match code {
        KernReturn::InvalidArgument => Some(Reason::DeadUnasked(*place)),
        KernReturn::UrefsOverflow => many_references(follower, place),
        KernReturn::NoSpace => Some(no_space(follower, place.task)),
        KernReturn::InvalidName => either(absent(follower, place), taken(follower, asked)),
        _ => lacks(follower, place, wanted),
    }
}

/// Returns that the notify right is the right of the name that the request is about.
fn taken(follower: &Follower, asked: &Asked) -> Option<Reason> {
    if asked.subject != asked.notify {
        return None;
    }
    let standing = standing_under(follower, &asked.subject)?;
    Some(Reason::TakenBefore(asked.subject, standing))
}
