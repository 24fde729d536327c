//! Room for the copy of a reply, made before the step whose reply it is: as much as that reply may need
//! by the kernel's tables. What the reply leaves of it is given back.
ghost use Rattle.std.specs.Prelude.{◌≡◌, ◌<◌, ◌≤◌, [], IfOk, OnErr};
ghost use Rattle.std.specs.Vec.{vec_capacity};
ghost use Rattle.mach_types.specs.declared.calls.Reply.{Reply};
ghost use Rattle.kernel_core.specs.Bounds.{as_bytes, as_names, as_members, IsWithin};
ghost use Rattle.kernel_record.specs.Room.{HasNoMore, HasRoom, IsUnused};

use mach_types::{Bytes, Event, Name, NameList, NameTypes, Reply};
use std::alloc::{AllocError, Global};

/// Room for so many bytes, names and members.
#[derive(Drop)]
pub struct Room {
    bytes: Vec<u8>,
    names: Vec<(Name, u32)>,
    members: Vec<Name>,
}

impl Room {
    /// No room. Takes no memory.
    pub fn none(alloc: Global) -> Room
        ensures { IsUnused result }
    {
        Room {
            bytes: Vec::new(alloc),
            names: Vec::new(alloc),
            members: Vec::new(alloc),
        }
    }

    /// Room for a copy of each reply to the event that has no more than so many bytes, names or members. Takes no
    /// memory where that is 0.
    pub fn of(alloc: Global, event: &Event, most: usize) -> Result<Room, AllocError>
        ensures unused { IfOk result IsUnused }
        ensures room { IfOk result (λ room. (reply : Reply) → IsWithin event.now most reply → HasRoom room reply) }
        ensures few { IfOk result (λ room. HasNoMore room most) }
        ensures err { OnErr result (0 < most) }
    {
        Ok(Room {
            bytes: places(alloc, as_bytes(event, most))?,
            names: places(alloc, as_names(event, most))?,
            members: places(alloc, as_members(event, most))?,
        })
    }

    /// A copy of the reply, which takes no more memory; room that it leaves is given back.
    pub fn copy(self, reply: &Reply) -> Reply
        requires unused { IsUnused self }
        requires room { HasRoom self reply.now }
        ensures { result ≡ reply.now }
    {
        let Room {
            mut bytes,
            mut names,
            mut members,
        } = self;
        match reply {
            Reply::Message(told) => {
                let Ok(()) = bytes.extend_from_slice(told.as_slice()) else {
                    unreachable!()
                };
                bytes.shrink_to_fit();
                Reply::Message(Bytes::from_vec(bytes))
            }
            Reply::Names(told) => {
                let Ok(()) = names.extend_from_slice(told.as_slice()) else {
                    unreachable!()
                };
                names.shrink_to_fit();
                Reply::Names(NameTypes::from_vec(names))
            }
            Reply::Members(told) => {
                let Ok(()) = members.extend_from_slice(told.as_slice()) else {
                    unreachable!()
                };
                members.shrink_to_fit();
                Reply::Members(NameList::from_vec(members))
            }
            Reply::Code(code) => Reply::Code(*code),
            Reply::Task(task) => Reply::Task(*task),
            Reply::Name(name) => Reply::Name(*name),
            Reply::Refs(count) => Reply::Refs(*count),
            Reply::NameType(bits) => Reply::NameType(*bits),
            Reply::Status(status) => Reply::Status(*status),
            Reply::Right(name, kind) => Reply::Right(*name, *kind),
            Reply::Previous(name) => Reply::Previous(*name),
            Reply::Empty(waited) => Reply::Empty(*waited),
            Reply::TooLarge(length) => Reply::TooLarge(*length),
            Reply::NoRecord => Reply::NoRecord,
        }
    }
}

/// So many places; none take no memory.
fn places<T>(alloc: Global, count: usize) -> Result<Vec<T>, AllocError>
    ensures items { IfOk result (λ v. v.items ≡ []) }
    ensures places { IfOk result (λ v. vec_capacity v ≡ count) }
    ensures err { OnErr result (0 < count) }
{
    if count == 0 {
        Ok(Vec::new(alloc))
    } else {
        Vec::with_capacity(alloc, count)
    }
}

/// Of so many, those that are bytes.
fn as_bytes(event: &Event, most: usize) -> usize
    ensures part { result ≡ as_bytes event.now most }
    ensures most { result ≤ most }
{
    match event {
        Event::Receive(..) | Event::ReceiveAgain(..) => most,
        _ => 0,
    }
}

/// Those that are names.
fn as_names(event: &Event, most: usize) -> usize
    ensures part { result ≡ as_names event.now most }
    ensures most { result ≤ most }
{
    match event {
        Event::Names(_) => most,
        _ => 0,
    }
}

/// Those that are a set's members.
fn as_members(event: &Event, most: usize) -> usize
    ensures part { result ≡ as_members event.now most }
    ensures most { result ≤ most }
{
    match event {
        Event::SetStatus(..) => most,
        _ => 0,
    }
}
