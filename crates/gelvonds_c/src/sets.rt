//! Calls of port sets.
ghost use Rattle.std.specs.Prelude.{◌≡◌, length, if◌then◌else◌, nat_lt};
ghost use Rattle.mach_types.specs.declared.calls.Event.TheVariants.{ExtractMember, InsertMember, MoveMember, SetStatus};
ghost use Rattle.gelvonds_c_base.specs.Codes.{signed, too_short};
ghost use Rattle.gelvonds_c.specs.Calls.{Asks, ListsMembers, put_list};

use crate::call::{call, code, code_of};
use crate::handle::Handle;
use gelvonds_c_base::codes::{SUCCESS, TOO_SHORT};
use mach_types::{Event, Name, Reply, TaskId};
use std::alloc::Global;

/// `mach_port_move_member`.
#[unsafe(no_mangle)]
pub extern "C" fn gelvonds_port_move_member(
    alloc: Global,
    handle: &mut Handle,
    task: u32,
    member: u32,
    after: u32,
) -> i32
    ensures { Asks handle.old.kernel (MoveMember task member after) result handle.new.kernel }
{
    let event = Event::MoveMember(TaskId::new(task), Name::new(member), Name::new(after));
    code(alloc, handle, &event)
}

/// `mach_port_insert_member` of later Machs.
#[unsafe(no_mangle)]
pub extern "C" fn gelvonds_port_insert_member(
    alloc: Global,
    handle: &mut Handle,
    task: u32,
    member: u32,
    set: u32,
) -> i32
    ensures { Asks handle.old.kernel (InsertMember task member set) result handle.new.kernel }
{
    let event = Event::InsertMember(TaskId::new(task), Name::new(member), Name::new(set));
    code(alloc, handle, &event)
}

/// `mach_port_extract_member` of later Machs.
#[unsafe(no_mangle)]
pub extern "C" fn gelvonds_port_extract_member(
    alloc: Global,
    handle: &mut Handle,
    task: u32,
    member: u32,
    set: u32,
) -> i32
    ensures { Asks handle.old.kernel (ExtractMember task member set) result handle.new.kernel }
{
    let event = Event::ExtractMember(TaskId::new(task), Name::new(member), Name::new(set));
    code(alloc, handle, &event)
}

/// `mach_port_get_set_status`.
#[unsafe(no_mangle)]
pub extern "C" fn gelvonds_port_get_set_status(
    alloc: Global,
    handle: &mut Handle,
    task: u32,
    name: u32,
    members: &mut [u32],
    count: &mut usize,
) -> i32
    ensures { ListsMembers handle.old.kernel (SetStatus task name) result handle.new.kernel members.old members.new count.old count.new }
{
    let event = Event::SetStatus(TaskId::new(task), Name::new(name));
    let reply = call(alloc, handle, &event);
    match &reply {
        Some(Reply::Members(found)) => put_members(found.as_slice(), members, count),
        _ => code_of(&reply),
    }
}

/// Writes the names where there is room for all, and tells how many they are.
fn put_members(found: &[Name], members: &mut [u32], count: &mut usize) -> i32
    ensures code { result ≡ signed (if nat_lt (length members.old) (length found.now) then too_short else 0) }
    ensures members { members.new ≡ put_list (length members.old) (length found.now) found.now members.old }
    ensures count { count.new ≡ length found.now }
{
    *count = found.len();
    if found.len() > members.len() {
        return TOO_SHORT;
    }
    for (place, name) in found.iter().enumerate() {
        members[place] = name.number();
    }
    SUCCESS
}
