//! Each growth of a row, refused in turn.
use crate::judging::{Fault, Verdict};
use crate::looking::look;
use crate::playing::{Side, Tried, copies, copies_before, copies_from, play};
use crate::refusing::{count, is_asked, refuse};
use kernel_lock::Entry;
use mach_types::{Event, KernReturn, MsgReturn, Reply};
use std::sync::Wait;
use tracer::History;

/// Of a row with more growths than twice this many, only the first so many and the last are refused.
const EACH_END: usize = 100;

/// A row, by which call it is played, and for how many growths it asks.
#[derive(Drop)]
struct Swept<'a> {
    side: Side,
    row: &'a History,
    total: usize,
}

/// Refuses each growth of the row in turn, in a new kernel each.
pub fn sweep<R: AllocGlobal + Wait>(rt: &R, side: Side, row: &History) -> Verdict {
    match count_all(rt, side, row) {
        Ok(total) => refuse_each(rt, &Swept { side, row, total }),
        Err(fault) => Verdict::failed(0, fault),
    }
}

/// The same, where it is known for how many growths the row asks.
fn refuse_each<R: AllocGlobal + Wait>(rt: &R, swept: &Swept<'_>) -> Verdict {
    let mut refused = 0usize;
    for at in 1..swept.total.saturating_add(1) {
        if at > EACH_END && at.saturating_add(EACH_END) <= swept.total {
            continue;
        }
        match refuse_one(rt, swept, at) {
            Ok(()) => refused = refused.saturating_add(1),
            Err(fault) => return Verdict::failed(refused, fault),
        }
    }
    Verdict::passed(refused)
}

/// Plays the row with memory, and counts the growths that it asks for.
fn count_all<R: AllocGlobal + Wait>(rt: &R, side: Side, row: &History) -> Result<usize, Fault> {
    let mut kernel = Tried::new(rt, side, row.profile())?;
    count_on(rt, &mut kernel, side, row.entries())
}

/// The same, on this kernel.
fn count_on<R: AllocGlobal + Wait>(
    rt: &R,
    kernel: &mut Tried,
    side: Side,
    row: &[Entry],
) -> Result<usize, Fault> {
    let entries = copies(rt.alloc(), row)?;
    refuse(rt.alloc(), 0);
    let played = play(rt, kernel, entries);
    if let (Some(reply), Some(entry)) = (&played.other, row.get(played.made)) {
        judge_reply(side, &entry.event, reply, false)?;
    }
    Ok(count(rt.alloc()))
}

/// Refuses growth number `at` of the row. Where the call tells of it, nothing has changed, and the same call and those
/// behind it are answered as in the row; else each reply is the row's.
fn refuse_one<R: AllocGlobal + Wait>(rt: &R, swept: &Swept<'_>, at: usize) -> Result<(), Fault> {
    let mut kernel = Tried::new(rt, swept.side, swept.row.profile())?;
    refuse_on(rt, &mut kernel, swept, at)
}

/// The same, on this kernel.
fn refuse_on<R: AllocGlobal + Wait>(
    rt: &R,
    kernel: &mut Tried,
    swept: &Swept<'_>,
    at: usize,
) -> Result<(), Fault> {
    let entries = copies(rt.alloc(), swept.row.entries())?;
    refuse(rt.alloc(), at);
    let played = play(rt, kernel, entries);
    let asked = is_asked(rt.alloc(), at);
    refuse(rt.alloc(), 0);
    if !asked {
        return Err(Fault::NotAsked);
    }
    match (&played.other, swept.row.entries().get(played.made)) {
        (Some(reply), Some(entry)) => {
            judge_reply(swept.side, &entry.event, reply, true)?;
            judge_length(rt, kernel, played.made, reply)?;
            judge_rest(rt, kernel, swept, played.made, at)
        }
        _ => Ok(()),
    }
}

/// Judges what a call at this place left that was refused growth number `at`, and what comes of it and of those behind it
/// with memory.
fn judge_rest<R: AllocGlobal + Wait>(
    rt: &R,
    kernel: &mut Tried,
    swept: &Swept<'_>,
    place: usize,
    at: usize,
) -> Result<(), Fault> {
    let before = judge_state(rt, kernel, swept, place)?;
    let after = go_on(rt, kernel, swept.row.entries(), place)?;
    match (swept.side, swept.row.entries().get(place)) {
        (Side::Step, Some(entry)) => {
            let without = swept.total.saturating_sub(before);
            judge_growths(&entry.event, without, after, at.saturating_sub(before))
        }
        _ => Ok(()),
    }
}

/// Judges a reply to the call that isn't the row's: it is to say out of memory, and a growth was refused.
fn judge_reply(side: Side, event: &Event, reply: &Reply, asked: bool) -> Result<(), Fault> {
    let tells = match reply {
        Reply::NoRecord => side == Side::Locked,
        Reply::Code(code) => memory_code(event) == Some(*code),
        _ => false,
    };
    match (tells, asked) {
        (true, true) => Ok(()),
        (true, false) => Err(Fault::NoneRefused),
        _ => Err(Fault::OtherReply),
    }
}

/// The call's own code for out of memory; `None` where it takes no memory.
pub fn memory_code(event: &Event) -> Option<u32> {
    match event {
        Event::TaskTerminate(_)
        | Event::Deallocate(_, _)
        | Event::Destroy(_, _)
        | Event::ModRefs(_, _, _, _)
        | Event::GetRefs(_, _, _)
        | Event::NameType(_, _)
        | Event::ReceiveStatus(_, _)
        | Event::SetQlimit(_, _, _)
        | Event::SetMscount(_, _, _)
        | Event::SetSeqno(_, _, _)
        | Event::MoveMember(_, _, _)
        | Event::ExtractMember(_, _, _) => None,
        Event::Send(_, _) => Some(MsgReturn::SendNoBuffer.number()),
        Event::Receive(_, _, _, _) | Event::ReceiveAgain(_, _, _, _) => {
            Some(MsgReturn::ReceiveBodyErrorMemory.number())
        }
        _ => Some(KernReturn::ResourceShortage.number()),
    }
}

/// Judges how many calls the history has after this reply: those before it, and the call itself unless it is `NoRecord`.
fn judge_length<R: Wait>(
    rt: &R,
    kernel: &mut Tried,
    made: usize,
    reply: &Reply,
) -> Result<(), Fault> {
    let recorded = usize::from(*reply != Reply::NoRecord);
    if kernel.has_recorded(rt, made.saturating_add(recorded)) {
        Ok(())
    } else {
        Err(Fault::OtherLength)
    }
}

/// Judges whether the kernel is as another one that made the calls before this place, with memory. Returns for how many
/// growths these asked.
fn judge_state<R: AllocGlobal + Wait>(
    rt: &R,
    kernel: &mut Tried,
    swept: &Swept<'_>,
    place: usize,
) -> Result<usize, Fault> {
    let mut other = Tried::new(rt, swept.side, swept.row.profile())?;
    let before = play_before(rt, &mut other, swept.row.entries(), place)?;
    compare(rt, kernel, &mut other)?;
    Ok(before)
}

/// Makes the calls before this place, with memory. Returns for how many growths they asked.
fn play_before<R: AllocGlobal + Wait>(
    rt: &R,
    kernel: &mut Tried,
    row: &[Entry],
    place: usize,
) -> Result<usize, Fault> {
    let entries = copies_before(rt.alloc(), row, place)?;
    refuse(rt.alloc(), 0);
    play(rt, kernel, entries);
    Ok(count(rt.alloc()))
}

/// Judges whether the two show the same.
fn compare<R: AllocGlobal + Wait>(
    rt: &R,
    kernel: &mut Tried,
    other: &mut Tried,
) -> Result<(), Fault> {
    let seen = look(rt, kernel)?;
    let wanted = look(rt, other)?;
    if seen.as_slice() == wanted.as_slice() {
        Ok(())
    } else {
        Err(Fault::OtherState)
    }
}

/// Makes the call at this place again, with memory, and those behind it. Returns for how many growths they asked.
fn go_on<R: AllocGlobal + Wait>(
    rt: &R,
    kernel: &mut Tried,
    row: &[Entry],
    place: usize,
) -> Result<usize, Fault> {
    let entries = copies_from(rt.alloc(), row, place)?;
    refuse(rt.alloc(), 0);
    let played = play(rt, kernel, entries);
    match played.other {
        None => Ok(count(rt.alloc())),
        Some(_) => Err(Fault::NotAgain),
    }
}

/// Judges for how many growths the calls asked from the refused one on: as many as without a refusal. But a call that
/// makes room in tables, or a record there, may keep what it was given before the refusal; this was its growth of this
/// number.
fn judge_growths(event: &Event, without: usize, after: usize, number: usize) -> Result<(), Fault> {
    let kept = match event {
        Event::Names(_)
        | Event::SetStatus(_, _)
        | Event::Send(_, _)
        | Event::Receive(_, _, _, _)
        | Event::ReceiveAgain(_, _, _, _) => 0,
        _ => number.saturating_sub(1),
    };
    if after <= without && without.saturating_sub(after) <= kept {
        Ok(())
    } else {
        Err(Fault::OtherGrowths)
    }
}
