//! What a right takes from the name that it goes from by a disposition, and what it leaves there.
//!
//! Nothing here takes memory, and each operation takes constant time.
#![tactic(auto)]

ghost use Rattle.std.specs.Prelude.{◌≡◌, ◌≢◌, ℕ, Some, None};
ghost use Rattle.std.specs.Option.{option_and_then, option_map};
ghost use Rattle.name_space.specs.declared.Entry.TheVariants as entry_of;
ghost use Rattle.mach_types.specs.declared.rights.Disposition.TheVariants as disposition_of;
ghost use Rattle.dispositions.specs.Copies.{copied_from, leaving, leaving_dead, one_less};

use copyin_base::Mark;
use mach_types::{Disposition, PortId};
use name_space::Entry;
use user_refs::UserRefs;

/// A right that is copied in.
#[derive(Clone, Copy, Debug, PartialEq, Eq)]
pub struct Copied {
    /// What is left under the name; where nothing is, the name is no name any more.
    pub left: Option<Entry>,
    /// What stands for the right.
    pub mark: Mark,
}

// The port's right, and what is left.
fn leaving(left: Option<Entry>, port: PortId) -> Option<Copied>
    ensures { result ≡ leaving left port }
{
    let mark = Mark::Port(port);
    Some(Copied { left, mark })
}

// A dead name less one reference, passed on as dead.
fn one_dead_less(references: UserRefs) -> Option<Copied>
    ensures { result ≡ leaving_dead (one_less entry_of.DeadName None references) }
{
    let left = references.sub(1).map(|rest| Entry::DeadName(rest));
    let mark = Mark::Dead;
    Some(Copied { left, mark })
}

fn move_receive(entry: &Entry) -> Option<Copied>
    ensures { result ≡ copied_from disposition_of.MoveReceive entry.now }
{
    match entry {
        Entry::Receive(port) => leaving(None, *port),
        Entry::ReceiveAndSend(port, references) => leaving(
            Some(Entry::Send(*port, *references)),
            *port,
        ),
        _ => None,
    }
}

fn move_send(entry: &Entry) -> Option<Copied>
    ensures { result ≡ copied_from disposition_of.MoveSend entry.now }
{
    match entry {
        Entry::Send(port, references) => leaving(
            references.sub(1).map(|rest| Entry::Send(*port, rest)),
            *port,
        ),
        Entry::ReceiveAndSend(port, references) => leaving(
            Some(match references.sub(1) {
                Some(rest) => Entry::ReceiveAndSend(*port, rest),
                None => Entry::Receive(*port),
            }),
            *port,
        ),
        Entry::DeadName(references) => one_dead_less(*references),
        _ => None,
    }
}

fn move_send_once(entry: &Entry) -> Option<Copied>
    ensures { result ≡ copied_from disposition_of.MoveSendOnce entry.now }
{
    match entry {
        Entry::SendOnce(port) => leaving(None, *port),
        Entry::DeadName(references) => one_dead_less(*references),
        _ => None,
    }
}

fn copy_send(entry: &Entry) -> Option<Copied>
    ensures { result ≡ copied_from disposition_of.CopySend entry.now }
{
    match entry {
        Entry::Send(port, _) | Entry::ReceiveAndSend(port, _) => leaving(Some(*entry), *port),
        Entry::DeadName(_) => Some(Copied {
            left: Some(*entry),
            mark: Mark::Dead,
        }),
        _ => None,
    }
}

fn make(entry: &Entry) -> Option<Copied>
    ensures send { result ≡ copied_from disposition_of.MakeSend entry.now }
    ensures once { result ≡ copied_from disposition_of.MakeSendOnce entry.now }
{
    match entry {
        Entry::Receive(port) | Entry::ReceiveAndSend(port, _) => leaving(Some(*entry), *port),
        _ => None,
    }
}

/// The right that goes by the disposition from what is under a name, and what it leaves there (IPC Interface,
/// `mach_msg_type_name_t`); `None` where the disposition can't be met. Takes no memory; constant time.
pub fn copy_right(disposition: Disposition, entry: &Entry) -> Option<Copied>
    ensures { result ≡ copied_from disposition entry.now }
{
    match disposition {
        Disposition::MoveReceive => move_receive(entry),
        Disposition::MoveSend => move_send(entry),
        Disposition::MoveSendOnce => move_send_once(entry),
        Disposition::CopySend => copy_send(entry),
        Disposition::MakeSend | Disposition::MakeSendOnce => make(entry),
    }
}

/// What stands for the right that goes by the disposition from what is under a name, as [`copy_right`] says
/// it; `None` where the disposition can't be met. Takes no memory; constant time.
#[inline(always)]
pub fn mark_sent(disposition: Disposition, entry: &Entry) -> Option<Mark>
    ensures { result ≡ option_map (λ copied. copied.mark) (copied_from disposition entry.now) }
{
    match disposition {
        Disposition::MoveReceive | Disposition::MakeSend | Disposition::MakeSendOnce =>
            match entry {
                Entry::Receive(port) | Entry::ReceiveAndSend(port, _) => Some(Mark::Port(*port)),
                _ => None,
            },
        Disposition::MoveSend | Disposition::CopySend => match entry {
            Entry::Send(port, _) | Entry::ReceiveAndSend(port, _) => Some(Mark::Port(*port)),
            Entry::DeadName(_) => Some(Mark::Dead),
            _ => None,
        },
        Disposition::MoveSendOnce => match entry {
            Entry::SendOnce(port) => Some(Mark::Port(*port)),
            Entry::DeadName(_) => Some(Mark::Dead),
            _ => None,
        },
    }
}

/// What a right that goes by the disposition leaves of what is under its name, as [`copy_right`] says it: nothing
/// where the name is no name any more, or the disposition can't be met. Takes no memory; constant time.
pub fn left_by(disposition: Disposition, entry: &Entry) -> Option<Entry>
    ensures { result ≡ option_and_then (λ copied. copied.left) (copied_from disposition entry.now) }
{
    match copy_right(disposition, entry) {
        Some(copied) => copied.left,
        None => None,
    }
}
