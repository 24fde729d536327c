//! The codes of causes.
ghost use Rattle.std.specs.Prelude.{◌≡◌, ℕ, IsTrue};
ghost use Rattle.mach_causes_base.specs.Codes.{IsChangeCode, IsCode, IsOfRight, IsReasonCode, fault_code, item_code};

use crate::cause::{Cause, Part, Reason, Wanted};
use mach_types::{KernReturn, MsgReturn};
use mach_words::{ItemFault, MessageFault};

/// Whether a call that has this cause is refused with this code.
pub(crate) fn suits(cause: &Cause, code: u32) -> bool
    ensures { IsTrue result → IsCode cause.now code }
{
    match cause.part {
        Part::Call => is_of_reason(&cause.reason, code),
        Part::Destination => {
            is_of_right(&cause.reason) && code == MsgReturn::SendInvalidDest.number()
        }
        Part::Answer => is_of_right(&cause.reason) && code == MsgReturn::SendInvalidReply.number(),
        Part::Word(_) => is_of_right(&cause.reason) && code == MsgReturn::SendInvalidRight.number(),
        Part::Notify => {
            is_of_right(&cause.reason) && code == KernReturn::InvalidCapability.number()
        }
    }
}

/// Whether the reason says why a right can't be copied in from a name.
fn is_of_right(reason: &Reason) -> bool
    ensures { IsTrue result → IsOfRight reason.now }
{
    matches!(
        reason,
        Reason::NoName(_)
            | Reason::Absent(..)
            | Reason::Dead(_)
            | Reason::TakenBefore(..)
            | Reason::Lacks(_, _, Wanted::Disposition(_))
    )
}

/// Whether a call is refused with this code, for a reason that is about the whole call.
fn is_of_reason(reason: &Reason, code: u32) -> bool
    ensures { IsTrue result → IsReasonCode reason.now code }
{
    match reason {
        Reason::NoTask(..) => code == 16,
        Reason::TasksFull | Reason::NamesFull(_) | Reason::RightsFull(..) => code == 3,
        Reason::NotMade(_)
        | Reason::NoRight(_)
        | Reason::Limit(_)
        | Reason::NoDisposition(_)
        | Reason::NoVariant(_)
        | Reason::PaysBy(_)
        | Reason::Sync(_)
        | Reason::NoReferences(_) => code == 18,
        Reason::NoName(_) => code == 18 || code == 20,
        Reason::Memory => code == 6 || code == 0x1000_480c,
        Reason::NoBuffer => code == 0x1000_000d,
        Reason::Absent(..) => code == 15 || code == 0x1000_4002,
        Reason::TakenBefore(..) => code == 15,
        Reason::Lacks(..) => code == 17 || code == 0x1000_4002,
        Reason::Dead(_) => code == 17 || code == 20 || code == 0x1000_4002,
        _ => is_of_state(reason, code),
    }
}

/// The same for reasons about the state or about bytes.
fn is_of_state(reason: &Reason, code: u32) -> bool
    ensures { IsTrue result → IsReasonCode reason.now code }
{
    match reason {
        Reason::Used(..) => code == 13,
        Reason::Elsewhere(..) => code == 21,
        Reason::InNoSet(..) | Reason::NotIn(..) => code == 12,
        Reason::AlreadyIn(..) => code == 11,
        Reason::OneSet | Reason::DeadUnasked(_) => code == 4,
        Reason::References(..) => code == 19,
        Reason::Change(_, _, delta) => is_of_change(*delta, code),
        Reason::Message(fault) => code == code_of(fault),
        Reason::OwnDestination(..) | Reason::Loop(..) => code == 0x1000_000a,
        Reason::Full(..) => code == 0x1000_0004,
        Reason::InSet(..) => code == 0x1000_400a,
        Reason::NamesShort(..) => code == 0x1000_600c,
        Reason::Died(..) => code == 0x1000_4009,
        Reason::Member(..) | Reason::Changed(..) => code == 0x1000_4006,
        _ => false,
    }
}

/// Whether a change of references by this number is refused with this code.
fn is_of_change(delta: i32, code: u32) -> bool
    ensures { IsTrue result → IsChangeCode delta code }
{
    if delta < 0 { code == 18 } else { code == 19 }
}

/// Returns the code of bytes with this fault.
fn code_of(fault: &MessageFault) -> u32
    ensures { result ≡ fault_code fault.now }
{
    match fault {
        MessageFault::Length(_) => 0x1000_0008,
        MessageFault::TooLong(_) => 0x1000_0002,
        MessageFault::Bits(_)
        | MessageFault::Destination(_)
        | MessageFault::Answer(_)
        | MessageFault::AnswerPort(_) => 0x1000_0010,
        MessageFault::Item(_, _, item) => code_of_item(item),
    }
}

/// Returns the code of an item with this fault.
fn code_of_item(fault: &ItemFault) -> u32
    ensures { result ≡ item_code fault.now }
{
    match fault {
        ItemFault::LongEnds(_) | ItemFault::DataEnds(..) => 0x1000_0008,
        _ => 0x1000_000f,
    }
}
