//! What typed calls answer, and how a reply says it.
ghost use Rattle.std.specs.Prelude.{◌≡◌, ◌≢◌, IfErr};
ghost use Rattle.mach_types.specs.declared.calls.Reply.TheVariants as AnyReply;
ghost use Rattle.mach_types.specs.Codes.{kern_number, code_number};
ghost use Rattle.gelvonds.specs.Fits.{IsKern, IsCode, IsDone, IsTask, IsName, IsRefs, IsNameType, IsNames, IsStatus, IsMembers, IsRight, IsPrevious, IsReceived};
ghost use Rattle.gelvonds.specs.Results.{reply_of, done, extracted, receipt_reply};

use mach_types::{
    Bytes, Code, KernReturn, MsgReturn, Name, NameList, NameTypes, Reply, Status, TaskId, Waited,
};

/// What came of a receive that wasn't refused (IPC Interface, `mach_msg` with `MACH_RCV_MSG`).
#[derive(Debug, PartialEq, Eq, Drop)]
pub enum Receipt {
    /// The bytes received.
    Message(Bytes),
    /// No message was there (`MACH_RCV_TIMED_OUT`); what was waited for, by identity.
    Empty(Waited),
    /// The message is longer than the room (`MACH_RCV_TOO_LARGE`); its length in bytes.
    TooLarge(u32),
}

/// A message that was not sent.
#[derive(Debug, PartialEq, Eq, Drop)]
pub struct SendError {
    /// Why.
    pub code: Code,
    /// The message, given back.
    pub message: Bytes,
}

/// Why a send was refused, without its message.
impl From<SendError> for Code {
    ghost from_gives = { λ error given. given ≡ error.code };

    fn from(error: SendError) -> Code {
        error.code
    }
}

/// A right that was extracted.
#[derive(Clone, Copy, Debug, PartialEq, Eq)]
pub struct ExtractedRight {
    /// Its name in the task that has it now.
    pub name: Name,
    /// The number of its kind: 16 (receive), 17 (send) or 18 (send-once).
    pub kind: u8,
}

/// The code of this number that refuses a kernel call.
pub(crate) fn kern_code(number: u32) -> KernReturn
    requires { IsKern number }
    ensures { kern_number result ≡ number }
{
    match KernReturn::from_number(number) {
        Some(code) => code,
        None => unreachable!(),
    }
}

/// The code of this number that refuses a send or a receive.
pub(crate) fn message_code(number: u32) -> Code
    requires { IsCode number }
    ensures { code_number result ≡ number }
{
    if let Some(code) = KernReturn::from_number(number) {
        return Code::Kern(code);
    }
    match MsgReturn::from_number(number) {
        Some(code) => Code::Message(code),
        None => unreachable!(),
    }
}

/// Whether a call was done.
pub(crate) fn done(reply: Reply) -> Result<(), KernReturn>
    requires { IsDone reply }
    ensures says { reply ≡ reply_of done result }
    ensures fails { IfErr result (λ code. kern_number code ≢ 0) }
{
    match reply {
        Reply::Code(0) => Ok(()),
        Reply::Code(number) => Err(kern_code(number)),
        _ => unreachable!(),
    }
}

/// The task made.
pub(crate) fn task(reply: Reply) -> Result<TaskId, KernReturn>
    requires { IsTask reply }
    ensures says { reply ≡ reply_of AnyReply.Task result }
    ensures fails { IfErr result (λ code. kern_number code ≢ 0) }
{
    match reply {
        Reply::Task(told) => Ok(told),
        Reply::Code(number) => Err(kern_code(number)),
        _ => unreachable!(),
    }
}

/// The name given.
pub(crate) fn name(reply: Reply) -> Result<Name, KernReturn>
    requires { IsName reply }
    ensures says { reply ≡ reply_of AnyReply.Name result }
    ensures fails { IfErr result (λ code. kern_number code ≢ 0) }
{
    match reply {
        Reply::Name(told) => Ok(told),
        Reply::Code(number) => Err(kern_code(number)),
        _ => unreachable!(),
    }
}

/// How many references.
pub(crate) fn refs(reply: Reply) -> Result<u32, KernReturn>
    requires { IsRefs reply }
    ensures says { reply ≡ reply_of AnyReply.Refs result }
    ensures fails { IfErr result (λ code. kern_number code ≢ 0) }
{
    match reply {
        Reply::Refs(told) => Ok(told),
        Reply::Code(number) => Err(kern_code(number)),
        _ => unreachable!(),
    }
}

/// The type of a name.
pub(crate) fn name_type(reply: Reply) -> Result<u32, KernReturn>
    requires { IsNameType reply }
    ensures says { reply ≡ reply_of AnyReply.NameType result }
    ensures fails { IfErr result (λ code. kern_number code ≢ 0) }
{
    match reply {
        Reply::NameType(told) => Ok(told),
        Reply::Code(number) => Err(kern_code(number)),
        _ => unreachable!(),
    }
}

/// A task's names with their types.
pub(crate) fn names(reply: Reply) -> Result<NameTypes, KernReturn>
    requires { IsNames reply }
    ensures says { reply ≡ reply_of AnyReply.Names result }
    ensures fails { IfErr result (λ code. kern_number code ≢ 0) }
{
    match reply {
        Reply::Names(told) => Ok(told),
        Reply::Code(number) => Err(kern_code(number)),
        _ => unreachable!(),
    }
}

/// The status of a receive right.
pub(crate) fn status(reply: Reply) -> Result<Status, KernReturn>
    requires { IsStatus reply }
    ensures says { reply ≡ reply_of AnyReply.Status result }
    ensures fails { IfErr result (λ code. kern_number code ≢ 0) }
{
    match reply {
        Reply::Status(told) => Ok(told),
        Reply::Code(number) => Err(kern_code(number)),
        _ => unreachable!(),
    }
}

/// The names of a set's members.
pub(crate) fn members(reply: Reply) -> Result<NameList, KernReturn>
    requires { IsMembers reply }
    ensures says { reply ≡ reply_of AnyReply.Members result }
    ensures fails { IfErr result (λ code. kern_number code ≢ 0) }
{
    match reply {
        Reply::Members(told) => Ok(told),
        Reply::Code(number) => Err(kern_code(number)),
        _ => unreachable!(),
    }
}

/// The name of the right that a request kept before.
pub(crate) fn previous(reply: Reply) -> Result<Name, KernReturn>
    requires { IsPrevious reply }
    ensures says { reply ≡ reply_of AnyReply.Previous result }
    ensures fails { IfErr result (λ code. kern_number code ≢ 0) }
{
    match reply {
        Reply::Previous(told) => Ok(told),
        Reply::Code(number) => Err(kern_code(number)),
        _ => unreachable!(),
    }
}

/// A right's new name, and the number of its kind.
pub(crate) fn right(reply: Reply) -> Result<ExtractedRight, KernReturn>
    requires { IsRight reply }
    ensures says { reply ≡ reply_of extracted result }
    ensures fails { IfErr result (λ code. kern_number code ≢ 0) }
{
    match reply {
        Reply::Right(name, kind) => Ok(ExtractedRight { name, kind }),
        Reply::Code(number) => Err(kern_code(number)),
        _ => unreachable!(),
    }
}

/// What came of a receive.
pub(crate) fn received(reply: Reply) -> Result<Receipt, Code>
    requires { IsReceived reply }
    ensures says { reply ≡ receipt_reply result }
    ensures fails { IfErr result (λ code. code_number code ≢ 0) }
{
    match reply {
        Reply::Message(bytes) => Ok(Receipt::Message(bytes)),
        Reply::Empty(waited) => Ok(Receipt::Empty(waited)),
        Reply::TooLarge(needed) => Ok(Receipt::TooLarge(needed)),
        Reply::Code(number) => Err(message_code(number)),
        _ => unreachable!(),
    }
}
