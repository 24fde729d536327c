//! The codes that are the library's own, which Mach has not, and the C names of all; `include/gelvonds.h` has both for C.
ghost use Rattle.std.specs.Prelude.{◌≡◌, ◌<◌, length};
ghost use Rattle.gelvonds_c_base.specs.Codes.{IsCalled, kern_name, msg_name, own_name};

use mach_types::{KernReturn, MsgReturn};

/// `KERN_SUCCESS` and `MACH_MSG_SUCCESS`.
pub const SUCCESS: i32 = 0;
/// The handle holds no kernel.
pub const NO_KERNEL: i32 = 0x4700_0001;
/// The handle holds a kernel already.
pub const IN_USE: i32 = 0x4700_0002;
/// A list is longer than the caller's array: its length is told, and nothing is written.
pub const TOO_SHORT: i32 = 0x4700_0003;
/// What a receive waited for is neither a port nor a set.
pub const NO_WAITED: i32 = 0x4700_0004;
/// The kernel's answer is none that the call has. It never comes.
pub const NO_ANSWER: i32 = 0x4700_0005;
/// A message call has no try to come: it has ended, or was never begun.
pub const NO_MSG: i32 = 0x4700_0006;
/// No line of a last call is kept.
pub const NO_ENTRY: i32 = 0x4700_0007;

/// Returns the C name of a code, at most 39 bytes, or nothing where the number is none. Takes no memory. Constant time.
pub fn name_of(number: u32) -> &'static str
    ensures called { IsCalled number result.now }
    ensures short { length result.now < 40 }
{
    match KernReturn::from_number(number) {
        Some(code) => kern_name(code),
        None => match MsgReturn::from_number(number) {
            Some(code) => msg_name(code),
            None => own_name(number),
        },
    }
}

/// The name of a kernel call's code.
fn kern_name(code: KernReturn) -> &'static str
    ensures name { result.now ≡ kern_name code }
    ensures short { length result.now < 40 }
{
    match code {
        KernReturn::Success => "KERN_SUCCESS",
        KernReturn::NoSpace => "KERN_NO_SPACE",
        KernReturn::InvalidArgument => "KERN_INVALID_ARGUMENT",
        KernReturn::ResourceShortage => "KERN_RESOURCE_SHORTAGE",
        KernReturn::AlreadyInSet => "KERN_ALREADY_IN_SET",
        KernReturn::NotInSet => "KERN_NOT_IN_SET",
        KernReturn::NameExists => "KERN_NAME_EXISTS",
        KernReturn::InvalidName => "KERN_INVALID_NAME",
        KernReturn::InvalidTask => "KERN_INVALID_TASK",
        KernReturn::InvalidRight => "KERN_INVALID_RIGHT",
        KernReturn::InvalidValue => "KERN_INVALID_VALUE",
        KernReturn::UrefsOverflow => "KERN_UREFS_OVERFLOW",
        KernReturn::InvalidCapability => "KERN_INVALID_CAPABILITY",
        KernReturn::RightExists => "KERN_RIGHT_EXISTS",
    }
}

/// The name of the code of a send or a receive; a union of two codes is written with a bar.
fn msg_name(code: MsgReturn) -> &'static str
    ensures name { result.now ≡ msg_name code }
    ensures short { length result.now < 40 }
{
    match code {
        MsgReturn::Success => "MACH_MSG_SUCCESS",
        MsgReturn::SendInvalidData => "MACH_SEND_INVALID_DATA",
        MsgReturn::SendInvalidDest => "MACH_SEND_INVALID_DEST",
        MsgReturn::SendTimedOut => "MACH_SEND_TIMED_OUT",
        MsgReturn::SendMsgTooSmall => "MACH_SEND_MSG_TOO_SMALL",
        MsgReturn::SendInvalidReply => "MACH_SEND_INVALID_REPLY",
        MsgReturn::SendInvalidRight => "MACH_SEND_INVALID_RIGHT",
        MsgReturn::SendNoBuffer => "MACH_SEND_NO_BUFFER",
        MsgReturn::SendInvalidType => "MACH_SEND_INVALID_TYPE",
        MsgReturn::SendInvalidHeader => "MACH_SEND_INVALID_HEADER",
        MsgReturn::ReceiveInvalidName => "MACH_RCV_INVALID_NAME",
        MsgReturn::ReceiveTimedOut => "MACH_RCV_TIMED_OUT",
        MsgReturn::ReceiveTooLarge => "MACH_RCV_TOO_LARGE",
        MsgReturn::ReceivePortChanged => "MACH_RCV_PORT_CHANGED",
        MsgReturn::ReceivePortDied => "MACH_RCV_PORT_DIED",
        MsgReturn::ReceiveInSet => "MACH_RCV_IN_SET",
        MsgReturn::ReceiveBodyErrorMemory => "MACH_RCV_BODY_ERROR|MACH_MSG_IPC_KERNEL",
        MsgReturn::ReceiveBodyErrorNames => "MACH_RCV_BODY_ERROR|MACH_MSG_IPC_SPACE",
    }
}

/// The name of a code that Mach has not, empty where the number is none.
fn own_name(number: u32) -> &'static str
    ensures name { result.now ≡ own_name number }
    ensures short { length result.now < 40 }
{
    match number {
        0x4700_0001 => "GELVONDS_NO_KERNEL",
        0x4700_0002 => "GELVONDS_IN_USE",
        0x4700_0003 => "GELVONDS_TOO_SHORT",
        0x4700_0004 => "GELVONDS_NO_WAITED",
        0x4700_0005 => "GELVONDS_NO_ANSWER",
        0x4700_0006 => "GELVONDS_NO_MSG",
        0x4700_0007 => "GELVONDS_NO_ENTRY",
        _ => "",
    }
}
