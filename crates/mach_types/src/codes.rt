//! Return codes.
ghost use Rattle.std.specs.Prelude.{◌≡◌, ◌≢◌, ℕ, MatchOption};
ghost use Rattle.mach_types.specs.declared.codes.KernReturn.{KernReturn as AnyKernReturn};
ghost use Rattle.mach_types.specs.declared.codes.MsgReturn.{MsgReturn as AnyMsgReturn};
ghost use Rattle.mach_types.specs.declared.codes.Code.TheVariants as AnyCode;
ghost use Rattle.mach_types.specs.Codes.{kern_number, msg_number, code_number};

use std::fmt;

/// The code of a kernel call (`kern_return_t`). Which call answers which code, and in which order
/// refusals are judged, is this project's own choice.
#[derive(Clone, Copy, Debug, PartialEq, Eq)]
pub enum KernReturn {
    /// `KERN_SUCCESS`, 0.
    Success,
    /// `KERN_NO_SPACE`, 3: a limit of names, tasks, rights or identities is reached.
    NoSpace,
    /// `KERN_INVALID_ARGUMENT`, 4.
    InvalidArgument,
    /// `KERN_RESOURCE_SHORTAGE`, 6: memory was refused.
    ResourceShortage,
    /// `KERN_ALREADY_IN_SET`, 11.
    AlreadyInSet,
    /// `KERN_NOT_IN_SET`, 12.
    NotInSet,
    /// `KERN_NAME_EXISTS`, 13.
    NameExists,
    /// `KERN_INVALID_NAME`, 15.
    InvalidName,
    /// `KERN_INVALID_TASK`, 16.
    InvalidTask,
    /// `KERN_INVALID_RIGHT`, 17: the name lacks the right.
    InvalidRight,
    /// `KERN_INVALID_VALUE`, 18.
    InvalidValue,
    /// `KERN_UREFS_OVERFLOW`, 19: more than 65,535 user references.
    UrefsOverflow,
    /// `KERN_INVALID_CAPABILITY`, 20.
    InvalidCapability,
    /// `KERN_RIGHT_EXISTS`, 21: the task has the port under another name.
    RightExists,
}

impl KernReturn {
    /// Its number.
    pub fn number(self) -> u32
        ensures { result ≡ kern_number self }
    {
        match self {
            KernReturn::Success => 0,
            KernReturn::NoSpace => 3,
            KernReturn::InvalidArgument => 4,
            KernReturn::ResourceShortage => 6,
            KernReturn::AlreadyInSet => 11,
            KernReturn::NotInSet => 12,
            KernReturn::NameExists => 13,
            KernReturn::InvalidName => 15,
            KernReturn::InvalidTask => 16,
            KernReturn::InvalidRight => 17,
            KernReturn::InvalidValue => 18,
            KernReturn::UrefsOverflow => 19,
            KernReturn::InvalidCapability => 20,
            KernReturn::RightExists => 21,
        }
    }

    /// The code of this number, if any has it.
    pub fn from_number(number: u32) -> Option<KernReturn>
        ensures { MatchOption result ((code : AnyKernReturn) → kern_number code ≢ number) (λ code. kern_number code ≡ number) }
    {
        match number {
            0 => Some(KernReturn::Success),
            3 => Some(KernReturn::NoSpace),
            4 => Some(KernReturn::InvalidArgument),
            6 => Some(KernReturn::ResourceShortage),
            11 => Some(KernReturn::AlreadyInSet),
            12 => Some(KernReturn::NotInSet),
            13 => Some(KernReturn::NameExists),
            15 => Some(KernReturn::InvalidName),
            16 => Some(KernReturn::InvalidTask),
            17 => Some(KernReturn::InvalidRight),
            18 => Some(KernReturn::InvalidValue),
            19 => Some(KernReturn::UrefsOverflow),
            20 => Some(KernReturn::InvalidCapability),
            21 => Some(KernReturn::RightExists),
            _ => None,
        }
    }
}

/// The name in C, as `KERN_INVALID_NAME`.
impl fmt::Display for KernReturn {
    fn fmt<W: fmt::Write>(&self, f: &mut fmt::Formatter<W>) -> fmt::Result {
        f.write_str(match self {
            KernReturn::Success => "KERN_SUCCESS",
            KernReturn::NoSpace => "KERN_NO_SPACE",
            KernReturn::InvalidArgument => "KERN_INVALID_ARGUMENT",
            KernReturn::ResourceShortage => "KERN_RESOURCE_SHORTAGE",
            KernReturn::AlreadyInSet => "KERN_ALREADY_IN_SET",
            KernReturn::NotInSet => "KERN_NOT_IN_SET",
            KernReturn::NameExists => "KERN_NAME_EXISTS",
            KernReturn::InvalidName => "KERN_INVALID_NAME",
            KernReturn::InvalidTask => "KERN_INVALID_TASK",
            KernReturn::InvalidRight => "KERN_INVALID_RIGHT",
            KernReturn::InvalidValue => "KERN_INVALID_VALUE",
            KernReturn::UrefsOverflow => "KERN_UREFS_OVERFLOW",
            KernReturn::InvalidCapability => "KERN_INVALID_CAPABILITY",
            KernReturn::RightExists => "KERN_RIGHT_EXISTS",
        })
    }
}

/// The code of a send or a receive (IPC Interface, `mach_msg_return_t`).
#[derive(Clone, Copy, Debug, PartialEq, Eq)]
pub enum MsgReturn {
    /// `MACH_MSG_SUCCESS`, 0.
    Success,
    /// `MACH_SEND_INVALID_DATA`, 0x10000002: more than 65,536 bytes.
    SendInvalidData,
    /// `MACH_SEND_INVALID_DEST`, 0x10000003.
    SendInvalidDest,
    /// `MACH_SEND_TIMED_OUT`, 0x10000004: the queue is at its limit.
    SendTimedOut,
    /// `MACH_SEND_MSG_TOO_SMALL`, 0x10000008: the bytes end too early.
    SendMsgTooSmall,
    /// `MACH_SEND_INVALID_REPLY`, 0x10000009.
    SendInvalidReply,
    /// `MACH_SEND_INVALID_RIGHT`, 0x1000000a: of the body, or the message would close a loop.
    SendInvalidRight,
    /// `MACH_SEND_NO_BUFFER`, 0x1000000d: memory was refused, or the limit of rights is reached.
    SendNoBuffer,
    /// `MACH_SEND_INVALID_TYPE`, 0x1000000f: of a descriptor.
    SendInvalidType,
    /// `MACH_SEND_INVALID_HEADER`, 0x10000010.
    SendInvalidHeader,
    /// `MACH_RCV_INVALID_NAME`, 0x10004002.
    ReceiveInvalidName,
    /// `MACH_RCV_TIMED_OUT`, 0x10004003: no message.
    ReceiveTimedOut,
    /// `MACH_RCV_TOO_LARGE`, 0x10004004.
    ReceiveTooLarge,
    /// `MACH_RCV_PORT_CHANGED`, 0x10004006.
    ReceivePortChanged,
    /// `MACH_RCV_PORT_DIED`, 0x10004009.
    ReceivePortDied,
    /// `MACH_RCV_IN_SET`, 0x1000400a.
    ReceiveInSet,
    /// `MACH_RCV_BODY_ERROR` with `MACH_MSG_IPC_KERNEL`, 0x1000480c: memory was refused.
    ReceiveBodyErrorMemory,
    /// `MACH_RCV_BODY_ERROR` with `MACH_MSG_IPC_SPACE`, 0x1000600c: the task's names don't suffice.
    ReceiveBodyErrorNames,
}

impl MsgReturn {
    /// Its number.
    pub fn number(self) -> u32
        ensures { result ≡ msg_number self }
    {
        match self {
            MsgReturn::Success => 0,
            MsgReturn::SendInvalidData => 0x1000_0002,
            MsgReturn::SendInvalidDest => 0x1000_0003,
            MsgReturn::SendTimedOut => 0x1000_0004,
            MsgReturn::SendMsgTooSmall => 0x1000_0008,
            MsgReturn::SendInvalidReply => 0x1000_0009,
            MsgReturn::SendInvalidRight => 0x1000_000a,
            MsgReturn::SendNoBuffer => 0x1000_000d,
            MsgReturn::SendInvalidType => 0x1000_000f,
            MsgReturn::SendInvalidHeader => 0x1000_0010,
            MsgReturn::ReceiveInvalidName => 0x1000_4002,
            MsgReturn::ReceiveTimedOut => 0x1000_4003,
            MsgReturn::ReceiveTooLarge => 0x1000_4004,
            MsgReturn::ReceivePortChanged => 0x1000_4006,
            MsgReturn::ReceivePortDied => 0x1000_4009,
            MsgReturn::ReceiveInSet => 0x1000_400a,
            MsgReturn::ReceiveBodyErrorMemory => 0x1000_480c,
            MsgReturn::ReceiveBodyErrorNames => 0x1000_600c,
        }
    }

    /// The code of this number, if any has it.
    pub fn from_number(number: u32) -> Option<MsgReturn>
        ensures { MatchOption result ((code : AnyMsgReturn) → msg_number code ≢ number) (λ code. msg_number code ≡ number) }
    {
        match number {
            0 => Some(MsgReturn::Success),
            0x1000_0002 => Some(MsgReturn::SendInvalidData),
            0x1000_0003 => Some(MsgReturn::SendInvalidDest),
            0x1000_0004 => Some(MsgReturn::SendTimedOut),
            0x1000_0008 => Some(MsgReturn::SendMsgTooSmall),
            0x1000_0009 => Some(MsgReturn::SendInvalidReply),
            0x1000_000a => Some(MsgReturn::SendInvalidRight),
            0x1000_000d => Some(MsgReturn::SendNoBuffer),
            0x1000_000f => Some(MsgReturn::SendInvalidType),
            0x1000_0010 => Some(MsgReturn::SendInvalidHeader),
            0x1000_4002 => Some(MsgReturn::ReceiveInvalidName),
            0x1000_4003 => Some(MsgReturn::ReceiveTimedOut),
            0x1000_4004 => Some(MsgReturn::ReceiveTooLarge),
            0x1000_4006 => Some(MsgReturn::ReceivePortChanged),
            0x1000_4009 => Some(MsgReturn::ReceivePortDied),
            0x1000_400a => Some(MsgReturn::ReceiveInSet),
            0x1000_480c => Some(MsgReturn::ReceiveBodyErrorMemory),
            0x1000_600c => Some(MsgReturn::ReceiveBodyErrorNames),
            _ => None,
        }
    }
}

/// The name in C, as `MACH_SEND_INVALID_DEST`; a union of two codes is written with a bar.
impl fmt::Display for MsgReturn {
    fn fmt<W: fmt::Write>(&self, f: &mut fmt::Formatter<W>) -> fmt::Result {
        f.write_str(match self {
            MsgReturn::Success => "MACH_MSG_SUCCESS",
            MsgReturn::SendInvalidData => "MACH_SEND_INVALID_DATA",
            MsgReturn::SendInvalidDest => "MACH_SEND_INVALID_DEST",
            MsgReturn::SendTimedOut => "MACH_SEND_TIMED_OUT",
            MsgReturn::SendMsgTooSmall => "MACH_SEND_MSG_TOO_SMALL",
            MsgReturn::SendInvalidReply => "MACH_SEND_INVALID_REPLY",
            MsgReturn::SendInvalidRight => "MACH_SEND_INVALID_RIGHT",
            MsgReturn::SendNoBuffer => "MACH_SEND_NO_BUFFER",
            MsgReturn::SendInvalidType => "MACH_SEND_INVALID_TYPE",
            MsgReturn::SendInvalidHeader => "MACH_SEND_INVALID_HEADER",
            MsgReturn::ReceiveInvalidName => "MACH_RCV_INVALID_NAME",
            MsgReturn::ReceiveTimedOut => "MACH_RCV_TIMED_OUT",
            MsgReturn::ReceiveTooLarge => "MACH_RCV_TOO_LARGE",
            MsgReturn::ReceivePortChanged => "MACH_RCV_PORT_CHANGED",
            MsgReturn::ReceivePortDied => "MACH_RCV_PORT_DIED",
            MsgReturn::ReceiveInSet => "MACH_RCV_IN_SET",
            MsgReturn::ReceiveBodyErrorMemory => "MACH_RCV_BODY_ERROR|MACH_MSG_IPC_KERNEL",
            MsgReturn::ReceiveBodyErrorNames => "MACH_RCV_BODY_ERROR|MACH_MSG_IPC_SPACE",
        })
    }
}

/// The code that refuses a call: that of a kernel call, or that of a send or a receive.
#[derive(Clone, Copy, Debug, PartialEq, Eq)]
pub enum Code {
    /// Of a kernel call.
    Kern(KernReturn),
    /// Of a send or a receive.
    Message(MsgReturn),
}

impl Code {
    /// Its number.
    pub fn number(self) -> u32
        ensures { result ≡ code_number self }
    {
        match self {
            Code::Kern(code) => code.number(),
            Code::Message(code) => code.number(),
        }
    }
}

impl From<KernReturn> for Code {
    ghost from_gives = { λ code given. given ≡ AnyCode.Kern code };

    fn from(code: KernReturn) -> Code {
        Code::Kern(code)
    }
}

impl From<MsgReturn> for Code {
    ghost from_gives = { λ code given. given ≡ AnyCode.Message code };

    fn from(code: MsgReturn) -> Code {
        Code::Message(code)
    }
}
