//! Rights and dispositions by number.
ghost use Rattle.std.specs.Prelude.{◌≡◌, ◌≢◌, ℕ, ◌^◌, MatchBool, MatchOption};
ghost use Rattle.mach_types.specs.declared.rights.Right.{Right as AnyRight};
ghost use Rattle.mach_types.specs.Tokens.{send_once, same_kind};
ghost use Rattle.mach_types.specs.Numbers.{right_number, disposition, kind_sent, kind_number};
ghost use Rattle.mach_types.specs.Rights.{right_bit, disposition_number, makes_right, right_of, IsOfKind};

use std::fmt;

/// What a task may hold under a name (Port Manipulation Interface, `mach_port_right_t`).
#[derive(Clone, Copy, Debug, PartialEq, Eq)]
pub enum Right {
    /// `MACH_PORT_RIGHT_SEND`, 0.
    Send,
    /// `MACH_PORT_RIGHT_RECEIVE`, 1.
    Receive,
    /// `MACH_PORT_RIGHT_SEND_ONCE`, 2.
    SendOnce,
    /// `MACH_PORT_RIGHT_PORT_SET`, 3.
    PortSet,
    /// `MACH_PORT_RIGHT_DEAD_NAME`, 4.
    DeadName,
}

impl Right {
    /// Its number, 0 to 4.
    pub fn number(self) -> u32
        ensures { result ≡ right_number self }
    {
        match self {
            Right::Send => 0,
            Right::Receive => 1,
            Right::SendOnce => 2,
            Right::PortSet => 3,
            Right::DeadName => 4,
        }
    }

    /// The right of this number, if any has it.
    pub fn from_number(number: u32) -> Option<Right>
        ensures { MatchOption result ((right : AnyRight) → right_number right ≢ number) (λ right. right_number right ≡ number) }
    {
        match number {
            0 => Some(Right::Send),
            1 => Some(Right::Receive),
            2 => Some(Right::SendOnce),
            3 => Some(Right::PortSet),
            4 => Some(Right::DeadName),
            _ => None,
        }
    }

    /// Its bit in the type of a name (`MACH_PORT_TYPE_SEND` and the others).
    pub fn type_bit(self) -> u32
        ensures { result ≡ right_bit self }
    {
        match self {
            Right::Send => 0x0001_0000,
            Right::Receive => 0x0002_0000,
            Right::SendOnce => 0x0004_0000,
            Right::PortSet => 0x0008_0000,
            Right::DeadName => 0x0010_0000,
        }
    }
}

/// The name in C, as `MACH_PORT_RIGHT_SEND`.
impl fmt::Display for Right {
    fn fmt<W: fmt::Write>(&self, f: &mut fmt::Formatter<W>) -> fmt::Result {
        f.write_str(match self {
            Right::Send => "MACH_PORT_RIGHT_SEND",
            Right::Receive => "MACH_PORT_RIGHT_RECEIVE",
            Right::SendOnce => "MACH_PORT_RIGHT_SEND_ONCE",
            Right::PortSet => "MACH_PORT_RIGHT_PORT_SET",
            Right::DeadName => "MACH_PORT_RIGHT_DEAD_NAME",
        })
    }
}

/// What becomes of a right that a message names (IPC Interface, `mach_msg_type_name_t`).
#[derive(Clone, Copy, Debug, PartialEq, Eq)]
pub enum Disposition {
    /// `MACH_MSG_TYPE_MOVE_RECEIVE`, 16: the receive right moves.
    MoveReceive,
    /// `MACH_MSG_TYPE_MOVE_SEND`, 17: one send reference moves.
    MoveSend,
    /// `MACH_MSG_TYPE_MOVE_SEND_ONCE`, 18: the send-once right moves.
    MoveSendOnce,
    /// `MACH_MSG_TYPE_COPY_SEND`, 19: a send right is made from a send right.
    CopySend,
    /// `MACH_MSG_TYPE_MAKE_SEND`, 20: a send right is made from a receive right.
    MakeSend,
    /// `MACH_MSG_TYPE_MAKE_SEND_ONCE`, 21: a send-once right is made from a receive right.
    MakeSendOnce,
}

impl Disposition {
    /// Its number, 16 to 21.
    pub fn number(self) -> u8
        ensures { result ≡ disposition_number self }
    {
        match self {
            Disposition::MoveReceive => 16,
            Disposition::MoveSend => 17,
            Disposition::MoveSendOnce => 18,
            Disposition::CopySend => 19,
            Disposition::MakeSend => 20,
            Disposition::MakeSendOnce => 21,
        }
    }

    /// The disposition of this number, if any has it.
    pub fn from_number(number: u32) -> Option<Disposition>
        ensures { result ≡ disposition number }
    {
        match number {
            16 => Some(Disposition::MoveReceive),
            17 => Some(Disposition::MoveSend),
            18 => Some(Disposition::MoveSendOnce),
            19 => Some(Disposition::CopySend),
            20 => Some(Disposition::MakeSend),
            21 => Some(Disposition::MakeSendOnce),
            _ => None,
        }
    }

    /// The disposition of this number, if any has it.
    pub fn from_u8(number: u8) -> Option<Disposition>
        ensures { result ≡ disposition number }
    {
        Disposition::from_number(u32::from(number))
    }

    /// The kind of right that is sent: a receive, send or send-once right.
    pub fn kind(self) -> Right
        ensures value { result ≡ right_of (kind_sent self) }
        ensures sent { IsOfKind (kind_sent self) result }
    {
        match self {
            Disposition::MoveReceive => Right::Receive,
            Disposition::MoveSend | Disposition::CopySend | Disposition::MakeSend => Right::Send,
            Disposition::MoveSendOnce | Disposition::MakeSendOnce => Right::SendOnce,
        }
    }

    /// The number that stands for the kind of right in a received message: 16 for a receive right, 17
    /// for a send right, 18 for a send-once right.
    pub fn kind_number(self) -> u8
        ensures { result ≡ kind_number (kind_sent self) }
    {
        match self.kind() {
            Right::Receive => 16,
            Right::Send => 17,
            Right::SendOnce => 18,
            Right::PortSet | Right::DeadName => unreachable!(),
        }
    }

    /// Returns whether a send-once right is sent.
    pub fn is_send_once(self) -> bool
        ensures value { result ≡ same_kind (kind_sent self) send_once }
        ensures sent { MatchBool result (kind_sent self ≡ send_once) (kind_sent self ≢ send_once) }
    {
        matches!(self.kind(), Right::SendOnce)
    }

    /// Returns whether the right that is sent is made from one that stays, so that there is one right more.
    pub fn makes_right(self) -> bool
        ensures { result ≡ makes_right self }
    {
        match self {
            Disposition::CopySend | Disposition::MakeSend | Disposition::MakeSendOnce => true,
            Disposition::MoveReceive | Disposition::MoveSend | Disposition::MoveSendOnce => false,
        }
    }
}

/// The name in C, as `MACH_MSG_TYPE_MOVE_SEND`.
impl fmt::Display for Disposition {
    fn fmt<W: fmt::Write>(&self, f: &mut fmt::Formatter<W>) -> fmt::Result {
        f.write_str(match self {
            Disposition::MoveReceive => "MACH_MSG_TYPE_MOVE_RECEIVE",
            Disposition::MoveSend => "MACH_MSG_TYPE_MOVE_SEND",
            Disposition::MoveSendOnce => "MACH_MSG_TYPE_MOVE_SEND_ONCE",
            Disposition::CopySend => "MACH_MSG_TYPE_COPY_SEND",
            Disposition::MakeSend => "MACH_MSG_TYPE_MAKE_SEND",
            Disposition::MakeSendOnce => "MACH_MSG_TYPE_MAKE_SEND_ONCE",
        })
    }
}
