//! Requests for notices, as a caller writes them.
ghost use Rattle.std.specs.Prelude.{◌≡◌, Option};
ghost use Rattle.mach_types.specs.Rights.{disposition_number};
ghost use Rattle.gelvonds.specs.Results.{notification_number, notify_name, notify_number};

use mach_types::{Disposition, Name};
use message_codec::PortRight;

/// Of what a notice tells (Port Manipulation Interface, `mach_port_request_notification`).
#[derive(Clone, Copy, Debug, PartialEq, Eq)]
pub enum Notification {
    /// `MACH_NOTIFY_PORT_DESTROYED`, 69: the port would be destroyed, and its receive right comes in the notice.
    PortDestroyed,
    /// `MACH_NOTIFY_NO_SENDERS`, 70: the port has no send rights.
    NoSenders,
    /// `MACH_NOTIFY_DEAD_NAME`, 72: the port died, and the name is a dead name.
    DeadName,
}

impl Notification {
    /// Its number, which is the id of the notice.
    pub fn number(self) -> u32
        ensures { result ≡ notification_number self }
    {
        match self {
            Notification::PortDestroyed => 69,
            Notification::NoSenders => 70,
            Notification::DeadName => 72,
        }
    }
}

/// A request for a notice about a name, or its end.
#[derive(Clone, Copy, Debug, PartialEq, Eq)]
pub struct NotificationRequest {
    /// Of what it tells.
    pub notification: Notification,
    /// For [`Notification::NoSenders`], the least make-send count with which the notice comes at once where
    /// there are no senders. For [`Notification::DeadName`], not 0 where a death that is past may be told.
    /// Else 0.
    pub sync: u32,
    /// By which right the notice goes: a send-once right that is moved or made. `None` takes the request
    /// away.
    pub notify: Option<PortRight>,
}

impl NotificationRequest {
    /// The name and the disposition of the right by which the notice goes; the null name where there is none.
    pub(crate) fn notify_right(&self) -> (Name, u32)
        ensures { (result.0 ≡ notify_name self.now.notify) × (result.1 ≡ notify_number self.now.notify) }
    {
        match self.notify {
            Some(right) => (right.name, u32::from(right.disposition.number())),
            None => (Name::null(), u32::from(Disposition::MakeSendOnce.number())),
        }
    }
}
