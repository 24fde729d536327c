//! The status of a receive right.
ghost use Rattle.std.specs.Prelude.{◌≡◌};
ghost use Rattle.gelvonds_c_base.specs.Answers.{c_status};

use mach_types::Status;

/// The status of a receive right, in the order of `mach_port_status_t`.
#[repr(C)]
#[derive(Clone, Copy)]
pub struct PortStatus {
    /// The least of the task's names of the sets that the port is in, or 0.
    pub set: u32,
    /// The sequence number of the next message received.
    pub sequence: u32,
    /// How many send rights were made from the receive right.
    pub make_send: u32,
    /// The queue limit.
    pub limit: u32,
    /// The messages queued.
    pub queued: u32,
    /// The send-once rights, anywhere.
    pub send_once: u32,
    /// 1 where the port has a send right anywhere.
    pub has_send: u32,
    /// 1 where a port-destroyed request stands.
    pub port_destroyed: u32,
    /// 1 where a no-senders request stands.
    pub no_senders: u32,
}

/// Returns the status, for C. Constant time.
pub fn port_status(found: &Status) -> PortStatus
    ensures { result ≡ c_status found.now }
{
    PortStatus {
        set: found.set.number(),
        sequence: found.sequence,
        make_send: found.make_send,
        limit: found.limit,
        queued: found.queued,
        send_once: found.send_once,
        has_send: found.has_send,
        port_destroyed: found.port_destroyed,
        no_senders: found.no_senders,
    }
}
