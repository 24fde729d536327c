//! Whether a message that carries receive rights would close a loop of queues.
//!
//! A port whose receive right lies in its own queue, or in the queue of a port whose right lies in its
//! queue, and so on, can never be received from. So a message isn't sent where the way from its
//! destination to the port in whose queue that one's receive right lies, and so on, comes to a port
//! whose right the message carries.
#![tactic(auto)]

ghost use Rattle.std.specs.Prelude.{ℕ, ◌↔◌, IsTrue, MatchOption, Contains};
ghost use Rattle.port.specs.Holding.{IsHeldBy};
ghost use Rattle.port.specs.declared.Holder.TheVariants.{QueueOf};
ghost use Rattle.circularity.specs.Chains.{LeadsToAny};

use mach_types::PortId;
use port::{Holder, Message, Ports};

// The port in whose queue this one's receive right lies, if it lies in one.
fn carrier<M: Message>(ports: &Ports<M>, port: PortId) -> Option<PortId>
    ensures { MatchOption result ((queue : ℕ) → ¬ (IsHeldBy ports.now.bare port (QueueOf queue))) (λ queue. IsHeldBy ports.now.bare port (QueueOf queue)) }
{
    match ports.holder(port)? {
        Holder::QueueOf(queue) => Some(queue),
        Holder::Task(_) | Holder::Nobody | Holder::Doomed => None,
    }
}

// Whether the receive right of one of these ports lies in a queue.
fn is_any_queued<M: Message>(ports: &Ports<M>, carried: &[PortId]) -> bool
    ensures { IsTrue result ↔ ((port : ℕ) × (queue : ℕ) × Contains carried.now port × IsHeldBy ports.now.bare port (QueueOf queue)) }
{
    for port in carried {
        if carrier(ports, *port).is_some() {
            return true;
        }
    }
    false
}

/// Returns whether a message to `destination` that carries the receive rights of the ports `carried` would
/// close a loop (IPC Interface, `mach_msg`; the rule is this project's own). Follow the way from the
/// destination to the port in whose queue its receive right is, and so on. The message closes a loop where
/// this way comes to a port of `carried`. The destination itself is on the way.
///
/// Takes no memory. The way is followed for no more steps than there are ports, even where it runs in a
/// circle. Linear in the way and in the ports carried. It takes their product only where the receive right of
/// one of these is in a queue, and not with a task.
pub fn closes_loop<M: Message>(ports: &Ports<M>, destination: PortId, carried: &[PortId]) -> bool
    ensures { IsTrue result ↔ LeadsToAny ports.now.bare destination carried.now }
{
    let any_queued = is_any_queued(ports, carried);
    let mut port = destination;
    for _step in 0..ports.len() {
        if any_queued && carried.contains(&port) {
            return true;
        }
        let Some(queue) = carrier(ports, port) else {
            break;
        };
        port = queue;
    }
    carried.contains(&port)
}
