//! Loops of queues that a message would close. Ports stand by number.
use circularity::closes_loop;
use mach_types::{PortId, TaskId};
use port::{Holder, Message, Ports};
use std::alloc::Global;

#[derive(Drop)]
struct Empty;

impl Message for Empty {
    fn blank(_alloc: Global) -> Empty {
        Empty
    }
}

/// Puts a port's receive right into the queue of another, which need not be there.
fn send(ports: &mut Ports<Empty>, port: PortId, queue: u64) -> bool {
    let Some(attributes) = ports.attributes(port) else {
        return false;
    };
    match attributes.holder {
        Holder::Doomed => false,
        Holder::Task(_) | Holder::QueueOf(_) | Holder::Nobody => {
            ports.hold(port, Holder::QueueOf(PortId::new(queue)));
            true
        }
    }
}

/// Makes a port, and puts its receive right into the queue; where none is told, a task keeps it.
fn make(ports: &mut Ports<Empty>, queue: Option<u64>) -> bool {
    if ports.is_exhausted() {
        return false;
    }
    let Ok(port) = ports.allocate(TaskId::new(0)) else {
        return false;
    };
    match queue {
        Some(queue) => send(ports, port, queue),
        None => true,
    }
}

/// Makes a port for each of the queues. Their numbers are those from 0.
fn make_all(ports: &mut Ports<Empty>, queues: &[Option<u64>]) -> bool {
    for queue in queues {
        if !make(ports, *queue) {
            return false;
        }
    }
    true
}

/// Returns whether a message to the destination that carries one receive right closes a loop.
fn closes(ports: &Ports<Empty>, destination: u64, carried: u64) -> bool {
    closes_loop(ports, PortId::new(destination), &[PortId::new(carried)])
}

/// Returns whether just those are told from 0 that lie on its way, on which 3 is last.
fn ends_at_a_task(ports: &Ports<Empty>) -> bool {
    closes(ports, 0, 0)
        && closes(ports, 0, 1)
        && closes(ports, 0, 3)
        && !closes(ports, 0, 4)
        && !closes(ports, 3, 2)
        && !closes(ports, 0, 9)
        && closes(ports, 9, 9)
}

/// Returns whether each of the carried ports is looked for, where 3 is the last on the way.
fn each_is_looked_for(ports: &Ports<Empty>) -> bool {
    let [first, last, other] = [PortId::new(0), PortId::new(3), PortId::new(4)];
    closes_loop(ports, first, &[other, last])
        && !closes_loop(ports, first, &[other, other])
        && !closes_loop(ports, first, &[])
}

#[test]
fn a_way_is_followed_to_a_task(rt: HostRuntime) {
    let mut ports = Ports::new(rt.alloc(), false);
    let queues = [Some(1), Some(2), Some(3), None, None];
    assert!(rt; make_all(&mut ports, &queues));
    assert!(rt; ends_at_a_task(&ports) && each_is_looked_for(&ports));
}
