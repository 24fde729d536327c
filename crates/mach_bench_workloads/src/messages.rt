//! The messages that workloads send, and the names by which they are sent.
use mach_bench_base::Label::{Returned, Rising, Same};
use mach_bench_base::{
    Body, COMPLEX, COPY_SEND, MAKE_SEND, MAKE_SEND_ONCE, MOVE_SEND_ONCE, Message,
};

/// `HOME`'s name of the port at which it receives.
pub(crate) const SERVICE: u32 = 1;
/// `PEER`'s name of a send right to that port.
pub(crate) const TO_SERVICE: u32 = 100;
/// `HOME`'s name of the first port of the set of 1,000.
pub(crate) const FIRST_MEMBER: u32 = 1_001;
/// `HOME`'s name of the first port of a chain.
pub(crate) const FIRST_LINK: u32 = 1_001;

/// 24 bytes to `HOME`'s port, from itself.
pub(crate) const SHORT: Message = Message {
    bits: MAKE_SEND,
    to: Same(SERVICE),
    reply: 0,
    body: Body::Zeros(0),
};

/// The same to a port in rising order.
pub(crate) const SHORT_RISING: Message = Message {
    to: Rising(FIRST_MEMBER),
    ..SHORT
};

/// The same to the port under 2.
pub(crate) const SHORT_TO_2: Message = Message {
    to: Same(2),
    ..SHORT
};

/// The same with 4,096 bytes more.
pub(crate) const LONG: Message = Message {
    bits: MAKE_SEND,
    to: Same(SERVICE),
    reply: 0,
    body: Body::Zeros(1_024),
};

/// A message from `PEER` with one send right.
pub(crate) const RIGHT: Message = Message {
    bits: COMPLEX | COPY_SEND,
    to: Same(TO_SERVICE),
    reply: 0,
    body: Body::Items(1),
};

/// A message from `PEER` with 64 rights, in an item each.
pub(crate) const ITEMS: Message = Message {
    bits: COMPLEX | COPY_SEND,
    to: Same(TO_SERVICE),
    reply: 0,
    body: Body::Items(64),
};

/// The same in one item.
pub(crate) const TOGETHER: Message = Message {
    bits: COMPLEX | COPY_SEND,
    to: Same(TO_SERVICE),
    reply: 0,
    body: Body::Together,
};

/// A request of `PEER`'s, with a send-once right to its port.
pub(crate) const REQUEST: Message = Message {
    bits: COPY_SEND | MAKE_SEND_ONCE << 8,
    to: Same(TO_SERVICE),
    reply: 1,
    body: Body::Zeros(0),
};

/// The answer, by the right that came with the request.
pub(crate) const ANSWER: Message = Message {
    bits: MOVE_SEND_ONCE,
    to: Returned,
    reply: 0,
    body: Body::Zeros(0),
};

/// The receive right that came last, which comes under a fresh name again.
pub(crate) const CARRYING: Message = Message {
    bits: COMPLEX | MAKE_SEND,
    to: Same(SERVICE),
    reply: 0,
    body: Body::Moved(Returned),
};

/// The receive right of the port under 2.
pub(crate) const CARRYING_2: Message = Message {
    body: Body::Moved(Same(2)),
    ..CARRYING
};

/// The receive right of a port of a chain, to the next one.
pub(crate) const LINKING: Message = Message {
    bits: COMPLEX | MAKE_SEND,
    to: Rising(FIRST_LINK + 1),
    reply: 0,
    body: Body::Moved(Rising(FIRST_LINK)),
};

/// The receive right of `HOME`'s port, to the first port of a chain, by `HOME`'s send right to it.
pub(crate) const TO_CHAIN: Message = Message {
    bits: COMPLEX | COPY_SEND,
    to: Same(FIRST_LINK),
    reply: 0,
    body: Body::Moved(Same(SERVICE)),
};
