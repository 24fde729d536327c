//! Causes of refusals.
use mach_follow::{Gone, Place, Standing};
use mach_types::{Name, PortId, SetId, TaskId, Waited};
use mach_words::MessageFault;

/// The part of a call that a cause is about.
#[derive(Clone, Copy)]
pub enum Part {
    /// The whole call.
    Call,
    /// The destination of a message.
    Destination,
    /// The reply right of a message.
    Answer,
    /// The word of a message's body of this number, from 1.
    Word(u32),
    /// The notify right: the send-once right of a request for a notice.
    Notify,
}

/// What a call needs of a name.
#[derive(Clone, Copy)]
pub enum Wanted {
    /// The right that the disposition of this number takes.
    Disposition(u32),
    /// A receive right.
    Receive,
    /// A receive right or a port set.
    ReceiveOrSet,
    /// A port set.
    Set,
    /// The right of this number, of which references are changed.
    Right(u32),
    /// A send right, a send-once right or a dead name.
    Deallocated,
    /// A right for a port: its death can be told by a notice.
    Mortal,
}

/// Why a call was refused.
#[derive(Clone, Copy)]
pub enum Reason {
    /// The task doesn't live. It ended in the entry of this number; without a number it was never made.
    NoTask(TaskId, Option<u64>),
    /// 65,536 tasks were made.
    TasksFull,
    /// No call makes a right of this number.
    NotMade(u32),
    /// No right has this number.
    NoRight(u32),
    /// The number is no name: it is `MACH_PORT_NULL` or `MACH_PORT_DEAD`.
    NoName(Name),
    /// The task has 65,535 names.
    NamesFull(TaskId),
    /// The task has so many names, and too few free ones for the rights of the message.
    NamesShort(TaskId, u32),
    /// There are so many rights, and the call makes so many more: together too many.
    RightsFull(u32, u32),
    /// Out of memory.
    Memory,
    /// Out of memory, or the message makes too many rights.
    NoBuffer,
    /// The task has no such name; the name was this before.
    Absent(Place, Option<Gone>),
    /// The name is this, and the call needs that.
    Lacks(Place, Standing, Wanted),
    /// The name is dead.
    Dead(Place),
    /// The name is this, and an earlier part of the call takes it.
    TakenBefore(Place, Standing),
    /// The name is in use, and is this.
    Used(Place, Standing),
    /// The task has this name for the port, and the call wants another.
    Elsewhere(Place, PortId),
    /// The new queue limit is this number, above 16.
    Limit(u32),
    /// The name's port is in no set.
    InNoSet(Place, PortId),
    /// The name's port is in this set already.
    AlreadyIn(Place, PortId, SetId),
    /// The name's port isn't in this set.
    NotIn(Place, PortId, SetId),
    /// The call is refused in this profile, in which a port is in one set at most.
    OneSet,
    /// No disposition has this number.
    NoDisposition(u32),
    /// The name is this, with as many references as it can have.
    References(Place, Standing),
    /// The name is this, and its references can't be changed by this number.
    Change(Place, Standing, i32),
    /// A right without references can't be changed by this number.
    NoReferences(i32),
    /// No notice that can be requested has this number.
    NoVariant(u32),
    /// The notify right has this disposition, and not 18 or 21.
    PaysBy(u32),
    /// A port-destroyed notice is requested with this `SYNC`, and not 0.
    Sync(u32),
    /// The name is dead, and the request doesn't ask for a notice at once.
    DeadUnasked(Place),
    /// The bytes are no message, for this fault.
    Message(MessageFault),
    /// The message carries the receive right of its own destination, this port's, from under the name.
    OwnDestination(Place, PortId),
    /// The message carries the receive right of the first port from under the name. The second port is its destination,
    /// whose receive right is in the first port's queue, or in the queue of a port whose right is there, and so on.
    Loop(Place, PortId, PortId),
    /// The queue of this port is full: it has the first number of messages, and its limit is the second.
    Full(PortId, u32, u32),
    /// The name's port is in this set.
    InSet(Place, PortId, SetId),
    /// The port or set doesn't live; whether it was ever made.
    Died(Waited, bool),
    /// The port is in this set, so nothing is received from the port itself.
    Member(PortId, SetId),
    /// The task doesn't have the port's receive right, or the set.
    Changed(TaskId, Waited),
}

/// Why a part of a call was refused.
#[derive(Clone, Copy)]
pub struct Cause {
    /// The part.
    pub part: Part,
    /// The reason.
    pub reason: Reason,
}
