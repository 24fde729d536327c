//! Calls of tasks and their answers.
use crate::bytes::{Bytes, NameList, NameTypes};
use crate::identities::{Name, PortId, SetId, TaskId};

/// What a receive waited for, by identity: what a name stood for when the receive found no message.
#[derive(Clone, Copy, Debug, PartialEq, Eq)]
pub enum Waited {
    /// One port.
    Port(PortId),
    /// The members of a port set.
    Set(SetId),
}

/// The status of a receive right (Port Manipulation Interface, `mach_port_status_t`).
#[derive(Clone, Copy, Debug, PartialEq, Eq)]
pub struct Status {
    /// The least of the task's names of the sets that the port is in, or 0.
    pub set: Name,
    /// The sequence number of the next message received, modulo 2^32.
    pub sequence: u32,
    /// How many send rights were made from the receive right, modulo 2^32.
    pub make_send: u32,
    /// The queue limit, 0 to 16.
    pub limit: u32,
    /// The messages queued.
    pub queued: u32,
    /// The port's send-once rights, anywhere.
    pub send_once: u32,
    /// 1 where the port has a send right anywhere, else 0.
    pub has_send: u32,
    /// 1 where a port-destroyed request stands, else 0.
    pub port_destroyed: u32,
    /// 1 where a no-senders request stands, else 0.
    pub no_senders: u32,
}

/// One call of a task, with its arguments in the order in which a script writes them.
#[derive(Clone, Debug, PartialEq, Eq, Drop)]
pub enum Event {
    /// Makes a task.
    TaskCreate,
    /// Ends the task, with all its names (Task Interface, `task_terminate`).
    TaskTerminate(TaskId),
    /// Makes a right of this number for the task, under a fresh name.
    Allocate(TaskId, u32),
    /// Makes a right of this number for the task, under this name (Port Manipulation Interface,
    /// `mach_port_allocate_name`).
    AllocateName(TaskId, u32, Name),
    /// Takes one send reference, one reference of a dead name, or a send-once right from under the name
    /// (`mach_port_deallocate`).
    Deallocate(TaskId, Name),
    /// Takes all that is under the name (`mach_port_destroy`).
    Destroy(TaskId, Name),
    /// Changes the references of the right of this number under the name by so many
    /// (`mach_port_mod_refs`).
    ModRefs(TaskId, Name, u32, i32),
    /// Asks how many references of the right of this number the task has under the name
    /// (Port Manipulation Interface, `mach_port_get_refs`).
    GetRefs(TaskId, Name, u32),
    /// Asks for the type of the name: which rights it stands for (`mach_port_type`).
    NameType(TaskId, Name),
    /// Asks for all names of the task, with their types (`mach_port_names`).
    Names(TaskId),
    /// Gives what is under the first name the second in its place (`mach_port_rename`).
    Rename(TaskId, Name, Name),
    /// Asks for the status of the receive right under the name.
    ReceiveStatus(TaskId, Name),
    /// Sets the queue limit of the port whose receive right is under the name (`mach_port_set_qlimit`).
    SetQlimit(TaskId, Name, u32),
    /// Sets its make-send count (`mach_port_set_mscount`).
    SetMscount(TaskId, Name, u32),
    /// Sets the sequence number of the next message received from it (`mach_port_set_seqno`).
    SetSeqno(TaskId, Name, u32),
    /// Asks for the names of the members of the port set under the name (`mach_port_get_set_status`).
    SetStatus(TaskId, Name),
    /// Takes the port whose receive right is under the first name out of each set that it is in. Puts it into
    /// the set under the second name, unless that is 0 (`mach_port_move_member`).
    MoveMember(TaskId, Name, Name),
    /// Puts the port whose receive right is under the first name into the port set under the second, beside
    /// those that it is in. Only where a port may be in several sets.
    InsertMember(TaskId, Name, Name),
    /// Takes the port whose receive right is under the first name out of the port set under the second. Only
    /// where a port may be in several sets.
    ExtractMember(TaskId, Name, Name),
    /// Gives the task, under the name, a right that another task has under a name, by the disposition of
    /// this number (`mach_port_insert_right`).
    InsertRight(TaskId, Name, TaskId, Name, u32),
    /// Takes a right that the task has under the name, by the disposition of this number, to another task
    /// (`mach_port_extract_right`).
    ExtractRight(TaskId, Name, u32, TaskId),
    /// Asks for a notice about the name, of the variant of the first number: that its port would be destroyed
    /// (69), has no more senders (70) or died (72). The second number is, for 70, the least make-send count
    /// with which the notice comes at once where there are no senders. For 72 it is not 0 where a death that
    /// is past may be told. The notice is sent to the send-once right that the second name gives under the
    /// disposition of the last number. Where that name is 0 the request is taken away (Port Manipulation
    /// Interface, `mach_port_request_notification`).
    RequestNotification(TaskId, Name, u32, u32, Name, u32),
    /// Sends the message.
    Send(TaskId, Bytes),
    /// Receives by the name, into so many bytes of room; whether a longer message is to stay.
    Receive(TaskId, Name, u32, bool),
    /// Receives once more, for a receive that waits: from what it waited for, by identity, into so many
    /// bytes of room; whether a longer message is to stay.
    ReceiveAgain(TaskId, Waited, u32, bool),
}

/// What the kernel answers.
#[derive(Clone, Debug, PartialEq, Eq, Drop)]
pub enum Reply {
    /// A return code: of a kernel call, of a send or of a receive.
    Code(u32),
    /// The task made.
    Task(TaskId),
    /// The name given.
    Name(Name),
    /// How many references.
    Refs(u32),
    /// The type of a name.
    NameType(u32),
    /// The task's names with their types.
    Names(NameTypes),
    /// The status of a receive right.
    Status(Status),
    /// The names of a set's members.
    Members(NameList),
    /// A right's new name, and the number of its kind.
    Right(Name, u8),
    /// The name of the right that a request kept before: 0 for none, 0xffffffff where its port is dead.
    Previous(Name),
    /// The bytes received.
    Message(Bytes),
    /// No message was there (`MACH_RCV_TIMED_OUT`); what was waited for.
    Empty(Waited),
    /// The message is longer than the room (`MACH_RCV_TOO_LARGE`); its length in bytes.
    TooLarge(u32),
    /// The call could not be recorded, and was not made.
    NoRecord,
}
