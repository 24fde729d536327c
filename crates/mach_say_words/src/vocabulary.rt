//! The words of the notation, with what they mean.
ghost use Rattle.std.specs.Prelude.{◌≡◌};
ghost use Rattle.mach_say_words.specs.Numbers.{kind_number, variant_number};

use mach_lint::Nearest;
use mach_types::{Disposition, KernReturn, MsgReturn, Right};
use mach_words::Text;

/// A list of words.
#[derive(Clone, Copy)]
pub enum Vocabulary {
    /// What statements begin with, beside tasks and threads.
    Statement,
    /// Calls.
    Call,
    /// Dispositions.
    Disposition,
    /// Kinds of rights that a message may carry.
    Kind,
    /// Rights.
    Right,
    /// Parts of a name's type.
    Type,
    /// Notices that can be asked for.
    Variant,
    /// Notices.
    Notice,
    /// Fields of a status.
    Field,
    /// Codes.
    Code,
}

/// The word that a call begins with.
#[derive(Clone, Copy)]
pub enum CallWord {
    Add,
    Change,
    Count,
    Dead,
    Destroy,
    Drop,
    End,
    Forget,
    Give,
    Limit,
    Members,
    Move,
    Names,
    Notify,
    Port,
    Raw,
    Receive,
    Refs,
    Remove,
    Rename,
    Send,
    Seqno,
    Set,
    Status,
    Type,
    Wake,
}

/// The kind of a right that was received with a message.
#[derive(Clone, Copy, PartialEq, Eq)]
pub enum Kind {
    /// A receive right.
    Receive,
    /// A send right.
    Send,
    /// A send-once right.
    SendOnce,
}

impl Kind {
    /// Returns the number of the kind in a received message: 16 to 18. Constant time.
    pub fn number(self) -> u8
        ensures { result ≡ kind_number self }
    {
        match self {
            Kind::Receive => 16,
            Kind::Send => 17,
            Kind::SendOnce => 18,
        }
    }
}

/// A notice that can be asked for.
#[derive(Clone, Copy)]
pub enum Variant {
    /// The port would be destroyed.
    PortDestroyed,
    /// The port has no more senders.
    NoSenders,
    /// The name's port died.
    DeadName,
}

impl Variant {
    /// Returns the number of the variant in a request: 69, 70 or 72. Constant time.
    pub fn number(self) -> u32
        ensures { result ≡ variant_number self }
    {
        match self {
            Variant::PortDestroyed => 69,
            Variant::NoSenders => 70,
            Variant::DeadName => 72,
        }
    }
}

impl Field {
    /// Returns the field's word. Constant time.
    pub fn word(self) -> &'static str {
        match self {
            Field::Set => "set",
            Field::Seqno => "seqno",
            Field::MakeSend => "make-send",
            Field::Limit => "limit",
            Field::Queued => "queued",
            Field::SendOnce => "send-once",
            Field::Senders => "senders",
            Field::PortDestroyed => "port-destroyed",
            Field::NoSenders => "no-senders",
        }
    }
}

/// A notice, by what it tells.
#[derive(Clone, Copy)]
pub enum NoticeWord {
    PortDeleted,
    PortDestroyed,
    NoSenders,
    SendOnce,
    DeadName,
}

/// A field of the status of a receive right.
#[derive(Clone, Copy)]
pub enum Field {
    /// A set that the port is in.
    Set,
    /// The sequence number of the next message.
    Seqno,
    /// The make-send count.
    MakeSend,
    /// The queue limit.
    Limit,
    /// How many messages are queued.
    Queued,
    /// How many send-once rights there are.
    SendOnce,
    /// Whether there are send rights.
    Senders,
    /// Whether a port-destroyed request stands.
    PortDestroyed,
    /// Whether a no-senders request stands.
    NoSenders,
}

const STATEMENTS: &[(&str, ())] = &[
    ("task", ()),
    ("thread", ()),
    ("message", ()),
    ("profile", ()),
];

const CALLS: &[(&str, CallWord)] = &[
    ("add", CallWord::Add),
    ("change", CallWord::Change),
    ("count", CallWord::Count),
    ("dead", CallWord::Dead),
    ("destroy", CallWord::Destroy),
    ("drop", CallWord::Drop),
    ("end", CallWord::End),
    ("forget", CallWord::Forget),
    ("give", CallWord::Give),
    ("limit", CallWord::Limit),
    ("members", CallWord::Members),
    ("move", CallWord::Move),
    ("names", CallWord::Names),
    ("notify", CallWord::Notify),
    ("port", CallWord::Port),
    ("raw", CallWord::Raw),
    ("receive", CallWord::Receive),
    ("refs", CallWord::Refs),
    ("remove", CallWord::Remove),
    ("rename", CallWord::Rename),
    ("send", CallWord::Send),
    ("seqno", CallWord::Seqno),
    ("set", CallWord::Set),
    ("status", CallWord::Status),
    ("type", CallWord::Type),
    ("wake", CallWord::Wake),
];

const DISPOSITIONS: &[(&str, Disposition)] = &[
    ("move-receive", Disposition::MoveReceive),
    ("move-send", Disposition::MoveSend),
    ("move-once", Disposition::MoveSendOnce),
    ("copy-send", Disposition::CopySend),
    ("make-send", Disposition::MakeSend),
    ("make-once", Disposition::MakeSendOnce),
];

const KINDS: &[(&str, Kind)] = &[
    ("receive", Kind::Receive),
    ("send", Kind::Send),
    ("send-once", Kind::SendOnce),
];

const RIGHTS: &[(&str, Right)] = &[
    ("send", Right::Send),
    ("receive", Right::Receive),
    ("send-once", Right::SendOnce),
    ("set", Right::PortSet),
    ("dead-name", Right::DeadName),
];

/// The bit that a name with a dead-name request has in its type.
const REQUEST_BIT: u32 = 0x8000_0000;

/// The parts of a name's type, with their bits.
const TYPES: &[(&str, u32)] = &[
    ("send", 0x0001_0000),
    ("receive", 0x0002_0000),
    ("send-once", 0x0004_0000),
    ("set", 0x0008_0000),
    ("dead-name", 0x0010_0000),
    ("request", REQUEST_BIT),
];

const VARIANTS: &[(&str, Variant)] = &[
    ("port-destroyed", Variant::PortDestroyed),
    ("no-senders", Variant::NoSenders),
    ("dead-name", Variant::DeadName),
];

const NOTICES: &[(&str, NoticeWord)] = &[
    ("port-deleted", NoticeWord::PortDeleted),
    ("port-destroyed", NoticeWord::PortDestroyed),
    ("no-senders", NoticeWord::NoSenders),
    ("send-once", NoticeWord::SendOnce),
    ("dead-name", NoticeWord::DeadName),
];

const FIELDS: &[(&str, Field)] = &[
    ("set", Field::Set),
    ("seqno", Field::Seqno),
    ("make-send", Field::MakeSend),
    ("limit", Field::Limit),
    ("queued", Field::Queued),
    ("send-once", Field::SendOnce),
    ("senders", Field::Senders),
    ("port-destroyed", Field::PortDestroyed),
    ("no-senders", Field::NoSenders),
];

const KERN_CODES: &[(&str, KernReturn)] = &[
    ("KERN_SUCCESS", KernReturn::Success),
    ("KERN_NO_SPACE", KernReturn::NoSpace),
    ("KERN_INVALID_ARGUMENT", KernReturn::InvalidArgument),
    ("KERN_RESOURCE_SHORTAGE", KernReturn::ResourceShortage),
    ("KERN_ALREADY_IN_SET", KernReturn::AlreadyInSet),
    ("KERN_NOT_IN_SET", KernReturn::NotInSet),
    ("KERN_NAME_EXISTS", KernReturn::NameExists),
    ("KERN_INVALID_NAME", KernReturn::InvalidName),
    ("KERN_INVALID_TASK", KernReturn::InvalidTask),
    ("KERN_INVALID_RIGHT", KernReturn::InvalidRight),
    ("KERN_INVALID_VALUE", KernReturn::InvalidValue),
    ("KERN_UREFS_OVERFLOW", KernReturn::UrefsOverflow),
    ("KERN_INVALID_CAPABILITY", KernReturn::InvalidCapability),
    ("KERN_RIGHT_EXISTS", KernReturn::RightExists),
];

const MSG_CODES: &[(&str, MsgReturn)] = &[
    ("MACH_MSG_SUCCESS", MsgReturn::Success),
    ("MACH_SEND_INVALID_DATA", MsgReturn::SendInvalidData),
    ("MACH_SEND_INVALID_DEST", MsgReturn::SendInvalidDest),
    ("MACH_SEND_TIMED_OUT", MsgReturn::SendTimedOut),
    ("MACH_SEND_MSG_TOO_SMALL", MsgReturn::SendMsgTooSmall),
    ("MACH_SEND_INVALID_REPLY", MsgReturn::SendInvalidReply),
    ("MACH_SEND_INVALID_RIGHT", MsgReturn::SendInvalidRight),
    ("MACH_SEND_NO_BUFFER", MsgReturn::SendNoBuffer),
    ("MACH_SEND_INVALID_TYPE", MsgReturn::SendInvalidType),
    ("MACH_SEND_INVALID_HEADER", MsgReturn::SendInvalidHeader),
    ("MACH_RCV_INVALID_NAME", MsgReturn::ReceiveInvalidName),
    ("MACH_RCV_TIMED_OUT", MsgReturn::ReceiveTimedOut),
    ("MACH_RCV_TOO_LARGE", MsgReturn::ReceiveTooLarge),
    ("MACH_RCV_PORT_CHANGED", MsgReturn::ReceivePortChanged),
    ("MACH_RCV_PORT_DIED", MsgReturn::ReceivePortDied),
    ("MACH_RCV_IN_SET", MsgReturn::ReceiveInSet),
    (
        "MACH_RCV_BODY_ERROR|MACH_MSG_IPC_KERNEL",
        MsgReturn::ReceiveBodyErrorMemory,
    ),
    (
        "MACH_RCV_BODY_ERROR|MACH_MSG_IPC_SPACE",
        MsgReturn::ReceiveBodyErrorNames,
    ),
];

/// Words that have a meaning of their own where a name may stand, so that they name nothing.
const RESERVED: &[(&str, ())] = &[
    ("task", ()),
    ("thread", ()),
    ("message", ()),
    ("profile", ()),
    ("null", ()),
    ("none", ()),
    ("empty", ()),
    ("waits", ()),
    ("too-large", ()),
    ("notice", ()),
    ("previous", ()),
    ("id", ()),
    ("of", ()),
    ("as", ()),
    ("to", ()),
    ("by", ()),
    ("on", ()),
    ("at", ()),
    ("into", ()),
    ("out", ()),
    ("from", ()),
    ("answer", ()),
    ("with", ()),
    ("room", ()),
    ("keep", ()),
    ("sync", ()),
];

/// Words that join a further part to a statement.
const JOINING: &[(&str, ())] = &[
    ("answer", ()),
    ("as", ()),
    ("keep", ()),
    ("room", ()),
    ("sync", ()),
    ("with", ()),
];

// Each table is named by one function alone: each mention of it takes long to prove.

/// The words that statements begin with.
fn statement_words() -> &'static [(&'static str, ())] {
    STATEMENTS
}

/// The words of calls.
fn call_words() -> &'static [(&'static str, CallWord)] {
    CALLS
}

/// The words of dispositions.
fn disposition_words() -> &'static [(&'static str, Disposition)] {
    DISPOSITIONS
}

/// The words of kinds of rights.
fn kind_words() -> &'static [(&'static str, Kind)] {
    KINDS
}

/// The words of rights.
fn right_words() -> &'static [(&'static str, Right)] {
    RIGHTS
}

/// The words of parts of a type, with their bits.
fn type_words() -> &'static [(&'static str, u32)] {
    TYPES
}

/// The words of notices that can be asked for.
fn variant_words() -> &'static [(&'static str, Variant)] {
    VARIANTS
}

/// The words of notices.
fn notice_words() -> &'static [(&'static str, NoticeWord)] {
    NOTICES
}

/// The words of fields.
fn field_words() -> &'static [(&'static str, Field)] {
    FIELDS
}

/// The codes of kernel calls.
fn kern_code_words() -> &'static [(&'static str, KernReturn)] {
    KERN_CODES
}

/// The codes of sends and receives.
fn msg_code_words() -> &'static [(&'static str, MsgReturn)] {
    MSG_CODES
}

/// The words that name nothing.
fn reserved_words() -> &'static [(&'static str, ())] {
    RESERVED
}

/// The words that join a further part.
fn joining_words() -> &'static [(&'static str, ())] {
    JOINING
}

/// Returns what the word means in the table.
fn find<T: Copy>(table: &[(&'static str, T)], word: &[u8]) -> Option<T> {
    for (known, meaning) in table {
        if known.as_bytes() == word {
            return Some(*meaning);
        }
    }
    None
}

/// Looks at the table's words for the nearest one.
fn look<T>(table: &[(&'static str, T)], nearest: &mut Nearest<'_, &'static str>) {
    for (known, _) in table {
        nearest.consider(known.as_bytes(), *known);
    }
}

/// Writes the table's words, with commas between them.
fn write_all<T>(table: &[(&'static str, T)], out: &mut Text) {
    let mut comma = "";
    for (known, _) in table {
        out.words(comma);
        out.words(known);
        comma = ", ";
    }
}

/// Whether the word is one of the notation's own that names nothing.
pub fn is_reserved(word: &[u8]) -> bool {
    find(reserved_words(), word).is_some()
}

/// Returns the word that joins a further part and is nearest to this one; `None` if none is near.
pub(crate) fn nearest_joining(word: &[u8]) -> Option<&'static str> {
    let mut nearest = Nearest::to(word);
    look(joining_words(), &mut nearest);
    nearest.found()
}

/// Returns the call that the word begins.
pub fn find_call(word: &[u8]) -> Option<CallWord> {
    find(call_words(), word)
}

/// Returns the disposition that the word names.
pub fn find_disposition(word: &[u8]) -> Option<Disposition> {
    find(disposition_words(), word)
}

/// Returns the kind of right that the word names.
pub fn find_kind(word: &[u8]) -> Option<Kind> {
    find(kind_words(), word)
}

/// Returns the right that the word names.
pub fn find_right(word: &[u8]) -> Option<Right> {
    find(right_words(), word)
}

/// Returns the bit of the part of a type that the word names.
pub fn find_type(word: &[u8]) -> Option<u32> {
    find(type_words(), word)
}

/// Returns the variant that the word names.
pub fn find_variant(word: &[u8]) -> Option<Variant> {
    find(variant_words(), word)
}

/// Returns the notice that the word names.
pub fn find_notice(word: &[u8]) -> Option<NoticeWord> {
    find(notice_words(), word)
}

/// Returns the field of a status that the word names.
pub fn find_field(word: &[u8]) -> Option<Field> {
    find(field_words(), word)
}

/// Returns the number of the code that the word names.
pub fn find_code(word: &[u8]) -> Option<u32> {
    if let Some(code) = find(kern_code_words(), word) {
        return Some(code.number());
    }
    Some(find(msg_code_words(), word)?.number())
}

impl Vocabulary {
    /// Returns the word of the list that is nearest to this one; `None` if none is near. Linear in the list.
    pub(crate) fn nearest(self, word: &[u8]) -> Option<&'static str> {
        let mut nearest = Nearest::to(word);
        self.look(&mut nearest);
        nearest.found()
    }

    /// Looks at the words of the list for the nearest one.
    fn look(self, nearest: &mut Nearest<'_, &'static str>) {
        match self {
            Vocabulary::Statement => look(statement_words(), nearest),
            Vocabulary::Call => look(call_words(), nearest),
            Vocabulary::Disposition => look(disposition_words(), nearest),
            Vocabulary::Kind => look(kind_words(), nearest),
            Vocabulary::Right => look(right_words(), nearest),
            Vocabulary::Type => look(type_words(), nearest),
            Vocabulary::Variant => look(variant_words(), nearest),
            Vocabulary::Notice => look(notice_words(), nearest),
            Vocabulary::Field => look(field_words(), nearest),
            Vocabulary::Code => {
                look(kern_code_words(), nearest);
                look(msg_code_words(), nearest);
            }
        }
    }

    /// Writes the words of the list.
    pub(crate) fn write_words(self, out: &mut Text) {
        match self {
            Vocabulary::Statement => write_all(statement_words(), out),
            Vocabulary::Call => write_all(call_words(), out),
            Vocabulary::Disposition => write_all(disposition_words(), out),
            Vocabulary::Kind => write_all(kind_words(), out),
            Vocabulary::Right => write_all(right_words(), out),
            Vocabulary::Type => write_all(type_words(), out),
            Vocabulary::Variant => write_all(variant_words(), out),
            Vocabulary::Notice => write_all(notice_words(), out),
            Vocabulary::Field => write_all(field_words(), out),
            Vocabulary::Code => out.words("the names in C"),
        }
    }

    /// Returns what a word of the list is called.
    pub(crate) fn noun(self) -> &'static str {
        match self {
            Vocabulary::Statement => "statement",
            Vocabulary::Call => "call",
            Vocabulary::Disposition => "disposition",
            Vocabulary::Kind => "kind of right",
            Vocabulary::Right => "right",
            Vocabulary::Type => "type",
            Vocabulary::Variant => "notice that can be asked for",
            Vocabulary::Notice => "notice",
            Vocabulary::Field => "field of a status",
            Vocabulary::Code => "code",
        }
    }
}
