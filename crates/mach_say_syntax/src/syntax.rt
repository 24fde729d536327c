//! Statements as they are read: words aren't looked up yet.
use mach_say_words::{Field, Kind, Variant, Word};
use mach_types::{Disposition, Event, Profile, Reply, Right};

/// A statement, and its line.
#[derive(Drop)]
pub struct Said<'a> {
    /// The number of the line, from 1.
    pub line: u64,
    /// The statement.
    pub statement: Statement<'a>,
}

/// A statement of a storyboard.
#[derive(Drop)]
pub enum Statement<'a> {
    /// `profile N`: the kernel's profile.
    Profile(Profile),
    /// `task WORD ..`: tasks to make.
    Tasks(Vec<Word<'a>>),
    /// `thread WORD of TASK`: a caller of its own.
    Thread(Word<'a>, Word<'a>),
    /// `message WORD = id N "..."`: a word for a message.
    Message(SaidMessage<'a>),
    /// `WHO: call => answer`.
    Call(SaidCall<'a>),
}

/// A message that has a word.
#[derive(Drop)]
pub struct SaidMessage<'a> {
    /// The word.
    pub word: Word<'a>,
    /// The id.
    pub id: u32,
    /// The data: whole words of four bytes.
    pub bytes: Vec<u8>,
}

/// A call, and what it is to answer.
#[derive(Drop)]
pub struct SaidCall<'a> {
    /// The task or the thread that makes the call.
    pub who: Word<'a>,
    /// The word that the call begins with.
    pub word: Word<'a>,
    /// The call.
    pub call: Call<'a>,
    /// What it is to answer.
    pub answer: Answer<'a>,
    /// The answer as it is written; `success` where none is.
    pub expected: &'a [u8],
}

/// A name of a task.
#[derive(Clone, Copy)]
pub struct SaidName<'a> {
    /// What is written.
    pub word: Word<'a>,
    /// What that is.
    pub is: NameIs,
}

/// What a written name is.
#[derive(Clone, Copy)]
pub enum NameIs {
    /// A word that stands for a name.
    Word,
    /// The name's number; 0 for `null`.
    Number(u32),
}

/// A right that goes from a name.
#[derive(Clone, Copy)]
pub struct NamedRight<'a> {
    /// What becomes of the right.
    pub disposition: Disposition,
    /// The name.
    pub name: SaidName<'a>,
}

/// Rights of a message's body under one disposition.
#[derive(Drop)]
pub struct SentRights<'a> {
    /// What becomes of the rights.
    pub disposition: Disposition,
    /// Their names: at least one.
    pub names: Vec<SaidName<'a>>,
}

/// How a message is received.
#[derive(Clone, Copy)]
pub struct Buffer {
    /// For how many bytes there is room.
    pub room: u32,
    /// Whether a longer message stays.
    pub keep: bool,
}

/// Makes a right.
#[derive(Clone, Copy)]
pub struct Make<'a> {
    /// The right: a receive right, a port set or a dead name.
    pub right: Right,
    /// The word for its name.
    pub word: Word<'a>,
    /// The chosen name, if there is one.
    pub chosen: Option<u32>,
}

/// Under which name a right is given.
#[derive(Clone, Copy)]
pub enum Under<'a> {
    /// Under a fresh name, which has the giver's word.
    Same,
    /// Under a fresh name, which has this word.
    Word(Word<'a>),
    /// Under this name, which has the giver's word.
    Number(u32),
}

/// Gives a right to a task.
#[derive(Clone, Copy)]
pub struct Give<'a> {
    /// The right.
    pub right: NamedRight<'a>,
    /// The task.
    pub to: Word<'a>,
    /// The name there.
    pub under: Under<'a>,
}

/// Sends a message.
#[derive(Drop)]
pub struct Send<'a> {
    /// The message's word.
    pub message: Word<'a>,
    /// The destination.
    pub destination: NamedRight<'a>,
    /// The reply right, if there is one.
    pub answer: Option<NamedRight<'a>>,
    /// The rights of the body.
    pub with: Vec<SentRights<'a>>,
}

/// Asks for a notice.
#[derive(Clone, Copy)]
pub struct Notify<'a> {
    /// The notice.
    pub variant: Variant,
    /// The name that it is about.
    pub of: SaidName<'a>,
    /// The right that it is sent to.
    pub by: NamedRight<'a>,
    /// With which make-send count, or whether, the notice may come at once.
    pub sync: u32,
}

/// Takes back the wish for a notice.
#[derive(Clone, Copy)]
pub struct Forget<'a> {
    /// The notice.
    pub variant: Variant,
    /// The name that it is about.
    pub of: SaidName<'a>,
}

/// Where a message is received from.
#[derive(Clone, Copy)]
pub enum Receiver<'a> {
    /// From a port or a set.
    Name(SaidName<'a>),
    /// From what the caller waits for.
    Waited,
}

/// A call.
#[derive(Drop)]
pub enum Call<'a> {
    /// `port`, `set` or `dead`.
    Make(Make<'a>),
    /// `give`.
    Give(Give<'a>),
    /// `send`.
    Send(Send<'a>),
    /// `receive` or `wake`.
    Receive(Receiver<'a>, Buffer),
    /// `move NAME into NAME`, or `move NAME out`.
    Move(SaidName<'a>, Option<SaidName<'a>>),
    /// `add NAME to NAME`.
    Add(SaidName<'a>, SaidName<'a>),
    /// `remove NAME from NAME`.
    Remove(SaidName<'a>, SaidName<'a>),
    /// `notify`.
    Notify(Notify<'a>),
    /// `forget`.
    Forget(Forget<'a>),
    /// `names`.
    Names,
    /// A call with one name.
    Named(SaidName<'a>, NameCall),
    /// `end`.
    End,
    /// `raw` and a line of a script.
    Raw(Event),
}

/// A call with one name: what it does.
#[derive(Clone, Copy)]
pub enum NameCall {
    /// `members NAME`.
    Members,
    /// `drop NAME`.
    Deallocate,
    /// `destroy NAME`.
    Destroy,
    /// `change NAME RIGHT by DELTA`.
    ModRefs(Right, i32),
    /// `refs NAME RIGHT`.
    GetRefs(Right),
    /// `type NAME`.
    NameType,
    /// `status NAME`.
    ReceiveStatus,
    /// `limit`, `count` or `seqno`, a name and a number.
    SetCount(CountOf, u32),
    /// `rename NAME to NUMBER`.
    Rename(u32),
}

/// A count of a port that a call sets.
#[derive(Clone, Copy)]
pub enum CountOf {
    /// The queue limit.
    Limit,
    /// The make-send count.
    MakeSend,
    /// The sequence number.
    Seqno,
}

/// What a call is to answer.
#[derive(Drop)]
pub enum Answer<'a> {
    /// Nothing is said, or the code of success: the call is to succeed.
    Success,
    /// A code other than 0.
    Code(u32),
    /// No message is there.
    Empty,
    /// No message is there, and the caller waits.
    Waits,
    /// The message has so many bytes, which are too many.
    TooLarge(u32),
    /// So many references.
    Refs(u32),
    /// So many names.
    Names(u32),
    /// A type with these bits.
    Type(u32),
    /// A status with these fields.
    Fields(Vec<FieldIs<'a>>),
    /// These members, in any order.
    Members(Vec<SaidName<'a>>),
    /// A request had no right.
    NoPrevious,
    /// A request had a right, whose name gets the word.
    Previous(Word<'a>),
    /// This reply.
    Reply(Reply),
    /// A message.
    Message(ReceivedMessage<'a>),
    /// A notice.
    Notice(Notice<'a>),
}

/// A field of a status, and its value.
#[derive(Clone, Copy)]
pub struct FieldIs<'a> {
    /// The field's word.
    pub word: Word<'a>,
    /// The field.
    pub field: Field,
    /// The value.
    pub value: SaidNumber<'a>,
    /// Both as they are written.
    pub expected: &'a [u8],
}

/// A number that is written, or that a name stands for.
#[derive(Clone, Copy)]
pub enum SaidNumber<'a> {
    /// A number.
    Number(u32),
    /// A name.
    Name(SaidName<'a>),
}

/// A right that came with a message, and the word for its name.
#[derive(Clone, Copy)]
pub struct ReceivedRight<'a> {
    /// The kind of the right.
    pub kind: Kind,
    /// The word.
    pub word: Word<'a>,
}

/// A message that is to come.
#[derive(Drop)]
pub struct ReceivedMessage<'a> {
    /// The message's word.
    pub message: Word<'a>,
    /// The port that it was received from, if that is said.
    pub at: Option<SaidName<'a>>,
    /// The word for the reply right, if that is said.
    pub answer: Option<Word<'a>>,
    /// The first rights of the body, as far as they are said.
    pub with: Vec<ReceivedRight<'a>>,
}

/// A notice that is to come.
#[derive(Clone, Copy)]
pub struct Notice<'a> {
    /// What it tells.
    pub told: Told<'a>,
    /// The port that it was received from, if that is said.
    pub at: Option<SaidName<'a>>,
}

/// What a notice tells.
#[derive(Clone, Copy)]
pub enum Told<'a> {
    /// A name was removed: this one, if it is said.
    PortDeleted(Option<SaidName<'a>>),
    /// A port would be destroyed. The word is for its receive right.
    PortDestroyed(Option<Word<'a>>),
    /// A port has no more senders. The number is its make-send count.
    NoSenders(Option<u32>),
    /// A send-once right was lost.
    SendOnce,
    /// A port died: that of this name, if it is said.
    DeadName(Option<SaidName<'a>>),
}
