//! Judging a message before anything changes.
ghost use Rattle.std.specs.Prelude.{◌≡◌, ◌≢◌, ℕ, ◌<◌, ◌≤◌, ◌+◌, ◌⊎◌, ◌↔◌, All, IsSome, IsTrue, true, Some, None, MatchBool, MatchOption, [], ◌∷◌, ◌++◌, IfSome, IfOk, IfErr, OnOk, OnErr, length};
ghost use Rattle.std.specs.Option.{option_to_list};
ghost use Rattle.std.specs.FinMap as map;
ghost use Rattle.arrayvec.specs.ArrayVec.{array_vec_len};
ghost use Rattle.smallvec.specs.SmallVec.{small_vec_len, HasRoomFor};
ghost use Rattle.mach_types.specs.declared.codes.MsgReturn.TheVariants.{SendNoBuffer, SendInvalidDest, SendInvalidReply, SendInvalidRight, SendTimedOut};
ghost use Rattle.mach_types.specs.Grammar.{WireBody};
ghost use Rattle.mach_types.specs.Rights.{makes_right};
ghost use Rattle.mach_types.specs.Tokens.{receive, send_once, same_kind};
ghost use Rattle.port.specs.Ports.{IsLive};
ghost use Rattle.mach_types.specs.Numbers.{disposition, kind_sent, most_rights, null_word, dead_word};
ghost use Rattle.mach_types.specs.Codes.{msg_number};
ghost use Rattle.message_codec.specs.declared.text.Parsed.{Parsed as AnyParsed};
ghost use Rattle.message_codec.specs.Parses.{Parses};
ghost use Rattle.message_codec.specs.Words.{body_words, inline_words};
ghost use Rattle.name_space.specs.Names.{Names};
ghost use Rattle.copyin_base.specs.declared.Carried.{Carried as AnyCarried};
ghost use Rattle.copyin_base.specs.declared.Mark.TheVariants as mark_of;
ghost use Rattle.copyin_base.specs.Carrying.{spans_in, rights_in};
ghost use Rattle.copyin.specs.Judging.{CopiesName, CopiesWord, CopiesReply, CopiesBody, IsBad, BodyIsBad, made_by, made_by_all};
ghost use Rattle.copyin.specs.Overlays.{IsFull, Overlays};
ghost use Rattle.copyin.specs.Loops.{MakesLoop};
ghost use Rattle.copyin.specs.Goes.{AreGiven, IsHead, RepliesBadly, LeadsNowhere, StartsAt, OthersGo, OthersCannot, GoAll, CannotGo, MayGo, MayNotGo, made_by_rights, message_with};
ghost use Rattle.copyin.specs.Planned.{AreWords, IsPlan, plan_view};
ghost use Rattle.copyin.specs.PortWords.{listed};
ghost use Rattle.copyin.specs.Plans.{CannotPlan, HasSlot, HasNoSlot, reply_words};
ghost use Rattle.copyin_base.specs.Stands.{IsTied};
ghost use Rattle.copyin_base.specs.Worlds.{put, HasTask};
ghost use Rattle.dispositions.specs.declared.Copied.{Copied as AnyCopied};
ghost use Rattle.dispositions.specs.Copies.{copied_from};

use crate::loops::makes_loop;
use crate::touched::Touched;
use copyin_base::{Carried, CarriedRights, Envelope, Mark, Message, Placed, TaskNames, World};
use dispositions::{Copied, copy_right, left_by, mark_sent};
use mach_types::limits::MOST_RIGHTS;
use mach_types::{Disposition, MsgReturn, Name, PortId, TaskId};
use message_codec::{INLINE_WORDS, Parsed, PortWord, port_words};
use name_space::Entry;
use port::Found;
use smallvec::SmallVec;
use std::alloc::{AllocError, Global};
use std::boxed::Box;

/// The port words of a message.
#[derive(Drop)]
pub struct Words {
    /// The destination's.
    pub destination: PortWord,
    /// The word of the reply right, where there is one.
    pub reply: Option<PortWord>,
    /// The body's, from the front.
    pub body: SmallVec<PortWord, INLINE_WORDS>,
}

/// What is done when the message is sent: every right that goes, and the message that is queued. It holds all
/// memory that sending takes, except for the slot in the queue.
#[derive(Drop)]
pub struct Plan {
    /// The sender.
    pub task: TaskId,
    /// The words by which rights go.
    pub words: Words,
    /// The destination right.
    pub destination: Carried,
    /// The port whose queue the message joins.
    pub port: PortId,
    /// The place where its record lay when it was judged.
    pub place: usize,
    /// The message, with its other rights.
    pub message: Message,
}

// Puts what a right leaves under its name over what stood there, which was this: one that is made from a right
// that stays leaves just that.
#[inline(always)]
fn leave(
    touched: &mut Touched,
    given: Disposition,
    name: Name,
    entry: &Entry,
) -> Result<(), AllocError>
    ensures ok { OnOk result ((names now : Names) (k : AnyCopied) → Overlays touched.old names now → map.get now name ≡ Some entry.now → copied_from given entry.now ≡ Some k
        → Overlays touched.new names (put now name k.left)) }
    ensures err { OnErr result (IsFull touched.old) }
    ensures few { array_vec_len touched.new.few ≤ array_vec_len touched.old.few + 1 }
{
    if given.makes_right() {
        return Ok(());
    }
    touched.put(name, left_by(given, entry))
}

// Judges the right that goes from what stands under the word's name, which is refused with this code.
#[inline(always)]
fn judge_name(
    space: &TaskNames<'_>,
    touched: &mut Touched,
    word: PortWord,
    refusal: MsgReturn,
) -> Result<Carried, MsgReturn>
    requires { IsSome (disposition word.disposition) }
    ensures ok { IfOk result (λ c. (now : Names) → Overlays touched.old space.now.names now
        → (after : Names) × CopiesName now word c after × Overlays touched.new space.now.names after) }
    ensures err { IfErr result (λ code. (code ≡ SendNoBuffer) × IsFull touched.old
        ⊎ (code ≡ refusal) × ((now : Names) → Overlays touched.old space.now.names now → (c : AnyCarried) (after : Names) → ¬ (CopiesName now word c after))) }
    ensures few { array_vec_len touched.new.few ≤ array_vec_len touched.old.few + 1 }
{
    let given = Disposition::from_u8(word.disposition).unwrap();
    let Some(entry) = touched.standing(space, word.name) else {
        return Err(refusal);
    };
    let Some(mark) = mark_sent(given, &entry) else {
        return Err(refusal);
    };
    let Ok(()) = leave(touched, given, word.name, &entry) else {
        return Err(MsgReturn::SendNoBuffer);
    };
    Ok(Carried { given, mark })
}

// What stands for a word that is no name.
pub(crate) fn mark_of_word(word: Name) -> Option<Mark>
    ensures { MatchOption result ((word ≢ null_word) × (word ≢ dead_word)) (λ m. (word ≡ null_word) × (m ≡ mark_of.Null) ⊎ (word ≡ dead_word) × (m ≡ mark_of.Dead)) }
{
    match word.number() {
        0 => Some(Mark::Null),
        0xffff_ffff => Some(Mark::Dead),
        _ => None,
    }
}

// Judges a word: two words are no names and pass.
#[inline(always)]
fn judge_word(
    space: &TaskNames<'_>,
    touched: &mut Touched,
    word: PortWord,
    refusal: MsgReturn,
) -> Result<Carried, MsgReturn>
    requires { IsSome (disposition word.disposition) }
    ensures ok { IfOk result (λ c. (now : Names) → Overlays touched.old space.now.names now
        → (after : Names) × CopiesWord now word c after × Overlays touched.new space.now.names after) }
    ensures err { IfErr result (λ code. (code ≡ SendNoBuffer) × IsFull touched.old
        ⊎ (code ≡ refusal) × ((now : Names) → Overlays touched.old space.now.names now → IsBad now word)) }
    ensures few { array_vec_len touched.new.few ≤ array_vec_len touched.old.few + 1 }
{
    let given = Disposition::from_u8(word.disposition).unwrap();
    match mark_of_word(word.name) {
        Some(mark) => Ok(Carried { given, mark }),
        None => judge_name(space, touched, word, refusal),
    }
}

// Judges a word of the body, and adds its right to those that go, where there is room for one.
fn judge_next(
    space: &TaskNames<'_>,
    touched: &mut Touched,
    rights: &mut SmallVec<Carried, INLINE_WORDS>,
    word: &PortWord,
) -> Result<(), MsgReturn>
    requires room { HasRoomFor rights.old 1 }
    requires given { IsSome (disposition word.now.disposition) }
    ensures ok { OnOk result ((c : AnyCarried) × (rights.new.items ≡ rights.old.items ++ c ∷ [])
        × ((now : Names) → Overlays touched.old space.now.names now → (after : Names) × CopiesWord now word.now c after × Overlays touched.new space.now.names after)) }
    ensures err { IfErr result (λ code. (code ≡ SendNoBuffer) × IsFull touched.old
        ⊎ (code ≡ SendInvalidRight) × ((now : Names) → Overlays touched.old space.now.names now → IsBad now word.now)) }
    ensures few { array_vec_len touched.new.few ≤ array_vec_len touched.old.few + 1 }
    ensures capacity { OnOk result (rights.new.capacity ≡ rights.old.capacity) }
{
    let Carried { given, mark } = judge_word(space, touched, *word, MsgReturn::SendInvalidRight)?;
    rights.push_reserved(Carried { given, mark });
    Ok(())
}

// Judges the words of the body, each in what the one before left, and puts their rights into a list
// that has none. Room for them is made at once.
fn judge_body(
    space: &TaskNames<'_>,
    touched: &mut Touched,
    rights: &mut SmallVec<Carried, INLINE_WORDS>,
    words: &[PortWord],
) -> Result<(), MsgReturn>
    requires few { array_vec_len touched.old.few ≤ 2 }
    requires none { rights.old.items ≡ [] }
    requires inline { inline_words ≤ rights.old.capacity }
    requires given { All (λ w. IsSome (disposition w.disposition)) words.now }
    ensures ok { OnOk result ((now : Names) → Overlays touched.old space.now.names now
        → (after : Names) × CopiesBody now words.now rights.new.items after) }
    ensures err { IfErr result (λ code. (code ≡ SendNoBuffer) × (inline_words < length words.now)
        ⊎ (code ≡ SendInvalidRight) × ((now : Names) → Overlays touched.old space.now.names now → BodyIsBad now words.now)) }
{
    let Ok(()) = rights.reserve(words.len()) else {
        return Err(MsgReturn::SendNoBuffer);
    };
    for word in words {
        judge_next(space, touched, rights, word)?;
    }
    Ok(())
}

// Judges the word of the right to answer with.
fn judge_reply(
    space: &TaskNames<'_>,
    touched: &mut Touched,
    word: Option<PortWord>,
) -> Result<Option<Carried>, MsgReturn>
    requires { IfSome word (λ w. IsSome (disposition w.disposition)) }
    ensures ok { IfOk result (λ reply. (now : Names) → Overlays touched.old space.now.names now
        → (after : Names) × CopiesReply now (option_to_list word) reply after × Overlays touched.new space.now.names after) }
    ensures err { IfErr result (λ code. (code ≡ SendNoBuffer) × IsFull touched.old
        ⊎ (code ≡ SendInvalidReply) × ((now : Names) → Overlays touched.old space.now.names now → RepliesBadly now (option_to_list word))) }
    ensures few { array_vec_len touched.new.few ≤ array_vec_len touched.old.few + 1 }
{
    match word {
        None => Ok(None),
        Some(word) => {
            let carried = judge_word(space, touched, word, MsgReturn::SendInvalidReply)?;
            Ok(Some(carried))
        }
    }
}

// The destination's right.
#[derive(Clone, Copy)]
struct Destination {
    carried: Carried,
    /// The port for which it is.
    port: PortId,
    /// The place of its record.
    place: usize,
    /// What it leaves under its name.
    left: Option<Entry>,
}

/// Judges the word of the destination: only a right for a port will do.
#[inline(always)]
fn judge_destination(space: &TaskNames<'_>, word: PortWord) -> Result<Destination, MsgReturn>
    requires { IsSome (disposition word.disposition) }
    ensures ok { IfOk result (λ d. StartsAt space.now.names word d) }
    ensures err { IfErr result (λ code. (code ≡ SendInvalidDest) × LeadsNowhere space.now.names word) }
{
    let given = Disposition::from_u8(word.disposition).unwrap();
    let Some(Placed { entry, place }) = space.find(word.name) else {
        return Err(MsgReturn::SendInvalidDest);
    };
    let Some(Copied { left, mark }) = copy_right(given, &entry) else {
        return Err(MsgReturn::SendInvalidDest);
    };
    match mark {
        Mark::Port(port) => Ok(Destination {
            carried: Carried { given, mark },
            port,
            place,
            left,
        }),
        Mark::Null | Mark::Dead => Err(MsgReturn::SendInvalidDest),
    }
}

/// The rights of a message's header.
#[derive(Clone, Copy)]
struct Rights {
    destination: Carried,
    port: PortId,
    /// The place of its record.
    place: usize,
    reply: Option<Carried>,
}

// Judges all words of a message: the destination, the reply and the body, whose rights it puts into a
// list that has none.
fn judge_all(
    alloc: Global,
    space: &TaskNames<'_>,
    words: &Words,
    body: &mut SmallVec<Carried, INLINE_WORDS>,
) -> Result<Rights, MsgReturn>
    requires given { AreGiven (listed words.now) }
    requires none { body.old.items ≡ [] }
    requires inline { inline_words ≤ body.old.capacity }
    ensures ok { IfOk result (λ rights. GoAll space.now.names (listed words.now) rights body.new.items) }
    ensures err { IfErr result (λ code. (code ≡ SendNoBuffer) × (inline_words < small_vec_len words.now.body) ⊎ CannotGo space.now.names (listed words.now) code) }
{
    let Destination {
        carried,
        port,
        place,
        left,
    } = judge_destination(space, words.destination)?;
    let reply = judge_others(alloc, space, words, left, body)?;
    Ok(Rights {
        destination: carried,
        port,
        place,
        reply,
    })
}

// Judges the reply and the body, where this is left under the destination's name.
#[inline(always)]
fn judge_others(
    alloc: Global,
    space: &TaskNames<'_>,
    words: &Words,
    left: Option<Entry>,
    body: &mut SmallVec<Carried, INLINE_WORDS>,
) -> Result<Option<Carried>, MsgReturn>
    requires given { AreGiven (listed words.now) }
    requires none { body.old.items ≡ [] }
    requires inline { inline_words ≤ body.old.capacity }
    ensures ok { IfOk result (λ reply. OthersGo (put space.now.names words.now.destination.name left) (listed words.now) reply body.new.items) }
    ensures err { IfErr result (λ code. (code ≡ SendNoBuffer) × (inline_words < small_vec_len words.now.body)
        ⊎ OthersCannot (put space.now.names words.now.destination.name left) (listed words.now) code) }
{
    let mut touched = Touched::first(alloc, words.destination.name, left);
    let reply = judge_reply(space, &mut touched, words.reply)?;
    judge_body(space, &mut touched, body, words.body.as_slice())?;
    Ok(reply)
}

// Whether the port's queue takes a message under this destination right.
#[inline(always)]
pub(crate) fn has_slot(world: &World, found: Found, destination: Carried) -> bool
    requires live { IsLive world.now.ports found.port }
    requires sends { kind_sent destination.given ≢ receive }
    ensures { MatchBool result (HasSlot world.now found.port destination) (HasNoSlot world.now found.port destination) }
{
    destination.given.is_send_once() || world.has_room(found)
}

// How many rights are made by this one: one, or none.
pub(crate) fn count_made(carried: Carried) -> u64
    ensures value { result ≡ made_by carried }
    ensures few { result ≤ 1 }
{
    let Mark::Port(_) = &carried.mark else {
        return 0;
    };
    if carried.given.makes_right() { 1 } else { 0 }
}

// How many rights are made by all of these.
fn count_all_made(rights: &[Carried]) -> u64
    ensures value { result ≡ made_by_all rights.now }
    ensures few { result ≤ length rights.now }
{
    let mut made = 0;
    for carried in rights {
        made += count_made(*carried);
    }
    made
}

// Whether there may be as many rights as the message makes.
#[inline(always)]
fn has_room(world: &World, rights: &Rights, body: &[Carried]) -> bool
    ensures { IsTrue result ↔ (world.now.ledger.total + made_by_rights rights.now body.now ≤ most_rights) }
{
    let reply = match rights.reply {
        Some(carried) => count_made(carried),
        None => 0,
    };
    let made = count_made(rights.destination) + reply + count_all_made(body);
    world.total_rights() as u64 + made <= MOST_RIGHTS as u64
}

// Judges whether the message closes a loop.
#[inline(always)]
fn judge_loop(world: &World, alloc: Global, port: PortId, body: &[Carried]) -> Result<(), MsgReturn>
    ensures ok { OnOk result (¬ (MakesLoop world.now.ports port body.now)) }
    ensures err { IfErr result (λ code. MakesLoop world.now.ports port body.now × (code ≡ SendInvalidRight) ⊎ (inline_words < length body.now) × (code ≡ SendNoBuffer)) }
{
    match makes_loop(world, alloc, port, body) {
        Ok(false) => Ok(()),
        Ok(true) => Err(MsgReturn::SendInvalidRight),
        Err(_) => Err(MsgReturn::SendNoBuffer),
    }
}

/// Judges whether the message closes a loop, then the queue, and then the limit of rights.
#[inline(always)]
fn admit(world: &World, alloc: Global, rights: &Rights, body: &[Carried]) -> Result<(), MsgReturn>
    requires live { IsLive world.now.ports rights.now.port }
    requires sends { kind_sent rights.now.destination.given ≢ receive }
    ensures ok { IfOk result (λ _. MayGo world.now rights.now body.now) }
    ensures err { IfErr result (λ code. MayNotGo world.now rights.now body.now code) }
{
    judge_loop(world, alloc, rights.port, body)?;
    let Rights { port, place, .. } = *rights;
    if !has_slot(world, Found { port, place }, rights.destination) {
        return Err(MsgReturn::SendTimedOut);
    }
    if !has_room(world, rights, body) {
        return Err(MsgReturn::SendNoBuffer);
    }
    Ok(())
}

/// What a message says, beside the words of its body.
#[derive(Clone, Copy)]
struct Head {
    destination: PortWord,
    reply: Option<PortWord>,
    id: u32,
    is_complex: bool,
}

// The word of the right to answer with, if the header has one.
fn reply_word(parsed: &Parsed) -> Option<PortWord>
    ensures { option_to_list result ≡ reply_words parsed.now }
{
    if parsed.local_kind == 0 {
        return None;
    }
    Some(PortWord {
        disposition: parsed.local_kind,
        name: parsed.local,
    })
}

// What the message of which this was read says, beside the words of its body.
#[inline(always)]
fn head_of(parsed: &Parsed) -> Head
    ensures { IsHead parsed.now result }
{
    Head {
        destination: PortWord {
            disposition: parsed.remote_kind,
            name: parsed.remote,
        },
        reply: reply_word(parsed),
        id: parsed.id,
        is_complex: parsed.is_complex,
    }
}

// The words of a message.
fn read_words(alloc: Global, parsed: &Parsed, bytes: &[u8]) -> Result<Words, MsgReturn>
    requires { Parses bytes.now parsed.now }
    ensures ok { IfOk result (λ words. (p : Parses bytes.now parsed.now) → AreWords parsed.now p.written (listed words)) }
    ensures err { IfErr result (λ code. (code ≡ SendNoBuffer) × ((p : Parses bytes.now parsed.now) → inline_words < length (body_words p.written))) }
{
    let Ok(body) = port_words(alloc, bytes, parsed.spans.as_slice()) else {
        return Err(MsgReturn::SendNoBuffer);
    };
    let head = head_of(parsed);
    Ok(Words {
        destination: head.destination,
        reply: head.reply,
        body,
    })
}

// The message that is queued, for which memory is taken.
#[inline(always)]
fn message_of(
    alloc: Global,
    head: &Head,
    bytes: &[u8],
    rights: &Rights,
    carried: Option<Box<CarriedRights>>,
) -> Result<Message, MsgReturn>
    ensures ok { IfOk result (λ message. message ≡ message_with head.now bytes.now rights.now (spans_in carried) (rights_in carried)) }
    ensures err { IfErr result (λ code. code ≡ SendNoBuffer) }
{
    let Ok(bytes) = Vec::from_slice(alloc, bytes) else {
        return Err(MsgReturn::SendNoBuffer);
    };
    let by_once = rights.destination.given.is_send_once();
    let envelope = Envelope::new(head.id, head.is_complex, by_once, rights.reply);
    Ok(Message {
        bytes,
        envelope,
        carried,
    })
}

/// The plan by which a message with these rights is sent.
#[inline(always)]
fn plan_of(task: TaskId, words: Words, rights: &Rights, message: Message) -> Plan
    ensures { result ≡ record { task = task; words = words; destination = rights.now.destination; port = rights.now.port; place = rights.now.place; message = message } }
{
    Plan {
        task,
        words,
        destination: rights.destination,
        port: rights.port,
        place: rights.place,
        message,
    }
}

/// Judges a message of the task, as it was read, and makes the plan by which [`commit`] sends it. Nothing
/// changes. Each right is judged in what the ones before it left: the destination's, the reply right, and the
/// body's from the front (IPC Interface, `mach_msg`).
///
/// # Errors
/// - [`MsgReturn::SendInvalidDest`]: the destination is no right for a port by its disposition.
/// - [`MsgReturn::SendInvalidReply`]: the reply right can't be sent by its disposition.
/// - [`MsgReturn::SendInvalidRight`]: a right of the body can't be sent by its disposition; or all can, and
///   the message would close a loop. It does where it carries the receive right of its destination. It also
///   does where it carries that of a port in whose queue, through any number of messages, the destination's
///   own receive right is.
/// - [`MsgReturn::SendTimedOut`]: the queue is at its limit, and the message is sent to a send right.
/// - [`MsgReturn::SendNoBuffer`]: there would be more than 4,294,967,295 rights; or memory was refused, where
///   the message could be sent or its body has more than [`INLINE_WORDS`] port words.
///
/// Linear in the bytes and, where receive rights are sent, in the way that [`circularity::closes_loop`]
/// follows. For each word logarithmic in the names that the words so far have taken rights from, and for a
/// name above 65,535.
///
/// [`commit`]: crate::commit
pub fn check(
    world: &World,
    alloc: Global,
    task: TaskId,
    parsed: &Parsed,
    bytes: &[u8],
) -> Result<Plan, MsgReturn>
    requires there { HasTask world.now task }
    requires parses { Parses bytes.now parsed.now }
    requires tied { IsTied world.now task }
    ensures ok { IfOk result (λ plan. (p : Parses bytes.now parsed.now) → IsPlan world.now task parsed.now p.written bytes.now (plan_view plan)) }
    ensures err { IfErr result (λ code. (p : Parses bytes.now parsed.now) → CannotPlan world.now task parsed.now p.written (msg_number code)) }
{
    let words = read_words(alloc, parsed, bytes)?;
    let mut body = SmallVec::new(alloc);
    let rights = judge_all(alloc, &world.space(task), &words, &mut body)?;
    admit(world, alloc, &rights, body.as_slice())?;
    let spans = parsed.spans.as_slice();
    let Ok(carried) = CarriedRights::of(alloc, spans, body.as_slice()) else {
        return Err(MsgReturn::SendNoBuffer);
    };
    let head = head_of(parsed);
    let message = message_of(alloc, &head, bytes, &rights, carried)?;
    Ok(plan_of(task, words, &rights, message))
}
