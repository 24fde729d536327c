//! Taking a port's front message.
ghost use Rattle.std.specs.Prelude.{◌≡◌, ◌≢◌, ℕ, ◌+◌, ◌*◌, ◌^◌, ◌<◌, ◌≤◌, ◌++◌, [], ◌∷◌, Some, None, length, min, IfOk, IfErr, OnOk, OnErr, MatchBool, if◌then◌else◌, List};
ghost use Rattle.std.specs.FinMap as map;
ghost use Rattle.mach_types.specs.Numbers.{most_bytes};
ghost use Rattle.mach_types.specs.Grammar.{WireBody, body_text};
ghost use Rattle.message_codec.specs.Received.{IsLaidOut, header_text, received_body};
ghost use Rattle.message_codec.specs.Spans.{word_count};
ghost use Rattle.copyin_base.specs.Carrying.{spans_in, spans_held};
ghost use Rattle.copyin_base.specs.Changes.{MakesRoom, NotesSenderless};
ghost use Rattle.copyin_base.specs.Kept.{Kept, Makes};
ghost use Rattle.copyin_base.specs.Wanted.{LacksRoomFor};
ghost use Rattle.copyin_base.specs.Worlds.{WorldView, HasTask};
ghost use Rattle.std.specs.Option.{option_to_list};
ghost use Rattle.copyout.specs.Giving.{GivesAll, LackRoom};
ghost use Rattle.copyout.specs.Receives.{Receives, Refuses};
ghost use Rattle.copyout.specs.Takes.{TakesFront, TakesMessage, NotesFront, reply_number, reply_word};
ghost use Rattle.copyout.specs.Ready.{CanGive, Waits, HasFront, HasNamesFor, MayHave, MayReceive, ReadyFor, Delivers, IsNumbered, IsRefusedBy, carried_by};
ghost use Rattle.copyout.specs.Prepared.{IsPrepared};
ghost use Rattle.copyout.specs.Wanted.{WantsToPrepare, WantsToReceive, ReturnsSlot};
ghost use Rattle.copyout.specs.declared.receipt.Refusal.TheVariants as refused;

use crate::give::{give_right, give_rights};
use crate::room::room_needed;
use crate::short::{alone_of, receive_short, receive_with_right, short_of};
use copyin_base::{Carried, CarriedRights, Envelope, Message, Queued, World};
use mach_types::bits::COMPLEX;
use mach_types::limits::{MOST_BYTES, MOST_NAMES};
use mach_types::{Bytes, KernReturn, Name, PortId, TaskId};
use message_codec::{Header, Span, put_received};
use port::{Found, NOWHERE};
use smallvec::SmallVec;
use std::alloc::{AllocError, Global};
use std::boxed::Box;

/// Why a message isn't received. It stays, and all is as before.
#[derive(Clone, Copy, Debug, PartialEq, Eq)]
pub enum Refusal {
    /// It has so many bytes, which is more than there is room for, or more than 65,536.
    TooLarge(u32),
    /// The task's names don't suffice for its rights: `MACH_RCV_BODY_ERROR` with
    /// `MACH_MSG_IPC_SPACE`.
    Names,
    /// Memory was refused: `MACH_RCV_BODY_ERROR` with `MACH_MSG_IPC_KERNEL`.
    Memory,
}

// The number of the kind of the right to answer with, 0 where there is none.
fn reply_number(reply: &Option<Carried>) -> u32
    ensures value { result ≡ reply_number reply.now }
    ensures small { result ≤ 18 }
{
    match reply {
        Some(carried) => u32::from(carried.given.kind_number()),
        None => 0,
    }
}

/// The first word of a received message.
pub(crate) fn header_bits(reply: &Option<Carried>, by_once: bool, is_complex: bool) -> u32
    ensures { result ≡ reply_number reply.now + (if by_once then 18 else 17) * 2 ^ 8 + (if is_complex then 2 ^ 31 else 0) }
{
    let local = if by_once { 18 } else { 17 };
    let complex = if is_complex { COMPLEX } else { 0 };
    reply_number(reply) + local * 0x100 + complex
}

/// Takes the port's front message; its number is used, its slot is spare, and its destination right is
/// consumed.
///
/// Takes no memory and cannot fail. Constant time.
#[inline(always)]
pub fn take_front(world: &mut World, found: Found) -> Queued
    requires { Waits world.old found.port }
    ensures { (t : TakesFront world.old found.port world.new) × (result ≡ t.front) }
{
    world.receive_front(found)
}

/// Gives the task the reply right, if there is one, and returns its name.
pub(crate) fn give_reply(world: &mut World, task: TaskId, reply: &Option<Carried>) -> Name
    requires { CanGive world.old task (option_to_list reply.now) }
    ensures { (words : List ℕ) × GivesAll world.old task (option_to_list reply.now) words world.new × (result ≡ reply_word reply.now words) }
{
    match reply {
        Some(carried) => give_right(world, task, carried),
        None => Name::null(),
    }
}

// Where the port words of a body stand that has these rights in a list.
fn spans_of(carried: &Option<Box<CarriedRights>>) -> &[Span]
    ensures { result.now ≡ spans_in carried.now }
{
    match carried {
        Some(carried) => carried.spans.as_slice(),
        None => &[],
    }
}

/// The bytes as the receiver gets them.
#[inline(always)]
pub(crate) fn spell(bytes: Vec<u8>, spans: &[Span], header: &Header, names: &[Name]) -> Bytes
    requires laid_out { (written : WireBody) × IsLaidOut bytes.items spans.now written }
    requires named { length names.now ≡ word_count spans.now }
    ensures { (written : WireBody) → IsLaidOut bytes.items spans.now written
        → result ≡ header_text header.now ++ body_text (received_body written names.now) }
{
    let mut bytes = bytes;
    put_received(&mut bytes, spans, header, names);
    Bytes::from_vec(bytes)
}

// The bytes of a message as the receiver gets them, where one of its body's rights may lie in its envelope.
fn spell_body(
    bytes: Vec<u8>,
    envelope: &Envelope,
    carried: &Option<Box<CarriedRights>>,
    header: &Header,
    names: &[Name],
) -> Bytes
    requires laid_out { (written : WireBody) × IsLaidOut bytes.items (spans_held envelope.now.in_body envelope.now.right carried.now) written }
    requires named { length names.now ≡ word_count (spans_held envelope.now.in_body envelope.now.right carried.now) }
    ensures { (written : WireBody) → IsLaidOut bytes.items (spans_held envelope.now.in_body envelope.now.right carried.now) written
        → result ≡ header_text header.now ++ body_text (received_body written names.now) }
{
    if !envelope.is_in_body() {
        return spell(bytes, spans_of(carried), header, names);
    }
    match envelope.right() {
        Some(right) => spell(
            bytes,
            &[Span::of_one_word(right.given.number())],
            header,
            names,
        ),
        None => spell(bytes, &[], header, names),
    }
}

// Gives the task the rights of a message that was taken, and makes its bytes what the receiver gets.
fn deliver(
    world: &mut World,
    task: TaskId,
    message: Message,
    local: Name,
    sequence: u32,
    names: SmallVec<Name, 8>,
) -> Bytes
    requires can { CanGive world.old task (carried_by message) }
    requires laid_out { (written : WireBody) × IsLaidOut message.bytes message.spans written }
    requires a_right_each { length message.rights ≡ word_count message.spans }
    requires few { length message.bytes ≤ most_bytes }
    requires none { names.items ≡ [] }
    requires room { length message.rights ≤ names.capacity }
    ensures { Delivers world.old task message local sequence result world.new }
{
    let mut names = names;
    let reply = message.reply();
    let remote = give_reply(world, task, &reply);
    give_rights(world, task, message.rights().as_slice(), &mut names);
    let Message {
        bytes,
        envelope,
        carried,
    } = message;
    let header = Header {
        bits: header_bits(&reply, envelope.by_once(), envelope.is_complex()),
        size: bytes.len() as u32,
        remote,
        local,
        sequence,
        id: envelope.id(),
    };
    spell_body(bytes, &envelope, &carried, &header, &names)
}

// What memory is taken for before the message is.
#[derive(Drop)]
struct Prepared {
    // Room for a name for each right of the body.
    names: SmallVec<Name, 8>,
    // The message of a notice.
    made: Option<Message>,
    // The sequence number that the message is received with, which takes none.
    sequence: u32,
}

/// Notes the port for the end of the step where the message came by its last send right, which is gone.
///
/// Takes no memory and cannot fail. Constant time.
pub fn note_front(world: &mut World, port: PortId, by_once: bool)
    ensures { MatchBool by_once (world.new ≡ world.old) (NotesSenderless world.old port world.new) }
{
    if !by_once {
        world.note_senderless(port);
    }
}

// Takes the port's front message, gives its rights, and notes the port where the message came by its
// last send right. `names` is empty, and has room for the rights of the body; room for the names that
// are needed was made, so it takes no memory.
fn take_message(
    world: &mut World,
    task: TaskId,
    found: Found,
    local: Name,
    prepared: Prepared,
) -> Bytes
    requires ready { ReadyFor world.old task found.port prepared.names.capacity }
    requires none { prepared.names.items ≡ [] }
    requires made { (m : Kept) → HasFront world.old found.port m → Makes m prepared.made }
    requires numbered { IsNumbered world.old found.port prepared.sequence }
    ensures { (taken : WorldView) × (t : TakesMessage world.old task found.port local result taken) × NotesFront taken found.port t.takes.front world.new }
{
    let Found { port, place } = found;
    let Prepared {
        names,
        made,
        sequence,
    } = prepared;
    let queued = take_front(world, Found { port, place });
    let by_once = queued.by_once();
    let bytes = deliver(
        world,
        task,
        queued.into_message(made),
        local,
        sequence,
        names,
    );
    note_front(world, port, by_once);
    bytes
}

// The port's front message, and the sequence number that it is received with.
fn front(world: &World, found: Found) -> (&Queued, u32)
    requires { (m : Kept) × HasFront world.now found.port m }
    ensures front { HasFront world.now found.port result.0.now }
    ensures numbered { IsNumbered world.now found.port result.1 }
{
    match world.numbered_front(found) {
        Some(front) => front,
        None => unreachable!(),
    }
}

// Whether the message has more bytes than there is room for, or than may be.
fn is_too_large(queued: &Queued, room: u32) -> bool
    ensures { MatchBool result (min room most_bytes < length queued.now.bytes) (length queued.now.bytes ≤ min room most_bytes) }
{
    queued.len() > MOST_BYTES.min(room as usize)
}

// Room for a name for each right of the body, in place for up to 8; and the message of a notice. It is
// received with this sequence number.
fn prepare(alloc: Global, queued: &Queued, sequence: u32) -> Result<Prepared, AllocError>
    ensures ok { IfOk result (λ prepared. IsPrepared queued.now prepared × (prepared.sequence ≡ sequence)) }
    ensures wanted { OnErr result (WantsToPrepare queued.now) }
{
    let mut names = SmallVec::new(alloc);
    names.reserve(queued.count_rights())?;
    let made = queued.make(alloc)?;
    Ok(Prepared {
        names,
        made,
        sequence,
    })
}

// A number of names that is enough for the rights of a message: that of the rights, where the task may have so many
// more names, or else that of the names that they need. Or why it isn't received, but for want of memory.
fn judge_names(world: &World, task: TaskId, queued: &Queued, room: u32) -> Result<usize, Refusal>
    requires there { HasTask world.now task }
    requires few { length queued.now.bytes ≤ most_bytes }
    ensures ok { IfOk result (λ number. MayHave world.now task queued.now room number) }
    ensures err { IfErr result (λ refusal. IsRefusedBy world.now task queued.now room refusal × (refusal ≢ refused.Memory)) }
{
    if is_too_large(queued, room) {
        return Err(Refusal::TooLarge(queued.len() as u32));
    }
    let space = world.space(task);
    let free = MOST_NAMES - space.len();
    let rights = queued.count_carried();
    if rights <= free {
        return Ok(rights);
    }
    let needed = room_needed(world, &space, queued);
    if needed > free {
        return Err(Refusal::Names);
    }
    Ok(needed)
}

// A number of names that is enough for the rights of the front message, and what memory is taken for before it
// is taken; or why it isn't received.
fn judge(
    world: &World,
    alloc: Global,
    task: TaskId,
    found: Found,
    room: u32,
) -> Result<(usize, Prepared), Refusal>
    requires there { HasTask world.now task }
    requires waits { (m : Kept) × HasFront world.now found.port m × (length m.bytes ≤ most_bytes) }
    ensures ok { IfOk result (λ r. (may : MayReceive world.now task found.port room r.0) × IsPrepared may.front r.1 × IsNumbered world.now found.port r.1.sequence) }
    ensures err { IfErr result (λ refusal. (m : Kept) × HasFront world.now found.port m × IsRefusedBy world.now task m room refusal) }
    ensures wanted { IfErr result (λ refusal. refusal ≡ refused.Memory → WantsToReceive world.now task found.port) }
{
    let (queued, sequence) = front(world, found);
    let needed = judge_names(world, task, queued, room)?;
    match prepare(alloc, queued, sequence) {
        Ok(prepared) => Ok((needed, prepared)),
        Err(_) => Err(Refusal::Memory),
    }
}

/// Returns whether only lack of memory could refuse to give the port's front message to the task: it isn't
/// too large, and the task's names suffice for its rights.
///
/// Takes no memory. The time is constant where the task may have a name more for each right, and else that of
/// [`room_needed`].
pub fn is_receivable(world: &World, task: TaskId, port: PortId, room: u32) -> bool
    requires there { HasTask world.now task }
    requires waits { Waits world.now port }
    ensures { (m : Kept) → HasFront world.now port m → MatchBool result (IsRefusedBy world.now task m room refused.Memory) (¬ (IsRefusedBy world.now task m room refused.Memory)) }
{
    let place = NOWHERE;
    let (queued, _) = front(world, Found { port, place });
    judge_names(world, task, queued, room).is_ok()
}

/// Makes room for so many fresh names of the task. Most messages need none.
#[inline(always)]
pub(crate) fn make_room(world: &mut World, task: TaskId, needed: usize) -> Result<(), KernReturn>
    requires { HasTask world.old task }
    ensures ok { OnOk result (MakesRoom world.old task needed world.new) }
    ensures err { OnErr result (world.new ≡ world.old) }
    ensures lacks { OnErr result (LacksRoomFor world.old task needed) }
{
    if needed == 0 {
        return Ok(());
    }
    world.reserve_names(task, needed)
}

// Makes room for so many fresh names of the task, which are enough for the rights of the front message. Where
// memory is refused for them, it makes room for those that the rights need.
#[inline(always)]
fn make_enough(
    world: &mut World,
    task: TaskId,
    found: Found,
    number: usize,
) -> Result<(), KernReturn>
    requires there { HasTask world.old task }
    requires enough { (m : Kept) × HasFront world.old found.port m × HasNamesFor world.old task m number }
    ensures ok { OnOk result ((made : ℕ) × MakesRoom world.old task made world.new × ((m : Kept) → HasFront world.old found.port m → HasNamesFor world.old task m made)) }
    ensures err { OnErr result (world.new ≡ world.old) }
    ensures lacks { OnErr result ((m : Kept) → HasFront world.old found.port m → LackRoom world.old task (carried_by m)) }
{
    if make_room(world, task, number).is_ok() {
        return Ok(());
    }
    let (queued, _) = front(world, found);
    let needed = room_needed(world, &world.space(task), queued);
    make_room(world, task, needed)
}

// Receives the port's front message, whatever it carries.
#[inline(never)]
fn receive_any(
    world: &mut World,
    alloc: Global,
    task: TaskId,
    found: Found,
    local: Name,
    room: u32,
) -> Result<Bytes, Refusal>
    requires there { HasTask world.old task }
    requires waits { Waits world.old found.port }
    ensures ok { IfOk result (λ bytes. Receives world.old task found.port local room bytes world.new) }
    ensures kept { OnOk result (ReturnsSlot world.old task found.port world.new) }
    ensures err { IfErr result (λ refusal. Refuses world.old task found.port room refusal world.new) }
    ensures wanted { IfErr result (λ refusal. refusal ≡ refused.Memory → WantsToReceive world.old task found.port) }
{
    let Found { port, place } = found;
    let (number, prepared) = judge(world, alloc, task, Found { port, place }, room)?;
    match make_enough(world, task, Found { port, place }, number) {
        Ok(()) => Ok(take_message(world, task, Found { port, place }, local, prepared)),
        Err(_) => Err(Refusal::Memory),
    }
}

/// Receives the port's front message under the task's name `local` for the port (IPC Interface, `mach_msg`
/// with `MACH_RCV_MSG`). The buffer must have room for its length, the task must have names for its rights,
/// and memory must be there; they are judged in this order. The header is reversed, and the rights have the
/// receiver's names, the reply right first.
///
/// It is refused for want of memory over three things alone: names that the rights need and there is no room
/// for, the words of a body with more than 8 rights, and the bytes of a notice. So a message that was sent
/// without rights is always received. The message's slot is spare then.
///
/// Of a notice, and of a message that carries more than one right, the names that its rights need aren't counted
/// where the task may have a name more for each: room is made for as many. What isn't used of it stays. Where
/// memory is refused for so many, or the task may not have them, the names are counted.
///
/// The right by which the message came is gone. Where it was the port's last send right, and a no-senders
/// request stands on the port, the port is noted for the end of the step.
///
/// # Errors
/// The message stays, and all is then as before.
/// - [`Refusal::TooLarge`]: it has more bytes than `room`, or more than 65,536.
/// - [`Refusal::Names`]: it isn't too large, and the task's names don't suffice. A right that needs a name of
///   its own lacks one, once those before it were given.
/// - [`Refusal::Memory`]: neither, memory was wanted, and it was refused.
///
/// The time grows with the number of rights. Where the task can't have a name more for each, or memory is refused
/// for so many, and there are more than 1,000, it grows as that of [`room_needed`].
#[inline(always)]
pub fn receive(
    world: &mut World,
    alloc: Global,
    task: TaskId,
    found: Found,
    local: Name,
    room: u32,
) -> Result<Bytes, Refusal>
    requires there { HasTask world.old task }
    requires waits { Waits world.old found.port }
    ensures ok { IfOk result (λ bytes. Receives world.old task found.port local room bytes world.new) }
    ensures kept { OnOk result (ReturnsSlot world.old task found.port world.new) }
    ensures err { IfErr result (λ refusal. Refuses world.old task found.port room refusal world.new) }
    ensures wanted { IfErr result (λ refusal. refusal ≡ refused.Memory → WantsToReceive world.old task found.port) }
{
    let Found { port, place } = found;
    // Most messages carry nothing beside their bytes, or one right, and go a short way.
    let (queued, sequence) = front(world, Found { port, place });
    if let Some(alone) = alone_of(queued, sequence) {
        return receive_short(world, task, Found { port, place }, local, &alone, room);
    }
    match short_of(queued, sequence) {
        Some(short) => receive_with_right(world, task, Found { port, place }, local, &short, room),
        None => receive_any(world, alloc, task, Found { port, place }, local, room),
    }
}
