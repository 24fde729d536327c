//! Receiving a message that carries one right at most beside that of its destination: its reply right, as
//! requests do, or the only one of its body.
ghost use Rattle.std.specs.Prelude.{◌≡◌, ◌≢◌, ℕ, ◌≤◌, [], ◌∷◌, false, None, List, length, IfOk, IfErr, IfSome, OnOk, MatchOption, Some};
ghost use Rattle.std.specs.Option.{option_to_list};
ghost use Rattle.mach_types.specs.Grammar.{WireBody};
ghost use Rattle.mach_types.specs.Numbers.{most_bytes};
ghost use Rattle.mach_types.specs.Rights.{disposition_number};
ghost use Rattle.message_codec.specs.Short.{one_word_span};
ghost use Rattle.message_codec.specs.Received.{IsLaidOut};
ghost use Rattle.copyin_base.specs.Kept.{Kept};
ghost use Rattle.copyin_base.specs.Worlds.{HasTask, WorldView};
ghost use Rattle.copyin_base.specs.declared.Carried.{Carried as AnyCarried};
ghost use Rattle.copyout.specs.Short.{IsShort, TellsOwn, body_right, own_names};
ghost use Rattle.copyout.specs.Giving.{GivesAll};
ghost use Rattle.copyout.specs.Receives.{Receives, Refuses};
ghost use Rattle.copyout.specs.Room.{Needs, OwnsAlone};
ghost use Rattle.copyout.specs.Takes.{TakesMessage, NotesFront, reply_word};
ghost use Rattle.copyout.specs.Ready.{CanGive, Delivers, MayHaveJust, IsRefusedBy, ReadyFor, Waits, HasFront, IsNumbered};
ghost use Rattle.copyout.specs.Wanted.{ReturnsSlot, WantsToReceive};
ghost use Rattle.copyout.specs.declared.receipt.Refusal.TheVariants as refused;

use crate::give::take_name;
use crate::receipt::{Refusal, give_reply, header_bits, make_room, note_front, spell, take_front};
use crate::room::own_port;
use copyin_base::{Carried, Message, Queued, Slot, TaskNames, World};
use mach_types::limits::MOST_NAMES;
use mach_types::{Bytes, Name, PortId, TaskId};
use message_codec::{Header, Span};
use port::Found;

/// What is known of a message that was sent and has no box of rights: it carries one right at most, beside that of
/// its destination. Its body may be a list of data items.
#[derive(Clone, Copy)]
pub(crate) struct Short {
    /// How many bytes it has.
    pub(crate) size: usize,
    /// The sequence number that it is received with.
    pub(crate) sequence: u32,
    /// The right: the reply right, or the only one of its body.
    pub(crate) right: Option<Carried>,
    /// Whether it is the body's.
    pub(crate) in_body: bool,
}

impl Short {
    // The right, where it is the body's.
    #[inline(always)]
    fn body_right(&self) -> Option<Carried>
        ensures { result ≡ body_right self.now }
    {
        if self.in_body { self.right } else { None }
    }
}

/// What is known of the message, if it is such a one; it is received with this sequence number.
#[inline(always)]
pub(crate) fn short_of(queued: &Queued, sequence: u32) -> Option<Short>
    ensures { IfSome result (λ short. IsShort queued.now short × (short.sequence ≡ sequence)) }
{
    match &queued.slot {
        Slot::Sent(
            Message {
                bytes,
                envelope,
                carried: None,
            },
        ) => Some(Short {
            size: bytes.len(),
            sequence,
            right: envelope.right(),
            in_body: envelope.is_in_body(),
        }),
        Slot::Sent(_) | Slot::Told(_) => None,
    }
}

/// What is known of the message, if it was sent and carries no right beside that of its destination. It is
/// received with this sequence number.
#[inline(always)]
pub(crate) fn alone_of(queued: &Queued, sequence: u32) -> Option<Short>
    ensures { IfSome result (λ short. IsShort queued.now short × (short.sequence ≡ sequence) × (short.right ≡ None)) }
{
    match &queued.slot {
        Slot::Sent(
            Message {
                bytes,
                envelope,
                carried: None,
            },
        ) if envelope.right().is_none() => Some(Short {
            size: bytes.len(),
            sequence,
            right: None,
            in_body: false,
        }),
        Slot::Sent(_) | Slot::Told(_) => None,
    }
}

// The port for which the right needs a name of its own, if there is a right and it needs one.
#[inline(always)]
fn own_of(world: &World, space: &TaskNames<'_>, right: &Option<Carried>) -> Option<PortId>
    ensures needs { Needs world.now.ports space.now.names [] (option_to_list right.now) (own_names result) }
    ensures own { MatchOption result (Unit {0}) (λ port. (c : AnyCarried) × (right.now ≡ Some c) × OwnsAlone world.now.ports space.now.names c port) }
{
    match right {
        Some(carried) => own_port(world, space, carried),
        None => None,
    }
}

// How many names of its own the right needs then: 1 or none.
#[inline(always)]
fn count_own(own: &Option<PortId>) -> usize
    ensures { result ≡ own_names own.now }
{
    match own {
        Some(_) => 1,
        None => 0,
    }
}

// The port for which the message's right needs a name of its own, if it needs one; or why the message
// isn't received, but for want of memory.
#[inline(always)]
fn judge_short(
    world: &World,
    task: TaskId,
    short: &Short,
    room: u32,
) -> Result<Option<PortId>, Refusal>
    requires there { HasTask world.now task }
    requires few { short.now.size ≤ most_bytes }
    ensures ok { IfOk result (λ own. TellsOwn world.now task short.now.right own × ((m : Kept) → IsShort m short.now → MayHaveJust world.now task m room (own_names own))) }
    ensures err { IfErr result (λ refusal. ((m : Kept) → IsShort m short.now → IsRefusedBy world.now task m room refusal) × (refusal ≢ refused.Memory)) }
{
    if short.size > room as usize {
        return Err(Refusal::TooLarge(short.size as u32));
    }
    let space = world.space(task);
    let own = own_of(world, &space, &short.right);
    if count_own(&own) > MOST_NAMES - space.len() {
        return Err(Refusal::Names);
    }
    Ok(own)
}

// Gives the task the right, if there is one, and answers its name.
#[inline(always)]
fn give_only(world: &mut World, task: TaskId, right: &Option<Carried>, own: Option<PortId>) -> Name
    requires can { CanGive world.old task (option_to_list right.now) }
    requires own { TellsOwn world.old task right.now own }
    ensures { (words : List ℕ) × GivesAll world.old task (option_to_list right.now) words world.new × (result ≡ reply_word right.now words) }
{
    match (right, own) {
        (Some(carried), Some(port)) => take_name(world, task, carried.given, port),
        _ => give_reply(world, task, right),
    }
}

// The message, which was sent.
#[inline(always)]
fn into_sent(queued: Queued) -> Message
    requires { queued.told ≡ false }
    ensures { result ≡ queued }
{
    match queued.slot {
        Slot::Sent(message) => message,
        Slot::Told(_) => unreachable!(),
    }
}

// The bytes of a message that carries no rights of a body as its receiver gets them: only its header
// changes. Its reply right is this one, if it has one, and comes under the name `remote`.
#[inline(always)]
fn spell_raw(
    message: Message,
    reply: &Option<Carried>,
    remote: Name,
    local: Name,
    sequence: u32,
) -> Bytes
    requires none { (message.spans ≡ []) × (message.rights ≡ []) }
    requires answered { reply.now ≡ message.reply }
    requires laid_out { (written : WireBody) × IsLaidOut message.bytes message.spans written }
    requires few { length message.bytes ≤ most_bytes }
    ensures { (w new : WorldView) (task : ℕ) (words : List ℕ) → GivesAll w task (option_to_list message.reply) words new → remote ≡ reply_word message.reply words
        → Delivers w task message local sequence result new }
{
    let Message {
        bytes,
        envelope,
        ..
    } = message;
    let header = Header {
        bits: header_bits(reply, envelope.by_once(), envelope.is_complex()),
        size: bytes.len() as u32,
        remote,
        local,
        sequence,
        id: envelope.id(),
    };
    spell(bytes, &[], &header, &[])
}

// The bytes of a message whose body is the word of this right alone, as its receiver gets them: there is no
// right to answer with, and the word is the right's name.
#[inline(always)]
fn spell_body(message: Message, carried: &Carried, name: Name, local: Name, sequence: u32) -> Bytes
    requires alone { message.reply ≡ None }
    requires spans { message.spans ≡ one_word_span (disposition_number carried.now.given) ∷ [] }
    requires rights { message.rights ≡ carried.now ∷ [] }
    requires laid_out { (written : WireBody) × IsLaidOut message.bytes message.spans written }
    requires few { length message.bytes ≤ most_bytes }
    ensures { (w new : WorldView) (task : ℕ) → GivesAll w task (carried.now ∷ []) (name ∷ []) new → Delivers w task message local sequence result new }
{
    let Message {
        bytes,
        envelope,
        ..
    } = message;
    let header = Header {
        bits: header_bits(&None, envelope.by_once(), envelope.is_complex()),
        size: bytes.len() as u32,
        remote: Name::null(),
        local,
        sequence,
        id: envelope.id(),
    };
    spell(
        bytes,
        &[Span::of_one_word(carried.given.number())],
        &header,
        &[name],
    )
}

// The bytes of such a message as its receiver gets them, where its right comes under this name.
#[inline(always)]
fn spell_short(message: Message, short: &Short, name: Name, local: Name) -> Bytes
    requires short { IsShort message short.now }
    requires laid_out { (written : WireBody) × IsLaidOut message.bytes message.spans written }
    requires few { length message.bytes ≤ most_bytes }
    ensures { (w new : WorldView) (task : ℕ) (words : List ℕ) → GivesAll w task (option_to_list short.now.right) words new → name ≡ reply_word short.now.right words
        → Delivers w task message local short.now.sequence result new }
{
    match &short.body_right() {
        Some(carried) => spell_body(message, carried, name, local, short.sequence),
        None => spell_raw(message, &short.right, name, local, short.sequence),
    }
}

// Takes the port's front message, which is such a one, gives its right, and notes the port where it came by
// the last send right. Room for the name that is needed was made, so it takes no memory.
#[inline(always)]
fn take_short(
    world: &mut World,
    task: TaskId,
    found: Found,
    local: Name,
    short: &Short,
    own: Option<PortId>,
) -> Bytes
    requires ready { (capacity : ℕ) × ReadyFor world.old task found.port capacity }
    requires short { (m : Kept) → HasFront world.old found.port m → IsShort m short.now }
    requires own { TellsOwn world.old task short.now.right own }
    requires numbered { IsNumbered world.old found.port short.now.sequence }
    ensures { (taken : WorldView) × (t : TakesMessage world.old task found.port local result taken) × NotesFront taken found.port t.takes.front world.new }
{
    let Found { port, place } = found;
    let message = into_sent(take_front(world, Found { port, place }));
    let name = give_only(world, task, &short.right, own);
    note_front(world, port, message.by_once());
    spell_short(message, short, name, local)
}

/// Receives the port's front message, which is known to be this one. The buffer must have room for its
/// length, and its right must have a name where it needs one of its own. Only that name may want memory.
#[inline(always)]
pub(crate) fn receive_short(
    world: &mut World,
    task: TaskId,
    found: Found,
    local: Name,
    short: &Short,
    room: u32,
) -> Result<Bytes, Refusal>
    requires there { HasTask world.old task }
    requires waits { Waits world.old found.port }
    requires short { (m : Kept) × HasFront world.old found.port m × IsShort m short.now }
    requires numbered { IsNumbered world.old found.port short.now.sequence }
    ensures ok { IfOk result (λ bytes. Receives world.old task found.port local room bytes world.new) }
    ensures kept { OnOk result (ReturnsSlot world.old task found.port world.new) }
    ensures err { IfErr result (λ refusal. Refuses world.old task found.port room refusal world.new) }
    ensures wanted { IfErr result (λ refusal. refusal ≡ refused.Memory → WantsToReceive world.old task found.port) }
{
    let own = judge_short(world, task, short, room)?;
    match make_room(world, task, count_own(&own)) {
        Ok(()) => Ok(take_short(world, task, found, local, short, own)),
        Err(_) => Err(Refusal::Memory),
    }
}

/// As [`receive_short`], of a message that carries a right beside that of its destination.
#[inline(never)]
pub(crate) fn receive_with_right(
    world: &mut World,
    task: TaskId,
    found: Found,
    local: Name,
    short: &Short,
    room: u32,
) -> Result<Bytes, Refusal>
    requires there { HasTask world.old task }
    requires waits { Waits world.old found.port }
    requires short { (m : Kept) × HasFront world.old found.port m × IsShort m short.now }
    requires numbered { IsNumbered world.old found.port short.now.sequence }
    ensures ok { IfOk result (λ bytes. Receives world.old task found.port local room bytes world.new) }
    ensures kept { OnOk result (ReturnsSlot world.old task found.port world.new) }
    ensures err { IfErr result (λ refusal. Refuses world.old task found.port room refusal world.new) }
    ensures wanted { IfErr result (λ refusal. refusal ≡ refused.Memory → WantsToReceive world.old task found.port) }
{
    receive_short(world, task, found, local, short, room)
}
