//! Judging and sending a short message ([`Short`]).
ghost use Rattle.std.specs.Prelude.{◌≡◌, ◌≢◌, ℕ, ◌<◌, ◌≤◌, ◌+◌, ◌↔◌, ◌⊎◌, [], ◌∷◌, true, false, List, Some, None, IsSome, IsTrue, MatchBool, MatchOption, IfOk, IfErr};
ghost use Rattle.std.specs.FinMap as map;
ghost use Rattle.mach_types.specs.Codes.{msg_number};
ghost use Rattle.mach_types.specs.Grammar.{WireBody};
ghost use Rattle.mach_types.specs.Numbers.{disposition, kind_sent, most_rights};
ghost use Rattle.mach_types.specs.Tokens.{receive};
ghost use Rattle.mach_types.specs.declared.codes.MsgReturn.TheVariants.{SendInvalidDest, SendInvalidReply, SendInvalidRight, SendNoBuffer};
ghost use Rattle.message_codec.specs.Parses.{Parses};
ghost use Rattle.message_codec.specs.Short.{ReadsShort, parsed_short};
ghost use Rattle.message_codec.specs.declared.text.Parsed.{Parsed as AnyParsed};
ghost use Rattle.name_space.specs.Names.{Names};
ghost use Rattle.port.specs.Ports.{IsLive};
ghost use Rattle.copyin.specs.Goes.{AreGiven, CannotGo, GoAll, LeadsNowhere, MayGo, MayNotGo};
ghost use Rattle.copyin.specs.Judging.{CopiesName, IsBad, made_by, made_by_all, made_by_reply};
ghost use Rattle.copyin.specs.Loops.{MakesLoop};
ghost use Rattle.copyin.specs.Planned.{CanGo};
ghost use Rattle.copyin.specs.Plans.{CannotPlan, ChangesWord, Commits};
ghost use Rattle.copyin.specs.Short.{CopiesBeside, Goes, GoesTo, IsOf, IsShortPlan, body_right, message_holding, reply_right, rights_beside, rights_with, short_words, words_beside};
ghost use Rattle.copyin.specs.declared.short.GoingRight.{GoingRight as AnyGoing};
ghost use Rattle.copyin.specs.Slots.{slots_for};
ghost use Rattle.copyin_base.specs.Stands.{IsTied};
ghost use Rattle.copyin_base.specs.Worlds.{HasTask, NoneLost};
ghost use Rattle.copyin_base.specs.declared.Carried.{Carried as AnyCarried};
ghost use Rattle.copyin_base.specs.declared.Mark.TheVariants as mark_of;

use crate::carry_out::{copy_placed, hold_right, queue_message};
use crate::judge::{count_made, has_slot, mark_of_word};
use crate::loops::leads_on;
use crate::slots::{count_once, count_own};
use copyin_base::{Carried, Envelope, Mark, Message, Placed, TaskNames, World};
use dispositions::{left_by, mark_sent};
use mach_types::limits::MOST_RIGHTS;
use mach_types::{Disposition, MsgReturn, PortId, TaskId};
use message_codec::{PortWord, Short, ShortRight};
use name_space::Entry;
use port::{Found, NOWHERE};
use std::alloc::Global;

/// A right that goes, and the word by which it goes.
#[derive(Clone, Copy)]
pub struct GoingRight {
    /// The word.
    pub word: PortWord,
    /// The right.
    pub carried: Carried,
    /// The place where its port's record lay when it was judged.
    pub place: usize,
}

/// The right that a short message carries beside that of its destination, as it goes.
#[derive(Clone, Copy)]
pub enum Beside {
    /// There is none.
    Nothing,
    /// Its reply right.
    Reply(GoingRight),
    /// The only right of its body.
    Body(GoingRight),
}

/// What is done when a short message is sent. It holds all memory that sending takes, except for the slot in
/// the queue.
#[derive(Drop)]
pub struct ShortPlan {
    /// The sender.
    pub task: TaskId,
    /// The destination right.
    pub destination: GoingRight,
    /// The port whose queue the message joins.
    pub port: PortId,
    /// The other right.
    pub beside: Beside,
    /// The message, which carries it.
    pub message: Message,
}

// The right that goes by the word from what is under its name, if one can.
#[inline(always)]
fn carried_from(entry: Entry, word: &PortWord) -> Option<Carried>
    requires { IsSome (disposition word.now.disposition) }
    ensures { (names : Names) → map.get names word.now.name ≡ Some entry
        → MatchOption result ((c : AnyCarried) (after : Names) → ¬ (CopiesName names word.now c after)) (λ c. (after : Names) × CopiesName names word.now c after) }
{
    let given = Disposition::from_u8(word.disposition).unwrap();
    let mark = mark_sent(given, &entry)?;
    Some(Carried { given, mark })
}

// The port for which the right is.
#[inline(always)]
fn marked_port(carried: &Carried) -> Option<PortId>
    ensures { MatchOption result ((p : ℕ) → carried.now.mark ≢ mark_of.Port p) (λ p. carried.now.mark ≡ mark_of.Port p) }
{
    match &carried.mark {
        Mark::Port(port) => Some(*port),
        Mark::Null | Mark::Dead => None,
    }
}

// Judges the word of the destination: only a right for a port will do.
#[inline(always)]
fn judge_first(space: &TaskNames<'_>, word: &PortWord) -> Result<(GoingRight, PortId), MsgReturn>
    requires { IsSome (disposition word.now.disposition) }
    ensures ok { IfOk result (λ r. GoesTo space.now.names word.now r.0 r.1) }
    ensures err { IfErr result (λ code. (code ≡ SendInvalidDest) × LeadsNowhere space.now.names word.now) }
{
    let Some(Placed { entry, place }) = space.find(word.name) else {
        return Err(MsgReturn::SendInvalidDest);
    };
    let Some(carried) = carried_from(entry, word) else {
        return Err(MsgReturn::SendInvalidDest);
    };
    match marked_port(&carried) {
        Some(port) => {
            let going = GoingRight {
                word: *word,
                carried,
                place,
            };
            Ok((going, port))
        }
        None => Err(MsgReturn::SendInvalidDest),
    }
}

// The right that goes by a word of the name that the destination's right goes from, from what that left.
#[cold]
fn carried_after(space: &TaskNames<'_>, first: &PortWord, word: &PortWord) -> Option<Carried>
    requires given { IsSome (disposition word.now.disposition) }
    requires same { word.now.name ≡ first.now.name }
    requires goes { (c : AnyCarried) × (after : Names) × CopiesName space.now.names first.now c after }
    ensures { (c : AnyCarried) (after : Names) → CopiesName space.now.names first.now c after
        → MatchOption result ((d : AnyCarried) (last : Names) → ¬ (CopiesName after word.now d last)) (λ d. (last : Names) × CopiesName after word.now d last) }
{
    let given = Disposition::from_u8(first.disposition).unwrap();
    let entry = space.lookup(first.name)?;
    let left = left_by(given, &entry)?;
    carried_from(left, word)
}

// Judges the word of the right beside the destination's, in what the destination's left. Returns `refusal` for
// a bad word.
#[inline(always)]
fn judge_beside(
    space: &TaskNames<'_>,
    first: &PortWord,
    word: &PortWord,
    refusal: MsgReturn,
) -> Result<GoingRight, MsgReturn>
    requires given { IsSome (disposition word.now.disposition) }
    requires goes { (c : AnyCarried) × (after : Names) × CopiesName space.now.names first.now c after }
    ensures ok { IfOk result (λ going. (c : AnyCarried) (after : Names) → CopiesName space.now.names first.now c after → Goes after word.now going) }
    ensures err { IfErr result (λ code. (code ≡ refusal) × ((c : AnyCarried) (after : Names) → CopiesName space.now.names first.now c after → IsBad after word.now)) }
{
    if let Some(mark) = mark_of_word(word.name) {
        let given = Disposition::from_u8(word.disposition).unwrap();
        return Ok(GoingRight {
            word: *word,
            carried: Carried { given, mark },
            place: NOWHERE,
        });
    }
    if word.name.number() == first.name.number() {
        return match carried_after(space, first, word) {
            Some(carried) => Ok(GoingRight {
                word: *word,
                carried,
                place: NOWHERE,
            }),
            None => Err(refusal),
        };
    }
    let Some(Placed { entry, place }) = space.find(word.name) else {
        return Err(refusal);
    };
    match carried_from(entry, word) {
        Some(carried) => Ok(GoingRight {
            word: *word,
            carried,
            place,
        }),
        None => Err(refusal),
    }
}

// Judges the right beside the destination's, if there is one.
#[inline(always)]
fn judge_right(space: &TaskNames<'_>, short: &Short) -> Result<Beside, MsgReturn>
    requires given { AreGiven (short_words short.now) }
    requires goes { (c : AnyCarried) × (after : Names) × CopiesName space.now.names short.now.destination c after }
    ensures ok { IfOk result (λ beside. (first : AnyGoing) (port : ℕ) → GoesTo space.now.names short.now.destination first port
        → GoAll space.now.names (short_words short.now) (rights_with first port beside) (body_right beside) × IsOf short.now beside) }
    ensures err { IfErr result (λ code. (first : AnyGoing) (port : ℕ) → GoesTo space.now.names short.now.destination first port → CannotGo space.now.names (short_words short.now) code) }
{
    let first = &short.destination;
    let right = short.right;
    match right {
        None => Ok(Beside::Nothing),
        Some(ShortRight::Reply(word)) => {
            let going = judge_beside(space, first, &word, MsgReturn::SendInvalidReply)?;
            Ok(Beside::Reply(going))
        }
        Some(ShortRight::Body(word)) => {
            let going = judge_beside(space, first, &word, MsgReturn::SendInvalidRight)?;
            Ok(Beside::Body(going))
        }
    }
}

// Whether the message closes a loop.
#[inline(always)]
fn closes_loop(world: &World, port: PortId, beside: &Beside) -> bool
    ensures { MatchBool result (MakesLoop world.now.ports port (body_right beside.now)) (¬ (MakesLoop world.now.ports port (body_right beside.now))) }
{
    match beside {
        Beside::Body(going) => leads_on(world, port, &going.carried),
        Beside::Nothing | Beside::Reply(_) => false,
    }
}

// How many rights are made by the right beside the destination's.
#[inline(always)]
fn count_beside(beside: &Beside) -> u64
    ensures value { result ≡ made_by_reply (reply_right beside.now) + made_by_all (body_right beside.now) }
    ensures few { result ≤ 1 }
{
    match beside {
        Beside::Reply(going) | Beside::Body(going) => count_made(going.carried),
        Beside::Nothing => 0,
    }
}

// Whether there may be as many rights as the message makes. It makes two at most, and seldom are they near the
// limit.
#[inline(always)]
fn has_room(world: &World, destination: Carried, beside: &Beside) -> bool
    ensures { IsTrue result ↔ (world.now.ledger.total + (made_by destination + made_by_reply (reply_right beside.now) + made_by_all (body_right beside.now)) ≤ most_rights) }
{
    let total = world.total_rights() as u64;
    if total + 2 <= MOST_RIGHTS as u64 {
        return true;
    }
    total + count_made(destination) + count_beside(beside) <= MOST_RIGHTS as u64
}

// Judges whether the message closes a loop, then the queue, and then the limit of rights.
#[inline(always)]
fn admit(
    world: &World,
    port: PortId,
    destination: &GoingRight,
    beside: &Beside,
) -> Result<(), MsgReturn>
    requires live { IsLive world.now.ports port }
    requires sends { kind_sent destination.now.carried.given ≢ receive }
    ensures ok { IfOk result (λ _. MayGo world.now (rights_with destination.now port beside.now) (body_right beside.now)) }
    ensures err { IfErr result (λ code. MayNotGo world.now (rights_with destination.now port beside.now) (body_right beside.now) code) }
{
    if closes_loop(world, port, beside) {
        return Err(MsgReturn::SendInvalidRight);
    }
    let place = destination.place;
    if !has_slot(world, Found { port, place }, destination.carried) {
        return Err(MsgReturn::SendTimedOut);
    }
    if !has_room(world, destination.carried, beside) {
        return Err(MsgReturn::SendNoBuffer);
    }
    Ok(())
}

// The message that is queued, which holds its right.
#[inline(always)]
fn message_of(bytes: Vec<u8>, id: u32, by_once: bool, beside: &Beside) -> Message
    ensures { result ≡ message_holding bytes.items id by_once beside.now }
{
    let envelope = match beside {
        Beside::Nothing => Envelope::new(id, false, by_once, None),
        Beside::Reply(going) => Envelope::new(id, false, by_once, Some(going.carried)),
        Beside::Body(going) => Envelope::with_body_right(id, by_once, going.carried),
    };
    Message {
        bytes,
        envelope,
        carried: None,
    }
}

/// Judges a short message of the task, and makes the plan by which [`commit_short`] sends it. Errors and plan
/// are those of [`check`], in fewer steps. Nothing changes. Linear in the bytes, which are copied, except for
/// the way that [`circularity::closes_loop`] follows where a receive right is sent, and logarithmic for a name
/// above 65,535.
///
/// # Errors
/// - [`MsgReturn::SendInvalidDest`], [`MsgReturn::SendInvalidReply`], [`MsgReturn::SendInvalidRight`],
///   [`MsgReturn::SendTimedOut`]: as [`check`].
/// - [`MsgReturn::SendNoBuffer`]: there would be more than 4,294,967,295 rights; or the message could be
///   sent, and memory was refused.
///
/// [`check`]: crate::check
#[inline(always)]
pub fn check_short(
    world: &World,
    alloc: Global,
    task: TaskId,
    short: &Short,
    bytes: &[u8],
) -> Result<ShortPlan, MsgReturn>
    requires there { HasTask world.now task }
    requires reads { ReadsShort bytes.now short.now }
    requires tied { IsTied world.now task }
    ensures ok { IfOk result (λ plan. (p : Parses bytes.now (parsed_short short.now)) → IsShortPlan world.now task (parsed_short short.now) p.written bytes.now plan) }
    ensures err { IfErr result (λ code. (p : Parses bytes.now (parsed_short short.now)) → CannotPlan world.now task (parsed_short short.now) p.written (msg_number code)) }
{
    let space = world.space(task);
    let (destination, port) = judge_first(&space, &short.destination)?;
    let beside = judge_right(&space, short)?;
    admit(world, port, &destination, &beside)?;
    let Ok(bytes) = Vec::from_slice(alloc, bytes) else {
        return Err(MsgReturn::SendNoBuffer);
    };
    let by_once = destination.carried.given.is_send_once();
    let message = message_of(bytes, short.id, by_once, &beside);
    Ok(ShortPlan {
        task,
        destination,
        port,
        beside,
        message,
    })
}

impl ShortPlan {
    /// Returns how many message slots are to be spare beside those of the unused send-once rights, as
    /// [`Plan::count_slots`] does. Constant time.
    ///
    /// [`Plan::count_slots`]: crate::Plan::count_slots
    #[inline(always)]
    pub fn count_slots(&self) -> usize
        ensures { result ≡ slots_for self.now.destination.carried (reply_right self.now.beside) (body_right self.now.beside) }
    {
        let made = match &self.beside {
            Beside::Reply(going) | Beside::Body(going) => count_once(going.carried),
            Beside::Nothing => 0,
        };
        count_own(self.destination.carried.given) + made
    }
}

// A right goes, if its word is a name.
#[inline(always)]
fn copy_going(world: &mut World, task: TaskId, going: GoingRight)
    requires { CanGo world.old task (going.word ∷ []) (going.carried ∷ []) }
    ensures { ChangesWord world.old task going.word going.carried world.new }
{
    let GoingRight {
        word,
        carried,
        place,
    } = going;
    if word.name.is_usable() {
        copy_placed(world, task, word.name, carried, place);
    }
}

// The right beside the destination's goes, and the queue holds it if it is a receive right.
#[inline(always)]
fn copy_beside(world: &mut World, task: TaskId, queue: PortId, beside: &Beside)
    requires goes { CanGo world.old task (words_beside beside.now) (rights_beside beside.now) }
    requires none_lost { NoneLost world.old }
    ensures { CopiesBeside world.old task queue beside.now world.new }
{
    match beside {
        Beside::Nothing => {}
        Beside::Reply(going) => copy_going(world, task, *going),
        Beside::Body(going) => {
            copy_going(world, task, *going);
            hold_right(world, queue, &going.carried);
        }
    }
}

/// Sends a short message by its plan, as [`commit`] does. Takes no memory. Constant time, and logarithmic for a
/// name above 65,535.
///
/// [`commit`]: crate::commit
#[inline(always)]
pub fn commit_short(world: &mut World, plan: ShortPlan)
    requires planned { (task : ℕ) × (parsed : AnyParsed) × (written : WireBody) × (bytes : List ℕ) × IsShortPlan world.old task parsed written bytes plan }
    requires spare { 0 < world.old.ports.spare }
    requires tied { IsTied world.old plan.task }
    requires none_lost { NoneLost world.old }
    ensures { (task : ℕ) (parsed : AnyParsed) (written : WireBody) (bytes : List ℕ) (p : IsShortPlan world.old task parsed written bytes plan)
        → Commits world.old task parsed written p.is_plan.plans.judged bytes world.new }
{
    let ShortPlan {
        task,
        destination,
        port,
        beside,
        message,
    } = plan;
    let place = destination.place;
    copy_going(world, task, destination);
    copy_beside(world, task, port, &beside);
    queue_message(world, Found { port, place }, message);
}
