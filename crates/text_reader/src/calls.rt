//! Calls are read.
ghost use Rattle.std.specs.Prelude.{◌≡◌, ◌<◌, ◌^◌, ℕ, ℤ, Bool, List, ◌∷◌, ◌++◌, All, IfOk, IsOkUnless, codes, decimal};
ghost use Rattle.std.specs.Fmt.{signed_decimal};
ghost use Rattle.mach_types.specs.declared.calls.Event.{Event as AnyEvent};
ghost use Rattle.tracer_base.specs.Calls.{Fits, call_word, call_arguments, call_words, call_text};
ghost use Rattle.mach_types.specs.declared.calls.Waited.{Waited as AnyWaited};
ghost use Rattle.tracer_base.specs.Numbers.{FitsDelta};
ghost use Rattle.tracer_base.specs.Text.{bytes_text, flag_text, waited_words, FitsWaited};
ghost use Rattle.tracer_base.specs.Words.{IsRead};
ghost use Rattle.text_reader.specs.Keywords.{IsNoOwnWord, IsNoPairWord};

use mach_types::{Event, Name, TaskId};
use std::alloc::Global;
use tracer_base::{TextFault, Words};

/// The call that the text says: the call's keyword, and its arguments, each after one space.
///
/// `Bad` comes where the text is that of no call, `OutOfMemory` where memory for a message is
/// refused. Time and memory grow with the length of the text.
pub fn read_call(alloc: Global, text: &[u8]) -> Result<Event, TextFault>
    ensures ok { IfOk result (λ event. call_text event ≡ text.now) }
    ensures fits { IfOk result Fits }
    ensures each { (event : AnyEvent) → Fits event → call_text event ≡ text.now → IsOkUnless result TextFault.OutOfMemory }
{
    let mut words = Words::of(text);
    let event = next_call(alloc, &mut words)?;
    words.end()?;
    Ok(event)
}

/// The call that the next words say: its keyword and arguments. Faults and cost are as for [`read_call`].
pub fn next_call(alloc: Global, words: &mut Words<'_>) -> Result<Event, TextFault>
    ensures ok { IfOk result (λ event. call_words event ++ words.new ≡ words.old) }
    ensures fits { IfOk result Fits }
    ensures read { (event : AnyEvent) (behind : List (List ℕ)) → Fits event → call_words event ++ behind ≡ words.old → IsRead result words.new behind }
{
    let keyword = words.keyword()?;
    read_arguments(alloc, keyword, words)
}

/// The call of this keyword, with its arguments from `words`. Faults are as for [`read_call`].
pub(crate) fn read_arguments(
    alloc: Global,
    keyword: &str,
    words: &mut Words<'_>,
) -> Result<Event, TextFault>
    ensures word { IfOk result (λ event. call_word event ≡ keyword.now) }
    ensures arguments { IfOk result (λ event. call_arguments event ++ words.new ≡ words.old) }
    ensures fits { IfOk result Fits }
    ensures read { (event : AnyEvent) (behind : List (List ℕ)) → Fits event → call_word event ≡ keyword.now
        → call_arguments event ++ behind ≡ words.old → IsRead result words.new behind }
{
    match keyword {
        "send" => read_send(alloc, words),
        "recv" => read_recv(words),
        "task" => Ok(Event::TaskCreate),
        "insert" => read_insert(words),
        "extract" => read_extract(words),
        "again" => read_again(words),
        "modrefs" => read_modrefs(words),
        "notify" => read_notify(words),
        "names" => Ok(Event::Names(words.task()?)),
        "end" => Ok(Event::TaskTerminate(words.task()?)),
        _ => read_short_call(keyword, words),
    }
}

/// The call of this keyword whose arguments are a task and one or two numbers. Faults are as for [`read_call`].
fn read_short_call(keyword: &str, words: &mut Words<'_>) -> Result<Event, TextFault>
    requires { IsNoOwnWord keyword.now }
    ensures word { IfOk result (λ event. call_word event ≡ keyword.now) }
    ensures arguments { IfOk result (λ event. call_arguments event ++ words.new ≡ words.old) }
    ensures fits { IfOk result Fits }
    ensures each { (event : AnyEvent) (behind : List (List ℕ)) → Fits event → call_word event ≡ keyword.now
        → call_arguments event ++ behind ≡ words.old → IsOkUnless result TextFault.OutOfMemory }
{
    let (task, name) = words.task_and_name()?;
    match keyword {
        "alloc" => Ok(Event::Allocate(task, name.number())),
        "dealloc" => Ok(Event::Deallocate(task, name)),
        "destroy" => Ok(Event::Destroy(task, name)),
        "type" => Ok(Event::NameType(task, name)),
        "status" => Ok(Event::ReceiveStatus(task, name)),
        "members" => Ok(Event::SetStatus(task, name)),
        _ => read_last_argument(keyword, task, name, words),
    }
}

/// The call of this keyword whose arguments are the task, the name and one number more. Faults are as for [`read_call`].
fn read_last_argument(
    keyword: &str,
    task: TaskId,
    name: Name,
    words: &mut Words<'_>,
) -> Result<Event, TextFault>
    requires own { IsNoOwnWord keyword.now }
    requires pair { IsNoPairWord keyword.now }
    requires small { (task < 2 ^ 32) × (name < 2 ^ 32) }
    ensures word { IfOk result (λ event. call_word event ≡ keyword.now) }
    ensures arguments { IfOk result (λ event. call_arguments event ++ words.new ≡ decimal task ∷ decimal name ∷ words.old) }
    ensures fits { IfOk result Fits }
    ensures each { (event : AnyEvent) (behind : List (List ℕ)) → Fits event → call_word event ≡ keyword.now
        → call_arguments event ++ behind ≡ decimal task ∷ decimal name ∷ words.old → IsOkUnless result TextFault.OutOfMemory }
{
    let last = words.number()?;
    match keyword {
        "allocname" => Ok(Event::AllocateName(task, name.number(), Name::new(last))),
        "refs" => Ok(Event::GetRefs(task, name, last)),
        "rename" => Ok(Event::Rename(task, name, Name::new(last))),
        "qlimit" => Ok(Event::SetQlimit(task, name, last)),
        "mscount" => Ok(Event::SetMscount(task, name, last)),
        "seqno" => Ok(Event::SetSeqno(task, name, last)),
        "move" => Ok(Event::MoveMember(task, name, Name::new(last))),
        "insmember" => Ok(Event::InsertMember(task, name, Name::new(last))),
        "exmember" => Ok(Event::ExtractMember(task, name, Name::new(last))),
        _ => Err(TextFault::Bad),
    }
}

/// The arguments of `modrefs`: a task, a name, the number of a right, and how many references more.
fn read_modrefs(words: &mut Words<'_>) -> Result<Event, TextFault>
    ensures word { IfOk result (λ event. call_word event ≡ codes "modrefs") }
    ensures arguments { IfOk result (λ event. call_arguments event ++ words.new ≡ words.old) }
    ensures fits { IfOk result Fits }
    ensures read { (task name right : ℕ) (delta : ℤ) (behind : List (List ℕ)) → task < 2 ^ 32 → name < 2 ^ 32 → right < 2 ^ 32 → FitsDelta delta → decimal task ∷ decimal name ∷ decimal right ∷ signed_decimal delta ∷ behind ≡ words.old
        → IsRead result words.new behind }
{
    let (task, name, right) = words.task_name_and_number()?;
    Ok(Event::ModRefs(task, name, right, words.delta()?))
}

/// Reads the arguments of `notify`: a task, a name, the number of a notice, and a number that says when it is
/// sent at once. Then follow the name of the right that pays, and the number of a disposition.
fn read_notify(words: &mut Words<'_>) -> Result<Event, TextFault>
    ensures word { IfOk result (λ event. call_word event ≡ codes "notify") }
    ensures arguments { IfOk result (λ event. call_arguments event ++ words.new ≡ words.old) }
    ensures fits { IfOk result Fits }
    ensures read { (task name variant sync notify disposition : ℕ) (behind : List (List ℕ)) → task < 2 ^ 32 → name < 2 ^ 32 → variant < 2 ^ 32 → sync < 2 ^ 32 → notify < 2 ^ 32 → disposition < 2 ^ 32
        → decimal task ∷ decimal name ∷ decimal variant ∷ decimal sync ∷ decimal notify ∷ decimal disposition ∷ behind ≡ words.old
        → IsRead result words.new behind }
{
    let (task, name, variant) = words.task_name_and_number()?;
    let sync = words.number()?;
    let notify = words.name()?;
    Ok(Event::RequestNotification(task, name, variant, sync, notify, words.number()?))
}

/// The arguments of `insert`: a task, its name to be, a task with the right, its name, a disposition.
fn read_insert(words: &mut Words<'_>) -> Result<Event, TextFault>
    ensures word { IfOk result (λ event. call_word event ≡ codes "insert") }
    ensures arguments { IfOk result (λ event. call_arguments event ++ words.new ≡ words.old) }
    ensures fits { IfOk result Fits }
    ensures read { (task name from poly disposition : ℕ) (behind : List (List ℕ)) → task < 2 ^ 32 → name < 2 ^ 32 → from < 2 ^ 32 → poly < 2 ^ 32 → disposition < 2 ^ 32
        → decimal task ∷ decimal name ∷ decimal from ∷ decimal poly ∷ decimal disposition ∷ behind ≡ words.old
        → IsRead result words.new behind }
{
    let (task, name) = words.task_and_name()?;
    let (from, poly) = words.task_and_name()?;
    Ok(Event::InsertRight(task, name, from, poly, words.number()?))
}

/// The arguments of `extract`: a task with a right, its name, a disposition, and who is to have it.
fn read_extract(words: &mut Words<'_>) -> Result<Event, TextFault>
    ensures word { IfOk result (λ event. call_word event ≡ codes "extract") }
    ensures arguments { IfOk result (λ event. call_arguments event ++ words.new ≡ words.old) }
    ensures fits { IfOk result Fits }
    ensures read { (task name disposition to : ℕ) (behind : List (List ℕ)) → task < 2 ^ 32 → name < 2 ^ 32 → disposition < 2 ^ 32 → to < 2 ^ 32
        → decimal task ∷ decimal name ∷ decimal disposition ∷ decimal to ∷ behind ≡ words.old
        → IsRead result words.new behind }
{
    let (task, name, disposition) = words.task_name_and_number()?;
    Ok(Event::ExtractRight(task, name, disposition, words.task()?))
}

/// The arguments of `send`: a task and a message's bytes.
#[inline(always)]
pub(crate) fn read_send(alloc: Global, words: &mut Words<'_>) -> Result<Event, TextFault>
    ensures word { IfOk result (λ event. call_word event ≡ codes "send") }
    ensures arguments { IfOk result (λ event. call_arguments event ++ words.new ≡ words.old) }
    ensures fits { IfOk result Fits }
    ensures read { (task : ℕ) (bytes : List ℕ) (behind : List (List ℕ)) → task < 2 ^ 32 → All (λ byte. byte < 256) bytes → decimal task ∷ bytes_text bytes ∷ behind ≡ words.old
        → IsRead result words.new behind }
{
    Ok(Event::Send(words.task()?, words.bytes(alloc)?))
}

/// The arguments of `recv`: a task, a name, the room in bytes, and whether a longer message stays.
#[inline(always)]
pub(crate) fn read_recv(words: &mut Words<'_>) -> Result<Event, TextFault>
    ensures word { IfOk result (λ event. call_word event ≡ codes "recv") }
    ensures arguments { IfOk result (λ event. call_arguments event ++ words.new ≡ words.old) }
    ensures fits { IfOk result Fits }
    ensures read { (task name room : ℕ) (large : Bool) (behind : List (List ℕ)) → task < 2 ^ 32 → name < 2 ^ 32 → room < 2 ^ 32 → decimal task ∷ decimal name ∷ decimal room ∷ flag_text large ∷ behind ≡ words.old
        → IsRead result words.new behind }
{
    let (task, name, room) = words.task_name_and_number()?;
    Ok(Event::Receive(task, name, room, words.flag()?))
}

/// The arguments of `again`: a task, what it waits for, the room, and whether a longer message stays.
fn read_again(words: &mut Words<'_>) -> Result<Event, TextFault>
    ensures word { IfOk result (λ event. call_word event ≡ codes "again") }
    ensures arguments { IfOk result (λ event. call_arguments event ++ words.new ≡ words.old) }
    ensures fits { IfOk result Fits }
    ensures read { (task : ℕ) (waited : AnyWaited) (room : ℕ) (large : Bool) (behind : List (List ℕ)) → task < 2 ^ 32 → FitsWaited waited → room < 2 ^ 32 → decimal task ∷ (waited_words waited ++ decimal room ∷ flag_text large ∷ behind) ≡ words.old
        → IsRead result words.new behind }
{
    let (task, waited) = (words.task()?, words.waited()?);
    Ok(Event::ReceiveAgain(task, waited, words.number()?, words.flag()?))
}
