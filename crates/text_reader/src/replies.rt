//! Replies are read.
ghost use Rattle.std.specs.Prelude.{◌≡◌, ◌<◌, ◌^◌, List, ℕ, [], ◌∷◌, ◌++◌, All, IfOk, IsOkUnless, codes, decimal, map};
ghost use Rattle.mach_types.specs.declared.calls.Reply.{Reply as AnyReply};
ghost use Rattle.mach_types.specs.declared.calls.Status.{Status as AnyStatus};
ghost use Rattle.mach_types.specs.declared.calls.Waited.{Waited as AnyWaited};
ghost use Rattle.tracer_base.specs.Replies.{typed_name_text, status_words, reply_word, reply_arguments, reply_words, reply_text, FitsReply, FitsStatus, FitsTypedName};
ghost use Rattle.tracer_base.specs.Text.{waited_words, FitsWaited};
ghost use Rattle.tracer_base.specs.Words.{IsRead};
ghost use Rattle.text_reader.specs.Keywords.{IsNoOtherWord};

use mach_types::{Name, NameList, NameTypes, Reply, Status, TaskId};
use std::alloc::Global;
use tracer_base::{TextFault, Words};

/// The reply that the text says: the reply's keyword, and what it answers, each after one space.
///
/// `Bad` comes where the text is that of no reply, `OutOfMemory` where memory for bytes or names is
/// refused. Time and memory grow with the length of the text.
pub fn read_reply(alloc: Global, text: &[u8]) -> Result<Reply, TextFault>
    ensures ok { IfOk result (λ reply. reply_text reply ≡ text.now) }
    ensures fits { IfOk result FitsReply }
    ensures each { (reply : AnyReply) → FitsReply reply → reply_text reply ≡ text.now → IsOkUnless result TextFault.OutOfMemory }
{
    let mut words = Words::of(text);
    let reply = next_reply(alloc, &mut words)?;
    words.end()?;
    Ok(reply)
}

/// The reply that the next words say: its keyword and answer. Faults and cost are as for [`read_reply`].
pub fn next_reply(alloc: Global, words: &mut Words<'_>) -> Result<Reply, TextFault>
    ensures ok { IfOk result (λ reply. reply_words reply ++ words.new ≡ words.old) }
    ensures fits { IfOk result FitsReply }
    ensures read { (reply : AnyReply) → FitsReply reply → reply_words reply ≡ words.old → IsRead result words.new [] }
{
    let keyword = words.keyword()?;
    read_answer(alloc, keyword, words)
}

/// The reply of this keyword, with what it answers from `words`. Faults are as for [`read_reply`].
fn read_answer(alloc: Global, keyword: &str, words: &mut Words<'_>) -> Result<Reply, TextFault>
    ensures word { IfOk result (λ reply. reply_word reply ≡ keyword.now) }
    ensures arguments { IfOk result (λ reply. reply_arguments reply ++ words.new ≡ words.old) }
    ensures fits { IfOk result FitsReply }
    ensures read { (reply : AnyReply) → FitsReply reply → reply_word reply ≡ keyword.now → reply_arguments reply ≡ words.old → IsRead result words.new [] }
{
    match keyword {
        "code" => Ok(Reply::Code(words.code()?)),
        "type" => Ok(Reply::NameType(words.code()?)),
        "names" => read_names(alloc, words),
        "status" => read_status(words),
        "members" => read_members(alloc, words),
        "right" => read_right(words),
        "message" => Ok(Reply::Message(words.bytes(alloc)?)),
        "empty" => read_empty(words),
        "norecord" => Ok(Reply::NoRecord),
        _ => read_number(keyword, words),
    }
}

/// The reply of this keyword that answers one decimal number. Faults are as for [`read_reply`].
fn read_number(keyword: &str, words: &mut Words<'_>) -> Result<Reply, TextFault>
    requires { IsNoOtherWord keyword.now }
    ensures word { IfOk result (λ reply. reply_word reply ≡ keyword.now) }
    ensures arguments { IfOk result (λ reply. reply_arguments reply ++ words.new ≡ words.old) }
    ensures fits { IfOk result FitsReply }
    ensures each { (reply : AnyReply) → FitsReply reply → reply_word reply ≡ keyword.now → reply_arguments reply ≡ words.old → IsOkUnless result TextFault.OutOfMemory }
{
    let number = words.number()?;
    match keyword {
        "task" => Ok(Reply::Task(TaskId::new(number))),
        "name" => Ok(Reply::Name(Name::new(number))),
        "refs" => Ok(Reply::Refs(number)),
        "previous" => Ok(Reply::Previous(Name::new(number))),
        "toolarge" => Ok(Reply::TooLarge(number)),
        _ => Err(TextFault::Bad),
    }
}

/// What `names` answers: all words that are left, each a name with its type.
fn read_names(alloc: Global, words: &mut Words<'_>) -> Result<Reply, TextFault>
    ensures word { IfOk result (λ reply. reply_word reply ≡ codes "names") }
    ensures arguments { IfOk result (λ reply. reply_arguments reply ++ words.new ≡ words.old) }
    ensures fits { IfOk result FitsReply }
    ensures read { (names : List (ℕ × ℕ)) → All FitsTypedName names → map typed_name_text names ≡ words.old → IsRead result words.new [] }
{
    let mut names = Vec::new(alloc);
    while !words.is_empty() {
        let entry = words.typed_name()?;
        names.push(entry)?;
    }
    Ok(Reply::Names(NameTypes::from_vec(names)))
}

/// What `members` answers: all words that are left, each a name.
fn read_members(alloc: Global, words: &mut Words<'_>) -> Result<Reply, TextFault>
    ensures word { IfOk result (λ reply. reply_word reply ≡ codes "members") }
    ensures arguments { IfOk result (λ reply. reply_arguments reply ++ words.new ≡ words.old) }
    ensures fits { IfOk result FitsReply }
    ensures read { (names : List ℕ) → All (λ name. name < 2 ^ 32) names → map decimal names ≡ words.old → IsRead result words.new [] }
{
    let mut names = Vec::new(alloc);
    while !words.is_empty() {
        let name = words.name()?;
        names.push(name)?;
    }
    Ok(Reply::Members(NameList::from_vec(names)))
}

/// What `right` answers: a name and the number of a kind.
fn read_right(words: &mut Words<'_>) -> Result<Reply, TextFault>
    ensures word { IfOk result (λ reply. reply_word reply ≡ codes "right") }
    ensures arguments { IfOk result (λ reply. reply_arguments reply ++ words.new ≡ words.old) }
    ensures fits { IfOk result FitsReply }
    ensures read { (name kind : ℕ) → name < 2 ^ 32 → kind < 2 ^ 8 → decimal name ∷ decimal kind ∷ [] ≡ words.old → IsRead result words.new [] }
{
    Ok(Reply::Right(words.name()?, words.small_number()?))
}

/// What `empty` answers: what was waited for.
fn read_empty(words: &mut Words<'_>) -> Result<Reply, TextFault>
    ensures word { IfOk result (λ reply. reply_word reply ≡ codes "empty") }
    ensures arguments { IfOk result (λ reply. reply_arguments reply ++ words.new ≡ words.old) }
    ensures fits { IfOk result FitsReply }
    ensures read { (waited : AnyWaited) → FitsWaited waited → waited_words waited ≡ words.old → IsRead result words.new [] }
{
    Ok(Reply::Empty(words.waited()?))
}

/// What `status` answers: the nine numbers of a receive right's status.
fn read_status(words: &mut Words<'_>) -> Result<Reply, TextFault>
    ensures word { IfOk result (λ reply. reply_word reply ≡ codes "status") }
    ensures arguments { IfOk result (λ reply. reply_arguments reply ++ words.new ≡ words.old) }
    ensures fits { IfOk result FitsReply }
    ensures read { (status : AnyStatus) → FitsStatus status → status_words status ≡ words.old → IsRead result words.new [] }
{
    let (set, sequence, make_send) = three_numbers(words)?;
    let (limit, queued, send_once) = three_numbers(words)?;
    let (has_send, port_destroyed, no_senders) = three_numbers(words)?;
    Ok(Reply::Status(Status {
        set: Name::new(set),
        sequence,
        make_send,
        limit,
        queued,
        send_once,
        has_send,
        port_destroyed,
        no_senders,
    }))
}

/// The next three words as numbers of 32 bits.
fn three_numbers(words: &mut Words<'_>) -> Result<(u32, u32, u32), TextFault>
    ensures ok { IfOk result (λ read. decimal read.0 ∷ decimal read.1 ∷ decimal read.2 ∷ words.new ≡ words.old) }
    ensures fits { IfOk result (λ read. (read.0 < 2 ^ 32) × (read.1 < 2 ^ 32) × (read.2 < 2 ^ 32)) }
    ensures read { (a b c : ℕ) (behind : List (List ℕ)) → a < 2 ^ 32 → b < 2 ^ 32 → c < 2 ^ 32
        → decimal a ∷ decimal b ∷ decimal c ∷ behind ≡ words.old → IsRead result words.new behind }
{
    Ok((words.number()?, words.number()?, words.number()?))
}
