//! Laws of the machine: what holds after every run, whatever the events and the profile.
//!
//! Each function here does nothing: its contract is a law, and the check proves it. `headline` states the chief of
//! them at once. Whoever believes the definitions that `specs/Headline` imports, of `mach_types/specs`,
//! `mach_model/specs` and `specs/` here, need believe nothing else; `.ci/believed` lists these files.
#![tactic(auto)]

ghost use Rattle.std.specs.Prelude.{◌≡◌, ◌≢◌, ◌↔◌, ◌+◌, ◌&&◌, ◌≤◌, ℕ, Bool, true, false, List, [], Some, length, map, slice_get, Contains};
ghost use Rattle.mach_types.specs.declared.calls.Event.{Event};
ghost use Rattle.mach_types.specs.declared.calls.Reply.{Reply};
ghost use Rattle.mach_types.specs.declared.calls.Waited.{Waited};
ghost use Rattle.mach_types.specs.declared.codes.MsgReturn.TheVariants.{ReceiveBodyErrorNames};
ghost use Rattle.mach_types.specs.Codes.{msg_number};
ghost use Rattle.mach_types.specs.Tokens.{Kind, count, is_of, send, send_once, receive as receive_kind};
ghost use Rattle.mach_types.specs.Grammar.{Header, WireBody, Spells};
ghost use Rattle.mach_types.specs.Guards.{FirstIs, NoneHolds};
ghost use Rattle.mach_types.specs.Messages.{Entry};
ghost use Rattle.mach_model.specs.State.{State, Target, lookup, queue};
ghost use Rattle.mach_model.specs.Tasks.{EndsTask};
ghost use Rattle.mach_model.specs.Receive.{DestroysFront};
ghost use Rattle.mach_model.specs.Requests.{Requests};
ghost use Rattle.mach_model.specs.RequestRefusals.{notify_guards, noted_guards};
ghost use Rattle.mach_model.specs.Death.{Dies};
ghost use Rattle.mach_model.specs.Grounded.{IsClosed, IsGrounded};
ghost use Rattle.mach_model.specs.Notices.{Owed, Posted};
ghost use Rattle.mach_model.specs.Settles.{tokens_of, Settles};
ghost use Rattle.mach_model.specs.SameEnd.{IsSameEnd};
ghost use Rattle.mach_model.specs.Refusals.{Refuses, guards};
ghost use Rattle.mach_model.specs.Machine.{Done, Step, Run, RunIn, Judged};
ghost use Rattle.mach_model.specs.Acts.{Does};
ghost use Rattle.mach_model.specs.Lawful.{IsLawful};
ghost use Rattle.mach_model.specs.Midway.{MidLawful};
ghost use Rattle.mach_model.specs.Turns.{Ending, IsReached, IsDone};
ghost use Rattle.mach_model.specs.Work.{work_in, deaths, IsBounded};
ghost use Rattle.mach_laws.specs.Paths.{Stage};
ghost use Rattle.mach_laws.specs.JudgedPaths.{JudgedPath};
ghost use Rattle.mach_laws.specs.Sent.{Accepts};
ghost use Rattle.mach_laws.specs.Received.{AsksFrom, GivesWhatCame, Delivers};
ghost use Rattle.mach_laws.specs.Delivered.{DestroysTooLong};
ghost use Rattle.mach_laws.specs.Order.{InOrder};
ghost use Rattle.mach_laws.specs.Queued.{queued, unused_onces, MakesSlots, SlotsWithin};
ghost use Rattle.mach_laws.specs.Counts.{accepts, takes_from, destroyed, is_lost, once_rights, queued_by_send, MayNeedSlots};
ghost use Rattle.mach_laws.specs.Headline.{Headline};
ghost use Rattle.mach_laws.specs.AllTold.{TellsAll};
ghost use Rattle.mach_laws.specs.Meaning.{Means};
ghost use Rattle.mach_laws.specs.Looks.{IsLook, IsUnchanged};
ghost use Rattle.mach_laws.specs.Judging.{IsMemoryCode, LacksMemory, IsBySet};
ghost use Rattle.mach_laws.specs.MemoryFree.{TakesNoMemory};
ghost use Rattle.mach_laws.specs.Making.{MakesRights, DropsSends};
ghost use Rattle.mach_laws.specs.FirstMessage.{first_events, first_replies};
ghost use Rattle.mach_laws.specs.Answering.{answering_events, answering_replies};
ghost use Rattle.mach_laws.specs.Gathering.{gathering_events, gathering_replies};
ghost use Rattle.mach_laws.specs.Grouping.{grouping_events, grouping_replies};
ghost use Rattle.mach_laws.specs.Handed.{handing_events, handing_replies};
ghost use Rattle.mach_laws.specs.Naming.{naming_events, naming_replies};
ghost use Rattle.mach_laws.specs.Tagging.{tagging_events, tagging_replies};
ghost use Rattle.mach_laws.specs.Telling.{telling_events, telling_replies};
ghost use Rattle.mach_laws.specs.Destroying.{destroying_events, destroying_replies};
ghost use Rattle.mach_laws.specs.Dying.{dying_events, dying_replies};
ghost use Rattle.mach_laws.specs.Unanswered.{unanswered_events, unanswered_replies};
ghost use Rattle.mach_laws.specs.Senderless.{senderless_events, senderless_replies};
ghost use Rattle.mach_laws.specs.Deleting.{deleting_events, deleting_replies};
ghost use Rattle.mach_laws.specs.SendingAway.{sending_away_events, sending_away_replies};
ghost use Rattle.mach_types.specs.declared.profiles.Profile.{Profile};
ghost use Rattle.mach_types.specs.declared.profiles.Profile.TheVariants.{Two};

/// What a run promises, in one statement. Its stages do what the machine may do, and their codes and replies
/// are judged right, so that they are a run. Each message that is received was sent before, or is a notice
/// that was due before. It means what it meant then, except that rights for ports that are dead by now are
/// dead. It is the message that its stage takes from the front of its port. Each port's messages are taken in
/// the order in which they came. Each live port has exactly one receive right.
pub fn headline()
    ensures { (profile : Profile) (events : List Event) (replies : List Reply) (s : State) → RunIn profile events replies s →
        (h : Headline profile events replies s) × JudgedPath profile h.stages s }
{}

/// Every run leads to a lawful state: rights, names, logs and places agree.
pub fn every_run_is_lawful()
    ensures { (profile : Profile) (events : List Event) (replies : List Reply) (s : State) → RunIn profile events replies s → IsLawful s }
{}

/// After every run each live port has exactly one receive right, over all tasks and all messages.
pub fn one_receive_right()
    ensures { (profile : Profile) (events : List Event) (replies : List Reply) (s : State) → RunIn profile events replies s →
        (p : ℕ) → s.live_port p ≡ true → count (is_of receive_kind p) s.ledger ≡ 1 }
{}

/// After every run each live port is grounded. Follow from it to the port whose queue carries its receive
/// right, and so on: this ends at a task. So receive rights never close a loop in queues.
pub fn every_port_is_grounded()
    ensures { (profile : Profile) (events : List Event) (replies : List Reply) (s : State) → RunIn profile events replies s →
        (p : ℕ) → s.live_port p ≡ true → IsGrounded s p }
{}

/// In a step exactly those ports die that must. They are the least set that holds two kinds of ports: each
/// whose receive right the step's own part took and gave to none, and each carried by a message that is
/// queued at a member. Ports that are sent away are excepted.
pub fn exactly_these_die()
    ensures closed { (mid : State) → IsClosed mid (Dies mid) }
    ensures least { (mid : State) (set : ℕ → Bool) → IsClosed mid (λ q. set q ≡ true) → (p : ℕ) → Dies mid p → set p ≡ true }
    ensures exact { (now : ℕ) (old : State) (event : Event) (reply : Reply) (new : State) → (d : Done now old event reply new) →
        (p : ℕ) → d.mid.live_port p ≡ true → (new.live_port p ≡ false) ↔ Dies d.mid p }
{}

/// After every run the end of a step is fixed by what its own part left. It fixes which ports live, which
/// requests stand, what names stand for and where each right is. It fixes which notices are sent to which
/// ports, and how often. Only the order of the notices is free.
pub fn ends_are_fixed()
    ensures { (profile : Profile) (events : List Event) (replies : List Reply) (s : State) → RunIn profile events replies s →
        (event : Event) (reply : Reply) (a b : State) → (x : Done (length events) s event reply a) → (y : Settles (length events) s x.mid x.owed b) →
        IsSameEnd a b x.settles.notices.posted y.notices.posted }
{}

/// After every run each notice that is due in a step is appended once to its port's log, and nothing else is.
/// No notice that is due is dropped, and none is sent twice.
pub fn each_notice_is_told_once()
    ensures { (profile : Profile) (events : List Event) (replies : List Reply) (s : State) → RunIn profile events replies s →
        (event : Event) (reply : Reply) (new : State) → (done : Done (length events) s event reply new) →
        TellsAll (length events) s event reply new done }
{}

/// After every run the end of a step makes and loses no send-once right of a live port. There are as many as
/// the step's own part left, together with those whose loss it left to be told. So no reply right is lost
/// without a notice, wherever it was: the queues of ports that die are no exception.
pub fn no_answer_is_lost()
    ensures { (profile : Profile) (events : List Event) (replies : List Reply) (s : State) → RunIn profile events replies s →
        (event : Event) (reply : Reply) (new : State) → (done : Done (length events) s event reply new) → (p : ℕ) → new.live_port p ≡ true →
        count (is_of send_once p) new.ledger ≡ count (is_of send_once p) done.mid.ledger + count (is_of send_once p) (tokens_of done.owed) }
{}

/// After every run the end of a step makes no send right of a live port. It takes away only those that were
/// in messages of ports that are dead now.
pub fn no_sender_appears()
    ensures { (profile : Profile) (events : List Event) (replies : List Reply) (s : State) → RunIn profile events replies s →
        (event : Event) (reply : Reply) (new : State) → (done : Done (length events) s event reply new) → (p : ℕ) → new.live_port p ≡ true →
        count (is_of send p) done.mid.ledger ≡ count (is_of send p) new.ledger + count (λ x. is_of send p x && is_lost new x) done.mid.ledger }
{}

/// The end of a step can be made in turns. A turn judges a port, destroys a message, loses a right, or has
/// the right of a request that ends pay for its notice. A chain of turns with nothing left to do has reached
/// an end of the step, and that end is lawful. It has at most one turn for each port that died or was sent
/// away, each message that waited at a port that died, each right lost in such a message, and each right of a
/// request that ended. It has at least one turn for each port that died.
pub fn turns_end_a_step()
    ensures { (now : ℕ) (old mid : State) (owed : Owed) (ending : Ending) → MidLawful mid owed → IsReached old mid owed ending → IsDone old mid ending →
        (new : State) × Settles now old mid owed new × IsLawful new × IsBounded mid owed new ending.turns × deaths mid new ≤ ending.turns }
{}

/// After every run the end of a step takes no more turns than there were rights, live ports and messages
/// queued at them, together, before the step. The step's own part ends no port: a port that dies in a step
/// dies at its end.
pub fn turns_are_work()
    ensures most { (profile : Profile) (events : List Event) (replies : List Reply) (s : State) → RunIn profile events replies s →
        (event : Event) (reply : Reply) (new : State) → (done : Done (length events) s event reply new) →
        (turns : ℕ) → IsBounded done.mid done.owed new turns → turns ≤ work_in s }
    ensures least { (profile : Profile) (events : List Event) (replies : List Reply) (s : State) → RunIn profile events replies s →
        (event : Event) (reply : Reply) (new : State) → (done : Done (length events) s event reply new) → deaths s new ≤ deaths done.mid new }
{}

/// After every run, whatever an event may do can be made a step.
pub fn every_step_can_end()
    ensures { (profile : Profile) (events : List Event) (replies : List Reply) (s : State) → RunIn profile events replies s →
        (event : Event) (reply : Reply) (mid : State) (owed : Owed) → NoneHolds (guards s event) →
        (does : Does (length events) s event reply mid owed) → Judged (length events) s event reply mid owed does →
        (new : State) × Step (length events) s event reply new }
{}

/// After every run, this holds where a task ends, where a message too long for its receiver is destroyed, and
/// where a request is made or taken away. What is true midway is enough for the end of a step. An end exists,
/// and each end is lawful.
pub fn parts_can_end()
    ensures task { (profile : Profile) (events : List Event) (replies : List Reply) (s : State) → RunIn profile events replies s →
        (task : ℕ) (mid : State) (owed : Owed) → EndsTask task s mid owed → MidLawful mid owed }
    ensures message { (profile : Profile) (events : List Event) (replies : List Reply) (s : State) → RunIn profile events replies s →
        (port : ℕ) (e : Entry) (mid : State) (owed : Owed) → s.live_port port ≡ true → DestroysFront port e s mid owed → MidLawful mid owed }
    ensures request { (profile : Profile) (events : List Event) (replies : List Reply) (s : State) → RunIn profile events replies s →
        (task name variant sync notify number previous : ℕ) (mid : State) (owed : Owed) → s.live_task task ≡ true →
        NoneHolds (notify_guards s task name variant sync notify number) →
        (made : Requests task name variant sync notify number previous s mid owed) →
        NoneHolds (noted_guards s made.copied task name variant sync notify) → MidLawful mid owed }
    ensures ends { (now : ℕ) (old mid : State) (owed : Owed) → MidLawful mid owed → (new : State) × Settles now old mid owed new }
    ensures lawful { (now : ℕ) (old mid : State) (owed : Owed) (new : State) → MidLawful mid owed → Settles now old mid owed new → IsLawful new }
{}

/// After every run a send that returns 0 appends one message. That message is what its bytes mean through the
/// sender's names before the send (IPC Interface, `mach_msg`).
pub fn sent_messages_mean()
    ensures { (profile : Profile) (events : List Event) (replies : List Reply) (s : State) → RunIn profile events replies s →
        (task : ℕ) (bytes : List ℕ) (new : State) → Step (length events) s (Event.Send task bytes) (Reply.Code 0) new →
        Accepts (length events) task bytes s new }
{}

/// After every run an event that returns bytes takes one message. It is the front message of a port that the
/// receiver asked for by a name, or by what it waited for. The bytes mean it through the receiver's names
/// after the receive (IPC Interface, `mach_msg`).
pub fn received_messages_mean()
    ensures { (profile : Profile) (events : List Event) (replies : List Reply) (s : State) → RunIn profile events replies s →
        (event : Event) (bytes : List ℕ) (new : State) → Step (length events) s event (Reply.Message bytes) new →
        Delivers event bytes s new }
{}

/// Runs are paths: each run has its stages, and stages that fit together are a run.
pub fn runs_are_paths()
    ensures stages { (profile : Profile) (events : List Event) (replies : List Reply) (s : State) → RunIn profile events replies s →
        (path : List Stage) × JudgedPath profile path s × (map (λ x. x.event) path ≡ events) × (map (λ x. x.reply) path ≡ replies) }
    ensures run { (profile : Profile) (path : List Stage) (s : State) → JudgedPath profile path s → RunIn profile (map (λ x. x.event) path) (map (λ x. x.reply) path) s }
{}

/// In every run each message that is received is one that was sent, or a notice that was due in an earlier
/// step. A sent message means what the sender's bytes meant through the sender's names before the send. The
/// received bytes mean it through the receiver's names after the receive, except that rights for ports that
/// are dead by then are dead. The message is in front of its port before the receive, which takes it and no
/// other.
pub fn received_means_what_was_sent_or_told()
    ensures { (profile : Profile) (path : List Stage) (s : State) → JudgedPath profile path s →
        (k : ℕ) (bytes : List ℕ) (x : Stage) → slice_get path k ≡ Some x → x.reply ≡ Reply.Message bytes →
        GivesWhatCame path k bytes x }
{}

/// In every run, for each port: list what was received from it or destroyed as too long, and then what is
/// queued. This is the list of what was accepted for the port or told to it, each message once and in the
/// same order.
pub fn order()
    ensures { (profile : Profile) (path : List Stage) (s : State) → JudgedPath profile path s → (p : ℕ) → InOrder p path s }
{}

/// After every run the next step's own part queues one message if it accepts a send. It takes one if it gives
/// one to a receiver or destroys one as too long. A step's end queues each notice that it sends, and destroys
/// what is queued at the ports that die.
pub fn queued_messages()
    ensures part { (profile : Profile) (events : List Event) (replies : List Reply) (s : State) → RunIn profile events replies s →
        (event : Event) → NoneHolds (guards s event) → (reply : Reply) (mid : State) (owed : Owed) →
        (does : Does (length events) s event reply mid owed) → Judged (length events) s event reply mid owed does →
        queued mid + takes_from event reply ≡ queued s + accepts event reply }
    ensures ending { (now : ℕ) (old mid : State) (owed : Owed) (new : State) → MidLawful mid owed → (x : Settles now old mid owed new) →
        queued new + destroyed mid new ≡ queued mid + length x.notices.posted }
{}

/// After every run two sums are equal. One is the queued messages and the unused send-once rights. The other
/// is all send-once rights and the queued messages that were sent to send rights. At the end of a step the
/// sum is no more than its own part left, with the rights that it owes a notice. A notice takes the place of
/// the right that pays for it, so no message slot is made where ports die.
pub fn slots_that_are_needed()
    ensures needed { (profile : Profile) (events : List Event) (replies : List Reply) (s : State) → RunIn profile events replies s →
        queued s + unused_onces s ≡ once_rights s + queued_by_send s }
    ensures midway { (mid : State) (owed : Owed) → MidLawful mid owed → queued mid + unused_onces mid ≡ once_rights mid + queued_by_send mid }
    ensures ending { (now : ℕ) (old mid : State) (owed : Owed) (new : State) → MidLawful mid owed → Settles now old mid owed new →
        queued new + unused_onces new ≤ queued mid + unused_onces mid + length owed }
{}

/// After every run most calls need no more slots than were needed before, whatever dies and whatever is told
/// in the step. Only four calls may need more: a send, the two that hand a right to another task, and the
/// request for a notice.
pub fn few_calls_need_slots()
    ensures { (profile : Profile) (events : List Event) (replies : List Reply) (s : State) → RunIn profile events replies s →
        (event : Event) (reply : Reply) (new : State) → Step (length events) s event reply new → ¬ (MayNeedSlots event) →
        queued new + unused_onces new ≤ queued s + unused_onces s }
{}

/// A kernel may make message slots only as a step's end needs them: one for each queued message and one for
/// each unused send-once right. In every run such a kernel never has more slots than were needed at once.
pub fn slots_are_bounded()
    ensures { (profile : Profile) (path : List Stage) (s : State) → JudgedPath profile path s → (spares : List ℕ) (last : ℕ) → MakesSlots 0 path spares last → SlotsWithin last path s }
{}

/// A call that returns another code than 0 changes nothing.
pub fn refusals_change_nothing()
    ensures { (now : ℕ) (old new : State) (event : Event) (code : ℕ) → Step now old event (Reply.Code code) new → code ≢ 0 → new ≡ old }
{}

/// After every run a reply that only tells changes nothing. Such are names, references, types and status that
/// were asked for, that there is no message, and that a message is too long and stays.
pub fn looks_change_nothing()
    ensures { (profile : Profile) (events : List Event) (replies : List Reply) (s : State) → RunIn profile events replies s →
        (event : Event) (reply : Reply) (new : State) → Step (length events) s event reply new → IsLook event reply → IsUnchanged s new }
{}

/// A receive may return that a message is too long without having asked that it stay. It then destroys that
/// one message, the front message of a port that it asked for, and no other.
pub fn too_long_is_destroyed()
    ensures { (now : ℕ) (old : State) (event : Event) (n : ℕ) (new : State) → Step now old event (Reply.TooLarge n) new →
        ¬ (IsLook event (Reply.TooLarge n)) → DestroysTooLong event n old new }
{}

/// After every run a refusal and a success exclude each other: what refuses an event leaves it no other
/// reply, except out of memory. One refusal of a receive by a set is excepted, that the task lacks names:
/// another member's message may need none. The code of a send that is out of memory is also its code at the
/// limit of rights, and is excepted there too.
pub fn refused_or_done()
    ensures { (profile : Profile) (events : List Event) (replies : List Reply) (s : State) → RunIn profile events replies s →
        (event : Event) (code : ℕ) → Refuses s event code → ¬ (IsMemoryCode code) → (IsBySet s event → code ≢ msg_number ReceiveBodyErrorNames) →
        (reply : Reply) (new : State) → ¬ (Done (length events) s event reply new) }
{}

/// After every run an event has one reply. Two cases are excepted: out of memory, and a receive by a set,
/// which may take from any ready member.
pub fn one_answer()
    ensures { (profile : Profile) (events : List Event) (replies : List Reply) (s : State) → RunIn profile events replies s →
        (event : Event) (a b : Reply) (new other : State) → Step (length events) s event a new → Step (length events) s event b other →
        ¬ (LacksMemory a) → ¬ (LacksMemory b) → ¬ (IsBySet s event) → a ≡ b }
{}

/// A message to a send-once right is never refused because the queue is full (`MACH_SEND_TIMED_OUT`). Only a
/// message to a send right is.
pub fn once_is_never_full()
    ensures { (now : ℕ) (old new : State) (task : ℕ) (bytes : List ℕ) → Step now old (Event.Send task bytes) (Reply.Code 0x10000004) new →
        (header : Header) (written : WireBody) → Spells bytes header written → (header.remote_kind ≢ 18) × (header.remote_kind ≢ 21) }
{}

/// A receive by a port's name returns that there is no message only where none is queued. A receive by a
/// set's name, or a later try, returns this only where none is queued at any port that it may take from.
pub fn empty_means_empty()
    ensures named { (now : ℕ) (old new : State) (task name room : ℕ) (large : Bool) (told : Waited) →
        Step now old (Event.Receive task name room large) (Reply.Empty told) new →
        (p : ℕ) → lookup old task name ≡ Some (Target.port p) → queue old p ≡ [] }
    ensures asked { (now : ℕ) (s : State) (event : Event) (told : Waited) (new : State) → Step now s event (Reply.Empty told) new →
        (task p : ℕ) → AsksFrom s event task p → queue s p ≡ [] }
{}

/// The laws aren't empty: a task that makes a port, sends a message to it and receives it is a run.
pub fn first_message()
    ensures { (s : State) × Run first_events first_replies s }
{}

/// A run with rights in messages. A task sends a reply right, receives it under a fresh name and replies to
/// it. Afterwards the name is unused.
pub fn answered_message()
    ensures { (s : State) × Run answering_events answering_replies s }
{}

/// A run in which rights are handed from task to task, by name and in a message's body. Send rights for one
/// port gather under one name, and its references count them.
pub fn gathered_references()
    ensures { (s : State) × Run gathering_events gathering_replies s }
{}

/// A run in which a receive right is handed on. It comes under the name that the other task has for the port,
/// and the name that it came from is unused.
pub fn handed_receive_right()
    ensures { (s : State) × Run handing_events handing_replies s }
{}

/// A run of names alone. A dead name is made, counted up, renamed, counted down, listed and destroyed. No
/// other thing comes under its number meanwhile.
pub fn renamed_dead_name()
    ensures { (s : State) × Run naming_events naming_replies s }
{}

/// A run with names that have a generation, in the second profile. A name that was given up comes back as
/// another name. An index stays in use as long as one of its names does.
pub fn tagged_name()
    ensures { (s : State) × RunIn Two tagging_events tagging_replies s }
{}

/// A run with port sets. What was sent to a member is received by the set, and not by the port. Once the set
/// is gone, a later try by it says so, and the port is in no set.
pub fn grouped_port()
    ensures { (s : State) × Run grouping_events grouping_replies s }
{}

/// A run with notices. A send-once right that is lost unused causes one. A request about a port that has no
/// senders already causes one at once. So does a request about a name that is dead already, and the name gets
/// one reference more.
pub fn told_at_once()
    ensures { (s : State) × Run telling_events telling_replies s }
{}

/// A run with messages that are too long. One stays, as its receiver asks for that. Without that it is
/// destroyed, and then there is none.
pub fn destroyed_message()
    ensures { (s : State) × Run destroying_events destroying_replies s }
{}

/// A run in which a port dies. The task that asked for a notice about a name of the port gets it. The name is
/// then a dead name, with one reference more.
pub fn told_of_death()
    ensures { (s : State) × Run dying_events dying_replies s }
{}

/// A run in which a message is queued at a port that dies. The message carries a reply right, and the task
/// that waits for the reply gets a notice that the right goes unused.
pub fn message_of_dead_port()
    ensures { (s : State) × Run unanswered_events unanswered_replies s }
{}

/// A run in which such a message carries the last send right of a live port. The task that asked for it gets
/// a notice that this port has no senders. It comes once the right is lost, and not while the right is in the
/// queue.
pub fn told_of_no_senders()
    ensures { (s : State) × Run senderless_events senderless_replies s }
{}

/// A run in which a task ends. The task that asked for a notice about one of its names gets one, that the
/// name is deleted. It gets none that the name died, though its port dies with the task.
pub fn deleted_name()
    ensures { (s : State) × Run deleting_events deleting_replies s }
{}

/// A run in which a port of a task that ends lives, since that was asked for. Its receive right comes in a
/// notice, while the task's other port dies.
pub fn port_sent_away()
    ensures { (s : State) × Run sending_away_events sending_away_replies s }
{}

/// An event that takes no memory never runs out of it. Its refusal is the code of the first guard that holds
/// in the state before, and that is no memory code. No step replies with such a code. Where no guard holds,
/// the event is done.
pub fn never_lacks()
    ensures refused { (s : State) (event : Event) (code : ℕ) → TakesNoMemory event → Refuses s event code →
        FirstIs (guards s event) code × ¬ (IsMemoryCode code) }
    ensures reply { (now : ℕ) (s : State) (event : Event) (reply : Reply) (new : State) → TakesNoMemory event → Step now s event reply new →
        ¬ (LacksMemory reply) }
    ensures done { (now : ℕ) (s : State) (event : Event) (reply : Reply) (new : State) → TakesNoMemory event → NoneHolds (guards s event) →
        Step now s event reply new → Done now s event reply new }
{}

/// After every run each notice that a step posts is true. What it says happened in that step, to the task
/// that asked for it. Its notify port lives after the step.
pub fn notice_means()
    ensures { (profile : Profile) (events : List Event) (replies : List Reply) (s : State) → RunIn profile events replies s →
        (event : Event) (reply : Reply) (new : State) → (done : Done (length events) s event reply new) →
        (x : Posted) → Contains done.settles.notices.posted x →
        (new.live_port x.port ≡ true) × Means s event done.mid new x.port x.entry x.notice }
{}

/// After every run only these events make rights, and no more of them. A receive right is made where a port
/// is allocated. Send rights are made where `ModRefs` adds them. A send, a transfer or a request for a notice
/// makes the right of each `COPY_SEND`, `MAKE_SEND` and `MAKE_SEND_ONCE`.
pub fn rights_are_made_by_these()
    ensures { (profile : Profile) (events : List Event) (replies : List Reply) (s : State) → RunIn profile events replies s →
        (event : Event) (reply : Reply) (new : State) → Done (length events) s event reply new → (kind : Kind) (p : ℕ) →
        (n : ℕ) × MakesRights s event kind p n × (count (is_of kind p) new.ledger ≤ count (is_of kind p) s.ledger + n) }
{}

/// After every run a send-once right of a live port leaves only with a message that is taken from that port.
/// A send right of a live port leaves only by an event that drops it, or with a message of a port that died.
/// (Its receive right stays: `one_receive_right`.)
pub fn rights_leave_by_these()
    ensures once { (profile : Profile) (events : List Event) (replies : List Reply) (s : State) → RunIn profile events replies s →
        (event : Event) (reply : Reply) (new : State) → Done (length events) s event reply new → (p : ℕ) → new.live_port p ≡ true →
        count (is_of send_once p) s.ledger + s.taken p ≤ count (is_of send_once p) new.ledger + new.taken p }
    ensures send { (profile : Profile) (events : List Event) (replies : List Reply) (s : State) → RunIn profile events replies s →
        (event : Event) (reply : Reply) (new : State) → Done (length events) s event reply new → (p : ℕ) → new.live_port p ≡ true →
        (n : ℕ) × DropsSends s event new p n ×
        (count (is_of send p) s.ledger ≤ count (is_of send p) new.ledger + n + count (λ x. is_of send p x && is_lost new x) s.ledger) }
{}
