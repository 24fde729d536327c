//! Scripts, run on one shared kernel.
ghost use Rattle.std.specs.Prelude.{◌≡◌, ◌≢◌, ◌≤◌, ◌++◌, [], List, All, ℕ, length, map, IfOk, OnOk, flat_map};
ghost use Rattle.std.specs.Io.KnownBytes.{Appends};
ghost use Rattle.mach_types.specs.declared.calls.Reply.{Reply as AnyReply};
ghost use Rattle.kernel_lock.specs.History.{Known, Stepped, calls_by};
ghost use Rattle.mach_msg_threads.specs.declared.block.Answer.{Answer as AnyAnswer};
ghost use Rattle.mach_msg_threads.specs.Blocks.{Answered};
ghost use Rattle.tracer_base.specs.Blocks.{thread_line};
ghost use Rattle.tracer_base.specs.Replies.{reply_line};
ghost use Rattle.mach_run_base.specs.Callers.{SeesAll, IsRecorded};
ghost use Rattle.mach_run_base.specs.Enrolling.{AreEnrolled, IsReady, pass_of};
ghost use Rattle.mach_run_base.specs.Output.{AreReplies, AreAnswers, AreBlocks, IsAnswered, answer_line, block_texts};

use crate::fault::Fault;
use crate::script::{Script, ThreadCalls};
use kernel_lock::{Held, Pass, Shared};
use mach_msg_threads::{Answer, Block, BlockGate, Call, Gate, Hall, make_call, run_blocks, tell};
use mach_types::{Event, Reply};
use std::alloc::{AllocError, Global};
use std::io::Write;
use std::sync::Wait;
use std::thread;
use std::thread::Threads;
use tracer_base::{write_outcome_line, write_reply_line, write_thread_line};

/// A block's pass, and how its calls were answered.
pub(crate) type RanBlock = (Pass, Vec<Answer>);

/// The passes of a script's callers when all of its calls were made.
#[derive(Drop)]
pub(crate) struct Callers {
    /// The main thread's.
    pub main: Pass,
    /// Each block's, with how its calls were answered, in the order of the script.
    pub blocks: Vec<RanBlock>,
}

/// Runs the script on the kernel, on which nothing was made yet, and writes how its calls were answered.
///
/// The main thread makes the calls ahead of the first block, and each answer is written as it comes. Then each
/// block makes its calls in a thread of its own; when all have ended, each block's number and answers
/// are written, in the order of the script. The main thread is caller 0, and the blocks are callers 1, 2 and so on.
///
/// Faults are `CannotWrite`, `CannotStartThread` and `OutOfMemory`, which also ends a script of which a call wasn't
/// recorded: the main thread makes no call behind it. The calls that were made by then stand in the history.
pub(crate) fn run_script<R: Threads + Wait + Sync, W: Write>(
    rt: &R,
    alloc: Global,
    shared: &Shared,
    script: Script,
    out: &mut W,
) -> Result<Callers, Fault<'static>>
    ensures tied { IfOk result (λ callers. (callers.main.table ≡ shared.now.table) × All (λ one. one.0.table ≡ shared.now.table) callers.blocks.items) }
    ensures answered { IfOk result (λ callers. (text : List ℕ) × IsAnswered shared.now.profile script text callers.main (map pass_of callers.blocks.items)
        × Appends (W.contents out.old) (W.contents out.new) text) }
{
    let Script {
        opening,
        main,
        blocks,
    } = script;
    let hall = Hall::new(alloc);
    let mut gate = hall.enter(rt, alloc)?;
    let mut held = with_passes(rt, shared, 0);
    let mut pass = held.pass(shared.board())?;
    let enrolled = enroll(alloc, shared, &mut held, blocks)?;
    run_opening(held, shared, &mut pass, &mut gate, opening, out)?;
    run_calls(rt, alloc, shared, &mut pass, &mut gate, main, out)?;
    drop(gate);
    let ran = run_threads(rt, alloc, shared, &hall, &mut pass, enrolled, out)?;
    Ok(Callers {
        main: pass,
        blocks: ran,
    })
}

/// The kernel when so many passes were made: at once, where nobody else makes any. No other caller has made a call.
pub(crate) fn with_passes<'a, R: Wait>(rt: &R, shared: &'a Shared, count: u64) -> Held<'a>
    ensures tied { result.kernel.table ≡ shared.entry.now.table }
    ensures profile { result.kernel.profile ≡ shared.entry.now.profile }
    ensures keeps { result.kernel.keeps ≡ shared.entry.now.keeps }
    ensures count { result.kernel.passes ≡ count }
    ensures others { (c : ℕ) → count ≤ c → calls_by c result.kernel.log ≡ [] }
{
    for _ in rt.forever() {
        let held = shared.lock(rt);
        if held.passes() == count {
            return held;
        }
        drop(held);
        thread::yield_now();
    }
    unreachable!()
}

/// A block with a pass of its own.
#[derive(Drop)]
struct Enrolled {
    number: u32,
    pass: Pass,
    calls: Vec<Call>,
}

/// Each block with a new pass. They are the next callers, in the order of the script.
fn enroll(
    alloc: Global,
    shared: &Shared,
    held: &mut Held<'_>,
    blocks: Vec<ThreadCalls>,
) -> Result<Vec<Enrolled>, AllocError>
    requires { held.old.kernel.table ≡ shared.now.table }
    ensures same { (held.new.kernel.table ≡ shared.now.table) × (held.new.kernel.log ≡ held.old.kernel.log) }
    ensures tied { IfOk result (λ all. All (λ one. one.pass.table ≡ shared.now.table) all.items) }
    ensures enrolled { IfOk result (λ all. AreEnrolled held.old.kernel.passes blocks.items all.items) }
{
    let mut all = Vec::with_capacity(alloc, blocks.len())?;
    for block in blocks {
        let ThreadCalls { number, calls } = block;
        let pass = held.pass(shared.board())?;
        all.push(Enrolled {
            number,
            pass,
            calls,
        })?;
    }
    Ok(all)
}

/// Makes calls in turn with the kernel in hand, and writes their replies, one a line.
fn run_opening<G: Gate, W: Write>(
    mut held: Held<'_>,
    shared: &Shared,
    pass: &mut Pass,
    gate: &mut G,
    calls: Vec<Event>,
    out: &mut W,
) -> Result<(), Fault<'static>>
    requires tied { (held.kernel.table ≡ shared.now.table) × (pass.old.table ≡ shared.now.table) }
    requires empty { (held.kernel.log ≡ []) × (pass.old.seen ≡ []) }
    ensures tied { pass.new.table ≡ shared.now.table }
    ensures answered { OnOk result ((text : List ℕ) × AreReplies pass.old calls.items text pass.new × Appends (W.contents out.old) (W.contents out.new) text) }
{
    for event in calls {
        run_event(&mut held, shared, pass, gate, event, out)?;
    }
    Ok(())
}

/// Makes one call with the kernel in hand, and writes its reply.
fn run_event<G: Gate, W: Write>(
    held: &mut Held<'_>,
    shared: &Shared,
    pass: &mut Pass,
    gate: &mut G,
    event: Event,
    out: &mut W,
) -> Result<(), Fault<'static>>
    requires { (held.old.kernel.table ≡ shared.now.table) × (pass.old.table ≡ shared.now.table) }
    ensures tied { (held.new.kernel.table ≡ shared.now.table) × (pass.new.table ≡ shared.now.table) }
    ensures made { OnOk result ((reply : AnyReply) × Stepped held.old.kernel.log held.new.kernel.log pass.old pass.new event reply × (reply ≢ AnyReply.NoRecord)
        × Appends (W.contents out.old) (W.contents out.new) (reply_line reply)) }
{
    let reply = held.step_locked(shared.board(), pass, event);
    tell(gate, &reply, &pass.touched());
    write_reply(&reply, out)
}

/// Makes calls in turn, of which those for messages may wait, and writes how they were answered, one a line.
fn run_calls<G: Gate, R: Wait, W: Write>(
    rt: &R,
    alloc: Global,
    shared: &Shared,
    pass: &mut Pass,
    gate: &mut G,
    calls: Vec<Call>,
    out: &mut W,
) -> Result<(), Fault<'static>>
    requires { pass.old.table ≡ shared.now.table }
    ensures tied { pass.new.table ≡ shared.now.table }
    ensures answered { OnOk result ((text : List ℕ) × AreAnswers pass.old calls.items text pass.new × Appends (W.contents out.old) (W.contents out.new) text) }
{
    for call in calls {
        run_call(rt, alloc, shared, pass, gate, call, out)?;
    }
    Ok(())
}

/// Makes one call, and writes how it was answered.
fn run_call<G: Gate, R: Wait, W: Write>(
    rt: &R,
    alloc: Global,
    shared: &Shared,
    pass: &mut Pass,
    gate: &mut G,
    call: Call,
    out: &mut W,
) -> Result<(), Fault<'static>>
    requires { pass.old.table ≡ shared.now.table }
    ensures tied { pass.new.table ≡ shared.now.table }
    ensures made { OnOk result ((answer : AnyAnswer) × Answered call pass.old answer pass.new × IsRecorded answer × Appends (W.contents out.old) (W.contents out.new) (answer_line answer)) }
{
    let answer = make_call(rt, alloc, shared, pass, gate, call)?;
    write_answer(&answer, out)
}

/// Runs each block in a thread of its own, and then writes their numbers and answers. The main thread's pass has seen
/// the whole history by then, and each block's begins with it.
fn run_threads<R: Threads + Wait + Sync, W: Write>(
    rt: &R,
    alloc: Global,
    shared: &Shared,
    hall: &Hall,
    main: &mut Pass,
    blocks: Vec<Enrolled>,
    out: &mut W,
) -> Result<Vec<RanBlock>, Fault<'static>>
    requires tied { (main.old.table ≡ shared.now.table) × All (λ one. one.pass.table ≡ shared.now.table) blocks.items }
    ensures tied { IfOk result (λ ran. (main.new.table ≡ shared.now.table) × All (λ one. one.0.table ≡ shared.now.table) ran.items) }
    ensures main { IfOk result (λ ran. SeesAll main.old main.new.seen × (main.new.caller ≡ main.old.caller)) }
    ensures ran { (c : ℕ) (given : List ThreadCalls) → AreEnrolled c given blocks.items → IfOk result (λ ran. (text : List ℕ) × AreBlocks shared.now.profile main.new.seen c given text (map pass_of ran.items)
        × Appends (W.contents out.old) (W.contents out.new) text) }
{
    let mut numbers = Vec::with_capacity(alloc, blocks.len())?;
    let mut ready = Vec::with_capacity(alloc, blocks.len())?;
    let mut held = shared.lock(rt);
    held.show(shared.board(), main);
    for block in blocks {
        numbers.push(block.number)?;
        ready.push(prepare(rt, alloc, shared, hall, &mut held, block)?)?;
    }
    drop(held);
    let ran = run_blocks(rt, alloc, shared, ready)?;
    write_blocks(numbers.as_slice(), ran.as_slice(), out)?;
    Ok(ran)
}

/// The block with a gate of its own. Its pass has seen the whole history.
fn prepare<'a, R: Wait>(
    rt: &'a R,
    alloc: Global,
    shared: &Shared,
    hall: &'a Hall,
    held: &mut Held<'_>,
    block: Enrolled,
) -> Result<Block<BlockGate<'a, R>>, AllocError>
    requires { (held.old.kernel.table ≡ shared.now.table) × (block.pass.table ≡ shared.now.table) }
    ensures same { held.new.kernel ≡ held.old.kernel }
    ensures tied { IfOk result (λ ready. ready.pass.table ≡ shared.now.table) }
    ensures ready { IfOk result (λ ready. IsReady held.old.kernel.profile held.old.kernel.log block ready.pass ready.calls.items) }
{
    let mut pass = block.pass;
    let calls = block.calls;
    held.show(shared.board(), &mut pass);
    let gate = hall.enter(rt, alloc)?;
    Ok(Block { pass, calls, gate })
}

/// Makes the passes of blocks see the whole history, to which none of their callers adds more.
pub(crate) fn show_all(shared: &Shared, held: &mut Held<'_>, blocks: Vec<RanBlock>)
    requires { (held.old.kernel.table ≡ shared.now.table) × All (λ one. one.0.table ≡ shared.now.table) blocks.items }
    ensures same { held.new.kernel ≡ held.old.kernel }
    ensures all { All (λ one. SeesAll one.0 held.old.kernel.log) blocks.items }
{
    for block in blocks {
        let mut pass = block.0;
        held.show(shared.board(), &mut pass);
    }
}

/// Writes each block's number, and how its calls were answered, one block after another.
fn write_blocks<W: Write>(
    numbers: &[u32],
    ran: &[RanBlock],
    out: &mut W,
) -> Result<(), Fault<'static>>
    requires { length numbers.now ≡ length ran.now }
    ensures written { OnOk result (Appends (W.contents out.old) (W.contents out.new) (block_texts (λ one. one.1.items) numbers.now ran.now)) }
    ensures recorded { OnOk result (All (λ one. All IsRecorded one.1.items) ran.now) }
{
    for (place, one) in ran.iter().enumerate() {
        write_block(numbers[place], one.1.as_slice(), out)?;
    }
    Ok(())
}

/// Writes a block's number, and how its calls were answered, one a line.
fn write_block<W: Write>(number: u32, answers: &[Answer], out: &mut W) -> Result<(), Fault<'static>>
    ensures written { OnOk result (Appends (W.contents out.old) (W.contents out.new) (thread_line number ++ flat_map answer_line answers.now)) }
    ensures recorded { OnOk result (All IsRecorded answers.now) }
{
    write_thread_line(number, out)?;
    for answer in answers {
        write_answer(answer, out)?;
    }
    Ok(())
}

/// Writes how a call was answered, as one line; a call that wasn't recorded is `OutOfMemory`.
fn write_answer<W: Write>(answer: &Answer, out: &mut W) -> Result<(), Fault<'static>>
    ensures { OnOk result (IsRecorded answer.now × Appends (W.contents out.old) (W.contents out.new) (answer_line answer.now)) }
{
    match answer {
        Answer::Reply(reply) => write_reply(reply, out),
        Answer::Msg(outcome, received) => {
            write_outcome_line(outcome.code, outcome.len, received.as_slice(), out)?;
            Ok(())
        }
    }
}

/// Writes a reply, as one line; that of a call that wasn't recorded is `OutOfMemory`.
fn write_reply<W: Write>(reply: &Reply, out: &mut W) -> Result<(), Fault<'static>>
    ensures { OnOk result ((reply.now ≢ AnyReply.NoRecord) × Appends (W.contents out.old) (W.contents out.new) (reply_line reply.now)) }
{
    if matches!(reply, Reply::NoRecord) {
        return Err(Fault::OutOfMemory);
    }
    write_reply_line(reply, out)?;
    Ok(())
}
