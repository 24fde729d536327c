//! Callers in threads of their own, and a watch that is read beside them.
ghost use Rattle.std.specs.Prelude.{◌≡◌, All, IfOk, IfSome};

use gelvonds::threads::{Entry, Pass, Shared, Watch};
use gelvonds::{Event, Name, PortId, Reply, TaskId, Waited};
use std::alloc::{AllocError, Global};
use std::snapshot::Snapshot;
use std::sync::Wait;
use std::test::*;
use std::thread;
use std::thread::{Promise, PromisedHandle, Scope, Threads};

const CALLS: u32 = 1_000;

/// What each caller does.
#[derive(Clone, Copy)]
enum Work {
    /// Asks for the types of the names from 0 on.
    Ask,
    /// Receives from name 1, and tries twice again.
    Receive,
}

#[derive(Drop)]
struct Callers {
    alloc: Global,
    passes: Vec<Pass>,
    work: Work,
}

/// A caller's pass after its calls, and whether each was answered as it should be.
#[derive(Drop)]
struct Ran {
    pass: Pass,
    answered: bool,
}

/// A thread gives the pass back that it was given.
#[derive(Drop)]
struct GivesBack(Snapshot<Pass>);

impl Promise<Ran> for GivesBack {
    ghost use Rattle.std.specs.Prelude.{◌≡◌};

    ghost kept_by = { λ p r. r.pass.table ≡ p.0.value.table };
}

type Handle = PromisedHandle<Ran, GivesBack>;

fn run_one<R: Wait>(rt: &R, shared: &Shared, work: Work, pass: Pass) -> Ran
    requires { pass.table ≡ shared.now.table }
    ensures { result.pass.table ≡ shared.now.table }
{
    match work {
        Work::Ask => ask(rt, shared, pass),
        Work::Receive => receive(rt, shared, pass),
    }
}

fn ask<R: Wait>(rt: &R, shared: &Shared, mut pass: Pass) -> Ran
    requires { pass.table ≡ shared.now.table }
    ensures { result.pass.table ≡ shared.now.table }
{
    let mut answered = true;
    for number in 0..CALLS {
        let event = Event::NameType(TaskId::new(0), Name::new(number));
        let reply = shared.call(rt, &mut pass, event);
        answered &= matches!(reply, Reply::Code(_));
    }
    Ran { pass, answered }
}

fn receive<R: Wait>(rt: &R, shared: &Shared, mut pass: Pass) -> Ran
    requires { pass.table ≡ shared.now.table }
    ensures { result.pass.table ≡ shared.now.table }
{
    let event = Event::Receive(TaskId::new(0), Name::new(1), 24, false);
    let mut answered = finds_none(rt, shared, &mut pass, event);
    for _ in 0..2u32 {
        let port = Waited::Port(PortId::new(0));
        let event = Event::ReceiveAgain(TaskId::new(0), port, 24, false);
        answered &= finds_none(rt, shared, &mut pass, event);
    }
    Ran { pass, answered }
}

/// One try, and whether it is answered that there is no message.
fn finds_none<R: Wait>(rt: &R, shared: &Shared, pass: &mut Pass, event: Event) -> bool
    requires { pass.old.table ≡ shared.now.table }
    ensures { pass.new.table ≡ shared.now.table }
{
    let reply = shared.call(rt, pass, event);
    matches!(reply, Reply::Empty(_))
}

/// Returns whether the count that the watch reads never goes down.
fn rises(shared: &Shared, mut watch: Watch) -> bool
    requires { watch.table ≡ shared.now.table }
{
    let mut last = 0;
    let mut rising = true;
    for _ in 0..100_000u32 {
        let count = shared.board().events(&mut watch);
        rising &= last <= count;
        last = count;
    }
    rising
}

fn start_all<'s, E, R: Threads + Wait + Sync + 's>(
    rt: &'s R,
    scope: &'s Scope<'s, E>,
    shared: &'s Shared,
    callers: Callers,
) -> Option<Vec<Handle>>
    requires { All (λ p. p.table ≡ shared.now.table) callers.passes.items }
    ensures { IfSome result (λ v. All (λ h. h.promise.0.value.table ≡ shared.now.table) v.items) }
{
    let Callers {
        alloc,
        passes,
        work,
    } = callers;
    let mut handles = Vec::new(alloc);
    for pass in passes {
        let promise = GivesBack(Snapshot::of(&pass));
        let Ok(handle) = scope.spawn_with(
            promise,
            move || -> Ran
                requires { pass.table ≡ shared.now.table }
                ensures { result.pass.table ≡ pass.table }
            { run_one(rt, shared, work, pass) },
        ) else {
            return None;
        };
        if handles.push(handle).is_err() {
            return None;
        }
    }
    Some(handles)
}

/// Waits for each, tells the watch what it has seen, and says whether all were answered.
fn join_all<R: Threads>(rt: &R, shared: &Shared, handles: Vec<Handle>, watch: &mut Watch) -> bool
    requires all { All (λ h. h.promise.0.value.table ≡ shared.now.table) handles.items }
    requires watch { watch.old.table ≡ shared.now.table }
    ensures { watch.new.table ≡ shared.now.table }
{
    let mut answered = true;
    for handle in handles {
        let mut ran = handle.join(rt);
        ran.pass.tell(shared.board(), watch);
        answered &= ran.answered;
    }
    answered
}

/// Runs each caller in a thread, while one more thread reads the count of events. Whether all calls were
/// answered, and the count never went down; `None` where a thread was refused.
fn run_all<R: Threads + Wait + Sync>(rt: &R, shared: &Shared, callers: Callers) -> Option<bool>
    requires { All (λ p. p.table ≡ shared.now.table) callers.passes.items }
{
    let reads = shared.watch(rt);
    let mut told = shared.watch(rt);
    thread::scope(
        thread::scope_env(),
        rt,
        move |scope| -> Option<bool>
            requires all { All (λ p. p.table ≡ shared.now.table) callers.passes.items }
            requires watches { (reads.table ≡ shared.now.table) × (told.table ≡ shared.now.table) }
        {
            let Ok(reader) = scope.spawn(
                move || -> bool
                    requires { reads.table ≡ shared.now.table }
                { rises(shared, reads) },
            ) else {
                return None;
            };
            let handles = start_all(rt, scope, shared, callers)?;
            let answered = join_all(rt, shared, handles, &mut told);
            Some(answered & reader.join(rt))
        },
    )
}

/// Four callers who do this.
fn four<R: Wait>(rt: &R, alloc: Global, shared: &Shared, work: Work) -> Result<Callers, AllocError>
    ensures { IfOk result (λ c. All (λ p. p.table ≡ shared.now.table) c.passes.items) }
{
    let mut passes = Vec::new(alloc);
    for _ in 0..4u32 {
        passes.push(shared.pass(rt)?)?;
    }
    Ok(Callers {
        alloc,
        passes,
        work,
    })
}

/// Returns whether the caller's entries are the types that it asked for, each once and in their order.
fn asked_in_order(entries: &[Entry], caller: u64) -> bool {
    let mut next: u32 = 0;
    for entry in entries {
        if entry.caller == caller {
            let Event::NameType(_, name) = &entry.event else {
                return false;
            };
            if name.number() != next {
                return false;
            }
            next = next.wrapping_add(1);
        }
    }
    next == CALLS
}

/// Returns whether the caller's entries are a receive and two later tries, none of which found a message.
fn tried_in_order(entries: &[Entry], caller: u64) -> bool {
    let mut place: u32 = 0;
    for entry in entries {
        if entry.caller == caller {
            let is_next = match &entry.event {
                Event::Receive(..) => place == 0,
                Event::ReceiveAgain(..) => place == 1 || place == 2,
                _ => false,
            };
            if !is_next || !matches!(entry.reply, Reply::Empty(_)) {
                return false;
            }
            place = place.wrapping_add(1);
        }
    }
    place == 3
}

#[test]
fn never_back(rt: HostRuntime) -> Result<(), Fail> {
    let shared = Shared::new(rt.alloc())?;
    let mut first = shared.pass(&rt)?;
    let mut watch = shared.watch(&rt);
    let reply = shared.call(&rt, &mut first, Event::TaskCreate);
    assert!(rt; reply == Reply::Task(TaskId::new(0)));
    assert_eq!(rt; shared.board().events(&mut watch), 1);
    let callers = four(&rt, rt.alloc(), &shared, Work::Ask)?;
    assert!(rt; run_all(&rt, &shared, callers) == Some(true));
    assert_eq!(rt; shared.board().events(&mut watch), 4_001);
    let held = shared.lock(&rt);
    assert_eq!(rt; held.entries().len(), 4_001);
    assert!(rt; asked_in_order(held.entries(), 1));
    assert!(rt; asked_in_order(held.entries(), 2));
    assert!(rt; asked_in_order(held.entries(), 3));
    assert!(rt; asked_in_order(held.entries(), 4));
    Ok(())
}

#[test]
fn tries_of_four_callers(rt: HostRuntime) -> Result<(), Fail> {
    let shared = Shared::new(rt.alloc())?;
    let mut first = shared.pass(&rt)?;
    let mut watch = shared.watch(&rt);
    shared.call(&rt, &mut first, Event::TaskCreate);
    let reply = shared.call(&rt, &mut first, Event::Allocate(TaskId::new(0), 1));
    assert!(rt; reply == Reply::Name(Name::new(1)));
    let callers = four(&rt, rt.alloc(), &shared, Work::Receive)?;
    assert!(rt; run_all(&rt, &shared, callers) == Some(true));
    assert_eq!(rt; shared.board().events(&mut watch), 14);
    let held = shared.lock(&rt);
    assert_eq!(rt; held.entries().len(), 14);
    assert!(rt; tried_in_order(held.entries(), 1));
    assert!(rt; tried_in_order(held.entries(), 2));
    assert!(rt; tried_in_order(held.entries(), 3));
    assert!(rt; tried_in_order(held.entries(), 4));
    Ok(())
}
