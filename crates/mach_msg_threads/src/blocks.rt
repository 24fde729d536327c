//! Blocks of calls, each in a thread of its own.
ghost use Rattle.std.specs.Prelude.{◌≡◌, All, IfOk};
ghost use Rattle.std.specs.List.{AllZip};
ghost use Rattle.mach_msg_threads.specs.Blocks.{Ran};

use crate::block::{Answer, Block, Call, run_block};
use crate::fault::RunFault;
use crate::gate::Gate;
use kernel_lock::{Pass, Shared};
use std::alloc::Global;
use std::snapshot::Snapshot;
use std::sync::Wait;
use std::thread;
use std::thread::{Promise, PromisedHandle, Scope, Threads};

// That a thread makes the calls of its block.
#[derive(Drop)]
struct Runs {
    pass: Snapshot<Pass>,
    calls: Snapshot<Vec<Call>>,
}

impl Promise<Result<(Pass, Vec<Answer>), RunFault>> for Runs {
    ghost use Rattle.std.specs.Prelude.{◌≡◌, IfOk};
    ghost use Rattle.mach_msg_threads.specs.Blocks.{Ran};

    ghost kept_by = { λ p r. IfOk r (λ ran. (ran.0.table ≡ p.pass.value.table) × Ran p.pass.value p.calls.value.items ran.1.items ran.0) };
}

type Handle = PromisedHandle<Result<(Pass, Vec<Answer>), RunFault>, Runs>;

/// Runs each block in a thread of its own, all over one kernel, and waits for all of them.
///
/// A block makes its calls one after another, as [`Shared::call`] and [`mach_msg`](crate::mach_msg) make
/// them, and its gate is told of each. Where all have ended, each block's pass comes back, in the order of
/// the blocks, with one answer for each of its calls. May wait, as long as a gate does. Takes a thread for each
/// block, memory for the answers, and for each message call a buffer as long as its room.
///
/// `Memory` where memory for the answers, for the threads' handles or for the buffer of a message call was
/// refused: of that block no further call is made. `Thread` where a thread was refused: neither that block nor
/// a later one has made a call. All threads have ended by then, and the calls that were made stand in
/// the history. A gate is dropped when its block has ended, or when its thread was refused.
pub fn run_blocks<G: Gate + Send + Drop, R: Threads + Wait + Sync>(
    rt: &R,
    alloc: Global,
    shared: &Shared,
    blocks: Vec<Block<G>>,
) -> Result<Vec<(Pass, Vec<Answer>)>, RunFault>
    requires { All (λ block. block.pass.table ≡ shared.now.table) blocks.items }
    ensures tied { IfOk result (λ all. All (λ ran. ran.0.table ≡ shared.now.table) all.items) }
    ensures ran { IfOk result (λ all. AllZip (λ block ran. Ran block.pass block.calls.items ran.1.items ran.0) blocks.items all.items) }
{
    thread::scope(
        thread::scope_env(),
        rt,
        move |scope| -> Result<Vec<(Pass, Vec<Answer>)>, RunFault>
            requires { All (λ block. block.pass.table ≡ shared.now.table) blocks.items }
            ensures tied { IfOk result (λ all. All (λ ran. ran.0.table ≡ shared.entry.now.table) all.items) }
            ensures ran { IfOk result (λ all. AllZip (λ block ran. Ran block.pass block.calls.items ran.1.items ran.0) blocks.items all.items) }
        {
            let handles = start_all(rt, alloc, scope, shared, blocks)?;
            join_all(rt, alloc, handles)
        },
    )
}

// Starts each block in a thread of the scope. Where one is refused, that block and those after it are dropped.
fn start_all<'s, E, G: Gate + Send + Drop + 's, R: Threads + Wait + Sync + 's>(
    rt: &'s R,
    alloc: Global,
    scope: &'s Scope<'s, E>,
    shared: &'s Shared,
    blocks: Vec<Block<G>>,
) -> Result<Vec<Handle>, RunFault>
    requires { All (λ block. block.pass.table ≡ shared.now.table) blocks.items }
    ensures { IfOk result (λ all. AllZip (λ block h. (h.promise.pass.value ≡ block.pass) × (h.promise.calls.value ≡ block.calls)) blocks.items all.items) }
{
    let mut handles = Vec::with_capacity(alloc, blocks.len())?;
    for block in blocks {
        let promise = Runs {
            pass: Snapshot::of(&block.pass),
            calls: Snapshot::of(&block.calls),
        };
        let Ok(handle) = scope.spawn_with(
            promise,
            move || -> Result<(Pass, Vec<Answer>), RunFault>
                requires { block.pass.table ≡ shared.now.table }
                ensures { IfOk result (λ ran. (ran.0.table ≡ block.pass.table) × Ran block.pass block.calls.items ran.1.items ran.0) }
            { run_block(rt, alloc, shared, block) },
        ) else {
            return Err(RunFault::Thread);
        };
        handles.push(handle)?;
    }
    Ok(handles)
}

// Waits for each thread, in their order.
fn join_all<R: Threads>(
    rt: &R,
    alloc: Global,
    handles: Vec<Handle>,
) -> Result<Vec<(Pass, Vec<Answer>)>, RunFault>
    ensures { IfOk result (λ all. AllZip (λ h ran. (ran.0.table ≡ h.promise.pass.value.table) × Ran h.promise.pass.value h.promise.calls.value.items ran.1.items ran.0) handles.items all.items) }
{
    let mut all = Vec::with_capacity(alloc, handles.len())?;
    for handle in handles {
        all.push(handle.join(rt)?)?;
    }
    Ok(all)
}
