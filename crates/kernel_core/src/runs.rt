//! Whole runs.
ghost use Rattle.std.specs.Prelude.{◌≤◌, IfOk};
ghost use Rattle.mach_types.specs.declared.profiles.Profile.TheVariants.{One};
ghost use Rattle.mach_model.specs.State.{State};
ghost use Rattle.mach_model.specs.Machine.{Run, RunIn};
ghost use Rattle.mach_laws.specs.Headline.{Headline};
ghost use Rattle.mach_laws.specs.JudgedPaths.{JudgedPath};
ghost use Rattle.mach_laws.specs.Queued.{SlotsWithin, unused_onces};
ghost use Rattle.copyin_base.specs.Shows.{Shows};

use crate::kernel::Kernel;
use mach_types::{Event, Profile, Reply};
use std::alloc::{AllocError, Global};

/// Makes these calls on a new kernel of the first profile: [`run_with`].
pub fn run(alloc: Global, events: Vec<Event>) -> Result<(Kernel, Vec<Reply>), AllocError>
    ensures { IfOk result (λ done. (s : State) × Run events.items done.1.items s × Shows done.0.tables s
        × (h : Headline One events.items done.1.items s) × JudgedPath One h.stages s
        × SlotsWithin done.0.tables.ports.spare h.stages s
        × (unused_onces s ≤ done.0.tables.ports.spare)) }
{
    run_with(alloc, Profile::One, events)
}

/// Makes these calls on a new kernel of this profile, one after another. Returns the kernel that they leave,
/// with their replies in order.
///
/// They are a run of the machine by the profile, to a state that the kernel shows. All that `mach_laws`'
/// `Headline` says is true of the run: what received messages mean, in which order they come, and that each
/// live port has one receive right. Its stages are judged right (`JudgedPath`). The kernel has a spare
/// message slot for each unused send-once right. Its spare slots and queued messages together are no more
/// than there ever were queued messages and unused send-once rights (`SlotsWithin`).
///
/// An error means that memory for the list of replies was refused. Where a step is refused memory, that is
/// its reply, and the run goes on.
pub fn run_with(
    alloc: Global,
    profile: Profile,
    events: Vec<Event>,
) -> Result<(Kernel, Vec<Reply>), AllocError>
    ensures { IfOk result (λ done. (s : State) × RunIn profile events.items done.1.items s × Shows done.0.tables s
        × (h : Headline profile events.items done.1.items s) × JudgedPath profile h.stages s
        × SlotsWithin done.0.tables.ports.spare h.stages s
        × (unused_onces s ≤ done.0.tables.ports.spare)) }
{
    let mut kernel = Kernel::with_profile(alloc, profile);
    let mut replies = Vec::new(alloc);
    for event in &events {
        let reply = kernel.step(event);
        replies.push(reply)?;
    }
    Ok((kernel, replies))
}
