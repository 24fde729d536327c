//! What the laws of the machine say of the next step of a run.
ghost use Rattle.std.specs.Prelude.{List, length};
ghost use Rattle.mach_types.specs.declared.calls.Event.{Event as Called};
ghost use Rattle.mach_types.specs.declared.calls.Reply.{Reply as Replied};
ghost use Rattle.mach_types.specs.declared.profiles.Profile.{Profile};
ghost use Rattle.mach_model.specs.State.{State};
ghost use Rattle.mach_model.specs.Machine.{Step};
ghost use Rattle.mach_laws.specs.Paths.{Stage};
ghost use Rattle.mach_laws.specs.JudgedPaths.{JudgedPath};
ghost use Rattle.mach_fates.specs.Stepping.{GoesOn};

use mach_laws::{
    every_run_is_lawful, one_receive_right, order, received_messages_mean, refusals_change_nothing,
    rights_are_made_by_these, runs_are_paths, too_long_is_destroyed,
};

/// Does nothing: its contract is what these laws say of the next step of a run.
pub(crate) fn next_step()
    ensures { (profile : Profile) (path : List Stage) (s : State) (event : Called) (reply : Replied) (t : State)
        → JudgedPath profile path s → Step (length path) s event reply t → GoesOn profile path s event reply t }
{
    every_run_is_lawful();
    runs_are_paths();
    order();
    received_messages_mean();
    too_long_is_destroyed();
    refusals_change_nothing();
    rights_are_made_by_these();
    one_receive_right();
}
