//! What stands at a place, state by state.
ghost use Rattle.std.specs.Prelude.{◌≡◌, ◌++◌, ◌∷◌, [], IfOk, OnOk, replicate};
ghost use Rattle.mach_scene_base.specs.Runs.{shown};
ghost use Rattle.mach_scene_base.specs.declared.thing.Thing.TheVariants.{Nothing};

use crate::same::are_same;
use crate::thing::Thing;
use std::alloc::{AllocError, Global};

/// A thing, and in how many states it stands, one after another.
#[derive(Clone, Copy)]
pub struct Run {
    /// The thing.
    pub thing: Thing,
    /// How many states have it.
    pub count: u64,
}

/// What stands at a place in each state, in runs of the same thing.
#[derive(Drop)]
pub struct Runs {
    runs: Vec<Run>,
}

impl Runs {
    /// Returns the runs of a place at which nothing stood in so many states. Returns `AllocError` if out of memory.
    pub fn after(alloc: Global, states: u64) -> Result<Runs, AllocError>
        ensures { IfOk result (λ runs. shown runs.runs.items ≡ replicate states Nothing) }
    {
        let mut runs = Vec::new(alloc);
        runs.push(Run {
            thing: Thing::Nothing,
            count: states,
        })?;
        Ok(Runs { runs })
    }

    /// Notes what stands at the place in the next state. The runs, each repeated as often as it counts, are then those before
    /// and this thing.
    ///
    /// Returns `AllocError` if out of memory; the runs are then of no further use. Constant time.
    pub fn note(&mut self, thing: Thing) -> Result<(), AllocError>
        ensures { OnOk result (shown self.new.runs.items ≡ shown self.old.runs.items ++ thing ∷ []) }
    {
        let Some(last) = self.runs.pop() else {
            return self.add(thing);
        };
        if are_same(&last.thing, &thing) && last.count < u64::MAX {
            self.put(Run {
                thing,
                count: last.count + 1,
            })?;
            return Ok(());
        }
        self.put(last)?;
        self.add(thing)
    }

    /// Adds a run of one state.
    fn add(&mut self, thing: Thing) -> Result<(), AllocError>
        ensures { OnOk result (shown self.new.runs.items ≡ shown self.old.runs.items ++ thing ∷ []) }
    {
        self.put(Run { thing, count: 1 })?;
        Ok(())
    }

    /// Adds a run.
    fn put(&mut self, run: Run) -> Result<(), AllocError>
        ensures { OnOk result (self.new.runs.items ≡ self.old.runs.items ++ run ∷ []) }
    {
        self.runs.push(run)?;
        Ok(())
    }

    /// Returns the runs. Constant time.
    pub fn as_slice(&self) -> &[Run] {
        self.runs.as_slice()
    }
}
