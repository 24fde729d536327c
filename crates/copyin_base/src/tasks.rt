//! Tasks: how many were made, and tasks that are made.
ghost use Rattle.std.specs.Prelude.{◌≡◌, ◌<◌, IfOk, OnErr, length};
ghost use Rattle.mach_types.specs.Numbers.{most_tasks};
ghost use Rattle.copyin_base.specs.Coming.{with_new_task};

use crate::world::World;
use mach_types::TaskId;
use name_space::Space;
use std::alloc::{AllocError, Global};

impl World {
    /// How many tasks were made, also those that have ended; the number that the next one gets. Constant time.
    #[inline(always)]
    pub fn tasks_made(&self) -> usize
        ensures { result ≡ length self.now.spaces }
    {
        self.spaces.len()
    }

    /// Makes a task with no names (Task Interface, `task_create`). Its number is that of the tasks made before.
    /// Constant time, but where the tasks move to a larger place.
    ///
    /// An error means that memory was refused; all is then as before.
    pub fn create_task(&mut self, alloc: Global) -> Result<TaskId, AllocError>
        requires { length self.old.spaces < most_tasks }
        ensures ok { IfOk result (λ task. (task ≡ length self.old.spaces) × (self.new ≡ with_new_task self.old)) }
        ensures err { OnErr result (self.new ≡ self.old) }
    {
        let task = TaskId::new(self.tasks_made() as u32);
        let space = Space::new(alloc, self.has_generations());
        self.spaces.push(Some(space))?;
        Ok(task)
    }
}
