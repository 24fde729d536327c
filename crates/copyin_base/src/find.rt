//! What is under a name, and the refusal where that is missing.
ghost use Rattle.std.specs.Prelude.{◌≡◌, ℕ, Some, IfOk, IfErr};
ghost use Rattle.mach_types.specs.Codes.{kern_number};
ghost use Rattle.mach_model.specs.Refusals.{used_guards, receive_guards, set_guards};
ghost use Rattle.name_space.specs.declared.Entry.TheVariants as AnyEntry;
ghost use Rattle.copyin_base.specs.Serving.{IsRefused};
ghost use Rattle.copyin_base.specs.Finds.{FindsReceive};
ghost use Rattle.copyin_base.specs.Worlds.{entry_at};

use crate::world::World;
use mach_types::{KernReturn, Name, PortId, SetId, TaskId};
use name_space::Entry;

impl World {
    /// What is under the name; `KERN_INVALID_NAME` where nothing is.
    ///
    /// Constant time, and logarithmic for a name above 65,535.
    #[inline(always)]
    pub fn find(&self, task: TaskId, name: Name) -> Result<Entry, KernReturn>
        ensures ok { IfOk result (λ entry. entry_at self.now task name ≡ Some entry) }
        ensures err { IfErr result (λ code. IsRefused self.now (λ s. used_guards s task name) (kern_number code)) }
    {
        self.lookup(task, name).ok_or(KernReturn::InvalidName)
    }

    /// The port whose receive right is under the name; `KERN_INVALID_NAME` where nothing is, and
    /// `KERN_INVALID_RIGHT` where that is no receive right.
    ///
    /// Constant time, and logarithmic for a name above 65,535.
    #[inline(always)]
    pub fn find_receive(&self, task: TaskId, name: Name) -> Result<PortId, KernReturn>
        ensures ok { IfOk result (λ port. FindsReceive self.now task name port) }
        ensures err { IfErr result (λ code. IsRefused self.now (λ s. receive_guards s task name) (kern_number code)) }
    {
        let Some(entry) = self.lookup(task, name) else {
            return Err(KernReturn::InvalidName);
        };
        entry.receive_port().ok_or(KernReturn::InvalidRight)
    }

    /// The port set under the name; `KERN_INVALID_NAME` where nothing is under it, and `KERN_INVALID_RIGHT`
    /// where that is no port set.
    ///
    /// Constant time, and logarithmic for a name above 65,535.
    #[inline(always)]
    pub fn find_set(&self, task: TaskId, name: Name) -> Result<SetId, KernReturn>
        ensures ok { IfOk result (λ set. entry_at self.now task name ≡ Some (AnyEntry.Set set)) }
        ensures err { IfErr result (λ code. IsRefused self.now (λ s. set_guards s task name) (kern_number code)) }
    {
        let Some(entry) = self.lookup(task, name) else {
            return Err(KernReturn::InvalidName);
        };
        entry.set().ok_or(KernReturn::InvalidRight)
    }
}
