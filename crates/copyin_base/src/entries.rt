//! What is under a name, changed.
ghost use Rattle.std.specs.Prelude.{◌≡◌, ◌≢◌, ℕ, Some, None, OnOk, OnErr, IfErr, IfNone, IfSome};
ghost use Rattle.mach_types.specs.declared.codes.KernReturn.TheVariants as kern;
ghost use Rattle.name_space.specs.declared.Entry.{Entry as AnyEntry};
ghost use Rattle.name_space.specs.Names.{IsUsable, SpaceView, port_at as named_at};
ghost use Rattle.port.specs.Ports.{IsLive};
ghost use Rattle.copyin_base.specs.Changes.{AddsSend, CanPutLeft, PutsLeft, CanInsert, InsertsEntry, CanInsertFresh, InsertsFresh, MakesRoom, KeepsPlace, MayRename, MovesEntry};
ghost use Rattle.copyin_base.specs.Wanted.{LacksRoomFor, LacksPlace, kept_of};
ghost use Rattle.copyin_base.specs.Worlds.{HasTask, space_at};

use crate::world::World;
use mach_types::{KernReturn, Name, PortId, TaskId};
use name_space::{Entry, PortName};

impl World {
    // Puts another entry under a name that is in use.
    #[inline(always)]
    fn replace_entry(&mut self, task: TaskId, name: Name, entry: Entry)
        requires { CanPutLeft self.old task name (Some entry) }
        ensures { PutsLeft self.old task name (Some entry) self.new }
    {
        let Some(space) = &mut self.spaces[task.number() as usize] else {
            unreachable!()
        };
        space.replace(name, entry);
    }

    // Takes a name that is in use away, and the request on it.
    #[inline(always)]
    fn remove_name(&mut self, task: TaskId, name: Name)
        requires { CanPutLeft self.old task name None }
        ensures { PutsLeft self.old task name None self.new }
    {
        let Some(space) = &mut self.spaces[task.number() as usize] else {
            unreachable!()
        };
        space.remove(name);
        self.requests.leave(task, name);
    }

    /// Leaves this under a name that is in use. Where nothing is left the name is removed, and the request on
    /// it ends; its right is kept until the step's end pays with it.
    ///
    /// Takes no memory. Constant time, and logarithmic for a name above 65,535.
    #[inline(always)]
    pub fn put_left(&mut self, task: TaskId, name: Name, left: Option<Entry>)
        requires { CanPutLeft self.old task name left }
        ensures { PutsLeft self.old task name left self.new }
    {
        match left {
            Some(entry) => self.replace_entry(task, name, entry),
            None => self.remove_name(task, name),
        }
    }

    /// Puts the entry under a name that isn't in use, in a place that was made. The name is the fresh one
    /// where there is room for one, or the one for which a place is kept.
    ///
    /// Takes no memory. Constant time, and logarithmic for a name above 65,535.
    #[inline(always)]
    pub fn insert_entry(&mut self, task: TaskId, name: Name, entry: Entry)
        requires { CanInsert self.old task name entry }
        ensures { InsertsEntry self.old task name entry self.new }
    {
        let Some(space) = &mut self.spaces[task.number() as usize] else {
            unreachable!()
        };
        space.insert(name, entry);
    }

    /// Puts the entry under a fresh name, in a place that was made, and counts the name, so that the next
    /// one of its index is another. Where names have no generation there is nothing to count.
    ///
    /// Takes no memory. Constant time.
    #[inline(always)]
    pub fn insert_fresh(&mut self, task: TaskId, name: Name, entry: Entry)
        requires { CanInsertFresh self.old task name entry }
        ensures { InsertsFresh self.old task name entry self.new }
    {
        let Some(space) = &mut self.spaces[task.number() as usize] else {
            unreachable!()
        };
        space.insert_fresh(name, entry);
    }

    /// Adds a send reference under the task's name for a port that is there, if it has one, and returns that
    /// name with what was under it before. A reference above 65,535 is not kept. `None` where no name is for
    /// the port; nothing is then changed.
    ///
    /// Takes no memory. Constant time, and logarithmic for a name above 65,535.
    #[inline(always)]
    pub fn add_send(&mut self, task: TaskId, port: PortId) -> Option<PortName>
        requires there { HasTask self.old task }
        requires live { IsLive self.old.ports port }
        ensures found { IfSome result (λ named. AddsSend self.old task port named.name named.entry self.new) }
        ensures none { IfNone result ((space : SpaceView) → space_at self.old task ≡ Some space → (name : ℕ) → named_at space.names name ≢ Some port) }
        ensures same { IfNone result (self.new ≡ self.old) }
    {
        let Some(space) = &mut self.spaces[task.number() as usize] else {
            unreachable!()
        };
        space.add_send(port)
    }

    /// Moves what is under the first name to the second, which isn't in use and for which a place is kept (Port
    /// Manipulation Interface, `mach_port_rename`). The request on the name, and what is kept of a set, stay.
    ///
    /// Takes no memory. Constant time, and logarithmic for a name above 65,535.
    #[inline(always)]
    pub fn move_entry(&mut self, task: TaskId, from: Name, to: Name)
        requires may { (e : AnyEntry) × MayRename self.old task from to e }
        requires place { kept_of self.old task ≡ Some to }
        ensures { (e : AnyEntry) → MayRename self.old task from to e → MovesEntry self.old task from to e self.new }
    {
        let Some(space) = &mut self.spaces[task.number() as usize] else {
            unreachable!()
        };
        space.rename(from, to);
    }

    /// Makes room for so many fresh names of the task. Room that is there stays and counts: where it is
    /// less, there is then room for just so many.
    ///
    /// `KERN_RESOURCE_SHORTAGE` where there was less room and memory was refused; all is then as
    /// before. Constant time, but where memory is taken.
    #[inline(always)]
    pub fn reserve_names(&mut self, task: TaskId, number: usize) -> Result<(), KernReturn>
        requires { HasTask self.old task }
        ensures ok { OnOk result (MakesRoom self.old task number self.new) }
        ensures err { IfErr result (λ code. (code ≡ kern.ResourceShortage) × (self.new ≡ self.old)) }
        ensures lacks { OnErr result (LacksRoomFor self.old task number) }
    {
        let Some(space) = &mut self.spaces[task.number() as usize] else {
            unreachable!()
        };
        match space.reserve(number) {
            Ok(()) => Ok(()),
            Err(_) => Err(KernReturn::ResourceShortage),
        }
    }

    /// Keeps a place for this name of the task, in use or not, and for no other, so that an entry can
    /// come under it without memory.
    ///
    /// `KERN_RESOURCE_SHORTAGE` where memory was refused; all is then as before. Memory is wanted only where
    /// the place wasn't kept, and where the name that gives it up is in use, or as `Space::reserve_name`
    /// says of the new name.
    /// Constant time, but where memory is taken.
    #[inline(always)]
    pub fn reserve_name(&mut self, task: TaskId, name: Name) -> Result<(), KernReturn>
        requires there { HasTask self.old task }
        requires usable { IsUsable name }
        ensures ok { OnOk result (KeepsPlace self.old task name self.new) }
        ensures err { IfErr result (λ code. (code ≡ kern.ResourceShortage) × (self.new ≡ self.old)) }
        ensures lacks { OnErr result (LacksPlace self.old task name) }
    {
        let Some(space) = &mut self.spaces[task.number() as usize] else {
            unreachable!()
        };
        match space.reserve_name(name) {
            Ok(()) => Ok(()),
            Err(_) => Err(KernReturn::ResourceShortage),
        }
    }
}
