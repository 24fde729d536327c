//! Rights that are lost, and the notices that tell of them.
ghost use Rattle.std.specs.Prelude.{◌≡◌, ◌≤◌, MatchBool, None, Some, is_some, length, slice_set, true};
ghost use Rattle.port.specs.Ports.{PortView};
ghost use Rattle.rights.specs.Ledger.{IsEntered, counts_of};
ghost use Rattle.tables_base.specs.Kept.{Kept};
ghost use Rattle.copyin_base.specs.Leaving.{port_removed};
ghost use Rattle.copyin_base.specs.Losing.{CanLose, CanPost, DropsSet, LosesPort, LosesSends, Posts};
ghost use Rattle.copyin_base.specs.Reading.{live_in, read_space};
ghost use Rattle.copyin_base.specs.Shows.{SlotsSuffice};
ghost use Rattle.copyin_base.specs.Worlds.{HasTask, port_at, space_at};

use crate::world::World;
use mach_types::{PortId, SetId, TaskId};
use name_space::Space;
use port::Found;
use port_set::disband;
use rights::RightKind;
use tables_base::{Notice, Queued};

impl World {
    /// Puts the notice at the end of the port's queue, in a spare slot. A send-once right for the port, to
    /// which no queued message was sent, pays for it: it is now one to which a queued message was sent.
    ///
    /// Takes no memory and cannot fail. Constant time.
    pub fn post(&mut self, port: PortId, notice: Notice)
        requires { CanPost self.old port }
        ensures posts { Posts self.old port notice self.new }
        ensures slots { SlotsSuffice self.new }
    {
        self.ledger.shift();
        self.ports
            .enqueue_counted(Found::of(port), Queued::told(notice), true);
    }

    /// Loses the port's receive right. The end of the step judges whether the port dies or is sent away.
    ///
    /// Takes no memory and cannot fail. Constant time.
    #[inline(always)]
    pub fn lose_receive(&mut self, port: PortId)
        requires { CanLose self.old port }
        ensures { LosesPort self.old port self.new }
    {
        self.ledger.take(RightKind::Receive, 1);
        self.ports.take_rights(port, RightKind::Receive, 1);
        self.ports.lose(port);
    }

    /// Loses the port's receive right, as [`World::lose_receive`] does, where the port is there; where it
    /// is gone, nothing changes. Takes no memory and cannot fail. Constant time.
    #[inline(always)]
    pub fn lose_receive_if_there(&mut self, port: PortId)
        requires { is_some (port_at self.old port) ≡ true → CanLose self.old port }
        ensures { MatchBool (is_some (port_at self.old port)) (LosesPort self.old port self.new) (self.new ≡ self.old) }
    {
        if self.ports.lose_if_there(port) {
            self.ledger.take(RightKind::Receive, 1);
            self.ports.take_rights(port, RightKind::Receive, 1);
        }
    }

    /// Loses so many send rights for the port, which is noted if they were the last.
    ///
    /// Takes no memory and cannot fail. Constant time.
    #[inline]
    pub fn lose_sends(&mut self, port: PortId, number: u32)
        requires entered { IsEntered self.old.ledger port }
        requires some { number ≤ (counts_of self.old.ledger port).send }
        ensures { LosesSends self.old port number self.new }
    {
        self.take_rights(port, RightKind::Send, number);
        self.note_senderless(port);
    }

    /// Removes the set; its members stay in their other sets. Takes no memory. Linear in the members.
    pub fn drop_set(&mut self, set: SetId)
        ensures { DropsSet self.old set self.new }
    {
        self.sets.remove(set);
        disband(&mut self.ports, set);
    }

    /// Removes a port that has no messages, with all rights for it. Takes no memory. Constant time.
    #[inline(always)]
    pub fn remove_port(&mut self, port: PortId)
        requires empty { (v : PortView Kept) → port_at self.old port ≡ Some v → length v.queue ≡ 0 }
        requires entered { IsEntered self.old.ledger port }
        ensures { self.new ≡ port_removed self.old port }
    {
        let counts = self.ports.remove(port).unwrap();
        self.ledger.leave(counts);
    }

    /// Takes the names of a task that lives out of the tables, as they are kept: the task has ended. Takes no
    /// memory. Constant time.
    pub fn take_space(&mut self, task: TaskId) -> Space
        requires { HasTask self.old task }
        ensures kept { space_at self.old task ≡ Some (read_space (live_in self.old.ports) result) }
        ensures taken { self.new ≡ record self.old { spaces = slice_set self.old.spaces task None } }
    {
        match self.spaces[task.number() as usize].take() {
            Some(space) => space,
            None => unreachable!(),
        }
    }
}
