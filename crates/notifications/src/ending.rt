//! The end of a task.
ghost use Rattle.std.specs.Prelude.{◌≡◌, ◌≢◌, ◌+◌, ◌<◌, ◌≤◌, ◌^◌, ℕ, None, IfSome, IfNone};
ghost use Rattle.std.specs.FinMap as map;
ghost use Rattle.mach_types.specs.Numbers.{dead_word};
ghost use Rattle.copyin_base.specs.Reading.{live_in, reading};
ghost use Rattle.copyin_base.specs.Stands.{Stands};
ghost use Rattle.copyin_base.specs.Wanted.{UsesSpares};
ghost use Rattle.copyin_base.specs.Worlds.{HasTask};
ghost use Rattle.notifications.specs.Ending.{CanLoseEntry, Ends, IsNextEntry, LosesEntry, LosesName};

use copyin_base::{Notice, World};
use mach_types::{Name, TaskId};
use name_space::{Entry, PortName, Space};

/// Ends the task, which lives. All that its names hold is lost, and the requests on them end. The port of
/// each send-once right is told. Ports whose receive rights it had wait to be judged.
///
/// Takes no memory and cannot fail. Linear in its names and in the members of its sets. Each name above
/// 65,535 adds a logarithm. Each page of 256 names up to there that was used adds four words.
pub fn end_task(world: &mut World, task: TaskId)
    requires stands { Stands world.old }
    requires there { HasTask world.old task }
    ensures ends { Ends world.old task world.new }
    ensures spares { UsesSpares world.old world.new }
{
    // The names are gone over where they are, and go all at once.
    let space = world.take_space(task);
    let mut from = Name::null();
    while let Some(named) = next_entry(&space, from) {
        lose_name(world, task, &named);
        from = after(named.name);
    }
}

// The least name from this one on with what is kept there, if there is one. Mostly it is this one.
fn next_entry(space: &Space, from: Name) -> Option<PortName>
    ensures found { IfSome result (λ named. IsNextEntry space.now.names from named.name named.entry) }
    ensures none { IfNone result ((name : ℕ) → from ≤ name → map.get space.now.names name ≡ None) }
{
    if let Some(entry) = space.lookup(from) {
        return Some(PortName { name: from, entry });
    }
    let name = space.next_name(from)?;
    let entry = space.lookup(name)?;
    Some(PortName { name, entry })
}

// The name behind this one.
fn after(name: Name) -> Name
    requires { name ≢ dead_word }
    ensures value { result ≡ name + 1 }
    ensures small { result < 2 ^ 32 }
{
    Name::new(name.number() + 1)
}

// The request on the name ends, and what stands there is lost.
fn lose_name(world: &mut World, task: TaskId, named: &PortName)
    requires { CanLoseEntry world.old (reading (live_in world.old.ports) named.now.entry) }
    ensures { LosesName world.old task named.now.name (reading (live_in world.old.ports) named.now.entry) world.new }
{
    world.leave_name(task, named.name);
    lose_kept(world, named.entry);
}

// What is kept under a name is lost: nothing, where its port is gone.
fn lose_kept(world: &mut World, kept: Entry)
    requires { CanLoseEntry world.old (reading (live_in world.old.ports) kept) }
    ensures { LosesEntry world.old (reading (live_in world.old.ports) kept) world.new }
{
    match kept {
        Entry::Receive(port) => world.lose_receive_if_there(port),
        _ => lose_other(world, kept),
    }
}

// What else is kept under a name is lost: nothing, where its port is gone.
fn lose_other(world: &mut World, kept: Entry)
    requires { CanLoseEntry world.old (reading (live_in world.old.ports) kept) }
    ensures { LosesEntry world.old (reading (live_in world.old.ports) kept) world.new }
{
    match kept.right_port() {
        Some(port) if !world.has_port(port) => {}
        _ => lose_entry(world, kept),
    }
}

// What stands under a name is lost: send references first, so that a receive right is alone.
fn lose_entry(world: &mut World, entry: Entry)
    requires { CanLoseEntry world.old entry }
    ensures { LosesEntry world.old entry world.new }
{
    match entry {
        Entry::Receive(port) => world.lose_receive(port),
        Entry::Send(port, references) => world.lose_sends(port, references.count()),
        Entry::ReceiveAndSend(port, references) => {
            world.lose_sends(port, references.count());
            world.lose_receive(port);
        }
        Entry::SendOnce(port) => world.post(port, Notice::SendOnce),
        Entry::DeadName(_) => {}
        Entry::Set(set) => world.drop_set(set),
    }
}
