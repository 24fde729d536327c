//! From which port a step takes a message.
ghost use Rattle.std.specs.Prelude.{◌≡◌, Some};
ghost use Rattle.mach_types.specs.Grammar.{Header, WireBody, Spells};
ghost use Rattle.mach_fates.specs.Sources.{source_named, source_waited, source_before as by_tables, IsNamedIn, IsSourceAfter};

use copyin_base::World;
use kernel_lock::Entry;
use mach_types::{Event, Name, PortId, Reply, TaskId, Waited};
use name_space::Entry as Standing;
use type_descriptor::read_word;

/// Returns the port of the message that the entry destroys as too long, by the tables before its step; `None` if the entry
/// destroys none. Constant time, and logarithmic for a name above 65,535.
pub(crate) fn source_before(world: &World, entry: &Entry) -> Option<PortId>
    ensures { result ≡ by_tables world.now entry.now.event entry.now.reply }
{
    match (&entry.event, &entry.reply) {
        (Event::Receive(task, name, _, false), Reply::TooLarge(_)) => {
            source_of(world, world.lookup(*task, *name))
        }
        (Event::ReceiveAgain(_, waited, _, false), Reply::TooLarge(_)) => {
            source_of_waited(world, *waited)
        }
        _ => None,
    }
}

/// Returns the port from which a receive by a name takes for which this stands.
fn source_of(world: &World, standing: Option<Standing>) -> Option<PortId>
    ensures { result ≡ source_named world.now standing }
{
    match standing? {
        Standing::Set(set) => world.ready_member(set),
        standing => standing.port(),
    }
}

/// Returns the port from which a receive by this identity takes.
fn source_of_waited(world: &World, waited: Waited) -> Option<PortId>
    ensures { result ≡ source_waited world.now waited }
{
    match waited {
        Waited::Port(port) => Some(port),
        Waited::Set(set) => world.ready_member(set),
    }
}

/// Returns the port of the message that the entry received, by the tables after its step; `None` if the entry received none.
/// The cost is that of [`source_before`].
pub(crate) fn source_after(world: &World, entry: &Entry) -> Option<PortId>
    ensures { IsSourceAfter world.now entry.now.event entry.now.reply result }
{
    let Reply::Message(bytes) = &entry.reply else {
        return None;
    };
    match &entry.event {
        Event::Receive(task, ..) | Event::ReceiveAgain(task, ..) => {
            source_in(world, *task, bytes.as_slice())
        }
        _ => None,
    }
}

/// Returns the port that the header of the message names that the task received.
fn source_in(world: &World, task: TaskId, bytes: &[u8]) -> Option<PortId>
    ensures { IsNamedIn world.now task bytes.now result }
{
    let name = local_name(bytes)?;
    world.lookup(task, name)?.port()
}

/// Returns the local name of a received message's header; `None` for bytes that are no message.
fn local_name(bytes: &[u8]) -> Option<Name>
    ensures { (header : Header) (written : WireBody) → Spells bytes.now header written → result ≡ Some header.local }
{
    if bytes.len() < 16 {
        return None;
    }
    Some(Name::new(read_word(bytes, 12)))
}
