//! What the tables say of a name and of a port.
ghost use Rattle.std.specs.Prelude.{◌≡◌, drop, IfSome, Some};
ghost use Rattle.mach_model.specs.State.{State};
ghost use Rattle.copyin_base.specs.Kept.{Kept};
ghost use Rattle.copyin_base.specs.Shows.{Shows};
ghost use Rattle.copyin_base.specs.Worlds.{port_at};
ghost use Rattle.port.specs.Ports.{PortView, sets_in};
ghost use Rattle.mach_state.specs.Said.{IsNameSaid, IsPortSaid, Receives, number_of};

use copyin_base::World;
use mach_types::{Name, PortId, SetId, TaskId};
use name_space::Entry as Standing;
use port::Holder;

/// What is said of a task's name.
#[derive(Clone, Copy)]
pub struct NameState {
    /// What the name stands for.
    pub standing: Standing,
    /// The notify port of the dead-name request on the name, if there is a request. The port may be dead.
    pub notify: Option<PortId>,
}

/// What is said of a live port.
#[derive(Clone, Copy)]
pub struct PortState {
    /// Who holds the receive right.
    pub holder: Holder,
    /// The set that the port is in; the first of them, where it is in several.
    pub set: Option<SetId>,
    /// In how many sets it is beside the first; 2^64 - 1 stands for more.
    pub more_sets: usize,
    /// How many messages are queued.
    pub queued: usize,
    /// How many messages from send rights may be queued, 0 to 16.
    pub limit: u32,
    /// The make-send count.
    pub make_send: u32,
    /// The sequence number of the next message that is received.
    pub sequence: u32,
    /// How many send rights there are, in names, messages and requests.
    pub send_rights: u64,
    /// How many send-once rights there are. Each queued message that was sent to one has it until it is received.
    pub once_rights: u64,
    /// The notify port of the no-senders request, if there is a request. The port may be dead.
    pub no_senders: Option<PortId>,
    /// The notify port of the port-destroyed request, if there is a request. The port may be dead.
    pub port_destroyed: Option<PortId>,
}

/// Returns what the tables say of a task's name; `None` if the task doesn't live or has no such name. Constant time, and
/// logarithmic for a name above 65,535.
pub fn name_state(world: &World, task: TaskId, name: Name) -> Option<NameState>
    ensures { (s : State) → Shows world.now s → IsNameSaid s task name result }
{
    let standing = world.lookup(task, name)?;
    let notify = match world.find_on_name(task, name) {
        Some(request) => Some(request.notify),
        None => None,
    };
    Some(NameState { standing, notify })
}

/// Returns in how many sets the port is beside the first. Linear in them.
fn count_more_sets(world: &World, port: PortId) -> usize
    ensures { (v : PortView Kept) → port_at world.now port ≡ Some v → result ≡ number_of (drop 1 (sets_in v)) }
{
    let Some(mut sets) = world.sets_of(port) else {
        return 0;
    };
    sets.next_set();
    let mut more: usize = 0;
    while let Some(_) = sets.next_set() {
        more = more.saturating_add(1);
    }
    more
}

/// Returns what the tables say of a port; `None` if it doesn't live. Linear in its sets.
pub fn port_state(world: &World, port: PortId) -> Option<PortState>
    ensures { (s : State) → Shows world.now s → IsPortSaid s port result }
{
    let attributes = world.find_attributes(port)?;
    let counts = world.counts(port)?;
    Some(PortState {
        holder: attributes.holder,
        set: attributes.set,
        more_sets: count_more_sets(world, port),
        queued: world.queued(port),
        limit: attributes.limit,
        make_send: attributes.make_send,
        sequence: attributes.sequence,
        send_rights: u64::from(counts.send),
        once_rights: u64::from(counts.send_once) + u64::from(counts.destination),
        no_senders: world.find_no_senders(port),
        port_destroyed: world.find_port_destroyed(port),
    })
}

/// Returns the task's name that has the port's receive right, if one has. Constant time.
pub fn receiver_name(world: &World, task: TaskId, port: PortId) -> Option<Name>
    ensures { (s : State) → Shows world.now s → IfSome result (λ name. Receives s task name port) }
{
    let name = world.find_space(task)?.name_of_port(port)?;
    if world.lookup(task, name)?.receive_port() == Some(port) {
        return Some(name);
    }
    None
}
