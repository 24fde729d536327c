//! Which right may be handed on, and what refuses it.
ghost use Rattle.std.specs.Prelude.{◌≡◌, ◌≢◌, ℕ, ◌<◌, ◌≤◌, true, Some, None, IfOk, IfErr, IfSome, MatchBool};
ghost use Rattle.mach_types.specs.declared.calls.Event.{Event as AnyEvent};
ghost use Rattle.mach_types.specs.declared.codes.KernReturn.TheVariants as kern;
ghost use Rattle.mach_types.specs.Guards.{FirstIs, NoneHolds};
ghost use Rattle.mach_types.specs.Numbers.{disposition, kind_sent, most_names, most_references, most_rights};
ghost use Rattle.mach_types.specs.Codes.{kern_number};
ghost use Rattle.mach_types.specs.Tokens.{send};
ghost use Rattle.mach_model.specs.Refusals.{insert_guards, extract_guards};
ghost use Rattle.mach_model.specs.NameGuards.{IsNoName};
ghost use Rattle.copyin_base.specs.Serving.{Declines, IsRefused};
ghost use Rattle.copyin_base.specs.Stands.{Stands};
ghost use Rattle.copyin_base.specs.Worlds.{HasTask};
ghost use Rattle.transfer.specs.Transfer.{CanGo, MayInsert, MayExtract, WantsName, names_needed, going_guards, left_at, names_left, rights_then, port_under, references_under, IsElsewhere, IsTaken, Overflows, LacksSpace, insert_later, extract_later};
ghost use Rattle.transfer.specs.Room.{slots_needed};

use copyin_base::{Mark, World};
use dispositions::copy_right;
use mach_types::limits::{MOST_NAMES, MOST_REFERENCES, MOST_RIGHTS};
use mach_types::{Disposition, KernReturn, Name, PortId, Right, TaskId};
use name_space::Entry;

/// A name of a task.
#[derive(Clone, Copy)]
pub struct TaskName {
    /// The task.
    pub task: TaskId,
    /// The name, of which it may have a right or not.
    pub name: Name,
}

impl TaskName {
    /// This name of this task.
    pub fn new(task: TaskId, name: Name) -> TaskName
        ensures { result ≡ record { task = task; name = name } }
    {
        TaskName { task, name }
    }
}

// ---- the right that goes

/// How a right may be handed on.
#[derive(Clone, Copy)]
pub struct Handed {
    /// By which disposition it goes.
    pub given: Disposition,
    /// What it is a right for.
    pub port: PortId,
    /// Whether it needs a name more of the task that it comes to, once it was copied in.
    pub is_new: bool,
}

impl Handed {
    /// How many names more it needs.
    pub(crate) fn count_names(&self) -> usize
        ensures { result ≡ names_needed self.now }
    {
        usize::from(self.is_new)
    }

    /// How many message slots more it needs.
    pub(crate) fn count_slots(&self) -> usize
        ensures { result ≡ slots_needed self.now }
    {
        match self.given {
            Disposition::MakeSendOnce => 1,
            _ => 0,
        }
    }
}

/// A right that goes from a name.
#[derive(Clone, Copy)]
struct Going {
    /// The task that it goes from.
    from: TaskId,
    /// The name that it goes from.
    name: Name,
    /// By which disposition it goes.
    given: Disposition,
    /// What it is a right for.
    port: PortId,
    /// What is left under the name.
    left: Option<Entry>,
}

/// By which disposition, and for which port, a right may be inserted so, where there is memory: refused as
/// [`insert`] refuses it, except when out of memory. `number` is the disposition's. The tasks live, and may
/// be the same. Nothing changes. Constant time, and logarithmic for a name above 65,535.
///
/// [`insert`]: crate::insert
pub fn judge_insert(
    world: &World,
    to: &TaskName,
    from: &TaskName,
    number: u32,
) -> Result<Handed, KernReturn>
    requires there { (HasTask world.now to.now.task) × (HasTask world.now from.now.task) }
    requires stands { Stands world.now }
    ensures ok { IfOk result (λ handed. MayInsert world.now to.now from.now number handed) }
    ensures err { IfErr result (λ code. Declines world.now (AnyEvent.InsertRight to.now.task to.now.name from.now.task from.now.name number) (kern_number code) world.now) }
    ensures early { IfErr result (λ code. kern_number code ≢ kern_number kern.ResourceShortage) }
{
    match &may_insert(world, to, from, number) {
        Ok(going) => going.check_insert(world, to.task, to.name),
        Err(code) => Err(*code),
    }
}

/// By which disposition, and for which port, a right may be extracted so, where there is memory: refused as
/// [`extract`] refuses it, except when out of memory. `number` is the disposition's. The tasks live, and may
/// be the same. Nothing changes. Constant time, and logarithmic for a name above 65,535.
///
/// [`extract`]: crate::extract
pub fn judge_extract(
    world: &World,
    from: &TaskName,
    number: u32,
    to: TaskId,
) -> Result<Handed, KernReturn>
    requires there { (HasTask world.now from.now.task) × (HasTask world.now to) }
    requires stands { Stands world.now }
    ensures ok { IfOk result (λ handed. MayExtract world.now from.now number to handed) }
    ensures err { IfErr result (λ code. Declines world.now (AnyEvent.ExtractRight from.now.task from.now.name number to) (kern_number code) world.now) }
    ensures early { IfErr result (λ code. kern_number code ≢ kern_number kern.ResourceShortage) }
{
    match &may_extract(world, from, number) {
        Ok(going) => going.check_extract(world, to),
        Err(code) => Err(*code),
    }
}

/// The right that may go to be inserted, as far as that is judged before it goes.
fn may_insert(
    world: &World,
    to: &TaskName,
    from: &TaskName,
    number: u32,
) -> Result<Going, KernReturn>
    ensures ok { IfOk result (λ g. (g.from ≡ from.now.task) × (g.name ≡ from.now.name) × CanGo world.now number g × ¬ (IsNoName to.now.name) × ¬ (IsNoName from.now.name)) }
    ensures err { IfErr result (λ code. IsRefused world.now (λ s. insert_guards s to.now.task to.now.name from.now.task from.now.name number) (kern_number code)) }
{
    check_name(to.name, KernReturn::InvalidValue)?;
    let given = disposition_of(number)?;
    check_name(from.name, KernReturn::InvalidCapability)?;
    find_going(world, from, given, KernReturn::InvalidCapability)
}

/// The right that may go to be extracted, as far as that is judged before it goes.
fn may_extract(world: &World, from: &TaskName, number: u32) -> Result<Going, KernReturn>
    ensures ok { IfOk result (λ g. (g.from ≡ from.now.task) × (g.name ≡ from.now.name) × CanGo world.now number g) }
    ensures err { IfErr result (λ code. IsRefused world.now (λ s. extract_guards s from.now.task from.now.name number 0) (kern_number code)) }
{
    let given = disposition_of(number)?;
    find_going(world, from, given, KernReturn::InvalidRight)
}

/// Whether a right may stand under the number; the caller says the code where it is no name.
fn check_name(name: Name, code: KernReturn) -> Result<(), KernReturn>
    ensures ok { IfOk result (λ _. ¬ (IsNoName name)) }
    ensures err { IfErr result (λ given. (given ≡ code) × IsNoName name) }
{
    if name.is_usable() { Ok(()) } else { Err(code) }
}

/// The disposition of the number; `KERN_INVALID_VALUE` where there is none.
fn disposition_of(number: u32) -> Result<Disposition, KernReturn>
    ensures ok { IfOk result (λ given. disposition number ≡ Some given) }
    ensures err { IfErr result (λ code. (code ≡ kern.InvalidValue) × (disposition number ≡ None)) }
{
    Disposition::from_number(number).ok_or(KernReturn::InvalidValue)
}

/// What goes from the name; the caller says the code for a dead name.
fn find_going(
    world: &World,
    from: &TaskName,
    given: Disposition,
    dead: KernReturn,
) -> Result<Going, KernReturn>
    ensures ok { IfOk result (λ g. (g.from ≡ from.now.task) × (g.name ≡ from.now.name) × ((number : ℕ) → disposition number ≡ Some given → CanGo world.now number g)) }
    ensures err { IfErr result (λ code. (number : ℕ) → disposition number ≡ Some given → IsRefused world.now (λ s. going_guards s from.now.task from.now.name number dead) (kern_number code)) }
{
    let entry = world.find(from.task, from.name)?;
    let Some(copied) = copy_right(given, &entry) else {
        return Err(KernReturn::InvalidRight);
    };
    match &copied.mark {
        Mark::Port(port) => Ok(Going {
            from: from.task,
            name: from.name,
            given,
            port: *port,
            left: copied.left,
        }),
        Mark::Null | Mark::Dead => Err(dead),
    }
}

impl Going {
    // ---- what is left when it went

    /// What is under the task's name.
    fn entry_left(&self, world: &World, task: TaskId, name: Name) -> Option<Entry>
        ensures { result ≡ left_at world.now task self.now name }
    {
        if task.number() == self.from.number() && name.number() == self.name.number() {
            self.left
        } else {
            world.lookup(task, name)
        }
    }

    /// How many names the task has.
    fn count_left(&self, world: &World, task: TaskId) -> usize
        requires there { HasTask world.now task }
        ensures { result ≡ names_left world.now task self.now }
    {
        let count = world.space(task).len();
        if self.left.is_none() && task.number() == self.from.number() {
            count.saturating_sub(1)
        } else {
            count
        }
    }

    /// Returns whether receive or send rights for its port stand there.
    fn is_for(&self, entry: &Option<Entry>) -> bool
        ensures { MatchBool result (port_under entry.now ≡ Some self.now.port) (port_under entry.now ≢ Some self.now.port) }
    {
        match port_of(entry) {
            Some(port) => port.number() == self.port.number(),
            None => false,
        }
    }

    /// The task's name for its port.
    fn name_left(&self, world: &World, task: TaskId) -> Option<Name>
        requires there { HasTask world.now task }
        requires goes { (number : ℕ) × CanGo world.now number self.now }
        ensures some { IfSome result (λ name. port_under (left_at world.now task self.now name) ≡ Some self.now.port) }
        ensures only { (name : ℕ) → port_under (left_at world.now task self.now name) ≡ Some self.now.port → result ≡ Some name }
    {
        let name = world.space(task).name_of_port(self.port)?;
        if self.is_for(&self.entry_left(world, task, name)) {
            Some(name)
        } else {
            None
        }
    }

    /// Returns whether there are too many rights, with the one that may be made.
    fn lacks_rights(&self, world: &World) -> bool
        ensures { MatchBool result (most_rights < rights_then world.now self.now) (rights_then world.now self.now ≤ most_rights) }
    {
        let total = world.total_rights();
        self.given.makes_right() && total == MOST_RIGHTS
    }

    // ---- judged in what is left

    /// Returns whether the task has the port under another name.
    fn is_elsewhere(&self, world: &World, task: TaskId, name: Name) -> bool
        requires there { HasTask world.now task }
        requires goes { (number : ℕ) × CanGo world.now number self.now }
        ensures { MatchBool result (IsElsewhere (left_at world.now task self.now) name self.now.port (kind_sent self.now.given))
            (¬ (IsElsewhere (left_at world.now task self.now) name self.now.port (kind_sent self.now.given))) }
    {
        if self.given.is_send_once() {
            return false;
        }
        match self.name_left(world, task) {
            Some(other) => other.number() != name.number(),
            None => false,
        }
    }

    /// Returns whether something else is under the name.
    fn is_taken(&self, entry: &Option<Entry>) -> bool
        ensures { MatchBool result (IsTaken entry.now self.now.port (kind_sent self.now.given)) (¬ (IsTaken entry.now self.now.port (kind_sent self.now.given))) }
    {
        entry.is_some() && (self.given.is_send_once() || !self.is_for(entry))
    }

    /// Returns whether there would be too many references.
    fn overflows(&self, entry: &Option<Entry>) -> bool
        ensures { MatchBool result (Overflows entry.now (kind_sent self.now.given)) (¬ (Overflows entry.now (kind_sent self.now.given))) }
    {
        is_send(self.given) && references_of(entry) >= MOST_REFERENCES
    }

    /// Returns whether there is no room for the right, or for the name where it is new.
    fn lacks_space(&self, world: &World, task: TaskId, is_new: bool) -> bool
        requires there { HasTask world.now task }
        ensures { MatchBool result (LacksSpace (names_left world.now task self.now) (rights_then world.now self.now) (is_new ≡ true)) (¬ (LacksSpace (names_left world.now task self.now) (rights_then world.now self.now) (is_new ≡ true))) }
    {
        is_new && self.count_left(world, task) >= MOST_NAMES || self.lacks_rights(world)
    }

    /// How it may be handed on.
    fn handed(&self, is_new: bool) -> Handed
        ensures { result ≡ record { given = self.now.given; port = self.now.port; is_new = is_new } }
    {
        Handed {
            given: self.given,
            port: self.port,
            is_new,
        }
    }

    /// Whether it can come under this name.
    fn check_insert(&self, world: &World, task: TaskId, name: Name) -> Result<Handed, KernReturn>
        requires there { HasTask world.now task }
        requires goes { (number : ℕ) × CanGo world.now number self.now }
        ensures ok { IfOk result (λ handed. (handed.given ≡ self.now.given) × (handed.port ≡ self.now.port) × NoneHolds (insert_later world.now task name self.now)
            × MatchBool handed.is_new (left_at world.now task self.now name ≡ None) (left_at world.now task self.now name ≢ None)) }
        ensures err { IfErr result (λ code. FirstIs (insert_later world.now task name self.now) (kern_number code)) }
    {
        let entry = self.entry_left(world, task, name);
        if self.is_elsewhere(world, task, name) {
            return Err(KernReturn::RightExists);
        }
        if self.is_taken(&entry) {
            return Err(KernReturn::NameExists);
        }
        if self.overflows(&entry) {
            return Err(KernReturn::UrefsOverflow);
        }
        let is_new = entry.is_none();
        if self.lacks_space(world, task, is_new) {
            return Err(KernReturn::NoSpace);
        }
        Ok(self.handed(is_new))
    }

    /// Whether it can come to the task, under a name that the kernel chooses.
    fn check_extract(&self, world: &World, to: TaskId) -> Result<Handed, KernReturn>
        requires there { HasTask world.now to }
        requires goes { (number : ℕ) × CanGo world.now number self.now }
        ensures ok { IfOk result (λ handed. (handed.given ≡ self.now.given) × (handed.port ≡ self.now.port) × NoneHolds (extract_later world.now to self.now)
            × MatchBool handed.is_new (WantsName world.now to self.now) (¬ (WantsName world.now to self.now))) }
        ensures err { IfErr result (λ code. FirstIs (extract_later world.now to self.now) (kern_number code)) }
    {
        let is_new = self.given.is_send_once() || self.name_left(world, to).is_none();
        if self.lacks_space(world, to, is_new) {
            return Err(KernReturn::NoSpace);
        }
        Ok(self.handed(is_new))
    }
}

/// The port for which receive or send rights stand there.
fn port_of(entry: &Option<Entry>) -> Option<PortId>
    ensures { result ≡ port_under entry.now }
{
    match entry {
        Some(entry) => entry.port(),
        None => None,
    }
}

/// How many send references stand there.
fn references_of(entry: &Option<Entry>) -> u32
    ensures { result ≡ references_under entry.now }
{
    match entry {
        Some(entry) => entry.send_references(),
        None => 0,
    }
}

/// Returns whether a send right goes.
fn is_send(given: Disposition) -> bool
    ensures { MatchBool result (kind_sent given ≡ send) (kind_sent given ≢ send) }
{
    matches!(given.kind(), Right::Send)
}
