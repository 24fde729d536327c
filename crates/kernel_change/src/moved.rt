//! Which receive rights a message's body carries.
ghost use Rattle.std.specs.Prelude.{◌≡◌, ℕ, ◌++◌, List};
ghost use Rattle.std.specs.Option.{option_to_list};
ghost use Rattle.kernel_change.specs.Changing.{receives_of, moved_by};

use copyin_base::Carried;
use mach_types::PortId;

/// The ports whose receive rights a message's body carries, where they are three at most.
#[derive(Clone, Copy, Debug)]
pub(crate) enum Moved {
    /// None.
    Nothing,
    /// This one alone.
    One(PortId),
    /// These two, in order.
    Two(PortId, PortId),
    /// These three, in order.
    Three(PortId, PortId, PortId),
    /// More.
    Several,
}

impl Moved {
    /// Of a body with these rights. Linear in them.
    pub(crate) fn by(rights: &[Carried]) -> Moved
        ensures { result ≡ moved_by (receives_of rights.now) }
    {
        let mut moved = Moved::Nothing;
        for carried in rights {
            moved = moved.with(carried.receive_port());
        }
        moved
    }

    /// With this port, if there is one.
    fn with(self, port: Option<PortId>) -> Moved
        ensures { (ports : List ℕ) → self ≡ moved_by ports → result ≡ moved_by (ports ++ option_to_list port) }
    {
        let Some(port) = port else {
            return self;
        };
        match self {
            Moved::Nothing => Moved::One(port),
            Moved::One(a) => Moved::Two(a, port),
            Moved::Two(a, b) => Moved::Three(a, b, port),
            Moved::Three(..) | Moved::Several => Moved::Several,
        }
    }
}
