//! What decides whether a caller waits.
ghost use Rattle.std.specs.Prelude.{◌≢◌, ◌↔◌, IsTrue};
ghost use Rattle.mach_msg_threads.specs.Gates.{MayChange, Told, nothing};

use mach_types::{KernReturn, Reply, Touched, Waited};

/// Whether a message call waits, and what is told of each call.
///
/// `pause` waits, if it wants to, until a try may go otherwise than the one before. What
/// [`mach_msg`](crate::mach_msg) does to the kernel, it does whatever the gate returns. [`Hall`](crate::Hall) has gates for
/// blocks in threads.
pub trait Gate {
    ghost use Rattle.std.specs.Prelude.{MatchBool, Option};
    ghost use Rattle.mach_types.specs.declared.calls.Waited.{Waited};
    ghost use Rattle.mach_types.specs.declared.touched.Touched.{Touched};
    ghost use Rattle.mach_msg_threads.specs.Gates.{Exchange, Changed, Unchanged, Asked};

    /// How a gate that is told or asked something goes from one state to the next. A gate that doesn't say promises
    /// nothing.
    ghost passes: { Self → Exchange → Self → Type 0 } = { λ _ _ _. Unit {0} };

    /// Returns whether to try again after a try that found the queue full, or no message. `turn` counts the
    /// tries that were made again, the first is 1; it stays at 4,294,967,295.
    fn pause(&mut self, turn: u32) -> bool
        ensures { (on : Option Waited) → passes self.old (Asked turn on result) self.new };

    /// The same, where `on` is the port or set that the receive found without a message; `None` after a try that
    /// found the queue full. A step that doesn't touch that port or set leaves the next try as the last one was. A
    /// message call asks this one.
    fn pause_for(&mut self, turn: u32, on: Option<Waited>) -> bool
        ensures { passes self.old (Asked turn on result) self.new }
    {
        self.pause(turn)
    }

    /// A call was made. `changed` is false where it changed nothing ([`is_change`]).
    fn stepped(&mut self, changed: bool)
        ensures { MatchBool changed ((touched : Touched) → passes self.old (Changed touched) self.new) (passes self.old Unchanged self.new) };

    /// A call was made that may have changed something: these ports and sets, of all that a receive waits on. It is
    /// told this way of each call but those of which `stepped` is told that nothing changed.
    fn stepped_at(&mut self, touched: &Touched)
        ensures { passes self.old (Changed touched.now) self.new }
    {
        self.stepped(true);
    }
}

/// Returns whether a call with this reply may have changed anything. `touched` is what it left in its pass
/// ([`Pass::touched`](kernel_lock::Pass::touched)).
///
/// A call changes nothing where it wasn't recorded, was refused, found no message, left one that was too long, or
/// only reads: references, a type, names, a status, members. Constant time.
pub fn is_change(reply: &Reply, touched: &Touched) -> bool
    ensures { IsTrue result ↔ MayChange reply.now touched.now }
{
    match reply {
        Reply::Code(code) => *code == KernReturn::Success.number(),
        Reply::TooLarge(_) => touches_any(touched),
        Reply::Task(_)
        | Reply::Name(_)
        | Reply::Right(..)
        | Reply::Previous(_)
        | Reply::Message(_) => true,
        Reply::Refs(_)
        | Reply::NameType(_)
        | Reply::Names(_)
        | Reply::Status(_)
        | Reply::Members(_)
        | Reply::Empty(_)
        | Reply::NoRecord => false,
    }
}

// Whether any port or set may have changed.
fn touches_any(touched: &Touched) -> bool
    ensures { IsTrue result ↔ (touched.now ≢ nothing) }
{
    match touched {
        Touched::Few([None, None, None, None]) => false,
        _ => true,
    }
}

/// Tells the gate of a call with this reply, and what it may have changed.
pub fn tell<G: Gate>(gate: &mut G, reply: &Reply, touched: &Touched)
    ensures told { Told G.passes reply.now touched.now gate.old gate.new }
{
    if is_change(reply, touched) {
        gate.stepped_at(touched);
    } else {
        gate.stepped(false);
    }
}
