//! Whether a name is what a call needs.
ghost use Rattle.std.specs.Prelude.{◌≡◌};
ghost use Rattle.mach_causes_base.specs.Needs as needs;
ghost use Rattle.mach_causes_base.specs.Needs.{meets, meets_disposition, meets_right};

use crate::cause::Wanted;
use mach_follow::Standing;

/// Whether what a name stands for is what the call needs. Constant time.
pub fn suffices(standing: &Standing, wanted: Wanted) -> bool
    ensures { result ≡ meets wanted standing.now }
{
    match wanted {
        Wanted::Disposition(number) => suffices_disposition(standing, number),
        Wanted::Receive => standing.has_receive(),
        Wanted::ReceiveOrSet => standing.has_receive() || matches!(standing, Standing::Set(_)),
        Wanted::Set => matches!(standing, Standing::Set(_)),
        Wanted::Right(number) => suffices_right(standing, number),
        Wanted::Deallocated => !matches!(standing, Standing::Receive(_) | Standing::Set(_)),
        Wanted::Mortal => !matches!(standing, Standing::Set(_)),
    }
}

/// Whether the name has the right that the disposition of this number takes.
fn suffices_disposition(standing: &Standing, number: u32) -> bool
    ensures { result ≡ meets_disposition number standing.now }
{
    match number {
        16 | 20 | 21 => standing.has_receive(),
        17 | 19 => has_send(standing),
        18 => matches!(standing, Standing::SendOnce(_)),
        _ => false,
    }
}

/// Whether the name has the right of this number.
fn suffices_right(standing: &Standing, number: u32) -> bool
    ensures { result ≡ meets_right number standing.now }
{
    match number {
        0 => has_send(standing),
        1 => standing.has_receive(),
        2 => matches!(standing, Standing::SendOnce(_)),
        3 => matches!(standing, Standing::Set(_)),
        4 => matches!(standing, Standing::DeadName(_)),
        _ => false,
    }
}

/// Whether the name has send rights.
fn has_send(standing: &Standing) -> bool
    ensures { result ≡ needs.has_send standing.now }
{
    matches!(standing, Standing::Send(..) | Standing::ReceiveAndSend(..))
}
