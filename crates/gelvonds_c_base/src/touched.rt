//! What a call may have changed, in four places.
ghost use Rattle.std.specs.Prelude.{◌≡◌};
ghost use Rattle.gelvonds_c_base.specs.Answers.{c_place, c_touched};

use crate::waited::{NOWHERE, WaitedFor, waited_for};
use mach_types::{Touched, Waited};

/// The ports and sets that a call may have changed: four places, and whether it may be any.
#[repr(C)]
#[derive(Clone, Copy)]
pub struct TouchedPlaces {
    /// A port or a set, or the kind 0 where the place is free.
    pub first: WaitedFor,
    /// Another.
    pub second: WaitedFor,
    /// Another.
    pub third: WaitedFor,
    /// Another.
    pub fourth: WaitedFor,
    /// 1 where it may be any port and any set, else 0.
    pub all: u32,
}

/// Returns the ports and sets that a call may have changed, for C. Constant time.
pub fn places(touched: &Touched) -> TouchedPlaces
    ensures { result ≡ c_touched touched.now }
{
    match touched {
        Touched::Few([first, second, third, fourth]) => TouchedPlaces {
            first: place(first),
            second: place(second),
            third: place(third),
            fourth: place(fourth),
            all: 0,
        },
        Touched::All => {
            let none = place(&None);
            TouchedPlaces {
                first: none,
                second: none,
                third: none,
                fourth: none,
                all: 1,
            }
        }
    }
}

/// A port or a set, or a free place.
fn place(waited: &Option<Waited>) -> WaitedFor
    ensures { result ≡ c_place waited.now }
{
    match waited {
        Some(waited) => waited_for(waited),
        None => NOWHERE,
    }
}
