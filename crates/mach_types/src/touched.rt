//! What a step may have changed for those that wait.
ghost use Rattle.std.specs.Prelude.{◌≡◌, ◌↔◌, ◌⊎◌, [], ◌∷◌, IsTrue, Contains};
ghost use Rattle.mach_types.specs.declared.calls.Waited.{Waited as AnyWaited};
ghost use Rattle.mach_types.specs.Touching.{Covers, HasPlace};

use crate::calls::Waited;

/// The ports and port sets that a step may have changed: queue, limit, members, place of the receive right.
#[derive(Clone, Copy, Debug, PartialEq, Eq)]
pub enum Touched {
    /// These, and no other.
    Few([Option<Waited>; 4]),
    /// Any.
    All,
}

impl Touched {
    /// Returns the value for a step that changed no port and no set. Constant time.
    pub fn none() -> Touched
        ensures { (w : AnyWaited) → ¬ (Covers result w) }
    {
        Touched::Few([None, None, None, None])
    }

    /// Returns whether this port or set may have changed. Constant time.
    pub fn covers(&self, waited: Waited) -> bool
        ensures { IsTrue result ↔ Covers self.now waited }
    {
        match self {
            Touched::All => true,
            Touched::Few(named) => named.contains(&Some(waited)),
        }
    }

    /// Returns the same with this port or set added, and no other. Where four are named already the result is
    /// `All`, so ask `covers` first where one may come twice. Constant time.
    pub fn note(&self, waited: Waited) -> Touched
        ensures covers { Covers result waited }
        ensures keeps { (w : AnyWaited) → Covers self.now w → Covers result w }
        ensures no_other { HasPlace self.now → (w : AnyWaited) → Covers result w → Covers self.now w ⊎ (w ≡ waited) }
    {
        match self {
            Touched::All => Touched::All,
            Touched::Few([a, b, c, d]) => with(*a, *b, *c, *d, waited),
        }
    }
}

/// Puts one more into the first free place.
fn with(
    a: Option<Waited>,
    b: Option<Waited>,
    c: Option<Waited>,
    d: Option<Waited>,
    waited: Waited,
) -> Touched
    ensures covers { Covers result waited }
    ensures keeps { (w : AnyWaited) → Contains (a ∷ b ∷ c ∷ d ∷ []) (Some w) → Covers result w }
    ensures no_other { Contains (a ∷ b ∷ c ∷ d ∷ []) None → (w : AnyWaited) → Covers result w → Contains (a ∷ b ∷ c ∷ d ∷ []) (Some w) ⊎ (w ≡ waited) }
{
    let some = Some(waited);
    match (a, b, c, d) {
        (None, _, _, _) => Touched::Few([some, b, c, d]),
        (_, None, _, _) => Touched::Few([a, some, c, d]),
        (_, _, None, _) => Touched::Few([a, b, some, d]),
        (_, _, _, None) => Touched::Few([a, b, c, some]),
        _ => Touched::All,
    }
}
