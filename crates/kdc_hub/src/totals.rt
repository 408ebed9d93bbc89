//! The counts of a server over its life.
ghost use Rattle.std.specs.Prelude.{◌≡◌, ◌+◌, ◌<◌, ◌^◌, ◌-◌, min};

use crate::server::Served;

/// The counts of a server over its life.
#[derive(Clone, Copy, PartialEq, Eq)]
pub struct Totals {
    /// Events that arrived.
    pub events: u64,
    /// Failed calls of the Wire. The count stops at the greatest `u64`.
    pub faults: u64,
    /// Events that ran out of memory.
    pub refused: u64,
}

impl Totals {
    /// Returns zero counts.
    pub fn new() -> Totals
        ensures events { result.events ≡ 0 }
        ensures faults { result.faults ≡ 0 }
        ensures refused { result.refused ≡ 0 }
    {
        Totals {
            events: 0,
            faults: 0,
            refused: 0,
        }
    }

    /// Adds the counts of some more rounds.
    pub fn with(self, served: Served) -> Totals
        requires events { self.events + served.events < 2 ^ 64 }
        requires refused { self.refused + served.refused < 2 ^ 64 }
        ensures events { result.events ≡ self.events + served.events }
        ensures faults { result.faults ≡ min (self.faults + served.faults) (2 ^ 64 - 1) }
        ensures refused { result.refused ≡ self.refused + served.refused }
    {
        Totals {
            events: self.events + u64::from(served.events),
            faults: self.faults.saturating_add(served.faults),
            refused: self.refused + u64::from(served.refused),
        }
    }
}
