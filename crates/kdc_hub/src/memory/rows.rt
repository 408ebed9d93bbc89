//! A source of rows in memory.
ghost use Rattle.std.specs.Prelude.{◌≡◌, [], Some, false};
ghost use Rattle.std.specs.Option.{option_copied};

use crate::record::Record;
use crate::rows::{Look, RowSource, RowsState};
use kdc_core::OtherRealm;
use std::alloc::Global;
use std::collections::VecDeque;

/// A source that finds what it was given, and records it. For tests.
#[derive(Drop)]
pub struct MemoryRows {
    coming: VecDeque<Look>,
    looks: Record<Look>,
}

impl MemoryRows {
    /// Returns a source whose looks find these, in order. After them the rows never change.
    pub fn new(alloc: Global, coming: VecDeque<Look>) -> MemoryRows
        // Promise, as MemoryWire::new: what is in memory, ..
        ensures records { ⟦<MemoryRows as RowSource>⟧.recorded result ≡ Some [] }
    {
        MemoryRows {
            coming,
            looks: Record::new(alloc),
        }
    }

    /// Returns what the looks found, in order, if there was enough memory to record all of it.
    pub fn looks(&self) -> Option<&[Look]>
        // Promise, as MemoryWire::did: what is in memory ..
        ensures { option_copied result ≡ ⟦<MemoryRows as RowSource>⟧.recorded self.now }
    {
        self.looks.entries()
    }
}

impl RowSource for MemoryRows {
    ghost recorded = { λ s. s.looks };

    ghost is_fixed = { λ _. false };

    fn look(&mut self, alloc: Global) -> Look {
        let Some(look) = self.coming.pop_front() else {
            self.looks.keep(Ok(Look::Unchanged));
            return Look::Unchanged;
        };
        self.looks.keep(look.copy(alloc));
        look
    }

    fn report(&mut self, taken: Result<(), OtherRealm>) {}

    fn state(&self) -> RowsState {
        RowsState::first()
    }
}
