//! The source of a realm's rows while it is served.
ghost use Rattle.std.specs.Prelude.{◌≡◌, ◌∷◌, [], Bool, true, List, Option, IfOk};
ghost use Rattle.kdc_hub.specs.Wire.{Records};
ghost use Rattle.kdc_hub.specs.Recorded.{is_fixed_if, recorded_by_any};
ghost use Rattle.kdc_hub.specs.declared.rows.Look.{Look};
ghost use Rattle.kdc_hub.specs.declared.rows.Look.TheVariants.{Unchanged};

use kdc_core::OtherRealm;
use principals::Database;
use std::alloc::{AllocError, Global};

/// The result of a look at a source of rows.
#[derive(Drop)]
pub enum Look {
    /// The rows are those that the source gave last.
    Unchanged,
    /// There are new rows.
    Changed(Database),
    /// There are new rows, but they can't be used.
    Failed,
}

impl Look {
    /// Returns a copy.
    pub fn copy(&self, alloc: Global) -> Result<Look, AllocError>
        ensures { IfOk result (λ copy. copy ≡ self.now) }
    {
        Ok(match self {
            Look::Unchanged => Look::Unchanged,
            Look::Changed(database) => Look::Changed(database.copy(alloc)?),
            Look::Failed => Look::Failed,
        })
    }
}

/// The state of the rows that are served, as their source knows it.
#[derive(Clone, Copy, PartialEq, Eq)]
pub struct RowsState {
    /// The second since 1970 when they were taken, if they are not those of the start.
    pub taken_at: Option<i64>,
    /// Whether there are newer rows that can't be used.
    pub is_behind: bool,
}

impl RowsState {
    /// Returns the state of a source whose rows were never replaced.
    pub fn first() -> RowsState {
        RowsState {
            taken_at: None,
            is_behind: false,
        }
    }
}

/// A source of a realm's rows while it is served. It may have a record, for contracts alone.
pub trait RowSource {
    // What the looks so far have found, in order, if the source has a record.
    ghost recorded: { Self → Option (List Look) };

    // Whether its rows never change.
    ghost is_fixed: { Self → Bool };

    /// Checks whether there are other rows than those that the source gave last.
    fn look(&mut self, alloc: Global) -> Look
        // Promise: a source of rows records what each look found, if it records anything.
        ensures records { Records (recorded self.old) (result ∷ []) (recorded self.new) }
        // Promise (fixed, stays), as take_rows of kdc_server: with `--fixed` the host ..
        ensures fixed { is_fixed self.old ≡ true → result ≡ Unchanged }
        ensures stays { is_fixed self.new ≡ is_fixed self.old };

    /// Learns whether the rows of the last look are served from now on.
    fn report(&mut self, taken: Result<(), OtherRealm>)
        // Promise, as RowSource::look: a source of rows ..
        ensures records { recorded self.new ≡ recorded self.old }
        ensures stays { is_fixed self.new ≡ is_fixed self.old };

    /// Returns the state of the rows that are served.
    fn state(&self) -> RowsState;
}

/// Without a source the rows never change.
impl<S: RowSource> RowSource for Option<S> {
    ghost recorded = { recorded_by_any S.recorded };

    ghost is_fixed = { is_fixed_if S.is_fixed };

    fn look(&mut self, alloc: Global) -> Look {
        match self {
            Some(source) => source.look(alloc),
            None => Look::Unchanged,
        }
    }

    fn report(&mut self, taken: Result<(), OtherRealm>) {
        if let Some(source) = self {
            source.report(taken);
        }
    }

    fn state(&self) -> RowsState {
        match self {
            Some(source) => source.state(),
            None => RowsState::first(),
        }
    }
}
