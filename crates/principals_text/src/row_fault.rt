//! Why a JSON value denotes no row.
use std::alloc::{AllocError, AllocFailed};

/// Why a JSON value denotes no row, or no part of one.
#[derive(Debug, Clone, Copy, PartialEq, Eq)]
pub(crate) enum RowError {
    BadRow,
    Memory,
}

impl From<AllocError> for RowError {
    ghost use Rattle.std.specs.Prelude.{◌≡◌};
    ghost use Rattle.principals_text.specs.declared.row_fault.RowError.{RowError};

    ghost from_gives = { λ _ fault. fault ≡ RowError.Memory };

    fn from(_: AllocError) -> RowError {
        RowError::Memory
    }
}

impl<T: Drop> From<AllocFailed<T>> for RowError {
    ghost use Rattle.std.specs.Prelude.{◌≡◌};
    ghost use Rattle.principals_text.specs.declared.row_fault.RowError.{RowError};

    ghost from_gives = { λ _ fault. fault ≡ RowError.Memory };

    fn from(_: AllocFailed<T>) -> RowError {
        RowError::Memory
    }
}
