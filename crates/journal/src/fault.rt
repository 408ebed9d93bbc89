//! Errors of reading and of writing a journal.
ghost use Rattle.std.specs.Prelude.{◌≡◌};
ghost use Rattle.journal.specs.declared.fault.JournalError.TheVariants as faults;

use krb_der::DerFault;
use std::alloc::{AllocError, AllocFailed};
use std::{fmt, io};

/// Why a text is not read as a journal. A caller above finds a broken journal as [`Found::Broken`](crate::Found).
#[derive(Clone, Copy, Debug, PartialEq, Eq)]
pub enum JournalError {
    /// The octets are no journal, or an entry was cut, changed, left out or added.
    Broken,
    /// Memory ran out.
    Memory,
}

impl From<DerFault> for JournalError {
    ghost from_gives = { λ _ e. e ≡ faults.Broken };

    fn from(_error: DerFault) -> JournalError {
        JournalError::Broken
    }
}

impl From<AllocError> for JournalError {
    ghost from_gives = { λ _ e. e ≡ faults.Memory };

    fn from(_error: AllocError) -> JournalError {
        JournalError::Memory
    }
}

impl<T: Drop> From<AllocFailed<T>> for JournalError {
    ghost from_gives = { λ _ e. e ≡ faults.Memory };

    fn from(_error: AllocFailed<T>) -> JournalError {
        JournalError::Memory
    }
}

/// A name or a number is too large for a journal.
#[derive(Clone, Copy, Debug, PartialEq, Eq)]
pub struct Unfit;

/// What [`Unfit`] prints.
const UNFIT: &str = "a name or a number is too large";

impl fmt::Display for Unfit {
    fn fmt<W: fmt::Write>(&self, f: &mut fmt::Formatter<W>) -> fmt::Result {
        f.write_str(UNFIT)
    }
}

impl From<Unfit> for io::Error {
    fn from(_error: Unfit) -> io::Error {
        io::Error::new(io::ErrorKind::InvalidData, UNFIT)
    }
}
