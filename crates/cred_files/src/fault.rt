//! Errors of reading, searching and changing files.
ghost use Rattle.std.specs.Prelude.{◌≡◌, option_map};
ghost use Rattle.cred_files.specs.declared.fault.CredError.TheVariants.{Memory};
ghost use Rattle.cred_files.specs.RefusalWord.{cred_refusal};

use std::alloc::{AllocError, AllocFailed};
use std::error::Error;
use std::fmt;

/// What is wrong with a keytab or a credential cache, or with a request to it.
#[derive(Clone, Copy, Debug, PartialEq, Eq)]
pub enum CredError {
    /// The file has fewer than two bytes, or doesn't start with those of its format.
    BadMagic,
    /// The bytes end before a value does: a field, an entry or a hole.
    Truncated,
    /// An entry of a keytab ends within a field, or its key has the wrong length for its encryption type. When writing:
    /// an entry is too long.
    BadEntry,
    /// A time is before 1970, or more than 4294967295 seconds after the start of 1970.
    TooLate,
    /// There is no such credential.
    Absent,
    /// Memory ran out.
    Memory,
}

impl CredError {
    /// Returns the word that commands print if a file is refused. Out of memory has none: it refuses nothing.
    pub fn refusal(self) -> Option<&'static str>
        // Promise, as ReadError::refusal of principals_text: each error has its ..
        ensures { option_map (λ word. word.now) result ≡ cred_refusal self }
    {
        match self {
            CredError::BadMagic => Some("BadMagic"),
            CredError::Truncated => Some("Truncated"),
            CredError::BadEntry => Some("BadEntry"),
            CredError::TooLate => Some("TooLate"),
            CredError::Absent => Some("Absent"),
            CredError::Memory => None,
        }
    }

    /// Returns what is wrong, for a message after the name of the file.
    pub fn text(self) -> &'static str {
        match self {
            CredError::BadMagic => "the file does not start with the bytes of its format",
            CredError::Truncated => "the file ends too early",
            CredError::BadEntry => "an entry is invalid, or too long for the file",
            CredError::TooLate => "a time is out of the range of the file format",
            CredError::Absent => "there is no such credential",
            CredError::Memory => "out of memory",
        }
    }
}

impl fmt::Display for CredError {
    fn fmt<W: fmt::Write>(&self, f: &mut fmt::Formatter<W>) -> fmt::Result {
        f.write_str(self.text())
    }
}

impl Error for CredError {}

impl From<AllocError> for CredError {
    ghost from_gives = { λ _ e. e ≡ Memory };

    fn from(_error: AllocError) -> CredError {
        CredError::Memory
    }
}

impl<T: Drop> From<AllocFailed<T>> for CredError {
    ghost from_gives = { λ _ e. e ≡ Memory };

    fn from(_error: AllocFailed<T>) -> CredError {
        CredError::Memory
    }
}
