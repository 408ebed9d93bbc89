//! Why a text can't be read as a database.
ghost use Rattle.std.specs.Prelude.{◌≡◌, option_map};
ghost use Rattle.principals_text.specs.RefusalWord.{read_refusal};

use crate::row_fault::RowError;
use std::alloc::AllocError;
use std::error::Error;
use std::fmt;

/// The reason why a text can't be read as a database.
#[derive(Debug, Clone, Copy, PartialEq, Eq)]
pub enum ReadError {
    /// The text is not a JSON object.
    NotJson,
    /// The object has no version that can be read.
    BadVersion,
    /// The realm, or a row, is wrong.
    BadRow,
    /// The ticket-granting service has no row.
    NoTicketGranter,
    /// Memory ran out.
    Memory,
}

impl ReadError {
    /// Returns the word that commands print if a text is refused. Out of memory has none: it refuses nothing.
    pub fn refusal(self) -> Option<&'static str>
        // Promise: each error has its word.
        ensures { option_map (λ word. word.now) result ≡ read_refusal self }
    {
        match self {
            ReadError::NotJson => Some("NotJson"),
            ReadError::BadVersion => Some("BadVersion"),
            ReadError::BadRow => Some("BadRow"),
            ReadError::NoTicketGranter => Some("NoTicketGranter"),
            ReadError::Memory => None,
        }
    }

    /// Returns what is wrong with the text, for a message after the name of its file.
    pub fn text(self) -> &'static str {
        match self {
            ReadError::NotJson => "this is not a database: its text is not a JSON object",
            ReadError::BadVersion => "this is not a database of a version that this program reads",
            ReadError::BadRow => "its realm or one of its rows is invalid",
            ReadError::NoTicketGranter => "it has no row for krbtgt/REALM",
            ReadError::Memory => "out of memory",
        }
    }
}

impl fmt::Display for ReadError {
    fn fmt<W: fmt::Write>(&self, f: &mut fmt::Formatter<W>) -> fmt::Result {
        f.write_str(self.text())
    }
}

impl Error for ReadError {}

impl From<AllocError> for ReadError {
    ghost use Rattle.std.specs.Prelude.{◌≡◌};
    ghost use Rattle.principals_text.specs.declared.read_fault.ReadError.{ReadError};

    ghost from_gives = { λ _ fault. fault ≡ ReadError.Memory };

    fn from(_: AllocError) -> ReadError {
        ReadError::Memory
    }
}

impl From<RowError> for ReadError {
    ghost use Rattle.std.specs.Prelude.{◌≡◌};
    ghost use Rattle.principals_text.specs.ReadError.{read_fault};

    ghost from_gives = { λ row fault. fault ≡ read_fault row };

    fn from(fault: RowError) -> ReadError {
        match fault {
            RowError::BadRow => ReadError::BadRow,
            RowError::Memory => ReadError::Memory,
        }
    }
}
