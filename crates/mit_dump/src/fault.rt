//! Why a text is no dump, or why the keys in it can't be decrypted.
ghost use Rattle.std.specs.Prelude.{◌≡◌};
ghost use Rattle.mit_dump.specs.Fault.{is_memory};

use std::alloc::{AllocError, AllocFailed};
use std::fmt;

/// What is wrong with a dump, and where.
#[derive(Clone, Copy, Debug, PartialEq, Eq)]
pub struct DumpError {
    /// The number of the line, from 1; `None` if the keys of a principal can't be decrypted.
    pub line: Option<usize>,
    cause: Cause,
}

/// What is wrong with a line of a dump, or with the keys of its principal.
#[derive(Clone, Copy, Debug, PartialEq, Eq)]
pub(crate) enum Cause {
    /// The first line is not `kdb5_util load_dump version N`, with N from 5 to 8.
    Header,
    /// The line is neither that of a principal nor that of a policy.
    Word,
    /// The line doesn't have as many fields as its counts say.
    Count,
    /// A field is not a number from 0 to 4294967295, in decimal.
    Number,
    /// The name is not written as `kdb5_util` writes it, or doesn't have the given length.
    Name,
    /// Bytes are not in hexadecimal, or don't have the given length.
    Octets,
    /// The text ends inside the line.
    Cut,
    /// The stash file lacks the master key that encrypts the principal's keys.
    NoMaster,
    /// A key is not encrypted with the master key, or doesn't have the length that its type requires.
    NotOpened,
    /// Memory ran out.
    Memory,
}

impl DumpError {
    /// Returns the error of a line.
    pub(crate) fn at_line(line: usize, cause: Cause) -> DumpError {
        DumpError {
            line: Some(line),
            cause,
        }
    }

    /// Returns the error of a principal's keys.
    pub(crate) fn of_keys(cause: Cause) -> DumpError {
        DumpError { line: None, cause }
    }

    /// Checks whether memory ran out. If so, nothing is known to be wrong with the dump.
    pub fn is_memory(self) -> bool
        // Promise: an error of a dump says whether memory ran out.
        ensures { result ≡ is_memory self }
    {
        self.cause == Cause::Memory
    }
}

/// Writes the line, if there is one, and what is wrong.
impl fmt::Display for DumpError {
    fn fmt<W: fmt::Write>(&self, f: &mut fmt::Formatter<W>) -> fmt::Result {
        match self.line {
            Some(line) => write!(f, "line {line}: {}", self.cause),
            None => write!(f, "{}", self.cause),
        }
    }
}

impl fmt::Display for Cause {
    fn fmt<W: fmt::Write>(&self, f: &mut fmt::Formatter<W>) -> fmt::Result {
        f.write_str(match self {
            Cause::Header => "it is not `kdb5_util load_dump version N`, with N from 5 to 8",
            Cause::Word => "it is neither a principal (princ) nor a policy (policy)",
            Cause::Count => "it has more or fewer fields than its counts say",
            Cause::Number => "a field is not a number from 0 to 4294967295",
            Cause::Name => "its name is not one as kdb5_util writes it",
            Cause::Octets => "bytes are not in hexadecimal, or have another length",
            Cause::Cut => "the text ends inside it",
            Cause::NoMaster => {
                "the stash file lacks the master key that encrypts its keys; `kdb5_util stash` writes all"
            }
            Cause::NotOpened => "the master key in the stash file does not decrypt its keys",
            Cause::Memory => "out of memory",
        })
    }
}

impl From<AllocError> for Cause {
    fn from(_: AllocError) -> Cause {
        Cause::Memory
    }
}

impl<T: Drop> From<AllocFailed<T>> for Cause {
    fn from(_: AllocFailed<T>) -> Cause {
        Cause::Memory
    }
}

impl From<AllocError> for DumpError {
    fn from(_: AllocError) -> DumpError {
        DumpError::of_keys(Cause::Memory)
    }
}

impl<T: Drop> From<AllocFailed<T>> for DumpError {
    fn from(_: AllocFailed<T>) -> DumpError {
        DumpError::of_keys(Cause::Memory)
    }
}
