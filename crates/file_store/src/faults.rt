//! What is wrong with a file.
ghost use Rattle.std.specs.Prelude.{◌≡◌, option_map};
ghost use Rattle.file_store.specs.Refusal.{cause_refusal};
ghost use Rattle.file_store.specs.declared.faults.FileError.TheVariants.{Failed};

use std::error::Error;
use std::{fmt, io};

/// What is wrong, and with which file.
#[derive(Clone, Copy, Debug)]
pub struct PathError<'p> {
    /// The path; if there is no file, a name for the source.
    pub path: &'p str,
    /// Why it could not be used.
    pub cause: FileError,
}

/// The reason why a file is not accepted, or could not be read or written.
#[derive(Clone, Copy, Debug)]
pub enum FileError {
    /// It has more bytes than are accepted.
    LongFile,
    /// A seed file has fewer than 32 bytes.
    ShortSeed,
    /// A call of the store failed, or memory ran out.
    Failed(io::Error),
}

impl<'p> PathError<'p> {
    /// Returns the fault of a call that failed.
    pub fn failed(path: &'p str, error: io::Error) -> PathError<'p>
        ensures path { result.path.now ≡ path.now }
        ensures cause { result.cause ≡ Failed error }
    {
        PathError {
            path,
            cause: FileError::Failed(error),
        }
    }
}

impl FileError {
    /// Returns the word for it, if the file was read and is refused.
    pub fn refusal(self) -> Option<&'static str>
        // Promise, as ReadError::refusal of principals_text: each error has its ..
        ensures { option_map (λ word. word.now) result ≡ cause_refusal self }
    {
        match self {
            FileError::LongFile => Some("LongFile"),
            FileError::ShortSeed => Some("ShortSeed"),
            FileError::Failed(_) => None,
        }
    }
}

impl fmt::Display for FileError {
    fn fmt<W: fmt::Write>(&self, f: &mut fmt::Formatter<W>) -> fmt::Result {
        match self {
            FileError::LongFile => f.write_str("the file is too long"),
            FileError::ShortSeed => f.write_str("the seed has fewer than 32 bytes"),
            FileError::Failed(error) => write!(f, "{error}"),
        }
    }
}

impl Error for FileError {}

impl fmt::Display for PathError<'_> {
    fn fmt<W: fmt::Write>(&self, f: &mut fmt::Formatter<W>) -> fmt::Result {
        let path = self.path;
        let cause = self.cause;
        write!(f, "{path}: {cause}")
    }
}

impl Error for PathError<'_> {}
