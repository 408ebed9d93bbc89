//! The files that a server reads: what it takes from them, and why it refuses them.
ghost use Rattle.std.specs.Prelude.{◌≡◌, ◌≤◌, ◌<◌, IfErr, IfOk, length, option_map, take, vec_len};
ghost use Rattle.file_store.specs.declared.faults.FileError.TheVariants.{Failed, ShortSeed};
ghost use Rattle.kdc_files.specs.Refusal.{refusal};
ghost use Rattle.kdc_files.specs.declared.files.ServerFileError.TheVariants.{File};

use crate::journal_parts::JournalPart;
use file_store::{FileError, read_within, seed_of};
use principals_text::{DatabaseError, LONGEST_TEXT};
use std::alloc::{AllocError, Global};
use std::io::{Error, Read};
use std::{fmt, io};

/// The beginning of the message for a journal that is not removed.
const NOT_REMOVED: &str = "its journal .journal beside it can't be removed";

/// Why a file of a server is refused, or could not be read.
#[derive(Debug, Drop)]
pub enum ServerFileError {
    /// What is wrong with a file of any kind.
    File(FileError),
    /// Something else than a journal has the name of one of its files.
    NotJournal(JournalPart),
    /// The file is a database, and the journal of a server that had one is beside it.
    Journal,
    /// The start is to be the first, and there is a journal.
    NotFirst,
    /// The file is a database. The journal beside it is not removed: something else has the name of one of its files.
    NotJournalBeside(JournalPart),
    /// The file is a database. The journal beside it is not removed: the system refused that, or another server appends
    /// to the journal.
    NotRemoved(Error),
    /// Its text denotes no database.
    Database(DatabaseError),
}

impl ServerFileError {
    /// Returns the word for the refusal, unless the file could not be read.
    pub fn refusal(&self) -> Option<&'static str>
        // Promise, as ReadError::refusal of principals_text: each error has its ..
        ensures { option_map (λ word. word.now) result ≡ refusal self.now }
    {
        match self {
            ServerFileError::File(cause) => cause.refusal(),
            ServerFileError::NotJournal(_) => Some("NotJournal"),
            ServerFileError::Journal => Some("Journal"),
            ServerFileError::NotFirst => Some("NotFirst"),
            ServerFileError::NotJournalBeside(_) => Some("NotJournal"),
            ServerFileError::NotRemoved(_) => None,
            ServerFileError::Database(fault) => fault.cause.refusal(),
        }
    }

    /// Turns an error of a journal's files into one that says that the journal is beside a database. Other errors are
    /// unchanged.
    pub(crate) fn of_journal_beside(self) -> ServerFileError {
        match self {
            ServerFileError::NotJournal(part) => ServerFileError::NotJournalBeside(part),
            ServerFileError::File(FileError::Failed(error)) => ServerFileError::NotRemoved(error),
            fault => fault,
        }
    }

    /// Returns where in the file the fault is, if that was found. It never contains a key.
    pub fn place(&self) -> Option<&str> {
        match self {
            ServerFileError::Database(fault) => fault.place.as_deref(),
            _ => None,
        }
    }
}

impl fmt::Display for ServerFileError {
    fn fmt<W: fmt::Write>(&self, f: &mut fmt::Formatter<W>) -> fmt::Result {
        match self {
            ServerFileError::File(cause) => write!(f, "{cause}"),
            ServerFileError::NotJournal(part) => write!(f, "{part}"),
            ServerFileError::Journal => f.write_str(
                "its journal is beside it; start with --journal to go on with that, or with --no-journal to remove it",
            ),
            ServerFileError::NotFirst => f.write_str(
                "there is a journal of an earlier start, and --first is for the first start alone; \
                 start without --first",
            ),
            ServerFileError::NotJournalBeside(part) => {
                write!(f, "{NOT_REMOVED}: {part}; move it away")
            }
            ServerFileError::NotRemoved(error) => write!(f, "{NOT_REMOVED}: {error}"),
            ServerFileError::Database(fault) => write!(f, "{fault}"),
        }
    }
}

impl From<io::Error> for ServerFileError {
    ghost from_gives = { λ error fault. fault ≡ File (Failed error) };

    fn from(error: io::Error) -> ServerFileError {
        ServerFileError::File(FileError::Failed(error))
    }
}

impl From<AllocError> for ServerFileError {
    fn from(error: AllocError) -> ServerFileError {
        ServerFileError::from(io::Error::from(error))
    }
}

/// Reads a whole file that is no longer than a database's text may be.
pub fn read_whole<R: Read + Drop>(alloc: Global, file: R) -> Result<Vec<u8>, ServerFileError>
    // Promise, as seed_in: a seed is the ..
    ensures { IfOk result (λ octets. vec_len octets ≤ 1073741824) }
{
    read_up_to(alloc, file, LONGEST_TEXT)
}

/// Reads a whole file of at most `most` bytes.
pub fn read_up_to<R: Read + Drop>(
    alloc: Global,
    file: R,
    most: usize,
) -> Result<Vec<u8>, ServerFileError>
    // Promise, as seed_in: a seed is the ..
    ensures { IfOk result (λ octets. vec_len octets ≤ most) }
{
    match read_within(alloc, file, most)? {
        Some(octets) => Ok(octets),
        None => Err(ServerFileError::File(FileError::LongFile)),
    }
}

/// Returns the seed that a file holds: its first 32 octets.
pub fn seed_in(octets: &[u8]) -> Result<[u8; 32], ServerFileError>
    // Promise (seed, short): a seed is the first 32 bytes of its file, and is refused only if there are fewer; what is
    // read of a file has no more than 1,073,741,824 bytes, or than the given number.
    ensures seed { IfOk result (λ seed. (32 ≤ length octets.now) × (seed ≡ take 32 octets.now)) }
    ensures short { IfErr result (λ fault. (length octets.now < 32) × (fault ≡ File ShortSeed)) }
{
    match seed_of(octets) {
        Some(seed) => Ok(seed),
        None => Err(ServerFileError::File(FileError::ShortSeed)),
    }
}
