//! The files that make up a journal, and whether each of their names belongs to a journal.
use crate::files::ServerFileError;
use file_store::{FileError, LOCK_END, open_plain};
use journal::{HEAD, may_be_journal};
use std::alloc::{AllocError, Global};
use std::fs::Metadata;
use std::io::{Error, ErrorKind, Read};
use std::rt::Files;
use std::{fmt, fs, io};

/// The length of a seal, in bytes: that of a check.
pub(crate) const SEAL_LEN: u64 = 16;

/// A file of a journal.
#[derive(Clone, Copy, Debug, PartialEq, Eq)]
pub enum JournalPart {
    /// The file that is appended to.
    Newer,
    /// The file that came before it.
    Older,
    /// A new file, until it is renamed into place.
    Beside,
    /// The file that is locked. It is empty.
    Lock,
    /// The file of the seal. It has a check, or is empty.
    Seal,
}

impl fmt::Display for JournalPart {
    fn fmt<W: fmt::Write>(&self, f: &mut fmt::Formatter<W>) -> fmt::Result {
        f.write_str(match self {
            JournalPart::Newer => "it is no journal, and stays as it is",
            JournalPart::Older => "the file .old beside it is no journal, and stays as it is",
            JournalPart::Beside => "the file .new beside it is no journal, and stays as it is",
            JournalPart::Lock => "the file .lock beside it is no empty file, and stays as it is",
            JournalPart::Seal => "the file .sealed beside it is no seal, and stays as it is",
        })
    }
}

/// The paths of a journal's files.
#[derive(Drop)]
pub struct JournalPaths {
    pub(crate) newer: String,
    pub(crate) older: String,
    pub(crate) beside: String,
    pub(crate) lock: String,
    pub(crate) seal: String,
    pub(crate) seal_beside: String,
}

impl JournalPaths {
    /// Returns the paths for a journal at this path.
    pub fn new(alloc: Global, path: &str) -> Result<JournalPaths, AllocError> {
        Ok(JournalPaths {
            newer: format!(in alloc; "{path}")?,
            older: format!(in alloc; "{path}.old")?,
            beside: format!(in alloc; "{path}.new")?,
            lock: format!(in alloc; "{path}{LOCK_END}")?,
            seal: format!(in alloc; "{path}.sealed")?,
            seal_beside: format!(in alloc; "{path}.sealed.new")?,
        })
    }

    /// Returns how many bytes the two files with entries have together. One that can't be looked at counts as 0.
    pub fn len_of_entries<F: Files>(&self, files: &F) -> u64 {
        file_len(files, self.newer.as_str()).saturating_add(file_len(files, self.older.as_str()))
    }

    /// Checks whether one of the three files of a journal is there.
    pub(crate) fn are_there<F: Files>(&self, files: &F) -> io::Result<bool> {
        Ok(
            is_there(files, self.newer.as_str())?
                || is_there(files, self.older.as_str())?
                || is_there(files, self.beside.as_str())?,
        )
    }

    /// Refuses the journal if something else has one of its names. It changes nothing.
    pub(crate) fn check<F: Files>(&self, alloc: Global, files: &F) -> Result<(), ServerFileError> {
        check_part(alloc, files, self.newer.as_str(), JournalPart::Newer)?;
        check_part(alloc, files, self.older.as_str(), JournalPart::Older)?;
        check_part(alloc, files, self.beside.as_str(), JournalPart::Beside)?;
        check_short(files, self.lock.as_str(), 0, JournalPart::Lock)?;
        check_seal(files, self.seal.as_str())?;
        check_seal(files, self.seal_beside.as_str())
    }
}

fn file_len<F: Files>(files: &F, path: &str) -> u64 {
    match fs::metadata(files, path) {
        Ok(file) => file.len(),
        Err(_) => 0,
    }
}

fn is_there<F: Files>(files: &F, path: &str) -> io::Result<bool> {
    match fs::metadata(files, path) {
        Ok(_) => Ok(true),
        Err(error) if error.kind() == ErrorKind::NotFound => Ok(false),
        Err(error) => Err(error),
    }
}

fn check_part<F: Files>(
    alloc: Global,
    files: &F,
    path: &str,
    part: JournalPart,
) -> Result<(), ServerFileError> {
    if may_be_replaced(alloc, files, path)? {
        return Ok(());
    }
    Err(ServerFileError::NotJournal(part))
}

/// Refuses a path that has something else than a plain file of at most this many bytes.
fn check_short<F: Files>(
    files: &F,
    path: &str,
    most: u64,
    part: JournalPart,
) -> Result<(), ServerFileError> {
    judge_short(fs::metadata(files, path), most, part)
}

/// Refuses a path that has something else than the file of a seal. A link is something else too, since the file is
/// replaced.
fn check_seal<F: Files>(files: &F, path: &str) -> Result<(), ServerFileError> {
    judge_short(
        fs::symlink_metadata(files, path),
        SEAL_LEN,
        JournalPart::Seal,
    )
}

fn judge_short(
    found: io::Result<Metadata>,
    most: u64,
    part: JournalPart,
) -> Result<(), ServerFileError> {
    match found {
        Ok(file) if file.is_file() && file.len() <= most => Ok(()),
        Ok(_) => Err(ServerFileError::NotJournal(part)),
        Err(error) if error.kind() == ErrorKind::NotFound => Ok(()),
        Err(error) => Err(ServerFileError::from(error)),
    }
}

/// Fails if the name of a journal's file belongs to something else by now.
pub(crate) fn require_replaceable<F: Files>(
    alloc: Global,
    files: &F,
    path: &str,
) -> io::Result<()> {
    match may_be_replaced(alloc, files, path) {
        Ok(true) => Ok(()),
        Ok(false) => Err(Error::new(
            ErrorKind::AlreadyExists,
            "a file that is no journal has the name of one of its files",
        )),
        Err(ServerFileError::File(FileError::Failed(error))) => Err(error),
        Err(_) => Err(Error::from(ErrorKind::InvalidData)),
    }
}

/// Checks whether a path has nothing, or a plain file that begins as a journal does.
fn may_be_replaced<F: Files>(
    alloc: Global,
    files: &F,
    path: &str,
) -> Result<bool, ServerFileError> {
    match fs::metadata(files, path) {
        Ok(file) if file.is_file() => begins_as_journal(alloc, files, path),
        Ok(_) => Ok(false),
        Err(error) if error.kind() == ErrorKind::NotFound => Ok(true),
        Err(error) => Err(ServerFileError::from(error)),
    }
}

fn begins_as_journal<F: Files>(
    alloc: Global,
    files: &F,
    path: &str,
) -> Result<bool, ServerFileError> {
    let mut head = Vec::new(alloc);
    open_plain(files, path)?
        .take(HEAD as u64)
        .read_to_end(&mut head)?;
    Ok(may_be_journal(&head))
}
