//! The files of a journal: which process holds them, and what is found in them.
ghost use Rattle.std.specs.Prelude.{◌≡◌, IfOk, None};

use crate::files::{ServerFileError, read_up_to, read_whole};
use crate::journal_store::{JournalPlace, SystemJournal};
use crate::journals::Journals;
use file_store::{FileError, hold_lock, is_own, open_by_options, open_plain};
use journal::{FileText, JournalFiles, read_files};
use krb_elements::Octets;
use std::alloc::Global;
use std::fs::{File, OpenOptions};
use std::io;
use std::io::{Error, ErrorKind, Write};
use std::rt::Files;

/// The file in which the system names its current boot.
const BOOT_ID: &str = "/proc/sys/kernel/random/boot_id";

/// The greatest length of a boot's name, in octets.
const LONGEST_BOOT_ID: usize = 255;

/// The journals at a path, and their files, which this process holds.
#[derive(Drop)]
pub struct OpenedJournals<F> {
    /// What was read from the files.
    pub journals: Journals,
    /// The files, locked against other servers.
    pub files: F,
}

/// Opens the journal at a place, and reads its files. A turn that was cut is finished first.
pub fn open_journals<'a, F: Files<File = File>, W: Write + Drop>(
    alloc: Global,
    place: JournalPlace<'a, '_, F, W>,
) -> Result<OpenedJournals<SystemJournal<'a, F, W>>, ServerFileError>
    // It removes none.
    ensures { IfOk result (λ opened. opened.journals.removed ≡ None) }
{
    let files = place.files;
    let mut held = SystemJournal::open(alloc, place)?;
    let boot = boot_id(alloc, files)?;
    let found = read_files(alloc, &mut held)?;
    let seal = Octets::new(held.read_seal(alloc)?);
    Ok(OpenedJournals {
        journals: Journals {
            boot,
            found,
            seal,
            removed: None,
        },
        files: held,
    })
}

/// Locks `PATH.lock`. The journal's own files are renamed and replaced, so a lock of theirs would leave a gap between
/// two of them.
pub(crate) fn open_locked<F: Files<File = File>>(
    alloc: Global,
    files: &F,
    path: &str,
) -> io::Result<File> {
    match hold_lock(alloc, files, path)? {
        Some(lock) => Ok(lock),
        None => Err(Error::new(
            ErrorKind::WouldBlock,
            "another server appends to it; each server needs a journal of its own",
        )),
    }
}

/// Reads the seal at a path. Without one there are no octets.
pub(crate) fn read_seal_file<F: Files<File = File>>(
    alloc: Global,
    files: &F,
    path: &str,
) -> io::Result<Vec<u8>> {
    match read_path(alloc, files, path)? {
        FileText::Octets(octets) => Ok(octets),
        FileText::Nothing | FileText::Unusable => Ok(Vec::new(alloc)),
    }
}

/// Opens the file that is read and then appended to, if it exists.
pub(crate) fn open_newer<F: Files<File = File>>(files: &F, path: &str) -> io::Result<Option<File>> {
    let mut how = OpenOptions::new();
    how.read(true).append(true);
    if_there(open_by_options(files, &how, path))
}

/// Returns what was opened, or `None` if nothing is there.
fn if_there(opened: io::Result<File>) -> io::Result<Option<File>> {
    match opened {
        Ok(file) => Ok(Some(file)),
        Err(error) if error.kind() == ErrorKind::NotFound => Ok(None),
        Err(error) => Err(error),
    }
}

/// Reads the system's name for its current boot.
fn boot_id<F: Files<File = File>>(alloc: Global, files: &F) -> Result<Octets, ServerFileError> {
    let octets = read_up_to(alloc, File::open(files, BOOT_ID)?, LONGEST_BOOT_ID)?;
    Ok(Octets::from_slice(alloc, octets.trim_ascii())?)
}

/// Reads the file at a path.
pub(crate) fn read_path<F: Files<File = File>>(
    alloc: Global,
    files: &F,
    path: &str,
) -> io::Result<FileText> {
    let file = if_there(open_plain(files, path))?;
    text_in(alloc, files, file.as_ref())
}

/// Reads an open file. One of another user, or one that others may write, is no journal, nor is one that is longer than
/// a database may be.
pub(crate) fn text_in<F: Files<File = File>>(
    alloc: Global,
    files: &F,
    file: Option<&File>,
) -> io::Result<FileText> {
    let Some(file) = file else {
        return Ok(FileText::Nothing);
    };
    if !is_own(files, &file.metadata()?)? {
        return Ok(FileText::Unusable);
    }
    match read_whole(alloc, file) {
        Ok(text) => Ok(FileText::Octets(text)),
        Err(ServerFileError::File(FileError::Failed(error))) => Err(error),
        Err(_) => Ok(FileText::Unusable),
    }
}
