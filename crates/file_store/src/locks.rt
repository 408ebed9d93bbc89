//! The lock of a file, `PATH.lock` beside it: a program locks that before it changes the file.
use crate::plain_files::{OWNER_ONLY, open_by_options};
use std::alloc::Global;
use std::fs::{File, OpenFile, OpenOptions, TryLockError};
use std::io::{Error, ErrorKind};
use std::os::unix::fs::{MetadataExt, OpenOptionsExt, fchown};
use std::rt::Files;
use std::{fs, io};

/// The end of the path of a lock.
pub const LOCK_END: &str = ".lock";

/// Locks `PATH.lock`, and holds the lock until the returned file is closed. `None` if another program holds it. The
/// file stays when the lock is released: if it were removed and made again, a waiting program could hold the lock of a
/// file that is gone. The system releases a lock when its program ends, however it ends.
pub fn hold_lock<F: Files<File = File>>(
    alloc: Global,
    files: &F,
    path: &str,
) -> io::Result<Option<File>> {
    let beside = format!(in alloc; "{path}{LOCK_END}")?;
    let file = open_lock(files, beside.as_str(), path)?;
    match file.try_lock() {
        Ok(()) => Ok(Some(file)),
        Err(TryLockError::WouldBlock) => Ok(None),
        Err(TryLockError::Error(error)) => Err(error),
    }
}

/// Opens the file of a lock. An existing file keeps its owner, because the folder's owner may have put a link to
/// another file there.
fn open_lock<F: Files<File = File>>(files: &F, beside: &str, path: &str) -> io::Result<File> {
    match make_lock(files, beside) {
        Ok(made) => {
            hand_over(files, &made, path);
            Ok(made)
        }
        Err(error) if error.kind() == ErrorKind::AlreadyExists => open_old_lock(files, beside),
        Err(error) => Err(error),
    }
}

/// Opens the file of a lock that is there already. Something else in its place, or a link to nothing, is an error.
fn open_old_lock<R: Files<File = File>>(files: &R, beside: &str) -> io::Result<File> {
    let mut how = OpenOptions::new();
    how.write(true);
    match open_by_options(files, &how, beside) {
        Ok(file) => Ok(file),
        Err(error) => match error.kind() {
            ErrorKind::InvalidInput | ErrorKind::NotFound => Err(no_lock()),
            _ => Err(error),
        },
    }
}

fn no_lock() -> Error {
    Error::new(ErrorKind::InvalidInput, "the lock beside it: it is no file")
}

/// Makes the file of a lock, if nothing is there, not even a link.
fn make_lock<F: Files<File = File>>(files: &F, beside: &str) -> io::Result<File> {
    let mut how = OpenOptions::new();
    how.write(true).create_new(true).mode(OWNER_ONLY);
    how.open(files, beside)
}

/// Gives a new lock to the owner of the file beside it. Otherwise a lock that a superuser's program made would keep the
/// owner's programs out.
fn hand_over(files: &impl Files, lock: &File, path: &str) {
    let (Ok(there), Ok(made)) = (fs::metadata(files, path), lock.metadata()) else {
        return;
    };
    if there.uid() != made.uid() {
        // only a superuser may do this: the lock that another user made stays that user's
        let _ = fchown(lock, Some(there.uid()), Some(there.gid()));
    }
}
