//! Regular files, and the user who runs the program.
use std::fs::{Metadata, OpenFile, OpenOptions};
use std::io::{Error, ErrorKind};
use std::os::unix::fs::MetadataExt;
use std::rt::Files;
use std::{fs, io};

/// The mode of a new file: only its owner reads and writes it, because it may contain keys.
pub const OWNER_ONLY: u32 = 0o600;

/// The bits of a mode that say who may read, write and run a file.
pub const RIGHTS: u32 = 0o777;

/// Those of these bits that are for the file's group and for others.
pub const RIGHTS_OF_OTHERS: u32 = 0o077;

/// The bits of a mode that let a file's group and others write it.
const OTHERS_WRITE: u32 = 0o022;

/// A path that belongs to the user who runs the program, on Linux.
const OWN_PROCESS: &str = "/proc/self";

/// Opens a regular file for reading.
pub fn open_plain<F: Files>(files: &F, path: &str) -> io::Result<F::File> {
    let mut how = OpenOptions::new();
    how.read(true);
    open_by_options(files, &how, path)
}

/// Opens a regular file with these options. Any other file is refused first: to open a FIFO can block forever, and to
/// open a device can have effects of its own. A user who may write in the folder can still put one there before the
/// open, since no option of `OpenOptions` keeps a link out.
pub fn open_by_options<F: Files>(files: &F, how: &OpenOptions, path: &str) -> io::Result<F::File> {
    require_plain(&fs::metadata(files, path)?)?;
    let file = how.open(files, path)?;
    // another file may have taken its place meanwhile
    require_plain(&file.metadata()?)?;
    Ok(file)
}

fn require_plain(file: &Metadata) -> io::Result<()> {
    if file.is_file() {
        Ok(())
    } else {
        Err(no_file())
    }
}

/// Returns the error for what is there in place of a regular file.
pub(crate) fn no_file() -> Error {
    Error::new(ErrorKind::InvalidInput, "it is no file")
}

/// Checks whether a file belongs to the user who runs the program, and no other user may write it.
pub fn is_own(files: &impl Files, file: &Metadata) -> io::Result<bool> {
    Ok(file.uid() == own_user(files)? && file.mode() & OTHERS_WRITE == 0)
}

/// Returns the user who runs the program. Fails with `NotFound` if the system does not say.
pub fn own_user(files: &impl Files) -> io::Result<u32> {
    Ok(fs::metadata(files, OWN_PROCESS)?.uid())
}

/// Returns the user who runs the program, if the system says so.
pub(crate) fn known_user(files: &impl Files) -> io::Result<Option<u32>> {
    match own_user(files) {
        Ok(user) => Ok(Some(user)),
        Err(error) if error.kind() == ErrorKind::NotFound => Ok(None),
        Err(error) => Err(error),
    }
}
