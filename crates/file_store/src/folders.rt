//! The folder that holds a file.
ghost use Rattle.std.specs.Prelude.{◌≡◌};
ghost use Rattle.file_store.specs.Folders.{folder_of, named_folder};

use std::fs::{File, OpenFile};
use std::io;
use std::io::ErrorKind;
use std::path::Path;
use std::rt::Files;

/// Returns the path of the folder that holds a file: `.` if the file's path is a name alone.
pub fn folder_of(path: &str) -> &str
    // Promise: the folder that is synced is the one that holds the path.
    ensures { result.now ≡ folder_of path.now }
{
    match Path::new(path).parent() {
        Some(folder) => named_folder(folder.as_str()),
        None => ".",
    }
}

/// Returns the folder of a path; an empty one is the current folder.
fn named_folder(path: &str) -> &str
    ensures { result.now ≡ named_folder path.now }
{
    if path.is_empty() { "." } else { path }
}

/// Syncs the folder that holds a path. After that, a file that was made, renamed or removed there stays so through a
/// power failure. On a file system that syncs no folder there is nothing to do.
pub fn sync_folder<F: Files>(files: &F, path: &str) -> io::Result<()> {
    let folder = File::open(files, folder_of(path))?;
    match folder.sync_all() {
        Err(error) if is_no_sync(error.kind()) => Ok(()),
        synced => synced,
    }
}

/// Checks whether an error says that the file system syncs no folder.
fn is_no_sync(kind: ErrorKind) -> bool {
    kind == ErrorKind::InvalidInput || kind == ErrorKind::Unsupported
}
