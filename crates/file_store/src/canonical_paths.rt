//! Paths without links in them.
use crate::folders::folder_of;
use std::alloc::Global;
use std::io::{Error, ErrorKind};
use std::path::Path;
use std::rt::Files;
use std::{fs, io};

/// Returns a path with all links in it followed. If nothing is there, those in its folder are followed.
pub(crate) fn canonical_path<R: Files + Alloc<A = Global>>(
    files: &R,
    path: &str,
) -> io::Result<String> {
    match fs::canonicalize(files, path) {
        Ok(found) => Ok(found.into_string()),
        Err(error) if error.kind() == ErrorKind::NotFound => in_canonical_folder(files, path),
        Err(error) => Err(error),
    }
}

fn in_canonical_folder<R: Files + Alloc<A = Global>>(files: &R, path: &str) -> io::Result<String> {
    let Some(name) = Path::new(path).file_name() else {
        return Err(Error::from(ErrorKind::NotFound));
    };
    let mut found = fs::canonicalize(files, folder_of(path))?;
    found.push(name)?;
    Ok(found.into_string())
}
