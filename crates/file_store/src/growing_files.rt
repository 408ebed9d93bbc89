//! Files of the system that grow by lines: what is added at their end, what is cut off, and their new path.
use crate::folders::sync_folder;
use crate::new_files::{make_file, rights_over};
use crate::plain_files::{no_file, open_by_options};
use crate::store::NewMode;
use std::fs::{File, OpenFile, OpenOptions};
use std::io::{Error, ErrorKind, Write};
use std::os::unix::fs::MetadataExt;
use std::rt::Files;
use std::{fs, io};

/// Adds these bytes at the end of a file, and syncs it. Without a file it makes one, with the owner and the group of
/// the file `beside`.
pub(crate) fn append_octets<F: Files<File = File>>(
    files: &F,
    path: &str,
    octets: &[u8],
    beside: &str,
) -> io::Result<()> {
    match make_file(files, path) {
        Ok(made) => begin_file(files, made, path, octets, beside),
        Err(error) if error.kind() == ErrorKind::AlreadyExists => {
            write_record(open_grown(files, path, beside)?, octets)
        }
        Err(error) => Err(error),
    }
}

/// Writes the first bytes of a file that was made, and syncs it and its folder. If it can't have the owner of the file
/// `beside`, it is removed.
fn begin_file<F: Files<File = File>>(
    files: &F,
    made: File,
    path: &str,
    octets: &[u8],
    beside: &str,
) -> io::Result<()> {
    if let Err(error) = hand_over(files, &made, beside) {
        let _removed = fs::remove_file(files, path);
        return Err(error);
    }
    write_record(made, octets)?;
    sync_folder(files, path)
}

/// Gives a new file to the owner and the group of the file `beside`, if that is there.
fn hand_over<F: Files<File = File>>(files: &F, made: &File, beside: &str) -> io::Result<()> {
    match rights_over(files, beside, NewMode::OwnerOnly)? {
        Some(rights) => rights.give(made),
        None => Ok(()),
    }
}

/// Opens a file to write at its end. A file of another owner than the file `beside` is an error.
fn open_grown<F: Files<File = File>>(files: &F, path: &str, beside: &str) -> io::Result<File> {
    let mut how = OpenOptions::new();
    how.append(true);
    let file = open_unlinked(files, &how, path)?;
    match rights_over(files, beside, NewMode::OwnerOnly)? {
        Some(rights) if !rights.has_owner(&file.metadata()?) => Err(Error::new(
            ErrorKind::PermissionDenied,
            "it has another owner than the file that it belongs to",
        )),
        _ => Ok(file),
    }
}

/// Opens a regular file with these options, and follows no link to it: by a link somebody who may write in the folder
/// could have a superuser's program write another file.
fn open_unlinked<F: Files<File = File>>(
    files: &F,
    how: &OpenOptions,
    path: &str,
) -> io::Result<File> {
    let there = fs::symlink_metadata(files, path)?;
    let file = open_by_options(files, how, path)?;
    let opened = file.metadata()?;
    // a link may have taken its place meanwhile
    if opened.dev() == there.dev() && opened.ino() == there.ino() {
        Ok(file)
    } else {
        Err(no_file())
    }
}

/// Adds these bytes at the end of a file by one write, and syncs it.
fn write_record(file: File, octets: &[u8]) -> io::Result<()> {
    let mut file = file;
    if file.write(octets)? != octets.len() {
        return Err(Error::new(ErrorKind::WriteZero, "a line was cut"));
    }
    file.sync_all()
}

/// Cuts a file back to its first `len` bytes, and syncs it. There may be no file.
pub(crate) fn cut_file<F: Files<File = File>>(files: &F, path: &str, len: u64) -> io::Result<()> {
    let mut how = OpenOptions::new();
    how.write(true);
    match open_unlinked(files, &how, path) {
        Ok(file) => {
            if file.metadata()?.len() > len {
                file.set_len(len)?;
            }
            file.sync_all()
        }
        Err(error) if error.kind() == ErrorKind::NotFound => Ok(()),
        Err(error) => Err(error),
    }
}

/// Renames a regular file to a path where nothing is, not even a link.
pub(crate) fn move_to_free(files: &impl Files, from: &str, to: &str) -> io::Result<()> {
    if !fs::symlink_metadata(files, from)?.is_file() {
        return Err(no_file());
    }
    match fs::symlink_metadata(files, to) {
        Ok(_) => Err(Error::from(ErrorKind::AlreadyExists)),
        Err(error) if error.kind() == ErrorKind::NotFound => fs::rename(files, from, to),
        Err(error) => Err(error),
    }
}
