//! A new file of the system: it is complete, under a name of its own, before it takes its place.
use crate::plain_files::{OWNER_ONLY, RIGHTS, no_file};
use crate::store::NewMode;
use std::alloc::Global;
use std::fs::{File, Metadata, OpenFile, OpenOptions, Permissions};
use std::io::{Error, ErrorKind, Write};
use std::os::unix::fs::{MetadataExt, OpenOptionsExt, PermissionsExt, fchown};
use std::random::RandomSource;
use std::rt::Files;
use std::{fs, io};

/// Who owns a file, and who may read and write it.
#[derive(Clone, Copy)]
pub(crate) struct Rights {
    owner: u32,
    group: u32,
    mode: u32,
}

impl Rights {
    fn of(file: &Metadata) -> Rights {
        Rights {
            owner: file.uid(),
            group: file.gid(),
            mode: file.mode() & RIGHTS,
        }
    }

    /// Returns these rights with the mode of a new file.
    fn with_mode(self, mode: NewMode) -> Rights {
        match mode {
            NewMode::Kept => self,
            NewMode::OwnerOnly => Rights {
                mode: OWNER_ONLY,
                ..self
            },
        }
    }

    /// Gives a new file this owner, group and mode.
    pub(crate) fn give(self, file: &File) -> io::Result<()> {
        let made = Rights::of(&file.metadata()?);
        let is_others = self.owner != made.owner || self.group != made.group;
        if is_others && fchown(file, Some(self.owner), Some(self.group)).is_err() {
            return Err(Error::new(
                ErrorKind::PermissionDenied,
                "its owner and group can't be kept, so it was not written",
            ));
        }
        file.set_permissions(Permissions::from_mode(self.mode))
    }

    /// Checks whether a file has this owner.
    pub(crate) fn has_owner(self, file: &Metadata) -> bool {
        self.owner == file.uid()
    }
}

/// Returns what is at a path, or `None` if it is free. A device or a folder is an `Err`, because neither is replaced.
pub(crate) fn file_there(files: &impl Files, path: &str) -> io::Result<Option<Metadata>> {
    match fs::metadata(files, path) {
        Ok(there) if there.is_file() => Ok(Some(there)),
        Ok(_) => Err(no_file()),
        Err(error) if error.kind() == ErrorKind::NotFound => Ok(None),
        Err(error) => Err(error),
    }
}

/// Returns the rights of a file that replaces the one at a path: its owner and group, and this mode. `None` if the path
/// is free.
pub(crate) fn rights_over(
    files: &impl Files,
    path: &str,
    mode: NewMode,
) -> io::Result<Option<Rights>> {
    match file_there(files, path)? {
        Some(there) => Ok(Some(Rights::of(&there).with_mode(mode))),
        None => Ok(None),
    }
}

/// Makes a file that must not be there yet, and that only its owner may read and write.
pub(crate) fn make_file<F: Files<File = File>>(files: &F, path: &str) -> io::Result<File> {
    let mut how = OpenOptions::new();
    how.append(true).create_new(true).mode(OWNER_ONLY);
    how.open(files, path)
}

/// Writes the new file of a path under a name of its own, with these rights, and syncs it. Returns its path. So a kill
/// at any moment leaves the path as it is, and two writes at once fill different files.
pub(crate) fn write_beside<R: Files<File = File> + RandomSource>(
    alloc: Global,
    files: &R,
    path: &str,
    octets: &[u8],
    rights: Option<Rights>,
) -> io::Result<String> {
    let beside = name_beside(alloc, files, path)?;
    let new = make_file(files, beside.as_str())?;
    match fill(new, octets, rights) {
        Ok(()) => Ok(beside),
        Err(error) => {
            let _removed = fs::remove_file(files, beside.as_str());
            Err(error)
        }
    }
}

/// Renames a new file onto its path, or removes it if that fails.
pub(crate) fn rename_onto(files: &impl Files, beside: &str, path: &str) -> io::Result<()> {
    let moved = fs::rename(files, beside, path);
    if moved.is_err() {
        let _removed = fs::remove_file(files, beside);
    }
    moved
}

/// Writes the whole of a new file, with these rights.
fn fill(new: File, octets: &[u8], rights: Option<Rights>) -> io::Result<()> {
    let mut new = new;
    if let Some(rights) = rights {
        rights.give(&new)?;
    }
    new.write_all(octets)?;
    new.sync_all()
}

/// Returns `PATH.HEX.new`: the path of a new file, with 16 random hexadecimal digits.
fn name_beside(alloc: Global, source: &impl RandomSource, path: &str) -> io::Result<String> {
    let mut octets = [0; 8];
    source.fill_bytes(&mut octets)?;
    let number = u64::from_be_bytes(octets);
    Ok(format!(in alloc; "{path}.{number:016x}.new")?)
}

/// A new file that is complete, and where it goes.
#[derive(Drop)]
pub(crate) struct NewFile {
    pub(crate) beside: String,
    pub(crate) path: String,
}

/// Removes a new file that is not wanted any more, if there is one.
pub(crate) fn remove_new(files: &impl Files, new: Option<NewFile>) -> io::Result<()> {
    match new {
        Some(new) => fs::remove_file(files, new.beside.as_str()),
        None => Ok(()),
    }
}
