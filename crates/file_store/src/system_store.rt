//! The files of the system.
ghost use Rattle.std.specs.Prelude.{◌≤◌, None, IfOk, IfSome, vec_len};

use crate::callers::Caller;
use crate::canonical_paths::canonical_path;
use crate::counting::{counted, counted_write};
use crate::folders::sync_folder;
use crate::growing_files::{append_octets, cut_file, move_to_free};
use crate::hidden_echo::end_hidden_line;
use crate::locks::hold_lock;
use crate::moment::seconds_since_1970;
use crate::new_files::{
    NewFile, Rights, file_there, remove_new, rename_onto, rights_over, write_beside,
};
use crate::plain_files::{RIGHTS, known_user, open_plain};
use crate::reading::{read_any, read_plain};
use crate::running_user::read_caller;
use crate::store::{FileRights, NewMode, Store, Written};
use std::alloc::Global;
use std::fs::File;
use std::io::{BufRead, Error, ErrorKind, IsTerminal, Read};
use std::os::unix::fs::MetadataExt;
use std::random::RandomSource;
use std::rt::{Clock, Env, Files};
use std::time::Duration;
use std::{fs, io, thread};

/// How many milliseconds a pause takes.
const PAUSE: u64 = 100;

/// The files, the random bytes and the standard input of a runtime.
#[derive(Drop)]
pub struct FileStore<'a, R: Files> {
    files: &'a R,
    // The open file whose lock is held, until it is closed.
    lock: Option<File>,
    // The new file that was prepared.
    prepared: Option<NewFile>,
    faults: u64,
}

impl<'a, R: Files> FileStore<'a, R> {
    /// Returns the store of a runtime's files. It holds no lock yet.
    pub fn new(files: &'a R) -> FileStore<'a, R> {
        FileStore {
            files,
            lock: None,
            prepared: None,
            faults: 0,
        }
    }

    /// Returns the runtime.
    pub fn files(&self) -> &'a R {
        self.files
    }

    /// Reads the first byte of a file, if there is one and it has one.
    fn read_first(&self, alloc: Global, path: &str) -> io::Result<Option<u8>> {
        let file = match open_plain(self.files, path) {
            Ok(file) => file,
            Err(error) if error.kind() == ErrorKind::NotFound => return Ok(None),
            Err(error) => return Err(error),
        };
        let mut octets = Vec::new(alloc);
        file.take(1).read_to_end(&mut octets)?;
        Ok(octets.first().copied())
    }

    /// Returns who may read and write a file.
    fn read_rights(&self, path: &str) -> io::Result<FileRights> {
        let there = fs::metadata(self.files, path)?;
        Ok(FileRights {
            mode: there.mode() & RIGHTS,
            owner: there.uid(),
            user: known_user(self.files)?,
        })
    }
}

impl<'a, R: Files<File = File> + RandomSource> FileStore<'a, R> {
    /// Writes a file that only its owner may read and write.
    fn write_own(&self, alloc: Global, path: &str, octets: &[u8]) -> io::Result<()> {
        let _there = file_there(self.files, path)?;
        self.replace(alloc, path, octets, None)
    }

    /// Writes a file with the owner and the group of the one there, and this mode.
    fn write_over(
        &self,
        alloc: Global,
        path: &str,
        octets: &[u8],
        mode: NewMode,
    ) -> io::Result<()> {
        let rights = rights_over(self.files, path, mode)?;
        self.replace(alloc, path, octets, rights)
    }

    /// Syncs the folder of a file that was replaced.
    fn synced(&self, path: &str) -> Written {
        match sync_folder(self.files, path) {
            Ok(()) => Written::Synced,
            Err(error) => Written::NotSynced(error),
        }
    }

    /// Writes what `write_own` writes, and syncs its folder.
    fn write_synced(&self, alloc: Global, path: &str, octets: &[u8]) -> io::Result<Written> {
        self.write_own(alloc, path, octets)?;
        Ok(self.synced(path))
    }

    /// Writes what `write_over` writes, and syncs its folder.
    fn update_synced(
        &self,
        alloc: Global,
        path: &str,
        octets: &[u8],
        mode: NewMode,
    ) -> io::Result<Written> {
        self.write_over(alloc, path, octets, mode)?;
        Ok(self.synced(path))
    }

    /// Replaces a file by a new one that is complete before it takes its place.
    fn replace(
        &self,
        alloc: Global,
        path: &str,
        octets: &[u8],
        rights: Option<Rights>,
    ) -> io::Result<()> {
        let beside = write_beside(alloc, self.files, path, octets, rights)?;
        rename_onto(self.files, beside.as_str(), path)
    }

    /// Writes the new file of a path beside it.
    fn new_file(
        &self,
        alloc: Global,
        path: &str,
        octets: &[u8],
        mode: NewMode,
    ) -> io::Result<NewFile> {
        let copy = String::from_str(alloc, path)?;
        let rights = rights_over(self.files, path, mode)?;
        Ok(NewFile {
            beside: write_beside(alloc, self.files, path, octets, rights)?,
            path: copy,
        })
    }

    /// Renames a new file onto its path, and syncs the folder.
    fn place_new(&self, new: &NewFile) -> io::Result<Written> {
        rename_onto(self.files, new.beside.as_str(), new.path.as_str())?;
        Ok(self.synced(new.path.as_str()))
    }

    /// Renames a file to a free path, and syncs the folder.
    fn move_synced(&self, from: &str, to: &str) -> io::Result<Written> {
        move_to_free(self.files, from, to)?;
        Ok(self.synced(to))
    }
}

/// Draws 32 bytes from the system's own source.
pub fn random_octets(source: &impl RandomSource) -> io::Result<[u8; 32]> {
    let mut octets = [0; 32];
    source.fill_bytes(&mut octets)?;
    Ok(octets)
}

/// Reads the next line without its line feed. `None` if it has more than this many bytes.
fn next_line<B: BufRead + Drop>(alloc: Global, input: B, most: usize) -> io::Result<Option<Vec<u8>>>
    ensures { IfOk result (λ found. IfSome found (λ octets. vec_len octets ≤ most)) }
{
    let mut line = Vec::new(alloc);
    // asks for one byte past the limit, which may be the line feed
    let taken = input
        .take((most as u64).saturating_add(1))
        .read_until(b'\n', &mut line)?;
    if taken == 0 {
        return Err(Error::from(ErrorKind::UnexpectedEof));
    }
    if line.last() == Some(&b'\n') {
        line.pop();
    }
    if line.len() > most {
        return Ok(None);
    }
    Ok(Some(line))
}

impl<'a, R: Files<File = File> + Input + Eprint + Env + Alloc<A = Global>> FileStore<'a, R>
where
    R::Reader: IsTerminal,
{
    fn is_asked(&self) -> bool {
        self.files.reader().is_terminal()
    }

    fn ask_line(&self, alloc: Global, question: &str, most: usize) -> io::Result<Option<Vec<u8>>>
        ensures { IfOk result (λ found. IfSome found (λ octets. vec_len octets ≤ most)) }
    {
        let input = self.files.reader();
        if !input.is_terminal() {
            return next_line(alloc, input, most);
        }
        self.files.eprint(question)?;
        let line = next_line(alloc, input, most);
        end_hidden_line(self.files)?;
        line
    }
}

impl<
    'a,
    R: Files<File = File> + RandomSource + Clock + Input + Eprint + Env + Alloc<A = Global>,
> Store for FileStore<'a, R>
where
    R::Reader: IsTerminal,
{
    ghost fault_count = { λ s. s.faults };

    // no contract knows what a file of the system contains
    ghost world = { λ _. None };

    // no contract knows what somebody types
    ghost input = { λ _. None };

    ghost prepared = { λ _. None };

    fn exists(&mut self, path: &str) -> io::Result<bool> {
        let found = fs::exists(self.files, path);
        self.faults = counted(self.faults, &found);
        found
    }

    fn read(&mut self, alloc: Global, path: &str, most: usize) -> io::Result<Option<Vec<u8>>> {
        let read = read_plain(alloc, self.files, path, most);
        self.faults = counted(self.faults, &read);
        read
    }

    fn read_stream(
        &mut self,
        alloc: Global,
        path: &str,
        most: usize,
    ) -> io::Result<Option<Vec<u8>>> {
        let read = read_any(alloc, self.files, path, most);
        self.faults = counted(self.faults, &read);
        read
    }

    fn first_octet(&mut self, alloc: Global, path: &str) -> io::Result<Option<u8>> {
        let read = self.read_first(alloc, path);
        self.faults = counted(self.faults, &read);
        read
    }

    fn write(&mut self, alloc: Global, path: &str, octets: &[u8]) -> io::Result<Written> {
        let written = self.write_synced(alloc, path, octets);
        self.faults = counted_write(self.faults, &written);
        written
    }

    fn update(
        &mut self,
        alloc: Global,
        path: &str,
        octets: &[u8],
        mode: NewMode,
    ) -> io::Result<Written> {
        let written = self.update_synced(alloc, path, octets, mode);
        self.faults = counted_write(self.faults, &written);
        written
    }

    fn write_unsynced(&mut self, alloc: Global, path: &str, octets: &[u8]) -> io::Result<()> {
        let written = self.write_own(alloc, path, octets);
        self.faults = counted(self.faults, &written);
        written
    }

    fn prepare(
        &mut self,
        alloc: Global,
        path: &str,
        octets: &[u8],
        mode: NewMode,
    ) -> io::Result<()> {
        let _removed = remove_new(self.files, self.prepared.take());
        let prepared = self.new_file(alloc, path, octets, mode);
        self.faults = counted(self.faults, &prepared);
        self.prepared = Some(prepared?);
        Ok(())
    }

    fn place(&mut self) -> io::Result<Written> {
        let placed = match self.prepared.take() {
            Some(new) => self.place_new(&new),
            None => Err(Error::from(ErrorKind::NotFound)),
        };
        self.faults = counted_write(self.faults, &placed);
        placed
    }

    fn discard(&mut self) -> io::Result<()> {
        let removed = remove_new(self.files, self.prepared.take());
        self.faults = counted(self.faults, &removed);
        removed
    }

    fn append(
        &mut self,
        _alloc: Global,
        path: &str,
        octets: &[u8],
        beside: &str,
    ) -> io::Result<()> {
        let appended = append_octets(self.files, path, octets, beside);
        self.faults = counted(self.faults, &appended);
        appended
    }

    fn cut(&mut self, _alloc: Global, path: &str, len: usize) -> io::Result<()> {
        let cut = cut_file(self.files, path, len as u64);
        self.faults = counted(self.faults, &cut);
        cut
    }

    fn rename(&mut self, _alloc: Global, from: &str, to: &str) -> io::Result<Written> {
        let moved = self.move_synced(from, to);
        self.faults = counted_write(self.faults, &moved);
        moved
    }

    fn canonical(&mut self, _alloc: Global, path: &str) -> io::Result<String> {
        let found = canonical_path(self.files, path);
        self.faults = counted(self.faults, &found);
        found
    }

    fn caller(&mut self, alloc: Global) -> io::Result<Caller> {
        let found = read_caller(alloc, self.files);
        self.faults = counted(self.faults, &found);
        found
    }

    fn rights(&mut self, path: &str) -> io::Result<FileRights> {
        let read = self.read_rights(path);
        self.faults = counted(self.faults, &read);
        read
    }

    fn lock(&mut self, alloc: Global, path: &str) -> io::Result<bool> {
        self.lock = None;
        let locked = hold_lock(alloc, self.files, path);
        self.faults = counted(self.faults, &locked);
        self.lock = locked?;
        Ok(self.lock.is_some())
    }

    fn pause(&mut self) {
        thread::sleep(self.files, Duration::from_millis(PAUSE));
    }

    fn seconds(&mut self) -> io::Result<u64> {
        let read = seconds_since_1970(self.files);
        self.faults = counted(self.faults, &read);
        read
    }

    fn random(&mut self) -> io::Result<[u8; 32]> {
        let drawn = random_octets(self.files);
        self.faults = counted(self.faults, &drawn);
        drawn
    }

    fn is_terminal(&self) -> bool {
        self.is_asked()
    }

    fn ask(&mut self, alloc: Global, question: &str, most: usize) -> io::Result<Option<Vec<u8>>> {
        let line = self.ask_line(alloc, question, most);
        self.faults = counted(self.faults, &line);
        line
    }

    fn faults(&self) -> u64 {
        self.faults
    }
}
