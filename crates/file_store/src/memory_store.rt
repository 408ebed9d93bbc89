//! Files, random bytes and an input in memory, for tests.
ghost use Rattle.std.specs.Prelude.{◌≡◌, ◌≤◌, ◌++◌, ◌∷◌, [], Some, IfErr, IfNone, IsErr};
ghost use Rattle.std.specs.Prelude.{IfOk, OnOk, OnErr, IfSome, vec_len, option_map, is_some};
ghost use Rattle.std.specs.IoError.{error_kind};
ghost use Rattle.std.specs.declared.io.ErrorKind.TheVariants.{UnexpectedEof};
ghost use Rattle.file_store.specs.Growing.{IsMoved, IsPartGrown, grown, shortened, text_at};
ghost use Rattle.file_store.specs.Input.{IsFirstLong, lines_of};
ghost use Rattle.file_store.specs.Memory.{input_of, prepared_of, rights_under, world_of};
ghost use Rattle.file_store.specs.MemoryFiles.{file_at, new_file_of};
ghost use Rattle.file_store.specs.Placing.{IsPlaced};
ghost use Rattle.file_store.specs.World.{first_octet, with_file, without_file};

use crate::callers::Caller;
use crate::counting::{counted, counted_write};
use crate::inputs::{after_line, first_line};
use crate::memory_files::{PreparedFile, StoredFile, file_at, gone_entry, new_entry};
use crate::plain_files::OWNER_ONLY;
use crate::store::{FileRights, NewMode, Store, Written};
use std::alloc::{AllocError, Global};
use std::io;
use std::io::{Error, ErrorKind};

mod growing;

/// The result of a write in memory.
#[derive(Clone, Copy)]
pub enum WriteEnd {
    /// The file is there, and on the disk.
    Synced,
    /// The file is there, but its folder could not be synced.
    NotSynced,
    /// The path is unchanged: the disk is full.
    Unchanged,
}

/// Files in memory, for tests. Root owns each of them. Nobody else has the lock of a file.
#[derive(Drop)]
pub struct MemoryStore {
    /// What was written or removed last comes first.
    files: Vec<StoredFile>,
    seconds: u64,
    random: [u8; 32],
    input: Vec<u8>,
    terminal: bool,
    /// Who runs the program.
    caller: Caller,
    /// The result of each write.
    end: WriteEnd,
    /// How many bytes an append writes before it fails. `None` if it does not.
    append_limit: Option<usize>,
    /// The new file that was prepared.
    prepared: Option<PreparedFile>,
    faults: u64,
}

impl MemoryStore {
    /// Returns a store without files. Its random bytes are zeros, its clock stands at 0, its input has ended, and root
    /// runs the program. Writes and appends succeed.
    pub fn new(alloc: Global) -> MemoryStore {
        MemoryStore {
            files: Vec::new(alloc),
            seconds: 0,
            random: [0; 32],
            input: Vec::new(alloc),
            terminal: false,
            caller: Caller {
                uid: Some(0),
                name: None,
                sudo_uid: None,
                sudo_user: None,
            },
            end: WriteEnd::Synced,
            append_limit: None,
            prepared: None,
            faults: 0,
        }
    }

    /// Returns the content of a file.
    pub fn get(&self, path: &str) -> Option<&[u8]>
        ensures { option_map (λ octets. octets.now) result ≡ file_at self.now.files.items path.now }
    {
        file_at(&self.files, path)
    }

    /// Removes the file at a path, if there is one.
    pub fn remove_file(&mut self, alloc: Global, path: &str) -> Result<(), AllocError>
        ensures removed { OnOk result (world_of self.new ≡ without_file path.now (world_of self.old)) }
        ensures unchanged { OnErr result (world_of self.new ≡ world_of self.old) }
        ensures held { prepared_of self.new ≡ prepared_of self.old }
        ensures kept { input_of self.new ≡ input_of self.old }
        ensures faults { self.new.faults ≡ self.old.faults }
    {
        let file = gone_entry(alloc, path)?;
        self.files.insert(0, file)?;
        Ok(())
    }

    /// Makes a file with these bytes, which replaces the one there.
    pub fn set(&mut self, alloc: Global, path: &str, octets: &[u8]) -> Result<(), AllocError>
        ensures written { OnOk result (world_of self.new ≡ with_file path.now octets.now (world_of self.old)) }
        ensures unchanged { OnErr result (world_of self.new ≡ world_of self.old) }
        ensures held { prepared_of self.new ≡ prepared_of self.old }
        ensures kept { input_of self.new ≡ input_of self.old }
        ensures faults { self.new.faults ≡ self.old.faults }
    {
        let file = new_entry(alloc, path, octets)?;
        self.files.insert(0, file)?;
        Ok(())
    }

    /// Sets the clock.
    pub fn set_seconds(&mut self, seconds: u64) {
        self.seconds = seconds;
    }

    /// Makes these the random bytes of each call.
    pub fn set_random(&mut self, octets: [u8; 32]) {
        self.random = octets;
    }

    /// Makes this user the one who runs the program.
    pub fn set_user(&mut self, user: u32) {
        self.caller.uid = Some(user);
    }

    /// Makes this the one who runs the program.
    pub fn set_caller(&mut self, caller: Caller) {
        self.caller = caller;
    }

    /// Makes this the result of each later write.
    pub fn set_write_end(&mut self, end: WriteEnd) {
        self.end = end;
    }

    /// Makes each later append fail after this many bytes. `None`: they succeed.
    pub fn set_append_limit(&mut self, limit: Option<usize>) {
        self.append_limit = limit;
    }

    /// Makes these bytes the remaining input, which comes from a terminal or from elsewhere.
    pub fn set_input(
        &mut self,
        alloc: Global,
        octets: &[u8],
        terminal: bool,
    ) -> Result<(), AllocError>
        ensures given { OnOk result (input_of self.new ≡ record { lines = lines_of octets.now; terminal = terminal }) }
        ensures kept { OnErr result (input_of self.new ≡ input_of self.old) }
        ensures unchanged { world_of self.new ≡ world_of self.old }
        ensures faults { self.new.faults ≡ self.old.faults }
    {
        self.input = Vec::from_slice(alloc, octets)?;
        self.terminal = terminal;
        Ok(())
    }

    fn copy(&self, alloc: Global, path: &str, most: usize) -> io::Result<Option<Vec<u8>>>
        ensures within { IfOk result (λ found. IfSome found (λ octets. vec_len octets ≤ most)) }
        ensures read { IfOk result (λ found. IfSome found (λ octets.
            (world_of self.now).files path.now ≡ Some octets.items)) }
    {
        match self.get(path) {
            Some(octets) if octets.len() > most => Ok(None),
            Some(octets) => Ok(Some(Vec::from_slice(alloc, octets)?)),
            None => Err(Error::from(ErrorKind::NotFound)),
        }
    }

    fn path_rights(&self, path: &str) -> io::Result<FileRights>
        ensures { IfOk result (λ rights. rights ≡ rights_under self.now.caller.uid) }
    {
        match self.get(path) {
            Some(_) => Ok(FileRights {
                mode: OWNER_ONLY,
                owner: 0,
                user: self.caller.uid,
            }),
            None => Err(Error::from(ErrorKind::NotFound)),
        }
    }

    /// Writes a file, unless the disk is full.
    fn put(&mut self, alloc: Global, path: &str, octets: &[u8]) -> io::Result<()>
        ensures written { OnOk result (Some (world_of self.new)
            ≡ Some (with_file path.now octets.now (world_of self.old))) }
        ensures unchanged { OnErr result (Some (world_of self.new) ≡ Some (world_of self.old)) }
        ensures kept { Some (input_of self.new) ≡ Some (input_of self.old) }
        ensures faults { self.new.faults ≡ self.old.faults }
    {
        match self.end {
            WriteEnd::Unchanged => Err(Error::from(ErrorKind::StorageFull)),
            WriteEnd::Synced | WriteEnd::NotSynced => self
                .set(alloc, path, octets)
                .map_err(Error::from),
        }
    }

    /// Puts a new file into its place, unless the disk is full.
    fn put_new(&mut self, new: PreparedFile) -> io::Result<()>
        ensures placed { OnOk result (world_of self.new
            ≡ with_file (new_file_of new).path (new_file_of new).octets (world_of self.old)) }
        ensures unchanged { OnErr result (world_of self.new ≡ world_of self.old) }
        ensures held { self.new.prepared ≡ self.old.prepared }
        ensures kept { input_of self.new ≡ input_of self.old }
        ensures faults { self.new.faults ≡ self.old.faults }
    {
        match self.end {
            WriteEnd::Unchanged => Err(Error::from(ErrorKind::StorageFull)),
            WriteEnd::Synced | WriteEnd::NotSynced => {
                let PreparedFile { path, octets } = new;
                let file = StoredFile {
                    path,
                    octets: Some(octets),
                };
                self.files.insert(0, file)?;
                Ok(())
            }
        }
    }

    /// Syncs the folder of a file that was written.
    fn synced(&self) -> Written {
        match self.end {
            WriteEnd::NotSynced => Written::NotSynced(Error::from(ErrorKind::Other)),
            WriteEnd::Synced | WriteEnd::Unchanged => Written::Synced,
        }
    }
}

/// Takes the next line from an input.
#[tactic(auto, using(crate::proofs::Lines::first_is, crate::proofs::Lines::first_long))]
fn take_line(alloc: Global, input: &mut Vec<u8>, most: usize) -> io::Result<Option<Vec<u8>>>
    ensures within { IfOk result (λ found. IfSome found (λ octets. vec_len octets ≤ most)) }
    ensures line { IfOk result (λ found. IfSome found (λ octets.
        lines_of input.old.items ≡ octets.items ∷ lines_of input.new.items)) }
    ensures long { IfOk result (λ found. IfNone found (IsFirstLong (lines_of input.old.items) most)) }
    ensures ended { IfErr result (λ error. error_kind error ≡ UnexpectedEof → lines_of input.old.items ≡ []) }
{
    if input.is_empty() {
        return Err(Error::from(ErrorKind::UnexpectedEof));
    }
    let line = Vec::from_slice(alloc, first_line(input))?;
    *input = Vec::from_slice(alloc, after_line(input))?;
    if line.len() > most {
        return Ok(None);
    }
    Ok(Some(line))
}

/// Returns the new file of a path, unless the disk is full.
fn prepared_file(
    alloc: Global,
    path: &str,
    octets: &[u8],
    end: WriteEnd,
) -> io::Result<PreparedFile>
    ensures { IfOk result (λ new. new_file_of new ≡ record { path = path.now; octets = octets.now }) }
{
    match end {
        WriteEnd::Unchanged => Err(Error::from(ErrorKind::StorageFull)),
        WriteEnd::Synced | WriteEnd::NotSynced => Ok(PreparedFile {
            path: String::from_str(alloc, path)?,
            octets: Vec::from_slice(alloc, octets)?,
        }),
    }
}

impl Store for MemoryStore {
    ghost fault_count = { λ s. s.faults };

    ghost world = { λ s. Some (world_of s) };

    ghost input = { λ s. Some (input_of s) };

    ghost prepared = { λ s. prepared_of s };

    fn exists(&mut self, path: &str) -> io::Result<bool> {
        Ok(self.get(path).is_some())
    }

    fn read(&mut self, alloc: Global, path: &str, most: usize) -> io::Result<Option<Vec<u8>>> {
        let read = self.copy(alloc, path, most);
        self.faults = counted(self.faults, &read);
        read
    }

    fn read_stream(
        &mut self,
        alloc: Global,
        path: &str,
        most: usize,
    ) -> io::Result<Option<Vec<u8>>> {
        self.read(alloc, path, most)
    }

    fn first_octet(&mut self, _alloc: Global, path: &str) -> io::Result<Option<u8>> {
        match self.get(path) {
            Some(octets) => Ok(octets.first().copied()),
            None => Ok(None),
        }
    }

    fn write(&mut self, alloc: Global, path: &str, octets: &[u8]) -> io::Result<Written> {
        let written = match self.put(alloc, path, octets) {
            Ok(()) => Ok(self.synced()),
            Err(error) => Err(error),
        };
        self.faults = counted_write(self.faults, &written);
        written
    }

    fn update(
        &mut self,
        alloc: Global,
        path: &str,
        octets: &[u8],
        _mode: NewMode,
    ) -> io::Result<Written> {
        self.write(alloc, path, octets)
    }

    fn write_unsynced(&mut self, alloc: Global, path: &str, octets: &[u8]) -> io::Result<()> {
        let written = self.put(alloc, path, octets);
        self.faults = counted(self.faults, &written);
        written
    }

    fn prepare(
        &mut self,
        alloc: Global,
        path: &str,
        octets: &[u8],
        _mode: NewMode,
    ) -> io::Result<()> {
        self.prepared = None;
        let prepared = prepared_file(alloc, path, octets, self.end);
        self.faults = counted(self.faults, &prepared);
        self.prepared = Some(prepared?);
        Ok(())
    }

    fn place(&mut self) -> io::Result<Written> {
        let placed = match self.prepared.take() {
            Some(new) => match self.put_new(new) {
                Ok(()) => Ok(self.synced()),
                Err(error) => Err(error),
            },
            None => Err(Error::from(ErrorKind::NotFound)),
        };
        self.faults = counted_write(self.faults, &placed);
        placed
    }

    fn discard(&mut self) -> io::Result<()> {
        self.prepared = None;
        Ok(())
    }

    fn append(
        &mut self,
        alloc: Global,
        path: &str,
        octets: &[u8],
        _beside: &str,
    ) -> io::Result<()> {
        let appended = match self.append_limit {
            Some(limit) => self.grow_in_part(alloc, path, octets, limit),
            None => self.grow(alloc, path, octets).map_err(Error::from),
        };
        self.faults = counted(self.faults, &appended);
        appended
    }

    fn cut(&mut self, alloc: Global, path: &str, len: usize) -> io::Result<()> {
        let cut = match self.end {
            WriteEnd::Unchanged => Err(Error::from(ErrorKind::StorageFull)),
            WriteEnd::Synced | WriteEnd::NotSynced => {
                self.shorten(alloc, path, len).map_err(Error::from)
            }
        };
        self.faults = counted(self.faults, &cut);
        cut
    }

    fn rename(&mut self, alloc: Global, from: &str, to: &str) -> io::Result<Written> {
        let moved = match self.move_file(alloc, from, to) {
            Ok(()) => Ok(self.synced()),
            Err(error) => Err(error),
        };
        self.faults = counted_write(self.faults, &moved);
        moved
    }

    fn canonical(&mut self, alloc: Global, path: &str) -> io::Result<String> {
        let copy = String::from_str(alloc, path).map_err(Error::from);
        self.faults = counted(self.faults, &copy);
        copy
    }

    fn caller(&mut self, alloc: Global) -> io::Result<Caller> {
        let copy = self.caller.copy(alloc).map_err(Error::from);
        self.faults = counted(self.faults, &copy);
        copy
    }

    fn rights(&mut self, path: &str) -> io::Result<FileRights> {
        let read = self.path_rights(path);
        self.faults = counted(self.faults, &read);
        read
    }

    fn lock(&mut self, _alloc: Global, _path: &str) -> io::Result<bool> {
        Ok(true)
    }

    fn pause(&mut self) {}

    fn seconds(&mut self) -> io::Result<u64> {
        Ok(self.seconds)
    }

    fn random(&mut self) -> io::Result<[u8; 32]> {
        Ok(self.random)
    }

    fn is_terminal(&self) -> bool {
        self.terminal
    }

    fn ask(&mut self, alloc: Global, _question: &str, most: usize) -> io::Result<Option<Vec<u8>>> {
        let line = take_line(alloc, &mut self.input, most);
        self.faults = counted(self.faults, &line);
        line
    }

    fn faults(&self) -> u64 {
        self.faults
    }
}
