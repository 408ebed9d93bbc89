//! A file in memory that grows, is cut, or gets another path.
ghost use Rattle.std.specs.Prelude.{◌≡◌, ◌++◌, IfOk, IsErr, OnErr, OnOk, Some};
ghost use Rattle.file_store.specs.Growing.{IsMoved, IsPartGrown, grown, shortened, text_at};
ghost use Rattle.file_store.specs.Memory.{input_of, prepared_of, world_of};

use super::MemoryStore;
use crate::memory_files::{gone_entry, new_entry};
use std::alloc::{AllocError, Global};
use std::io;
use std::io::{Error, ErrorKind};

impl MemoryStore {
    /// Returns the content of a file with these bytes at its end.
    fn longer(&self, alloc: Global, path: &str, octets: &[u8]) -> Result<Vec<u8>, AllocError>
        ensures { IfOk result (λ longer. longer.items ≡ text_at path.now (world_of self.now) ++ octets.now) }
    {
        let mut longer = match self.get(path) {
            Some(octets) => Vec::from_slice(alloc, octets)?,
            None => Vec::new(alloc),
        };
        longer.extend_from_slice(octets)?;
        Ok(longer)
    }

    /// Adds these bytes at the end of a file.
    pub(super) fn grow(
        &mut self,
        alloc: Global,
        path: &str,
        octets: &[u8],
    ) -> Result<(), AllocError>
        ensures grown { OnOk result (world_of self.new ≡ grown path.now octets.now (world_of self.old)) }
        ensures unchanged { OnErr result (world_of self.new ≡ world_of self.old) }
        ensures held { prepared_of self.new ≡ prepared_of self.old }
        ensures kept { input_of self.new ≡ input_of self.old }
        ensures faults { self.new.faults ≡ self.old.faults }
    {
        let longer = self.longer(alloc, path, octets)?;
        self.set(alloc, path, &longer)
    }

    /// Adds the first bytes of these at the end of a file, and fails.
    pub(super) fn grow_in_part(
        &mut self,
        alloc: Global,
        path: &str,
        octets: &[u8],
        limit: usize,
    ) -> io::Result<()>
        ensures fails { IsErr result }
        ensures part { IsPartGrown (Some (world_of self.old)) path.now octets.now (Some (world_of self.new)) }
        ensures held { prepared_of self.new ≡ prepared_of self.old }
        ensures kept { input_of self.new ≡ input_of self.old }
        ensures faults { self.new.faults ≡ self.old.faults }
    {
        let len = limit.min(octets.len());
        match self.grow(alloc, path, octets.split_at(len).0) {
            Ok(()) => Err(Error::from(ErrorKind::StorageFull)),
            Err(error) => Err(Error::from(error)),
        }
    }

    /// Cuts a file back to its first bytes.
    pub(super) fn shorten(
        &mut self,
        alloc: Global,
        path: &str,
        len: usize,
    ) -> Result<(), AllocError>
        ensures shortened { OnOk result (world_of self.new ≡ shortened path.now len (world_of self.old)) }
        ensures unchanged { OnErr result (world_of self.new ≡ world_of self.old) }
        ensures held { prepared_of self.new ≡ prepared_of self.old }
        ensures kept { input_of self.new ≡ input_of self.old }
        ensures faults { self.new.faults ≡ self.old.faults }
    {
        let mut octets = match self.get(path) {
            Some(octets) => Vec::from_slice(alloc, octets)?,
            None => return Ok(()),
        };
        octets.truncate(len);
        self.set(alloc, path, &octets)
    }

    /// Gives a file another path, which is free.
    pub(super) fn move_file(&mut self, alloc: Global, from: &str, to: &str) -> io::Result<()>
        ensures moved { OnOk result
            (IsMoved (Some (world_of self.old)) from.now to.now (Some (world_of self.new))) }
        ensures unchanged { OnErr result (world_of self.new ≡ world_of self.old) }
        ensures held { prepared_of self.new ≡ prepared_of self.old }
        ensures kept { input_of self.new ≡ input_of self.old }
        ensures faults { self.new.faults ≡ self.old.faults }
    {
        if self.get(to).is_some() {
            return Err(Error::from(ErrorKind::AlreadyExists));
        }
        let moved = match self.get(from) {
            Some(octets) => new_entry(alloc, to, octets)?,
            None => return Err(Error::from(ErrorKind::NotFound)),
        };
        let gone = gone_entry(alloc, from)?;
        let mut files = Vec::new(alloc);
        files.push(moved)?;
        files.push(gone)?;
        files.append(&mut self.files)?;
        self.files = files;
        Ok(())
    }
}
