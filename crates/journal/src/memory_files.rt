//! The files of a journal, in memory.
ghost use Rattle.std.specs.Prelude.{◌≡◌, ◌++◌, ℕ, List, [], Some, None, IfOk, OnErr, OnOk, option_map, vec_items};
ghost use Rattle.std.specs.Result.{is_ok};
ghost use Rattle.journal.specs.World.{Appends, BeginsAs, Finishes, HasBeside, IsBetween, IsInPlace, IsLeft, IsRead};
ghost use Rattle.journal.specs.World.{Leaves, file_in, roomier, with_file, with_more};
ghost use Rattle.journal.specs.MemoryWorld.{memory_world, seal_in};

use crate::fault::Unfit;
use crate::files::{BeginError, Begun, FileText, JournalFiles, Left, News, Part};
use std::alloc::{AllocError, Global};

/// A call on files in memory failed: it was made to fail, memory ran out, its text was unfit, or no file was there.
#[derive(Clone, Copy, Debug, PartialEq, Eq)]
pub struct MemoryFilesError;

impl From<Unfit> for MemoryFilesError {
    fn from(_error: Unfit) -> MemoryFilesError {
        MemoryFilesError
    }
}

impl From<AllocError> for MemoryFilesError {
    fn from(_error: AllocError) -> MemoryFilesError {
        MemoryFilesError
    }
}

/// Which of the calls that change a file in memory fail, and what a failed one leaves.
#[derive(Clone, Copy, Debug, PartialEq, Eq)]
pub struct WriteFailures {
    /// How many calls succeed before the first failure.
    pub good: u32,
    /// How many calls then fail, one after another.
    pub bad: u32,
    /// How many octets of its text a failed `append` writes, or a failed `begin` beside the newer file.
    pub cut: usize,
    /// How far a failed `begin` came.
    pub left: Left,
}

/// The files of a journal, in memory, for tests. Contracts know what they hold, and calls can be made to fail.
#[derive(Drop)]
pub struct MemoryFiles {
    newer: Option<Vec<u8>>,
    older: Option<Vec<u8>>,
    beside: Option<Vec<u8>>,
    seal: Option<[u8; 16]>,
    failures: WriteFailures,
}

impl MemoryFiles {
    /// Returns the files before there is any.
    pub fn new() -> MemoryFiles
        // Promise: files in memory, by which these clauses are tried, keep the trait's promises.
        ensures { memory_world result ≡ record { newer = None; older = None; beside = None; seal = [] } }
    {
        MemoryFiles {
            newer: None,
            older: None,
            beside: None,
            seal: None,
            failures: WriteFailures {
                good: 0,
                bad: 0,
                cut: 0,
                left: Left::Before,
            },
        }
    }

    /// Makes later calls fail.
    pub fn fail(&mut self, failures: WriteFailures)
        // Promise, as MemoryFiles::new: files in memory, by ..
        ensures { memory_world self.new ≡ memory_world self.old }
    {
        self.failures = failures;
    }

    /// Leaves what a failed `begin` leaves, as far as it is made to come. Returns how far it came.
    fn leave(&mut self, alloc: Global, part: &[u8], octets: Vec<u8>, how: Begun) -> Left
        ensures { (rest : List ℕ) → octets.items ≡ part.now ++ rest
            → IsLeft how octets.items result (memory_world self.old) (memory_world self.new) }
    {
        match self.failures.left {
            Left::Before => {
                self.leave_part(alloc, part);
                Left::Before
            }
            Left::Between => {
                self.leave_between(octets, how);
                Left::Between
            }
            Left::InPlace => {
                self.leave_in_place(octets, how);
                Left::InPlace
            }
        }
    }

    /// Leaves a part of a file beside the newer one.
    fn leave_part(&mut self, alloc: Global, part: &[u8])
        ensures { (text rest : List ℕ) → text ≡ part.now ++ rest
            → HasBeside text (memory_world self.old) (memory_world self.new) }
    {
        self.beside = Vec::from_slice(alloc, part).ok();
    }

    /// Leaves the files between two steps.
    fn leave_between(&mut self, octets: Vec<u8>, how: Begun)
        ensures { IsBetween how octets.items (memory_world self.old) (memory_world self.new) }
    {
        match how {
            Begun::Linked => {
                self.older = self.newer.take();
                self.beside = Some(octets);
            }
            Begun::Anew => self.beside = None,
            Begun::Roomy => self.make_room(),
        }
    }

    /// Removes the older file, if the newer one is there.
    fn make_room(&mut self)
        ensures { memory_world self.new ≡ roomier (memory_world self.old) }
    {
        if self.newer.is_some() {
            self.older = None;
        }
    }

    /// Makes a file the newer one, and leaves the older one if it is to go.
    fn leave_in_place(&mut self, octets: Vec<u8>, how: Begun)
        ensures { IsInPlace how octets.items (memory_world self.old) (memory_world self.new) }
    {
        match how {
            Begun::Linked => self.older = self.newer.take(),
            Begun::Anew | Begun::Roomy => {}
        }
        self.newer = Some(octets);
        self.beside = None;
    }

    /// Makes a file the newer one.
    fn place(&mut self, octets: Vec<u8>, how: Begun)
        ensures { memory_world self.new ≡ with_file how octets.items (memory_world self.old) }
    {
        match how {
            Begun::Linked => self.older = self.newer.take(),
            Begun::Anew | Begun::Roomy => self.older = None,
        }
        self.newer = Some(octets);
        self.beside = None;
    }

    /// Checks whether the next call that changes a file fails.
    fn fails(&mut self) -> bool
        ensures { memory_world self.new ≡ memory_world self.old }
    {
        if self.failures.good > 0 {
            self.failures.good -= 1;
            return false;
        }
        if self.failures.bad > 0 {
            self.failures.bad -= 1;
            return true;
        }
        false
    }
}

impl JournalFiles for MemoryFiles {
    type Fault = MemoryFilesError;

    // Promise, as MemoryFiles::new: files in memory, by ..
    ghost world = { λ m. Some (memory_world m) };

    fn append(&mut self, text: &[u8]) -> Result<(), MemoryFilesError> {
        if self.fails() {
            let (part, _) = text.split_at(self.failures.cut.min(text.len()));
            let _ = push_text(&mut self.newer, part);
            return Err(MemoryFilesError);
        }
        push_text(&mut self.newer, text)
    }

    fn begin(
        &mut self,
        alloc: Global,
        text: &[u8],
        how: Begun,
    ) -> Result<(), BeginError<MemoryFilesError>> {
        let Ok(octets) = Vec::from_slice(alloc, text) else {
            return Err(not_begun(Left::Before));
        };
        if self.fails() {
            let (part, _) = text.split_at(self.failures.cut.min(text.len()));
            let left = self.leave(alloc, part, octets, how);
            return Err(not_begun(left));
        }
        self.place(octets, how);
        Ok(())
    }

    fn finish(&mut self) -> Result<(), MemoryFilesError> {
        if self.fails() {
            return Err(MemoryFilesError);
        }
        self.newer = self.beside.take();
        Ok(())
    }

    fn read(&mut self, alloc: Global, part: Part) -> Result<FileText, MemoryFilesError> {
        match part {
            Part::Older => read_text(alloc, &self.older),
            Part::Newer => read_text(alloc, &self.newer),
            Part::Beside => read_text(alloc, &self.beside),
        }
    }

    fn read_seal(&mut self, alloc: Global) -> Result<Vec<u8>, MemoryFilesError> {
        Ok(seal_text(alloc, &self.seal)?)
    }

    fn seal(&mut self, check: &[u8; 16]) -> Result<(), MemoryFilesError> {
        if self.fails() {
            return Err(MemoryFilesError);
        }
        self.seal = Some(*check);
        Ok(())
    }

    fn unseal(&mut self) -> Result<(), MemoryFilesError> {
        if self.fails() {
            return Err(MemoryFilesError);
        }
        self.seal = None;
        Ok(())
    }

    fn say(&mut self, news: News<MemoryFilesError>)
        // Promise, as MemoryFiles::new: files in memory, by ..
        ensures { memory_world self.new ≡ memory_world self.old }
    {
        let _ = news;
    }
}

/// Appends a text to a file. If it fails, nothing is changed.
fn push_text(file: &mut Option<Vec<u8>>, text: &[u8]) -> Result<(), MemoryFilesError>
    ensures ok { OnOk result (option_map vec_items file.new
        ≡ option_map (λ front. front ++ text.now) (option_map vec_items file.old)) }
    ensures err { OnErr result (option_map vec_items file.new ≡ option_map vec_items file.old) }
{
    match file {
        Some(octets) => match octets.extend_from_slice(text) {
            Ok(()) => Ok(()),
            Err(AllocError) => Err(MemoryFilesError),
        },
        None => Err(MemoryFilesError),
    }
}

/// Copies a seal.
fn seal_text(alloc: Global, seal: &Option<[u8; 16]>) -> Result<Vec<u8>, AllocError>
    ensures { IfOk result (λ octets. octets.items ≡ seal_in seal.now) }
{
    match seal {
        None => Ok(Vec::new(alloc)),
        Some(check) => Vec::from_slice(alloc, check.as_slice()),
    }
}

/// Returns the fault of a file that was not begun.
fn not_begun(left: Left) -> BeginError<MemoryFilesError>
    ensures { result.left ≡ left }
{
    BeginError {
        fault: MemoryFilesError,
        left,
    }
}

fn read_text(alloc: Global, file: &Option<Vec<u8>>) -> Result<FileText, MemoryFilesError>
    ensures { IfOk result (IsRead (option_map vec_items file.now)) }
{
    match file {
        None => Ok(FileText::Nothing),
        Some(octets) => match Vec::from_slice(alloc, octets) {
            Ok(copy) => Ok(FileText::Octets(copy)),
            Err(_) => Err(MemoryFilesError),
        },
    }
}
