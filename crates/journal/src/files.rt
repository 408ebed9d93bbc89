//! What a journal asks of its files.
ghost use Rattle.std.specs.Prelude.{◌≡◌, Option, IfOk, IfSome};
ghost use Rattle.std.specs.Result.{is_ok};
ghost use Rattle.journal.specs.World.{Appends, BeginsAs, Finishes, IsRead, Leaves, Seals, Unseals, World, file_in};

use crate::fault::Unfit;
use std::alloc::{AllocError, Global};

/// One of the three files of a journal.
#[derive(Clone, Copy, Debug, PartialEq, Eq)]
pub enum Part {
    /// The file that came before the newer one.
    Older,
    /// The file that is appended to.
    Newer,
    /// A file that was begun, and has not become the newer one yet.
    Beside,
}

/// How a file is begun.
#[derive(Clone, Copy, Debug, PartialEq, Eq)]
pub enum Begun {
    /// The newer file becomes the older one. The new file is written and synced beside it, then both are renamed, and
    /// then their folder is synced.
    Linked,
    /// There is no older one afterwards. The new file is written and synced beside the newer one, takes its place, and
    /// the folder is synced. Then the older one is removed, and the folder is synced again.
    Anew,
    /// As `Anew`, but if the newer file is there, the older one is removed first: it may be why there is no room. The
    /// floor of the newer one is above all that it holds.
    Roomy,
}

/// What a call that failed to begin a file left.
#[derive(Clone, Copy, Debug, PartialEq, Eq)]
pub enum Left {
    /// Both files, as they were. A part of the new one may be beside them.
    Before,
    /// A step between: the newer file is the older one now, and the new one is beside it; or the older one is gone.
    Between,
    /// The new file, in its place. The system may not have that on the disk, and the older file may still be there.
    InPlace,
}

/// Why a file was not begun, and what that left.
#[derive(Drop)]
pub struct BeginError<E> {
    /// Why the call failed.
    pub fault: E,
    /// What it left.
    pub left: Left,
}

/// The content of one of the files.
#[derive(Drop)]
pub enum FileText {
    /// No file.
    Nothing,
    /// A file that is not read as a journal: it is too long, or others may write it.
    Unusable,
    /// These bytes.
    Octets(Vec<u8>),
}

/// News of a journal, for those who run the server.
#[derive(Drop)]
pub enum News<E> {
    /// The files could not take turns. The journal goes on in the same file.
    NotTurned(E),
    /// An authenticator could not be kept.
    Lost(E),
    /// All that could not be kept is kept now.
    Mended,
}

/// The files of a journal, and its seal: the last check of a journal that no server holds and that is wholly on the
/// disk. They may keep a record of what the files hold, for contracts alone.
pub trait JournalFiles {
    /// Why a call failed, or why the text for one could not be made.
    type Fault: From<Unfit> + From<AllocError> + Drop;

    // What the files hold, if that is recorded.
    ghost world: { Self → Option World };

    /// Appends a text to the newer file.
    fn append(&mut self, text: &[u8]) -> Result<(), Self::Fault>
        ensures { Leaves (Appends text.now (is_ok result)) (world self.old) (world self.new) };

    /// Begins a file with a text. It becomes the newer one once all of it is written and synced.
    fn begin(
        &mut self,
        alloc: Global,
        text: &[u8],
        how: Begun,
    ) -> Result<(), BeginError<Self::Fault>>
        ensures { BeginsAs how text.now result (world self.old) (world self.new) };

    /// Finishes a turn that was cut: the file beside becomes the newer one, which is missing, and the folder is synced.
    fn finish(&mut self) -> Result<(), Self::Fault>
        ensures { Leaves (Finishes (is_ok result)) (world self.old) (world self.new) };

    /// Reads a file.
    fn read(&mut self, alloc: Global, part: Part) -> Result<FileText, Self::Fault>
        ensures world { world self.new ≡ world self.old }
        ensures read { IfOk result (λ text. IfSome (world self.old) (λ w. IsRead (file_in part w) text)) };

    /// Reads the seal. Returns no octets if there is no seal.
    fn read_seal(&mut self, alloc: Global) -> Result<Vec<u8>, Self::Fault>
        ensures world { world self.new ≡ world self.old }
        ensures read { IfOk result (λ seal. IfSome (world self.old) (λ w. seal.items ≡ w.seal)) };

    /// Seals the journal with its last check. When this returns, both files and the seal are on the disk.
    fn seal(&mut self, check: &[u8; 16]) -> Result<(), Self::Fault>
        ensures { Leaves (Seals check.now (is_ok result)) (world self.old) (world self.new) };

    /// Breaks the seal, if there is one. When this returns, that is on the disk.
    fn unseal(&mut self) -> Result<(), Self::Fault>
        ensures { Leaves (Unseals (is_ok result)) (world self.old) (world self.new) };

    /// Reports news of the journal.
    fn say(&mut self, news: News<Self::Fault>)
        ensures { world self.new ≡ world self.old };
}
