//! What a program uses of its system.
ghost use Rattle.std.specs.Prelude.{◌≡◌, ◌≤◌, ℕ, Option, IfErr, IfNone, IfOk, OnOk, OnErr, IfSome, vec_len, option_map};
ghost use Rattle.std.specs.IoError.{error_kind};
ghost use Rattle.std.specs.declared.io.ErrorKind.TheVariants.{UnexpectedEof};
ghost use Rattle.std.specs.Prelude.{None, string_bytes};
ghost use Rattle.file_store.specs.Callers.{user_of};
ghost use Rattle.file_store.specs.Counting.{IsCounted, IsWriteCounted};
ghost use Rattle.file_store.specs.Growing.{grown, shortened, IsMoved, IsPartGrown, IsPerhapsShortened};
ghost use Rattle.file_store.specs.Input.{HasEnded, HasLongLine, Input, IsTerminal, TakesLine};
ghost use Rattle.file_store.specs.Placing.{IsPlaced, IsPrepared, NewFile};
ghost use Rattle.file_store.specs.World.{World, with_file, HasRights, IsThere, IsRead, IsDrawn, IsFirst, IsNow};
ghost use Rattle.file_store.specs.World.{IsCaller, IsCanonical};

use crate::callers::Caller;
use std::alloc::Global;
use std::io;

/// The greatest size of a file to read, in bytes.
pub const LONGEST_FILE: usize = 16_777_216;

/// Who may read and write a file.
#[derive(Clone, Copy)]
pub struct FileRights {
    /// The nine bits of its mode.
    pub mode: u32,
    /// The number of the user who owns it.
    pub owner: u32,
    /// The user who runs the program, if the system says so.
    pub user: Option<u32>,
}

/// The mode of a file that replaces another one.
#[derive(Clone, Copy)]
pub enum NewMode {
    /// That of the file that is there.
    Kept,
    /// 600: only its owner may read and write it.
    OwnerOnly,
}

/// The result of replacing a file: whether the new one is surely on the disk. This type is not `Drop`, so a caller
/// can't ignore it.
#[derive(Debug)]
pub enum Written {
    /// It is on the disk: after a power failure the new file is there.
    Synced,
    /// The new file is there, but its folder could not be synced. If the power fails now, the old file may be back.
    NotSynced(io::Error),
}

/// The files, the random bytes, the clock and the standard input of a program. A store counts failed calls.
pub trait Store {
    // How often a call has failed.
    ghost fault_count: { Self → ℕ };

    // The content of the store. `None` if the store has no record of it: no contract knows what a system's file
    // contains.
    ghost world: { Self → Option World };

    // The lines of standard input that were not read yet. `None` if the store has no record of them.
    ghost input: { Self → Option Input };

    // The new file that is complete, and has not taken its place yet.
    ghost prepared: { Self → Option NewFile };

    /// Checks whether there is a file.
    fn exists(&mut self, path: &str) -> io::Result<bool>
        ensures there { IfOk result (λ found. IsThere (world self.old) path.now found) }
        ensures unchanged { world self.new ≡ world self.old }
        ensures kept { input self.new ≡ input self.old }
        ensures counted { IsCounted (fault_count self.old) result (fault_count self.new) };

    /// Reads a whole file. `None` if it has more than `most` bytes. A folder, a FIFO or a device is an `Err`.
    fn read(&mut self, alloc: Global, path: &str, most: usize) -> io::Result<Option<Vec<u8>>>
        // Promise, as read_file: no more than the ..
        ensures within { IfOk result (λ found. IfSome found (λ octets. vec_len octets ≤ most)) }
        // Promise (read, unchanged): what is read is what the file holds; a write leaves its file with these bytes and
        // every other path as it was; a failed write, and every other call, leaves all as it was.
        ensures read { IfOk result (λ found. IfSome found (λ octets. IsRead (world self.old) path.now octets.items)) }
        ensures unchanged { world self.new ≡ world self.old }
        ensures kept { input self.new ≡ input self.old }
        // Promise: a store counts each of its calls that fails, and no other.
        ensures counted { IsCounted (fault_count self.old) result (fault_count self.new) };

    /// Reads what `read` reads, and also a FIFO or a device to its end: a shell passes a command's output as a FIFO. A
    /// folder is an `Err`.
    fn read_stream(&mut self, alloc: Global, path: &str, most: usize) -> io::Result<Option<Vec<u8>>>
        ensures within { IfOk result (λ found. IfSome found (λ octets. vec_len octets ≤ most)) }
        ensures read { IfOk result (λ found. IfSome found (λ octets. IsRead (world self.old) path.now octets.items)) }
        ensures unchanged { world self.new ≡ world self.old }
        ensures kept { input self.new ≡ input self.old }
        ensures counted { IsCounted (fault_count self.old) result (fault_count self.new) };

    /// Reads the first byte of the file that a write would replace. `None` if there is none, or it is empty. A device
    /// or a folder is an `Err`, because neither is replaced.
    fn first_octet(&mut self, alloc: Global, path: &str) -> io::Result<Option<u8>>
        ensures first { IfOk result (λ octet. IsFirst (world self.old) path.now octet) }
        ensures unchanged { world self.new ≡ world self.old }
        ensures kept { input self.new ≡ input self.old }
        ensures counted { IsCounted (fault_count self.old) result (fault_count self.new) };

    /// Writes a new file, which replaces the one there, and syncs its folder. Only its owner may read and write it.
    /// After an `Err` the path is unchanged.
    fn write(&mut self, alloc: Global, path: &str, octets: &[u8]) -> io::Result<Written>
        // Promise (written, unchanged), as Store::read: what is read is ..
        ensures written { OnOk result (world self.new ≡ option_map (with_file path.now octets.now) (world self.old)) }
        ensures unchanged { OnErr result (world self.new ≡ world self.old) }
        ensures kept { input self.new ≡ input self.old }
        // Promise, as Store::read: a store counts each ..
        ensures counted { IsWriteCounted (fault_count self.old) result (fault_count self.new) };

    /// Writes a file with the owner and the group of the one there, and with this mode, and syncs its folder. Fails if
    /// it can't set them. Without a file there it does what `write` does, whatever the mode. After an `Err` the path is
    /// unchanged.
    fn update(
        &mut self,
        alloc: Global,
        path: &str,
        octets: &[u8],
        mode: NewMode,
    ) -> io::Result<Written>
        ensures written { OnOk result (world self.new ≡ option_map (with_file path.now octets.now) (world self.old)) }
        ensures unchanged { OnErr result (world self.new ≡ world self.old) }
        ensures kept { input self.new ≡ input self.old }
        ensures counted { IsWriteCounted (fault_count self.old) result (fault_count self.new) };

    /// Writes what `write` writes, and syncs no folder: after a power failure the old file may be back. It is for files
    /// that are easily made anew.
    fn write_unsynced(&mut self, alloc: Global, path: &str, octets: &[u8]) -> io::Result<()>
        // Promise (written, unchanged), as Store::read: what is read is ..
        ensures written { OnOk result (world self.new ≡ option_map (with_file path.now octets.now) (world self.old)) }
        ensures unchanged { OnErr result (world self.new ≡ world self.old) }
        ensures kept { input self.new ≡ input self.old }
        // Promise, as Store::read: a store counts each ..
        ensures counted { IsCounted (fault_count self.old) result (fault_count self.new) };

    /// Writes the new file of a path beside it, and syncs it, with the owner, the group and the mode that `update`
    /// gives. The path is unchanged until `place`. What was prepared before is discarded.
    fn prepare(&mut self, alloc: Global, path: &str, octets: &[u8], mode: NewMode) -> io::Result<()>
        // Promise (prepared, none, unchanged): a new file takes its place as it was prepared, at the path that it was
        // prepared for, and until then every path is as it was.
        ensures prepared { OnOk result
            (IsPrepared (world self.old) path.now octets.now (prepared self.new)) }
        ensures none { OnErr result (prepared self.new ≡ None) }
        ensures unchanged { world self.new ≡ world self.old }
        ensures kept { input self.new ≡ input self.old }
        // Promise, as Store::read: a store counts each ..
        ensures counted { IsCounted (fault_count self.old) result (fault_count self.new) };

    /// Renames the new file that was prepared onto its path, and syncs the folder. After an `Err` the path is
    /// unchanged, and the new file is discarded.
    fn place(&mut self) -> io::Result<Written>
        // Promise (placed, unchanged, gone), as Store::prepare: a new file takes its ..
        ensures placed { OnOk result (IsPlaced (world self.old) (prepared self.old) (world self.new)) }
        ensures unchanged { OnErr result (world self.new ≡ world self.old) }
        ensures gone { prepared self.new ≡ None }
        ensures kept { input self.new ≡ input self.old }
        ensures counted { IsWriteCounted (fault_count self.old) result (fault_count self.new) };

    /// Removes the new file that was prepared, if there is one.
    fn discard(&mut self) -> io::Result<()>
        // Promise (gone, unchanged), as Store::prepare: a new file takes its ..
        ensures gone { prepared self.new ≡ None }
        ensures unchanged { world self.new ≡ world self.old }
        ensures kept { input self.new ≡ input self.old }
        ensures counted { IsCounted (fault_count self.old) result (fault_count self.new) };

    /// Adds these bytes at the end of a file, by one write, and syncs it. Without a file it makes one with the mode
    /// 600, and with the owner and the group of the file `beside`, if that is there. A link, or a file of another owner
    /// than that one, is an `Err`. After an `Err` a first part of the bytes may be in the file.
    fn append(&mut self, alloc: Global, path: &str, octets: &[u8], beside: &str) -> io::Result<()>
        // Promise (grown, part): a file grows by the bytes that are appended, or by a first part of them if that fails;
        // it is cut to its first bytes, and moved only to a free path; every other path is as it was.
        ensures grown { OnOk result (world self.new ≡ option_map (grown path.now octets.now) (world self.old)) }
        ensures part { OnErr result (IsPartGrown (world self.old) path.now octets.now (world self.new)) }
        ensures held { prepared self.new ≡ prepared self.old }
        ensures kept { input self.new ≡ input self.old }
        ensures counted { IsCounted (fault_count self.old) result (fault_count self.new) };

    /// Cuts a file back to its first `len` bytes, and syncs it. A file that is shorter stays as it is, and so does a
    /// path without a file. A link is an `Err`.
    fn cut(&mut self, alloc: Global, path: &str, len: usize) -> io::Result<()>
        // Promise (shortened, either), as Store::append: a file grows by ..
        ensures shortened { OnOk result (world self.new ≡ option_map (shortened path.now len) (world self.old)) }
        ensures either { OnErr result (IsPerhapsShortened (world self.old) path.now len (world self.new)) }
        ensures held { prepared self.new ≡ prepared self.old }
        ensures kept { input self.new ≡ input self.old }
        ensures counted { IsCounted (fault_count self.old) result (fault_count self.new) };

    /// Renames a file to a path where nothing is, in the same folder, and syncs the folder. After an `Err` both paths
    /// are unchanged.
    fn rename(&mut self, alloc: Global, from: &str, to: &str) -> io::Result<Written>
        // Promise (moved, unchanged), as Store::append: a file grows by ..
        ensures moved { OnOk result (IsMoved (world self.old) from.now to.now (world self.new)) }
        ensures unchanged { OnErr result (world self.new ≡ world self.old) }
        ensures held { prepared self.new ≡ prepared self.old }
        ensures kept { input self.new ≡ input self.old }
        ensures counted { IsWriteCounted (fault_count self.old) result (fault_count self.new) };

    /// Returns a path with all links in it followed. If nothing is there, those in its folder are followed.
    fn canonical(&mut self, alloc: Global, path: &str) -> io::Result<String>
        ensures canonical { IfOk result (λ found. IsCanonical (world self.old) path.now (string_bytes found)) }
        ensures unchanged { world self.new ≡ world self.old }
        ensures kept { input self.new ≡ input self.old }
        ensures counted { IsCounted (fault_count self.old) result (fault_count self.new) };

    /// Returns who runs the program.
    fn caller(&mut self, alloc: Global) -> io::Result<Caller>
        ensures caller { IfOk result (λ found. IsCaller (world self.old) (user_of found)) }
        ensures unchanged { world self.new ≡ world self.old }
        ensures kept { input self.new ≡ input self.old }
        ensures counted { IsCounted (fault_count self.old) result (fault_count self.new) };

    /// Returns who may read and write a file, or a folder.
    fn rights(&mut self, path: &str) -> io::Result<FileRights>
        ensures rights { IfOk result (λ rights. HasRights (world self.old) path.now rights) }
        ensures unchanged { world self.new ≡ world self.old }
        ensures kept { input self.new ≡ input self.old }
        ensures counted { IsCounted (fault_count self.old) result (fault_count self.new) };

    /// Takes the lock of a file, and keeps other programs from it until the store is dropped or is asked for the lock
    /// of another file. Returns `false` if another program has it. Something else than a file in the lock's place is an
    /// `Err`.
    fn lock(&mut self, alloc: Global, path: &str) -> io::Result<bool>
        // Promise, as draw_seed: a seed is read ..
        ensures unchanged { world self.new ≡ world self.old }
        ensures kept { input self.new ≡ input self.old }
        // Promise, as Store::read: a store counts each ..
        ensures counted { IsCounted (fault_count self.old) result (fault_count self.new) };

    /// Waits for a tenth of a second.
    fn pause(&mut self)
        ensures unchanged { world self.new ≡ world self.old }
        ensures kept { input self.new ≡ input self.old }
        ensures counted { fault_count self.new ≡ fault_count self.old };

    /// Returns the whole seconds since the start of 1970.
    fn seconds(&mut self) -> io::Result<u64>
        ensures now { IfOk result (λ seconds. IsNow (world self.old) seconds) }
        ensures unchanged { world self.new ≡ world self.old }
        ensures kept { input self.new ≡ input self.old }
        ensures counted { IsCounted (fault_count self.old) result (fault_count self.new) };

    /// Draws 32 bytes from the system's own source.
    fn random(&mut self) -> io::Result<[u8; 32]>
        ensures drawn { IfOk result (λ seed. IsDrawn (world self.old) seed) }
        ensures unchanged { world self.new ≡ world self.old }
        ensures kept { input self.new ≡ input self.old }
        ensures counted { IsCounted (fault_count self.old) result (fault_count self.new) };

    /// Checks whether standard input is a terminal.
    fn is_terminal(&self) -> bool
        ensures terminal { IsTerminal (input self.now) result };

    /// Reads the next line of standard input, without its line feed. `None` if it has more than `most` bytes; what is
    /// left of the input is then not known. At a terminal it first writes the question to standard error. An input that
    /// has ended is an `Err` of the kind `UnexpectedEof`.
    fn ask(&mut self, alloc: Global, question: &str, most: usize) -> io::Result<Option<Vec<u8>>>
        // Promise, as read_file: no more than the ..
        ensures within { IfOk result (λ found. IfSome found (λ octets. vec_len octets ≤ most)) }
        // Promise (line, long, ended): a call returns a line only if it is the next one of the input, and says that it
        // is too long, or that there is none, only if so.
        ensures line { IfOk result (λ found. IfSome found (λ octets.
            TakesLine (input self.old) octets.items (input self.new))) }
        ensures long { IfOk result (λ found. IfNone found (HasLongLine (input self.old) most)) }
        ensures ended { IfErr result (λ error. error_kind error ≡ UnexpectedEof → HasEnded (input self.old)) }
        // Promise, as draw_seed: a seed is read ..
        ensures unchanged { world self.new ≡ world self.old }
        // Promise, as Store::read: a store counts each ..
        ensures counted { IsCounted (fault_count self.old) result (fault_count self.new) };

    /// Returns how often a call has failed. The count stops at the greatest `u64`.
    fn faults(&self) -> u64
        ensures { result ≡ fault_count self.now };
}
