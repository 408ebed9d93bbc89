//! The files that a command reads and writes, and the sources that it uses if no file is named. A fault names its
//! source.
ghost use Rattle.std.specs.Prelude.{◌≡◌, ◌≤◌, ◌<◌, IfErr, IfOk, IfNone, IfSome, length, take, vec_len};
ghost use Rattle.std.specs.Prelude.{◌==◌, Option, OnOk, OnErr, Some, codes, option_map};
ghost use Rattle.std.specs.List.{after_first, position};
ghost use Rattle.file_store.specs.Counting.{IsShown, IsWriteShown};
ghost use Rattle.file_store.specs.Inputs.{first_line};
ghost use Rattle.file_store.specs.Input.{HasLongLine, TakesLine};
ghost use Rattle.file_store.specs.World.{with_file, HasFirstLine, HasLongFirstLine, HasRights, HasSeed, IsDrawn};
ghost use Rattle.file_store.specs.World.{IsFirst, IsNow};
ghost use Rattle.file_store.specs.World.{IsRead, IsThere};

use crate::faults::{FileError, PathError};
use crate::store::{FileRights, LONGEST_FILE, NewMode, Store, Written};
use std::alloc::Global;
use std::io;

/// How many bytes of a seed file are used.
const SEED_LEN: usize = 32;

/// The greatest size of a password, in bytes.
const LONGEST_PASSWORD: usize = 1_024;

/// The name in place of a path if random bytes are the system's.
pub const RANDOM_OCTETS: &str = "the system's random octets";

/// The name in place of a path if a moment is the system's.
pub const CLOCK: &str = "the clock";

/// The name in place of a path if a password is not in a file.
pub const STANDARD_INPUT: &str = "standard input";

/// Checks whether there is a file.
pub fn has_file<'p, S: Store>(store: &mut S, path: &'p str) -> Result<bool, PathError<'p>>
    // Promise: the calls that are built on those of a store say the same: whether there is a file, what it holds, and
    // what a write leaves.
    ensures there { IfOk result (λ found. IsThere (S.world store.old) path.now found) }
    ensures unchanged { S.world store.new ≡ S.world store.old }
    ensures kept { S.input store.new ≡ S.input store.old }
    // Promise (named, shown): a failed call shows in the result, with the file's path; if a file is refused, no call
    // had failed.
    ensures named { IfErr result (λ fault. fault.path.now ≡ path.now) }
    ensures shown { IsShown (S.fault_count store.old) result (S.fault_count store.new) }
{
    match store.exists(path) {
        Ok(found) => Ok(found),
        Err(error) => Err(PathError::failed(path, error)),
    }
}

/// Reads a whole file, of at most 16,777,216 bytes.
pub fn read_file<'p, S: Store>(
    alloc: Global,
    store: &mut S,
    path: &'p str,
) -> Result<Vec<u8>, PathError<'p>>
    // Promise: no more than the limit is read of a file or of a line.
    ensures within { IfOk result (λ octets. vec_len octets ≤ 16777216) }
    // Promise, as has_file: the calls that are ..
    ensures read { IfOk result (λ octets. IsRead (S.world store.old) path.now octets.items) }
    ensures unchanged { S.world store.new ≡ S.world store.old }
    ensures kept { S.input store.new ≡ S.input store.old }
    // Promise (named, shown), as has_file: a failed call shows ..
    ensures named { IfErr result (λ fault. fault.path.now ≡ path.now) }
    ensures shown { IsShown (S.fault_count store.old) result (S.fault_count store.new) }
{
    read_at_most(alloc, store, path, LONGEST_FILE)
}

/// Reads a whole file, of at most this many bytes.
pub fn read_at_most<'p, S: Store>(
    alloc: Global,
    store: &mut S,
    path: &'p str,
    most: usize,
) -> Result<Vec<u8>, PathError<'p>>
    ensures within { IfOk result (λ octets. vec_len octets ≤ most) }
    ensures read { IfOk result (λ octets. IsRead (S.world store.old) path.now octets.items) }
    ensures unchanged { S.world store.new ≡ S.world store.old }
    ensures kept { S.input store.new ≡ S.input store.old }
    ensures named { IfErr result (λ fault. fault.path.now ≡ path.now) }
    ensures shown { IsShown (S.fault_count store.old) result (S.fault_count store.new) }
{
    match store.read(alloc, path, most) {
        Ok(Some(octets)) => Ok(octets),
        Ok(None) => Err(PathError {
            path,
            cause: FileError::LongFile,
        }),
        Err(error) => Err(PathError::failed(path, error)),
    }
}

/// Reads a whole file as `read_file` does, and also a FIFO or a device to its end: a password or a seed may come from
/// another command.
pub fn read_stream<'p, S: Store>(
    alloc: Global,
    store: &mut S,
    path: &'p str,
) -> Result<Vec<u8>, PathError<'p>>
    ensures within { IfOk result (λ octets. vec_len octets ≤ 16777216) }
    ensures read { IfOk result (λ octets. IsRead (S.world store.old) path.now octets.items) }
    ensures unchanged { S.world store.new ≡ S.world store.old }
    ensures kept { S.input store.new ≡ S.input store.old }
    ensures named { IfErr result (λ fault. fault.path.now ≡ path.now) }
    ensures shown { IsShown (S.fault_count store.old) result (S.fault_count store.new) }
{
    match store.read_stream(alloc, path, LONGEST_FILE) {
        Ok(Some(octets)) => Ok(octets),
        Ok(None) => Err(PathError {
            path,
            cause: FileError::LongFile,
        }),
        Err(error) => Err(PathError::failed(path, error)),
    }
}

/// Returns who may read and write a file, or a folder.
pub fn file_rights<'p, S: Store>(store: &mut S, path: &'p str) -> Result<FileRights, PathError<'p>>
    ensures rights { IfOk result (λ rights. HasRights (S.world store.old) path.now rights) }
    ensures unchanged { S.world store.new ≡ S.world store.old }
    ensures kept { S.input store.new ≡ S.input store.old }
    ensures named { IfErr result (λ fault. fault.path.now ≡ path.now) }
    ensures shown { IsShown (S.fault_count store.old) result (S.fault_count store.new) }
{
    match store.rights(path) {
        Ok(rights) => Ok(rights),
        Err(error) => Err(PathError::failed(path, error)),
    }
}

/// Reads the first byte of the file that a write would replace. `None` if there is none, or it is empty.
pub fn first_octet<'p, S: Store>(
    alloc: Global,
    store: &mut S,
    path: &'p str,
) -> Result<Option<u8>, PathError<'p>>
    ensures first { IfOk result (λ octet. IsFirst (S.world store.old) path.now octet) }
    ensures unchanged { S.world store.new ≡ S.world store.old }
    ensures kept { S.input store.new ≡ S.input store.old }
    ensures named { IfErr result (λ fault. fault.path.now ≡ path.now) }
    ensures shown { IsShown (S.fault_count store.old) result (S.fault_count store.new) }
{
    match store.first_octet(alloc, path) {
        Ok(octet) => Ok(octet),
        Err(error) => Err(PathError::failed(path, error)),
    }
}

/// Writes a new file, which replaces the one there, and syncs its folder. Only its owner may read and write it. After
/// an `Err` the path is unchanged.
pub fn write_file<'p, S: Store>(
    alloc: Global,
    store: &mut S,
    path: &'p str,
    octets: &[u8],
) -> Result<Written, PathError<'p>>
    // Promise, as has_file: the calls that are ..
    ensures written { OnOk result (S.world store.new ≡ option_map (with_file path.now octets.now) (S.world store.old)) }
    ensures unchanged { OnErr result (S.world store.new ≡ S.world store.old) }
    ensures kept { S.input store.new ≡ S.input store.old }
    // Promise (named, shown), as has_file: a failed call shows ..
    ensures named { IfErr result (λ fault. fault.path.now ≡ path.now) }
    // Promise: if a folder could not be synced, the result of a write says so.
    ensures shown { IsWriteShown (S.fault_count store.old) result (S.fault_count store.new) }
{
    match store.write(alloc, path, octets) {
        Ok(written) => Ok(written),
        Err(error) => Err(PathError::failed(path, error)),
    }
}

/// Writes a file with the owner and the group of the one there, and with this mode, and syncs its folder. After an
/// `Err` the path is unchanged.
pub fn update_file<'p, S: Store>(
    alloc: Global,
    store: &mut S,
    path: &'p str,
    octets: &[u8],
    mode: NewMode,
) -> Result<Written, PathError<'p>>
    // Promise, as has_file: the calls that are ..
    ensures written { OnOk result (S.world store.new ≡ option_map (with_file path.now octets.now) (S.world store.old)) }
    ensures unchanged { OnErr result (S.world store.new ≡ S.world store.old) }
    ensures kept { S.input store.new ≡ S.input store.old }
    // Promise (named, shown), as has_file: a failed call shows ..
    ensures named { IfErr result (λ fault. fault.path.now ≡ path.now) }
    // Promise, as write_file: if a folder could ..
    ensures shown { IsWriteShown (S.fault_count store.old) result (S.fault_count store.new) }
{
    match store.update(alloc, path, octets, mode) {
        Ok(written) => Ok(written),
        Err(error) => Err(PathError::failed(path, error)),
    }
}

/// Writes what `write_file` writes, and syncs no folder: after a power failure the old file may be back. After an `Err`
/// the path is unchanged.
pub fn write_unsynced<'p, S: Store>(
    alloc: Global,
    store: &mut S,
    path: &'p str,
    octets: &[u8],
) -> Result<(), PathError<'p>>
    // Promise, as has_file: the calls that are ..
    ensures written { OnOk result (S.world store.new ≡ option_map (with_file path.now octets.now) (S.world store.old)) }
    ensures unchanged { OnErr result (S.world store.new ≡ S.world store.old) }
    ensures kept { S.input store.new ≡ S.input store.old }
    // Promise (named, shown), as has_file: a failed call shows ..
    ensures named { IfErr result (λ fault. fault.path.now ≡ path.now) }
    ensures shown { IsShown (S.fault_count store.old) result (S.fault_count store.new) }
{
    match store.write_unsynced(alloc, path, octets) {
        Ok(()) => Ok(()),
        Err(error) => Err(PathError::failed(path, error)),
    }
}

/// Takes the lock of a file, until the store is dropped. Returns `false` if another program has it.
pub fn lock_file<'p, S: Store>(
    alloc: Global,
    store: &mut S,
    path: &'p str,
) -> Result<bool, PathError<'p>>
    // Promise, as draw_seed: a seed is read ..
    ensures unchanged { S.world store.new ≡ S.world store.old }
    ensures kept { S.input store.new ≡ S.input store.old }
    // Promise (named, shown), as has_file: a failed call shows ..
    ensures named { IfErr result (λ fault. fault.path.now ≡ path.now) }
    ensures shown { IsShown (S.fault_count store.old) result (S.fault_count store.new) }
{
    match store.lock(alloc, path) {
        Ok(locked) => Ok(locked),
        Err(error) => Err(PathError::failed(path, error)),
    }
}

/// Returns the whole seconds since the start of 1970.
pub fn read_clock<S: Store>(store: &mut S) -> Result<u64, PathError<'static>>
    ensures now { IfOk result (λ seconds. IsNow (S.world store.old) seconds) }
    ensures unchanged { S.world store.new ≡ S.world store.old }
    ensures kept { S.input store.new ≡ S.input store.old }
    ensures shown { IsShown (S.fault_count store.old) result (S.fault_count store.new) }
{
    match store.seconds() {
        Ok(seconds) => Ok(seconds),
        Err(error) => Err(PathError::failed(CLOCK, error)),
    }
}

/// Reads the seed in a file: its first 32 bytes.
pub fn read_seed<'p, S: Store>(
    alloc: Global,
    store: &mut S,
    path: &'p str,
) -> Result<[u8; 32], PathError<'p>>
    // Promise, as has_file: the calls that are ..
    ensures read { IfOk result (λ seed. HasSeed (S.world store.old) (Some path.now) seed) }
    ensures unchanged { S.world store.new ≡ S.world store.old }
    ensures kept { S.input store.new ≡ S.input store.old }
    // Promise (named, shown): a failed read of a seed or a password, or a failed question, shows in the result, with
    // the file's path if one is read; if a file is refused, no call had failed.
    ensures named { IfErr result (λ fault. fault.path.now ≡ path.now) }
    ensures shown { IsShown (S.fault_count store.old) result (S.fault_count store.new) }
{
    let octets = read_stream(alloc, store, path)?;
    match seed_of(&octets) {
        Some(seed) => Ok(seed),
        None => Err(PathError {
            path,
            cause: FileError::ShortSeed,
        }),
    }
}

/// Reads the seed in a file, or draws one from the system if no file is named.
pub fn read_or_draw_seed<'p, S: Store>(
    alloc: Global,
    store: &mut S,
    path: Option<&'p str>,
) -> Result<[u8; 32], PathError<'p>>
    // Promise, as draw_seed: a seed is read ..
    ensures seed { IfOk result (λ seed. HasSeed (S.world store.old) (option_map (λ named. named.now) path.entry) seed) }
    ensures unchanged { S.world store.new ≡ S.world store.old }
    ensures kept { S.input store.new ≡ S.input store.old }
    // Promise, as read_seed: a failed read of ..
    ensures shown { IsShown (S.fault_count store.old) result (S.fault_count store.new) }
{
    match path {
        Some(path) => read_seed(alloc, store, path),
        None => draw_seed(store),
    }
}

/// Draws a seed from the system's random bytes.
pub fn draw_seed<S: Store>(store: &mut S) -> Result<[u8; 32], PathError<'static>>
    // Promise: a seed is read or drawn; a lock and a question change no file.
    ensures drawn { IfOk result (λ seed. IsDrawn (S.world store.old) seed) }
    ensures unchanged { S.world store.new ≡ S.world store.old }
    ensures kept { S.input store.new ≡ S.input store.old }
    // Promise, as read_seed: a failed read of ..
    ensures shown { IsShown (S.fault_count store.old) result (S.fault_count store.new) }
{
    match store.random() {
        Ok(seed) => Ok(seed),
        Err(error) => Err(PathError::failed(RANDOM_OCTETS, error)),
    }
}

/// Returns the first 32 bytes.
pub fn seed_of(octets: &[u8]) -> Option<[u8; 32]>
    // Promise (some, none): a seed is the first 32 bytes of its file, and is refused only if the file is shorter; a
    // password is the first line, and is refused only if that has more than 1,024 bytes.
    ensures some { IfSome result (λ seed. (32 ≤ length octets.now) × (seed ≡ take 32 octets.now)) }
    ensures none { IfNone result (length octets.now < 32) }
{
    match octets.first_chunk::<SEED_LEN>() {
        Some(seed) => Some(*seed),
        None => None,
    }
}

/// Reads the password in a file: its first line, without the line feed. `None` if that has more than 1,024 bytes.
pub fn read_password<'p, S: Store>(
    alloc: Global,
    store: &mut S,
    path: &'p str,
) -> Result<Option<Vec<u8>>, PathError<'p>>
    ensures within { IfOk result (λ found. IfSome found (λ pass. vec_len pass ≤ 1024)) }
    // Promise (line, long): a password is its file's first line; it is too long only if that line is.
    ensures line { IfOk result (λ found. IfSome found (λ pass. HasFirstLine (S.world store.old) path.now pass.items)) }
    ensures long { IfOk result (λ found. IfNone found (HasLongFirstLine (S.world store.old) path.now 1024)) }
    ensures unchanged { S.world store.new ≡ S.world store.old }
    ensures kept { S.input store.new ≡ S.input store.old }
    // Promise (named, shown), as read_seed: a failed read of ..
    ensures named { IfErr result (λ fault. fault.path.now ≡ path.now) }
    ensures shown { IsShown (S.fault_count store.old) result (S.fault_count store.new) }
{
    let mut octets = read_stream(alloc, store, path)?;
    let Some(pass) = password_of(&octets) else {
        return Ok(None);
    };
    let len = pass.len();
    octets.truncate(len);
    Ok(Some(octets))
}

/// Reads the password on the next line of standard input. `None` if that has more than 1,024 bytes. At a terminal it
/// asks for it, with `Password for NAME@REALM:`; `name` and `realm` are texts.
pub fn ask_password<S: Store>(
    alloc: Global,
    store: &mut S,
    name: &str,
    realm: &str,
) -> Result<Option<Vec<u8>>, PathError<'static>>
    // Promise, as read_file: no more than the ..
    ensures within { IfOk result (λ found. IfSome found (λ pass. vec_len pass ≤ 1024)) }
    ensures line { IfOk result (λ found. IfSome found (λ pass.
        TakesLine (S.input store.old) pass.items (S.input store.new))) }
    ensures long { IfOk result (λ found. IfNone found (HasLongLine (S.input store.old) 1024)) }
    // Promise, as draw_seed: a seed is read ..
    ensures unchanged { S.world store.new ≡ S.world store.old }
    // Promise (named, shown), as read_seed: a failed read of ..
    ensures named { IfErr result (λ fault. fault.path.now ≡ codes "standard input") }
    ensures shown { IsShown (S.fault_count store.old) result (S.fault_count store.new) }
{
    match ask_line(alloc, store, name, realm) {
        Ok(found) => Ok(found),
        Err(error) => Err(PathError::failed(STANDARD_INPUT, error)),
    }
}

fn ask_line<S: Store>(
    alloc: Global,
    store: &mut S,
    name: &str,
    realm: &str,
) -> io::Result<Option<Vec<u8>>>
    ensures within { IfOk result (λ found. IfSome found (λ pass. vec_len pass ≤ 1024)) }
    ensures line { IfOk result (λ found. IfSome found (λ pass.
        TakesLine (S.input store.old) pass.items (S.input store.new))) }
    ensures long { IfOk result (λ found. IfNone found (HasLongLine (S.input store.old) 1024)) }
    ensures unchanged { S.world store.new ≡ S.world store.old }
    ensures shown { IfOk result (λ _. S.fault_count store.new ≡ S.fault_count store.old) }
{
    let question = format!(in alloc; "Password for {name}@{realm}: ")?;
    store.ask(alloc, &question, LONGEST_PASSWORD)
}

/// Returns the first line without its line feed, if it has at most 1,024 bytes.
pub fn password_of(octets: &[u8]) -> Option<&[u8]>
    // Promise (some, none), as seed_of: a seed is the ..
    ensures some { IfSome result (λ pass. (pass.now ≡ first_line octets.now) × (length pass.now ≤ 1024)) }
    ensures none { IfNone result (1024 < length (first_line octets.now)) }
{
    let line = first_line(octets);
    if line.len() > LONGEST_PASSWORD {
        return None;
    }
    Some(line)
}

/// Returns the bytes before the first line feed.
pub(crate) fn first_line(octets: &[u8]) -> &[u8]
    ensures { result.now ≡ first_line octets.now }
{
    match line_end(octets) {
        Some(end) => octets.split_at(end).0,
        None => octets,
    }
}

/// Returns the bytes after the first line feed, or no bytes if there is no line feed.
pub(crate) fn after_line(octets: &[u8]) -> &[u8]
    ensures { result.now ≡ after_first (λ b. b == 0x0A) octets.now }
{
    match line_end(octets) {
        Some(end) => octets.split_at(end + 1).1,
        None => octets.split_at(octets.len()).1,
    }
}

/// Returns the index of the first line feed.
fn line_end(octets: &[u8]) -> Option<usize>
    ensures { result ≡ position (λ b. b == 0x0A) octets.now }
{
    octets.iter().position(|octet| *octet == b'\n')
}
