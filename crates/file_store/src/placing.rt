//! A new file that is complete before it takes its place. A fault names the path.
ghost use Rattle.std.specs.Prelude.{◌≡◌, IfErr, IfOk, None, OnErr, OnOk, string_bytes};
ghost use Rattle.file_store.specs.Callers.{user_of};
ghost use Rattle.file_store.specs.Counting.{IsShown, IsWriteShown};
ghost use Rattle.file_store.specs.Placing.{IsPlaced, IsPrepared};
ghost use Rattle.file_store.specs.World.{IsCaller, IsCanonical};

use crate::callers::Caller;
use crate::faults::PathError;
use crate::store::{NewMode, Store, Written};
use std::alloc::Global;

/// The name in place of a path if the system does not say who runs the program.
pub const CALLER: &str = "the user";

/// Writes the new file of a path beside it, with the owner and the group of the one there, and with this mode. The path
/// is unchanged until `place_file`.
pub fn prepare_file<'p, S: Store>(
    alloc: Global,
    store: &mut S,
    path: &'p str,
    octets: &[u8],
    mode: NewMode,
) -> Result<(), PathError<'p>>
    // Promise, as has_file: the calls that are ..
    ensures prepared { OnOk result
        (IsPrepared (S.world store.old) path.now octets.now (S.prepared store.new)) }
    ensures none { OnErr result (S.prepared store.new ≡ None) }
    ensures unchanged { S.world store.new ≡ S.world store.old }
    ensures kept { S.input store.new ≡ S.input store.old }
    // Promise (named, shown), as has_file: a failed call shows ..
    ensures named { IfErr result (λ fault. fault.path.now ≡ path.now) }
    ensures shown { IsShown (S.fault_count store.old) result (S.fault_count store.new) }
{
    match store.prepare(alloc, path, octets, mode) {
        Ok(()) => Ok(()),
        Err(error) => Err(PathError::failed(path, error)),
    }
}

/// Renames the new file that was prepared for this path onto it, and syncs the folder. After an `Err` the path is
/// unchanged, and the new file is discarded.
pub fn place_file<'p, S: Store>(store: &mut S, path: &'p str) -> Result<Written, PathError<'p>>
    // Promise, as has_file: the calls that are ..
    ensures placed { OnOk result (IsPlaced (S.world store.old) (S.prepared store.old) (S.world store.new)) }
    ensures unchanged { OnErr result (S.world store.new ≡ S.world store.old) }
    ensures gone { S.prepared store.new ≡ None }
    ensures kept { S.input store.new ≡ S.input store.old }
    // Promise (named, shown), as has_file: a failed call shows ..
    ensures named { IfErr result (λ fault. fault.path.now ≡ path.now) }
    // Promise, as write_file: if a folder could ..
    ensures shown { IsWriteShown (S.fault_count store.old) result (S.fault_count store.new) }
{
    match store.place() {
        Ok(written) => Ok(written),
        Err(error) => Err(PathError::failed(path, error)),
    }
}

/// Removes the new file that was prepared for this path.
pub fn discard_file<'p, S: Store>(store: &mut S, path: &'p str) -> Result<(), PathError<'p>>
    ensures gone { S.prepared store.new ≡ None }
    ensures unchanged { S.world store.new ≡ S.world store.old }
    ensures kept { S.input store.new ≡ S.input store.old }
    ensures named { IfErr result (λ fault. fault.path.now ≡ path.now) }
    ensures shown { IsShown (S.fault_count store.old) result (S.fault_count store.new) }
{
    match store.discard() {
        Ok(()) => Ok(()),
        Err(error) => Err(PathError::failed(path, error)),
    }
}

/// Returns a path with all links in it followed. If nothing is there, those in its folder are followed.
pub fn canonical_path<'p, S: Store>(
    alloc: Global,
    store: &mut S,
    path: &'p str,
) -> Result<String, PathError<'p>>
    ensures canonical { IfOk result (λ found. IsCanonical (S.world store.old) path.now (string_bytes found)) }
    ensures unchanged { S.world store.new ≡ S.world store.old }
    ensures kept { S.input store.new ≡ S.input store.old }
    ensures named { IfErr result (λ fault. fault.path.now ≡ path.now) }
    ensures shown { IsShown (S.fault_count store.old) result (S.fault_count store.new) }
{
    match store.canonical(alloc, path) {
        Ok(found) => Ok(found),
        Err(error) => Err(PathError::failed(path, error)),
    }
}

/// Returns who runs the program.
pub fn read_caller<S: Store>(alloc: Global, store: &mut S) -> Result<Caller, PathError<'static>>
    ensures caller { IfOk result (λ found. IsCaller (S.world store.old) (user_of found)) }
    ensures unchanged { S.world store.new ≡ S.world store.old }
    ensures kept { S.input store.new ≡ S.input store.old }
    ensures shown { IsShown (S.fault_count store.old) result (S.fault_count store.new) }
{
    match store.caller(alloc) {
        Ok(found) => Ok(found),
        Err(error) => Err(PathError::failed(CALLER, error)),
    }
}
