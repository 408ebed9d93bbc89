//! The files of credential caches and keytabs. Each is read and written only if it is a plain file; a cache only if it
//! is the user's own.
ghost use Rattle.std.specs.Prelude.{◌≡◌, IfOk, OnErr, OnOk, option_map};
ghost use Rattle.cred_files.specs.Cache.{cache_text, put_first};
ghost use Rattle.client_files.specs.Caches.{HasCache, new_cache};
ghost use Rattle.file_store.specs.World.{with_file, without_file};

use crate::client_store::{ClientStore, PathKind};
use crate::faults::{ClientError, StepError, at, at_file};
use cred_files::{Cache, CredError, Credential, Keytab};
use file_store::{FileError, read_file, write_unsynced};
use std::alloc::Global;
use std::io;
use std::io::{Error, ErrorKind};

/// Reads the user's own cache.
#[tactic(auto, using(crate::proofs::HeldCaches::held))]
pub fn read_cache<T: ClientStore>(
    alloc: Global,
    store: &mut T,
    path: &str,
) -> Result<Cache, ClientError>
    ensures read { IfOk result (λ cache. HasCache (T.world store.old) path.now cache) }
    // Promise: reading a cache, a keytab or a `krb5.conf` with what it includes, and finding the cache's path, changes
    // no file.
    ensures unchanged { T.world store.new ≡ T.world store.old }
{
    at(alloc, path, check_cache(store.path_kind(path)))?;
    let octets = match read_file(alloc, store, path) {
        Ok(octets) => octets,
        Err(fault) => return Err(ClientError::of_file(alloc, fault)),
    };
    match Cache::read(alloc, &octets) {
        Ok(cache) => Ok(cache),
        Err(fault) => Err(ClientError::new(alloc, path, StepError::from(fault))),
    }
}

/// Reads the keytab at a path. Fails if no plain file is there, or its content is not a keytab.
pub fn read_keytab<T: ClientStore>(
    alloc: Global,
    store: &mut T,
    path: &str,
) -> Result<Keytab, ClientError>
    // Promise, as read_cache: reading a cache, a ..
    ensures unchanged { T.world store.new ≡ T.world store.old }
{
    at(alloc, path, check_plain(store.path_kind(path)))?;
    let octets = at_file(alloc, read_file(alloc, store, path))?;
    at(
        alloc,
        path,
        Keytab::read(alloc, &octets).map_err(StepError::of_keytab),
    )
}

/// Checks whether the path has a file, or nothing.
fn check_plain(found: io::Result<PathKind>) -> Result<(), StepError> {
    match found {
        Ok(PathKind::NoFile) => Err(StepError::File(FileError::Failed(no_file()))),
        Ok(_) => Ok(()),
        Err(error) => Err(StepError::File(FileError::Failed(error))),
    }
}

/// Checks whether the path has a cache, and whether it is the user's own.
fn check_cache(found: io::Result<PathKind>) -> Result<(), StepError> {
    match found {
        Ok(PathKind::Free) => Err(StepError::NoCache),
        found => check_ours(found),
    }
}

/// Checks whether the cache at the path is the user's own, or there is none.
fn check_ours(found: io::Result<PathKind>) -> Result<(), StepError> {
    match found {
        Ok(PathKind::Others) => Err(StepError::NotOurs),
        found => check_plain(found),
    }
}

fn no_file() -> Error {
    Error::new(
        ErrorKind::InvalidInput,
        "it is not a file, but a folder, a device or a pipe",
    )
}

/// Makes a new cache for the credential's client, with the credential.
#[tactic(auto, unfolding(cred_files::specs::Cache::cache_head))]
fn make_cache(alloc: Global, credential: &Credential) -> Result<Cache, StepError>
    // Promise: the cache that `kinit` makes holds its credential alone.
    ensures { IfOk result (λ cache. cache ≡ new_cache credential.now) }
{
    if !credential.has_room() {
        return Err(StepError::Cache(CredError::BadEntry));
    }
    let client = &credential.client;
    let mut cache = Cache::new(alloc, client.realm.as_slice(), &client.name)?;
    cache.put(alloc, credential)?;
    Ok(cache)
}

/// Puts a credential into a cache, in place of the first one of the same service, else at the end.
pub fn put_credential(
    alloc: Global,
    cache: &mut Cache,
    credential: &Credential,
) -> Result<(), StepError>
    // Promise (ok, err): a credential is put in place of the first one of the same service, else at the end.
    ensures ok { OnOk result (
        cache.new ≡ record cache.old { credentials = put_first credential.now cache.old.credentials }) }
    ensures err { OnErr result (cache.new ≡ cache.old) }
{
    if !credential.has_room() {
        return Err(StepError::Cache(CredError::BadEntry));
    }
    Ok(cache.put(alloc, credential)?)
}

/// Writes a new cache for the credential's client, with the credential. It replaces the file at the path. After an
/// `Err` the path is unchanged.
pub fn write_new_cache<T: ClientStore>(
    alloc: Global,
    store: &mut T,
    path: &str,
    credential: &Credential,
) -> Result<(), ClientError>
    // Promise (written, unchanged), as write_cache: **a cache is written ..
    ensures written { OnOk result (T.world store.new
        ≡ option_map (with_file path.now (cache_text (new_cache credential.now))) (T.world store.old)) }
    ensures unchanged { OnErr result (T.world store.new ≡ T.world store.old) }
{
    let cache = at(alloc, path, make_cache(alloc, credential))?;
    write_cache(alloc, store, path, &cache)
}

/// Writes a cache. Its folder is not synced: after a power failure its user logs in again. After an `Err` the path is
/// unchanged.
pub fn write_cache<T: ClientStore>(
    alloc: Global,
    store: &mut T,
    path: &str,
    cache: &Cache,
) -> Result<(), ClientError>
    // Promise (written, unchanged): **a cache is written whole, or nothing changes**: its file then has the bytes of
    // the cache (of a new cache, of the credential alone), and every other path is as it was.
    ensures written { OnOk result (T.world store.new
        ≡ option_map (with_file path.now (cache_text cache.now)) (T.world store.old)) }
    ensures unchanged { OnErr result (T.world store.new ≡ T.world store.old) }
{
    let octets = cache.write(alloc)?;
    match write_unsynced(alloc, store, path, &octets) {
        Ok(()) => Ok(()),
        Err(fault) => Err(ClientError::of_file(alloc, fault)),
    }
}

/// Removes the user's own cache. After an `Err` the path is unchanged.
pub fn remove_cache<T: ClientStore>(
    alloc: Global,
    store: &mut T,
    path: &str,
) -> Result<(), ClientError>
    // Promise (removed, unchanged): a cache is removed, or nothing changes: then there is no file, and every other path
    // is as it was.
    ensures removed { OnOk result (
        T.world store.new ≡ option_map (without_file path.now) (T.world store.old)) }
    ensures unchanged { OnErr result (T.world store.new ≡ T.world store.old) }
{
    match remove_ours(alloc, store, path) {
        Ok(()) => Ok(()),
        Err(cause) => Err(ClientError::new(alloc, path, cause)),
    }
}

fn remove_ours<T: ClientStore>(alloc: Global, store: &mut T, path: &str) -> Result<(), StepError>
    ensures removed { OnOk result (
        T.world store.new ≡ option_map (without_file path.now) (T.world store.old)) }
    ensures unchanged { OnErr result (T.world store.new ≡ T.world store.old) }
{
    check_cache(store.path_kind(path))?;
    match store.remove(alloc, path) {
        Ok(()) => Ok(()),
        Err(error) => Err(StepError::File(FileError::Failed(error))),
    }
}
