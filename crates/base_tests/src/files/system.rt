//! Tests of the store over the system's files (`file_store`). Each removes its files at the end.
use crate::expect::{gives, same};
use file_store::{FileStore, NewMode, Store, Written, folder_of, sync_folder};
use std::fs::Permissions;
use std::os::unix::fs::{MetadataExt, PermissionsExt};
use std::{fs, io};

const WRITTEN: &str = "tested.written";

const UPDATED: &str = "tested.updated";

const BEGUN: &str = "tested.begun";

const LIMITED: &str = "tested.limited";

const LOCKED: &str = "tested.locked";

type Files<'a> = FileStore<'a, HostRuntime>;

fn mode(rt: &HostRuntime, path: &str) -> io::Result<u32> {
    Ok(fs::metadata(rt, path)?.mode() & 0o777)
}

/// Returns whether a file that was written twice has the second content, and its mode.
fn written_twice(rt: &HostRuntime, store: &mut Files<'_>) -> io::Result<(bool, u32)> {
    store.write_unsynced(rt.alloc(), WRITTEN, b"first, and longer")?;
    store.write_unsynced(rt.alloc(), WRITTEN, b"second")?;
    let mode = mode(rt, WRITTEN)?;
    Ok(match store.read(rt.alloc(), WRITTEN, 100)? {
        Some(octets) => (octets.as_slice() == b"second".as_slice(), mode),
        None => (false, mode),
    })
}

/// Updates a file. Fails if it is not on the disk afterwards.
fn update(rt: &HostRuntime, store: &mut Files<'_>, octets: &[u8], mode: NewMode) -> io::Result<()> {
    match store.update(rt.alloc(), UPDATED, octets, mode)? {
        Written::Synced => Ok(()),
        Written::NotSynced(error) => Err(error),
    }
}

/// Returns the mode of a file that others may read, after it is updated with its mode, after it is written anew, and
/// after it is updated for its owner alone.
fn modes_after(rt: &HostRuntime, store: &mut Files<'_>) -> io::Result<[u32; 3]> {
    update(rt, store, b"first", NewMode::Kept)?;
    fs::set_permissions(rt, UPDATED, Permissions::from_mode(0o644))?;
    update(rt, store, b"second", NewMode::Kept)?;
    let kept = mode(rt, UPDATED)?;
    store.write_unsynced(rt.alloc(), UPDATED, b"third")?;
    let written = mode(rt, UPDATED)?;
    fs::set_permissions(rt, UPDATED, Permissions::from_mode(0o644))?;
    update(rt, store, b"fourth", NewMode::OwnerOnly)?;
    Ok([kept, written, mode(rt, UPDATED)?])
}

/// Returns the first byte of an absent file, of an empty one, and of one with three bytes.
fn first_octets(rt: &HostRuntime, store: &mut Files<'_>) -> io::Result<[Option<u8>; 3]> {
    let absent = store.first_octet(rt.alloc(), BEGUN)?;
    store.write_unsynced(rt.alloc(), BEGUN, b"")?;
    let empty = store.first_octet(rt.alloc(), BEGUN)?;
    store.write_unsynced(rt.alloc(), BEGUN, b"\x05\x02\x00")?;
    Ok([absent, empty, store.first_octet(rt.alloc(), BEGUN)?])
}

/// Returns whether the first byte of a device can be read, whether the device can be written, and whether it is a file
/// afterwards.
fn device(rt: &HostRuntime, store: &mut Files<'_>) -> io::Result<[bool; 3]> {
    let is_read = store.first_octet(rt.alloc(), "/dev/null").is_ok();
    let is_written = store
        .write_unsynced(rt.alloc(), "/dev/null", b"octets")
        .is_ok();
    Ok([
        is_read,
        is_written,
        fs::metadata(rt, "/dev/null")?.is_file(),
    ])
}

/// Checks whether a file of six bytes is read under a limit.
fn is_taken(rt: &HostRuntime, store: &mut Files<'_>, most: usize) -> io::Result<bool> {
    store.write_unsynced(rt.alloc(), LIMITED, b"octets")?;
    Ok(store.read(rt.alloc(), LIMITED, most)?.is_some())
}

/// Returns whether another store gets a lock, and whether this one gets it meanwhile and after the other is dropped.
fn locks(rt: &HostRuntime, store: &mut Files<'_>) -> io::Result<[bool; 3]> {
    let (is_first, is_second) = locks_beside(rt, store)?;
    Ok([is_first, is_second, store.lock(rt.alloc(), LOCKED)?])
}

/// Returns whether another store gets the lock, and whether this one gets it meanwhile. Then the other one is dropped.
fn locks_beside(rt: &HostRuntime, store: &mut Files<'_>) -> io::Result<(bool, bool)> {
    let mut first = FileStore::new(rt);
    let is_first = first.lock(rt.alloc(), LOCKED)?;
    Ok((is_first, store.lock(rt.alloc(), LOCKED)?))
}

/// What these functions return, with a limit of six bytes and one of five.
type Seen = (
    (bool, u32),
    [u32; 3],
    [Option<u8>; 3],
    [bool; 3],
    (bool, bool),
    [bool; 3],
);

fn seen(rt: &HostRuntime, store: &mut Files<'_>) -> io::Result<Seen> {
    let written = written_twice(rt, store)?;
    let modes = modes_after(rt, store)?;
    let octets = first_octets(rt, store)?;
    let device = device(rt, store)?;
    let taken = (is_taken(rt, store, 6)?, is_taken(rt, store, 5)?);
    Ok((written, modes, octets, device, taken, locks(rt, store)?))
}

const SEEN: Seen = (
    (true, 0o600),
    [0o644, 0o600, 0o600],
    [None, None, Some(5)],
    [false, false, false],
    (true, false),
    [true, false, true],
);

#[test]
fn files_are_written_read_and_locked(rt: HostRuntime) {
    let mut store = FileStore::new(&rt);
    gives(&rt, &"the system's files", seen(&rt, &mut store), &SEEN);
    for path in [WRITTEN, UPDATED, BEGUN, LIMITED, "tested.locked.lock"] {
        same(&rt, &path, &fs::remove_file(&rt, path).is_ok(), &true);
    }
}

#[test]
fn a_file_has_its_folder(rt: HostRuntime) {
    for (path, folder) in [
        ("name", "."),
        ("./name", "."),
        ("a/name", "a"),
        ("a/b/name", "a/b"),
        ("a//name", "a"),
        ("/name", "/"),
        ("/a/name", "/a"),
        ("../name", ".."),
    ] {
        same(&rt, &path, &folder_of(path), &folder);
    }
}

#[test]
fn the_folder_of_a_file_is_synced(rt: HostRuntime) {
    for (path, wanted) in [("name", true), ("/name", true), ("no.folder/name", false)] {
        same(&rt, &path, &sync_folder(&rt, path).is_ok(), &wanted);
    }
}
