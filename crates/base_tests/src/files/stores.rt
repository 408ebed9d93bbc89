//! Tests of what the two stores of `file_store` show alike: that of the system's files, and the one in memory.
use crate::expect::{gives, same};
use file_store::{FileStore, MemoryStore, NewMode, Store, WriteEnd, Written};
use std::alloc::Global;
use std::{fs, io};

const STORED: &str = "tested.stored";

const ABSENT: &str = "tested.absent";

/// Returns whether a file was written and is on the disk, if it was written.
fn is_synced(written: io::Result<Written>) -> io::Result<bool> {
    match written {
        Ok(Written::Synced) => Ok(true),
        Ok(Written::NotSynced(_)) => Ok(false),
        Err(error) => Err(error),
    }
}

/// Returns whether there is a file before it is written, and its first byte then and while it is empty.
fn before<S: Store>(alloc: Global, store: &mut S) -> io::Result<(bool, [Option<u8>; 2])> {
    let is_there = store.exists(STORED)?;
    let absent = store.first_octet(alloc, STORED)?;
    store.write_unsynced(alloc, STORED, b"")?;
    Ok((is_there, [absent, store.first_octet(alloc, STORED)?]))
}

/// Returns whether a file that was written and then updated is on the disk each time, its first byte, and its mode.
fn after<S: Store>(alloc: Global, store: &mut S) -> io::Result<([bool; 2], Option<u8>, u32)> {
    let written = is_synced(store.write(alloc, STORED, b"first, and longer"))?;
    let updated = is_synced(store.update(alloc, STORED, b"second", NewMode::OwnerOnly))?;
    let first = store.first_octet(alloc, STORED)?;
    Ok(([written, updated], first, store.rights(STORED)?.mode))
}

/// Returns whether the file has the second content, and whether it is read under a limit of one byte less.
fn contents<S: Store>(alloc: Global, store: &mut S) -> io::Result<(bool, bool)> {
    let is_second = match store.read(alloc, STORED, 6)? {
        Some(octets) => octets.as_slice() == b"second".as_slice(),
        None => false,
    };
    Ok((is_second, store.read_stream(alloc, STORED, 5)?.is_some()))
}

/// Returns whether a file that is not there is read, and whether it has rights; and how many calls have failed.
fn failures<S: Store>(alloc: Global, store: &mut S) -> ([bool; 2], u64) {
    let is_read = store.read(alloc, ABSENT, 6).is_ok();
    let has_rights = store.rights(ABSENT).is_ok();
    ([is_read, has_rights], store.faults())
}

/// What these functions return.
type Shown = (
    (bool, [Option<u8>; 2]),
    ([bool; 2], Option<u8>, u32),
    (bool, bool),
    ([bool; 2], u64),
);

fn shown<S: Store>(alloc: Global, store: &mut S) -> io::Result<Shown> {
    let before = before(alloc, store)?;
    let after = after(alloc, store)?;
    let contents = contents(alloc, store)?;
    Ok((before, after, contents, failures(alloc, store)))
}

const SHOWN: Shown = (
    (false, [None, None]),
    ([true, true], Some(b's'), 0o600),
    (true, false),
    ([false, false], 2),
);

#[test]
fn files_in_memory_behave_like_those_of_the_system(rt: HostRuntime) {
    let alloc = rt.alloc();
    let of_system = shown(alloc, &mut FileStore::new(&rt));
    gives(&rt, &"the system's files", of_system, &SHOWN);
    let in_memory = shown(alloc, &mut MemoryStore::new(alloc));
    gives(&rt, &"files in memory", in_memory, &SHOWN);
    same(&rt, &STORED, &fs::remove_file(&rt, STORED).is_ok(), &true);
}

/// Returns whether a file in memory is on the disk, after a write with this end, or that the write failed; whether it
/// has the new content; and how many calls have failed.
fn ended(alloc: Global, end: WriteEnd) -> io::Result<(Option<bool>, bool, u64)> {
    let mut store = MemoryStore::new(alloc);
    store.set(alloc, STORED, b"old")?;
    store.set_write_end(end);
    let synced = is_synced(store.update(alloc, STORED, b"new", NewMode::Kept)).ok();
    let is_new = store.get(STORED) == Some(b"new".as_slice());
    Ok((synced, is_new, store.faults()))
}

/// Returns the user who runs a program over files in memory, whose owner is root.
fn user_and_owner(alloc: Global, user: u32) -> io::Result<(Option<u32>, u32)> {
    let mut store = MemoryStore::new(alloc);
    store.set(alloc, STORED, b"")?;
    store.set_user(user);
    let rights = store.rights(STORED)?;
    Ok((rights.user, rights.owner))
}

#[test]
fn a_write_in_memory_has_the_result_that_was_set(rt: HostRuntime) {
    let alloc = rt.alloc();
    for (end, wanted) in [
        (WriteEnd::Synced, (Some(true), true, 0)),
        (WriteEnd::NotSynced, (Some(false), true, 1)),
        (WriteEnd::Unchanged, (None, false, 1)),
    ] {
        gives(&rt, &"the end of a write", ended(alloc, end), &wanted);
    }
}

#[test]
fn a_store_in_memory_has_the_user_that_was_set(rt: HostRuntime) {
    let found = user_and_owner(rt.alloc(), 7);
    gives(&rt, &"a user", found, &(Some(7), 0));
}
