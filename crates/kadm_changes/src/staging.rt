//! The command that makes the next version of a principal's keys, which a keytab brings, the current one.
ghost use Rattle.std.specs.Prelude.{◌≡◌, ◌∷◌, ◌+◌, ◌&&◌, ◌||◌, ◌==◌, ℕ, List, IfOk, IsTrue, OnOk, Some};
ghost use Rattle.std.specs.FinMap as finite;
ghost use Rattle.std.specs.List.{list_all};
ghost use Rattle.cred_files.specs.Keytab.{IsKeytab, is_of};
ghost use Rattle.file_store.specs.World.{IsRead};
ghost use Rattle.principal_rows.specs.Versions.{current};
ghost use Rattle.principal_rows.specs.declared.row.Row as rows;
ghost use Rattle.kadm_changes.specs.Staging.{HasNextKeys, IsNext, IsStaged, is_staged, key_numbered, keys_numbered};

use crate::databases::apply;
use crate::draft::Draft;
use crate::early_end::EarlyEnd;
use crate::realm::refuse_tgs;
use crate::reason::{CommandRefusal, Part, RealmEnd};
use cred_files::{Keytab, KeytabEntry};
use enctypes::Key;
use file_store::{Store, read_file};
use krb_fields::Name;
use principal_rows::{KeyList, KeyListError, KeyVersion};
use principals::{ChangeFault, RowChange};
use std::alloc::{AllocError, Global};

/// A principal, and its current version.
#[derive(Clone, Copy)]
struct Service<'a> {
    /// Its realm.
    realm: &'a [u8],
    /// Its name in the realm.
    who: &'a Name,
    /// Its current version, which the next one follows.
    current: &'a KeyVersion,
}

/// Makes the next version of a principal's keys, as a keytab has it, the current one.
pub(crate) fn give_staged<'p, T: Store>(
    store: &mut T,
    draft: &mut Draft,
    who: &Name,
    keytab: &'p str,
) -> Result<(), EarlyEnd<'p>>
    // Promise: `random --from` gives a principal the keys that the keytab has with the version after the current one,
    // in its order, and changes nothing else.
    // Promise: the keytab of `random --from` is for the principal alone: it has its current keys and those, and no
    // others; it is never that of `krbtgt/R`.
    ensures staged { OnOk result (IsStaged (T.world store.old) keytab.now who.now.components
        draft.old.database draft.new.database) }
    // Promise, as lock_database: what a command reads, ..
    ensures unchanged { T.world store.new ≡ T.world store.old }
{
    refuse_tgs(draft.alloc, &draft.database, who, RealmEnd::Staged)?;
    let keys = staged_keys(store, draft, who, keytab)?;
    Ok(apply(draft, who, RowChange::NewKeys(keys))?)
}

/// Returns the keys of a principal's next version in the keytab at a path.
fn staged_keys<'p, T: Store>(
    store: &mut T,
    draft: &Draft,
    who: &Name,
    path: &'p str,
) -> Result<KeyList, EarlyEnd<'p>>
    ensures next { IfOk result (λ keys. (row : rows.Row)
        × (finite.get draft.now.database.rows who.now.components ≡ Some row)
        × HasNextKeys (T.world store.old) path.now (draft.now.database.realm ∷ who.now.components)
        (current row.versions) keys) }
    ensures unchanged { T.world store.new ≡ T.world store.old }
{
    let Some(row) = draft.database.get(who) else {
        return Err(EarlyEnd::from(ChangeFault::Absent));
    };
    let service = Service {
        realm: draft.database.realm(),
        who,
        current: row.versions.current(),
    };
    let keytab = read_staged(draft.alloc, store, path)?;
    next_keys(draft.alloc, &service, keytab.entries(), path)
}

/// Reads the keytab at a path.
fn read_staged<'p, T: Store>(
    alloc: Global,
    store: &mut T,
    path: &'p str,
) -> Result<Keytab, EarlyEnd<'p>>
    ensures read { IfOk result (λ keytab. (octets : List ℕ) × IsRead (T.world store.old) path.now octets
        × IsKeytab keytab octets) }
    ensures unchanged { T.world store.new ≡ T.world store.old }
{
    let octets = read_file(alloc, store, path)?;
    match Keytab::read(alloc, &octets) {
        Ok(keytab) => Ok(keytab),
        Err(fault) => Err(EarlyEnd::from(fault).about(Part::Keytab, path)),
    }
}

/// Returns the keys of the next version among these entries. Fails unless the others are the current version's keys.
fn next_keys<'p>(
    alloc: Global,
    service: &Service<'_>,
    entries: &[KeytabEntry],
    path: &'p str,
) -> Result<KeyList, EarlyEnd<'p>>
    ensures { IfOk result (λ keys. IsNext (service.now.realm.now ∷ service.now.who.now.components)
        service.now.current.now entries.now keys) }
{
    let current = service.current;
    let Some(next) = current.number.checked_add(1) else {
        return Err(EarlyEnd::from(ChangeFault::LastVersion));
    };
    let held = keys_numbered(alloc, entries, current.number)?;
    if !are_staged(entries, service, next) || !are_same(&held, current.keys.keys()) {
        return Err(not_next(path));
    }
    let keys = keys_numbered(alloc, entries, next)?;
    match KeyList::new(alloc, &keys) {
        Ok(keys) => Ok(keys),
        Err(KeyListError::Memory) => Err(EarlyEnd::from(AllocError)),
        Err(KeyListError::Empty | KeyListError::Doubled) => Err(not_next(path)),
    }
}

/// Returns the refusal of a keytab that doesn't have the next version and the current one alone.
fn not_next(path: &str) -> EarlyEnd<'_> {
    EarlyEnd::refused_value(Part::Keytab, path, CommandRefusal::NotNext)
}

/// Checks whether all entries are the principal's, with its current version or this next one.
fn are_staged(entries: &[KeytabEntry], service: &Service<'_>, next: u32) -> bool
    ensures { result ≡ list_all (is_staged (service.now.realm.now ∷ service.now.who.now.components)
        service.now.current.now.number next) entries.now }
{
    entries.iter().all(|entry| is_staged(entry, service, next))
}

fn is_staged(entry: &KeytabEntry, service: &Service<'_>, next: u32) -> bool
    ensures { result ≡ is_staged (service.now.realm.now ∷ service.now.who.now.components)
        service.now.current.now.number next entry.now }
{
    is_entry_of(entry, service)
        && (entry.version == service.current.number || entry.version == next)
}

/// Checks whether an entry is the principal's.
fn is_entry_of(entry: &KeytabEntry, service: &Service<'_>) -> bool
    ensures { result ≡ is_of (service.now.realm.now ∷ service.now.who.now.components) entry.now }
{
    entry.realm.as_slice() == service.realm && entry.name.is_same(service.who)
}

/// Returns the keys with a version, in the order of the entries.
fn keys_numbered(
    alloc: Global,
    entries: &[KeytabEntry],
    number: u32,
) -> Result<Vec<Key>, AllocError>
    ensures { IfOk result (λ keys. keys.items ≡ keys_numbered number entries.now) }
{
    let mut keys = Vec::new(alloc);
    for entry in entries {
        if let Some(key) = key_numbered(entry, number) {
            keys.push(key)?;
        }
    }
    Ok(keys)
}

/// Returns the key of an entry, if it has this version.
fn key_numbered(entry: &KeytabEntry, number: u32) -> Option<Key>
    ensures { result ≡ key_numbered number entry.now }
{
    if entry.version == number {
        Some(entry.key)
    } else {
        None
    }
}

/// Checks whether two lists have the same keys, in the same order.
fn are_same(keys: &[Key], others: &[Key]) -> bool
    ensures { IsTrue result → keys.now ≡ others.now }
{
    if keys.len() != others.len() {
        return false;
    }
    for i in 0..keys.len() {
        if !is_same(&keys[i], &others[i]) {
            return false;
        }
    }
    true
}

fn is_same(key: &Key, other: &Key) -> bool
    ensures { IsTrue result → key.now ≡ other.now }
{
    key.etype() == other.etype() && key.bytes() == other.bytes()
}
