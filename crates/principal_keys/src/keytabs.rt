//! The keys of a principal in a keytab, in all their versions.
ghost use Rattle.std.specs.Prelude.{◌≡◌, ◌∷◌, ◌&&◌, ◌⊎◌, Err, IfOk, IsTrue, OnOk};
ghost use Rattle.cred_files.specs.Keytab.{is_of};
ghost use Rattle.principal_rows.specs.KeyList.{has_type_twice};
ghost use Rattle.principal_keys.specs.Keytabs.{AreOrdered, AreTaken, AreVersionsOf, HasKeyOfZero, HasNoKeys, IsDoubled};
ghost use Rattle.principal_keys.specs.Keytabs.{greater, is_below, key_at, keys_at, next_number, with_version};

use cred_files::{CredError, Keytab, KeytabEntry};
use enctypes::{Etype, Key};
use krb_fields::Name;
use principal_rows::{KeyList, KeyListError, KeyVersion, Versions};
use std::alloc::{AllocError, Global};

/// Returns what is wrong with a keytab, for a message after the name of its file.
pub fn keytab_text(fault: CredError) -> &'static str {
    match fault {
        CredError::BadMagic => "this is not a keytab of version 2",
        CredError::Truncated => "the keytab ends too early",
        CredError::BadEntry => "an entry is invalid, or too long for a keytab",
        // the others concern caches
        fault => fault.text(),
    }
}

/// The keys of a principal in a keytab.
#[derive(Clone, Copy)]
pub struct KeytabKeys<'a> {
    /// The keytab, which may have keys of others, too.
    pub keytab: &'a Keytab,
    /// The principal's realm.
    pub realm: &'a [u8],
    /// Its name in the realm.
    pub who: &'a Name,
}

/// Returns the versions of a principal that have keys with these types in the keytab, the greatest number first. Fails
/// with [`KeyListError::Empty`] if there is none, or one has the number 0, which no row can have. Fails with
/// [`KeyListError::Doubled`] if `etypes` has a type twice and a version has a key of that type.
pub fn keytab_versions(
    alloc: Global,
    of: &KeytabKeys<'_>,
    etypes: &[Etype],
) -> Result<Versions, KeyListError>
    // Promise, as import of kadm_changes: `import` adds a principal ..
    // Promise, as import of kadm_changes: an imported principal has ..
    ensures versions { IfOk result (λ versions. AreVersionsOf of.now.keytab.now
        (of.now.realm.now ∷ of.now.who.now.components) etypes.now versions) }
    // Promise: a keytab's versions are refused as empty only if no version of the principal has a key of these types,
    // or version 0 has one.
    ensures empty { result ≡ Err KeyListError.Empty
        → HasNoKeys of.now.keytab.now (of.now.realm.now ∷ of.now.who.now.components) etypes.now
        ⊎ HasKeyOfZero of.now.keytab.now (of.now.realm.now ∷ of.now.who.now.components) etypes.now }
    // Promise: a keytab's versions are refused as doubled only if a version has two keys of a type.
    ensures doubled { result ≡ Err KeyListError.Doubled
        → IsDoubled of.now.keytab.now (of.now.realm.now ∷ of.now.who.now.components) etypes.now }
{
    let versions = taken_versions(alloc, of, etypes)?;
    match Versions::new(versions) {
        Some(versions) => Ok(versions),
        None => Err(KeyListError::Empty),
    }
}

/// Returns each version of a principal that has a key with one of these types in the keytab; the greatest number first.
fn taken_versions(
    alloc: Global,
    of: &KeytabKeys<'_>,
    etypes: &[Etype],
) -> Result<Vec<KeyVersion>, KeyListError>
    ensures taken { IfOk result (λ versions. AreTaken of.now.keytab.now
        (of.now.realm.now ∷ of.now.who.now.components) etypes.now versions.items) }
    ensures ordered { IfOk result (λ versions. AreOrdered versions.items) }
    ensures not_empty { ¬ (result ≡ Err KeyListError.Empty) }
    ensures doubled { result ≡ Err KeyListError.Doubled
        → IsDoubled of.now.keytab.now (of.now.realm.now ∷ of.now.who.now.components) etypes.now }
{
    let mut versions = Vec::new(alloc);
    let mut bound = None;
    while let Some(number) = number_below(of.keytab.entries(), of.realm, of.who, bound) {
        let keys = keys_at(alloc, of, etypes, number)?;
        push_version(alloc, &mut versions, number, &keys)?;
        bound = Some(number);
    }
    Ok(versions)
}

/// Adds a version with these keys, if there is a key.
#[tactic(auto, using(crate::proofs::KeytabVersions::some_keys))]
fn push_version(
    alloc: Global,
    versions: &mut Vec<KeyVersion>,
    number: u32,
    keys: &[Key],
) -> Result<(), KeyListError>
    ensures pushed { OnOk result (versions.new.items ≡ with_version number keys.now versions.old.items) }
    ensures not_empty { ¬ (result ≡ Err KeyListError.Empty) }
    ensures doubled { result ≡ Err KeyListError.Doubled → IsTrue (has_type_twice keys.now) }
{
    if keys.is_empty() {
        return Ok(());
    }
    let keys = KeyList::new(alloc, keys)?;
    match versions.push(KeyVersion { number, keys }) {
        Ok(()) => Ok(()),
        Err(_) => Err(KeyListError::Memory),
    }
}

/// Returns the greatest number below a bound among the versions of a principal's keys, if there is one.
fn number_below(
    entries: &[KeytabEntry],
    realm: &[u8],
    who: &Name,
    bound: Option<u32>,
) -> Option<u32>
    ensures { result ≡ next_number (realm.now ∷ who.now.components) bound entries.now }
{
    let mut found = None;
    for i in (0..entries.len()).rev() {
        let entry = &entries[i];
        if may_be_next(entry, realm, who, bound) {
            found = Some(greater(entry.version, found));
        }
    }
    found
}

/// Checks whether an entry is the principal's, and its version is below the bound.
fn may_be_next(entry: &KeytabEntry, realm: &[u8], who: &Name, bound: Option<u32>) -> bool
    ensures { result ≡ (is_of (realm.now ∷ who.now.components) entry.now && is_below bound entry.now.version) }
{
    is_entry_of(entry, realm, who) && is_below(bound, entry.version)
}

fn is_below(bound: Option<u32>, number: u32) -> bool
    ensures { result ≡ is_below bound number }
{
    match bound {
        Some(bound) => number < bound,
        None => true,
    }
}

fn greater(number: u32, found: Option<u32>) -> u32
    ensures { result ≡ greater number found }
{
    match found {
        Some(other) => number.max(other),
        None => number,
    }
}

fn is_entry_of(entry: &KeytabEntry, realm: &[u8], who: &Name) -> bool
    ensures { result ≡ is_of (realm.now ∷ who.now.components) entry.now }
{
    entry.realm.as_slice() == realm && entry.name.is_same(who)
}

/// Returns the keys of a version with these types, in their order.
fn keys_at(
    alloc: Global,
    of: &KeytabKeys<'_>,
    etypes: &[Etype],
    number: u32,
) -> Result<Vec<Key>, AllocError>
    ensures { IfOk result (λ keys. keys.items
        ≡ keys_at of.now.keytab.now (of.now.realm.now ∷ of.now.who.now.components) etypes.now number) }
{
    let mut keys = Vec::new(alloc);
    for etype in etypes {
        if let Some(key) = key_at(of, *etype, number) {
            keys.push(key)?;
        }
    }
    Ok(keys)
}

/// Returns the key with a version and a type.
fn key_at(of: &KeytabKeys<'_>, etype: Etype, number: u32) -> Option<Key>
    ensures { result ≡ key_at of.now.keytab.now (of.now.realm.now ∷ of.now.who.now.components) number etype }
{
    match of.keytab.find(of.realm, of.who, etype, Some(number)) {
        Ok(key) => Some(*key),
        Err(_) => None,
    }
}
