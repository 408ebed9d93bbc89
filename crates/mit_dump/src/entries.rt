//! The keys of a principal, decrypted with the realm's master key.
ghost use Rattle.std.specs.Prelude.{◌≡◌, IfOk, OnOk, pos};
ghost use Rattle.enctypes.specs.Numbered.{type_numbered};
ghost use Rattle.mit_dump.specs.Entries.{AreEntries, ArePushed, IsPushed, key_from, key_within, place_of, preference};
ghost use Rattle.mit_dump.specs.Entries.{with_first};

use crate::fault::{Cause, DumpError};
use crate::master::master_key;
use crate::principal::DumpedPrincipal;
use crate::stored_key::StoredKey;
use cred_files::{Keytab, KeytabEntry};
use enctypes::{Etype, Key, KeyUsage, open};
use std::alloc::{AllocError, Global};

impl StoredKey {
    /// Returns the encryption type of a key that has a place in a row: it has one of the four types, and its version is
    /// not 0.
    pub fn etype(&self) -> Option<Etype>
        ensures { result ≡ place_of self.now }
    {
        if self.version == 0 {
            return None;
        }
        tagged_etype(self.key.tag)
    }
}

impl DumpedPrincipal {
    /// Returns the keys that have a place in a row as entries of a keytab, the last key first, decrypted with a master
    /// key of MIT's stash file.
    pub fn entries(&self, alloc: Global, stash: &Keytab) -> Result<Vec<KeytabEntry>, DumpError>
        // Promise, as import_dump of kadm_changes: an imported database has ..
        ensures { IfOk result (λ entries. AreEntries stash.now self.now entries.items) }
    {
        let Some(master) = master_key(alloc, self, stash)? else {
            return Err(DumpError::of_keys(Cause::NoMaster));
        };
        open_entries(alloc, self, master, &self.keys)
    }

    /// Returns the types of the keys that have a place in a row: each once, in the order of the keys.
    pub fn preference(&self, alloc: Global) -> Result<Vec<Etype>, AllocError>
        ensures { IfOk result (λ etypes. etypes.items ≡ preference self.now.keys.items) }
    {
        preference(alloc, &self.keys)
    }
}

/// Returns the encryption type with this number, if it is one of the four.
fn tagged_etype(tag: u32) -> Option<Etype>
    ensures { result ≡ type_numbered (pos tag) }
{
    match u16::try_from(tag) {
        Ok(number) => short_etype(number),
        Err(_) => None,
    }
}

/// Returns the encryption type with a number of two bytes.
fn short_etype(number: u16) -> Option<Etype>
    ensures { result ≡ type_numbered (pos number) }
{
    Etype::from_number(i32::from(number))
}

/// Returns the entries of these keys, the last key first.
fn open_entries(
    alloc: Global,
    principal: &DumpedPrincipal,
    master: &Key,
    keys: &[StoredKey],
) -> Result<Vec<KeytabEntry>, DumpError>
    ensures { IfOk result (λ entries. ArePushed principal.now master.now keys.now entries.items) }
{
    let mut entries = Vec::new(alloc);
    for i in (0..keys.len()).rev() {
        push_entry(alloc, &mut entries, principal, master, &keys[i])?;
    }
    Ok(entries)
}

/// Returns the types of keys.
fn preference(alloc: Global, keys: &[StoredKey]) -> Result<Vec<Etype>, AllocError>
    ensures { IfOk result (λ etypes. etypes.items ≡ preference keys.now) }
{
    let mut etypes = Vec::new(alloc);
    for i in (0..keys.len()).rev() {
        put_first(&mut etypes, keys[i].etype())?;
    }
    Ok(etypes)
}

/// Adds the entry of a key, if it has a place in a row.
fn push_entry(
    alloc: Global,
    entries: &mut Vec<KeytabEntry>,
    principal: &DumpedPrincipal,
    master: &Key,
    stored: &StoredKey,
) -> Result<(), DumpError>
    ensures { OnOk result (IsPushed principal.now master.now stored.now entries.old.items entries.new.items) }
{
    let Some(etype) = stored.etype() else {
        return Ok(());
    };
    let Some(key) = decrypted(alloc, master, etype, stored.key.octets.as_slice())? else {
        return Err(DumpError::of_keys(Cause::NotOpened));
    };
    entries.push(KeytabEntry {
        realm: principal.realm.copy(alloc)?,
        name: principal.name.copy(alloc)?,
        version: stored.version,
        key,
    })?;
    Ok(())
}

/// Decrypts a key: two bytes with its length, the lower first, and then the encrypted key.
fn decrypted(
    alloc: Global,
    master: &Key,
    etype: Etype,
    octets: &[u8],
) -> Result<Option<Key>, AllocError>
    ensures { IfOk result (λ found. found ≡ key_from master.now etype octets.now) }
{
    let [low, high, cipher @ ..] = octets else {
        return Ok(None);
    };
    let len = usize::from(*low) + 256 * usize::from(*high);
    match open(alloc, master, KeyUsage::StoredKey, cipher)? {
        Some(text) => Ok(key_within(etype, &text, len)),
        None => Ok(None),
    }
}

/// Returns the key in the first bytes of a text, if there are as many as its type requires.
fn key_within(etype: Etype, text: &[u8], len: usize) -> Option<Key>
    ensures { result ≡ key_within etype len text.now }
{
    Key::new(etype, text.get(..len)?)
}

/// Moves a type to the front of the others, or puts it there.
fn put_first(etypes: &mut Vec<Etype>, etype: Option<Etype>) -> Result<(), AllocError>
    ensures { OnOk result (etypes.new.items ≡ with_first etype etypes.old.items) }
{
    let Some(etype) = etype else {
        return Ok(());
    };
    etypes.retain(|other| *other != etype);
    etypes.insert(0, etype)?;
    Ok(())
}
