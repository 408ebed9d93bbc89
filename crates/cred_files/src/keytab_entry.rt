//! Entries of a keytab: the key of a principal with its key version.
ghost use Rattle.std.specs.Prelude.{◌≡◌, ◌∷◌, nat_lt, length, unsigned_abs, pos, IsTrue, IfOk, IfErr, OnOk, Some};
ghost use Rattle.std.specs.List.{list_all};
ghost use Rattle.enctypes.specs.Etype.{key_len, number};
ghost use Rattle.enctypes.specs.Numbered.{type_numbered};
ghost use Rattle.cred_files.specs.Keytab.{HasCounts, HasRoom, IsEntry, IsNotWritten, entry_fields, entry_text};
ghost use Rattle.cred_files.specs.Keytab.{key_fields};
ghost use Rattle.cred_files.specs.Keytab.{is_numbered, is_typed, passes, version_of, written_fields};
ghost use Rattle.cred_files.specs.KeytabReading.{Gives, content_at, in_entry};
ghost use Rattle.cred_files.specs.Reading.{Reads};

use crate::fault::CredError;
use crate::principal::is_same;
use crate::reader::Reader;
use crate::stored::{Stored, put_all, read_several};
use crate::width::Width;
use crate::writer::{put_counted, put_i32, put_number, put_u16, put_u32};
use enctypes::{Etype, Key};
use krb_elements::{KerberosString, Octets};
use krb_fields::Name;
use std::alloc::{AllocError, Global};

/// A key of a principal.
#[derive(Drop)]
pub struct KeytabEntry {
    /// The principal's realm.
    pub realm: KerberosString,
    /// Its name in the realm, with the name-type.
    pub name: Name,
    /// The key version (kvno).
    pub version: u32,
    /// The key, with one of the four supported encryption types.
    pub key: Key,
}

/// The fields of an entry in the file, up to the version of four bytes.
#[derive(Drop)]
struct EntryFields {
    realm: KerberosString,
    name: Name,
    version: u8,
    key_type: u16,
    key: Octets,
}

/// The fields of an entry's key: the version in one byte, the encryption type and the bytes.
#[derive(Drop)]
struct KeyFields {
    version: u8,
    key_type: u16,
    octets: Octets,
}

impl KeytabEntry {
    /// Returns a copy.
    pub fn copy(&self, alloc: Global) -> Result<KeytabEntry, AllocError>
        ensures { IfOk result (λ copy. copy ≡ self.now) }
    {
        Ok(KeytabEntry {
            realm: self.realm.copy(alloc)?,
            name: self.name.copy(alloc)?,
            version: self.version,
            key: self.key,
        })
    }

    /// Checks whether it is a key for this service, with the encryption type and key version if these are given.
    pub(crate) fn passes(
        &self,
        realm: &[u8],
        name: &Name,
        etype: Option<Etype>,
        version: Option<u32>,
    ) -> bool
        ensures { result ≡ passes (realm.now ∷ name.now.components) etype version self.now }
    {
        is_same(&self.realm, &self.name, realm, name)
            && is_typed(&self.key, etype)
            && is_numbered(self.version, version)
    }
}

fn is_typed(key: &Key, etype: Option<Etype>) -> bool
    ensures { result ≡ is_typed etype key.now }
{
    match etype {
        None => true,
        Some(etype) => key.etype() == etype,
    }
}

fn is_numbered(number: u32, version: Option<u32>) -> bool
    ensures { result ≡ is_numbered version number }
{
    match version {
        None => true,
        Some(version) => number == version,
    }
}

#[tactic(auto, unfolding(crate::specs::Keytab::entry_fields))]
fn read_fields(alloc: Global, reader: &mut Reader<'_>) -> Result<EntryFields, CredError>
    ensures { Reads result reader.new (entry_fields.form.at reader.old) }
{
    let count = reader.read_number(Width::Two)?;
    let realm = KerberosString::read(alloc, reader, Width::Two)?;
    let components = read_several(alloc, reader, Width::Two, count)?;
    let name_type = reader.read_i32()?;
    let key = read_key_fields(alloc, reader)?;
    let name = Name {
        name_type,
        components,
    };
    Ok(EntryFields {
        realm,
        name,
        version: key.version,
        key_type: key.key_type,
        key: key.octets,
    })
}

fn read_key_fields(alloc: Global, reader: &mut Reader<'_>) -> Result<KeyFields, CredError>
    ensures { Reads result reader.new (key_fields.form.at reader.old) }
{
    let _time = reader.read_part(4)?;
    let version = reader.read_u8()?;
    let key_type = reader.read_u16()?;
    let octets = Octets::from_slice(alloc, reader.read_counted(Width::Two)?)?;
    Ok(KeyFields {
        version,
        key_type,
        octets,
    })
}

/// Returns the version of four bytes if it is there and not zero, otherwise that of one byte.
fn full_version(short: u8, more: &[u8]) -> u32
    ensures { result ≡ version_of short more.now }
{
    match more.first_chunk::<4>() {
        Some(octets) if u32::from_be_bytes(*octets) != 0 => u32::from_be_bytes(*octets),
        _ => u32::from(short),
    }
}

/// Returns the encryption type with this number, if it is one of the four supported ones.
pub fn known_etype(number: u16) -> Option<Etype>
    ensures { result ≡ type_numbered (pos number) }
{
    Etype::from_number(i32::from(number))
}

/// Returns the error of an entry whose fields can't be read. If they extend past its end, the entry is bad.
fn in_entry(fault: CredError) -> CredError
    ensures { result ≡ in_entry fault }
{
    match fault {
        CredError::Truncated => CredError::BadEntry,
        _ => fault,
    }
}

/// Reads an entry, or `None` if its key has an unsupported encryption type.
#[tactic(auto, unfolding(crate::specs::KeytabReading::content_at))]
pub fn read_entry(alloc: Global, content: &[u8]) -> Result<Option<KeytabEntry>, CredError>
    ensures { Gives result (content_at content.now) }
{
    let mut reader = Reader::new(content);
    let fields = match read_fields(alloc, &mut reader) {
        Ok(fields) => fields,
        Err(fault) => return Err(in_entry(fault)),
    };
    let Some(etype) = known_etype(fields.key_type) else {
        return Ok(None);
    };
    let Some(key) = Key::new(etype, fields.key.as_slice()) else {
        return Err(CredError::BadEntry);
    };
    let version = full_version(fields.version, reader.rest());
    let EntryFields { realm, name, .. } = fields;
    Ok(Some(KeytabEntry {
        realm,
        name,
        version,
        key,
    }))
}

/// The maximum length, and the maximum count, in two bytes.
const MOST: usize = 0xffff;

/// Lengths from here on are those of holes: as signed numbers they are negative.
pub const HOLES: usize = 1 << 31;

/// Checks whether the lengths and the count of an entry's texts fit in two bytes each.
fn has_counts(entry: &KeytabEntry) -> bool
    ensures yes { IsTrue result → HasCounts entry.now }
    ensures no { HasCounts entry.now → IsTrue result }
{
    let components = entry.name.components.as_slice();
    components.len() <= MOST && entry.realm.as_slice().len() <= MOST && are_counted(components)
}

fn are_counted(components: &[KerberosString]) -> bool
    ensures { result ≡ list_all (λ c. nat_lt (length c) 65536) components.now }
{
    components.iter().all(|c| c.as_slice().len() <= MOST)
}

/// Returns an encryption type's number as files have it.
fn key_type(etype: Etype) -> u16
    ensures { result ≡ unsigned_abs (number etype) }
{
    etype.number() as u16
}

#[tactic(auto, unfolding(crate::specs::Keytab::entry_fields))]
fn put_fields(out: &mut Vec<u8>, entry: &KeytabEntry) -> Result<(), AllocError>
    requires { HasCounts entry.now }
    ensures text { OnOk result (out.new.items ≡ entry_fields.form.onto out.old.items (written_fields entry.now)) }
    ensures fits { IfOk result (λ done. entry_fields.form.Fits (written_fields entry.now)) }
    ensures key { IfOk result (λ done. length entry.now.key.bytes ≡ key_len entry.now.key.etype) }
{
    let components = entry.name.components.as_slice();
    put_number(out, Width::Two, components.len())?;
    entry.realm.put(out, Width::Two)?;
    put_all(out, Width::Two, components)?;
    put_i32(out, entry.name.name_type)?;
    out.extend_from_slice(&[0; 4])?;
    out.push((entry.version % 256) as u8)?;
    put_u16(out, key_type(entry.key.etype()))?;
    put_counted(out, Width::Two, entry.key.bytes())
}

/// Returns the bytes of an entry, without their length. Fails with `BadEntry` if one of its lengths or its number of
/// components doesn't fit.
pub fn write_entry(alloc: Global, entry: &KeytabEntry) -> Result<Vec<u8>, CredError>
    ensures room { IfOk result (λ octets. HasRoom entry.now) }
    ensures text { IfOk result (λ octets. octets.items ≡ entry_text entry.now) }
    ensures spelled { IfOk result (λ octets. IsEntry (Some entry.now) octets.items) }
    ensures fault { IfErr result (λ fault. IsNotWritten (HasRoom entry.now) fault) }
{
    if !has_counts(entry) {
        return Err(CredError::BadEntry);
    }
    let mut octets = Vec::new(alloc);
    put_fields(&mut octets, entry)?;
    put_u32(&mut octets, entry.version)?;
    if octets.len() >= HOLES {
        return Err(CredError::BadEntry);
    }
    Ok(octets)
}
