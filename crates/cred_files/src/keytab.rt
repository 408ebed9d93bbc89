//! Keytabs, which hold the keys of services.
ghost use Rattle.std.specs.Prelude.{◌≡◌, ◌++◌, ◌∷◌, List, All, IfOk, IfErr, IfSome, IfNone, OnOk, Some, None, flat_map};
ghost use Rattle.std.specs.Prelude.{is_some, length, option_copied, option_map};
ghost use Rattle.cred_files.specs.Keytab.{HasRoom, IsKeytab, IsNotWritten, IsPart, keytab_text, missing, newer, newest};
ghost use Rattle.cred_files.specs.Keytab.{entry_for};
ghost use Rattle.cred_files.specs.Keytab.{part_text, passes};
ghost use Rattle.cred_files.specs.KeytabReading.{Gives, GivesBy, GivesNext, entries_at, keytab_at, next_at};
ghost use Rattle.cred_files.specs.Reading.{IsReadUnlessMemory};
ghost use Rattle.cred_files.specs.declared.keytab_entry.KeytabEntry as entries;

use crate::fault::CredError;
use crate::keytab_entry::{HOLES, KeytabEntry, read_entry, write_entry};
use crate::magic::{FIRST, KEYTAB, after_magic};
use crate::reader::Reader;
use crate::writer::put_u32;
use enctypes::{Etype, Key};
use krb_elements::UInt32;
use krb_fields::Name;
use std::alloc::Global;
use std::error::Error;
use std::fmt;
use std::marker::Model;

/// The reason why a keytab has no such key.
#[derive(Clone, Copy, Debug, PartialEq, Eq)]
pub enum Miss {
    /// There is no entry for the service.
    NoService,
    /// The service has no entry of the encryption type.
    NoEtype,
    /// None of those has the key version.
    NoVersion,
}

impl fmt::Display for Miss {
    fn fmt<W: fmt::Write>(&self, f: &mut fmt::Formatter<W>) -> fmt::Result {
        f.write_str(match self {
            Miss::NoService => "the keytab has no key for the service",
            Miss::NoEtype => "the keytab has no key of the encryption type",
            Miss::NoVersion => "the keytab has no key of the key version",
        })
    }
}

impl Error for Miss {}

/// What a length in a keytab precedes.
#[derive(Drop)]
enum Part {
    End,
    /// A hole, or an entry whose key has an unsupported encryption type.
    Skipped,
    Held(KeytabEntry),
}

/// The keys of services, in the order of their file.
#[derive(Drop)]
pub struct Keytab {
    entries: Vec<KeytabEntry>,
}

impl Model for Keytab {
    ghost use Rattle.std.specs.Prelude.{List};
    ghost use Rattle.cred_files.specs.declared.keytab_entry.KeytabEntry.{KeytabEntry};

    ghost Value = { List KeytabEntry };

    ghost view = { λ k. k.entries.items };
}

#[tactic(auto, unfolding(crate::specs::KeytabReading::next_at))]
fn next_part(alloc: Global, reader: &mut Reader<'_>) -> Result<Part, CredError>
    ensures { GivesNext result reader.new (next_at reader.old) }
{
    if reader.is_empty() {
        return Ok(Part::End);
    }
    let len = reader.read_u32()? as usize;
    if len == 0 {
        return Ok(Part::End);
    }
    if len < HOLES {
        let content = reader.read_part(len)?;
        let found = read_entry(alloc, content)?;
        return match found {
            Some(entry) => Ok(Part::Held(entry)),
            None => Ok(Part::Skipped),
        };
    }
    let _hole = reader.read_part((1 << 32) - len)?;
    Ok(Part::Skipped)
}

/// Reads entries to the end of the file.
fn read_entries(alloc: Global, bytes: &[u8]) -> Result<Vec<KeytabEntry>, CredError>
    ensures { GivesBy (λ v. v.items) result (entries_at bytes.now) }
{
    let mut entries = Vec::new(alloc);
    let mut rest = Reader::new(bytes);
    loop {
        let part = next_part(alloc, &mut rest)?;
        match part {
            Part::End => return Ok(entries),
            Part::Skipped => {}
            Part::Held(entry) => entries.push(entry)?,
        }
    }
}

/// Appends an entry after its length.
fn put_entry(alloc: Global, out: &mut Vec<u8>, entry: &KeytabEntry) -> Result<(), CredError>
    ensures text { OnOk result (out.new.items ≡ out.old.items ++ part_text entry.now) }
    ensures spelled { IfOk result (λ done. IsPart (Some entry.now) (part_text entry.now)) }
    ensures fault { IfErr result (λ fault. IsNotWritten (HasRoom entry.now) fault) }
{
    let octets = write_entry(alloc, entry)?;
    put_u32(out, octets.len() as u32)?;
    out.extend_from_slice(&octets)?;
    Ok(())
}

/// Appends entries, each after its length.
fn put_entries(alloc: Global, out: &mut Vec<u8>, entries: &[KeytabEntry]) -> Result<(), CredError>
    ensures text { OnOk result (out.new.items ≡ out.old.items ++ flat_map part_text entries.now) }
    ensures spelled { IfOk result (λ done. All (λ e. IsPart (Some e) (part_text e)) entries.now) }
    ensures fault { IfErr result (λ fault. IsNotWritten (All HasRoom entries.now) fault) }
{
    for entry in entries {
        put_entry(alloc, out, entry)?;
    }
    Ok(())
}

/// Returns the entry with the higher key version; if they are equal, the later entry.
fn newer<'a>(entry: &'a KeytabEntry, later: Option<&'a KeytabEntry>) -> &'a KeytabEntry
    ensures { result.now ≡ newer entry.now (option_map (λ e. e.now) later.entry) }
{
    match later {
        Some(later) if later.version >= entry.version => later,
        _ => entry,
    }
}

/// Returns the entry with the highest key version, the last one if there are several. It considers the entries of the
/// service that have the encryption type and the key version, if these are given.
fn newest<'a>(
    entries: &'a [KeytabEntry],
    realm: &[u8],
    name: &Name,
    etype: Option<Etype>,
    version: Option<u32>,
) -> Option<&'a KeytabEntry>
    ensures some { IfSome result (λ e. newest (passes (realm.now ∷ name.now.components) etype version) entries.now
        ≡ Some e.now) }
    ensures none { IfNone result (newest (passes (realm.now ∷ name.now.components) etype version) entries.now ≡ None) }
{
    let mut found: Option<&KeytabEntry> = None;
    for i in (0..entries.len()).rev() {
        let entry = &entries[i];
        if entry.passes(realm, name, etype, version) {
            found = Some(newer(entry, found));
        }
    }
    found
}

impl Keytab {
    /// Returns a keytab with copies of these entries. Fails with `BadEntry` if one is too long for a file.
    pub fn new(alloc: Global, entries: &[KeytabEntry]) -> Result<Keytab, CredError>
        // Promise (ok, room, fault): a keytab is made and written unless an entry is too long or memory runs out.
        ensures ok { IfOk result (λ keytab. keytab ≡ entries.now) }
        ensures room { IfOk result (λ keytab. All HasRoom entries.now) }
        ensures fault { IfErr result (λ fault. IsNotWritten (All HasRoom entries.now) fault) }
    {
        let mut copies = Vec::new(alloc);
        for entry in entries {
            let _octets = write_entry(alloc, entry)?;
            copies.push(entry.copy(alloc)?)?;
        }
        Ok(Keytab { entries: copies })
    }

    /// Returns the number of keys.
    pub fn len(&self) -> usize
        ensures { result ≡ length self.now }
    {
        self.entries.len()
    }

    /// Returns the keys with their principals and key versions, in the order of the file.
    pub fn entries(&self) -> &[KeytabEntry]
        ensures { result.now ≡ self.now }
    {
        &self.entries
    }

    /// Reads a keytab from the bytes of a file.
    pub fn read(alloc: Global, bytes: &[u8]) -> Result<Keytab, CredError>
        // If it succeeds, the file holds this keytab.
        // Promise (found, only, exact): a keytab is read exactly from the bytes of one, unless memory runs out; the
        // error is the first one in the file.
        ensures found { IfOk result (λ keytab. IsKeytab keytab bytes.now) }
        // If the file holds a keytab, it succeeds, unless memory runs out.
        ensures only { (keytab : List entries.KeytabEntry) → IsKeytab keytab bytes.now
            → IsReadUnlessMemory result keytab }
        // The error is the first one in the file.
        ensures exact { Gives result (keytab_at bytes.now) }
    {
        let rest = after_magic(bytes, KEYTAB)?;
        let entries = read_entries(alloc, rest)?;
        Ok(Keytab { entries })
    }

    /// Returns the bytes of the file. Fails with `BadEntry` if an entry is too long for it. An entry that was read can
    /// be too long only if it had 2147483644 bytes or more, and no version of four bytes: that is always written.
    pub fn write(&self, alloc: Global) -> Result<Vec<u8>, CredError>
        // Promise (text, spelled): what is written is a file of this value, so reading it gives an equal value.
        ensures text { IfOk result (λ bytes. bytes.items ≡ keytab_text self.now) }
        // So reading them gives the same entries.
        ensures spelled { IfOk result (λ bytes. IsKeytab self.now bytes.items) }
        // Promise, as Keytab::new: a keytab is made ..
        ensures fault { IfErr result (λ fault. IsNotWritten (All HasRoom self.now) fault) }
    {
        let mut out = Vec::from_slice(alloc, &[FIRST, KEYTAB])?;
        put_entries(alloc, &mut out, &self.entries)?;
        Ok(out)
    }

    /// Returns the service's key of this encryption type and key version; without a version, the one with the highest.
    /// If there are several, it is the last one in the file.
    pub fn find(
        &self,
        realm: &[u8],
        name: &Name,
        etype: Etype,
        version: Option<u32>,
    ) -> Result<&Key, Miss>
        // Promise: `find` returns a service's key of an encryption type in the given version, or else in the highest;
        // of several such keys it is the last.
        ensures found { IfOk result (λ key. option_map
            (λ e. e.key) (newest (passes (realm.now ∷ name.now.components) (Some etype) version) self.now)
            ≡ Some key.now) }
        // Promise (none, miss): if there is no such key, the error says which of service, type and version is missing.
        ensures none { IfErr result (λ miss. newest (passes (realm.now ∷ name.now.components) (Some etype) version)
            self.now ≡ None) }
        ensures miss { IfErr result (λ miss. miss ≡ missing self.now (realm.now ∷ name.now.components) etype) }
    {
        match newest(&self.entries, realm, name, Some(etype), version) {
            Some(entry) => Ok(&entry.key),
            None => Err(self.miss(realm, name, etype)),
        }
    }

    /// Returns the service's key that an encrypted part names by its encryption type and key version (RFC 4120, section
    /// 5.2.9). Without a version, it is the key with the highest. No key has a negative version.
    pub fn key_for(
        &self,
        realm: &[u8],
        name: &Name,
        etype: Etype,
        kvno: Option<UInt32>,
    ) -> Option<&Key>
        // Promise: `key_for` returns the key that an encrypted part names by its type and version, if there is one; a
        // negative version has none.
        ensures { option_copied result
            ≡ option_map (λ e. e.key) (entry_for self.now (realm.now ∷ name.now.components) (Some etype) kvno) }
    {
        match kvno {
            Some(kvno) => self.numbered_key(realm, name, etype, kvno),
            None => self.find(realm, name, etype, None).ok(),
        }
    }

    /// Returns the service's key of this encryption type and key version.
    fn numbered_key(&self, realm: &[u8], name: &Name, etype: Etype, kvno: UInt32) -> Option<&Key>
        ensures { option_copied result
            ≡ option_map (λ e. e.key)
            (entry_for self.now (realm.now ∷ name.now.components) (Some etype) (Some kvno)) }
    {
        let version = u32::try_from(kvno.get()).ok()?;
        self.find(realm, name, etype, Some(version)).ok()
    }

    /// Checks whether there is a key for the service, of the encryption type if one is given.
    pub fn has(&self, realm: &[u8], name: &Name, etype: Option<Etype>) -> bool
        // Promise: `has` says whether a service has an entry, of one encryption type or of any.
        ensures { result ≡ is_some (newest (passes (realm.now ∷ name.now.components) etype None) self.now) }
    {
        newest(&self.entries, realm, name, etype, None).is_some()
    }

    /// Returns what is missing, if there is no such key.
    fn miss(&self, realm: &[u8], name: &Name, etype: Etype) -> Miss
        ensures { result ≡ missing self.now (realm.now ∷ name.now.components) etype }
    {
        if newest(&self.entries, realm, name, None, None).is_none() {
            return Miss::NoService;
        }
        match newest(&self.entries, realm, name, Some(etype), None) {
            None => Miss::NoEtype,
            Some(_) => Miss::NoVersion,
        }
    }
}
