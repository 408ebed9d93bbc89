//! The master keys of a realm, in MIT's stash file.
ghost use Rattle.std.specs.Prelude.{◌≡◌, ◌∷◌, IfOk, option_copied, option_map};
ghost use Rattle.cred_files.specs.Keytab.{is_of};
ghost use Rattle.mit_dump.specs.Master.{first_master, is_numbered, lower, master_key, master_service, master_version};
ghost use Rattle.mit_dump.specs.Master.{may_encrypt, part_tagged, version_in};

use crate::part::Part;
use crate::principal::DumpedPrincipal;
use cred_files::{Keytab, KeytabEntry};
use enctypes::Key;
use krb_fields::Name;
use krb_fields::numbers::NT_PRINCIPAL;
use std::alloc::{AllocError, Global};

/// The number of the tagged data with the version of the master key: `KRB5_TL_MKVNO`.
const MASTER_VERSION: u32 = 8;

/// Returns the master key that encrypts a principal's keys: that with the version in its tagged data, or else the one
/// with the lowest.
pub(crate) fn master_key<'s>(
    alloc: Global,
    principal: &DumpedPrincipal,
    stash: &'s Keytab,
) -> Result<Option<&'s Key>, AllocError>
    ensures { IfOk result (λ found. option_copied found ≡ master_key stash.now principal.now) }
{
    let name = Name::new(alloc, NT_PRINCIPAL, &[b"K", b"M"])?;
    let version = master_version(&principal.tagged);
    match first_master(stash.entries(), principal.realm.as_slice(), &name, version) {
        Some(entry) => Ok(Some(&entry.key)),
        None => Ok(None),
    }
}

/// Returns the entry with the lowest version among those of a name, and of a version if one is given.
fn first_master<'s>(
    entries: &'s [KeytabEntry],
    realm: &[u8],
    name: &Name,
    version: Option<u32>,
) -> Option<&'s KeytabEntry>
    ensures { option_map (λ e. e.now) result ≡ first_master (realm.now ∷ name.now.components) version entries.now }
{
    let mut found: Option<&KeytabEntry> = None;
    for i in (0..entries.len()).rev() {
        let entry = &entries[i];
        if may_encrypt(entry, realm, name, version) {
            found = Some(lower(entry, found));
        }
    }
    found
}

/// Returns the entry with the lower version; if they are equal, the first one.
fn lower<'s>(entry: &'s KeytabEntry, later: Option<&'s KeytabEntry>) -> &'s KeytabEntry
    ensures { result.now ≡ lower entry.now (option_map (λ e. e.now) later.entry) }
{
    match later {
        Some(later) if later.version < entry.version => later,
        _ => entry,
    }
}

fn may_encrypt(entry: &KeytabEntry, realm: &[u8], name: &Name, version: Option<u32>) -> bool
    ensures { result ≡ may_encrypt (realm.now ∷ name.now.components) version entry.now }
{
    is_entry_of(entry, realm, name) && is_numbered(entry.version, version)
}

fn is_entry_of(entry: &KeytabEntry, realm: &[u8], name: &Name) -> bool
    ensures { result ≡ is_of (realm.now ∷ name.now.components) entry.now }
{
    entry.realm.as_slice() == realm && entry.name.is_same(name)
}

fn is_numbered(number: u32, version: Option<u32>) -> bool
    ensures { result ≡ is_numbered version number }
{
    match version {
        Some(version) => number == version,
        None => true,
    }
}

/// Returns the version of the master key in tagged data.
fn master_version(tagged: &[Part]) -> Option<u32>
    ensures { result ≡ master_version tagged.now }
{
    let part = part_tagged(tagged, MASTER_VERSION)?;
    version_in(part.octets.as_slice())
}

/// Reads the version of a master key: two bytes, the lower first.
fn version_in(octets: &[u8]) -> Option<u32>
    ensures { result ≡ version_in octets.now }
{
    match octets {
        [low, high] => Some(u32::from(*low) + 256 * u32::from(*high)),
        _ => None,
    }
}

/// Returns the first part with this number.
pub(crate) fn part_tagged(tagged: &[Part], tag: u32) -> Option<&Part>
    ensures { option_copied result ≡ part_tagged tag tagged.now }
{
    tagged.iter().find(|part| part.tag == tag)
}
