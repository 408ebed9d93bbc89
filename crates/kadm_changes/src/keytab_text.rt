//! The keys that a keytab gives out, and its text.
ghost use Rattle.std.specs.Prelude.{◌≡◌, ◌++◌, List, IfOk, OnOk, Some, map};
ghost use Rattle.std.specs.FinMap as finite;
ghost use Rattle.principal_rows.specs.declared.row.KeyVersion as versions;
ghost use Rattle.principal_rows.specs.declared.row.Row as rows;
ghost use Rattle.kadm_changes.specs.Keytabs.{AreGivenOut, IsNewKeytab, IsNextVersion, all_entries, entries_of};
ghost use Rattle.kadm_changes.specs.Texts.{path_of};

use crate::early_end::EarlyEnd;
use crate::keytabs::KeytabContent;
use crate::realm::refuse_tgs;
use crate::reason::RealmEnd;
use cred_files::{Keytab, KeytabEntry};
use enctypes::Etype;
use file_store::{Store, read_or_draw_seed};
use krb_elements::KerberosString;
use krb_fields::Name;
use principal_keys::random_keys;
use principal_rows::{KeyList, KeyVersion};
use principals::{ChangeFault, Database};
use std::alloc::{AllocError, Global};

/// Returns a keytab with a principal's keys.
pub(crate) fn new_keytab<'p, T: Store>(
    alloc: Global,
    store: &mut T,
    database: &Database,
    name: &Name,
    content: KeytabContent<'p>,
) -> Result<Vec<u8>, EarlyEnd<'p>>
    ensures holds { IfOk result (λ octets. IsNewKeytab
        (T.world store.old) content.entry database.now name.now octets.items) }
    ensures unchanged { T.world store.new ≡ T.world store.old }
{
    let versions = given_out(alloc, store, database, name, content)?;
    let entries = keytab_entries(alloc, database.realm(), name, &versions)?;
    Ok(Keytab::new(alloc, &entries)?.write(alloc)?)
}

/// Returns the versions whose keys the keytab gives out.
fn given_out<'p, T: Store>(
    alloc: Global,
    store: &mut T,
    database: &Database,
    name: &Name,
    content: KeytabContent<'p>,
) -> Result<Vec<KeyVersion>, EarlyEnd<'p>>
    ensures given { IfOk result (λ given. (row : rows.Row)
        × (finite.get database.now.rows name.now.components ≡ Some row)
        × AreGivenOut (T.world store.old) content.entry database.now.realm name.now.components
        row.versions given.items) }
    ensures unchanged { T.world store.new ≡ T.world store.old }
{
    let Some(row) = database.get(name) else {
        return Err(EarlyEnd::from(ChangeFault::Absent));
    };
    let current = row.versions.current();
    let mut versions = Vec::new(alloc);
    versions.push(current.copy(alloc)?)?;
    if let KeytabContent::Next { seed } = content {
        refuse_tgs(alloc, database, name, RealmEnd::Staged)?;
        versions.push(next_version(alloc, store, current, seed)?)?;
    }
    Ok(versions)
}

/// Draws the keys of the version that is to follow a current one: of the same types, in their order.
fn next_version<'p, T: Store>(
    alloc: Global,
    store: &mut T,
    current: &KeyVersion,
    seed: Option<&'p str>,
) -> Result<KeyVersion, EarlyEnd<'p>>
    ensures next { IfOk result (λ next. IsNextVersion (T.world store.old) (path_of seed.entry) current.now next) }
    ensures unchanged { T.world store.new ≡ T.world store.old }
{
    let Some(number) = current.number.checked_add(1) else {
        return Err(EarlyEnd::from(ChangeFault::LastVersion));
    };
    let etypes = etypes_of(alloc, &current.keys)?;
    let keys = random_keys(alloc, &etypes, read_or_draw_seed(alloc, store, seed)?)?;
    Ok(KeyVersion { number, keys })
}

/// Returns the encryption types of these keys.
fn etypes_of(alloc: Global, list: &KeyList) -> Result<Vec<Etype>, AllocError>
    ensures { IfOk result (λ etypes. etypes.items ≡ map (λ key. key.etype) list.now) }
{
    let mut etypes = Vec::new(alloc);
    let keys = list.keys();
    for key in keys {
        etypes.push(key.etype())?;
    }
    Ok(etypes)
}

/// Returns the keys of these versions, as entries of a keytab.
fn keytab_entries(
    alloc: Global,
    realm: &[u8],
    name: &Name,
    versions: &[KeyVersion],
) -> Result<Vec<KeytabEntry>, AllocError>
    ensures { IfOk result (λ entries. entries.items ≡ all_entries realm.now name.now versions.now) }
{
    let mut entries = Vec::new(alloc);
    for version in versions {
        push_entries(alloc, &mut entries, realm, name, version)?;
    }
    Ok(entries)
}

/// Adds the keys of a version.
fn push_entries(
    alloc: Global,
    entries: &mut Vec<KeytabEntry>,
    realm: &[u8],
    name: &Name,
    version: &KeyVersion,
) -> Result<(), AllocError>
    ensures { OnOk result (entries.new.items ≡ entries.old.items ++ entries_of realm.now name.now version.now) }
{
    let keys = version.keys.keys();
    for key in keys {
        entries.push(KeytabEntry {
            realm: KerberosString::from_slice(alloc, realm)?,
            name: name.copy(alloc)?,
            version: version.number,
            key: *key,
        })?;
    }
    Ok(())
}
