//! The command that adds a principal with its keys from a keytab, in all their versions.
ghost use Rattle.std.specs.Prelude.{◌≡◌, ◌∷◌, IfOk, OnOk};
ghost use Rattle.kadm_changes.specs.Importing.{HasVersions, Imports};
ghost use Rattle.kadm_changes.specs.Updates.{IsImported};

use crate::draft::Draft;
use crate::early_end::EarlyEnd;
use crate::granting::Recipient;
use crate::reason::Part;
use cred_files::Keytab;
use file_store::{Store, read_file};
use krb_fields::Name;
use principal_keys::{KeytabKeys, keytab_versions};
use principal_rows::Versions;
use principals::ChangeFault;

/// Adds a principal with its keys from a keytab.
pub(crate) fn import<'p, T: Store>(
    store: &mut T,
    draft: &mut Draft,
    to: &Recipient<'_>,
    keytab: &'p str,
) -> Result<(), EarlyEnd<'p>>
    // Promise: `import` adds a principal that is not there, with the keys that the keytab has of it in the database's
    // realm, of the types asked for.
    // Promise: an imported principal has every version that has such a key, with its number.
    ensures imported { OnOk result (IsImported
        (T.world store.old) to.now.etypes.now keytab.now to.now.who.now.components
        draft.old.database draft.new.database) }
    // Promise, as lock_database: what a command reads, ..
    ensures unchanged { T.world store.new ≡ T.world store.old }
{
    match read_versions(store, draft, to, keytab) {
        Ok(versions) => Ok(add_imported(draft, to.who, versions)?),
        Err(stop) => Err(stop.about(Part::Keytab, keytab)),
    }
}

/// Adds a principal with these versions of its keys.
#[tactic(auto, using(crate::proofs::Doing::imports_by))]
fn add_imported(draft: &mut Draft, who: &Name, versions: Versions) -> Result<(), ChangeFault>
    ensures { OnOk result (Imports draft.old.database who.now.components versions draft.new.database) }
{
    draft.database.import(draft.alloc, who, versions)
}

/// Reads a principal's keys with these types from the keytab at a path.
fn read_versions<'p, T: Store>(
    store: &mut T,
    draft: &Draft,
    to: &Recipient<'_>,
    path: &'p str,
) -> Result<Versions, EarlyEnd<'p>>
    ensures read { IfOk result (λ versions. HasVersions (T.world store.old) path.now
        (draft.now.database.realm ∷ to.now.who.now.components) to.now.etypes.now versions) }
    ensures unchanged { T.world store.new ≡ T.world store.old }
{
    let octets = read_file(draft.alloc, store, path)?;
    let keytab = Keytab::read(draft.alloc, &octets)?;
    let keys = KeytabKeys {
        keytab: &keytab,
        realm: draft.database.realm(),
        who: to.who,
    };
    Ok(keytab_versions(draft.alloc, &keys, to.etypes)?)
}
