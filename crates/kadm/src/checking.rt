//! The command that says whether a file is a database.
ghost use Rattle.std.specs.Prelude.{◌≡◌, OnOk};
ghost use Rattle.kadm.specs.Printed.{HasDatabase};

use crate::linting::print_findings_of;
use file_store::{Store, read_at_most};
use kadm_changes::{Context, EarlyEnd, read_database};
use krb_fields::component_to_text;
use principals_text::LONGEST_TEXT;
use serde_json::Value;
use std::alloc::{AllocError, Global};
use std::io::Write;
use std::str;
use text_fields::NEWEST_VERSION;

/// The end of a text that `kadm` has written. The last brace closes the database, so the version is its member.
const NEWEST_END: &str = "\"version\":3}";

/// Prints `realm REALM`, `rows COUNT` and `version NUMBER`, and then the lines of `lint`. A file that is no database is
/// refused.
pub(crate) fn print_check<'p, T: Store, W: Write, E: Write>(
    context: &mut Context<W, E>,
    store: &mut T,
    db: &'p str,
) -> Result<(), EarlyEnd<'p>>
    ensures read { OnOk result (HasDatabase (T.world store.old) db.now) }
    ensures unchanged { T.world store.new ≡ T.world store.old }
{
    let database = read_database(context, store, db)?;
    let octets = read_at_most(context.alloc, store, db, LONGEST_TEXT)?;
    let realm = component_to_text(context.alloc, database.realm())?;
    writeln!(context.out, "realm {realm}")?;
    writeln!(context.out, "rows {}", database.len())?;
    if let Some(version) = version_of(context.alloc, &octets)? {
        writeln!(context.out, "version {version}")?;
    }
    print_findings_of(context, store, db, &database, false)?;
    Ok(())
}

/// Returns the version of a database's text.
fn version_of(alloc: Global, octets: &[u8]) -> Result<Option<u64>, AllocError> {
    let Ok(text) = str::from_utf8(octets) else {
        return Ok(None);
    };
    if text.ends_with(NEWEST_END) {
        return Ok(Some(NEWEST_VERSION));
    }
    match Value::from_str(alloc, text) {
        Ok(value) => Ok(version_in(&value)),
        Err(error) if error.is_memory() => Err(AllocError),
        Err(_) => Ok(None),
    }
}

fn version_in(value: &Value) -> Option<u64> {
    value.get("version")?.as_u64()
}
