//! The command that puts a database from another file in place: a backup, or what another host has sent.
ghost use Rattle.std.specs.Prelude.{◌≡◌, ◌≢◌, IfOk, OnErr, OnOk, bytes_eq, true};
ghost use Rattle.kadm_changes.specs.Realm.{KeepsRealm, tgs_policy};
ghost use Rattle.kadm_changes.specs.Restoring.{HasOrNot, IsOfRealm, Restored, replaced_policy};
ghost use Rattle.kadm_changes.specs.Worlds.{HoldsDatabase};

use crate::context::Context;
use crate::databases::{lock_database, read_database, write_database};
use crate::early_end::EarlyEnd;
use crate::realm::{realm_end, report_realm, tgs_policy};
use crate::reason::{CommandRefusal, Part};
use crate::target::Target;
use file_store::{Store, Written, has_file, read_at_most};
use principal_rows::Policy;
use principals::Database;
use principals_text::{LONGEST_TEXT, ReadError, read_bytes};
use std::alloc::{AllocError, Global};
use std::io::Write;

/// Puts the database of the file `from` in place, in the current version of the text. If the database that it replaces
/// can be read, it must be of the same realm and must not keep out everybody whom that one lets in.
pub fn restore<'p, T: Store, W: Write, E: Write>(
    context: &mut Context<W, E>,
    store: &mut T,
    target: &Target<'p>,
    from: &'p str,
) -> Result<Written, EarlyEnd<'p>>
    // Promise: `restore`: the path then has the database that the other file has, which is of the realm of the one
    // that was there, if there was one.
    // Promise, as kadm_run of kadm: without `--whole-realm` no command ..
    ensures done { OnOk result (Restored (T.world store.old) target.now.whole_realm target.now.db.now from.now
        (T.world store.new)) }
    // Promise, as make_update: a command that ends ..
    ensures unchanged { OnErr result (T.world store.new ≡ T.world store.old) }
{
    let alloc = context.alloc;
    let database = read_from(context, store, from)?;
    let locked = lock_database(context, store, target)?;
    let old = read_replaced(alloc, store, target.db)?;
    check_same_realm(&old, &database, from)?;
    check_open(store, &old, &database, from, target.whole_realm)?;
    let written = write_database(alloc, store, &locked, &database)?;
    if target.whole_realm {
        report_realm(alloc, &mut context.errors, &database);
    }
    Ok(written)
}

/// Reads the database to put in place. A refusal names its file.
fn read_from<'p, T: Store, W: Write, E: Write>(
    context: &mut Context<W, E>,
    store: &mut T,
    from: &'p str,
) -> Result<Database, EarlyEnd<'p>>
    ensures read { IfOk result (λ database. HoldsDatabase (T.world store.old) from.now database) }
    ensures unchanged { T.world store.new ≡ T.world store.old }
{
    match read_database(context, store, from) {
        Ok(database) => Ok(database),
        Err(stop) => Err(stop.about(Part::Database, from)),
    }
}

/// Reads the database that is to be replaced. `None` if there is no file, or if its text is no database: a restore then
/// mends it.
fn read_replaced<'p, T: Store>(
    alloc: Global,
    store: &mut T,
    db: &'p str,
) -> Result<Option<Database>, EarlyEnd<'p>>
    ensures there { IfOk result (λ old. HasOrNot (T.world store.old) db.now old) }
    ensures unchanged { T.world store.new ≡ T.world store.old }
{
    if !has_file(store, db)? {
        return Ok(None);
    }
    let octets = read_at_most(alloc, store, db, LONGEST_TEXT)?;
    match read_bytes(alloc, &octets) {
        Ok(database) => Ok(Some(database)),
        Err(fault) => {
            let cause = fault.cause;
            check_memory(cause)?;
            Ok(None)
        }
    }
}

/// Fails if a text was not read because memory ran out.
fn check_memory(cause: ReadError) -> Result<(), EarlyEnd<'static>>
    ensures { OnOk result (cause ≢ ReadError.Memory) }
{
    match cause {
        ReadError::Memory => Err(EarlyEnd::from(AllocError)),
        ReadError::NotJson => Ok(()),
        ReadError::BadVersion => Ok(()),
        ReadError::BadRow => Ok(()),
        ReadError::NoTicketGranter => Ok(()),
    }
}

/// Refuses a database of another realm than the one that it replaces.
fn check_same_realm<'p>(
    old: &Option<Database>,
    new: &Database,
    from: &'p str,
) -> Result<(), EarlyEnd<'p>>
    ensures { OnOk result (IsOfRealm old.now new.now) }
{
    match old {
        Some(old) => check_realm_of(old, new, from),
        None => Ok(()),
    }
}

fn check_realm_of<'p>(old: &Database, new: &Database, from: &'p str) -> Result<(), EarlyEnd<'p>>
    ensures { OnOk result (bytes_eq new.now.realm old.now.realm ≡ true) }
{
    if has_realm(new, old.realm()) {
        return Ok(());
    }
    Err(EarlyEnd::refused_value(Part::Database, from, CommandRefusal::OtherRealm))
}

/// Checks whether a database is of this realm.
fn has_realm(database: &Database, realm: &[u8]) -> bool
    ensures { result ≡ bytes_eq database.now.realm realm.now }
{
    database.realm() == realm
}

/// Refuses a database in which nobody can log in, unless nobody could in the one that it replaces. `whole` allows it.
fn check_open<'p, T: Store>(
    store: &mut T,
    old: &Option<Database>,
    new: &Database,
    from: &'p str,
    whole: bool,
) -> Result<(), EarlyEnd<'p>>
    ensures kept { OnOk result (KeepsRealm whole (T.world store.old) (replaced_policy old.now) (tgs_policy new.now)) }
    ensures unchanged { T.world store.new ≡ T.world store.old }
{
    if whole {
        return Ok(());
    }
    let end = realm_end(store, policy_of(old), tgs_policy(new))?;
    match end {
        Some(_) => Err(EarlyEnd::refused_value(Part::Database, from, CommandRefusal::EndedRealm)),
        None => Ok(()),
    }
}

/// Returns the policy of `krbtgt/REALM` that a database replaces; without one it is that of a new realm.
fn policy_of(old: &Option<Database>) -> Policy
    ensures { result ≡ replaced_policy old.now }
{
    match old {
        Some(database) => tgs_policy(database),
        None => Policy::default(),
    }
}
