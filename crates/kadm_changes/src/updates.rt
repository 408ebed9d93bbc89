//! The commands that change a database. Each reads it once and writes it once.
ghost use Rattle.std.specs.Prelude.{◌≡◌, OnOk, OnErr};
ghost use Rattle.file_store.specs.Input.{no_input};
ghost use Rattle.kadm_changes.specs.Asking.{all_asked};
ghost use Rattle.kadm_changes.specs.Found.{IsFoundIn};
ghost use Rattle.kadm_changes.specs.Realm.{KeepsRealm, MayHaveKeys, tgs_policy};
ghost use Rattle.kadm_changes.specs.Updates.{AreKept, IsMigrated, IsRowChanged, IsRowGiven, IsRowKept, IsRowUpdated};
ghost use Rattle.kadm_changes.specs.Updates.{IsUpdated};
ghost use Rattle.kadm_changes.specs.Worlds.{Rewritten, Updated};

use crate::changes::{ChangeArgs, change_all, check_names, migrate_rows, set_all};
use crate::context::Context;
use crate::databases::{lock_database, read_database, write_database};
use crate::denying::is_user;
use crate::draft::Draft;
use crate::early_end::EarlyEnd;
use crate::granting::{Grant, RandomGrant, Recipient, expiring, give_password, give_random};
use crate::importing::import;
use crate::note::{Note, OldExpiry};
use crate::passwords::{FoundPassword, PasswordGrant, batch_password, new_password};
use crate::realm::{check_password, check_realm, report_realm, tgs_policy};
use crate::set_times::report_times;
use crate::staging::give_staged;
use crate::target::Target;
use file_store::{Store, Written, read_clock};
use krb_fields::Name;
use principals::Database;
use std::alloc::Global;
use std::io::Write;
use text_fields::is_past;

/// How a database is changed.
#[derive(Clone, Copy)]
pub enum Update<'a> {
    /// Gives one principal keys, or adds it with them.
    Row(RowArgs<'a>),
    /// Changes each principal that the command names, without new keys.
    Changes(ChangeArgs),
    /// Makes rows of an earlier version those of this one.
    Migrate { users_are_no_services: bool },
}

/// A principal that gets keys, and then the settings that the command asks for.
#[derive(Clone, Copy)]
pub struct RowArgs<'a> {
    /// The text of its name.
    pub name: &'a str,
    /// The keys that it gets.
    pub how: RowUpdate<'a>,
}

/// The keys that a principal gets.
#[derive(Clone, Copy)]
pub enum RowUpdate<'a> {
    /// Gives the principal the keys of a password.
    Password(PasswordGrant<'a>),
    /// Gives the principal random keys.
    Random(RandomGrant<'a>),
    /// Gives the principal the next version of its keys, which a keytab has beside the current one.
    Staged { keytab: &'a str },
    /// Adds the principal with keys from a keytab.
    Import { keytab: &'a str },
}

/// Changes the database.
pub fn make_update<'p, T: Store, W: Write, E: Write>(
    context: &mut Context<W, E>,
    store: &mut T,
    target: &Target<'p>,
    update: Update<'p>,
) -> Result<Written, EarlyEnd<'p>>
    // Promise: who changes a database reads it once and writes it once: the path then has the text of what the change
    // made of the database that was read.
    // Promise, as kadm_run of kadm: without `--whole-realm` no command ..
    // Promise, as kadm_run of kadm: without it, `krbtgt/R` is ..
    // Promise: without `--whole-realm` `krbtgt/R` gets no keys of a password.
    ensures done { OnOk result
        (Updated (T.world store.old) (T.input store.old) target.now update.entry (T.world store.new)) }
    // Promise: a command that ends early leaves every path as it was.
    ensures unchanged { OnErr result (T.world store.new ≡ T.world store.old) }
{
    match update {
        Update::Row(to) => update_row(context, store, target, &to),
        Update::Changes(how) => update_rows(context, store, target, how),
        Update::Migrate {
            users_are_no_services,
        } => migrate(context, store, target, users_are_no_services),
    }
}

/// Changes the row of a principal. It reads a password before it locks the database.
fn update_row<'p, T: Store, W: Write, E: Write>(
    context: &mut Context<W, E>,
    store: &mut T,
    target: &Target<'p>,
    to: &RowArgs<'p>,
) -> Result<Written, EarlyEnd<'p>>
    ensures done { OnOk result (Rewritten (T.world store.old) target.now.db.now
        (IsRowUpdated (T.world store.old) (T.input store.old) target.now.whole_realm target.now to.now)
        (T.world store.new)) }
    // Promise, as make_update: a command that ends ..
    ensures unchanged { OnErr result (T.world store.new ≡ T.world store.old) }
{
    let alloc = context.alloc;
    let who = Name::from_text(alloc, to.name)?;
    let pass = new_password(context, store, target, to)?;
    let locked = lock_database(context, store, target)?;
    let database = read_database(context, store, target.db)?;
    let mut draft = Draft { alloc, database };
    let expired = old_expiry(store, &draft.database, &who);
    let recipient = Recipient {
        who: &who,
        etypes: &target.etypes,
        pass: &pass,
    };
    keep_row(
        store,
        &mut draft,
        &recipient,
        &to.how,
        target,
        target.whole_realm,
    )?;
    let written = write_database(alloc, store, &locked, &draft.database)?;
    report_note(
        &mut context.errors,
        to.name,
        row_note(to, &who, &draft.database, expired),
    );
    Ok(written)
}

/// Reports what an administrator may not expect of a change that was made. Ignores a failed write.
fn report_note<E: Write>(errors: &mut E, name: &str, note: Option<Note>) {
    if let Some(note) = note {
        let _ = write!(errors, "kadm: ");
        let _ = note.write(errors, name);
    }
}

/// Changes each principal that the command names, without new keys.
fn update_rows<'p, T: Store, W: Write, E: Write>(
    context: &mut Context<W, E>,
    store: &mut T,
    target: &Target<'p>,
    how: ChangeArgs,
) -> Result<Written, EarlyEnd<'p>>
    ensures done { OnOk result (Rewritten (T.world store.old) target.now.db.now
        (AreKept (T.world store.old) target.now.whole_realm target.now how) (T.world store.new)) }
    // Promise, as make_update: a command that ends ..
    ensures unchanged { OnErr result (T.world store.new ≡ T.world store.old) }
{
    let alloc = context.alloc;
    check_names(alloc, &target.names)?;
    let locked = lock_database(context, store, target)?;
    let database = read_database(context, store, target.db)?;
    let mut draft = Draft { alloc, database };
    keep_all(store, &mut draft, target, how, target.whole_realm)?;
    let written = write_database(alloc, store, &locked, &draft.database)?;
    if target.whole_realm {
        report_realm(alloc, &mut context.errors, &draft.database);
    }
    report_times(alloc, &mut context.errors, &draft.database, target);
    Ok(written)
}

/// Writes the database in the current version of the format.
fn migrate<'p, T: Store, W: Write, E: Write>(
    context: &mut Context<W, E>,
    store: &mut T,
    target: &Target<'p>,
    users_are_no_services: bool,
) -> Result<Written, EarlyEnd<'p>>
    ensures done { OnOk result (Rewritten (T.world store.old) target.now.db.now
        (IsMigrated (T.world store.old) target.now.whole_realm users_are_no_services) (T.world store.new)) }
    // Promise, as make_update: a command that ends ..
    ensures unchanged { OnErr result (T.world store.new ≡ T.world store.old) }
{
    let alloc = context.alloc;
    let locked = lock_database(context, store, target)?;
    let database = read_database(context, store, target.db)?;
    let mut draft = Draft { alloc, database };
    keep_migrated(store, &mut draft, users_are_no_services, target.whole_realm)?;
    let written = write_database(alloc, store, &locked, &draft.database)?;
    Ok(written)
}

/// Makes the change for a line of a batch. `whole` allows one after which nobody can log in. Takes the password that
/// `find_password` found, or else reads its file. Returns a note on what the administrator may not expect.
pub fn update_in_batch<'p, T: Store>(
    store: &mut T,
    draft: &mut Draft,
    target: &Target<'p>,
    whole: bool,
    update: Update<'p>,
    found: Option<&FoundPassword>,
) -> Result<Option<Note>, EarlyEnd<'p>>
    requires found { IsFoundIn (T.world store.old) found }
    // Promise, as kadm_run of kadm: without `--whole-realm` no command ..
    // Promise, as kadm_run of kadm: without it, `krbtgt/R` is ..
    // Promise, as make_update: without `--whole-realm` `krbtgt/R` gets ..
    ensures done { OnOk result (IsUpdated (T.world store.old) no_input whole target.now update.entry
        draft.old.database draft.new.database) }
    // Promise, as lock_database: what a command reads, ..
    ensures unchanged { T.world store.new ≡ T.world store.old }
{
    match update {
        Update::Row(to) => row_in_batch(store, draft, target, whole, &to, found),
        Update::Changes(how) => {
            keep_all(store, draft, target, how, whole)?;
            Ok(None)
        }
        Update::Migrate {
            users_are_no_services,
        } => {
            keep_migrated(store, draft, users_are_no_services, whole)?;
            Ok(None)
        }
    }
}

/// Changes the row of a principal, for a line of a batch.
fn row_in_batch<'p, T: Store>(
    store: &mut T,
    draft: &mut Draft,
    target: &Target<'p>,
    whole: bool,
    to: &RowArgs<'p>,
    found: Option<&FoundPassword>,
) -> Result<Option<Note>, EarlyEnd<'p>>
    requires found { IsFoundIn (T.world store.old) found }
    ensures done { OnOk result (IsRowUpdated
        (T.world store.old) no_input whole target.now to.now draft.old.database draft.new.database) }
    ensures unchanged { T.world store.new ≡ T.world store.old }
{
    let who = Name::from_text(draft.alloc, to.name)?;
    let pass = batch_password(draft.alloc, store, &to.how, found)?;
    let expired = old_expiry(store, &draft.database, &who);
    let recipient = Recipient {
        who: &who,
        etypes: &target.etypes,
        pass: &pass,
    };
    keep_row(store, draft, &recipient, &to.how, target, whole)?;
    Ok(row_note(to, &who, &draft.database, expired))
}

/// Changes the row of a principal, and refuses what would end the whole realm, unless `whole` allows it. After an `Err`
/// the row may be changed.
fn keep_row<'p, T: Store>(
    store: &mut T,
    draft: &mut Draft,
    recipient: &Recipient<'_>,
    how: &RowUpdate<'p>,
    target: &Target<'p>,
    whole: bool,
) -> Result<(), EarlyEnd<'p>>
    ensures changed { OnOk result (IsRowKept (T.world store.old) whole recipient.now.etypes.now
        (all_asked target.now.settings.items) recipient.now.pass.now how.now recipient.now.who.now.components
        draft.old.database draft.new.database) }
    ensures unchanged { T.world store.new ≡ T.world store.old }
{
    let before = tgs_policy(&draft.database);
    change_row(store, draft, recipient, how, target)?;
    check_password(draft.alloc, &draft.database, whole, recipient.who, how)?;
    check_realm(
        draft.alloc,
        store,
        &draft.database,
        whole,
        before,
        &target.names,
    )
}

/// Changes each principal that the command names, and refuses what would end the whole realm.
fn keep_all<'p, T: Store>(
    store: &mut T,
    draft: &mut Draft,
    target: &Target<'p>,
    how: ChangeArgs,
    whole: bool,
) -> Result<(), EarlyEnd<'p>>
    ensures changed { OnOk result (AreKept (T.world store.old) whole target.now how
        draft.old.database draft.new.database) }
    ensures unchanged { T.world store.new ≡ T.world store.old }
{
    let before = tgs_policy(&draft.database);
    change_all(store, draft, target, how)?;
    check_realm(
        draft.alloc,
        store,
        &draft.database,
        whole,
        before,
        &target.names,
    )
}

/// Makes rows of an earlier version those of this one, and refuses what would end the whole realm.
fn keep_migrated<T: Store>(
    store: &mut T,
    draft: &mut Draft,
    users_are_no_services: bool,
    whole: bool,
) -> Result<(), EarlyEnd<'static>>
    ensures migrated { OnOk result (IsMigrated
        (T.world store.old) whole users_are_no_services draft.old.database draft.new.database) }
    ensures unchanged { T.world store.new ≡ T.world store.old }
{
    let before = tgs_policy(&draft.database);
    migrate_rows(draft, users_are_no_services)?;
    check_realm(draft.alloc, store, &draft.database, whole, before, &[])
}

/// Gives keys to a principal, and then makes the settings that the command asks for. After an `Err` it may be changed
/// in part.
fn change_row<'p, T: Store>(
    store: &mut T,
    draft: &mut Draft,
    recipient: &Recipient<'_>,
    how: &RowUpdate<'p>,
    target: &Target<'p>,
) -> Result<(), EarlyEnd<'p>>
    ensures changed { OnOk result (IsRowChanged (T.world store.old) recipient.now.etypes.now
        (all_asked target.now.settings.items) recipient.now.pass.now how.now recipient.now.who.now.components
        draft.old.database draft.new.database) }
    ensures unchanged { T.world store.new ≡ T.world store.old }
{
    give_row(store, draft, recipient, how)?;
    set_all(store, draft, recipient.who, target)
}

/// Gives keys to a principal. After an `Err` it may be changed in part.
fn give_row<'p, T: Store>(
    store: &mut T,
    draft: &mut Draft,
    recipient: &Recipient<'_>,
    how: &RowUpdate<'p>,
) -> Result<(), EarlyEnd<'p>>
    ensures given { OnOk result (IsRowGiven (T.world store.old) recipient.now.etypes.now recipient.now.pass.now how.now
        recipient.now.who.now.components
        draft.old.database draft.new.database) }
    ensures unchanged { T.world store.new ≡ T.world store.old }
{
    match how {
        RowUpdate::Password(to) => give_password(store, draft, recipient, to.grant),
        RowUpdate::Random(to) => give_random(store, draft, recipient, *to),
        RowUpdate::Staged { keytab } => give_staged(store, draft, recipient.who, *keytab),
        RowUpdate::Import { keytab } => import(store, draft, recipient, *keytab),
    }
}

/// Returns when the password of a principal expires, if it does. If the clock fails, that is not past.
fn old_expiry<T: Store>(store: &mut T, database: &Database, who: &Name) -> Option<OldExpiry>
    ensures unchanged { T.world store.new ≡ T.world store.old }
{
    let Some((_, at)) = expiring(database, who) else {
        return None;
    };
    let is_past = match read_clock(store) {
        Ok(now) => is_past(at, now),
        Err(_) => false,
    };
    Some(OldExpiry { at, is_past })
}

/// Returns what an administrator may not expect of a change of a row. `expired` is when the old password expires.
fn row_note(
    to: &RowArgs<'_>,
    who: &Name,
    database: &Database,
    expired: Option<OldExpiry>,
) -> Option<Note> {
    match &to.how {
        RowUpdate::Password(_) => password_note(who, database, expired),
        RowUpdate::Random(random) => random_note(random.grant, who, database),
        RowUpdate::Staged { keytab: _ } => random_note(Grant::Next, who, database),
        RowUpdate::Import { keytab: _ } => None,
    }
}

/// Returns what is to be said of a principal that got the keys of a password.
fn password_note(who: &Name, database: &Database, expired: Option<OldExpiry>) -> Option<Note> {
    let cleared = match expiring(database, who) {
        Some(_) => None,
        None => expired,
    };
    let guessable = database.get(who)?.policy.service;
    if cleared.is_none() && !guessable {
        return None;
    }
    Some(Note::Password { cleared, guessable })
}

/// Returns the note on a principal that got random keys. `add` needs none.
fn random_note(grant: Grant, who: &Name, database: &Database) -> Option<Note> {
    let version = database.get(who)?.versions.current().number;
    match grant {
        Grant::New | Grant::NewUser => None,
        _ if version == 1 => Some(Note::Added {
            is_user: is_user(who),
        }),
        Grant::Replace => Some(Note::Replaced { version }),
        Grant::Next | Grant::Either => Some(Note::Renewed { version }),
    }
}
