//! A new database, and changes of one without new keys.
ghost use Rattle.std.specs.Prelude.{◌≡◌, ◌≤ℤ◌, IfOk, IfSome, IsFalse, OnOk, OnErr, pos};
ghost use Rattle.kadm_changes.specs.Asking.{IsFrom, IsTimely, all_asked, asked_of, expiry};
ghost use Rattle.principals.specs.declared.change.RowChange.TheVariants as row_changes;
ghost use Rattle.kadm_changes.specs.Changing.{AreChanged, AreSet, IsChanged, IsNamedChanged};
ghost use Rattle.kadm_changes.specs.Denying.{migrated_rows};
ghost use Rattle.kadm_changes.specs.Granting.{IsPolicySet, IsValueOf, Makes};
ghost use Rattle.kadm_changes.specs.Texts.{path_of, texts};
ghost use Rattle.kadm_changes.specs.Worlds.{MadeNew, MadeRealm};

use crate::asking::AskedSetting;
use crate::context::Context;
use crate::databases::{apply, lock_database, write_database};
use crate::denying::deny_users;
use crate::draft::Draft;
use crate::early_end::{EarlyEnd, of_realm};
use crate::granting::drop_older;
use crate::reason::{CommandRefusal, Part};
use crate::target::Target;
use file_store::{Store, Written, has_file, read_clock, read_or_draw_seed};
use krb_elements::KerberosString;
use krb_fields::{Name, Second, component_from_text};
use principal_keys::random_keys;
use principals::{ChangeFault, Database, RowChange};
use std::alloc::Global;
use std::io::Write;
use text_fields::{Setting, TimeField, parse_setting, setting_from};

/// What a new realm is made from.
#[derive(Clone, Copy)]
pub struct InitArgs<'a> {
    /// The text of the realm's name.
    pub realm: &'a str,
    /// The path of the file with the seed of its keys, or `None` to draw a seed from the system.
    pub seed: Option<&'a str>,
}

/// How a principal is changed; it gets no new keys.
#[derive(Clone, Copy)]
pub enum ChangeArgs {
    /// Drops the keys of a version.
    Drop { version: u32 },
    /// Drops all versions but the current one.
    DropOlder,
    /// Makes the settings that the command asks for.
    Policy,
    /// Removes it.
    Remove,
}

/// Makes the database of a new realm.
pub fn make_realm<'p, T: Store, W: Write, E: Write>(
    context: &mut Context<W, E>,
    store: &mut T,
    target: &Target<'p>,
    new: InitArgs<'p>,
) -> Result<Written, EarlyEnd<'p>>
    // Promise: `init`: there was no file, and now there is the first database of the realm, with keys of the seed.
    ensures done { OnOk result (MadeRealm (T.world store.old) target.now.db.now target.now.etypes.items
        new.entry.realm.now
        (path_of new.entry.seed) (T.world store.new)) }
    // Promise, as make_update: a command that ends ..
    ensures unchanged { OnErr result (T.world store.new ≡ T.world store.old) }
{
    match component_from_text(context.alloc, new.realm) {
        Ok(realm) => make_new_realm(context, store, target, &realm, new.seed),
        Err(fault) => Err(of_realm(fault)),
    }
}

fn make_new_realm<'p, T: Store, W: Write, E: Write>(
    context: &mut Context<W, E>,
    store: &mut T,
    target: &Target<'p>,
    realm: &KerberosString,
    seed: Option<&'p str>,
) -> Result<Written, EarlyEnd<'p>>
    ensures done { OnOk result (MadeNew (T.world store.old) target.now.db.now target.now.etypes.items realm.now
        (path_of seed.entry) (T.world store.new)) }
    ensures unchanged { OnErr result (T.world store.new ≡ T.world store.old) }
{
    let alloc = context.alloc;
    let locked = lock_database(context, store, target)?;
    if has_file(store, target.db)? {
        return Err(EarlyEnd::refused(Part::Database, CommandRefusal::FileExists));
    }
    let keys = random_keys(
        alloc,
        &target.etypes,
        read_or_draw_seed(alloc, store, seed)?,
    )?;
    match Database::first(alloc, realm.as_slice(), keys) {
        Ok(database) => write_database(alloc, store, &locked, &database),
        Err(fault) => Err(of_realm(fault)),
    }
}

/// Fails if one of the texts is not the name of a principal.
pub(crate) fn check_names<'p>(alloc: Global, names: &[&'p str]) -> Result<(), EarlyEnd<'p>> {
    for name in names {
        if let Err(fault) = Name::from_text(alloc, name) {
            return Err(EarlyEnd::from(fault).about(Part::Name, name));
        }
    }
    Ok(())
}

/// Changes each principal that the command names, without new keys. After an `Err` some may have been changed.
pub(crate) fn change_all<'p, T: Store>(
    store: &mut T,
    draft: &mut Draft,
    target: &Target<'p>,
    how: ChangeArgs,
) -> Result<(), EarlyEnd<'p>>
    // Promise: `drop`, `policy`, `remove`: of each principal that the command names, in their order, what `principals`
    // makes of the database that was read.
    ensures changed { OnOk result (AreChanged (T.world store.old) (all_asked target.now.settings.items) how
        (texts target.now.names.items) draft.old.database draft.new.database) }
    // Promise, as lock_database: what a command reads, ..
    ensures unchanged { T.world store.new ≡ T.world store.old }
{
    let mut rest = target.names.as_slice();
    while let [name, others @ ..] = rest {
        change_named(store, draft, target, how, name)?;
        rest = others;
    }
    Ok(())
}

/// Changes the principal that a text names. A refusal names it.
fn change_named<'p, T: Store>(
    store: &mut T,
    draft: &mut Draft,
    target: &Target<'p>,
    how: ChangeArgs,
    name: &'p str,
) -> Result<(), EarlyEnd<'p>>
    ensures changed { OnOk result (IsNamedChanged (T.world store.old)
        (all_asked target.now.settings.items) how name.entry.now
        draft.old.database draft.new.database) }
    ensures unchanged { T.world store.new ≡ T.world store.old }
{
    match change_text(store, draft, target, how, name) {
        Ok(()) => Ok(()),
        Err(stop) => Err(stop.about(Part::Name, name)),
    }
}

/// Changes the principal that a text names.
fn change_text<'p, T: Store>(
    store: &mut T,
    draft: &mut Draft,
    target: &Target<'p>,
    how: ChangeArgs,
    name: &str,
) -> Result<(), EarlyEnd<'p>>
    ensures changed { OnOk result (IsNamedChanged (T.world store.old) (all_asked target.now.settings.items) how name.now
        draft.old.database draft.new.database) }
    ensures unchanged { T.world store.new ≡ T.world store.old }
{
    let who = Name::from_text(draft.alloc, name)?;
    change(store, draft, &who, target, how)
}

/// Changes the row of a principal, without new keys.
fn change<'p, T: Store>(
    store: &mut T,
    draft: &mut Draft,
    who: &Name,
    target: &Target<'p>,
    how: ChangeArgs,
) -> Result<(), EarlyEnd<'p>>
    ensures changed { OnOk result (IsChanged (T.world store.old)
        (all_asked target.now.settings.items) how who.now.components
        draft.old.database draft.new.database) }
    ensures unchanged { T.world store.new ≡ T.world store.old }
{
    match how {
        ChangeArgs::Drop { version } => drop_keys(draft, who, version),
        ChangeArgs::DropOlder => Ok(drop_older(draft, who)?),
        ChangeArgs::Policy => set_all(store, draft, who, target),
        ChangeArgs::Remove => Ok(apply(draft, who, RowChange::Remove)?),
    }
}

/// Makes the settings that the command asks for, in their order. After an `Err` some may have been made.
pub(crate) fn set_all<'p, T: Store>(
    store: &mut T,
    draft: &mut Draft,
    who: &Name,
    target: &Target<'p>,
) -> Result<(), EarlyEnd<'p>>
    // Promise: all settings that a command has are made, in their order, after `add` too; a policy's field has the
    // value that its text spells.
    // Promise: a time span such as `7d` of a time counts from the second that the clock showed.
    // Promise: where a time must not be past (by `--set` and `--expires` without `--past`), nothing expires before the
    // second that the clock showed.
    ensures set { OnOk result (AreSet (T.world store.old) (all_asked target.now.settings.items) who.now.components
        draft.old.database draft.new.database) }
    // Promise, as lock_database: what a command reads, ..
    ensures unchanged { T.world store.new ≡ T.world store.old }
{
    let mut rest = target.settings.as_slice();
    while let [setting, others @ ..] = rest {
        set_policy(store, draft, who, *setting)?;
        rest = others;
    }
    Ok(())
}

/// Drops the keys of an old version.
fn drop_keys(draft: &mut Draft, who: &Name, version: u32) -> Result<(), EarlyEnd<'static>>
    ensures { OnOk result (Makes draft.old.database who.now.components
        (row_changes.DropKeys version) draft.new.database) }
{
    if lacks_version(&draft.database, who, version) {
        return Err(EarlyEnd::refused(Part::Name, CommandRefusal::NoVersion));
    }
    Ok(apply(draft, who, RowChange::DropKeys(version))?)
}

/// Checks whether the principal exists, but has no such version.
fn lacks_version(database: &Database, who: &Name, version: u32) -> bool {
    match database.get(who) {
        Some(row) => row.versions.find(version).is_none(),
        None => false,
    }
}

/// Sets a field of a principal's policy.
fn set_policy<'p, T: Store>(
    store: &mut T,
    draft: &mut Draft,
    who: &Name,
    asked: AskedSetting<'p>,
) -> Result<(), EarlyEnd<'p>>
    ensures changed { OnOk result (IsPolicySet (T.world store.old) (asked_of asked.entry) who.now.components
        draft.old.database draft.new.database) }
    ensures unchanged { T.world store.new ≡ T.world store.old }
{
    let Some(row) = draft.database.get(who) else {
        return Err(EarlyEnd::from(ChangeFault::Absent));
    };
    let policy = row.policy;
    let setting = setting(store, asked)?;
    check_time(store, asked, setting)?;
    let policy = setting.on(policy);
    Ok(apply(draft, who, RowChange::SetPolicy(policy))?)
}

/// Returns a field with its value. It reads the clock if the value is a time from now.
fn setting<'p, T: Store>(store: &mut T, asked: AskedSetting<'p>) -> Result<Setting, EarlyEnd<'p>>
    ensures setting { IfOk result (λ setting. IsValueOf
        (T.world store.old) setting asked.entry.field.now asked.entry.value.now) }
    ensures unchanged { T.world store.new ≡ T.world store.old }
{
    if let Some(setting) = parse_setting(asked.field, asked.value) {
        return Ok(setting);
    }
    match setting_from(asked.field, asked.value, read_clock(store)?) {
        Some(setting) => Ok(setting),
        None => Err(EarlyEnd::refused_value(
            Part::Setting(asked.form),
            asked.value,
            CommandRefusal::BadTime,
        )),
    }
}

/// Refuses a time that is past, where one ahead is asked for.
fn check_time<'p, T: Store>(
    store: &mut T,
    asked: AskedSetting<'p>,
    setting: Setting,
) -> Result<(), EarlyEnd<'p>>
    ensures timely { OnOk result (IsTimely asked.entry.ahead (T.world store.old) setting) }
    ensures unchanged { T.world store.new ≡ T.world store.old }
{
    if !asked.ahead {
        return Ok(());
    }
    if is_before_now(store, expiry(setting))? {
        return Err(EarlyEnd::refused_value(
            Part::Setting(asked.form),
            asked.value,
            CommandRefusal::Past,
        ));
    }
    Ok(())
}

/// Returns when the principal or its password expires by a setting.
fn expiry(setting: Setting) -> Option<Second>
    ensures { result ≡ expiry setting }
{
    match setting {
        Setting::Time(TimeField::Expires, time) => time,
        Setting::Time(TimeField::PasswordExpires, time) => time,
        _ => None,
    }
}

/// Checks whether a time, if there is one, comes before the clock's second.
#[tactic(auto, using(crate::proofs::Realms::never_before, crate::proofs::Realms::from_now))]
fn is_before_now<T: Store>(
    store: &mut T,
    expires: Option<Second>,
) -> Result<bool, EarlyEnd<'static>>
    ensures ahead { IfOk result (λ past. IsFalse past → IfSome (T.world store.old) (λ held. IsFrom held.now expires)) }
    ensures unchanged { T.world store.new ≡ T.world store.old }
{
    match expires {
        Some(expires) => Ok(is_before(expires, read_clock(store)?)),
        None => Ok(false),
    }
}

/// Checks whether a second comes before another one.
fn is_before(expires: Second, now: u64) -> bool
    ensures ahead { IsFalse result → pos now ≤ℤ expires }
{
    match u64::try_from(expires.get()) {
        Ok(expires) => expires < now,
        Err(_) => true,
    }
}

/// Sets what older versions of the format lack: whether tickets for users are allowed.
pub(crate) fn migrate_rows(
    draft: &mut Draft,
    users_are_no_services: bool,
) -> Result<(), ChangeFault>
    // Promise: `migrate`: the same database in the newest version, and with `--users-are-no-services` tickets are
    // denied for each name of one component.
    ensures { OnOk result (draft.new.database ≡ migrated_rows users_are_no_services draft.old.database) }
{
    if users_are_no_services {
        deny_users(draft)
    } else {
        Ok(())
    }
}
