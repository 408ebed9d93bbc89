//! Keeps a change from ending a whole realm: what every login needs of `krbtgt/REALM`.
ghost use Rattle.std.specs.Prelude.{◌≡◌, ◌&&◌, ◌<◌, ◌↔◌, not, IfNone, IfOk, IfSome, IsFalse, IsTrue, OnOk, false, true};
ghost use Rattle.krb_fields.specs.Granting.{tgs_principal};
ghost use Rattle.kadm_changes.specs.Realm.{IsAhead, IsAsOpen, IsGone, IsOther, KeepsRealm, MayHaveKeys};
ghost use Rattle.kadm_changes.specs.Realm.{MayHavePassword, tgs_policy};

use crate::early_end::EarlyEnd;
use crate::reason::{CommandRefusal, Part, RealmEnd};
use crate::updates::RowUpdate;
use file_store::{Store, read_clock};
use krb_fields::{Name, Second, component_to_text, tgs_name};
use principal_rows::Policy;
use principals::Database;
use std::alloc::{AllocError, Global};
use std::io::Write;
use text_fields::{UtcDate, is_past};

/// The least `greatest_life` of `krbtgt/REALM`, in seconds: clients refuse tickets that end before their clock, which
/// may be five minutes fast.
const LEAST_LIFE: u32 = 300;

/// Returns the policy of `krbtgt/REALM`.
pub(crate) fn tgs_policy(database: &Database) -> Policy
    ensures { result ≡ tgs_policy database.now }
{
    match database.tgs() {
        Some(row) => row.policy,
        // each database has this row
        None => Policy::default(),
    }
}

/// Refuses a changed database in which the policy of `krbtgt/REALM` keeps everybody from logging in, and did not
/// before; `whole` allows that. The refusal names the principal as the command does.
pub(crate) fn check_realm<'p, T: Store>(
    alloc: Global,
    store: &mut T,
    database: &Database,
    whole: bool,
    before: Policy,
    names: &[&'p str],
) -> Result<(), EarlyEnd<'p>>
    ensures kept { OnOk result (KeepsRealm whole (T.world store.old) before (tgs_policy database.now)) }
    ensures unchanged { T.world store.new ≡ T.world store.old }
{
    if whole {
        return Ok(());
    }
    let end = realm_end(store, before, tgs_policy(database))?;
    match end {
        Some(end) => Err(protected(alloc, database, names, end)),
        None => Ok(()),
    }
}

/// Returns how the second policy of `krbtgt/REALM` keeps everybody from logging in, where the first did not.
#[tactic(auto, using(crate::proofs::Realms::open_by))]
pub(crate) fn realm_end<T: Store>(
    store: &mut T,
    old: Policy,
    new: Policy,
) -> Result<Option<RealmEnd>, EarlyEnd<'static>>
    ensures open { IfOk result (λ end. IfNone end (IfSome (T.world store.old) (λ held. IsAsOpen held.now old new))) }
    ensures unchanged { T.world store.new ≡ T.world store.old }
{
    if is_lost(old.service, new.service) {
        return Ok(Some(RealmEnd::Denied));
    }
    if is_set(old.disabled, new.disabled) {
        return Ok(Some(RealmEnd::Disabled));
    }
    if is_short(old.greatest_life, new.greatest_life) {
        return Ok(Some(RealmEnd::Short));
    }
    if has_gone(store, old.expires, new.expires)? {
        return Ok(Some(RealmEnd::Expired));
    }
    Ok(None)
}

/// Checks whether a flag was true and is not.
fn is_lost(old: bool, new: bool) -> bool
    ensures { IsFalse result → new ≡ false → old ≡ false }
{
    old && !new
}

/// Checks whether a flag is true and was not.
fn is_set(old: bool, new: bool) -> bool
    ensures { IsFalse result → new ≡ true → old ≡ true }
{
    !old && new
}

/// Checks whether tickets are limited to less than 300 seconds, and were not.
fn is_short(old: u32, new: u32) -> bool
    ensures { IsFalse result → new < 300 → old < 300 }
{
    old >= LEAST_LIFE && new < LEAST_LIFE
}

/// Checks whether the second time is past, and the first was not. Reads the clock if there is a second time.
#[tactic(auto, using(crate::proofs::Realms::never_gone))]
fn has_gone<T: Store>(
    store: &mut T,
    old: Option<Second>,
    new: Option<Second>,
) -> Result<bool, EarlyEnd<'static>>
    ensures lasting { IfOk result (λ gone. IsFalse gone → IfSome (T.world store.old) (λ held.
        IsGone held.now new → IsGone held.now old)) }
    ensures unchanged { T.world store.new ≡ T.world store.old }
{
    let Some(expires) = new else {
        return Ok(false);
    };
    let now = read_clock(store)?;
    Ok(is_first(is_past(expires, now), is_gone(old, now)))
}

/// Checks whether the one is true and the other is not.
fn is_first(one: bool, other: bool) -> bool
    ensures { result ≡ (one && not other) }
{
    one && !other
}

/// Checks whether a time is past, or is this second.
fn is_gone(expires: Option<Second>, now: u64) -> bool
    ensures gone { IsTrue result → IsGone now expires }
    ensures ahead { IsFalse result → IsAhead now expires }
{
    match expires {
        Some(expires) => is_past(expires, now),
        None => false,
    }
}

/// Refuses keys of a password for `krbtgt/REALM`: anyone can try passwords on a ticket-granting ticket, and each client
/// gets one. `whole` allows that.
pub(crate) fn check_password(
    alloc: Global,
    database: &Database,
    whole: bool,
    who: &Name,
    how: &RowUpdate<'_>,
) -> Result<(), EarlyEnd<'static>>
    ensures { OnOk result (MayHaveKeys whole database.now.realm who.now.components how.now) }
{
    match how {
        RowUpdate::Password(_) => check_guess(alloc, database, whole, who),
        RowUpdate::Random(_) => Ok(()),
        RowUpdate::Staged { keytab: _ } => Ok(()),
        RowUpdate::Import { keytab: _ } => Ok(()),
    }
}

fn check_guess(
    alloc: Global,
    database: &Database,
    whole: bool,
    who: &Name,
) -> Result<(), EarlyEnd<'static>>
    ensures { OnOk result (MayHavePassword whole database.now.realm who.now.components) }
{
    if whole {
        return Ok(());
    }
    refuse_tgs(alloc, database, who, RealmEnd::Guessable)
}

/// Refuses the principal `krbtgt/REALM`, for this reason.
#[tactic(auto, unfolding(crate::specs::Realm::IsOther))]
pub(crate) fn refuse_tgs(
    alloc: Global,
    database: &Database,
    who: &Name,
    end: RealmEnd,
) -> Result<(), EarlyEnd<'static>>
    ensures { OnOk result (IsOther database.now.realm who.now.components) }
{
    if is_tgs(alloc, database, who)? {
        return Err(EarlyEnd::refused(Part::Name, CommandRefusal::EndsRealm(end)));
    }
    Ok(())
}

/// Checks whether a name is that of the realm's ticket-granting service.
pub(crate) fn is_tgs(alloc: Global, database: &Database, who: &Name) -> Result<bool, AllocError>
    ensures { IfOk result (λ is. IsTrue is ↔ (who.now.components ≡ tgs_principal database.now.realm)) }
{
    let tgs = tgs_name(alloc, database.realm())?;
    Ok(who.is_same(&tgs))
}

/// Returns the refusal of the end of a realm. It names `krbtgt/REALM` as the command does.
fn protected<'p>(
    alloc: Global,
    database: &Database,
    names: &[&'p str],
    end: RealmEnd,
) -> EarlyEnd<'p> {
    let stop = EarlyEnd::refused(Part::Name, CommandRefusal::EndsRealm(end));
    match tgs_text(alloc, database, names) {
        Some(name) => stop.about(Part::Name, name),
        None => stop,
    }
}

/// Returns the first of these texts that names `krbtgt/REALM`.
fn tgs_text<'p>(alloc: Global, database: &Database, names: &[&'p str]) -> Option<&'p str> {
    for name in names {
        if is_tgs_text(alloc, database, name) {
            return Some(name);
        }
    }
    None
}

/// Checks whether a text names the realm's ticket-granting service. `false` if memory runs out.
pub(crate) fn is_tgs_text(alloc: Global, database: &Database, text: &str) -> bool {
    match Name::from_text(alloc, text) {
        Ok(who) => matches!(is_tgs(alloc, database, &who), Ok(true)),
        Err(_) => false,
    }
}

/// Reports what a database that `--whole-realm` allowed does to logins. Ignores a failed write. Says nothing if memory
/// runs out.
pub fn report_realm<E: Write>(alloc: Global, errors: &mut E, database: &Database) {
    if let Ok(realm) = component_to_text(alloc, database.realm()) {
        let policy = tgs_policy(database);
        for (is, what) in [
            (policy.disabled, "is disabled"),
            (!policy.service, "is no service"),
            (
                policy.greatest_life < LEAST_LIFE,
                "has tickets of less than 300 seconds",
            ),
        ] {
            if is {
                let _ = writeln!(errors, "kadm: krbtgt/{realm} {what}: nobody can log in");
            }
        }
        if let Some(expires) = policy.expires {
            let _ = writeln!(
                errors,
                "kadm: krbtgt/{realm} expires {}: nobody can log in after that",
                UtcDate(expires)
            );
        }
    }
}
