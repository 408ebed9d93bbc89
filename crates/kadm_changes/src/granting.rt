//! New keys for a principal.
ghost use Rattle.std.specs.Prelude.{◌≡◌, IfNone, IfOk, IfSome, None, OnOk, OnErr, Some, is_some, map};
ghost use Rattle.std.specs.FinMap as finite;
ghost use Rattle.krb_fields.specs.Salt.{default_salt};
ghost use Rattle.principal_keys.specs.Keys.{password_key};
ghost use Rattle.principal_rows.specs.declared.row.Row as rows;
ghost use Rattle.kadm_changes.specs.Granting.{IsCleared, IsGiven, IsGranted, IsOlderDropped, IsReplaced, IsUserAdded};
ghost use Rattle.kadm_changes.specs.Granting.{Makes, key_change, older_numbers, password_expiry};
ghost use Rattle.kadm_changes.specs.Updates.{GivesPassword, GivesRandom};
ghost use Rattle.kadm_changes.specs.Texts.{path_of};

use crate::databases::apply;
use crate::denying::deny_service;
use crate::draft::Draft;
use crate::early_end::EarlyEnd;
use enctypes::Etype;
use file_store::{Store, read_or_draw_seed};
use krb_fields::{Name, Second};
use principal_keys::{password_keys, random_keys};
use principal_rows::{KeyList, KeyVersion, Policy};
use principals::{ChangeFault, Database, RowChange};
use std::alloc::{AllocError, Global};

/// The principal that gets keys.
#[derive(Clone, Copy, PartialEq, Eq)]
pub enum Grant {
    /// A new principal.
    New,
    /// A new principal for which tickets are denied.
    NewUser,
    /// A principal that exists. The keys are a new version beside the older ones.
    Next,
    /// A principal that exists. The older versions are dropped.
    Replace,
    /// `Next` if the principal exists, else `New`.
    Either,
}

/// The change once it is known whether the principal exists.
#[derive(Clone, Copy)]
pub(crate) enum KeyChange {
    New,
    NewUser,
    Next,
    Replace,
}

impl Grant {
    /// Returns the change, given whether the principal exists.
    pub(crate) fn key_change(self, there: bool) -> KeyChange
        ensures { result ≡ key_change self there }
    {
        match (self, there) {
            (Grant::New, _) | (Grant::Either, false) => KeyChange::New,
            (Grant::NewUser, _) => KeyChange::NewUser,
            (Grant::Next, _) | (Grant::Either, true) => KeyChange::Next,
            (Grant::Replace, _) => KeyChange::Replace,
        }
    }
}

/// Random keys, and who gets them.
#[derive(Clone, Copy)]
pub struct RandomGrant<'a> {
    /// The path of the file with the seed of the keys, or `None` to draw a seed from the system.
    pub seed: Option<&'a str>,
    /// Whether the principal is new, and what becomes of its older keys.
    pub grant: Grant,
}

/// The principal that gets keys, and what they are made from.
#[derive(Clone, Copy)]
pub(crate) struct Recipient<'a> {
    /// The principal's name.
    pub who: &'a Name,
    /// The encryption types of the keys.
    pub etypes: &'a [Etype],
    /// The password. It is empty if the keys are random, or from a keytab.
    pub pass: &'a [u8],
}

/// Gives a principal the keys of a password.
pub(crate) fn give_password<'p, T: Store>(
    store: &mut T,
    draft: &mut Draft,
    to: &Recipient<'_>,
    grant: Grant,
) -> Result<(), EarlyEnd<'p>>
    // Promise: `passwd` and `add`: keys of the password and the default salt, given as the words say.
    // Promise: besides, the `password_expires` of the old password is cleared.
    ensures given { OnOk result (GivesPassword
        (T.world store.old) to.now.etypes.now to.now.pass.now grant to.now.who.now.components
        draft.old.database draft.new.database) }
    // Promise, as lock_database: what a command reads, ..
    ensures unchanged { T.world store.new ≡ T.world store.old }
{
    let keys = derive_keys(draft, to)?;
    give(draft, to.who, keys, grant)?;
    Ok(clear_expiry(draft, to.who)?)
}

/// Gives a principal random keys.
pub(crate) fn give_random<'p, T: Store>(
    store: &mut T,
    draft: &mut Draft,
    to: &Recipient<'_>,
    random: RandomGrant<'p>,
) -> Result<(), EarlyEnd<'p>>
    // Promise: `random` and `add --random`: the same with keys drawn from the seed's 32 bytes, which are the file's
    // first or the store's own.
    ensures given { OnOk result (GivesRandom (T.world store.old) to.now.etypes.now
        (path_of random.entry.seed) random.entry.grant
        to.now.who.now.components draft.old.database draft.new.database) }
    // Promise, as lock_database: what a command reads, ..
    ensures unchanged { T.world store.new ≡ T.world store.old }
{
    let seed = read_or_draw_seed(draft.alloc, store, random.seed)?;
    let keys = random_keys(draft.alloc, to.etypes, seed)?;
    Ok(give(draft, to.who, keys, random.grant)?)
}

/// Derives the keys of a password, with the principal's default salt.
fn derive_keys(draft: &Draft, to: &Recipient<'_>) -> Result<KeyList, AllocError>
    ensures { IfOk result (λ keys. keys ≡ map
        (password_key to.now.pass.now (default_salt draft.now.database.realm to.now.who.now.components))
        to.now.etypes.now) }
{
    let salt = to.who.salt(draft.alloc, draft.database.realm())?;
    password_keys(draft.alloc, to.etypes, to.pass, salt.as_slice())
}

/// Gives keys to the principal, as `grant` says.
fn give(draft: &mut Draft, who: &Name, keys: KeyList, grant: Grant) -> Result<(), ChangeFault>
    // Promise: `--replace` gives new keys, and the principal then has their version alone; without it the older ones
    // stay.
    // Promise: `add` makes a principal, and no other word does but `import`, and `random` with neither `--existing` nor
    // `--replace`.
    ensures { OnOk result (IsGranted grant who.now.components keys draft.old.database draft.new.database) }
{
    let how = grant.key_change(is_there(&draft.database, who));
    put_keys(draft, who, keys, how)
}

fn put_keys(draft: &mut Draft, who: &Name, keys: KeyList, how: KeyChange) -> Result<(), ChangeFault>
    ensures { OnOk result (IsGiven how who.now.components keys draft.old.database draft.new.database) }
{
    match how {
        KeyChange::New => apply(draft, who, RowChange::Add(keys)),
        KeyChange::NewUser => add_user(draft, who, keys),
        KeyChange::Next => apply(draft, who, RowChange::NewKeys(keys)),
        KeyChange::Replace => replace(draft, who, keys),
    }
}

/// Checks whether a principal exists.
fn is_there(database: &Database, who: &Name) -> bool
    ensures { result ≡ is_some (finite.get database.now.rows who.now.components) }
{
    match database.get(who) {
        Some(_) => true,
        None => false,
    }
}

/// Adds a principal, and denies tickets for it.
fn add_user(draft: &mut Draft, who: &Name, keys: KeyList) -> Result<(), ChangeFault>
    // Promise, as give: `add` makes a principal, ..
    // Promise: with a password and without `--service` there are no tickets for a new principal.
    ensures { OnOk result (IsUserAdded who.now.components keys draft.old.database draft.new.database) }
{
    apply(draft, who, RowChange::Add(keys))?;
    deny_service(draft, who)
}

/// Gives a principal new keys, and drops all older versions.
fn replace(draft: &mut Draft, who: &Name, keys: KeyList) -> Result<(), ChangeFault>
    ensures { OnOk result (IsReplaced who.now.components keys draft.old.database draft.new.database) }
{
    apply(draft, who, RowChange::NewKeys(keys))?;
    drop_older(draft, who)
}

/// Drops all versions of a principal's keys but the current one. After an `Err` some may have been dropped.
pub(crate) fn drop_older(draft: &mut Draft, who: &Name) -> Result<(), ChangeFault>
    // Promise, as give: `--replace` gives new keys, ..
    ensures { OnOk result (IsOlderDropped who.now.components draft.old.database draft.new.database) }
{
    let Some(row) = draft.database.get(who) else {
        return Err(ChangeFault::Absent);
    };
    let numbers = older_numbers(draft.alloc, row.versions.as_slice())?;
    for number in &numbers {
        apply(draft, who, RowChange::DropKeys(*number))?;
    }
    Ok(())
}

/// Returns the numbers of all versions but the first, which is the current one.
fn older_numbers(alloc: Global, versions: &[KeyVersion]) -> Result<Vec<u32>, AllocError>
    ensures { IfOk result (λ numbers. numbers.items ≡ older_numbers versions.now) }
{
    match versions.split_first() {
        Some((_, older)) => numbers_of(alloc, older),
        None => Ok(Vec::new(alloc)),
    }
}

fn numbers_of(alloc: Global, versions: &[KeyVersion]) -> Result<Vec<u32>, AllocError>
    ensures { IfOk result (λ numbers. numbers.items ≡ map (λ version. version.number) versions.now) }
{
    let mut numbers = Vec::new(alloc);
    for version in versions {
        numbers.push(version.number)?;
    }
    Ok(numbers)
}

/// Clears `password_expires`: it is that of the old password.
fn clear_expiry(draft: &mut Draft, who: &Name) -> Result<(), ChangeFault>
    ensures { OnOk result (IsCleared who.now.components draft.old.database draft.new.database) }
{
    let Some((policy, _)) = expiring(&draft.database, who) else {
        return Ok(());
    };
    let policy = Policy {
        password_expires: None,
        ..policy
    };
    apply(draft, who, RowChange::SetPolicy(policy))
}

/// Returns the policy of a principal whose password expires, and when it does.
pub(crate) fn expiring(database: &Database, who: &Name) -> Option<(Policy, Second)>
    ensures some { IfSome result (λ found. (row : rows.Row)
        × (finite.get database.now.rows who.now.components ≡ Some row)
        × (row.policy ≡ found.0) × (row.policy.password_expires ≡ Some found.1)) }
    ensures none { IfNone result (password_expiry (finite.get database.now.rows who.now.components) ≡ None) }
{
    let Some(row) = database.get(who) else {
        return None;
    };
    match row.policy.password_expires {
        Some(expires) => Some((row.policy, expires)),
        None => None,
    }
}
