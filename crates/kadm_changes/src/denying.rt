//! Denies tickets for principals.
ghost use Rattle.std.specs.Prelude.{◌≡◌, IfOk, OnOk, map};
ghost use Rattle.kadm_changes.specs.Denying.{all_denied, denied, is_user, users};

use crate::databases::apply;
use crate::draft::Draft;
use krb_fields::Name;
use principal_rows::Policy;
use principals::{ChangeFault, Database, RowChange};
use std::alloc::{AllocError, Global};

/// Denies tickets for users.
pub(crate) fn deny_users(draft: &mut Draft) -> Result<(), ChangeFault>
    ensures { OnOk result (draft.new.database ≡ all_denied (users draft.old.database) draft.old.database) }
{
    let users = users_of(draft.alloc, &draft.database)?;
    for user in &users {
        deny_service(draft, user)?;
    }
    Ok(())
}

/// Returns the names of users.
fn users_of(alloc: Global, database: &Database) -> Result<Vec<Name>, AllocError>
    ensures { IfOk result (λ names. map (λ name. name.components) names.items ≡ users database.now) }
{
    let mut users = Vec::new(alloc);
    for place in 0..database.len() {
        if let Some((name, _)) = database.at(place) {
            if is_user(name) {
                users.push(name.copy(alloc)?)?;
            }
        }
    }
    Ok(users)
}

/// Checks whether a name has one component, like a user's.
pub(crate) fn is_user(name: &Name) -> bool
    ensures { result ≡ is_user name.now.components }
{
    name.components.len() == 1
}

/// Denies tickets for a principal.
pub(crate) fn deny_service(draft: &mut Draft, who: &Name) -> Result<(), ChangeFault>
    // Promise, as add_user: with a password and ..
    ensures { OnOk result (draft.new.database ≡ denied who.now.components draft.old.database) }
{
    let Some(row) = draft.database.get(who) else {
        return Err(ChangeFault::Absent);
    };
    let policy = Policy {
        service: false,
        ..row.policy
    };
    apply(draft, who, RowChange::SetPolicy(policy))
}
