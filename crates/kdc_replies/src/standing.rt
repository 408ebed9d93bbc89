//! The standing of a principal by its row, if it has one.
ghost use Rattle.std.specs.Prelude.{◌≡◌, not, option_copied, option_map};
ghost use Rattle.rule_lists.specs.Optional.{holds_of};
ghost use Rattle.kdc_replies.specs.Standing.{denies_tickets, has_come, is_disabled, is_expired, is_tgs};

use krb_fields::{Moment, NameRef, Second};
use principal_rows::Row;
use principals::names_tgs;

/// Checks whether it is disabled.
pub fn is_disabled(row: Option<&Row>) -> bool
    // Promise: what a row says about its principal's standing is that of the definition.
    ensures { result ≡ is_disabled (option_copied row.entry) }
{
    match row {
        Some(row) => row.policy.disabled,
        None => false,
    }
}

/// Checks whether it has expired. It expires at the second of its expiry time.
pub fn is_expired(row: Option<&Row>, at: Moment) -> bool
    // Promise, as is_disabled: what a row says ..
    ensures { result ≡ is_expired (option_copied row.entry) at.sec }
{
    match row {
        Some(row) => has_come(row.policy.expires, at),
        None => false,
    }
}

/// Checks whether no tickets may be issued for the principal with this name and row. The ticket-granting service of
/// the realm is always a service, whatever its row says.
pub fn denies_tickets(realm: &[u8], name: Option<&NameRef<'_>>, row: Option<&Row>) -> bool
    // Promise, as is_disabled: what a row says ..
    ensures { result
        ≡ denies_tickets realm.now (option_map (λ name. name.components) (option_copied name.entry))
        (option_copied row.entry) }
{
    is_no_service(row) && !is_tgs(realm, name)
}

fn is_no_service(row: Option<&Row>) -> bool
    ensures { result ≡ holds_of (λ row. not row.policy.service) (option_copied row.entry) }
{
    match row {
        Some(row) => !row.policy.service,
        None => false,
    }
}

fn is_tgs(realm: &[u8], name: Option<&NameRef<'_>>) -> bool
    ensures { result ≡ is_tgs realm.now (option_map (λ name. name.components) (option_copied name.entry)) }
{
    match name {
        Some(name) => names_tgs(name, realm),
        None => false,
    }
}

/// Checks whether a time has come, if there is one.
pub fn has_come(time: Option<Second>, at: Moment) -> bool
    // Promise, as is_disabled: what a row says ..
    ensures { result ≡ has_come time at.sec }
{
    match time {
        Some(time) => time.get() <= at.sec,
        None => false,
    }
}
