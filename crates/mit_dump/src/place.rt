//! The realm of a dump, and which principals have a place in its database.
ghost use Rattle.std.specs.Prelude.{◌≡◌, ℕ, List, IfNone, IfSome, find, option_copied};
ghost use Rattle.krb_fields.specs.NameLimits.{IsComponent};
ghost use Rattle.mit_dump.specs.Place.{IsRealmOf, grants_tickets, has_key, has_place, is_master, is_own, is_server};

use crate::principal::DumpedPrincipal;
use crate::stored_key::StoredKey;
use krb_elements::KerberosString;
use krb_fields::is_component;

/// Returns the realm of a dump: that of the first principal `krbtgt/REALM@REALM`, if it has 1 to 255 bytes.
pub fn dump_realm(found: &[DumpedPrincipal]) -> Option<&[u8]>
    // Promise (realm, fits), as import_dump of kadm_changes: `import --dump` makes a ..
    ensures realm { IfSome result (λ realm. IsRealmOf found.now realm.now) }
    ensures fits { IfSome result (λ realm. IsComponent realm.now) }
    // Promise: a dump has no realm only if it has no `krbtgt/REALM@REALM`, or the realm of the first one doesn't have 1
    // to 255 bytes.
    ensures none { IfNone result ((realm : List ℕ) → IsRealmOf found.now realm → ¬ IsComponent realm) }
{
    let realm = granter(found)?.realm.as_slice();
    if is_component(realm) {
        Some(realm)
    } else {
        None
    }
}

/// Returns the first principal that is `krbtgt/REALM@REALM`.
fn granter(found: &[DumpedPrincipal]) -> Option<&DumpedPrincipal>
    ensures { option_copied result ≡ find (λ q. grants_tickets q.name.components q.realm) found.now }
{
    found.iter().find(|principal| principal.grants_tickets())
}

impl DumpedPrincipal {
    /// Checks whether it is one of MIT's own: `K/M`, `kadmin/..` and `kiprop/..`.
    pub fn is_own(&self) -> bool
        ensures { result ≡ is_own self.now.name.components }
    {
        is_own(self.name.components.as_slice())
    }

    /// Checks whether it is the ticket-granting service of its realm: `krbtgt/REALM@REALM`.
    pub fn grants_tickets(&self) -> bool
        ensures { result ≡ grants_tickets self.now.name.components self.now.realm }
    {
        grants_tickets(self.name.components.as_slice(), self.realm.as_slice())
    }

    /// Checks whether it has a row in a database of this realm: it is not MIT's own, and has a name within the limits
    /// and a key.
    pub fn has_place(&self, realm: &[u8]) -> bool
        // Promise, as import_dump of kadm_changes: an imported database has ..
        ensures { result ≡ has_place realm.now self.now }
    {
        !self.is_own()
            && self.realm.as_slice() == realm
            && self.name.is_within_limits()
            && has_key(&self.keys)
    }
}

fn is_own(components: &[KerberosString]) -> bool
    ensures { result ≡ is_own components.now }
{
    match components {
        [first, second] => {
            is_server(first.as_slice()) || is_master(first.as_slice(), second.as_slice())
        }
        [first, _, ..] => is_server(first.as_slice()),
        _ => false,
    }
}

/// Checks whether two components are those of `K/M`.
fn is_master(first: &[u8], second: &[u8]) -> bool
    ensures { result ≡ is_master first.now second.now }
{
    first == b"K".as_slice() && second == b"M".as_slice()
}

fn is_server(component: &[u8]) -> bool
    ensures { result ≡ is_server component.now }
{
    component == b"kadmin".as_slice() || component == b"kiprop".as_slice()
}

fn grants_tickets(components: &[KerberosString], realm: &[u8]) -> bool
    ensures { result ≡ grants_tickets components.now realm.now }
{
    match components {
        [service, instance] => {
            service.as_slice() == b"krbtgt".as_slice() && instance.as_slice() == realm
        }
        _ => false,
    }
}

/// Checks whether a key has a place in a row.
pub(crate) fn has_key(keys: &[StoredKey]) -> bool
    ensures { result ≡ has_key keys.now }
{
    keys.iter().any(|key| key.etype().is_some())
}
