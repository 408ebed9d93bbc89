//! The ticket-granting service of a realm, found with the realm alone.
ghost use Rattle.std.specs.Prelude.{◌≡◌, ◌&&◌, codes};
ghost use Rattle.std.specs.Str.{bytes_eq};
ghost use Rattle.std.specs.Ordering.{eq_by_cmp};
ghost use Rattle.krb_fields.specs.Name.{name_cmp};
ghost use Rattle.krb_fields.specs.Granting.{tgs_principal};

use krb_fields::{Name, NameRef};
use principal_rows::NameKey;
use std::cmp::Ordering;

/// The bytes of the first component of its name.
const KRBTGT: &[u8; 6] = b"krbtgt";

/// The name of a realm's ticket-granting service, as a key of maps from names. No name is built for it.
#[derive(Drop)]
pub struct TgsOf<'a> {
    /// The bytes of the realm: the name's second component, after `krbtgt`.
    pub realm: &'a [u8],
}

impl<'a> NameKey for TgsOf<'a> {
    ghost components = { λ tgs. tgs_principal tgs.realm.now };

    fn compare(&self, name: &Name) -> Ordering {
        let Some((service, rest)) = name.components.as_slice().split_first() else {
            return Ordering::Less;
        };
        match service.as_slice().cmp(KRBTGT.as_slice()) {
            Ordering::Equal => {}
            unequal => return unequal,
        }
        let Some((instance, rest)) = rest.split_first() else {
            return Ordering::Less;
        };
        match instance.as_slice().cmp(self.realm) {
            Ordering::Equal => {}
            unequal => return unequal,
        }
        match rest.split_first() {
            None => Ordering::Equal,
            Some(_) => Ordering::Greater,
        }
    }
}

/// Checks whether a borrowed name is that of the realm's ticket-granting service.
pub fn names_tgs(name: &NameRef<'_>, realm: &[u8]) -> bool
    // Promise, as Database::get: a row is looked ..
    ensures { result ≡ eq_by_cmp name_cmp name.now.components (tgs_principal realm.now) }
{
    let mut components = name.components.iter();
    let Some(service) = components.next() else {
        return false;
    };
    let Some(instance) = components.next() else {
        return false;
    };
    let None = components.next() else {
        return false;
    };
    is_pair(service.as_slice(), instance.as_slice(), realm)
}

/// Checks whether two components are those of the ticket-granting service.
fn is_pair(service: &[u8], instance: &[u8], realm: &[u8]) -> bool
    ensures { result ≡ (bytes_eq service.now (codes "krbtgt") && bytes_eq instance.now realm.now) }
{
    service == KRBTGT.as_slice() && instance == realm
}
