//! The keys of a service's row for the encryption types that a request asks for.
ghost use Rattle.std.specs.Prelude.{◌≡◌, IfOk};
ghost use Rattle.kdc_replies.specs.ServiceTerms.{service_terms};

use crate::tickets::ServiceKey;
use enctypes::Etype;
use krb_elements::SeqRef;
use krb_fields::{Name, NameRef};
use preauth::first_key;
use principal_rows::{Policy, Row};
use std::alloc::{AllocError, Global};

/// A service that has a current key of a requested encryption type.
#[derive(Drop)]
pub struct ServiceTerms {
    /// The sname of the request, with its name-type as sent.
    pub name: Name,
    /// The policy of the service's row.
    pub policy: Policy,
    /// The first requested encryption type for which it has a current key.
    pub session_type: Etype,
    /// Its first current key, which encrypts the ticket.
    pub key: ServiceKey,
}

/// Returns the terms of the service with this name and row, or `None` if it has no current key of these encryption
/// types.
pub fn service_terms(
    alloc: Global,
    types: &SeqRef<'_, i32>,
    name: &NameRef<'_>,
    row: &Row,
) -> Result<Option<ServiceTerms>, AllocError>
    // Promise, as session_key: a session key is ..
    ensures { IfOk result (λ found. found ≡ service_terms types.now name.now row.now) }
{
    let version = row.versions.current();
    let Some(session_key) = first_key(&version.keys, types) else {
        return Ok(None);
    };
    let Some(key) = version.keys.keys().first() else {
        return Ok(None);
    };
    Ok(Some(ServiceTerms {
        name: name.to_name(alloc)?,
        policy: row.policy,
        session_type: session_key.etype(),
        key: ServiceKey {
            key: *key,
            version: version.number,
        },
    }))
}
