//! The authenticator of an AP-REQ (RFC 4120, sections 3.2.3 and 5.5.1).
ghost use Rattle.std.specs.Prelude.{◌≡◌, IfOk, option_copied};
ghost use Rattle.ap_req.specs.Authenticators.{authenticator_in, authenticator_of, is_mismatched, subkey_in};

use crate::decryption::open_by;
use crate::refusal::ApRefusal;
use encrypted_data::{ReadyKeys, supported_key};
use enctypes::{Key, KeyUsage};
use krb_fields::{EncryptedDataRef, Typed};
use krb_types::{Authenticator, EncTicketPart};
use rule_lists::Attempt;
use std::alloc::{AllocError, Global};
use std::cmp::Ordering;

/// Decrypts the authenticator with the session key. The key usage is that of the message with the AP-REQ (RFC 4120,
/// section 7.5.1).
pub fn open_authenticator(
    alloc: Global,
    ready: Option<&ReadyKeys>,
    usage: KeyUsage,
    key: &Key,
    sealed: &EncryptedDataRef<'_>,
) -> Attempt<Authenticator, ApRefusal>
    // Promise, as checked_session_key: an AP-REQ's session key ..
    ensures { IfOk result (λ found. found ≡ authenticator_of usage key.now sealed.now) }
{
    let found = authenticator_in(alloc, ready, usage, key, sealed)?;
    Ok(found.ok_or(ApRefusal::AuthenticatorNotOpened))
}

fn authenticator_in(
    alloc: Global,
    ready: Option<&ReadyKeys>,
    usage: KeyUsage,
    key: &Key,
    sealed: &EncryptedDataRef<'_>,
) -> Result<Option<Authenticator>, AllocError>
    ensures { IfOk result (λ found. found ≡ authenticator_in usage key.now sealed.now) }
{
    if sealed.etype != key.etype().number() {
        return Ok(None);
    }
    open_by(alloc, ready, key, usage, sealed.cipher.as_slice())
}

/// Checks whether the authenticator names another client than the ticket.
pub fn is_mismatched(part: &EncTicketPart, authenticator: &Authenticator) -> bool
    // Promise: `is_mismatched` says whether an authenticator names another client than the ticket; `subkey_in` returns
    // its subkey, and `None` if that is no key.
    ensures { result ≡ is_mismatched part.now authenticator.now }
{
    authenticator.crealm.as_slice() != part.crealm.as_slice()
        || authenticator.cname.order(&part.cname) != Ordering::Equal
}

/// Returns the subkey of an authenticator, `Some(None)` if there is none, and `None` if it is not a valid key.
pub fn subkey_in(subkey: Option<&Typed>) -> Option<Option<Key>>
    // Promise, as is_mismatched: `is_mismatched` says whether an ..
    ensures { result ≡ subkey_in (option_copied subkey.entry) }
{
    match subkey {
        Some(subkey) => Some(Some(supported_key(subkey.number, subkey.octets.as_slice())?)),
        None => Some(None),
    }
}
