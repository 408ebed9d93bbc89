//! The key of a password, given a KDC's information about its types (RFC 4120, section 5.2.7.5).
ghost use Rattle.std.specs.Prelude.{◌≡◌, ◌≤◌, IfOk, IfSome, option_copied};
ghost use Rattle.encrypted_data.specs.Keys as keys;
ghost use Rattle.client_core.specs.Faults.{Gives};
ghost use Rattle.client_core.specs.Passwords.{count_if, count_in, count_of, entry_of, key_as, password_key, salt_of};

use crate::fault::{ReplyError, given};
use encrypted_data::type_numbered;
use enctypes::{Etype, Key, string_to_key};
use krb_elements::{KerberosString, Octets, Seq};
use krb_fields::Name;
use krb_types::EtypeInfo2Entry;
use rule_lists::Attempt;
use std::alloc::{AllocError, Global};

/// The greatest count of iterations of string-to-key that a client accepts from a KDC.
pub const MAX_COUNT: u32 = 1_048_576;

/// A KDC's information about the types of a client's keys.
pub type EtypeInfo2 = Seq<EtypeInfo2Entry>;

/// Derives the key of a password for the first entry with one of the four types. If the entry has no salt, it uses the
/// default one, of the realm and the name. It computes an HMAC for each of the entry's iterations, and two for type 18.
pub fn password_key(
    alloc: Global,
    pass: &[u8],
    realm: &[u8],
    name: &Name,
    info: &EtypeInfo2,
) -> Result<Key, ReplyError>
    // Promise, as read_ap_reply: the contents of an ..
    ensures { Gives result (password_key pass.now realm.now name.now info.now) }
{
    given(key_in(alloc, pass, realm, name, info))
}

fn key_in(
    alloc: Global,
    pass: &[u8],
    realm: &[u8],
    name: &Name,
    info: &EtypeInfo2,
) -> Attempt<Key, ReplyError>
    ensures { IfOk result (λ found. found ≡ password_key pass.now realm.now name.now info.now) }
{
    match usable_entry(info.as_slice()) {
        Some(entry) => entry_key(alloc, pass, realm, name, entry),
        None => Ok(Err(ReplyError::CannotOpen)),
    }
}

/// Returns the entry that a password's key is derived from: the first one with one of the four types.
pub fn usable_entry(info: &[EtypeInfo2Entry]) -> Option<&EtypeInfo2Entry>
    ensures { option_copied result ≡ entry_of info.now }
{
    for entry in info {
        if type_numbered(entry.etype).is_some() {
            return Some(entry);
        }
    }
    None
}

fn entry_key(
    alloc: Global,
    pass: &[u8],
    realm: &[u8],
    name: &Name,
    entry: &EtypeInfo2Entry,
) -> Attempt<Key, ReplyError>
    ensures { IfOk result (λ found.
        found ≡ key_as pass.now realm.now name.now entry.now (keys.type_numbered entry.now.etype)) }
{
    let Some(etype) = type_numbered(entry.etype) else {
        return Ok(Err(ReplyError::CannotOpen));
    };
    let Some(count) = iteration_count(etype, &entry.s2kparams) else {
        return Ok(Err(ReplyError::CountTooLarge));
    };
    let salt = entry_salt(alloc, realm, name, entry)?;
    let key = string_to_key(alloc, etype, pass, salt.as_slice(), count)?;
    Ok(Ok(key))
}

/// Returns the entry's salt, else the default one.
fn entry_salt(
    alloc: Global,
    realm: &[u8],
    name: &Name,
    entry: &EtypeInfo2Entry,
) -> Result<KerberosString, AllocError>
    ensures { IfOk result (λ salt. salt ≡ salt_of realm.now name.now entry.now) }
{
    match &entry.salt {
        Some(salt) => salt.copy(alloc),
        None => name.salt(alloc, realm),
    }
}

/// Returns the count of iterations in an entry: that of its parameters, or else the type's own. `None` if the
/// parameters are not four bytes, or the count is 0 or above [`MAX_COUNT`].
pub fn iteration_count(etype: Etype, params: &Option<Octets>) -> Option<u32>
    ensures value { result ≡ count_of etype params.now }
    ensures some { IfSome result (λ count. 1 ≤ count) }
{
    match params {
        Some(params) => count_in(params.as_slice()),
        None => Some(etype.default_count()),
    }
}

/// Reads a count of four bytes, from 1 to [`MAX_COUNT`].
fn count_in(params: &[u8]) -> Option<u32>
    ensures value { result ≡ count_in params.now }
    ensures some { IfSome result (λ count. 1 ≤ count) }
{
    let Some((octets, rest)) = params.split_first_chunk::<4>() else {
        return None;
    };
    if !rest.is_empty() {
        return None;
    }
    accepted_count(u32::from_be_bytes(*octets))
}

fn accepted_count(count: u32) -> Option<u32>
    ensures value { result ≡ count_if count }
    ensures some { IfSome result (λ count. 1 ≤ count) }
{
    if 1 <= count && count <= MAX_COUNT {
        Some(count)
    } else {
        None
    }
}
