//! The authenticator that a TGS-REQ presents, with a checksum of the request (RFC 4120, sections 3.3.2 and 5.5.1).
ghost use Rattle.std.specs.Prelude.{◌≡◌, nat_eq, option_copied};
ghost use Rattle.std.specs.Cmp.Lexicographic.{pointwise};
ghost use Rattle.enctypes.specs.KeyUsage.{usage_number};
ghost use Rattle.enctypes.specs.Sealing.{mac};
ghost use Rattle.tgs_opening.specs.Authenticators.{authenticator_rules, is_modified, is_other_type, subkey_of};

use crate::refusal::TgsRefusal;
use ap_req::{ApRefusal, is_mismatched, subkey_in};
use encrypted_data::ReadyKeys;
use enctypes::{Key, KeyUsage};
use krb_fields::Typed;
use krb_types::{Authenticator, EncTicketPart};
use rule_lists::decide;

/// Returns the subkey, after checking that the authenticator matches the ticket and the bytes of the request's body.
pub fn checked_subkey(
    ready: &ReadyKeys,
    part: &EncTicketPart,
    key: &Key,
    body: &[u8],
    authenticator: &Authenticator,
) -> Result<Option<Key>, TgsRefusal>
    ensures { result ≡ subkey_of part.now key.now body.now authenticator.now }
{
    let rules = authenticator_rules(ready, part, key, body, authenticator);
    let subkey = subkey_in(authenticator.subkey.as_ref());
    decide(&rules, subkey, TgsRefusal::Ap(ApRefusal::BadSubkey))
}

fn authenticator_rules(
    ready: &ReadyKeys,
    part: &EncTicketPart,
    key: &Key,
    body: &[u8],
    authenticator: &Authenticator,
) -> [(bool, TgsRefusal); 4]
    ensures { result ≡ authenticator_rules part.now key.now body.now authenticator.now }
{
    let cksum = authenticator.cksum.as_ref();
    [
        (
            is_mismatched(part, authenticator),
            TgsRefusal::Ap(ApRefusal::BadMatch),
        ),
        (cksum.is_none(), TgsRefusal::NoChecksum),
        (is_other_type(key, cksum), TgsRefusal::BadChecksumType),
        (is_modified(ready, key, body, cksum), TgsRefusal::Modified),
    ]
}

fn is_other_type(key: &Key, cksum: Option<&Typed>) -> bool
    ensures { result ≡ is_other_type key.now (option_copied cksum.entry) }
{
    match cksum {
        Some(cksum) => cksum.number != key.etype().checksum_type(),
        None => false,
    }
}

/// Checks whether this is not the checksum of the body as it was sent.
fn is_modified(ready: &ReadyKeys, key: &Key, body: &[u8], cksum: Option<&Typed>) -> bool
    ensures { result ≡ is_modified key.now body.now (option_copied cksum.entry) }
{
    match cksum {
        Some(cksum) => !is_checksum(ready, key, body, cksum.octets.as_slice()),
        None => false,
    }
}

fn is_checksum(ready: &ReadyKeys, key: &Key, body: &[u8], octets: &[u8]) -> bool
    ensures { result
        ≡ pointwise nat_eq octets.now
        (mac key.now.etype key.now.bytes (usage_number KeyUsage.TgsReqAuthenticatorChecksum) body.now) }
{
    let usage = KeyUsage::TgsReqAuthenticatorChecksum;
    ready.verify(key, usage, body, octets)
}
