//! The session key of a presented ticket (RFC 4120, section 3.2.3).
ghost use Rattle.std.specs.Prelude.{◌≡◌};
ghost use Rattle.ap_req.specs.Authenticators.{part_rules, session_key_of};

use crate::refusal::ApRefusal;
use encrypted_data::supported_key;
use enctypes::Key;
use krb_types::EncTicketPart;
use rule_lists::decide;

/// Returns the session key, after checking that the client is of this realm and that the ticket is bound to no address.
pub fn checked_session_key(realm: &[u8], part: &EncTicketPart) -> Result<Key, ApRefusal>
    // Promise: an AP-REQ's session key, and its authenticator, are each returned, or the first rule that refuses it,
    // unless memory runs out.
    ensures { result ≡ session_key_of realm.now part.now }
{
    let rules = part_rules(realm, part);
    let key = supported_key(part.key.number, part.key.octets.as_slice());
    decide(&rules, key, ApRefusal::BadSessionKey)
}

fn part_rules(realm: &[u8], part: &EncTicketPart) -> [(bool, ApRefusal); 2]
    ensures { result ≡ part_rules realm.now part.now }
{
    [
        (part.crealm.as_slice() != realm, ApRefusal::ForeignClient),
        (part.caddr.is_some(), ApRefusal::BoundAddress),
    ]
}
