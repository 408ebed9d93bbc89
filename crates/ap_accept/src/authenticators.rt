//! The authenticator of an AP-REQ (RFC 4120, section 3.2.3).
ghost use Rattle.std.specs.Prelude.{◌≡◌};
ghost use Rattle.ap_accept.specs.Authenticators.{authenticator_rules, subkey_of};

use ap_req::{ApRefusal, is_mismatched, subkey_in};
use enctypes::Key;
use krb_types::{Authenticator, EncTicketPart};
use rule_lists::decide;

/// Returns the subkey of an authenticator, after checking that the authenticator matches the ticket.
pub fn checked_subkey(
    part: &EncTicketPart,
    authenticator: &Authenticator,
) -> Result<Option<Key>, ApRefusal>
    ensures { result ≡ subkey_of part.now authenticator.now }
{
    let rules = authenticator_rules(part, authenticator);
    let subkey = subkey_in(authenticator.subkey.as_ref());
    decide(&rules, subkey, ApRefusal::BadSubkey)
}

fn authenticator_rules(
    part: &EncTicketPart,
    authenticator: &Authenticator,
) -> [(bool, ApRefusal); 1]
    ensures { result ≡ authenticator_rules part.now authenticator.now }
{
    [(is_mismatched(part, authenticator), ApRefusal::BadMatch)]
}
