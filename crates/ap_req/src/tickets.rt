//! The ticket of an AP-REQ (RFC 4120, section 3.2.3).
ghost use Rattle.std.specs.Prelude.{◌≡◌, IfOk, IfSome, option_copied};
ghost use Rattle.enctypes.specs.KeyUsage.{usage_number};
ghost use Rattle.krb_types.specs.EncTicketPart.{enc_ticket_part};
ghost use Rattle.encrypted_data.specs.Parts.{IsSpelledWithin};
ghost use Rattle.ap_req.specs.Tickets.{is_other_version, opened_with, shown_ticket, ticket_rules};

use crate::decryption::open_by;
use crate::held_key::{HeldKey, lacks_key, lacks_version};
use crate::refusal::ApRefusal;
use encrypted_data::ReadyKeys;
use enctypes::{Key, KeyUsage};
use krb_fields::numbers::{AP_REQ, PVNO};
use krb_fields::{ApOption, EncryptedDataRef};
use krb_types::{ApReqRef, EncTicketPart};
use rule_lists::{Attempt, decide};
use std::alloc::{AllocError, Global};

/// Decrypts the ticket with the key that the server holds for it, or returns the first rule that refuses it. A server's
/// cache of keys makes this faster.
///
/// It allocates no more than the ticket's cipher needs.
pub fn shown_ticket(
    alloc: Global,
    ready: Option<&ReadyKeys>,
    held: &HeldKey<'_>,
    ap: &ApReqRef<'_>,
) -> Attempt<EncTicketPart, ApRefusal>
    // Promise (value, within): an AP-REQ's ticket is decrypted, or the first rule that refuses it is returned, unless
    // memory runs out; the encoding of what was decrypted is no longer than the cipher.
    ensures value { IfOk result (λ found. found ≡ shown_ticket held.now ap.now) }
    ensures within { IfOk result (λ found.
        IfOk found (λ part. IsSpelledWithin enc_ticket_part part ap.now.ticket.enc_part.cipher)) }
{
    let rules = ticket_rules(held, ap);
    let part = open_ticket_part(alloc, ready, held.key, &ap.ticket.enc_part)?;
    Ok(decide(&rules, part, ApRefusal::TicketNotOpened))
}

fn ticket_rules(held: &HeldKey<'_>, ap: &ApReqRef<'_>) -> [(bool, ApRefusal); 6]
    ensures { result ≡ ticket_rules held.now ap.now }
{
    [
        (is_other_version(ap), ApRefusal::BadVersion),
        (ap.msg_type != i32::from(AP_REQ), ApRefusal::BadMessageType),
        (
            ap.ap_options.has(ApOption::UseSessionKey),
            ApRefusal::SessionKeyAsked,
        ),
        (!held.is_for_us, ApRefusal::NotForUs),
        (lacks_key(held, &ap.ticket.enc_part), ApRefusal::NoKey),
        (
            lacks_version(held, &ap.ticket.enc_part),
            ApRefusal::BadKeyVersion,
        ),
    ]
}

fn is_other_version(ap: &ApReqRef<'_>) -> bool
    ensures { result ≡ is_other_version ap.now }
{
    ap.pvno != PVNO || ap.ticket.tkt_vno != PVNO
}

/// Decrypts the part with the key, if there is one.
fn open_ticket_part(
    alloc: Global,
    ready: Option<&ReadyKeys>,
    key: Option<&Key>,
    sealed: &EncryptedDataRef<'_>,
) -> Result<Option<EncTicketPart>, AllocError>
    ensures value { IfOk result (λ found.
        found
        ≡ opened_with enc_ticket_part (usage_number KeyUsage.Ticket) (option_copied key.entry) sealed.now.cipher) }
    ensures within { IfOk result (λ found.
        IfSome found (λ part. IsSpelledWithin enc_ticket_part part sealed.now.cipher)) }
{
    match key {
        Some(key) => open_by(
            alloc,
            ready,
            key,
            KeyUsage::Ticket,
            sealed.cipher.as_slice(),
        ),
        None => Ok(None),
    }
}
