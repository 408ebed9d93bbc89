//! The ticket that a TGS-REQ presents, and the key that decrypts it (RFC 4120, sections 3.2.3 and 3.3.2).
ghost use Rattle.std.specs.Prelude.{◌≡◌, ◌<◌, length, ◌&&◌, nat_eq, IfOk, IfSome, is_none, option_copied};
ghost use Rattle.std.specs.Cmp.Lexicographic.{pointwise};
ghost use Rattle.rule_lists.specs.Optional.{holds_of};
ghost use Rattle.krb_types.specs.EncTicketPart.{enc_ticket_part};
ghost use Rattle.encrypted_data.specs.Parts.{IsSpelledWithin};
ghost use Rattle.ap_req.specs.Tickets.{shown_ticket as shown};
ghost use Rattle.tgs_opening.specs.Tickets.{addressee, value_ap_req, ap_req_of, held_by, held_key, holds_type};
ghost use Rattle.tgs_opening.specs.Tickets.{is_for_asked, is_named, is_ours, request_rules, row_of, tgs_data};
ghost use Rattle.tgs_opening.specs.Tickets.{if_service, ticket_key};

use crate::refusal::TgsRefusal;
use crate::view::TicketView;
use ap_req::{ApRefusal, HeldKey};
use enctypes::Key;
use krb_elements::OctetsRef;
use krb_fields::numbers::{PA_TGS_REQ, PVNO, TGS_REQ};
use krb_fields::{EncryptedDataRef, Name, NameRef};
use krb_types::{ApReqRef, EncTicketPart, KdcReqRef, ReqBodyRef, TicketRef, read_ap_req};
use preauth::{first_padata, key_by, key_numbered};
use principal_rows::{Row, Versions};
use principals::names_tgs;
use rule_lists::{Attempt, decide};
use std::alloc::{AllocError, Global};
use std::cmp::Ordering;
use ticket_times::keeps_ticket;

/// The service that a ticket is for.
#[derive(Clone, Copy, PartialEq, Eq)]
pub enum Addressee {
    /// The ticket-granting service.
    Tgs,
    /// The requested service, if the ticket is to be renewed or validated.
    AskedFor,
    /// Another service.
    Other,
}

/// Returns the AP-REQ in the request.
pub fn ap_req_of<'a>(message: &KdcReqRef<'a>) -> Result<ApReqRef<'a>, TgsRefusal>
    ensures value { result ≡ ap_req_of message.now }
    ensures short { IfOk result (λ ap.
        IfSome (tgs_data message.now) (λ value. length ap.ticket.enc_part.cipher < length value)) }
{
    let value = first_padata(PA_TGS_REQ, message.padata.as_ref());
    let rules = request_rules(message, value.is_none());
    decide(&rules, value_ap_req(value), TgsRefusal::MalformedApReq)
}

fn request_rules(message: &KdcReqRef<'_>, lacks_value: bool) -> [(bool, TgsRefusal); 3]
    requires { lacks_value ≡ is_none (tgs_data message.now) }
    ensures { result ≡ request_rules message.now }
{
    [
        (message.pvno != PVNO, TgsRefusal::BadVersion),
        (
            message.msg_type != i32::from(TGS_REQ),
            TgsRefusal::BadMessageType,
        ),
        (lacks_value, TgsRefusal::NoApReq),
    ]
}

/// Reads the AP-REQ from the value of a PA-TGS-REQ.
fn value_ap_req(value: Option<OctetsRef<'_>>) -> Option<ApReqRef<'_>>
    ensures value { result ≡ value_ap_req value.entry }
    ensures short { IfSome result (λ ap.
        IfSome value.entry (λ octets. length ap.ticket.enc_part.cipher < length octets)) }
{
    read_ap_req(value?.as_slice()).ok()
}

/// Decrypts the presented ticket, or returns the first rule that refuses it.
pub fn shown_ticket(
    alloc: Global,
    view: &TicketView<'_>,
    body: &ReqBodyRef<'_>,
    ap: &ApReqRef<'_>,
) -> Attempt<EncTicketPart, ApRefusal>
    ensures value { IfOk result (λ found. found ≡ shown (held_key view.now body.now ap.now.ticket) ap.now) }
    ensures within { IfOk result (λ found.
        IfOk found (λ part. IsSpelledWithin enc_ticket_part part ap.now.ticket.enc_part.cipher)) }
{
    let whom = find_addressee(alloc, view.realm, body, &ap.ticket.sname)?;
    let is_ours = is_for_us(view, &ap.ticket, whom);
    let held = held_by(is_ours, addressee_row(view, whom), &ap.ticket.enc_part);
    ap_req::shown_ticket(alloc, Some(view.ready), &held, ap)
}

/// Returns the addressee of a ticket for this service.
fn find_addressee(
    alloc: Global,
    realm: &[u8],
    body: &ReqBodyRef<'_>,
    ticket_service: &NameRef<'_>,
) -> Result<Addressee, AllocError>
    ensures { IfOk result (λ found. found ≡ addressee realm.now body.now ticket_service.now) }
{
    if names_tgs(ticket_service, realm) {
        return Ok(Addressee::Tgs);
    }
    if is_for_asked(alloc, body, ticket_service)? {
        return Ok(Addressee::AskedFor);
    }
    Ok(Addressee::Other)
}

/// Checks whether it is the requested service, and the request renews or validates a ticket for it.
fn is_for_asked(
    alloc: Global,
    body: &ReqBodyRef<'_>,
    ticket_service: &NameRef<'_>,
) -> Result<bool, AllocError>
    ensures { IfOk result (λ found. found ≡ is_for_asked body.now ticket_service.now) }
{
    if !keeps_ticket(body) {
        return Ok(false);
    }
    let ticket_service = ticket_service.to_name(alloc)?;
    Ok(is_named(body.sname.as_ref(), &ticket_service))
}

/// Checks whether the name is this service's. Only the components count.
pub fn is_named(name: Option<&NameRef<'_>>, service: &Name) -> bool
    // Promise: `is_named` says whether a name, if there is one, is this service's.
    ensures { result ≡ is_named (option_copied name.entry) service.now }
{
    match name {
        Some(name) => name.order(service) == Ordering::Equal,
        None => false,
    }
}

/// Returns the row whose keys may have encrypted the ticket.
fn addressee_row<'v>(view: &TicketView<'v>, whom: Addressee) -> Option<&'v Row>
    ensures { option_copied result ≡ row_of view.now whom }
{
    match whom {
        Addressee::Tgs => view.tgs,
        Addressee::AskedFor => if_service(view.service),
        Addressee::Other => None,
    }
}

/// Returns the row if tickets are issued for its principal. Otherwise no ticket is decrypted with its keys: a user
/// knows the keys of a password, and could make tickets with them in any client's name.
fn if_service(row: Option<&Row>) -> Option<&Row>
    ensures { option_copied result ≡ if_service (option_copied row.entry) }
{
    let row = row?;
    if row.policy.service { Some(row) } else { None }
}

/// Checks whether the ticket is of this realm, for one of those services.
fn is_for_us(view: &TicketView<'_>, ticket: &TicketRef<'_>, whom: Addressee) -> bool
    ensures { result ≡ (pointwise nat_eq ticket.now.realm view.now.realm && is_ours whom) }
{
    ticket.realm.as_slice() == view.realm && !matches!(whom, Addressee::Other)
}

/// Returns what a row holds for a ticket.
fn held_by<'r>(is_for_us: bool, row: Option<&'r Row>, sealed: &EncryptedDataRef<'_>) -> HeldKey<'r>
    ensures { result ≡ held_by is_for_us (option_copied row.entry) sealed.now }
{
    HeldKey {
        is_for_us,
        has_type: has_type(row, sealed.etype),
        key: ticket_key(row, sealed),
    }
}

/// Checks whether there is a row, and any version of it has a key of this encryption type.
fn has_type(row: Option<&Row>, etype: i32) -> bool
    ensures { result ≡ holds_of (λ row. holds_type row.versions etype) (option_copied row.entry) }
{
    match row {
        Some(row) => holds_type(&row.versions, etype),
        None => false,
    }
}

/// Checks whether any version has a key of this encryption type.
fn holds_type(versions: &Versions, etype: i32) -> bool
    ensures { result ≡ holds_type versions.now etype }
{
    versions
        .as_slice()
        .iter()
        .any(|version| key_numbered(&version.keys, etype).is_some())
}

/// Returns the key with the ticket's encryption type and key version; without a key version, the current one.
fn ticket_key<'r>(row: Option<&'r Row>, sealed: &EncryptedDataRef<'_>) -> Option<&'r Key>
    ensures { option_copied result ≡ ticket_key (option_copied row.entry) sealed.now }
{
    key_by(&row?.versions, sealed.etype, sealed.kvno)
}
