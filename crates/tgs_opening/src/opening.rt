//! Decrypts and checks what a TGS-REQ presents (RFC 4120, sections 3.2.3 and 3.3.2).
ghost use Rattle.std.specs.Prelude.{◌≡◌, ◌<◌, length, IfOk, IfSome};
ghost use Rattle.krb_elements.specs.Codec.{list_of};
ghost use Rattle.krb_fields.specs.Typed.{typed};
ghost use Rattle.tgs_opening.specs.Opening.{authenticated, by_authenticated, by_ticket, opened_ticket, presented};
ghost use Rattle.tgs_opening.specs.Opening.{with_subkey};
ghost use Rattle.tgs_opening.specs.Tickets.{tgs_data};

use crate::authenticators::checked_subkey;
use crate::opened::OpenedTicket;
use crate::presented::Presented;
use crate::refusal::TgsRefusal;
use crate::rejection::OpeningRefusal;
use crate::tickets::{ap_req_of, shown_ticket};
use crate::view::TicketView;
use ap_req::{Authenticated, checked_session_key, open_authenticator};
use enctypes::{Key, KeyUsage};
use krb_types::{Authenticator, KdcReqRef};
use rule_lists::Attempt;
use std::alloc::Global;

/// Decrypts and checks what a TGS-REQ presents. Otherwise returns the first rule that refuses it, with the ticket's
/// client if the ticket could be decrypted.
///
/// Until the ticket is decrypted, this allocates no more than names of the request and the ticket's cipher need.
pub fn tgs_open(
    alloc: Global,
    view: &TicketView<'_>,
    message: &KdcReqRef<'_>,
) -> Attempt<Presented, OpeningRefusal>
    requires { IfSome (tgs_data message.now) (λ value. length value < 2147483648) }
    // Promise: the result is what a TGS-REQ presents, or the first rule that refuses it, with the client of the ticket
    // if that was decrypted, unless memory runs out.
    ensures value { IfOk result (λ found. found ≡ presented view.now message.now) }
    // The authorization data are short enough for another ticket.
    // Promise: the presented ticket's authorization data are short enough for another ticket.
    ensures authorization { IfOk result (λ found. IfOk found (λ presented.
        IfSome presented.ticket.authorization_data (λ list. length ((list_of typed).text list) < 2147483648))) }
{
    let ticket = open_ticket(alloc, view, message)?;
    by_ticket(alloc, view, message, ticket)
}

/// Decrypts the presented ticket, or returns the first rule that refuses it.
fn open_ticket<'a>(
    alloc: Global,
    view: &TicketView<'_>,
    message: &KdcReqRef<'a>,
) -> Attempt<OpenedTicket<'a>, TgsRefusal>
    requires { IfSome (tgs_data message.now) (λ value. length value < 2147483648) }
    ensures value { IfOk result (λ found. found ≡ opened_ticket view.now message.now) }
    ensures authorization { IfOk result (λ found. IfOk found (λ ticket.
        IfSome ticket.part.authorization_data (λ list. length ((list_of typed).text list) < 2147483648))) }
{
    let ap = match ap_req_of(message) {
        Ok(ap) => ap,
        Err(rule) => return Ok(Err(rule)),
    };
    match shown_ticket(alloc, view, &message.body.value, &ap)? {
        Ok(part) => Ok(Ok(OpenedTicket { ap, part })),
        Err(refusal) => Ok(Err(TgsRefusal::Ap(refusal))),
    }
}

/// Returns what is presented, given the result for the ticket.
fn by_ticket(
    alloc: Global,
    view: &TicketView<'_>,
    message: &KdcReqRef<'_>,
    ticket: Result<OpenedTicket<'_>, TgsRefusal>,
) -> Attempt<Presented, OpeningRefusal>
    requires { IfOk ticket (λ ticket.
        IfSome ticket.part.authorization_data (λ list. length ((list_of typed).text list) < 2147483648)) }
    ensures value { IfOk result (λ found. found ≡ by_ticket view.now message.now ticket.entry) }
    ensures authorization { IfOk result (λ found. IfOk found (λ presented.
        IfSome presented.ticket.authorization_data (λ list. length ((list_of typed).text list) < 2147483648))) }
{
    match ticket {
        Ok(ticket) => {
            let shown = authenticated(alloc, view, message, &ticket)?;
            by_authenticated(alloc, ticket, shown)
        }
        Err(rule) => Ok(Err(OpeningRefusal { rule, client: None })),
    }
}

/// Checks that the sender of the ticket has its session key, or returns the first rule that refuses this.
fn authenticated(
    alloc: Global,
    view: &TicketView<'_>,
    message: &KdcReqRef<'_>,
    ticket: &OpenedTicket<'_>,
) -> Attempt<Authenticated, TgsRefusal>
    ensures { IfOk result (λ found. found ≡ authenticated view.now message.now ticket.now) }
{
    let session_key = match checked_session_key(view.realm, &ticket.part) {
        Ok(session_key) => session_key,
        Err(refusal) => return Ok(Err(TgsRefusal::Ap(refusal))),
    };
    let usage = KeyUsage::TgsReqAuthenticator;
    let sealed = &ticket.ap.authenticator;
    match open_authenticator(alloc, Some(view.ready), usage, &session_key, sealed)? {
        Ok(authenticator) => Ok(with_subkey(view, message, ticket, session_key, authenticator)),
        Err(refusal) => Ok(Err(TgsRefusal::Ap(refusal))),
    }
}

/// Checks the authenticator against the ticket and the request, and returns it with its subkey.
fn with_subkey(
    view: &TicketView<'_>,
    message: &KdcReqRef<'_>,
    ticket: &OpenedTicket<'_>,
    session_key: Key,
    authenticator: Authenticator,
) -> Result<Authenticated, TgsRefusal>
    ensures { result ≡ with_subkey message.now ticket.now session_key authenticator }
{
    let body = body_octets(message);
    let subkey = checked_subkey(view.ready, &ticket.part, &session_key, body, &authenticator)?;
    Ok(Authenticated {
        session_key,
        authenticator,
        subkey,
    })
}

/// Returns what is presented with this ticket, given the result for the authenticator.
fn by_authenticated(
    alloc: Global,
    ticket: OpenedTicket<'_>,
    shown: Result<Authenticated, TgsRefusal>,
) -> Attempt<Presented, OpeningRefusal>
    requires { IfSome ticket.part.authorization_data
        (λ list. length ((list_of typed).text list) < 2147483648) }
    ensures value { IfOk result (λ found. found ≡ by_authenticated ticket.entry shown) }
    ensures authorization { IfOk result (λ found. IfOk found (λ presented.
        IfSome presented.ticket.authorization_data (λ list. length ((list_of typed).text list) < 2147483648))) }
{
    let OpenedTicket { ap, part } = ticket;
    match shown {
        Ok(shown) => Ok(Ok(Presented {
            ticket_service: ap.ticket.sname.to_name(alloc)?,
            ticket: part,
            session_key: shown.session_key,
            authenticator: shown.authenticator,
            subkey: shown.subkey,
        })),
        Err(rule) => Ok(Err(OpeningRefusal {
            rule,
            client: Some(part.cname),
        })),
    }
}

/// Returns the bytes of the request's body, as they were sent.
fn body_octets<'a>(message: &KdcReqRef<'a>) -> &'a [u8]
    ensures { result.now ≡ message.now.body.octets }
{
    message.body.octets
}
