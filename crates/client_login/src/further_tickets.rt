//! Getting tickets with a ticket-granting ticket: the ticket-granting service exchange (RFC 4120, section 3.3).
ghost use Rattle.std.specs.Prelude.{◌≡◌, ◌<◌, ◌^◌, length, IfErr, IfOk, Ok};
ghost use Rattle.client_core.specs.Replies as replies;
ghost use Rattle.client_core.specs.Taken.{IsTaken};
ghost use Rattle.client_core.specs.declared.key_role.KeyRole.TheVariants as roles;
ghost use Rattle.krb_types.specs.Ticket as tickets;
ghost use Rattle.client_login.specs.Asking.{renewal_options, further_asked};
ghost use Rattle.client_login.specs.Draws.{HasDrawn, after_nonce, drawn_nonce};
ghost use Rattle.client_login.specs.Faults.{IsFurtherFault, IsTgsRejection, SaysTgs};
ghost use Rattle.client_login.specs.Logins.{CarriesPresented, IsFurther};
ghost use Rattle.client_login.specs.Moments.{IsMoved};
ghost use Rattle.client_login.specs.Places.{AreWithin};
ghost use Rattle.client_login.specs.Replies.{IsExchanged, said_of};

use crate::asking::Reply;
use crate::client::KdcClient;
use crate::draws::draw_nonce;
use crate::faults::{LoginError, TicketError, said_by};
use crate::network::Network;
use crate::replies::Expected;
use crate::sending::{ProvingRequest, send};
use crate::ticket_requests::{FurtherTicket, Renewal, further_asked, renewal_options};
use client_core::{
    Asked, ReplyError, is_presentable, judge_tgs_reply, session_key, ticket_reply_in,
};
use cred_files::Credential;
use krb_fields::numbers::TGS_REP;
use krb_fields::{Flags, Name};
use krb_types::KdcRepRef;
use rand_core::Rng;
use std::alloc::Global;

/// A request for a further ticket, and the ticket that it presents.
#[derive(Clone, Copy)]
struct FurtherRequest<'a> {
    granting: &'a Credential,
    asked: &'a Asked,
}

impl<X: Network> KdcClient<X> {
    /// Gets a ticket for a service of the client's realm, with a ticket-granting ticket. It ends as late as that one.
    #[tactic(auto, using(crate::proofs::Steps::further))]
    pub fn service_ticket<R: Rng>(
        &mut self,
        rng: &mut R,
        granting: &Credential,
        service: &Name,
    ) -> Result<Credential, TicketError>
        // The network has to take only requests that present the ticket.
        requires { CarriesPresented X.carries granting.now
            (further_asked 0 granting.now.client service.now (drawn_nonce (R.stream rng.old)))
            self.old.at (after_nonce (R.stream rng.old)) }
        // The result is the ticket of a reply to such a request, under the session key of the ticket.
        // Promise: **a further ticket is taken from the reply of a KDC that was asked**, under the session key of the
        // ticket that was presented.
        // Promise, as Network::exchange: **no message is sent ..
        // Promise: a further ticket is requested with at most two TGS-REQs, which present the ticket.
        // Promise, as KdcClient::log_in: of two such AS-REQs ..
        // Promise, as KdcClient::log_in: the second request, after ..
        // Promise (ok, err), as KdcClient::log_in: **a KDC is one ..
        // Promise (ok, err), as KdcClient::log_in: a host that was ..
        ensures ok { IfOk result (λ credential. IsFurther
            (IsExchanged X.finds self.old.kdcs.places.items X.carries X.answers) granting.now
            (further_asked 0 granting.now.client service.now (drawn_nonce (R.stream rng.old)))
            self.old.at.sec credential) }
        // A fault is the one that the bytes of the KDC that it names report, or it names none.
        // Promise, as KdcClient::log_in: **an error says which ..
        // Promise, as KdcClient::log_in: such bytes are a ..
        // Promise, as KdcClient::log_in: an error names no ..
        ensures err { IfErr result (λ fault. IsFurtherFault
            (IsExchanged X.finds self.old.kdcs.places.items X.carries X.answers) granting.now
            (further_asked 0 granting.now.client service.now (drawn_nonce (R.stream rng.old)))
            self.old.at.sec fault.why fault.kdc) }
        // Promise, as KdcClient::log_in: after a call the client's moment is as ..
        ensures moved { IsMoved self.old.at self.new.at }
        // Promise, as KdcClient::log_in: a call adds no ..
        ensures within { AreWithin X.finds self.old.kdcs.places.items self.new.kdcs.places.items }
        // Promise, as KdcClient::log_in: a call doesn't change whether the client's moment ..
        ensures clock { self.new.is_by_kdc ≡ self.old.is_by_kdc }
        // Promise, as KdcClient::log_in: a call draws from ..
        ensures drawn { HasDrawn (after_nonce (R.stream rng.old)) (R.stream rng.new) }
    {
        let alloc = self.alloc;
        self.kdcs.network.begin();
        let nonce = draw_nonce(rng);
        let wanted = FurtherTicket {
            options: Flags::from_bits(0),
            client: &granting.client,
            service,
        };
        let asked = further_asked(alloc, &wanted, nonce)?;
        let further = FurtherRequest {
            granting,
            asked: &asked,
        };
        ask_with_ticket(self, rng, &further)
    }

    /// Gets a ticket again: renewed, with a new start; or validated, if it was postdated (RFC 4120, sections 2.3 and
    /// 2.4).
    #[tactic(auto, using(crate::proofs::Steps::further))]
    pub fn renew<R: Rng>(
        &mut self,
        rng: &mut R,
        granting: &Credential,
        renewal: Renewal,
    ) -> Result<Credential, TicketError>
        requires { CarriesPresented X.carries granting.now
            (further_asked (renewal_options renewal granting.now.flags) granting.now.client granting.now.server.name
            (drawn_nonce (R.stream rng.old)))
            self.old.at (after_nonce (R.stream rng.old)) }
        // Promise, as KdcClient::service_ticket: **a further ticket is ..
        // Promise, as Network::exchange: **no message is sent ..
        // Promise, as KdcClient::service_ticket: a further ticket is ..
        // Promise, as KdcClient::log_in: of two such AS-REQs ..
        // Promise, as KdcClient::log_in: the second request, after ..
        // Promise (ok, err), as KdcClient::log_in: **a KDC is one ..
        // Promise (ok, err), as KdcClient::log_in: a host that was ..
        ensures ok { IfOk result (λ credential. IsFurther
            (IsExchanged X.finds self.old.kdcs.places.items X.carries X.answers) granting.now
            (further_asked (renewal_options renewal granting.now.flags) granting.now.client granting.now.server.name
            (drawn_nonce (R.stream rng.old)))
            self.old.at.sec credential) }
        // Promise, as KdcClient::log_in: **an error says which ..
        // Promise, as KdcClient::log_in: such bytes are a ..
        // Promise, as KdcClient::log_in: an error names no ..
        ensures err { IfErr result (λ fault. IsFurtherFault
            (IsExchanged X.finds self.old.kdcs.places.items X.carries X.answers) granting.now
            (further_asked (renewal_options renewal granting.now.flags) granting.now.client granting.now.server.name
            (drawn_nonce (R.stream rng.old)))
            self.old.at.sec fault.why fault.kdc) }
        // Promise, as KdcClient::log_in: after a call the client's moment is as ..
        ensures moved { IsMoved self.old.at self.new.at }
        // Promise, as KdcClient::log_in: a call adds no ..
        ensures within { AreWithin X.finds self.old.kdcs.places.items self.new.kdcs.places.items }
        // Promise, as KdcClient::log_in: a call doesn't change whether the client's moment ..
        ensures clock { self.new.is_by_kdc ≡ self.old.is_by_kdc }
        // Promise, as KdcClient::log_in: a call draws from ..
        ensures drawn { HasDrawn (after_nonce (R.stream rng.old)) (R.stream rng.new) }
    {
        let alloc = self.alloc;
        self.kdcs.network.begin();
        let nonce = draw_nonce(rng);
        let wanted = FurtherTicket {
            options: renewal_options(renewal, granting.flags),
            client: &granting.client,
            service: &granting.server.name,
        };
        let asked = further_asked(alloc, &wanted, nonce)?;
        let further = FurtherRequest {
            granting,
            asked: &asked,
        };
        ask_with_ticket(self, rng, &further)
    }
}

/// Sends the request with the ticket.
#[tactic(auto, using(crate::proofs::Steps::presented))]
fn ask_with_ticket<X: Network, R: Rng>(
    client: &mut KdcClient<X>,
    rng: &mut R,
    further: &FurtherRequest<'_>,
) -> Result<Credential, TicketError>
    requires { CarriesPresented X.carries further.now.granting.now further.now.asked.now client.old.at
        (R.stream rng.old) }
    ensures ok { IfOk result (λ credential.
        IsFurther (IsExchanged X.finds client.old.kdcs.places.items X.carries X.answers)
        further.now.granting.now further.now.asked.now client.old.at.sec credential) }
    ensures err { IfErr result (λ fault. IsFurtherFault
        (IsExchanged X.finds client.old.kdcs.places.items X.carries X.answers)
        further.now.granting.now further.now.asked.now client.old.at.sec fault.why fault.kdc) }
    ensures moved { IsMoved client.old.at client.new.at }
    ensures within { AreWithin X.finds client.old.kdcs.places.items client.new.kdcs.places.items }
    ensures clock { client.new.is_by_kdc ≡ client.old.is_by_kdc }
    ensures drawn { HasDrawn (R.stream rng.old) (R.stream rng.new) }
{
    let Some(key) = session_key(further.granting) else {
        return Err(TicketError::new(LoginError::NotPresentable));
    };
    if !is_presentable(further.granting) {
        return Err(TicketError::new(LoginError::NotPresentable));
    }
    if !further.asked.is_askable() {
        return Err(TicketError::new(LoginError::NotAskable));
    }
    let expected = Expected {
        asked: further.asked,
        key: &key,
        at: client.at,
    };
    let request = ProvingRequest::Presented {
        asked: further.asked,
        granting: further.granting,
    };
    let reply = send(client, rng, &request)?;
    said_by(reply.kdc, take_presented(client.alloc, &expected, &reply))
}

/// Returns the ticket of a reply under the session key of the presented ticket.
#[tactic(auto, using(crate::proofs::Takings::took_tgs, crate::proofs::Takings::rejected_tgs))]
fn take_presented(
    alloc: Global,
    expected: &Expected<'_>,
    reply: &Reply,
) -> Result<Credential, LoginError>
    requires { replies.refusal_in reply.now.octets.items ≡ said_of reply.now.refusal }
    ensures ok { IfOk result (λ credential. IsTaken TGS_REP roles.Session expected.now.asked.now expected.now.key.now
        expected.now.at.sec reply.now.octets.items credential) }
    ensures err { IfErr result (λ why. SaysTgs expected.now.key.now expected.now.asked.now expected.now.at.sec why
        reply.now.octets.items) }
{
    if let Some(refusal) = &reply.refusal {
        return Err(LoginError::Refused(refusal.error));
    }
    let Some(ticket) = ticket_reply_in(&reply.octets) else {
        return Err(LoginError::NotAReply);
    };
    take(alloc, expected, &ticket)
}

/// Returns the ticket of a reply, if it is the one that is expected.
fn take(
    alloc: Global,
    expected: &Expected<'_>,
    ticket: &KdcRepRef<'_, TGS_REP>,
) -> Result<Credential, LoginError>
    requires { length (tickets.ticket.text ticket.now.ticket) < 2 ^ 32 }
    ensures ok { IfOk result (λ credential.
        replies.judged TGS_REP roles.Session expected.now.asked.now expected.now.key.now expected.now.at.sec ticket.now
        ≡ Ok credential) }
    ensures err { IfErr result (λ why. IsTgsRejection
        (replies.judged TGS_REP roles.Session expected.now.asked.now expected.now.key.now
        expected.now.at.sec ticket.now) why) }
{
    match judge_tgs_reply(
        alloc,
        expected.asked,
        expected.key,
        false,
        expected.at,
        ticket,
    ) {
        Ok(credential) => Ok(credential),
        Err(ReplyError::Mismatch(what)) => Err(LoginError::Mismatch(what)),
        Err(ReplyError::CannotOpen) => Err(LoginError::SessionCannotOpen),
        // a reply has no other fault
        Err(_) => Err(LoginError::Memory),
    }
}
