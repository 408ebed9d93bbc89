//! Checks a login against a key that the network doesn't know (RFC 4120, section 3.1.5).
ghost use Rattle.std.specs.Prelude.{◌≡◌, IfErr, IfOk, Ok, option_copied};
ghost use Rattle.client_core.specs.Replies.{is_principal};
ghost use Rattle.client_core.specs.Sessions.{ticket_in};
ghost use Rattle.client_core.specs.Taken.{AreSame};
ghost use Rattle.client_login.specs.Asking.{further_asked};
ghost use Rattle.client_login.specs.Draws.{HasDrawn, after_nonce, drawn_nonce};
ghost use Rattle.client_login.specs.Logins.{CarriesPresented, IsFurther};
ghost use Rattle.client_login.specs.Moments.{IsMoved};
ghost use Rattle.client_login.specs.Places.{AreWithin};
ghost use Rattle.client_login.specs.Replies.{IsExchanged};
ghost use Rattle.client_login.specs.Verifying.{IsTicketOf, IsUnverified, IsValidAt, if_of, if_valid, is_of};
ghost use Rattle.client_login.specs.Verifying.{is_session_key};
ghost use Rattle.client_login.specs.Verifying.{is_valid, opened, part_by, part_in, part_under, verified};

use crate::client::KdcClient;
use crate::faults::{LoginError, TicketError};
use crate::network::Network;
use ap_req::{has_ended, has_not_started, keytab_key, ticket_terms};
use cred_files::{Credential, Keytab, Principal, SessionKey};
use encrypted_data::open_part;
use enctypes::{Key, KeyUsage};
use krb_elements::read;
use krb_fields::{Moment, Name, TicketFlag, Typed};
use krb_types::{EncTicketPart, TicketRef};
use rand_core::Rng;
use rule_lists::Attempt;
use std::alloc::{AllocError, Global};
use std::cmp::Ordering;

impl<X: Network> KdcClient<X> {
    /// Checks that the KDC that logged the client in is the realm's. It gets a ticket for a service whose keytab is at
    /// hand, and checks it with [`verified_ticket`], at the client's moment. Returns that ticket.
    ///
    /// **A program that lets somebody in by a password has to call this.** `log_in` alone shows that a KDC knows the
    /// password. The person who types it may also answer in the KDC's place. So the service's key has to be random, and
    /// the moment that of the computer's own clock.
    #[tactic(auto, using(crate::proofs::Verified::verified_login))]
    pub fn verify<R: Rng>(
        &mut self,
        rng: &mut R,
        granting: &Credential,
        service: &Name,
        keytab: &Keytab,
    ) -> Result<Credential, TicketError>
        requires { CarriesPresented X.carries granting.now
            (further_asked 0 granting.now.client service.now (drawn_nonce (R.stream rng.old)))
            self.old.at (after_nonce (R.stream rng.old)) }
        // A key of the keytab decrypts the ticket, to the client and the session key of the KDC's reply.
        // Promise (ok, client): **a verified login is the realm's**: a key of the service's keytab decrypts the ticket,
        // to the client that logged in and the session key of the KDC's reply.
        // Promise, as Network::exchange: **no message is sent ..
        // Promise, as KdcClient::service_ticket: a further ticket is ..
        // Promise, as KdcClient::log_in: of two such AS-REQs ..
        // Promise, as KdcClient::log_in: the second request, after ..
        // Promise (ok, err), as KdcClient::log_in: **a KDC is one ..
        // Promise (ok, err), as KdcClient::log_in: a host that was ..
        ensures ok { IfOk result (λ credential. IsTicketOf keytab.now credential) }
        // Promise: a verified login's ticket is valid at the client's moment.
        ensures valid { IfOk result (λ credential. IsValidAt self.old.at.sec keytab.now credential) }
        // That client is the one that logged in.
        ensures client { IfOk result (λ credential.
            AreSame credential.client.realm credential.client.name granting.now.client.realm granting.now.client.name) }
        // Promise (further, err): a verified login's ticket is the one that a further request got; if the ticket that
        // came is doubted, or none came, the error says so.
        ensures further { IfOk result (λ credential. IsFurther
            (IsExchanged X.finds self.old.kdcs.places.items X.carries X.answers) granting.now
            (further_asked 0 granting.now.client service.now (drawn_nonce (R.stream rng.old)))
            self.old.at.sec credential) }
        // A ticket that came is doubted as `verified_ticket` does; or no ticket came.
        ensures err { IfErr result (λ fault. IsUnverified
            (IsExchanged X.finds self.old.kdcs.places.items X.carries X.answers) keytab.now granting.now
            (further_asked 0 granting.now.client service.now (drawn_nonce (R.stream rng.old)))
            self.old.at.sec fault.why fault.kdc) }
        // Promise, as KdcClient::log_in: after a call the client's moment is as ..
        ensures moved { IsMoved self.old.at self.new.at }
        // Promise, as KdcClient::log_in: a call adds no ..
        ensures within { AreWithin X.finds self.old.kdcs.places.items self.new.kdcs.places.items }
        // Promise, as KdcClient::log_in: a call doesn't change whether the client's moment ..
        ensures clock { self.new.is_by_kdc ≡ self.old.is_by_kdc }
        // Promise, as KdcClient::log_in: a call draws from ..
        ensures drawn { HasDrawn (after_nonce (R.stream rng.old)) (R.stream rng.new) }
    {
        let at = self.at;
        let credential = self.service_ticket(rng, granting, service)?;
        match verified_ticket(self.alloc, keytab, &credential, at)? {
            Ok(_) => Ok(credential),
            Err(doubt) => Err(TicketError::new(doubt)),
        }
    }
}

/// Decrypts the ticket of a credential as [`opened_ticket`] does, and checks that it is valid at a moment. Up to the
/// clock skew, it has started and has not ended; and it needs no validation.
pub fn verified_ticket(
    alloc: Global,
    keytab: &Keytab,
    credential: &Credential,
    at: Moment,
) -> Attempt<EncTicketPart, LoginError>
    // Promise, as KdcClient::verify: a verified login's ticket is valid ..
    ensures { IfOk result (λ found. found ≡ verified keytab.now at.sec credential.now) }
{
    match opened_ticket(alloc, keytab, credential)? {
        Ok(part) => Ok(if_valid(at, part)),
        Err(doubt) => Ok(Err(doubt)),
    }
}

/// Decrypts the ticket of a credential with the key of the keytab that it names. Only a KDC that knows this key can
/// have sealed it. Fails if it is for another client, or has another session key, than the credential: then it was
/// sealed for somebody else, or at another time.
#[tactic(auto, using(crate::proofs::Verified::opened_if))]
pub fn opened_ticket(
    alloc: Global,
    keytab: &Keytab,
    credential: &Credential,
) -> Attempt<EncTicketPart, LoginError>
    // Promise (value, is), as KdcClient::verify: **a verified login is ..
    ensures value { IfOk result (λ found. found ≡ opened keytab.now credential.now) }
    ensures is { IfOk result (λ found. IfOk found (λ part. IsTicketOf keytab.now credential.now)) }
{
    match decrypted(alloc, keytab, credential.ticket.as_slice())? {
        Ok(part) => Ok(require_match(credential, part)),
        Err(doubt) => Ok(Err(doubt)),
    }
}

/// Decrypts the ticket that bytes encode.
fn decrypted(alloc: Global, keytab: &Keytab, octets: &[u8]) -> Attempt<EncTicketPart, LoginError>
    ensures { IfOk result (λ found. found ≡ part_in keytab.now (ticket_in octets.now)) }
{
    let Ok(ticket) = read::<TicketRef<'_>>(octets) else {
        return Ok(Err(LoginError::TicketNotOpened));
    };
    let service = ticket.sname.to_name(alloc)?;
    part_by(alloc, keytab_key(keytab, &ticket, &service), &ticket)
}

fn part_by(
    alloc: Global,
    key: Option<&Key>,
    ticket: &TicketRef<'_>,
) -> Attempt<EncTicketPart, LoginError>
    ensures { IfOk result (λ found. found ≡ part_by (option_copied key.entry) ticket.now) }
{
    match key {
        Some(key) => Ok(part_under(alloc, key, ticket)?.ok_or(LoginError::TicketNotOpened)),
        None => Ok(Err(LoginError::NoServiceKey)),
    }
}

fn part_under(
    alloc: Global,
    key: &Key,
    ticket: &TicketRef<'_>,
) -> Result<Option<EncTicketPart>, AllocError>
    ensures { IfOk result (λ found. found ≡ part_under key.now ticket.now) }
{
    let cipher = ticket.enc_part.cipher.as_slice();
    open_part(alloc, key, KeyUsage::Ticket, cipher)
}

fn require_match(credential: &Credential, part: EncTicketPart) -> Result<EncTicketPart, LoginError>
    ensures { result ≡ if_of credential.now (Ok part) }
{
    if matches_credential(credential, &part) {
        Ok(part)
    } else {
        Err(LoginError::OtherTicket)
    }
}

fn if_valid(at: Moment, part: EncTicketPart) -> Result<EncTicketPart, LoginError>
    ensures { result ≡ if_valid at.sec (Ok part) }
{
    if is_valid(&part, at) {
        Ok(part)
    } else {
        Err(LoginError::TicketNotValid)
    }
}

/// Checks whether a ticket has the credential's client and session key.
fn matches_credential(credential: &Credential, part: &EncTicketPart) -> bool
    ensures { result ≡ is_of credential.now part.now }
{
    is_client(&credential.client, part) && is_session_key(&credential.key, &part.key)
}

fn is_client(client: &Principal, part: &EncTicketPart) -> bool
    ensures { result ≡ is_principal part.now.crealm part.now.cname client.now.realm client.now.name }
{
    part.crealm.as_slice() == client.realm.as_slice()
        && part.cname.order(&client.name) == Ordering::Equal
}

fn is_session_key(key: &SessionKey, found: &Typed) -> bool
    ensures { result ≡ is_session_key key.now found.now }
{
    found.number == i32::from(key.key_type) && found.octets.as_slice() == key.octets.as_slice()
}

fn is_valid(part: &EncTicketPart, at: Moment) -> bool
    ensures { result ≡ is_valid at.sec part.now }
{
    let ticket = ticket_terms(part);
    !has_not_started(&ticket, at) && !ticket.has(TicketFlag::Invalid) && !has_ended(&ticket, at)
}
