//! What an AP-REQ presents: its ticket and its authenticator, decrypted (RFC 4120, section 3.2.3).
ghost use Rattle.std.specs.Prelude.{◌≡◌, IfOk};
ghost use Rattle.ap_req.specs.Keytab.{held_in};
ghost use Rattle.ap_req.specs.Tickets.{shown_ticket};
ghost use Rattle.ap_accept.specs.Fault.{Gives};
ghost use Rattle.ap_accept.specs.Presented.{authenticated, full_name, presented};

use crate::authenticators::checked_subkey;
use crate::fault::ApFault;
use ap_req::{ApRefusal, Authenticated, checked_session_key, held_in, open_authenticator};
use cred_files::Keytab;
use enctypes::{Key, KeyUsage};
use krb_elements::{KerberosString, Seq};
use krb_fields::{Name, NameRef};
use krb_types::{ApReqRef, Authenticator, EncTicketPart};
use rule_lists::Attempt;
use std::alloc::{AllocError, Global};

/// A ticket and an authenticator that match.
#[derive(Drop)]
pub struct Presented {
    /// The service that the ticket is for: its realm, followed by the components of its name.
    pub service: Name,
    /// That service's name, without its realm.
    pub sname: Name,
    /// The encrypted part of the ticket, decrypted with the service's key.
    pub ticket: EncTicketPart,
    /// The ticket's session key.
    pub session_key: Key,
    /// The authenticator, decrypted with the session key.
    pub authenticator: Authenticator,
    /// The key that the client chose for the rest of the connection, if it chose one.
    pub subkey: Option<Key>,
}

/// Decrypts and checks what an AP-REQ presents, or returns the first rule that refuses it.
pub fn presented_to(
    alloc: Global,
    keytab: &Keytab,
    request: &ApReqRef<'_>,
) -> Result<Presented, ApFault>
    ensures { Gives result (presented keytab.now request.now) }
{
    let sname = request.ticket.sname.to_name(alloc)?;
    let ticket = shown_ticket(alloc, keytab, request, &sname)??;
    let service = full_name(
        alloc,
        request.ticket.realm.as_slice(),
        &request.ticket.sname,
    )?;
    let shown = authenticated(alloc, request, &ticket)?;
    Ok(Presented {
        service,
        sname,
        ticket,
        session_key: shown.session_key,
        authenticator: shown.authenticator,
        subkey: shown.subkey,
    })
}

/// Decrypts the ticket, which is for this service, or returns the first rule that refuses it.
///
/// Until it is decrypted, this allocates no more than the service's name and the ticket's cipher need.
fn shown_ticket(
    alloc: Global,
    keytab: &Keytab,
    request: &ApReqRef<'_>,
    service: &Name,
) -> Attempt<EncTicketPart, ApRefusal>
    requires { service.now ≡ request.now.ticket.sname }
    ensures { IfOk result (λ found. found ≡ shown_ticket (held_in keytab.now request.now.ticket) request.now) }
{
    let held = held_in(keytab, &request.ticket, service);
    ap_req::shown_ticket(alloc, None, &held, request)
}

/// Checks that the sender of the ticket has its session key, and reads the subkey.
fn authenticated(
    alloc: Global,
    request: &ApReqRef<'_>,
    ticket: &EncTicketPart,
) -> Result<Authenticated, ApFault>
    ensures { Gives result (authenticated request.now ticket.now) }
{
    let session_key = checked_session_key(request.ticket.realm.as_slice(), ticket)?;
    let authenticator = open_authenticator(
        alloc,
        None,
        KeyUsage::ApReqAuthenticator,
        &session_key,
        &request.authenticator,
    )??;
    let subkey = checked_subkey(ticket, &authenticator)?;
    Ok(Authenticated {
        session_key,
        authenticator,
        subkey,
    })
}

/// Returns the service's name with its realm as the first component.
fn full_name(alloc: Global, realm: &[u8], name: &NameRef<'_>) -> Result<Name, AllocError>
    ensures { IfOk result (λ full. full ≡ full_name realm.now name.now) }
{
    let mut components = Seq::new(alloc);
    components.push(KerberosString::from_slice(alloc, realm)?)?;
    for component in name.components.iter() {
        components.push(KerberosString::from_slice(alloc, component.as_slice())?)?;
    }
    Ok(Name {
        name_type: name.name_type,
        components,
    })
}
