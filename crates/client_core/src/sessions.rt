//! The session of a credential: a ticket, and its session key.
ghost use Rattle.std.specs.Prelude.{◌≡◌, ◌<◌, length, IfOk, IfSome, is_some};
ghost use Rattle.krb_types.specs.Ticket.{ticket};
ghost use Rattle.client_core.specs.Sessions.{IsPresentable, is_presentable, session, session_key, ticket_in};
ghost use Rattle.client_core.specs.Sessions as definitions;

use cred_files::Credential;
use encrypted_data::supported_key;
use enctypes::Key;
use krb_elements::read;
use krb_fields::is_component;
use krb_types::{Ticket, TicketRef};
use std::alloc::{AllocError, Global};

/// The greatest size of a ticket, or of a checksum, that a client sends, in bytes.
pub const MAX_OCTETS_SENT: usize = 16_777_216;

/// A ticket, and the session key in it.
#[derive(Drop)]
pub struct Session {
    /// The ticket, as the service gets it.
    pub ticket: Ticket,
    /// The key that encrypts the client's authenticators.
    pub key: Key,
}

/// Returns the credential's session key; `None` if its type isn't one of the four, or its length doesn't fit its type.
pub fn session_key(credential: &Credential) -> Option<Key>
    // Promise, as Asked::is_askable: `is_askable` says whether a ..
    ensures { result ≡ session_key credential.now }
{
    supported_key(
        i32::from(credential.key.key_type),
        credential.key.octets.as_slice(),
    )
}

/// Checks whether the credential can be presented: its key has one of the four types, its ticket encodes a Ticket and
/// has at most [`MAX_OCTETS_SENT`] bytes, and the client's realm and name are within the limits of a database.
pub fn is_presentable(credential: &Credential) -> bool
    // Promise, as Asked::is_askable: `is_askable` says whether a ..
    ensures { result ≡ is_presentable credential.now }
{
    let ticket = credential.ticket.as_slice();
    session_key(credential).is_some()
        && is_ticket(ticket)
        && is_component(credential.client.realm.as_slice())
        && credential.client.name.is_within_limits()
        && ticket.len() <= MAX_OCTETS_SENT
}

/// Checks whether the bytes encode a Ticket.
fn is_ticket(octets: &[u8]) -> bool
    ensures { result ≡ is_some (ticket_in octets.now) }
{
    read::<TicketRef<'_>>(octets).is_ok()
}

/// Returns the Ticket that the bytes encode.
fn ticket_in(alloc: Global, octets: &[u8]) -> Result<Option<Ticket>, AllocError>
    ensures value { IfOk result (λ found. found ≡ ticket_in octets.now) }
    ensures short { IfOk result (λ found. IfSome found (λ t. length (ticket.text t) < length octets.now)) }
{
    match read::<TicketRef<'_>>(octets) {
        Ok(found) => Ok(Some(found.to_ticket(alloc)?)),
        Err(_) => Ok(None),
    }
}

/// Returns the session of the credential.
pub fn session_of(alloc: Global, credential: &Credential) -> Result<Session, AllocError>
    requires { IsPresentable credential.now }
    ensures value { IfOk result (λ found. definitions.session credential.now ≡ Some found) }
    ensures short { IfOk result (λ found. length (ticket.text found.ticket) < 16777216) }
{
    let ticket = ticket_in(alloc, credential.ticket.as_slice())?.unwrap();
    let key = session_key(credential).unwrap();
    Ok(Session { ticket, key })
}
