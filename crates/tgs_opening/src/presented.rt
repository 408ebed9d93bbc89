//! The ticket and the authenticator of a TGS-REQ.
use enctypes::Key;
use krb_fields::Name;
use krb_types::{Authenticator, EncTicketPart};

/// A ticket and an authenticator that match each other and the request.
#[derive(Drop)]
pub struct Presented {
    /// The service that the ticket is for.
    pub ticket_service: Name,
    /// The encrypted part of the ticket, decrypted with the service's key.
    pub ticket: EncTicketPart,
    /// The ticket's session key.
    pub session_key: Key,
    /// The authenticator, decrypted with the session key.
    pub authenticator: Authenticator,
    /// The key that the client chose for the reply, if it chose one.
    pub subkey: Option<Key>,
}
