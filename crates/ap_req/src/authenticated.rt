//! The proof that comes with a ticket.
use enctypes::Key;
use krb_types::Authenticator;

/// The proof that the sender of a ticket has its session key.
#[derive(Debug, Drop)]
pub struct Authenticated {
    /// The ticket's session key.
    pub session_key: Key,
    /// The authenticator, decrypted with the session key.
    pub authenticator: Authenticator,
    /// The key that the client chose for what follows, if it chose one.
    pub subkey: Option<Key>,
}
