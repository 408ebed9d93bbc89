//! What a client expects of a KDC's reply.

use client_core::Asked;
use enctypes::Key;
use krb_fields::Moment;

/// What a client expects of a reply.
#[derive(Clone, Copy)]
pub(crate) struct Expected<'a> {
    /// The request that the reply has to answer.
    pub asked: &'a Asked,
    /// The key that decrypts it: a key of the client's, or the session key of the presented ticket.
    pub key: &'a Key,
    /// The client's moment, from which the start of the ticket may differ by the skew.
    pub at: Moment,
}
