//! What goes to a service with a ticket (RFC 4120, section 5.5.1).
use enctypes::Key;
use krb_fields::Typed;

/// What a client requests from a service, and sends it under the session key.
#[derive(Drop)]
pub struct ServiceAsked {
    /// Whether the service has to answer with an AP-REP.
    pub mutual_required: bool,
    /// The checksum of the data that goes with the ticket, by its type.
    pub checksum: Option<Typed>,
    /// The key that the client chose for what follows.
    pub subkey: Option<Key>,
    /// The sequence number at which the client's KRB-SAFE and KRB-PRIV messages start, if it uses one.
    pub seq_number: Option<u32>,
}
