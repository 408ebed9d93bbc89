//! What a service learns from an AP-REQ that it accepts.
use cred_files::Principal;
use enctypes::Key;
use krb_elements::{Octets, Seq, UInt32};
use krb_fields::{Name, Typed};
use std::fmt;
use ticket_times::TicketTerms;

/// An accepted AP-REQ: the service and the client, the ticket's terms, and what the authenticator carries (RFC 4120,
/// section 5.5.1).
#[derive(Drop)]
pub struct Accepted {
    /// The name of the service that the ticket is for, in the client's realm.
    pub service: Name,
    /// The client's realm and name, from the ticket.
    pub client: Principal,
    /// The ticket's session key.
    pub session_key: Key,
    /// The flags and times of the ticket.
    pub ticket: TicketTerms,
    /// The ticket's authorization data, each element with its type (RFC 4120, section 5.2.6). Nothing here reads it:
    /// the application decides on it.
    pub ticket_authorization: Option<Seq<Typed>>,
    /// The key that the client chose for the rest of the connection, if it chose one.
    pub subkey: Option<Key>,
    /// The sequence number at which the client's KRB-SAFE and KRB-PRIV messages start, if it uses one.
    pub seq_number: Option<UInt32>,
    /// The authenticator's checksum over the application's data, with its type. The application checks it.
    pub cksum: Option<Typed>,
    /// The authenticator's authorization data, which the client added.
    pub authorization: Option<Seq<Typed>>,
    /// The bytes of the AP-REP (RFC 4120, section 5.5.2), if the client asks the service to prove its identity.
    pub ap_rep: Option<Octets>,
}

/// Debug output may end up in logs, so it shows no key and nothing that is for the application. It shows the client,
/// when the ticket ends, and the encryption types of the keys.
impl fmt::Debug for Accepted {
    fn fmt<W: fmt::Write>(&self, f: &mut fmt::Formatter<W>) -> fmt::Result {
        write!(
            f,
            "Accepted {{ client: {}, endtime: {}, session_key: {:?}, subkey: {:?}, .. }}",
            self.client,
            self.ticket.endtime.seconds(),
            self.session_key,
            self.subkey,
        )
    }
}
