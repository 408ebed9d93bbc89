//! The decrypted ticket of a TGS-REQ, before its authenticator is checked.
use krb_types::{ApReqRef, EncTicketPart};

/// An AP-REQ, and its decrypted ticket.
#[derive(Debug, Drop)]
pub struct OpenedTicket<'a> {
    /// The AP-REQ, borrowed from the padata of the TGS-REQ.
    pub ap: ApReqRef<'a>,
    /// The encrypted part of its ticket, decrypted.
    pub part: EncTicketPart,
}
