//! The properties of an issued ticket, for the audit record of a request.
use enctypes::Etype;
use krb_der::KTime;
use krb_fields::Flags;
use ticket_times::Times;

/// The properties of an issued ticket, without its names.
#[derive(Clone, Copy, PartialEq, Eq)]
pub struct Granted {
    /// The encryption type of the key with which the client decrypts the reply.
    pub reply_type: Etype,
    /// The encryption type of the service's key, which encrypts the ticket.
    pub ticket_type: Etype,
    /// The encryption type of the session key.
    pub session_type: Etype,
    /// The ticket's flags.
    pub flags: Flags,
    /// When the client first authenticated.
    pub authtime: KTime,
    /// The ticket's start, end and renew-till.
    pub times: Times,
}
