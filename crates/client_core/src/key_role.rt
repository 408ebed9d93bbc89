//! Which key decrypts the encrypted part of a KDC's reply.

/// The role of a reply's key, which gives its key usage (RFC 4120, section 7.5.1).
#[derive(Clone, Copy, PartialEq, Eq)]
pub enum KeyRole {
    /// The client's own key, for an AS-REP.
    Client,
    /// The subkey of the request's authenticator, for a TGS-REP.
    Subkey,
    /// The session key of the presented ticket, for a TGS-REP.
    Session,
}
