//! A sentence for each rule that refuses an AP-REQ, for logs.
use crate::ApRefusal;
use std::fmt;

impl ApRefusal {
    /// Returns the name of its code in RFC 4120, section 7.5.9, and a sentence that says what the rule found.
    pub fn text(self) -> &'static str {
        match self {
            ApRefusal::BadVersion => "KRB_AP_ERR_BADVERSION: the protocol version is not 5",
            ApRefusal::BadMessageType =>
                "KRB_AP_ERR_MSG_TYPE: the message type is not that of an AP-REQ",
            ApRefusal::SessionKeyAsked =>
                "KRB_AP_ERR_NOKEY: the client asks for user-to-user authentication, which is not supported",
            ApRefusal::NotForUs => "KRB_AP_ERR_NOT_US: the ticket is for another service",
            ApRefusal::NoKey =>
                "KRB_AP_ERR_NOKEY: the keytab has no key of the service with the ticket's encryption type",
            ApRefusal::BadKeyVersion =>
                "KRB_AP_ERR_BADKEYVER: the keytab has no key of the service with the ticket's key version",
            ApRefusal::TicketNotOpened =>
                "KRB_AP_ERR_BAD_INTEGRITY: the keytab's key does not decrypt the ticket: \
                 it is another key of the same version, or the ticket was changed",
            ApRefusal::ForeignClient => "KRB_AP_PATH_NOT_ACCEPTED: the client is of another realm",
            ApRefusal::BoundAddress => "KRB_AP_ERR_BADADDR: the ticket is bound to addresses",
            ApRefusal::BadSessionKey =>
                "KDC_ERR_ETYPE_NOSUPP: the ticket's session key has an encryption type that is not supported",
            ApRefusal::AuthenticatorNotOpened =>
                "KRB_AP_ERR_BAD_INTEGRITY: the ticket's session key does not decrypt the authenticator: \
                 the sender has another key",
            ApRefusal::BadMatch =>
                "KRB_AP_ERR_BADMATCH: the ticket and the authenticator name different clients",
            ApRefusal::BadSubkey =>
                "KDC_ERR_ETYPE_NOSUPP: the subkey has an encryption type that is not supported",
            ApRefusal::Skewed =>
                "KRB_AP_ERR_SKEW: the clocks differ too much, or the service was just restarted",
            ApRefusal::Repeated => "KRB_AP_ERR_REPEAT: the authenticator was seen before",
            ApRefusal::Full => "KDC_ERR_SVC_UNAVAILABLE: the replay cache of the client is full",
            ApRefusal::NotYetValid => "KRB_AP_ERR_TKT_NYV: the ticket is not yet valid",
            ApRefusal::TicketExpired => "KRB_AP_ERR_TKT_EXPIRED: the ticket has expired",
        }
    }
}

impl fmt::Display for ApRefusal {
    fn fmt<W: fmt::Write>(&self, f: &mut fmt::Formatter<W>) -> fmt::Result {
        f.write_str(self.text())
    }
}
