//! The reasons to refuse an AP-REQ.
ghost use Rattle.std.specs.Prelude.{◌≡◌, ◌<◌};
ghost use Rattle.ap_req.specs.Refusal.{code_by, code_of, place_of, refusal_count, word_of};

use krb_fields::Code;

/// The rules that refuse an AP-REQ (RFC 4120, section 3.2.3), in the order in which they are checked.
#[derive(Debug, Clone, Copy, PartialEq, Eq)]
pub enum ApRefusal {
    // what the request presents
    /// The AP-REQ's pvno or the ticket's tkt-vno is not 5.
    BadVersion,
    /// The msg-type is not 14.
    BadMessageType,
    /// The option USE-SESSION-KEY is set.
    SessionKeyAsked,
    /// The ticket is for another service.
    NotForUs,
    /// No key of the ticket's encryption type may decrypt tickets of its service.
    NoKey,
    /// The ticket names a version of the key that is not there.
    BadKeyVersion,
    /// The key does not decrypt the ticket to an EncTicketPart.
    TicketNotOpened,
    /// The ticket's crealm is not its realm.
    ForeignClient,
    /// The ticket has a caddr, even an empty list.
    BoundAddress,
    /// The session key is no key of the four types.
    BadSessionKey,
    /// The authenticator has another type than the session key, or that key does not decrypt it to an Authenticator.
    AuthenticatorNotOpened,
    /// The authenticator's crealm or cname is not the ticket's.
    BadMatch,
    /// The authenticator has a subkey that is no key of the four types.
    BadSubkey,
    // whether the authenticator is timely and new
    /// The authenticator's time differs from now by more than the skew, or is too old to be compared.
    Skewed,
    /// The replay cache has the authenticator.
    Repeated,
    /// The replay cache is full.
    Full,
    // whether the ticket is valid; by now the authenticator is recorded
    /// The ticket starts later than now by more than the skew, or is INVALID and not to be validated.
    NotYetValid,
    /// The ticket ended longer ago than the skew.
    TicketExpired,
}

impl ApRefusal {
    /// The number of these rules.
    pub const COUNT: usize = 18;

    /// All of these rules, each at its place.
    pub const ALL: [ApRefusal; ApRefusal::COUNT] = [
        ApRefusal::BadVersion,
        ApRefusal::BadMessageType,
        ApRefusal::SessionKeyAsked,
        ApRefusal::NotForUs,
        ApRefusal::NoKey,
        ApRefusal::BadKeyVersion,
        ApRefusal::TicketNotOpened,
        ApRefusal::ForeignClient,
        ApRefusal::BoundAddress,
        ApRefusal::BadSessionKey,
        ApRefusal::AuthenticatorNotOpened,
        ApRefusal::BadMatch,
        ApRefusal::BadSubkey,
        ApRefusal::Skewed,
        ApRefusal::Repeated,
        ApRefusal::Full,
        ApRefusal::NotYetValid,
        ApRefusal::TicketExpired,
    ];

    /// Returns the code that a service answers with.
    pub fn code(self) -> Code
        // Promise, as AsRefusal::code of as_exchange: each refusal has its ..
        ensures { result ≡ code_of self }
    {
        self.code_by(Code::KrbApPathNotAccepted)
    }

    /// Returns the code that a server answers with. Servers differ in the one for a foreign client.
    pub fn code_by(self, foreign_client: Code) -> Code
        // Promise, as AsRefusal::code of as_exchange: each refusal has its ..
        ensures { result ≡ code_by foreign_client self }
    {
        match self {
            ApRefusal::BadVersion => Code::KrbApErrBadversion,
            ApRefusal::BadMessageType => Code::KrbApErrMsgType,
            ApRefusal::SessionKeyAsked => Code::KrbApErrNokey,
            ApRefusal::NotForUs => Code::KrbApErrNotUs,
            ApRefusal::NoKey => Code::KrbApErrNokey,
            ApRefusal::BadKeyVersion => Code::KrbApErrBadkeyver,
            ApRefusal::TicketNotOpened => Code::KrbApErrBadIntegrity,
            ApRefusal::ForeignClient => foreign_client,
            ApRefusal::BoundAddress => Code::KrbApErrBadaddr,
            ApRefusal::BadSessionKey => Code::KdcErrEtypeNosupp,
            ApRefusal::AuthenticatorNotOpened => Code::KrbApErrBadIntegrity,
            ApRefusal::BadMatch => Code::KrbApErrBadmatch,
            ApRefusal::BadSubkey => Code::KdcErrEtypeNosupp,
            ApRefusal::Skewed => Code::KrbApErrSkew,
            ApRefusal::Repeated => Code::KrbApErrRepeat,
            ApRefusal::Full => Code::KdcErrSvcUnavailable,
            ApRefusal::NotYetValid => Code::KrbApErrTktNyv,
            ApRefusal::TicketExpired => Code::KrbApErrTktExpired,
        }
    }

    /// Returns its name in the log and among the counters.
    pub fn word(self) -> &'static str
        // Promise, as AsRefusal::word of as_exchange: each refusal has its ..
        ensures { result.now ≡ word_of self }
    {
        match self {
            ApRefusal::BadVersion => "bad-ticket-version",
            ApRefusal::BadMessageType => "bad-ap-message-type",
            ApRefusal::SessionKeyAsked => "session-key-asked",
            ApRefusal::NotForUs => "not-for-us",
            ApRefusal::NoKey => "no-key",
            ApRefusal::BadKeyVersion => "bad-key-version",
            ApRefusal::TicketNotOpened => "ticket-not-opened",
            ApRefusal::ForeignClient => "foreign-client",
            ApRefusal::BoundAddress => "bound-address",
            ApRefusal::BadSessionKey => "bad-session-key",
            ApRefusal::AuthenticatorNotOpened => "authenticator-not-opened",
            ApRefusal::BadMatch => "bad-match",
            ApRefusal::BadSubkey => "bad-subkey",
            ApRefusal::Skewed => "skewed",
            ApRefusal::Repeated => "repeated",
            ApRefusal::Full => "full",
            ApRefusal::NotYetValid => "not-yet-valid",
            ApRefusal::TicketExpired => "ticket-expired",
        }
    }

    /// Returns its place among these rules.
    pub fn place(self) -> usize
        // Promise (value, range), as AsRefusal::word of as_exchange: each refusal has its ..
        ensures value { result ≡ place_of self }
        ensures range { result < refusal_count }
    {
        self as usize
    }
}
