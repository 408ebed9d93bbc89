//! The reasons to refuse a TGS-REQ.
ghost use Rattle.std.specs.Prelude.{◌≡◌, ◌<◌};
ghost use Rattle.tgs_opening.specs.Refusal.{code_of, place_of, refusal_count, word_of};

use ap_req::ApRefusal;
use krb_fields::Code;

/// The rules that refuse a TGS-REQ. They concern its receipt (RFC 4120, sections 3.2.3 and 3.3.2), revoked tickets
/// (section 3.3.3.1) and the new ticket (section 3.3.3). Each group is in the order in which its rules are checked.
#[derive(Debug, Clone, Copy, PartialEq, Eq)]
pub enum TgsRefusal {
    // the request (sections 5.4.1 and 3.3.2)
    /// The pvno is not 5.
    BadVersion,
    /// The msg-type is not 12.
    BadMessageType,
    /// There is no PA-TGS-REQ.
    NoApReq,
    /// The first PA-TGS-REQ encodes no AP-REQ.
    MalformedApReq,
    /// A rule for every AP-REQ: for the ticket and the authenticator, the replay cache, and the ticket's times.
    Ap(ApRefusal),
    // the authenticator's checksum, between `BadMatch` and `BadSubkey` (section 3.3.2)
    /// The authenticator has no cksum.
    NoChecksum,
    /// The cksum's type is not that of the session key.
    BadChecksumType,
    /// The cksum is not that of the request's body, under the session key.
    Modified,
    // who presents the ticket, before `Skewed` (section 3.3.3.1)
    /// The ticket's client has no row.
    ClientUnknown,
    /// The client is disabled.
    ClientDisabled,
    /// The client's row has expired.
    ClientExpired,
    /// The ticket's authtime is before the client's `revoked_before`.
    TicketRevoked,
    // what it is presented for, after `TicketExpired` (another service, section 3.3.2; else 3.3.3)
    /// The requested realm is another one, there is no sname, or it has no row.
    ServiceUnknown,
    /// No tickets may be issued for the service, and it is not the ticket-granting service.
    ServiceDenied,
    /// The service is disabled.
    ServiceRevoked,
    /// The service's row has expired.
    ServiceExpired,
    /// RENEW or VALIDATE is requested with another sname than the ticket's.
    OtherService,
    /// There is an enc-authorization-data.
    AuthorizationData,
    /// ENC-TKT-IN-SKEY is requested, or RENEW with VALIDATE, or an option whose flag the ticket lacks.
    BadOption,
    /// VALIDATE is requested, and the ticket is not INVALID.
    NothingToValidate,
    /// VALIDATE is requested before the ticket starts.
    ValidatedTooEarly,
    /// RENEW is requested after the ticket's renew-till.
    RenewedTooLate,
    /// The service has no current key of a requested type.
    NoCommonType,
    /// Without POSTDATED, RENEW and VALIDATE, `from` is later than now by more than the skew.
    StartsTooLate,
    /// The ticket would not end after it starts.
    NeverValid,
}

/// The number of rules that only a TGS-REQ has.
const OWN_COUNT: usize = 24;

impl TgsRefusal {
    /// The number of all rules, with those for every AP-REQ.
    pub const COUNT: usize = OWN_COUNT + ApRefusal::COUNT;

    /// The rules that only a TGS-REQ has, each at its place. Those for every AP-REQ come after them.
    pub const OWN: [TgsRefusal; OWN_COUNT] = [
        TgsRefusal::BadVersion,
        TgsRefusal::BadMessageType,
        TgsRefusal::NoApReq,
        TgsRefusal::MalformedApReq,
        TgsRefusal::NoChecksum,
        TgsRefusal::BadChecksumType,
        TgsRefusal::Modified,
        TgsRefusal::ClientUnknown,
        TgsRefusal::ClientDisabled,
        TgsRefusal::ClientExpired,
        TgsRefusal::TicketRevoked,
        TgsRefusal::ServiceUnknown,
        TgsRefusal::ServiceDenied,
        TgsRefusal::ServiceRevoked,
        TgsRefusal::ServiceExpired,
        TgsRefusal::OtherService,
        TgsRefusal::AuthorizationData,
        TgsRefusal::BadOption,
        TgsRefusal::NothingToValidate,
        TgsRefusal::ValidatedTooEarly,
        TgsRefusal::RenewedTooLate,
        TgsRefusal::NoCommonType,
        TgsRefusal::StartsTooLate,
        TgsRefusal::NeverValid,
    ];

    /// Returns the error code of the KRB-ERROR that answers it (RFC 4120, section 7.5.9).
    pub fn code(self) -> Code
        // Promise, as AsRefusal::code of as_exchange: each refusal has its ..
        ensures { result ≡ code_of self }
    {
        match self {
            TgsRefusal::BadVersion => Code::KdcErrBadPvno,
            TgsRefusal::BadMessageType => Code::KrbApErrMsgType,
            TgsRefusal::NoApReq => Code::KdcErrPadataTypeNosupp,
            TgsRefusal::MalformedApReq => Code::KrbErrGeneric,
            TgsRefusal::Ap(refusal) => refusal.code_by(Code::KdcErrPolicy),
            TgsRefusal::NoChecksum => Code::KrbApErrInappCksum,
            TgsRefusal::BadChecksumType => Code::KdcErrSumtypeNosupp,
            TgsRefusal::Modified => Code::KrbApErrModified,
            TgsRefusal::ClientUnknown => Code::KdcErrCPrincipalUnknown,
            TgsRefusal::ClientDisabled => Code::KdcErrClientRevoked,
            TgsRefusal::ClientExpired => Code::KdcErrNameExp,
            TgsRefusal::TicketRevoked => Code::KdcErrTgtRevoked,
            TgsRefusal::ServiceUnknown => Code::KdcErrSPrincipalUnknown,
            TgsRefusal::ServiceDenied => Code::KdcErrSPrincipalUnknown,
            TgsRefusal::ServiceRevoked => Code::KdcErrServiceRevoked,
            TgsRefusal::ServiceExpired => Code::KdcErrServiceExp,
            TgsRefusal::OtherService => Code::KdcErrServerNomatch,
            TgsRefusal::AuthorizationData => Code::KdcErrPolicy,
            TgsRefusal::BadOption => Code::KdcErrBadoption,
            TgsRefusal::NothingToValidate => Code::KdcErrPolicy,
            TgsRefusal::ValidatedTooEarly => Code::KrbApErrTktNyv,
            TgsRefusal::RenewedTooLate => Code::KrbApErrTktExpired,
            TgsRefusal::NoCommonType => Code::KdcErrEtypeNosupp,
            TgsRefusal::StartsTooLate => Code::KdcErrCannotPostdate,
            TgsRefusal::NeverValid => Code::KdcErrNeverValid,
        }
    }

    /// Returns its name in the log and among the counters.
    pub fn word(self) -> &'static str
        // Promise, as AsRefusal::word of as_exchange: each refusal has its ..
        ensures { result.now ≡ word_of self }
    {
        match self {
            TgsRefusal::BadVersion => "bad-version",
            TgsRefusal::BadMessageType => "bad-message-type",
            TgsRefusal::NoApReq => "no-ap-req",
            TgsRefusal::MalformedApReq => "malformed-ap-req",
            TgsRefusal::Ap(refusal) => refusal.word(),
            TgsRefusal::NoChecksum => "no-checksum",
            TgsRefusal::BadChecksumType => "bad-checksum-type",
            TgsRefusal::Modified => "modified",
            TgsRefusal::ClientUnknown => "client-unknown",
            TgsRefusal::ClientDisabled => "client-disabled",
            TgsRefusal::ClientExpired => "client-expired",
            TgsRefusal::TicketRevoked => "ticket-revoked",
            TgsRefusal::ServiceUnknown => "service-unknown",
            TgsRefusal::ServiceDenied => "service-denied",
            TgsRefusal::ServiceRevoked => "service-revoked",
            TgsRefusal::ServiceExpired => "service-expired",
            TgsRefusal::OtherService => "other-service",
            TgsRefusal::AuthorizationData => "authorization-data",
            TgsRefusal::BadOption => "bad-option",
            TgsRefusal::NothingToValidate => "nothing-to-validate",
            TgsRefusal::ValidatedTooEarly => "validated-too-early",
            TgsRefusal::RenewedTooLate => "renewed-too-late",
            TgsRefusal::NoCommonType => "no-common-type",
            TgsRefusal::StartsTooLate => "starts-too-late",
            TgsRefusal::NeverValid => "never-valid",
        }
    }

    /// Returns its place among those of its exchange.
    pub fn place(self) -> usize
        // Promise (value, range), as AsRefusal::word of as_exchange: each refusal has its ..
        ensures value { result ≡ place_of self }
        ensures range { result < refusal_count }
    {
        match self {
            TgsRefusal::BadVersion => 0,
            TgsRefusal::BadMessageType => 1,
            TgsRefusal::NoApReq => 2,
            TgsRefusal::MalformedApReq => 3,
            TgsRefusal::NoChecksum => 4,
            TgsRefusal::BadChecksumType => 5,
            TgsRefusal::Modified => 6,
            TgsRefusal::ClientUnknown => 7,
            TgsRefusal::ClientDisabled => 8,
            TgsRefusal::ClientExpired => 9,
            TgsRefusal::TicketRevoked => 10,
            TgsRefusal::ServiceUnknown => 11,
            TgsRefusal::ServiceDenied => 12,
            TgsRefusal::ServiceRevoked => 13,
            TgsRefusal::ServiceExpired => 14,
            TgsRefusal::OtherService => 15,
            TgsRefusal::AuthorizationData => 16,
            TgsRefusal::BadOption => 17,
            TgsRefusal::NothingToValidate => 18,
            TgsRefusal::ValidatedTooEarly => 19,
            TgsRefusal::RenewedTooLate => 20,
            TgsRefusal::NoCommonType => 21,
            TgsRefusal::StartsTooLate => 22,
            TgsRefusal::NeverValid => 23,
            TgsRefusal::Ap(refusal) => OWN_COUNT + refusal.place(),
        }
    }
}
