//! The reasons to refuse an AS-REQ.
ghost use Rattle.std.specs.Prelude.{◌≡◌, ◌<◌};
ghost use Rattle.as_exchange.specs.Answer.{sequel_of};
ghost use Rattle.as_exchange.specs.Refusal.{code_of, place_of, refusal_count, word_of};

use krb_fields::Code;

/// The reasons to refuse an AS-REQ, in the order in which they are checked.
#[derive(Clone, Copy, Debug, PartialEq, Eq)]
pub enum AsRefusal {
    /// The pvno is not 5.
    BadVersion,
    /// The msg-type is not 10.
    BadMessageType,
    /// The realm is another one, there is no cname, or it has no row.
    ClientUnknown,
    /// There is no sname, or it has no row.
    ServiceUnknown,
    /// No tickets may be issued for the service, and it is not the ticket-granting service.
    ServiceDenied,
    /// The client is disabled.
    ClientDisabled,
    /// The client is locked now, after failures.
    ClientLocked,
    /// The client's row has expired.
    ClientExpired,
    /// The client's password has expired.
    PasswordExpired,
    /// The service is disabled.
    ServiceRevoked,
    /// The service's row has expired.
    ServiceExpired,
    /// FORWARDED, PROXY, ENC-TKT-IN-SKEY, RENEW or VALIDATE is requested.
    BadOption,
    /// The client, or the service, has no current key of a requested type.
    NoCommonType,
    /// The first PA-ENC-TIMESTAMP is malformed, has a type for which the client has no current key, or can't be
    /// decrypted.
    PreauthFailed,
    /// The timestamp differs from now by more than the skew.
    TimestampSkewed,
    /// There is no timestamp, and the client's row requires one.
    PreauthRequired,
    /// POSTDATED or ALLOW-POSTDATE is requested, and one of the rows forbids postdating.
    PostdatingRefused,
    /// Without POSTDATED, `from` is later than now by more than the skew.
    StartsTooLate,
    /// The ticket would not end after it starts.
    NeverValid,
}

/// What a refusal causes besides its error code.
#[derive(Clone, Copy, PartialEq, Eq)]
pub enum Effect {
    /// Nothing but the error code.
    Nothing,
    /// Counts a failure of the client.
    CountsFailure,
    /// Sends the client the methods by which it can preauthenticate.
    SendsMethods,
    /// Follows the timestamp: a good one ends the count of failures.
    FollowsTimestamp,
}

impl AsRefusal {
    /// The number of these reasons.
    pub const COUNT: usize = 19;

    /// All of these reasons, each at its place.
    pub const ALL: [AsRefusal; AsRefusal::COUNT] = [
        AsRefusal::BadVersion,
        AsRefusal::BadMessageType,
        AsRefusal::ClientUnknown,
        AsRefusal::ServiceUnknown,
        AsRefusal::ServiceDenied,
        AsRefusal::ClientDisabled,
        AsRefusal::ClientLocked,
        AsRefusal::ClientExpired,
        AsRefusal::PasswordExpired,
        AsRefusal::ServiceRevoked,
        AsRefusal::ServiceExpired,
        AsRefusal::BadOption,
        AsRefusal::NoCommonType,
        AsRefusal::PreauthFailed,
        AsRefusal::TimestampSkewed,
        AsRefusal::PreauthRequired,
        AsRefusal::PostdatingRefused,
        AsRefusal::StartsTooLate,
        AsRefusal::NeverValid,
    ];

    /// Returns the error code of the KRB-ERROR that answers it (RFC 4120, section 7.5.9).
    pub fn code(self) -> Code
        // Promise: each refusal has its error code, and causes what the definition says besides.
        ensures { result ≡ code_of self }
    {
        match self {
            AsRefusal::BadVersion => Code::KdcErrBadPvno,
            AsRefusal::BadMessageType => Code::KrbApErrMsgType,
            AsRefusal::ClientUnknown => Code::KdcErrCPrincipalUnknown,
            AsRefusal::ServiceUnknown => Code::KdcErrSPrincipalUnknown,
            AsRefusal::ServiceDenied => Code::KdcErrSPrincipalUnknown,
            AsRefusal::ClientDisabled | AsRefusal::ClientLocked => Code::KdcErrClientRevoked,
            AsRefusal::ClientExpired => Code::KdcErrNameExp,
            AsRefusal::PasswordExpired => Code::KdcErrKeyExpired,
            AsRefusal::ServiceRevoked => Code::KdcErrServiceRevoked,
            AsRefusal::ServiceExpired => Code::KdcErrServiceExp,
            AsRefusal::BadOption => Code::KdcErrBadoption,
            AsRefusal::NoCommonType => Code::KdcErrEtypeNosupp,
            AsRefusal::PreauthFailed => Code::KdcErrPreauthFailed,
            AsRefusal::TimestampSkewed => Code::KrbApErrSkew,
            AsRefusal::PreauthRequired => Code::KdcErrPreauthRequired,
            AsRefusal::PostdatingRefused => Code::KdcErrPolicy,
            AsRefusal::StartsTooLate => Code::KdcErrCannotPostdate,
            AsRefusal::NeverValid => Code::KdcErrNeverValid,
        }
    }

    /// Returns what it causes besides its error code.
    pub fn effect(self) -> Effect
        // Promise, as AsRefusal::code: each refusal has its ..
        ensures { result ≡ sequel_of self }
    {
        match self {
            AsRefusal::PreauthFailed => Effect::CountsFailure,
            AsRefusal::PreauthRequired => Effect::SendsMethods,
            AsRefusal::PostdatingRefused | AsRefusal::StartsTooLate | AsRefusal::NeverValid => {
                Effect::FollowsTimestamp
            }
            _ => Effect::Nothing,
        }
    }

    /// Returns its name in the log and among the counters.
    pub fn word(self) -> &'static str
        // Promise: each refusal has its name in the log and its place among the counters.
        ensures { result.now ≡ word_of self }
    {
        match self {
            AsRefusal::BadVersion => "bad-version",
            AsRefusal::BadMessageType => "bad-message-type",
            AsRefusal::ClientUnknown => "client-unknown",
            AsRefusal::ServiceUnknown => "service-unknown",
            AsRefusal::ServiceDenied => "service-denied",
            AsRefusal::ClientDisabled => "client-disabled",
            AsRefusal::ClientLocked => "client-locked",
            AsRefusal::ClientExpired => "client-expired",
            AsRefusal::PasswordExpired => "password-expired",
            AsRefusal::ServiceRevoked => "service-revoked",
            AsRefusal::ServiceExpired => "service-expired",
            AsRefusal::BadOption => "bad-option",
            AsRefusal::NoCommonType => "no-common-type",
            AsRefusal::PreauthFailed => "preauthentication-failed",
            AsRefusal::TimestampSkewed => "timestamp-skewed",
            AsRefusal::PreauthRequired => "preauthentication-required",
            AsRefusal::PostdatingRefused => "postdating-refused",
            AsRefusal::StartsTooLate => "starts-too-late",
            AsRefusal::NeverValid => "never-valid",
        }
    }

    /// Returns its place among those of its exchange.
    pub fn place(self) -> usize
        // Promise (value, range), as AsRefusal::word: each refusal has its ..
        ensures value { result ≡ place_of self }
        ensures range { result < refusal_count }
    {
        self as usize
    }
}
