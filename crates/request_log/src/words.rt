//! The words for error codes.
ghost use Rattle.std.specs.Prelude.{◌≡◌};
ghost use Rattle.request_log.specs.Words.{code_word};

use krb_fields::Code;

/// Returns a word for an error code (RFC 4120, section 7.5.9). Codes that several rules share have one word.
pub fn code_word(code: Code) -> &'static str
    ensures { result.now ≡ code_word code }
{
    match code {
        Code::KdcErrNameExp => "client-expired",
        Code::KdcErrServiceExp => "service-expired",
        Code::KdcErrBadPvno => "bad-version",
        Code::KdcErrCPrincipalUnknown => "client-unknown",
        Code::KdcErrSPrincipalUnknown => "service-unknown",
        Code::KdcErrCannotPostdate => "cannot-postdate",
        Code::KdcErrNeverValid => "never-valid",
        Code::KdcErrPolicy => "policy",
        Code::KdcErrBadoption => "bad-option",
        Code::KdcErrEtypeNosupp => "no-common-type",
        Code::KdcErrSumtypeNosupp => "no-checksum-type",
        Code::KdcErrPadataTypeNosupp => "no-padata-type",
        Code::KdcErrClientRevoked => "client-revoked",
        Code::KdcErrServiceRevoked => "service-revoked",
        Code::KdcErrTgtRevoked => "ticket-revoked",
        Code::KdcErrKeyExpired => "password-expired",
        Code::KdcErrPreauthFailed => "preauthentication-failed",
        Code::KdcErrPreauthRequired => "preauthentication-required",
        Code::KdcErrServerNomatch => "service-mismatch",
        Code::KdcErrSvcUnavailable => "unavailable",
        Code::KrbApErrBadIntegrity => "bad-integrity",
        Code::KrbApErrTktExpired => "ticket-expired",
        Code::KrbApErrTktNyv => "ticket-not-yet-valid",
        Code::KrbApErrRepeat => "repeat",
        Code::KrbApErrNotUs => "ticket-not-for-us",
        Code::KrbApErrBadmatch => "ticket-mismatch",
        Code::KrbApErrSkew => "clock-skew",
        Code::KrbApErrBadaddr => "bad-address",
        Code::KrbApErrBadversion => "bad-version",
        Code::KrbApErrMsgType => "bad-message-type",
        Code::KrbApErrModified => "modified",
        Code::KrbApErrBadkeyver => "no-key-of-that-version",
        Code::KrbApErrNokey => "no-key",
        Code::KrbApErrInappCksum => "unfit-checksum",
        Code::KrbApPathNotAccepted => "path-not-accepted",
        Code::KrbErrResponseTooBig => "response-too-big",
        Code::KrbErrGeneric => "generic",
        Code::KrbErrFieldToolong => "field-too-long",
    }
}
