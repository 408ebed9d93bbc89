//! The error codes of Kerberos (RFC 4120 section 7.5.9).
ghost use Rattle.std.specs.Prelude.{◌≡◌};
ghost use Rattle.krb_fields.specs.Code.{number_of};

use crate::numbers;
use std::fmt;

/// An error code of RFC 4120 section 7.5.9 that this KDC or its services use.
#[derive(Clone, Copy, Debug, PartialEq, Eq)]
pub enum Code {
    /// KDC_ERR_NAME_EXP: the client's entry in the database has expired.
    KdcErrNameExp = numbers::KDC_ERR_NAME_EXP as isize,
    /// KDC_ERR_SERVICE_EXP: the service's entry in the database has expired.
    KdcErrServiceExp = numbers::KDC_ERR_SERVICE_EXP as isize,
    /// KDC_ERR_BAD_PVNO: the protocol version number is not supported.
    KdcErrBadPvno = numbers::KDC_ERR_BAD_PVNO as isize,
    /// KDC_ERR_C_PRINCIPAL_UNKNOWN: the client is not in the database.
    KdcErrCPrincipalUnknown = numbers::KDC_ERR_C_PRINCIPAL_UNKNOWN as isize,
    /// KDC_ERR_S_PRINCIPAL_UNKNOWN: the service is not in the database.
    KdcErrSPrincipalUnknown = numbers::KDC_ERR_S_PRINCIPAL_UNKNOWN as isize,
    /// KDC_ERR_CANNOT_POSTDATE: the ticket is not eligible for postdating.
    KdcErrCannotPostdate = numbers::KDC_ERR_CANNOT_POSTDATE as isize,
    /// KDC_ERR_NEVER_VALID: the requested start time is later than the end time.
    KdcErrNeverValid = numbers::KDC_ERR_NEVER_VALID as isize,
    /// KDC_ERR_POLICY: the KDC's policy rejects the request.
    KdcErrPolicy = numbers::KDC_ERR_POLICY as isize,
    /// KDC_ERR_BADOPTION: the KDC cannot accommodate a requested option.
    KdcErrBadoption = numbers::KDC_ERR_BADOPTION as isize,
    /// KDC_ERR_ETYPE_NOSUPP: the KDC has no support for the encryption types.
    KdcErrEtypeNosupp = numbers::KDC_ERR_ETYPE_NOSUPP as isize,
    /// KDC_ERR_SUMTYPE_NOSUPP: the KDC has no support for the checksum type.
    KdcErrSumtypeNosupp = numbers::KDC_ERR_SUMTYPE_NOSUPP as isize,
    /// KDC_ERR_PADATA_TYPE_NOSUPP: the KDC has no support for the type of padata.
    KdcErrPadataTypeNosupp = numbers::KDC_ERR_PADATA_TYPE_NOSUPP as isize,
    /// KDC_ERR_CLIENT_REVOKED: the client's credentials have been revoked.
    KdcErrClientRevoked = numbers::KDC_ERR_CLIENT_REVOKED as isize,
    /// KDC_ERR_SERVICE_REVOKED: the service's credentials have been revoked.
    KdcErrServiceRevoked = numbers::KDC_ERR_SERVICE_REVOKED as isize,
    /// KDC_ERR_TGT_REVOKED: the ticket-granting ticket has been revoked.
    KdcErrTgtRevoked = numbers::KDC_ERR_TGT_REVOKED as isize,
    /// KDC_ERR_KEY_EXPIRED: the password has expired.
    KdcErrKeyExpired = numbers::KDC_ERR_KEY_EXPIRED as isize,
    /// KDC_ERR_PREAUTH_FAILED: the preauthentication information was invalid.
    KdcErrPreauthFailed = numbers::KDC_ERR_PREAUTH_FAILED as isize,
    /// KDC_ERR_PREAUTH_REQUIRED: preauthentication is required.
    KdcErrPreauthRequired = numbers::KDC_ERR_PREAUTH_REQUIRED as isize,
    /// KDC_ERR_SERVER_NOMATCH: the requested service and the ticket don't match.
    KdcErrServerNomatch = numbers::KDC_ERR_SERVER_NOMATCH as isize,
    /// KDC_ERR_SVC_UNAVAILABLE: a service is not available.
    KdcErrSvcUnavailable = numbers::KDC_ERR_SVC_UNAVAILABLE as isize,
    /// KRB_AP_ERR_BAD_INTEGRITY: the integrity check on a decrypted field failed.
    KrbApErrBadIntegrity = numbers::KRB_AP_ERR_BAD_INTEGRITY as isize,
    /// KRB_AP_ERR_TKT_EXPIRED: the ticket has expired.
    KrbApErrTktExpired = numbers::KRB_AP_ERR_TKT_EXPIRED as isize,
    /// KRB_AP_ERR_TKT_NYV: the ticket is not yet valid.
    KrbApErrTktNyv = numbers::KRB_AP_ERR_TKT_NYV as isize,
    /// KRB_AP_ERR_REPEAT: the request is a replay.
    KrbApErrRepeat = numbers::KRB_AP_ERR_REPEAT as isize,
    /// KRB_AP_ERR_NOT_US: the ticket isn't for this service.
    KrbApErrNotUs = numbers::KRB_AP_ERR_NOT_US as isize,
    /// KRB_AP_ERR_BADMATCH: the ticket and the authenticator don't match.
    KrbApErrBadmatch = numbers::KRB_AP_ERR_BADMATCH as isize,
    /// KRB_AP_ERR_SKEW: the clock skew is too great.
    KrbApErrSkew = numbers::KRB_AP_ERR_SKEW as isize,
    /// KRB_AP_ERR_BADADDR: the network address is incorrect.
    KrbApErrBadaddr = numbers::KRB_AP_ERR_BADADDR as isize,
    /// KRB_AP_ERR_BADVERSION: the protocol versions differ.
    KrbApErrBadversion = numbers::KRB_AP_ERR_BADVERSION as isize,
    /// KRB_AP_ERR_MSG_TYPE: the message type is invalid.
    KrbApErrMsgType = numbers::KRB_AP_ERR_MSG_TYPE as isize,
    /// KRB_AP_ERR_MODIFIED: the message was modified.
    KrbApErrModified = numbers::KRB_AP_ERR_MODIFIED as isize,
    /// KRB_AP_ERR_BADKEYVER: the specified key version is not available.
    KrbApErrBadkeyver = numbers::KRB_AP_ERR_BADKEYVER as isize,
    /// KRB_AP_ERR_NOKEY: the key of the service is not available.
    KrbApErrNokey = numbers::KRB_AP_ERR_NOKEY as isize,
    /// KRB_AP_ERR_INAPP_CKSUM: the type of checksum is inappropriate.
    KrbApErrInappCksum = numbers::KRB_AP_ERR_INAPP_CKSUM as isize,
    /// KRB_AP_PATH_NOT_ACCEPTED: the policy rejects the transited path.
    KrbApPathNotAccepted = numbers::KRB_AP_PATH_NOT_ACCEPTED as isize,
    /// KRB_ERR_RESPONSE_TOO_BIG: the response is too big for UDP.
    KrbErrResponseTooBig = numbers::KRB_ERR_RESPONSE_TOO_BIG as isize,
    /// KRB_ERR_GENERIC: a generic error.
    KrbErrGeneric = numbers::KRB_ERR_GENERIC as isize,
    /// KRB_ERR_FIELD_TOOLONG: a field is too long for this implementation.
    KrbErrFieldToolong = numbers::KRB_ERR_FIELD_TOOLONG as isize,
}

impl Code {
    /// Returns the error's number in a KRB-ERROR.
    pub fn number(self) -> i32
        // Promise: each code, flag and option has its number; those of codes are constants of `numbers.rt`, which tests
        // compare with literals.
        ensures { result ≡ number_of self }
    {
        self as i32
    }

    /// Returns the error's name in RFC 4120.
    fn name(self) -> &'static str {
        match self {
            Code::KdcErrNameExp => "KDC_ERR_NAME_EXP",
            Code::KdcErrServiceExp => "KDC_ERR_SERVICE_EXP",
            Code::KdcErrBadPvno => "KDC_ERR_BAD_PVNO",
            Code::KdcErrCPrincipalUnknown => "KDC_ERR_C_PRINCIPAL_UNKNOWN",
            Code::KdcErrSPrincipalUnknown => "KDC_ERR_S_PRINCIPAL_UNKNOWN",
            Code::KdcErrCannotPostdate => "KDC_ERR_CANNOT_POSTDATE",
            Code::KdcErrNeverValid => "KDC_ERR_NEVER_VALID",
            Code::KdcErrPolicy => "KDC_ERR_POLICY",
            Code::KdcErrBadoption => "KDC_ERR_BADOPTION",
            Code::KdcErrEtypeNosupp => "KDC_ERR_ETYPE_NOSUPP",
            Code::KdcErrSumtypeNosupp => "KDC_ERR_SUMTYPE_NOSUPP",
            Code::KdcErrPadataTypeNosupp => "KDC_ERR_PADATA_TYPE_NOSUPP",
            Code::KdcErrClientRevoked => "KDC_ERR_CLIENT_REVOKED",
            Code::KdcErrServiceRevoked => "KDC_ERR_SERVICE_REVOKED",
            Code::KdcErrTgtRevoked => "KDC_ERR_TGT_REVOKED",
            Code::KdcErrKeyExpired => "KDC_ERR_KEY_EXPIRED",
            Code::KdcErrPreauthFailed => "KDC_ERR_PREAUTH_FAILED",
            Code::KdcErrPreauthRequired => "KDC_ERR_PREAUTH_REQUIRED",
            Code::KdcErrServerNomatch => "KDC_ERR_SERVER_NOMATCH",
            Code::KdcErrSvcUnavailable => "KDC_ERR_SVC_UNAVAILABLE",
            Code::KrbApErrBadIntegrity => "KRB_AP_ERR_BAD_INTEGRITY",
            Code::KrbApErrTktExpired => "KRB_AP_ERR_TKT_EXPIRED",
            Code::KrbApErrTktNyv => "KRB_AP_ERR_TKT_NYV",
            Code::KrbApErrRepeat => "KRB_AP_ERR_REPEAT",
            Code::KrbApErrNotUs => "KRB_AP_ERR_NOT_US",
            Code::KrbApErrBadmatch => "KRB_AP_ERR_BADMATCH",
            Code::KrbApErrSkew => "KRB_AP_ERR_SKEW",
            Code::KrbApErrBadaddr => "KRB_AP_ERR_BADADDR",
            Code::KrbApErrBadversion => "KRB_AP_ERR_BADVERSION",
            Code::KrbApErrMsgType => "KRB_AP_ERR_MSG_TYPE",
            Code::KrbApErrModified => "KRB_AP_ERR_MODIFIED",
            Code::KrbApErrBadkeyver => "KRB_AP_ERR_BADKEYVER",
            Code::KrbApErrNokey => "KRB_AP_ERR_NOKEY",
            Code::KrbApErrInappCksum => "KRB_AP_ERR_INAPP_CKSUM",
            Code::KrbApPathNotAccepted => "KRB_AP_PATH_NOT_ACCEPTED",
            Code::KrbErrResponseTooBig => "KRB_ERR_RESPONSE_TOO_BIG",
            Code::KrbErrGeneric => "KRB_ERR_GENERIC",
            Code::KrbErrFieldToolong => "KRB_ERR_FIELD_TOOLONG",
        }
    }
}

/// The error's name in RFC 4120.
impl fmt::Display for Code {
    fn fmt<W: fmt::Write>(&self, f: &mut fmt::Formatter<W>) -> fmt::Result {
        f.write_str(self.name())
    }
}
