//! The error codes of a KDC in words (RFC 4120, section 7.5.9).

use krb_fields::numbers;

/// What each code of a KDC means.
const CODES: &[(i32, &str)] = &[
    (
        numbers::KDC_ERR_NAME_EXP,
        "the client's entry in the database has expired",
    ),
    (
        numbers::KDC_ERR_SERVICE_EXP,
        "the service's entry in the database has expired",
    ),
    (
        numbers::KDC_ERR_BAD_PVNO,
        "the KDC has another version of the protocol",
    ),
    (
        numbers::KDC_ERR_C_OLD_MAST_KVNO,
        "the client's key is an old one",
    ),
    (
        numbers::KDC_ERR_S_OLD_MAST_KVNO,
        "the service's key is an old one",
    ),
    (
        numbers::KDC_ERR_C_PRINCIPAL_UNKNOWN,
        "the client is not in the database",
    ),
    (
        numbers::KDC_ERR_S_PRINCIPAL_UNKNOWN,
        "the service is not in the database",
    ),
    (
        numbers::KDC_ERR_PRINCIPAL_NOT_UNIQUE,
        "the principal is in the database more than once",
    ),
    (
        numbers::KDC_ERR_NULL_KEY,
        "the client or the service has no key",
    ),
    (
        numbers::KDC_ERR_CANNOT_POSTDATE,
        "the ticket may not be postdated",
    ),
    (
        numbers::KDC_ERR_NEVER_VALID,
        "the ticket would end before it starts",
    ),
    (
        numbers::KDC_ERR_POLICY,
        "the KDC's policy denies the request",
    ),
    (
        numbers::KDC_ERR_BADOPTION,
        "the KDC does not grant a requested option",
    ),
    (
        numbers::KDC_ERR_ETYPE_NOSUPP,
        "the KDC, or a key, has none of the requested encryption types",
    ),
    (
        numbers::KDC_ERR_SUMTYPE_NOSUPP,
        "the KDC does not know the type of the checksum",
    ),
    (
        numbers::KDC_ERR_PADATA_TYPE_NOSUPP,
        "the KDC does not know the type of the preauthentication",
    ),
    (
        numbers::KDC_ERR_TRTYPE_NOSUPP,
        "the KDC does not know the type of the transited realms",
    ),
    (
        numbers::KDC_ERR_CLIENT_REVOKED,
        "the client is disabled, or locked after failed logins: ask the administrator; a new password ends a lock",
    ),
    (numbers::KDC_ERR_SERVICE_REVOKED, "the service is disabled"),
    (
        numbers::KDC_ERR_TGT_REVOKED,
        "the ticket-granting ticket has been revoked: run kinit",
    ),
    (
        numbers::KDC_ERR_CLIENT_NOTYET,
        "the client is not yet valid",
    ),
    (
        numbers::KDC_ERR_SERVICE_NOTYET,
        "the service is not yet valid",
    ),
    (numbers::KDC_ERR_KEY_EXPIRED, "the password has expired"),
    (
        numbers::KDC_ERR_PREAUTH_FAILED,
        "the preauthentication failed: the password is wrong, or the clocks differ",
    ),
    (
        numbers::KDC_ERR_PREAUTH_REQUIRED,
        "the KDC requires preauthentication",
    ),
    (
        numbers::KDC_ERR_SERVER_NOMATCH,
        "the service is not that of the ticket",
    ),
    (
        numbers::KDC_ERR_MUST_USE_USER2USER,
        "the service takes only user-to-user tickets",
    ),
    (
        numbers::KDC_ERR_PATH_NOT_ACCEPTED,
        "the KDC does not accept the path of realms",
    ),
    (
        numbers::KDC_ERR_SVC_UNAVAILABLE,
        "a service is not available",
    ),
    (
        numbers::KRB_AP_ERR_BAD_INTEGRITY,
        "the key does not decrypt the ticket or the authenticator",
    ),
    (
        numbers::KRB_AP_ERR_TKT_EXPIRED,
        "the ticket-granting ticket has expired: run kinit",
    ),
    (
        numbers::KRB_AP_ERR_TKT_NYV,
        "the ticket-granting ticket is not yet valid",
    ),
    (numbers::KRB_AP_ERR_REPEAT, "the request is a replay"),
    (numbers::KRB_AP_ERR_NOT_US, "the ticket is not for this KDC"),
    (
        numbers::KRB_AP_ERR_BADMATCH,
        "the ticket and the authenticator name different clients",
    ),
    (
        numbers::KRB_AP_ERR_SKEW,
        "the KDC was just started and takes no request for five minutes, so try again then; \
         or the clocks differ by more than 300 seconds",
    ),
    (
        numbers::KRB_AP_ERR_BADADDR,
        "the ticket is for other network addresses",
    ),
    (
        numbers::KRB_AP_ERR_BADVERSION,
        "the versions of the protocol differ",
    ),
    (
        numbers::KRB_AP_ERR_MSG_TYPE,
        "the KDC does not accept this type of message",
    ),
    (
        numbers::KRB_AP_ERR_MODIFIED,
        "the message was changed on its way",
    ),
    (
        numbers::KRB_AP_ERR_BADORDER,
        "the messages are out of order",
    ),
    (
        numbers::KRB_AP_ERR_BADKEYVER,
        "the KDC does not have the key of this version",
    ),
    (numbers::KRB_AP_ERR_NOKEY, "the KDC does not have the key"),
    (
        numbers::KRB_AP_ERR_MUT_FAIL,
        "the service did not prove its identity",
    ),
    (
        numbers::KRB_AP_ERR_BADDIRECTION,
        "the message goes in the wrong direction",
    ),
    (
        numbers::KRB_AP_ERR_METHOD,
        "the KDC requires another type of authentication",
    ),
    (
        numbers::KRB_AP_ERR_BADSEQ,
        "the message has a wrong sequence number",
    ),
    (
        numbers::KRB_AP_ERR_INAPP_CKSUM,
        "the KDC does not accept this type of checksum",
    ),
    (
        numbers::KRB_AP_PATH_NOT_ACCEPTED,
        "the policy denies the path of realms",
    ),
    (
        numbers::KRB_ERR_RESPONSE_TOO_BIG,
        "the reply is too big for a datagram",
    ),
    (
        numbers::KRB_ERR_GENERIC,
        "an error without a code of its own",
    ),
    (numbers::KRB_ERR_FIELD_TOOLONG, "a field is too long"),
    (
        numbers::KDC_ERROR_CLIENT_NOT_TRUSTED,
        "the client is not trusted",
    ),
    (numbers::KDC_ERROR_KDC_NOT_TRUSTED, "the KDC is not trusted"),
    (numbers::KDC_ERROR_INVALID_SIG, "the signature is not valid"),
    (
        numbers::KDC_ERR_KEY_TOO_WEAK,
        "the key, or a parameter of the key exchange, is too weak",
    ),
    (
        numbers::KDC_ERR_CERTIFICATE_MISMATCH,
        "the certificate does not match",
    ),
    (
        numbers::KRB_AP_ERR_NO_TGT,
        "a user-to-user request needs a ticket-granting ticket",
    ),
    (
        numbers::KDC_ERR_WRONG_REALM,
        "the client belongs to another realm",
    ),
    (
        numbers::KRB_AP_ERR_USER_TO_USER_REQUIRED,
        "the ticket has to be a user-to-user ticket",
    ),
    (
        numbers::KDC_ERR_CANT_VERIFY_CERTIFICATE,
        "the certificate can't be verified",
    ),
    (
        numbers::KDC_ERR_INVALID_CERTIFICATE,
        "the certificate is not valid",
    ),
    (
        numbers::KDC_ERR_REVOKED_CERTIFICATE,
        "the certificate has been revoked",
    ),
    (
        numbers::KDC_ERR_REVOCATION_STATUS_UNKNOWN,
        "it is not known whether the certificate has been revoked",
    ),
    (
        numbers::KDC_ERR_REVOCATION_STATUS_UNAVAILABLE,
        "the server that knows whether the certificate has been revoked does not reply",
    ),
    (
        numbers::KDC_ERR_CLIENT_NAME_MISMATCH,
        "the certificate belongs to another client",
    ),
    (
        numbers::KDC_ERR_KDC_NAME_MISMATCH,
        "the certificate belongs to another KDC",
    ),
];

/// Returns what a code of a KDC means.
pub(crate) fn code_text(code: i32) -> &'static str {
    for (number, text) in CODES {
        if *number == code {
            return text;
        }
    }
    "RFC 4120 does not have this error code"
}
