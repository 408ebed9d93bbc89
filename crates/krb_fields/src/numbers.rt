//! The numbers that RFC 4120 and IANA assign. Each stands here once: the code and the definitions cite its name.

// ---- the version, and the types of messages and the numbers of their tags (RFC 4120, sections 5.10 and 7.5.7)

/// The version of the protocol.
pub const PVNO: i32 = 5;

/// The number of the tag of a Ticket.
pub const TICKET: u8 = 1;

/// The number of the tag of an Authenticator.
pub const AUTHENTICATOR: u8 = 2;

/// The number of the tag of an EncTicketPart.
pub const ENC_TICKET_PART: u8 = 3;

/// The message type of an AS-REQ, which is also the number of its tag.
pub const AS_REQ: u8 = 10;

/// The message type of an AS-REP, which is also the number of its tag.
pub const AS_REP: u8 = 11;

/// The message type of a TGS-REQ, which is also the number of its tag.
pub const TGS_REQ: u8 = 12;

/// The message type of a TGS-REP, which is also the number of its tag.
pub const TGS_REP: u8 = 13;

/// The message type of an AP-REQ, which is also the number of its tag.
pub const AP_REQ: u8 = 14;

/// The message type of an AP-REP, which is also the number of its tag.
pub const AP_REP: u8 = 15;

/// The number of the tag of an EncASRepPart.
pub const ENC_AS_REP_PART: u8 = 25;

/// The number of the tag of an EncTGSRepPart.
pub const ENC_TGS_REP_PART: u8 = 26;

/// The number of the tag of an EncAPRepPart.
pub const ENC_AP_REP_PART: u8 = 27;

/// The message type of a KRB-ERROR, which is also the number of its tag.
pub const KRB_ERROR: u8 = 30;

// ---- types of padata (RFC 4120, section 7.5.2)

/// An AP-REQ, by which a TGS-REQ presents its ticket.
pub const PA_TGS_REQ: i32 = 1;

/// The client's current time in an EncryptedData, encrypted with the client's key.
pub const PA_ENC_TIMESTAMP: i32 = 2;

/// The encryption types of the client's keys, and how to derive these from a password.
pub const PA_ETYPE_INFO2: i32 = 19;

// ---- types of names (RFC 4120, section 6.2)

/// The name of a principal: the name-type that names read from text get.
pub const NT_PRINCIPAL: i32 = 1;

/// A service and an instance, such as the ticket-granting service.
pub const NT_SRV_INST: i32 = 2;

// ---- types of the transited path (RFC 4120, section 3.3.3.2)

/// The form DOMAIN-X500-COMPRESS.
pub const DOMAIN_X500_COMPRESS: i32 = 1;

// ---- types of last requests (RFC 4120, section 5.4.2)

/// The time says nothing about an earlier request.
pub const LR_NONE: i32 = 0;

// ---- encryption types (RFC 3962, section 7; RFC 8009, section 5)

/// The number of aes128-cts-hmac-sha1-96.
pub const AES128_CTS_HMAC_SHA1_96: i32 = 17;

/// The number of aes256-cts-hmac-sha1-96.
pub const AES256_CTS_HMAC_SHA1_96: i32 = 18;

/// The number of aes128-cts-hmac-sha256-128.
pub const AES128_CTS_HMAC_SHA256_128: i32 = 19;

/// The number of aes256-cts-hmac-sha384-192.
pub const AES256_CTS_HMAC_SHA384_192: i32 = 20;

// ---- checksum types (RFC 3962, section 7; RFC 8009, section 6)

/// The number of hmac-sha1-96-aes128.
pub const HMAC_SHA1_96_AES128: i32 = 15;

/// The number of hmac-sha1-96-aes256.
pub const HMAC_SHA1_96_AES256: i32 = 16;

/// The number of hmac-sha256-128-aes128.
pub const HMAC_SHA256_128_AES128: i32 = 19;

/// The number of hmac-sha384-192-aes256.
pub const HMAC_SHA384_192_AES256: i32 = 20;

// ---- key usages (RFC 4120, section 7.5.1, which gives them no names)

/// The key usage for the PA-ENC-TIMESTAMP of an AS-REQ.
pub const USAGE_PA_ENC_TIMESTAMP: u32 = 1;

/// The key usage for the encrypted part of a ticket.
pub const USAGE_TICKET: u32 = 2;

/// The key usage for the encrypted part of an AS-REP.
pub const USAGE_AS_REP_ENC_PART: u32 = 3;

/// The key usage for the checksum in the authenticator of a TGS-REQ.
pub const USAGE_TGS_REQ_AUTHENTICATOR_CHECKSUM: u32 = 6;

/// The key usage for the authenticator of a TGS-REQ.
pub const USAGE_TGS_REQ_AUTHENTICATOR: u32 = 7;

/// The key usage for the encrypted part of a TGS-REP, under the ticket's session key.
pub const USAGE_TGS_REP_ENC_PART_SESSION_KEY: u32 = 8;

/// The key usage for the encrypted part of a TGS-REP, under the subkey of the authenticator.
pub const USAGE_TGS_REP_ENC_PART_SUBKEY: u32 = 9;

/// The key usage for the checksum in the authenticator of an AP-REQ.
pub const USAGE_AP_REQ_AUTHENTICATOR_CHECKSUM: u32 = 10;

/// The key usage for the authenticator of an AP-REQ.
pub const USAGE_AP_REQ_AUTHENTICATOR: u32 = 11;

/// The key usage for the encrypted part of an AP-REP.
pub const USAGE_AP_REP_ENC_PART: u32 = 12;

// ---- error codes (RFC 4120, section 7.5.9)

/// The client's entry in the database has expired.
pub const KDC_ERR_NAME_EXP: i32 = 1;

/// The service's entry in the database has expired.
pub const KDC_ERR_SERVICE_EXP: i32 = 2;

/// The requested version of the protocol is not supported.
pub const KDC_ERR_BAD_PVNO: i32 = 3;

/// The client's key is encrypted with an old master key.
pub const KDC_ERR_C_OLD_MAST_KVNO: i32 = 4;

/// The service's key is encrypted with an old master key.
pub const KDC_ERR_S_OLD_MAST_KVNO: i32 = 5;

/// The client is not in the database.
pub const KDC_ERR_C_PRINCIPAL_UNKNOWN: i32 = 6;

/// The service is not in the database.
pub const KDC_ERR_S_PRINCIPAL_UNKNOWN: i32 = 7;

/// The database has several entries of the principal.
pub const KDC_ERR_PRINCIPAL_NOT_UNIQUE: i32 = 8;

/// The client or the service has no key.
pub const KDC_ERR_NULL_KEY: i32 = 9;

/// The ticket is not eligible for postdating.
pub const KDC_ERR_CANNOT_POSTDATE: i32 = 10;

/// The requested start time is later than the end time.
pub const KDC_ERR_NEVER_VALID: i32 = 11;

/// The KDC's policy rejects the request.
pub const KDC_ERR_POLICY: i32 = 12;

/// The KDC cannot accommodate a requested option.
pub const KDC_ERR_BADOPTION: i32 = 13;

/// The KDC has no support for the encryption types.
pub const KDC_ERR_ETYPE_NOSUPP: i32 = 14;

/// The KDC has no support for the checksum type.
pub const KDC_ERR_SUMTYPE_NOSUPP: i32 = 15;

/// The KDC has no support for the type of padata.
pub const KDC_ERR_PADATA_TYPE_NOSUPP: i32 = 16;

/// The KDC has no support for the type of the transited path.
pub const KDC_ERR_TRTYPE_NOSUPP: i32 = 17;

/// The client's credentials have been revoked.
pub const KDC_ERR_CLIENT_REVOKED: i32 = 18;

/// The service's credentials have been revoked.
pub const KDC_ERR_SERVICE_REVOKED: i32 = 19;

/// The ticket-granting ticket has been revoked.
pub const KDC_ERR_TGT_REVOKED: i32 = 20;

/// The client is not yet valid.
pub const KDC_ERR_CLIENT_NOTYET: i32 = 21;

/// The service is not yet valid.
pub const KDC_ERR_SERVICE_NOTYET: i32 = 22;

/// The password has expired.
pub const KDC_ERR_KEY_EXPIRED: i32 = 23;

/// The preauthentication information was invalid.
pub const KDC_ERR_PREAUTH_FAILED: i32 = 24;

/// Preauthentication is required.
pub const KDC_ERR_PREAUTH_REQUIRED: i32 = 25;

/// The requested service and the ticket don't match.
pub const KDC_ERR_SERVER_NOMATCH: i32 = 26;

/// The service takes only user-to-user tickets.
pub const KDC_ERR_MUST_USE_USER2USER: i32 = 27;

/// The KDC's policy rejects the transited path.
pub const KDC_ERR_PATH_NOT_ACCEPTED: i32 = 28;

/// A service is not available.
pub const KDC_ERR_SVC_UNAVAILABLE: i32 = 29;

/// The integrity check on a decrypted field failed.
pub const KRB_AP_ERR_BAD_INTEGRITY: i32 = 31;

/// The ticket has expired.
pub const KRB_AP_ERR_TKT_EXPIRED: i32 = 32;

/// The ticket is not yet valid.
pub const KRB_AP_ERR_TKT_NYV: i32 = 33;

/// The request is a replay.
pub const KRB_AP_ERR_REPEAT: i32 = 34;

/// The ticket isn't for this service.
pub const KRB_AP_ERR_NOT_US: i32 = 35;

/// The ticket and the authenticator don't match.
pub const KRB_AP_ERR_BADMATCH: i32 = 36;

/// The clock skew is too great.
pub const KRB_AP_ERR_SKEW: i32 = 37;

/// The network address is incorrect.
pub const KRB_AP_ERR_BADADDR: i32 = 38;

/// The protocol versions differ.
pub const KRB_AP_ERR_BADVERSION: i32 = 39;

/// The message type is invalid.
pub const KRB_AP_ERR_MSG_TYPE: i32 = 40;

/// The message was modified.
pub const KRB_AP_ERR_MODIFIED: i32 = 41;

/// The message is out of order.
pub const KRB_AP_ERR_BADORDER: i32 = 42;

/// The specified key version is not available.
pub const KRB_AP_ERR_BADKEYVER: i32 = 44;

/// The key of the service is not available.
pub const KRB_AP_ERR_NOKEY: i32 = 45;

/// Mutual authentication failed.
pub const KRB_AP_ERR_MUT_FAIL: i32 = 46;

/// The direction of the message is incorrect.
pub const KRB_AP_ERR_BADDIRECTION: i32 = 47;

/// Another method of authentication is required.
pub const KRB_AP_ERR_METHOD: i32 = 48;

/// The sequence number of the message is incorrect.
pub const KRB_AP_ERR_BADSEQ: i32 = 49;

/// The type of checksum is inappropriate.
pub const KRB_AP_ERR_INAPP_CKSUM: i32 = 50;

/// The policy rejects the transited path.
pub const KRB_AP_PATH_NOT_ACCEPTED: i32 = 51;

/// The response is too big for UDP.
pub const KRB_ERR_RESPONSE_TOO_BIG: i32 = 52;

/// A generic error.
pub const KRB_ERR_GENERIC: i32 = 60;

/// A field is too long for this implementation.
pub const KRB_ERR_FIELD_TOOLONG: i32 = 61;

/// The client is not trusted.
pub const KDC_ERROR_CLIENT_NOT_TRUSTED: i32 = 62;

/// The KDC is not trusted.
pub const KDC_ERROR_KDC_NOT_TRUSTED: i32 = 63;

/// The signature is invalid.
pub const KDC_ERROR_INVALID_SIG: i32 = 64;

/// The key is too weak.
pub const KDC_ERR_KEY_TOO_WEAK: i32 = 65;

/// The certificate doesn't match.
pub const KDC_ERR_CERTIFICATE_MISMATCH: i32 = 66;

/// The ticket-granting ticket for user-to-user authentication is missing.
pub const KRB_AP_ERR_NO_TGT: i32 = 67;

/// The client belongs to another realm.
pub const KDC_ERR_WRONG_REALM: i32 = 68;

/// The ticket must be for user-to-user.
pub const KRB_AP_ERR_USER_TO_USER_REQUIRED: i32 = 69;

/// The certificate can't be verified.
pub const KDC_ERR_CANT_VERIFY_CERTIFICATE: i32 = 70;

/// The certificate is invalid.
pub const KDC_ERR_INVALID_CERTIFICATE: i32 = 71;

/// The certificate has been revoked.
pub const KDC_ERR_REVOKED_CERTIFICATE: i32 = 72;

/// The revocation status of the certificate is unknown.
pub const KDC_ERR_REVOCATION_STATUS_UNKNOWN: i32 = 73;

/// The revocation status of the certificate is unavailable.
pub const KDC_ERR_REVOCATION_STATUS_UNAVAILABLE: i32 = 74;

/// The certificate names another client.
pub const KDC_ERR_CLIENT_NAME_MISMATCH: i32 = 75;

/// The certificate names another KDC.
pub const KDC_ERR_KDC_NAME_MISMATCH: i32 = 76;
