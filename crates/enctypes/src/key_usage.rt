//! Key usages: RFC 4120, section 7.5.1.
ghost use Rattle.std.specs.Prelude.{◌≡◌};
ghost use Rattle.enctypes.specs.KeyUsage.{usage_number};

use krb_fields::numbers;

/// A usage of keys by this KDC, its clients or its services. Each usage has derived keys of its own, which keeps the
/// usages apart.
#[derive(Debug, Clone, Copy, PartialEq, Eq)]
pub enum KeyUsage {
    /// The PA-ENC-TIMESTAMP of an AS-REQ, under the client's key.
    PaEncTimestamp,
    /// The encrypted part of a ticket, under the service's key.
    Ticket,
    /// The encrypted part of an AS-REP, under the client's key.
    AsRepEncPart,
    /// The checksum in the authenticator of a TGS-REQ, under the ticket's session key.
    TgsReqAuthenticatorChecksum,
    /// The authenticator of a TGS-REQ, under the ticket's session key.
    TgsReqAuthenticator,
    /// The encrypted part of a TGS-REP, under the ticket's session key.
    TgsRepEncPartSessionKey,
    /// The same part, under the subkey of the request's authenticator.
    TgsRepEncPartSubkey,
    /// The checksum in the authenticator of an AP-REQ, under the ticket's session key.
    ApReqAuthenticatorChecksum,
    /// The authenticator of an AP-REQ, under the ticket's session key.
    ApReqAuthenticator,
    /// The encrypted part of an AP-REP, under the ticket's session key.
    ApRepEncPart,
    /// A key in the database of MIT's KDC, under its master key. RFC 4120 has no such usage.
    StoredKey,
}

impl KeyUsage {
    /// Returns the usage number, from which keys are derived.
    pub fn number(self) -> u32
        // Promise: a key usage has its number.
        ensures { result ≡ usage_number self }
    {
        match self {
            KeyUsage::PaEncTimestamp => numbers::USAGE_PA_ENC_TIMESTAMP,
            KeyUsage::Ticket => numbers::USAGE_TICKET,
            KeyUsage::AsRepEncPart => numbers::USAGE_AS_REP_ENC_PART,
            KeyUsage::TgsReqAuthenticatorChecksum => numbers::USAGE_TGS_REQ_AUTHENTICATOR_CHECKSUM,
            KeyUsage::TgsReqAuthenticator => numbers::USAGE_TGS_REQ_AUTHENTICATOR,
            KeyUsage::TgsRepEncPartSessionKey => numbers::USAGE_TGS_REP_ENC_PART_SESSION_KEY,
            KeyUsage::TgsRepEncPartSubkey => numbers::USAGE_TGS_REP_ENC_PART_SUBKEY,
            KeyUsage::ApReqAuthenticatorChecksum => numbers::USAGE_AP_REQ_AUTHENTICATOR_CHECKSUM,
            KeyUsage::ApReqAuthenticator => numbers::USAGE_AP_REQ_AUTHENTICATOR,
            KeyUsage::ApRepEncPart => numbers::USAGE_AP_REP_ENC_PART,
            KeyUsage::StoredKey => 0,
        }
    }
}
