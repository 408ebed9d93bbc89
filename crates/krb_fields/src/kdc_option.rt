//! The options of a request to a KDC (RFC 4120 section 5.4.1).
ghost use Rattle.krb_fields.specs.KdcOption.{kdc_option_number};

use crate::flags::NamedBit;

/// An option of a request to a KDC.
#[derive(Clone, Copy, Debug, PartialEq, Eq)]
pub enum KdcOption {
    /// The ticket is to be forwardable.
    Forwardable = 1,
    /// The ticket is to be used from other addresses.
    Forwarded = 2,
    /// The ticket is to be proxiable.
    Proxiable = 3,
    /// The ticket is to be a proxy ticket.
    Proxy = 4,
    /// The ticket is to be one with which postdated tickets can be requested.
    AllowPostdate = 5,
    /// The ticket is to start later.
    Postdated = 6,
    /// The ticket is to be renewable.
    Renewable = 8,
    /// The KDC need not check the realms between client and service.
    DisableTransitedCheck = 26,
    /// A renewable ticket is acceptable if none with the requested lifetime can be issued.
    RenewableOk = 27,
    /// The ticket is to be encrypted under the session key of an additional ticket.
    EncTktInSkey = 28,
    /// The presented ticket is to be renewed.
    Renew = 30,
    /// The presented ticket is to be validated.
    Validate = 31,
}

impl NamedBit for KdcOption {
    ghost bit_number = { kdc_option_number };

    fn number(self) -> u32 {
        self as u32
    }
}
