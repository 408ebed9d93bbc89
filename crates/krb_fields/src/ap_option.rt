//! The options of an AP-REQ (RFC 4120 section 5.5.1).
ghost use Rattle.krb_fields.specs.ApOption.{ap_option_number};

use crate::flags::NamedBit;

/// An option of an AP-REQ.
#[derive(Clone, Copy, Debug, PartialEq, Eq)]
pub enum ApOption {
    /// The ticket is encrypted under the session key of the service's own ticket.
    UseSessionKey = 1,
    /// The client wants an AP-REP.
    MutualRequired = 2,
}

impl NamedBit for ApOption {
    ghost bit_number = { ap_option_number };

    fn number(self) -> u32 {
        self as u32
    }
}
