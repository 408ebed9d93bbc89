//! The purposes of derived keys.
ghost use Rattle.std.specs.Prelude.{◌≡◌};
ghost use Rattle.enctypes.specs.Derivation.{purpose_octet, usage_constant};

/// The purpose of a derived key (RFC 3961, section 5.3; RFC 8009, section 3).
#[derive(Clone, Copy)]
pub enum Purpose {
    /// Kc, for checksums.
    Checksum,
    /// Ke, for AES.
    Encryption,
    /// Ki, for the HMAC of a sealed text.
    Integrity,
}

impl Purpose {
    fn octet(self) -> u8
        ensures { result ≡ purpose_octet self }
    {
        match self {
            Purpose::Checksum => 0x99,
            Purpose::Encryption => 0xaa,
            Purpose::Integrity => 0x55,
        }
    }
}

/// Returns the constant for deriving a key: the usage as four bytes, most significant first, followed by the purpose's
/// byte.
#[tactic(auto, unfolding(crate::specs::Derivation::usage_constant))]
pub fn usage_constant(usage: u32, purpose: Purpose) -> [u8; 5]
    ensures { result ≡ usage_constant usage purpose }
{
    let [first, second, third, fourth] = usage.to_be_bytes();
    [first, second, third, fourth, purpose.octet()]
}
