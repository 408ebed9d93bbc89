//! Short byte strings that own no memory.
ghost use Rattle.std.specs.Prelude.{◌≡◌, ◌<◌, ◌≤◌, All, length};

use std::marker::Model;

/// At most N bytes, which can be copied like a number.
#[derive(Clone, Copy)]
pub struct ShortOctets<const N: usize> {
    // the bytes, followed by zeros
    octets: [u8; N],
    len: usize,
}

/// A message authentication code, the checksum of RFC 3961, section 4: 12, 16 or 24 bytes.
pub type Mac = ShortOctets<24>;

impl<const N: usize> Model for ShortOctets<N> {
    ghost use Rattle.std.specs.Prelude.{ℕ, List, take, length};
    ghost use Rattle.std.proofs.Common.{ap, ◌∙◌};
    ghost use Rattle.enctypes.specs.ShortOctets.{FillsFront, padded};

    ghost Value = { List ℕ };

    ghost view = { λ s. take s.len s.octets };

    ghost invariant = { λ s. FillsFront N s.len s.octets };

    ghost inverse = { λ v. record { octets = padded N v; len = length v } };

    ghost inverse_ok = { λ s h.
        ap (λ o. record { octets = o; len = length (take s.len s.octets) }) h.rest
        ∙ ap (λ n. record { octets = s.octets; len = n }) h.size };
}

impl<const N: usize> ShortOctets<N> {
    // Returns these bytes as a `ShortOctets`.
    pub(crate) fn new(octets: &[u8]) -> Self
        requires { length octets.now ≤ N }
        ensures { result ≡ octets.now }
    {
        let mut padded = [0; N];
        padded[..octets.len()].copy_from_slice(octets);
        ShortOctets {
            octets: padded,
            len: octets.len(),
        }
    }

    /// Returns the bytes.
    pub fn bytes(&self) -> &[u8]
        // Promise (bytes, octets), as checksum: a checksum is that ..
        ensures bytes { result.now ≡ self.now }
        ensures octets { All (λ b. b < 256) self.now }
    {
        as_octets(&self.octets[..self.len])
    }
}

// Returns the same bytes. The proof knows of a slice that each byte is below 256, but not of an array behind a view.
fn as_octets(octets: &[u8]) -> &[u8]
    ensures value { result.now ≡ octets.now }
    ensures octets { All (λ b. b < 256) octets.now }
{
    octets
}
