//! Flags of tickets, and options of requests.
ghost use Rattle.std.specs.Prelude.{◌≡◌, ◌==◌, ◌||◌, ◌&&◌, not, ℕ, ◌<◌};
ghost use Rattle.krb_fields.specs.Flags.{has_bit, with_bit, without_bit};

use std::marker::Model;

/// Thirty-two bits: the type `KerberosFlags` of RFC 4120 section 5.2.8. Bits without a name are kept too.
///
/// Bits are numbered from the most significant. Contracts see the number that the bits form, and name a bit by its
/// number.
#[derive(Clone, Copy, Debug, PartialEq, Eq)]
pub struct Flags {
    bits: u32,
}

impl Model for Flags {
    ghost Value = { ℕ };

    ghost view = { λ f. f.bits };

    ghost inverse = { λ n. record { bits = n } };
}

/// The name of a bit of [`Flags`].
pub trait NamedBit: Copy {
    ghost bit_number: { Self → ℕ };

    /// Returns the number of the bit, 0 to 31, counted from the most significant.
    fn number(self) -> u32
        // Promise (value, within), as Code::number: each code, flag and ..
        ensures value { result ≡ bit_number self }
        ensures within { result < 32 };
}

impl Flags {
    /// Returns the flags with these bits: bit 0 is the most significant.
    pub fn from_bits(bits: u32) -> Flags
        // Promise: flags are the 32 bits that they were made from; setting or clearing one bit leaves all others as
        // they are.
        ensures { result ≡ bits }
    {
        Flags { bits }
    }

    /// Returns the bits: bit 0 is the most significant.
    pub fn bits(self) -> u32
        // Promise, as Flags::from_bits: flags are the 32 ..
        ensures { result ≡ self }
    {
        self.bits
    }

    /// Checks whether the bit is set.
    pub fn has<B: NamedBit>(self, bit: B) -> bool
        // Promise, as Flags::from_bits: flags are the 32 ..
        ensures { result ≡ has_bit self (B.bit_number bit) }
    {
        (self.bits >> (31 - bit.number())) & 1 == 1
    }

    /// Returns these flags with the bit set.
    pub fn with<B: NamedBit>(self, bit: B) -> Flags
        // Promise (value, bits), as Flags::from_bits: flags are the 32 ..
        ensures value { result ≡ with_bit self (B.bit_number bit) }
        ensures bits { (n : ℕ) → n < 32
            → has_bit result n ≡ (n == B.bit_number bit || has_bit self n) }
    {
        Flags {
            bits: self.bits | 1 << (31 - bit.number()),
        }
    }

    /// Returns these flags with the bit cleared.
    pub fn without<B: NamedBit>(self, bit: B) -> Flags
        // Promise (value, bits), as Flags::from_bits: flags are the 32 ..
        ensures value { result ≡ without_bit self (B.bit_number bit) }
        ensures bits { (n : ℕ) → n < 32
            → has_bit result n ≡ (not (n == B.bit_number bit) && has_bit self n) }
    {
        Flags {
            bits: self.bits & !(1 << (31 - bit.number())),
        }
    }
}
