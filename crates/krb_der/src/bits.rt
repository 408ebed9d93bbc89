//! BIT STRING (X.690, sections 8.6 and 11.2).
ghost use Rattle.std.specs.Prelude.{◌≡◌, ◌<◌, ◌^◌, ◌*◌, ◌-◌, length, IsTrue};
ghost use Rattle.krb_der.specs.Bits.{is_bits, is_padded, first_bits, bits_value};

/// Checks whether the contents start with the number of unused bits in the last byte, and these bits are zero.
#[tactic(auto, unfolding(crate::specs::Bits::is_bits))]
pub fn is_bits(contents: &[u8]) -> bool
    ensures { result ≡ is_bits contents.now }
{
    match contents {
        [] => false,
        [unused, octets @ ..] => is_padded(*unused, octets),
    }
}

/// Returns the first 32 bits, and the number of bits.
#[tactic(auto, unfolding(crate::specs::Bits::is_bits, crate::specs::Bits::bits_value))]
pub fn bits_value(contents: &[u8]) -> (u32, u64)
    requires passes { IsTrue (is_bits contents.now) }
    requires short { length contents.now < 2 ^ 32 }
    ensures { result ≡ bits_value contents.now }
{
    match contents {
        [] => (0, 0),
        [unused, octets @ ..] => (first_bits(octets), bit_count(*unused, octets)),
    }
}

/// Returns the number of bits, without the unused ones.
#[tactic(auto, unfolding(crate::specs::Bits::is_padded))]
fn bit_count(unused: u8, octets: &[u8]) -> u64
    requires padded { IsTrue (is_padded unused octets.now) }
    requires short { length octets.now < 2 ^ 32 }
    ensures { result ≡ 8 * length octets.now - unused }
{
    if octets.is_empty() {
        return 0;
    }
    8 * octets.len() as u64 - u64::from(unused)
}

/// Checks whether the unused bits are fewer than a byte and all zero.
#[tactic(auto, using(std::proofs::lemmas::Nat::one_shl), unfolding(crate::specs::Bits::is_padded))]
fn is_padded(unused: u8, octets: &[u8]) -> bool
    ensures { result ≡ is_padded unused octets.now }
{
    if octets.is_empty() {
        return unused == 0;
    }
    unused < 8 && octets[octets.len() - 1] % (1 << unused) == 0
}

/// Returns the first 32 bits. Missing ones are zero.
#[tactic(auto, unfolding(crate::specs::Bits::first_bits))]
fn first_bits(octets: &[u8]) -> u32
    ensures { result ≡ first_bits octets.now }
{
    match octets {
        [] => 0,
        [a] => u32::from_be_bytes([*a, 0, 0, 0]),
        [a, b] => u32::from_be_bytes([*a, *b, 0, 0]),
        [a, b, c] => u32::from_be_bytes([*a, *b, *c, 0]),
        [a, b, c, d, ..] => u32::from_be_bytes([*a, *b, *c, *d]),
    }
}
