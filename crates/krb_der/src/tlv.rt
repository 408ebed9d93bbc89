//! Splits off a value: its tag, its length, its contents and the bytes after it; and values of the simple types.
ghost use Rattle.std.specs.Prelude.{◌≡◌, ◌<◌, ◌^◌, ◌++◌, List, ℕ, ℤ, length, IfOk, IsOkAnd};
ghost use Rattle.krb_der.specs.Reading.{Gives, tlv_at, int_at, bits_at, time_at};
ghost use Rattle.krb_der.specs.Spelling.{tlv, Stands};
ghost use Rattle.krb_der.specs.Int.{Int};
ghost use Rattle.krb_der.specs.Bits.{Bits};
ghost use Rattle.krb_der.specs.Time.{Time};

use crate::bits::{bits_value, is_bits};
use crate::fault::DerFault;
use crate::int::{int_value, is_int};
use crate::length::split_length;
use crate::time::KTime;

/// Returns the contents of the value with this tag at the front, and the bytes after it.
#[tactic(auto, unfolding(crate::specs::Reading::tlv_at))]
fn tlv_parts(bytes: &[u8], tag: u8) -> Result<(&[u8], &[u8]), DerFault>
    ensures exact { Gives (λ x. (x.0.now, x.1.now)) result (tlv_at tag bytes.now) }
    ensures short { IfOk result (λ x. length x.0.now < 2 ^ 32) }
{
    let Some((first, rest)) = bytes.split_first() else {
        return Err(DerFault::Truncated);
    };
    if *first != tag {
        return Err(DerFault::BadTag);
    }
    let (len, rest) = split_length(rest)?;
    let len = len as usize;
    if rest.len() < len {
        return Err(DerFault::Truncated);
    }
    Ok(rest.split_at(len))
}

#[tactic(auto, unfolding(crate::specs::Reading::int_at))]
fn int_parts(bytes: &[u8]) -> Result<(i64, &[u8]), DerFault>
    ensures { Gives (λ x. (x.0, x.1.now)) result (int_at bytes.now) }
{
    let (contents, rest) = tlv_parts(bytes, 0x02)?;
    if !is_int(contents) {
        return Err(DerFault::BadInteger);
    }
    Ok((int_value(contents), rest))
}

#[tactic(auto, unfolding(crate::specs::Reading::bits_at))]
fn bits_parts(bytes: &[u8]) -> Result<((u32, u64), &[u8]), DerFault>
    ensures { Gives (λ x. (x.0, x.1.now)) result (bits_at bytes.now) }
{
    let (contents, rest) = tlv_parts(bytes, 0x03)?;
    if !is_bits(contents) {
        return Err(DerFault::BadBits);
    }
    Ok((bits_value(contents), rest))
}

#[tactic(auto, unfolding(crate::specs::Reading::time_at))]
fn time_parts(bytes: &[u8]) -> Result<(KTime, &[u8]), DerFault>
    ensures { Gives (λ x. (x.0, x.1.now)) result (time_at bytes.now) }
{
    let (contents, rest) = tlv_parts(bytes, 0x18)?;
    let Some(time) = KTime::from_octets(contents) else {
        return Err(DerFault::BadTime);
    };
    Ok((time, rest))
}

// Each `split_` function returns what its `_parts` function above returns. They are two functions only for the sake of
// the proof: `_parts` is proved from the definition, and the clauses `found` and `only` follow from its result.
/// Returns the contents of the value with this tag at the front, and the bytes after it.
pub fn split_tlv(bytes: &[u8], tag: u8) -> Result<(&[u8], &[u8]), DerFault>
    ensures found { IfOk result (λ x. (bytes.now ≡ tlv tag x.0.now ++ x.1.now) × (length x.0.now < 2 ^ 32)) }
    ensures only { (contents rest : List ℕ) → length contents < 2 ^ 32 → bytes.now ≡ tlv tag contents ++ rest
        → IsOkAnd result (λ x. (x.0.now ≡ contents) × (x.1.now ≡ rest)) }
    ensures exact { Gives (λ x. (x.0.now, x.1.now)) result (tlv_at tag bytes.now) }
{
    tlv_parts(bytes, tag)
}

/// Returns the INTEGER at the front, and the bytes after it.
pub fn split_int(bytes: &[u8]) -> Result<(i64, &[u8]), DerFault>
    ensures found { IfOk result (λ x. Stands (Int x.0) bytes.now x.1.now) }
    ensures only { (z : ℤ) (rest : List ℕ) → Stands (Int z) bytes.now rest
        → IsOkAnd result (λ x. (x.0 ≡ z) × (x.1.now ≡ rest)) }
    ensures exact { Gives (λ x. (x.0, x.1.now)) result (int_at bytes.now) }
{
    int_parts(bytes)
}

/// Returns the BIT STRING at the front, as its first 32 bits and the number of its bits, and the bytes after it.
pub fn split_bits(bytes: &[u8]) -> Result<((u32, u64), &[u8]), DerFault>
    ensures found { IfOk result (λ x. Stands (Bits x.0) bytes.now x.1.now) }
    ensures only { (b : ℕ × ℕ) (rest : List ℕ) → Stands (Bits b) bytes.now rest
        → IsOkAnd result (λ x. (x.0 ≡ b) × (x.1.now ≡ rest)) }
    ensures exact { Gives (λ x. (x.0, x.1.now)) result (bits_at bytes.now) }
{
    bits_parts(bytes)
}

/// Returns the KerberosTime at the front, and the bytes after it.
pub fn split_time(bytes: &[u8]) -> Result<(KTime, &[u8]), DerFault>
    ensures found { IfOk result (λ x. Stands (Time x.0) bytes.now x.1.now) }
    ensures only { (z : ℤ) (rest : List ℕ) → Stands (Time z) bytes.now rest
        → IsOkAnd result (λ x. (x.0 ≡ z) × (x.1.now ≡ rest)) }
    ensures exact { Gives (λ x. (x.0, x.1.now)) result (time_at bytes.now) }
{
    time_parts(bytes)
}
