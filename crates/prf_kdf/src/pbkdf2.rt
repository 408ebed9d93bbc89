//! PBKDF2 (RFC 8018, section 5.2) with HMAC over SHA-1, SHA-256 and SHA-384.

ghost use Rattle.std.specs.Prelude.{◌≡◌, ◌<◌, ◌≤◌, ◌+◌, ◌*◌, ℕ, List, length, take, bit_xor};
ghost use Rattle.prf_kdf.specs.Hasher.{HoldsKeyBlock};
ghost use Rattle.prf_kdf.specs.Hmac.{hmac_of_block, hmac};
ghost use Rattle.prf_kdf.specs.Pbkdf2.{octets_xor, pbkdf2_block, pbkdf2, pbkdf2_sha1, pbkdf2_sha256, pbkdf2_sha384};

use crate::hasher::Hasher;
use crate::hmac::{HmacKey, LONGEST_BLOCK, padded_block};
use sha1::Sha1;
use sha2::{Sha256, Sha384};

/// Fills `out` with the key that PBKDF2-HMAC-SHA-1 derives from the password, the salt and the iteration count (RFC
/// 8018, section 5.2).
pub fn pbkdf2_sha1(password: &[u8], salt: &[u8], count: u32, out: &mut [u8])
    requires count { 1 ≤ count }
    requires blocks { length out.old ≤ 4294967295 * 20 }
    // Promise, as hmac_sha1: HMAC, PBKDF2, n-fold and ..
    ensures { out.new ≡ pbkdf2_sha1 password.now salt.now count (length out.old) }
{
    derive::<Sha1>(password, salt, count, out);
}

/// Fills `out` with the key that PBKDF2-HMAC-SHA-256 derives from the password, the salt and the iteration count (RFC
/// 8018, section 5.2).
pub fn pbkdf2_sha256(password: &[u8], salt: &[u8], count: u32, out: &mut [u8])
    requires count { 1 ≤ count }
    requires blocks { length out.old ≤ 4294967295 * 32 }
    // Promise, as hmac_sha1: HMAC, PBKDF2, n-fold and ..
    ensures { out.new ≡ pbkdf2_sha256 password.now salt.now count (length out.old) }
{
    derive::<Sha256>(password, salt, count, out);
}

/// Fills `out` with the key that PBKDF2-HMAC-SHA-384 derives from the password, the salt and the iteration count (RFC
/// 8018, section 5.2).
pub fn pbkdf2_sha384(password: &[u8], salt: &[u8], count: u32, out: &mut [u8])
    requires count { 1 ≤ count }
    requires blocks { length out.old ≤ 4294967295 * 48 }
    // Promise, as hmac_sha1: HMAC, PBKDF2, n-fold and ..
    ensures { out.new ≡ pbkdf2_sha384 password.now salt.now count (length out.old) }
{
    derive::<Sha384>(password, salt, count, out);
}

// Fills `out` block by block.
fn derive<H: Hasher>(password: &[u8], salt: &[u8], count: u32, out: &mut [u8])
    requires count { 1 ≤ count }
    requires blocks { length out.old ≤ 4294967295 * H.SIZE }
    ensures { out.new
        ≡ pbkdf2 (hmac H.hash H.BLOCK_LEN password.now) H.SIZE salt.now count (length out.old) }
{
    let key = HmacKey::<H>::new(password);
    let len = out.len();
    for i in 0..len.div_ceil(H::SIZE) {
        let start = H::SIZE * i;
        let end = len.min(start + H::SIZE);
        write_block(&key, salt, count, i as u32 + 1, &mut out[start..end]);
    }
}

// Fills `out` with the front of the block with this index, from 1.
fn write_block<H: Hasher>(key: &HmacKey<H>, salt: &[u8], count: u32, index: u32, out: &mut [u8])
    requires count { 1 ≤ count }
    requires room { length out.old ≤ H.SIZE }
    ensures { (block : List ℕ) → HoldsKeyBlock H.Holds key.now.inner key.now.outer block
        → out.new ≡ take (length out.old) (pbkdf2_block (hmac_of_block H.hash block) salt.now count index) }
{
    let mut last = [0; LONGEST_BLOCK];
    let last = &mut last[..H::SIZE];
    key.write_mac(&[salt, &index.to_be_bytes()], last);
    let mut total = padded_block(last);
    let total = &mut total[..H::SIZE];
    for _ in 1..count {
        iterate_once(key, last, total);
    }
    out.copy_from_slice(&total[..out.len()]);
}

// Replaces the last iterate with the next one, and adds it to the total.
fn iterate_once<H: Hasher>(key: &HmacKey<H>, last: &mut [u8], total: &mut [u8])
    requires last { length last.old ≡ H.SIZE }
    requires total { length total.old ≡ H.SIZE }
    ensures next { (block : List ℕ) → HoldsKeyBlock H.Holds key.now.inner key.now.outer block
        → last.new ≡ hmac_of_block H.hash block last.old }
    ensures total { total.new ≡ octets_xor total.old last.new }
{
    let before = padded_block(last);
    key.write_mac(&[&before[..H::SIZE]], last);
    xor_into(total, last);
}

// Adds the piece to the total, bit by bit (xor).
fn xor_into(total: &mut [u8], piece: &[u8])
    requires { length piece.now ≡ length total.old }
    ensures { total.new ≡ octets_xor total.old piece.now }
{
    for i in 0..total.len() {
        total[i] ^= piece[i];
    }
}
