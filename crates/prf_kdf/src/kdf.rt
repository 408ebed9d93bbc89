//! KDF-HMAC-SHA2 (RFC 8009, section 3), the key derivation of encryption types 19 and 20.

ghost use Rattle.std.specs.Prelude.{◌≡◌, ◌≤◌, ◌*◌, ℕ, List, length};
ghost use Rattle.prf_kdf.specs.Hasher.{HoldsKeyBlock};
ghost use Rattle.prf_kdf.specs.Hmac.{hmac_of_block};
ghost use Rattle.prf_kdf.specs.Kdf.{kdf_sha2, kdf_sha256, kdf_sha384};

use crate::hasher::Hasher;
use crate::hmac::{HmacKey, LONGEST_BLOCK, hmac_sha256, hmac_sha384};
use sha2::{Sha256, Sha384};

// The index of the block of key material; there is only one.
const BLOCK_NUMBER: [u8; 4] = [0, 0, 0, 1];

/// Fills `out` with the key that KDF-HMAC-SHA2 derives with SHA-256 from the key and the label, without a context (RFC
/// 8009, section 3). At most 32 bytes can be derived.
pub fn kdf_sha256(key: &[u8], label: &[u8], out: &mut [u8])
    requires { length out.old ≤ 32 }
    // Promise, as hmac_sha1: HMAC, PBKDF2, n-fold and ..
    ensures { out.new ≡ kdf_sha256 key.now label.now (length out.old) }
{
    let bits = 8 * out.len() as u32;
    let mac = hmac_sha256(key, &[&BLOCK_NUMBER, label, &[0], &bits.to_be_bytes()]);
    out.copy_from_slice(&mac[..out.len()]);
}

/// Fills `out` with the key that KDF-HMAC-SHA2 derives with SHA-384 from the key and the label, without a context (RFC
/// 8009, section 3). At most 48 bytes can be derived.
pub fn kdf_sha384(key: &[u8], label: &[u8], out: &mut [u8])
    requires { length out.old ≤ 48 }
    // Promise, as hmac_sha1: HMAC, PBKDF2, n-fold and ..
    ensures { out.new ≡ kdf_sha384 key.now label.now (length out.old) }
{
    let bits = 8 * out.len() as u32;
    let mac = hmac_sha384(key, &[&BLOCK_NUMBER, label, &[0], &bits.to_be_bytes()]);
    out.copy_from_slice(&mac[..out.len()]);
}

/// Fills each `out` with the key that KDF-HMAC-SHA2 derives with SHA-256 from the key and the label before it, like
/// `kdf_sha256`. The key is hashed once.
pub fn kdf_sha256_both(
    key: &[u8],
    label: &[u8],
    out: &mut [u8],
    other_label: &[u8],
    other_out: &mut [u8],
)
    requires out { length out.old ≤ 32 }
    requires other_out { length other_out.old ≤ 32 }
    // Promise (out, other_out): two keys that are derived from one key, which is hashed once, are those of two calls.
    ensures out { out.new ≡ kdf_sha256 key.now label.now (length out.old) }
    ensures other_out { other_out.new ≡ kdf_sha256 key.now other_label.now (length other_out.old) }
{
    let prf = HmacKey::<Sha256>::new(key);
    derive(&prf, label, out);
    derive(&prf, other_label, other_out);
}

/// Fills each `out` with the key that KDF-HMAC-SHA2 derives with SHA-384 from the key and the label before it, like
/// `kdf_sha384`. The key is hashed once.
pub fn kdf_sha384_both(
    key: &[u8],
    label: &[u8],
    out: &mut [u8],
    other_label: &[u8],
    other_out: &mut [u8],
)
    requires out { length out.old ≤ 48 }
    requires other_out { length other_out.old ≤ 48 }
    // Promise (out, other_out), as kdf_sha256_both: two keys that are ..
    ensures out { out.new ≡ kdf_sha384 key.now label.now (length out.old) }
    ensures other_out { other_out.new ≡ kdf_sha384 key.now other_label.now (length other_out.old) }
{
    let prf = HmacKey::<Sha384>::new(key);
    derive(&prf, label, out);
    derive(&prf, other_label, other_out);
}

// Fills `out` with the key derived from the label, for a key that was hashed before.
fn derive<H: Hasher>(prf: &HmacKey<H>, label: &[u8], out: &mut [u8])
    requires { length out.old ≤ H.SIZE }
    ensures { (block : List ℕ) → HoldsKeyBlock H.Holds prf.now.inner prf.now.outer block
        → out.new ≡ kdf_sha2 (hmac_of_block H.hash block) label.now (length out.old) }
{
    let bits = 8 * out.len() as u32;
    let mut mac = [0; LONGEST_BLOCK];
    let mac = &mut mac[..H::SIZE];
    prf.write_mac(&[&BLOCK_NUMBER, label, &[0], &bits.to_be_bytes()], mac);
    out.copy_from_slice(&mac[..out.len()]);
}
