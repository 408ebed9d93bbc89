//! HMAC (RFC 2104) over SHA-1, SHA-256 and SHA-384.

ghost use Rattle.std.specs.Prelude.{◌≡◌, ◌<◌, ◌≤◌, ◌-◌, ℕ, List, ◌++◌, length, take, replicate, map, bit_xor};
ghost use Rattle.std.specs.List.{flat_map};
ghost use Rattle.prf_kdf.specs.Hasher.{HoldsKeyBlock};
ghost use Rattle.prf_kdf.specs.Hmac.{block_of, key_block, masked_octets, hmac_of_block};
ghost use Rattle.prf_kdf.specs.Hmac.{hmac, hmac_sha1, hmac_sha256, hmac_sha384};

use crate::hasher::Hasher;
use sha1::Sha1;
use sha2::{Sha256, Sha384};

/// The longest block length of the three hash functions, in bytes.
pub const LONGEST_BLOCK: usize = 128;

// The bytes with which each byte of the key is masked (RFC 2104, section 2).
const INNER_MASK: u8 = 0x36;

const OUTER_MASK: u8 = 0x5c;

/// HMAC with one key: hashers that have hashed the key's block with the two masks. Each MAC starts from copies of them,
/// so the key is hashed only once for any number of MACs.
#[derive(Drop)]
pub struct HmacKey<H> {
    /// The hasher with the block masked with 0x36. It takes the message (RFC 2104, section 2).
    pub inner: H,
    /// The hasher with the block masked with 0x5c. It takes the inner digest.
    pub outer: H,
}

/// HMAC-SHA-1 with one key.
pub type HmacSha1 = HmacKey<Sha1>;

/// HMAC-SHA-256 with one key.
pub type HmacSha256 = HmacKey<Sha256>;

/// HMAC-SHA-384 with one key.
pub type HmacSha384 = HmacKey<Sha384>;

impl<H: Hasher> HmacKey<H> {
    /// Returns HMAC with this key. It hashes the key, once for all MACs.
    pub fn new(key: &[u8]) -> Self
        // Promise: MACs under one key, which is hashed once for all of them, are those of HMAC.
        ensures { HoldsKeyBlock H.Holds result.inner result.outer (key_block H.hash H.BLOCK_LEN key.now) }
    {
        let block = key_block::<H>(key);
        let block = &block[..H::BLOCK_LEN];
        HmacKey {
            inner: masked_hasher(block, INNER_MASK),
            outer: masked_hasher(block, OUTER_MASK),
        }
    }

    /// Writes the MAC of the concatenated parts.
    pub fn write_mac(&self, parts: &[&[u8]], out: &mut [u8])
        requires { length out.old ≡ H.SIZE }
        // Promise (len, mac), as HmacKey::new: MACs under one key, ..
        ensures len { length out.new ≡ H.SIZE }
        ensures mac { (block : List ℕ) → HoldsKeyBlock H.Holds self.now.inner self.now.outer block
            → out.new ≡ hmac_of_block H.hash block (flat_map (λ part. part.now) parts.now) }
    {
        let mut inner = self.inner.duplicate();
        absorb(&mut inner, parts);
        inner.finish(out);
        let mut outer = self.outer.duplicate();
        outer.update(out);
        outer.finish(out);
    }
}

/// Returns the HMAC-SHA-1 of the concatenated parts with the key (RFC 2104): 20 bytes. Empty parts are allowed.
pub fn hmac_sha1(key: &[u8], parts: &[&[u8]]) -> [u8; 20]
    // Promise: HMAC, PBKDF2, n-fold and the key derivation of RFC 8009 return what their equations say.
    ensures { result ≡ hmac_sha1 key.now (flat_map (λ part. part.now) parts.now) }
{
    let mut mac = [0; 20];
    write_hmac::<Sha1>(key, parts, &mut mac);
    mac
}

/// Returns the HMAC-SHA-256 of the concatenated parts with the key (RFC 2104, RFC 4231): 32 bytes. Empty parts are
/// allowed.
pub fn hmac_sha256(key: &[u8], parts: &[&[u8]]) -> [u8; 32]
    // Promise, as hmac_sha1: HMAC, PBKDF2, n-fold and ..
    ensures { result ≡ hmac_sha256 key.now (flat_map (λ part. part.now) parts.now) }
{
    let mut mac = [0; 32];
    write_hmac::<Sha256>(key, parts, &mut mac);
    mac
}

/// Returns the HMAC-SHA-384 of the concatenated parts with the key (RFC 2104, RFC 4231): 48 bytes. Empty parts are
/// allowed.
pub fn hmac_sha384(key: &[u8], parts: &[&[u8]]) -> [u8; 48]
    // Promise, as hmac_sha1: HMAC, PBKDF2, n-fold and ..
    ensures { result ≡ hmac_sha384 key.now (flat_map (λ part. part.now) parts.now) }
{
    let mut mac = [0; 48];
    write_hmac::<Sha384>(key, parts, &mut mac);
    mac
}

/// Writes the HMAC of the parts with the key.
#[tactic(auto, unfolding(crate::specs::Hmac::hmac))]
pub fn write_hmac<H: Hasher>(key: &[u8], parts: &[&[u8]], out: &mut [u8])
    requires { length out.old ≡ H.SIZE }
    ensures len { length out.new ≡ H.SIZE }
    ensures mac { out.new ≡ hmac H.hash H.BLOCK_LEN key.now (flat_map (λ part. part.now) parts.now) }
{
    HmacKey::<H>::new(key).write_mac(parts, out);
}

// Appends the parts to the hasher's message.
fn absorb<H: Hasher>(hasher: &mut H, parts: &[&[u8]])
    ensures { (m : List ℕ) → H.Holds hasher.old m
        → H.Holds hasher.new (m ++ flat_map (λ part. part.now) parts.now) }
{
    for part in parts {
        hasher.update(part);
    }
}

// Returns the key as one block, padded with zeros.
fn key_block<H: Hasher>(key: &[u8]) -> [u8; LONGEST_BLOCK]
    ensures { take H.BLOCK_LEN result ≡ key_block H.hash H.BLOCK_LEN key.now }
{
    if key.len() <= H::BLOCK_LEN {
        return padded_block(key);
    }
    let mut hasher = H::new();
    hasher.update(key);
    let mut digest = [0; LONGEST_BLOCK];
    let digest = &mut digest[..H::SIZE];
    hasher.finish(digest);
    padded_block(digest)
}

/// Returns the bytes, padded with zeros.
pub fn padded_block(octets: &[u8]) -> [u8; LONGEST_BLOCK]
    requires { length octets.now ≤ LONGEST_BLOCK }
    ensures { result ≡ block_of LONGEST_BLOCK octets.now }
{
    let mut block = [0; LONGEST_BLOCK];
    block[..octets.len()].copy_from_slice(octets);
    block
}

// Returns a hasher that has hashed the masked block.
fn masked_hasher<H: Hasher>(block: &[u8], mask: u8) -> H
    requires { length block.now ≤ LONGEST_BLOCK }
    ensures { H.Holds result (masked_octets mask block.now) }
{
    let mut masked = [0; LONGEST_BLOCK];
    for i in 0..block.len() {
        masked[i] = block[i] ^ mask;
    }
    let mut hasher = H::new();
    hasher.update(&masked[..block.len()]);
    hasher
}
