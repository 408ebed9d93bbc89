//! Encryption types 17 and 18: the simplified profile of RFC 3961, section 5, with AES and HMAC-SHA-1 (RFC 3962). They
//! differ only in the key length.
ghost use Rattle.std.specs.Prelude.{◌≡◌, ◌≤◌, ◌<◌, ◌⊎◌, length};
ghost use Rattle.enctypes.specs.Derivation.{dr};

use crate::aes_key::aes_key;
use aes_cts::AesKey;
use prf_kdf::n_fold;

/// The length of an AES block in bytes.
const BLOCK_LEN: usize = 16;

/// Fills `out` with DR of the key and the constant.
pub fn derive_dr(key: &[u8], constant: &[u8], out: &mut [u8])
    requires key { (length key.now ≡ 16) ⊎ (length key.now ≡ 32) }
    requires constant { 0 < length constant.now }
    ensures { out.new ≡ dr key.now constant.now (length out.old) }
{
    derive_random(&aes_key(key), constant, out);
}

/// Fills each output with DR of the key and the constant before it. The key is expanded once.
pub fn derive_dr_both(
    key: &[u8],
    constant: &[u8],
    out: &mut [u8],
    other_constant: &[u8],
    other_out: &mut [u8],
)
    requires key { (length key.now ≡ 16) ⊎ (length key.now ≡ 32) }
    requires constant { 0 < length constant.now }
    requires other_constant { 0 < length other_constant.now }
    ensures value { out.new ≡ dr key.now constant.now (length out.old) }
    ensures other_value { other_out.new ≡ dr key.now other_constant.now (length other_out.old) }
{
    let cipher = aes_key(key);
    derive_random(&cipher, constant, out);
    derive_random(&cipher, other_constant, other_out);
}

/// Fills `out` with DR of the key and the constant (RFC 3961, section 5.1): it folds the constant to a block, encrypts
/// it again and again, and concatenates the blocks.
fn derive_random(cipher: &AesKey, constant: &[u8], out: &mut [u8])
    requires { 0 < length constant.now }
    ensures { out.new ≡ dr cipher.now constant.now (length out.old) }
{
    let mut block = [0; BLOCK_LEN];
    n_fold(constant, &mut block);
    let len = out.len();
    for i in 0..len.div_ceil(BLOCK_LEN) {
        block = cipher.encrypt_block(&block);
        let start = BLOCK_LEN * i;
        let end = len.min(start + BLOCK_LEN);
        out[start..end].copy_from_slice(&block[..end - start]);
    }
}
