//! What the encryption types derive from keys and passwords, by their implementations.
ghost use Rattle.std.specs.Prelude.{◌≡◌, ◌≤◌, ◌<◌, length, OnOk};
ghost use Rattle.enctypes.specs.Etype.{key_len};
ghost use Rattle.enctypes.specs.Derivation.{derived, stretched};

use crate::Etype;
use crate::aes_sha1::{Aes128CtsHmacSha1_96, Aes256CtsHmacSha1_96};
use crate::aes_sha2::{Aes128CtsHmacSha256_128, Aes256CtsHmacSha384_192};
use crate::suite::Suite;
use std::alloc::{AllocError, Global};

/// Fills `out` with the bytes that a protocol key derives from a constant.
pub fn derive(etype: Etype, key: &[u8], constant: &[u8], out: &mut [u8])
    requires key { length key.now ≡ key_len etype }
    requires constant { 0 < length constant.now }
    requires out { length out.old ≤ 32 }
    // Promise (value, len), as derive_both: the key derivation and ..
    ensures value { out.new ≡ derived etype key.now constant.now (length out.old) }
    ensures len { length out.new ≡ length out.old }
{
    match etype {
        Etype::Aes128CtsHmacSha1_96 => Aes128CtsHmacSha1_96::derive(key, constant, out),
        Etype::Aes256CtsHmacSha1_96 => Aes256CtsHmacSha1_96::derive(key, constant, out),
        Etype::Aes128CtsHmacSha256_128 => Aes128CtsHmacSha256_128::derive(key, constant, out),
        Etype::Aes256CtsHmacSha384_192 => Aes256CtsHmacSha384_192::derive(key, constant, out),
    }
}

/// Fills each output with the bytes that a protocol key derives from the constant before it, like `derive`. Work that
/// depends only on the key is done once.
pub fn derive_both(
    etype: Etype,
    key: &[u8],
    constant: &[u8],
    out: &mut [u8],
    other_constant: &[u8],
    other_out: &mut [u8],
)
    requires key { length key.now ≡ key_len etype }
    requires constant { 0 < length constant.now }
    requires out { length out.old ≤ 32 }
    requires other_constant { 0 < length other_constant.now }
    requires other_out { length other_out.old ≤ 32 }
    // Promise (value, other_value): the key derivation and the string-to-key of each type are those of the definitions.
    ensures value { out.new ≡ derived etype key.now constant.now (length out.old) }
    ensures other_value { other_out.new ≡ derived etype key.now other_constant.now (length other_out.old) }
{
    match etype {
        Etype::Aes128CtsHmacSha1_96 => Aes128CtsHmacSha1_96::derive_both(
            key,
            constant,
            out,
            other_constant,
            other_out,
        ),
        Etype::Aes256CtsHmacSha1_96 => Aes256CtsHmacSha1_96::derive_both(
            key,
            constant,
            out,
            other_constant,
            other_out,
        ),
        Etype::Aes128CtsHmacSha256_128 => Aes128CtsHmacSha256_128::derive_both(
            key,
            constant,
            out,
            other_constant,
            other_out,
        ),
        Etype::Aes256CtsHmacSha384_192 => Aes256CtsHmacSha384_192::derive_both(
            key,
            constant,
            out,
            other_constant,
            other_out,
        ),
    }
}

/// Fills `out` with the key that PBKDF2 derives from a password; string-to-key derives the protocol key from that.
pub fn stretch(
    alloc: Global,
    etype: Etype,
    pass: &[u8],
    salt: &[u8],
    count: u32,
    out: &mut [u8],
) -> Result<(), AllocError>
    requires count { 1 ≤ count }
    requires out { length out.old ≡ key_len etype }
    // Promise (value, len), as derive_both: the key derivation and ..
    ensures value { OnOk result (out.new ≡ stretched etype pass.now salt.now count) }
    ensures len { length out.new ≡ length out.old }
{
    match etype {
        Etype::Aes128CtsHmacSha1_96 => Aes128CtsHmacSha1_96::stretch(alloc, pass, salt, count, out),
        Etype::Aes256CtsHmacSha1_96 => Aes256CtsHmacSha1_96::stretch(alloc, pass, salt, count, out),
        Etype::Aes128CtsHmacSha256_128 => Aes128CtsHmacSha256_128::stretch(
            alloc, pass, salt, count, out,
        ),
        Etype::Aes256CtsHmacSha384_192 => Aes256CtsHmacSha384_192::stretch(
            alloc, pass, salt, count, out,
        ),
    }
}
