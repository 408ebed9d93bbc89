//! Encryption types 19 and 20: AES and HMAC-SHA-2 (RFC 8009). They differ in the hash function and in lengths.
ghost use Rattle.std.specs.Prelude.{◌≡◌, ◌≤◌, ◌∷◌, ◌++◌, IfOk, OnOk, length, codes};
ghost use Rattle.prf_kdf.specs.Pbkdf2.{pbkdf2_sha256, pbkdf2_sha384};

use prf_kdf::{pbkdf2_sha256, pbkdf2_sha384};
use std::alloc::{AllocError, Global};

/// Fills `out` with the key that PBKDF2 derives from a password for aes128-cts-hmac-sha256-128.
pub fn stretch_sha256(
    alloc: Global,
    pass: &[u8],
    salt: &[u8],
    count: u32,
    out: &mut [u8],
) -> Result<(), AllocError>
    requires count { 1 ≤ count }
    requires out { length out.old ≤ 32 }
    ensures value { OnOk result (out.new ≡ pbkdf2_sha256 pass.now
        (codes "aes128-cts-hmac-sha256-128" ++ 0 ∷ salt.now) count (length out.old)) }
    ensures len { length out.new ≡ length out.old }
{
    let salt = salt_with_name(alloc, b"aes128-cts-hmac-sha256-128", salt)?;
    pbkdf2_sha256(pass, &salt, count, out);
    Ok(())
}

/// Fills `out` with the key that PBKDF2 derives from a password for aes256-cts-hmac-sha384-192.
pub fn stretch_sha384(
    alloc: Global,
    pass: &[u8],
    salt: &[u8],
    count: u32,
    out: &mut [u8],
) -> Result<(), AllocError>
    requires count { 1 ≤ count }
    requires out { length out.old ≤ 32 }
    ensures value { OnOk result (out.new ≡ pbkdf2_sha384 pass.now
        (codes "aes256-cts-hmac-sha384-192" ++ 0 ∷ salt.now) count (length out.old)) }
    ensures len { length out.new ≡ length out.old }
{
    let salt = salt_with_name(alloc, b"aes256-cts-hmac-sha384-192", salt)?;
    pbkdf2_sha384(pass, &salt, count, out);
    Ok(())
}

/// Returns the salt for PBKDF2 (RFC 8009, section 4): the name of the encryption type, a zero byte and the salt.
fn salt_with_name(alloc: Global, name: &[u8], salt: &[u8]) -> Result<Vec<u8>, AllocError>
    requires { length name.now ≤ 64 }
    ensures { IfOk result (λ whole. whole.items ≡ name.now ++ 0 ∷ salt.now) }
{
    let mut whole = Vec::with_capacity(alloc, name.len() + 1 + salt.len())?;
    whole.extend_from_slice(name)?;
    whole.push(0)?;
    whole.extend_from_slice(salt)?;
    Ok(whole)
}
