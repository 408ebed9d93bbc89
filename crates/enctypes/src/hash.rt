//! The hash functions of the encryption types, and how keys are derived with each.
ghost use Rattle.std.specs.Prelude.{◌≡◌, ◌≤◌, ◌<◌, ◌⊎◌, OnOk, length};
ghost use Rattle.enctypes.specs.Hash.{derived_by, stretched_by};

use crate::sha2_profile::{stretch_sha256, stretch_sha384};
use crate::simplified::{derive_dr, derive_dr_both};
use prf_kdf::{kdf_sha256, kdf_sha256_both, kdf_sha384, kdf_sha384_both, pbkdf2_sha1};
use std::alloc::{AllocError, Global};

/// A hash function. With SHA-1, keys are derived as in the simplified profile (RFC 3961, section 5.1), and with the
/// others as in RFC 8009, section 3.
#[derive(Clone, Copy)]
pub enum Hash {
    /// For encryption types 17 and 18.
    Sha1,
    /// For encryption type 19.
    Sha256,
    /// For encryption type 20.
    Sha384,
}

impl Hash {
    /// Fills `out` with the bytes that a protocol key derives from a constant.
    pub(crate) fn derive(self, key: &[u8], constant: &[u8], out: &mut [u8])
        requires key { (length key.now ≡ 16) ⊎ (length key.now ≡ 32) }
        requires constant { 0 < length constant.now }
        requires out { length out.old ≤ 32 }
        ensures value { out.new ≡ derived_by self key.now constant.now (length out.old) }
        ensures len { length out.new ≡ length out.old }
    {
        match self {
            Hash::Sha1 => derive_dr(key, constant, out),
            Hash::Sha256 => kdf_sha256(key, constant, out),
            Hash::Sha384 => kdf_sha384(key, constant, out),
        }
    }

    /// Fills each output with the bytes that a protocol key derives from the constant before it, like `derive`. Work
    /// that depends only on the key is done once.
    pub(crate) fn derive_both(
        self,
        key: &[u8],
        constant: &[u8],
        out: &mut [u8],
        other_constant: &[u8],
        other_out: &mut [u8],
    )
        requires key { (length key.now ≡ 16) ⊎ (length key.now ≡ 32) }
        requires constant { 0 < length constant.now }
        requires out { length out.old ≤ 32 }
        requires other_constant { 0 < length other_constant.now }
        requires other_out { length other_out.old ≤ 32 }
        ensures value { out.new ≡ derived_by self key.now constant.now (length out.old) }
        ensures other_value { other_out.new ≡ derived_by self key.now other_constant.now (length other_out.old) }
    {
        match self {
            Hash::Sha1 => derive_dr_both(key, constant, out, other_constant, other_out),
            Hash::Sha256 => kdf_sha256_both(key, constant, out, other_constant, other_out),
            Hash::Sha384 => kdf_sha384_both(key, constant, out, other_constant, other_out),
        }
    }

    /// Fills `out` with the key that PBKDF2 derives from a password.
    pub(crate) fn stretch(
        self,
        alloc: Global,
        pass: &[u8],
        salt: &[u8],
        count: u32,
        out: &mut [u8],
    ) -> Result<(), AllocError>
        requires count { 1 ≤ count }
        requires out { length out.old ≤ 32 }
        ensures value { OnOk result (out.new ≡ stretched_by self pass.now salt.now count (length out.old)) }
        ensures len { length out.new ≡ length out.old }
    {
        match self {
            Hash::Sha1 => {
                pbkdf2_sha1(pass, salt, count, out);
                Ok(())
            }
            Hash::Sha256 => stretch_sha256(alloc, pass, salt, count, out),
            Hash::Sha384 => stretch_sha384(alloc, pass, salt, count, out),
        }
    }
}
