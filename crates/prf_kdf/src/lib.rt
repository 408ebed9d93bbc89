//! The derivations that Kerberos's encryption types use: HMAC with three hash functions, PBKDF2, n-fold and the key
//! derivation of RFC 8009. None allocates. Each returns exactly what its definition in `specs/` says, over the
//! definitions of the hash functions in the crates `sha1` and `sha2`.
//!
//! ```
//! let mac = hmac_sha256(key, &[header, body]); // of both parts as one text
//! let mut out = [0; 32];
//! pbkdf2_sha256(password, salt, 32_768, &mut out);
//! kdf_sha256(key, label, &mut out);
//! n_fold(input, &mut out);
//! ```
//!
//! | call | standard | fills or returns |
//! |---|---|---|
//! | [`hmac_sha1`], [`hmac_sha256`], [`hmac_sha384`] | RFC 2104, RFC 4231 | 20, 32, 48 bytes |
//! | [`HmacKey::new`], [`HmacKey::write_mac`] | the same | many MACs with one key, which is hashed once |
//! | [`pbkdf2_sha1`], [`pbkdf2_sha256`], [`pbkdf2_sha384`] | RFC 8018, section 5.2 | a slice of up to 2^32 - 1 blocks |
//! | [`n_fold`] | RFC 3961, section 5.1 | a slice of any length except 0 |
//! | [`kdf_sha256`], [`kdf_sha384`] | RFC 8009, section 3 | a slice of at most 32, 48 bytes |
//! | [`kdf_sha256_both`], [`kdf_sha384_both`] | the same | two such slices, from one key |
//!
//! Which derivation an encryption type uses, and with which constants, is in `enctypes`.
#![tactic(auto)]

mod fold;
mod hasher;
mod hmac;
mod kdf;
mod pbkdf2;

pub use fold::n_fold;
pub use hasher::Hasher;
pub use hmac::{HmacKey, HmacSha1, HmacSha256, HmacSha384, hmac_sha1, hmac_sha256, hmac_sha384};
pub use kdf::{kdf_sha256, kdf_sha256_both, kdf_sha384, kdf_sha384_both};
pub use pbkdf2::{pbkdf2_sha1, pbkdf2_sha256, pbkdf2_sha384};
