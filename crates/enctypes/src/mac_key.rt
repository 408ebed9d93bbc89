//! HMAC with one key, with the hash function of an encryption type.
ghost use Rattle.std.specs.Prelude.{◌≡◌, ℕ, List};
ghost use Rattle.std.specs.List.{flat_map};
ghost use Rattle.enctypes.specs.declared.etype.Etype as types;
ghost use Rattle.enctypes.specs.ReadyKey.{IsMacKey};
ghost use Rattle.enctypes.specs.Sealing.{cut_hmac};

use crate::aes_sha1::{Aes128CtsHmacSha1_96, Aes256CtsHmacSha1_96};
use crate::aes_sha2::{Aes128CtsHmacSha256_128, Aes256CtsHmacSha384_192};
use crate::suite::Suite;
use crate::{Etype, Mac};
use prf_kdf::{HmacSha1, HmacSha256, HmacSha384};

/// The length that encryption types 17 and 18 keep of an HMAC, in bytes.
pub const SHA1_MAC_LEN: usize = 12;

/// The length that encryption type 19 keeps of an HMAC, in bytes.
pub const SHA256_MAC_LEN: usize = 16;

/// The length that encryption type 20 keeps of an HMAC, in bytes.
pub const SHA384_MAC_LEN: usize = 24;

/// A key for HMACs, hashed once for all of them.
#[derive(Drop)]
pub enum MacKey {
    /// For encryption types 17 and 18.
    Sha1(HmacSha1),
    /// For encryption type 19.
    Sha256(HmacSha256),
    /// For encryption type 20.
    Sha384(HmacSha384),
}

impl MacKey {
    /// Returns the key for HMACs, hashed with the hash function of the encryption type.
    pub fn new(etype: Etype, key: &[u8]) -> MacKey
        ensures { IsMacKey etype key.now result }
    {
        match etype {
            Etype::Aes128CtsHmacSha1_96 => Aes128CtsHmacSha1_96::mac_key(key),
            Etype::Aes256CtsHmacSha1_96 => Aes256CtsHmacSha1_96::mac_key(key),
            Etype::Aes128CtsHmacSha256_128 => Aes128CtsHmacSha256_128::mac_key(key),
            Etype::Aes256CtsHmacSha384_192 => Aes256CtsHmacSha384_192::mac_key(key),
        }
    }

    /// Returns the HMAC of the concatenated parts, cut to the encryption type's length.
    pub fn mac(&self, parts: &[&[u8]]) -> Mac
        ensures { (etype : types.Etype) (key : List ℕ) → IsMacKey etype key self.now
            → result ≡ cut_hmac etype key (flat_map (λ part. part.now) parts.now) }
    {
        match self {
            MacKey::Sha1(key) => {
                let mut mac = [0; 20];
                key.write_mac(parts, &mut mac);
                Mac::new(&mac[..SHA1_MAC_LEN])
            }
            MacKey::Sha256(key) => {
                let mut mac = [0; 32];
                key.write_mac(parts, &mut mac);
                Mac::new(&mac[..SHA256_MAC_LEN])
            }
            MacKey::Sha384(key) => {
                let mut mac = [0; 48];
                key.write_mac(parts, &mut mac);
                Mac::new(&mac[..SHA384_MAC_LEN])
            }
        }
    }
}
