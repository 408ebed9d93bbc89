//! Encryption types 19 and 20 (RFC 8009). They share a profile, and differ in the hash function and in sizes.
ghost use Rattle.enctypes.specs.declared.etype.Etype.TheVariants as types;
ghost use Rattle.enctypes.specs.Etype.{hash, number, key_len, mac_key_len, mac_len, checksum_type, default_count};
ghost use Rattle.enctypes.specs.Sealing.{macs_cipher};
ghost use Rattle.enctypes.specs.Suite.{constants_of};

use crate::Etype;
use crate::hash::Hash;
use crate::mac_key::{MacKey, SHA256_MAC_LEN, SHA384_MAC_LEN};
use crate::suite::Suite;
use krb_fields::numbers;
use prf_kdf::HmacKey;

/// aes128-cts-hmac-sha256-128.
pub struct Aes128CtsHmacSha256_128;

impl Suite for Aes128CtsHmacSha256_128 {
    ghost ETYPE = { types.Aes128CtsHmacSha256_128 };

    const ETYPE: Etype = Etype::Aes128CtsHmacSha256_128;

    ghost HASH = { hash types.Aes128CtsHmacSha256_128 };

    const HASH: Hash = Hash::Sha256;

    ghost NUMBER = { number types.Aes128CtsHmacSha256_128 };

    const NUMBER: i32 = numbers::AES128_CTS_HMAC_SHA256_128;

    ghost KEY_SIZE = { key_len types.Aes128CtsHmacSha256_128 };

    const KEY_SIZE: usize = 16;

    ghost MAC_KEY_SIZE = { mac_key_len types.Aes128CtsHmacSha256_128 };

    const MAC_KEY_SIZE: usize = 16;

    ghost MAC_SIZE = { mac_len types.Aes128CtsHmacSha256_128 };

    const MAC_SIZE: usize = SHA256_MAC_LEN;

    ghost MACS_CIPHER = { macs_cipher types.Aes128CtsHmacSha256_128 };

    const MACS_CIPHER: bool = true;

    ghost CHECKSUM_TYPE = { checksum_type types.Aes128CtsHmacSha256_128 };

    const CHECKSUM_TYPE: i32 = numbers::HMAC_SHA256_128_AES128;

    ghost DEFAULT_COUNT = { default_count types.Aes128CtsHmacSha256_128 };

    const DEFAULT_COUNT: u32 = 32_768;

    fn mac_key(key: &[u8]) -> MacKey {
        MacKey::Sha256(HmacKey::new(key))
    }

    ghost constants = { constants_of types.Aes128CtsHmacSha256_128 };
}

/// aes256-cts-hmac-sha384-192.
pub struct Aes256CtsHmacSha384_192;

impl Suite for Aes256CtsHmacSha384_192 {
    ghost ETYPE = { types.Aes256CtsHmacSha384_192 };

    const ETYPE: Etype = Etype::Aes256CtsHmacSha384_192;

    ghost HASH = { hash types.Aes256CtsHmacSha384_192 };

    const HASH: Hash = Hash::Sha384;

    ghost NUMBER = { number types.Aes256CtsHmacSha384_192 };

    const NUMBER: i32 = numbers::AES256_CTS_HMAC_SHA384_192;

    ghost KEY_SIZE = { key_len types.Aes256CtsHmacSha384_192 };

    const KEY_SIZE: usize = 32;

    ghost MAC_KEY_SIZE = { mac_key_len types.Aes256CtsHmacSha384_192 };

    const MAC_KEY_SIZE: usize = 24;

    ghost MAC_SIZE = { mac_len types.Aes256CtsHmacSha384_192 };

    const MAC_SIZE: usize = SHA384_MAC_LEN;

    ghost MACS_CIPHER = { macs_cipher types.Aes256CtsHmacSha384_192 };

    const MACS_CIPHER: bool = true;

    ghost CHECKSUM_TYPE = { checksum_type types.Aes256CtsHmacSha384_192 };

    const CHECKSUM_TYPE: i32 = numbers::HMAC_SHA384_192_AES256;

    ghost DEFAULT_COUNT = { default_count types.Aes256CtsHmacSha384_192 };

    const DEFAULT_COUNT: u32 = 32_768;

    fn mac_key(key: &[u8]) -> MacKey {
        MacKey::Sha384(HmacKey::new(key))
    }

    ghost constants = { constants_of types.Aes256CtsHmacSha384_192 };
}
