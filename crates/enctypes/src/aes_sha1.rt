//! Encryption types 17 and 18 (RFC 3962). They share the simplified profile, and differ in numbers and sizes.
ghost use Rattle.enctypes.specs.declared.etype.Etype.TheVariants as types;
ghost use Rattle.enctypes.specs.Etype.{hash, number, key_len, mac_key_len, mac_len, checksum_type, default_count};
ghost use Rattle.enctypes.specs.Sealing.{macs_cipher};
ghost use Rattle.enctypes.specs.Suite.{constants_of};

use crate::Etype;
use crate::hash::Hash;
use crate::mac_key::{MacKey, SHA1_MAC_LEN};
use crate::suite::Suite;
use krb_fields::numbers;
use prf_kdf::HmacKey;

/// aes128-cts-hmac-sha1-96.
pub struct Aes128CtsHmacSha1_96;

impl Suite for Aes128CtsHmacSha1_96 {
    ghost ETYPE = { types.Aes128CtsHmacSha1_96 };

    const ETYPE: Etype = Etype::Aes128CtsHmacSha1_96;

    ghost HASH = { hash types.Aes128CtsHmacSha1_96 };

    const HASH: Hash = Hash::Sha1;

    ghost NUMBER = { number types.Aes128CtsHmacSha1_96 };

    const NUMBER: i32 = numbers::AES128_CTS_HMAC_SHA1_96;

    ghost KEY_SIZE = { key_len types.Aes128CtsHmacSha1_96 };

    const KEY_SIZE: usize = 16;

    ghost MAC_KEY_SIZE = { mac_key_len types.Aes128CtsHmacSha1_96 };

    const MAC_KEY_SIZE: usize = 16;

    ghost MAC_SIZE = { mac_len types.Aes128CtsHmacSha1_96 };

    const MAC_SIZE: usize = SHA1_MAC_LEN;

    ghost MACS_CIPHER = { macs_cipher types.Aes128CtsHmacSha1_96 };

    const MACS_CIPHER: bool = false;

    ghost CHECKSUM_TYPE = { checksum_type types.Aes128CtsHmacSha1_96 };

    const CHECKSUM_TYPE: i32 = numbers::HMAC_SHA1_96_AES128;

    ghost DEFAULT_COUNT = { default_count types.Aes128CtsHmacSha1_96 };

    const DEFAULT_COUNT: u32 = 4_096;

    fn mac_key(key: &[u8]) -> MacKey {
        MacKey::Sha1(HmacKey::new(key))
    }

    ghost constants = { constants_of types.Aes128CtsHmacSha1_96 };
}

/// aes256-cts-hmac-sha1-96.
pub struct Aes256CtsHmacSha1_96;

impl Suite for Aes256CtsHmacSha1_96 {
    ghost ETYPE = { types.Aes256CtsHmacSha1_96 };

    const ETYPE: Etype = Etype::Aes256CtsHmacSha1_96;

    ghost HASH = { hash types.Aes256CtsHmacSha1_96 };

    const HASH: Hash = Hash::Sha1;

    ghost NUMBER = { number types.Aes256CtsHmacSha1_96 };

    const NUMBER: i32 = numbers::AES256_CTS_HMAC_SHA1_96;

    ghost KEY_SIZE = { key_len types.Aes256CtsHmacSha1_96 };

    const KEY_SIZE: usize = 32;

    ghost MAC_KEY_SIZE = { mac_key_len types.Aes256CtsHmacSha1_96 };

    const MAC_KEY_SIZE: usize = 32;

    ghost MAC_SIZE = { mac_len types.Aes256CtsHmacSha1_96 };

    const MAC_SIZE: usize = SHA1_MAC_LEN;

    ghost MACS_CIPHER = { macs_cipher types.Aes256CtsHmacSha1_96 };

    const MACS_CIPHER: bool = false;

    ghost CHECKSUM_TYPE = { checksum_type types.Aes256CtsHmacSha1_96 };

    const CHECKSUM_TYPE: i32 = numbers::HMAC_SHA1_96_AES256;

    ghost DEFAULT_COUNT = { default_count types.Aes256CtsHmacSha1_96 };

    const DEFAULT_COUNT: u32 = 4_096;

    fn mac_key(key: &[u8]) -> MacKey {
        MacKey::Sha1(HmacKey::new(key))
    }

    ghost constants = { constants_of types.Aes256CtsHmacSha1_96 };
}
