//! Encryption types, and the keys and texts of RFC 8009, which several modules use.

ghost use Rattle.std.specs.Prelude.{◌≡◌};

use enctypes::{Etype, Key, KeyUsage};

/// The encryption types.
pub const ETYPES: &[Etype] = &[
    Etype::Aes128CtsHmacSha1_96,
    Etype::Aes256CtsHmacSha1_96,
    Etype::Aes128CtsHmacSha256_128,
    Etype::Aes256CtsHmacSha384_192,
];

/// A usage of many of the rows: number 2.
pub const USAGE: KeyUsage = KeyUsage::Ticket;

/// The bytes whose prefixes RFC 8009, appendix A, encrypts.
pub const TEXT: [u8; 21] = [
    0, 1, 2, 3, 4, 5, 6, 7, 8, 9, 10, 11, 12, 13, 14, 15, 16, 17, 18, 19, 20,
];

/// The base keys of RFC 8009, appendix A. The shorter one is followed by bytes that a key of 16 bytes does not have.
const BASE_128: &str = "3705d96080c17728a0e800eab6e0d23cffffffffffffffffffffffffffffffff";

pub const BASE_256: &str = "6d404d37faf79f9df0d33568d320669800eb4836472ea8a026d16b7182460c52";

/// Returns N bytes in digits, or zeros if there are not N.
pub fn sized<const N: usize>(digits: &str) -> [u8; N] {
    let mut octets = [0; N];
    match hex::decode_to_slice(digits, &mut octets) {
        Ok(()) => octets,
        Err(_) => [0; N],
    }
}

/// Returns the base key with the length of the type's keys.
pub fn base_key(etype: Etype) -> Key
    ensures { result.etype ≡ etype }
{
    let digits = if etype.key_len() == 16 {
        BASE_128
    } else {
        BASE_256
    };
    Key::from_random(etype, &sized(digits))
}
