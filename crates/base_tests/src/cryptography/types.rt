//! Tests of encryption types, keys and their printed forms (`enctypes`).
use crate::cryptography::fixtures::base_key;
use crate::expect::{are, same, shows};
use enctypes::{Etype, Key, KeyUsage};

/// A type, its number, the length of its keys and of its MAC, the type of its checksum, and its iterations: as IANA
/// assigned them; RFC 3962, sections 4 and 7; RFC 8009, sections 4, 5 and 6.
const TYPES: &[(Etype, i32, usize, usize, i32, u32)] = &[
    (Etype::Aes128CtsHmacSha1_96, 17, 16, 12, 15, 4_096),
    (Etype::Aes256CtsHmacSha1_96, 18, 32, 12, 16, 4_096),
    (Etype::Aes128CtsHmacSha256_128, 19, 16, 16, 19, 32_768),
    (Etype::Aes256CtsHmacSha384_192, 20, 32, 24, 20, 32_768),
];

/// The usages with the numbers of RFC 4120, section 7.5.1.
const USAGES: &[(KeyUsage, u32)] = &[
    (KeyUsage::PaEncTimestamp, 1),
    (KeyUsage::Ticket, 2),
    (KeyUsage::AsRepEncPart, 3),
    (KeyUsage::TgsReqAuthenticatorChecksum, 6),
    (KeyUsage::TgsReqAuthenticator, 7),
    (KeyUsage::TgsRepEncPartSessionKey, 8),
    (KeyUsage::TgsRepEncPartSubkey, 9),
    (KeyUsage::ApReqAuthenticatorChecksum, 10),
    (KeyUsage::ApReqAuthenticator, 11),
    (KeyUsage::ApRepEncPart, 12),
];

#[test]
fn types_have_the_standards_numbers_and_lengths(rt: HostRuntime) {
    for row in TYPES {
        let (etype, number, ..) = row;
        same(&rt, number, &Etype::from_number(*number), &Some(*etype));
        same(&rt, number, &numbers(*etype), row);
    }
}

#[test]
fn other_numbers_are_no_types(rt: HostRuntime) {
    for number in [i32::MIN, -17, 0, 16, 21, 23, i32::MAX] {
        same(&rt, &number, &Etype::from_number(number), &None);
    }
}

#[test]
fn usages_have_the_standards_numbers(rt: HostRuntime) {
    for (usage, number) in USAGES {
        same(&rt, number, &usage.number(), number);
    }
}

/// Returns the row of a type.
fn numbers(etype: Etype) -> (Etype, i32, usize, usize, i32, u32) {
    (
        etype,
        etype.number(),
        etype.key_len(),
        etype.mac_len(),
        etype.checksum_type(),
        etype.default_count(),
    )
}

/// A type, a length, and whether a key of the type has it.
const LENGTHS: &[(Etype, usize, bool)] = &[
    (Etype::Aes128CtsHmacSha1_96, 15, false),
    (Etype::Aes128CtsHmacSha1_96, 16, true),
    (Etype::Aes128CtsHmacSha1_96, 17, false),
    (Etype::Aes256CtsHmacSha384_192, 31, false),
    (Etype::Aes256CtsHmacSha384_192, 32, true),
    (Etype::Aes256CtsHmacSha384_192, 33, false),
];

/// Returns whether that many bytes, at most 33, are a key of the type unchanged.
fn is_key(etype: Etype, len: usize) -> bool {
    let octets = [7; 33];
    let Some(octets) = octets.get(..len) else {
        return false;
    };
    match Key::new(etype, octets) {
        Some(key) => key.etype() == etype && key.bytes() == octets,
        None => false,
    }
}

#[test]
fn a_key_has_its_types_length(rt: HostRuntime) {
    for (etype, len, wanted) in LENGTHS {
        same(&rt, &(etype, len), &is_key(*etype, *len), wanted);
    }
}

/// The base keys of RFC 8009, appendix A, are random bytes unchanged.
#[test]
fn a_key_is_made_of_random_bytes_and_printed_without_them(rt: HostRuntime) {
    let short = base_key(Etype::Aes128CtsHmacSha256_128);
    let long = base_key(Etype::Aes256CtsHmacSha384_192);
    let found = (
        are(
            rt.alloc(),
            short.bytes(),
            "3705d96080c17728a0e800eab6e0d23c",
        ),
        are(
            rt.alloc(),
            long.bytes(),
            "6d404d37faf79f9df0d33568d320669800eb4836472ea8a026d16b7182460c52",
        ),
        Key::new(Etype::Aes128CtsHmacSha1_96, &[7; 16]),
    );
    shows(
        &rt,
        rt.alloc(),
        found,
        "(true, true, Some(Key { etype: Aes128CtsHmacSha1_96, .. }))",
    );
}
