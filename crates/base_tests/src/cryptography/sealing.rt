//! Tests of encryption, decryption and checksums (`enctypes`).
use crate::cryptography::fixtures::{ETYPES, TEXT, USAGE, base_key, sized};
use crate::expect::{are, at_last, bytes, judged, same};
use enctypes::{Etype, Key, KeyUsage, ReadyKey, checksum, open, seal, verify};
use std::alloc::{AllocError, Global};

/// A type, a confounder, the length of a text, and the text encrypted: RFC 8009, appendix A, for types 19 and 20; the
/// others are from the independent implementation.
const SEALED: &[(Etype, &str, usize, &str)] = &[
    (
        Etype::Aes128CtsHmacSha1_96,
        "7e5895eaf2672435bad817f545a37148",
        0,
        "81dd031521449faedf138baf2bb11404d91a8fb76f46adf1d8306a35",
    ),
    (
        Etype::Aes128CtsHmacSha1_96,
        "56ab21713ff62c0a1457200f6fa9948f",
        16,
        "d834154ec6622855cda4f5cd1d131b617b394ce2d26b75edea330b1052f7c2a6a05392347b3700d160b0df1d",
    ),
    (
        Etype::Aes128CtsHmacSha1_96,
        "a7a4e29a4728ce10664fb64e49ad3fac",
        21,
        "4d6567f0b8bf77fda3728a32eb9642ae6f61135bb8f9bd25b033cd35c4a72c0d20c8bdc6408f8ecdf6903474afbd9e9276",
    ),
    (
        Etype::Aes256CtsHmacSha1_96,
        "7e5895eaf2672435bad817f545a37148",
        0,
        "bad288035997f2d892572aaa35010200fd649ccea34ec047a6aae6d6",
    ),
    (
        Etype::Aes256CtsHmacSha1_96,
        "56ab21713ff62c0a1457200f6fa9948f",
        16,
        "9cbe835b98546bf46d4c6e6ce34520835523bf37d0ff8989ee810d639cd08822f25ddbdb0bb2ec6dfd959762",
    ),
    (
        Etype::Aes256CtsHmacSha1_96,
        "a7a4e29a4728ce10664fb64e49ad3fac",
        21,
        "d2bb49a32eaa2e83580777582f990a13b57a5724b5e46ff47591f2817886c319f56a035d5da2df76790f20bd9baa4e3010",
    ),
    (
        Etype::Aes128CtsHmacSha256_128,
        "7e5895eaf2672435bad817f545a37148",
        0,
        "ef85fb890bb8472f4dab20394dca781dad877eda39d50c870c0d5a0a8e48c718",
    ),
    (
        Etype::Aes128CtsHmacSha256_128,
        "7bca285e2fd4130fb55b1a5c83bc5b24",
        6,
        "84d7f30754ed987bab0bf3506beb09cfb55402cef7e6877ce99e247e52d16ed4421dfdf8976c",
    ),
    (
        Etype::Aes128CtsHmacSha256_128,
        "56ab21713ff62c0a1457200f6fa9948f",
        16,
        "3517d640f50ddc8ad3628722b3569d2ae07493fa8263254080ea65c1008e8fc295fb4852e7d83e1e7c48c37eebe6b0d3",
    ),
    (
        Etype::Aes128CtsHmacSha256_128,
        "a7a4e29a4728ce10664fb64e49ad3fac",
        21,
        "\
            720f73b18d9859cd6ccb4346115cd336c70f58edc0c4437c5573544c31c813bce1e6d072c186b39a413c2f92ca9b8334a2\
            87ffcbfc",
    ),
    (
        Etype::Aes256CtsHmacSha384_192,
        "f764e9fa15c276478b2c7d0c4e5f58e4",
        0,
        "41f53fa5bfe7026d91faf9be959195a058707273a96a40f0a01960621ac612748b9bbfbe7eb4ce3c",
    ),
    (
        Etype::Aes256CtsHmacSha384_192,
        "b80d3251c1f6471494256ffe712d0b9a",
        6,
        "4ed7b37c2bcac8f74f23c1cf07e62bc7b75fb3f637b9f559c7f664f69eab7b6092237526ea0d1f61cb20d69d10f2",
    ),
    (
        Etype::Aes256CtsHmacSha384_192,
        "53bf8a0d105265d4e276428624ce5e63",
        16,
        "\
            bc47ffec7998eb91e8115cf8d19dac4bbbe2e163e87dd37f49beca92027764f68cf51f14d798c2273f35df574d1f932e40\
            c4ff255b36a266",
    ),
    (
        Etype::Aes256CtsHmacSha384_192,
        "763e65367e864f02f55153c7e3b58af1",
        21,
        "\
            40013e2df58e8751957d2878bcd2d6fe101ccfd556cb1eae79db3c3ee86429f2b2a602ac86fef6ecb647d6295fae077a1f\
            eb517508d2c16b4192e01f62",
    ),
];

#[test]
fn the_standards_texts_are_sealed_and_opened(rt: HostRuntime) {
    let alloc = rt.alloc();
    for (etype, confounder, len, digits) in SEALED {
        let confounder = sized(*confounder);
        let found = at_last(alloc, &AllocError, || {
            is_sealed(alloc, *etype, &confounder, *len, *digits)
        });
        same(&rt, digits, &found, &Ok(true));
        judged(alloc);
    }
}

/// Checks whether the text of this length is encrypted as these digits, and decrypted again.
fn is_sealed(
    alloc: Global,
    etype: Etype,
    confounder: &[u8; 16],
    len: usize,
    digits: &str,
) -> Result<bool, AllocError> {
    let Some(text) = TEXT.get(..len) else {
        return Ok(false);
    };
    let key = base_key(etype);
    let sealed = seal(alloc, &key, USAGE, confounder, text)?;
    Ok(are(alloc, &sealed, digits) && opens(alloc, &key, USAGE, &sealed, Some(text))?)
}

/// Checks whether the bytes are decrypted to this text, or refused if it is `None`.
fn opens(
    alloc: Global,
    key: &Key,
    usage: KeyUsage,
    sealed: &[u8],
    text: Option<&[u8]>,
) -> Result<bool, AllocError> {
    Ok(match (open(alloc, key, usage, sealed)?, text) {
        (Some(found), Some(text)) => found.as_slice() == text,
        (None, None) => true,
        _ => false,
    })
}

#[test]
fn long_texts_are_decrypted(rt: HostRuntime) {
    for etype in [Etype::Aes128CtsHmacSha1_96, Etype::Aes256CtsHmacSha384_192] {
        same(&rt, &etype, &is_opened(rt.alloc(), etype), &Ok(true));
    }
}

#[test]
fn changed_texts_are_refused(rt: HostRuntime) {
    for (etype, len) in [
        (Etype::Aes128CtsHmacSha1_96, 28),
        (Etype::Aes256CtsHmacSha1_96, 28),
        (Etype::Aes128CtsHmacSha256_128, 32),
        (Etype::Aes256CtsHmacSha384_192, 40),
    ] {
        same(
            &rt,
            &etype,
            &is_refused(rt.alloc(), etype),
            &Ok((len, [true; 4])),
        );
    }
}

/// Checks whether a text of megabytes is decrypted.
fn is_opened(alloc: Global, etype: Etype) -> Result<bool, AllocError> {
    let key = base_key(etype);
    let text = vec![in alloc; 0x5a; 2_000_001]?;
    let sealed = seal(alloc, &key, USAGE, &[7; 16], &text)?;
    opens(alloc, &key, USAGE, &sealed, Some(text.as_slice()))
}

/// Returns the length of an empty text encrypted, and whether it is refused once it is changed.
fn is_refused(alloc: Global, etype: Etype) -> Result<(usize, [bool; 4]), AllocError> {
    let key = base_key(etype);
    let mut sealed = seal(alloc, &key, USAGE, &[7; 16], &[])?;
    Ok((sealed.len(), refuses_changes(alloc, &key, &mut sealed)?))
}

/// Checks whether the bytes are refused for another usage, with a byte changed, without the last byte, and whether no
/// bytes are.
fn refuses_changes(alloc: Global, key: &Key, sealed: &mut [u8]) -> Result<[bool; 4], AllocError> {
    let other = opens(alloc, key, KeyUsage::ApReqAuthenticator, sealed, None)?;
    if let Some(last) = sealed.last_mut() {
        *last ^= 1;
    }
    let len = sealed.len().saturating_sub(1);
    Ok([
        other,
        opens(alloc, key, USAGE, sealed, None)?,
        opens(alloc, key, USAGE, &sealed[..len], None)?,
        opens(alloc, key, USAGE, &[], None)?,
    ])
}

/// A type and the checksum of `TEXT`: RFC 8009, appendix A, for types 19 and 20; the others are from the independent
/// implementation.
const CHECKSUMS: &[(Etype, &str)] = &[
    (Etype::Aes128CtsHmacSha1_96, "630f8e7641d9da5393ea21d7"),
    (Etype::Aes256CtsHmacSha1_96, "275ad015bf35a96589f74aa0"),
    (
        Etype::Aes128CtsHmacSha256_128,
        "d78367186643d67b411cba9139fc1dee",
    ),
    (
        Etype::Aes256CtsHmacSha384_192,
        "45ee791567eefca37f4ac1e0222de80d43c3bfa06699672a",
    ),
];

#[test]
fn the_standards_checksums_are_made_and_checked(rt: HostRuntime) {
    for (etype, digits) in CHECKSUMS {
        let found = checksums(rt.alloc(), *etype, *digits);
        same(&rt, digits, &found, &[true, true, false, false, false]);
    }
}

/// Checks whether this is the checksum, and whether it is verified as it is, for another text, with its last byte
/// changed, and without it.
fn checksums(alloc: Global, etype: Etype, digits: &str) -> [bool; 5] {
    let key = base_key(etype);
    let mac = checksum(&key, USAGE, &TEXT);
    let mut changed = bytes(alloc, digits);
    if let Some(last) = changed.last_mut() {
        *last ^= 1;
    }
    [
        are(alloc, mac.bytes(), digits),
        verify(&key, USAGE, &TEXT, mac.bytes()),
        verify(&key, USAGE, &TEXT[..20], mac.bytes()),
        verify(&key, USAGE, &TEXT, &changed),
        changed.pop().is_some() && verify(&key, USAGE, &TEXT, &changed),
    ]
}

#[test]
fn ready_keys_are_for_one_key_and_one_usage(rt: HostRuntime) {
    for etype in ETYPES {
        let key = Key::from_random(*etype, &[7; 32]);
        let ready = ReadyKey::new(&key, USAGE);
        let found = [
            ready.is_for(&key, USAGE),
            ready.is_for(&key, KeyUsage::ApReqAuthenticator),
            ready.is_for(&Key::from_random(*etype, &[8; 32]), USAGE),
        ];
        same(&rt, etype, &found, &[true, false, false]);
    }
}
