//! Tests of HMAC, PBKDF2, n-fold and the key derivation of RFC 8009 (`prf_kdf`), and of keys from passwords
//! (`enctypes`).
ghost use Rattle.std.specs.Prelude.{◌<◌};

use crate::cryptography::vectors::{DIGITS, TEXTS};
use crate::expect::{are, at_last, bytes, judged, same};
use enctypes::{Etype, string_to_key};
use prf_kdf::{
    hmac_sha1, hmac_sha256, hmac_sha384, kdf_sha256, kdf_sha384, n_fold, pbkdf2_sha1,
    pbkdf2_sha256, pbkdf2_sha384,
};
use std::alloc::{AllocError, Global};
use std::process::Abort;

/// A key or password, a text, label or salt, and a number of iterations.
type Given<'a> = (&'a [u8], &'a [u8], u32);

/// What makes bytes of a key and a text.
#[derive(Clone, Copy)]
enum Function {
    HmacSha1,
    HmacSha256,
    HmacSha384,
    Pbkdf2Sha1,
    Pbkdf2Sha256,
    Pbkdf2Sha384,
    KdfSha256,
    KdfSha384,
    NFold,
    Key(Etype),
}

impl Function {
    /// Returns the function with this name. The key from a password has the number of its type.
    fn named(name: &str) -> Option<Self> {
        Some(match name {
            "hmac-sha1" => Function::HmacSha1,
            "hmac-sha256" => Function::HmacSha256,
            "hmac-sha384" => Function::HmacSha384,
            "pbkdf2-sha1" => Function::Pbkdf2Sha1,
            "pbkdf2-sha256" => Function::Pbkdf2Sha256,
            "pbkdf2-sha384" => Function::Pbkdf2Sha384,
            "kdf-sha256" => Function::KdfSha256,
            "kdf-sha384" => Function::KdfSha384,
            "n-fold" => Function::NFold,
            "key-17" => Function::Key(Etype::Aes128CtsHmacSha1_96),
            "key-18" => Function::Key(Etype::Aes256CtsHmacSha1_96),
            "key-19" => Function::Key(Etype::Aes128CtsHmacSha256_128),
            "key-20" => Function::Key(Etype::Aes256CtsHmacSha384_192),
            _ => return None,
        })
    }
}

/// Checks whether the function makes these bytes, at most 97.
fn makes(
    alloc: Global,
    function: Function,
    (key, text, count): Given<'_>,
    digits: &str,
) -> Result<bool, AllocError> {
    let len = digits.len() / 2;
    if len > 97 || count == 0 {
        return Ok(false);
    }
    let mut room = [0xff; 97];
    let out = &mut room[..len];
    match function {
        Function::HmacSha1 if len <= 20 => out.copy_from_slice(&hmac_sha1(key, &[text])[..len]),
        Function::HmacSha256 if len <= 32 => out.copy_from_slice(&hmac_sha256(key, &[text])[..len]),
        Function::HmacSha384 if len <= 48 => out.copy_from_slice(&hmac_sha384(key, &[text])[..len]),
        Function::Pbkdf2Sha1 => pbkdf2_sha1(key, text, count, out),
        Function::Pbkdf2Sha256 => pbkdf2_sha256(key, text, count, out),
        Function::Pbkdf2Sha384 => pbkdf2_sha384(key, text, count, out),
        Function::KdfSha256 if len <= 32 => kdf_sha256(key, text, out),
        Function::KdfSha384 if len <= 48 => kdf_sha384(key, text, out),
        Function::NFold if len >= 1 && !text.is_empty() => n_fold(text, out),
        Function::Key(etype) => return is_key(alloc, etype, key, text, count, digits),
        _ => return Ok(false),
    }
    Ok(are(alloc, out, digits))
}

/// Checks whether this is the key of a password, with at least one iteration.
fn is_key(
    alloc: Global,
    etype: Etype,
    password: &[u8],
    salt: &[u8],
    count: u32,
    digits: &str,
) -> Result<bool, AllocError>
    requires { 0 < count }
{
    let key = string_to_key(alloc, etype, password, salt, count)?;
    Ok(key.etype() == etype && are(alloc, key.bytes(), digits))
}

/// Checks whether the function with this name makes these bytes.
fn is_made(alloc: Global, name: &str, given: Given<'_>, digits: &str) -> Result<bool, AllocError> {
    match Function::named(name) {
        Some(function) => makes(alloc, function, given, digits),
        None => Ok(false),
    }
}

/// Asserts that the functions make the bytes that these words say.
fn are_made(rt: &impl Abort, alloc: Global, given: Given<'_>, words: &str) {
    for word in words.split_whitespace() {
        let (name, digits) = word.split_once(':').unwrap_or((word, ""));
        let found = at_last(alloc, &AllocError, || is_made(alloc, name, given, digits));
        same(rt, &word, &found, &Ok(true));
        judged(alloc);
    }
}

#[test]
fn derivations_from_texts_are_those_of_the_standards(rt: HostRuntime) {
    for (key, text, count, words) in TEXTS {
        let given = (key.as_bytes(), text.as_bytes(), *count);
        are_made(&rt, rt.alloc(), given, *words);
    }
}

#[test]
fn derivations_from_digits_are_those_of_the_standards(rt: HostRuntime) {
    for (key, text, count, words) in DIGITS {
        let (key, text) = (bytes(rt.alloc(), *key), bytes(rt.alloc(), *text));
        are_made(&rt, rt.alloc(), (&key, &text, *count), *words);
    }
}

// A text may come in parts: case 2 of RFC 2202 and RFC 4231. Without parts it is empty (by Python's hmac).
#[test]
fn parts_are_hashed_as_one_text(rt: HostRuntime) {
    let alloc = rt.alloc();
    let parts: [&[u8]; 4] = [b"what do ya want ", b"", b"for ", b"nothing?"];
    let found = [
        are(
            alloc,
            &hmac_sha1(b"Jefe", &parts),
            "effcdf6ae5eb2fa2d27416d5f184df9c259a7c79",
        ),
        are(
            alloc,
            &hmac_sha256(b"Jefe", &parts),
            "5bdcc146bf60754e6a042426089575c75a003f089d2739839dec58b964ec3843",
        ),
        are(
            alloc,
            &hmac_sha384(b"Jefe", &parts),
            "af45d2e376484031617f78d2b58a6b1b9c7ef464f5a01b47e42ec3736322445e8e2240ca5e69e2c78b3239ecfab21649",
        ),
        are(
            alloc,
            &hmac_sha1(b"", &[]),
            "fbdb1d1b18aa6c08324b7d64b71fb76370690e1d",
        ),
    ];
    same(&rt, &"parts", &found, &[true; 4]);
}
