//! Tests of AES and its ciphertext stealing (`aes_cts`), with the standards' own vectors: FIPS 197, appendices B and C
//! (C in the edition of 2001), and RFC 3962, appendix B. Other vectors come from the Python package cryptography.
use crate::cryptography::fixtures::sized;
use crate::expect::{bytes, same};
use aes_cts::{AesKey, table_word};
use std::alloc::Global;
use std::process::Abort;

/// Three texts in digits.
type Row = (&'static str, &'static str, &'static str);

/// A key, a block, and the enciphered block: FIPS 197, appendix B, and appendix C, sections 1 and 3.
const BLOCKS: &[Row] = &[
    (
        "2b7e151628aed2a6abf7158809cf4f3c",
        "3243f6a8885a308d313198a2e0370734",
        "3925841d02dc09fbdc118597196a0b32",
    ),
    (
        "000102030405060708090a0b0c0d0e0f",
        "00112233445566778899aabbccddeeff",
        "69c4e0d86a7b0430d8cdb78070b4c55a",
    ),
    (
        "000102030405060708090a0b0c0d0e0f101112131415161718191a1b1c1d1e1f",
        "00112233445566778899aabbccddeeff",
        "8ea2b7ca516745bfeafc49904b496089",
    ),
];

/// The text of RFC 3962. Its examples are prefixes.
const TEXT: &[u8; 64] = b"I would like the General Gau's Chicken, please, and wonton soup.";

/// A key, an initial vector, and prefixes of the text in CTS, as words: the six of RFC 3962, and two that the Python
/// package enciphers, of one block and with a long key.
const TEXTS: &[Row] = &[
    (
        "636869636b656e207465726979616b69",
        "00000000000000000000000000000000",
        "\
        c6353568f2bf8cb4d8a580362da7ff7f97 \
        fc00783e0efdb2c1d445d4c8eff7ed2297687268d6ecccc0c07b25e25ecfe5 \
        39312523a78662d5be7fcbcc98ebf5a897687268d6ecccc0c07b25e25ecfe584 \
        97687268d6ecccc0c07b25e25ecfe584b3fffd940c16a18c1b5549d2f838029e39312523a78662d5be7fcbcc98ebf5 \
        97687268d6ecccc0c07b25e25ecfe5849dad8bbb96c4cdc03bc103e1a194bbd839312523a78662d5be7fcbcc98ebf5a8 \
        97687268d6ecccc0c07b25e25ecfe58439312523a78662d5be7fcbcc98ebf5a84807efe836ee89a526730dbc2f7bc8409dad\
        8bbb96c4cdc03bc103e1a194bbd8 \
        97687268d6ecccc0c07b25e25ecfe584",
    ),
    (
        "000102030405060708090a0b0c0d0e0f101112131415161718191a1b1c1d1e1f",
        "000102030405060708090a0b0c0d0e0f",
        "b28eb56873e0223e890f55ad4c2beefd38efb430cac6f96bed767a3afcb4e8f2824fe7faf9",
    ),
];

#[test]
fn blocks_are_encrypted_and_decrypted_as_in_the_standard(rt: HostRuntime) {
    for row in BLOCKS {
        same(&rt, row, &is_block(rt.alloc(), row), &true);
    }
}

#[test]
fn texts_are_encrypted_and_decrypted_as_in_the_standard(rt: HostRuntime) {
    for row in TEXTS {
        are_texts(&rt, rt.alloc(), row);
    }
}

/// Checks both directions of the cipher.
fn is_block(alloc: Global, (key, plain, enciphered): &Row) -> bool {
    let (plain, enciphered) = (sized(*plain), sized(*enciphered));
    match AesKey::new(&bytes(alloc, *key)) {
        Some(key) => {
            key.encrypt_block(&plain) == enciphered && key.decrypt_block(&enciphered) == plain
        }
        None => false,
    }
}

/// Asserts that `is_text` holds of each word.
fn are_texts(rt: &impl Abort, alloc: Global, (key, iv, words): &Row) {
    let (key, iv) = (bytes(alloc, *key), sized(*iv));
    for word in words.split_whitespace() {
        same(rt, &word, &is_text(&key, &iv, &bytes(alloc, word)), &true);
    }
}

/// Checks both directions of CTS on a prefix of the text, of at least a block.
fn is_text(key: &[u8], iv: &[u8; 16], enciphered: &[u8]) -> bool {
    let len = enciphered.len();
    let Some(key) = AesKey::new(key) else {
        return false;
    };
    if len < 16 || len > 64 {
        return false;
    }
    let plain = &TEXT[..len];
    let mut buffer = *TEXT;
    let text = &mut buffer[..len];
    key.cts_encrypt(iv, text);
    let is_enciphered = *text == *enciphered;
    key.cts_decrypt(iv, text);
    is_enciphered && *text == *plain
}

#[test]
fn keys_have_16_or_32_bytes(rt: HostRuntime) {
    for length in [0, 15, 17, 24, 31, 33] {
        same(
            &rt,
            &length,
            &AesKey::new(&[0; 33][..length]).is_none(),
            &true,
        );
    }
}

/// The first words of four of the tables, as other implementations print them, and none past their end.
const WORDS: [Option<u32>; 5] = [
    Some(0xc663_63a5),
    Some(0xa5c6_6363),
    Some(0x51f4_a750),
    Some(0xf4a7_5051),
    None,
];

#[test]
fn tables_have_their_words(rt: HostRuntime) {
    let words = [
        table_word(0, 0),
        table_word(1, 0),
        table_word(4, 0),
        table_word(7, 0),
        table_word(8, 0),
    ];
    same(&rt, &"words", &words, &WORDS);
}
