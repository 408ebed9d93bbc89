//! Helpers of the tests.
use crate::messages::parts;
use enctypes::{Etype, Key};
use std::alloc::Global;
use std::process::Abort;
use std::test::Fail;

// The marks that `tests/crates/allocations.py` reads. It refuses each allocation between `BEGIN` and `END`, one at a
// time. By `JUDGED`, a test has asserted all that has to hold after a refusal.

pub const BEGIN: usize = 1 << 62;

pub const END: usize = 1 << 61;

pub const JUDGED: usize = 1 << 60;

/// Asks for as many bytes as no system has. The script takes the request as a mark; without it, nothing happens.
pub fn mark(alloc: Global, mark: usize) {
    let _ = Vec::<u8>::with_capacity(alloc, mark);
}

/// Returns bytes that count up from this one.
pub fn up<const N: usize>(first: u8) -> [u8; N] {
    let mut octets = [first; N];
    for (place, octet) in (0..=u8::MAX).zip(&mut octets) {
        *octet = octet.wrapping_add(place);
    }
    octets
}

/// Returns a key whose bytes count up from this one.
pub fn counted_key(etype: Etype, first: u8) -> Key {
    Key::from_random(etype, &up(first))
}

/// Checks whether the key has this type, and bytes that count up from this one.
pub fn has_octets_from(key: &Key, etype: Etype, first: u8) -> bool {
    key.etype() == etype && key.bytes() == counted_key(etype, first).bytes()
}

/// Returns the bytes of a text: hexadecimal digits and names of messages.
pub fn octets(alloc: Global, text: &str) -> Result<Vec<u8>, Fail> {
    let mut found = Vec::new(alloc);
    for word in text.split_whitespace() {
        push_parts(alloc, &mut found, parts(word))?;
    }
    Ok(found)
}

fn push_parts(alloc: Global, found: &mut Vec<u8>, words: &str) -> Result<(), Fail> {
    for word in words.split_whitespace() {
        found.extend_from_slice(&hex::decode(alloc, parts(word).as_bytes())?)?;
    }
    Ok(())
}

/// Checks whether the text spells the bytes, without asking for memory.
pub fn is_spelled(octets: &[u8], text: &str) -> bool {
    let mut rest = octets;
    for word in text.split_whitespace() {
        let Some(later) = behind_parts(rest, parts(word)) else {
            return false;
        };
        rest = later;
    }
    rest.is_empty()
}

/// Returns the bytes behind those of these words, or `None` if they don't begin with them.
fn behind_parts<'a>(octets: &'a [u8], words: &str) -> Option<&'a [u8]> {
    let mut rest = octets;
    for word in words.split_whitespace() {
        rest = behind_digits(rest, parts(word))?;
    }
    Some(rest)
}

/// Returns the bytes behind those of the digits, or `None` if they don't begin with them.
fn behind_digits<'a>(octets: &'a [u8], digits: &str) -> Option<&'a [u8]> {
    let mut rest = octets;
    for pair in digits.as_bytes().chunks(2) {
        let [octet, later @ ..] = rest else {
            return None;
        };
        if pair != [digit(*octet >> 4), digit(*octet & 15)].as_slice() {
            return None;
        }
        rest = later;
    }
    Some(rest)
}

fn digit(value: u8) -> u8 {
    if value < 10 {
        value.wrapping_add(b'0')
    } else {
        value.wrapping_add(b'a' - 10)
    }
}

/// Asserts that this holds. A call takes about a quarter of the time to prove that an `assert!` takes.
pub fn holds(rt: &impl Abort, holds: bool, what: &str) {
    assert!(rt; holds, "{what}");
}
