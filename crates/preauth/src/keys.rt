//! Looks up keys by the numbers of their encryption types, as messages name them.
ghost use Rattle.std.specs.Prelude.{◌≡◌, ◌≤◌, length, IfOk, option_copied};
ghost use Rattle.preauth.specs.Keys.{key_by, key_numbered, first_key, is_new, numbered, types_of};

use enctypes::Key;
use krb_elements::{SeqRef, UInt32};
use principal_rows::{KeyList, KeyVersion, Versions};
use std::alloc::{AllocError, Global};

/// Returns the key whose encryption type has this number, if there is one.
pub fn key_numbered(keys: &KeyList, number: i32) -> Option<&Key>
    // Promise: a key is found by the number of its encryption type, for the first of several types that has one, and in
    // the version that is named, or else in the current one.
    ensures { option_copied result ≡ key_numbered keys.now number }
{
    keys.keys()
        .iter()
        .find(|key| key.etype().number() == number)
}

/// Returns the key of this encryption type in the version with this number; without a number, in the current version.
pub fn key_by(versions: &Versions, etype: i32, kvno: Option<UInt32>) -> Option<&Key>
    // Promise, as key_numbered: a key is found ..
    ensures { option_copied result ≡ key_by versions.now etype kvno }
{
    match kvno {
        Some(kvno) => key_numbered(&numbered(versions, kvno)?.keys, etype),
        None => key_numbered(&versions.current().keys, etype),
    }
}

/// Returns the version with this number.
fn numbered(versions: &Versions, kvno: UInt32) -> Option<&KeyVersion>
    ensures { option_copied result ≡ numbered versions.now kvno }
{
    let number = kvno.get();
    versions
        .as_slice()
        .iter()
        .find(|version| i64::from(version.number) == number)
}

/// Returns the key of the first of these encryption types for which there is one.
pub fn first_key<'k>(keys: &'k KeyList, types: &SeqRef<'_, i32>) -> Option<&'k Key>
    // Promise, as key_numbered: a key is found ..
    ensures { option_copied result ≡ first_key keys.now types.now }
{
    for number in types.iter() {
        if let Some(key) = key_numbered(keys, number) {
            return Some(key);
        }
    }
    None
}

/// Returns those of these encryption types for which there is a key, in order and without repetition.
pub fn usable_types(
    alloc: Global,
    keys: &KeyList,
    types: &SeqRef<'_, i32>,
) -> Result<Vec<i32>, AllocError>
    // Promise (value, few): the encryption types in a reply to a client are the requested ones for which it has keys,
    // each once, and at most four.
    ensures value { IfOk result (λ found. found.items ≡ types_of keys.now types.now) }
    ensures few { IfOk result (λ found. length found.items ≤ 4) }
{
    let mut found = Vec::new(alloc);
    for number in types.iter() {
        if is_new(keys, &found, number) {
            found.push(number)?;
        }
    }
    Ok(found)
}

/// Checks whether there is a key of this encryption type and it was not found before.
fn is_new(keys: &KeyList, found: &[i32], number: i32) -> bool
    ensures { result ≡ is_new keys.now found.now number }
{
    key_numbered(keys, number).is_some() && !found.contains(&number)
}
