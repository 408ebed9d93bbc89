//! The fields of a line.
ghost use Rattle.std.specs.Prelude.{◌≡◌, ◌↔◌, ◌⊎◌, ◌^◌, ◌<◌, ℕ, true, false, List, [], map, IsSome, IfSome, IfOk};
ghost use Rattle.std.specs.Prelude.{IfErr, IfNone};
ghost use Rattle.std.specs.Str.Parse.{IsNumeral, digits_value};
ghost use Rattle.std.specs.Result.{result_ok};
ghost use Rattle.hex.specs.Hex.{decode_sized};
ghost use Rattle.krb_fields.specs.Name.{Components};
ghost use Rattle.krb_fields.specs.NameText.{IsNameText, IsComponentText};
ghost use Rattle.krb_fields.specs.declared.numbers.TheConstants.{NT_PRINCIPAL};
ghost use Rattle.enctypes.specs.declared.key.Key as typed;
ghost use Rattle.krb_fields.specs.declared.moment.Moment as moments;
ghost use Rattle.principal_rows.specs.KeyList.{has_type_twice};
ghost use Rattle.principal_rows.specs.declared.limits.Limits as ranges;
ghost use Rattle.kdcd.specs.Field.{IsMomentText, AreLimitsTexts, IsOctetsText, IsKeyText, IsKeysText};

use crate::line::LineError;
use enctypes::{Etype, Key};
use hex::FromHexError;
use krb_elements::KerberosString;
use krb_fields::{Moment, Name, NameFault, component_from_text};
use principal_rows::{KeyList, KeyListError, Limits};
use std::alloc::Global;
use text_fields::{number, number_u32};

/// The length of the longest key, in bytes.
const LONGEST_KEY: usize = 32;

/// Reads a moment: whole seconds since the start of 1970, and microseconds.
pub(crate) fn moment(sec: &str, usec: &str) -> Option<Moment>
    // Promise (read, none), as number of text_fields: a field of a ..
    ensures read { IfSome result (λ at. IsMomentText at sec.now usec.now) }
    ensures none { IfNone result ((at : moments.Moment) → ¬ IsMomentText at sec.now usec.now) }
{
    let sec = i64::try_from(number(sec)?).ok()?;
    Moment::new(sec, number_u32(usec)?)
}

/// Reads the limits of a KDC from five numbers.
pub(crate) fn limits(texts: [&str; 5]) -> Option<Limits>
    // Promise (read, none), as number of text_fields: a field of a ..
    ensures read { IfSome result (λ limits. AreLimitsTexts limits (map (λ text. text.now) texts.entry)) }
    ensures none { IfNone result
        ((limits : ranges.Limits) → ¬ AreLimitsTexts limits (map (λ text. text.now) texts.entry)) }
{
    let [remembered, lock_after, lock_seconds, life, renewable] = texts;
    Limits::new(
        number_u32(remembered)?,
        number_u32(lock_after)?,
        number_u32(lock_seconds)?,
        number_u32(life)?,
        number_u32(renewable)?,
    )
}

/// Reads the KDC's 64 random bytes for a request, from 128 hexadecimal digits.
pub(crate) fn random(text: &str) -> Option<[u8; 64]>
    // Promise, as number of text_fields: a field of a ..
    ensures { result ≡ result_ok (decode_sized text.now 64) }
{
    let mut random = [0; 64];
    hex::decode_to_slice(text, &mut random).ok()?;
    Some(random)
}

/// Reads bytes in hexadecimal; `-` means none.
pub(crate) fn octets(alloc: Global, text: &str) -> Result<Vec<u8>, LineError>
    // Promise (ok, form), as number of text_fields: a field of a ..
    ensures ok { IfOk result (λ octets. IsOctetsText octets.items text.now) }
    ensures form { result ≡ Err LineError.Form → (octets : List ℕ) → ¬ IsOctetsText octets text.now }
{
    if text == "-" {
        return Ok(Vec::new(alloc));
    }
    if text.is_empty() {
        return Err(LineError::Form);
    }
    hex::decode(alloc, text).map_err(|error| match error {
        FromHexError::OutOfMemory => LineError::Memory,
        _ => LineError::Form,
    })
}

/// Reads a realm, in the syntax of a name with one component.
pub(crate) fn realm(alloc: Global, text: &str) -> Result<KerberosString, LineError>
    // Promise (ok, form), as number of text_fields: a field of a ..
    ensures ok { IfOk result (λ octets. IsComponentText octets text.now) }
    ensures form { result ≡ Err LineError.Form → (octets : List ℕ) → ¬ IsComponentText octets text.now }
{
    component_from_text(alloc, text).map_err(|fault| match fault {
        NameFault::BadName => LineError::Form,
        NameFault::Memory => LineError::Memory,
    })
}

/// Reads the name of a principal. Returns `None` if the text is not a name.
pub(crate) fn name(alloc: Global, text: &str) -> Result<Option<Name>, LineError>
    // Promise (name, none, memory), as number of text_fields: a field of a ..
    ensures name { IfOk result (λ name. IfSome name (λ n.
        IsNameText n.components text.now × (n.name_type ≡ NT_PRINCIPAL))) }
    ensures none { IfOk result (λ name. IfNone name ((n : Components) → ¬ IsNameText n text.now)) }
    ensures memory { IfErr result (λ fault. fault ≡ LineError.Memory) }
{
    match Name::from_text(alloc, text) {
        Ok(name) => Ok(Some(name)),
        Err(NameFault::BadName) => Ok(None),
        Err(NameFault::Memory) => Err(LineError::Memory),
    }
}

/// Reads keys in order of preference, separated by commas.
pub(crate) fn keys(alloc: Global, text: &str) -> Result<KeyList, LineError>
    // Promise (ok, form), as number of text_fields: a field of a ..
    ensures ok { IfOk result (λ keys. IsKeysText keys text.now) }
    ensures form { result ≡ Err LineError.Form → (list : List typed.Key) → ¬ IsKeysText list text.now }
{
    let mut keys = Vec::new(alloc);
    for part in text.split(',') {
        let Some(key) = key(part) else {
            return Err(LineError::Form);
        };
        keys.push(key)?;
    }
    key_list(alloc, &keys)
}

fn key_list(alloc: Global, keys: &[Key]) -> Result<KeyList, LineError>
    ensures list { IfOk result (λ list. list ≡ keys.now) }
    ensures distinct { IfOk result (λ _. has_type_twice keys.now ≡ false) }
    ensures form { result ≡ Err LineError.Form → (keys.now ≡ []) ⊎ (has_type_twice keys.now ≡ true) }
{
    match KeyList::new(alloc, keys) {
        Ok(list) => Ok(list),
        Err(KeyListError::Empty | KeyListError::Doubled) => Err(LineError::Form),
        Err(KeyListError::Memory) => Err(LineError::Memory),
    }
}

/// Reads a key: the number of its encryption type, a colon, and its bytes in hexadecimal.
fn key(text: &str) -> Option<Key>
    // Promise (read, none), as number of text_fields: a field of a ..
    ensures read { IfSome result (λ key. IsKeyText key text.now) }
    ensures none { IfNone result ((key : typed.Key) → ¬ IsKeyText key text.now) }
{
    let (etype, digits) = text.split_once(':')?;
    let etype = Etype::from_number(i32::try_from(number(etype)?).ok()?)?;
    let mut octets = [0; LONGEST_KEY];
    let octets = octets.get_mut(..etype.key_len())?;
    hex::decode_to_slice(digits, octets).ok()?;
    Key::new(etype, octets)
}
