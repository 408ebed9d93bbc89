//! Reads rows token by token, in the form in which they are written, without building their values.
ghost use Rattle.std.specs.Prelude.{◌≡◌, ◌∷◌, ◌++◌, IfSome, IsTrue, decimal, codes};
ghost use Rattle.hex.specs.Hex.{encode_lower};
ghost use Rattle.json.specs.Token.{begin_array, end_object, key as key_token, number as number_token};
ghost use Rattle.serde_json.specs.Data.{boolean, number, unsigned};
ghost use Rattle.serde_json.specs.Find.{of_integer};
ghost use Rattle.serde_json.specs.Written.{number_text};
ghost use Rattle.enctypes.specs.Etype as etypes;
ghost use Rattle.principal_rows.specs.Row.{IsRow};
ghost use Rattle.principal_rows.specs.Versions.{IsVersions};
ghost use Rattle.principals_text.specs.RowWritten as written;
ghost use Rattle.text_fields.specs.Settings.{place};
ghost use Rattle.principals_text.specs.Taken.{AreTaken};
ghost use Rattle.principals_text.specs.Tokens.{data_tokens, member_tokens, setting_tokens};

use crate::next_value::takes_object;
use crate::row_value::{LONGEST_KEY, decoded_key};
use enctypes::{Etype, Key};
use json::{Reader, Token};
use krb_fields::Second;
use principal_rows::{KeyList, KeyVersion, Policy, Row, Versions};
use std::alloc::Global;
use text_fields::{BEFORE_KEYS, Setting};

/// How many versions there is room for at first: most rows have one.
const VERSIONS: usize = 1;

/// Checks whether a member with this name comes next.
fn takes_name(reader: &mut Reader<'_>, name: &str) -> bool
    ensures { IsTrue result → reader.old ≡ key_token name.now ∷ reader.new }
{
    match reader.next() {
        Some(Token::Key(key)) => key == name,
        _ => false,
    }
}

fn takes_array(reader: &mut Reader<'_>) -> bool
    ensures { IsTrue result → reader.old ≡ begin_array ∷ reader.new }
{
    matches!(reader.next(), Some(Token::BeginArray))
}

fn takes_object_end(reader: &mut Reader<'_>) -> bool
    ensures { IsTrue result → reader.old ≡ end_object ∷ reader.new }
{
    matches!(reader.next(), Some(Token::EndObject))
}

fn take_flag(reader: &mut Reader<'_>, name: &str) -> Option<bool>
    ensures { IfSome result (λ flag. reader.old ≡ member_tokens name.now (boolean flag) ++ reader.new) }
{
    if !takes_name(reader, name) {
        return None;
    }
    match reader.next() {
        Some(Token::Bool(flag)) => Some(flag),
        _ => None,
    }
}

/// Returns the number with these digits.
fn parse_digits(text: &str) -> Option<u64>
    ensures { IfSome result (λ value. text.now ≡ decimal value) }
{
    let value: u64 = text.parse().ok()?;
    let mut buffer = itoa::Buffer::new();
    if buffer.format(value) == text {
        Some(value)
    } else {
        None
    }
}

/// Returns the second with these digits.
fn parse_second(text: &str) -> Option<Second>
    ensures { IfSome result (λ second. text.now ≡ number_text (of_integer second)) }
{
    Second::new(i64::try_from(parse_digits(text)?).ok()?)
}

/// Returns the key with this type and these hexadecimal digits.
fn parse_key(etype: Etype, text: &str) -> Option<Key>
    ensures octets { IfSome result (λ key. text.now ≡ encode_lower key.bytes) }
    ensures etype { IfSome result (λ key. key.etype ≡ etype) }
{
    let key = decoded_key(etype, text)?;
    if is_written(key.bytes(), text) {
        Some(key)
    } else {
        None
    }
}

/// Checks whether the text is how the bytes are written: digits are read in either case, and written in lower case.
fn is_written(octets: &[u8], text: &str) -> bool
    ensures { IsTrue result → text.now ≡ encode_lower octets.now }
{
    let mut written = [0; 2 * LONGEST_KEY];
    let Some(written) = written.get_mut(..text.len()) else {
        return false;
    };
    match hex::encode_to_slice(octets, written) {
        Ok(()) => text.as_bytes() == written,
        Err(_) => false,
    }
}

fn take_number(reader: &mut Reader<'_>, name: &str) -> Option<u32>
    ensures { IfSome result (λ value. reader.old ≡ member_tokens name.now (number (unsigned value)) ++ reader.new) }
{
    if !takes_name(reader, name) {
        return None;
    }
    match reader.next() {
        Some(Token::Number(text)) => u32::try_from(parse_digits(text)?).ok(),
        _ => None,
    }
}

/// Takes a second, or `null`.
fn take_time(reader: &mut Reader<'_>, name: &str) -> Option<Option<Second>>
    ensures { IfSome result (λ time. reader.old ≡ member_tokens name.now (written.time_value time) ++ reader.new) }
{
    if !takes_name(reader, name) {
        return None;
    }
    match reader.next() {
        Some(Token::Null) => Some(None),
        Some(Token::Number(text)) => Some(Some(parse_second(text)?)),
        _ => None,
    }
}

fn take_etype(reader: &mut Reader<'_>) -> Option<Etype>
    ensures { IfSome result
        (λ etype. reader.old
        ≡ member_tokens (codes "etype") (number (of_integer (etypes.number etype))) ++ reader.new) }
{
    let value = take_number(reader, "etype")?;
    Etype::from_number(i32::try_from(value).ok()?)
}

fn take_key(reader: &mut Reader<'_>) -> Option<Key>
    ensures { IfSome result (λ key. reader.old ≡ data_tokens (written.key_value key) ++ reader.new) }
{
    if !takes_object(reader) {
        return None;
    }
    let etype = take_etype(reader)?;
    if !takes_name(reader, "key") {
        return None;
    }
    let Some(Token::String(text)) = reader.next() else {
        return None;
    };
    let key = parse_key(etype, text)?;
    if !takes_object_end(reader) {
        return None;
    }
    Some(key)
}

fn take_keys(alloc: Global, reader: &mut Reader<'_>) -> Option<KeyList>
    ensures { IfSome result (λ keys. reader.old ≡ data_tokens (written.keys_value keys) ++ reader.new) }
{
    if !takes_array(reader) {
        return None;
    }
    let mut keys = Vec::new(alloc);
    while !reader.take_end_array() {
        let key = take_key(reader)?;
        keys.push(key).ok()?;
    }
    let Ok(list) = KeyList::new(alloc, &keys) else {
        return None;
    };
    Some(list)
}

fn take_version(alloc: Global, reader: &mut Reader<'_>) -> Option<KeyVersion>
    ensures { IfSome result (λ version. reader.old ≡ data_tokens (written.version_value version) ++ reader.new) }
{
    if !takes_object(reader) {
        return None;
    }
    if !takes_name(reader, "keys") {
        return None;
    }
    let keys = take_keys(alloc, reader)?;
    let number = take_number(reader, "version")?;
    if !takes_object_end(reader) {
        return None;
    }
    Some(KeyVersion { number, keys })
}

fn take_versions(alloc: Global, reader: &mut Reader<'_>) -> Option<Versions>
    ensures tokens { IfSome result
        (λ versions. reader.old ≡ data_tokens (written.versions_value versions) ++ reader.new) }
    ensures fits { IfSome result IsVersions }
{
    if !takes_array(reader) {
        return None;
    }
    let Ok(empty) = Vec::with_capacity(alloc, VERSIONS) else {
        return None;
    };
    let mut versions = empty;
    while !reader.take_end_array() {
        let version = take_version(alloc, reader)?;
        versions.push(version).ok()?;
    }
    let versions = Versions::new(versions)?;
    Some(versions)
}

/// Takes the setting of this field.
fn take_setting(reader: &mut Reader<'_>, setting: Setting) -> Option<Setting>
    ensures tokens { IfSome result (λ found. reader.old ≡ setting_tokens found ++ reader.new) }
    ensures field { IfSome result (λ found. place found ≡ place setting) }
{
    let found = match setting {
        Setting::Flag(field, _) => Setting::Flag(field, take_flag(reader, field.name())?),
        Setting::Life(field, _) => Setting::Life(field, take_number(reader, field.name())?),
        Setting::Time(field, _) => Setting::Time(field, take_time(reader, field.name())?),
    };
    Some(found)
}

/// Takes the settings of these fields, and sets them in the policy.
fn takes_settings(reader: &mut Reader<'_>, settings: &[Setting], policy: &mut Policy) -> bool
    ensures { IsTrue result → AreTaken settings.now policy.old reader.old policy.new reader.new }
{
    for setting in settings {
        let Some(found) = take_setting(reader, *setting) else {
            return false;
        };
        *policy = found.on(*policy);
    }
    true
}

/// Takes the row whose tokens come next, as they are written.
pub(crate) fn take_row(alloc: Global, reader: &mut Reader<'_>) -> Option<Row>
    ensures tokens { IfSome result (λ row. reader.old ≡ data_tokens (written.row_value row) ++ reader.new) }
    ensures fits { IfSome result IsRow }
{
    let mut policy = Policy::default();
    let settings = Setting::all(policy);
    let (before, after) = settings.split_at(BEFORE_KEYS);
    if !takes_object(reader)
        || !takes_settings(reader, before, &mut policy)
        || !takes_name(reader, "keys")
    {
        return None;
    }
    let versions = take_versions(alloc, reader)?;
    if !takes_settings(reader, after, &mut policy) || !takes_object_end(reader) {
        return None;
    }
    Some(Row { versions, policy })
}
