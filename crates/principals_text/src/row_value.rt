//! Rows as JSON values.
ghost use Rattle.std.specs.Prelude.{◌≡◌, false, None, Some, IfOk, IfSome};
ghost use Rattle.serde_json.specs.View.{view, items_view};
ghost use Rattle.principal_rows.specs.Row.{IsRow};
ghost use Rattle.principal_rows.specs.Versions.{IsVersions};
ghost use Rattle.text_fields.specs.declared.settings.Setting.TheVariants.{Flag, Life};
ghost use Rattle.principals_text.specs.RowValue.{member_count, u32_of, time_of, etype_value, key_of, keys_of};
ghost use Rattle.principals_text.specs.RowValue.{version_of};
ghost use Rattle.principals_text.specs.RowValue.{versions_of, setting_from, setting_in, policy_of, row_of};
ghost use Rattle.principals_text.specs.RowValue.{decoded, each, list_of};

use crate::format::Format;
use crate::row_fault::RowError;
use enctypes::{Etype, Key};
use krb_fields::Second;
use principal_rows::{KeyList, KeyListError, KeyVersion, Policy, Row, Versions};
use serde_json::Value;
use std::alloc::Global;
use text_fields::{FlagField, LifeField, Setting};

/// The greatest size of a key, in bytes.
pub(crate) const LONGEST_KEY: usize = 32;

/// Returns how many members an object has; other values have none.
#[tactic(auto, using(crate::proofs::Values::object_count))]
pub(crate) fn member_count(value: &Value) -> usize
    ensures { result ≡ member_count (view value.now) }
{
    match value.as_object() {
        Some(members) => members.len(),
        None => 0,
    }
}

fn read_u32(value: &Value) -> Option<u32>
    ensures { result ≡ u32_of (view value.now) }
{
    u32::try_from(value.as_u64()?).ok()
}

fn read_etype(value: &Value) -> Option<Etype>
    ensures { result ≡ etype_value (view value.now) }
{
    Etype::from_number(i32::try_from(value.as_u64()?).ok()?)
}

/// Reads an encryption type and the bytes of a key, in hexadecimal.
fn read_key(value: &Value) -> Option<Key>
    ensures { result ≡ key_of (view value.now) }
{
    if member_count(value) != 2 {
        return None;
    }
    let etype = read_etype(value.get("etype")?)?;
    decoded_key(etype, value.get("key")?.as_str()?)
}

/// Returns the key with this type and these bytes, in hexadecimal.
pub(crate) fn decoded_key(etype: Etype, text: &str) -> Option<Key>
    ensures key { result ≡ decoded etype text.now }
    ensures etype { IfSome result (λ key. key.etype ≡ etype) }
{
    let mut octets = [0; LONGEST_KEY];
    let octets = octets.get_mut(..etype.key_len())?;
    hex::decode_to_slice(text, octets).ok()?;
    Key::new(etype, octets)
}

fn read_keys(alloc: Global, value: &Value) -> Result<KeyList, RowError>
    ensures ok { IfOk result (λ keys. keys_of (view value.now) ≡ Some keys) }
    ensures bad { result ≡ Err RowError.BadRow → keys_of (view value.now) ≡ None }
{
    let Some(items) = value.as_array() else {
        return Err(RowError::BadRow);
    };
    let keys = read_items(alloc, items)?;
    key_list(alloc, &keys)
}

/// Reads the key in each item.
fn read_items(alloc: Global, items: &[Value]) -> Result<Vec<Key>, RowError>
    ensures ok { IfOk result (λ keys. each key_of (items_view items.now) ≡ Some keys.items) }
    ensures bad { result ≡ Err RowError.BadRow → each key_of (items_view items.now) ≡ None }
{
    let mut keys = Vec::new(alloc);
    for item in items {
        let Some(key) = read_key(item) else {
            return Err(RowError::BadRow);
        };
        keys.push(key)?;
    }
    Ok(keys)
}

/// Returns the list of these keys: at least one, and no type twice.
fn key_list(alloc: Global, keys: &[Key]) -> Result<KeyList, RowError>
    ensures ok { IfOk result (λ list. list_of keys.now ≡ Some list) }
    ensures bad { result ≡ Err RowError.BadRow → list_of keys.now ≡ None }
{
    match KeyList::new(alloc, keys) {
        Ok(list) => Ok(list),
        Err(KeyListError::Empty | KeyListError::Doubled) => Err(RowError::BadRow),
        Err(KeyListError::Memory) => Err(RowError::Memory),
    }
}

fn read_version(alloc: Global, value: &Value) -> Result<KeyVersion, RowError>
    ensures ok { IfOk result (λ version. version_of (view value.now) ≡ Some version) }
    ensures bad { result ≡ Err RowError.BadRow → version_of (view value.now) ≡ None }
{
    if member_count(value) != 2 {
        return Err(RowError::BadRow);
    }
    let Some(number) = value.get("version").and_then(read_u32) else {
        return Err(RowError::BadRow);
    };
    let Some(keys) = value.get("keys") else {
        return Err(RowError::BadRow);
    };
    Ok(KeyVersion {
        number,
        keys: read_keys(alloc, keys)?,
    })
}

fn read_versions(alloc: Global, value: &Value) -> Result<Versions, RowError>
    ensures ok { IfOk result (λ versions. versions_of (view value.now) ≡ Some versions) }
    ensures fits { IfOk result IsVersions }
    ensures bad { result ≡ Err RowError.BadRow → versions_of (view value.now) ≡ None }
{
    let Some(items) = value.as_array() else {
        return Err(RowError::BadRow);
    };
    let mut versions = Vec::with_capacity(alloc, items.len())?;
    for item in items {
        versions.push(read_version(alloc, item)?)?;
    }
    Versions::new(versions).ok_or(RowError::BadRow)
}

fn read_flag(value: &Value, field: FlagField) -> Option<Setting>
    ensures { result ≡ setting_from (Flag field false) (view value.now) }
{
    Some(Setting::Flag(field, value.as_bool()?))
}

fn read_life(value: &Value, field: LifeField) -> Option<Setting>
    ensures { result ≡ setting_from (Life field 0) (view value.now) }
{
    Some(Setting::Life(field, read_u32(value)?))
}

/// Reads `null`, or a second.
fn read_time(value: &Value) -> Option<Option<Second>>
    ensures { result ≡ time_of (view value.now) }
{
    if value.is_null() {
        return Some(None);
    }
    let second = Second::new(i64::try_from(value.as_u64()?).ok()?)?;
    Some(Some(second))
}

/// Returns the setting of the same field that a value denotes.
fn read_value(value: &Value, setting: Setting) -> Option<Setting>
    ensures { result ≡ setting_from setting (view value.now) }
{
    match setting {
        Setting::Flag(field, _) => read_flag(value, field),
        Setting::Life(field, _) => read_life(value, field),
        Setting::Time(field, _) => Some(Setting::Time(field, read_time(value)?)),
    }
}

/// Returns the setting of the same field in a row, or this one if rows of the format lack the field.
pub(crate) fn read_setting(row: &Value, format: Format, setting: Setting) -> Option<Setting>
    ensures { result ≡ setting_in format (view row.now) setting }
{
    if format.lacks(setting) {
        return Some(setting);
    }
    read_value(row.get(setting.name())?, setting)
}

fn read_policy(row: &Value, format: Format) -> Option<Policy>
    ensures { result ≡ policy_of format (view row.now) }
{
    let mut policy = Policy::default();
    for setting in Setting::all(policy) {
        policy = read_setting(row, format, setting)?.on(policy);
    }
    Some(policy)
}

/// Returns the row that a value denotes.
pub(crate) fn read_row(alloc: Global, value: &Value, format: Format) -> Result<Row, RowError>
    ensures ok { IfOk result (λ row. row_of format (view value.now) ≡ Some row) }
    ensures fits { IfOk result IsRow }
    ensures bad { result ≡ Err RowError.BadRow → row_of format (view value.now) ≡ None }
{
    if member_count(value) != format.row_members() {
        return Err(RowError::BadRow);
    }
    let Some(policy) = read_policy(value, format) else {
        return Err(RowError::BadRow);
    };
    let Some(versions) = value.get("keys") else {
        return Err(RowError::BadRow);
    };
    Ok(Row {
        versions: read_versions(alloc, versions)?,
        policy,
    })
}
