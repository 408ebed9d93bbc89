//! Finds where a text is wrong that denotes no database, for an administrator.
use crate::format::Format;
use crate::row_fault::RowError;
use crate::row_value::{member_count, read_row, read_setting};
use crate::text::{read_format, read_name, read_realm};
use principal_rows::Policy;
use serde_json::{Map, Value};
use std::alloc::{AllocError, Global};
use text_fields::Setting;

/// Returns where a text is wrong that `read` refuses: the line and column where it is not JSON, the member of
/// the database, or the principal and the member of its row. The text is empty if nothing is found. It never contains a
/// key.
pub(crate) fn fault_place(alloc: Global, text: &str) -> Result<String, AllocError> {
    match Value::from_str(alloc, text) {
        Ok(value) => place_in(alloc, &value),
        Err(error) if error.is_memory() => Err(AllocError),
        Err(error) => Ok(format!(in alloc; "{error}")?),
    }
}

fn place_in(alloc: Global, value: &Value) -> Result<String, AllocError> {
    if !value.is_object() {
        return String::from_str(alloc, "it is no object");
    }
    let Some(format) = read_format(value) else {
        return String::from_str(alloc, "version");
    };
    if member_count(value) != 3 {
        return String::from_str(alloc, "its members are not principals, realm and version");
    }
    if is_wrong(&read_realm(alloc, value))? {
        return String::from_str(alloc, "realm");
    }
    match value.get("principals").and_then(Value::as_object) {
        Some(members) => place_in_rows(alloc, members, format),
        None => String::from_str(alloc, "principals"),
    }
}

/// Checks whether reading failed because the part is wrong. Fails if memory ran out.
fn is_wrong<T>(read: &Result<T, RowError>) -> Result<bool, AllocError> {
    match read {
        Ok(_) => Ok(false),
        Err(RowError::BadRow) => Ok(true),
        Err(RowError::Memory) => Err(AllocError),
    }
}

fn place_in_rows(
    alloc: Global,
    members: &Map<String, Value>,
    format: Format,
) -> Result<String, AllocError> {
    for (name, row) in members.iter() {
        let name = name.as_str();
        if is_wrong(&read_name(alloc, name))? {
            return Ok(format!(in alloc; "principal {name:?}: its name")?);
        }
        if is_wrong(&read_row(alloc, row, format))? {
            return Ok(format!(in alloc; "principal {name:?}: {}", wrong_member(row, format))?);
        }
    }
    Ok(String::new(alloc))
}

/// Returns the member of a row that is refused.
fn wrong_member(row: &Value, format: Format) -> &'static str {
    let settings = Setting::all(Policy::default());
    for setting in settings.as_slice() {
        if is_missed(row, format, setting) {
            return setting.name();
        }
    }
    if row.get("keys").is_some() && member_count(row) != format.row_members() {
        return "a member that no row has";
    }
    "keys"
}

/// Checks whether a row lacks a valid value for a policy's field.
fn is_missed(row: &Value, format: Format, setting: &Setting) -> bool {
    read_setting(row, format, *setting).is_none()
}
