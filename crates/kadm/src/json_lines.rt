//! Rows, and lines of `lint`, as objects of JSON (RFC 8259).

use json::Writer;
use krb_fields::Second;
use principal_rows::{KeyList, Row};
use std::alloc::{AllocError, Global};
use text_fields::{Setting, UtcDate};

/// Returns a principal's name, a space, and the object of its row. Lines then have the order of names.
pub(crate) fn json_line(alloc: Global, name: &str, row: &Row) -> Result<Vec<u8>, AllocError> {
    let front = format!(in alloc; "{name} ")?;
    let mut out = Writer::new(front.into_bytes());
    put_row(alloc, &mut out, name, row)?;
    Ok(out.into_inner())
}

/// Returns the object of a row: all that it has, but no key.
pub(crate) fn json_row(alloc: Global, name: &str, row: &Row) -> Result<Vec<u8>, AllocError> {
    let mut out = Writer::new(Vec::new(alloc));
    put_row(alloc, &mut out, name, row)?;
    Ok(out.into_inner())
}

fn put_row(alloc: Global, out: &mut Writer, name: &str, row: &Row) -> Result<(), AllocError> {
    let current = row.versions.current();
    out.begin_object()?;
    out.key("name")?;
    out.string(name)?;
    put_version(out, current.number, &current.keys)?;
    put_policy(alloc, out, row)?;
    out.key("versions")?;
    out.u64(row.versions.as_slice().len() as u64)?;
    put_versions(out, row)?;
    out.end_object()
}

/// Adds a key version, and the types of its keys.
fn put_version(out: &mut Writer, number: u32, keys: &KeyList) -> Result<(), AllocError> {
    out.key("version")?;
    out.u64(u64::from(number))?;
    out.key("types")?;
    out.begin_array()?;
    for key in keys.keys() {
        out.i64(i64::from(key.etype().number()))?;
    }
    out.end_array()
}

/// Adds all key versions, the current one first.
fn put_versions(out: &mut Writer, row: &Row) -> Result<(), AllocError> {
    out.key("key_versions")?;
    out.begin_array()?;
    for version in row.versions.as_slice() {
        out.begin_object()?;
        put_version(out, version.number, &version.keys)?;
        out.end_object()?;
    }
    out.end_array()
}

/// Adds each field of the policy.
fn put_policy(alloc: Global, out: &mut Writer, row: &Row) -> Result<(), AllocError> {
    let settings = Setting::all(row.policy);
    for setting in settings.as_slice() {
        put_setting(alloc, out, setting)?;
    }
    Ok(())
}

/// Adds a field of a policy. A time is its date, or null.
fn put_setting(alloc: Global, out: &mut Writer, setting: &Setting) -> Result<(), AllocError> {
    out.key(setting.name())?;
    match setting {
        Setting::Flag(_, value) => out.boolean(*value),
        Setting::Life(_, seconds) => out.u64(u64::from(*seconds)),
        Setting::Time(_, time) => put_time(alloc, out, *time),
    }
}

/// Adds a time as its date, or null.
fn put_time(alloc: Global, out: &mut Writer, time: Option<Second>) -> Result<(), AllocError> {
    match time {
        Some(second) => {
            let date = format!(in alloc; "{}", UtcDate(second))?;
            out.string(&date)
        }
        None => out.null(),
    }
}

/// Returns the object of a line, which follows the first space.
pub(crate) fn behind_name(line: &[u8]) -> &[u8] {
    match line.iter().position(|octet| *octet == b' ') {
        Some(end) => line.get(end.saturating_add(1)..).unwrap_or(&[]),
        None => line,
    }
}

/// Returns the object of a line of `lint`: `NAME FINDING DETAIL.. # MEND`.
pub(crate) fn json_finding(alloc: Global, line: &str) -> Result<Vec<u8>, AllocError> {
    let (found, mend) = line.split_once(" # ").unwrap_or((line, ""));
    let (name, rest) = found.split_once(' ').unwrap_or((found, ""));
    let (finding, detail) = rest.split_once(' ').unwrap_or((rest, ""));
    let mut out = Writer::new(Vec::new(alloc));
    out.begin_object()?;
    for (key, text) in [
        ("name", name),
        ("finding", finding),
        ("detail", detail),
        ("mend", mend),
    ] {
        out.key(key)?;
        out.string(text)?;
    }
    out.end_object()?;
    Ok(out.into_inner())
}
