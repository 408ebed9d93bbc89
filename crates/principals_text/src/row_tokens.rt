//! Writes rows token by token, without building their values.
ghost use Rattle.std.specs.Prelude.{◌≡◌, ◌<◌, All, IfOk, OnOk};
ghost use Rattle.serde_json.specs.Data.{no_members, boolean, number, object, unsigned};
ghost use Rattle.principal_rows.specs.NameMap.{pairs};
ghost use Rattle.principals_text.specs.ReadBack.{IsTime, IsFitting, IsRowReadBack, IsEntryReadBack};
ghost use Rattle.principals_text.specs.RowWritten as written;
ghost use Rattle.principals_text.specs.Tokens.{ReadsBack, IsLonger, data_tokens, member_tokens, setting_tokens};
ghost use Rattle.principals_text.specs.Tokens.{settings_tokens};
ghost use Rattle.principals_text.specs.Tokens.{named_members};
ghost use Rattle.principals_text.specs.Written.{with_rows};

use enctypes::Key;
use json::Writer;
use krb_fields::Second;
use principal_rows::{Entry, KeyList, KeyVersion, Row, Versions};
use serde_json::Map;
use std::alloc::{AllocError, Global};
use text_fields::{BEFORE_KEYS, Setting};

/// Rows under the texts of their names.
pub(crate) type NamedRows<'a> = Map<String, &'a Row>;

fn write_flag(out: &mut Writer, name: &str, flag: bool) -> Result<(), AllocError>
    ensures { OnOk result (IsLonger out.old out.new (member_tokens name.now (boolean flag))) }
{
    out.key(name)?;
    out.boolean(flag)
}

fn write_number(out: &mut Writer, name: &str, value: u32) -> Result<(), AllocError>
    ensures { OnOk result (IsLonger out.old out.new (member_tokens name.now (number (unsigned value)))) }
{
    out.key(name)?;
    out.u64(u64::from(value))
}

/// Writes a second, or `null`.
fn write_time(out: &mut Writer, name: &str, time: Option<Second>) -> Result<(), AllocError>
    ensures { OnOk result (IsLonger out.old out.new (member_tokens name.now (written.time_value time))) }
{
    out.key(name)?;
    match time {
        Some(second) => out.i64(second.get()),
        None => out.null(),
    }
}

/// Writes a key, with its bytes in hexadecimal.
fn write_key(alloc: Global, out: &mut Writer, key: &Key) -> Result<(), AllocError>
    ensures { OnOk result (IsLonger out.old out.new (data_tokens (written.key_value key.now))) }
{
    let octets = hex::encode(alloc, key.bytes())?;
    out.begin_object()?;
    out.key("etype")?;
    out.i64(i64::from(key.etype().number()))?;
    out.key("key")?;
    out.string(&octets)?;
    out.end_object()
}

fn write_keys(alloc: Global, out: &mut Writer, keys: &KeyList) -> Result<(), AllocError>
    ensures { OnOk result (IsLonger out.old out.new (data_tokens (written.keys_value keys.now))) }
{
    out.begin_array()?;
    for key in keys.keys() {
        write_key(alloc, out, key)?;
    }
    out.end_array()
}

fn write_version(alloc: Global, out: &mut Writer, version: &KeyVersion) -> Result<(), AllocError>
    ensures { OnOk result (IsLonger out.old out.new (data_tokens (written.version_value version.now))) }
{
    out.begin_object()?;
    out.key("keys")?;
    write_keys(alloc, out, &version.keys)?;
    write_number(out, "version", version.number)?;
    out.end_object()
}

fn write_versions(alloc: Global, out: &mut Writer, versions: &Versions) -> Result<(), AllocError>
    ensures { OnOk result (IsLonger out.old out.new (data_tokens (written.versions_value versions.now))) }
{
    out.begin_array()?;
    for version in versions.as_slice() {
        write_version(alloc, out, version)?;
    }
    out.end_array()
}

fn write_setting(out: &mut Writer, setting: Setting) -> Result<(), AllocError>
    ensures { OnOk result (IsLonger out.old out.new (setting_tokens setting)) }
{
    match setting {
        Setting::Flag(field, on) => write_flag(out, field.name(), on),
        Setting::Life(field, life) => write_number(out, field.name(), life),
        Setting::Time(field, time) => write_time(out, field.name(), time),
    }
}

/// Writes a member for each setting.
fn write_settings(out: &mut Writer, settings: &[Setting]) -> Result<(), AllocError>
    ensures { OnOk result (IsLonger out.old out.new (settings_tokens settings.now)) }
{
    for setting in settings {
        write_setting(out, *setting)?;
    }
    Ok(())
}

/// Writes the value for a row in the newest version.
fn write_row(alloc: Global, out: &mut Writer, row: &Row) -> Result<(), AllocError>
    ensures { OnOk result (IsLonger out.old out.new (data_tokens (written.row_value row.now))) }
{
    let settings = Setting::all(row.policy);
    let (before, after) = settings.split_at(BEFORE_KEYS);
    out.begin_object()?;
    write_settings(out, before)?;
    out.key("keys")?;
    write_versions(alloc, out, &row.versions)?;
    write_settings(out, after)?;
    out.end_object()
}

/// Writes an object with a member for each row.
pub(crate) fn write_rows(
    alloc: Global,
    out: &mut Writer,
    rows: &NamedRows<'_>,
) -> Result<(), AllocError>
    ensures { OnOk result (IsLonger out.old out.new (data_tokens (object (named_members rows.now.entries)))) }
{
    out.begin_object()?;
    for (text, row) in rows.iter() {
        out.key(text.as_str())?;
        write_row(alloc, out, row)?;
    }
    out.end_object()
}

/// Returns the rows with the texts of their names, in the order of the texts.
pub(crate) fn named_rows(alloc: Global, entries: &[Entry<Row>]) -> Result<NamedRows<'_>, AllocError>
    ensures members { IfOk result (λ rows. named_members rows.entries ≡ with_rows no_members (pairs entries.now)) }
    ensures reads { IfOk result (λ _. All IsEntryReadBack entries.now) }
    ensures kept { IfOk result (λ _. All (λ entry. ReadsBack (written.row_value entry.value)) entries.now) }
{
    let mut rows = Map::new(alloc);
    for entry in entries {
        know_row(&entry.value);
        let text = entry.name.to_text(alloc)?;
        rows.insert(text, &entry.value)?;
    }
    Ok(rows)
}

/// Makes the properties of each row known to the proofs. It does nothing.
pub(crate) fn know_row(row: &Row)
    ensures reads { IsRowReadBack row.now }
    ensures kept { ReadsBack (written.row_value row.now) }
{
    let _versions = row.versions.as_slice();
    know_settings(&Setting::all(row.policy));
}

fn know_settings(settings: &[Setting])
    ensures { All IsFitting settings.now }
{
    for setting in settings {
        know_setting(*setting);
    }
}

fn know_setting(setting: Setting)
    ensures { IsFitting setting }
{
    match setting {
        Setting::Flag(..) => (),
        Setting::Life(_, life) => know_life(life),
        Setting::Time(_, time) => know_time(time),
    }
}

fn know_life(life: u32)
    ensures { life < 4294967296 }
{
    let _life = life;
}

fn know_time(time: Option<Second>)
    ensures { IsTime time }
{
    if let Some(second) = time {
        let _second = second.get();
    }
}
