//! The text of a database: a JSON object (RFC 8259), written in the newest version and read in every version.
ghost use Rattle.std.specs.Prelude.{◌≡◌, ◌≢◌, All, IsSome, IsUtf8, None, Some, IfOk, IfErr, OnOk, string_bytes};
ghost use Rattle.serde_json.specs.Find.{as_object};
ghost use Rattle.serde_json.specs.Read.{read as read_text};
ghost use Rattle.serde_json.specs.View.{view, members_view};
ghost use Rattle.serde_json.specs.Written.{compact_text};
ghost use Rattle.krb_fields.specs.NameLimits.{IsComponent};
ghost use Rattle.principal_rows.specs.NameMap.{pairs};
ghost use Rattle.principal_rows.specs.Row.{IsRow};
ghost use Rattle.principals.specs.Database.{AreRows};
ghost use Rattle.principals_text.specs.Ahead.{text_value};
ghost use Rattle.principals_text.specs.NameOf.{name_of, component_of};
ghost use Rattle.principals_text.specs.RowValue.{member_count};
ghost use Rattle.principals_text.specs.Tokens.{ReadsBack, IsLonger, data_tokens, named_members};
ghost use Rattle.principals_text.specs.Written.{database_value};
ghost use Rattle.principals_text.specs.Value.{format_value, entries_of, rows_of, realm_of, principals_of, database};
ghost use Rattle.principals_text.specs.Value.{text_database};

use crate::ReadError;
use crate::by_rows::read_by_rows;
use crate::format::Format;
use crate::row_fault::RowError;
use crate::row_tokens::{NamedRows, named_rows, write_rows};
use crate::row_value::{member_count, read_row};
use json::Writer;
use krb_elements::KerberosString;
use krb_fields::{Name, NameFault, component_from_text, component_to_text};
use principal_rows::{Entry, NameMap, Row};
use principals::Database;
use serde_json::{Map, Value};
use std::alloc::{AllocError, Global};
use text_fields::NEWEST_VERSION;

/// The greatest size of a database's text that a program reads, in bytes: about two million rows.
pub const LONGEST_TEXT: usize = 1_073_741_824;

/// Returns the database that a text denotes. A text in the form that `write` gives is read row by row, any other as
/// a whole.
pub fn read(alloc: Global, text: &str) -> Result<Database, ReadError>
    // Promise (ok, fault): a text is read as the database that it spells, or reading fails with the error of the
    // definition, unless memory runs out.
    ensures ok { IfOk result (λ database. text_database text.now ≡ Ok database) }
    ensures fault { IfErr result (λ fault. fault ≢ ReadError.Memory → text_database text.now ≡ Err fault) }
{
    match read_by_rows(alloc, text) {
        Some(database) => Ok(database),
        None => read_whole(alloc, text),
    }
}

/// Returns the database that a text denotes, from the value of the whole text.
fn read_whole(alloc: Global, text: &str) -> Result<Database, ReadError>
    ensures ok { IfOk result (λ database. text_database text.now ≡ Ok database) }
    ensures fault { IfErr result (λ fault. fault ≢ ReadError.Memory → text_database text.now ≡ Err fault) }
{
    let value = read_object(alloc, text)?;
    read_value(alloc, &value)
}

/// Returns the database that an object denotes.
fn read_value(alloc: Global, value: &Value) -> Result<Database, ReadError>
    requires { IsSome (as_object (view value.now)) }
    ensures ok { IfOk result (λ found. database (view value.now) ≡ Ok found) }
    ensures fault { IfErr result (λ fault. fault ≢ ReadError.Memory → database (view value.now) ≡ Err fault) }
{
    let Some(format) = read_format(value) else {
        return Err(ReadError::BadVersion);
    };
    if member_count(value) != 3 {
        return Err(ReadError::BadRow);
    }
    let realm = read_realm(alloc, value)?;
    let rows = read_rows(alloc, value, format)?;
    match Database::from_rows(realm, rows) {
        Some(database) => Ok(database),
        None => Err(ReadError::NoTicketGranter),
    }
}

/// Returns the text of the database, in the newest version: compact, with members in the order of their names.
pub fn write(alloc: Global, database: &Database) -> Result<String, AllocError>
    // Promise (text, value, reads_back): **what is written is read back** as an equal database; the text is that of the
    // definition.
    ensures text { IfOk result (λ text. string_bytes text ≡ compact_text (database_value database.now)) }
    ensures value { IfOk result (λ text. read_text (string_bytes text) ≡ Some (database_value database.now)) }
    ensures reads_back { IfOk result (λ text. text_database (string_bytes text) ≡ Ok database.now) }
{
    let mut out = Writer::new(Vec::new(alloc));
    write_tokens(alloc, &mut out, database)?;
    Ok(utf8_text(out.into_inner()))
}

/// Writes the value of the database, token by token.
fn write_tokens(alloc: Global, out: &mut Writer, principals: &Database) -> Result<(), AllocError>
    ensures tokens { OnOk result (IsLonger out.old out.new (data_tokens (database_value principals.now))) }
    ensures reads { OnOk result (database (database_value principals.now) ≡ Ok principals.now) }
    ensures kept { OnOk result (ReadsBack (database_value principals.now)) }
{
    let rows = named_rows(alloc, principals.entries())?;
    let realm = component_to_text(alloc, principals.realm())?;
    write_parts(alloc, out, &rows, realm.as_str())
}

/// Returns bytes that are UTF-8 as text.
fn utf8_text(octets: Vec<u8>) -> String
    requires { IsUtf8 octets.items }
    ensures { string_bytes result ≡ octets.items }
{
    String::from_utf8(octets).unwrap()
}

/// Writes the object of a database, from its rows and the text of its realm.
fn write_parts(
    alloc: Global,
    out: &mut Writer,
    rows: &NamedRows<'_>,
    realm: &str,
) -> Result<(), AllocError>
    ensures { OnOk result
        (IsLonger out.old out.new (data_tokens (text_value (named_members rows.now.entries) realm.now))) }
{
    out.begin_object()?;
    out.key("principals")?;
    write_rows(alloc, out, rows)?;
    out.key("realm")?;
    out.string(realm)?;
    out.key("version")?;
    out.u64(NEWEST_VERSION)?;
    out.end_object()
}

/// Reads a text as an object.
fn read_object(alloc: Global, text: &str) -> Result<Value, ReadError>
    ensures ok { IfOk result (λ value. text_database text.now ≡ database (view value)) }
    ensures object { IfOk result (λ value. IsSome (as_object (view value))) }
    ensures fault { IfErr result (λ fault. fault ≢ ReadError.Memory → text_database text.now ≡ Err fault) }
{
    match Value::from_str(alloc, text) {
        Ok(value) if value.is_object() => Ok(value),
        Ok(_) => Err(ReadError::NotJson),
        Err(error) if error.is_memory() => Err(ReadError::Memory),
        Err(_) => Err(ReadError::NotJson),
    }
}

pub(crate) fn read_format(value: &Value) -> Option<Format>
    ensures { result ≡ format_value (view value.now) }
{
    Format::from_number(value.get("version")?.as_u64()?)
}

pub(crate) fn read_realm(alloc: Global, value: &Value) -> Result<KerberosString, RowError>
    ensures ok { IfOk result (λ realm. realm_of (view value.now) ≡ Some realm) }
    ensures fits { IfOk result (λ realm. IsComponent realm) }
    ensures bad { result ≡ Err RowError.BadRow → realm_of (view value.now) ≡ None }
{
    match value.get("realm").and_then(Value::as_str) {
        Some(text) => read_component(alloc, text),
        None => Err(RowError::BadRow),
    }
}

pub(crate) fn read_component(alloc: Global, text: &str) -> Result<KerberosString, RowError>
    ensures ok { IfOk result (λ octets. component_of text.now ≡ Some octets) }
    ensures fits { IfOk result IsComponent }
    ensures bad { result ≡ Err RowError.BadRow → component_of text.now ≡ None }
{
    match component_from_text(alloc, text) {
        Ok(octets) => Ok(octets),
        Err(NameFault::BadName) => Err(RowError::BadRow),
        Err(NameFault::Memory) => Err(RowError::Memory),
    }
}

pub(crate) fn read_name(alloc: Global, text: &str) -> Result<Name, RowError>
    ensures ok { IfOk result (λ name. name_of text.now ≡ Some name.components) }
    ensures bad { result ≡ Err RowError.BadRow → name_of text.now ≡ None }
{
    match Name::from_text(alloc, text) {
        Ok(name) => Ok(name),
        Err(NameFault::BadName) => Err(RowError::BadRow),
        Err(NameFault::Memory) => Err(RowError::Memory),
    }
}

/// Returns the rows, each from a member with the text of its name.
fn read_rows(alloc: Global, value: &Value, format: Format) -> Result<NameMap<Row>, RowError>
    ensures ok { IfOk result (λ rows. rows_of format (view value.now) ≡ Some rows) }
    ensures fits { IfOk result AreRows }
    ensures bad { result ≡ Err RowError.BadRow → rows_of format (view value.now) ≡ None }
{
    let Some(members) = value.get("principals").and_then(Value::as_object) else {
        return Err(RowError::BadRow);
    };
    let entries = read_entries(alloc, members, format)?;
    Ok(NameMap::from_entries(entries)?)
}

fn read_entries(
    alloc: Global,
    members: &Map<String, Value>,
    format: Format,
) -> Result<Vec<Entry<Row>>, RowError>
    ensures ok { IfOk result
        (λ entries. entries_of format (members_view members.now.entries) ≡ Some (pairs entries.items)) }
    ensures fits { IfOk result (λ entries. All (λ entry. IsRow entry.value) entries.items) }
    ensures bad { result ≡ Err RowError.BadRow → entries_of format (members_view members.now.entries) ≡ None }
{
    let mut entries = Vec::new(alloc);
    for (text, row) in members.iter() {
        let name = read_name(alloc, text.as_str())?;
        let value = read_row(alloc, row, format)?;
        entries.push(Entry { name, value })?;
    }
    Ok(entries)
}
