//! Reading a text row by row.
//!
//! The value of a whole text needs about thirteen times the text's memory, and the result is scattered among it. So a
//! text in the form that `write` gives is read member by member, and its rows token by token.
ghost use Rattle.std.specs.Prelude.{ℕ, ◌≡◌, ◌∷◌, ◌<◌, [], List, All, IfSome, IsSome, Ok, Some, length, reverse};
ghost use Rattle.std.specs.FinMap.{from_entries};
ghost use Rattle.json.specs.Lex.{tokens};
ghost use Rattle.json.specs.Token.{string};
ghost use Rattle.serde_json.specs.Data.{Data, Members, no_members};
ghost use Rattle.krb_fields.specs.NameLimits.{IsComponent};
ghost use Rattle.principal_rows.specs.NameMap.{pairs};
ghost use Rattle.principal_rows.specs.Row.{IsRow};
ghost use Rattle.principals_text.specs.Ahead.{value_at, members_at, rows_in, HoldsParts};
ghost use Rattle.principals_text.specs.Format.{newest};
ghost use Rattle.principals_text.specs.NameOf.{component_of, name_of};
ghost use Rattle.principals_text.specs.RowValue.{row_of};
ghost use Rattle.principals_text.specs.Value.{text_database};

use crate::next_value::{takes_end, takes_key, takes_object, takes_version};
use crate::row_reading::take_row;
use crate::row_tokens::know_row;
use crate::text::{read_component, read_name};
use json::{Reader, Scratch, Token};
use krb_elements::KerberosString;
use principal_rows::{Entry, NameMap, Row};
use principals::Database;
use std::alloc::Global;

/// The parts of a text besides its version.
struct Parts {
    realm: KerberosString,
    /// The rows in the order of the text. If a name has several, the last one counts.
    entries: Vec<Entry<Row>>,
}

/// Returns the database of a text in the newest version. Its members, and those of each row, must be in the order in
/// which they are written, with numbers and keys in the same digits. `None` says nothing about a text: it may have
/// another form, or denote no database, or memory may have run out.
pub(crate) fn read_by_rows(alloc: Global, text: &str) -> Option<Database>
    ensures { IfSome result (λ database. text_database text.now ≡ Ok database) }
{
    let Parts { realm, entries } = split_parts(alloc, text)?;
    let mut entries = entries;
    entries.reverse();
    let Ok(rows) = NameMap::from_entries(entries) else {
        return None;
    };
    Database::from_rows(realm, rows)
}

/// Reads the parts of a text.
fn split_parts(alloc: Global, text: &str) -> Option<Parts>
    ensures parts { IfSome result (λ parts. HoldsParts (tokens text.now) parts.realm parts.entries.items) }
    ensures realm { IfSome result (λ parts. IsComponent parts.realm) }
    ensures rows { IfSome result (λ parts. All (λ entry. IsRow entry.value) parts.entries.items) }
{
    let mut scratch = Scratch::new(alloc);
    let Ok(mut reader) = Reader::new(text, &mut scratch) else {
        return None;
    };
    read_parts(alloc, &mut reader)
}

fn read_parts(alloc: Global, reader: &mut Reader<'_>) -> Option<Parts>
    ensures parts { IfSome result (λ parts. HoldsParts reader.old parts.realm parts.entries.items) }
    ensures realm { IfSome result (λ parts. IsComponent parts.realm) }
    ensures rows { IfSome result (λ parts. All (λ entry. IsRow entry.value) parts.entries.items) }
{
    if !takes_object(reader) || !takes_key(reader, "principals") || !takes_object(reader) {
        return None;
    }
    let entries = read_rows(alloc, reader)?;
    if !takes_key(reader, "realm") {
        return None;
    }
    let realm = read_realm(alloc, reader)?;
    if !takes_key(reader, "version") || !takes_version(reader) || !takes_end(reader) {
        return None;
    }
    if reader.next().is_some() {
        return None;
    }
    Some(Parts { realm, entries })
}

/// Reads the rows of an object that has begun, up to its end.
fn read_rows(alloc: Global, reader: &mut Reader<'_>) -> Option<Vec<Entry<Row>>>
    ensures rows { IfSome result (λ entries. (ms : Members)
        × (members_at 125 no_members (length reader.old) reader.old ≡ Some (ms, reader.new))
        × (rows_in ms ≡ Some (from_entries (pairs (reverse entries.items))))) }
    ensures fits { IfSome result (λ entries. All (λ entry. IsRow entry.value) entries.items) }
    ensures shorter { IsSome result → length reader.new < length reader.old }
{
    let mut entries = Vec::new(alloc);
    while let Some(text) = reader.next_key().ok()? {
        let entry = read_entry(alloc, text, reader)?;
        entries.push(entry).ok()?;
    }
    Some(entries)
}

/// Reads the row of a name, whose value comes next.
fn read_entry(alloc: Global, text: &str, reader: &mut Reader<'_>) -> Option<Entry<Row>>
    ensures row { IfSome result (λ entry. (d : Data) × (value_at 125 reader.old ≡ Some (d, reader.new))
        × (name_of text.now ≡ Some entry.name.components) × (row_of newest d ≡ Some entry.value)) }
    ensures fits { IfSome result (λ entry. IsRow entry.value) }
    ensures shorter { IsSome result → length reader.new < length reader.old }
{
    let Ok(name) = read_name(alloc, text) else {
        return None;
    };
    let value = take_row(alloc, reader)?;
    know_row(&value);
    Some(Entry { name, value })
}

/// Reads the realm, whose text comes next.
fn read_realm(alloc: Global, reader: &mut Reader<'_>) -> Option<KerberosString>
    ensures realm { IfSome result
        (λ realm. (s : List ℕ) × (reader.old ≡ string s ∷ reader.new) × (component_of s ≡ Some realm)) }
    ensures fits { IfSome result IsComponent }
{
    let Some(Token::String(text)) = reader.next() else {
        return None;
    };
    let Ok(realm) = read_component(alloc, text) else {
        return None;
    };
    Some(realm)
}
