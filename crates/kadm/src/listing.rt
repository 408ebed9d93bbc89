//! The commands that print the contents of a database, without keys.
ghost use Rattle.std.specs.Prelude.{◌≡◌, OnOk};
ghost use Rattle.kadm.specs.Printed.{HasDatabase};

use crate::json_lines::{behind_name, json_line};
use file_store::Store;
use kadm_changes::{Context, EarlyEnd, is_like, read_database};
use krb_fields::Second;
use principal_rows::{KeyList, Row};
use principals::Database;
use std::alloc::{AllocError, Global};
use std::io;
use std::io::Write;
use text_fields::UtcDate;

/// Which principals to list, and what to print of each.
#[derive(Clone, Copy)]
pub(crate) struct ListArgs<'a> {
    /// The pattern that the names fit, if there is one.
    pub like: Option<&'a str>,
    /// Whether a line has more columns.
    pub long: bool,
    /// Whether a line is an object of JSON, which has all columns.
    pub json: bool,
}

/// Prints `NAME VERSION TYPES` for each principal whose name fits, in the order of the names' texts. A long line
/// continues with `EXPIRES PASSWORD_EXPIRES DISABLED VERSIONS SERVICE`. An object of JSON has all of a row but keys.
pub(crate) fn print_list<'p, T: Store, W: Write, E: Write>(
    context: &mut Context<W, E>,
    store: &mut T,
    db: &'p str,
    list: ListArgs<'_>,
) -> Result<(), EarlyEnd<'p>>
    ensures read { OnOk result (HasDatabase (T.world store.old) db.now) }
    ensures unchanged { T.world store.new ≡ T.world store.old }
{
    let database = read_database(context, store, db)?;
    let lines = listed_lines(context.alloc, &database, list)?;
    Ok(print_lines(&lines, list.json, &mut context.out)?)
}

/// Prints the lines, or the objects in them.
fn print_lines<W: Write>(lines: &[Vec<u8>], json: bool, out: &mut W) -> io::Result<()> {
    for line in lines {
        let text = if json {
            behind_name(line)
        } else {
            line.as_slice()
        };
        out.write_all(text)?;
        writeln!(out)?;
    }
    Ok(())
}

/// Returns the line of each principal whose name fits, in the order of the names.
fn listed_lines(
    alloc: Global,
    database: &Database,
    list: ListArgs<'_>,
) -> Result<Vec<Vec<u8>>, AllocError> {
    let mut lines = Vec::new(alloc);
    for place in 0..database.len() {
        if let Some((name, row)) = database.at(place) {
            let name = name.to_text(alloc)?;
            if fits(list.like, &name) {
                lines.push(listed_line(alloc, &name, row, list)?)?;
            }
        }
    }
    // no text of a name has a byte as low as the space after it, so lines have the order of names
    lines.sort()?;
    Ok(lines)
}

/// Checks whether a name's text fits the pattern, if there is one.
fn fits(like: Option<&str>, name: &str) -> bool {
    match like {
        Some(pattern) => is_like(pattern, name),
        None => true,
    }
}

/// Returns the line of a principal. An object of JSON is behind its name and a space.
fn listed_line(
    alloc: Global,
    name: &str,
    row: &Row,
    list: ListArgs<'_>,
) -> Result<Vec<u8>, AllocError> {
    if list.json {
        return json_line(alloc, name, row);
    }
    let current = row.versions.current();
    let types = types_of(alloc, &current.keys)?;
    let mut line = format!(in alloc; "{name} {} {types}", current.number)?;
    if list.long {
        push_columns(&mut line, row)?;
    }
    Ok(line.into_bytes())
}

/// Adds the further columns of a long line.
fn push_columns(line: &mut String, row: &Row) -> Result<(), AllocError> {
    push_time(line, row.policy.expires)?;
    push_time(line, row.policy.password_expires)?;
    let versions = row.versions.as_slice().len();
    write!(
        line,
        " {} {versions} {}",
        row.policy.disabled, row.policy.service
    )?;
    Ok(())
}

fn push_time(line: &mut String, time: Option<Second>) -> Result<(), AllocError> {
    match time {
        Some(second) => write!(line, " {}", UtcDate(second))?,
        None => line.push_str(" never")?,
    }
    Ok(())
}

/// Returns the numbers of the keys' types, joined by commas.
pub(crate) fn types_of(alloc: Global, keys: &KeyList) -> Result<String, AllocError> {
    let mut types = String::new(alloc);
    for key in keys.keys() {
        if !types.is_empty() {
            types.push(',')?;
        }
        write!(types, "{}", key.etype().number())?;
    }
    Ok(types)
}
