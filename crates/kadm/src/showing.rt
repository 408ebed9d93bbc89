//! The command that prints whole rows, without their keys.
ghost use Rattle.std.specs.Prelude.{◌≡◌, All, IfOk, OnOk};
ghost use Rattle.krb_fields.specs.NameText.{IsNameText};
ghost use Rattle.principals.specs.Database.{Principals};
ghost use Rattle.kadm_changes.specs.Texts.{path_of, texts};
ghost use Rattle.kadm_changes.specs.Worlds.{HoldsDatabase};
ghost use Rattle.kadm.specs.Printed.{AreThere, HasRow};

use crate::json_lines::json_row;
use crate::listing::types_of;
use file_store::Store;
use kadm_changes::{
    CommandRefusal, Context, EarlyEnd, Part, Refusal, Target, is_like, read_database,
};
use krb_fields::{Name, NameFault};
use principal_rows::Row;
use principals::{ChangeFault, Database};
use std::alloc::{AllocError, Global};
use std::io;
use std::io::Write;
use text_fields::Setting;

/// Which rows to show, and how. Without a pattern they are those of the names that the command gives.
#[derive(Clone, Copy)]
pub(crate) struct ShowArgs<'a> {
    /// The pattern that the names fit, if there is one.
    pub like: Option<&'a str>,
    /// Whether a row is an object of JSON.
    pub json: bool,
}

/// Prints each row that is asked for, or none if one of the names has none. Of several rows each begins with `principal
/// NAME`. Then come its policy, with one field on each line as `policy` accepts it, and `version NUMBER TYPES` for each
/// version, the current one first.
pub(crate) fn print_rows<'p, T: Store, W: Write, E: Write>(
    context: &mut Context<W, E>,
    store: &mut T,
    target: &Target<'p>,
    show: ShowArgs<'_>,
) -> Result<(), EarlyEnd<'p>>
    ensures read { OnOk result ((p : Principals) × HoldsDatabase (T.world store.old) target.now.db.now p
        × AreThere (path_of show.entry.like) (texts target.now.names.items) p) }
    ensures unchanged { T.world store.new ≡ T.world store.old }
{
    let alloc = context.alloc;
    for name in &target.names {
        read_name(alloc, name)?;
    }
    let database = read_database(context, store, target.db)?;
    match show.like {
        Some(pattern) => print_like(alloc, &mut context.out, &database, pattern, show.json),
        None => {
            check_rows(alloc, &database, &target.names)?;
            print_named(alloc, &mut context.out, &database, &target.names, show.json)
        }
    }
}

/// Reads the text of a name. A refusal has this text.
fn read_name(alloc: Global, text: &str) -> Result<Name, EarlyEnd<'_>>
    ensures { IfOk result (λ name. IsNameText name.components text.now) }
{
    match Name::from_text(alloc, text) {
        Ok(name) => Ok(name),
        Err(NameFault::BadName) => Err(refused(text, CommandRefusal::BadName)),
        Err(NameFault::Memory) => Err(EarlyEnd::from(AllocError)),
    }
}

/// Returns the refusal of a name.
fn refused(name: &str, reason: CommandRefusal) -> EarlyEnd<'_> {
    EarlyEnd::Refused(Refusal {
        part: Part::Name,
        value: Some(name),
        reason,
    })
}

/// Refuses the first of these names that has no row.
fn check_rows<'p>(alloc: Global, database: &Database, names: &[&'p str]) -> Result<(), EarlyEnd<'p>>
    ensures { OnOk result (All (HasRow database.now) (texts names.now)) }
{
    for name in names {
        check_row(alloc, database, name)?;
    }
    Ok(())
}

/// Refuses a name that has no row.
fn check_row<'p>(alloc: Global, database: &Database, name: &'p str) -> Result<(), EarlyEnd<'p>>
    ensures { OnOk result (HasRow database.now name.now) }
{
    let who = read_name(alloc, name)?;
    match database.get(&who) {
        Some(_) => Ok(()),
        None => Err(refused(name, CommandRefusal::Change(ChangeFault::Absent))),
    }
}

/// Prints the rows of these names.
fn print_named<'p, W: Write>(
    alloc: Global,
    out: &mut W,
    database: &Database,
    names: &[&'p str],
    json: bool,
) -> Result<(), EarlyEnd<'p>> {
    for name in names {
        let who = read_name(alloc, name)?;
        if let Some(row) = database.get(&who) {
            print_row(alloc, out, name, row, json, names.len() > 1)?;
        }
    }
    Ok(())
}

/// Prints the rows whose names fit a pattern, in the order of the names' texts.
fn print_like<'p, W: Write>(
    alloc: Global,
    out: &mut W,
    database: &Database,
    pattern: &str,
    json: bool,
) -> Result<(), EarlyEnd<'p>> {
    for text in &texts_like(alloc, database, pattern)? {
        if let Ok(who) = Name::from_text(alloc, text)
            && let Some(row) = database.get(&who)
        {
            print_row(alloc, out, text, row, json, true)?;
        }
    }
    Ok(())
}

/// Returns the names that fit a pattern, in the order of their texts.
fn texts_like(
    alloc: Global,
    database: &Database,
    pattern: &str,
) -> Result<Vec<String>, AllocError> {
    let mut texts = Vec::new(alloc);
    for place in 0..database.len() {
        if let Some((name, _)) = database.at(place) {
            let text = name.to_text(alloc)?;
            if is_like(pattern, &text) {
                texts.push(text)?;
            }
        }
    }
    texts.sort()?;
    Ok(texts)
}

/// Prints a row, as an object of JSON or as lines. With a `title` its name comes before these.
fn print_row<'p, W: Write>(
    alloc: Global,
    out: &mut W,
    name: &str,
    row: &Row,
    json: bool,
    title: bool,
) -> Result<(), EarlyEnd<'p>> {
    if json {
        out.write_all(&json_row(alloc, name, row)?)?;
        return Ok(writeln!(out)?);
    }
    if title {
        writeln!(out, "principal {name}")?;
    }
    print_policy(row, out)?;
    print_versions(alloc, row, out)
}

fn print_policy<W: Write>(row: &Row, out: &mut W) -> io::Result<()> {
    for setting in Setting::all(row.policy) {
        writeln!(out, "{setting}")?;
    }
    Ok(())
}

fn print_versions<'p, W: Write>(alloc: Global, row: &Row, out: &mut W) -> Result<(), EarlyEnd<'p>> {
    for version in row.versions.as_slice() {
        let types = types_of(alloc, &version.keys)?;
        writeln!(out, "version {} {types}", version.number)?;
    }
    Ok(())
}
