//! The values of the relations of a file.
ghost use Rattle.std.specs.Prelude.{◌≡◌, ◌++◌, map, IfOk, OnOk};
ghost use Rattle.std.specs.Option.{option_map, option_to_list};
ghost use Rattle.krb5_conf.specs.Line.{said};
ghost use Rattle.krb5_conf.specs.LinePlace.{place_of};
ghost use Rattle.krb5_conf.specs.Values.{lines_of, value_by, values_of};

use crate::line::Line;
use crate::place::LinePlace;
use std::alloc::{AllocError, Global};

/// Returns the values of the relations with this tag at this place, in order.
pub(crate) fn values<'a>(
    alloc: Global,
    text: &'a [u8],
    wanted: LinePlace<'_>,
    tag: &[u8],
) -> Result<Vec<&'a [u8]>, AllocError>
    ensures { IfOk result (λ values.
        map (λ value. value.now) values.items ≡ values_of (place_of wanted.entry) tag.now text.now) }
{
    let mut values = Vec::new(alloc);
    let mut place = LinePlace::of_section(b"");
    let lines = lines(alloc, text)?;
    for text in &lines {
        let line = Line::read(text);
        push_some(&mut values, value_at(wanted, tag, place, line))?;
        place = place.behind(line);
    }
    Ok(values)
}

/// Appends a value, if there is one.
fn push_some<'a>(values: &mut Vec<&'a [u8]>, value: Option<&'a [u8]>) -> Result<(), AllocError>
    ensures { OnOk result (map (λ v. v.now) values.new.items
        ≡ map (λ v. v.now) values.old.items ++ option_to_list (option_map (λ v. v.now) value.entry)) }
{
    match value {
        Some(value) => Ok(values.push(value)?),
        None => Ok(()),
    }
}

/// Splits a text at its line feeds.
fn lines<'a>(alloc: Global, text: &'a [u8]) -> Result<Vec<&'a [u8]>, AllocError>
    ensures { IfOk result (λ lines. map (λ line. line.now) lines.items ≡ lines_of text.now) }
{
    text.split(|octet| *octet == b'\n').collect(alloc)
}

/// Returns the value in a line, if the line is a relation with this tag at the wanted place.
fn value_at<'a>(
    wanted: LinePlace<'_>,
    tag: &[u8],
    place: LinePlace<'_>,
    line: Line<'a>,
) -> Option<&'a [u8]>
    ensures { option_map (λ value. value.now) result
        ≡ value_by (place_of wanted.entry) tag.now (place_of place.entry) (said line.entry) }
{
    match line {
        Line::Relation(found, value) if place.is(wanted) && found == tag => Some(value),
        _ => None,
    }
}
