//! Principals in the log.
ghost use Rattle.std.specs.Prelude.{◌≡◌, ◌++◌, ◌∷◌, [], List, IfOk, OnOk, codes};
ghost use Rattle.request_log.specs.Entry.{cut, name_value, or_dash};
ghost use Rattle.request_log.specs.Field.{Field, field};

use crate::field::{FieldName, FieldWriter};
use krb_fields::Name;
use std::alloc::{AllocError, Global};

/// The maximum length of a name, in bytes.
const MOST_OF_NAME: usize = 200;

/// How many bytes of a longer name are kept, followed by three full stops.
const KEPT: usize = 197;

/// The value of a field whose value is absent.
pub(crate) const ABSENT: &[u8] = b"-";

/// Writes the text of a principal's name, cut to at most 200 bytes. It contains no space and no line feed.
pub(crate) fn put_name<W: FieldWriter>(
    line: &mut W,
    alloc: Global,
    value: &mut Vec<u8>,
    name: FieldName,
    principal: &Option<Name>,
) -> Result<(), AllocError>
    ensures { (fields : List Field) → W.Holds line.old fields
        → OnOk result (W.Holds line.new (fields ++ field name (name_value principal.now) ∷ [])) }
{
    match principal {
        Some(principal) => {
            value.clear();
            principal.push_text(value)?;
            put_cut(line, alloc, name, value)
        }
        None => line.put_printable(alloc, name, ABSENT),
    }
}

/// Writes a text, cut to at most 200 bytes.
fn put_cut<W: FieldWriter>(
    line: &mut W,
    alloc: Global,
    name: FieldName,
    text: &[u8],
) -> Result<(), AllocError>
    ensures { (fields : List Field) → W.Holds line.old fields
        → OnOk result (W.Holds line.new (fields ++ field name (or_dash (cut text.now)) ∷ [])) }
{
    match text.get(..KEPT) {
        Some(kept) if text.len() > MOST_OF_NAME => {
            let short = shortened(alloc, kept)?;
            put_or_dash(line, alloc, name, &short)
        }
        _ => put_or_dash(line, alloc, name, text),
    }
}

/// Returns the bytes, followed by three full stops.
fn shortened(alloc: Global, kept: &[u8]) -> Result<Vec<u8>, AllocError>
    ensures { IfOk result (λ short. short.items ≡ kept.now ++ codes "...") }
{
    let mut short = Vec::from_slice(alloc, kept)?;
    short.extend_from_slice(b"...")?;
    Ok(short)
}

/// Writes the value, or `-` if it is empty.
pub(crate) fn put_or_dash<W: FieldWriter>(
    line: &mut W,
    alloc: Global,
    name: FieldName,
    value: &[u8],
) -> Result<(), AllocError>
    ensures { (fields : List Field) → W.Holds line.old fields
        → OnOk result (W.Holds line.new (fields ++ field name (or_dash value.now) ∷ [])) }
{
    if value.is_empty() {
        line.put_printable(alloc, name, ABSENT)
    } else {
        line.put(alloc, name, value)
    }
}
