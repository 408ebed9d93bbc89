//! A log line of JSON.
ghost use Rattle.std.specs.Prelude.{◌≡◌, ◌++◌, ◌∷◌, [], List, IfOk, OnOk};
ghost use Rattle.json.specs.Print.{print};
ghost use Rattle.json.specs.Token.{begin_object, end_object, key, string};
ghost use Rattle.std.specs.Str.{IsUtf8};
ghost use Rattle.request_log.specs.Entry.{entry_fields};
ghost use Rattle.request_log.specs.Field.{Field};
ghost use Rattle.request_log.specs.Lines.{HoldsJson, IsLine, json_line, shown};

use crate::entries::{Entry, put_entry};
use crate::field::{FieldName, FieldWriter};
use crate::text_lines::shown;
use json::Writer;
use std::alloc::{AllocError, Global};
use std::str;

/// An object of JSON, while it is made.
#[derive(Drop)]
pub struct JsonFields {
    out: Writer,
}

impl FieldWriter for JsonFields {
    ghost Holds = { HoldsJson };

    fn put(&mut self, alloc: Global, name: FieldName, value: &[u8]) -> Result<(), AllocError> {
        self.out.key(name.text())?;
        let value = shown(alloc, value)?;
        write_shown(&mut self.out, &value)
    }

    fn put_printable(
        &mut self,
        alloc: Global,
        name: FieldName,
        value: &[u8],
    ) -> Result<(), AllocError> {
        self.put(alloc, name, value)
    }
}

/// Returns the line for a request: its fields as one JSON object (RFC 8259), with each value as a string under its
/// name, and a line feed. Non-printable bytes become question marks.
pub fn json_line(alloc: Global, entry: &Entry<'_>) -> Result<Vec<u8>, AllocError>
    // Promise, as LogWriter::write_entry: **an entry becomes its ..
    ensures text { IfOk result (λ line. line.items ≡ json_line (entry_fields entry.now)) }
    // The result is a single line, whatever the names contain.
    // Promise, as text_line: a line is one ..
    ensures one { IfOk result (λ line. IsLine line.items) }
{
    let mut fields = JsonFields {
        out: Writer::new(Vec::new(alloc)),
    };
    fields.out.begin_object()?;
    put_entry(&mut fields, alloc, entry)?;
    fields.out.end_object()?;
    let mut line = fields.out.into_inner();
    line.push(b'\n')?;
    Ok(line)
}

/// Writes printable bytes as a string.
fn write_shown(out: &mut Writer, value: &[u8]) -> Result<(), AllocError>
    requires { IsUtf8 value.now }
    ensures tokens { OnOk result (out.new.tokens ≡ out.old.tokens ++ string value.now ∷ []) }
    ensures before { OnOk result (out.new.before ≡ out.old.before) }
{
    match str::from_utf8(value) {
        Ok(text) => out.string(text),
        Err(_) => unreachable!(),
    }
}
