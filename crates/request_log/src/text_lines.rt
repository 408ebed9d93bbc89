//! A log line as text.
ghost use Rattle.std.specs.Prelude.{◌≡◌, ◌≤◌, ◌+◌, ◌++◌, [], List, length, IfOk, OnOk};
ghost use Rattle.std.specs.List.{list_all};
ghost use Rattle.request_log.specs.Entry.{entry_fields};
ghost use Rattle.request_log.specs.Field.{Field};
ghost use Rattle.request_log.specs.Lines.{HoldsText, IsLine, is_printable, label, longest, shown, shown_octet, spaced};
ghost use Rattle.request_log.specs.Lines.{text_line, with_shown};

use crate::entries::{Entry, put_entry};
use crate::field::{FieldName, FieldWriter};
use std::alloc::{AllocError, Global};

/// The maximum length of a line, without its line feed, in bytes.
const LONGEST: usize = 639;

/// The text of a line, while it is made.
#[derive(Drop)]
pub struct TextFields {
    text: Vec<u8>,
}

impl FieldWriter for TextFields {
    ghost Holds = { HoldsText };

    fn put(&mut self, _alloc: Global, name: FieldName, value: &[u8]) -> Result<(), AllocError> {
        push_front(&mut self.text, name)?;
        push_shown(&mut self.text, value)
    }

    fn put_printable(
        &mut self,
        _alloc: Global,
        name: FieldName,
        value: &[u8],
    ) -> Result<(), AllocError> {
        push_front(&mut self.text, name)?;
        self.text.extend_from_slice(value)
    }
}

/// Returns the line for a request: its fields in order, separated by spaces: first the values with a fixed place, then
/// `NAME=VALUE`. Non-printable bytes become question marks. The line is cut after 639 bytes.
pub fn text_line(alloc: Global, entry: &Entry<'_>) -> Result<Vec<u8>, AllocError>
    // Promise, as LogWriter::write_entry: **an entry becomes its ..
    ensures text { IfOk result (λ line. line.items ≡ text_line (entry_fields entry.now)) }
    // The result is a single line, whatever the names contain.
    // Promise: a line is one line, of printable characters and a line feed at its end, whatever the names are.
    ensures one { IfOk result (λ line. IsLine line.items) }
    // Promise: a line of text has at most 640 bytes.
    ensures short { IfOk result (λ line. length line.items ≤ longest + 1) }
{
    let mut fields = TextFields {
        text: Vec::with_capacity(alloc, LONGEST + 1)?,
    };
    put_entry(&mut fields, alloc, entry)?;
    let mut line = fields.text;
    line.truncate(LONGEST);
    line.push(b'\n')?;
    Ok(line)
}

/// Adds what stands between a value and the one before.
fn push_front(text: &mut Vec<u8>, name: FieldName) -> Result<(), AllocError>
    ensures { OnOk result (text.new.items ≡ spaced text.old.items ++ label name) }
{
    push_space(text)?;
    push_label(text, name)
}

/// Adds a space to a text, unless it is empty.
fn push_space(text: &mut Vec<u8>) -> Result<(), AllocError>
    ensures { OnOk result (text.new.items ≡ spaced text.old.items) }
{
    if text.is_empty() {
        return Ok(());
    }
    text.push(b' ')?;
    Ok(())
}

/// Adds what stands in front of a value.
fn push_label(text: &mut Vec<u8>, name: FieldName) -> Result<(), AllocError>
    ensures { OnOk result (text.new.items ≡ text.old.items ++ label name) }
{
    if name.is_column() {
        return Ok(());
    }
    text.extend_from_slice(name.text().as_bytes())?;
    text.push(b'=')?;
    Ok(())
}

/// Returns the bytes with a question mark for each that is not printable.
pub(crate) fn shown(alloc: Global, octets: &[u8]) -> Result<Vec<u8>, AllocError>
    ensures value { IfOk result (λ text. text.items ≡ shown octets.now) }
{
    let mut text = Vec::new(alloc);
    push_shown(&mut text, octets)?;
    Ok(text)
}

/// Adds the bytes with a question mark for each that is not printable.
fn push_shown(text: &mut Vec<u8>, octets: &[u8]) -> Result<(), AllocError>
    ensures { OnOk result (text.new.items ≡ text.old.items ++ shown octets.now) }
{
    if are_printable(octets) {
        return text.extend_from_slice(octets);
    }
    push_each(text, octets)
}

/// Adds the bytes as `push_shown` does, one by one.
fn push_each(text: &mut Vec<u8>, octets: &[u8]) -> Result<(), AllocError>
    ensures { OnOk result (text.new.items ≡ with_shown text.old.items octets.now) }
{
    let mut rest = octets;
    while let [octet, others @ ..] = rest {
        text.push(shown_octet(*octet))?;
        rest = others;
    }
    Ok(())
}

fn are_printable(octets: &[u8]) -> bool
    ensures { result ≡ list_all is_printable octets.now }
{
    octets.iter().all(|octet| is_printable(*octet))
}

fn shown_octet(octet: u8) -> u8
    ensures { result ≡ shown_octet octet }
{
    if is_printable(octet) { octet } else { b'?' }
}

/// Checks whether a byte is a space or a visible ASCII character.
fn is_printable(octet: u8) -> bool
    ensures { result ≡ is_printable octet }
{
    (b' '..=b'~').contains(&octet)
}
