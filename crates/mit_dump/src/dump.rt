//! The text of a dump.
ghost use Rattle.std.specs.Prelude.{◌≡◌, IfOk, OnOk};
ghost use Rattle.mit_dump.specs.Dump.{AddsLine, AreFound, AreLines, IsDump, is_header};
ghost use Rattle.mit_dump.specs.Fields.{texts};

use crate::fault::{Cause, DumpError};
use crate::fields::split_lines;
use crate::line::read_line;
use crate::principal::DumpedPrincipal;
use std::alloc::Global;

/// Reads the principals of a dump, in the order of their lines. Versions 5 to 8 of the format are read, and policies
/// are skipped.
pub fn read_dump(alloc: Global, text: &[u8]) -> Result<Vec<DumpedPrincipal>, DumpError>
    // Promise, as import_dump of kadm_changes: `import --dump` makes a ..
    ensures { IfOk result (λ found. IsDump text.now found.items) }
{
    let lines = match split_lines(alloc, text) {
        Ok(lines) => lines,
        Err(error) => return Err(DumpError::at_line(1, Cause::from(error))),
    };
    let [header, rest @ ..] = lines.as_slice() else {
        return Err(DumpError::at_line(1, Cause::Header));
    };
    if !is_header(header) {
        return Err(DumpError::at_line(1, Cause::Header));
    }
    read_lines(alloc, rest)
}

/// Checks whether a line is the first of a dump of version 5 to 8.
fn is_header(line: &[u8]) -> bool
    ensures { result ≡ is_header line.now }
{
    line == b"kdb5_util load_dump version 5".as_slice()
        || line == b"kdb5_util load_dump version 6".as_slice()
        || line == b"kdb5_util load_dump version 7".as_slice()
        || line == b"kdb5_util load_dump version 8".as_slice()
}

/// Reads the lines after the first one. The last one is empty, since a line feed ends each.
fn read_lines(alloc: Global, lines: &[&[u8]]) -> Result<Vec<DumpedPrincipal>, DumpError>
    ensures { IfOk result (λ found. AreLines (texts lines.now) found.items) }
{
    match lines.split_last() {
        Some((last, body)) if last.is_empty() => read_body(alloc, body),
        _ => Err(DumpError::at_line(lines.len().saturating_add(1), Cause::Cut)),
    }
}

/// Reads the lines of principals and policies.
fn read_body(alloc: Global, lines: &[&[u8]]) -> Result<Vec<DumpedPrincipal>, DumpError>
    ensures { IfOk result (λ found. AreFound (texts lines.now) found.items) }
{
    let mut found = Vec::new(alloc);
    let mut number: usize = 1;
    for line in lines {
        number = number.saturating_add(1);
        push_numbered(alloc, &mut found, number, line)?;
    }
    Ok(found)
}

/// Adds the principal of the line with this number, if it has one.
fn push_numbered(
    alloc: Global,
    found: &mut Vec<DumpedPrincipal>,
    number: usize,
    line: &[u8],
) -> Result<(), DumpError>
    ensures { OnOk result (AddsLine line.now found.old.items found.new.items) }
{
    match push_line(alloc, found, line) {
        Ok(()) => Ok(()),
        Err(cause) => Err(DumpError::at_line(number, cause)),
    }
}

/// Adds the principal of a line, if it has one.
fn push_line(alloc: Global, found: &mut Vec<DumpedPrincipal>, line: &[u8]) -> Result<(), Cause>
    ensures { OnOk result (AddsLine line.now found.old.items found.new.items) }
{
    if let Some(principal) = read_line(alloc, line)? {
        found.push(principal)?;
    }
    Ok(())
}
