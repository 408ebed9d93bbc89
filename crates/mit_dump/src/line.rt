//! A line of a dump.
ghost use Rattle.std.specs.Prelude.{◌≡◌, IfOk};
ghost use Rattle.mit_dump.specs.Dump.{IsLine};

use crate::fault::Cause;
use crate::fields::{Fields, split_fields};
use crate::principal::{DumpedPrincipal, read_principal};
use std::alloc::Global;

/// The first field of a principal.
const PRINCIPAL: &[u8] = b"princ";

/// The first field of a policy.
const POLICY: &[u8] = b"policy";

/// Reads a line: a principal, or `None` if it is that of a policy.
pub(crate) fn read_line(alloc: Global, line: &[u8]) -> Result<Option<DumpedPrincipal>, Cause>
    ensures { IfOk result (λ found. IsLine line.now found) }
{
    let fields = split_fields(alloc, line)?;
    let mut fields = Fields::new(&fields);
    let word = fields.next()?;
    if word == PRINCIPAL {
        return Ok(Some(read_principal(alloc, &mut fields)?));
    }
    if word == POLICY {
        return Ok(None);
    }
    Err(Cause::Word)
}
