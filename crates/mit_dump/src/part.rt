//! Bytes in a dump, after the number of what they are and their length.
ghost use Rattle.std.specs.Prelude.{◌≡◌, IfOk};
ghost use Rattle.mit_dump.specs.Part.{TakesPart, TakesParts};

use crate::fault::Cause;
use crate::fields::Fields;
use krb_elements::Octets;
use std::alloc::Global;

/// Bytes with the number of what they are: tagged data of a principal, a key with its encryption type, or a salt with
/// its type.
#[derive(Drop)]
pub struct Part {
    /// MIT's number of tagged data (`KRB5_TL_*`) or of a salt (`KRB5_KDB_SALTTYPE_*`), or an encryption type's.
    pub tag: u32,
    /// The bytes. Those of a key are encrypted with the master key.
    pub octets: Octets,
}

/// Reads this many parts.
#[tactic(auto, using(crate::proofs::Chains::one_more))]
pub(crate) fn read_parts(
    alloc: Global,
    fields: &mut Fields<'_, '_>,
    count: u32,
) -> Result<Vec<Part>, Cause>
    ensures { IfOk result (λ parts. TakesParts fields.old count parts.items fields.new) }
{
    let mut parts = Vec::new(alloc);
    for _ in 0..count {
        parts.push(read_part(alloc, fields)?)?;
    }
    Ok(parts)
}

/// Reads a part.
pub(crate) fn read_part(alloc: Global, fields: &mut Fields<'_, '_>) -> Result<Part, Cause>
    ensures { IfOk result (λ part. TakesPart fields.old part fields.new) }
{
    let tag = fields.number()?;
    let len = fields.number()?;
    let octets = fields.octets(alloc, len)?;
    Ok(Part { tag, octets })
}
