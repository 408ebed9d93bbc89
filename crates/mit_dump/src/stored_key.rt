//! The keys of a principal in a dump.
ghost use Rattle.std.specs.Prelude.{◌≡◌, IfOk};
ghost use Rattle.mit_dump.specs.StoredKey.{TakesKey, TakesKeys, TakesSalt};

use crate::fault::Cause;
use crate::fields::Fields;
use crate::part::{Part, read_part};
use std::alloc::Global;

/// A key of a principal: `krb5_key_data` of MIT.
#[derive(Drop)]
pub struct StoredKey {
    /// The key version.
    pub version: u32,
    /// The encrypted key, with its encryption type.
    pub key: Part,
    /// The salt with its type, unless it is the default one.
    pub salt: Option<Part>,
}

/// Reads this many keys.
#[tactic(auto, using(crate::proofs::Chains::one_more))]
pub(crate) fn read_keys(
    alloc: Global,
    fields: &mut Fields<'_, '_>,
    count: u32,
) -> Result<Vec<StoredKey>, Cause>
    ensures { IfOk result (λ keys. TakesKeys fields.old count keys.items fields.new) }
{
    let mut keys = Vec::new(alloc);
    for _ in 0..count {
        keys.push(read_key(alloc, fields)?)?;
    }
    Ok(keys)
}

/// Reads a key.
fn read_key(alloc: Global, fields: &mut Fields<'_, '_>) -> Result<StoredKey, Cause>
    ensures { IfOk result (λ key. TakesKey fields.old key fields.new) }
{
    let parts = fields.number()?;
    let version = fields.number()?;
    let key = read_part(alloc, fields)?;
    let salt = read_salt(alloc, fields, parts)?;
    Ok(StoredKey { version, key, salt })
}

/// Reads the salt of a key that has this many parts: one without a salt, two with one.
fn read_salt(alloc: Global, fields: &mut Fields<'_, '_>, parts: u32) -> Result<Option<Part>, Cause>
    ensures { IfOk result (λ salt. TakesSalt fields.old parts salt fields.new) }
{
    match parts {
        1 => Ok(None),
        2 => Ok(Some(read_part(alloc, fields)?)),
        _ => Err(Cause::Count),
    }
}
