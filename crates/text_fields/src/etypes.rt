//! The encryption types of new keys, in order of preference.
ghost use Rattle.std.specs.Prelude.{◌≡◌, ℕ, pos, IfOk, IfSome, IfNone};
ghost use Rattle.enctypes.specs.declared.etype.Etype as types;
ghost use Rattle.text_fields.specs.Etypes.{offered};
ghost use Rattle.text_fields.specs.Etypes.{IsEtypeText};

use crate::numbers::number;
use enctypes::Etype;
use std::alloc::{AllocError, Global};

/// Returns the default encryption types: 18, 17, 20 and 19.
pub fn offered(alloc: Global) -> Result<Vec<Etype>, AllocError>
    // Promise, as password_keys of principal_keys: the keys from a ..
    ensures { IfOk result (λ etypes. etypes.items ≡ offered) }
{
    Vec::from_slice(
        alloc,
        &[
            Etype::Aes256CtsHmacSha1_96,
            Etype::Aes128CtsHmacSha1_96,
            Etype::Aes256CtsHmacSha384_192,
            Etype::Aes128CtsHmacSha256_128,
        ],
    )
}

/// Reads a list of encryption types by their numbers: at least one, and each at most once. Returns `None` if the text
/// is no such list.
pub fn read_etypes(alloc: Global, text: &str) -> Result<Option<Vec<Etype>>, AllocError> {
    let mut etypes = Vec::new(alloc);
    for part in text.split(',') {
        let Some(etype) = read_etype(part) else {
            return Ok(None);
        };
        if etypes.contains(&etype) {
            return Ok(None);
        }
        etypes.push(etype)?;
    }
    Ok(Some(etypes))
}

/// Reads the number of an encryption type.
fn read_etype(text: &str) -> Option<Etype>
    ensures read { IfSome result (λ etype. IsEtypeText etype text.now) }
    ensures none { IfNone result ((etype : types.Etype) → ¬ IsEtypeText etype text.now) }
{
    Etype::from_number(i32::try_from(number(text)?).ok()?)
}
