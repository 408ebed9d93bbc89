//! Decryption with or without a cache of keys.
ghost use Rattle.std.specs.Prelude.{◌≡◌, IfOk, IfSome};
ghost use Rattle.enctypes.specs.KeyUsage.{usage_number};
ghost use Rattle.encrypted_data.specs.Parts.{IsSpelledWithin, opened_as};

use encrypted_data::{ReadyKeys, open_part};
use enctypes::{Key, KeyUsage};
use krb_elements::ReadOwned;
use std::alloc::{AllocError, Global};

/// Decrypts a value as `open_part` does, with the server's cache of keys if it has one.
pub fn open_by<T: ReadOwned>(
    alloc: Global,
    ready: Option<&ReadyKeys>,
    key: &Key,
    usage: KeyUsage,
    cipher: &[u8],
) -> Result<Option<T>, AllocError>
    ensures value { IfOk result (λ found. found
        ≡ opened_as T.codec key.now.etype key.now.bytes (usage_number usage) cipher.now) }
    ensures within { IfOk result (λ found. IfSome found (λ part. IsSpelledWithin T.codec part cipher.now)) }
{
    match ready {
        Some(ready) => ready.open_part(alloc, key, usage, cipher),
        None => open_part(alloc, key, usage, cipher),
    }
}
