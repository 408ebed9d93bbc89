//! The encrypted parts of messages (RFC 4120, section 5.2.9): values encoded and encrypted, or decrypted and decoded.
//!
//! ```
//! let cipher = seal_part(alloc, &key, KeyUsage::PaEncTimestamp, &confounder, &part)?;
//! let found: Option<PaEncTsEnc> = open_part(alloc, &key, KeyUsage::PaEncTimestamp, &cipher)?; // of `krb_types`
//!
//! let ready = ReadyKeys::new(alloc)?; // faster for a key that is used again
//! let found: Option<PaEncTsEnc> = ready.open_part(alloc, &key, KeyUsage::PaEncTimestamp, &cipher)?;
//! ```
//!
//! [`encrypted`] returns an EncryptedData, which also names the encryption type and the key version.
//! [`supported_key`] and [`key_part`] convert a key from and to the EncryptionKey of a message.
//!
//! Nothing here chooses a key or a key usage, or draws a confounder: the caller supplies them. `enctypes` encrypts and
//! decrypts the bytes.
#![tactic(auto)]

mod encrypting;
mod keys;
mod places;
mod ready_keys;

ghost use Rattle.std.specs.Prelude.{◌≡◌, ◌<◌, ◌≤◌, ◌+◌, ◌^◌, length, Some, IfOk, IfSome};
ghost use Rattle.krb_elements.specs.Codec.{written};
ghost use Rattle.enctypes.specs.KeyUsage.{usage_number};
ghost use Rattle.enctypes.specs.Sealing.{seal};
ghost use Rattle.encrypted_data.specs.Parts.{IsSpelledWithin, opened_as};

pub use encrypting::{PartKey, encrypt_with, encrypted};
use enctypes::{Key, KeyUsage, ReadyKey};
pub use keys::{key_part, supported_key, type_numbered};
use krb_elements::{Encode, Fault, ReadOwned, read_owned, write};
pub use ready_keys::ReadyKeys;
use std::alloc::{AllocError, Global};

/// Encrypts the encoding of a value. `confounder` is 16 random bytes.
pub fn seal_part<T: Encode>(
    alloc: Global,
    key: &Key,
    usage: KeyUsage,
    confounder: &[u8; 16],
    part: &T,
) -> Result<Vec<u8>, AllocError>
    requires { length (T.codec.text part.now) < 2 ^ 32 }
    // Promise (value, opens), as seal_with: a value in a ..
    ensures value { IfOk result (λ cipher. cipher.items
        ≡ seal key.now.etype key.now.bytes (usage_number usage) confounder.now (written T.codec part.now)) }
    // The same key decrypts it to the value again.
    ensures opens { IfOk result (λ cipher.
        opened_as T.codec key.now.etype key.now.bytes (usage_number usage) cipher.items ≡ Some part.now) }
    // Promise, as seal_with: the cipher of an ..
    ensures most { IfOk result (λ cipher. length cipher.items ≤ 46 + length (T.codec.text part.now)) }
{
    seal_with(alloc, &ReadyKey::new(key, usage), confounder, part)
}

/// Encrypts like `seal_part`, with a prepared key.
pub fn seal_with<T: Encode>(
    alloc: Global,
    ready: &ReadyKey,
    confounder: &[u8; 16],
    part: &T,
) -> Result<Vec<u8>, AllocError>
    requires { length (T.codec.text part.now) < 2 ^ 32 }
    // Promise (value, opens): a value in a message, with contents of fewer than 2^32 bytes, is encrypted to a cipher
    // that decrypts to it; an EncryptedData names the key's type and version.
    ensures value { IfOk result (λ cipher. cipher.items
        ≡ seal ready.now.key.etype ready.now.key.bytes (usage_number ready.now.usage) confounder.now
        (written T.codec part.now)) }
    ensures opens { IfOk result (λ cipher.
        opened_as T.codec ready.now.key.etype ready.now.key.bytes (usage_number ready.now.usage) cipher.items
        ≡ Some part.now) }
    // Promise: the cipher of an encrypted value is at most 46 bytes longer than its encoding.
    ensures most { IfOk result (λ cipher. length cipher.items ≤ 46 + length (T.codec.text part.now)) }
{
    let text = write(alloc, part)?;
    ready.seal(alloc, confounder, &text)
}

/// Decrypts a value. Returns `None` if the key doesn't decrypt the cipher to the encoding of one.
pub fn open_part<T: ReadOwned>(
    alloc: Global,
    key: &Key,
    usage: KeyUsage,
    cipher: &[u8],
) -> Result<Option<T>, AllocError>
    // Promise (value, within), as open_with: a value is returned ..
    ensures value { IfOk result (λ found. found
        ≡ opened_as T.codec key.now.etype key.now.bytes (usage_number usage) cipher.now) }
    // Its encoding is no longer than the cipher.
    ensures within { IfOk result (λ found. IfSome found (λ part. IsSpelledWithin T.codec part cipher.now)) }
{
    open_with(alloc, &ReadyKey::new(key, usage), cipher)
}

/// Decrypts like `open_part`, with a prepared key.
pub fn open_with<T: ReadOwned>(
    alloc: Global,
    ready: &ReadyKey,
    cipher: &[u8],
) -> Result<Option<T>, AllocError>
    // Promise (value, within): a value is returned exactly if the cipher decrypts to the encoding of one, which has no
    // more bytes than the cipher.
    ensures value { IfOk result (λ found. found
        ≡ opened_as T.codec ready.now.key.etype ready.now.key.bytes (usage_number ready.now.usage) cipher.now) }
    ensures within { IfOk result (λ found. IfSome found (λ part. IsSpelledWithin T.codec part cipher.now)) }
{
    let Some(text) = ready.open(alloc, cipher)? else {
        return Ok(None);
    };
    match read_owned(alloc, &text) {
        Ok(part) => Ok(Some(part)),
        Err(Fault::Der(_)) => Ok(None),
        Err(Fault::Memory) => Err(AllocError),
    }
}
