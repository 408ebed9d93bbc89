//! EncryptedData (RFC 4120, section 5.2.9).
ghost use Rattle.std.specs.Prelude.{◌≡◌, ◌<◌, ◌≤◌, ◌+◌, ◌^◌, length, Some, IfOk};
ghost use Rattle.enctypes.specs.KeyUsage.{usage_number};
ghost use Rattle.encrypted_data.specs.Encrypted.{encrypted, decrypted};

use crate::seal_with;
use enctypes::{Key, KeyUsage, ReadyKey};
use krb_elements::{Encode, Octets, UInt32};
use krb_fields::EncryptedData;
use std::alloc::{AllocError, Global};

/// The key of an encrypted part of a message.
#[derive(Clone, Copy)]
pub struct PartKey {
    /// The key, with its encryption type.
    pub key: Key,
    /// The key usage (RFC 4120, section 7.5.1).
    pub usage: KeyUsage,
    /// The key version that the message names, if it names one.
    pub kvno: Option<UInt32>,
}

/// Encrypts a value. `confounder` is 16 random bytes.
pub fn encrypted<T: Encode>(
    alloc: Global,
    key: &PartKey,
    confounder: &[u8; 16],
    part: &T,
) -> Result<EncryptedData, AllocError>
    requires { length (T.codec.text part.now) < 2 ^ 32 }
    // Promise (value, opens), as seal_with: a value in a ..
    ensures value { IfOk result (λ sealed. sealed
        ≡ encrypted T.codec key.now.key (usage_number key.now.usage) key.now.kvno confounder.now part.now) }
    ensures opens { IfOk result (λ sealed.
        decrypted T.codec key.now.key (usage_number key.now.usage) sealed ≡ Some part.now) }
    // Promise, as seal_with: the cipher of an ..
    ensures most { IfOk result (λ sealed. length sealed.cipher ≤ 46 + length (T.codec.text part.now)) }
{
    let ready = ReadyKey::new(&key.key, key.usage);
    encrypt_with(alloc, &ready, key.kvno, confounder, part)
}

/// Encrypts like `encrypted`, with a prepared key.
pub fn encrypt_with<T: Encode>(
    alloc: Global,
    ready: &ReadyKey,
    kvno: Option<UInt32>,
    confounder: &[u8; 16],
    part: &T,
) -> Result<EncryptedData, AllocError>
    requires { length (T.codec.text part.now) < 2 ^ 32 }
    // Promise (value, opens), as seal_with: a value in a ..
    ensures value { IfOk result (λ sealed. sealed
        ≡ encrypted T.codec ready.now.key (usage_number ready.now.usage) kvno confounder.now part.now) }
    ensures opens { IfOk result (λ sealed.
        decrypted T.codec ready.now.key (usage_number ready.now.usage) sealed ≡ Some part.now) }
    // Promise, as seal_with: the cipher of an ..
    ensures most { IfOk result (λ sealed. length sealed.cipher ≤ 46 + length (T.codec.text part.now)) }
{
    let cipher = seal_with(alloc, ready, confounder, part)?;
    Ok(EncryptedData {
        etype: ready.etype().number(),
        kvno,
        cipher: Octets::new(cipher),
    })
}
