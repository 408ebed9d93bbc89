//! A cache of recently used keys.
ghost use Rattle.std.specs.Prelude.{◌≡◌, ◌<◌, ◌≤◌, ◌+◌, ◌^◌, length, Some, IfOk, IfSome, IsTrue, ◌↔◌};
ghost use Rattle.enctypes.specs.KeyUsage.{usage_number};
ghost use Rattle.enctypes.specs.Sealing.{mac};
ghost use Rattle.encrypted_data.specs.Encrypted.{encrypted, decrypted};
ghost use Rattle.encrypted_data.specs.Parts.{IsSpelledWithin, opened_as};

use crate::encrypting::{PartKey, encrypt_with, encrypted};
use crate::places::{Places, made_ready, make_ready};
use crate::{open_part, open_with};
use enctypes::{Key, KeyUsage, ReadyChecksum, ReadyKey, verify};
use krb_elements::{Encode, ReadOwned};
use krb_fields::EncryptedData;
use std::alloc::{AllocError, Global};
use std::cell::RefMut;
use std::fmt;
use std::hash::{DefaultHasher, Hasher};

/// A cache of recently used keys, each prepared for one usage. Most requests use keys that were used shortly before.
/// Each key has a fixed place and evicts the one that was there. The places come from a hash with a secret. So nobody
/// can choose a key that shares a place with another one, and learn about that key from the time that its use takes.
///
/// It affects speed only: each use checks that the place holds this key for this usage. So contracts don't see its
/// contents.
#[derive(Drop)]
pub struct ReadyKeys {
    for_parts: Places<ReadyKey>,
    for_checksums: Places<ReadyChecksum>,
    // The hash that has taken in the secret, and nothing else.
    secret: DefaultHasher,
}

impl ReadyKeys {
    /// Returns an empty cache, with room for all keys that it will hold. Its places have no secret yet.
    pub fn new(alloc: Global) -> Result<ReadyKeys, AllocError> {
        Ok(ReadyKeys {
            for_parts: Places::new(alloc)?,
            for_checksums: Places::new(alloc)?,
            secret: DefaultHasher::new(),
        })
    }

    /// Places keys by this secret from now on: 16 random bytes.
    pub fn place_by(&mut self, secret: &[u8; 16]) {
        let mut hasher = DefaultHasher::new();
        hasher.write(secret);
        self.secret = hasher;
    }

    /// Decrypts like `open_part`, faster if the key is in the cache for this usage. Afterwards the key is there.
    pub fn open_part<T: ReadOwned>(
        &self,
        alloc: Global,
        key: &Key,
        usage: KeyUsage,
        cipher: &[u8],
    ) -> Result<Option<T>, AllocError>
        // Promise (value, within), as ReadyKeys::encrypted: the cache of recently ..
        ensures value { IfOk result (λ found. found
            ≡ opened_as T.codec key.now.etype key.now.bytes (usage_number usage) cipher.now) }
        ensures within { IfOk result (λ found. IfSome found (λ part. IsSpelledWithin T.codec part cipher.now)) }
    {
        if let Some(mut place) = self.borrow_place(key, usage) {
            if let Some(ready) = made_ready_to_open(&mut place, key, usage) {
                return open_with(alloc, ready, cipher);
            }
        }
        open_part(alloc, key, usage, cipher)
    }

    /// Encrypts like `encrypted`, faster if the key is in the cache for this usage. Afterwards the key is there.
    pub fn encrypted<T: Encode>(
        &self,
        alloc: Global,
        key: &PartKey,
        confounder: &[u8; 16],
        part: &T,
    ) -> Result<EncryptedData, AllocError>
        requires { length (T.codec.text part.now) < 2 ^ 32 }
        // Promise (value, opens, most): the cache of recently used keys never changes what is encrypted or decrypted,
        // or which checksum is right.
        ensures value { IfOk result (λ sealed. sealed
            ≡ encrypted T.codec key.now.key (usage_number key.now.usage) key.now.kvno confounder.now part.now) }
        ensures opens { IfOk result (λ sealed.
            decrypted T.codec key.now.key (usage_number key.now.usage) sealed ≡ Some part.now) }
        ensures most { IfOk result (λ sealed. length sealed.cipher ≤ 46 + length (T.codec.text part.now)) }
    {
        if let Some(mut place) = self.borrow_place(&key.key, key.usage) {
            if let Some(ready) = made_ready(&mut place, &key.key, key.usage) {
                return encrypt_with(alloc, ready, key.kvno, confounder, part);
            }
        }
        encrypted(alloc, key, confounder, part)
    }

    /// Checks a checksum like `verify`, faster if the key is in the cache for checksums of this usage. Afterwards the
    /// key is there.
    pub fn verify(&self, key: &Key, usage: KeyUsage, text: &[u8], octets: &[u8]) -> bool
        // Promise, as ReadyKeys::encrypted: the cache of recently ..
        ensures { IsTrue result
            ↔ (octets.now ≡ mac key.now.etype key.now.bytes (usage_number usage) text.now) }
    {
        if let Some(mut place) = self.for_checksums.borrow_place(&self.secret, key, usage) {
            if let Some(ready) = made_ready(&mut place, key, usage) {
                return ready.verify(text, octets);
            }
        }
        verify(key, usage, text, octets)
    }

    /// Returns the place of a key for the encrypted parts of a usage. Returns `None` while it is in use, and for a
    /// subkey, which a client chooses for one request only.
    fn borrow_place(&self, key: &Key, usage: KeyUsage) -> Option<RefMut<'_, Option<ReadyKey>>> {
        if usage == KeyUsage::TgsRepEncPartSubkey {
            return None;
        }
        self.for_parts.borrow_place(&self.secret, key, usage)
    }
}

/// Debug output may end up in logs, so it shows no key.
impl fmt::Debug for ReadyKeys {
    fn fmt<W: fmt::Write>(&self, f: &mut fmt::Formatter<W>) -> fmt::Result {
        f.debug_struct("ReadyKeys").finish_non_exhaustive()
    }
}

/// Returns the key prepared for opening with this usage, after putting it in this place if it isn't there.
fn made_ready_to_open<'p>(
    place: &'p mut Option<ReadyKey>,
    key: &Key,
    usage: KeyUsage,
) -> Option<&'p ReadyKey>
    ensures { IfSome result (λ ready. ready.now ≡ record { key = key.now; usage = usage }) }
{
    make_ready(place, key, usage);
    let ready = place.as_mut()?;
    ready.prepare_to_open();
    Some(ready)
}
