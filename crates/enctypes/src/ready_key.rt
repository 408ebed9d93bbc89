//! Prepared keys: everything that sealing and opening derive from a key, derived once.
ghost use Rattle.std.specs.Prelude.{◌≡◌, ◌≤◌, ◌<◌, ◌+◌, ◌↔◌, All, length};
ghost use Rattle.std.specs.Prelude.{option_map, Some, IfOk, IfSome, IfNone, IsTrue};
ghost use Rattle.enctypes.specs.Etype.{mac_len};
ghost use Rattle.enctypes.specs.KeyUsage.{usage_number};
ghost use Rattle.enctypes.specs.Sealing.{seal, Opens, OpensNothing, opened};

use crate::octets::are_same;
use crate::sealing_key::SealingKey;
use crate::{Etype, Key, KeyUsage};
use std::alloc::{AllocError, Global};
use std::fmt;
use std::marker::Model;

/// A key prepared for sealing and opening with one usage: it holds the key schedule of Ke and the hashed Ki.
///
/// Contracts see the key and the usage. It owns no memory.
#[derive(Drop)]
pub struct ReadyKey {
    usage: KeyUsage,
    derived: SealingKey,
}

impl Model for ReadyKey {
    ghost use Rattle.std.specs.Prelude.{◌≡◌};
    ghost use Rattle.enctypes.specs.KeyUsage.{usage_number};
    ghost use Rattle.enctypes.specs.ReadyKey as ready;

    ghost Value = { ready.ReadyKey };

    ghost view = { λ r. record { key = r.derived.key; usage = r.usage } };

    ghost invariant = { λ r. r.derived.usage ≡ usage_number r.usage };
}

impl ReadyKey {
    /// Prepares a key for a usage.
    pub fn new(key: &Key, usage: KeyUsage) -> ReadyKey
        // Promise: a prepared key encrypts as the key itself does for its usage.
        ensures ready { result ≡ record { key = key.now; usage = usage } }
        ensures octets { All (λ b. b < 256) key.now.bytes }
    {
        ReadyKey {
            usage,
            derived: SealingKey::new(key, usage.number()),
        }
    }

    /// Prepares the key for opening too: each `open` takes less time after it.
    pub fn prepare_to_open(&mut self)
        // Promise, as ReadyKey::open: a prepared key decrypts ..
        ensures { self.new ≡ self.old }
    {
        self.derived.prepare_to_open();
    }

    /// Returns the encryption type of the key.
    pub fn etype(&self) -> Etype
        // Promise, as ReadyKey::is_for: a prepared key is ..
        ensures { result ≡ self.now.key.etype }
    {
        self.derived.key().etype()
    }

    /// Checks whether it is this key, prepared for this usage. It always compares all bytes.
    pub fn is_for(&self, key: &Key, usage: KeyUsage) -> bool
        // Promise: a prepared key is used for a key only if the type, the bytes and the usage are the same.
        ensures { IsTrue result ↔ (self.now ≡ record { key = key.now; usage = usage }) }
    {
        let own = self.derived.key();
        self.usage == usage && own.etype() == key.etype() && are_same(own.bytes(), key.bytes())
    }

    /// Seals a text, like `seal` with this key and usage.
    pub fn seal(
        &self,
        alloc: Global,
        confounder: &[u8; 16],
        text: &[u8],
    ) -> Result<Vec<u8>, AllocError>
        // Promise (value, len, most, opens, opened), as ReadyKey::new: a prepared key encrypts ..
        ensures value { IfOk result (λ sealed. sealed.items
            ≡ seal self.now.key.etype self.now.key.bytes (usage_number self.now.usage) confounder.now text.now) }
        ensures len { IfOk result (λ sealed.
            length sealed.items ≡ 16 + mac_len self.now.key.etype + length text.now) }
        ensures most { IfOk result (λ sealed. length sealed.items ≤ 40 + length text.now) }
        ensures opens { IfOk result (λ sealed.
            Opens self.now.key.etype self.now.key.bytes (usage_number self.now.usage) sealed.items text.now) }
        ensures opened { IfOk result (λ sealed.
            opened self.now.key.etype self.now.key.bytes (usage_number self.now.usage) sealed.items
            ≡ Some text.now) }
    {
        self.derived.seal(alloc, confounder, text)
    }

    /// Opens a sealed text, like `open` with this key and usage.
    pub fn open(&self, alloc: Global, cipher: &[u8]) -> Result<Option<Vec<u8>>, AllocError>
        // Promise (value, opened, none, len, short): a prepared key decrypts as the key itself does for its usage, also
        // after `prepare_to_open`.
        ensures value { IfOk result (λ found. option_map (λ text. text.items) found
            ≡ opened self.now.key.etype self.now.key.bytes (usage_number self.now.usage) cipher.now) }
        ensures opened { IfOk result (λ found. IfSome found (λ text.
            Opens self.now.key.etype self.now.key.bytes (usage_number self.now.usage) cipher.now text.items)) }
        ensures none { IfOk result (λ found. IfNone found
            (OpensNothing self.now.key.etype self.now.key.bytes (usage_number self.now.usage) cipher.now)) }
        ensures len { IfOk result (λ found. IfSome found (λ text.
            length cipher.now ≡ 16 + mac_len self.now.key.etype + length text.items)) }
        ensures short { length cipher.now < 16 + mac_len self.now.key.etype → result ≡ Ok None }
    {
        self.derived.open(alloc, cipher)
    }
}

/// Debug output may end up in logs, so it shows only the encryption type and the usage.
impl fmt::Debug for ReadyKey {
    fn fmt<W: fmt::Write>(&self, f: &mut fmt::Formatter<W>) -> fmt::Result {
        f.debug_struct("ReadyKey")
            .field("key", self.derived.key())
            .field("usage", &self.usage)
            .finish_non_exhaustive()
    }
}
