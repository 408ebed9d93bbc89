//! Keys prepared for checksums: what a checksum derives from a key, derived once.
ghost use Rattle.std.specs.Prelude.{◌≡◌, ◌↔◌, ℕ, List, IsTrue};
ghost use Rattle.enctypes.specs.declared.etype.Etype as types;
ghost use Rattle.enctypes.specs.KeyUsage.{usage_number};
ghost use Rattle.enctypes.specs.ReadyKey.{IsMacKey};
ghost use Rattle.enctypes.specs.Sealing.{cut_hmac, mac};

use crate::checksums::checksum_key;
use crate::mac_key::MacKey;
use crate::octets::are_same;
use crate::{Key, KeyUsage, Mac};
use std::fmt;
use std::marker::Model;

/// A key prepared for the checksums of one usage: it holds the hashed Kc.
///
/// Contracts see the key and the usage. It owns no memory.
#[derive(Drop)]
pub struct ReadyChecksum {
    key: Key,
    usage: KeyUsage,
    hashed: MacKey,
}

impl Model for ReadyChecksum {
    ghost use Rattle.enctypes.specs.KeyUsage.{usage_number};
    ghost use Rattle.enctypes.specs.Derivation.{kc};
    ghost use Rattle.enctypes.specs.ReadyKey as ready;

    ghost Value = { ready.ReadyKey };

    ghost view = { λ r. record { key = r.key; usage = r.usage } };

    ghost invariant = { λ r. ready.IsMacKey r.key.etype (kc r.key.etype r.key.bytes (usage_number r.usage)) r.hashed };
}

impl ReadyChecksum {
    /// Prepares a key for a usage.
    pub fn new(key: &Key, usage: KeyUsage) -> ReadyChecksum
        // Promise: a prepared key checks checksums as the key itself does for its usage.
        ensures { result ≡ record { key = key.now; usage = usage } }
    {
        ReadyChecksum {
            key: *key,
            usage,
            hashed: checksum_key(key, usage.number()),
        }
    }

    /// Checks whether it is this key, prepared for this usage. It always compares all bytes.
    pub fn is_for(&self, key: &Key, usage: KeyUsage) -> bool
        // Promise, as ReadyKey::is_for: a prepared key is ..
        ensures { IsTrue result ↔ (self.now ≡ record { key = key.now; usage = usage }) }
    {
        self.usage == usage
            && self.key.etype() == key.etype()
            && are_same(self.key.bytes(), key.bytes())
    }

    /// Checks whether the bytes are the checksum of the text, like `verify` with this key and usage.
    pub fn verify(&self, text: &[u8], octets: &[u8]) -> bool
        // Promise, as ReadyChecksum::new: a prepared key checks ..
        ensures { IsTrue result
            ↔ (octets.now ≡ mac self.now.key.etype self.now.key.bytes (usage_number self.now.usage) text.now) }
    {
        are_same(octets, self.checksum(text).bytes())
    }

    // Returns the checksum of a text.
    #[tactic(auto, unfolding(crate::specs::Sealing::mac))]
    fn checksum(&self, text: &[u8]) -> Mac
        ensures { result ≡ mac self.now.key.etype self.now.key.bytes (usage_number self.now.usage) text.now }
    {
        text_mac(&self.hashed, text)
    }
}

/// Debug output may end up in logs, so it shows only the encryption type and the usage.
impl fmt::Debug for ReadyChecksum {
    fn fmt<W: fmt::Write>(&self, f: &mut fmt::Formatter<W>) -> fmt::Result {
        f.debug_struct("ReadyChecksum")
            .field("key", &self.key)
            .field("usage", &self.usage)
            .finish_non_exhaustive()
    }
}

// Returns the HMAC of a text.
fn text_mac(hashed: &MacKey, text: &[u8]) -> Mac
    ensures { (etype : types.Etype) (key : List ℕ) → IsMacKey etype key hashed.now
        → result ≡ cut_hmac etype key text.now }
{
    hashed.mac(&[text])
}
