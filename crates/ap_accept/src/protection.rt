//! Protects what client and service say after an AP exchange, with the key that they share.
ghost use Rattle.std.specs.Prelude.{◌≡◌, ◌≤◌, ◌<◌, ◌+◌, ◌↔◌, length, option_map, Some};
ghost use Rattle.std.specs.Prelude.{IfOk, IfSome, IfNone, IsTrue};
ghost use Rattle.enctypes.specs.Etype.{mac_len};
ghost use Rattle.enctypes.specs.Sealing.{mac, seal, Opens, OpensNothing, opened};
ghost use Rattle.ap_accept.specs.Protection.{shared_key};

use crate::accepted::Accepted;
use enctypes::{ApplicationUsage, Key, Mac};
use std::alloc::{AllocError, Global};

impl Accepted {
    /// Returns the key that client and service share: the client's subkey, or the session key if it chose none (RFC
    /// 4120, section 5.5.1).
    ///
    /// Both sides seal and check with it. So give each direction usages of its own. Otherwise a message can be sent
    /// back to the side that sent it. Nothing here numbers messages or finds one that is missing or repeated.
    pub fn shared_key(&self) -> &Key
        // Promise: later messages of both sides are sealed and opened with the client's subkey, or else with the
        // session key, for a usage.
        ensures { result.now ≡ shared_key self.now }
    {
        match &self.subkey {
            Some(key) => key,
            None => &self.session_key,
        }
    }

    /// Seals a text for the client with the shared key, as [`ApplicationUsage::seal`] does. The confounder must be
    /// random bytes that nobody else knows.
    pub fn seal(
        &self,
        alloc: Global,
        usage: ApplicationUsage,
        confounder: &[u8; 16],
        text: &[u8],
    ) -> Result<Vec<u8>, AllocError>
        // Promise (value, len, most, opened), as Accepted::shared_key: later messages of both ..
        ensures value { IfOk result (λ sealed. sealed.items
            ≡ seal (shared_key self.now).etype (shared_key self.now).bytes usage.number confounder.now text.now) }
        ensures len { IfOk result (λ sealed.
            length sealed.items ≡ 16 + mac_len (shared_key self.now).etype + length text.now) }
        ensures most { IfOk result (λ sealed. length sealed.items ≤ 40 + length text.now) }
        ensures opened { IfOk result (λ sealed.
            opened (shared_key self.now).etype (shared_key self.now).bytes usage.number sealed.items ≡ Some text.now) }
    {
        usage.seal(alloc, self.shared_key(), confounder, text)
    }

    /// Opens what the client sealed with the shared key, as [`ApplicationUsage::open`] does. Returns `None` if nothing
    /// can be sealed to this cipher with that key and usage.
    pub fn open(
        &self,
        alloc: Global,
        usage: ApplicationUsage,
        cipher: &[u8],
    ) -> Result<Option<Vec<u8>>, AllocError>
        // Promise (value, opened, none), as Accepted::shared_key: later messages of both ..
        ensures value { IfOk result (λ found. option_map (λ text. text.items) found
            ≡ opened (shared_key self.now).etype (shared_key self.now).bytes usage.number cipher.now) }
        ensures opened { IfOk result (λ found. IfSome found (λ text.
            Opens (shared_key self.now).etype (shared_key self.now).bytes usage.number cipher.now text.items)) }
        ensures none { IfOk result (λ found. IfNone found
            (OpensNothing (shared_key self.now).etype (shared_key self.now).bytes usage.number cipher.now)) }
    {
        usage.open(alloc, self.shared_key(), cipher)
    }

    /// Returns the checksum of a text by the shared key, of the checksum type for the key's encryption type.
    pub fn checksum(&self, usage: ApplicationUsage, text: &[u8]) -> Mac
        // Promise (value, len): checksums of later messages are made and checked with the same key.
        ensures value { result ≡ mac (shared_key self.now).etype (shared_key self.now).bytes usage.number text.now }
        ensures len { length result ≡ mac_len (shared_key self.now).etype }
    {
        usage.checksum(self.shared_key(), text)
    }

    /// Checks whether the bytes are the checksum of the text by the shared key.
    pub fn verify(&self, usage: ApplicationUsage, text: &[u8], octets: &[u8]) -> bool
        // Promise, as Accepted::checksum: checksums of later messages ..
        ensures { IsTrue result
            ↔ (octets.now ≡ mac (shared_key self.now).etype (shared_key self.now).bytes usage.number text.now) }
    {
        usage.verify(self.shared_key(), text, octets)
    }
}
