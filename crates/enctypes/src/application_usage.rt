//! Key usages of applications: RFC 4120, section 7.5.1.
ghost use Rattle.std.specs.Prelude.{◌≡◌, ◌≤◌, ◌<◌, ◌+◌, ◌↔◌, length, option_map, Some};
ghost use Rattle.std.specs.Prelude.{IfOk, IfSome, IfNone, IsSome, IsTrue};
ghost use Rattle.enctypes.specs.ApplicationUsage.{IsApplicationUsage};
ghost use Rattle.enctypes.specs.Etype.{mac_len};
ghost use Rattle.enctypes.specs.Sealing.{mac, seal, Opens, OpensNothing, opened};

use crate::checksums::checksum_key;
use crate::octets::are_same;
use crate::sealing_key::SealingKey;
use crate::{Key, Mac};
use std::alloc::{AllocError, Global};

/// A key usage of an application: a number from 1024 to 2047. Each usage has derived keys of its own.
///
/// With the key that they share after an AP exchange, two parties seal their messages and check those that come. Give
/// each kind of message a number of its own, and each direction another, so that one can't pass for another.
#[derive(Debug, Clone, Copy, PartialEq, Eq)]
pub struct ApplicationUsage {
    /// Its number, 1024 to 2047.
    pub number: u32,
    pub ghost in_range: { IsApplicationUsage number },
}

impl ApplicationUsage {
    /// Returns the usage with this number, if it is one of those that are reserved for applications.
    pub fn new(number: u32) -> Option<ApplicationUsage>
        // Promise (found, value): a usage of an application has a number from 1024 to 2047, and a key seals for it as
        // for any other usage.
        ensures found { IsSome result ↔ IsApplicationUsage number }
        ensures value { IfSome result (λ usage. usage.number ≡ number) }
    {
        if (1024..=2047).contains(&number) {
            Some(ApplicationUsage { number })
        } else {
            None
        }
    }

    /// Seals a text with a key for this usage: encrypts the confounder and the text, and appends the HMAC.
    ///
    /// The confounder must be random bytes that nobody else knows. The result is longer than the text by 16 bytes and
    /// the length of the HMAC. It allocates once, for the result.
    pub fn seal(
        self,
        alloc: Global,
        key: &Key,
        confounder: &[u8; 16],
        text: &[u8],
    ) -> Result<Vec<u8>, AllocError>
        // Promise (value, len, most, opens, opened), as ApplicationUsage::new: a usage of an ..
        ensures value { IfOk result (λ sealed. sealed.items
            ≡ seal key.now.etype key.now.bytes self.number confounder.now text.now) }
        ensures len { IfOk result (λ sealed.
            length sealed.items ≡ 16 + mac_len key.now.etype + length text.now) }
        ensures most { IfOk result (λ sealed. length sealed.items ≤ 40 + length text.now) }
        ensures opens { IfOk result (λ sealed.
            Opens key.now.etype key.now.bytes self.number sealed.items text.now) }
        ensures opened { IfOk result (λ sealed.
            opened key.now.etype key.now.bytes self.number sealed.items ≡ Some text.now) }
    {
        SealingKey::new(key, self.number).seal(alloc, confounder, text)
    }

    /// Opens a sealed text with a key for this usage. Returns `None` if no confounder and text can be sealed to this
    /// cipher with this key and usage.
    pub fn open(
        self,
        alloc: Global,
        key: &Key,
        cipher: &[u8],
    ) -> Result<Option<Vec<u8>>, AllocError>
        // Promise (value, opened, none, len, short): a key opens and checks for a usage of an application as for any
        // other usage.
        ensures value { IfOk result (λ found. option_map (λ text. text.items) found
            ≡ opened key.now.etype key.now.bytes self.number cipher.now) }
        ensures opened { IfOk result (λ found. IfSome found (λ text.
            Opens key.now.etype key.now.bytes self.number cipher.now text.items)) }
        ensures none { IfOk result (λ found. IfNone found
            (OpensNothing key.now.etype key.now.bytes self.number cipher.now)) }
        ensures len { IfOk result (λ found. IfSome found (λ text.
            length cipher.now ≡ 16 + mac_len key.now.etype + length text.items)) }
        ensures short { length cipher.now < 16 + mac_len key.now.etype → result ≡ Ok None }
    {
        SealingKey::new(key, self.number).open(alloc, cipher)
    }

    /// Returns the checksum of a text by a key for this usage, of the checksum type for the key's encryption type. It
    /// doesn't allocate.
    #[tactic(auto, unfolding(crate::specs::Sealing::mac))]
    pub fn checksum(self, key: &Key, text: &[u8]) -> Mac
        // Promise (value, len, most), as ApplicationUsage::open: a key opens and ..
        ensures value { result ≡ mac key.now.etype key.now.bytes self.number text.now }
        ensures len { length result ≡ mac_len key.now.etype }
        ensures most { length result ≤ 24 }
    {
        checksum_key(key, self.number).mac(&[text])
    }

    /// Checks whether the bytes are the checksum of the text by a key for this usage. It always compares all of them.
    pub fn verify(self, key: &Key, text: &[u8], octets: &[u8]) -> bool
        // Promise, as ApplicationUsage::open: a key opens and ..
        ensures { IsTrue result ↔ (octets.now ≡ mac key.now.etype key.now.bytes self.number text.now) }
    {
        are_same(octets, self.checksum(key, text).bytes())
    }
}
