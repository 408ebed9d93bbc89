//! Protocol keys (RFC 3961, section 3; RFC 4120, section 5.2.9, EncryptionKey).
ghost use Rattle.std.specs.Prelude.{◌≡◌, ◌↔◌, ◌<◌, All, length, take, IsSome, IfSome};
ghost use Rattle.enctypes.specs.Etype.{key_len};
ghost use Rattle.enctypes.specs.Key.{IsKey};

use crate::Etype;
use crate::short_octets::ShortOctets;
use std::fmt;
use std::marker::Model;

/// The maximum length of a protocol key or a derived key, in bytes.
pub const LONGEST: usize = 32;

/// A key of one encryption type, with the right length for it.
///
/// It owns no memory, so it can be copied like a number.
#[derive(Clone, Copy)]
pub struct Key {
    etype: Etype,
    octets: ShortOctets<LONGEST>,
}

impl Model for Key {
    ghost use Rattle.std.proofs.Common.{refl};
    ghost use Rattle.enctypes.specs.Key.{ProtocolKey, IsKey};

    ghost Value = { ProtocolKey };

    ghost view = { λ k. record { etype = k.etype; bytes = k.octets } };

    ghost invariant = { λ k. IsKey (record { etype = k.etype; bytes = k.octets }) };

    ghost inverse = { λ v. record { etype = v.etype; octets = v.bytes } };

    ghost inverse_ok = { λ k h. refl };
}

impl Key {
    /// Returns the key with these bytes, or `None` if the length is wrong for the encryption type.
    pub fn new(etype: Etype, octets: &[u8]) -> Option<Key>
        // Promise (some, key): a key is made exactly from as many bytes as its type requires, and returns these bytes.
        ensures some { IsSome result ↔ (length octets.now ≡ key_len etype) }
        ensures key { IfSome result (λ key. key ≡ record { etype = etype; bytes = octets.now }) }
    {
        if octets.len() != etype.key_len() {
            return None;
        }
        Some(Key::with_octets(etype, octets))
    }

    /// Returns the key for random bytes: the first of them, as many as the key has. Random bits are a key as they are
    /// (RFC 3962, section 6; RFC 8009, section 5).
    pub fn from_random(etype: Etype, octets: &[u8; 32]) -> Key
        // Promise, as string_to_key: the key from a ..
        ensures { result ≡ record { etype = etype; bytes = take (key_len etype) octets.now } }
    {
        Key::with_octets(etype, &octets[..etype.key_len()])
    }

    // Returns the key with these bytes, of the right length.
    pub(crate) fn with_octets(etype: Etype, octets: &[u8]) -> Key
        requires { length octets.now ≡ key_len etype }
        ensures { result ≡ record { etype = etype; bytes = octets.now } }
    {
        Key {
            etype,
            octets: ShortOctets::new(octets),
        }
    }

    /// Returns the encryption type.
    pub fn etype(&self) -> Etype
        // Promise (etype, valid), as Key::new: a key is made ..
        ensures etype { result ≡ self.now.etype }
        ensures valid { IsKey self.now }
    {
        self.etype
    }

    /// Returns the bytes, 16 or 32 by the encryption type.
    pub fn bytes(&self) -> &[u8]
        // Promise (bytes, len, octets), as Key::new: a key is made ..
        ensures bytes { result.now ≡ self.now.bytes }
        ensures len { length result.now ≡ key_len self.now.etype }
        ensures octets { All (λ b. b < 256) self.now.bytes }
    {
        self.octets.bytes()
    }
}

/// Debug output may end up in logs, so it shows only the encryption type.
impl fmt::Debug for Key {
    fn fmt<W: fmt::Write>(&self, f: &mut fmt::Formatter<W>) -> fmt::Result {
        f.debug_struct("Key")
            .field("etype", &self.etype)
            .finish_non_exhaustive()
    }
}
