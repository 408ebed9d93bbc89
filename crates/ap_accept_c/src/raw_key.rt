//! Keys as C hands them over.
ghost use Rattle.std.specs.Prelude.{◌≡◌, ◌≤◌, Some, length, take};
ghost use Rattle.ap_accept_c.specs.Protection.{key_in};

use encrypted_data::{supported_key, type_numbered};
use enctypes::Key;

/// The `struct ap_key` of the header.
#[repr(C)]
#[derive(Clone, Copy)]
pub struct RawKey {
    /// The number of its encryption type.
    pub number: i32,
    /// Its bytes come first. The rest doesn't count.
    pub octets: [u8; 32],
}

impl RawKey {
    /// Returns this key as C sees it, with zeros after its bytes.
    pub fn of(key: &Key) -> RawKey
        ensures { key_in result.number result.octets ≡ Some key.now }
    {
        RawKey {
            number: key.etype().number(),
            octets: filled(key.bytes()),
        }
    }

    /// Returns the key, if there is an encryption type with its number.
    pub fn key(&self) -> Option<Key>
        ensures { result ≡ key_in self.now.number self.now.octets }
    {
        let etype = type_numbered(self.number)?;
        supported_key(self.number, &self.octets[..etype.key_len()])
    }
}

/// Returns an array that begins with these bytes, at most 32. The others are zeros.
fn filled(octets: &[u8]) -> [u8; 32]
    requires { length octets.now ≤ 32 }
    ensures { take (length octets.now) result ≡ octets.now }
{
    let mut all = [0; 32];
    all[..octets.len()].copy_from_slice(octets);
    all
}
