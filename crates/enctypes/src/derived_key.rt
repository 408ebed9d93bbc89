//! Keys derived from a protocol key for one usage.
ghost use Rattle.std.specs.Prelude.{◌≡◌, ◌≤◌, length};
ghost use Rattle.enctypes.specs.Etype.{key_len};
ghost use Rattle.enctypes.specs.Derivation.{derived_key, derived_len};

use crate::Etype;
use crate::derivation::derive;
use crate::key::LONGEST;
use crate::purpose::{Purpose, usage_constant};
use crate::short_octets::ShortOctets;

/// A key derived from a protocol key.
pub type DerivedKey = ShortOctets<LONGEST>;

/// Derives a key from a protocol key for a usage and a purpose.
pub fn derived_key(etype: Etype, key: &[u8], usage: u32, purpose: Purpose) -> DerivedKey
    requires { length key.now ≡ key_len etype }
    ensures { result ≡ derived_key etype key.now usage purpose }
{
    let mut octets = [0; LONGEST];
    let octets = &mut octets[..derived_len(etype, purpose)];
    derive(etype, key, &usage_constant(usage, purpose), octets);
    DerivedKey::new(octets)
}

// Returns the length of the derived key in bytes.
fn derived_len(etype: Etype, purpose: Purpose) -> usize
    ensures len { result ≡ derived_len etype purpose }
    ensures most { result ≤ 32 }
{
    match purpose {
        Purpose::Encryption => etype.key_len(),
        Purpose::Checksum | Purpose::Integrity => etype.mac_key_len(),
    }
}
