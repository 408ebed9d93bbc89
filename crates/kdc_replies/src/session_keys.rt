//! Session keys.
ghost use Rattle.std.specs.Prelude.{◌≡◌};
ghost use Rattle.kdc_replies.specs.Grant.{session_key};

use enctypes::{Etype, Key};

/// Returns a session key of this encryption type. It is the first random bytes, as many as the key has, unchanged.
pub fn session_key(etype: Etype, random: &[u8; 64]) -> Key
    // Promise: a session key is the first random bytes; `service_terms` returns what a service's row has for the
    // requested encryption types.
    ensures { result ≡ session_key etype random.now }
{
    let mut octets = [0; 32];
    octets.copy_from_slice(&random[..32]);
    Key::from_random(etype, &octets)
}
