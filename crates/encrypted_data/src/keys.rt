//! Keys in messages.
ghost use Rattle.std.specs.Prelude.{◌≡◌, ◌≤◌, length, IfOk};
ghost use Rattle.enctypes.specs.Numbered.{type_numbered};
ghost use Rattle.encrypted_data.specs.Keys.{key_of, key_part};

use enctypes::{Etype, Key};
use krb_elements::Octets;
use krb_fields::Typed;
use std::alloc::{AllocError, Global};

/// Returns the encryption type that a message names, if it is one of the four supported ones.
pub fn type_numbered(number: i32) -> Option<Etype>
    // Promise, as supported_key: a key in a ..
    ensures { result ≡ type_numbered number }
{
    Etype::from_number(number)
}

/// Returns the key in an EncryptionKey (RFC 4120, section 5.2.9), or `None` if its encryption type isn't supported or
/// its length is wrong for it.
pub fn supported_key(number: i32, octets: &[u8]) -> Option<Key>
    // Promise: a key in a message is returned exactly if its number is that of one of the four types and its length is
    // right for it; an EncryptionKey that is made of a key has its number and bytes.
    ensures { result ≡ key_of number octets.now }
{
    Key::new(type_numbered(number)?, octets)
}

/// Returns the EncryptionKey that holds the key.
pub fn key_part(alloc: Global, key: &Key) -> Result<Typed, AllocError>
    // Promise (value, short), as supported_key: a key in a ..
    ensures value { IfOk result (λ part. part ≡ key_part key.now) }
    ensures short { length key.now.bytes ≤ 32 }
{
    Ok(Typed {
        number: key.etype().number(),
        octets: Octets::from_slice(alloc, key.bytes())?,
    })
}
