//! Keys derived from passwords: string-to-key (RFC 3962, section 4; RFC 8009, section 4).
ghost use Rattle.std.specs.Prelude.{◌≡◌, ◌≤◌, IfOk};
ghost use Rattle.enctypes.specs.Derivation.{string_key};

use crate::derivation::{derive, stretch};
use crate::key::LONGEST;
use crate::{Etype, Key};
use std::alloc::{AllocError, Global};

/// The constant from which a password's key is derived.
const KERBEROS: &[u8; 8] = b"kerberos";

/// Derives the key for a password, a salt and an iteration count. For encryption types 19 and 20 it allocates once, for
/// the salt with the name of the encryption type.
pub fn string_to_key(
    alloc: Global,
    etype: Etype,
    pass: &[u8],
    salt: &[u8],
    count: u32,
) -> Result<Key, AllocError>
    requires { 1 ≤ count }
    // Promise: the key from a password is that of the definition, for a count of at least 1; random bytes are a key as
    // they are.
    ensures { IfOk result (λ key. key
        ≡ record { etype = etype; bytes = string_key etype pass.now salt.now count }) }
{
    let mut stretched = [0; LONGEST];
    let stretched = &mut stretched[..etype.key_len()];
    stretch(alloc, etype, pass, salt, count, stretched)?;
    let mut octets = [0; LONGEST];
    let octets = &mut octets[..etype.key_len()];
    derive(etype, stretched, KERBEROS, octets);
    Ok(Key::with_octets(etype, octets))
}
