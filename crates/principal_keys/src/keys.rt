//! Makes new keys: one of each requested encryption type, in that order.
ghost use Rattle.std.specs.Prelude.{◌≡◌, IfOk, OnOk, ◌++◌, ◌∷◌, [], map};
ghost use Rattle.principal_keys.specs.Keys.{drawn_key, drawn_keys, password_key, seeded};
ghost use Rattle.rand_core.specs.Stream.{fill_bytes};

use enctypes::{Etype, Key, string_to_key};
use principal_rows::KeyList;
use rand_chacha::ChaCha20Rng;
use rand_core::{Rng, SeedableRng};
use std::alloc::{AllocError, Global};

/// Derives keys from a password (RFC 3961, section 5, string-to-key) with this salt and the default iteration counts,
/// for these encryption types: at least one, and none twice.
pub fn password_keys(
    alloc: Global,
    etypes: &[Etype],
    pass: &[u8],
    salt: &[u8],
) -> Result<KeyList, AllocError>
    // Promise: the keys from a password are those of string-to-key with the default iteration counts, for the requested
    // encryption types in their order; the default types are 18, 17, 20 and 19.
    ensures { IfOk result (λ keys. keys ≡ map (password_key pass.now salt.now) etypes.now) }
{
    let mut keys = Vec::new(alloc);
    for etype in etypes {
        keys.push(password_key(alloc, *etype, pass, salt)?)?;
    }
    list_of(alloc, &keys)
}

fn password_key(alloc: Global, etype: Etype, pass: &[u8], salt: &[u8]) -> Result<Key, AllocError>
    ensures { IfOk result (λ key. key ≡ password_key pass.now salt.now etype) }
{
    string_to_key(alloc, etype, pass, salt, etype.default_count())
}

/// Makes random keys for these encryption types: at least one, and none twice. ChaCha20 with this seed yields 32 bytes
/// for each key in turn, and the first of them are the key.
pub fn random_keys(alloc: Global, etypes: &[Etype], seed: [u8; 32]) -> Result<KeyList, AllocError>
    // Promise: each random key is the first bytes of the next 32 that ChaCha20 yields with the seed.
    ensures { IfOk result (λ keys. keys ≡ drawn_keys (seeded seed) etypes.now) }
{
    let mut rng = ChaCha20Rng::from_seed(seed);
    draw_keys(alloc, etypes, &mut rng)
}

fn draw_keys<R: Rng>(alloc: Global, etypes: &[Etype], rng: &mut R) -> Result<KeyList, AllocError>
    ensures { IfOk result (λ keys. keys ≡ drawn_keys (R.stream rng.old) etypes.now) }
{
    let mut keys = Vec::new(alloc);
    for etype in etypes {
        keys.push(draw_key(rng, *etype))?;
    }
    list_of(alloc, &keys)
}

fn draw_key<R: Rng>(rng: &mut R, etype: Etype) -> Key
    ensures key { result ≡ drawn_key (R.stream rng.old) etype }
    ensures drawn { R.stream rng.new ≡ (fill_bytes 32 (R.stream rng.old)).1 }
{
    let mut octets = [0; 32];
    rng.fill_bytes(&mut octets);
    Key::from_random(etype, &octets)
}

/// Returns the list of these keys. Their encryption types are at least one and none twice, so only memory can run out.
fn list_of(alloc: Global, keys: &[Key]) -> Result<KeyList, AllocError>
    ensures { IfOk result (λ list. list ≡ keys.now) }
{
    match KeyList::new(alloc, keys) {
        Ok(list) => Ok(list),
        Err(_) => Err(AllocError),
    }
}
