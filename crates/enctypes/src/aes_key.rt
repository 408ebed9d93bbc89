//! AES keys.
ghost use Rattle.std.specs.Prelude.{◌≡◌, ◌⊎◌, length};

use aes_cts::AesKey;

/// Returns the AES key with these bytes, 16 or 32.
pub fn aes_key(octets: &[u8]) -> AesKey
    requires { (length octets.now ≡ 16) ⊎ (length octets.now ≡ 32) }
    ensures { result ≡ octets.now }
{
    match AesKey::new(octets) {
        Some(key) => key,
        None => unreachable!(),
    }
}
