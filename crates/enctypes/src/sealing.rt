//! Sealing and opening: encryption with integrity protection (RFC 3961, section 5.3; RFC 8009, section 5).
ghost use Rattle.std.specs.Prelude.{◌≡◌, ◌≤◌, ◌<◌, ◌+◌, length, option_map, Some, IfOk, IfSome, IfNone};
ghost use Rattle.enctypes.specs.Etype.{mac_len};
ghost use Rattle.enctypes.specs.KeyUsage.{usage_number};
ghost use Rattle.enctypes.specs.Sealing.{seal};
ghost use Rattle.enctypes.specs.Sealing.{Opens, OpensNothing, OpensAtMostOne, opened, OpensWhatWasSealed};

use crate::{Key, KeyUsage, ReadyKey};
use std::alloc::{AllocError, Global};

/// Seals a text: encrypts the confounder and the text, and appends the HMAC.
///
/// The confounder must be random bytes that nobody else knows. The result is longer than the text by 16 bytes and the
/// length of the HMAC. It allocates once, for the result.
pub fn seal(
    alloc: Global,
    key: &Key,
    usage: KeyUsage,
    confounder: &[u8; 16],
    text: &[u8],
) -> Result<Vec<u8>, AllocError>
    // Promise (value, len, most, opens, opened): an encrypted text is that of the definition, and decrypts to the text.
    // It is longer than the text by 16 bytes and the length of the HMAC, at most 40 together.
    ensures value { IfOk result (λ sealed. sealed.items
        ≡ seal key.now.etype key.now.bytes (usage_number usage) confounder.now text.now) }
    ensures len { IfOk result (λ sealed.
        length sealed.items ≡ 16 + mac_len key.now.etype + length text.now) }
    ensures most { IfOk result (λ sealed. length sealed.items ≤ 40 + length text.now) }
    ensures opens { IfOk result (λ sealed.
        Opens key.now.etype key.now.bytes (usage_number usage) sealed.items text.now) }
    ensures opened { IfOk result (λ sealed.
        opened key.now.etype key.now.bytes (usage_number usage) sealed.items ≡ Some text.now) }
{
    ReadyKey::new(key, usage).seal(alloc, confounder, text)
}

/// Opens a sealed text. Returns `None` if no confounder and text can be sealed to this cipher with this key and usage.
///
/// It allocates once, for the confounder and the text. It releases no byte of the text before the whole HMAC was
/// compared.
#[tactic(auto, using(crate::specs::OpenedLaws::opens_what_was_sealed, crate::specs::OpenedLaws::opens_at_most_one))]
pub fn open(
    alloc: Global,
    key: &Key,
    usage: KeyUsage,
    cipher: &[u8],
) -> Result<Option<Vec<u8>>, AllocError>
    // Promise (value, one, law): decryption is a function of key, usage and cipher; it decrypts what was encrypted, and
    // nothing else; a cipher is that of at most one text.
    ensures value { IfOk result (λ found. option_map (λ text. text.items) found
        ≡ opened key.now.etype key.now.bytes (usage_number usage) cipher.now) }
    // Promise (opened, none): a text is returned exactly if some confounder encrypts it to this cipher.
    ensures opened { IfOk result (λ found. IfSome found (λ text.
        Opens key.now.etype key.now.bytes (usage_number usage) cipher.now text.items)) }
    ensures none { IfOk result (λ found. IfNone found
        (OpensNothing key.now.etype key.now.bytes (usage_number usage) cipher.now)) }
    ensures one { OpensAtMostOne key.now.etype key.now.bytes (usage_number usage) cipher.now }
    // Promise, as seal: an encrypted text is ..
    ensures len { IfOk result (λ found. IfSome found (λ text.
        length cipher.now ≡ 16 + mac_len key.now.etype + length text.items)) }
    // Promise: if the cipher is shorter than 16 bytes and an HMAC, the result is `None`, even if memory runs out.
    ensures short { length cipher.now < 16 + mac_len key.now.etype → result ≡ Ok None }
    ensures law { OpensWhatWasSealed key.now.etype key.now.bytes (usage_number usage) }
{
    ReadyKey::new(key, usage).open(alloc, cipher)
}
