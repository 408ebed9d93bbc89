//! What sealing and opening derive from a key for a usage's number.
ghost use Rattle.std.specs.Prelude.{◌≡◌, ◌≤◌, ◌<◌, ◌+◌, ◌++◌, ℕ, List, length, option_map, Some, IfOk, IfSome, IfNone};
ghost use Rattle.std.specs.Prelude.{All};
ghost use Rattle.aes_cts.specs.Cts.{cts, cts_inverse};
ghost use Rattle.enctypes.specs.declared.etype.Etype as types;
ghost use Rattle.enctypes.specs.Etype.{key_len, mac_len};
ghost use Rattle.enctypes.specs.Key.{IsKey};
ghost use Rattle.enctypes.specs.Derivation.{ke, ki};
ghost use Rattle.enctypes.specs.ReadyKey.{IsMacKey};
ghost use Rattle.enctypes.specs.Sealing.{cut_hmac, zero_vector, macs_cipher, authenticated, seal};
ghost use Rattle.enctypes.specs.Sealing.{Opens, OpensNothing, opened};

use crate::aes_key::aes_key;
use crate::derivation::derive_both;
use crate::derived_key::DerivedKey;
use crate::key::LONGEST;
use crate::mac_key::MacKey;
use crate::octets::are_same;
use crate::purpose::{Purpose, usage_constant};
use crate::{Etype, Key, Mac};
use aes_cts::{AesKey, DecryptionSchedule};
use std::alloc::{AllocError, Global};
use std::marker::Model;

/// The length of the confounder, which is sealed before the text, in bytes.
const CONFOUNDER_LEN: usize = 16;

/// The initial cipher state.
const ZERO_VECTOR: [u8; 16] = [0; 16];

/// The key schedule of Ke and the hashed Ki, with the key and the usage's number from which they are derived.
///
/// Contracts see the key and the number. It owns no memory.
#[derive(Drop)]
pub struct SealingKey {
    key: Key,
    usage: u32,
    cipher: AesKey,
    // The decryption schedule of `cipher`, after `prepare_to_open`.
    decryption: Option<DecryptionSchedule>,
    integrity: MacKey,
}

impl Model for SealingKey {
    ghost use Rattle.enctypes.specs.ReadyKey as ready;

    ghost Value = { ready.SealingKey };

    ghost view = { λ r. record { key = r.key; usage = r.usage } };

    ghost invariant = { λ r. ready.IsReady r.key r.usage r.cipher r.decryption r.integrity };
}

impl SealingKey {
    /// Derives both from a key for a usage's number.
    pub fn new(key: &Key, usage: u32) -> SealingKey
        ensures ready { result ≡ record { key = key.now; usage = usage } }
        ensures octets { All (λ b. b < 256) key.now.bytes }
    {
        let (cipher, integrity) = sealing_keys(key.etype(), key.bytes(), usage);
        SealingKey {
            key: *key,
            usage,
            cipher,
            decryption: None,
            integrity: MacKey::new(key.etype(), integrity.bytes()),
        }
    }

    /// Prepares the key for opening too: each `open` takes less time after it.
    pub fn prepare_to_open(&mut self)
        ensures { self.new ≡ self.old }
    {
        if self.decryption.is_none() {
            self.decryption = Some(self.cipher.decryption_schedule());
        }
    }

    /// Returns the key.
    pub fn key(&self) -> &Key
        ensures { result.now ≡ self.now.key }
    {
        &self.key
    }

    /// Seals a text: encrypts the confounder and the text, and appends the HMAC.
    pub fn seal(
        &self,
        alloc: Global,
        confounder: &[u8; 16],
        text: &[u8],
    ) -> Result<Vec<u8>, AllocError>
        ensures value { IfOk result (λ sealed. sealed.items
            ≡ seal self.now.key.etype self.now.key.bytes self.now.usage confounder.now text.now) }
        ensures len { IfOk result (λ sealed.
            length sealed.items ≡ 16 + mac_len self.now.key.etype + length text.now) }
        ensures most { IfOk result (λ sealed. length sealed.items ≤ 40 + length text.now) }
        ensures opens { IfOk result (λ sealed.
            Opens self.now.key.etype self.now.key.bytes self.now.usage sealed.items text.now) }
        ensures opened { IfOk result (λ sealed.
            opened self.now.key.etype self.now.key.bytes self.now.usage sealed.items
            ≡ Some text.now) }
    {
        let mac_len = self.mac_len();
        let mut sealed = Vec::with_capacity(alloc, CONFOUNDER_LEN + text.len() + mac_len)?;
        sealed.extend_from_slice(confounder)?;
        sealed.extend_from_slice(text)?;
        let mac = self.encipher(&mut sealed);
        sealed.extend_from_slice(mac.bytes())?;
        Ok(sealed)
    }

    /// Opens a sealed text. It releases no byte of the text before the whole HMAC was compared.
    pub fn open(&self, alloc: Global, cipher: &[u8]) -> Result<Option<Vec<u8>>, AllocError>
        ensures value { IfOk result (λ found. option_map (λ text. text.items) found
            ≡ opened self.now.key.etype self.now.key.bytes self.now.usage cipher.now) }
        ensures opened { IfOk result (λ found. IfSome found (λ text.
            Opens self.now.key.etype self.now.key.bytes self.now.usage cipher.now text.items)) }
        ensures none { IfOk result (λ found. IfNone found
            (OpensNothing self.now.key.etype self.now.key.bytes self.now.usage cipher.now)) }
        ensures len { IfOk result (λ found. IfSome found (λ text.
            length cipher.now ≡ 16 + mac_len self.now.key.etype + length text.items)) }
        ensures short { length cipher.now < 16 + mac_len self.now.key.etype → result ≡ Ok None }
    {
        let mac_len = self.mac_len();
        if cipher.len() < CONFOUNDER_LEN + mac_len {
            return Ok(None);
        }
        let (enciphered, mac) = cipher.split_at(cipher.len() - mac_len);
        let mut text = Vec::with_capacity(alloc, enciphered.len())?;
        text.extend_from_slice(enciphered)?;
        let expected = self.decipher(&mut text);
        if !are_same(expected.bytes(), mac) {
            return Ok(None);
        }
        text.copy_within(CONFOUNDER_LEN.., 0);
        text.truncate(enciphered.len() - CONFOUNDER_LEN);
        Ok(Some(text))
    }

    // Returns the length of the HMAC at the end of a sealed text, in bytes.
    fn mac_len(&self) -> usize
        ensures value { result ≡ mac_len self.now.key.etype }
        ensures most { result ≤ 24 }
        ensures valid { IsKey self.now.key }
    {
        self.key.etype().mac_len()
    }

    // Encrypts confounder and text in place, and returns the HMAC for the end of the sealed text.
    fn encipher(&self, text: &mut [u8]) -> Mac
        requires { 16 ≤ length text.old }
        ensures value { text.new
            ≡ cts (ke self.now.key.etype self.now.key.bytes self.now.usage) zero_vector text.old }
        ensures mac { result ≡ cut_hmac self.now.key.etype
            (ki self.now.key.etype self.now.key.bytes self.now.usage)
            (authenticated (macs_cipher self.now.key.etype) text.old text.new) }
    {
        if self.key.etype().macs_cipher() {
            self.cipher.cts_encrypt(&ZERO_VECTOR, text);
            cipher_mac(&self.integrity, text)
        } else {
            let mac = plain_mac(&self.integrity, text);
            self.cipher.cts_encrypt(&ZERO_VECTOR, text);
            mac
        }
    }

    // Decrypts confounder and text in place, and returns the HMAC that the sealed text must end with.
    fn decipher(&self, text: &mut [u8]) -> Mac
        requires { 16 ≤ length text.old }
        ensures value { text.new
            ≡ cts_inverse (ke self.now.key.etype self.now.key.bytes self.now.usage) zero_vector
            text.old }
        ensures mac { result ≡ cut_hmac self.now.key.etype
            (ki self.now.key.etype self.now.key.bytes self.now.usage)
            (authenticated (macs_cipher self.now.key.etype) text.new text.old) }
    {
        if self.key.etype().macs_cipher() {
            let mac = cipher_mac(&self.integrity, text);
            self.decrypt(text);
            mac
        } else {
            self.decrypt(text);
            plain_mac(&self.integrity, text)
        }
    }

    // Decrypts confounder and text in place.
    fn decrypt(&self, text: &mut [u8])
        requires { 16 ≤ length text.old }
        ensures { text.new
            ≡ cts_inverse (ke self.now.key.etype self.now.key.bytes self.now.usage) zero_vector
            text.old }
    {
        match &self.decryption {
            Some(schedule) => self.cipher.cts_decrypt_under(schedule, &ZERO_VECTOR, text),
            None => self.cipher.cts_decrypt(&ZERO_VECTOR, text),
        }
    }
}

// Derives Ke, as an AES key, and Ki.
fn sealing_keys(etype: Etype, key: &[u8], usage: u32) -> (AesKey, DerivedKey)
    requires { length key.now ≡ key_len etype }
    ensures encryption { result.0 ≡ ke etype key.now usage }
    ensures integrity { result.1 ≡ ki etype key.now usage }
{
    let mut encryption = [0; LONGEST];
    let mut integrity = [0; LONGEST];
    let encryption = &mut encryption[..etype.key_len()];
    let integrity = &mut integrity[..etype.mac_key_len()];
    derive_both(
        etype,
        key,
        &usage_constant(usage, Purpose::Encryption),
        encryption,
        &usage_constant(usage, Purpose::Integrity),
        integrity,
    );
    (aes_key(encryption), DerivedKey::new(integrity))
}

// Returns the HMAC of confounder and text (RFC 3961, section 5.3).
fn plain_mac(integrity: &MacKey, text: &[u8]) -> Mac
    ensures { (etype : types.Etype) (key : List ℕ) → IsMacKey etype key integrity.now
        → result ≡ cut_hmac etype key text.now }
{
    integrity.mac(&[text])
}

// Returns the HMAC of the initial cipher state and the cipher (RFC 8009, section 5).
fn cipher_mac(integrity: &MacKey, text: &[u8]) -> Mac
    ensures { (etype : types.Etype) (key : List ℕ) → IsMacKey etype key integrity.now
        → result ≡ cut_hmac etype key (zero_vector ++ text.now) }
{
    integrity.mac(&[&ZERO_VECTOR, text])
}
