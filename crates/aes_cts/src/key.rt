//! AES keys, and the block cipher.

ghost use Rattle.std.specs.Prelude.{◌≡◌, ◌≤◌, ◌⊎◌, ◌↔◌, ◌*◌, ◌%◌, IsSome, IfSome, length};
ghost use Rattle.aes_cts.specs.Cipher.{aes, aes_inverse, IsInverseSchedule, PermutesBlocks};
ghost use Rattle.aes_cts.specs.KeyExpansion.{key_expansion, nr_of};
ghost use Rattle.aes_cts.specs.Words.{octets};

use crate::cipher::{cipher, inverse_cipher};
use crate::key_expansion::{expand, inverse_schedule};
use crate::words::{join_words, split_block};
use std::marker::Model;

/// A key for AES-128 or AES-256, with its schedule of round keys. Contracts see the key's bytes.
#[derive(Drop)]
pub struct AesKey {
    // The words after the round keys of a 16-byte key are not used.
    schedule: [u32; 60],
    key_words: usize,
}

impl Model for AesKey {
    ghost use Rattle.std.specs.Prelude.{ℕ, List, ◌*◌, take, ◌+◌};

    ghost Value = { List ℕ };

    ghost use Rattle.aes_cts.specs.KeyExpansion.{IsSchedule};
    ghost use Rattle.aes_cts.specs.Words.{octets};

    ghost view = { λ k. take (4 * k.key_words) (octets k.schedule) };

    ghost invariant = { λ k. IsSchedule (octets k.schedule) k.key_words };
}

/// The schedule of round keys for decryption with a key. Contracts see the bytes of its words.
#[derive(Drop)]
pub struct DecryptionSchedule {
    pub(crate) words: [u32; 60],
}

impl Model for DecryptionSchedule {
    ghost use Rattle.std.specs.Prelude.{ℕ, List};
    ghost use Rattle.aes_cts.specs.Words.{octets};

    ghost Value = { List ℕ };

    ghost view = { λ s. octets s.words };
}

impl AesKey {
    /// Returns the key with these bytes: 16 for AES-128, 32 for AES-256, and `None` for any other length.
    pub fn new(octets: &[u8]) -> Option<AesKey>
        // Promise (some, key): a key is made exactly from 16 or 32 bytes; each word of the rounds' tables is a column
        // of a matrix times a byte of the S-box or of its inverse.
        ensures some { IsSome result ↔ ((length octets.now ≡ 16) ⊎ (length octets.now ≡ 32)) }
        ensures key { IfSome result (λ key. key ≡ octets.now) }
    {
        match octets.len() {
            16 => Some(AesKey::of_words::<4>(octets)),
            32 => Some(AesKey::of_words::<8>(octets)),
            _ => None,
        }
    }

    // Returns the key with these bytes, N words.
    fn of_words<const N: usize>(octets: &[u8]) -> AesKey
        requires some { 4 ≤ N }
        requires few { N ≤ 8 }
        requires even { N % 4 ≡ 0 }
        requires octets { length octets.now ≡ 4 * N }
        ensures { result ≡ octets.now }
    {
        AesKey {
            schedule: expand::<N>(octets),
            key_words: N,
        }
    }

    /// Encrypts a block (FIPS 197, section 5.1).
    pub fn encrypt_block(&self, block: &[u8; 16]) -> [u8; 16]
        // Promise (value, inverse, permutes): a block is encrypted and decrypted by the definition, and under this key
        // each undoes the other.
        ensures value { result ≡ aes self.now block.now }
        ensures inverse { aes_inverse self.now result ≡ block.now }
        ensures permutes { PermutesBlocks self.now }
    {
        let mut state = split_block(block);
        self.encipher(&mut state);
        join_words(&state)
    }

    // Encrypts the block with these words.
    #[inline(always)]
    pub(crate) fn encipher(&self, state: &mut [u32; 4])
        ensures value { octets state.new ≡ aes self.now (octets state.old) }
        ensures permutes { PermutesBlocks self.now }
    {
        let round_count = self.key_words + 6;
        cipher(state, &self.schedule[..4 * (round_count + 1)], round_count);
    }

    /// Decrypts a block (FIPS 197, section 5.3).
    pub fn decrypt_block(&self, block: &[u8; 16]) -> [u8; 16]
        // Promise (value, inverse, permutes), as AesKey::encrypt_block: a block is encrypted ..
        ensures value { result ≡ aes_inverse self.now block.now }
        ensures inverse { aes self.now result ≡ block.now }
        ensures permutes { PermutesBlocks self.now }
    {
        self.decrypt_under(&self.inverse_schedule(), block)
    }

    /// Returns the decryption schedule. `cts_decrypt_under` takes it, so that it is made once for many texts.
    pub fn decryption_schedule(&self) -> DecryptionSchedule
        ensures { IsInverseSchedule (key_expansion self.now) result (nr_of self.now) }
    {
        DecryptionSchedule {
            words: self.inverse_schedule(),
        }
    }

    // Returns the words of the decryption schedule.
    pub(crate) fn inverse_schedule(&self) -> [u32; 60]
        ensures { IsInverseSchedule (key_expansion self.now) (octets result) (nr_of self.now) }
    {
        inverse_schedule(&self.schedule, self.key_words + 6)
    }

    // Decrypts a block with the decryption schedule.
    pub(crate) fn decrypt_under(&self, inverse_schedule: &[u32; 60], block: &[u8; 16]) -> [u8; 16]
        requires { IsInverseSchedule (key_expansion self.now) (octets inverse_schedule.now) (nr_of self.now) }
        ensures value { result ≡ aes_inverse self.now block.now }
        ensures inverse { aes self.now result ≡ block.now }
        ensures permutes { PermutesBlocks self.now }
    {
        let mut state = split_block(block);
        self.decipher(inverse_schedule, &mut state);
        join_words(&state)
    }

    // Decrypts the block with these words, with the decryption schedule.
    #[inline(always)]
    pub(crate) fn decipher(&self, inverse_schedule: &[u32; 60], state: &mut [u32; 4])
        requires { IsInverseSchedule (key_expansion self.now) (octets inverse_schedule.now) (nr_of self.now) }
        ensures value { octets state.new ≡ aes_inverse self.now (octets state.old) }
        ensures permutes { PermutesBlocks self.now }
    {
        let round_count = self.key_words + 6;
        inverse_cipher(
            state,
            &inverse_schedule[..4 * (round_count + 1)],
            round_count,
        );
    }
}
