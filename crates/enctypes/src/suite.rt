//! What an encryption type consists of: a profile of RFC 3961, section 3, with its numbers and sizes.
ghost use Rattle.std.specs.Prelude.{◌≡◌, ◌≤◌, ◌<◌, ◌+◌, ℕ, ℤ, Bool, List, All, OnOk, length};
ghost use Rattle.enctypes.specs.declared.etype.Etype as types;
ghost use Rattle.enctypes.specs.declared.hash.Hash as hashes;
ghost use Rattle.enctypes.specs.Etype.{mac_len};
ghost use Rattle.enctypes.specs.Sealed.{length-seal};
ghost use Rattle.enctypes.specs.OpenedLaws.{opens_what_was_sealed};
ghost use Rattle.enctypes.specs.Derivation.{derived, stretched};
ghost use Rattle.enctypes.specs.ReadyKey.{IsMacKey};
ghost use Rattle.enctypes.specs.Sealing.{seal, OpensWhatWasSealed};
ghost use Rattle.enctypes.specs.Suite.{AreConstants};

use crate::Etype;
use crate::hash::Hash;
use crate::mac_key::MacKey;
use std::alloc::{AllocError, Global};

/// An encryption type. There is one implementation for each of the four.
pub trait Suite {
    ghost ETYPE: { types.Etype };

    /// The encryption type.
    const ETYPE: Etype;

    ghost HASH: { hashes.Hash };

    /// The hash function. It also says how keys are derived.
    const HASH: Hash;

    ghost NUMBER: { ℤ };

    /// The number that IANA assigned to the encryption type.
    const NUMBER: i32;

    ghost KEY_SIZE: { ℕ };

    /// The size of a protocol key, and of Ke, in bytes.
    const KEY_SIZE: usize;

    ghost MAC_KEY_SIZE: { ℕ };

    /// The size of Kc and of Ki in bytes.
    const MAC_KEY_SIZE: usize;

    ghost MAC_SIZE: { ℕ };

    /// The size of a checksum, and of the HMAC at the end of a sealed text, in bytes.
    const MAC_SIZE: usize;

    ghost MACS_CIPHER: { Bool };

    /// Whether the HMAC of a sealed text covers the initial vector and the cipher rather than the plain text.
    const MACS_CIPHER: bool;

    ghost CHECKSUM_TYPE: { ℤ };

    /// The number of the checksum type for the encryption type.
    const CHECKSUM_TYPE: i32;

    ghost DEFAULT_COUNT: { ℕ };

    /// The default iteration count of string-to-key.
    const DEFAULT_COUNT: u32;

    /// Fills `out` with the bytes that a protocol key derives from a constant.
    #[tactic(auto, using(crate::specs::HashLaws::derived_is, crate::specs::HashLaws::key_sizes))]
    final fn derive(key: &[u8], constant: &[u8], out: &mut [u8])
        requires key { length key.now ≡ KEY_SIZE }
        requires constant { 0 < length constant.now }
        requires out { length out.old ≤ 32 }
        // Promise (value, len), as derive_both: the key derivation and ..
        ensures value { out.new ≡ derived ETYPE key.now constant.now (length out.old) }
        ensures len { length out.new ≡ length out.old }
    {
        Self::HASH.derive(key, constant, out)
    }

    /// Fills each output with the bytes that a protocol key derives from the constant before it. Work that depends only
    /// on the key is done once.
    #[tactic(auto, using(crate::specs::HashLaws::derived_is, crate::specs::HashLaws::key_sizes))]
    final fn derive_both(
        key: &[u8],
        constant: &[u8],
        out: &mut [u8],
        other_constant: &[u8],
        other_out: &mut [u8],
    )
        requires key { length key.now ≡ KEY_SIZE }
        requires constant { 0 < length constant.now }
        requires out { length out.old ≤ 32 }
        requires other_constant { 0 < length other_constant.now }
        requires other_out { length other_out.old ≤ 32 }
        // Promise (value, other_value), as derive_both: the key derivation and ..
        ensures value { out.new ≡ derived ETYPE key.now constant.now (length out.old) }
        ensures other_value { other_out.new ≡ derived ETYPE key.now other_constant.now (length other_out.old) }
    {
        Self::HASH.derive_both(key, constant, out, other_constant, other_out)
    }

    /// Fills `out` with the key that PBKDF2 derives from a password; string-to-key derives the protocol key from that.
    #[tactic(auto, using(crate::specs::HashLaws::stretched_is, crate::specs::HashLaws::key_most))]
    final fn stretch(
        alloc: Global,
        pass: &[u8],
        salt: &[u8],
        count: u32,
        out: &mut [u8],
    ) -> Result<(), AllocError>
        requires count { 1 ≤ count }
        requires out { length out.old ≡ KEY_SIZE }
        // Promise (value, len), as derive_both: the key derivation and ..
        ensures value { OnOk result (out.new ≡ stretched ETYPE pass.now salt.now count) }
        ensures len { length out.new ≡ length out.old }
    {
        Self::HASH.stretch(alloc, pass, salt, count, out)
    }

    /// Hashes a key for HMACs, with the hash function of the encryption type.
    fn mac_key(key: &[u8]) -> MacKey
        // Promise, as derive_both: the key derivation and ..
        ensures { IsMacKey ETYPE key.now result };

    // The constants are those of the standards.
    // Promise: each encryption type has the sizes and numbers of the tables; IANA's numbers in these are constants of
    // `numbers.rt`, which tests compare with literals.
    ghost constants: { AreConstants ETYPE HASH NUMBER KEY_SIZE MAC_KEY_SIZE MAC_SIZE MACS_CIPHER CHECKSUM_TYPE
        DEFAULT_COUNT };

    // A sealed text is longer than the text by 16 bytes and the size of the HMAC.
    // Promise (longer, opens): with each type a cipher opens to what was sealed to it and to nothing else.
    ghost longer: { (key : List ℕ) (usage : ℕ) (confounder text : List ℕ) → length confounder ≡ 16
        → length (seal ETYPE key usage confounder text) ≡ 16 + mac_len ETYPE + length text } = { length-seal ETYPE };

    // A cipher opens to the text that was sealed to it, and to nothing else.
    ghost opens: { (key : List ℕ) (usage : ℕ) → All (λ b. b < 256) key
        → OpensWhatWasSealed ETYPE key usage } = { opens_what_was_sealed ETYPE };
}
