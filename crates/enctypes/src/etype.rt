//! The four supported encryption types.
ghost use Rattle.std.specs.Prelude.{◌≡◌, ◌≢◌, ◌≤◌, IfSome, IfNone};
ghost use Rattle.enctypes.specs.Etype.{number, key_len, mac_key_len, mac_len, checksum_type, default_count};
ghost use Rattle.enctypes.specs.Sealing.{macs_cipher};

use crate::aes_sha1::{Aes128CtsHmacSha1_96, Aes256CtsHmacSha1_96};
use crate::aes_sha2::{Aes128CtsHmacSha256_128, Aes256CtsHmacSha384_192};
use crate::suite::Suite;

/// An encryption type of RFC 3962 or RFC 8009.
#[derive(Debug, Clone, Copy, PartialEq, Eq)]
pub enum Etype {
    /// aes128-cts-hmac-sha1-96 (RFC 3962, section 7).
    Aes128CtsHmacSha1_96,
    /// aes256-cts-hmac-sha1-96 (RFC 3962, section 7).
    Aes256CtsHmacSha1_96,
    /// aes128-cts-hmac-sha256-128 (RFC 8009, section 5).
    Aes128CtsHmacSha256_128,
    /// aes256-cts-hmac-sha384-192 (RFC 8009, section 5).
    Aes256CtsHmacSha384_192,
}

/// The constants of an encryption type. The calls of `Etype` say what each is.
#[derive(Clone, Copy)]
struct Constants {
    number: i32,
    key_len: usize,
    mac_key_len: usize,
    mac_len: usize,
    macs_cipher: bool,
    checksum_type: i32,
    default_count: u32,
}

impl Etype {
    /// Returns the constants of the encryption type's implementation.
    #[inline(always)]
    fn constants(self) -> Constants
        ensures row { result ≡ record {
          number = number self;
          key_len = key_len self;
          mac_key_len = mac_key_len self;
          mac_len = mac_len self;
          macs_cipher = macs_cipher self;
          checksum_type = checksum_type self;
          default_count = default_count self;
        } }
        ensures mac { result.mac_len ≤ 24 }
        ensures count { 1 ≤ result.default_count }
    {
        match self {
            Etype::Aes128CtsHmacSha1_96 => suite_constants::<Aes128CtsHmacSha1_96>(),
            Etype::Aes256CtsHmacSha1_96 => suite_constants::<Aes256CtsHmacSha1_96>(),
            Etype::Aes128CtsHmacSha256_128 => suite_constants::<Aes128CtsHmacSha256_128>(),
            Etype::Aes256CtsHmacSha384_192 => suite_constants::<Aes256CtsHmacSha384_192>(),
        }
    }

    /// Returns the encryption type's number in messages.
    pub fn number(self) -> i32
        // Promise, as Suite: each encryption type has ..
        ensures { result ≡ number self }
    {
        self.constants().number
    }

    /// Returns the encryption type with this number, if it is one of the four.
    pub fn from_number(etype: i32) -> Option<Etype>
        // Promise (named, none): an encryption type is found by its number, and no other number names one.
        ensures named { IfSome result (λ e. number e ≡ etype) }
        ensures none { IfNone result ((e : Etype) → number e ≢ etype) }
    {
        match etype {
            Aes128CtsHmacSha1_96::NUMBER => Some(Etype::Aes128CtsHmacSha1_96),
            Aes256CtsHmacSha1_96::NUMBER => Some(Etype::Aes256CtsHmacSha1_96),
            Aes128CtsHmacSha256_128::NUMBER => Some(Etype::Aes128CtsHmacSha256_128),
            Aes256CtsHmacSha384_192::NUMBER => Some(Etype::Aes256CtsHmacSha384_192),
            _ => None,
        }
    }

    /// Returns the length of a protocol key, and of Ke, in bytes: 16 or 32.
    pub fn key_len(self) -> usize
        // Promise, as Suite: each encryption type has ..
        ensures { result ≡ key_len self }
    {
        self.constants().key_len
    }

    // Returns the length of Kc and of Ki in bytes.
    pub(crate) fn mac_key_len(self) -> usize
        ensures { result ≡ mac_key_len self }
    {
        self.constants().mac_key_len
    }

    /// Returns the length of a checksum, and of the HMAC at the end of a sealed text, in bytes.
    pub fn mac_len(self) -> usize
        // Promise (value, most), as Suite: each encryption type has ..
        ensures value { result ≡ mac_len self }
        ensures most { result ≤ 24 }
    {
        self.constants().mac_len
    }

    // Checks whether the HMAC of a sealed text covers the initial vector and the cipher rather than the plain text.
    pub(crate) fn macs_cipher(self) -> bool
        ensures { result ≡ macs_cipher self }
    {
        self.constants().macs_cipher
    }

    /// Returns the number of the checksum type for the encryption type (RFC 3962, section 7; RFC 8009, section 6).
    pub fn checksum_type(self) -> i32
        // Promise, as Suite: each encryption type has ..
        ensures { result ≡ checksum_type self }
    {
        self.constants().checksum_type
    }

    /// Returns the default iteration count of string-to-key (RFC 3962, section 4; RFC 8009, section 4).
    pub fn default_count(self) -> u32
        // Promise (value, some), as Suite: each encryption type has ..
        ensures value { result ≡ default_count self }
        ensures some { 1 ≤ result }
    {
        self.constants().default_count
    }
}

/// Returns the constants of an implementation.
#[inline(always)]
fn suite_constants<S: Suite>() -> Constants
    ensures { result ≡ record {
      number = number S.ETYPE;
      key_len = key_len S.ETYPE;
      mac_key_len = mac_key_len S.ETYPE;
      mac_len = mac_len S.ETYPE;
      macs_cipher = macs_cipher S.ETYPE;
      checksum_type = checksum_type S.ETYPE;
      default_count = default_count S.ETYPE;
    } }
{
    Constants {
        number: S::NUMBER,
        key_len: S::KEY_SIZE,
        mac_key_len: S::MAC_KEY_SIZE,
        mac_len: S::MAC_SIZE,
        macs_cipher: S::MACS_CIPHER,
        checksum_type: S::CHECKSUM_TYPE,
        default_count: S::DEFAULT_COUNT,
    }
}
