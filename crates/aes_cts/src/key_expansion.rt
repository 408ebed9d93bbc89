//! The key expansion of FIPS 197, section 5.2.

ghost use Rattle.std.specs.Prelude.{◌≡◌, ◌≤◌, ◌<◌, ◌+◌, ◌*◌, length, take};
ghost use Rattle.aes_cts.specs.Cipher.{IsInverseSchedule};
ghost use Rattle.aes_cts.specs.Field.{power_of_x};
ghost use Rattle.aes_cts.specs.KeyExpansion.{key_expansion, nr_of, passed_on};
ghost use Rattle.aes_cts.specs.Words.{octets};
ghost use Rattle.std.specs.Int.{w32, to_be_bytes};

use crate::s_box::substitute;
use crate::words::{added, join_bytes, unmixed, word_at};

// The powers of x in the field, from x^0: the first bytes of the round constants.
const POWERS_OF_X: [u8; 14] = [
    0x01, 0x02, 0x04, 0x08, 0x10, 0x20, 0x40, 0x80, 0x1b, 0x36, 0x6c, 0xd8, 0xab, 0x4d,
];

fn power_of_x(exponent: usize) -> u8
    requires { exponent < 14 }
    ensures { result ≡ power_of_x exponent }
{
    POWERS_OF_X[exponent]
}

// Returns what the word before word i contributes to word i, for a key of N words.
fn passed_on<const N: usize>(word: u32, i: usize) -> u32
    requires some { 4 ≤ N }
    requires after { N ≤ i }
    requires few { i < 60 }
    ensures { to_be_bytes w32 result ≡ passed_on N i (to_be_bytes w32 word) }
{
    let [a, b, c, d] = word.to_be_bytes();
    if i % N == 0 {
        let first = substitute(b) ^ power_of_x(i / N - 1);
        join_bytes(first, substitute(c), substitute(d), substitute(a))
    } else if N > 6 && i % N == 4 {
        join_bytes(substitute(a), substitute(b), substitute(c), substitute(d))
    } else {
        word
    }
}

/// Returns the schedule of a key of N words, padded with zeros.
// N is a constant, so that no index into the schedule is divided by it at run time.
pub fn expand<const N: usize>(key: &[u8]) -> [u32; 60]
    requires some { 4 ≤ N }
    requires few { N ≤ 8 }
    requires key { length key.now ≡ 4 * N }
    ensures { take (16 * (nr_of key.now + 1)) (octets result) ≡ key_expansion key.now }
{
    let mut words = key_words::<N>(key);
    // The last word is kept apart, so that no word waits until the one before it is stored.
    let mut last = words[N - 1];
    for i in N..4 * (N + 7) {
        last = added(words[i - N], passed_on::<N>(last, i));
        words[i] = last;
    }
    words
}

// Returns the words of the key, padded with zeros.
fn key_words<const N: usize>(key: &[u8]) -> [u32; 60]
    requires few { N ≤ 8 }
    requires key { length key.now ≡ 4 * N }
    ensures { take (4 * N) (octets result) ≡ key.now }
{
    let mut words = [0; 60];
    for i in 0..N {
        words[i] = word_at(key, 4 * i);
    }
    words
}

/// Returns the decryption schedule: each round key except the first and the last goes through InvMixColumns (FIPS 197,
/// section 5.3.5).
pub fn inverse_schedule(schedule: &[u32; 60], round_count: usize) -> [u32; 60]
    requires some { 2 ≤ round_count }
    requires few { round_count < 15 }
    ensures { IsInverseSchedule (octets schedule.now) (octets result) round_count }
{
    let mut inverse = *schedule;
    for i in 4..4 * round_count {
        inverse[i] = unmixed(schedule[i]);
    }
    inverse
}
