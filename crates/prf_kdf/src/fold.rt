//! The n-fold of RFC 3961, section 5.1.
//!
//! Usage constants, which all have the same length, are folded to a block by a fast path: their copies are added as
//! whole numbers. Their length is a constant, so the compiler knows how far each copy is rotated. In all other cases
//! the copies are never stored: each byte is computed from the input when it is added. Indices into the copies are
//! `u128`, since they may exceed a `usize`.

ghost use Rattle.std.specs.Prelude.{◌≡◌, ◌<◌, ◌≤◌, ◌+◌, ◌*◌, ◌%◌, ◌^◌, length};
ghost use Rattle.std.specs.Int.{IsGcd};
ghost use Rattle.prf_kdf.specs.Fold.{number, octets_of, octet_of_copies, piece_of_copies, n_fold};
ghost use Rattle.prf_kdf.specs.Fold.{rotate_right, end_around_carry};

// The length of a usage constant (RFC 3961, section 5.3) in bytes, and in bits.
const CONSTANT_LEN: usize = 5;

const CONSTANT_BITS: u32 = 40;

// The length of a block in bytes. It is also the least number of copies of a five-byte constant that fill whole blocks.
const BLOCK_LEN: usize = 16;

/// Fills `out` with the n-fold of the input, where n is the length of `out` in bits (RFC 3961, section 5.1). It takes
/// copies of the input, each rotated right by 13 bits more than the one before, up to the least common multiple of both
/// lengths. It cuts them into pieces as long as `out`, and adds these as big-endian numbers with end-around carry.
pub fn n_fold(input: &[u8], out: &mut [u8])
    requires input { 0 < length input.now }
    requires out { 0 < length out.old }
    // Promise, as hmac_sha1: HMAC, PBKDF2, n-fold and ..
    ensures { out.new ≡ n_fold input.now (length out.old) }
{
    if input.len() == CONSTANT_LEN && out.len() == BLOCK_LEN {
        out.copy_from_slice(&fold_to_block(input).to_be_bytes());
    } else {
        fold_by_pieces(input, out);
    }
}

// Returns the n-fold of a usage constant to a block, as a number. With end-around carry 2^128 counts as 1, so the
// copies need not be cut into pieces. For each copy it rotates the total left by the bits of a copy, and adds the copy.
fn fold_to_block(input: &[u8]) -> u128
    requires { length input.now ≡ 5 }
    ensures { octets_of 16 result ≡ n_fold input.now 16 }
{
    let word = word_of(input);
    let mut total = 0;
    let mut turn = 0;
    for copy in 0..BLOCK_LEN {
        total = sum_around(
            u128::rotate_left(total, CONSTANT_BITS),
            turned_right(word, CONSTANT_BITS, turn),
        );
        turn = next_turn(turn, CONSTANT_BITS);
    }
    total
}

// Returns the number that the bytes spell.
fn word_of(octets: &[u8]) -> u64
    requires { length octets.now ≡ 5 }
    ensures value { result ≡ number octets.now }
    ensures below { number octets.now < 2 ^ (8 * length octets.now) }
{
    let mut word = 0;
    for i in 0..CONSTANT_LEN {
        word = word * 256 + u64::from(octets[i]);
    }
    word
}

// Rotates a number of this many bits to the right.
fn turned_right(word: u64, bits: u32, turn: u32) -> u128
    requires bits { bits ≤ 64 }
    requires turn { turn < bits }
    requires word { word < 2 ^ bits }
    ensures { result ≡ rotate_right bits turn word }
{
    let word = u128::from(word);
    let twice = word << bits | word;
    twice >> turn & ((1 << bits) - 1)
}

// Returns how far the next copy is rotated.
fn next_turn(turn: u32, bits: u32) -> u32
    requires bits { bits ≤ 64 }
    requires turn { turn < bits }
    ensures { result ≡ (turn + 13) % bits }
{
    let sum = turn + 13 % bits;
    if sum < bits { sum } else { sum - bits }
}

// Adds with end-around carry.
fn sum_around(a: u128, b: u128) -> u128
    ensures { result ≡ end_around_carry 128 (a + b) }
{
    let (sum, carry) = a.overflowing_add(b);
    if carry { sum + 1 } else { sum }
}

// Folds an input of any length to any length.
fn fold_by_pieces(input: &[u8], out: &mut [u8])
    requires input { 0 < length input.now }
    requires out { 0 < length out.old }
    ensures { out.new ≡ n_fold input.now (length out.old) }
{
    out.fill(0);
    let pieces = input.len() / gcd(input.len(), out.len());
    for piece in 0..pieces {
        let start = out.len() as u128 * piece as u128;
        let carry = add_piece(out, input, start);
        add_carry(out, carry);
    }
}

// Returns the greatest common divisor.
fn gcd(mut a: usize, mut b: usize) -> usize
    ensures { IsGcd a b result }
{
    while b != 0 {
        (a, b) = (b, a % b);
    }
    a
}

// Adds the piece of the copies that starts at byte `start` to the total, as numbers, and returns the carry.
fn add_piece(total: &mut [u8], input: &[u8], start: u128) -> u8
    requires input { 0 < length input.now }
    requires start { start + length total.old ≤ length input.now * 2 ^ 64 }
    ensures bound { result ≤ 1 }
    ensures below { number total.new < 2 ^ (8 * length total.old) }
    ensures sum { result * 2 ^ (8 * length total.old) + number total.new
        ≡ number total.old + number (piece_of_copies input.now start (length total.old)) }
{
    let mut carry = 0;
    for i in (0..total.len()).rev() {
        let sum = u16::from(total[i])
            + u16::from(octet_of_copies(input, start + i as u128))
            + carry;
        total[i] = (sum % 256) as u8;
        carry = sum / 256;
    }
    carry as u8
}

// Adds the carry to the total, as numbers.
fn add_carry(total: &mut [u8], carry: u8)
    requires bound { carry ≤ 1 }
    requires fits { number total.old + carry < 2 ^ (8 * length total.old) }
    ensures { number total.new ≡ number total.old + carry }
{
    let mut carry = u16::from(carry);
    for i in (0..total.len()).rev() {
        let sum = u16::from(total[i]) + carry;
        total[i] = (sum % 256) as u8;
        carry = sum / 256;
    }
}

// Returns byte `at` of the concatenated copies of the input, each rotated right by 13 bits more than the one before.
fn octet_of_copies(input: &[u8], at: u128) -> u8
    requires input { 0 < length input.now }
    requires at { at < length input.now * 2 ^ 64 }
    ensures { result ≡ octet_of_copies input.now at }
{
    let len = input.len();
    let turn = 13 * (at / len as u128) % (8 * len as u128);
    let place = at % len as u128;
    // The byte is taken from the input written twice, where no byte of a copy is split. This many bits follow it there.
    let behind = turn + 8 * (len as u128 - 1 - place);
    let last = 2 * len - 1 - (behind / 8) as usize;
    let pair = u16::from(input[(last - 1) % len]) * 256 + u16::from(input[last % len]);
    ((pair >> (behind % 8)) % 256) as u8
}
