//! The rounds of FIPS 197 on words: a column of the state is a word, most significant byte first. A table of
//! `column_words` has the contribution of a byte in a column's first row. The matrices are circulant, so for each
//! further row the same word is rotated right by a byte. The table holds each word twice, in 64 bits, so that a shift
//! rotates it.

ghost use Rattle.std.specs.Prelude.{◌≡◌, ◌<◌, ◌≤◌, ◌+◌, ◌-◌, ◌↔◌, ◌++◌, IsSome, IfSome, take, drop};
ghost use Rattle.std.specs.Prelude.{[], ◌∷◌, length, bit_xor, slice_index, if◌then◌else◌, nat_lt};
ghost use Rattle.std.specs.Int.{w32, to_be_bytes};
ghost use Rattle.aes_cts.specs.SBox.{s_box, inverse_s_box};
ghost use Rattle.aes_cts.specs.State.{row_times, sub_bytes, shift_rows, mix_columns};
ghost use Rattle.aes_cts.specs.State.{add_round_key, inverse_sub_bytes, inverse_shift_rows, inverse_mix_columns};
ghost use Rattle.aes_cts.specs.Words.{octets, word, mix_column, inverse_mix_column, turned_column, turned_by};
ghost use Rattle.aes_cts.specs.Words.{mixed_cells, added_cells, added_word, unmixed_cells};
ghost use Rattle.aes_cts.specs.Cts.{xor_blocks};

use crate::column_words::{COLUMNS, INVERSE_COLUMNS};
use crate::s_box::{inverse_substitute, substitute};

/// Returns a word of the tables: the bytes of column i of the matrix of MixColumns, each times the substitute of j.
/// From i = 4 on, it is column i - 4 of the matrix of InvMixColumns, each byte times the one whose substitute is j.
/// `None` if i is above 7.
pub fn table_word(i: usize, j: u8) -> Option<u32>
    // Promise (some, word), as AesKey::new: a key is made ..
    ensures some { IsSome result ↔ (i < 8) }
    ensures word { IfSome result (λ w. to_be_bytes w32 w
        ≡ (if nat_lt i 4 then mix_column i (s_box j) else inverse_mix_column (i - 4) (inverse_s_box j))) }
{
    match i {
        0 => Some(mixing(j, 0)),
        1 => Some(mixing(j, 1)),
        2 => Some(mixing(j, 2)),
        3 => Some(mixing(j, 3)),
        4 => Some(unmixing(j, 0)),
        5 => Some(unmixing(j, 1)),
        6 => Some(unmixing(j, 2)),
        7 => Some(unmixing(j, 3)),
        _ => None,
    }
}

// Returns the contribution of a byte in this row to a column.
fn mixing(octet: u8, row: u32) -> u32
    requires { row < 4 }
    ensures { result ≡ turned_by row (turned_column 2 3 1 1 (s_box octet)) }
{
    (COLUMNS[octet as usize] >> (8 * row) & 0xffff_ffff) as u32
}

fn unmixing(octet: u8, row: u32) -> u32
    requires { row < 4 }
    ensures { result ≡ turned_by row (turned_column 14 11 13 9 (inverse_s_box octet)) }
{
    (INVERSE_COLUMNS[octet as usize] >> (8 * row) & 0xffff_ffff) as u32
}

// Computes SubBytes and MixColumns on the column (a, b, c, d), and adds the key's word. As a separate step, AddRoundKey
// would bring the four words into one vector register (see `cipher`).
fn mixed_column(key: u32, a: u8, b: u8, c: u8, d: u8) -> u32
    ensures { to_be_bytes w32 result
        ≡ mixed_cells 2 3 1 1 (to_be_bytes w32 key) (s_box a) (s_box b) (s_box c) (s_box d) }
{
    ((mixing(a, 0) ^ key) ^ mixing(b, 1)) ^ (mixing(c, 2) ^ mixing(d, 3))
}

// Computes InvSubBytes and InvMixColumns on the column (a, b, c, d), and adds the key's word.
fn unmixed_column(key: u32, a: u8, b: u8, c: u8, d: u8) -> u32
    ensures { to_be_bytes w32 result ≡ mixed_cells 14 11 13 9 (to_be_bytes w32 key)
        (inverse_s_box a) (inverse_s_box b) (inverse_s_box c) (inverse_s_box d) }
{
    ((unmixing(a, 0) ^ key) ^ unmixing(b, 1)) ^ (unmixing(c, 2) ^ unmixing(d, 3))
}

/// Computes SubBytes, ShiftRows, MixColumns and AddRoundKey.
#[inline(always)]
pub fn round(state: &mut [u32; 4], round_key: &[u32])
    requires { length round_key.now ≡ 4 }
    ensures { octets state.new
        ≡ add_round_key (mix_columns (shift_rows (sub_bytes (octets state.old)))) (octets round_key.now) }
{
    let [a, b, c, d] = *state;
    let [a0, a1, a2, a3] = a.to_be_bytes();
    let [b0, b1, b2, b3] = b.to_be_bytes();
    let [c0, c1, c2, c3] = c.to_be_bytes();
    let [d0, d1, d2, d3] = d.to_be_bytes();
    *state = [
        mixed_column(round_key[0], a0, b1, c2, d3),
        mixed_column(round_key[1], b0, c1, d2, a3),
        mixed_column(round_key[2], c0, d1, a2, b3),
        mixed_column(round_key[3], d0, a1, b2, c3),
    ];
}

/// Computes SubBytes, ShiftRows and AddRoundKey.
#[inline(always)]
pub fn last_round(state: &mut [u32; 4], round_key: &[u32])
    requires { length round_key.now ≡ 4 }
    ensures { octets state.new
        ≡ add_round_key (shift_rows (sub_bytes (octets state.old))) (octets round_key.now) }
{
    let [a, b, c, d] = *state;
    let [a0, a1, a2, a3] = a.to_be_bytes();
    let [b0, b1, b2, b3] = b.to_be_bytes();
    let [c0, c1, c2, c3] = c.to_be_bytes();
    let [d0, d1, d2, d3] = d.to_be_bytes();
    *state = [
        substituted_column(round_key[0], a0, b1, c2, d3),
        substituted_column(round_key[1], b0, c1, d2, a3),
        substituted_column(round_key[2], c0, d1, a2, b3),
        substituted_column(round_key[3], d0, a1, b2, c3),
    ];
}

/// Computes InvShiftRows, InvSubBytes, InvMixColumns and AddRoundKey, with a round key that went through
/// InvMixColumns.
#[inline(always)]
pub fn inverse_round(state: &mut [u32; 4], round_key: &[u32])
    requires { length round_key.now ≡ 4 }
    ensures { octets state.new
        ≡ add_round_key (inverse_mix_columns (inverse_sub_bytes (inverse_shift_rows (octets state.old))))
        (octets round_key.now) }
{
    let [a, b, c, d] = *state;
    let [a0, a1, a2, a3] = a.to_be_bytes();
    let [b0, b1, b2, b3] = b.to_be_bytes();
    let [c0, c1, c2, c3] = c.to_be_bytes();
    let [d0, d1, d2, d3] = d.to_be_bytes();
    *state = [
        unmixed_column(round_key[0], a0, d1, c2, b3),
        unmixed_column(round_key[1], b0, a1, d2, c3),
        unmixed_column(round_key[2], c0, b1, a2, d3),
        unmixed_column(round_key[3], d0, c1, b2, a3),
    ];
}

/// Computes InvShiftRows, InvSubBytes and AddRoundKey.
#[inline(always)]
pub fn last_inverse_round(state: &mut [u32; 4], round_key: &[u32])
    requires { length round_key.now ≡ 4 }
    ensures { octets state.new
        ≡ add_round_key (inverse_sub_bytes (inverse_shift_rows (octets state.old))) (octets round_key.now) }
{
    let [a, b, c, d] = *state;
    let [a0, a1, a2, a3] = a.to_be_bytes();
    let [b0, b1, b2, b3] = b.to_be_bytes();
    let [c0, c1, c2, c3] = c.to_be_bytes();
    let [d0, d1, d2, d3] = d.to_be_bytes();
    *state = [
        inverse_substituted_column(round_key[0], a0, d1, c2, b3),
        inverse_substituted_column(round_key[1], b0, a1, d2, c3),
        inverse_substituted_column(round_key[2], c0, b1, a2, d3),
        inverse_substituted_column(round_key[3], d0, c1, b2, a3),
    ];
}

/// Computes AddRoundKey.
pub fn add_round_key(state: &mut [u32; 4], round_key: &[u32])
    requires { length round_key.now ≡ 4 }
    ensures { octets state.new ≡ add_round_key (octets state.old) (octets round_key.now) }
{
    let [a, b, c, d] = *state;
    *state = [
        added(a, round_key[0]),
        added(b, round_key[1]),
        added(c, round_key[2]),
        added(d, round_key[3]),
    ];
}

/// Adds the key's word to a column.
pub fn added(column: u32, key: u32) -> u32
    ensures { to_be_bytes w32 result ≡ added_word (to_be_bytes w32 key) (to_be_bytes w32 column) }
{
    column ^ key
}

// Computes SubBytes on the column (a, b, c, d), and adds the key's word.
fn substituted_column(key: u32, a: u8, b: u8, c: u8, d: u8) -> u32
    ensures { to_be_bytes w32 result
        ≡ added_cells (to_be_bytes w32 key) (s_box a) (s_box b) (s_box c) (s_box d) }
{
    join_bytes(substitute(a), substitute(b), substitute(c), substitute(d)) ^ key
}

// Computes InvSubBytes on the column (a, b, c, d), and adds the key's word.
fn inverse_substituted_column(key: u32, a: u8, b: u8, c: u8, d: u8) -> u32
    ensures { to_be_bytes w32 result ≡ added_cells (to_be_bytes w32 key)
        (inverse_s_box a) (inverse_s_box b) (inverse_s_box c) (inverse_s_box d) }
{
    join_bytes(
        inverse_substitute(a),
        inverse_substitute(b),
        inverse_substitute(c),
        inverse_substitute(d),
    ) ^ key
}

/// Computes InvMixColumns on one column.
pub fn unmixed(column: u32) -> u32
    ensures { to_be_bytes w32 result ≡ unmixed_cells (to_be_bytes w32 column) }
{
    // The table undoes the S-box before it multiplies.
    let [a, b, c, d] = column.to_be_bytes();
    unmixed_column(
        0,
        substitute(a),
        substitute(b),
        substitute(c),
        substitute(d),
    )
}

/// Returns the word of four bytes.
// It adds the bytes up. If it made an array of them, the compiler would put that into a vector register, and then the
// whole state.
pub fn join_bytes(a: u8, b: u8, c: u8, d: u8) -> u32
    ensures word { result ≡ word a b c d }
    ensures octets { to_be_bytes w32 result ≡ a ∷ b ∷ c ∷ d ∷ [] }
{
    ((u32::from(a) * 256 + u32::from(b)) * 256 + u32::from(c)) * 256 + u32::from(d)
}

/// Returns the word of the four bytes at an index.
pub fn word_at(text: &[u8], at: usize) -> u32
    requires { at + 4 ≤ length text.now }
    ensures { to_be_bytes w32 result ≡ take 4 (drop at text.now) }
{
    u32::from_be_bytes([text[at], text[at + 1], text[at + 2], text[at + 3]])
}

/// Returns the words of the block at an index.
pub fn words_at(text: &[u8], at: usize) -> [u32; 4]
    requires { at + 16 ≤ length text.now }
    ensures { octets result ≡ take 16 (drop at text.now) }
{
    [
        word_at(text, at),
        word_at(text, at + 4),
        word_at(text, at + 8),
        word_at(text, at + 12),
    ]
}

/// Returns the words of a block.
pub fn split_block(block: &[u8; 16]) -> [u32; 4]
    ensures { octets result ≡ block.now }
{
    words_at(block, 0)
}

// Returns the bytes of two words. Writing four words one by one would make them a vector first (see `join_bytes`).
fn join_two(a: u32, b: u32) -> [u8; 8]
    ensures { result ≡ to_be_bytes w32 a ++ to_be_bytes w32 b }
{
    (u64::from(a) * 0x1_0000_0000 + u64::from(b)).to_be_bytes()
}

/// Returns the bytes of four words.
pub fn join_words(words: &[u32; 4]) -> [u8; 16]
    ensures { result ≡ octets words.now }
{
    let [a, b, c, d] = *words;
    let mut octets = [0; 16];
    octets[..8].copy_from_slice(&join_two(a, b));
    octets[8..].copy_from_slice(&join_two(c, d));
    octets
}

/// Adds two blocks in the field (xor).
pub fn xor_words(a: &[u32; 4], b: &[u32; 4]) -> [u32; 4]
    ensures { octets result ≡ xor_blocks (octets a.now) (octets b.now) }
{
    let mut sum = *a;
    add_round_key(&mut sum, b);
    sum
}
