//! The rounds of FIPS 197, sections 5.1 and 5.3.5, with a schedule of round keys of four words each.

ghost use Rattle.std.specs.Prelude.{◌≡◌, ◌≤◌, ◌<◌, ◌+◌, ◌*◌, ◌%◌, ℕ, List, length};
ghost use Rattle.aes_cts.specs.Cipher.{cipher, rounds, equivalent_rounds, equivalent_inverse_cipher};
ghost use Rattle.aes_cts.specs.Words.{octets};

use crate::words::{add_round_key, inverse_round, last_inverse_round, last_round, round};

/// Encrypts the state in place (CIPHER), with 10 or 14 rounds: the first, then groups of four, then the last.
// The rounds are unrolled: a loop takes a fifth more instructions, because words change registers at its end. This
// function and each round are inlined into each loop over blocks, so that the words of a block stay in registers. Calls
// of `round` take a third more instructions.
#[inline(always)]
pub fn cipher(state: &mut [u32; 4], schedule: &[u32], round_count: usize)
    requires some { 10 ≤ round_count }
    requires few { round_count < 15 }
    requires even { round_count % 4 ≡ 2 }
    requires keys { length schedule.now ≡ 4 * (round_count + 1) }
    ensures { octets state.new ≡ cipher round_count (octets schedule.now) (octets state.old) }
{
    add_round_key(state, &schedule[..4]);
    round(state, &schedule[4..8]);
    four_rounds::<1>(state, schedule);
    four_rounds::<5>(state, schedule);
    if round_count > 10 {
        four_rounds::<9>(state, schedule);
    }
    let last = 4 * round_count;
    last_round(state, &schedule[last..last + 4]);
}

// Computes four rounds, after `DONE` rounds. `DONE` is a constant, so each group of four has its own code.
#[inline(always)]
fn four_rounds<const DONE: usize>(state: &mut [u32; 4], schedule: &[u32])
    requires { 4 * DONE + 20 ≤ length schedule.now }
    ensures { (s : List ℕ) → octets state.old ≡ rounds (octets schedule.now) s DONE
        → octets state.new ≡ rounds (octets schedule.now) s (DONE + 4) }
{
    round(state, &schedule[4 * DONE + 4..4 * DONE + 8]);
    round(state, &schedule[4 * DONE + 8..4 * DONE + 12]);
    round(state, &schedule[4 * DONE + 12..4 * DONE + 16]);
    round(state, &schedule[4 * DONE + 16..4 * DONE + 20]);
}

/// Decrypts the state in place (EQINVCIPHER), with 10 or 14 rounds and a decryption schedule. The rounds are unrolled
/// as in `cipher`.
#[inline(always)]
pub fn inverse_cipher(state: &mut [u32; 4], schedule: &[u32], round_count: usize)
    requires some { 10 ≤ round_count }
    requires few { round_count < 15 }
    requires even { round_count % 4 ≡ 2 }
    requires keys { length schedule.now ≡ 4 * (round_count + 1) }
    ensures { octets state.new
        ≡ equivalent_inverse_cipher round_count (octets schedule.now) (octets state.old) }
{
    let last = 4 * round_count;
    add_round_key(state, &schedule[last..last + 4]);
    inverse_round(state, &schedule[last - 4..last]);
    four_inverse_rounds::<1>(state, schedule, round_count);
    four_inverse_rounds::<5>(state, schedule, round_count);
    if round_count > 10 {
        four_inverse_rounds::<9>(state, schedule, round_count);
    }
    last_inverse_round(state, &schedule[..4]);
}

// Computes four of `round_count` rounds, after `DONE` rounds.
#[inline(always)]
fn four_inverse_rounds<const DONE: usize>(
    state: &mut [u32; 4],
    schedule: &[u32],
    round_count: usize,
)
    requires some { DONE + 5 ≤ round_count }
    requires few { round_count < 15 }
    requires keys { length schedule.now ≡ 4 * (round_count + 1) }
    ensures { (s : List ℕ) → octets state.old ≡ equivalent_rounds round_count (octets schedule.now) s DONE
        → octets state.new ≡ equivalent_rounds round_count (octets schedule.now) s (DONE + 4) }
{
    let end = 4 * (round_count - DONE);
    inverse_round(state, &schedule[end - 4..end]);
    inverse_round(state, &schedule[end - 8..end - 4]);
    inverse_round(state, &schedule[end - 12..end - 8]);
    inverse_round(state, &schedule[end - 16..end - 12]);
}
