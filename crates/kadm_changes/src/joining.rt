//! Joins two keytabs byte by byte, so that entries with other key types and all times are unchanged.
ghost use Rattle.std.specs.Prelude.{◌≡◌, ◌++◌, ◌<◌, ◌≤◌, ℕ, List, IfNone, IfOk, IfSome, drop, length};
ghost use Rattle.cred_files.specs.Keytab.{IsKeytab};
ghost use Rattle.cred_files.specs.declared.keytab_entry.KeytabEntry as entries;
ghost use Rattle.kadm_changes.specs.Keytabs.{EndsIn, IsKept, IsSize};

use cred_files::CredError;

/// How many bytes come before the first part of a keytab.
const MAGIC_LEN: usize = 2;

/// Lengths from here on are those of holes: as signed numbers they are negative.
const HOLES: u32 = 1 << 31;

/// Returns the bytes of a keytab, which were read as one, up to its end.
pub(crate) fn without_end(octets: Vec<u8>) -> Vec<u8>
    ensures { (keytab : List entries.KeytabEntry) → IsKeytab keytab octets.items → IsKept octets.items result.items }
{
    let mut front = octets;
    let end = end_len(&front);
    front.truncate(front.len().saturating_sub(end));
    front
}

/// Returns the length of a keytab's end.
fn end_len(octets: &[u8]) -> usize
    ensures { (end : List ℕ) → EndsIn (drop 2 octets.now) end → result ≡ length end }
{
    match behind(octets, MAGIC_LEN) {
        Some(parts) => end_of(parts).len(),
        None => 0,
    }
}

/// Returns the parts of an old keytab without its end, and then those of a new one.
pub(crate) fn joined(old: Vec<u8>, new: &[u8]) -> Result<Vec<u8>, CredError>
    ensures { IfOk result (λ all. all.items ≡ old.items ++ drop 2 new.now) }
{
    let Some(added) = new.get(MAGIC_LEN..) else {
        return Err(CredError::BadMagic);
    };
    let mut all = old;
    all.extend_from_slice(added)?;
    Ok(all)
}

/// Returns what follows the parts: nothing, or a length of zero and unused bytes.
fn end_of(parts: &[u8]) -> &[u8]
    ensures end { (end : List ℕ) → EndsIn parts.now end → result.now ≡ end }
    ensures shorter { length result.now ≤ length parts.now }
{
    let mut rest = parts;
    while let Some(behind) = behind_part(rest) {
        rest = behind;
    }
    rest
}

/// Returns what follows the first part of the bytes. `None` if no part begins them.
fn behind_part(octets: &[u8]) -> Option<&[u8]>
    ensures shorter { IfSome result (λ behind. length behind.now < length octets.now) }
    ensures part { IfSome result (λ behind. (end : List ℕ) → EndsIn octets.now end → EndsIn behind.now end) }
    ensures none { IfNone result ((end : List ℕ) → EndsIn octets.now end → octets.now ≡ end) }
{
    let (len, rest) = octets.split_first_chunk::<4>()?;
    let number = u32::from_be_bytes(*len);
    if number == 0 {
        return None;
    }
    behind(rest, part_len(number))
}

/// Returns the length of the part behind a number.
fn part_len(number: u32) -> usize
    ensures { IsSize number result }
{
    if number < HOLES {
        return number as usize;
    }
    (1 << 32) - number as usize
}

/// Returns what follows the first `len` bytes. `None` if there are fewer.
fn behind(octets: &[u8], len: usize) -> Option<&[u8]>
    ensures some { IfSome result (λ behind. behind.now ≡ drop len octets.now) }
    ensures none { IfNone result (length octets.now < len) }
    ensures shorter { IfSome result (λ behind. length behind.now ≤ length octets.now) }
{
    octets.get(len..)
}
