//! The authenticators that a text still shows if it is no whole journal.
ghost use Rattle.std.specs.Prelude.{◌≡◌, ◌≤◌, ◌<◌, ◌+◌, ◌^◌, ◌++◌, ℕ, List, length, IfNone, IfSome};
ghost use Rattle.krb_der.specs.Spelling.{length_octets};
ghost use Rattle.krb_elements.specs.Codec.{written};
ghost use Rattle.journal.specs.Decision.{floor_since};
ghost use Rattle.journal.specs.Forms.{Entry as Listed, Header as Headers, entry, header};
ghost use Rattle.journal.specs.Showing.{AreFrom, BeginsWith, StandsAt, Shows, Shown, element_length, entry_floor};
ghost use Rattle.journal.specs.Showing.{floor_with, shown_floor};
ghost use Rattle.journal.specs.Texts.{HasElement, checked};

use crate::checks::{next_check, take_check};
use crate::decision::{floor_since, greater};
use crate::entry::EntryRef;
use crate::header::HeaderRef;
use crate::reading::{came, entry_in, header_in};
use krb_der::Reader;

/// The length of a check, in octets.
const CHECK_LEN: usize = 16;

/// The length of a check as an OCTET STRING.
const CHECK_ELEMENT_LEN: usize = 18;

/// A header or an entry in a text, whose check holds.
#[derive(Clone, Copy)]
struct Standing {
    /// The floor that it asks for.
    floor: i64,
    /// How many octets it has, with its check.
    len: usize,
}

/// How far a text was looked through.
#[derive(Clone, Copy)]
struct Walk {
    /// The next place to look at.
    place: usize,
    /// The floor that is asked for by what was found so far.
    floor: Option<i64>,
}

/// Returns the floor that a text asks for, which need not be a whole journal. The floor is above the time of each
/// authenticator that the text still shows: one whose check follows from the 16 octets before its entry. An entry with
/// another check is not counted. Returns `None` if the text shows nothing.
pub fn shown_in(text: &[u8]) -> Option<i64>
    // Promise: files show each authenticator of a journal, and in a text that is none, each whose check follows from
    // the 16 octets before its entry.
    // Promise: not so for a file that others may write, which is not read, nor for the last second of the year 9999.
    ensures { (shown : Shown) × Shows text.now shown × (result ≡ shown_floor shown) }
{
    match front_header(text) {
        Some(head) => greatest_floor(text, head.len, Some(head.floor)),
        None => greatest_floor(text, 0, None),
    }
}

/// Returns the header at the front of a text, if its check holds.
fn front_header(text: &[u8]) -> Option<Standing>
    ensures some { IfSome result (λ s. (h : Headers) × BeginsWith text.now h
        × (s.floor ≡ floor_since h.floor h.at) × (s.len ≡ element_length (written header h))) }
    ensures none { IfNone result ((h : Headers) → BeginsWith text.now h → ⊥) }
    ensures within { IfSome result (λ s. s.len ≤ length text.now) }
{
    let mut reader = Reader::new(text);
    let Ok(octets) = reader.read_octets() else {
        return None;
    };
    let Ok(found) = header_in(octets) else {
        return None;
    };
    let check = next_check(found.link.as_slice(), octets);
    let Ok(()) = take_check(&mut reader, &check) else {
        return None;
    };
    Some(Standing {
        floor: head_floor(&found),
        len: element_len(octets.len()),
    })
}

/// Returns the floor that a header asks for.
fn head_floor(header: &HeaderRef<'_>) -> i64
    ensures { result ≡ floor_since header.now.floor header.now.at }
{
    floor_since(header.floor.seconds(), header.at.seconds())
}

/// Returns the greatest of a floor and those that the entries from a place on ask for.
fn greatest_floor(text: &[u8], from: usize, floor: Option<i64>) -> Option<i64>
    requires { from ≤ length text.now }
    ensures { (es : List Listed) × AreFrom text.now from es × (result ≡ floor_with floor es) }
{
    let mut walk = Walk { place: from, floor };
    while walk.place < text.len() {
        walk = step(text, walk);
    }
    walk.floor
}

/// Looks at the next place: behind the entry that stands there, or one octet on.
fn step(text: &[u8], walk: Walk) -> Walk
    requires { walk.place < length text.now }
    ensures found { (es : List Listed) × (result.floor ≡ floor_with walk.floor es)
        × ((others : List Listed) → AreFrom text.now result.place others → AreFrom text.now walk.place (es ++ others)) }
    ensures moves { walk.place < result.place }
    ensures within { result.place ≤ length text.now }
{
    match entry_standing(text, walk.place) {
        Some(found) => Walk {
            place: walk.place + found.len,
            floor: greater(walk.floor, Some(found.floor)),
        },
        None => Walk {
            place: walk.place + 1,
            floor: walk.floor,
        },
    }
}

/// Returns the entry that stands at a place of a text, if one does.
fn entry_standing(text: &[u8], place: usize) -> Option<Standing>
    requires { place < length text.now }
    ensures some { IfSome result (λ s. (e : Listed) × StandsAt text.now place e
        × (s.floor ≡ entry_floor e) × (s.len ≡ element_length (written entry e))) }
    ensures none { IfNone result ((e : Listed) → StandsAt text.now place e → ⊥) }
    ensures within { IfSome result (λ s. (0 < s.len) × (place + s.len ≤ length text.now)) }
{
    if place < CHECK_LEN {
        return None;
    }
    let (front, rest) = text.split_at(place);
    let (_, before) = front.split_at(place - CHECK_LEN);
    front_entry(before, rest)
}

/// Returns the entry at the front of a text, if its check follows from these octets.
fn front_entry(before: &[u8], rest: &[u8]) -> Option<Standing>
    ensures some { IfSome result (λ s. (e : Listed) × (after : List ℕ) × HasElement e
        × (rest.now ≡ checked before.now (written entry e) ++ after)
        × (s.floor ≡ entry_floor e) × (s.len ≡ element_length (written entry e))) }
    ensures none { IfNone result ((e : Listed) (after : List ℕ) → HasElement e
        → rest.now ≡ checked before.now (written entry e) ++ after → ⊥) }
    ensures within { IfSome result (λ s. (0 < s.len) × (s.len ≤ length rest.now)) }
{
    let mut reader = Reader::new(rest);
    let Ok(octets) = reader.read_octets() else {
        return None;
    };
    let Ok(found) = entry_in(octets) else {
        return None;
    };
    let check = next_check(before, octets);
    let Ok(()) = take_check(&mut reader, &check) else {
        return None;
    };
    Some(Standing {
        floor: entry_floor(&found),
        len: element_len(octets.len()),
    })
}

/// Returns the floor that an entry asks for.
fn entry_floor(entry: &EntryRef<'_>) -> i64
    ensures { result ≡ entry_floor entry.now }
{
    floor_since(entry.ctime.seconds() + 1, came(entry.ctime, entry.age))
}

/// Returns how many octets an element of this length has as an OCTET STRING, with its check.
fn element_len(len: usize) -> usize
    requires { len < 2 ^ 32 }
    ensures { (element : List ℕ) → length element ≡ len → result ≡ element_length element }
{
    1 + length_len(len) + len + CHECK_ELEMENT_LEN
}

/// Returns how many octets the length of an OCTET STRING has (X.690, section 8.1.3).
fn length_len(len: usize) -> usize
    ensures is { result ≡ length (length_octets len) }
    ensures few { result ≤ 5 }
{
    match len {
        0..0x80 => 1,
        0x80..0x100 => 2,
        0x100..0x1_0000 => 3,
        0x1_0000..0x100_0000 => 4,
        _ => 5,
    }
}
