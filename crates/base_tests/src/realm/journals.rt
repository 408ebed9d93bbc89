//! Tests of journals (`journal`): their bytes, what is read if they were cut or changed, what a start decides by them,
//! and the floor that a text asks for that is no whole journal.
use crate::cryptography::fixtures::sized;
use crate::expect::{are, bytes, holds, same};
use crate::realm::fixtures::{T, at};
use journal::{
    FileText, Found, FoundFiles, Place, ResumeRefusal, Start, Written, decide_start, judge_text,
    shown_in, write_beginning, write_seen,
};
use krb_fields::{Moment, Name};
use replay::Seen;
use std::alloc::{AllocError, Global};
use std::process::Abort;

// A journal of the realm A.B, begun at the second T after a restart, with two authenticators of the client u. One has
// the time T and 7 microseconds, and came a second later. One has T + 300 and 999999, and came 298 seconds before
// that. `dev/journal_vector.py` prints it.

const BEGINNING: &str = "\
    043b3039a0050403412e42a1060404626f6f74a211180f32303234303130313030303030305aa311180f3230323430313031303030353031\
    5aa40204000410331b1f8157f14fd1697f80e639e03267";

const FIRST: &str = "\
    042f302da00e300ca003020101a10530031b0175a111180f32303234303130313030303030305aa203020107a3030201010410eff6851b28\
    5e9db28be1c078ddb5366f";

const SECOND: &str = "\
    04323030a00e300ca003020101a10530031b0175a111180f32303234303130313030303530305aa20502030f423fa3040202fed60410af2a\
    c58d56626dfa63d3b3062dc5cf93";

/// The checks that these end with.
const CHECKS: [&str; 3] = [
    "331b1f8157f14fd1697f80e639e03267",
    "eff6851b285e9db28be1c078ddb5366f",
    "af2ac58d56626dfa63d3b3062dc5cf93",
];

fn text(alloc: Global, parts: &[&str]) -> Result<Vec<u8>, AllocError> {
    let mut text = Vec::new(alloc);
    for part in parts {
        text.extend_from_slice(&bytes(alloc, *part))?;
    }
    Ok(text)
}

fn here(later: u32) -> Place<'static> {
    Place {
        realm: b"A.B",
        boot: b"boot",
        seal: &[],
        at: at(later),
    }
}

/// Returns a journal without entries, begun this many seconds after T and linked to these bytes.
fn begun(alloc: Global, later: u32, link: &[u8]) -> Result<Option<Written>, AllocError> {
    write_beginning(alloc, &here(later), T + 301, link)
}

/// Returns the entry, after a check, for an authenticator of the client u with this time, whose request came this many
/// seconds after T.
fn entry(
    alloc: Global,
    check: &str,
    later: u32,
    ctime: i64,
    cusec: u32,
) -> Result<Option<Written>, AllocError> {
    write_seen(alloc, &sized(check), at(later), &seen(alloc, ctime, cusec)?)
}

/// Returns an authenticator of the client u with this time.
pub(crate) fn seen(alloc: Global, ctime: i64, cusec: u32) -> Result<Seen, AllocError> {
    Ok(Seen {
        client: Name::new(alloc, 1, &[b"u"])?,
        ctime,
        cusec,
    })
}

/// Checks whether these bytes with their check are written.
fn is(
    alloc: Global,
    written: Result<Option<Written>, AllocError>,
    digits: &str,
    check: &str,
) -> bool {
    match written {
        Ok(Some(written)) => are(alloc, &written.text, digits) && are(alloc, &written.check, check),
        Ok(None) | Err(_) => false,
    }
}

#[test]
fn a_journal_has_these_bytes(rt: HostRuntime) {
    let alloc = rt.alloc();
    let found = [
        is(alloc, begun(alloc, 0, &[]), BEGINNING, CHECKS[0]),
        is(alloc, entry(alloc, CHECKS[0], 1, T, 7), FIRST, CHECKS[1]),
        is(
            alloc,
            entry(alloc, CHECKS[1], 2, T + 300, 999_999),
            SECOND,
            CHECKS[2],
        ),
    ];
    same(&rt, &"the octets", &found, &[true; 3]);
}

/// Returns what is found in a file with this text. It is as if there were no file if memory ran out.
fn found(alloc: Global, text: &[u8]) -> Found {
    let Ok(octets) = Vec::from_slice(alloc, text) else {
        return Found::Nothing;
    };
    match judge_text(alloc, &FileText::Octets(octets)) {
        Ok(found) => found,
        Err(AllocError) => Found::Nothing,
    }
}

fn find_parts(alloc: Global, parts: &[&str]) -> Found {
    match text(alloc, parts) {
        Ok(text) => found(alloc, &text),
        Err(AllocError) => Found::Nothing,
    }
}

/// Returns the number of entries, `None` if it is no journal, and an error if memory ran out.
fn count(found: &Found) -> Result<Option<usize>, AllocError> {
    match found {
        Found::Whole(journal) => Ok(Some(journal.entries.len())),
        Found::Broken(_) => Ok(None),
        Found::Nothing => Err(AllocError),
    }
}

/// Parts, and the number of entries: they have one order.
const ORDERS: &[(&[&str], Option<usize>)] = &[
    (&[BEGINNING], Some(0)),
    (&[BEGINNING, FIRST], Some(1)),
    (&[BEGINNING, FIRST, SECOND], Some(2)),
    (&[BEGINNING, SECOND], None),
    (&[BEGINNING, SECOND, FIRST], None),
    (&[BEGINNING, FIRST, FIRST, SECOND], None),
    (&[FIRST, SECOND], None),
];

#[test]
fn a_journal_that_was_cut_or_changed_is_broken(rt: HostRuntime) {
    let alloc = rt.alloc();
    for (parts, wanted) in ORDERS {
        same(&rt, parts, &count(&find_parts(alloc, *parts)), &Ok(*wanted));
    }
    match text(alloc, &[BEGINNING, FIRST, SECOND]) {
        Ok(mut text) => {
            is_broken_where_cut(&rt, alloc, &text);
            is_broken_where_changed(&rt, alloc, &mut text);
        }
        Err(fault) => same(&rt, &"a journal", &Err(fault), &Ok(())),
    }
}

fn is_broken_where_cut(rt: &impl Abort, alloc: Global, text: &[u8]) {
    for end in 0..text.len() {
        let wanted = match end {
            79 => Some(0),
            146 => Some(1),
            _ => None,
        };
        same(rt, &end, &count(&found(alloc, &text[..end])), &Ok(wanted));
    }
}

fn is_broken_where_changed(rt: &impl Abort, alloc: Global, text: &mut [u8]) {
    for place in 0..216 {
        same(rt, &place, &count_changed(alloc, text, place), &Ok(None));
    }
}

/// Counts with a byte changed, if there is one at this place.
fn count_changed(
    alloc: Global,
    text: &mut [u8],
    place: usize,
) -> Result<Option<usize>, AllocError> {
    if place >= text.len() {
        return Err(AllocError);
    }
    text[place] ^= 1;
    let found = count(&found(alloc, text));
    text[place] ^= 1;
    found
}

/// A realm, a boot, a seal and a second.
type Where = (&'static [u8], &'static [u8], &'static [u8], i64);

/// The floor and the number of authenticators with which a start resumes. Or why it can't, and the floor that its files
/// ask for.
type Made = Result<(i64, usize), (ResumeRefusal, Option<i64>)>;

fn made(alloc: Global, place: &Where, found: &FoundFiles) -> Result<Made, AllocError> {
    let (realm, boot, seal, second) = place;
    let Some(at) = Moment::new(*second, 0) else {
        return Err(AllocError);
    };
    let place = Place {
        realm: *realm,
        boot: *boot,
        seal: *seal,
        at,
    };
    Ok(match decide_start(alloc, &place, found)? {
        Start::Resumes { resumption, .. } => Ok((resumption.floor, resumption.seen.len())),
        Start::Refuses { doubt, floor } => Err((doubt, floor)),
    })
}

/// The last check of the whole journal, and the one before it.
const SEAL: &[u8] = &[
    0xaf, 0x2a, 0xc5, 0x8d, 0x56, 0x62, 0x6d, 0xfa, 0x63, 0xd3, 0xb3, 0x06, 0x2d, 0xc5, 0xcf, 0x93,
];

const EARLIER_SEAL: &[u8] = &[
    0xef, 0xf6, 0x85, 0x1b, 0x28, 0x5e, 0x9d, 0xb2, 0x8b, 0xe1, 0xc0, 0x78, 0xdd, 0xb5, 0x36, 0x6f,
];

/// What a start with a whole journal does. The last of its requests came at T + 2, so it asks for the floor T + 303.
const STARTS: &[(Where, Made)] = &[
    ((b"A.B", b"boot", b"", T + 2), Ok((T + 301, 2))),
    ((b"A.B", b"boot", b"", T + 601), Ok((T + 301, 2))),
    ((b"A.B", b"boot", b"", T + 602), Ok((T + 302, 2))),
    (
        (b"A.C", b"boot", b"", T + 2),
        Err((ResumeRefusal::OtherRealm, Some(T + 303))),
    ),
    (
        (b"A.B", b"bott", b"", T + 2),
        Err((ResumeRefusal::OtherBoot, Some(T + 303))),
    ),
    // It was sealed before the boot, or it was sealed, and then there was one more entry, or one less.
    ((b"A.B", b"bott", SEAL, T + 2), Ok((T + 301, 2))),
    (
        (b"A.B", b"bott", EARLIER_SEAL, T + 2),
        Err((ResumeRefusal::Damaged, Some(T + 303))),
    ),
    (
        (b"A.B", b"boot", EARLIER_SEAL, T + 2),
        Err((ResumeRefusal::Damaged, Some(T + 303))),
    ),
    ((b"A.B", b"boot", SEAL, T + 2), Ok((T + 301, 2))),
    (
        (b"A.C", b"boot", EARLIER_SEAL, T + 2),
        Err((ResumeRefusal::OtherRealm, Some(T + 303))),
    ),
    // The clock is behind the journal.
    ((b"A.B", b"boot", b"", T + 1), Ok((T + 302, 2))),
    ((b"A.B", b"boot", b"", T - 1), Ok((T + 301, 2))),
];

/// Returns a journal with this floor that links to the check of the second entry.
fn linked(alloc: Global, floor: i64) -> Found {
    match write_beginning(alloc, &here(650), floor, &sized::<16>(CHECKS[2])) {
        Ok(Some(written)) => found(alloc, &written.text),
        Ok(None) | Err(_) => Found::Nothing,
    }
}

#[test]
fn a_start_resumes_or_says_why_not(rt: HostRuntime) {
    let alloc = rt.alloc();
    let whole = only(find_parts(alloc, &[BEGINNING, FIRST, SECOND]));
    for (place, wanted) in STARTS {
        same(&rt, place, &made(alloc, place, &whole), &Ok(*wanted));
    }
    holds(&rt, has_last_check(&whole.newer), "the last check");
}

/// Returns what is found if there is no other file than the newer one.
fn only(newer: Found) -> FoundFiles {
    FoundFiles {
        older: Found::Nothing,
        newer,
        beside: Found::Nothing,
    }
}

/// What may be in one of a journal's files.
#[derive(Clone, Copy, Debug)]
enum Content {
    Nothing,
    /// What others may write.
    Unusable,
    /// The whole journal without its first entry.
    Broken,
    /// The whole journal.
    Whole,
    /// The journal without its last entry.
    Shorter,
    /// A journal that links to the whole one. It was begun at T + 650.
    Linked,
    /// The same with a lower floor.
    LinkedLower,
}

fn make_file(alloc: Global, content: Content) -> Found {
    match content {
        Content::Nothing => Found::Nothing,
        Content::Unusable => Found::Broken(None),
        Content::Broken => find_parts(alloc, &[BEGINNING, SECOND]),
        Content::Whole => find_parts(alloc, &[BEGINNING, FIRST, SECOND]),
        Content::Shorter => find_parts(alloc, &[BEGINNING, FIRST]),
        Content::Linked => linked(alloc, T + 301),
        Content::LinkedLower => linked(alloc, T + 300),
    }
}

/// What is in the older file, in the newer one, and beside.
type Contents = (Content, Content, Content);

/// What a start does with these files.
const FILES: &[(Contents, Made)] = &[
    (
        (Content::Nothing, Content::Nothing, Content::Nothing),
        Err((ResumeRefusal::Absent, None)),
    ),
    (
        (Content::Whole, Content::Nothing, Content::Nothing),
        Err((ResumeRefusal::Damaged, Some(T + 303))),
    ),
    (
        (Content::Nothing, Content::Nothing, Content::Unusable),
        Err((ResumeRefusal::Damaged, None)),
    ),
    (
        (Content::Whole, Content::Nothing, Content::Linked),
        Err((ResumeRefusal::Damaged, Some(T + 951))),
    ),
    (
        (Content::Nothing, Content::Broken, Content::Nothing),
        Err((ResumeRefusal::Damaged, Some(T + 301))),
    ),
    (
        (Content::Whole, Content::Broken, Content::Unusable),
        Err((ResumeRefusal::Damaged, Some(T + 303))),
    ),
    (
        (Content::Whole, Content::Linked, Content::Nothing),
        Ok((T + 400, 2)),
    ),
    // What is beside does not matter then.
    (
        (Content::Whole, Content::Linked, Content::Unusable),
        Ok((T + 400, 2)),
    ),
    (
        (Content::Shorter, Content::Linked, Content::Nothing),
        Err((ResumeRefusal::Unlinked, Some(T + 951))),
    ),
    (
        (Content::Nothing, Content::Linked, Content::Nothing),
        Err((ResumeRefusal::Unlinked, Some(T + 951))),
    ),
    (
        (Content::Broken, Content::Linked, Content::Nothing),
        Err((ResumeRefusal::Unlinked, Some(T + 951))),
    ),
    (
        (Content::Whole, Content::LinkedLower, Content::Nothing),
        Err((ResumeRefusal::Unlinked, Some(T + 951))),
    ),
];

fn make_files(alloc: Global, contents: &Contents) -> FoundFiles {
    let (older, newer, beside) = *contents;
    FoundFiles {
        older: make_file(alloc, older),
        newer: make_file(alloc, newer),
        beside: make_file(alloc, beside),
    }
}

#[test]
fn a_start_with_all_files_resumes_or_says_why_not(rt: HostRuntime) {
    const HERE: Where = (b"A.B", b"boot", b"", T + 700);
    let alloc = rt.alloc();
    for (contents, wanted) in FILES {
        let found = made(alloc, &HERE, &make_files(alloc, contents));
        same(&rt, contents, &found, &Ok(*wanted));
    }
}

/// How many octets of the whole journal are there, which of them is changed, if one is, and the floor that is asked
/// for. The header has 79 octets and the first entry 67; its last 18 are the check. It asks for T + 301, the
/// entries ask for T + 302 and T + 303.
const SHOWN: &[((usize, Option<usize>), Option<i64>)] = &[
    ((216, None), Some(T + 303)),
    ((215, None), Some(T + 302)),
    ((146, None), Some(T + 302)),
    ((145, None), Some(T + 301)),
    ((79, None), Some(T + 301)),
    ((78, None), None),
    ((0, None), None),
    // Where an entry is changed, it counts for nothing, and the one after it still counts.
    ((216, Some(150)), Some(T + 302)),
    ((216, Some(100)), Some(T + 303)),
    ((146, Some(100)), Some(T + 301)),
    // So it is where the header is changed.
    ((79, Some(10)), None),
    ((146, Some(10)), Some(T + 302)),
    // Where a check is changed, what follows from it does not count either.
    ((79, Some(70)), None),
    ((146, Some(70)), None),
    ((216, Some(70)), Some(T + 303)),
    ((216, Some(140)), Some(T + 301)),
];

#[test]
fn a_cut_or_changed_journal_still_asks_for_a_floor(rt: HostRuntime) {
    let alloc = rt.alloc();
    for (given, wanted) in SHOWN {
        same(&rt, given, &shown(alloc, given), &Ok(*wanted));
    }
}

#[test]
fn an_entry_without_a_header_asks_for_a_floor(rt: HostRuntime) {
    let alloc = rt.alloc();
    for (given, wanted) in LONE {
        same(&rt, given, &told_after(alloc, given), &Ok(Some(*wanted)));
    }
}

/// Returns the floor that the whole journal asks for after it is cut and changed.
fn shown(alloc: Global, given: &(usize, Option<usize>)) -> Result<Option<i64>, AllocError> {
    let (len, changed) = *given;
    let mut text = text(alloc, &[BEGINNING, FIRST, SECOND])?;
    text.truncate(len);
    if let Some(place) = changed {
        change(&mut text, place);
    }
    Ok(shown_in(&text))
}

/// Changes the octet at this place, if there is one.
fn change(text: &mut [u8], place: usize) {
    if place < text.len() {
        text[place] ^= 1;
    }
}

/// The last second that a time can have.
const LAST: i64 = 253_402_300_799;

/// The time of an entry and when its request came, in a text without a header, and the floor that it asks for.
const LONE: &[((i64, i64), i64)] = &[
    ((T, T + 100), T + 401),
    ((T + 300, T), T + 301),
    ((T + 301, T), T + 302),
    ((T + 1_000, T), T + 1_001),
    ((LAST - 301, LAST - 301), LAST),
    ((LAST - 300, LAST - 300), LAST),
    ((LAST, LAST), LAST),
];

/// Returns the floor that an entry asks for, after the check that it follows.
fn told_after(alloc: Global, given: &(i64, i64)) -> Result<Option<i64>, AllocError> {
    let (ctime, came) = *given;
    let (Some(at), check) = (Moment::new(came, 0), sized::<16>(CHECKS[0])) else {
        return Err(AllocError);
    };
    let Some(entry) = write_seen(alloc, &check, at, &seen(alloc, ctime, 7)?)? else {
        return Err(AllocError);
    };
    let mut text = Vec::from_slice(alloc, &check)?;
    text.extend_from_slice(&entry.text)?;
    Ok(shown_in(&text))
}

fn has_last_check(found: &Found) -> bool {
    match found {
        Found::Whole(journal) => {
            let check = journal.check;
            check == sized(CHECKS[2])
        }
        _ => false,
    }
}

/// The times of entries whose requests came 1, 2, 3 seconds after T, and how many of them may matter.
const AGES: &[(&[i64], usize)] = &[
    (&[T], 1),
    (&[T - 300, T], 1),
    (&[T - 298, T], 2),
    (&[T - 298, T, T], 2),
    (&[T + 300, T - 400, T - 297], 2),
];

#[test]
fn entries_that_are_too_old_are_not_kept(rt: HostRuntime) {
    let alloc = rt.alloc();
    for (times, wanted) in AGES {
        same(&rt, times, &count_kept(alloc, *times), &Ok(Some(*wanted)));
    }
}

/// Counts the entries that are kept of a journal with entries of these times.
fn count_kept(alloc: Global, times: &[i64]) -> Result<Option<usize>, AllocError> {
    let Some(mut journal) = begun(alloc, 0, &[])? else {
        return Err(AllocError);
    };
    let mut later = 0u32;
    for ctime in times {
        later = later.wrapping_add(1);
        push_entry(alloc, &mut journal, later, *ctime)?;
    }
    count(&found(alloc, &journal.text))
}

/// Adds an entry for an authenticator with this time, whose request came this many seconds after T.
fn push_entry(
    alloc: Global,
    journal: &mut Written,
    later: u32,
    ctime: i64,
) -> Result<(), AllocError> {
    let seen = seen(alloc, ctime, later)?;
    let Some(entry) = write_seen(alloc, &journal.check, at(later), &seen)? else {
        return Err(AllocError);
    };
    journal.text.extend_from_slice(&entry.text)?;
    journal.check = entry.check;
    Ok(())
}
