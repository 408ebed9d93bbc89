//! Reading a journal.
ghost use Rattle.std.specs.Prelude.{◌≡◌, ◌<◌, ◌≤ℤ◌, ◌+ℤ◌, ◌++◌, ℕ, int_le, List, length, IfOk, IsOkAnd};
ghost use Rattle.std.specs.List.{filter};
ghost use Rattle.krb_elements.specs.Codec.{written};
ghost use Rattle.journal.specs.Decision.{came, first_second, latest_of, recent};
ghost use Rattle.journal.specs.Forms.{Entry as Listed, Header as Headers, entry, header};
ghost use Rattle.journal.specs.Holding.{AgreeFrom, HaveEntries, Spells, cut};
ghost use Rattle.journal.specs.Texts.{HasElement, HasHeader, HaveElements, UnlessMemory};
ghost use Rattle.journal.specs.Texts.{check_of, checked, chained, header_check, journal_text};
ghost use Rattle.journal.specs.declared.reading.Journal.{Journal as Journals};

use crate::checks::{next_check, take_check, take_element};
use crate::entry::{Entry, EntryRef};
use crate::fault::JournalError;
use crate::header::{Header, HeaderRef};
use crate::keeping::above;
use krb_der::{DerFault, KTime, Reader};
use krb_elements::{Octets, Seq, read};
use krb_fields::SKEW;
use std::alloc::{AllocError, Global};

/// The number of entries at which those that are too old are dropped for the first time. They are dropped again each
/// time that there are twice as many as were left.
const FEW: usize = 1_024;

/// A whole journal, without the entries that are too old to matter. `latest` and `high` count these entries too.
#[derive(Drop)]
pub struct Journal {
    /// The header that the file begins with.
    pub header: Header,
    /// The entries whose times are not more than the skew before the latest second. A start refuses all others by their
    /// times.
    pub entries: Seq<Entry>,
    /// The last check.
    pub check: [u8; 16],
    /// The latest second in which the file was begun or the request of an entry came.
    pub latest: i64,
    /// The least second that is above the times of all entries, and not below the floor.
    pub high: i64,
}

/// Reads a journal.
pub(crate) fn read_journal(alloc: Global, text: &[u8]) -> Result<Journal, JournalError>
    // What is read spells the text.
    // Promise: **what is read of a journal is what was written**: a text that is read is that of the header and the
    // entries.
    // Promise: **what may not matter is left out**: of the entries, whose places in the chain are all checked, those
    // are kept whose times are not more than the skew before the journal's latest second.
    ensures spells { IfOk result (λ j. (all : Journals) × Spells text.now all × (j ≡ cut all)) }
    // A text that was written is read as what it was written from.
    // Promise: a text that was written is read, with all its entries in order, unless memory runs out.
    ensures only { (h : Headers) (es : List Listed) → HasHeader h → HaveElements es → text.now ≡ journal_text h es
        → UnlessMemory result (λ j. (j.header ≡ h) × (j.entries ≡ recent (latest_of h.at es) es)) }
{
    let mut reader = Reader::new(text);
    let Headed { header, check } = take_header(alloc, &mut reader)?;
    let Entries {
        entries,
        check,
        latest,
        high,
    } = take_entries(alloc, &mut reader, check, header.at, header.floor)?;
    Ok(Journal {
        header,
        entries: Seq::from_vec(entries),
        check,
        latest,
        high,
    })
}

/// A header, and its check.
#[derive(Drop)]
struct Headed {
    header: Header,
    check: [u8; 16],
}

/// Takes the header at the front.
fn take_header(alloc: Global, reader: &mut Reader<'_>) -> Result<Headed, JournalError>
    ensures found { IfOk result (λ t. reader.old ≡ checked t.header.link (written header t.header) ++ reader.new) }
    ensures check { IfOk result (λ t. t.check ≡ header_check t.header) }
    ensures has { IfOk result (λ t. HasHeader t.header) }
    ensures only { (h : Headers) (rest : List ℕ) → HasHeader h → reader.old ≡ checked h.link (written header h) ++ rest
        → UnlessMemory result (λ t. (t.header ≡ h) × (reader.new ≡ rest)) }
{
    let octets = reader.read_octets()?;
    let found = header_in(octets)?;
    let check = next_check(found.link.as_slice(), octets);
    take_check(reader, &check)?;
    Ok(Headed {
        header: owned_header(alloc, &found)?,
        check,
    })
}

/// Reads octets as a header.
pub(crate) fn header_in(octets: &[u8]) -> Result<HeaderRef<'_>, DerFault>
    ensures found { IfOk result (λ h. octets.now ≡ written header h) }
    ensures spells { IfOk result (λ h. header.Spells h octets.now) }
    ensures only { (h : Headers) → header.Spells h octets.now → IsOkAnd result (λ x. x ≡ h) }
{
    read(octets)
}

fn owned_header(alloc: Global, found: &HeaderRef<'_>) -> Result<Header, AllocError>
    ensures { IfOk result (λ header. header ≡ found.now) }
{
    Ok(Header {
        realm: Octets::from_slice(alloc, found.realm.as_slice())?,
        boot: Octets::from_slice(alloc, found.boot.as_slice())?,
        at: found.at,
        floor: found.floor,
        link: Octets::from_slice(alloc, found.link.as_slice())?,
    })
}

/// The entries that may matter, and what is known of all entries.
#[derive(Drop)]
struct Entries {
    entries: Vec<Entry>,
    check: [u8; 16],
    latest: i64,
    high: i64,
}

/// Takes all entries to the end, in a file that was begun at this time with this floor. The first one follows this
/// check.
fn take_entries(
    alloc: Global,
    reader: &mut Reader<'_>,
    before: [u8; 16],
    at: KTime,
    floor: KTime,
) -> Result<Entries, JournalError>
    ensures found { IfOk result (λ t. (all : List Listed)
        × HaveEntries reader.old before at floor all t.entries.items t.check t.latest t.high) }
    ensures only { (es : List Listed) → HaveElements es → reader.old ≡ chained before es
        → UnlessMemory result (λ t. t.entries.items ≡ recent (latest_of at es) es) }
{
    let mut entries = Vec::new(alloc);
    let mut check = before;
    let mut latest = at.seconds();
    let mut high = floor.seconds();
    let mut most = FEW;
    while !reader.is_empty() {
        most = make_room(&mut entries, most, latest);
        let taken = take_entry(alloc, reader, &check)?;
        check = taken.check;
        latest = latest.max(taken.came);
        high = above(high, taken.ctime);
        entries.push(taken.entry)?;
    }
    drop_old(&mut entries, latest);
    Ok(Entries {
        entries,
        check,
        latest,
        high,
    })
}

/// Drops the entries that are too old to matter, once there are `most`. Returns how many there may be until the next
/// time.
fn make_room(entries: &mut Vec<Entry>, most: usize, latest: i64) -> usize
    requires { first_second ≤ℤ latest }
    ensures { AgreeFrom latest entries.new.items entries.old.items }
{
    if entries.len() < most {
        return most;
    }
    drop_old(entries, latest);
    entries.len().saturating_mul(2).max(FEW)
}

/// Drops the entries that are too old to matter.
fn drop_old(entries: &mut Vec<Entry>, latest: i64)
    requires { first_second ≤ℤ latest }
    ensures { entries.new.items ≡ recent latest entries.old.items }
{
    drop_before(entries, latest - SKEW);
}

/// Drops the entries whose times are before this second.
fn drop_before(entries: &mut Vec<Entry>, second: i64)
    ensures { entries.new.items ≡ filter (λ e. int_le second e.ctime) entries.old.items }
{
    entries.retain(|entry| second <= entry.ctime.seconds());
}

/// An entry, its time, the second in which its request came, and its check.
#[derive(Drop)]
struct Taken {
    entry: Entry,
    ctime: KTime,
    came: i64,
    check: [u8; 16],
}

/// Takes the entry at the front, which follows this check.
fn take_entry(
    alloc: Global,
    reader: &mut Reader<'_>,
    before: &[u8; 16],
) -> Result<Taken, JournalError>
    ensures found { IfOk result (λ t. reader.old ≡ checked before.now (written entry t.entry) ++ reader.new) }
    ensures check { IfOk result (λ t. t.check ≡ check_of before.now (written entry t.entry)) }
    ensures has { IfOk result (λ t. HasElement t.entry) }
    ensures ctime { IfOk result (λ t. t.ctime ≡ t.entry.ctime) }
    ensures came { IfOk result (λ t. t.came ≡ came t.entry) }
    ensures only { (e : Listed) (rest : List ℕ) → HasElement e
        → reader.old ≡ checked before.now (written entry e) ++ rest
        → UnlessMemory result (λ t. (t.entry ≡ e) × (reader.new ≡ rest)) }
    ensures shorter { IfOk result (λ _. length reader.new < length reader.old) }
{
    let element = take_element(reader, before)?;
    let found = entry_in(element.octets)?;
    Ok(Taken {
        entry: owned_entry(alloc, &found)?,
        ctime: found.ctime,
        came: came(found.ctime, found.age),
        check: element.check,
    })
}

/// Returns the second in which a request came, this long after this time.
pub(crate) fn came(ctime: KTime, age: i32) -> i64
    ensures { result ≡ ctime +ℤ age }
{
    ctime.seconds() + i64::from(age)
}

/// Reads octets as an entry.
pub(crate) fn entry_in(octets: &[u8]) -> Result<EntryRef<'_>, DerFault>
    ensures found { IfOk result (λ e. octets.now ≡ written entry e) }
    ensures spells { IfOk result (λ e. entry.Spells e octets.now) }
    ensures only { (e : Listed) → entry.Spells e octets.now → IsOkAnd result (λ x. x ≡ e) }
{
    read(octets)
}

fn owned_entry(alloc: Global, found: &EntryRef<'_>) -> Result<Entry, AllocError>
    ensures { IfOk result (λ entry. entry ≡ found.now) }
{
    Ok(Entry {
        client: found.client.to_name(alloc)?,
        ctime: found.ctime,
        cusec: found.cusec,
        age: found.age,
    })
}
