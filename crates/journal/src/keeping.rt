//! Writing entries and beginnings, and the floor that the next journal begins with.
ghost use Rattle.std.specs.Prelude.{◌≡◌, ◌<◌, ◌+ℤ◌, ◌^◌, length, IfOk, IfSome};
ghost use Rattle.krb_elements.specs.Codec.{written};
ghost use Rattle.journal.specs.Decision.{above, came, floor_on, seen_of};
ghost use Rattle.journal.specs.Forms as forms;
ghost use Rattle.journal.specs.Keeping.{BeginsJournal, KeepsEntry, begun};

use crate::decision::Place;
use crate::entry::Entry;
use crate::header::Header;
use crate::reading::Journal;
use crate::writing::{Written, write_entry, write_header};
use krb_der::KTime;
use krb_elements::{Microseconds, Octets};
use krb_fields::{MAX_OCTETS, Moment};
use replay::Seen;
use std::alloc::{AllocError, Global};

/// The length of a check, in octets.
const CHECK_LEN: usize = 16;

/// Writes the entry of an authenticator, to follow a check. Its request came at this moment. Returns `None` if its name
/// or a number is too large.
pub fn write_seen(
    alloc: Global,
    check: &[u8; 16],
    at: Moment,
    seen: &Seen,
) -> Result<Option<Written>, AllocError>
    // Promise: an entry has the authenticator's client, time and microseconds, and the second in which its request
    // came, and stands behind the last check.
    ensures { IfOk result (λ written. IfSome written (λ w. KeepsEntry check.now at seen.now w.text.items w.check)) }
{
    let Some(entry) = make_entry(alloc, at, seen)? else {
        return Ok(None);
    };
    Ok(Some(write_entry(alloc, check, &entry)?))
}

/// Returns the entry of an authenticator, `None` if its name or a number is too large.
fn make_entry(alloc: Global, at: Moment, seen: &Seen) -> Result<Option<Entry>, AllocError>
    ensures is { IfOk result (λ entry. IfSome entry (λ e. seen_of e ≡ seen.now)) }
    ensures came { IfOk result (λ entry. IfSome entry (λ e. came e ≡ at.sec)) }
    ensures short { IfOk result (λ entry. IfSome entry (λ e. length (written forms.entry e) < 2 ^ 32)) }
{
    if !seen.client.is_within_limits() {
        return Ok(None);
    }
    let Some(ctime) = KTime::new(seen.ctime) else {
        return Ok(None);
    };
    let Some(cusec) = Microseconds::new(seen.cusec) else {
        return Ok(None);
    };
    let Some(age) = seconds_since(at, ctime) else {
        return Ok(None);
    };
    Ok(Some(Entry {
        client: seen.client.copy(alloc)?,
        ctime,
        cusec,
        age,
    }))
}

/// Returns how many seconds after a time the request came, if an `i32` is that number.
fn seconds_since(at: Moment, ctime: KTime) -> Option<i32>
    ensures { IfSome result (λ age. ctime +ℤ age ≡ at.sec) }
{
    i32::try_from(at.sec - ctime.seconds()).ok()
}

/// Writes the beginning of a journal. The link is the last check of the journal that went before, or empty. Every
/// authenticator that was seen before has a time below the floor. Returns `None` if a name or a number is too large.
pub fn write_beginning(
    alloc: Global,
    place: &Place<'_>,
    floor: i64,
    link: &[u8],
) -> Result<Option<Written>, AllocError>
    // Promise: a journal begins with its realm, boot, moment, floor and link.
    ensures { IfOk result (λ written. IfSome written
        (λ w. BeginsJournal (begun place.now floor link.now) w.text.items w.check)) }
{
    let Some(header) = make_header(alloc, place, floor, link)? else {
        return Ok(None);
    };
    Ok(Some(write_header(alloc, &header)?))
}

fn make_header(
    alloc: Global,
    place: &Place<'_>,
    floor: i64,
    link: &[u8],
) -> Result<Option<Header>, AllocError>
    ensures is { IfOk result (λ header. IfSome header (λ h. h ≡ begun place.now floor link.now)) }
    ensures short { IfOk result (λ header. IfSome header (λ h. length (written forms.header h) < 2 ^ 32)) }
{
    if place.realm.len() > MAX_OCTETS || place.boot.len() > MAX_OCTETS || link.len() > CHECK_LEN {
        return Ok(None);
    }
    let Some(floor) = KTime::new(floor) else {
        return Ok(None);
    };
    Ok(Some(Header {
        realm: Octets::from_slice(alloc, place.realm)?,
        boot: Octets::from_slice(alloc, place.boot)?,
        at: place.at.time(),
        floor,
        link: Octets::from_slice(alloc, link)?,
    }))
}

/// Returns a second above a time and not below another second.
pub fn above(floor: i64, ctime: KTime) -> i64
    ensures { result ≡ above floor ctime }
{
    floor.max(ctime.seconds() + 1)
}

/// Returns the floor of a server that goes on with a journal: it is not below this floor, and above all that the
/// journal holds, and the one before it.
pub fn floor_on(floor: i64, journal: &Journal) -> i64
    ensures { result ≡ floor_on floor journal.now }
{
    floor.max(journal.high)
}
