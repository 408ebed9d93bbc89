//! Deciding how to start from the journals that are found.
ghost use Rattle.std.specs.Prelude.{◌≡◌, ◌-ℤ◌, ◌+ℤ◌, ◌+◌, ◌++◌, map, pos, IfOk, None, OnOk};
ghost use Rattle.std.specs.Int.{int_max, int_min};
ghost use Rattle.krb_fields.specs.Skew.{skew};
ghost use Rattle.journal.specs.Decision.{doubt_of, entries_behind, floor_behind, goes_on_behind};
ghost use Rattle.journal.specs.Decision.{is_above, is_behind, is_early, is_first, is_foreign, is_later, is_linked};
ghost use Rattle.journal.specs.Decision.{is_other_boot, is_other_realm, is_sealed, is_unlinked, resumed_floor};
ghost use Rattle.journal.specs.Decision.{resumption_of};
ghost use Rattle.journal.specs.Decision.{seal_of, seen_of, start_by, start_of};
ghost use Rattle.journal.specs.Decision.{doubt_without, floor_since, found_floor, goes_behind, greater, is_cut};
ghost use Rattle.journal.specs.Decision.{is_missealed, is_nothing, last_second, shown_by};

use crate::entry::Entry;
use crate::keeping::floor_on;
use crate::reading::Journal;
use krb_elements::Seq;
use krb_fields::{Moment, SKEW};
use replay::{Opening, Resumption, Seen};
use rule_lists::first_holding;
use std::alloc::{AllocError, Global};
use std::fmt;

/// What is at the path of a journal.
#[derive(Drop)]
pub enum Found {
    /// No file.
    Nothing,
    /// A file that is no whole journal, or that others may write. If it still shows authenticators, this is the second
    /// below which no time may be accepted. `None` if it shows none.
    Broken(Option<i64>),
    /// A whole journal.
    Whole(Journal),
}

/// What is found in the three files of a journal.
#[derive(Drop)]
pub struct FoundFiles {
    /// In the file that came before the newer one.
    pub older: Found,
    /// In the file that is appended to.
    pub newer: Found,
    /// In a file that was begun, and has not become the newer one yet.
    pub beside: Found,
}

/// Where and when a server starts, or a journal is sealed.
#[derive(Clone, Copy)]
pub struct Place<'a> {
    /// The realm that the server serves. When a journal is sealed, it is the realm of that journal.
    pub realm: &'a [u8],
    /// The system's name for its current boot.
    pub boot: &'a [u8],
    /// The seal beside the journal; empty if there is no seal.
    pub seal: &'a [u8],
    /// The moment of the start or of the sealing, by the system's clock.
    pub at: Moment,
}

/// Why a start can't resume.
#[derive(Clone, Copy, Debug, PartialEq, Eq)]
pub enum ResumeRefusal {
    /// There is no journal.
    Absent,
    /// An entry was cut or changed, or one was left out or added before others; the seal is that of another journal;
    /// the newer file is missing; or others may write the file. Two things go unnoticed: that a journal without a seal
    /// lacks its last entries, and that an older journal was put back.
    Damaged,
    /// The journal is of another realm.
    OtherRealm,
    /// The system was booted since then. The journal was not sealed before, so its end may be lost.
    OtherBoot,
    /// The journal that went before this one is missing.
    Unlinked,
}

impl fmt::Display for ResumeRefusal {
    fn fmt<W: fmt::Write>(&self, f: &mut fmt::Formatter<W>) -> fmt::Result {
        f.write_str(match self {
            ResumeRefusal::Absent => "there is none",
            ResumeRefusal::Damaged => "it is damaged, or others may write it",
            ResumeRefusal::OtherRealm => "it is of another realm",
            ResumeRefusal::OtherBoot => "the system was booted since, and it was not sealed before",
            ResumeRefusal::Unlinked => "the journal that goes before it is missing",
        })
    }
}

/// How a server starts.
#[derive(Drop)]
pub enum Start {
    /// It resumes with these authenticators.
    Resumes {
        resumption: Resumption,
        /// The check behind which its journal goes on. `None` if the clock is behind the journal: then another file is
        /// begun.
        check: Option<[u8; 16]>,
    },
    /// It refuses all authenticators that may have come before it.
    Refuses {
        doubt: ResumeRefusal,
        /// The floor that the files ask for, if they show any authenticator or header. It is above the times of all
        /// that they show, so that it holds though the clock is behind.
        floor: Option<i64>,
    },
}

/// Decides how a server starts.
pub fn decide_start(
    alloc: Global,
    place: &Place<'_>,
    found: &FoundFiles,
) -> Result<Start, AllocError>
    // Promise: **a start resumes exactly if** the journal is whole, of this realm, of this boot or sealed, and what it
    // links to is there, likewise whole and of this realm, and below its floor.
    // Promise: a start that doesn't resume gives the first reason why not.
    // Promise: a start that resumes has the floor and the entries of both files.
    // Promise: if the clock of a start that resumes is behind both files, its floor is above all that they hold, and
    // not below that of a start that can't resume.
    // Promise, as every_journal_life: **a start that refuses ..
    ensures { IfOk result (λ start.
        start ≡ start_of place.now found.now.older found.now.newer found.now.beside) }
{
    let floor = found_floor(found);
    match &found.newer {
        Found::Nothing => Ok(Start::Refuses {
            doubt: doubt_without(&found.older, &found.beside),
            floor,
        }),
        Found::Broken(_) => Ok(Start::Refuses {
            doubt: ResumeRefusal::Damaged,
            floor,
        }),
        Found::Whole(journal) => match find_refusal(place, &found.older, journal) {
            Some(doubt) => Ok(Start::Refuses { doubt, floor }),
            None => resumes(alloc, place, found, journal),
        },
    }
}

/// Returns the start of a server that resumes with this journal.
fn resumes(
    alloc: Global,
    place: &Place<'_>,
    found: &FoundFiles,
    journal: &Journal,
) -> Result<Start, AllocError>
    ensures { IfOk result (λ start.
        start ≡ start_by place.now found.now.older journal.now found.now.beside None) }
{
    Ok(Start::Resumes {
        resumption: make_resumption(alloc, place, &found.older, journal)?,
        check: goes_on_behind(place, &found.older, journal),
    })
}

/// Returns why a server can't resume without a newer file.
fn doubt_without(older: &Found, beside: &Found) -> ResumeRefusal
    ensures { result ≡ doubt_without older.now beside.now }
{
    if is_nothing(older) && is_nothing(beside) {
        ResumeRefusal::Absent
    } else {
        ResumeRefusal::Damaged
    }
}

fn is_nothing(found: &Found) -> bool
    ensures { result ≡ is_nothing found.now }
{
    match found {
        Found::Nothing => true,
        Found::Broken(_) => false,
        Found::Whole(_) => false,
    }
}

/// Returns the floor that the files of a journal ask for, if they show anything: no time below it may be accepted
/// by a start that does not resume with them.
pub fn found_floor(found: &FoundFiles) -> Option<i64>
    // Promise, as every_journal_life: **a start that refuses ..
    ensures { result ≡ found_floor found.now.older found.now.newer found.now.beside }
{
    greater(
        file_floor(&found.older),
        greater(file_floor(&found.newer), file_floor(&found.beside)),
    )
}

/// Returns the floor that one of the files asks for.
fn file_floor(found: &Found) -> Option<i64>
    ensures { result ≡ shown_by found.now }
{
    match found {
        Found::Nothing => None,
        Found::Broken(floor) => *floor,
        Found::Whole(journal) => Some(floor_since(journal.high, journal.latest)),
    }
}

/// Returns the greater of two floors, if there is one.
pub fn greater(floor: Option<i64>, other: Option<i64>) -> Option<i64>
    ensures { result ≡ greater floor other }
{
    match (floor, other) {
        (None, other) => other,
        (Some(floor), None) => Some(floor),
        (Some(floor), Some(other)) => Some(floor.max(other)),
    }
}

/// Returns the greater of a floor and of that of a start whose clock shows this second. It is at most the last second
/// that a time can have.
pub(crate) fn floor_since(floor: i64, second: i64) -> i64
    ensures { result ≡ floor_since floor second }
{
    floor.max(restart_floor(second)).min(Moment::LAST_SECOND)
}

/// Returns the floor of a start whose clock shows this second, or the last second that a time can have.
fn restart_floor(second: i64) -> i64
    ensures { result ≡ int_min (second +ℤ pos (skew + 1)) last_second }
{
    if second < Moment::LAST_SECOND - SKEW - 1 {
        second + SKEW + 1
    } else {
        Moment::LAST_SECOND
    }
}

/// Checks whether a turn was cut: the newer file is missing, and the file beside goes on behind the older one.
pub(crate) fn is_cut(found: &FoundFiles) -> bool
    ensures { result ≡ is_cut found.now.older found.now.newer found.now.beside }
{
    is_nothing(&found.newer) && goes_behind(&found.beside, &found.older)
}

fn goes_behind(found: &Found, before: &Found) -> bool
    ensures { result ≡ goes_behind found.now before.now }
{
    match (found, before) {
        (Found::Whole(journal), Found::Whole(before)) => is_behind(journal, before),
        _ => false,
    }
}

/// Returns the seal of these journals: the last check of the newer one, if a start would resume with both.
pub(crate) fn decide_seal(
    place: &Place<'_>,
    older: &Found,
    newer: &Found,
) -> Result<[u8; 16], ResumeRefusal>
    ensures { result ≡ seal_of place.now older.now newer.now }
{
    match newer {
        Found::Nothing => Err(ResumeRefusal::Absent),
        Found::Broken(_) => Err(ResumeRefusal::Damaged),
        Found::Whole(journal) => match find_refusal(place, older, journal) {
            Some(doubt) => Err(doubt),
            None => Ok(journal.check),
        },
    }
}

/// Returns why the server can't resume with this journal, if it can't.
fn find_refusal(place: &Place<'_>, older: &Found, journal: &Journal) -> Option<ResumeRefusal>
    ensures { result ≡ doubt_of place.now older.now journal.now }
{
    first_holding(&[
        (is_other_realm(place, journal), ResumeRefusal::OtherRealm),
        (is_missealed(place, journal), ResumeRefusal::Damaged),
        (is_other_boot(place, journal), ResumeRefusal::OtherBoot),
        (is_unlinked(place, older, journal), ResumeRefusal::Unlinked),
    ])
}

fn is_other_realm(place: &Place<'_>, journal: &Journal) -> bool
    ensures { result ≡ is_other_realm place.now journal.now }
{
    journal.header.realm.as_slice() != place.realm
}

fn is_other_boot(place: &Place<'_>, journal: &Journal) -> bool
    ensures { result ≡ is_other_boot place.now journal.now }
{
    !(journal.header.boot.as_slice() == place.boot || is_sealed(place, journal))
}

/// Checks whether there is a seal that is not this journal's: it is another journal's, or this one has lost its end.
fn is_missealed(place: &Place<'_>, journal: &Journal) -> bool
    ensures { result ≡ is_missealed place.now journal.now }
{
    let none: &[u8] = &[];
    !(place.seal == none || is_sealed(place, journal))
}

/// Checks whether the seal that a start finds is that of this journal.
fn is_sealed(place: &Place<'_>, journal: &Journal) -> bool
    ensures { result ≡ is_sealed place.now journal.now }
{
    place.seal == journal.check.as_slice()
}

fn is_later(place: &Place<'_>, journal: &Journal) -> bool
    ensures { result ≡ is_later place.now journal.now }
{
    place.at.sec < journal.latest
}

/// Checks whether no journal went before this one.
fn is_first(journal: &Journal) -> bool
    ensures { result ≡ is_first journal.now }
{
    let none: &[u8] = &[];
    journal.header.link.as_slice() == none
}

/// Checks whether a journal's floor is above all that another one holds.
fn is_above(journal: &Journal, before: &Journal) -> bool
    ensures { result ≡ is_above journal.now before.now }
{
    before.high <= journal.header.floor.seconds()
}

/// Checks whether a journal goes on behind another one.
fn is_behind(journal: &Journal, before: &Journal) -> bool
    ensures { result ≡ is_behind journal.now before.now }
{
    before.check.as_slice() == journal.header.link.as_slice() && is_above(journal, before)
}

/// Checks whether a journal is the first, or the one before it is there, and whole.
fn is_linked(journal: &Journal, older: &Found) -> bool
    ensures { result ≡ is_linked journal.now older.now }
{
    match older {
        Found::Nothing | Found::Broken(_) => is_first(journal),
        Found::Whole(before) => is_first(journal) || is_behind(journal, before),
    }
}

/// Checks whether the journal before this one is of another realm.
fn is_foreign(place: &Place<'_>, journal: &Journal, older: &Found) -> bool
    ensures { result ≡ is_foreign place.now journal.now older.now }
{
    match older {
        Found::Nothing | Found::Broken(_) => false,
        Found::Whole(before) => !is_first(journal) && is_other_realm(place, before),
    }
}

fn is_unlinked(place: &Place<'_>, older: &Found, journal: &Journal) -> bool
    ensures { result ≡ is_unlinked place.now older.now journal.now }
{
    !is_linked(journal, older) || is_foreign(place, journal, older)
}

/// Checks whether the clock of a start is behind its journal.
fn is_early(place: &Place<'_>, journal: &Journal, older: &Found) -> bool
    ensures { result ≡ is_early place.now journal.now older.now }
{
    match older {
        Found::Nothing | Found::Broken(_) => is_later(place, journal),
        Found::Whole(before) => {
            is_later(place, journal) || (!is_first(journal) && is_later(place, before))
        }
    }
}

/// Returns the check behind which the journal goes on, unless the clock is behind it.
fn goes_on_behind(place: &Place<'_>, older: &Found, journal: &Journal) -> Option<[u8; 16]>
    ensures { result ≡ goes_on_behind place.now older.now journal.now }
{
    if is_early(place, journal, older) {
        None
    } else {
        Some(journal.check)
    }
}

/// Returns what the server resumes with.
fn make_resumption(
    alloc: Global,
    place: &Place<'_>,
    older: &Found,
    journal: &Journal,
) -> Result<Resumption, AllocError>
    ensures { IfOk result (λ r. r ≡ resumption_of place.now older.now journal.now) }
{
    let mut seen = Vec::new(alloc);
    see_behind(alloc, journal, older, &mut seen)?;
    Ok(Resumption {
        floor: resumed_floor(place, journal, older),
        seen: Seq::from_vec(seen),
    })
}

/// Returns the floor of a server that resumes.
fn resumed_floor(place: &Place<'_>, journal: &Journal, older: &Found) -> i64
    ensures { result ≡ resumed_floor place.now journal.now older.now }
{
    if is_early(place, journal, older) {
        floor_on(Opening::Restart(place.at).floor(), journal)
    } else {
        skewed_floor(place, journal, older)
    }
}

/// Returns the floor of the journals, or the second before which times are too old, whichever is greater.
fn skewed_floor(place: &Place<'_>, journal: &Journal, older: &Found) -> i64
    ensures { result ≡ int_max (floor_behind journal.now older.now) (place.now.at.sec -ℤ pos skew) }
{
    floor_behind(journal, older).max(place.at.sec - SKEW)
}

fn floor_behind(journal: &Journal, older: &Found) -> i64
    ensures { result ≡ floor_behind journal.now older.now }
{
    match older {
        Found::Nothing | Found::Broken(_) => journal.header.floor.seconds(),
        Found::Whole(before) => {
            if is_first(journal) {
                journal.header.floor.seconds()
            } else {
                before.header.floor.seconds()
            }
        }
    }
}

/// Adds the authenticators of a journal, after those of the one before it if there is one.
fn see_behind(
    alloc: Global,
    journal: &Journal,
    older: &Found,
    seen: &mut Vec<Seen>,
) -> Result<(), AllocError>
    ensures { OnOk result (seen.new.items ≡ seen.old.items ++ map seen_of (entries_behind journal.now older.now)) }
{
    if let Found::Whole(before) = older {
        if !is_first(journal) {
            see_all(alloc, before.entries.as_slice(), seen)?;
        }
    }
    see_all(alloc, journal.entries.as_slice(), seen)
}

/// Adds the authenticators of these entries.
fn see_all(alloc: Global, entries: &[Entry], seen: &mut Vec<Seen>) -> Result<(), AllocError>
    ensures { OnOk result (seen.new.items ≡ seen.old.items ++ map seen_of entries.now) }
{
    for entry in entries {
        seen.push(Seen {
            client: entry.client.copy(alloc)?,
            ctime: entry.ctime.seconds(),
            cusec: entry.cusec.get(),
        })?;
    }
    Ok(())
}
