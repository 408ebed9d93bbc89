//! Sealing a journal, and removing one.
use crate::files::ServerFileError;
use crate::journal_files::{OpenedJournals, open_journals};
use crate::journal_parts::JournalPaths;
use crate::journal_store::{JournalPlace, SystemJournal};
use journal::{
    Found, FoundFiles, Part, Place, ResumeRefusal, SealOutcome, found_floor, read_part,
    seal_journal,
};
use krb_fields::Moment;
use std::alloc::Global;
use std::fs::File;
use std::io::Write;
use std::rt::Files;

/// Returns the word for why a start would not resume with a journal.
pub fn doubt_word(doubt: ResumeRefusal) -> &'static str {
    match doubt {
        ResumeRefusal::Absent => "Absent",
        ResumeRefusal::Damaged => "Damaged",
        ResumeRefusal::OtherRealm => "OtherRealm",
        ResumeRefusal::OtherBoot => "OtherBoot",
        ResumeRefusal::Unlinked => "Unlinked",
    }
}

/// Seals the journal at a place at this moment, if no server has it open and a start would resume with it.
pub fn seal_at_path<F: Files<File = File>, W: Write + Drop>(
    alloc: Global,
    journal: JournalPlace<'_, '_, F, W>,
    at: Moment,
) -> Result<SealOutcome, ServerFileError> {
    let OpenedJournals {
        journals,
        mut files,
    } = open_journals(alloc, journal)?;
    let place = Place {
        realm: realm_of(&journals.found.newer),
        boot: journals.boot.as_slice(),
        seal: journals.seal.as_slice(),
        at,
    };
    Ok(seal_journal(
        &mut files,
        &place,
        &journals.found.older,
        &journals.found.newer,
    )?)
}

/// Returns the realm of a journal, or no octets if there is none.
fn realm_of(found: &Found) -> &[u8] {
    match found {
        Found::Whole(journal) => journal.header.realm.as_slice(),
        Found::Nothing | Found::Broken(_) => &[],
    }
}

/// What a start without a journal does with one that is at its place.
#[derive(Clone, Copy, Debug, PartialEq, Eq)]
pub enum Leftover {
    /// It refuses to start.
    Refused,
    /// It removes it.
    Removed,
    /// It refuses to start, since it is to be the first.
    NotFirst,
}

/// Makes sure that no journal is at a place: one that is there is removed, or refused. Returns the floor that the
/// removed files asked for, if they showed anything: no time below it may be accepted.
pub fn refuse_journal<F: Files<File = File>, W: Write + Drop>(
    alloc: Global,
    place: JournalPlace<'_, '_, F, W>,
    leftover: Leftover,
) -> Result<Option<i64>, ServerFileError> {
    if !JournalPaths::new(alloc, place.path)?.are_there(place.files)? {
        return Ok(None);
    }
    match leftover {
        Leftover::Refused => Err(ServerFileError::Journal),
        Leftover::NotFirst => Err(ServerFileError::NotFirst),
        Leftover::Removed => match remove_journal(alloc, place) {
            Ok(floor) => Ok(floor),
            Err(fault) => Err(fault.of_journal_beside()),
        },
    }
}

/// Removes the journal at a place. Returns the floor that it asked for.
fn remove_journal<F: Files<File = File>, W: Write + Drop>(
    alloc: Global,
    place: JournalPlace<'_, '_, F, W>,
) -> Result<Option<i64>, ServerFileError> {
    let mut journal = SystemJournal::open(alloc, place)?;
    let found = FoundFiles {
        older: read_part(alloc, &mut journal, Part::Older)?,
        newer: read_part(alloc, &mut journal, Part::Newer)?,
        beside: read_part(alloc, &mut journal, Part::Beside)?,
    };
    let floor = found_floor(&found);
    journal.remove(alloc)?;
    Ok(floor)
}
