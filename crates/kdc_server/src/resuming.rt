//! What a start makes of the journals that it finds.
ghost use Rattle.std.specs.Prelude.{◌≡◌, ◌∷◌, [], IfOk, Some, None, true, false, is_some, option_copied};
ghost use Rattle.kdc_hub.specs.Wire.{Records};
ghost use Rattle.krb_fields.specs.Moment.{IsSecond};
ghost use Rattle.journal.specs.Finding.{MayFinish};
ghost use Rattle.kdc_server.specs.OnFiles.{HasFound};
ghost use Rattle.kdc_server.specs.Starting.{HasNoJournal, ReadJournals};
ghost use Rattle.kdc_server.specs.Resuming.{AreAt, IsDecided, are_none, is_there, known_before, may_be_first};
ghost use Rattle.kdc_server.specs.Resuming.{raised_floor, reading, second_before, started_state, with_removed};
ghost use Rattle.replay.specs.Opening.{opening_floor};
ghost use Rattle.journal.specs.declared.decision.Found.TheVariants.{Nothing};

use crate::host::Host;
use crate::options::ServeOptions;
use crate::starting::StartError;
use journal::{Found, FoundFiles, Place, Start, decide_start, greater};
use kdc_core::{Kdc, Opening};
use kdc_files::{Journals, OpenedJournals};
use krb_elements::Octets;
use krb_fields::{Moment, SKEW};
use principal_rows::Limits;
use principals::Database;
use std::alloc::{AllocError, Global};

/// By how many seconds the floor of a start is above its clock.
const RESTART_FLOOR: i64 = SKEW + 1;

/// The journals of a server, and their files, if it is to have a journal.
pub(crate) type ServerJournals<H> = OpenedJournals<Option<<H as Host>::JournalFiles>>;

/// Reads the journals at the options' path; without a path there are none, and none is beside the database. A start
/// that is to be the first is refused if there are some.
pub(crate) fn read_journals<'a, H: Host>(
    alloc: Global,
    host: &mut H,
    options: &ServeOptions<'a>,
) -> Result<ServerJournals<H>, StartError<'a, H::SocketFault>>
    ensures reading { IfOk result (λ opened.
        Records (H.recorded host.old) (reading (option_copied options.now.journal) opened.journals)
        (H.recorded host.new)) }
    ensures files { IfOk result (λ opened. is_some opened.files ≡ is_some (option_copied options.now.journal)) }
    ensures found { IfOk result (λ opened. AreAt (option_copied options.now.journal) opened.journals) }
    ensures first { IfOk result (λ opened. may_be_first options.now.is_first opened.journals ≡ true) }
    ensures reads { IfOk result (λ opened. is_some (option_copied options.now.journal) ≡ true
        → HasFound opened.journals (H.world host.old) (H.world host.new)) }
    ensures finished { is_some (option_copied options.now.journal) ≡ true
        → MayFinish (H.world host.old) (H.world host.new) }
{
    let opened = match options.journal {
        Some(path) => journals_at(alloc, host, path)?,
        None => without_journal(alloc, host, options)?,
    };
    if !may_be_first(options.is_first, &opened.journals) {
        return Err(StartError::NotFirst(options.journal_place()));
    }
    Ok(opened)
}

/// Reads the journals at a path.
fn journals_at<'a, H: Host>(
    alloc: Global,
    host: &mut H,
    path: &'a str,
) -> Result<ServerJournals<H>, StartError<'a, H::SocketFault>>
    ensures record { IfOk result (λ opened.
        Records (H.recorded host.old) (ReadJournals path.now opened.journals ∷ []) (H.recorded host.new)) }
    ensures files { IfOk result (λ opened. is_some opened.files ≡ true) }
    ensures kept { IfOk result (λ opened. opened.journals.removed ≡ None) }
    ensures reads { IfOk result (λ opened. HasFound opened.journals (H.world host.old) (H.world host.new)) }
    ensures finished { MayFinish (H.world host.old) (H.world host.new) }
{
    match host.read_journals(alloc, path) {
        Ok(opened) => Ok(OpenedJournals {
            journals: opened.journals,
            files: Some(opened.files),
        }),
        Err(fault) => Err(StartError::File(path, fault)),
    }
}

/// Makes sure that a server without a journal leaves none beside its database.
fn without_journal<'a, H: Host>(
    alloc: Global,
    host: &mut H,
    options: &ServeOptions<'a>,
) -> Result<ServerJournals<H>, StartError<'a, H::SocketFault>>
    ensures record { IfOk result (λ opened.
        Records (H.recorded host.old) (HasNoJournal opened.journals.removed ∷ []) (H.recorded host.new)) }
    ensures files { IfOk result (λ opened. opened.files ≡ None) }
    ensures older { IfOk result (λ opened. opened.journals.found.older ≡ Nothing) }
    ensures newer { IfOk result (λ opened. opened.journals.found.newer ≡ Nothing) }
    ensures beside { IfOk result (λ opened. opened.journals.found.beside ≡ Nothing) }
{
    match host.refuse_journal(alloc, options.is_first) {
        Ok(removed) => Ok(OpenedJournals {
            journals: no_journals(alloc, removed),
            files: None,
        }),
        Err(fault) => Err(StartError::File(options.db, fault)),
    }
}

fn no_journals(alloc: Global, removed: Option<i64>) -> Journals
    ensures older { result.found.older ≡ Nothing }
    ensures newer { result.found.newer ≡ Nothing }
    ensures beside { result.found.beside ≡ Nothing }
    ensures removed { result.removed ≡ removed }
{
    Journals {
        boot: Octets::new(Vec::new(alloc)),
        found: FoundFiles {
            older: Found::Nothing,
            newer: Found::Nothing,
            beside: Found::Nothing,
        },
        seal: Octets::new(Vec::new(alloc)),
        removed,
    }
}

/// Checks whether a start may be the first, if it is to be: there is no journal, not even a broken one, and none was
/// removed that showed anything.
fn may_be_first(is_first: bool, journals: &Journals) -> bool
    ensures { result ≡ may_be_first is_first journals.now }
{
    !is_first || are_none(journals)
}

fn are_none(journals: &Journals) -> bool
    ensures { result ≡ are_none journals.now }
{
    let found = &journals.found;
    !(is_there(&found.newer)
        || is_there(&found.older)
        || is_there(&found.beside)
        || journals.removed.is_some())
}

fn is_there(found: &Found) -> bool
    ensures { result ≡ is_there found.now }
{
    match found {
        Found::Nothing => false,
        Found::Broken(_) => true,
        Found::Whole(_) => true,
    }
}

/// Decides what a start at this moment makes of the journals.
pub(crate) fn decide(
    alloc: Global,
    rows: &Database,
    journals: &Journals,
    at: Moment,
) -> Result<Start, AllocError>
    ensures { IfOk result (λ start. IsDecided rows.now journals.now at start) }
{
    let place = Place {
        realm: rows.realm(),
        boot: journals.boot.as_slice(),
        seal: journals.seal.as_slice(),
        at,
    };
    match decide_start(alloc, &place, &journals.found) {
        Ok(start) => Ok(with_removed(journals.removed, start)),
        Err(error) => Err(error),
    }
}

/// Returns the start with the floor that removed files asked for.
fn with_removed(removed: Option<i64>, start: Start) -> Start
    ensures { result ≡ with_removed removed start }
{
    match start {
        Start::Resumes { resumption, check } => Start::Resumes { resumption, check },
        Start::Refuses { doubt, floor } => Start::Refuses {
            doubt,
            floor: greater(removed, floor),
        },
    }
}

/// Opens the KDC as it was decided.
pub(crate) fn open(
    alloc: Global,
    rows: Database,
    limits: Limits,
    opening: Opening,
    start: &Start,
) -> Result<Kdc, AllocError>
    ensures { IfOk result (λ kdc. kdc ≡ started_state rows limits opening start.now) }
{
    match start {
        Start::Resumes { resumption, .. } => Kdc::resume(alloc, rows, limits, resumption),
        Start::Refuses { floor, .. } => Kdc::open(alloc, rows, limits, raised(opening, *floor)),
    }
}

/// Returns the floor of a start.
pub(crate) fn floor_by(opening: Opening, start: &Start) -> i64
    ensures { result ≡ (known_before opening start.now).floor }
{
    match start {
        Start::Resumes { resumption, .. } => resumption.floor,
        Start::Refuses { floor, .. } => raised(opening, *floor).floor(),
    }
}

/// Returns how a start opens that refuses to resume, with the floor that the files of its journal ask for.
fn raised(opening: Opening, floor: Option<i64>) -> Opening
    ensures { opening_floor result ≡ raised_floor opening floor }
{
    match floor {
        Some(floor) => raise_floor(opening, floor),
        None => opening,
    }
}

fn raise_floor(opening: Opening, floor: i64) -> Opening
    ensures { opening_floor result ≡ raised_floor opening (Some floor) }
{
    if opening.floor() < floor {
        Opening::Restart(moment_before(floor))
    } else {
        opening
    }
}

/// Returns the moment of a start that opens with this floor.
fn moment_before(floor: i64) -> Moment
    ensures { result.sec ≡ second_before floor }
{
    Moment {
        sec: second_before(floor),
        usec: 0,
    }
}

/// Returns the second that a clock shows at a start with this floor: one that a moment can have.
fn second_before(floor: i64) -> i64
    ensures is { result ≡ second_before floor }
    ensures range { IsSecond result }
{
    if floor < RESTART_FLOOR {
        return 0;
    }
    (floor - RESTART_FLOOR).min(Moment::LAST_SECOND)
}
