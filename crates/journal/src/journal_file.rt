//! The journal of a running server: what it appends, and when its files take turns.
ghost use Rattle.std.specs.Prelude.{◌≡◌, ◌-ℤ◌, ℤ, pos, true, false, [], Option, Some, None, IfOk, IfSome, is_some};
ghost use Rattle.std.specs.Result.{is_ok};
ghost use Rattle.krb_fields.specs.Skew.{skew};
ghost use Rattle.replay.specs.declared.seen.Resumption.{Resumption};
ghost use Rattle.replay.specs.declared.seen.Seen.{Seen as SeenBefore};
ghost use Rattle.journal.specs.Appending.{HasAppended, HasBegun, HasMended, HasTail, MayKeep, MayTurn};
ghost use Rattle.journal.specs.Appending.{HasKeptOne, HasStarted, HasTurned, kept_by};
ghost use Rattle.journal.specs.Holding.{Counts, HasKept, IsRaised, IsSafe, IsStart, StillThere, is_whole, known_by};
ghost use Rattle.journal.specs.Holding.{with_one};
ghost use Rattle.journal.specs.Keeping.{BeginsJournal, begun};
ghost use Rattle.journal.specs.World.{Leaves, SameSeal};

use crate::decision::{Found, Place, Start};
use crate::fault::Unfit;
use crate::files::{BeginError, Begun, JournalFiles, Left, News};
use crate::keeping::{floor_on, write_beginning, write_seen};
use crate::reading::Journal;
use crate::writing::Written;
use krb_elements::Octets;
use krb_fields::Moment;
use replay::Seen;
use std::alloc::{AllocError, Global};

/// The journal goes on in another file more than this many seconds after the current one was begun. By then the first
/// authenticators in that file are too old to be accepted again.
const TURN: i64 = 600;

/// How many seconds after a failed turn the next one is tried.
const BETWEEN_TURNS: i64 = 60;

/// An authenticator could not be kept.
#[derive(Clone, Copy, Debug, PartialEq, Eq)]
pub struct NotKept;

/// The end of the file that is appended to.
#[derive(Clone, Copy)]
struct Tail {
    /// The last check.
    check: [u8; 16],
    /// The last second in which this file is appended to.
    last: i64,
    /// How many octets may still be appended to it.
    left: u64,
}

/// What a file is begun with, and the most octets that are appended to it.
#[derive(Drop)]
struct Next<'a> {
    place: Place<'a>,
    floor: Option<i64>,
    most: u64,
}

/// An authenticator, and when its request came.
#[derive(Drop)]
struct TimedSeen<'a> {
    at: Moment,
    seen: &'a Seen,
}

/// The journal of a running server.
#[derive(Drop)]
pub struct JournalFile<F> {
    files: F,
    realm: Octets,
    boot: Octets,
    /// The size in octets at which the next file is begun. The last entry may exceed it.
    most: u64,
    /// `None` while an authenticator could not be kept.
    tail: Option<Tail>,
    /// The least second that is above the time of every authenticator that was handed over, and not below the floor of
    /// the start, if an `i64` is.
    floor: Option<i64>,
    /// Whether it was said that an authenticator could not be kept.
    is_said: bool,
}

impl<F: JournalFiles> JournalFile<F> {
    /// Returns the journal of a server of this realm, before its start. `boot` is the system's name for its current
    /// boot, `floor` the floor of the start, and `most` the size in octets at which the files take turns.
    pub fn new(files: F, realm: Octets, boot: Octets, floor: i64, most: u64) -> JournalFile<F>
        ensures files { result.files ≡ files }
        ensures realm { result.realm ≡ realm }
        ensures boot { result.boot ≡ boot }
        ensures tail { result.tail ≡ None }
        ensures floor { result.floor ≡ Some floor }
    {
        JournalFile {
            files,
            realm,
            boot,
            most,
            tail: None,
            floor: Some(floor),
            is_said: false,
        }
    }

    /// Returns its files.
    pub fn into_files(self) -> F
        ensures { result ≡ self.files }
    {
        self.files
    }

    /// Breaks the seal, and begins to append. If the start resumes with the newer file, which has `len` octets, the
    /// journal goes on behind it, or in another file if that one was begun in another boot. Otherwise it begins a file
    /// in place of both, with the floor of the start.
    pub fn start(
        &mut self,
        alloc: Global,
        at: Moment,
        start: &Start,
        newer: &Found,
        len: u64,
    ) -> Result<(), F::Fault>
        // The files hold all that the start knows.
        // Promise (kept, safe): **what files hold after each call is known**: over files whose calls may fail, a
        // journal that was begun holds all that its start knows.
        // Promise (kept, safe): so it is though a failed append may leave a part of its text, and a file that could not
        // be begun a part beside the others, the files between two steps, or itself, not surely on the disk.
        ensures kept { IfOk result (λ _. (floor : ℤ) → self.old.floor ≡ Some floor
            → IfSome (F.world self.old.files) (IsStart at floor newer.now start.now)
            → HasKept F.world (at.sec -ℤ pos skew) (known_by floor start.now) (known_by floor start.now)
            self.new.files self.new.tail self.new.floor) }
        // What they had they still have, if a floor with which it does not resume is above that.
        // Promise (there, stays), as every_journal: **what was kept stays ..
        // Promise, as every_journal: an authenticator that was ..
        ensures there { IfOk result (λ _. (floor : ℤ) (before : SeenBefore) → self.old.floor ≡ Some floor
            → IfSome (F.world self.old.files) (IsStart at floor newer.now start.now)
            → Counts start.now floor before → StillThere before (F.world self.old.files) (F.world self.new.files)) }
        // And if it fails, no other start resumes without what the files held.
        ensures safe { (low : ℤ) (r : Resumption) → IfSome (F.world self.old.files) (IsSafe low r)
            → is_ok result ≡ false → IfSome (F.world self.new.files) (IsSafe low r) }
        ensures stays { (before : SeenBefore) → is_ok result ≡ false
            → StillThere before (F.world self.old.files) (F.world self.new.files) }
        // No seal is left, so a start in another boot refuses.
        // Promise: a start breaks the seal, or fails; no call of a running server makes one.
        ensures broken { IfOk result (λ _. IfSome (F.world self.new.files) (λ w. w.seal ≡ [])) }
    {
        self.files.unseal()?;
        let place = Place {
            realm: self.realm.as_slice(),
            boot: self.boot.as_slice(),
            seal: &[],
            at,
        };
        let left = self.most.saturating_sub(len);
        if let Some((tail, floor)) = tail_behind(start, newer, place.boot, left) {
            self.floor = Some(floor);
            let next = Next {
                place,
                floor: self.floor,
                most: self.most,
            };
            self.tail = turn_if_due(alloc, &mut self.files, &next, Some(tail));
            return Ok(());
        }
        let next = Next {
            place,
            floor: self.floor,
            most: self.most,
        };
        match begin_in_place(alloc, &mut self.files, &mut self.is_said, &next) {
            Ok(tail) => {
                self.tail = tail;
                Ok(())
            }
            Err(fault) => Err(fault),
        }
    }

    /// Keeps an authenticator, whose request came at this moment, and whatever could not be kept before.
    pub fn keep(&mut self, alloc: Global, at: Moment, seen: &Seen) -> Result<(), NotKept>
        // Promise, as JournalFile::start: so it is though ..
        // Promise: after `keep` and `mend` that succeeded the journal holds every authenticator that was handed over
        // since, and one may resume with it.
        // Promise (kept, whole): where a `keep` or a `mend` failed, the journal says so, and what was kept before stays
        // kept.
        ensures kept { (low : ℤ) (kept all : Resumption)
            → HasKept F.world low kept all self.old.files self.old.tail self.old.floor
            → HasKept F.world low (kept_by result kept (with_one all seen.now)) (with_one all seen.now)
            self.new.files self.new.tail self.new.floor }
        // What the files had they still have.
        // Promise, as every_journal: **what was kept stays ..
        // Promise, as every_journal: an authenticator that was ..
        ensures there { (low : ℤ) (kept all : Resumption)
            → HasKept F.world low kept all self.old.files self.old.tail self.old.floor
            → (before : SeenBefore) → StillThere before (F.world self.old.files) (F.world self.new.files) }
        ensures whole { is_whole self.new ≡ is_ok result }
        // It never seals the journal.
        // Promise, as JournalFile::start: a start breaks the ..
        ensures seal { Leaves SameSeal (F.world self.old.files) (F.world self.new.files) }
    {
        let place = Place {
            realm: self.realm.as_slice(),
            boot: self.boot.as_slice(),
            seal: &[],
            at,
        };
        let next = Next {
            place,
            floor: self.floor,
            most: self.most,
        };
        let tail = turn_if_due(alloc, &mut self.files, &next, self.tail);
        let floor = raised(self.floor, seen.ctime);
        let timed = TimedSeen { at, seen };
        let tail = append(alloc, &mut self.files, &mut self.is_said, &timed, tail);
        self.floor = floor;
        self.tail = tail;
        self.mend(alloc, at)
    }

    /// Keeps whatever could not be kept before.
    pub fn mend(&mut self, alloc: Global, at: Moment) -> Result<(), NotKept>
        // Promise, as JournalFile::start: so it is though ..
        // Promise, as JournalFile::keep: after `keep` and `mend` ..
        // Promise (kept, whole), as JournalFile::keep: where a `keep` or ..
        ensures kept { (low : ℤ) (kept all : Resumption)
            → HasKept F.world low kept all self.old.files self.old.tail self.old.floor
            → HasKept F.world low (kept_by result kept all) all self.new.files self.new.tail self.new.floor }
        // Promise, as every_journal: **what was kept stays ..
        // Promise, as every_journal: an authenticator that was ..
        ensures there { (low : ℤ) (kept all : Resumption)
            → HasKept F.world low kept all self.old.files self.old.tail self.old.floor
            → (before : SeenBefore) → StillThere before (F.world self.old.files) (F.world self.new.files) }
        ensures whole { is_whole self.new ≡ is_ok result }
        // If there is nothing to make good, it does nothing.
        ensures still { is_whole self.old ≡ true → is_ok result ≡ true }
        // Promise, as JournalFile::start: a start breaks the ..
        ensures seal { Leaves SameSeal (F.world self.old.files) (F.world self.new.files) }
    {
        if self.tail.is_some() {
            return Ok(());
        }
        let place = Place {
            realm: self.realm.as_slice(),
            boot: self.boot.as_slice(),
            seal: &[],
            at,
        };
        let next = Next {
            place,
            floor: self.floor,
            most: self.most,
        };
        let tail = begin_anew(alloc, &mut self.files, &mut self.is_said, &next);
        self.tail = tail;
        match tail {
            Some(_) => Ok(()),
            None => Err(NotKept),
        }
    }
}

/// Returns the end of the newer file and the floor of a server that goes on behind what its start found. `None` if it
/// doesn't.
fn tail_behind(start: &Start, newer: &Found, boot: &[u8], left: u64) -> Option<(Tail, i64)>
    ensures { HasTail start.now newer.now result }
{
    let Start::Resumes { resumption, check } = start else {
        return None;
    };
    let Some(check) = check else {
        return None;
    };
    let Found::Whole(journal) = newer else {
        return None;
    };
    let tail = Tail {
        check: *check,
        last: last_second(journal, boot),
        left,
    };
    Some((tail, floor_on(resumption.floor, journal)))
}

/// Returns the last second in which a file is appended to: none, if it was begun in another boot than this one.
fn last_second(journal: &Journal, boot: &[u8]) -> i64 {
    if journal.header.boot.as_slice() == boot {
        journal.header.at.seconds().saturating_add(TURN)
    } else {
        i64::MIN
    }
}

/// Begins a file in place of both, at a start. Returns `None` if it is in place, and the system may not have that on
/// the disk: then it is begun again before a reply.
fn begin_in_place<F: JournalFiles>(
    alloc: Global,
    files: &mut F,
    is_said: &mut bool,
    next: &Next<'_>,
) -> Result<Option<Tail>, F::Fault>
    ensures { HasStarted next.now.place next.now.floor (F.world files.old) result (F.world files.new) }
{
    match begin(alloc, files, next, &[], Begun::Anew) {
        Ok(tail) => Ok(Some(tail)),
        Err(BeginError { fault, left }) => match left {
            Left::Before => Err(fault),
            Left::Between => Err(fault),
            Left::InPlace => {
                say_lost(files, is_said, fault);
                Ok(None)
            }
        },
    }
}

/// Begins a file with this link.
fn begin<F: JournalFiles>(
    alloc: Global,
    files: &mut F,
    next: &Next<'_>,
    link: &[u8],
    how: Begun,
) -> Result<Tail, BeginError<F::Fault>>
    ensures { HasBegun next.now.place next.now.floor link.now how (F.world files.old) result (F.world files.new) }
{
    let written = match fit(beginning(alloc, &next.place, next.floor, link)) {
        Ok(written) => written,
        Err(fault) => {
            return Err(BeginError {
                fault,
                left: Left::Before,
            });
        }
    };
    files.begin(alloc, &written.text, how)?;
    Ok(Tail {
        check: written.check,
        last: next.place.at.sec.saturating_add(TURN),
        left: next.most.saturating_sub(written.text.len() as u64),
    })
}

/// Returns what was written, and fails if nothing was.
fn fit<E: From<Unfit> + From<AllocError>>(
    written: Result<Option<Written>, AllocError>,
) -> Result<Written, E>
    ensures { IfOk result (λ w. written ≡ Ok (Some w)) }
{
    match written? {
        Some(written) => Ok(written),
        None => Err(E::from(Unfit)),
    }
}

/// Writes the beginning of a file. Returns `None` if there is no floor, or if a name or a number is too large.
fn beginning(
    alloc: Global,
    place: &Place<'_>,
    floor: Option<i64>,
    link: &[u8],
) -> Result<Option<Written>, AllocError>
    ensures { IfOk result (λ written. IfSome written (λ w. (f : ℤ) × (floor ≡ Some f)
        × BeginsJournal (begun place.now f link.now) w.text.items w.check)) }
{
    match floor {
        Some(floor) => write_beginning(alloc, place, floor, link),
        None => Ok(None),
    }
}

/// Goes on in another file if that is due, and in the same file if beginning one fails.
fn turn_if_due<F: JournalFiles>(
    alloc: Global,
    files: &mut F,
    next: &Next<'_>,
    tail: Option<Tail>,
) -> Option<Tail>
    ensures { MayTurn next.now.place next.now.floor tail (F.world files.old) result (F.world files.new) }
{
    match tail {
        Some(tail) => {
            if next.place.at.sec <= tail.last && tail.left > 0 {
                Some(tail)
            } else {
                turn(alloc, files, next, tail)
            }
        }
        None => None,
    }
}

/// Begins a file that links to the newer one, which becomes the older one.
fn turn<F: JournalFiles>(alloc: Global, files: &mut F, next: &Next<'_>, tail: Tail) -> Option<Tail>
    ensures { HasTurned next.now.place next.now.floor tail (F.world files.old) result (F.world files.new) }
{
    match begin(alloc, files, next, &tail.check, Begun::Linked) {
        Ok(end) => Some(end),
        Err(BeginError { fault, left }) => {
            files.say(News::NotTurned(fault));
            match left {
                Left::Before => Some(Tail {
                    check: tail.check,
                    last: next.place.at.sec.saturating_add(BETWEEN_TURNS),
                    left: next.most,
                }),
                Left::Between => None,
                Left::InPlace => None,
            }
        }
    }
}

/// Returns the least second that is not below a floor, and above a time.
fn raised(floor: Option<i64>, ctime: i64) -> Option<i64>
    ensures { IsRaised floor ctime result }
{
    let floor = floor?;
    let above = ctime.checked_add(1)?;
    Some(floor.max(above))
}

/// Appends the entry of an authenticator behind the end of the newer file. Returns the end then, `None` if it failed.
fn append<F: JournalFiles>(
    alloc: Global,
    files: &mut F,
    is_said: &mut bool,
    timed: &TimedSeen<'_>,
    tail: Option<Tail>,
) -> Option<Tail>
    ensures { MayKeep timed.now.at timed.now.seen.now tail (F.world files.old) result (F.world files.new) }
{
    match append_seen(alloc, files, timed, tail?) {
        Ok(next) => Some(next),
        Err(fault) => {
            say_lost(files, is_said, fault);
            None
        }
    }
}

/// Appends the entry of an authenticator behind the end of the newer file. Returns the end then.
fn append_seen<F: JournalFiles>(
    alloc: Global,
    files: &mut F,
    timed: &TimedSeen<'_>,
    tail: Tail,
) -> Result<Tail, F::Fault>
    ensures { HasAppended timed.now.at timed.now.seen.now tail (F.world files.old) result (F.world files.new) }
{
    let written = fit::<F::Fault>(write_seen(alloc, &tail.check, timed.at, timed.seen))?;
    files.append(&written.text)?;
    Ok(Tail {
        check: written.check,
        last: tail.last,
        left: tail.left.saturating_sub(written.text.len() as u64),
    })
}

/// Begins a file in place of both, with no link. Its floor is above all that could not be kept.
fn begin_anew<F: JournalFiles>(
    alloc: Global,
    files: &mut F,
    is_said: &mut bool,
    next: &Next<'_>,
) -> Option<Tail>
    ensures { HasMended next.now.place next.now.floor (F.world files.old) result (F.world files.new) }
{
    match begin(alloc, files, next, &[], Begun::Roomy) {
        Ok(tail) => {
            say_mended(files, is_said);
            Some(tail)
        }
        Err(failed) => {
            say_lost(files, is_said, failed.fault);
            None
        }
    }
}

/// Reports that an authenticator could not be kept, unless that was reported.
fn say_lost<F: JournalFiles>(files: &mut F, is_said: &mut bool, fault: F::Fault)
    ensures { F.world files.new ≡ F.world files.old }
{
    if !*is_said {
        *is_said = true;
        files.say(News::Lost(fault));
    }
}

/// Reports that all is kept again, if it was reported that something was not.
fn say_mended<F: JournalFiles>(files: &mut F, is_said: &mut bool)
    ensures { F.world files.new ≡ F.world files.old }
{
    if *is_said {
        *is_said = false;
        files.say(News::Mended);
    }
}
