//! Tests of the files of a journal (`journal`): what they hold after calls on them that fail, and with what a start in
//! the same or another boot resumes from them.
use crate::expect::same;
use crate::realm::fixtures::{T, at};
use crate::realm::journals::seen;
use journal::{
    Found, FoundFiles, JournalFile, JournalFiles, Left, MemoryFiles, Part, Place, ResumeRefusal,
    SealOutcome, Start, WriteFailures, decide_start, read_files, read_part, seal_journal,
};
use krb_elements::Octets;
use krb_fields::Moment;
use std::alloc::{AllocError, Global};

/// How many calls on a server's files succeed, how many then fail, how many octets of a text are there after one of
/// those, and how far it came if it was to begin a file.
type Failure = (u32, u32, usize, Left);

/// Whether each of three authenticators was kept, if the server started; and what the next start makes of the files.
type Kept = (Option<[bool; 3]>, Resumed);

// The calls are: break the seal, begin a file; append an entry, append another one; then the file is full, so begin a
// file that links to it, and append an entry. All three have the time T + 301, and the floor of the start is T + 301. A
// file that is begun in place of entries has a floor above them.
const FAILURES: &[(Failure, Kept)] = &[
    // None fails.
    (
        (0, 0, 0, Left::Before),
        (Some([true, true, true]), Ok((3, T + 301))),
    ),
    // The start can't begin a file. A part of it is beside; or there is nothing.
    ((1, 1, 9, Left::Before), (None, Err(ResumeRefusal::Damaged))),
    ((1, 1, 9, Left::Between), (None, Err(ResumeRefusal::Absent))),
    // It did, but that may not be on the disk. So a file is begun again in place of the first entry.
    (
        (1, 1, 9, Left::InPlace),
        (Some([true, true, true]), Ok((2, T + 302))),
    ),
    // The second entry is cut, and a file is begun in place of both.
    (
        (3, 1, 5, Left::Before),
        (Some([true, true, true]), Ok((1, T + 302))),
    ),
    // It is not there, and that file is begun with the next entry only.
    (
        (3, 2, 0, Left::Before),
        (Some([true, false, true]), Ok((0, T + 302))),
    ),
    // The turn fails, and the journal goes on in the same file.
    (
        (4, 1, 9, Left::Before),
        (Some([true, true, true]), Ok((3, T + 301))),
    ),
    // The turn is cut, and a file is begun in place of both.
    (
        (4, 1, 9, Left::Between),
        (Some([true, true, true]), Ok((0, T + 302))),
    ),
    (
        (4, 1, 9, Left::InPlace),
        (Some([true, true, true]), Ok((0, T + 302))),
    ),
    // The turn is cut, and no file can be begun after that. The older one stays, and the next start finishes the turn.
    (
        (4, 2, 9, Left::Between),
        (Some([true, true, false]), Ok((2, T + 301))),
    ),
    // The last entry is cut, and no file can be begun.
    (
        (5, 2, 9, Left::Before),
        (Some([true, true, false]), Err(ResumeRefusal::Damaged)),
    ),
    // It is not there. The start finds what was kept before; or the older file was removed to make room; or the file
    // that was begun is in place, and the older one is still there.
    (
        (5, 2, 0, Left::Before),
        (Some([true, true, false]), Ok((2, T + 301))),
    ),
    (
        (5, 2, 0, Left::Between),
        (Some([true, true, false]), Err(ResumeRefusal::Unlinked)),
    ),
    (
        (5, 2, 0, Left::InPlace),
        (Some([true, true, false]), Ok((0, T + 302))),
    ),
];

#[test]
fn files_hold_what_was_kept(rt: HostRuntime) {
    let alloc = rt.alloc();
    for (failure, wanted) in FAILURES {
        same(&rt, failure, &after(alloc, failure), &Ok(*wanted));
    }
}

fn fail(files: &mut MemoryFiles, failure: &Failure) {
    let (good, bad, cut, left) = *failure;
    files.fail(WriteFailures {
        good,
        bad,
        cut,
        left,
    });
}

/// Keeps three authenticators while files fail, and starts again.
fn after(alloc: Global, failure: &Failure) -> Result<Kept, AllocError> {
    let mut files = MemoryFiles::new();
    fail(&mut files, failure);
    let mut journal = journal_in(alloc, files, b"boot")?;
    let kept = are_kept(alloc, &mut journal)?;
    let mut files = journal.into_files();
    Ok((kept, resume_memory(alloc, &mut files, b"boot")?))
}

/// Starts where there is no journal, and keeps three authenticators. Returns which of them were kept, if it started.
fn are_kept(
    alloc: Global,
    journal: &mut JournalFile<MemoryFiles>,
) -> Result<Option<[bool; 3]>, AllocError> {
    let absent = Start::Refuses {
        doubt: ResumeRefusal::Absent,
        floor: None,
    };
    let begun = journal.start(alloc, at(0), &absent, &Found::Nothing, 0);
    if begun.is_err() {
        return Ok(None);
    }
    let mut kept = [false; 3];
    for later in 0..3 {
        kept[later as usize] = is_kept(alloc, journal, at(301), later)?;
    }
    Ok(Some(kept))
}

/// The size at which the files take turns: that of a header and of one entry and a part of another one.
const FULL: u64 = 200;

/// Returns a journal of a boot over these files.
fn journal_in(
    alloc: Global,
    files: MemoryFiles,
    boot: &[u8],
) -> Result<JournalFile<MemoryFiles>, AllocError> {
    let realm = Octets::from_slice(alloc, b"A.B")?;
    let boot = Octets::from_slice(alloc, boot)?;
    Ok(JournalFile::new(files, realm, boot, T + 301, FULL))
}

/// Keeps an authenticator with this number of microseconds. Returns whether that succeeded.
fn is_kept(
    alloc: Global,
    journal: &mut JournalFile<MemoryFiles>,
    at: Moment,
    cusec: u32,
) -> Result<bool, AllocError> {
    let seen = seen(alloc, T + 301, cusec)?;
    Ok(journal.keep(alloc, at, &seen).is_ok())
}

/// With how many authenticators a start resumes, and its floor; or why it doesn't.
type Resumed = Result<(usize, i64), ResumeRefusal>;

type Sealed = Result<(), ResumeRefusal>;

#[test]
fn a_sealed_journal_outlives_a_boot(rt: HostRuntime) {
    let alloc = rt.alloc();
    same(
        &rt,
        &"starts in three boots",
        &starts_in_boots(alloc),
        &Ok((
            [
                // One authenticator was kept. Another boot refuses it.
                Err(ResumeRefusal::OtherBoot),
                Ok((1, T + 301)),
                // The start broke the seal, and kept one more: a third boot refuses, and the second one resumes with
                // both.
                Err(ResumeRefusal::OtherBoot),
                Ok((2, T + 301)),
            ],
            // Another boot can't seal it. It is sealed in its own boot.
            [Err(ResumeRefusal::OtherBoot), Ok(())],
        )),
    );
}

fn starts_in_boots(alloc: Global) -> Result<([Resumed; 4], [Sealed; 2]), AllocError> {
    let mut files = keep_one(alloc, MemoryFiles::new(), b"boot", 0)?;
    let unsealed = resume_memory(alloc, &mut files, b"bott")?;
    let foreign = seal_memory(alloc, &mut files, b"bott")?;
    let sealed = seal_memory(alloc, &mut files, b"boot")?;
    let resumed = resume_memory(alloc, &mut files, b"bott")?;
    let mut files = keep_one(alloc, files, b"bott", 1)?;
    let third = resume_memory(alloc, &mut files, b"bout")?;
    let again = resume_memory(alloc, &mut files, b"bott")?;
    Ok(([unsealed, resumed, third, again], [foreign, sealed]))
}

/// What a start in a boot finds.
#[derive(Drop)]
struct Files {
    found: FoundFiles,
    seal: Vec<u8>,
}

fn files_in(alloc: Global, files: &mut MemoryFiles) -> Result<Files, AllocError> {
    let (Ok(found), Ok(seal)) = (read_files(alloc, files), files.read_seal(alloc)) else {
        return Err(AllocError);
    };
    Ok(Files { found, seal })
}

fn start_in(alloc: Global, found: &Files, boot: &[u8]) -> Result<Start, AllocError> {
    let place = Place {
        realm: b"A.B",
        boot,
        seal: &found.seal,
        at: at(302),
    };
    decide_start(alloc, &place, &found.found)
}

fn resume_memory(
    alloc: Global,
    files: &mut MemoryFiles,
    boot: &[u8],
) -> Result<Resumed, AllocError> {
    let found = files_in(alloc, files)?;
    resumed(alloc, &found, boot)
}

fn resumed(alloc: Global, found: &Files, boot: &[u8]) -> Result<Resumed, AllocError> {
    Ok(match start_in(alloc, found, boot)? {
        Start::Resumes { resumption, .. } => Ok((resumption.seen.len(), resumption.floor)),
        Start::Refuses { doubt, .. } => Err(doubt),
    })
}

/// Seals files.
fn seal_memory(alloc: Global, files: &mut MemoryFiles, boot: &[u8]) -> Result<Sealed, AllocError> {
    let found = files_in(alloc, files)?;
    seal(files, &found, boot)
}

fn seal(files: &mut MemoryFiles, found: &Files, boot: &[u8]) -> Result<Sealed, AllocError> {
    let place = Place {
        realm: b"A.B",
        boot,
        seal: &found.seal,
        at: at(302),
    };
    match seal_journal(files, &place, &found.found.older, &found.found.newer) {
        Ok(SealOutcome::Sealed) => Ok(Ok(())),
        Ok(SealOutcome::Doubted(doubt)) => Ok(Err(doubt)),
        Err(_) => Err(AllocError),
    }
}

/// Starts in a boot, and keeps an authenticator with this number of microseconds.
fn keep_one(
    alloc: Global,
    files: MemoryFiles,
    boot: &[u8],
    cusec: u32,
) -> Result<MemoryFiles, AllocError> {
    let mut files = files;
    let found = files_in(alloc, &mut files)?;
    kept_after(alloc, files, &found, boot, cusec)
}

fn kept_after(
    alloc: Global,
    files: MemoryFiles,
    found: &Files,
    boot: &[u8],
    cusec: u32,
) -> Result<MemoryFiles, AllocError> {
    let mut journal = journal_in(alloc, files, boot)?;
    start_and_keep(alloc, &mut journal, found, boot, cusec)?;
    Ok(journal.into_files())
}

fn start_and_keep(
    alloc: Global,
    journal: &mut JournalFile<MemoryFiles>,
    found: &Files,
    boot: &[u8],
    cusec: u32,
) -> Result<(), AllocError> {
    if !is_started(alloc, journal, found, boot, 0)? || !is_kept(alloc, journal, at(302), cusec)? {
        return Err(AllocError);
    }
    Ok(())
}

/// Starts in a boot with what was found. The newer file has this many octets. Returns whether that succeeded.
fn is_started(
    alloc: Global,
    journal: &mut JournalFile<MemoryFiles>,
    found: &Files,
    boot: &[u8],
    len: u64,
) -> Result<bool, AllocError> {
    let start = start_in(alloc, found, boot)?;
    Ok(
        journal
            .start(alloc, at(302), &start, &found.found.newer, len)
            .is_ok(),
    )
}

/// Whether a start succeeded, whether the newer file is there, and what starts in two boots make of the files.
type Begun = (bool, bool, Resumed, Resumed);

/// The boot of a start that fails to begin a file, how far it came, and what follows. One authenticator was kept in
/// `boot`, in a file that is full. So a start in that boot has the files take turns, and one in `bott` begins one in
/// place of both, with the floor T + 301 that it is given.
const BEGUN: &[(&[u8], Left, Begun)] = &[
    (
        b"boot",
        Left::Before,
        (true, true, Ok((1, T + 301)), Err(ResumeRefusal::OtherBoot)),
    ),
    // The next start finishes the turn.
    (
        b"boot",
        Left::Between,
        (true, false, Ok((1, T + 301)), Err(ResumeRefusal::OtherBoot)),
    ),
    (
        b"boot",
        Left::InPlace,
        (true, true, Ok((1, T + 301)), Err(ResumeRefusal::OtherBoot)),
    ),
    (
        b"bott",
        Left::Before,
        (false, true, Ok((1, T + 301)), Err(ResumeRefusal::OtherBoot)),
    ),
    (
        b"bott",
        Left::Between,
        (false, true, Ok((1, T + 301)), Err(ResumeRefusal::OtherBoot)),
    ),
    (
        b"bott",
        Left::InPlace,
        (true, true, Err(ResumeRefusal::OtherBoot), Ok((0, T + 301))),
    ),
];

#[test]
fn a_start_that_fails_to_begin_a_file_loses_nothing(rt: HostRuntime) {
    let alloc = rt.alloc();
    for (boot, left, wanted) in BEGUN {
        let given = (*boot, *left);
        same(
            &rt,
            &given,
            &fail_to_begin(alloc, *boot, *left),
            &Ok(*wanted),
        );
    }
}

/// Keeps an authenticator in `boot`, and has a start in a boot fail to begin a file.
fn fail_to_begin(alloc: Global, boot: &[u8], left: Left) -> Result<Begun, AllocError> {
    let mut files = keep_one(alloc, MemoryFiles::new(), b"boot", 0)?;
    let found = files_in(alloc, &mut files)?;
    fail(&mut files, &(1, 1, 9, left));
    begun_after(alloc, files, &found, boot)
}

fn begun_after(
    alloc: Global,
    files: MemoryFiles,
    found: &Files,
    boot: &[u8],
) -> Result<Begun, AllocError> {
    let mut journal = journal_in(alloc, files, boot)?;
    let started = is_started(alloc, &mut journal, found, boot, FULL)?;
    begun(alloc, &mut journal.into_files(), started)
}

fn begun(alloc: Global, files: &mut MemoryFiles, started: bool) -> Result<Begun, AllocError> {
    let is_there = is_newer_there(alloc, files);
    let here = resume_memory(alloc, files, b"boot")?;
    let there = resume_memory(alloc, files, b"bott")?;
    Ok((started, is_there, here, there))
}

fn is_newer_there(alloc: Global, files: &mut MemoryFiles) -> bool {
    match read_part(alloc, files, Part::Newer) {
        Ok(found) => is_file(&found),
        Err(_) => false,
    }
}

fn is_file(found: &Found) -> bool {
    match found {
        Found::Nothing => false,
        Found::Broken(_) => true,
        Found::Whole(_) => true,
    }
}
