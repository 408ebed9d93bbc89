//! What is found in the files of a journal.
ghost use Rattle.std.specs.Prelude.{◌≡◌, ◌⊎◌, ℤ, None, IfOk, IfSome};
ghost use Rattle.replay.specs.declared.seen.Resumption.{Resumption};
ghost use Rattle.journal.specs.Appending.{FoundBy, FoundIn};
ghost use Rattle.journal.specs.Finding.{AreFound, AreReadOut, MayFinish, finished_found};
ghost use Rattle.journal.specs.Holding.{IsFound, IsSafe};
ghost use Rattle.journal.specs.Life.{IsReadOut};
ghost use Rattle.journal.specs.World.{IsRead, file_in};
ghost use Rattle.journal.specs.declared.decision.Found.TheVariants.{Broken};

use crate::decision::{Found, FoundFiles, is_cut};
use crate::fault::JournalError;
use crate::files::{FileText, JournalFiles, Part};
use crate::reading::read_journal;
use crate::showing::shown_in;
use std::alloc::{AllocError, Global};

/// Reads the files of a journal. A turn that was cut between its two renames is finished first.
pub fn read_files<F: JournalFiles>(alloc: Global, files: &mut F) -> Result<FoundFiles, F::Fault>
    // This is found in them as they are then.
    // Promise (found, shown, finished): **a turn that was cut is finished**: where the newer file is missing, and the
    // one beside goes on behind the older one, a reading makes it the newer one; it does nothing else to the files.
    ensures found { IfOk result (λ found. IfSome (F.world files.new) (AreFound found)) }
    ensures shown { IfOk result (λ found. IfSome (F.world files.new) (AreReadOut found)) }
    // And nothing else was done to them.
    ensures finished { MayFinish (F.world files.old) (F.world files.new) }
{
    let found = read_each(alloc, files)?;
    if !is_cut(&found) {
        return Ok(found);
    }
    files.finish()?;
    Ok(finished(found))
}

/// Reads each of the files.
fn read_each<F: JournalFiles>(alloc: Global, files: &mut F) -> Result<FoundFiles, F::Fault>
    ensures world { F.world files.new ≡ F.world files.old }
    ensures found { IfOk result (λ found. IfSome (F.world files.old) (AreFound found)) }
    ensures shown { IfOk result (λ found. IfSome (F.world files.old) (AreReadOut found)) }
{
    let older = read_part(alloc, files, Part::Older)?;
    let newer = read_part(alloc, files, Part::Newer)?;
    let beside = read_part(alloc, files, Part::Beside)?;
    Ok(FoundFiles {
        older,
        newer,
        beside,
    })
}

/// Returns what is found after a turn was finished.
fn finished(found: FoundFiles) -> FoundFiles
    ensures { result ≡ finished_found found }
{
    let FoundFiles { older, beside, .. } = found;
    FoundFiles {
        older,
        newer: beside,
        beside: Found::Nothing,
    }
}

/// Reads a file of a journal.
pub fn read_part<F: JournalFiles>(
    alloc: Global,
    files: &mut F,
    part: Part,
) -> Result<Found, F::Fault>
    ensures world { F.world files.new ≡ F.world files.old }
    // Promise (found, shown): a file counts as absent only if it is, and as broken only if it spells no journal or may
    // not be read.
    ensures found { IfOk result (λ found. IfSome (F.world files.old) (λ w. IsFound (file_in part w) found)) }
    // A file that others may write, or that is too long, is not read.
    ensures shown { IfOk result (λ found. IfSome (F.world files.old)
        (λ w. IsReadOut (file_in part w) found ⊎ (found ≡ Broken None))) }
{
    let text = files.read(alloc, part)?;
    Ok(judge_text(alloc, &text)?)
}

/// Reads what was read of a file as a journal.
pub fn judge_text(alloc: Global, text: &FileText) -> Result<Found, AllocError>
    // Promise, as read_part: a file counts as ..
    ensures { IfOk result (FoundBy text.now) }
{
    match text {
        FileText::Nothing => Ok(Found::Nothing),
        FileText::Unusable => Ok(Found::Broken(None)),
        FileText::Octets(octets) => found_in(alloc, octets),
    }
}

/// Reads a text as a journal.
fn found_in(alloc: Global, text: &[u8]) -> Result<Found, AllocError>
    ensures { IfOk result (FoundIn text.now) }
{
    match read_journal(alloc, text) {
        Ok(journal) => Ok(Found::Whole(journal)),
        Err(JournalError::Broken) => Ok(Found::Broken(shown_in(text))),
        Err(JournalError::Memory) => Err(AllocError),
    }
}
