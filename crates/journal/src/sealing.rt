//! Sealing a journal, so that a start in another boot may resume with it.
ghost use Rattle.journal.specs.Sealing.{HasSealed};

use crate::decision::{Found, Place, ResumeRefusal, decide_seal};
use crate::files::JournalFiles;

/// What became of a journal that was to be sealed.
#[derive(Clone, Copy)]
pub enum SealOutcome {
    /// It is sealed.
    Sealed,
    /// It is as it was, since a start would not resume with it.
    Doubted(ResumeRefusal),
}

/// Seals a journal that no server holds, if a start at this place would resume with it. Fails if a call on the files
/// does.
pub fn seal_journal<F: JournalFiles>(
    files: &mut F,
    place: &Place<'_>,
    older: &Found,
    newer: &Found,
) -> Result<SealOutcome, F::Fault>
    // Promise: **a start in another boot resumes only with a journal that was sealed**, with this last check; with a
    // seal that is another journal's no start resumes.
    // Promise: only what a start at the same place would resume with is sealed.
    ensures { HasSealed place.now older.now newer.now (F.world files.old) result (F.world files.new) }
{
    match decide_seal(place, older, newer) {
        Ok(check) => match files.seal(&check) {
            Ok(()) => Ok(SealOutcome::Sealed),
            Err(fault) => Err(fault),
        },
        Err(doubt) => Ok(SealOutcome::Doubted(doubt)),
    }
}
