//! Laws of a journal's files.
ghost use Rattle.journal.specs.Counting.{ReadIsLater};
ghost use Rattle.journal.specs.Head.{FrontsMayBe};
ghost use Rattle.journal.specs.Holding.{HoldsOn};
ghost use Rattle.journal.specs.Life.{LivesHold};
ghost use Rattle.journal.specs.Sealing.{SealsHold};

/// Whatever the files of a journal go through, no start resumes with them without what was kept: after each call of a
/// [`JournalFile`](crate::JournalFile), whether it succeeded or failed, and after a start that could not begin a file.
pub fn every_journal()
    // Promise: **no start resumes without what was kept**: whichever of the files it can read, whatever part of a text
    // was appended, though a file could not be begun, and whichever step of a turn was the last.
    // Promise: **what was kept stays in the files**, whichever calls fail and wherever a process is killed, until the
    // files are lost.
    // Promise: an authenticator that was kept has its entry there, or a time below the floor of the header.
    ensures { HoldsOn }
{}

/// A start in another boot resumes only with a sealed journal, and only what a start would resume with is sealed.
pub fn every_seal()
    // Promise, as seal_journal: **a start in another ..
    // Promise: no start resumes without what was kept, no matter who seals or breaks the journal.
    ensures { SealsHold }
{}

/// A journal that was cut anywhere is not taken for a file of another kind.
pub fn every_front()
    // Promise, as may_be_journal: **no journal is taken ..
    ensures { FrontsMayBe }
{}

/// The life of a journal: whichever processes have its files one after the other, and however they end, no start
/// resumes with these files without what each of them said to have kept.
pub fn every_journal_life()
    // Promise, as every_journal: **what was kept stays ..
    // Promise, as every_journal: an authenticator that was ..
    // Promise: a later start that can read the files resumes with what was kept, or refuses with a floor above it.
    // Promise: a start between whose files could not be read has to have a floor above what was kept too.
    // Promise: **a start that refuses has a floor above all that its files still show**, whatever its clock shows and
    // whatever became of the files.
    // Promise, as shown_in: files show each authenticator ..
    // Promise, as shown_in: not so for a ..
    // Promise: **whatever follows a process, no start resumes without what it kept**: it reads the files, begins its
    // journal, and makes calls with any results.
    // Promise: other processes come after it, whose journals begin or don't, and the seal is made or broken.
    // Promise: a later start that resumes refuses what the process began with, and each authenticator handed over up to
    // its last call that succeeded.
    // Promise: of the later starts, each that resumes finds files that aren't lost, with a floor at most 300 seconds
    // before the start before it (as where clocks don't go back).
    // Promise: each later start that refuses has a floor above all that was kept, or read the files, which were never
    // lost, and has the floor that they ask for.
    ensures { LivesHold }
{}

/// In such a life, a start that read the files and refuses still refuses all that they have, whatever its clock shows.
pub fn every_counted_life()
    // Promise, as every_journal_life: each later start that ..
    ensures { ReadIsLater }
{}
