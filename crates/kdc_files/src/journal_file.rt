//! The journal of a running server.
ghost use Rattle.std.specs.Prelude.{◌≡◌, [], ◌∷◌, IfOk, IfErr, true};
ghost use Rattle.std.specs.Result.{is_ok};
ghost use Rattle.kdc_hub.specs.Wire.{Records};
ghost use Rattle.journal.specs.Holding.{is_whole};
ghost use Rattle.journal.specs.Life.{IsCall, state_of};
ghost use Rattle.journal.specs.Life.Call.{Keep, Mend};
ghost use Rattle.kdc_files.specs.Keeping.{BeginsOver, FailsOver};
ghost use Rattle.kdc_files.specs.Unrecorded.{none_handed};

use crate::files::ServerFileError;
use crate::journal_store::SystemJournal;
use crate::journals::JournalBeginning;
use crate::keeping::JournalWriter;
use journal::{JournalFile, JournalFiles, NotKept};
use kdc_core::Seen;
use krb_fields::Moment;
use std::alloc::Global;
use std::fs::File;
use std::io::Write;
use std::rt::Files;

/// The journal of a server in the system's files.
pub type FileJournal<'a, F, W> = JournalFile<SystemJournal<'a, F, W>>;

/// Begins the journal of a server in the system's files, or goes on with what was read of them. A file takes its turn
/// once it has `most` octets.
pub fn begin_journal<'a, F: Files<File = File>, W: Write + Drop>(
    alloc: Global,
    files: SystemJournal<'a, F, W>,
    beginning: JournalBeginning,
    most: u64,
) -> Result<FileJournal<'a, F, W>, ServerFileError> {
    let len = files.len();
    match begun(alloc, files, beginning, len, most) {
        Ok(journal) => Ok(journal),
        Err(unbegun) => Err(ServerFileError::from(unbegun.fault)),
    }
}

/// A journal that did not begin.
#[derive(Drop)]
pub struct Unbegun<F: JournalFiles> {
    /// Its files.
    pub files: F,
    /// Why it did not begin.
    pub fault: F::Fault,
}

/// Begins the journal of a server, or goes on with what was read of its files. The newer one has `len` octets, and
/// takes its turn once it has `most`.
pub fn begun<F: JournalFiles + Drop>(
    alloc: Global,
    files: F,
    beginning: JournalBeginning,
    len: u64,
    most: u64,
) -> Result<JournalFile<F>, Unbegun<F>>
    // If the start made this of what is in the files, they hold all that it knows. No seal is left of what another boot
    // could resume with.
    // Promise, as start of kdc_server: a server's journal begins ..
    ensures began { IfOk result (λ journal. BeginsOver beginning true (F.world files) (state_of F.world journal)) }
    // If it fails, no start forgets what the files held.
    // Promise, as run_server of kdc_server: a run that fails ..
    ensures failed { IfErr result (λ unbegun. FailsOver beginning (F.world files) (F.world unbegun.files)) }
{
    let JournalBeginning {
        realm,
        at,
        floor,
        start,
        journals,
    } = beginning;
    let mut journal = JournalFile::new(files, realm, journals.boot, floor, most);
    match journal.start(alloc, at, &start, &journals.found.newer, len) {
        Ok(()) => Ok(journal),
        Err(fault) => Err(Unbegun {
            files: journal.into_files(),
            fault,
        }),
    }
}

/// It keeps no record.
impl<F: JournalFiles> JournalWriter for JournalFile<F> {
    ghost handed = { none_handed };

    ghost is_whole = { is_whole };

    ghost is_there = { λ _. true };

    ghost state = { state_of F.world };

    fn keep(&mut self, alloc: Global, at: Moment, seen: &Seen) -> Result<(), NotKept>
        ensures handed { Records (none_handed self.old) (record { at = at; seen = seen.now } ∷ [])
            (none_handed self.new) }
        ensures whole { is_whole self.new ≡ is_ok result }
        ensures call { IsCall (Keep seen.now result) (state_of F.world self.old) (state_of F.world self.new) }
    {
        JournalFile::keep(self, alloc, at, seen)
    }

    fn mend(&mut self, alloc: Global, at: Moment) -> Result<(), NotKept>
        ensures handed { Records (none_handed self.old) [] (none_handed self.new) }
        ensures whole { is_whole self.new ≡ is_ok result }
        ensures call { IsCall (Mend result) (state_of F.world self.old) (state_of F.world self.new) }
    {
        JournalFile::mend(self, alloc, at)
    }
}
