//! The host of a server.
ghost use Rattle.std.specs.Prelude.{◌≡◌, ◌∷◌, [], List, Option, IfOk, IfErr, IfSome, Some, None, true, false};
ghost use Rattle.journal.specs.Finding.{AreFound, AreReadOut, MayFinish};
ghost use Rattle.journal.specs.World.{World};
ghost use Rattle.kdc_hub.specs.Wire.{Records};
ghost use Rattle.kdc_files.specs.Keeping.{BeginsOver, FailsOver};
ghost use Rattle.kdc_files.specs.Recorded.{IsNew};
ghost use Rattle.kdc_server.specs.Starting.{HostDid, ReadRows, ReadSeed, Drew};
ghost use Rattle.kdc_server.specs.Starting.{Held, HasNoJournal, ReadJournals, Showed};
ghost use Rattle.kdc_server.specs.Starting.{BeganJournal, TookRows};

use crate::sockets::ServerSockets;
use kdc_files::{JournalBeginning, JournalWriter, OpenedJournals, ServerFileError};
use kdc_hub::RowSource;
use kdc_metrics::{LogNumbers, MetricsWriter, Tally};
use krb_fields::Moment;
use principals::Database;
use request_log::LogWriter;
use server_notices::{JournalFound, Refused};
use std::alloc::{AllocError, Global};
use std::io;
use std::io::Write;
use std::net::SocketAddr;

/// A start, as it is announced.
#[derive(Clone, Copy)]
pub struct StartNews {
    /// The number of rows.
    pub row_count: usize,
    /// What it made of the journal, if there is one.
    pub journal: Option<JournalFound>,
    /// Which requests are refused after it, if any are.
    pub refused: Option<Refused>,
}

/// What surrounds a server: its database, random octets, sockets, journal, clock, log, standard error and tally. A host
/// may keep a record, for contracts alone.
pub trait Host {
    /// Sockets that are held.
    type Sockets: ServerSockets + Drop;

    /// Why sockets can't be opened.
    type SocketFault: Drop;

    /// The files of a journal that was read, and is not begun yet.
    type JournalFiles: Drop;

    /// The journal, or what stands for one that is absent.
    type Journal: JournalWriter + Drop;

    /// The source of the rows after the start.
    type Rows: RowSource + Drop;

    /// Takes the text of a server's numbers.
    type Metrics: MetricsWriter + Drop;

    /// The log of the requests.
    type Log: LogWriter + LogNumbers + Drop;

    /// Takes the lines that say that the clock went back, or that memory ran out.
    type Errors: Write + Drop;

    /// Counts the polls and acts that failed.
    type Tally: Tally + Drop;

    // The calls so far that succeeded, with their outcomes, in order, if the host keeps a record.
    ghost recorded: { Self → Option (List HostDid) };

    // What the files of its journal hold since its last call, if that is recorded. It is the host of one journal.
    ghost world: { Self → Option World };

    /// Reads the rows of the database.
    fn read_rows(&mut self, alloc: Global) -> Result<Database, ServerFileError>
        ensures records { IfOk result (λ rows. Records (recorded self.old) (ReadRows rows ∷ []) (recorded self.new)) }
        ensures world { world self.new ≡ world self.old };

    /// Reads the file of a seed.
    fn read_seed(&mut self, alloc: Global, path: &str) -> Result<Vec<u8>, ServerFileError>
        ensures records { IfOk result (λ octets.
            Records (recorded self.old) (ReadSeed path.now octets.items ∷ []) (recorded self.new)) }
        ensures world { world self.new ≡ world self.old };

    /// Draws random octets from the system.
    fn draw(&mut self) -> io::Result<[u8; 32]>
        ensures records { IfOk result (λ octets. Records (recorded self.old) (Drew octets ∷ []) (recorded self.new)) }
        ensures world { world self.new ≡ world self.old };

    /// Opens a socket at each address. From then on no other process receives what comes to these addresses.
    fn hold(
        &mut self,
        alloc: Global,
        udp: &[SocketAddr],
        tcp: &[SocketAddr],
    ) -> Result<Self::Sockets, Self::SocketFault>
        ensures held { IfOk result (λ _. Records (recorded self.old) (Held udp.now tcp.now ∷ []) (recorded self.new)) }
        ensures new { IfOk result (λ sockets. IsNew (Self.Sockets.recorded sockets)) }
        ensures world { world self.new ≡ world self.old };

    /// Holds the journal at a path, and reads it with the one that went before it. From then on no other process
    /// appends to it.
    fn read_journals(
        &mut self,
        alloc: Global,
        path: &str,
    ) -> Result<OpenedJournals<Self::JournalFiles>, ServerFileError>
        ensures records { IfOk result (λ opened.
            Records (recorded self.old) (ReadJournals path.now opened.journals ∷ []) (recorded self.new)) }
        // It removes none.
        ensures kept { IfOk result (λ opened. opened.journals.removed ≡ None) }
        // This is found in the files as they are then. A turn that was cut is finished first, and nothing else is done.
        // Promise (found, shown, finished), as read_files of journal: **a turn that ..
        ensures found { IfOk result (λ opened. IfSome (world self.new) (AreFound opened.journals.found)) }
        ensures shown { IfOk result (λ opened. IfSome (world self.new) (AreReadOut opened.journals.found)) }
        ensures finished { MayFinish (world self.old) (world self.new) };

    /// Makes sure that no journal is beside the database, for a server that has none. One that is there refuses the
    /// start, or is removed, as the options say; it always refuses one that is to be the first. Returns the floor that
    /// the removed files asked for, if they showed anything.
    fn refuse_journal(
        &mut self,
        alloc: Global,
        is_first: bool,
    ) -> Result<Option<i64>, ServerFileError>
        ensures records { IfOk result (λ removed.
            Records (recorded self.old) (HasNoJournal removed ∷ []) (recorded self.new)) };

    /// Begins the journal in the files that were read, or goes on with what was read of them.
    fn begin_journal(
        &mut self,
        alloc: Global,
        files: Self::JournalFiles,
        beginning: JournalBeginning,
    ) -> Result<Self::Journal, ServerFileError>
        ensures began { IfOk result (λ _.
            Records (recorded self.old) (BeganJournal beginning ∷ []) (recorded self.new)) }
        ensures new { IfOk result (λ journal. IsNew (Self.Journal.handed journal)) }
        ensures there { IfOk result (λ journal. Self.Journal.is_there journal ≡ true) }
        // It began over the files as they were.
        // Promise, as run_server: a run's journal ..
        ensures begins { IfOk result (λ journal.
            BeginsOver beginning true (world self.old) (Self.Journal.state journal)) }
        ensures world { IfOk result (λ journal.
            IfSome (world self.new) (λ w. (Self.Journal.state journal).files ≡ Some w)) }
        // Or it failed to, and this is left.
        // Promise, as run_server: a run that fails ..
        ensures fails { IfErr result (λ _. FailsOver beginning (world self.old) (world self.new)) };

    /// Returns what stands for the journal of a server that has none.
    fn no_journal(&mut self) -> Self::Journal
        ensures records { recorded self.new ≡ recorded self.old }
        ensures new { IsNew (Self.Journal.handed result) }
        ensures there { Self.Journal.is_there result ≡ false }
        ensures world { world self.new ≡ world self.old };

    /// Opens the log of the requests.
    fn open_log(&mut self, alloc: Global) -> Result<Self::Log, AllocError>
        ensures records { recorded self.new ≡ recorded self.old }
        ensures new { IfOk result (λ log. IsNew (Self.Log.logged log)) }
        ensures world { world self.new ≡ world self.old };

    /// Opens what takes the lines that say that the clock went back, or that memory ran out.
    fn open_errors(&mut self, alloc: Global) -> Result<Self::Errors, AllocError>
        ensures records { recorded self.new ≡ recorded self.old }
        ensures world { world self.new ≡ world self.old };

    /// Returns a tally that has counted nothing.
    fn open_tally(&mut self, alloc: Global) -> Self::Tally
        ensures records { recorded self.new ≡ recorded self.old }
        ensures new { IsNew (Self.Tally.recorded result) }
        ensures world { world self.new ≡ world self.old };

    /// Announces that the server serves from now on.
    fn announce(&mut self, news: StartNews)
        ensures records { recorded self.new ≡ recorded self.old }
        ensures world { world self.new ≡ world self.old };

    /// Hands over the source of the rows, which knows the rows that were read. No change of theirs is missed.
    fn take_rows(&mut self) -> Result<Self::Rows, ServerFileError>
        ensures records { IfOk result (λ rows. Records (recorded self.old) (TookRows ∷ []) (recorded self.new)) }
        ensures new { IfOk result (λ rows. IsNew (Self.Rows.recorded rows)) }
        // They may change.
        // Promise, as take_rows: **changes are served**: unless ..
        ensures changes { IfOk result (λ rows. Self.Rows.is_fixed rows ≡ false) }
        ensures world { world self.new ≡ world self.old };

    /// Hands over what takes the text of the server's numbers, if it is to be written.
    fn take_metrics(&mut self) -> Option<Self::Metrics>
        ensures records { recorded self.new ≡ recorded self.old }
        ensures world { world self.new ≡ world self.old };

    /// Returns the moment that the clock shows.
    fn now(&mut self) -> io::Result<Moment>
        ensures records { IfOk result (λ at. Records (recorded self.old) (Showed at ∷ []) (recorded self.new)) }
        ensures world { world self.new ≡ world self.old };
}
