//! The system as the host of a server.
ghost use Rattle.std.specs.Prelude.{None};

use crate::options::journal_beside;
use file_store::{LONGEST_FILE, now, open_plain, random_octets};
use kdc_files::{
    FileJournal, JournalBeginning, JournalPlace, KeyFile, Leftover, OpenedJournals, RowsFile,
    ServerFileError, SystemJournal, begin_journal, open_journals, read_up_to, refuse_journal,
    say_rights,
};
use kdc_metrics::{CountedLog, FaultCount, MetricsFile, MetricsPaths};
use kdc_server::{Host, ServeOptions, StartNews};
use kdc_sockets::{BindError, SharedWriter, Sockets};
use krb_fields::Moment;
use principal_rows::Limits;
use principals::Database;
use request_log::{LogFormat, RequestLines};
use server_notices::{JournalNews, Started};
use std::alloc::{AllocError, Global};
use std::io;
use std::io::{Error, ErrorKind, Stderr, Write};
use std::net::SocketAddr;
use std::time::Duration;

/// Standard error. Its reader may stop reading while the server goes on. All that write to it share one writer.
pub type Errors = SharedWriter<Stderr>;

/// The files of the server's journal.
type SystemFiles<'a> = SystemJournal<'a, HostRuntime, Errors>;

/// How many milliseconds a round waits if nothing arrives.
const WAIT: u64 = 100;

/// The system, with the file of the database. It keeps no record.
#[derive(Drop)]
pub struct SystemHost<'a> {
    rt: &'a HostRuntime,
    /// The file of the database, until it is handed over.
    rows: Option<RowsFile<'a, HostRuntime, Errors>>,
    /// The file of the numbers, until it is handed over, if there is to be one.
    metrics: Option<MetricsFile<'a, HostRuntime, Errors>>,
    errors: Errors,
    /// The format of the log, if there is to be one.
    log: Option<LogFormat>,
    /// The addresses of the sockets, once they are open.
    udp: Vec<SocketAddr>,
    tcp: Vec<SocketAddr>,
    db: &'a str,
    journal: Option<&'a str>,
    journal_size: u64,
    removes_journal: bool,
    is_quiet: bool,
    limits: Limits,
}

impl<'a> SystemHost<'a> {
    /// Returns the host of a server with these options, which writes its lines to `errors`.
    pub fn new(
        rt: &'a HostRuntime,
        options: &ServeOptions<'a>,
        errors: &Errors,
    ) -> Result<SystemHost<'a>, AllocError> {
        Ok(SystemHost {
            rt,
            rows: Some(RowsFile::new(rt, options.db, errors.share()?)),
            metrics: metrics_file(rt, options, errors)?,
            errors: errors.share()?,
            log: options.log,
            udp: Vec::new(rt.alloc()),
            tcp: Vec::new(rt.alloc()),
            db: options.db,
            journal: options.journal,
            journal_size: options.journal_size,
            removes_journal: options.removes_journal,
            is_quiet: options.is_quiet,
            limits: options.limits,
        })
    }
}

impl<'a> Host for SystemHost<'a> {
    type Sockets = Sockets<HostRuntime>;

    type SocketFault = BindError;

    type JournalFiles = SystemFiles<'a>;

    type Journal = Option<FileJournal<'a, HostRuntime, Errors>>;

    type Rows = RowsFile<'a, HostRuntime, Errors>;

    type Metrics = MetricsFile<'a, HostRuntime, Errors>;

    type Log = CountedLog<Option<RequestLines<Errors>>>;

    type Errors = Errors;

    type Tally = FaultCount;

    ghost recorded = { λ _. None };

    ghost world = { λ _. None };

    fn read_rows(&mut self, alloc: Global) -> Result<Database, ServerFileError> {
        let Some(rows) = &mut self.rows else {
            return Err(ServerFileError::from(Error::from(ErrorKind::NotFound)));
        };
        let read = rows.read(alloc);
        if let Err(fault) = &read {
            rows.say_place(fault);
        }
        read
    }

    fn read_seed(&mut self, alloc: Global, path: &str) -> Result<Vec<u8>, ServerFileError> {
        let file = open_plain(self.rt, path)?;
        let seed = KeyFile {
            what: "seed",
            path,
            metadata: &file.metadata()?,
        };
        say_rights(self.rt, &mut self.errors, seed);
        read_up_to(alloc, file, LONGEST_FILE)
    }

    fn draw(&mut self) -> io::Result<[u8; 32]> {
        random_octets(self.rt)
    }

    fn hold(
        &mut self,
        alloc: Global,
        udp: &[SocketAddr],
        tcp: &[SocketAddr],
    ) -> Result<Sockets<HostRuntime>, BindError> {
        let wait = Duration::from_millis(WAIT);
        let sockets = Sockets::bind(alloc, self.rt.clone()?, self.rt, udp, tcp, wait)?;
        self.udp = sockets.udp_addresses(alloc)?;
        self.tcp = sockets.tcp_addresses(alloc)?;
        Ok(sockets)
    }

    fn read_journals(
        &mut self,
        alloc: Global,
        path: &str,
    ) -> Result<OpenedJournals<SystemFiles<'a>>, ServerFileError> {
        let place = JournalPlace {
            files: self.rt,
            path,
            lines: self.errors.share()?,
        };
        open_journals(alloc, place)
    }

    fn refuse_journal(
        &mut self,
        alloc: Global,
        is_first: bool,
    ) -> Result<Option<i64>, ServerFileError> {
        let path = journal_beside(alloc, self.db)?;
        let place = JournalPlace {
            files: self.rt,
            path: path.as_str(),
            lines: self.errors.share()?,
        };
        refuse_journal(alloc, place, leftover(is_first, self.removes_journal))
    }

    #[tactic(auto, using(kdc_files::specs::KeepingLaws::nothing_begun))]
    fn begin_journal(
        &mut self,
        alloc: Global,
        files: SystemFiles<'a>,
        beginning: JournalBeginning,
    ) -> Result<Option<FileJournal<'a, HostRuntime, Errors>>, ServerFileError> {
        Ok(Some(begin_journal(alloc, files, beginning, self.journal_size)?))
    }

    fn no_journal(&mut self) -> Option<FileJournal<'a, HostRuntime, Errors>> {
        None
    }

    fn announce(&mut self, news: StartNews) {
        let started = Started {
            udp: &self.udp,
            tcp: &self.tcp,
            db: self.db,
            rows: news.row_count,
            journal: journal_news(self.journal, news),
            refused: news.refused,
            is_quiet: self.is_quiet,
            limits: self.limits,
        };
        // If that fails, there is nowhere to report it.
        let _ = write!(self.errors, "{started}");
    }

    fn open_log(
        &mut self,
        _alloc: Global,
    ) -> Result<CountedLog<Option<RequestLines<Errors>>>, AllocError> {
        let lines = match self.log {
            Some(format) => Some(RequestLines::new(self.errors.share()?, format)),
            None => None,
        };
        Ok(CountedLog::new(lines))
    }

    fn open_errors(&mut self, _alloc: Global) -> Result<Errors, AllocError> {
        self.errors.share()
    }

    fn open_tally(&mut self, _alloc: Global) -> FaultCount {
        FaultCount::new()
    }

    fn take_rows(&mut self) -> Result<RowsFile<'a, HostRuntime, Errors>, ServerFileError> {
        match self.rows.take() {
            Some(rows) => Ok(rows),
            None => Err(ServerFileError::from(Error::from(ErrorKind::NotFound))),
        }
    }

    fn take_metrics(&mut self) -> Option<MetricsFile<'a, HostRuntime, Errors>> {
        self.metrics.take()
    }

    fn now(&mut self) -> io::Result<Moment> {
        now(self.rt)
    }
}

/// Returns what a start without a journal does with one that is beside the database.
fn leftover(is_first: bool, removes: bool) -> Leftover {
    if is_first {
        Leftover::NotFirst
    } else if removes {
        Leftover::Removed
    } else {
        Leftover::Refused
    }
}

/// Returns the file of the numbers, if the options ask for one.
fn metrics_file<'a>(
    rt: &'a HostRuntime,
    options: &ServeOptions<'a>,
    errors: &Errors,
) -> Result<Option<MetricsFile<'a, HostRuntime, Errors>>, AllocError> {
    let Some(path) = options.metrics else {
        return Ok(None);
    };
    let paths = MetricsPaths {
        numbers: path,
        db: options.db,
        journal: options.journal,
    };
    let file = MetricsFile::new(rt.alloc(), rt, paths, errors.share()?)?;
    Ok(Some(file))
}

/// Returns what is announced of the journal, if there is one.
fn journal_news<'a>(path: Option<&'a str>, news: StartNews) -> Option<JournalNews<'a>> {
    match (path, news.journal) {
        (Some(path), Some(found)) => Some(JournalNews { path, found }),
        (None, _) | (_, None) => None,
    }
}
