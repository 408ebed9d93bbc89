//! A host in memory.
ghost use Rattle.std.specs.Prelude.{◌≡◌, ◌∷◌, [], IfOk, Some, None};
ghost use Rattle.std.specs.Option.{option_copied};
ghost use Rattle.kdc_hub.specs.Wire.{Records};
ghost use Rattle.kdc_server.specs.InMemory.{did_by, no_journals};
ghost use Rattle.kdc_files.specs.InMemory.{seen_as};
ghost use Rattle.kdc_server.specs.Starting.{HasNoJournal, Held, HostDid, ReadJournals, ReadRows, ReadSeed};

use crate::host::{Host, StartNews};
use crate::memory_sockets::MemorySockets;
use journal::{Found, FoundFiles};
use kdc_files::{
    JournalBeginning, Journals, MemoryJournal, OpenedJournals, Record, ServerFileError,
};
use kdc_hub::{Event, Look, MemoryRows};
use kdc_metrics::{CountedLog, MemoryMetrics, MemoryTally};
use krb_elements::Octets;
use krb_fields::Moment;
use principals::Database;
use request_log::MemoryLog;
use std::alloc::{AllocError, Global};
use std::collections::VecDeque;
use std::io;
use std::io::{Error, ErrorKind};
use std::net::SocketAddr;

/// A call of a host in memory that succeeded.
#[derive(Drop)]
pub enum HostCall {
    /// It read these rows.
    ReadRows(Database),
    /// It read a seed.
    ReadSeed {
        path: Octets,
        octets: Octets,
    },
    /// It drew a seed.
    Drew([u8; 32]),
    /// It opened the sockets.
    Held {
        udp: Vec<SocketAddr>,
        tcp: Vec<SocketAddr>,
    },
    /// It read the journals at a path.
    ReadJournals {
        path: Octets,
        journals: Journals,
    },
    /// It made sure that no journal is beside the database. What it removed asked for this floor.
    HasNoJournal(Option<i64>),
    /// Its clock showed this moment.
    Showed(Moment),
    /// It began the journal that was read.
    BeganJournal(JournalBeginning),
    /// It handed over the source of its rows.
    TookRows,
}

/// The sockets of a host in memory can be held once.
#[derive(Clone, Copy)]
pub struct AlreadyHeld;

/// What a host in memory gives.
#[derive(Drop)]
pub struct Given {
    /// The rows of its database, which can be read once.
    pub rows: Database,
    /// The seed that it reads from any path, and that it draws.
    pub seed: [u8; 32],
    /// The moment that its clock shows.
    pub at: Moment,
    /// The events at its sockets.
    pub coming: VecDeque<(Moment, Event)>,
    /// The looks at its rows after the start.
    pub looks: VecDeque<Look>,
    /// How many calls of its journal succeed before one fails, if one is to fail.
    pub keeps_before_fault: Option<u64>,
    /// The floor that a journal beside its database asks for, if there is one.
    pub leftover: Option<i64>,
}

/// A host that gives what it was given, records its calls, and has no journal before its start. For tests.
#[derive(Drop)]
pub struct MemoryHost {
    alloc: Global,
    rows: Option<Database>,
    seed: [u8; 32],
    at: Moment,
    coming: Option<VecDeque<(Moment, Event)>>,
    looks: Option<VecDeque<Look>>,
    keeps_before_fault: Option<u64>,
    leftover: Option<i64>,
    calls: Record<HostCall>,
    /// The start that it announced last.
    announced: Option<StartNews>,
}

/// The name of its boot.
const BOOT: &[u8] = b"boot";

impl MemoryHost {
    /// Returns a host with what it is given. It has recorded no call.
    pub fn new(alloc: Global, given: Given) -> MemoryHost
        // Promise: host, sockets, tally, journal and log in memory begin with an empty record too.
        ensures { ⟦<MemoryHost as Host>⟧.recorded result ≡ Some [] }
    {
        let seed = given.seed;
        MemoryHost {
            alloc,
            rows: Some(given.rows),
            seed,
            at: given.at,
            coming: Some(given.coming),
            looks: Some(given.looks),
            keeps_before_fault: given.keeps_before_fault,
            leftover: given.leftover,
            calls: Record::new(alloc),
            announced: None,
        }
    }

    /// Returns its calls that succeeded, in order, unless memory ran out for one.
    pub fn calls(&self) -> Option<&[HostCall]>
        // Promise, as MemoryWire::did of kdc_hub: what is in memory ..
        ensures { seen_as did_by (option_copied result) ≡ ⟦<MemoryHost as Host>⟧.recorded self.now }
    {
        self.calls.entries()
    }

    /// Returns the start that it announced last.
    pub fn announced(&self) -> Option<StartNews> {
        self.announced
    }

    /// Records a call.
    fn note(&mut self, call: Result<HostCall, AllocError>)
        ensures { (did : HostDid) → IfOk call (λ call. did_by call ≡ did)
            → Records (seen_as did_by self.old.calls) (did ∷ []) (seen_as did_by self.new.calls) }
    {
        self.calls.keep(call);
    }
}

impl Host for MemoryHost {
    type Sockets = MemorySockets;

    type SocketFault = AlreadyHeld;

    type JournalFiles = ();

    type Journal = MemoryJournal;

    type Rows = MemoryRows;

    type Metrics = MemoryMetrics;

    type Log = CountedLog<MemoryLog>;

    type Errors = Vec<u8>;

    type Tally = MemoryTally;

    ghost recorded = { λ h. seen_as did_by h.calls };

    ghost world = { λ _. None };

    fn read_rows(&mut self, alloc: Global) -> Result<Database, ServerFileError> {
        let Some(rows) = self.rows.take() else {
            return Err(ServerFileError::from(Error::from(ErrorKind::NotFound)));
        };
        self.note(rows_read(alloc, &rows));
        Ok(rows)
    }

    fn read_seed(&mut self, alloc: Global, path: &str) -> Result<Vec<u8>, ServerFileError> {
        let octets = Vec::from_slice(alloc, self.seed.as_slice())?;
        self.note(seed_read(alloc, path, &octets));
        Ok(octets)
    }

    fn draw(&mut self) -> io::Result<[u8; 32]> {
        let seed = self.seed;
        self.note(Ok(HostCall::Drew(seed)));
        Ok(seed)
    }

    fn hold(
        &mut self,
        alloc: Global,
        udp: &[SocketAddr],
        tcp: &[SocketAddr],
    ) -> Result<MemorySockets, AlreadyHeld> {
        let Some(coming) = self.coming.take() else {
            return Err(AlreadyHeld);
        };
        self.note(held(alloc, udp, tcp));
        Ok(MemorySockets::new(alloc, coming))
    }

    fn read_journals(
        &mut self,
        alloc: Global,
        path: &str,
    ) -> Result<OpenedJournals<()>, ServerFileError> {
        let journals = no_journals(alloc)?;
        self.note(journals_read(alloc, path));
        Ok(OpenedJournals {
            journals,
            files: (),
        })
    }

    fn refuse_journal(
        &mut self,
        _alloc: Global,
        is_first: bool,
    ) -> Result<Option<i64>, ServerFileError> {
        if is_first && self.leftover.is_some() {
            return Err(ServerFileError::NotFirst);
        }
        let removed = self.leftover;
        self.note(Ok(HostCall::HasNoJournal(removed)));
        Ok(removed)
    }

    #[tactic(auto, using(kdc_files::specs::KeepingLaws::nothing_begun))]
    fn begin_journal(
        &mut self,
        alloc: Global,
        _files: (),
        beginning: JournalBeginning,
    ) -> Result<MemoryJournal, ServerFileError> {
        let keeps_before_fault = self.keeps_before_fault;
        self.note(Ok(HostCall::BeganJournal(beginning)));
        Ok(MemoryJournal::new(alloc, keeps_before_fault))
    }

    fn no_journal(&mut self) -> MemoryJournal {
        MemoryJournal::absent(self.alloc)
    }

    fn announce(&mut self, news: StartNews) {
        self.announced = Some(news);
    }

    fn take_rows(&mut self) -> Result<MemoryRows, ServerFileError> {
        let Some(looks) = self.looks.take() else {
            return Err(ServerFileError::from(Error::from(ErrorKind::NotFound)));
        };
        self.note(Ok(HostCall::TookRows));
        Ok(MemoryRows::new(self.alloc, looks))
    }

    fn open_log(&mut self, alloc: Global) -> Result<CountedLog<MemoryLog>, AllocError> {
        Ok(CountedLog::new(MemoryLog::new(alloc)))
    }

    fn open_errors(&mut self, alloc: Global) -> Result<Vec<u8>, AllocError> {
        Ok(Vec::new(alloc))
    }

    fn open_tally(&mut self, alloc: Global) -> MemoryTally {
        MemoryTally::new(alloc)
    }

    fn take_metrics(&mut self) -> Option<MemoryMetrics> {
        Some(MemoryMetrics::new(self.alloc))
    }

    fn now(&mut self) -> io::Result<Moment> {
        let at = self.at;
        self.note(Ok(HostCall::Showed(at)));
        Ok(at)
    }
}

fn rows_read(alloc: Global, rows: &Database) -> Result<HostCall, AllocError>
    ensures { IfOk result (λ call. did_by call ≡ ReadRows rows.now) }
{
    Ok(HostCall::ReadRows(rows.copy(alloc)?))
}

fn seed_read(alloc: Global, path: &str, octets: &[u8]) -> Result<HostCall, AllocError>
    ensures { IfOk result (λ call. did_by call ≡ ReadSeed path.now octets.now) }
{
    Ok(HostCall::ReadSeed {
        path: Octets::from_slice(alloc, path.as_bytes())?,
        octets: Octets::from_slice(alloc, octets)?,
    })
}

fn held(alloc: Global, udp: &[SocketAddr], tcp: &[SocketAddr]) -> Result<HostCall, AllocError>
    ensures { IfOk result (λ call. did_by call ≡ Held udp.now tcp.now) }
{
    Ok(HostCall::Held {
        udp: Vec::from_slice(alloc, udp)?,
        tcp: Vec::from_slice(alloc, tcp)?,
    })
}

fn no_journals(alloc: Global) -> Result<Journals, AllocError>
    ensures { IfOk result (λ journals. journals ≡ no_journals BOOT.now) }
{
    Ok(Journals {
        boot: Octets::from_slice(alloc, BOOT)?,
        found: FoundFiles {
            older: Found::Nothing,
            newer: Found::Nothing,
            beside: Found::Nothing,
        },
        seal: Octets::new(Vec::new(alloc)),
        removed: None,
    })
}

fn journals_read(alloc: Global, path: &str) -> Result<HostCall, AllocError>
    ensures { IfOk result (λ call. did_by call ≡ ReadJournals path.now (no_journals BOOT.now)) }
{
    Ok(HostCall::ReadJournals {
        path: Octets::from_slice(alloc, path.as_bytes())?,
        journals: no_journals(alloc)?,
    })
}
