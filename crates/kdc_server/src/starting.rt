//! Starting a server as its options say.
ghost use Rattle.std.specs.Prelude.{◌≡◌, ◌||◌, ◌++◌, ◌∷◌, [], true, IfOk, is_some};
ghost use Rattle.std.specs.FinMap as map;
ghost use Rattle.std.specs.Option.{option_copied};
ghost use Rattle.kdc_hub.specs.Hub.{hub_state};
ghost use Rattle.kdc_hub.specs.Wire.{Records};
ghost use Rattle.kdc_files.specs.Recorded.{IsNew};
ghost use Rattle.journal.specs.Finding.{MayFinish};
ghost use Rattle.kdc_server.specs.OnFiles.{HasFound};
ghost use Rattle.kdc_server.specs.Resuming.{AreAt, IsDecided, IsReady, known_before};
ghost use Rattle.kdc_server.specs.Resuming.{may_be_first, reading, started_state};
ghost use Rattle.kdc_server.specs.Starting.{IsSeed, Showed, chacha20, opened_by, seeded};

use crate::host::Host;
use crate::key_places::placed;
use crate::options::ServeOptions;
use crate::resuming::{decide, floor_by, open, read_journals};
use file_store::{CLOCK, RANDOM_OCTETS};
use kdc_core::Opening;
use kdc_files::{JournalBeginning, OpenedJournals, ServerFileError, seed_in};
use kdc_hub::Hub;
use krb_elements::Octets;
use krb_fields::Moment;
use principals::Database;
use rand_chacha::ChaCha20Rng;
use rand_core::SeedableRng;
use std::alloc::{AllocError, Global};
use std::{fmt, io};

/// Why a server did not start.
#[derive(Debug, Drop)]
pub enum StartError<'a, S> {
    /// The file at this path.
    File(&'a str, ServerFileError),
    /// A call of the system failed.
    System(SystemPart, io::Error),
    /// A socket was not opened.
    Sockets(S),
    /// The start is to be the first, and there is a journal at this path.
    NotFirst(&'a str),
    /// Memory ran out.
    Memory,
}

/// A part of the system that a start needs, besides files and sockets.
#[derive(Clone, Copy, Debug, PartialEq, Eq)]
pub enum SystemPart {
    /// The clock.
    Clock,
    /// The source of random bytes.
    RandomOctets,
    /// Standard error.
    StandardError,
}

impl fmt::Display for SystemPart {
    fn fmt<W: fmt::Write>(&self, f: &mut fmt::Formatter<W>) -> fmt::Result {
        f.write_str(match self {
            SystemPart::Clock => CLOCK,
            SystemPart::RandomOctets => RANDOM_OCTETS,
            SystemPart::StandardError => "standard error",
        })
    }
}

impl<S: fmt::Display> fmt::Display for StartError<'_, S> {
    fn fmt<W: fmt::Write>(&self, f: &mut fmt::Formatter<W>) -> fmt::Result {
        match self {
            StartError::File(path, fault) => write!(f, "{path}: {fault}"),
            StartError::System(part, error) => write!(f, "{part}: {error}"),
            StartError::Sockets(fault) => write!(f, "{fault}"),
            StartError::NotFirst(path) => {
                write!(
                    f,
                    "--first is for the first start alone, and there is a journal {path}; start without --first"
                )
            }
            StartError::Memory => f.write_str("out of memory"),
        }
    }
}

impl<S> From<AllocError> for StartError<'_, S> {
    fn from(_: AllocError) -> Self {
        StartError::Memory
    }
}

impl<S> StartError<'_, S> {
    /// Returns the word for the refusal, if a file was read and is refused.
    pub fn refusal(&self) -> Option<&'static str> {
        match self {
            StartError::File(_, fault) => fault.refusal(),
            StartError::NotFirst(_) => Some("NotFirst"),
            _ => None,
        }
    }
}

/// A server that has its sockets, before its first round, and what its journal is to begin with, if it has one.
#[derive(Drop)]
pub struct ReadyServer<H: Host> {
    /// The hub, whose KDC was opened or has resumed.
    pub hub: Hub<ChaCha20Rng>,
    /// The sockets, which were opened before the journals were read.
    pub sockets: H::Sockets,
    /// The files of the journals that were read, if it is to have a journal.
    pub files: Option<H::JournalFiles>,
    /// The moment and the floor of the start are those in it.
    pub beginning: JournalBeginning,
    /// The number of rows that it serves.
    pub row_count: usize,
}

/// Makes a server ready as its options say. It reads the database and the seed, opens its sockets, then reads the
/// journals, if it is to have one, and only then the clock. So no earlier process appends to a journal after it was
/// read, or answers a request after the moment of this start.
#[tactic(auto, using(crate::proofs::OnFiles::finding))]
pub fn ready<'a, H: Host>(
    alloc: Global,
    host: &mut H,
    options: &ServeOptions<'a>,
) -> Result<ReadyServer<H>, StartError<'a, H::SocketFault>>
    ensures start { IfOk result (λ ready. IsReady options.now (H.recorded host.old) (H.recorded host.new)
        (hub_state chacha20 ready.hub) ready.beginning ready.row_count) }
    ensures sockets { IfOk result (λ ready. IsNew (H.Sockets.recorded ready.sockets)) }
    ensures files { IfOk result (λ ready. is_some ready.files ≡ is_some (option_copied options.now.journal)) }
    // Of the files of its journal it finishes a turn that was cut, and does nothing else to them.
    ensures reads { IfOk result (λ ready. is_some (option_copied options.now.journal) ≡ true
        → HasFound ready.beginning.journals (H.world host.old) (H.world host.new)) }
    ensures finished { is_some (option_copied options.now.journal) ≡ true
        → MayFinish (H.world host.old) (H.world host.new) }
{
    let rows = match host.read_rows(alloc) {
        Ok(rows) => rows,
        Err(fault) => return Err(StartError::File(options.db, fault)),
    };
    let row_count = rows.len();
    let seed = take_seed(alloc, host, options.seed)?;
    let sockets = match host.hold(alloc, &options.udp, &options.tcp) {
        Ok(sockets) => sockets,
        Err(fault) => return Err(StartError::Sockets(fault)),
    };
    let Beginning { files, journal } = begin(alloc, host, options, &rows)?;
    let hub = build_hub(alloc, options, rows, seed, &journal)?;
    Ok(ReadyServer {
        hub,
        sockets,
        files,
        beginning: journal,
        row_count,
    })
}

/// What a journal is to begin with, and in which files, if there is to be one.
#[derive(Drop)]
struct Beginning<F> {
    files: Option<F>,
    journal: JournalBeginning,
}

/// Reads the journals, and then the clock. Returns what the journal is to begin with.
#[tactic(auto, using(crate::proofs::OnFiles::finished_then, crate::proofs::OnFiles::found_then))]
fn begin<'a, H: Host>(
    alloc: Global,
    host: &mut H,
    options: &ServeOptions<'a>,
    rows: &Database,
) -> Result<Beginning<H::JournalFiles>, StartError<'a, H::SocketFault>>
    ensures did { IfOk result (λ begins. Records (H.recorded host.old)
        (reading (option_copied options.now.journal) begins.journal.journals ++ Showed begins.journal.at ∷ [])
        (H.recorded host.new)) }
    ensures files { IfOk result (λ begins. is_some begins.files ≡ is_some (option_copied options.now.journal)) }
    ensures found { IfOk result (λ begins. AreAt (option_copied options.now.journal) begins.journal.journals) }
    ensures first { IfOk result (λ begins. may_be_first options.now.is_first begins.journal.journals ≡ true) }
    ensures decided { IfOk result (λ begins.
        IsDecided rows.now begins.journal.journals begins.journal.at begins.journal.start) }
    ensures realm { IfOk result (λ begins. begins.journal.realm ≡ rows.now.realm) }
    ensures floor { IfOk result (λ begins. begins.journal.floor
        ≡ (known_before (opened_by options.now.is_first begins.journal.at) begins.journal.start).floor) }
    ensures reads { IfOk result (λ begins. is_some (option_copied options.now.journal) ≡ true
        → HasFound begins.journal.journals (H.world host.old) (H.world host.new)) }
    ensures finished { is_some (option_copied options.now.journal) ≡ true
        → MayFinish (H.world host.old) (H.world host.new) }
{
    let OpenedJournals { journals, files } = read_journals(alloc, host, options)?;
    let at = match host.now() {
        Ok(at) => at,
        Err(error) => return Err(StartError::System(SystemPart::Clock, error)),
    };
    let start = decide(alloc, rows, &journals, at)?;
    let realm = Octets::from_slice(alloc, rows.realm())?;
    let floor = floor_by(opened_by(options.is_first, at), &start);
    Ok(Beginning {
        files,
        journal: JournalBeginning {
            realm,
            at,
            floor,
            start,
            journals,
        },
    })
}

/// Returns the hub of a server whose journal begins so: its KDC is opened or resumes as that says.
fn build_hub(
    alloc: Global,
    options: &ServeOptions<'_>,
    rows: Database,
    seed: [u8; 32],
    beginning: &JournalBeginning,
) -> Result<Hub<ChaCha20Rng>, AllocError>
    ensures kdc { IfOk result (λ hub. (hub_state chacha20 hub).issuing.kdc
        ≡ started_state rows options.now.limits (opened_by options.now.is_first beginning.now.at) beginning.now.start) }
    ensures random { IfOk result (λ hub. (hub_state chacha20 hub).issuing.random ≡ seeded seed) }
    ensures audits { IfOk result (λ hub. (hub_state chacha20 hub).issuing.audits
        ≡ (is_some options.now.log || options.now.is_quiet || is_some options.now.metrics)) }
    ensures connections { IfOk result (λ hub. (hub_state chacha20 hub).connections ≡ map.empty) }
{
    let opening = opened_by(options.is_first, beginning.at);
    let kdc = open(alloc, rows, options.limits, opening, &beginning.start)?;
    let rng = ChaCha20Rng::from_seed(seed);
    Ok(Hub::new(alloc, placed(kdc, seed), rng, keeps_audits(options)))
}

/// Checks whether the log, a quiet start or the counts of requests need the audit record of each request.
fn keeps_audits(options: &ServeOptions<'_>) -> bool
    ensures { result ≡ (is_some options.now.log || options.now.is_quiet || is_some options.now.metrics) }
{
    options.log.is_some() || options.is_quiet || options.metrics.is_some()
}

/// Takes the seed: the first 32 octets of the file at a path, or 32 octets that the system draws.
fn take_seed<'a, H: Host>(
    alloc: Global,
    host: &mut H,
    path: Option<&'a str>,
) -> Result<[u8; 32], StartError<'a, H::SocketFault>>
    ensures seed { IfOk result (λ seed. IsSeed (option_copied path.entry) (H.recorded host.old)
        (H.recorded host.new) seed) }
    ensures world { H.world host.new ≡ H.world host.old }
{
    let Some(path) = path else {
        return match host.draw() {
            Ok(seed) => Ok(seed),
            Err(error) => Err(StartError::System(SystemPart::RandomOctets, error)),
        };
    };
    match read_seed(alloc, host, path) {
        Ok(seed) => Ok(seed),
        Err(fault) => Err(StartError::File(path, fault)),
    }
}

fn read_seed<H: Host>(alloc: Global, host: &mut H, path: &str) -> Result<[u8; 32], ServerFileError>
    ensures seed { IfOk result (λ seed. IsSeed (Some path.now) (H.recorded host.old) (H.recorded host.new) seed) }
    ensures world { H.world host.new ≡ H.world host.old }
{
    let octets = host.read_seed(alloc, path)?;
    seed_in(&octets)
}

/// Returns how the KDC starts where it does not resume.
fn opened_by(is_first: bool, at: Moment) -> Opening
    ensures { result ≡ opened_by is_first at }
{
    if is_first {
        Opening::First
    } else {
        Opening::Restart(at)
    }
}
