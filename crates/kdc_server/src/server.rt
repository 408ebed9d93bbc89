//! A server: it starts as its options say, and serves.
ghost use Rattle.std.specs.Prelude.{◌≡◌, true, false, not, Some, None, IfOk, IfErr, IfSome, is_some};
ghost use Rattle.std.specs.Prelude.{option_copied};
ghost use Rattle.kdc_hub.specs.Hub.{hub_state};
ghost use Rattle.kdc_hub.specs.Wire.{Records};
ghost use Rattle.kdc_hub.specs.Recorded.{is_fixed_if, recorded_by_any};
ghost use Rattle.kdc_files.specs.Keeping.{BeginsOver, FailsOver};
ghost use Rattle.kdc_server.specs.OnFiles.{HasFailedOver, HasRunOver, IsStartedOver};
ghost use Rattle.kdc_server.specs.Starting.{chacha20};
ghost use Rattle.kdc_server.specs.Quiet.{quiet_until};
ghost use Rattle.kdc_server.specs.Resuming.{began, found_at};
ghost use Rattle.kdc_files.specs.Recorded.{IsNew};
ghost use Rattle.kdc_server.specs.Served.{Serves};
ghost use Rattle.kdc_server.specs.Server.{HasRun, IsStarted, rounds_of, taking};

use crate::host::{Host, StartNews};
use crate::life_wire::{Lived, live};
use crate::options::ServeOptions;
use crate::quiet::quiet_until;
use crate::reporter::Reporter;
use crate::server_wire::{ServerWire, StartTimes};
use crate::starting::{ReadyServer, StartError, ready};
use journal::Start;
use kdc_files::{JournalBeginning, ServerFileError};
use kdc_hub::{Hub, Totals};
use krb_fields::Moment;
use rand_chacha::ChaCha20Rng;
use server_notices::{JournalFound, refused_at_start};
use std::alloc::Global;
use std::marker::Brand;

/// As many rounds as no process serves.
const ENDLESS: u64 = u64::MAX;

/// A server that has started.
#[derive(Drop)]
pub struct Server<H: Host> {
    /// The hub, with the KDC and the connections.
    pub hub: Hub<ChaCha20Rng>,
    /// Its sockets, with its journal and its log.
    pub wire: ServerWire<H>,
    /// What is announced of the start.
    pub news: StartNews,
}

/// A server that has served all its rounds.
#[derive(Drop)]
pub struct Ran<H: Host> {
    /// The server after its last round.
    pub server: Server<H>,
    /// Where its rows came from, unless they were fixed.
    pub rows: Option<H::Rows>,
    /// What it counted in all its rounds.
    pub totals: Totals,
    /// What took the text of its numbers, if anything did.
    pub metrics: Option<H::Metrics>,
}

/// Starts a server as its options say, announces it, and serves its rounds.
#[tactic(auto, using(crate::proofs::OnFiles::began_and_left))]
pub fn run_server<'a, H: Host>(
    alloc: Global,
    host: &mut H,
    options: &ServeOptions<'a>,
) -> Result<Ran<H>, StartError<'a, H::SocketFault>>
    // It starts as the host's record says, and then lives over the hub and the wire of that start. Unless its rows are
    // fixed, they come from the source that the host handed over.
    // Promise: **what `kdcd serve` runs is a start and a life over it**: the hub and the wire that `serve_life` begins
    // with are those of the start that the options ask for, with a journal or without one.
    // Promise: the rounds of `kdcd serve` are those of the options.
    // Promise (run, served): what the wire, its sockets, its journal and its log have recorded is what was polled and
    // tried in that life.
    ensures run { IfOk result (λ ran. HasRun options.now (H.recorded host.old) (H.recorded host.new) ran.server.news
        (H.Tally.recorded ran.server.wire.tally) (recorded_by_any H.Rows.recorded ran.rows) ran.totals
        (hub_state chacha20 ran.server.hub)) }
    // The sockets, the journal and the log have recorded what was polled and tried in this life.
    // Promise, as every_life: **over the life of ..
    // Promise: whatever was polled and tried since the start, in any order: what the journal has recorded is what these
    // acts hand over.
    // Promise: the log has an entry for each request that these acts answer, with whether it was done.
    // Promise: the sockets have recorded the same polls and acts, but for what failed.
    ensures served { IfOk result (λ ran. ∥ Serves (H.Tally.recorded ran.server.wire.tally)
        (H.Sockets.recorded ran.server.wire.sockets) (H.Journal.handed ran.server.wire.journal)
        (H.Log.logged ran.server.wire.log) ran.server.wire.came.at ∥₁) }
    // The source that the host handed over is the one that it looks at, to the end.
    // Promise, as take_rows: **changes are served**: unless ..
    ensures source { IfOk result (λ ran. options.now.is_fixed ≡ false → is_some ran.rows ≡ true) }
    // If it has a journal, that began over the host's files, and was asked what the tally says, and nothing else.
    // Promise: a run's journal began over the files that were found, is asked for each reply and for nothing else, and
    // no act with a reply succeeds unless all was kept.
    ensures over { IfOk result (λ ran. is_some (option_copied options.now.journal) ≡ true
        → HasRunOver options.now (H.recorded host.old) (H.recorded host.new) ran.server.news
        (H.Tally.recorded ran.server.wire.tally) (recorded_by_any H.Rows.recorded ran.rows) ran.totals
        (hub_state chacha20 ran.server.hub) (H.world host.old) (H.Journal.state ran.server.wire.journal)) }
    // If it fails, its journal began over these files, or failed to, or nothing was done but to finish a turn.
    // Promise: a run that fails has its journal's files as they were, with a turn finished that was cut, or as a
    // journal leaves them that began or failed to.
    ensures failed { IfErr result (λ _. is_some (option_copied options.now.journal) ≡ true
        → HasFailedOver options.now (H.world host.old) (H.world host.new)) }
{
    let server = start(alloc, host, options)?;
    let Server {
        mut hub,
        wire,
        news,
    } = server;
    let mut rows = take_rows(host, options)?;
    host.announce(news);
    let rounds = round_limit(options.rounds);
    let mut reporter = Reporter::new(host.take_metrics(), wire.came_at(), news.refused);
    let Lived { wire, totals } = live::<Brand, H>(
        alloc,
        wire,
        &mut rows,
        &mut hub,
        rounds,
        &mut reporter,
    );
    Ok(Ran {
        server: Server { hub, wire, news },
        rows,
        totals,
        metrics: reporter.into_writer(),
    })
}

/// Starts a server as its options say.
#[tactic(auto, using(crate::proofs::OnFiles::failing))]
pub fn start<'a, H: Host>(
    alloc: Global,
    host: &mut H,
    options: &ServeOptions<'a>,
) -> Result<Server<H>, StartError<'a, H::SocketFault>>
    // Promise: **a server starts as its options say**: it reads its rows, its seed and the journals, and binds its
    // sockets to the given addresses; then it reads the clock.
    // Promise: a server's seed is the first 32 bytes of the file that `--seed` names, or what the system draws; its
    // random bytes are those of ChaCha20 under that seed.
    // Promise: a server reads the journals after it bound its sockets, if it is to have one, and else makes sure that
    // there is none.
    // Promise: a server's KDC starts with these rows and the given limits; it keeps audit records exactly with a log, a
    // quiet start or counts.
    // Promise: **a server resumes exactly if its journals say so**: it starts from what `start_of` makes of them for
    // its realm, this boot and the moment that the clock showed.
    // Promise: else, and without a journal, a server opens for the first time or again at that moment, with the floor
    // that the files ask for if that is higher, those that `--no-journal` removed too.
    // Promise: with `--first` there is no journal.
    // Promise: a server's journal begins with the realm of the rows, that moment, and the floor of what the start
    // knows.
    ensures start { IfOk result (λ server. IsStarted options.now (H.recorded host.old) (H.recorded host.new)
        (hub_state chacha20 server.hub) server.wire.came.at server.wire.clock.floor
        server.news) }
    ensures quiet { IfOk result (λ server.
        server.wire.quiet_until ≡ quiet_until server.news.refused server.wire.came.at options.now.is_quiet) }
    // Promise: a server has a journal exactly if the options name one.
    ensures journal { IfOk result (λ server.
        H.Journal.is_there server.wire.journal ≡ is_some (option_copied options.now.journal)) }
    ensures log { IfOk result (λ server. IsNew (H.Log.logged server.wire.log)) }
    ensures tally { IfOk result (λ server. IsNew (H.Tally.recorded server.wire.tally)) }
    ensures over { IfOk result (λ server. is_some (option_copied options.now.journal) ≡ true
        → IsStartedOver options.now (H.recorded host.old) (H.recorded host.new) (hub_state chacha20 server.hub)
        server.wire.came.at server.wire.clock.floor server.news (H.world host.old) (H.world host.new)
        (H.Journal.state server.wire.journal)) }
    ensures failed { IfErr result (λ _. is_some (option_copied options.now.journal) ≡ true
        → HasFailedOver options.now (H.world host.old) (H.world host.new)) }
{
    let ReadyServer {
        hub,
        sockets,
        files,
        beginning,
        row_count,
    } = ready(alloc, host, options)?;
    let (at, floor) = (beginning.at, beginning.floor);
    let found = found_at(options.journal, &beginning.start, at);
    let log = host.open_log(alloc)?;
    let errors = host.open_errors(alloc)?;
    let tally = host.open_tally(alloc);
    let journal = match begin_journal(alloc, host, files, beginning) {
        Ok(journal) => journal,
        Err(fault) => return Err(StartError::File(options.journal_place(), fault)),
    };
    let refused = refused_at_start(floor, at);
    let times = StartTimes {
        at,
        floor,
        quiet_until: quiet_until(refused, at, options.is_quiet),
    };
    Ok(Server {
        hub,
        wire: ServerWire::new(sockets, journal, log, errors, tally, times),
        news: StartNews {
            row_count,
            journal: found,
            refused,
        },
    })
}

/// Begins the journal in its files, if the server is to have one.
fn begin_journal<H: Host>(
    alloc: Global,
    host: &mut H,
    files: Option<H::JournalFiles>,
    beginning: JournalBeginning,
) -> Result<H::Journal, ServerFileError>
    ensures began { IfOk result (λ _.
        Records (H.recorded host.old) (began (is_some files) beginning) (H.recorded host.new)) }
    ensures new { IfOk result (λ journal. IsNew (H.Journal.handed journal)) }
    ensures there { IfOk result (λ journal. H.Journal.is_there journal ≡ is_some files) }
    ensures begins { IfOk result (λ journal. is_some files ≡ true
        → BeginsOver beginning true (H.world host.old) (H.Journal.state journal)) }
    ensures world { IfOk result (λ journal. is_some files ≡ true
        → IfSome (H.world host.new) (λ w. (H.Journal.state journal).files ≡ Some w)) }
    ensures fails { IfErr result (λ _. FailsOver beginning (H.world host.old) (H.world host.new)) }
{
    match files {
        Some(files) => host.begin_journal(alloc, files, beginning),
        None => Ok(host.no_journal()),
    }
}

/// Returns what a start at this moment made of its journal, if it has one.
fn found_at(path: Option<&str>, start: &Start, at: Moment) -> Option<JournalFound>
    ensures { result ≡ found_at (option_copied path.entry) start.now at }
{
    match path {
        Some(_) => Some(JournalFound::of(start, at)),
        None => None,
    }
}

/// Takes the source of the rows from a host, unless the rows are fixed.
fn take_rows<'a, H: Host>(
    host: &mut H,
    options: &ServeOptions<'a>,
) -> Result<Option<H::Rows>, StartError<'a, H::SocketFault>>
    // Promise (took, there): **changes are served**: unless the rows are fixed, a server looks at the source that its
    // host handed over, once, and each database that a look finds replaces the rows.
    // Promise (took, there): with `--fixed` the host is not asked, no look finds anything, and no row changes.
    ensures took { IfOk result (λ rows.
        Records (H.recorded host.old) (taking options.now.is_fixed) (H.recorded host.new)) }
    ensures there { IfOk result (λ rows. is_some rows ≡ not options.now.is_fixed) }
    // They may change exactly if they are not fixed.
    ensures changes { IfOk result (λ rows. is_fixed_if H.Rows.is_fixed rows ≡ options.now.is_fixed) }
    ensures world { H.world host.new ≡ H.world host.old }
    ensures new { IfOk result (λ rows. IsNew (recorded_by_any H.Rows.recorded rows)) }
{
    if options.is_fixed {
        return Ok(None);
    }
    match host.take_rows() {
        Ok(rows) => Ok(Some(rows)),
        Err(fault) => Err(StartError::File(options.db, fault)),
    }
}

/// Returns how many rounds are served.
fn round_limit(rounds: Option<u32>) -> u64
    ensures { result ≡ rounds_of rounds }
{
    match rounds {
        Some(rounds) => u64::from(rounds),
        None => ENDLESS,
    }
}
