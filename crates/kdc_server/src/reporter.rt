//! Reporting the numbers of a server every ten seconds.
ghost use Rattle.std.specs.Prelude.{◌≡◌, IfOk};
ghost use Rattle.kdc_metrics.specs.Numbers.{numbers_text};
ghost use Rattle.kdc_server.specs.Reporter.{refused_until, second_of};

use crate::host::Host;
use crate::life_wire::{Begun, LifeWire};
use crate::server_wire::ServerWire;
use file_store::VERSION;
use kdc_hub::{Hub, Observer, RowsState, Served, ServerView, due_at};
use kdc_metrics::{Counts, LogNumbers, MetricsWriter, Numbers, Tally, push_numbers};
use krb_fields::Moment;
use rand_chacha::ChaCha20Rng;
use server_notices::Refused;
use std::alloc::{AllocError, Global};

/// How many seconds pass between two reports.
const BETWEEN_REPORTS: i64 = 10;

/// The room that a text gets at first. A longer one gets more.
const USUAL_TEXT: usize = 16_384;

/// Reports the numbers of a server, if they are to be written, and counts what the server served.
#[derive(Drop)]
pub struct Reporter<H: Host> {
    writer: Option<H::Metrics>,
    started: Moment,
    refused: Option<Refused>,
    /// When they were reported last, if they were.
    reported: Option<Moment>,
    /// How many events came, and how many ran out of memory. The counts stop at the greatest `u64`.
    events: u64,
    memory_faults: u64,
}

impl<H: Host> Reporter<H> {
    /// Returns the reporter of a server that started at this moment.
    pub fn new(
        writer: Option<H::Metrics>,
        started: Moment,
        refused: Option<Refused>,
    ) -> Reporter<H> {
        Reporter {
            writer,
            started,
            refused,
            reported: None,
            events: 0,
            memory_faults: 0,
        }
    }

    /// Adds what was served.
    fn add(&mut self, served: &Served) {
        self.events = self.events.saturating_add(u64::from(served.events));
        self.memory_faults = self.memory_faults.saturating_add(u64::from(served.refused));
    }

    /// Returns what takes the texts, if anything does.
    pub fn into_writer(self) -> Option<H::Metrics> {
        self.writer
    }

    /// Writes the numbers and counts. If memory runs out, it writes nothing this time.
    fn write(&mut self, alloc: Global, numbers: &Numbers, counts: &Counts) {
        let Some(writer) = &mut self.writer else {
            return;
        };
        if let Ok(text) = metrics_text(alloc, VERSION, numbers, counts) {
            writer.write_metrics(&text);
        }
    }

    /// Returns the numbers of a server whose rows are in this state.
    fn gather_numbers(
        &self,
        wire: &ServerWire<H>,
        rows: RowsState,
        hub: &Hub<ChaCha20Rng>,
    ) -> Numbers {
        let withheld = wire.withheld();
        Numbers {
            started: unsigned_second(self.started.sec),
            refused_until: refused_until(self.refused),
            events: self.events,
            faults: wire.tally().faults(),
            memory_faults: self.memory_faults,
            lost_lines: wire.log().lost_lines(),
            rows: hub.row_count() as u64,
            rows_taken: unsigned_second(rows.taken_at.unwrap_or(self.started.sec)),
            rows_behind: u64::from(rows.is_behind),
            caches: hub.cache_sizes(),
            withheld_by_journal: withheld.by_journal,
            withheld_by_quiet_start: withheld.by_quiet_start,
            journal_bytes: self.journal_bytes(),
        }
    }

    fn journal_bytes(&self) -> u64 {
        match &self.writer {
            Some(writer) => writer.journal_bytes(),
            None => 0,
        }
    }
}

impl<H: Host, B: Begun> Observer<LifeWire<H, B>, ChaCha20Rng> for Reporter<H> {
    fn see(&mut self, alloc: Global, server: &ServerView<'_, LifeWire<H, B>, ChaCha20Rng>) {
        if self.writer.is_none() {
            return;
        }
        self.add(&server.served);
        let Some(at) = due_at(BETWEEN_REPORTS, &self.reported, &server.served.last) else {
            return;
        };
        self.reported = Some(at);
        let wire = server.wire.server_wire();
        let Some(counts) = wire.log().counts() else {
            return;
        };
        let numbers = self.gather_numbers(wire, server.rows, server.hub);
        self.write(alloc, &numbers, counts);
    }
}

/// Returns the text of a server of this version.
fn metrics_text(
    alloc: Global,
    version: &str,
    numbers: &Numbers,
    counts: &Counts,
) -> Result<Vec<u8>, AllocError>
    ensures { IfOk result (λ text. text.items ≡ numbers_text version.now numbers.now counts.now) }
{
    let mut text = Vec::with_capacity(alloc, USUAL_TEXT)?;
    push_numbers(&mut text, version, numbers, counts)?;
    Ok(text)
}

/// Returns the second until which all TGS-REQs are refused after the start, or 0.
fn refused_until(refused: Option<Refused>) -> u64
    ensures { result ≡ refused_until refused }
{
    match refused {
        Some(Refused::All(until)) => unsigned_second(until),
        Some(Refused::ServedLater(_)) => 0,
        None => 0,
    }
}

/// Returns a second since 1970, or 0 for one before.
fn unsigned_second(second: i64) -> u64
    ensures { result ≡ second_of second }
{
    if second < 0 { 0 } else { second.unsigned_abs() }
}
