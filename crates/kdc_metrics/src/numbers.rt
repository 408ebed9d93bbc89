//! The text of a server's numbers, for those who watch it.
ghost use Rattle.std.specs.Prelude.{◌≡◌, ◌++◌, OnOk};
ghost use Rattle.kdc_metrics.specs.Numbers.{caches_text, database_text, journal_text};
ghost use Rattle.kdc_metrics.specs.Numbers.{numbers_text, served_text, start_text};
ghost use Rattle.kdc_metrics.specs.Numbers.{version_sample, version_text, withheld_text};

use crate::counts::Counts;
use crate::prometheus::{NumberType, push_head, push_sample, push_single};
use kdc_hub::CacheSizes;
use std::alloc::AllocError;

const WITHHELD: &str = "kdcd_withheld_total";

const WITHHELD_HELP: &str = "Replies that were withheld, and why.";

const BY_JOURNAL: &[u8] = b"{for=\"journal\"}";

const BY_QUIET_START: &[u8] = b"{for=\"quiet-start\"}";

/// A server's numbers, but for the counts of its requests.
#[derive(Clone, Copy, PartialEq, Eq)]
pub struct Numbers {
    /// The second since 1970 when it started.
    pub started: u64,
    /// The second until which all TGS-REQs are refused after the start, or 0.
    pub refused_until: u64,
    /// How many events came.
    pub events: u64,
    /// How many calls of the sockets failed, with the replies that were withheld.
    pub faults: u64,
    /// How many events ran out of memory.
    pub memory_faults: u64,
    /// How many lines of the log were lost.
    pub lost_lines: u64,
    /// How many rows are served.
    pub rows: u64,
    /// The second when they were taken.
    pub rows_taken: u64,
    /// 1 if there were newer rows that can't be used, otherwise 0.
    pub rows_behind: u64,
    /// How much the replay caches of all clients hold.
    pub caches: CacheSizes,
    /// How many replies were withheld because the journal could not keep what they make the KDC remember.
    pub withheld_by_journal: u64,
    /// How many replies were withheld because the start is quiet.
    pub withheld_by_quiet_start: u64,
    /// The bytes of the journal's files.
    pub journal_bytes: u64,
}

/// Appends the numbers of a server of this version and the counts of its requests in Prometheus' text format.
pub fn push_numbers(
    text: &mut Vec<u8>,
    version: &str,
    numbers: &Numbers,
    counts: &Counts,
) -> Result<(), AllocError>
    // Promise: the other numbers have one text.
    ensures { OnOk result (text.new.items ≡ text.old.items ++ numbers_text version.now numbers.now counts.now) }
{
    push_version(text, version)?;
    push_start(text, numbers)?;
    push_served(text, numbers)?;
    push_database(text, numbers)?;
    push_caches(text, &numbers.caches)?;
    push_journal(text, numbers)?;
    counts.push_text(text)
}

fn push_start(text: &mut Vec<u8>, numbers: &Numbers) -> Result<(), AllocError>
    ensures { OnOk result (text.new.items ≡ text.old.items ++ start_text numbers.now) }
{
    push_single(
        text,
        "kdcd_start_time_seconds",
        NumberType::Gauge,
        "When the server started, in seconds since 1970.",
        numbers.started,
    )?;
    push_single(
        text,
        "kdcd_refused_until_seconds",
        NumberType::Gauge,
        "Until when all TGS-REQs are refused after the start, in seconds since 1970, or 0.",
        numbers.refused_until,
    )
}

fn push_version(text: &mut Vec<u8>, version: &str) -> Result<(), AllocError>
    ensures { OnOk result (text.new.items ≡ text.old.items ++ version_text version.now) }
{
    push_head(
        text,
        "kdcd_info",
        NumberType::Gauge,
        "The version of the server.",
    )?;
    push_version_sample(text, version)
}

fn push_version_sample(text: &mut Vec<u8>, version: &str) -> Result<(), AllocError>
    ensures { OnOk result (text.new.items ≡ text.old.items ++ version_sample version.now) }
{
    push_bytes(text, b"kdcd_info{version=\"")?;
    push_bytes(text, version.as_bytes())?;
    push_bytes(text, b"\"} 1\n")
}

fn push_bytes(text: &mut Vec<u8>, bytes: &[u8]) -> Result<(), AllocError>
    ensures { OnOk result (text.new.items ≡ text.old.items ++ bytes.now) }
{
    text.extend_from_slice(bytes)
}

fn push_served(text: &mut Vec<u8>, numbers: &Numbers) -> Result<(), AllocError>
    ensures { OnOk result (text.new.items ≡ text.old.items ++ served_text numbers.now) }
{
    push_single(
        text,
        "kdcd_events_total",
        NumberType::Counter,
        "Datagrams, new connections, pieces of what comes on them, and their ends.",
        numbers.events,
    )?;
    push_single(
        text,
        "kdcd_faults_total",
        NumberType::Counter,
        "Calls of the sockets that failed, and replies that were withheld.",
        numbers.faults,
    )?;
    push_single(
        text,
        "kdcd_memory_faults_total",
        NumberType::Counter,
        "Events that ran out of memory.",
        numbers.memory_faults,
    )?;
    push_single(
        text,
        "kdcd_log_lost_lines_total",
        NumberType::Counter,
        "Lines of the log that could not be written.",
        numbers.lost_lines,
    )
}

fn push_database(text: &mut Vec<u8>, numbers: &Numbers) -> Result<(), AllocError>
    ensures { OnOk result (text.new.items ≡ text.old.items ++ database_text numbers.now) }
{
    push_single(
        text,
        "kdcd_database_rows",
        NumberType::Gauge,
        "Rows that are served.",
        numbers.rows,
    )?;
    push_single(
        text,
        "kdcd_database_taken_seconds",
        NumberType::Gauge,
        "When these rows were taken, in seconds since 1970.",
        numbers.rows_taken,
    )?;
    push_single(
        text,
        "kdcd_database_behind",
        NumberType::Gauge,
        "1 if there is a newer database that is refused or could not be read, otherwise 0.",
        numbers.rows_behind,
    )
}

fn push_caches(text: &mut Vec<u8>, caches: &CacheSizes) -> Result<(), AllocError>
    ensures { OnOk result (text.new.items ≡ text.old.items ++ caches_text caches.now) }
{
    push_single(
        text,
        "kdcd_replay_clients",
        NumberType::Gauge,
        "Clients with a replay cache.",
        caches.clients,
    )?;
    push_single(
        text,
        "kdcd_replay_authenticators",
        NumberType::Gauge,
        "Authenticators in the replay caches.",
        caches.authenticators,
    )?;
    push_single(
        text,
        "kdcd_replay_kept_bytes",
        NumberType::Gauge,
        "Bytes of the requests and replies that are kept with them.",
        caches.kept_bytes,
    )
}

fn push_journal(text: &mut Vec<u8>, numbers: &Numbers) -> Result<(), AllocError>
    ensures { OnOk result (text.new.items ≡ text.old.items ++ journal_text numbers.now) }
{
    push_single(
        text,
        "kdcd_journal_bytes",
        NumberType::Gauge,
        "Bytes of the journal's two files.",
        numbers.journal_bytes,
    )?;
    push_withheld(text, numbers)
}

fn push_withheld(text: &mut Vec<u8>, numbers: &Numbers) -> Result<(), AllocError>
    ensures { OnOk result (text.new.items ≡ text.old.items ++ withheld_text numbers.now) }
{
    push_head(text, WITHHELD, NumberType::Counter, WITHHELD_HELP)?;
    push_sample(text, WITHHELD, BY_JOURNAL, numbers.withheld_by_journal)?;
    push_sample(
        text,
        WITHHELD,
        BY_QUIET_START,
        numbers.withheld_by_quiet_start,
    )
}
