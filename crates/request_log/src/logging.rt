//! Logging the requests of a server.
ghost use Rattle.std.specs.Prelude.{◌≡◌, ◌∷◌, [], Bool, List, Option, option_copied};
ghost use Rattle.kdc_hub.specs.Wire.{Records, polled};
ghost use Rattle.request_log.specs.Log.{LogsAll, LogsIf, arrival_after, asker_of};
ghost use Rattle.request_log.specs.Log.{closing_reports, entries_by, source_of};
ghost use Rattle.request_log.specs.Log.{entries_of, reports};
ghost use Rattle.request_log.specs.LogLaws.{log_if_records};
ghost use Rattle.kdc_files.specs.Recorded.{record_of};
ghost use Rattle.request_log.specs.Entry.{LogEntry};

use crate::asker::{Asker, Transport};
use crate::entries::Entry;
use kdc_hub::{Action, AuditRecord, CloseReason, Event, Peers, Reply, WireFault};
use krb_fields::Moment;
use std::alloc::Global;
use std::net::SocketAddr;

/// Takes the entries of a log.
pub trait LogWriter {
    // The entries so far, in order, if it keeps a record.
    ghost logged: { Self → Option (List LogEntry) };

    // What the writer becomes by an entry.
    ghost Logs: { Self → LogEntry → Self → Type 0 };

    /// Writes the entry for a request.
    fn write_entry(&mut self, alloc: Global, entry: &Entry<'_>)
        // Promise, as Counts::count of kdc_metrics: **the counts are those ..
        // Promise: **an entry becomes its line**, made of the audit record, after what was written before, or is
        // counted as lost.
        // Promise: the next line that is written has one before it that says how many were lost.
        ensures { Logs self.old entry.now self.new };

    // By an entry its record grows by that one.
    ghost records: { (log : Self) (entry : LogEntry) (new : Self) → Logs log entry new
        → Records (logged log) (entry ∷ []) (logged new) };
}

/// The arrival of an event at a server.
#[derive(Clone, Copy)]
pub struct Arrival {
    /// When it came.
    pub at: Moment,
    /// The address of the peer on a connection. `None` for a datagram, or if the peer is not known.
    pub source: Option<SocketAddr>,
}

/// Returns the last event after a poll.
pub fn arrival_after<P: Peers>(
    peers: &P,
    came: Arrival,
    outcome: &Result<(Moment, Option<Event>), WireFault>,
) -> Arrival
    ensures { result ≡ arrival_after (P.peer_of peers.now) came (polled outcome.now) }
{
    match outcome {
        Ok((at, Some(event))) => Arrival {
            at: *at,
            source: event_source(peers, event),
        },
        Ok((_, None)) => came,
        Err(_) => came,
    }
}

/// Returns the address that the connection of an event came from, if it is known.
fn event_source<P: Peers>(peers: &P, event: &Event) -> Option<SocketAddr>
    ensures { result ≡ source_of (P.peer_of peers.now) event.now }
{
    match event {
        Event::Opened { conn } | Event::Bytes { conn, .. } | Event::Closed { conn } => {
            peers.peer(*conn)
        }
        Event::Datagram { .. } => None,
    }
}

/// Without a log nothing is written.
impl<L: LogWriter> LogWriter for Option<L> {
    ghost logged = { record_of L.logged };

    ghost Logs = { LogsIf L.Logs };

    fn write_entry(&mut self, alloc: Global, entry: &Entry<'_>) {
        match self {
            Some(log) => log.write_entry(alloc, entry),
            None => {}
        }
    }

    ghost records = { log_if_records L.logged L.Logs L.records };
}

/// An action that was tried.
#[derive(Clone, Copy)]
pub struct Tried<'a> {
    /// The last event before it, or the start.
    pub came: Arrival,
    /// The action of the hub.
    pub action: &'a Action,
    /// Whether it was done: it neither failed nor was withheld.
    pub is_sent: bool,
}

/// Writes the entry for the request that an action answers, if it answers one.
pub fn log_action<L: LogWriter>(alloc: Global, log: &mut L, tried: &Tried<'_>)
    ensures { LogsAll L.Logs log.old (entries_of tried.now.came tried.now.action.now tried.now.is_sent) log.new }
{
    match tried.action {
        Action::SendTo { reply, .. } => log_reply(alloc, log, tried, reply),
        Action::Pass { .. } => log_audit(alloc, log, tried, Some(&AuditRecord::NoRequest)),
        Action::Write { reply, .. } => log_reply(alloc, log, tried, reply),
        Action::Close { reason, .. } => log_close(alloc, log, tried, *reason),
    }
}

/// Writes the entry for the request that a reply answers. Without an audit record it answers no request.
fn log_reply<L: LogWriter>(alloc: Global, log: &mut L, tried: &Tried<'_>, reply: &Reply)
    ensures { LogsAll L.Logs log.old (entries_by tried.now.came.at (asker_of tried.now.came.source tried.now.action.now)
        tried.now.is_sent (reports reply.now.audit)) log.new }
{
    match &reply.audit {
        Some(audit) => log_audit(alloc, log, tried, Some(audit)),
        None => {}
    }
}

/// Writes the entry for the request for which a connection is closed, if it is closed for one.
fn log_close<L: LogWriter>(alloc: Global, log: &mut L, tried: &Tried<'_>, reason: CloseReason)
    ensures { LogsAll L.Logs log.old (entries_by tried.now.came.at (asker_of tried.now.came.source tried.now.action.now)
        tried.now.is_sent (closing_reports reason)) log.new }
{
    match reason {
        CloseReason::NoRequest => log_audit(alloc, log, tried, Some(&AuditRecord::NoRequest)),
        CloseReason::BadLength => log_audit(alloc, log, tried, Some(&AuditRecord::NoRequest)),
        CloseReason::Full => {}
        CloseReason::OutOfMemory => log_audit(alloc, log, tried, None),
    }
}

/// Writes the entry for the request that an action answers, with this audit record.
fn log_audit<L: LogWriter>(
    alloc: Global,
    log: &mut L,
    tried: &Tried<'_>,
    audit: Option<&AuditRecord>,
)
    ensures { L.Logs log.old (record {
      at = tried.now.came.at;
      asker = asker_of tried.now.came.source tried.now.action.now;
      audit = option_copied audit.entry;
      is_sent = tried.now.is_sent;
    }) log.new }
{
    let entry = Entry {
        at: tried.came.at,
        asker: action_asker(tried.came.source, tried.action),
        audit,
        is_sent: tried.is_sent,
    };
    log.write_entry(alloc, &entry);
}

/// Returns who sent the request that an action answers, by the address that its connection came from.
fn action_asker(source: Option<SocketAddr>, action: &Action) -> Asker
    ensures { result ≡ asker_of source action.now }
{
    match action {
        Action::SendTo { peer, .. } | Action::Pass { peer } => Asker {
            transport: Transport::Udp,
            peer: Some(peer.address),
        },
        Action::Write { .. } | Action::Close { .. } => Asker {
            transport: Transport::Tcp,
            peer: source,
        },
    }
}
