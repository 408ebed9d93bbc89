//! A server over a host in memory: what it asks of its host, and what its sockets, its tally, its journal and its log
//! record. Its journal fails once. And starts without a journal that find the one of an earlier server.
use crate::fixtures::{is_spelled, octets};
use journal::{ResumeRefusal, Start};
use kdc_core::{AuditRecord, Bears, TgsOutcome};
use kdc_files::{HandedOver, JournalBeginning};
use kdc_hub::{Action, Event, Look, MemoryRows, Peer, Totals, WireCall};
use kdc_metrics::MemoryMetrics;
use kdc_server::{Given, HostCall, MemoryHost, Ran, ServeOptions, run_server};
use krb_elements::Octets;
use krb_fields::Moment;
use principal_rows::Limits;
use principals::Database;
use principals_text::read_bytes;
use request_log::{LogFormat, MemoryEntry, Transport};
use server_notices::Refused;
use std::alloc::Global;
use std::collections::VecDeque;
use std::net::{Ipv4Addr, SocketAddr};
use std::process::Abort;
use std::str;
use std::test::Fail;

/// The first second of 2024.
const MIDNIGHT: Moment = Moment {
    sec: 1_704_067_200,
    usec: 0,
};

/// A database with `h`, `krbtgt/A.B` and `u`. `ROW` is for `ROW`.
const ROWS: &str =
    "{\"principals\":{\"h\":ROW,\"krbtgt/A.B\":ROW,\"u\":ROW},\"realm\":\"A.B\",\"version\":1}";

/// A row whose key repeats the byte 1.
const ROW: &str = "{\"disabled\":false,\"expires\":null,\"forwardable\":true,\
    \"greatest_life\":4294967295,\"greatest_renewable\":4294967295,\
    \"keys\":[{\"keys\":[{\"etype\":18,\
    \"key\":\"0101010101010101010101010101010101010101010101010101010101010101\"}],\"version\":1}],\
    \"ok_as_delegate\":false,\"password_expires\":null,\"postdate\":false,\"preauth\":true,\
    \"proxiable\":true}";

/// A TGS-REQ after its length.
const PIECE: &str = "00000206 BUYS_AT_0";

/// A login of an unknown client in a datagram. Then a TGS-REQ on a connection, whose reply the journal can't keep; and
/// the same in a datagram. Then nothing comes.
fn coming(alloc: Global) -> Result<VecDeque<(Moment, Event)>, Fail> {
    let mut coming = VecDeque::new(alloc);
    push(&mut coming, datagram(request(alloc, "BASIC_OF_X")?, 1001))?;
    push(&mut coming, Event::Opened { conn: 1 })?;
    push(&mut coming, piece(alloc)?)?;
    push(&mut coming, datagram(request(alloc, "BUYS_AT_0")?, 1002))?;
    Ok(coming)
}

/// What was polled and tried: `p` for an event, `w` if none came, `a` for an act, `f` for one that failed.
const TRIED: &[u8] = b"pappfpawwww";

/// The same without what failed.
const SUCCEEDED: &[u8] = b"papppawwww";

/// Lines of its numbers after these: the login is refused, the ticket is withheld once, and then sent again.
const NUMBERS: [&str; 12] = [
    "kdcd_start_time_seconds 1704067200\n",
    "kdcd_events_total 4\n",
    "kdcd_faults_total 1\n",
    "kdcd_database_rows 3\n",
    "kdcd_replay_clients 1\n",
    "kdcd_replay_authenticators 1\n",
    "kdcd_withheld_total{for=\"journal\"} 1\n",
    "kdcd_requests_total{exchange=\"as\",outcome=\"refused\",rule=\"client-unknown\"} 1\n",
    "kdcd_requests_total{exchange=\"tgs\",outcome=\"ticket\",rule=\"\"} 1\n",
    "kdcd_requests_total{exchange=\"tgs\",outcome=\"ticket-again\",rule=\"\"} 1\n",
    "kdcd_replies_total{transport=\"udp\",sent=\"yes\"} 2\n",
    "kdcd_replies_total{transport=\"tcp\",sent=\"no\"} 1\n",
];

/// Returns the message with this name.
fn request(alloc: Global, name: &str) -> Result<Octets, Fail> {
    Ok(Octets::new(octets(alloc, name)?))
}

fn push(coming: &mut VecDeque<(Moment, Event)>, event: Event) -> Result<(), Fail> {
    Ok(coming.push_back((MIDNIGHT, event))?)
}

fn datagram(request: Octets, port: u16) -> Event {
    let peer = Peer {
        address: SocketAddr::from((Ipv4Addr::LOCALHOST, port)),
        socket: 0,
    };
    Event::Datagram { peer, request }
}

/// Returns the TGS-REQ after its length, on a connection.
fn piece(alloc: Global) -> Result<Event, Fail> {
    let piece = request(alloc, PIECE)?;
    Ok(Event::Bytes { conn: 1, piece })
}

fn rows(alloc: Global) -> Result<Database, Fail> {
    let text = ROWS.replace(alloc, "ROW", ROW)?;
    match read_bytes(alloc, text.as_bytes()) {
        Ok(rows) => Ok(rows),
        Err(_) => Err(Fail::from("a database")),
    }
}

/// Returns a host whose clock shows this moment. The journal beside its database asks for a floor, if there is one.
fn host(
    alloc: Global,
    at: Moment,
    coming: VecDeque<(Moment, Event)>,
    leftover: Option<i64>,
) -> Result<MemoryHost, Fail> {
    let rows = rows(alloc)?;
    Ok(MemoryHost::new(
        alloc,
        Given {
            rows,
            seed: [7; 32],
            at,
            coming,
            looks: VecDeque::new(alloc),
            keeps_before_fault: Some(1),
            leftover,
        },
    ))
}

fn address() -> SocketAddr {
    SocketAddr::from((Ipv4Addr::LOCALHOST, 88))
}

fn options(
    alloc: Global,
    journal: Option<&'static str>,
    is_first: bool,
) -> Result<ServeOptions<'static>, Fail> {
    Ok(ServeOptions {
        db: "database",
        udp: Vec::from_slice(alloc, &[address()])?,
        tcp: Vec::from_slice(alloc, &[address()])?,
        rounds: Some(8),
        seed: None,
        limits: Limits::new(64, 0, 0, 36_000, 0).ok_or("limits")?,
        is_first,
        is_quiet: false,
        journal,
        journal_size: 67_108_864,
        removes_journal: false,
        is_fixed: false,
        log: Some(LogFormat::Text),
        metrics: None,
    })
}

/// A server that has run.
type Finished = Ran<MemoryHost>;

/// Runs a server. Returns the word for its refusal if it does not start.
fn run(
    alloc: Global,
    host: &mut MemoryHost,
    options: &ServeOptions<'static>,
) -> Result<Finished, &'static str> {
    match run_server(alloc, host, options) {
        Ok(ran) => Ok(ran),
        Err(fault) => Err(fault.refusal().unwrap_or("another fault")),
    }
}

fn letter(did: &WireCall) -> u8 {
    match did {
        WireCall::Polled { .. } => b'p',
        WireCall::Waited { .. } => b'w',
        WireCall::Missed => b'm',
        WireCall::Acted { .. } => b'a',
        WireCall::Failed { .. } => b'f',
    }
}

/// Checks whether a record is whole, and its entries have these letters.
fn are(record: Option<&[WireCall]>, letters: &[u8]) -> bool {
    match record {
        Some(did) => did.iter().map(letter).eq(letters.iter().copied()),
        None => false,
    }
}

/// Returns the message of the act at a place of a record.
fn message(record: Option<&[WireCall]>, place: usize) -> &[u8] {
    match record.and_then(|did| did.get(place)) {
        Some(
            WireCall::Acted {
                action: Action::SendTo { reply, .. },
            }
            | WireCall::Failed {
                action: Action::Write { reply, .. },
            },
        ) => reply.message.as_slice(),
        _ => &[],
    }
}

/// Checks whether the login is refused, and the ticket that was withheld is sent at last.
fn are_replies(tried: Option<&[WireCall]>) -> bool {
    let (withheld, sent) = (message(tried, 4), message(tried, 6));
    is_spelled(message(tried, 1), "CLIENT_UNKNOWN")
        && sent.first() == Some(&0x6d)
        && withheld == sent
}

/// Checks whether the journal was handed the authenticator of the TGS-REQ, once.
fn is_handed(record: Option<&[HandedOver]>) -> bool {
    match record {
        Some([only]) => {
            only.at == MIDNIGHT && only.seen.ctime == MIDNIGHT.sec && only.seen.cusec == 0
        }
        _ => false,
    }
}

fn is_logged(entry: &MemoryEntry, transport: Transport, is_sent: bool) -> bool {
    entry.at == MIDNIGHT && entry.asker.transport == transport && entry.is_sent == is_sent
}

fn are_logged(record: Option<&[MemoryEntry]>) -> bool {
    match record {
        Some([login, withheld, sent]) => {
            is_logged(login, Transport::Udp, true)
                && is_logged(withheld, Transport::Tcp, false)
                && is_logged(sent, Transport::Udp, true)
                && is_resent(&sent.audit)
        }
        _ => false,
    }
}

/// Checks whether a ticket was sent again.
fn is_resent(audit: &Option<AuditRecord>) -> bool {
    match audit {
        Some(audit) => tgs_outcome(audit) == Some(TgsOutcome::Resent(Bears::Ticket)),
        None => false,
    }
}

fn tgs_outcome(audit: &AuditRecord) -> Option<TgsOutcome> {
    match audit {
        AuditRecord::Tgs { outcome, .. } => Some(*outcome),
        AuditRecord::NoRequest | AuditRecord::As { .. } => None,
    }
}

fn is_beginning(beginning: &JournalBeginning) -> bool {
    beginning.realm.as_slice() == b"A.B".as_slice()
        && beginning.at == MIDNIGHT
        && matches!(
            &beginning.start,
            Start::Refuses {
                doubt: ResumeRefusal::Absent,
                floor: None,
            }
        )
}

/// Checks whether the host was asked this, in this order.
fn are_calls(record: Option<&[HostCall]>) -> bool {
    match record {
        Some(
            [
                HostCall::ReadRows(rows),
                HostCall::Drew(seed),
                HostCall::Held { udp, tcp },
                HostCall::ReadJournals { path, .. },
                HostCall::Showed(at),
                HostCall::BeganJournal(beginning),
                HostCall::TookRows,
            ],
        ) => {
            rows.len() == 3
                && *seed == [7; 32]
                && udp.as_slice() == [address()].as_slice()
                && tcp.as_slice() == [address()].as_slice()
                && path.as_slice() == b"journal".as_slice()
                && *at == MIDNIGHT
                && is_beginning(beginning)
        }
        _ => false,
    }
}

/// Checks whether the numbers that were written have their lines.
fn are_numbers(metrics: &Option<MemoryMetrics>) -> bool {
    let Some(metrics) = metrics else {
        return false;
    };
    match metrics.text() {
        Some(text) => match str::from_utf8(text) {
            Ok(text) => has_lines(text),
            Err(_) => false,
        },
        None => false,
    }
}

fn has_lines(text: &str) -> bool {
    for line in NUMBERS {
        if !text.contains(line) {
            return false;
        }
    }
    true
}

fn is_looked(rows: &Option<MemoryRows>) -> bool {
    match rows {
        Some(rows) => matches!(rows.looks(), Some([Look::Unchanged])),
        None => false,
    }
}

fn is_right(ran: &Finished) -> bool {
    let wire = &ran.server.wire;
    let (sockets, tried) = (wire.sockets(), wire.tally().did());
    let wanted = Totals {
        events: 4,
        faults: 1,
        refused: 0,
    };
    ran.totals == wanted
        && are(tried, TRIED)
        && are(sockets.did(), SUCCEEDED)
        && sockets.ended() == Some([1].as_slice())
        && is_handed(wire.journal().handed())
        && are_logged(wire.log().log().entries())
        && is_looked(&ran.rows)
        && are_numbers(&ran.metrics)
        && are_replies(tried)
}

fn is_run(alloc: Global) -> Result<(bool, bool), Fail> {
    let mut host = host(alloc, MIDNIGHT, coming(alloc)?, None)?;
    let options = options(alloc, Some("journal"), true)?;
    match run(alloc, &mut host, &options) {
        Ok(ran) => Ok((is_right(&ran), are_calls(host.calls()))),
        Err(word) => Err(Fail::from(word)),
    }
}

#[test]
fn what_a_server_did_is_in_its_records(rt: HostRuntime) -> Result<(), Fail> {
    let (is_right, are_calls) = is_run(rt.alloc())?;
    assert!(rt; is_right, "the records of the server");
    assert!(rt; are_calls, "the record of its host");
    Ok(())
}

/// The second of midnight, which is the floor of a start 301 seconds before it.
const T: i64 = 1_704_067_200;

const BEFORE_MIDNIGHT: Moment = Moment {
    sec: T - 301,
    usec: 0,
};

/// The floor of a start, and the first octet of the reply to a TGS-REQ whose authenticator is of midnight. Or the word
/// for the refusal of the start.
type Begun = Result<(Option<Refused>, Option<u8>), &'static str>;

/// Whether a start is to be the first, and the floor that a journal beside its database asks for, if there is one; and
/// what follows. A ticket is in a TGS-REP (0x6d), a refusal in a KRB-ERROR (0x7e).
const BEGUN: &[((bool, Option<i64>), Begun)] = &[
    ((false, None), Ok((Some(Refused::All(T)), Some(0x6d)))),
    ((false, Some(T)), Ok((Some(Refused::All(T)), Some(0x6d)))),
    (
        (false, Some(T + 1)),
        Ok((Some(Refused::All(T + 1)), Some(0x7e))),
    ),
    ((true, None), Ok((None, Some(0x6d)))),
    ((true, Some(T - 300)), Err("NotFirst")),
];

/// Returns the TGS-REQ in a datagram, at midnight.
fn bought(alloc: Global) -> Result<VecDeque<(Moment, Event)>, Fail> {
    let mut coming = VecDeque::new(alloc);
    push(&mut coming, datagram(request(alloc, "BUYS_AT_0")?, 1002))?;
    Ok(coming)
}

/// Starts without a journal.
fn begun(alloc: Global, is_first: bool, leftover: Option<i64>) -> Result<Begun, Fail> {
    let mut host = host(alloc, BEFORE_MIDNIGHT, bought(alloc)?, leftover)?;
    let options = options(alloc, None, is_first)?;
    match run(alloc, &mut host, &options) {
        Ok(ran) => Ok(Ok((refused(&host), first_octet(&ran)))),
        Err(word) => Ok(Err(word)),
    }
}

fn first_octet(ran: &Finished) -> Option<u8> {
    message(ran.server.wire.tally().did(), 1).first().copied()
}

/// Returns which requests the start refuses, as it was announced.
fn refused(host: &MemoryHost) -> Option<Refused> {
    match host.announced() {
        Some(news) => news.refused,
        None => None,
    }
}

#[test]
fn a_removed_journal_raises_the_floor(rt: HostRuntime) -> Result<(), Fail> {
    for ((is_first, leftover), wanted) in BEGUN {
        let found = begun(rt.alloc(), *is_first, *leftover)?;
        assert!(rt; found == *wanted, "{is_first} {leftover:?}: {found:?}");
    }
    Ok(())
}
