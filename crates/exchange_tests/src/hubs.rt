//! Tests of a hub (`kdc_hub`) over a wire in memory. Its KDC, for the realm `A.B`, has no clients, so it answers each
//! request with an error of code 6.
use crate::fixtures::{BEGIN, END, JUDGED, holds, mark, octets};
use crate::kdcs::{opened, with_one};
use kdc_hub::{
    Action, CloseReason, Event, Hub, Look, MemoryRows, MemoryWire, Peer, Served, Wire, WireCall,
    serve, serve_life,
};
use krb_elements::Octets;
use krb_fields::Moment;
use rand_chacha::ChaCha20Rng;
use rand_core::SeedableRng;
use std::alloc::{AllocError, Global};
use std::collections::VecDeque;
use std::net::{Ipv4Addr, SocketAddr};
use std::process::Abort;
use std::test::Fail;

/// The place of the last letter of `krbtgt` in the reply. The second request of the stream has `krbtgu` there.
const LETTER: usize = 70;

/// The place of the code in the reply.
const CODE: usize = 42;

/// An event.
#[derive(Clone, Copy)]
pub(crate) enum Come {
    /// The stream's first request comes in a datagram from this port.
    Datagram(u16),
    /// Connections with these numbers are opened, the last one included.
    Opened(u64, u64),
    /// The bytes of the stream between these places come on this connection.
    Bytes(u64, usize, usize),
    Closed(u64),
}

/// What is done to a port or a connection. `s` and `w` send and write the reply whose service ends with this letter;
/// `l` is the reply with code 61 (KRB_ERR_FIELD_TOOLONG). Any other message counts as `?`. `c` closes, for a full table
/// (`f`), for a length (`l`), or since memory ran out (`m`).
pub(crate) type Done = (u8, u64, u8);

/// The length of a request of the stream, with its prefix. A length with its first bit set follows two requests.
pub(crate) const ONE: usize = 111;

pub(crate) const TWO: usize = 2 * ONE;

/// Requests from two peers and on two connections, one of them in two pieces.
const FOUR: &[Come] = &[
    Come::Datagram(1001),
    Come::Opened(1, 1),
    Come::Opened(2, 2),
    Come::Bytes(1, 0, 9),
    Come::Bytes(2, 0, ONE),
    Come::Datagram(1002),
    Come::Bytes(1, 9, ONE),
    Come::Closed(2),
];

/// The replies to them, and what is done if one of these fails.
const FOUR_DONE: &[&[Done]] = &[
    &[TO_1001, TO_2, TO_1002, TO_1],
    &[TO_2, TO_1002, TO_1],
    &[TO_1001, TO_1002, TO_1],
    &[TO_1001, TO_2, TO_1],
    &[TO_1001, TO_2, TO_1002],
];

pub(crate) const TO_1001: Done = (b's', 1001, b't');

const TO_1002: Done = (b's', 1002, b't');

const TO_1: Done = (b'w', 1, b't');

const TO_2: Done = (b'w', 2, b't');

/// More connections than the 256 that a hub has room for. One that is open is opened again. One that ends makes room.
const FULL: &[Come] = &[
    Come::Opened(0, 255),
    Come::Opened(5, 5),
    Come::Opened(256, 256),
    Come::Closed(5),
    Come::Opened(256, 256),
];

/// A run over a wire.
#[derive(Clone, Copy)]
pub(crate) struct Case {
    pub(crate) what: &'static str,
    pub(crate) comes: &'static [Come],
    /// A call of the wire fails after this many calls, if it is given.
    pub(crate) calls: Option<u64>,
    pub(crate) rounds: u32,
    pub(crate) events: u32,
    /// How many calls fail.
    pub(crate) faults: u64,
    /// How many calls the wire gets, if memory does not run out.
    pub(crate) all_calls: usize,
    /// What is done, and then what may be done if a call fails or memory runs out.
    pub(crate) ways: &'static [&'static [Done]],
    /// Whether the run is a marked call.
    pub(crate) is_marked: bool,
}

pub(crate) const EACH: Case = Case {
    what: "each gets its own reply",
    comes: FOUR,
    calls: None,
    rounds: 64,
    events: 8,
    faults: 0,
    all_calls: 68,
    ways: FOUR_DONE,
    is_marked: false,
};

const NO_CALL_FAILS: Case = Case {
    what: "no call fails",
    calls: Some(20),
    rounds: 16,
    all_calls: 20,
    ..EACH
};

const CASES: &[Case] = &[
    EACH,
    NO_CALL_FAILS,
    Case {
        what: "a wire that was not called has recorded nothing",
        comes: &[],
        rounds: 0,
        events: 0,
        all_calls: 0,
        ways: &[&[]],
        ..EACH
    },
    Case {
        what: "a full table closes new connections",
        comes: FULL,
        rounds: 260,
        events: 260,
        all_calls: 261,
        ways: &[&[(b'c', 256, b'f')]],
        ..EACH
    },
    Case {
        what: "a length with its first bit set gets code 61 and closes",
        comes: &[Come::Opened(1, 1), Come::Bytes(1, TWO, TWO + 4)],
        rounds: 2,
        events: 2,
        all_calls: 4,
        ways: &[&[(b'w', 1, b'l'), (b'c', 1, b'l')]],
        ..EACH
    },
    Case {
        what: "two bytes of a length and the end of the connection get nothing",
        comes: &[Come::Opened(1, 1), Come::Bytes(1, 0, 2), Come::Closed(1)],
        rounds: 3,
        events: 3,
        all_calls: 3,
        ways: &[&[]],
        ..EACH
    },
];

fn now() -> Result<Moment, Fail> {
    Ok(Moment::new(1_704_067_200, 0).ok_or("a moment")?)
}

fn datagram(alloc: Global, stream: &[u8], port: u16) -> Result<Event, Fail> {
    let peer = Peer {
        address: SocketAddr::from((Ipv4Addr::LOCALHOST, port)),
        socket: 0,
    };
    let request = stream.get(4..ONE).ok_or("a request")?;
    Ok(Event::Datagram {
        peer,
        request: Octets::from_slice(alloc, request)?,
    })
}

fn bytes(alloc: Global, conn: u64, piece: &[u8]) -> Result<Event, AllocError> {
    Ok(Event::Bytes {
        conn,
        piece: Octets::from_slice(alloc, piece)?,
    })
}

fn push(coming: &mut VecDeque<(Moment, Event)>, event: Event) -> Result<(), Fail> {
    Ok(coming.push_back((now()?, event))?)
}

fn push_opened(coming: &mut VecDeque<(Moment, Event)>, first: u64, last: u64) -> Result<(), Fail> {
    for conn in first..=last {
        push(coming, Event::Opened { conn })?;
    }
    Ok(())
}

/// Appends an event. Opening several connections is several events.
fn push_come(
    alloc: Global,
    coming: &mut VecDeque<(Moment, Event)>,
    stream: &[u8],
    come: Come,
) -> Result<(), Fail> {
    match come {
        Come::Datagram(port) => push(coming, datagram(alloc, stream, port)?),
        Come::Opened(first, last) => push_opened(coming, first, last),
        Come::Bytes(conn, from, to) => {
            let piece = stream.get(from..to).ok_or("a piece")?;
            push(coming, bytes(alloc, conn, piece)?)
        }
        Come::Closed(conn) => push(coming, Event::Closed { conn }),
    }
}

pub(crate) fn push_all(
    alloc: Global,
    coming: &mut VecDeque<(Moment, Event)>,
    comes: &[Come],
) -> Result<(), Fail> {
    let stream = octets(alloc, "STREAM")?;
    for come in comes {
        push_come(alloc, coming, &stream, *come)?;
    }
    Ok(())
}

/// Returns the byte of a message at this place, if it differs from the other message only there.
fn only(message: &[u8], wanted: &[u8], place: usize) -> Option<u8> {
    let after = place.saturating_add(1);
    let is_alike = message.get(..place) == wanted.get(..place)
        && message.get(after..) == wanted.get(after..);
    if is_alike {
        message.get(place).copied()
    } else {
        None
    }
}

/// Returns the letter of a reply, or `?` if it is another message.
fn letter(message: &[u8], wanted: &[u8]) -> u8 {
    match (only(message, wanted, LETTER), only(message, wanted, CODE)) {
        (Some(letter), _) => letter,
        (None, Some(61)) => b'l',
        _ => b'?',
    }
}

pub(crate) fn done(action: &Action, wanted: &[u8]) -> Done {
    match action {
        Action::SendTo { peer, reply } => {
            let port = u64::from(peer.address.port());
            (b's', port, letter(reply.message.as_slice(), wanted))
        }
        Action::Pass { .. } => (b'p', 0, b'?'),
        Action::Write { conn, reply } => { (b'w', *conn, letter(reply.message.as_slice(), wanted)) }
        Action::Close { conn, reason } => {
            let reason = match reason {
                CloseReason::NoRequest => b'n',
                CloseReason::BadLength => b'l',
                CloseReason::Full => b'f',
                CloseReason::OutOfMemory => b'm',
            };
            (b'c', *conn, reason)
        }
    }
}

/// A summary of a run over a wire.
#[derive(Drop)]
struct Seen {
    served: Served,
    /// The number of failed calls that the wire counted.
    faults: u64,
    /// The number of calls of the wire.
    calls: usize,
    done: Vec<Done>,
}

fn all_done(alloc: Global, did: &[WireCall]) -> Result<Vec<Done>, Fail> {
    let wanted = octets(alloc, "CLIENT_UNKNOWN")?;
    let mut all = Vec::new(alloc);
    for call in did {
        if let WireCall::Acted { action } = call {
            all.push(done(action, &wanted))?;
        }
    }
    Ok(all)
}

fn serve_with(
    alloc: Global,
    wire: &mut MemoryWire,
    hub: &mut Hub<ChaCha20Rng>,
    case: &Case,
) -> Served {
    if !case.is_marked {
        return serve(alloc, wire, hub, case.rounds);
    }
    mark(alloc, BEGIN);
    let served = serve(alloc, wire, hub, case.rounds);
    mark(alloc, END);
    served
}

/// Serves the events that come. It is a function of its own because each place that drops a hub takes long to prove.
fn serve_wire(alloc: Global, wire: &mut MemoryWire, case: &Case) -> Result<Served, Fail> {
    let kdc = opened(alloc, (0, 0), 0)?;
    let mut hub = Hub::new(alloc, kdc, ChaCha20Rng::from_seed([0; 32]), true);
    Ok(serve_with(alloc, wire, &mut hub, case))
}

/// Returns a summary, or `None` if the wire ran out of memory for its record.
fn look_at(alloc: Global, wire: &mut MemoryWire, case: &Case) -> Result<Option<Seen>, Fail> {
    let served = serve_wire(alloc, wire, case)?;
    let Some(did) = wire.did() else {
        return Ok(None);
    };
    Ok(Some(Seen {
        served,
        faults: wire.faults(),
        calls: did.len(),
        done: all_done(alloc, did)?,
    }))
}

/// Serves the events of a case.
fn run(alloc: Global, case: &Case) -> Result<Option<Seen>, Fail> {
    let mut coming = VecDeque::new(alloc);
    push_all(alloc, &mut coming, case.comes)?;
    let mut wire = MemoryWire::new(alloc, coming, case.calls);
    look_at(alloc, &mut wire, case)
}

/// Checks whether one of these ways was taken: the first one, unless something failed.
pub(crate) fn is_done(done: &[Done], ways: &[&[Done]], has_failed: bool) -> bool {
    for (place, way) in ways.iter().enumerate() {
        if done == *way {
            return place == 0 || has_failed;
        }
    }
    false
}

fn is_as_in(seen: &Seen, case: &Case) -> bool {
    let served = seen.served;
    let has_refused = served.refused != 0;
    served.events == case.events
        && served.faults == case.faults
        && served.faults <= seen.faults
        && (has_refused || seen.calls == case.all_calls)
        && is_done(&seen.done, case.ways, has_refused || served.faults != 0)
}

fn is_as_in_record(seen: &Option<Seen>, case: &Case) -> bool {
    match seen {
        Some(seen) => is_as_in(seen, case),
        None => false,
    }
}

/// Runs a case, once more if the wire has no record of the first run.
fn is_right(alloc: Global, case: &Case) -> Result<bool, Fail> {
    let seen = run(alloc, case)?;
    if seen.is_some() {
        return Ok(is_as_in_record(&seen, case));
    }
    Ok(is_as_in_record(&run(alloc, case)?, case))
}

pub(crate) fn expect(rt: &(impl AllocGlobal + Abort), cases: &[Case]) -> Result<(), Fail> {
    for case in cases {
        let is_right = is_right(rt.alloc(), case)?;
        holds(rt, is_right, case.what);
        mark(rt.alloc(), JUDGED);
    }
    Ok(())
}

#[test]
fn events_are_served(rt: HostRuntime) -> Result<(), Fail> {
    expect(&rt, CASES)
}

#[test]
fn a_failed_call_costs_one_reply_at_most(rt: HostRuntime) -> Result<(), Fail> {
    for calls in 0..20u64 {
        let case = Case {
            calls: Some(calls),
            faults: 1,
            ..NO_CALL_FAILS
        };
        let is_right = is_right(rt.alloc(), &case)?;
        holds(&rt, is_right, "a failed call");
    }
    Ok(())
}

/// A request in the first of the 16 rounds before the source of the rows is looked at again, and one after it.
const AROUND_A_LOOK: &[Come] = &[
    Come::Datagram(1001),
    Come::Opened(1, 15),
    Come::Datagram(1002),
];

/// What is done if the client is unknown at first, and is then asked for preauthentication.
const AROUND_A_LOOK_DONE: &[Done] = &[TO_1001, (b's', 1002, b'?')];

/// Serves rows that change at the second look.
fn live(alloc: Global, wire: &mut MemoryWire, rows: &mut MemoryRows) -> Result<(), Fail> {
    let kdc = opened(alloc, (0, 0), 0)?;
    let mut hub = Hub::new(alloc, kdc, ChaCha20Rng::from_seed([0; 32]), true);
    serve_life(alloc, wire, rows, &mut hub, 17, &mut ());
    Ok(())
}

/// Returns a source whose second look finds a database with `u`.
fn changing_rows(alloc: Global) -> Result<MemoryRows, Fail> {
    let mut coming = VecDeque::new(alloc);
    coming.push_back(Look::Unchanged)?;
    coming.push_back(Look::Changed(with_one(alloc, b"A.B", b'u', (0, 0))?))?;
    Ok(MemoryRows::new(alloc, coming))
}

/// Returns how many looks there were, and whether the requests got what they should.
fn lived(alloc: Global, rows: &mut MemoryRows) -> Result<(usize, bool), Fail> {
    let mut coming = VecDeque::new(alloc);
    push_all(alloc, &mut coming, AROUND_A_LOOK)?;
    let mut wire = MemoryWire::new(alloc, coming, None);
    live(alloc, &mut wire, rows)?;
    let done = all_done(alloc, wire.did().ok_or("memory")?)?;
    let looks = rows.looks().ok_or("memory")?.len();
    Ok((looks, done.as_slice() == AROUND_A_LOOK_DONE))
}

#[test]
fn rows_that_change_are_served(rt: HostRuntime) -> Result<(), Fail> {
    let mut rows = changing_rows(rt.alloc())?;
    let found = lived(rt.alloc(), &mut rows)?;
    holds(&rt, found == (2, true), "two looks");
    Ok(())
}
