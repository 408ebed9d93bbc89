//! Tests of a KDC (`kdc_core`) for the realm `A.B`: runs of events, with databases that are replaced, tidying, and
//! resuming; runs that continue after memory ran out, and single calls that are repeated after it (`handled`). Other
//! requests are tried over `kdcd script`.
use crate::fixtures::{BEGIN, END, JUDGED, holds, is_spelled, mark, octets};
use crate::handled::are_handled;
use crate::kdc_runs::{KeyBytes, RUNS, Run};
use crate::messages::parts;
use enctypes::{Etype, Key};
use kdc_core::{Event, Kdc, Opening, Resumption, RunFault, Seen};
use krb_elements::{Octets, Seq};
use krb_fields::{Moment, Name};
use principal_rows::{KeyList, Limits, Policy};
use principals::{Change, ChangeFault, Database, RowChange};
use std::alloc::{AllocError, Global};
use std::process::Abort;
use std::test::Fail;

const MIDNIGHT: i64 = 1_704_067_200;

fn key(bytes: KeyBytes) -> Key {
    let (mut next, more) = bytes;
    let mut octets = [0; 32];
    for octet in &mut octets {
        *octet = next;
        next = next.wrapping_add(more);
    }
    Key::from_random(Etype::Aes256CtsHmacSha1_96, &octets)
}

fn keys(alloc: Global, bytes: KeyBytes) -> Result<KeyList, Fail> {
    Ok(KeyList::new(alloc, &[key(bytes)])?)
}

pub fn limits(lock_after: u32) -> Result<Limits, Fail> {
    Ok(Limits::new(64, lock_after, 60, 36000, 0).ok_or("limits")?)
}

pub fn moment(second: u32) -> Result<Moment, Fail> {
    Ok(Moment::new(MIDNIGHT + i64::from(second), 0).ok_or("a moment")?)
}

fn change(alloc: Global, letter: u8, what: RowChange) -> Result<Change, Fail> {
    Ok(Change {
        name: Name::new(alloc, 1, &[&[letter]])?,
        what,
    })
}

pub fn addition(alloc: Global, letter: u8, bytes: KeyBytes) -> Result<Change, Fail> {
    let keys = keys(alloc, bytes)?;
    change(alloc, letter, RowChange::Add(keys))
}

/// Returns a database of this realm with only the ticket-granting service.
pub fn first_database(alloc: Global, realm: &[u8], tgs_key: KeyBytes) -> Result<Database, Fail> {
    let keys = keys(alloc, tgs_key)?;
    Ok(Database::first(alloc, realm, keys)?)
}

/// Adds a principal to a database.
pub fn extended(
    alloc: Global,
    mut database: Database,
    addition: &Change,
) -> Result<Database, Fail> {
    match database.apply(alloc, addition) {
        Ok(()) => Ok(database),
        Err(fault) => Err(Fail::from(fault)),
    }
}

/// Returns a database of this realm with one other principal. `krbtgt` has the key of the tests with that principal.
pub fn with_one(
    alloc: Global,
    realm: &[u8],
    letter: u8,
    bytes: KeyBytes,
) -> Result<Database, Fail> {
    let addition = addition(alloc, letter, bytes)?;
    let tgs_key = if letter == b'h' { bytes } else { (0, 0) };
    extended(alloc, first_database(alloc, realm, tgs_key)?, &addition)
}

/// Returns a KDC whose database has only the ticket-granting service, by a second call if memory ran out in the first
/// one.
pub fn opened(alloc: Global, tgs_key: KeyBytes, lock_after: u32) -> Result<Kdc, Fail> {
    let limits = limits(lock_after)?;
    let database = first_database(alloc, b"A.B", tgs_key)?;
    mark(alloc, BEGIN);
    let found = Kdc::open(alloc, database, limits, Opening::First);
    mark(alloc, END);
    match found {
        Ok(kdc) => Ok(kdc),
        Err(AllocError) => {
            let database = first_database(alloc, b"A.B", tgs_key)?;
            Ok(Kdc::open(alloc, database, limits, Opening::First)?)
        }
    }
}

/// Returns the random bytes of this name.
pub fn random_octets(name: &str) -> Result<[u8; 64], Fail> {
    let mut octets = [0; 64];
    hex::decode_to_slice(parts(name), &mut octets)?;
    Ok(octets)
}

/// Returns the event of this request. The KDC draws the random bytes of this name.
fn request(second: u32, random: &str, request: Vec<u8>) -> Result<Event, Fail> {
    Ok(Event::Request {
        at: moment(second)?,
        random: random_octets(random)?,
        room: 1400,
        request: Octets::new(request),
    })
}

fn asks(alloc: Global, second: &str, name: &str) -> Result<Event, Fail> {
    let second = second.parse()?;
    request(second, "UP_FROM_0", octets(alloc, name)?)
}

fn draws(alloc: Global, random: &str, name: &str) -> Result<Event, Fail> {
    request(0, random, octets(alloc, name)?)
}

/// Appends a cipher of a million bytes, and the body of the basic request.
fn push_million(alloc: Global, request: &mut Vec<u8>) -> Result<(), Fail> {
    for _ in 0..1_000 {
        request.extend_from_slice(&[0; 1_000])?;
    }
    Ok(request.extend_from_slice(&octets(alloc, "BODY")?)?)
}

fn asks_long(alloc: Global) -> Result<Event, Fail> {
    let mut octets = octets(alloc, "BEFORE_A_MILLION")?;
    match push_million(alloc, &mut octets) {
        Ok(()) => request(0, "UP_FROM_0", octets),
        Err(fail) => Err(fail),
    }
}

fn seen(alloc: Global, client: Name) -> Result<Seq<Seen>, Fail> {
    let mut seen = Vec::new(alloc);
    seen.push(Seen {
        client,
        ctime: MIDNIGHT + 7,
        cusec: 0,
    })?;
    Ok(Seq::from_vec(seen))
}

fn resume_event(database: Database, limits: Limits, seen: Seq<Seen>) -> Event {
    Event::Resume {
        database,
        limits,
        resumption: Resumption {
            floor: MIDNIGHT + 5,
            seen,
        },
    }
}

fn resumes(alloc: Global) -> Result<Event, Fail> {
    let limits = limits(0)?;
    let seen = seen(alloc, Name::new(alloc, 1, &[b"u"])?)?;
    match with_one(alloc, b"A.B", b'h', (1, 0)) {
        Ok(database) => Ok(resume_event(database, limits, seen)),
        Err(fail) => Err(fail),
    }
}

fn changed(change: Result<Change, Fail>) -> Result<Event, Fail> {
    Ok(Event::Change { change: change? })
}

fn reopens(alloc: Global) -> Result<Event, Fail> {
    let (limits, at) = (limits(0)?, moment(0)?);
    Ok(Event::Reopen {
        database: with_one(alloc, b"A.B", b'u', (0, 0))?,
        limits,
        at,
    })
}

fn replaces(alloc: Global, realm: &str, key: &str) -> Result<Event, Fail> {
    let bytes = key_bytes(key)?;
    Ok(Event::Replace {
        database: with_one(alloc, realm.as_bytes(), b'u', bytes)?,
    })
}

fn restarts() -> Result<Event, Fail> {
    Ok(Event::Restart { at: moment(0)? })
}

fn tidies(second: &str) -> Result<Event, Fail> {
    Ok(Event::Tidy {
        at: moment(second.parse()?)?,
    })
}

/// Returns a key's bytes for a word.
fn key_bytes(word: &str) -> Result<KeyBytes, Fail> {
    match word.split_once('+') {
        Some((first, _)) => Ok((first.parse()?, 1)),
        None => Ok((word.parse()?, 0)),
    }
}

/// Returns the letter that a principal's name is.
fn letter(word: &str) -> Result<u8, Fail> {
    Ok(*word.as_bytes().first().ok_or("a letter")?)
}

fn adds(alloc: Global, name: &str, key: &str) -> Result<Change, Fail> {
    let bytes = key_bytes(key)?;
    addition(alloc, letter(name)?, bytes)
}

fn new_key(alloc: Global, key: &str) -> Result<Change, Fail> {
    let keys = keys(alloc, key_bytes(key)?)?;
    change(alloc, b'u', RowChange::NewKeys(keys))
}

fn freedom(alloc: Global) -> Result<Change, Fail> {
    let policy = Policy {
        preauth: false,
        ..Policy::default()
    };
    change(alloc, b'u', RowChange::SetPolicy(policy))
}

fn event(alloc: Global, step: &[&str]) -> Result<Event, Fail> {
    let [what, first, second, _] = step else {
        return Err(Fail::from("four words"));
    };
    match *what {
        "ask" => asks(alloc, second, first),
        "draw" => draws(alloc, second, first),
        "long" => asks_long(alloc),
        "add" => changed(adds(alloc, first, second)),
        "key" => changed(new_key(alloc, second)),
        "free" => changed(freedom(alloc)),
        "replace" => replaces(alloc, first, second),
        "restart" => restarts(),
        "reopen" => reopens(alloc),
        "tidy" => tidies(second),
        "resume" => resumes(alloc),
        _ => Err(Fail::from("an event")),
    }
}

fn push_events(alloc: Global, events: &mut Vec<Event>, words: &[&str]) -> Result<(), Fail> {
    for step in words.chunks(4) {
        events.push(event(alloc, step)?)?;
    }
    Ok(())
}

fn is_ticket(reply: &[u8]) -> bool {
    matches!(reply.first(), Some(0x6b | 0x6d))
}

/// Checks whether a reply is a KRB-ERROR with this code. One without ctime and cusec has its code, one byte, at this
/// place.
fn is_error(reply: &[u8], code: u8) -> bool {
    reply.first() == Some(&0x7e) && reply.get(42) == Some(&code)
}

/// Checks whether a reply is this outcome.
fn is_outcome(reply: &[u8], outcome: &str) -> bool {
    if outcome == "ticket" {
        return is_ticket(reply);
    }
    match outcome.parse::<u8>() {
        Ok(code) => is_error(reply, code),
        Err(_) => is_spelled(reply, outcome),
    }
}

pub fn has_come(reply: &Option<Vec<u8>>, outcome: &str) -> bool {
    match reply {
        Some(reply) => is_outcome(reply, outcome),
        None => outcome == "-",
    }
}

/// Runs the events, and returns how many of them are done, and their replies.
fn ran(alloc: Global, kdc: &mut Kdc, events: &[Event]) -> (usize, Vec<Option<Vec<u8>>>) {
    match kdc.run(alloc, events) {
        Ok(replies) => (events.len(), replies),
        Err(RunFault { done, replies }) => (done, replies),
    }
}

/// Checks whether each step has its outcome.
fn are_outcomes(first: &[Option<Vec<u8>>], rest: &[Option<Vec<u8>>], words: &[&str]) -> bool {
    let mut replies = first.iter().chain(rest);
    for step in words.chunks(4) {
        let (Some(reply), Some(outcome)) = (replies.next(), step.last()) else {
            return false;
        };
        if !has_come(reply, outcome) {
            return false;
        }
    }
    replies.next().is_none()
}

/// Runs the events. If memory runs out the run continues with the event at which it stopped.
fn is_run(alloc: Global, kdc: &mut Kdc, events: &[Event], words: &[&str]) -> bool {
    mark(alloc, BEGIN);
    let (done, first) = ran(alloc, kdc, events);
    mark(alloc, END);
    let (_, rest) = ran(alloc, kdc, events.get(done..).unwrap_or(&[]));
    are_outcomes(&first, &rest, words)
}

fn apply(alloc: Global, kdc: &mut Kdc, change: &Change) -> Result<(), ChangeFault> {
    kdc.apply(alloc, change)
}

/// Checks whether a change is made the second time exactly if memory ran out the first time.
fn is_added_once(alloc: Global, kdc: &mut Kdc, addition: &Change) -> bool {
    mark(alloc, BEGIN);
    let first = apply(alloc, kdc, addition);
    mark(alloc, END);
    let second = apply(alloc, kdc, addition);
    match first {
        Ok(()) => second == Err(ChangeFault::Exists),
        Err(fault) => fault == ChangeFault::Memory && second == Ok(()),
    }
}

/// Checks whether the rows are those of a first database.
fn has_only_tgs(kdc: &Kdc, user: &Name, tgs: &Name) -> bool {
    kdc.realm() == b"A.B".as_slice() && kdc.get(user).is_none() && kdc.get(tgs).is_some()
}

fn is_added(alloc: Global, kdc: &mut Kdc) -> Result<bool, Fail> {
    let addition = addition(alloc, b'u', (0, 0))?;
    let tgs = Name::new(alloc, 1, &[b"krbtgt", b"A.B"])?;
    Ok(has_only_tgs(kdc, &addition.name, &tgs) && is_added_once(alloc, kdc, &addition))
}

/// The calls that answer the requests of a run.
#[derive(Clone, Copy)]
enum Calls {
    /// One call of `Kdc::run` for all events.
    Run,
    /// A call of `Kdc::handle` for each request.
    Handle,
}

/// Runs the events over a KDC. Only this function drops one: each place with a drop takes long to prove.
fn runs_events(
    alloc: Global,
    run: &Run,
    events: &[Event],
    words: &[&str],
    calls: Calls,
) -> Result<bool, Fail> {
    let (_, tgs_key, lock_after, _) = run;
    let mut kdc = opened(alloc, *tgs_key, *lock_after)?;
    if events.is_empty() {
        return is_added(alloc, &mut kdc);
    }
    match calls {
        Calls::Run => Ok(is_run(alloc, &mut kdc, events, words)),
        Calls::Handle => are_handled(alloc, &mut kdc, events, words),
    }
}

fn runs_right(alloc: Global, run: &Run, words: &[&str], calls: Calls) -> Result<bool, Fail> {
    let mut events = Vec::new(alloc);
    match push_events(alloc, &mut events, words) {
        Ok(()) => runs_events(alloc, run, &events, words, calls),
        Err(fail) => Err(fail),
    }
}

fn is_right(alloc: Global, run: &Run, calls: Calls) -> Result<bool, Fail> {
    let (_, _, _, text) = run;
    let words: Vec<&str> = text.split_whitespace().collect(alloc)?;
    runs_right(alloc, run, &words, calls)
}

fn expect_runs(rt: &(impl AllocGlobal + Abort), calls: Calls) -> Result<(), Fail> {
    for run in RUNS {
        let is_right = is_right(rt.alloc(), run, calls)?;
        holds(rt, is_right, run.0);
        mark(rt.alloc(), JUDGED);
    }
    Ok(())
}

#[test]
fn each_event_gets_its_reply(rt: HostRuntime) -> Result<(), Fail> {
    expect_runs(&rt, Calls::Run)
}

#[test]
fn each_request_handled_alone_gets_its_reply(rt: HostRuntime) -> Result<(), Fail> {
    expect_runs(&rt, Calls::Handle)
}
