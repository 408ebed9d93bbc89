//! One key distribution centre behind many peers and connections.
ghost use Rattle.std.specs.Prelude.{◌≡◌, ◌↔◌, ℕ, List, ◌∷◌, [], Some, IfOk, IfErr, IsOk, OnErr};
ghost use Rattle.std.specs.FinMap as map;
ghost use Rattle.kdc_hub.specs.History.{Reopened, Replaced, Resumed, Tidied, after_turn};
ghost use Rattle.kdc_state.specs.Resumed.{resumed_state};
ghost use Rattle.kdc_state.specs.Sizes.{bytes_of, pairs_of};
ghost use Rattle.kdc_state.specs.State.{opened_state};
ghost use Rattle.krb_fields.specs.declared.moment.Moment as moments;
ghost use Rattle.principal_rows.specs.declared.limits.Limits.{Limits};
ghost use Rattle.principals.specs.Database.{Principals};
ghost use Rattle.replay.specs.declared.opening.Opening.TheVariants.{Restart};
ghost use Rattle.replay.specs.Sizes.{limited};
ghost use Rattle.replay.specs.declared.seen.Resumption.{Resumption};
ghost use Rattle.kdc_hub.specs.Hub.{AreDraws, HubState, Steps, hub_state, sent};
ghost use Rattle.kdc_hub.specs.Logged.{Entry, LogsNext, logged};
ghost use Rattle.kdc_hub.specs.Audits.{AuditsHold};
ghost use Rattle.kdc_hub.specs.declared.event.Action.TheVariants.{Close};
ghost use Rattle.kdc_hub.specs.declared.event.CloseReason.TheVariants.{Full};
ghost use Rattle.kdc_hub.specs.declared.event.Event.TheVariants.{Datagram, Opened, Bytes, Closed};

use crate::connections::Connections;
use crate::event::{Action, CloseReason, Event, HubFault, Peer};
use crate::seeded_kdc::SeededKdc;
use crate::stream::answer_stream;
use framing::Splitter;
use kdc_core::{CacheSizes, Kdc, OtherRealm, Reply};
use krb_fields::Moment;
use principals::Database;
use rand_core::Rng;
use std::alloc::Global;

/// The greatest size of a request on a connection, in bytes.
const GREATEST_STREAM_REQUEST: u32 = 65_535;

/// The greatest size of a reply with a ticket in a datagram, in bytes.
const DATAGRAM_ROOM: u32 = 1_400;

/// The most connections that are open at once.
const MOST_CONNECTIONS: usize = 256;

/// A key distribution centre with the generator of its random octets, and the connections that are open.
#[derive(Drop)]
pub struct Hub<R> {
    seeded_kdc: SeededKdc<R>,
    connections: Connections,
}

impl<R: Rng> Hub<R> {
    /// Returns a hub without connections. If it keeps audit records, its replies have the audit records of their
    /// requests. It allocates nothing yet.
    pub fn new(alloc: Global, kdc: Kdc, rng: R, keeps_audits: bool) -> Hub<R>
        // Promise (kdc, random, audits, connections, reopened): a hub begins with its KDC, its generator and no
        // connections, and keeps audit records or not; over a KDC that starts after a restart it is that of a process
        // that begins anew.
        ensures kdc { (hub_state R.stream result).issuing.kdc ≡ kdc }
        ensures random { (hub_state R.stream result).issuing.random ≡ R.stream rng }
        ensures audits { (hub_state R.stream result).issuing.audits ≡ keeps_audits }
        ensures connections { (hub_state R.stream result).connections ≡ map.empty }
        // Over a centre that reopens, it is the hub of a new process, whatever came before.
        ensures reopened { (before : HubState) (database : Principals) (limits : Limits) (at : moments.Moment)
            → kdc ≡ opened_state database limits (Restart at)
            → hub_state R.stream result
            ≡ after_turn before (Reopened database limits at (R.stream rng) keeps_audits) }
        // The same over a centre that resumes.
        ensures resumed { (before : HubState) (database : Principals) (limits : Limits) (r : Resumption)
            → kdc ≡ resumed_state database limits r
            → hub_state R.stream result
            ≡ after_turn before (Resumed database limits r (R.stream rng) keeps_audits) }
    {
        Hub {
            seeded_kdc: SeededKdc {
                kdc,
                rng,
                keeps_audits,
            },
            connections: Connections::new(alloc),
        }
    }

    /// Replaces the database by another of the same realm; all else is unchanged. One of another realm changes nothing.
    /// It allocates nothing.
    pub fn replace(&mut self, database: Database) -> Result<(), OtherRealm>
        // Promise (realm, turn, err): another database replaces the one that is served, as in a history; connections,
        // generator and replay caches stay.
        ensures realm { IsOk result ↔ (database.realm ≡ (hub_state R.stream self.old).issuing.kdc.database.realm) }
        ensures turn { hub_state R.stream self.new ≡ after_turn (hub_state R.stream self.old) (Replaced database) }
        ensures err { OnErr result (hub_state R.stream self.new ≡ hub_state R.stream self.old) }
    {
        self.seeded_kdc.kdc.replace(database)
    }

    /// Drops each client's authenticators that are too old to come again at this moment. Connections and generator
    /// are unchanged. It allocates nothing.
    pub fn tidy(&mut self, at: Moment)
        // Promise: authenticators that are too old to come again are dropped for every client, as in a history;
        // connections and generator stay. Tidying allocates nothing.
        ensures turn { hub_state R.stream self.new ≡ after_turn (hub_state R.stream self.old) (Tidied at) }
    {
        self.seeded_kdc.kdc.tidy(at);
    }

    /// Frees the memory of dropped authenticators, for this many clients from a place on. Returns the next place, if
    /// there is one.
    pub fn free_dropped(&mut self, from: usize, clients: usize) -> Option<usize>
        // Promise, as Pairs::free_dropped of replay: tidying allocates nothing, and ..
        ensures { hub_state R.stream self.new ≡ hub_state R.stream self.old }
    {
        self.seeded_kdc.kdc.free_dropped(from, clients)
    }

    /// Returns how many principals there are.
    pub fn row_count(&self) -> usize
        // Promise: rows, clients, authenticators and bytes kept are those of the KDC's state.
        ensures { result ≡ map.len (hub_state R.stream self.now).issuing.kdc.database.rows }
    {
        self.seeded_kdc.kdc.row_count()
    }

    /// Returns how much the replay caches hold. It goes through all of them, and allocates nothing.
    pub fn cache_sizes(&self) -> CacheSizes
        // Promise (clients, authenticators, kept_bytes), as Hub::row_count: rows, clients, authenticators and ..
        ensures clients { result.clients ≡ map.len (hub_state R.stream self.now).issuing.kdc.caches }
        ensures authenticators { result.authenticators
            ≡ limited (pairs_of (map.entries (hub_state R.stream self.now).issuing.kdc.caches)) }
        ensures kept_bytes { result.kept_bytes
            ≡ limited (bytes_of (map.entries (hub_state R.stream self.now).issuing.kdc.caches)) }
    {
        self.seeded_kdc.kdc.cache_sizes()
    }

    /// Returns the actions for an event, in order. It answers a connection until a request gets no reply, or a length
    /// is too large. Then it closes the connection and drops the rest of its bytes. If memory runs out, the step ends
    /// after the completed actions, and the event's connection is removed.
    pub fn step(&mut self, alloc: Global, at: Moment, event: Event) -> Result<Vec<Action>, HubFault>
        // What the step returns is the next entry of the log, and the hub afterwards is that of the log.
        // Promise (log, step): for every list of events that leads to this hub, a step returns the actions that the
        // definition gives for the next event, and the hub is then as the definition leaves it.
        ensures log { (start : HubState) (entries : List Entry)
            → (logged start entries).hub ≡ hub_state R.stream self.old
            → LogsNext start entries at event result (hub_state R.stream self.new) }
        // Promise (step, audits): **each request has one audit record, which is true** at the state before the request,
        // in the action that answers it, if audit records are kept.
        ensures step { Steps (hub_state R.stream self.old) at event result (hub_state R.stream self.new) }
        // Promise: each request that is answered draws 64 random bytes; when memory runs out, at most one more was
        // drawn.
        ensures draws { IfErr result AreDraws }
        // The audit record of each request that it answers is true of the reply, at the state before that request.
        ensures audits { AuditsHold (hub_state R.stream self.old) at event result }
        // The end of a connection allocates nothing.
        // Promise: the end of a connection never runs out of memory.
        ensures closed { (conn : ℕ) → event ≡ Closed conn → IsOk result }
    {
        match event {
            Event::Datagram { peer, request } => {
                let Ok(mut actions) = Vec::with_capacity(alloc, 1) else {
                    return Err(nothing_done(alloc, None, 0));
                };
                let octets = request.as_slice();
                match self.seeded_kdc.answer(alloc, at, DATAGRAM_ROOM, octets) {
                    Ok(reply) => {
                        actions.push_reserved(datagram_action(peer, reply));
                        Ok(actions)
                    }
                    Err(_) => Err(nothing_done(alloc, None, 1)),
                }
            }
            Event::Opened { conn } => self.open(alloc, at, conn),
            Event::Bytes { conn, piece } => self.take_piece(alloc, at, conn, piece.as_slice()),
            Event::Closed { conn } => {
                self.connections.remove(conn);
                Ok(Vec::new(alloc))
            }
        }
    }

    fn open(&mut self, alloc: Global, at: Moment, conn: u64) -> Result<Vec<Action>, HubFault>
        ensures step { Steps (hub_state R.stream self.old) at (Opened conn) result (hub_state R.stream self.new) }
        ensures draws { IfErr result AreDraws }
    {
        if self.connections.contains(conn) {
            return Ok(Vec::new(alloc));
        }
        if self.connections.len() >= MOST_CONNECTIONS {
            return refuse_connection(alloc, conn);
        }
        let stream = Splitter::new(alloc, GREATEST_STREAM_REQUEST);
        match self.connections.put(conn, stream) {
            Ok(()) => Ok(Vec::new(alloc)),
            Err(_) => Err(nothing_done(alloc, Some(conn), 0)),
        }
    }

    /// Answers what a piece completes. Meanwhile the table has an empty stream, so that putting the connection's own
    /// stream back allocates nothing.
    fn take_piece(
        &mut self,
        alloc: Global,
        at: Moment,
        conn: u64,
        piece: &[u8],
    ) -> Result<Vec<Action>, HubFault>
        ensures step { Steps (hub_state R.stream self.old) at (Bytes conn piece.now) result
            (hub_state R.stream self.new) }
        ensures draws { IfErr result AreDraws }
        ensures audits { AuditsHold (hub_state R.stream self.old) at (Bytes conn piece.now) result }
    {
        let place = Splitter::new(alloc, GREATEST_STREAM_REQUEST);
        let Some(mut stream) = self.connections.replace(conn, place) else {
            return Ok(Vec::new(alloc));
        };
        let Ok(()) = stream.feed(piece) else {
            self.connections.remove(conn);
            return Err(nothing_done(alloc, Some(conn), 0));
        };
        match answer_stream(alloc, &mut self.seeded_kdc, at, conn, &mut stream) {
            Ok(served) => {
                if served.stays {
                    let _ = self.connections.replace(conn, stream);
                    return Ok(served.actions);
                }
                self.connections.remove(conn);
                Ok(served.actions)
            }
            Err(fault) => {
                self.connections.remove(conn);
                Err(fault)
            }
        }
    }
}

/// Returns the action for a datagram that was answered so.
fn datagram_action(peer: Peer, reply: Option<Reply>) -> Action
    ensures { result ∷ [] ≡ sent peer reply }
{
    match reply {
        Some(reply) => Action::SendTo { peer, reply },
        None => Action::Pass { peer },
    }
}

/// Returns the fault for memory that ran out before any action.
fn nothing_done(alloc: Global, conn: Option<u64>, draws: usize) -> HubFault
    ensures done { result.done.items ≡ [] }
    ensures conn { result.conn ≡ conn }
    ensures draws { result.draws ≡ draws }
{
    HubFault {
        done: Vec::new(alloc),
        conn,
        draws,
    }
}

/// Closes a connection for which there is no room.
fn refuse_connection(alloc: Global, conn: u64) -> Result<Vec<Action>, HubFault>
    ensures ok { IfOk result (λ actions. actions.items ≡ Close conn Full ∷ []) }
    ensures done { IfErr result (λ fault. fault.done.items ≡ []) }
    ensures conn { IfErr result (λ fault. fault.conn ≡ Some conn) }
    ensures draws { IfErr result (λ fault. fault.draws ≡ 0) }
{
    let Ok(mut actions) = Vec::with_capacity(alloc, 1) else {
        return Err(nothing_done(alloc, Some(conn), 0));
    };
    actions.push_reserved(Action::Close {
        conn,
        reason: CloseReason::Full,
    });
    Ok(actions)
}
