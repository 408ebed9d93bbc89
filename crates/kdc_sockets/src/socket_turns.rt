//! The sockets of a wire, which take turns.
ghost use Rattle.std.specs.Prelude.{◌≡◌, false, IfNone, IfOk, IfSome, OnErr, OnOk, option_map};
ghost use Rattle.kdc_hub.specs.Rounds.{action_connection};
ghost use Rattle.kdc_sockets.specs.Queue.{has};
ghost use Rattle.kdc_sockets.specs.Table.{EndsSpentFirst, HasEnded, IsDone, IsLost, IsReadFrom, KeepsOtherConnections};
ghost use Rattle.kdc_sockets.specs.Table.{OpensAlike};
ghost use Rattle.kdc_sockets.specs.Table.{ReportsSpentFirst, SpentAlike, held_at};

use crate::bind_fault::BindError;
use crate::connections::Connections;
use crate::ports::Ports;
use crate::ready::Ready;
use file_store::now;
use kdc_hub::{Action, Event, Peer};
use krb_elements::Octets;
use krb_fields::Moment;
use std::alloc::{AllocError, Global};
use std::io;
use std::io::ErrorKind;
use std::net::{Net, SocketAddr};
use std::rt::Clock;
use std::time::{Duration, Instant};

/// The maximum number of turns per call. Each may find nothing.
const MOST_TURNS: u32 = 64;

/// The maximum number of calls between two polls while some sockets are known to be ready.
const MOST_UNLOOKED: u32 = 15;

/// How many seconds pass between two searches for idle connections.
const BETWEEN_LOOKS: u64 = 1;

/// The length of the longest datagram.
const LONGEST_DATAGRAM: usize = 65_535;

/// The maximum number of bytes read from a connection in one turn. It keeps every turn short, whatever the bytes ask
/// for.
const LONGEST_PIECE: usize = 2_048;

/// Which kind of socket is read next. The three kinds take turns, so that none starves another.
#[derive(Clone, Copy)]
enum Turn {
    Datagrams,
    Newcomers,
    Connections,
}

/// The sockets, and which of them are ready.
#[derive(Drop)]
pub struct SocketTurns<C> {
    clock: C,
    wait: Duration,
    ports: Ports,
    /// Their poll tokens follow those of the ports.
    connections: Connections,
    /// When the clock was last read.
    at: Instant,
    /// When a search last found no connection that had been idle for too long.
    none_idle_at: Instant,
    /// An accepted connection that the caller doesn't know yet, because another one had to be closed for it first.
    newcomer: Option<u64>,
    turn: Turn,
    ready: Ready,
    /// How many calls there were since the last poll.
    unlooked: u32,
    /// The second in which accepting a connection failed. One may still be waiting.
    refused_at: Option<i64>,
    /// How many datagrams and pieces were lost because memory ran out. The count stops at the greatest `u64`.
    lost: u64,
    buffers: Buffers,
}

/// The buffers that bytes are read into.
#[derive(Drop)]
struct Buffers {
    datagram: Vec<u8>,
    /// For a piece of a connection's stream.
    piece: Vec<u8>,
}

impl Buffers {
    fn new(alloc: Global) -> Result<Buffers, AllocError> {
        Ok(Buffers {
            datagram: Vec::from_elem(alloc, 0, LONGEST_DATAGRAM)?,
            piece: Vec::from_elem(alloc, 0, LONGEST_PIECE)?,
        })
    }
}

impl<C: Clock + Drop> SocketTurns<C> {
    /// Opens a socket at each address.
    pub fn bind(
        alloc: Global,
        clock: C,
        net: &impl Net,
        udp: &[SocketAddr],
        tcp: &[SocketAddr],
        wait: Duration,
    ) -> Result<SocketTurns<C>, BindError> {
        let ready = Ready::new(alloc, udp.len(), tcp.len())?;
        let buffers = Buffers::new(alloc)?;
        let ports = Ports::bind(alloc, net, udp, tcp)?;
        let at = Instant::now(&clock)?;
        Ok(SocketTurns {
            clock,
            wait,
            ports,
            connections: Connections::new(alloc, (udp.len() + tcp.len()) as u64),
            at,
            none_idle_at: at,
            newcomer: None,
            turn: Turn::Datagrams,
            ready,
            unlooked: 0,
            refused_at: None,
            lost: 0,
            buffers,
        })
    }

    /// Returns the addresses of the UDP sockets.
    pub fn udp_addresses(&self, alloc: Global) -> io::Result<Vec<SocketAddr>> {
        self.ports.udp_addresses(alloc)
    }

    /// Returns the addresses of the TCP listeners.
    pub fn tcp_addresses(&self, alloc: Global) -> io::Result<Vec<SocketAddr>> {
        self.ports.tcp_addresses(alloc)
    }

    /// Returns the address of a connection's peer.
    pub fn peer(&self, conn: u64) -> Option<SocketAddr>
        // Promise, as ServerWire::act of kdc_server: the address of a ..
        ensures { result ≡ option_map (λ connection. connection.peer) (held_at self.now.connections.held.entries conn) }
    {
        self.connections.peer(conn)
    }

    /// Returns the moment and the next event from a ready socket, in turn. If no socket has one, it waits, and returns
    /// no event if none comes. While some sockets are known to be ready, it polls the others only in every sixteenth
    /// call.
    pub fn next(&mut self, alloc: Global) -> io::Result<(Moment, Option<Event>)>
        // Promise, as Connections::close_spent: **no connection is answered ..
        ensures first { IfOk result (λ next. ReportsSpentFirst self.old.connections.held.entries next.1
            self.new.connections.held.entries) }
        // Promise: a connection that is read was given less when it was last read, and its socket had taken all of
        // that.
        ensures reads { IfOk result (λ next. IsReadFrom self.new.connections.held.entries next.1) }
    {
        if self.ready.is_empty() || self.unlooked >= MOST_UNLOOKED {
            return self.next_looked(alloc);
        }
        self.unlooked = self.unlooked.saturating_add(1);
        let next = self.next_known(alloc)?;
        if next.1.is_some() {
            return Ok(next);
        }
        self.next_looked(alloc)
    }

    /// Polls which sockets are ready, and returns the next event of these.
    fn next_looked(&mut self, alloc: Global) -> io::Result<(Moment, Option<Event>)>
        ensures first { IfOk result (λ next. ReportsSpentFirst self.old.connections.held.entries next.1
            self.new.connections.held.entries) }
        ensures reads { IfOk result (λ next. IsReadFrom self.new.connections.held.entries next.1) }
    {
        self.look()?;
        self.next_known(alloc)
    }

    /// Returns the next event of the sockets that are known to be ready.
    fn next_known(&mut self, alloc: Global) -> io::Result<(Moment, Option<Event>)>
        ensures first { IfOk result (λ next. EndsSpentFirst self.old.connections.held.entries next.1
            self.new.connections.held.entries) }
        ensures reads { IfOk result (λ next. IsReadFrom self.new.connections.held.entries next.1) }
    {
        let at = now(&self.clock)?;
        self.at = Instant::now(&self.clock)?;
        if let Some(event) = self.take_first() {
            return Ok((at, Some(event)));
        }
        self.retry(at)?;
        for _ in 0..MOST_TURNS {
            if self.ready.is_empty() {
                break;
            }
            if let Some(event) = self.take_turn(alloc, at)? {
                return Ok((at, Some(event)));
            }
        }
        Ok((at, None))
    }

    /// Returns what comes before anything is accepted or read: the end of a spent connection, the accepted connection
    /// for which another one was closed, or the end of an idle one.
    fn take_first(&mut self) -> Option<Event>
        ensures first { EndsSpentFirst self.old.connections.held.entries result self.new.connections.held.entries }
        ensures reads { IsReadFrom self.new.connections.held.entries result }
        ensures calm { IfNone result (self.new.connections.has_spent ≡ false) }
    {
        if let Some(closed) = self.connections.close_spent(self.at) {
            return Some(closed);
        }
        if let Some(opened) = self.take_newcomer() {
            return Some(opened);
        }
        self.close_idle()
    }

    /// Returns the accepted connection for which another one was closed.
    fn take_newcomer(&mut self) -> Option<Event>
        ensures reads { IsReadFrom self.new.connections.held.entries result }
        ensures kept { self.new.connections ≡ self.old.connections }
    {
        let conn = self.newcomer.take()?;
        Some(Event::Opened { conn })
    }

    /// Closes a connection that has been idle for too long, if there is one. It searches once a second.
    fn close_idle(&mut self) -> Option<Event>
        ensures reads { IsReadFrom self.new.connections.held.entries result }
        ensures calm { self.new.connections.has_spent ≡ self.old.connections.has_spent }
    {
        if self.at.duration_since(self.none_idle_at).as_secs() < BETWEEN_LOOKS {
            return None;
        }
        let closed = self.connections.close_idle(self.at);
        if closed.is_none() {
            self.none_idle_at = self.at;
        }
        closed
    }

    /// Polls which sockets are ready, and waits for one if none was known to be.
    fn look(&mut self) -> io::Result<()>
        ensures spent { OnOk result (SpentAlike self.old.connections.held.entries self.new.connections.held.entries) }
        ensures alike { OnOk result (OpensAlike self.old.connections.held.entries self.new.connections.held.entries) }
    {
        self.unlooked = 0;
        let wait = if self.ready.is_empty() {
            self.wait
        } else {
            Duration::ZERO
        };
        self.ports.poll.poll(&mut self.ports.events, Some(wait))?;
        let first_newcomers = self.ports.datagrams.len() as u64;
        let first_connection = first_newcomers + self.ports.newcomers.len() as u64;
        for event in &self.ports.events {
            let token = event.token().0 as u64;
            // No connection's number is that of a port.
            self.connections.flush(token, self.at);
            self.ready.note(token, first_newcomers, first_connection)?;
        }
        Ok(())
    }

    /// Tries once a second to accept a connection that could not be accepted. The poll may not report it again.
    fn retry(&mut self, at: Moment) -> io::Result<()>
        ensures { self.new.connections ≡ self.old.connections }
    {
        if self.refused_at.is_some_and(|sec| sec != at.sec) {
            self.refused_at = None;
            self.ready
                .note_newcomers(self.ports.newcomers.len() as u64)?;
        }
        Ok(())
    }

    /// Returns the event of the next kind of socket, if it has one.
    fn take_turn(&mut self, alloc: Global, at: Moment) -> io::Result<Option<Event>>
        requires calm { self.old.connections.has_spent ≡ false }
        ensures reads { IfOk result (IsReadFrom self.new.connections.held.entries) }
        ensures calm { self.new.connections.has_spent ≡ false }
    {
        match self.turn {
            Turn::Datagrams => {
                self.turn = Turn::Newcomers;
                self.receive(alloc)
            }
            Turn::Newcomers => {
                self.turn = Turn::Connections;
                self.accept(alloc, at)
            }
            Turn::Connections => {
                self.turn = Turn::Datagrams;
                match self.ready.connections.pop_front() {
                    Some(conn) => self.read(alloc, conn),
                    None => Ok(None),
                }
            }
        }
    }

    /// Receives a datagram, if there is one. It is lost if memory runs out.
    fn receive(&mut self, alloc: Global) -> io::Result<Option<Event>>
        ensures reads { IfOk result (IsReadFrom self.new.connections.held.entries) }
        ensures kept { self.new.connections ≡ self.old.connections }
    {
        let Some(place) = self.ready.datagrams.pop_front() else {
            return Ok(None);
        };
        let Some(socket) = self.ports.datagrams.get(place as usize) else {
            return Ok(None);
        };
        let received = socket.recv_from(&mut self.buffers.datagram);
        if is_drained(&received) {
            return Ok(None);
        }
        self.ready.datagrams.push_back(place)?;
        let (len, address) = received?;
        let Ok(request) = Octets::from_slice(alloc, &self.buffers.datagram[..len]) else {
            self.lost = self.lost.saturating_add(1);
            return Err(ErrorKind::OutOfMemory.into());
        };
        let peer = Peer {
            address,
            socket: place,
        };
        Ok(Some(Event::Datagram { peer, request }))
    }

    /// Accepts a new connection, if there is one.
    fn accept(&mut self, alloc: Global, at: Moment) -> io::Result<Option<Event>>
        ensures reads { IfOk result (IsReadFrom self.new.connections.held.entries) }
        ensures calm { self.new.connections.has_spent ≡ self.old.connections.has_spent }
    {
        let Some(place) = self.ready.newcomers.pop_front() else {
            return Ok(None);
        };
        let Some(socket) = self.ports.newcomers.get(place as usize) else {
            return Ok(None);
        };
        match socket.accept() {
            Ok((stream, peer)) => {
                self.ready.newcomers.push_back(place)?;
                let registry = self.ports.poll.registry();
                let accepted = self
                    .connections
                    .hold(alloc, registry, stream, peer, self.at)?;
                let conn = accepted.conn;
                match accepted.closed {
                    Some(closed) => {
                        self.newcomer = Some(conn);
                        Ok(Some(closed))
                    }
                    None => Ok(Some(Event::Opened { conn })),
                }
            }
            Err(error) if error.kind() == ErrorKind::WouldBlock => Ok(None),
            Err(error) => {
                self.refused_at = Some(at.sec);
                Err(error)
            }
        }
    }

    /// Reads the next piece of a connection's stream, or its end, if there is either.
    fn read(&mut self, alloc: Global, conn: u64) -> io::Result<Option<Event>>
        requires queued { has self.old.ready.connections.numbers.items conn ≡ false }
        requires calm { self.old.connections.has_spent ≡ false }
        ensures reads { IfOk result (IsReadFrom self.new.connections.held.entries) }
        ensures calm { self.new.connections.has_spent ≡ false }
    {
        let Some(connection) = self.connections.get(conn) else {
            return Ok(None);
        };
        if connection.has_failed() {
            return Ok(self.connections.lose(conn));
        }
        // Its next reply would only wait behind the others. When its socket takes bytes again, the poll reports it.
        if !connection.is_sent() {
            return Ok(None);
        }
        let is_closing = connection.is_closing();
        match connection.read(&mut self.buffers.piece) {
            Ok(0) => Ok(self.connections.end(conn, self.at)),
            Ok(len) => {
                self.ready.connections.push_back(conn)?;
                if is_closing {
                    return Ok(None);
                }
                match Octets::from_slice(alloc, &self.buffers.piece[..len]) {
                    Ok(piece) => Ok(Some(Event::Bytes { conn, piece })),
                    // With a piece missing, the rest of the stream could not be parsed.
                    Err(_) => {
                        self.lost = self.lost.saturating_add(1);
                        Ok(self.connections.lose(conn))
                    }
                }
            }
            Err(error) if error.kind() == ErrorKind::WouldBlock => Ok(None),
            Err(_) => Ok(self.connections.lose(conn)),
        }
    }

    /// Ends a connection, once what is left of its replies is written.
    pub fn end_connection(&mut self, conn: u64)
        ensures { HasEnded self.old.connections.held.entries conn self.new.connections.held.entries }
    {
        self.connections.close(conn, self.at);
    }

    /// Returns how many datagrams and pieces were lost so far because memory ran out.
    pub fn lost_requests(&self) -> u64
        ensures { result ≡ self.now.lost }
    {
        self.lost
    }

    /// Performs an action. The reply to a datagram is sent from the socket that received the datagram.
    pub fn act(&mut self, action: &Action) -> io::Result<()>
        // Promise (others, done, failed): an action changes its own connection and no other, and what it writes follows
        // that connection's unsent bytes, whole and in order, and is counted.
        ensures others { KeepsOtherConnections (action_connection action.now) self.old.connections.held.entries
            self.new.connections.held.entries }
        ensures done { OnOk result (IsDone action.now self.old.at self.old.connections.held.entries
            self.new.connections.held.entries) }
        ensures failed { OnErr result (IsLost (action_connection action.now) self.new.connections.held.entries) }
    {
        match action {
            Action::SendTo { peer, reply } => {
                let socket = peer.socket as usize;
                self.ports
                    .send(socket, peer.address, reply.message.as_slice())
            }
            Action::Pass { .. } => Ok(()),
            Action::Write { conn, reply } => {
                self.connections
                    .write(*conn, reply.message.as_slice(), self.at)
            }
            Action::Close { conn, .. } => {
                self.connections.close(*conn, self.at);
                Ok(())
            }
        }
    }
}

/// Checks whether nothing more is there for now.
fn is_drained<T>(outcome: &io::Result<T>) -> bool {
    match outcome {
        Err(error) => error.kind() == ErrorKind::WouldBlock,
        Ok(_) => false,
    }
}
