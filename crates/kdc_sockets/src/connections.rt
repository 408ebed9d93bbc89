//! The open and closing connections, each under a number that is never reused.
ghost use Rattle.std.specs.Prelude.{◌≡◌, ◌≤◌, ◌<◌, ◌+◌, ◌*◌, ℕ, true, false, not, Some, None, length};
ghost use Rattle.std.specs.Prelude.{IfOk, IfNone, IfSome, OnErr, OnOk, option_copied, option_map};
ghost use Rattle.kdc_hub.specs.Hub.{most_connections};
ghost use Rattle.kdc_sockets.specs.declared.connection.Connection.{Connection};
ghost use Rattle.kdc_sockets.specs.Table.{AddsNone, AreAll, AreFew, AreUnused, EndsOne, EndsWaiting};
ghost use Rattle.kdc_sockets.specs.Table.{EndsSpent, FitsHub, HasEnded, IsGiven, IsGivenNothing, IsSpent, NoneSpent};
ghost use Rattle.kdc_sockets.specs.Table.{NoneWaits, Waits};
ghost use Rattle.kdc_sockets.specs.Given.{nothing_given};
ghost use Rattle.kdc_sockets.specs.Table.{IsIdleSince, IsLongestIdle, IsWritten, KeepsOpen, KeepsOthers};
ghost use Rattle.kdc_sockets.specs.Table.{OpensAlike, TakesIn, closed_if, count_if, held_at, is_open, open_count};

use crate::connection::Connection;
use kdc_hub::Event;
use mio::net::TcpStream;
use mio::{Interest, Registry, Token};
use std::alloc::{AllocError, Global};
use std::collections::BTreeMap;
use std::io;
use std::io::ErrorKind;
use std::net::SocketAddr;
use std::time::Instant;

/// The maximum number of open connections. The hub has as many places.
const MOST_OPEN: usize = 256;

/// The maximum number of connections, including those that are closing.
pub const MOST_CONNECTIONS: usize = 2 * MOST_OPEN;

/// The connections. The poll knows each by its number.
#[derive(Drop)]
pub struct Connections {
    held: BTreeMap<u64, Connection>,
    /// The number of the next connection.
    next: u64,
    /// Whether a connection may be spent: a write made one so, and no search since then has found that none is.
    has_spent: bool,
    // No connection has a number from there on.
    ghost unused: { AreUnused held.entries next },
    // The hub has a place for each that is open.
    // Promise (bounded, few): at most 256 connections are open, with those that are closing at most 512.
    ghost bounded: { FitsHub held.entries },
    // With those that are closing there are at most twice as many.
    ghost few: { AreFew held.entries },
    // None is spent, unless a write has just made it so.
    ghost calm: { has_spent ≡ false → NoneSpent held.entries },
}

/// A connection that was accepted, and the end of the one that was closed for it.
#[derive(Drop)]
pub struct Accepted {
    /// The number of the new connection.
    pub conn: u64,
    /// The end of the connection that was closed. `None` if there was room for the new one.
    pub closed: Option<Event>,
}

impl Connections {
    /// Returns an empty set of connections. `first` is the number that the first one gets.
    pub fn new(alloc: Global, first: u64) -> Connections
        ensures { (conn : ℕ) → held_at result.held.entries conn ≡ None }
    {
        Connections {
            held: BTreeMap::new(alloc),
            next: first,
            has_spent: false,
        }
    }

    /// Returns the address of a connection's peer.
    pub fn peer(&self, conn: u64) -> Option<SocketAddr>
        ensures { result ≡ option_map (λ connection. connection.peer) (held_at self.now.held.entries conn) }
    {
        match self.held.get(&conn) {
            Some(connection) => Some(connection.peer()),
            None => None,
        }
    }

    /// Returns the connection with this number.
    pub fn get(&self, conn: u64) -> Option<&Connection>
        ensures held { option_copied result ≡ held_at self.now.held.entries conn }
        ensures calm { self.now.has_spent ≡ false → NoneSpent self.now.held.entries }
    {
        self.held.get(&conn)
    }

    /// Adds a new connection and registers it with the poll. If the hub has no place for it, closes the open one that
    /// has been idle longest. Of those that became idle at the same moment, it closes the one that was accepted first.
    pub fn hold(
        &mut self,
        alloc: Global,
        registry: &Registry,
        mut stream: TcpStream,
        peer: SocketAddr,
        at: Instant,
    ) -> io::Result<Accepted>
        // Promise: **of the table of connections**, whatever the sockets do: a new connection's number is not in use.
        ensures new { IfOk result (λ accepted. held_at self.old.held.entries accepted.conn ≡ None) }
        ensures opened { IfOk result (λ accepted. is_open self.new.held.entries accepted.conn ≡ true) }
        ensures idle { IfOk result (λ accepted. IsIdleSince self.new.held.entries accepted.conn at) }
        ensures given { IfOk result (λ accepted. IsGivenNothing self.new.held.entries accepted.conn) }
        ensures calm { self.new.has_spent ≡ self.old.has_spent }
        // Promise: for one more than 256 the open one that has been idle longest ends, at a tie the first accepted, and
        // no other.
        ensures taken { IfOk result (λ accepted.
            TakesIn self.old.held.entries accepted.conn accepted.closed self.new.held.entries) }
        ensures failed { OnErr result (OpensAlike self.old.held.entries self.new.held.entries) }
    {
        self.drop_oldest_closing();
        let conn = self.next;
        let Some(next) = conn.checked_add(1) else {
            return Err(ErrorKind::Other.into());
        };
        self.next = next;
        stream.set_nodelay(true)?;
        let both = Interest::READABLE | Interest::WRITABLE;
        registry.register(&mut stream, Token(conn as usize), both)?;
        let closed = self.insert(conn, Connection::new(alloc, stream, peer, at), at)?;
        Ok(Accepted { conn, closed })
    }

    /// Puts a new connection into the table, under a number that is not used. If the hub has no place for it, closes
    /// the open one that has been idle longest, and reports its end.
    fn insert(
        &mut self,
        conn: u64,
        connection: Connection,
        at: Instant,
    ) -> Result<Option<Event>, AllocError>
        requires number { conn < self.now.next }
        requires unused { held_at self.now.held.entries conn ≡ None }
        requires open { connection.is_closing ≡ false }
        requires given { connection.given ≡ nothing_given }
        requires room { length self.now.held.entries < 2 * most_connections }
        ensures ok { OnOk result (held_at self.new.held.entries conn ≡ Some connection) }
        ensures taken { IfOk result (λ closed. TakesIn self.old.held.entries conn closed self.new.held.entries) }
        ensures err { OnErr result (OpensAlike self.old.held.entries self.new.held.entries) }
        ensures calm { self.new.has_spent ≡ self.old.has_spent }
    {
        let oldest = self.to_evict();
        self.held.insert(conn, connection)?;
        let Some(oldest) = oldest else {
            return Ok(None);
        };
        close_held(&mut self.held, oldest, at);
        Ok(Some(Event::Closed { conn: oldest }))
    }

    /// Returns the open connection that has been idle longest, if the hub has no place for another one.
    fn to_evict(&self) -> Option<u64>
        ensures full { IfSome result (λ conn. open_count self.now.held.entries ≡ most_connections) }
        ensures longest { IfSome result (IsLongestIdle false self.now.held.entries) }
        ensures none { IfNone result (open_count self.now.held.entries < most_connections) }
    {
        if self.count_open() < MOST_OPEN {
            return None;
        }
        self.longest_idle(false)
    }

    /// Returns how many connections are open.
    fn count_open(&self) -> usize
        ensures { result ≡ open_count self.now.held.entries }
    {
        self.held
            .values()
            .filter(|connection| !connection.is_closing())
            .count()
    }

    /// If the table is full, drops the closing connection whose peer has taken nothing for the longest time.
    fn drop_oldest_closing(&mut self)
        ensures alike { OpensAlike self.old.held.entries self.new.held.entries }
        ensures kept { KeepsOpen self.old.held.entries self.new.held.entries }
        ensures none_new { AddsNone self.old.held.entries self.new.held.entries }
        ensures counted { open_count self.new.held.entries ≡ open_count self.old.held.entries }
        ensures next { self.new.next ≡ self.old.next }
        ensures calm { self.new.has_spent ≡ self.old.has_spent }
        ensures room { length self.new.held.entries < 2 * most_connections }
    {
        if self.held.len() < MOST_CONNECTIONS {
            return;
        }
        if let Some(conn) = self.longest_idle(true) {
            self.drop_closing(conn);
        }
    }

    /// Drops a connection if it is closing.
    fn drop_closing(&mut self, conn: u64)
        ensures alike { OpensAlike self.old.held.entries self.new.held.entries }
        ensures kept { KeepsOpen self.old.held.entries self.new.held.entries }
        ensures none_new { AddsNone self.old.held.entries self.new.held.entries }
        ensures counted { open_count self.new.held.entries ≡ open_count self.old.held.entries }
        ensures next { self.new.next ≡ self.old.next }
        ensures calm { self.new.has_spent ≡ self.old.has_spent }
        ensures fewer { (connection : Connection) → held_at self.old.held.entries conn ≡ Some connection →
            connection.is_closing ≡ true → length self.new.held.entries < length self.old.held.entries }
    {
        match self.held.get(&conn) {
            Some(connection) if connection.is_closing() => {
                self.held.remove(&conn);
            }
            _ => {}
        }
    }

    /// Returns the connection that has been idle longest, among the closing ones or among the open ones.
    fn longest_idle(&self, is_closing: bool) -> Option<u64>
        ensures longest { IfSome result (IsLongestIdle is_closing self.now.held.entries) }
        ensures none { IfNone result (AreAll (not is_closing) self.now.held.entries) }
    {
        let (conn, _) = self
            .held
            .iter()
            .filter(|(_, connection)| connection.is_closing() == is_closing)
            .min_by_key(|(conn, connection)| (connection.idle_since(), **conn))?;
        Some(*conn)
    }

    /// Closes a connection if it is open, and reports its end.
    fn close_open(&mut self, conn: u64, at: Instant) -> Option<Event>
        ensures event { result ≡ closed_if (is_open self.old.held.entries conn) conn }
        ensures ended { HasEnded self.old.held.entries conn self.new.held.entries }
        ensures calm { self.new.has_spent ≡ self.old.has_spent }
    {
        let is_open = match self.held.get(&conn) {
            Some(connection) => !connection.is_closing(),
            None => false,
        };
        if !is_open {
            return None;
        }
        self.close(conn, at);
        Some(Event::Closed { conn })
    }

    /// Closes one of the open connections that have been idle for too long. Drops the closing ones that have, since
    /// their peers take nothing any more.
    pub fn close_idle(&mut self, at: Instant) -> Option<Event>
        // Promise, as Connections::end: the end of a ..
        ensures ended { IfSome result (λ event. EndsOne self.old.held.entries event self.new.held.entries) }
        // Promise (waited, none, all): of idle connections all end that waited too long, and no others.
        ensures waited { IfSome result (EndsWaiting at self.old.held.entries) }
        ensures none { IfNone result (OpensAlike self.old.held.entries self.new.held.entries) }
        ensures all { IfNone result (NoneWaits false at self.new.held.entries) }
        ensures calm { self.new.has_spent ≡ self.old.has_spent }
    {
        self.drop_idle(at);
        self.close_one_idle(at)
    }

    /// Drops the closing connections that have been idle for too long.
    fn drop_idle(&mut self, at: Instant)
        ensures alike { OpensAlike self.old.held.entries self.new.held.entries }
        ensures kept { KeepsOpen self.old.held.entries self.new.held.entries }
        ensures calm { self.new.has_spent ≡ self.old.has_spent }
    {
        for _ in 0..self.held.len() {
            match self.idle(true, at) {
                Some(conn) => self.drop_closing(conn),
                None => break,
            }
        }
    }

    /// Closes one of the open connections that have been idle for too long.
    fn close_one_idle(&mut self, at: Instant) -> Option<Event>
        ensures ended { IfSome result (λ event. EndsOne self.old.held.entries event self.new.held.entries) }
        ensures waited { IfSome result (EndsWaiting at self.old.held.entries) }
        ensures none { IfNone result (OpensAlike self.old.held.entries self.new.held.entries) }
        ensures all { IfNone result (NoneWaits false at self.new.held.entries) }
        ensures calm { self.new.has_spent ≡ self.old.has_spent }
    {
        let conn = self.idle(false, at)?;
        self.close_open(conn, at)
    }

    /// Returns one of the closing connections, or of the open ones, that have been idle for too long.
    fn idle(&self, is_closing: bool, at: Instant) -> Option<u64>
        ensures waits { IfSome result (Waits is_closing at self.now.held.entries) }
        ensures none { IfNone result (NoneWaits is_closing at self.now.held.entries) }
    {
        let (conn, _) = self.held.iter().find(|(_, connection)| {
            connection.is_closing() == is_closing && connection.is_idle(at)
        })?;
        Some(*conn)
    }

    /// Closes one of the spent connections, and reports its end. What it was given is still written.
    pub fn close_spent(&mut self, at: Instant) -> Option<Event>
        // Promise (ended, all): **no connection is answered without end**: once one was given 256 replies or 262,144
        // bytes of them, the next poll ends such a one before anything is accepted or read.
        ensures ended { IfSome result (λ event. EndsSpent self.old.held.entries event self.new.held.entries) }
        ensures none { IfNone result (self.new.held ≡ self.old.held) }
        ensures all { IfNone result (NoneSpent self.new.held.entries) }
        ensures calm { IfNone result (self.new.has_spent ≡ false) }
    {
        if !self.has_spent {
            return None;
        }
        let Some(conn) = self.spent() else {
            self.has_spent = false;
            return None;
        };
        self.close(conn, at);
        Some(Event::Closed { conn })
    }

    /// Returns one of the spent connections.
    fn spent(&self) -> Option<u64>
        ensures spent { IfSome result (IsSpent self.now.held.entries) }
        ensures none { IfNone result (NoneSpent self.now.held.entries) }
    {
        let (conn, _) = self
            .held
            .iter()
            .find(|(_, connection)| connection.is_spent())?;
        Some(*conn)
    }

    /// Marks that the peer sends nothing more. The unsent bytes are still written.
    pub fn end(&mut self, conn: u64, at: Instant) -> Option<Event>
        // Promise (event, ended): the end of a connection is reported once, of one that was open and is no longer.
        ensures event { result ≡ closed_if (is_open self.old.held.entries conn) conn }
        ensures ended { HasEnded self.old.held.entries conn self.new.held.entries }
        ensures calm { self.new.has_spent ≡ self.old.has_spent }
    {
        let connection = self.held.get_mut(&conn)?;
        let is_closing = connection.is_closing();
        if connection.end(at).is_err() || connection.is_over() {
            self.held.remove(&conn);
        }
        if is_closing {
            return None;
        }
        Some(Event::Closed { conn })
    }

    /// Drops a connection.
    pub fn lose(&mut self, conn: u64) -> Option<Event>
        // Promise (event, lost, ended), as Connections::end: the end of a ..
        ensures event { result ≡ closed_if (is_open self.old.held.entries conn) conn }
        ensures lost { held_at self.new.held.entries conn ≡ None }
        ensures ended { HasEnded self.old.held.entries conn self.new.held.entries }
        ensures calm { self.new.has_spent ≡ self.old.has_spent }
    {
        let connection = self.held.remove(&conn)?;
        if connection.is_closing() {
            return None;
        }
        Some(Event::Closed { conn })
    }

    /// Writes a message after its length prefix. Drops the connection if that fails.
    pub fn write(&mut self, conn: u64, message: &[u8], at: Instant) -> io::Result<()>
        ensures alike { OnOk result (is_open self.new.held.entries conn ≡ is_open self.old.held.entries conn) }
        ensures written { OnOk result (IsWritten self.old.held.entries conn message.now at self.new.held.entries) }
        ensures failed { OnErr result (held_at self.new.held.entries conn ≡ None) }
        ensures others { KeepsOthers self.old.held.entries conn self.new.held.entries }
    {
        let Some(connection) = self.held.get_mut(&conn) else {
            return Err(ErrorKind::NotConnected.into());
        };
        let written = connection.write(message, at);
        self.has_spent = self.has_spent | connection.is_spent();
        if written.is_err() {
            self.held.remove(&conn);
        }
        written
    }

    /// Closes a connection. It is dropped when all bytes are written and its peer has closed it too.
    pub fn close(&mut self, conn: u64, at: Instant)
        ensures ended { HasEnded self.old.held.entries conn self.new.held.entries }
        ensures calm { self.new.has_spent ≡ self.old.has_spent }
    {
        close_held(&mut self.held, conn, at);
    }

    /// Writes what is left of a connection's replies. Drops a closing connection if that fails or if both sides are
    /// done.
    pub fn flush(&mut self, conn: u64, at: Instant)
        ensures flushed { is_open self.new.held.entries conn ≡ is_open self.old.held.entries conn }
        ensures idle { (connection : Connection) → held_at self.old.held.entries conn ≡ Some connection →
            connection.is_closing ≡ false → IsIdleSince self.new.held.entries conn connection.idle_since }
        ensures given { (connection : Connection) → held_at self.old.held.entries conn ≡ Some connection →
            connection.is_closing ≡ false → IsGiven self.new.held.entries conn connection.given }
        ensures others { KeepsOthers self.old.held.entries conn self.new.held.entries }
    {
        let Some(connection) = self.held.get_mut(&conn) else {
            return;
        };
        let flushed = connection.flush(at);
        if connection.is_closing() && (connection.is_over() || flushed.is_err()) {
            self.held.remove(&conn);
        }
    }
}

/// Closes a connection of the table.
fn close_held(held: &mut BTreeMap<u64, Connection>, conn: u64, at: Instant)
    ensures ended { HasEnded held.old.entries conn held.new.entries }
    ensures none_new { AddsNone held.old.entries held.new.entries }
    ensures no_more { length held.new.entries ≤ length held.old.entries }
    ensures calm { NoneSpent held.old.entries → NoneSpent held.new.entries }
    ensures counted { open_count held.new.entries + count_if (is_open held.old.entries conn) ≡
        open_count held.old.entries }
{
    let Some(connection) = held.get_mut(&conn) else {
        return;
    };
    if connection.close(at).is_err() || connection.is_over() {
        held.remove(&conn);
    }
}
