//! A TCP connection and its unsent bytes.
ghost use Rattle.std.specs.Prelude.{◌≡◌, ◌++◌, [], true, false, OnOk};
ghost use Rattle.std.specs.Io.{ReadsAtMost};
ghost use Rattle.framing.specs.Stream.{framed};
ghost use Rattle.kdc_sockets.specs.Given.{given_more, nothing_given};
ghost use Rattle.kdc_sockets.specs.Table.{has_waited, is_spent};
ghost use Rattle.kdc_sockets.specs.Unsent.{IsLeftOf};

use crate::given::Given;
use framing::prefix;
use mio::net::TcpStream;
use std::alloc::Global;
use std::io::{Error, ErrorKind, Read, Result, Write};
use std::net::{Shutdown, SocketAddr};
use std::time::Instant;

/// The maximum number of unsent bytes for a peer that doesn't read. The largest reply fits, with its length prefix.
const MOST_UNSENT: usize = 150_000;

/// How many seconds a connection may be idle before it is closed.
const LONGEST_IDLE: u64 = 30;

/// A TCP connection and its unsent bytes.
#[derive(Drop)]
pub struct Connection {
    stream: TcpStream,
    peer: SocketAddr,
    unsent: Vec<u8>,
    /// How many replies it was given.
    given: Given,
    /// When it became idle: when it was opened, or when its last complete request was answered. While it is closing,
    /// when its peer last took bytes.
    idle_since: Instant,
    /// No more replies will follow. The unsent bytes are written, and then the sending side is shut down.
    is_closing: bool,
    /// The sending side is shut down.
    is_shut_down: bool,
    /// The peer has shut down its sending side.
    is_at_end: bool,
    /// A write has failed, so nothing more can be sent.
    has_failed: bool,
}

impl Connection {
    /// Returns a new connection from this address.
    pub fn new(alloc: Global, stream: TcpStream, peer: SocketAddr, at: Instant) -> Connection
        ensures open { result.is_closing ≡ false }
        ensures given { result.given ≡ nothing_given }
        ensures peer { result.peer ≡ peer }
        ensures idle { result.idle_since ≡ at }
    {
        Connection {
            stream,
            peer,
            unsent: Vec::new(alloc),
            given: Given::nothing(),
            idle_since: at,
            is_closing: false,
            is_shut_down: false,
            is_at_end: false,
            has_failed: false,
        }
    }

    /// Returns the peer's address.
    pub fn peer(&self) -> SocketAddr
        ensures { result ≡ self.now.peer }
    {
        self.peer
    }

    /// Checks whether no more replies will follow.
    pub fn is_closing(&self) -> bool
        ensures { result ≡ self.now.is_closing }
    {
        self.is_closing
    }

    /// Returns when it became idle.
    pub fn idle_since(&self) -> Instant
        ensures { result ≡ self.now.idle_since }
    {
        self.idle_since
    }

    /// Checks whether it has been idle for too long.
    pub fn is_idle(&self, at: Instant) -> bool
        ensures { result ≡ has_waited at self.now }
    {
        at.duration_since(self.idle_since).as_secs() >= LONGEST_IDLE
    }

    /// Checks whether it is open, and was given all that a connection is given.
    pub fn is_spent(&self) -> bool
        ensures { result ≡ is_spent self.now }
    {
        !self.is_closing && self.given.is_all()
    }

    /// Checks whether all that was written has gone to its socket.
    pub fn is_sent(&self) -> bool
        ensures { result ≡ true → self.now.unsent.items ≡ [] }
    {
        self.unsent.is_empty()
    }

    /// Checks whether a write has failed.
    pub fn has_failed(&self) -> bool {
        self.has_failed
    }

    /// Checks whether both sides are done. Dropping a connection earlier could cost the peer replies that it has not
    /// read yet.
    pub fn is_over(&self) -> bool {
        self.is_closing && self.is_at_end && self.unsent.is_empty()
    }

    /// Reads what has arrived into the buffer. Returns how many bytes: 0 at the end of the stream.
    pub fn read(&self, buffer: &mut [u8]) -> Result<usize>
        ensures { ReadsAtMost result buffer.new }
    {
        let mut stream = &self.stream;
        stream.read(buffer)
    }

    /// Writes the reply to a complete request after its length prefix, as far as it fits, and keeps the rest. Fails if
    /// too many bytes are unsent.
    pub fn write(&mut self, message: &[u8], at: Instant) -> Result<()>
        ensures closing { self.new.is_closing ≡ self.old.is_closing }
        ensures peer { self.new.peer ≡ self.old.peer }
        ensures idle { self.new.idle_since ≡ at }
        ensures given { OnOk result (self.new.given ≡ given_more self.old.given message.now) }
        ensures written { OnOk result (IsLeftOf (self.old.unsent.items ++ framed message.now) self.new.unsent.items) }
    {
        self.idle_since = at;
        if message.len() > MOST_UNSENT {
            return Err(Error::from(ErrorKind::InvalidInput));
        }
        self.given = self.given.more(message);
        self.unsent
            .extend_from_slice(&prefix(message.len() as u32))?;
        self.unsent.extend_from_slice(message)?;
        self.flush(at)?;
        if self.unsent.len() > MOST_UNSENT {
            return Err(Error::from(ErrorKind::WriteZero));
        }
        Ok(())
    }

    /// Marks that no more replies will follow, and writes what fits.
    pub fn close(&mut self, at: Instant) -> Result<()>
        ensures closing { self.new.is_closing ≡ true }
        ensures peer { self.new.peer ≡ self.old.peer }
    {
        if !self.is_closing {
            self.is_closing = true;
            self.idle_since = at;
        }
        self.flush(at)
    }

    /// Marks that the peer sends nothing more. The unsent bytes are still written.
    pub fn end(&mut self, at: Instant) -> Result<()>
        ensures closing { self.new.is_closing ≡ true }
        ensures peer { self.new.peer ≡ self.old.peer }
    {
        self.is_at_end = true;
        self.close(at)
    }

    /// Writes what fits. After the last byte of the last reply, shuts down the sending side. It does so once, since
    /// each shutdown would raise another event for the connection.
    pub fn flush(&mut self, at: Instant) -> Result<()>
        ensures closing { self.new.is_closing ≡ self.old.is_closing }
        ensures given { self.new.given ≡ self.old.given }
        ensures peer { self.new.peer ≡ self.old.peer }
        ensures idle { self.old.is_closing ≡ false → self.new.idle_since ≡ self.old.idle_since }
        ensures idle_at { self.old.idle_since ≡ at → self.new.idle_since ≡ at }
        ensures left { IsLeftOf self.old.unsent.items self.new.unsent.items }
    {
        if let Err(error) = self.send(at) {
            self.has_failed = true;
            return Err(error);
        }
        if self.is_closing && self.unsent.is_empty() && !self.is_shut_down {
            self.is_shut_down = true;
            self.stream.shutdown(Shutdown::Write)?;
        }
        Ok(())
    }

    /// Writes until nothing is left, or no more fits.
    fn send(&mut self, at: Instant) -> Result<()>
        ensures closing { self.new.is_closing ≡ self.old.is_closing }
        ensures given { self.new.given ≡ self.old.given }
        ensures peer { self.new.peer ≡ self.old.peer }
        ensures idle { self.old.is_closing ≡ false → self.new.idle_since ≡ self.old.idle_since }
        ensures idle_at { self.old.idle_since ≡ at → self.new.idle_since ≡ at }
        ensures left { IsLeftOf self.old.unsent.items self.new.unsent.items }
    {
        for _ in 0..self.unsent.len() {
            if self.unsent.is_empty() {
                return Ok(());
            }
            if !self.write_once()? {
                return Ok(());
            }
            if self.is_closing {
                self.idle_since = at;
            }
        }
        Ok(())
    }

    /// Writes once, and returns whether more may fit.
    fn write_once(&mut self) -> Result<bool>
        ensures closing { self.new.is_closing ≡ self.old.is_closing }
        ensures given { self.new.given ≡ self.old.given }
        ensures peer { self.new.peer ≡ self.old.peer }
        ensures idle { self.new.idle_since ≡ self.old.idle_since }
        ensures left { IsLeftOf self.old.unsent.items self.new.unsent.items }
    {
        match self.stream.write(&self.unsent) {
            Ok(0) => Err(Error::from(ErrorKind::WriteZero)),
            Ok(sent) => {
                self.unsent.rotate_left(sent);
                let left = self.unsent.len() - sent;
                self.unsent.truncate(left);
                Ok(true)
            }
            Err(error) if error.kind() == ErrorKind::WouldBlock => Ok(false),
            Err(error) => Err(error),
        }
    }
}
