//! The events of a hub, and its actions.
ghost use Rattle.std.specs.Prelude.{◌≡◌, IfOk, option_copied};
ghost use Rattle.kdc_hub.specs.Rounds.{action_connection};

use kdc_core::Reply;
use krb_elements::Octets;
use std::alloc::{AllocError, Global};
use std::net::SocketAddr;

/// Where a datagram came from, and the socket of the server that it came to. The reply goes back the same way.
#[derive(Clone, Copy, Debug, PartialEq, Eq)]
pub struct Peer {
    /// The sender's address and port.
    pub address: SocketAddr,
    /// The number of the socket among those for datagrams.
    pub socket: u64,
}

/// An event of a hub. The number of a connection is never used again.
#[derive(Drop)]
pub enum Event {
    /// A request arrives in a datagram.
    Datagram { peer: Peer, request: Octets },
    /// A connection is opened.
    Opened { conn: u64 },
    /// The next piece of a connection's bytes.
    Bytes { conn: u64, piece: Octets },
    /// A connection has ended.
    Closed { conn: u64 },
}

impl Event {
    /// Returns a copy.
    pub fn copy(&self, alloc: Global) -> Result<Event, AllocError>
        ensures { IfOk result (λ event. event ≡ self.now) }
    {
        Ok(match self {
            Event::Datagram { peer, request } => Event::Datagram {
                peer: *peer,
                request: request.copy(alloc)?,
            },
            Event::Opened { conn } => Event::Opened { conn: *conn },
            Event::Bytes { conn, piece } => Event::Bytes {
                conn: *conn,
                piece: piece.copy(alloc)?,
            },
            Event::Closed { conn } => Event::Closed { conn: *conn },
        })
    }
}

/// Why a hub ends a connection.
#[derive(Clone, Copy, Debug, PartialEq, Eq)]
pub enum CloseReason {
    /// The peer sent what is no request, and gets no reply.
    NoRequest,
    /// The peer sent a length that is too large. An error was written before (RFC 4120, section 7.2.2).
    BadLength,
    /// The hub has as many open connections as it allows.
    Full,
    /// Memory ran out.
    OutOfMemory,
}

/// An action of a hub. Each request has one action, which sends its reply, or says that it gets none.
#[derive(Drop)]
pub enum Action {
    /// Sends a reply in a datagram.
    SendTo { peer: Peer, reply: Reply },
    /// Sends nothing: the datagram is no request.
    Pass { peer: Peer },
    /// Writes a reply to a connection, after its length.
    Write { conn: u64, reply: Reply },
    /// Ends a connection.
    Close { conn: u64, reason: CloseReason },
}

impl Action {
    /// Returns the connection that the action is for.
    pub fn connection(&self) -> Option<u64>
        ensures { result ≡ action_connection self.now }
    {
        match self {
            Action::SendTo { .. } | Action::Pass { .. } => None,
            Action::Write { conn, .. } | Action::Close { conn, .. } => Some(*conn),
        }
    }

    /// Returns a copy.
    pub fn copy(&self, alloc: Global) -> Result<Action, AllocError>
        ensures { IfOk result (λ action. action ≡ self.now) }
    {
        Ok(match self {
            Action::SendTo { peer, reply } => Action::SendTo {
                peer: *peer,
                reply: reply.copy(alloc)?,
            },
            Action::Pass { peer } => Action::Pass { peer: *peer },
            Action::Write { conn, reply } => Action::Write {
                conn: *conn,
                reply: reply.copy(alloc)?,
            },
            Action::Close { conn, reason } => Action::Close {
                conn: *conn,
                reason: *reason,
            },
        })
    }
}

/// Memory ran out during an event.
#[derive(Drop)]
pub struct HubFault {
    /// The actions completed before that.
    pub done: Vec<Action>,
    /// The connection that was removed and has to be closed.
    pub conn: Option<u64>,
    /// How often 64 random bytes were drawn during this event, which says where the generator stands.
    pub draws: usize,
}
