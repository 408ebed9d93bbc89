//! The sender of a request.
use std::net::SocketAddr;

/// How a request was sent.
#[derive(Clone, Copy, PartialEq, Eq)]
pub enum Transport {
    /// In a datagram.
    Udp,
    /// On a connection.
    Tcp,
}

/// The sender of a request.
#[derive(Clone, Copy, PartialEq, Eq)]
pub struct Asker {
    /// Whether the request came over UDP or TCP.
    pub transport: Transport,
    /// The address that sent the request, if it is known.
    pub peer: Option<SocketAddr>,
}
