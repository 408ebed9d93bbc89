//! The peers of connections.
ghost use Rattle.std.specs.Prelude.{◌≡◌, ℕ, Option, None};
ghost use Rattle.std.specs.declared.net.socket_addr.SocketAddr.{SocketAddr};

use crate::memory::wire::MemoryWire;
use std::net::SocketAddr;

/// A Wire that knows the peers of its connections.
pub trait Peers {
    // The peer's address of each connection, if it is known.
    ghost peer_of: { Self → ℕ → Option SocketAddr };

    /// Returns the peer's address of a connection, if it is known.
    fn peer(&self, conn: u64) -> Option<SocketAddr>
        // Promise, as ServerWire::act of kdc_server: the address of a ..
        ensures { result ≡ peer_of self.now conn };
}

/// The connections of a Wire in memory have no peers.
impl Peers for MemoryWire {
    ghost peer_of = { λ _ _. None };

    fn peer(&self, _conn: u64) -> Option<SocketAddr> {
        None
    }
}
