//! The network that carries a client's messages.
ghost use Rattle.std.specs.Prelude.{ℕ, List, IfOk};
ghost use Rattle.std.specs.List.{All};
ghost use Rattle.std.specs.declared.net.socket_addr.SocketAddr as addresses;

use std::alloc::Global;
use std::io;
use std::net::SocketAddr;

/// The way in which a message goes to a KDC (RFC 4120, section 7.2).
#[derive(Clone, Copy, PartialEq, Eq)]
pub enum Transport {
    /// By a datagram.
    Udp,
    /// By a connection, in which four bytes with its length come first.
    Tcp,
}

/// Where a message goes, and how.
#[derive(Clone, Copy)]
pub struct Route {
    /// The KDC's address and port.
    pub to: SocketAddr,
    /// Whether it goes by UDP or by TCP.
    pub by: Transport,
}

/// Sends messages to KDCs, and waits for their replies.
pub trait Network {
    // The messages that it takes. A network over a real network says `λ message. ⊤`: any.
    ghost carries: { List ℕ → Type 0 };

    // The bytes with which an address answers a message. A network over a real network says `λ to message reply. ⊤`:
    // any.
    ghost answers: { addresses.SocketAddr → List ℕ → List ℕ → Type 0 };

    // The addresses of a host, by its name and a port. A network over a real network says `λ host port address. ⊤`:
    // any.
    ghost finds: { List ℕ → ℕ → addresses.SocketAddr → Type 0 };

    /// Begins a login, or a request for a further ticket. The network's waiting time counts from here.
    fn begin(&mut self);

    /// Sends a message and returns the reply. Fails if no reply comes in the network's waiting time.
    fn exchange(&mut self, alloc: Global, route: Route, message: &[u8]) -> io::Result<Vec<u8>>
        requires { carries message.now }
        // Promise: **no message is sent but these requests**: a call requires only that the network takes (`carries`)
        // the requests in its conditions (`CarriesFirst`, `CarriesPresented`).
        // Promise, as KdcClient::log_in: **an error says which ..
        ensures { IfOk result (λ reply. answers route.to message.now reply.items) };

    /// Looks up a host by its name, and returns its addresses, each with this port. The network's waiting time goes on.
    fn look_up(&mut self, alloc: Global, host: &str, port: u16) -> io::Result<Vec<SocketAddr>>
        // Promise, as KdcClient::log_in: a host that was ..
        ensures { IfOk result (λ found. All (finds host.now port) found.items) };
}

/// A network that takes any message.
pub trait AnyMessage: Network {
    ghost takes_any: { (message : List ℕ) → Self.carries message };
}
