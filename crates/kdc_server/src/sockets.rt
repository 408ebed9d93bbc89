//! What a server asks of its sockets.
ghost use Rattle.std.specs.Prelude.{◌≡◌, ℕ, ⊤, refl};
ghost use Rattle.kdc_sockets.specs.Lost.{lost_by};

use kdc_hub::{Peers, Wire};
use kdc_sockets::Sockets;
use std::rt::Clock;

/// The sockets of a server.
pub trait ServerSockets: Wire + Peers {
    // What they become by the end of a connection.
    ghost HangsUp: { Self → ℕ → Self → Type 0 };

    /// Ends a connection on which a reply is withheld: its peer sees the end, and can ask another server at once.
    fn hang_up(&mut self, conn: u64)
        ensures { HangsUp self.old conn self.new };

    // How many requests were lost so far because memory ran out before they were read.
    ghost lost_count: { Self → ℕ };

    /// Returns how many requests were lost so far because memory ran out before they were read.
    fn lost(&self) -> u64
        // Promise, as ServerWire::poll: the wire says at ..
        ensures { result ≡ lost_count self.now };

    // The end of a connection is neither a poll nor an act.
    ghost keeps_record: { (old new : Self) (conn : ℕ) → HangsUp old conn new
        → Self.recorded new ≡ Self.recorded old };
}

impl<C: Clock + Drop> ServerSockets for Sockets<C> {
    ghost HangsUp = { λ old conn new. ⊤ };

    ghost lost_count = { lost_by };

    ghost keeps_record = { λ old new conn is. refl };

    fn hang_up(&mut self, conn: u64) {
        self.end_connection(conn);
    }

    fn lost(&self) -> u64 {
        self.lost_requests()
    }
}
