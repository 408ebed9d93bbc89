//! The wire over sockets.
ghost use Rattle.std.specs.Prelude.{◌≡◌, option_map};
ghost use Rattle.kdc_sockets.specs.Lost.{lost_by};
ghost use Rattle.kdc_sockets.specs.Table.{held_at};

use crate::bind_fault::BindError;
use crate::socket_turns::SocketTurns;
use kdc_hub::{Action, Event, Peers, Wire, WireFault};
use krb_fields::Moment;
use std::alloc::Global;
use std::io;
use std::net::{Net, SocketAddr};
use std::rt::Clock;
use std::time::Duration;

/// A wire over UDP sockets and TCP listeners, each at its own address. It keeps no record.
#[derive(Drop)]
pub struct Sockets<C> {
    sockets: SocketTurns<C>,
    faults: u64,
}

impl<C: Clock + Drop> Sockets<C> {
    /// Opens a socket at each address. `wait` is how long a poll waits if nothing comes in.
    pub fn bind(
        alloc: Global,
        clock: C,
        net: &impl Net,
        udp: &[SocketAddr],
        tcp: &[SocketAddr],
        wait: Duration,
    ) -> Result<Sockets<C>, BindError> {
        Ok(Sockets {
            sockets: SocketTurns::bind(alloc, clock, net, udp, tcp, wait)?,
            faults: 0,
        })
    }

    /// Returns the addresses of the UDP sockets.
    pub fn udp_addresses(&self, alloc: Global) -> io::Result<Vec<SocketAddr>> {
        self.sockets.udp_addresses(alloc)
    }

    /// Returns the addresses of the TCP listeners.
    pub fn tcp_addresses(&self, alloc: Global) -> io::Result<Vec<SocketAddr>> {
        self.sockets.tcp_addresses(alloc)
    }

    /// Ends a connection without another reply. Its peer gets what was written before, and then sees the end.
    pub fn end_connection(&mut self, conn: u64) {
        self.sockets.end_connection(conn);
    }

    /// Returns how many datagrams and pieces of streams were lost so far because memory ran out before they were read.
    pub fn lost_requests(&self) -> u64
        // Promise, as ServerWire::poll of kdc_server: the wire says at ..
        ensures { result ≡ lost_by self.now }
    {
        self.sockets.lost_requests()
    }
}

impl<C: Clock + Drop> Peers for Sockets<C> {
    ghost peer_of = { λ w conn. option_map (λ connection. connection.peer)
        (held_at w.sockets.connections.held.entries conn) };

    fn peer(&self, conn: u64) -> Option<SocketAddr> {
        self.sockets.peer(conn)
    }
}

impl<C: Clock + Drop> Wire for Sockets<C> {
    ghost use Rattle.std.specs.Prelude.{None};

    ghost recorded = { λ _. None };

    ghost fault_count = { λ w. w.faults };

    fn poll(&mut self, alloc: Global) -> Result<(Moment, Option<Event>), WireFault> {
        match self.sockets.next(alloc) {
            Ok(next) => Ok(next),
            Err(_) => {
                self.faults = self.faults.saturating_add(1);
                Err(WireFault)
            }
        }
    }

    fn act(&mut self, _alloc: Global, action: &Action) -> Result<(), WireFault> {
        match self.sockets.act(action) {
            Ok(()) => Ok(()),
            Err(_) => {
                self.faults = self.faults.saturating_add(1);
                Err(WireFault)
            }
        }
    }

    fn faults(&self) -> u64 {
        self.faults
    }
}
