//! The sockets that stay open, and the poll that reports which are ready.
use crate::bind_fault::{BindError, Endpoint};
use mio::event::Source;
use mio::net::{TcpListener, UdpSocket};
use mio::{Events, Interest, Poll, Token};
use std::alloc::Global;
use std::io;
use std::io::ErrorKind;
use std::net::{Net, SocketAddr};

/// The maximum number of events per poll.
const MOST_EVENTS: usize = 64;

/// The sockets that stay open, and the poll that reports which are ready.
#[derive(Drop)]
pub struct Ports {
    /// The poll. The connections are registered with it, too.
    pub poll: Poll,
    /// What the last poll reported, 64 events at most.
    pub events: Events,
    /// The UDP sockets. The poll knows each by its index.
    pub datagrams: Vec<UdpSocket>,
    /// The TCP listeners. Their poll tokens follow those of the UDP sockets.
    pub newcomers: Vec<TcpListener>,
}

impl Ports {
    /// Opens a socket at each address.
    pub fn bind(
        alloc: Global,
        net: &impl Net,
        udp: &[SocketAddr],
        tcp: &[SocketAddr],
    ) -> Result<Ports, BindError> {
        let events = Events::with_capacity(alloc, MOST_EVENTS)?;
        let poll = Poll::new(net)?;
        let datagrams = bind_datagrams(alloc, net, &poll, udp)?;
        let newcomers = bind_newcomers(alloc, net, &poll, udp.len(), tcp)?;
        Ok(Ports {
            poll,
            events,
            datagrams,
            newcomers,
        })
    }

    /// Returns the addresses of the UDP sockets.
    pub fn udp_addresses(&self, alloc: Global) -> io::Result<Vec<SocketAddr>> {
        let mut addresses = Vec::new(alloc);
        for socket in &self.datagrams {
            addresses.push(socket.local_addr()?)?;
        }
        Ok(addresses)
    }

    /// Returns the addresses of the TCP listeners.
    pub fn tcp_addresses(&self, alloc: Global) -> io::Result<Vec<SocketAddr>> {
        let mut addresses = Vec::new(alloc);
        for socket in &self.newcomers {
            addresses.push(socket.local_addr()?)?;
        }
        Ok(addresses)
    }

    /// Sends a datagram from the socket with this index.
    pub fn send(&self, place: usize, peer: SocketAddr, message: &[u8]) -> io::Result<()> {
        match self.datagrams.get(place) {
            Some(socket) => {
                socket.send_to(message, peer)?;
                Ok(())
            }
            None => Err(ErrorKind::NotConnected.into()),
        }
    }
}

/// Opens a UDP socket at each address and registers it with the poll under its index.
fn bind_datagrams(
    alloc: Global,
    net: &impl Net,
    poll: &Poll,
    addresses: &[SocketAddr],
) -> Result<Vec<UdpSocket>, BindError> {
    let mut sockets = Vec::new(alloc);
    for (token, address) in addresses.iter().enumerate() {
        let endpoint = Endpoint::Udp(*address);
        let socket = registered(UdpSocket::bind(net, *address), poll, token, endpoint)?;
        sockets.push(socket)?;
    }
    Ok(sockets)
}

/// Opens a TCP listener at each address and registers it with the poll. The tokens count from `first`.
fn bind_newcomers(
    alloc: Global,
    net: &impl Net,
    poll: &Poll,
    first: usize,
    addresses: &[SocketAddr],
) -> Result<Vec<TcpListener>, BindError> {
    let mut sockets = Vec::new(alloc);
    for (token, address) in (first..).zip(addresses) {
        let endpoint = Endpoint::Tcp(*address);
        let socket = registered(TcpListener::bind(net, *address), poll, token, endpoint)?;
        sockets.push(socket)?;
    }
    Ok(sockets)
}

/// Registers a socket with the poll under this token, if it was opened.
fn registered<S: Source + Drop>(
    opened: io::Result<S>,
    poll: &Poll,
    token: usize,
    endpoint: Endpoint,
) -> Result<S, BindError> {
    match opened {
        Ok(mut socket) => {
            let registry = poll.registry();
            registry.register(&mut socket, Token(token), Interest::READABLE)?;
            Ok(socket)
        }
        Err(error) => Err(BindError {
            socket: Some(endpoint),
            error,
        }),
    }
}
