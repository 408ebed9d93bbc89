//! Messages to KDCs that grant nothing.
ghost use Rattle.std.specs.Prelude.{⊤};

use client_login::{AnyMessage, Network, Route, Transport};
use std::alloc::Global;
use std::io;
use std::io::{Error, ErrorKind};
use std::net::SocketAddr;

/// What each message gets.
#[derive(Clone, Copy)]
pub enum Said {
    Nothing,
    /// A reply, but the memory for it runs out.
    NoMemory,
    /// A KRB-ERROR with this code.
    Error(u8),
}

/// KRB-ERROR of a KDC of `A.B`, at midnight on 2024-01-01.
const ERROR: &str = "\
        7e4a3048a003020105a10302011ea411180f32303234303130313030303030305aa503020100a603020100a9051b03412e42\
        aa183016a003020102a10f300d1b066b72627467741b03412e42";

/// The place of the code in it.
const CODE: usize = 42;

/// The port of the second KDC.
pub const SECOND_PORT: u16 = 89;

/// The host of the second KDC, and its address.
pub const HOST: &str = "kdc.example.com";

const SECOND_ADDRESS: [u8; 4] = [192, 0, 2, 2];

/// A network in which each message gets the same.
#[derive(Drop)]
pub struct SaidNetwork {
    pub said: Said,
    /// The messages: `u` for a datagram, `t` for one over TCP; `U` and `T` for those to the second KDC; `l` for a host
    /// that is looked up.
    pub ways: String,
}

impl Network for SaidNetwork {
    ghost carries = { λ message. ⊤ };

    ghost answers = { λ to message reply. ⊤ };

    ghost finds = { λ host port address. ⊤ };

    fn begin(&mut self) {}

    fn exchange(&mut self, alloc: Global, route: Route, message: &[u8]) -> io::Result<Vec<u8>> {
        self.ways
            .push(way_letter(route.by, route.to.port() == SECOND_PORT))?;
        match self.said {
            Said::Nothing => Err(Error::from(ErrorKind::TimedOut)),
            Said::NoMemory => Err(Error::from(ErrorKind::OutOfMemory)),
            Said::Error(code) => error_bytes(alloc, code),
        }
    }

    /// The only host is the second KDC.
    fn look_up(&mut self, alloc: Global, host: &str, port: u16) -> io::Result<Vec<SocketAddr>> {
        self.ways.push('l')?;
        let mut addresses = Vec::new(alloc);
        if host == HOST {
            addresses.push(SocketAddr::from((SECOND_ADDRESS, port)))?;
        }
        Ok(addresses)
    }
}

impl AnyMessage for SaidNetwork {
    ghost takes_any = { λ message. tt };
}

fn way_letter(by: Transport, is_second: bool) -> char {
    match by {
        Transport::Udp if is_second => 'U',
        Transport::Udp => 'u',
        Transport::Tcp if is_second => 'T',
        Transport::Tcp => 't',
    }
}

fn error_bytes(alloc: Global, code: u8) -> io::Result<Vec<u8>> {
    let Ok(mut error) = hex::decode(alloc, ERROR.as_bytes()) else {
        return Err(Error::from(ErrorKind::OutOfMemory));
    };
    if let Some(place) = error.get_mut(CODE) {
        *place = code;
    }
    Ok(error)
}
