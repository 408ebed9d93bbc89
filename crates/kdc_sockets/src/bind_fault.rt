//! Why sockets could not be opened.
use std::alloc::{AllocError, AllocFailed};
use std::error::Error;
use std::net::SocketAddr;
use std::{fmt, io};

/// Why sockets could not be opened.
#[derive(Debug, Drop)]
pub struct BindError {
    /// The socket that failed. `None` if the poll for all sockets failed, or memory ran out.
    pub socket: Option<Endpoint>,
    /// The system's error, or that memory ran out.
    pub error: io::Error,
}

/// A socket of a server, by its transport (RFC 4120, section 7.2) and its address.
#[derive(Clone, Copy, Debug)]
pub enum Endpoint {
    /// A UDP socket.
    Udp(SocketAddr),
    /// A TCP listener.
    Tcp(SocketAddr),
}

impl fmt::Display for Endpoint {
    fn fmt<W: fmt::Write>(&self, f: &mut fmt::Formatter<W>) -> fmt::Result {
        match self {
            Endpoint::Udp(address) => write!(f, "udp {address}"),
            Endpoint::Tcp(address) => write!(f, "tcp {address}"),
        }
    }
}

impl fmt::Display for BindError {
    fn fmt<W: fmt::Write>(&self, f: &mut fmt::Formatter<W>) -> fmt::Result {
        if let Some(socket) = &self.socket {
            write!(f, "{socket}: ")?;
        }
        write!(f, "{}", self.error)
    }
}

impl Error for BindError {}

impl From<io::Error> for BindError {
    fn from(error: io::Error) -> BindError {
        BindError {
            socket: None,
            error,
        }
    }
}

impl From<AllocError> for BindError {
    fn from(error: AllocError) -> BindError {
        BindError::from(io::Error::from(error))
    }
}

impl<T: Drop> From<AllocFailed<T>> for BindError {
    fn from(error: AllocFailed<T>) -> BindError {
        BindError::from(AllocError::from(error))
    }
}
