//! The KDC's wire over sockets (RFC 4120, section 7.2): UDP sockets and TCP listeners, all served in one thread.
//!
//! ```
//! let wait = Duration::from_millis(100);
//! let mut wire = Sockets::bind(alloc, rt.clone()?, rt, &udp, &tcp, wait)?;
//! let served = serve(alloc, &mut wire, &mut hub, rounds); // of `kdc_hub`
//!
//! let errors = ReadyWriter::new(alloc, rt, rt.stderr())?;
//! let mut lines = SharedWriter::new(alloc, errors)?;
//! ```
//!
//! No contract can say what a socket receives or sends. It is proved that each call is safe, returns and counts its
//! errors. It is proved of the connections, whatever the sockets do:
//! - A new connection's number is not in use, and each end of a connection is reported once.
//! - At most 256 connections are open. For one more, the open one that has been idle longest ends.
//! - A search for idle connections ends those that have been idle for 30 seconds, one a call, and no other.
//! - An action changes its own connection and no other. A reply is kept behind the connection's unsent bytes until the
//!   socket takes it, in order and with no byte left out.
//! - A poll ends a connection that was given 256 replies or 262,144 bytes of them before anything is accepted or read.
//!   A connection that is read was given less, and its socket has taken all of that.
//! - No socket is twice in the queue of those that wait to be read.
//!
//! The rest is tested, on the loopback interface.
//!
//! A [`ReadyWriter`] is a stream of lines that never blocks the program. The reader of a pipe, a socket or a terminal
//! may stop reading; a write then blocks, and with it the whole program. So the writer first asks the system whether
//! the stream is ready, and returns `WouldBlock` instead of waiting. No contract can say what a system does with the
//! bytes. It is proved that each call is safe and returns; the rest is tested, over a pipe.
//!
//! It does not cut a stream into requests or answer them: `kdc_hub` does. A client's sockets are in `client_sockets`.
#![tactic(auto)]

mod bind_fault;
mod connection;
mod connections;
mod given;
mod ports;
mod readiness;
mod ready;
mod ready_writer;
mod shared_writer;
mod socket_turns;
mod sockets;

pub use bind_fault::{BindError, Endpoint};
pub use ready_writer::ReadyWriter;
pub use shared_writer::SharedWriter;
pub use sockets::Sockets;
