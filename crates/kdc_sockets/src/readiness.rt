//! Whether a descriptor can be written to without blocking, and how many bytes.
ghost use Rattle.std.specs.Prelude.{◌≤◌, length};

use mio::unix::SourceFd;
use mio::{Events, Interest, Poll, Token};
use std::alloc::Global;
use std::io;
use std::io::IsTerminal;
use std::net::Net;
use std::os::fd::{AsFd, AsRawFd, RawFd};
use std::time::Duration;

/// The poll's token for its one descriptor.
const TOKEN: Token = Token(0);

/// The maximum number of bytes per write. A pipe that is ready has room for at least 4,096, a terminal for at least
/// 256.
const PIECE: usize = 256;

/// A descriptor, and the poll that reports whether it is ready.
#[derive(Drop)]
pub struct Readiness {
    descriptor: RawFd,
    is_terminal: bool,
    poll: Poll,
    events: Events,
}

impl Readiness {
    /// Returns the readiness of a stream, or `None` if the system can't poll it. A file is an example: writes to it end
    /// or fail at once.
    pub fn of(alloc: Global, net: &impl Net, stream: &impl AsFd) -> io::Result<Option<Readiness>> {
        let descriptor = stream.as_fd().as_raw_fd();
        let is_terminal = stream.as_fd().is_terminal();
        let poll = Poll::new(net)?;
        let events = Events::with_capacity(alloc, 1)?;
        let mut source = SourceFd(&descriptor);
        let registry = poll.registry();
        if registry
            .register(&mut source, TOKEN, Interest::WRITABLE)
            .is_err()
        {
            return Ok(None);
        }
        Ok(Some(Readiness {
            descriptor,
            is_terminal,
            poll,
            events,
        }))
    }

    /// Checks whether a write would return at once: there is room, or an error to report.
    pub fn is_ready(&mut self) -> io::Result<bool> {
        // A poll reports only changes since the descriptor was registered, so it is registered again.
        let mut source = SourceFd(&self.descriptor);
        self.poll
            .registry()
            .reregister(&mut source, TOKEN, Interest::WRITABLE)?;
        self.poll.poll(&mut self.events, Some(Duration::ZERO))?;
        Ok(!self.events.is_empty())
    }

    /// Returns the front of these bytes, as much as one write to a ready stream takes.
    pub fn piece_of<'a>(&self, octets: &'a [u8]) -> &'a [u8]
        ensures short { length result.now ≤ length octets.now }
    {
        let piece = octets.get(..PIECE).unwrap_or(octets);
        if self.is_terminal {
            up_to_line_feed(piece)
        } else {
            piece
        }
    }
}

/// Returns the bytes before the first line feed, or a leading line feed alone. A terminal turns a line feed into two
/// bytes, so it needs to be ready again for it.
fn up_to_line_feed(octets: &[u8]) -> &[u8]
    ensures short { length result.now ≤ length octets.now }
{
    match octets.iter().position(|octet| *octet == b'\n') {
        Some(0) => octets.get(..1).unwrap_or(octets),
        Some(place) => octets.get(..place).unwrap_or(octets),
        None => octets,
    }
}
