//! A stream of lines that never blocks.
ghost use Rattle.std.specs.Prelude.{◌≤◌, IfOk, length};
ghost use Rattle.std.specs.Io.{WritesAtMost};

use crate::readiness::Readiness;
use std::alloc::Global;
use std::io;
use std::io::{ErrorKind, Write};
use std::net::Net;
use std::os::fd::AsFd;

/// The state of the last line that was written.
#[derive(Clone, Copy, PartialEq, Eq)]
enum LineState {
    /// It is complete, or nothing was written.
    Ended,
    Begun,
    /// Only its beginning was written, and the rest was refused.
    Cut,
}

/// A stream that is written to only if the write doesn't block. Otherwise the write fails with `WouldBlock` and the
/// line is lost, as after any other error of the stream. If the beginning of the lost line was written, the next line
/// starts on a line of its own.
#[derive(Drop)]
pub struct ReadyWriter<W> {
    stream: W,
    /// `None` for a stream that never blocks.
    readiness: Option<Readiness>,
    line: LineState,
}

impl<W: Write + AsFd + Drop> ReadyWriter<W> {
    /// Returns a stream to which nothing has been written. Fails if the system has no poll left, or memory runs out.
    pub fn new(alloc: Global, net: &impl Net, stream: W) -> io::Result<ReadyWriter<W>> {
        let readiness = Readiness::of(alloc, net, &stream)?;
        Ok(ReadyWriter {
            stream,
            readiness,
            line: LineState::Ended,
        })
    }
}

impl<W: Write> ReadyWriter<W> {
    /// Writes as many of these bytes as the stream takes at once. After an error, the rest of the current line is left
    /// out. That doesn't apply to a write that a signal interrupted, which the caller repeats.
    fn write_now(&mut self, octets: &[u8]) -> io::Result<usize>
        ensures bound { WritesAtMost result octets.now }
    {
        let written = self.write_piece(octets);
        if let Err(error) = &written {
            if error.kind() != ErrorKind::Interrupted {
                self.cut();
            }
        }
        written
    }

    fn write_piece(&mut self, octets: &[u8]) -> io::Result<usize>
        ensures bound { WritesAtMost result octets.now }
    {
        let piece = self.piece_of(octets)?;
        let written = self.stream.write(piece)?;
        self.line = match piece.get(..written).and_then(|written| written.last()) {
            Some(b'\n') => LineState::Ended,
            Some(_) => LineState::Begun,
            None => self.line,
        };
        Ok(written)
    }

    /// Returns the front of these bytes, as much as one write may take.
    fn piece_of<'a>(&mut self, octets: &'a [u8]) -> io::Result<&'a [u8]>
        ensures short { IfOk result (λ piece. length piece.now ≤ length octets.now) }
    {
        let Some(readiness) = &mut self.readiness else {
            return Ok(octets);
        };
        if readiness.is_ready()? {
            return Ok(readiness.piece_of(octets));
        }
        Err(io::Error::from(ErrorKind::WouldBlock))
    }

    fn cut(&mut self) {
        if self.line == LineState::Begun {
            self.line = LineState::Cut;
        }
    }
}

impl<W: Write> Write for ReadyWriter<W> {
    fn write(&mut self, octets: &[u8]) -> io::Result<usize> {
        if self.line == LineState::Cut {
            self.write_now(b"\n")?;
        }
        self.write_now(octets)
    }

    fn flush(&mut self) -> io::Result<()> {
        self.stream.flush()
    }
}
