//! A connection that is closed at its deadline, however slowly its peer sends.
ghost use Rattle.std.specs.Io.{ReadsAtMost, WritesAtMost};

use crate::deadline::{Deadline, no_reply};
use std::io;
use std::io::{ErrorKind, Read, Write};
use std::net::OpenStream;
use std::rt::Clock;

/// A connection, and its deadline.
#[derive(Drop)]
pub(crate) struct TimedStream<'a, S, C> {
    stream: S,
    clock: &'a C,
    deadline: Deadline,
}

impl<'a, S, C> TimedStream<'a, S, C> {
    pub(crate) fn new(stream: S, clock: &'a C, deadline: Deadline) -> TimedStream<'a, S, C> {
        TimedStream {
            stream,
            clock,
            deadline,
        }
    }
}

impl<'a, S: Read + OpenStream, C: Clock> Read for TimedStream<'a, S, C> {
    fn read(&mut self, buf: &mut [u8]) -> io::Result<usize> {
        let left = self.deadline.left(self.clock)?;
        self.stream.set_read_timeout(Some(left))?;
        match self.stream.read(buf) {
            Err(error) if error.kind() == ErrorKind::WouldBlock => Err(no_reply()),
            done => done,
        }
    }
}

impl<'a, S: Write + OpenStream, C: Clock> Write for TimedStream<'a, S, C> {
    fn write(&mut self, buf: &[u8]) -> io::Result<usize> {
        let left = self.deadline.left(self.clock)?;
        self.stream.set_write_timeout(Some(left))?;
        match self.stream.write(buf) {
            Err(error) if error.kind() == ErrorKind::WouldBlock => Err(no_reply()),
            done => done,
        }
    }

    fn flush(&mut self) -> io::Result<()> {
        self.stream.flush()
    }
}
