//! A stream of lines with several writers.
use crate::ready_writer::ReadyWriter;
use std::alloc::{AllocError, Global};
use std::cell::RefCell;
use std::io;
use std::io::{ErrorKind, Write};
use std::rc::Rc;

/// A [`ReadyWriter`] with several owners. After a cut line of one owner, a line of another starts on a line of its own.
#[derive(Drop)]
pub struct SharedWriter<W> {
    writer: Rc<RefCell<ReadyWriter<W>>>,
}

impl<W: Drop> SharedWriter<W> {
    /// Returns the first handle to the stream of this writer.
    pub fn new(alloc: Global, writer: ReadyWriter<W>) -> Result<SharedWriter<W>, AllocError> {
        Ok(SharedWriter {
            writer: Rc::new(alloc, RefCell::new(writer))?,
        })
    }

    /// Returns another handle to the same stream.
    pub fn share(&self) -> Result<SharedWriter<W>, AllocError> {
        Ok(SharedWriter {
            writer: self.writer.clone()?,
        })
    }
}

impl<W: Write> Write for SharedWriter<W> {
    fn write(&mut self, octets: &[u8]) -> io::Result<usize> {
        match self.writer.try_borrow_mut() {
            Ok(mut writer) => writer.write(octets),
            // Another owner is writing.
            Err(_) => Err(io::Error::from(ErrorKind::WouldBlock)),
        }
    }

    fn flush(&mut self) -> io::Result<()> {
        match self.writer.try_borrow_mut() {
            Ok(mut writer) => writer.flush(),
            Err(_) => Err(io::Error::from(ErrorKind::WouldBlock)),
        }
    }
}
