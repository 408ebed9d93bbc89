//! The standard streams that a program was started without.
use crate::given::GivenError;
use file_store::PathError;
use std::fs::{File, OpenOptions};
use std::io;
use std::os::fd::{AsRawFd, IntoRawFd};
use std::rt::Files;

/// The device that has no bytes, and drops those that are written.
const NULL: &str = "/dev/null";

/// How many standard streams there are. Their descriptors are the numbers below.
const STREAMS: i32 = 3;

/// Opens the null device for each standard stream that the program was started without, until the program ends. The
/// system gives a new file the lowest free descriptor. Without this, a file that the program opens would be its
/// standard output, and what it prints would be written into that file. `main` calls this first.
pub fn open_missing_streams<F: Files<File = File>>(files: &F) -> Result<(), GivenError> {
    match fill_streams(files) {
        Ok(()) => Ok(()),
        Err(error) => Err(GivenError::streams(PathError::failed(NULL, error))),
    }
}

fn fill_streams<F: Files<File = File>>(files: &F) -> io::Result<()> {
    for _ in 0..STREAMS {
        let null = open_null(files)?;
        if null.as_raw_fd() >= STREAMS {
            // no number below is free; this file is closed again
            return Ok(());
        }
        let _stays_open = null.into_raw_fd();
    }
    Ok(())
}

fn open_null<F: Files<File = File>>(files: &F) -> io::Result<File> {
    let mut how = OpenOptions::new();
    how.read(true).write(true);
    how.open(files, NULL)
}
