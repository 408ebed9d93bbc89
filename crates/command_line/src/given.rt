//! Why a program can't run the command line that it is given.
use crate::shell::report_failure;
use crate::status::Status;
use file_store::{CLOCK, PathError};
use std::alloc::AllocError;
use std::{fmt, io};

/// The standard stream on which a program says what is wrong with its command line.
#[derive(Clone, Copy)]
pub enum UsageStream {
    /// Standard output.
    Output,
    /// Standard error.
    Errors,
}

impl UsageStream {
    fn print(self, rt: &HostRuntime, why: &str) -> io::Result<()> {
        match self {
            UsageStream::Output => println!(rt; "error: {why}"),
            UsageStream::Errors => eprintln!(rt; "error: {why}"),
        }
    }
}

/// Why a program can't run the command line that it is given.
#[derive(Debug, Drop)]
pub struct GivenError(Why);

#[derive(Debug, Drop)]
enum Why {
    /// The null device can't be opened in place of a standard stream.
    Streams(PathError<'static>),
    /// The words of the command line can't be read.
    Words(io::Error),
    /// The clock can't be read, or shows no moment of the years 1970 to 9999.
    Clock(io::Error),
    /// A word, or a variable of the environment, is not UTF-8. The text says which.
    NotUtf8(&'static str),
    /// Memory ran out.
    Memory,
}

impl GivenError {
    /// The null device can't be opened in place of a standard stream.
    pub fn streams(fault: PathError<'static>) -> GivenError {
        GivenError(Why::Streams(fault))
    }

    /// The words of the command line can't be read.
    pub fn words(error: io::Error) -> GivenError {
        GivenError(Why::Words(error))
    }

    /// The clock can't be read, or shows no moment of the years 1970 to 9999.
    pub fn clock(error: io::Error) -> GivenError {
        GivenError(Why::Clock(error))
    }

    /// What the program is given is not UTF-8. The text says what.
    pub fn not_utf8(what: &'static str) -> GivenError {
        GivenError(Why::NotUtf8(what))
    }

    /// Reports the error as the program's, and returns the status with which it ends. If the report can't be written,
    /// there is nowhere to say so.
    pub fn report(&self, rt: &HostRuntime, program: &str, stream: UsageStream) -> Status {
        match self.0 {
            Why::NotUtf8(what) => {
                let _ = stream.print(rt, what);
                Status::Usage
            }
            _ => report_failure(rt, program, self),
        }
    }
}

impl fmt::Display for GivenError {
    fn fmt<W: fmt::Write>(&self, f: &mut fmt::Formatter<W>) -> fmt::Result {
        match &self.0 {
            Why::Streams(fault) => write!(f, "{fault}"),
            Why::Words(error) => write!(f, "cannot read the command line: {error}"),
            Why::Clock(error) => write!(f, "{CLOCK}: {error}"),
            Why::NotUtf8(what) => f.write_str(what),
            Why::Memory => f.write_str("out of memory"),
        }
    }
}

impl From<AllocError> for GivenError {
    fn from(_: AllocError) -> GivenError {
        GivenError(Why::Memory)
    }
}
