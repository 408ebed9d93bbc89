//! The time to wait for a reply.
use std::io::{Error, ErrorKind, Result};
use std::rt::Clock;
use std::time::{Duration, Instant};

/// Returns the error for no reply in time.
pub(crate) fn no_reply() -> Error {
    Error::new(ErrorKind::TimedOut, "no reply in time")
}

/// The moment when waiting ends.
#[derive(Clone, Copy)]
pub(crate) struct Deadline {
    begun: Instant,
    wait: Duration,
}

impl Deadline {
    /// Returns the deadline this many seconds from now.
    pub(crate) fn after(clock: &impl Clock, seconds: u64) -> Result<Deadline> {
        Ok(Deadline {
            begun: Instant::now(clock)?,
            wait: Duration::from_secs(seconds),
        })
    }

    /// Returns the deadline this many seconds from now, or this one if it is sooner. Fails if that has passed.
    pub(crate) fn sooner(&self, clock: &impl Clock, seconds: u64) -> Result<Deadline> {
        let left = self.left(clock)?;
        Ok(Deadline {
            begun: Instant::now(clock)?,
            wait: left.min(Duration::from_secs(seconds)),
        })
    }

    /// Returns how long it is until the deadline. Fails if that has passed.
    pub(crate) fn left(&self, clock: &impl Clock) -> Result<Duration> {
        let gone = Instant::now(clock)?.saturating_duration_since(self.begun);
        match self.wait.checked_sub(gone) {
            Some(left) if !left.is_zero() => Ok(left),
            _ => Err(no_reply()),
        }
    }
}
