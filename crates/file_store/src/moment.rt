//! The current moment of a clock.
use krb_fields::Moment;
use std::io::{Error, ErrorKind, Result};
use std::rt::Clock;
use std::time::{Duration, SystemTime, UNIX_EPOCH};

/// Returns the current moment. A clock before 1970 or after the year 9999 is an error.
pub fn now(clock: &impl Clock) -> Result<Moment> {
    let since = since_1970(clock)?;
    let Ok(sec) = i64::try_from(since.as_secs()) else {
        return Err(past_9999());
    };
    match Moment::new(sec, since.subsec_micros()) {
        Some(at) => Ok(at),
        None => Err(past_9999()),
    }
}

/// Returns the whole seconds since the start of 1970. A clock before that is an error.
pub(crate) fn seconds_since_1970(clock: &impl Clock) -> Result<u64> {
    Ok(since_1970(clock)?.as_secs())
}

fn since_1970(clock: &impl Clock) -> Result<Duration> {
    match SystemTime::now(clock)?.duration_since(UNIX_EPOCH) {
        Ok(since) => Ok(since),
        Err(_) => Err(Error::new(ErrorKind::InvalidData, "a time before 1970")),
    }
}

fn past_9999() -> Error {
    Error::new(ErrorKind::InvalidData, "a time after the year 9999")
}
