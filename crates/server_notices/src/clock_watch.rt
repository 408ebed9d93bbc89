//! Watching a clock that may go back.
ghost use Rattle.std.specs.Prelude.{◌≡◌, None};
ghost use Rattle.kdc_hub.specs.Wire.{polled};
ghost use Rattle.server_notices.specs.Clocks as clocks;

use kdc_hub::{Event, WireFault, due_at};
use krb_fields::{Moment, SKEW, Second};
use std::fmt;
use std::io::Write;
use text_fields::UtcDate;

/// The seconds of a day.
const DAY: i64 = 86_400;

/// In seconds.
const MINUTE: i64 = 60;

/// The TGS-REQs that are refused because the clock shows an earlier time than before.
#[derive(Clone, Copy, Debug, PartialEq, Eq)]
pub enum Refused {
    /// All of them, until this second.
    All(i64),
    /// Those of clients that were served at a later time, until this second.
    ServedLater(i64),
}

impl fmt::Display for Refused {
    fn fmt<W: fmt::Write>(&self, f: &mut fmt::Formatter<W>) -> fmt::Result {
        let (whose, until) = match self {
            Refused::All(until) => ("all TGS-REQs", *until),
            Refused::ServedLater(until) => {
                (
                    "TGS-REQs of clients that were served at a later time",
                    *until,
                )
            }
        };
        write!(f, "{whose} are refused")?;
        match Second::new(until) {
            Some(second) => write!(f, " until {}", UtcDate(second)),
            None => Ok(()),
        }
    }
}

/// Returns which requests are refused right after a start with this floor at this moment. A floor before that moment
/// refuses only what is too old.
pub fn refused_at_start(floor: i64, at: Moment) -> Option<Refused>
    // Promise, as ClockWatch::take: what is logged of ..
    ensures { result ≡ clocks.refused_at_start floor at.sec }
{
    if at.sec < floor {
        Some(Refused::All(floor))
    } else {
        None
    }
}

/// A watch over a server's clock: when requests are refused because it went back, and when that was said last.
#[derive(Clone, Copy, Debug, PartialEq, Eq)]
pub struct ClockWatch {
    /// The floor of the server's start.
    floor: i64,
    /// The latest moment that the clock showed.
    latest: Option<Moment>,
    /// When it was last said that requests are refused, while they are.
    said: Option<Moment>,
}

impl ClockWatch {
    /// Returns the watch of a server that starts with this floor.
    pub fn new(floor: i64) -> ClockWatch
        ensures { result ≡ record { floor = floor; latest = None; said = None } }
    {
        ClockWatch {
            floor,
            latest: None,
            said: None,
        }
    }

    /// Takes the moment of an event. Returns which requests are refused, once a minute while they are.
    pub fn take(&mut self, now: Moment) -> Option<Refused>
        // Promise (said, watched): what is logged of a clock that went back: which requests are refused and until when,
        // at once and then once a minute.
        ensures said { result ≡ clocks.said_at self.old now }
        ensures watched { self.new ≡ clocks.watched self.old now }
    {
        let refused = self.refused(now);
        let is_due = is_due(&self.said, now);
        self.latest = Some(later(&self.latest, now));
        if refused.is_none() {
            self.said = None;
            return None;
        }
        if !is_due {
            return None;
        }
        self.said = Some(now);
        refused
    }

    /// Returns which requests are refused because the clock showed a later time before.
    fn refused(&self, now: Moment) -> Option<Refused>
        ensures { result ≡ clocks.refused_at self.now now.sec }
    {
        if let Some(until) = until_start(self.floor, now) {
            return Some(Refused::All(until));
        }
        if let Some(until) = until_tidied(&self.latest, now) {
            return Some(Refused::All(until));
        }
        match until_served(&self.latest, now) {
            Some(until) => Some(Refused::ServedLater(until)),
            None => None,
        }
    }
}

/// Returns until when all are refused after a start, if the clock shows an earlier time than the skew before it.
fn until_start(floor: i64, now: Moment) -> Option<i64>
    ensures { result ≡ clocks.until_start floor now.sec }
{
    if now.sec + 2 * SKEW + 1 < floor {
        Some(floor)
    } else {
        None
    }
}

/// Returns the second up to which a tidying at the latest moment drops, if the clock shows an earlier one.
fn until_tidied(latest: &Option<Moment>, now: Moment) -> Option<i64>
    ensures { result ≡ clocks.until_tidied latest.now now.sec }
{
    match latest {
        None => None,
        Some(latest) => {
            if now.sec < latest.sec - DAY {
                Some(latest.sec - DAY)
            } else {
                None
            }
        }
    }
}

/// Returns until when clients are refused that were served at the latest moment, if the clock shows an earlier second.
fn until_served(latest: &Option<Moment>, now: Moment) -> Option<i64>
    ensures { result ≡ clocks.until_served latest.now now.sec }
{
    match latest {
        None => None,
        Some(latest) => {
            if now.sec < latest.sec - SKEW {
                Some(latest.sec - SKEW)
            } else {
                None
            }
        }
    }
}

/// Checks whether it has to be said again that requests are refused.
pub(crate) fn is_due(said: &Option<Moment>, now: Moment) -> bool
    ensures { result ≡ clocks.is_due said.now now }
{
    due_at(MINUTE, said, &Some(now)).is_some()
}

fn later(latest: &Option<Moment>, now: Moment) -> Moment
    ensures { result ≡ clocks.later latest.now now }
{
    match latest {
        None => now,
        Some(latest) => { if latest.sec < now.sec { now } else { *latest } }
    }
}

/// Writes once a minute which requests are refused, while the clock shows an earlier time than before. A lost line
/// comes again in a minute.
pub fn watch_clock<E: Write>(
    clock: &mut ClockWatch,
    errors: &mut E,
    outcome: &Result<(Moment, Option<Event>), WireFault>,
)
    ensures { clock.new ≡ clocks.clock_after clock.old (polled outcome.now) }
{
    match outcome {
        Ok((at, Some(_))) => say_refused(errors, clock.take(*at)),
        Ok((at, None)) => say_refused(errors, clock.take(*at)),
        Err(_) => {}
    }
}

fn say_refused<E: Write>(errors: &mut E, refused: Option<Refused>) {
    if let Some(refused) = refused {
        let _ = writeln!(errors, "kdcd: the clock went back: {refused}");
    }
}
