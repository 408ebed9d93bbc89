//! Watching for requests that are left unanswered because memory ran out.
ghost use Rattle.std.specs.Prelude.{◌≡◌, None, false};
ghost use Rattle.kdc_hub.specs.Wire.{polled};
ghost use Rattle.server_notices.specs.Unanswered as unanswered;

use crate::clock_watch::is_due;
use kdc_hub::{Action, CloseReason, Event, WireFault};
use krb_fields::Moment;
use std::io::Write;

/// A watch over a server's memory: how many requests were left unanswered because memory ran out, and when that was
/// said last. Counts stop at the greatest `u64`.
#[derive(Clone, Copy, Debug, PartialEq, Eq)]
pub struct MemoryWatch {
    /// Whether a datagram came, and has had no action yet.
    awaits: bool,
    /// How many requests were read and left unanswered.
    count: u64,
    /// How many unanswered requests were said, with those that were lost before they were read.
    reported: u64,
    said: Option<Moment>,
}

impl MemoryWatch {
    /// Returns the watch of a server that has had no event.
    pub fn new() -> MemoryWatch
        ensures { result ≡ record { awaits = false; count = 0; reported = 0; said = None } }
    {
        MemoryWatch {
            awaits: false,
            count: 0,
            reported: 0,
            said: None,
        }
    }

    /// Learns at this moment that the last event has had all its actions, whether the next one awaits an action, and
    /// how many requests were lost so far before they were read. Returns how many were left unanswered since it did so
    /// last, once a minute if there are any.
    fn take(&mut self, lost: u64, at: Moment, awaits: bool) -> Option<u64>
        ensures said { result ≡ unanswered.said_at self.old lost at }
        ensures watched { self.new ≡ unanswered.after_poll self.old lost at awaits }
    {
        self.settle(awaits);
        let total = self.count.saturating_add(lost);
        if total <= self.reported || !is_due(&self.said, at) {
            return None;
        }
        let count = total - self.reported;
        self.reported = total;
        self.said = Some(at);
        Some(count)
    }

    /// Counts the last event if it has had no action, and begins with the next one.
    fn settle(&mut self, awaits: bool)
        ensures { self.new ≡ unanswered.settled self.old awaits }
    {
        if self.awaits {
            self.count = self.count.saturating_add(1);
        }
        self.awaits = awaits;
    }

    /// Learns of an action.
    pub fn note(&mut self, action: &Action)
        ensures { self.new ≡ unanswered.after_act self.old action.now }
    {
        match action {
            Action::SendTo { .. } => self.awaits = false,
            Action::Pass { .. } => self.awaits = false,
            Action::Write { .. } => {}
            Action::Close { reason, .. } => self.count_close(reason),
        }
    }

    fn count_close(&mut self, reason: &CloseReason)
        ensures { self.new ≡ unanswered.after_close self.old reason.now }
    {
        match reason {
            CloseReason::OutOfMemory => self.count = self.count.saturating_add(1),
            CloseReason::NoRequest => {}
            CloseReason::BadLength => {}
            CloseReason::Full => {}
        }
    }
}

/// Checks whether an event has exactly one action, unless memory runs out.
fn awaits_action(event: &Event) -> bool
    ensures { result ≡ unanswered.awaits_action event.now }
{
    match event {
        Event::Datagram { .. } => true,
        Event::Opened { .. } => false,
        Event::Bytes { .. } => false,
        Event::Closed { .. } => false,
    }
}

/// Logs once a minute how many requests were left unanswered because memory ran out. This many were lost before they
/// were read.
pub fn watch_memory<E: Write>(
    memory: &mut MemoryWatch,
    errors: &mut E,
    lost: u64,
    outcome: &Result<(Moment, Option<Event>), WireFault>,
)
    ensures { memory.new ≡ unanswered.memory_after lost memory.old (polled outcome.now) }
{
    match outcome {
        Ok((at, Some(event))) => {
            let awaits = awaits_action(event);
            say_unanswered(errors, memory.take(lost, *at, awaits));
        }
        Ok((at, None)) => say_unanswered(errors, memory.take(lost, *at, false)),
        Err(_) => memory.settle(false),
    }
}

fn say_unanswered<E: Write>(errors: &mut E, count: Option<u64>) {
    if let Some(count) = count {
        let _ = writeln!(
            errors,
            "kdcd: memory ran out: {count} requests were left unanswered"
        );
    }
}
