//! A log whose entries are counted.
ghost use Rattle.std.specs.Prelude.{◌≡◌, IfSome, map};
ghost use Rattle.kdc_metrics.specs.Counts.{AreCountsOf, CountsOne, asked_by};
ghost use Rattle.kdc_files.specs.Recorded.{IsNew};

use crate::counts::Counts;
use request_log::{Entry, LogWriter, MemoryLog, RequestLines};
use std::alloc::Global;
use std::io::Write;

/// The numbers of a log.
pub trait LogNumbers {
    /// Returns the counts of the entries, if they are counted.
    fn counts(&self) -> Option<&Counts>;

    /// Returns how many lines were lost.
    fn lost_lines(&self) -> u64;
}

/// A log, and the counts of the entries that were written to it, whether or not their lines were lost.
#[derive(Drop)]
pub struct CountedLog<L: LogWriter> {
    log: L,
    counts: Counts,
    // If the log keeps a record, the counts are those of its entries.
    // Promise, as Counts::count: **the counts are those ..
    ghost counted: { ∥ IfSome (L.logged log) (λ entries. AreCountsOf counts (map asked_by entries)) ∥₁ },
}

impl<L: LogWriter> CountedLog<L> {
    /// Returns a log that counts the entries that are written to `log` from now on.
    pub fn new(log: L) -> CountedLog<L>
        requires { IsNew (L.logged log) }
        ensures { result.log ≡ log }
    {
        CountedLog {
            log,
            counts: Counts::new(),
        }
    }

    /// Returns the log that the entries are written to.
    pub fn log(&self) -> &L
        ensures { result.now ≡ self.now.log }
    {
        &self.log
    }
}

impl<L: LogWriter> LogWriter for CountedLog<L> {
    ghost logged = { λ l. L.logged l.log };

    // The log takes the entry, and it is counted, and no other.
    ghost Logs = { λ old entry new. L.Logs old.log entry new.log × CountsOne old.counts (asked_by entry) new.counts };

    ghost records = { λ old entry new is. L.records old.log entry new.log is.0 };

    fn write_entry(&mut self, alloc: Global, entry: &Entry<'_>) {
        self.log.write_entry(alloc, entry);
        let transport = entry.asker.transport;
        self.counts.count(transport, entry.audit, entry.is_sent);
    }
}

impl<L: LogWriter + LogNumbers> LogNumbers for CountedLog<L> {
    fn counts(&self) -> Option<&Counts> {
        Some(&self.counts)
    }

    fn lost_lines(&self) -> u64 {
        self.log.lost_lines()
    }
}

impl<W: Write + Drop> LogNumbers for RequestLines<W> {
    fn counts(&self) -> Option<&Counts> {
        None
    }

    fn lost_lines(&self) -> u64 {
        self.lost()
    }
}

/// Without a log no lines are lost.
impl<L: LogNumbers> LogNumbers for Option<L> {
    fn counts(&self) -> Option<&Counts> {
        match self {
            Some(log) => log.counts(),
            None => None,
        }
    }

    fn lost_lines(&self) -> u64 {
        match self {
            Some(log) => log.lost_lines(),
            None => 0,
        }
    }
}

impl LogNumbers for MemoryLog {
    fn counts(&self) -> Option<&Counts> {
        None
    }

    fn lost_lines(&self) -> u64 {
        0
    }
}
