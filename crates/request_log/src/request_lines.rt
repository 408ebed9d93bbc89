//! The lines of a server's log.
ghost use Rattle.std.specs.Prelude.{◌≡◌, None, IfOk, OnOk};
ghost use Rattle.std.specs.Io.KnownBytes.{Appends};
ghost use Rattle.request_log.specs.Log.{LogsLine, TriesLine, TriesLost, entry_line};

use crate::entries::Entry;
use crate::json_lines::json_line;
use crate::logging::LogWriter;
use crate::text_lines::text_line;
use std::alloc::{AllocError, Global};
use std::io;
use std::io::Write;

/// The format of the lines of a log.
#[derive(Clone, Copy, Debug, PartialEq, Eq)]
pub enum LogFormat {
    /// Fields with a space between two of them.
    Text,
    /// One JSON object each.
    Json,
}

/// A log with a line for each request. A line that can't be made or written is lost and counted. The next one that is
/// written has a line in front of it that says how many were lost.
#[derive(Drop)]
pub struct RequestLines<W> {
    lines: W,
    format: LogFormat,
    lost: u64,
    /// How many of these no line has reported yet.
    unreported: u64,
}

impl<W: Write + Drop> RequestLines<W> {
    /// Returns a log that writes to `lines` in this format, and has lost no line.
    pub fn new(lines: W, format: LogFormat) -> RequestLines<W> {
        RequestLines {
            lines,
            format,
            lost: 0,
            unreported: 0,
        }
    }

    /// Returns the writer of the lines.
    pub fn lines(&self) -> &W {
        &self.lines
    }

    /// Returns how many lines were lost. The count stops at the greatest `u64`.
    pub fn lost(&self) -> u64 {
        self.lost
    }

    /// Returns how many lost lines no line has reported yet.
    pub fn unreported(&self) -> u64 {
        self.unreported
    }
}

impl<W: Write> RequestLines<W> {
    /// Writes the line of an entry, and in front of it how many lines were lost, if any were.
    fn try_entry(&mut self, alloc: Global, entry: &Entry<'_>) -> io::Result<()>
        ensures { TriesLine W.contents self.old self.new (entry_line self.old.format entry.now) result }
    {
        let line = entry_line(alloc, self.format, entry)?;
        self.report_lost()?;
        self.write_line(&line)
    }

    /// Writes how many lines were lost since the last report, if any were.
    fn report_lost(&mut self) -> io::Result<()>
        ensures { TriesLost W.contents self.old self.new result }
    {
        if self.unreported == 0 {
            return Ok(());
        }
        writeln!(self.lines, "kdcd: log: {} lines are lost", self.unreported)?;
        self.unreported = 0;
        Ok(())
    }

    fn write_line(&mut self, line: &[u8]) -> io::Result<()>
        ensures lines { OnOk result (Appends (W.contents self.old.lines) (W.contents self.new.lines) line.now) }
        ensures others { self.new ≡ record self.old { lines = self.new.lines } }
    {
        self.lines.write_all(line)
    }
}

impl<W: Write> LogWriter for RequestLines<W> {
    ghost logged = { λ _. None };

    ghost Logs = { LogsLine W.contents };

    ghost records = { λ _ _ _ _. tt };

    fn write_entry(&mut self, alloc: Global, entry: &Entry<'_>) {
        if self.try_entry(alloc, entry).is_err() {
            self.lost = self.lost.saturating_add(1);
            self.unreported = self.unreported.saturating_add(1);
        }
    }
}

/// Returns the line of an entry.
fn entry_line(alloc: Global, format: LogFormat, entry: &Entry<'_>) -> Result<Vec<u8>, AllocError>
    // Promise, as LogWriter::write_entry: **an entry becomes its ..
    ensures { IfOk result (λ line. line.items ≡ entry_line format entry.now) }
{
    match format {
        LogFormat::Text => text_line(alloc, entry),
        LogFormat::Json => json_line(alloc, entry),
    }
}
