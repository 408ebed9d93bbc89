//! The rows of a realm from a file, which may be replaced while they are served.
ghost use Rattle.std.specs.Prelude.{None, false};

use crate::files::{ServerFileError, read_whole};
use crate::key_files::{KeyFile, say_rights};
use file_store::{FileStamp, now, open_plain};
use kdc_hub::{Look, OtherRealm, RowSource, RowsState};
use principals::Database;
use principals_text::read_bytes;
use std::alloc::Global;
use std::fs::OpenFile;
use std::io::Write;
use std::rt::{Clock, Files};
use std::time::Instant;
use std::{fmt, fs, io};

/// How many seconds after a read that failed the file is read again.
const BETWEEN_READS: u64 = 5;

/// The outcome of the file's last change.
#[derive(Drop)]
enum News {
    /// Its rows are served: this many.
    Taken(usize),
    /// It can't be read, or is refused.
    Faulty(ServerFileError),
    OtherRealm,
}

/// The file of a database, which logs its changes and faults. It keeps no record.
#[derive(Drop)]
pub struct RowsFile<'a, F, W> {
    files: &'a F,
    path: &'a str,
    /// Takes the log lines.
    lines: W,
    /// The file at the last look, if there was one.
    seen: Option<FileStamp>,
    /// When the system failed to read the file, if it did.
    failed_at: Option<Instant>,
    /// The number of rows that the last look found.
    row_count: usize,
    /// What could not be logged yet.
    unsaid: Option<News>,
    state: RowsState,
}

impl<'a, F: Files + Clock, W: Write + Drop> RowsFile<'a, F, W> {
    /// Looks at the file at a path, before it is read: so no change is missed.
    pub fn new(files: &'a F, path: &'a str, lines: W) -> RowsFile<'a, F, W> {
        let seen = match fs::metadata(files, path) {
            Ok(metadata) => Some(FileStamp::of(&metadata)),
            Err(_) => None,
        };
        RowsFile {
            files,
            path,
            lines,
            seen,
            failed_at: None,
            row_count: 0,
            unsaid: None,
            state: RowsState::first(),
        }
    }

    /// Reads the rows of the file. Logs if others have rights on it.
    pub fn read(&mut self, alloc: Global) -> Result<Database, ServerFileError> {
        let file = open_plain(self.files, self.path)?;
        let there = file.metadata()?;
        let octets = read_whole(alloc, file)?;
        match read_bytes(alloc, &octets) {
            Ok(database) => {
                let file = KeyFile {
                    what: "database",
                    path: self.path,
                    metadata: &there,
                };
                say_rights(self.files, &mut self.lines, file);
                Ok(database)
            }
            Err(fault) => Err(ServerFileError::Database(fault)),
        }
    }

    /// Logs where the file is wrong, if that was found.
    pub fn say_place(&mut self, fault: &ServerFileError) {
        if let Some(place) = fault.place() {
            let _ = writeln!(self.lines, "kdcd: {}: {place}", self.path);
        }
    }

    /// Reads the rows if the file changed since the last look, or could not be read then.
    fn changed_rows(&mut self, alloc: Global) -> Result<Option<Database>, ServerFileError> {
        let seen = self.seen.take();
        let metadata = match fs::metadata(self.files, self.path) {
            Ok(metadata) => metadata,
            // That there is no file is logged once.
            Err(_) if seen.is_none() => return Ok(None),
            Err(error) => return Err(ServerFileError::from(error)),
        };
        let stamp = FileStamp::of(&metadata);
        self.seen = Some(stamp);
        if seen == Some(stamp) {
            return self.retried_rows(alloc);
        }
        self.failed_at = None;
        Ok(Some(self.read_or_note(alloc)?))
    }

    /// Reads the rows again, some seconds after the system failed to. Another such failure is not logged.
    fn retried_rows(&mut self, alloc: Global) -> Result<Option<Database>, ServerFileError> {
        if !self.is_retry_due() {
            return Ok(None);
        }
        match self.read_or_note(alloc) {
            Ok(database) => Ok(Some(database)),
            Err(fault) if is_of_system(&fault) => Ok(None),
            Err(fault) => Err(fault),
        }
    }

    fn is_retry_due(&self) -> bool {
        let Some(failed_at) = self.failed_at else {
            return false;
        };
        match failed_at.elapsed(self.files) {
            Ok(passed) => passed.as_secs() >= BETWEEN_READS,
            Err(_) => false,
        }
    }

    /// Reads the rows, and notes when the system fails to.
    fn read_or_note(&mut self, alloc: Global) -> Result<Database, ServerFileError> {
        let read = self.read(alloc);
        self.failed_at = match &read {
            Err(fault) if is_of_system(fault) => Instant::now(self.files).ok(),
            _ => None,
        };
        read
    }

    /// Logs this, in place of what could not be logged yet.
    fn log(&mut self, news: News) {
        self.state = state_after(self.files, self.state, &news);
        self.unsaid = Some(news);
        self.say();
    }

    /// Logs what is still to be logged. A lost line comes again at the next look.
    fn say(&mut self) {
        if let Some(news) = self.unsaid.take() {
            if write_news(&mut self.lines, self.path, &news).is_err() {
                self.unsaid = Some(news);
            }
        }
    }
}

impl<F: Files + Clock, W: Write + Drop> RowSource for RowsFile<'_, F, W> {
    ghost recorded = { λ _. None };

    ghost is_fixed = { λ _. false };

    fn look(&mut self, alloc: Global) -> Look {
        self.say();
        match self.changed_rows(alloc) {
            Ok(Some(database)) => {
                self.row_count = database.len();
                Look::Changed(database)
            }
            Ok(None) => Look::Unchanged,
            Err(fault) => {
                self.log(News::Faulty(fault));
                Look::Failed
            }
        }
    }

    fn report(&mut self, taken: Result<(), OtherRealm>) {
        let news = match taken {
            Ok(()) => News::Taken(self.row_count),
            Err(OtherRealm) => News::OtherRealm,
        };
        self.log(news);
    }

    fn state(&self) -> RowsState {
        self.state
    }
}

/// Returns what is known of the served rows after the file's last change.
fn state_after(clock: &impl Clock, state: RowsState, news: &News) -> RowsState {
    match news {
        News::Taken(_) => RowsState {
            taken_at: second_at(clock),
            is_behind: false,
        },
        News::Faulty(_) | News::OtherRealm => RowsState {
            taken_at: state.taken_at,
            is_behind: true,
        },
    }
}

/// Returns the second that the clock shows, if it shows one.
fn second_at(clock: &impl Clock) -> Option<i64> {
    match now(clock) {
        Ok(at) => Some(at.sec),
        Err(_) => None,
    }
}

/// Checks whether the system failed, and the file itself may be good.
fn is_of_system(fault: &ServerFileError) -> bool {
    fault.refusal().is_none()
}

fn write_news(lines: &mut impl Write, path: &str, news: &News) -> io::Result<()> {
    match news {
        News::Taken(rows) => writeln!(lines, "kdcd: database {path} with {rows} rows"),
        News::Faulty(fault) => match (fault.refusal(), fault.place()) {
            (Some(word), Some(place)) => write_kept(lines, &format_args!("{word} ({place})")),
            (Some(word), None) => write_kept(lines, &word),
            (None, _) => write_kept(lines, fault),
        },
        News::OtherRealm => write_kept(lines, &"OtherRealm"),
    }
}

/// Writes why the old rows stay.
fn write_kept(lines: &mut impl Write, why: &impl fmt::Display) -> io::Result<()> {
    writeln!(lines, "kdcd: database: {why}; the rows before it stay")
}
