//! The file of a server's numbers.
use crate::metrics::MetricsWriter;
use file_store::{LOCK_END, open_plain};
use kdc_files::JournalPaths;
use std::alloc::{AllocError, Global};
use std::fs::{File, OpenFile, OpenOptions, Permissions};
use std::io::{Error, ErrorKind, Read, Write};
use std::os::unix::fs::PermissionsExt;
use std::rt::Files;
use std::{fs, io};

/// What a text of numbers begins with. Only a file that begins so is replaced.
const HEAD: &[u8; 17] = b"# HELP kdcd_info ";

/// What follows the path of a database in the names of its files. The last one is that of a new database, until it is
/// renamed.
const DATABASE_ENDS: &[&str] = &["", LOCK_END, ".new"];

/// What follows the path of a journal in the names of its files.
const JOURNAL_ENDS: &[&str] = &["", ".old", ".new", LOCK_END, ".sealed"];

/// Everybody may read the numbers: what collects them runs as another user.
const READABLE: u32 = 0o644;

/// The paths for a file of numbers.
#[derive(Clone, Copy)]
pub struct MetricsPaths<'a> {
    /// The path of that file.
    pub numbers: &'a str,
    /// The path of the database.
    pub db: &'a str,
    /// The path of the journal whose length is one of the numbers. `None` if there is no journal.
    pub journal: Option<&'a str>,
}

/// A file of numbers. Each text is written to a file beside it, which is then renamed: so no reader sees half a text.
#[derive(Drop)]
pub struct MetricsFile<'a, F, W> {
    files: &'a F,
    path: &'a str,
    /// The path of the new file, until it is renamed.
    beside: String,
    /// The paths of the journal's files, if there is one.
    journal: Option<JournalPaths>,
    /// Whether a file of the database or of the journal has one of the two paths, or would have it.
    is_taken: bool,
    /// Where faults are logged.
    lines: W,
    /// Whether the last fault was logged, and no text was written since.
    is_said: bool,
}

impl<'a, F: Files<File = File>, W: Write + Drop> MetricsFile<'a, F, W> {
    /// Returns the file at its path. It is written only later.
    pub fn new(
        alloc: Global,
        files: &'a F,
        paths: MetricsPaths<'a>,
        lines: W,
    ) -> Result<MetricsFile<'a, F, W>, AllocError> {
        let path = paths.numbers;
        let beside = format!(in alloc; "{path}.new")?;
        let is_taken = is_taken(path, &paths) || is_taken(beside.as_str(), &paths);
        Ok(MetricsFile {
            files,
            path,
            beside,
            journal: journal_paths(alloc, paths.journal)?,
            is_taken,
            lines,
            is_said: false,
        })
    }

    fn replace(&self, text: &[u8]) -> io::Result<()> {
        if self.is_taken {
            return Err(Error::new(
                ErrorKind::InvalidInput,
                "this is the name of a file of the database or of the journal",
            ));
        }
        require_numbers(self.files, self.path)?;
        let beside = self.beside.as_str();
        remove_numbers(self.files, beside)?;
        let mut how = OpenOptions::new();
        how.write(true).create_new(true);
        let mut file = how.open(self.files, beside)?;
        file.set_permissions(Permissions::from_mode(READABLE))?;
        file.write_all(text)?;
        fs::rename(self.files, beside, self.path)
    }
}

impl<F: Files<File = File>, W: Write + Drop> MetricsWriter for MetricsFile<'_, F, W> {
    fn write_metrics(&mut self, text: &[u8]) {
        let path = self.path;
        match self.replace(text) {
            Ok(()) if self.is_said => {
                let _ = writeln!(self.lines, "kdcd: metrics {path}: it can be written again");
                self.is_said = false;
            }
            Ok(()) => {}
            Err(_) if self.is_said => {}
            Err(error) => {
                self.is_said = writeln!(self.lines, "kdcd: metrics {path}: {error}").is_ok();
            }
        }
    }

    fn journal_bytes(&self) -> u64 {
        match &self.journal {
            Some(paths) => paths.len_of_entries(self.files),
            None => 0,
        }
    }
}

fn journal_paths(alloc: Global, journal: Option<&str>) -> Result<Option<JournalPaths>, AllocError> {
    match journal {
        Some(path) => Ok(Some(JournalPaths::new(alloc, path)?)),
        None => Ok(None),
    }
}

/// Checks whether a path is that of a file of the database or of the journal.
fn is_taken(path: &str, paths: &MetricsPaths<'_>) -> bool {
    if is_named_after(path, paths.db, DATABASE_ENDS) {
        return true;
    }
    match paths.journal {
        Some(journal) => is_named_after(path, journal, JOURNAL_ENDS),
        None => false,
    }
}

/// Checks whether a path is another one with one of these ends.
fn is_named_after(path: &str, other: &str, ends: &[&str]) -> bool {
    match path.strip_prefix(other) {
        Some(end) => ends.contains(&end),
        None => false,
    }
}

/// Removes the file at a path, if it has numbers.
fn remove_numbers<F: Files>(files: &F, path: &str) -> io::Result<()> {
    require_numbers(files, path)?;
    match fs::remove_file(files, path) {
        Err(error) if error.kind() == ErrorKind::NotFound => Ok(()),
        done => done,
    }
}

/// Refuses a path at which there is something else than numbers: it may be a database.
fn require_numbers<F: Files>(files: &F, path: &str) -> io::Result<()> {
    let file = match open_plain(files, path) {
        Ok(file) => file,
        Err(error) if error.kind() == ErrorKind::NotFound => return Ok(()),
        Err(error) => return Err(error),
    };
    if has_numbers(file)? {
        return Ok(());
    }
    Err(Error::new(
        ErrorKind::InvalidData,
        "the file there has no numbers, and stays as it is",
    ))
}

/// Checks whether a file begins as a text of numbers does.
fn has_numbers(file: impl Read + Drop) -> io::Result<bool> {
    let mut file = file;
    let mut head = [0; HEAD.len()];
    let count = file.read(&mut head)?;
    Ok(count == HEAD.len() && head == *HEAD)
}
