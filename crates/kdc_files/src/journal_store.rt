//! The files of a journal in the system.
ghost use Rattle.std.specs.Prelude.{◌≡◌};
ghost use Rattle.kdc_files.specs.Unrecorded.{no_world};

use crate::files::ServerFileError;
use crate::journal_files::{open_locked, open_newer, read_path, read_seal_file, text_in};
use crate::journal_parts::{JournalPaths, require_replaceable};
use file_store::{OWNER_ONLY, sync_folder};
use journal::{BeginError, Begun, FileText, JournalFiles, Left, News, Part};
use std::alloc::Global;
use std::fs::{File, OpenFile, OpenOptions};
use std::io::{Error, ErrorKind, Write};
use std::os::unix::fs::OpenOptionsExt;
use std::rt::Files;
use std::{fs, io};

/// Where a journal is, and what takes the log lines about its files.
#[derive(Drop)]
pub struct JournalPlace<'a, 'p, F, W> {
    /// The files of the system.
    pub files: &'a F,
    /// The path of the file that is appended to. The paths of its other files begin with this one.
    pub path: &'p str,
    /// Takes the log lines about the journal's files.
    pub lines: W,
}

/// The files of a journal, which this process holds. It logs what becomes of them, and keeps no record of what they
/// hold.
#[derive(Drop)]
pub struct SystemJournal<'a, F, W> {
    files: &'a F,
    paths: JournalPaths,
    /// The file whose lock keeps other servers from this journal, as long as it is open.
    lock: File,
    /// The file that is appended to, if it is there.
    newer: Option<File>,
    /// Takes the log lines.
    lines: W,
}

impl<'a, F: Files<File = File>, W: Write + Drop> SystemJournal<'a, F, W> {
    /// Locks the journal at its place, and opens it. If something else has one of the journal's names, it fails and
    /// changes nothing.
    pub fn open(
        alloc: Global,
        place: JournalPlace<'a, '_, F, W>,
    ) -> Result<SystemJournal<'a, F, W>, ServerFileError> {
        let JournalPlace { files, path, lines } = place;
        let paths = JournalPaths::new(alloc, path)?;
        paths.check(alloc, files)?;
        let lock = open_locked(alloc, files, path)?;
        let newer = open_newer(files, path)?;
        Ok(SystemJournal {
            files,
            paths,
            lock,
            newer,
            lines,
        })
    }

    /// Returns the length of the newer file, in octets, or 0 if it isn't known.
    pub fn len(&self) -> u64 {
        match &self.newer {
            Some(file) => match file.metadata() {
                Ok(file) => file.len(),
                Err(_) => 0,
            },
            None => 0,
        }
    }

    /// Removes the journal, but for the file that is locked. The newer file goes last, since its floor is above all
    /// that the others hold.
    pub fn remove(&mut self, alloc: Global) -> io::Result<()> {
        self.newer = None;
        for path in [
            self.paths.older.as_str(),
            self.paths.beside.as_str(),
            self.paths.newer.as_str(),
        ] {
            require_replaceable(alloc, self.files, path)?;
            remove_if_there(self.files, path)?;
        }
        remove_if_there(self.files, self.paths.seal.as_str())
    }

    /// Syncs the older file to the disk, if it is there.
    fn sync_older(&self) -> io::Result<()> {
        match File::open(self.files, self.paths.older.as_str()) {
            Ok(older) => older.sync_all(),
            Err(error) if error.kind() == ErrorKind::NotFound => Ok(()),
            Err(error) => Err(error),
        }
    }

    /// Begins a file beside the newer one, and syncs it to the disk.
    fn write_beside(&self, alloc: Global, text: &[u8]) -> io::Result<File> {
        let beside = self.paths.beside.as_str();
        require_replaceable(alloc, self.files, beside)?;
        remove_if_there(self.files, beside)?;
        let mut how = OpenOptions::new();
        how.append(true).create_new(true).mode(OWNER_ONLY);
        let mut file = how.open(self.files, beside)?;
        write_record(&mut file, text)?;
        file.sync_all()?;
        Ok(file)
    }

    /// Makes the newer file the older one. If somebody removed it, the next start finds that it is missing.
    fn make_older(&self, alloc: Global) -> io::Result<()> {
        let (newer, older) = (self.paths.newer.as_str(), self.paths.older.as_str());
        require_replaceable(alloc, self.files, newer)?;
        require_replaceable(alloc, self.files, older)?;
        if_there(fs::rename(self.files, newer, older))
    }

    /// Removes the older file.
    fn remove_older(&self, alloc: Global) -> io::Result<()> {
        let older = self.paths.older.as_str();
        require_replaceable(alloc, self.files, older)?;
        remove_if_there(self.files, older)
    }

    /// Makes the file beside the newer one the newer one.
    fn make_newer(&self, alloc: Global) -> io::Result<()> {
        let newer = self.paths.newer.as_str();
        require_replaceable(alloc, self.files, newer)?;
        fs::rename(self.files, self.paths.beside.as_str(), newer)
    }

    /// Syncs the names of the files to the disk.
    fn sync_names(&self) -> io::Result<()> {
        sync_folder(self.files, self.paths.newer.as_str())
    }

    /// Begins a file that goes on behind the newer one.
    fn begin_linked(&self, alloc: Global, text: &[u8]) -> Result<File, BeginError<Error>> {
        let file = or_left(self.write_beside(alloc, text), Left::Before)?;
        or_left(self.make_older(alloc), Left::Before)?;
        or_left(self.make_newer(alloc), Left::Between)?;
        or_left(self.sync_names(), Left::InPlace)?;
        Ok(file)
    }

    /// Begins a file in place of both. What these hold is on the disk until the new one is.
    fn begin_anew(&self, alloc: Global, text: &[u8]) -> Result<File, BeginError<Error>> {
        let file = or_left(self.write_beside(alloc, text), Left::Before)?;
        or_left(self.make_newer(alloc), Left::Before)?;
        or_left(self.sync_names(), Left::InPlace)?;
        or_left(self.remove_older(alloc), Left::InPlace)?;
        or_left(self.sync_names(), Left::InPlace)?;
        Ok(file)
    }

    /// Begins a file in place of both. The older one goes first, since it may be why there is no room: the floor of the
    /// newer one is above all that it holds. If a turn was cut, the older one is the only one, and stays.
    fn begin_roomy(&self, alloc: Global, text: &[u8]) -> Result<File, BeginError<Error>> {
        if or_left(
            fs::exists(self.files, self.paths.newer.as_str()),
            Left::Before,
        )? {
            or_left(self.remove_older(alloc), Left::Before)?;
        }
        let file = or_left(self.write_beside(alloc, text), Left::Between)?;
        or_left(self.make_newer(alloc), Left::Between)?;
        or_left(self.sync_names(), Left::InPlace)?;
        or_left(self.remove_older(alloc), Left::InPlace)?;
        or_left(self.sync_names(), Left::InPlace)?;
        Ok(file)
    }

    /// Writes a seal beside the one that is there, and syncs it to the disk.
    fn write_seal(&self, check: &[u8; 16]) -> io::Result<()> {
        let beside = self.paths.seal_beside.as_str();
        remove_if_there(self.files, beside)?;
        let mut how = OpenOptions::new();
        how.append(true).create_new(true).mode(OWNER_ONLY);
        let mut seal = how.open(self.files, beside)?;
        write_record(&mut seal, check)?;
        seal.sync_all()
    }
}

impl<F: Files<File = File>, W: Write + Drop> JournalFiles for SystemJournal<'_, F, W> {
    type Fault = Error;

    ghost world = { no_world };

    fn append(&mut self, text: &[u8]) -> io::Result<()> {
        match &mut self.newer {
            Some(file) => write_record(file, text),
            None => Err(Error::from(ErrorKind::NotFound)),
        }
    }

    fn begin(&mut self, alloc: Global, text: &[u8], how: Begun) -> Result<(), BeginError<Error>> {
        let begun = match how {
            Begun::Linked => self.begin_linked(alloc, text),
            Begun::Anew => self.begin_anew(alloc, text),
            Begun::Roomy => self.begin_roomy(alloc, text),
        };
        match begun {
            Ok(file) => {
                self.newer = Some(file);
                Ok(())
            }
            Err(fault) => Err(fault),
        }
    }

    fn finish(&mut self) -> io::Result<()> {
        let newer = self.paths.newer.as_str();
        fs::rename(self.files, self.paths.beside.as_str(), newer)?;
        self.newer = open_newer(self.files, newer)?;
        self.sync_names()
    }

    fn read(&mut self, alloc: Global, part: Part) -> io::Result<FileText> {
        match part {
            Part::Older => read_path(alloc, self.files, self.paths.older.as_str()),
            Part::Newer => text_in(alloc, self.files, self.newer.as_ref()),
            Part::Beside => read_path(alloc, self.files, self.paths.beside.as_str()),
        }
    }

    fn read_seal(&mut self, alloc: Global) -> io::Result<Vec<u8>> {
        read_seal_file(alloc, self.files, self.paths.seal.as_str())
    }

    fn seal(&mut self, check: &[u8; 16]) -> io::Result<()> {
        self.sync_older()?;
        match &self.newer {
            Some(newer) => newer.sync_all()?,
            None => return Err(Error::from(ErrorKind::NotFound)),
        }
        self.write_seal(check)?;
        fs::rename(
            self.files,
            self.paths.seal_beside.as_str(),
            self.paths.seal.as_str(),
        )?;
        self.sync_names()
    }

    fn unseal(&mut self) -> io::Result<()> {
        let mut how = OpenOptions::new();
        how.write(true);
        match how.open(self.files, self.paths.seal.as_str()) {
            Ok(seal) => {
                seal.set_len(0)?;
                seal.sync_all()
            }
            Err(error) if error.kind() == ErrorKind::NotFound => Ok(()),
            Err(error) => Err(error),
        }
    }

    fn say(&mut self, news: News<Error>)
        ensures { no_world self.new ≡ no_world self.old }
    {
        let path = self.paths.newer.as_str();
        let _ = match news {
            News::NotTurned(fault) => writeln!(self.lines, "kdcd: journal {path}: {fault}"),
            News::Lost(fault) => writeln!(
                self.lines,
                "kdcd: journal {path}: {fault}; no reply is sent until it can be written"
            ),
            News::Mended => {
                writeln!(self.lines, "kdcd: journal {path}: it can be written again")
            }
        };
    }
}

/// Appends a text by one write.
fn write_record(file: &mut File, text: &[u8]) -> io::Result<()> {
    if file.write(text)? == text.len() {
        return Ok(());
    }
    Err(Error::new(ErrorKind::WriteZero, "a record was cut"))
}

fn remove_if_there<F: Files>(files: &F, path: &str) -> io::Result<()> {
    if_there(fs::remove_file(files, path))
}

/// Turns a failure because nothing is there into a success.
fn if_there(done: io::Result<()>) -> io::Result<()> {
    match done {
        Err(error) if error.kind() == ErrorKind::NotFound => Ok(()),
        done => done,
    }
}

/// Adds to a failure what it left.
fn or_left<T>(done: io::Result<T>, left: Left) -> Result<T, BeginError<Error>> {
    match done {
        Ok(value) => Ok(value),
        Err(fault) => Err(BeginError { fault, left }),
    }
}
